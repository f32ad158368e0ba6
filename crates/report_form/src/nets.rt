//! The lines of the nets, and the last line.

ghost use Rattle.std.specs.Prelude.{◌≡◌, ◌==◌, ◌++◌, ◌+◌, ◌-◌, ◌^◌, [], ℕ, List as Seq, MatchOption, MatchResult};
ghost use Rattle.std.specs.Prelude.{length, slice_get, count_by, Bool, Option as Maybe};
ghost use Rattle.std.specs.Option.{option_copied};
ghost use Rattle.report_form.specs.Form.{NetTold, Told as TheTold, total_line};
ghost use Rattle.report_form.specs.Reading.{AreNetsKept, capped};
ghost use Rattle.report_form.specs.inner.Halts.{CutsAdded, IsHalted, IsNetLine, IsSoFar, NetHere, NetsRead};
ghost use Rattle.report_form.specs.inner.Halts.{OpenRead, WholeRead};
ghost use Rattle.report_form.specs.inner.State.{At, IsPage, IsStopped, Netting, Opened, Page, firsts_after};

use crate::cursor::{after, one, two};
use crate::cuts::{Halt, WholeCut, push, read_cut};
use crate::reading::ReadCut;
use crate::spelling::after_spelled;
use crate::value::{capped, writes};
use geo_kernel::{List, Name};
use pcb_model::{Design, Net};
use std::alloc::{AllocError, Global};

/// What a net's line says: it is complete, or how many islands it has.
#[derive(Clone, Copy)]
enum NetLine<'a> {
    Complete(&'a [u8]),
    Open(u64, &'a [u8]),
}

// The line of the net.
fn net_line<'a>(text: &'a [u8], net: &Net) -> Option<NetLine<'a>>
    ensures { IsNetLine net.now.name text.now result }
{
    let behind = after(text, b"net ")?;
    let words = after_spelled(behind, net.name.as_slice())?;
    if let Some(next) = after(words, b" complete\n") {
        return Some(NetLine::Complete(next));
    }
    let (digits, next) = one(words, b" open ")?;
    let islands = capped(digits);
    if islands < 2 {
        None
    } else {
        Some(NetLine::Open(islands, next))
    }
}

// The name of the first pin in a place, if there is one.
fn first_at(firsts: &[Name], at: u64) -> Option<&[u8]>
    ensures { option_copied result ≡ slice_get firsts.now at }
{
    if at < firsts.len() as u64 {
        Some(firsts[at as usize].as_slice())
    } else {
        None
    }
}

/// Where reading stands: what the cuts so far tell of moves at 45 degrees, if there is one, and the rest.
#[derive(Clone, Copy)]
struct NetAt<'a> {
    told: Option<bool>,
    rest: &'a [u8],
}

// So many cuts, and where reading stands behind them.
fn read_cuts<'a>(
    alloc: Global,
    at: NetAt<'a>,
    firsts: &[Name],
    islands: u64,
    cuts: &mut List<ReadCut>,
) -> Result<NetAt<'a>, Halt<'a>>
    requires { cuts.old ≡ [] }
    ensures { (p : Page) (h : TheTold) (ns : Seq NetTold) (w : Seq ℕ) → IsPage p
        → At p (Opened h ns w) at.entry.rest.now → IsSoFar ns [] at.entry.told → islands ≡ capped (2 ^ 64 - 1) w
        → firsts.now ≡ firsts_after p.firsts ns
        → MatchResult result (λ x. OpenRead p h ns w cuts.new x.told x.rest.now) (IsHalted p) }
{
    let mut left = at.rest;
    let mut told = at.told;
    for k in 0..islands {
        match read_cut(alloc, left, first_at(firsts, k), told) {
            Ok(WholeCut { cut, wide, rest }) => {
                push(cuts, cut)?;
                left = rest;
                told = Some(wide);
            }
            Err(halt) => return Err(halt),
        }
    }
    Ok(NetAt { told, rest: left })
}

// The cuts of a net with several islands become the last ones.
fn read_open<'a>(
    alloc: Global,
    at: NetAt<'a>,
    firsts: &[Name],
    islands: u64,
    nets: &mut List<List<ReadCut>>,
) -> Result<NetAt<'a>, Halt<'a>>
    ensures { (p : Page) (h : TheTold) (ns : Seq NetTold) (w : Seq ℕ) → IsPage p
        → At p (Opened h ns w) at.entry.rest.now → IsSoFar ns [] at.entry.told → islands ≡ capped (2 ^ 64 - 1) w
        → firsts.now ≡ firsts_after p.firsts ns
        → MatchResult result (λ x. CutsAdded p h ns w nets.old nets.new x.told x.rest.now) (IsHalted p) }
{
    let mut cuts = List::new(alloc);
    match read_cuts(alloc, at, firsts, islands, &mut cuts) {
        Ok(next) => {
            push(nets, cuts)?;
            Ok(next)
        }
        Err(halt) => {
            drop(cuts);
            Err(halt)
        }
    }
}

// The lines of a net: its cuts become the last ones.
fn read_net<'a>(
    alloc: Global,
    at: NetAt<'a>,
    net: &Net,
    firsts: &[Name],
    nets: &mut List<List<ReadCut>>,
) -> Result<NetAt<'a>, Halt<'a>>
    ensures { (p : Page) (h : TheTold) (count : ℕ) → IsPage p
        → NetsRead p h count nets.old at.entry.told at.entry.rest.now → NetHere p count net.now firsts.now
        → MatchResult result (λ x. NetsRead p h (count + 1) nets.new x.told x.rest.now) (IsHalted p) }
{
    let NetAt { told, rest } = at;
    match net_line(rest, net) {
        Some(NetLine::Complete(next)) => {
            push(nets, List::new(alloc))?;
            Ok(NetAt { told, rest: next })
        }
        Some(NetLine::Open(islands, next)) => {
            read_open(alloc, NetAt { told, rest: next }, firsts, islands, nets)
        }
        None => Err(Halt::Stop(rest)),
    }
}

// How many nets have no cut.
fn complete_count(nets: &[List<ReadCut>]) -> usize
    ensures { result ≡ count_by (λ cuts. length cuts == 0) nets.now }
{
    let mut count: usize = 0;
    for cuts in nets {
        if cuts.is_empty() {
            count += 1;
        }
    }
    count
}

// The rest behind the last line.
fn after_total<'a>(text: &'a [u8], nets: &[List<ReadCut>]) -> Option<&'a [u8]>
    ensures { (firsts : Seq (Seq (Seq ℕ))) (ns : Seq NetTold) → AreNetsKept firsts ns nets.now
        → MatchOption result ((r : Seq ℕ) → text.now ≡ total_line ns ++ r → ⊥)
        (λ r. text.now ≡ total_line ns ++ r.now) }
{
    let complete = complete_count(nets);
    let open = nets.len() - complete;
    let line = two(text, b"complete ", b" open ")?;
    if !writes(line.a, complete) {
        return None;
    }
    if !writes(line.b, open) {
        return None;
    }
    Some(line.rest)
}

// The end of the text, behind the last line.
fn ends<'a>(text: &'a [u8], nets: &[List<ReadCut>]) -> Result<(), &'a [u8]>
    ensures { (p : Page) (h : TheTold) (told : Maybe Bool) → IsPage p
        → NetsRead p h (length p.design.nets) nets.now told text.now
        → MatchResult result (λ _. WholeRead p nets.now) (λ r. IsStopped p r.now) }
{
    match after_total(text, nets) {
        Some(left) => { if left.is_empty() { Ok(()) } else { Err(left) } }
        None => Err(text),
    }
}

// The cuts of all nets.
fn read_each<'a>(
    alloc: Global,
    d: &Design,
    firsts: &[List<Name>],
    text: &'a [u8],
    nets: &mut List<List<ReadCut>>,
) -> Result<NetAt<'a>, Halt<'a>>
    requires empty { nets.old ≡ [] }
    requires same { length firsts.now ≡ length d.now.nets }
    ensures { (p : Page) (h : TheTold) → p.design ≡ d.now → p.firsts ≡ firsts.now → At p (Netting h []) text.now
        → MatchResult result (λ x. NetsRead p h (length p.design.nets) nets.new x.told x.rest.now) (IsHalted p) }
{
    let mut at = NetAt {
        told: None,
        rest: text,
    };
    for (i, net) in d.nets.as_slice().iter().enumerate() {
        match read_net(alloc, at, net, firsts[i].as_slice(), nets) {
            Ok(next) => at = next,
            Err(halt) => return Err(halt),
        }
    }
    Ok(at)
}

/// The cuts of all nets, where the text ends behind the last line.
pub(crate) fn read_nets<'a>(
    alloc: Global,
    d: &Design,
    firsts: &[List<Name>],
    text: &'a [u8],
) -> Result<List<List<ReadCut>>, Halt<'a>>
    requires same { length firsts.now ≡ length d.now.nets }
    ensures { (p : Page) (h : TheTold) → p.design ≡ d.now → p.firsts ≡ firsts.now → At p (Netting h []) text.now
        → MatchResult result (WholeRead p) (IsHalted p) }
{
    let mut nets = List::new(alloc);
    match read_each(alloc, d, firsts, text, &mut nets) {
        Ok(at) => match ends(at.rest, nets.as_slice()) {
            Ok(()) => Ok(nets),
            Err(stop) => {
                drop(nets);
                Err(Halt::Stop(stop))
            }
        },
        Err(halt) => {
            drop(nets);
            Err(halt)
        }
    }
}
