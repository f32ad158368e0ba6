//! The lines of one cut.

ghost use Rattle.std.specs.Prelude.{◌≡◌, ◌<◌, ◌≤◌, ◌++◌, ◌∷◌, ◌↔◌, [], ℕ, List as Seq, MatchOption, MatchResult, OnOk};
ghost use Rattle.std.specs.Prelude.{IfOk, IfSome, codes, length, slice_get, true};
ghost use Rattle.std.specs.Option.{option_copied};
ghost use Rattle.pcb_model.specs.declared.item.Kind.{Kind as TheKind};
ghost use Rattle.report_form.specs.Form.{CutTold, NetTold, RunTold, Told as TheTold, kind_word, value};
ghost use Rattle.report_form.specs.declared.cuts.Halt.TheVariants.{Memory};
ghost use Rattle.report_form.specs.inner.Fields.{HasCut, HasItem, HasRun, IsCutAt, ItemAt, RunAt};
ghost use Rattle.report_form.specs.inner.Halts.{AllItemsRead, BlockersRead, CutRead, IsHalted, IsHead, RunsRead};
ghost use Rattle.report_form.specs.inner.Halts.{IsSoFar, MostRead, OutsideRead, PartsAt, RunsReadTo};
ghost use Rattle.report_form.specs.inner.Halts.{may_follow as may_come};
ghost use Rattle.report_form.specs.declared.reading.ReadCut.{ReadCut as TheCut};
ghost use Rattle.report_form.specs.inner.State.{At, IsBeforeCut, IsEarly, IsPage, IsStopped, Page, Parts, firsts_after};

use crate::cursor::{after, four, one, two};
use crate::reading::{ReadCut, ReadRun};
use crate::spelling::name_at;
use crate::value::{capped, capped_short};
use geo_kernel::List;
use pcb_model::Kind;
use std::alloc::{AllocError, Global};

/// Why reading ends early: the rest that begins with a line that isn't in its place, or want of memory.
#[derive(Drop)]
pub(crate) enum Halt<'a> {
    Stop(&'a [u8]),
    Memory(AllocError),
}

impl From<AllocError> for Halt<'_> {
    ghost from_gives = { λ error e. e ≡ Memory error };

    fn from(error: AllocError) -> Self {
        Halt::Memory(error)
    }
}

/// Appends a value.
pub(crate) fn push<T: Drop>(values: &mut List<T>, value: T) -> Result<(), AllocError>
    ensures { OnOk result (values.new ≡ values.old ++ value ∷ []) }
{
    values.push(value)?;
    Ok(())
}

/// A cut's own line, and the rest behind it.
#[derive(Clone, Copy)]
struct CutLine<'a> {
    named: bool,
    reached: u64,
    blocked: u64,
    rest: &'a [u8],
}

// The line of a cut, where `first` is the name of the first pin of its place.
fn cut_line<'a>(text: &'a [u8], first: Option<&[u8]>) -> Option<CutLine<'a>>
    ensures { MatchOption result ((pin a b r : Seq ℕ) → HasCut (option_copied first.entry) pin a b r text.now → ⊥)
        (λ x. IsCutAt (option_copied first.entry) x.named x.reached x.blocked x.rest.now text.now) }
{
    let behind = after(text, b"cut ")?;
    let name = name_at(behind, first)?;
    let line = two(name.rest, b" reached ", b" blocked ")?;
    Some(CutLine {
        named: name.named,
        reached: capped(line.a),
        blocked: capped(line.b),
        rest: line.rest,
    })
}

// The words before an item's id.
fn word_of(kind: Kind) -> &'static [u8]
    ensures { result.now ≡ codes "by " ++ kind_word kind }
{
    match kind {
        Kind::Wire => b"by wire ",
        Kind::Via => b"by via ",
        Kind::Pin => b"by pin ",
        Kind::Smd => b"by smd ",
        Kind::Area => b"by area ",
    }
}

// The rest behind the line of an item of this kind.
fn after_kind<'a>(text: &'a [u8], kind: Kind) -> Option<&'a [u8]>
    ensures { MatchOption result ((id r : Seq ℕ) → HasItem (kind, id) r text.now → ⊥) (λ r. ItemAt r.now text.now) }
{
    let (_, rest) = one(text, word_of(kind))?;
    Some(rest)
}

// The rest behind the line of an item that shuts moves.
fn after_item<'a>(text: &'a [u8]) -> Option<&'a [u8]>
    ensures { MatchOption result ((item : TheKind × Seq ℕ) (r : Seq ℕ) → HasItem item r text.now → ⊥)
        (λ r. ItemAt r.now text.now) }
{
    if let Some(rest) = after_kind(text, Kind::Wire) {
        return Some(rest);
    }
    if let Some(rest) = after_kind(text, Kind::Via) {
        return Some(rest);
    }
    if let Some(rest) = after_kind(text, Kind::Pin) {
        return Some(rest);
    }
    if let Some(rest) = after_kind(text, Kind::Smd) {
        return Some(rest);
    }
    after_kind(text, Kind::Area)
}

// The rest behind all of these lines.
fn after_items<'a>(text: &'a [u8]) -> &'a [u8]
    ensures read { (p : Page) (h : TheTold) (ns : Seq NetTold) (w : Seq ℕ) (cs : Seq CutTold) (c : CutTold) → IsPage p
        → At p (Parts h ns w cs c) text.now → IsEarly c → AllItemsRead p h ns w cs c result.now }
    ensures shorter { length result.now ≤ length text.now }
{
    let mut left = text;
    for _taken in 0..text.len() {
        match after_item(left) {
            Some(next) => left = next,
            None => return left,
        }
    }
    left
}

fn begins_with(text: &[u8], byte: u8) -> bool
    ensures { (result ≡ true) ↔ IsHead byte text.now }
{
    match text.first() {
        Some(first) => *first == byte,
        None => false,
    }
}

// The rest behind the line of a boundary, or where there is none, of the lines before it.
fn after_outside<'a>(text: &'a [u8]) -> &'a [u8]
    ensures read { (p : Page) (h : TheTold) (ns : Seq NetTold) (w : Seq ℕ) (cs : Seq CutTold) (c : CutTold) → IsPage p
        → AllItemsRead p h ns w cs c text.now → OutsideRead p h ns w cs c result.now }
    ensures shorter { length result.now ≤ length text.now }
{
    match after(text, b"by outside\n") {
        Some(next) => next,
        None => text,
    }
}

// The rest behind the lines of items and of a boundary.
fn after_blockers<'a>(text: &'a [u8]) -> Result<&'a [u8], &'a [u8]>
    ensures read { (p : Page) (h : TheTold) (ns : Seq NetTold) (w : Seq ℕ) (cs : Seq CutTold) (c : CutTold) → IsPage p
        → At p (Parts h ns w cs c) text.now → IsEarly c
        → MatchResult result (λ r. BlockersRead p h ns w cs c r.now) (λ r. IsStopped p r.now) }
    ensures shorter { IfOk result (λ r. length r.now ≤ length text.now) }
{
    let left = after_outside(after_items(text));
    if begins_with(left, b'b') {
        Err(left)
    } else {
        Ok(left)
    }
}

#[derive(Clone, Copy)]
struct RunLine<'a> {
    run: ReadRun,
    rest: &'a [u8],
}

// The line of a stretch.
fn run_line<'a>(text: &'a [u8]) -> Option<RunLine<'a>>
    ensures { MatchOption result ((run : RunTold) (r : Seq ℕ) → HasRun run r text.now → ⊥)
        (λ x. RunAt x.run x.rest.now text.now) }
{
    let line = four(text, b"run ")?;
    Some(RunLine {
        run: ReadRun {
            level: capped_short(line.a),
            row: capped_short(line.b),
            first: capped_short(line.c),
            last: capped_short(line.e),
        },
        rest: line.rest,
    })
}

// A stretch, behind which no line of an item may come.
fn next_run<'a>(text: &'a [u8], runs: &mut List<ReadRun>) -> Result<&'a [u8], Halt<'a>>
    ensures read { (p : Page) (h : TheTold) (ns : Seq NetTold) (w : Seq ℕ) (cs : Seq CutTold) (c : CutTold) → IsPage p
        → RunsRead p h ns w cs c runs.old text.now → IsHead 114 text.now
        → MatchResult result (λ r. RunsRead p h ns w cs c runs.new r.now) (IsHalted p) }
    ensures shorter { IfOk result (λ r. length r.now < length text.now) }
{
    let Some(line) = run_line(text) else {
        return Err(Halt::Stop(text));
    };
    if begins_with(line.rest, b'b') {
        return Err(Halt::Stop(line.rest));
    }
    push(runs, line.run)?;
    Ok(line.rest)
}

// The stretches, and the rest behind them.
fn read_runs<'a>(text: &'a [u8], runs: &mut List<ReadRun>) -> Result<&'a [u8], Halt<'a>>
    ensures read { (p : Page) (h : TheTold) (ns : Seq NetTold) (w : Seq ℕ) (cs : Seq CutTold) (c : CutTold) → IsPage p
        → RunsRead p h ns w cs c runs.old text.now
        → MatchResult result (λ r. RunsReadTo p h ns w cs c runs.new r.now) (IsHalted p) }
    ensures shorter { IfOk result (λ r. length r.now ≤ length text.now) }
{
    let mut left = text;
    for _taken in 0..text.len() {
        if !begins_with(left, b'r') {
            return Ok(left);
        }
        match next_run(left, runs) {
            Ok(next) => left = next,
            Err(halt) => return Err(halt),
        }
    }
    Ok(left)
}

/// A cut, and the rest behind its lines but the last one.
#[derive(Drop)]
struct CutAt<'a> {
    cut: ReadCut,
    rest: &'a [u8],
}

// The stretches of a cut, behind its other lines.
fn read_stretches<'a>(
    alloc: Global,
    line: CutLine<'a>,
    text: &'a [u8],
) -> Result<CutAt<'a>, Halt<'a>>
    ensures read { (p : Page) (h : TheTold) (ns : Seq NetTold) (w : Seq ℕ) (cs : Seq CutTold) (c : CutTold) → IsPage p
        → BlockersRead p h ns w cs c text.now
        → MatchResult result (PartsAt p h ns w cs c line.entry) (IsHalted p) }
    ensures shorter { IfOk result (λ x. length x.rest.now ≤ length text.now) }
{
    let mut runs = List::new(alloc);
    match read_runs(text, &mut runs) {
        Ok(rest) => Ok(CutAt {
            cut: ReadCut {
                named: line.named,
                reached: line.reached,
                blocked: line.blocked,
                runs,
            },
            rest,
        }),
        Err(halt) => {
            drop(runs);
            Err(halt)
        }
    }
}

// The lines of a cut behind its own.
fn read_parts<'a>(alloc: Global, line: CutLine<'a>) -> Result<CutAt<'a>, Halt<'a>>
    ensures read { (p : Page) (h : TheTold) (ns : Seq NetTold) (w : Seq ℕ) (cs : Seq CutTold) (c : CutTold) → IsPage p
        → At p (Parts h ns w cs c) line.entry.rest.now → IsEarly c
        → MatchResult result (PartsAt p h ns w cs c line.entry) (IsHalted p) }
    ensures shorter { IfOk result (λ x. length x.rest.now ≤ length line.entry.rest.now) }
{
    match after_blockers(line.rest) {
        Ok(left) => read_stretches(alloc, line, left),
        Err(stop) => Err(Halt::Stop(stop)),
    }
}

// The lines of a cut but the last one.
fn read_most<'a>(alloc: Global, text: &'a [u8], first: Option<&[u8]>) -> Result<CutAt<'a>, Halt<'a>>
    ensures read { (p : Page) (h : TheTold) (ns : Seq NetTold) (w : Seq ℕ) (cs : Seq CutTold) → IsPage p
        → IsBeforeCut p h ns w cs text.now → length cs < value w
        → option_copied first.entry ≡ slice_get (firsts_after p.firsts ns) (length cs)
        → MatchResult result (λ x. MostRead p h ns w cs x.cut x.rest.now) (IsHalted p) }
    ensures shorter { IfOk result (λ x. length x.rest.now < length text.now) }
{
    match cut_line(text, first) {
        Some(line) => read_parts(alloc, line),
        None => Err(Halt::Stop(text)),
    }
}

// Whether a cut may tell how far moves at 45 degrees reach, or not, where those before told this.
fn may_follow(told: Option<bool>, wide: bool) -> bool
    ensures { result ≡ may_come told wide }
{
    match told {
        None => true,
        Some(before) => { if wide { before } else { !before } }
    }
}

/// Whether a cut tells how far moves at 45 degrees reach, and the rest behind its lines.
#[derive(Clone, Copy)]
struct LastAt<'a> {
    wide: bool,
    rest: &'a [u8],
}

// The last line of a cut, which begins the text; None where it isn't in its place.
fn wide_line<'a>(text: &'a [u8], told: Option<bool>) -> Option<LastAt<'a>>
    ensures read { (p : Page) (h : TheTold) (ns : Seq NetTold) (w : Seq ℕ) (cs : Seq CutTold) (k : TheCut) → IsPage p
        → MostRead p h ns w cs k text.now → IsSoFar ns cs told → IsHead 119 text.now
        → MatchOption result (IsStopped p text.now) (λ x. CutRead p h ns w cs k x.wide x.rest.now) }
    ensures shorter { IfSome result (λ x. length x.rest.now ≤ length text.now) }
{
    if !may_follow(told, true) {
        return None;
    }
    match one(text, b"wide ") {
        Some((_, rest)) => Some(LastAt { wide: true, rest }),
        None => None,
    }
}

// The last line of a cut, if there is one; None where it isn't in its place.
fn read_last<'a>(text: &'a [u8], told: Option<bool>) -> Option<LastAt<'a>>
    ensures read { (p : Page) (h : TheTold) (ns : Seq NetTold) (w : Seq ℕ) (cs : Seq CutTold) (k : TheCut) → IsPage p
        → MostRead p h ns w cs k text.now → IsSoFar ns cs told
        → MatchOption result (IsStopped p text.now) (λ x. CutRead p h ns w cs k x.wide x.rest.now) }
    ensures shorter { IfSome result (λ x. length x.rest.now ≤ length text.now) }
{
    if begins_with(text, b'w') {
        return wide_line(text, told);
    }
    if may_follow(told, false) {
        Some(LastAt {
            wide: false,
            rest: text,
        })
    } else {
        None
    }
}

/// A cut, whether it tells how far moves at 45 degrees reach, and the rest behind its lines.
#[derive(Drop)]
pub(crate) struct WholeCut<'a> {
    pub cut: ReadCut,
    pub wide: bool,
    pub rest: &'a [u8],
}

/// The lines of a cut, where the cuts before told this of moves at 45 degrees.
pub(crate) fn read_cut<'a>(
    alloc: Global,
    text: &'a [u8],
    first: Option<&[u8]>,
    told: Option<bool>,
) -> Result<WholeCut<'a>, Halt<'a>>
    ensures read { (p : Page) (h : TheTold) (ns : Seq NetTold) (w : Seq ℕ) (cs : Seq CutTold) → IsPage p
        → IsBeforeCut p h ns w cs text.now → length cs < value w → IsSoFar ns cs told
        → option_copied first.entry ≡ slice_get (firsts_after p.firsts ns) (length cs)
        → MatchResult result (λ x. CutRead p h ns w cs x.cut x.wide x.rest.now) (IsHalted p) }
    ensures shorter { IfOk result (λ x. length x.rest.now < length text.now) }
{
    match read_most(alloc, text, first) {
        Ok(CutAt { cut, rest }) => match read_last(rest, told) {
            Some(last) => Ok(WholeCut {
                cut,
                wide: last.wide,
                rest: last.rest,
            }),
            None => {
                drop(cut);
                Err(Halt::Stop(rest))
            }
        },
        Err(halt) => Err(halt),
    }
}
