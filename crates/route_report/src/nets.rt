//! What the report tells of the nets: each net's line and its cuts, and how many nets are complete and open.

ghost use Rattle.std.specs.Prelude.{◌≡◌, ◌==◌, ℕ, ◌+◌, ◌<◌, ◌^◌, ◌++◌, [], OnOk, IfOk, All, Vec, count_by};
ghost use Rattle.std.specs.Prelude.{flat_map, length};
ghost use Rattle.std.specs.List.{enumerate_from};
ghost use Rattle.std.specs.Global.{Global as Memory};
ghost use Rattle.ses_writer.specs.Words.{Appends};
ghost use Rattle.route_report.specs.Report.{told_cut, verdict_words, net_line, net_lines, total_line};
ghost use Rattle.route_report.specs.inner.Tallies.{AddsOne, AreCounts, AddsPiece, TellsCuts, told_lines};

use crate::cuts::put_cut;
use crate::input::ReportInput;
use crate::words::{put_count, put_pair};
use cut_certificate::Cut;
use pcb_model::{Design, Net};
use route_run::Facts;
use ses_writer::{put, put_word};
use std::alloc::{AllocError, Global};

// ---- how many cuts each net has

fn add_one(numbers: &mut Vec<u64>, net: u32)
    requires { All (λ n. n + 1 < 2 ^ 64) numbers.old.items }
    ensures { AddsOne net numbers.old.items numbers.new.items }
{
    let at = net as usize;
    if at < numbers.len() {
        numbers[at] += 1;
    }
}

// In one pass over the cuts.
fn cut_counts(alloc: Global, cuts: &[Cut], nets: usize) -> Result<Vec<u64>, AllocError>
    ensures { IfOk result (λ counts. AreCounts cuts.now nets counts.items) }
{
    let mut counts = vec![in alloc; 0; nets]?;
    for cut in cuts {
        add_one(&mut counts, cut.net);
    }
    Ok(counts)
}

// ---- what is told of each net's cuts

fn empty_texts(alloc: Global, count: usize) -> Result<Vec<Vec<u8>>, AllocError>
    ensures count_is { IfOk result (λ v. length v.items ≡ count) }
    ensures all_empty { IfOk result (λ v. All (λ (t : Vec ℕ Memory). t.items ≡ []) v.items) }
{
    let mut texts = Vec::new(alloc);
    for _ in 0..count {
        texts.push(Vec::new(alloc))?;
    }
    Ok(texts)
}

fn add_cut(
    texts: &mut Vec<Vec<u8>>,
    alloc: Global,
    input: &ReportInput<'_>,
    number: usize,
    cut: &Cut,
) -> Result<(), AllocError>
    ensures { let i = input.now in OnOk result (AddsPiece cut.now.net
        (told_cut i.d.now i.lat.now i.board.now.items i.facts.now i.short (number, cut.now))
        texts.old.items texts.new.items) }
{
    let at = cut.net as usize;
    if at < texts.len() {
        let text = &mut texts[at];
        put_cut(text, alloc, input, number, cut)?;
    }
    Ok(())
}

// In one pass over the cuts.
fn cut_texts(
    alloc: Global,
    input: &ReportInput<'_>,
    cuts: &[Cut],
) -> Result<Vec<Vec<u8>>, AllocError>
    ensures { let i = input.now in IfOk result (λ texts. TellsCuts
        (told_cut i.d.now i.lat.now i.board.now.items i.facts.now i.short) cuts.now (length i.d.now.nets)
        texts.items) }
{
    let mut texts = empty_texts(alloc, input.d.nets.len())?;
    for (number, cut) in cuts.iter().enumerate() {
        add_cut(&mut texts, alloc, input, number, cut)?;
    }
    Ok(texts)
}

// ---- the nets

fn put_verdict(out: &mut Vec<u8>, count: u64) -> Result<(), AllocError>
    ensures { OnOk result (Appends out.old.items out.new.items (verdict_words count)) }
{
    if count == 0 {
        return put(out, b" complete\n");
    }
    put_count(out, b" open ", count)
}

#[tactic(auto, unfolding(crate::specs::Report::net_line))]
fn put_net(out: &mut Vec<u8>, net: &Net, count: u64, lines: &[u8]) -> Result<(), AllocError>
    ensures { OnOk result (Appends out.old.items out.new.items (net_line net.now.name count ++ lines.now)) }
{
    put(out, b"net ")?;
    put_word(out, net.name.as_slice())?;
    put_verdict(out, count)?;
    put(out, lines)
}

// The lines of each net, by how many cuts it has and what is told of these.
fn put_told(
    out: &mut Vec<u8>,
    nets: &[Net],
    counts: &[u64],
    texts: &[Vec<u8>],
) -> Result<(), AllocError>
    requires counts { length counts.now ≡ length nets.now }
    requires texts { length texts.now ≡ length nets.now }
    ensures { OnOk result (Appends out.old.items out.new.items
        (flat_map (told_lines counts.now texts.now) (enumerate_from 0 nets.now))) }
{
    for (i, net) in nets.iter().enumerate() {
        put_net(out, net, counts[i], texts[i].as_slice())?;
    }
    Ok(())
}

/// The lines of each net, in the design's order.
pub(crate) fn put_nets(
    out: &mut Vec<u8>,
    alloc: Global,
    input: &ReportInput<'_>,
) -> Result<(), AllocError>
    ensures { let i = input.now in OnOk result (Appends out.old.items out.new.items
        (flat_map (net_lines i.d.now i.lat.now i.board.now.items i.facts.now i.short)
        (enumerate_from 0 i.d.now.nets))) }
{
    let counts = cut_counts(alloc, input.facts.cuts.as_slice(), input.d.nets.len())?;
    let texts = cut_texts(alloc, input, input.facts.cuts.as_slice())?;
    put_told(
        out,
        input.d.nets.as_slice(),
        counts.as_slice(),
        texts.as_slice(),
    )
}

fn zeros(counts: &[u64]) -> usize
    ensures { result ≡ count_by (λ n. n == 0) counts.now }
{
    let mut count = 0;
    for n in counts {
        if *n == 0 {
            count += 1;
        }
    }
    count
}

/// How many nets are complete, and how many open.
#[tactic(auto, unfolding(crate::specs::Report::total_line))]
pub(crate) fn put_totals(
    out: &mut Vec<u8>,
    alloc: Global,
    d: &Design,
    facts: &Facts,
) -> Result<(), AllocError>
    ensures { OnOk result (Appends out.old.items out.new.items (total_line d.now facts.now)) }
{
    let counts = cut_counts(alloc, facts.cuts.as_slice(), d.nets.len())?;
    let complete = zeros(&counts);
    let others = counts.len() - complete;
    put_pair(out, b"complete ", complete as u64, b" open ", others as u64)
}
