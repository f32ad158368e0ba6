//! The report: what a run tells of the design, the lattice, the passes and each net.

ghost use Rattle.std.specs.Prelude.{◌≡◌, ◌+◌, OnOk, IfOk, flat_map};
ghost use Rattle.ses_writer.specs.Words.{Appends};
ghost use Rattle.route_report.specs.Report.{board_line, size_line, drop_line, pass_line};
ghost use Rattle.route_report.specs.Report.{pass_lines, head_lines, run_lines, report_of};

use crate::input::ReportInput;
use crate::nets::{put_nets, put_totals};
use crate::words::{put_count, put_counted, put_pair};
use pcb_board::Board;
use pcb_model::Design;
use route_lattice::Lattice;
use route_run::{Facts, PassLine};
use ses_writer::{put, put_word};
use std::alloc::{AllocError, Global};

#[tactic(auto, unfolding(crate::specs::Report::board_line))]
fn put_board(out: &mut Vec<u8>, d: &Design) -> Result<(), AllocError>
    ensures { OnOk result (Appends out.old.items out.new.items (board_line d.now)) }
{
    put(out, b"board ")?;
    put_word(out, d.name.as_slice())?;
    put(out, b"\n")
}

#[tactic(auto, unfolding(crate::specs::Report::size_line))]
fn put_size(out: &mut Vec<u8>, d: &Design) -> Result<(), AllocError>
    ensures { OnOk result (Appends out.old.items out.new.items (size_line d.now)) }
{
    put_counted(out, b"layers ", d.layers.len() as u64)?;
    put_counted(out, b" nets ", d.nets.len() as u64)?;
    put_count(out, b" pins ", d.pins.len() as u64)
}

fn put_drops(out: &mut Vec<u8>, places: &[u64]) -> Result<(), AllocError>
    ensures { OnOk result (Appends out.old.items out.new.items (flat_map drop_line places.now)) }
{
    for place in places {
        put_count(out, b"drop ", *place)?;
    }
    Ok(())
}

#[tactic(auto, unfolding(crate::specs::Report::head_lines, crate::specs::Report::lattice_line))]
fn put_head(out: &mut Vec<u8>, d: &Design, facts: &Facts) -> Result<(), AllocError>
    ensures { OnOk result (Appends out.old.items out.new.items (head_lines d.now facts.now)) }
{
    put_board(out, d)?;
    put_size(out, d)?;
    put_pair(out, b"grid ", facts.grid, b" nodes ", facts.nodes)?;
    put_count(out, b"dropped ", facts.dropped.len() as u64)?;
    put_drops(out, facts.dropped.as_slice())?;
    put_count(out, b"notes ", d.notes)
}

#[tactic(auto, unfolding(crate::specs::Report::pass_line))]
fn put_pass(out: &mut Vec<u8>, number: u64, pass: &PassLine) -> Result<(), AllocError>
    ensures { OnOk result (Appends out.old.items out.new.items (pass_line (number, pass.now))) }
{
    put_counted(out, b"pass ", number)?;
    put_pair(out, b" commits ", pass.commits, b" open ", pass.parted)
}

fn put_passes(out: &mut Vec<u8>, passes: &[PassLine]) -> Result<(), AllocError>
    ensures { OnOk result (Appends out.old.items out.new.items (pass_lines passes.now)) }
{
    for (i, pass) in passes.iter().enumerate() {
        put_pass(out, i as u64 + 1, pass)?;
    }
    Ok(())
}

#[tactic(auto, unfolding(crate::specs::Report::run_lines))]
fn put_run(out: &mut Vec<u8>, facts: &Facts) -> Result<(), AllocError>
    ensures { OnOk result (Appends out.old.items out.new.items (run_lines facts.now)) }
{
    put_passes(out, facts.passes.as_slice())?;
    put_count(out, b"kept ", u64::from(facts.kept))?;
    put_count(out, b"joins ", facts.joins)
}

#[tactic(auto, unfolding(crate::specs::Report::report_of))]
fn put_report(out: &mut Vec<u8>, alloc: Global, input: &ReportInput<'_>) -> Result<(), AllocError>
    ensures { let i = input.now in OnOk result (Appends out.old.items out.new.items
        (report_of i.d.now i.lat.now i.board.now.items i.facts.now i.short)) }
{
    put_head(out, input.d, input.facts)?;
    put_run(out, input.facts)?;
    put_nets(out, alloc, input)?;
    put_totals(out, alloc, input.d, input.facts)
}

/// The report's bytes. With `short` the lines of what blocks a cut and of its reached nodes are left out.
/// The only error is want of memory.
pub fn report_text(
    alloc: Global,
    d: &Design,
    lat: &Lattice,
    board: &Board,
    facts: &Facts,
    short: bool,
) -> Result<Vec<u8>, AllocError>
    ensures { IfOk result (λ text. text.items ≡ report_of d.now lat.now board.now.items facts.now short) }
{
    let mut text = Vec::new(alloc);
    let input = ReportInput {
        d,
        lat,
        board,
        facts,
        short,
    };
    put_report(&mut text, alloc, &input)?;
    Ok(text)
}
