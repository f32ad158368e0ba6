//! Stretches: nodes that stand one after another on one row of the lattice.

ghost use Rattle.std.specs.Prelude.{◌≡◌, ◌/◌, ◌%◌, ℕ, List as Seq, OnOk, flat_map};
ghost use Rattle.ses_writer.specs.Words.{Appends};
ghost use Rattle.route_lattice.specs.Mesh.{Mesh, column as column_in};
ghost use Rattle.route_report.specs.Report.{stretch_line, goes_on as goes_on_in, stretches_from, stretch_lines};
ghost use Rattle.route_report.specs.Stretches.{Stretch, AreLongest, line_of};

use crate::words::{put_counted, put_pair};
use route_lattice::Lattice;
use std::alloc::AllocError;

// A quotient, which is 0 where the divisor is.
fn quotient(n: u64, by: u64) -> u64
    ensures { result ≡ n / by }
{
    match n.checked_div(by) {
        Some(q) => q,
        None => 0,
    }
}

// A remainder, which is the number where the divisor is 0.
fn remainder(n: u64, by: u64) -> u64
    ensures { result ≡ n % by }
{
    match n.checked_rem(by) {
        Some(r) => r,
        None => n,
    }
}

fn column(lat: &Lattice, node: u32) -> u64
    ensures { result ≡ column_in lat.now node }
{
    remainder(u64::from(node), lat.xs().len() as u64)
}

fn goes_on(lat: &Lattice, last: u32, node: u32) -> bool
    ensures { result ≡ goes_on_in lat.now last node }
{
    u64::from(node) == u64::from(last) + 1 && column(lat, node) != 0
}

#[tactic(auto, unfolding(crate::specs::Report::stretch_line))]
fn put_stretch(out: &mut Vec<u8>, lat: &Lattice, first: u32, last: u32) -> Result<(), AllocError>
    ensures { OnOk result (Appends out.old.items out.new.items (stretch_line lat.now first last)) }
{
    let line = quotient(u64::from(first), lat.xs().len() as u64);
    let rows = lat.ys().len() as u64;
    put_counted(out, b"run ", quotient(line, rows))?;
    put_counted(out, b" ", remainder(line, rows))?;
    put_pair(out, b" ", column(lat, first), b" ", column(lat, last))
}

fn put_stretches_from(
    out: &mut Vec<u8>,
    lat: &Lattice,
    node: u32,
    others: &[u32],
) -> Result<(), AllocError>
    ensures { OnOk result (Appends out.old.items out.new.items (stretches_from lat.now node node others.now)) }
{
    let mut first = node;
    let mut last = node;
    for next in others {
        if !goes_on(lat, last, *next) {
            put_stretch(out, lat, first, last)?;
            first = *next;
        }
        last = *next;
    }
    put_stretch(out, lat, first, last)
}

/// The lines of stretches are those of the longest ones: the nodes, in order, are stretches of which each goes on from
/// node to node of one row, and none to the next stretch. A law, on a call that does nothing.
pub fn stretches_are_longest()
    ensures { (m : Mesh) (nodes : Seq ℕ) → (stretches : Seq Stretch) × AreLongest m nodes stretches
        × (stretch_lines m nodes ≡ flat_map (line_of m) stretches) }
{}

/// A line for each longest stretch of nodes of one row.
pub(crate) fn put_stretches(
    out: &mut Vec<u8>,
    lat: &Lattice,
    nodes: &[u32],
) -> Result<(), AllocError>
    ensures { OnOk result (Appends out.old.items out.new.items (stretch_lines lat.now nodes.now)) }
{
    match nodes {
        [] => Ok(()),
        [node, others @ ..] => put_stretches_from(out, lat, *node, others),
    }
}
