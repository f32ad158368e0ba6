//! What the report tells of a cut: its island, what blocks it, and the nodes that it holds.

ghost use Rattle.std.specs.Prelude.{◌≡◌, ◌++◌, [], false, OnOk, IfOk, codes, filter, flat_map};
ghost use Rattle.ses_writer.specs.Words.{Appends};
ghost use Rattle.route_report.specs.Report.{pin_word};
ghost use Rattle.told_words.specs.PinNames.{component_name as component_name_of, name_of_pin, pin_name};
ghost use Rattle.route_report.specs.Report.{cut_line, kind_word};
ghost use Rattle.route_report.specs.Report.{has_outside as has_outside_in, by_line, outside_line, by_lines};
ghost use Rattle.route_report.specs.Report.{detail_lines, told_cut, wide_line};
ghost use Rattle.route_report.specs.Report.{wide_at as wide_in};
ghost use Rattle.route_report.specs.inner.Naming.{has_id, is_among, AreNamed, AreNamedOnce, AreAscending};

use crate::input::ReportInput;
use crate::stretches::put_stretches;
use crate::words::{put_count, put_pair};
use cut_certificate::{Block, Blocker, Cut};
use geo_kernel::List;
use pcb_model::{Copper, Design, Kind, Pin};
use pcb_tiles::Tiles;
use ses_writer::{put, put_word};
use std::alloc::{AllocError, Global};

fn component_name(d: &Design, component: u32) -> &[u8]
    ensures { result.now ≡ component_name_of d.now component }
{
    match d.components.as_slice().get(component as usize) {
        Some(c) => c.name.as_slice(),
        None => &[],
    }
}

// The component's name, a hyphen and the pin's name.
fn put_pin(out: &mut Vec<u8>, d: &Design, pin: &Pin) -> Result<(), AllocError>
    ensures { OnOk result (Appends out.old.items out.new.items (name_of_pin d.now pin.now)) }
{
    put(out, component_name(d, pin.component))?;
    put(out, b"-")?;
    put(out, pin.name.as_slice())
}

fn name_of(alloc: Global, d: &Design, pin: u32) -> Result<Vec<u8>, AllocError>
    ensures { IfOk result (λ name. name.items ≡ pin_name d.now pin) }
{
    let mut name = Vec::new(alloc);
    match d.pins.as_slice().get(pin as usize) {
        Some(p) => {
            put_pin(&mut name, d, p)?;
            Ok(name)
        }
        None => Ok(name),
    }
}

#[tactic(auto, unfolding(crate::specs::Report::pin_word))]
fn put_pin_word(out: &mut Vec<u8>, alloc: Global, d: &Design, pin: u32) -> Result<(), AllocError>
    ensures { OnOk result (Appends out.old.items out.new.items (pin_word d.now pin)) }
{
    let name = name_of(alloc, d, pin)?;
    put_word(out, &name)
}

#[tactic(auto, unfolding(crate::specs::Report::cut_line))]
fn put_cut_line(out: &mut Vec<u8>, alloc: Global, d: &Design, cut: &Cut) -> Result<(), AllocError>
    ensures { OnOk result (Appends out.old.items out.new.items (cut_line d.now cut.now)) }
{
    put(out, b"cut ")?;
    put_pin_word(out, alloc, d, cut.pin)?;
    let reached = cut.reach.nodes.len() as u64;
    put_pair(
        out,
        b" reached ",
        reached,
        b" blocked ",
        cut.blocked.len() as u64,
    )
}

// ---- what blocks

// The front of an item's line, with its kind.
fn put_kind(out: &mut Vec<u8>, kind: Kind) -> Result<(), AllocError>
    ensures { OnOk result (Appends out.old.items out.new.items (codes "by " ++ kind_word kind)) }
{
    match kind {
        Kind::Wire => put(out, b"by wire"),
        Kind::Via => put(out, b"by via"),
        Kind::Pin => put(out, b"by pin"),
        Kind::Smd => put(out, b"by smd"),
        Kind::Area => put(out, b"by area"),
    }
}

// The line of the item of an id, as far as there is one.
fn put_by_id(out: &mut Vec<u8>, copper: &Tiles, id: u64) -> Result<(), AllocError>
    ensures { OnOk result (Appends out.old.items out.new.items
        (flat_map by_line (filter (has_id id) copper.now.items))) }
{
    copper.in_order();
    match copper.item(id) {
        Some(item) => {
            put_kind(out, item.kind)?;
            put_count(out, b" ", item.id)
        }
        None => Ok(()),
    }
}

fn put_by_ids(out: &mut Vec<u8>, copper: &Tiles, ids: &[u64]) -> Result<(), AllocError>
    requires { AreAscending ids.now }
    ensures { OnOk result (Appends out.old.items out.new.items
        (flat_map by_line (filter (is_among ids.now) copper.now.items))) }
{
    copper.in_order();
    for id in ids {
        put_by_id(out, copper, *id)?;
    }
    Ok(())
}

// The ids that blocks name.
fn named_ids(alloc: Global, blocked: &[Block]) -> Result<Vec<u64>, AllocError>
    ensures { IfOk result (λ ids. AreNamed blocked.now ids.items) }
{
    let mut ids = Vec::new(alloc);
    for b in blocked {
        if let Blocker::Item(id) = b.by {
            ids.push(id)?;
        }
    }
    Ok(ids)
}

// The ids that blocks name, each once and ascending.
fn blocking_ids(alloc: Global, blocked: &[Block]) -> Result<Vec<u64>, AllocError>
    ensures { IfOk result (λ ids. AreNamedOnce blocked.now ids.items) }
{
    let mut ids = named_ids(alloc, blocked)?;
    ids.sort_unstable();
    ids.dedup();
    Ok(ids)
}

fn has_outside(blocked: &[Block]) -> bool
    ensures { result ≡ has_outside_in blocked.now }
{
    for b in blocked {
        if let Blocker::Outside = b.by {
            return true;
        }
    }
    false
}

fn put_outside(out: &mut Vec<u8>, blocked: &[Block]) -> Result<(), AllocError>
    ensures { OnOk result (Appends out.old.items out.new.items (outside_line blocked.now)) }
{
    if has_outside(blocked) {
        put(out, b"by outside\n")
    } else {
        Ok(())
    }
}

fn put_bys(
    out: &mut Vec<u8>,
    alloc: Global,
    copper: &Tiles,
    blocked: &[Block],
) -> Result<(), AllocError>
    ensures { OnOk result (Appends out.old.items out.new.items (by_lines copper.now.items blocked.now)) }
{
    let ids = blocking_ids(alloc, blocked)?;
    put_by_ids(out, copper, &ids)?;
    put_outside(out, blocked)
}

// ---- moves at 45 degrees

fn wide_at(wide: &Option<List<u64>>, number: usize) -> Option<u64>
    ensures { result ≡ wide_in wide.now number }
{
    match wide {
        Some(sizes) => {
            if number < sizes.len() {
                Some(sizes.as_slice()[number])
            } else {
                None
            }
        }
        None => None,
    }
}

fn put_wide(out: &mut Vec<u8>, wide: Option<u64>) -> Result<(), AllocError>
    ensures { OnOk result (Appends out.old.items out.new.items (wide_line wide)) }
{
    match wide {
        Some(size) => put_count(out, b"wide ", size),
        None => Ok(()),
    }
}

// ---- the whole

fn put_detail(
    out: &mut Vec<u8>,
    alloc: Global,
    input: &ReportInput<'_>,
    wide: Option<u64>,
    cut: &Cut,
) -> Result<(), AllocError>
    ensures { OnOk result (Appends out.old.items out.new.items
        (detail_lines input.now.lat.now input.now.board.now.items false wide cut.now)) }
{
    put_bys(out, alloc, input.board.items(), cut.blocked.as_slice())?;
    put_stretches(out, input.lat, cut.reach.nodes.as_slice())?;
    put_wide(out, wide)
}

/// The lines of the cut with this number among all; its own line alone in a short report.
#[tactic(auto, unfolding(crate::specs::Report::cut_lines))]
pub(crate) fn put_cut(
    out: &mut Vec<u8>,
    alloc: Global,
    input: &ReportInput<'_>,
    number: usize,
    cut: &Cut,
) -> Result<(), AllocError>
    ensures { let i = input.now in OnOk result (Appends out.old.items out.new.items
        (told_cut i.d.now i.lat.now i.board.now.items i.facts.now i.short (number, cut.now))) }
{
    put_cut_line(out, alloc, input.d, cut)?;
    if input.short {
        return Ok(());
    }
    let wide = wide_at(&input.facts.wide, number);
    put_detail(out, alloc, input, wide, cut)
}
