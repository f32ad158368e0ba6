//! Searches through the entries of tiles: for the least id, or for any.
//! A far entry costs one comparison of layers and boxes.

ghost use Rattle.std.specs.Prelude.{◌≡◌, ◌≤◌, ◌<◌, ◌+◌, Some, None, All, length, suc, sum_by};
ghost use Rattle.std.specs.Bool.{OnTrue, OnFalse};
ghost use Rattle.pcb_model.specs.declared.item.Item.{Item as OneItem};
ghost use Rattle.pcb_model.specs.Pieces.{pieces_of, metal_of};
ghost use Rattle.pcb_model.specs.Bounds.{IsItemFit, IsProbeFit};
ghost use Rattle.pcb_model.specs.Pairs.{Agrees, ProbeAgrees, AreTouching};
ghost use Rattle.pcb_model.specs.Near.{IsExtentOf};
ghost use Rattle.pcb_model.specs.Copper.{IsOther};
ghost use Rattle.pcb_tiles.specs.Tiling.{columns_of, rows_of};
ghost use Rattle.pcb_tiles.specs.Cells.{cell_at, row_in};
ghost use Rattle.pcb_tiles.specs.Searches.{IsAsking, IsUnder, IsEntry, IsBetter, IsPassed, CellSoFar, RowSoFar};
ghost use Rattle.pcb_tiles.specs.Searches.{HasColumns, HasBlock};
ghost use Rattle.pcb_tiles.specs.Searches.{RowsSoFar, IsMetIn, IsMetInRow, IsMetInRows, IsRowPassed, AreRowsPassed};

use crate::block::Block;
use crate::cells::{Cell, Entry, Row};
use pcb_model::{Design, Extent, Item, Probe, Steps, joins, pair_ok, probe_ok};
use std::sync::ledger::Ledger;

/// What is sought among items.
pub(crate) trait Seeks {
    /// What the call requires.
    ghost ready: { Self → Type 0 };

    /// What holds of an item that is sought, and of one that isn't.
    ghost yes: { Self → OneItem → Type 0 };

    ghost no: { Self → OneItem → Type 0 };

    /// Whether an item is sought.
    fn is_sought<L: Ledger>(&self, item: &Item, extent: &Extent, steps: &mut Steps<L>) -> bool
        requires ready { ready self.now }
        requires item_fits { IsItemFit item.now }
        requires extent_of { IsExtentOf item.now.pieces extent.now }
        ensures yes { OnTrue result (yes self.now item.now) }
        ensures no { OnFalse result (no self.now item.now) }
        ensures cost { steps.new ≤ steps.old + 1 };
}

/// Items that disagree with an item. A far one costs one comparison of boxes: no step, no clearance and no segment.
#[derive(Clone, Copy)]
pub(crate) struct Clashing<'a> {
    pub(crate) d: &'a Design,
    pub(crate) a: &'a Item,
    pub(crate) extent: Extent,
    pub(crate) reach: u64,
}

impl<'a> Seeks for Clashing<'a> {
    ghost ready = { λ s. IsAsking s.d.now s.reach s.a.now.pieces s.extent × IsItemFit s.a.now };

    ghost yes = { λ s b. IsOther (Some s.a.now.id) b × (Agrees s.d.now s.a.now b → ⊥) };

    ghost no = { λ s b. IsOther (Some s.a.now.id) b → Agrees s.d.now s.a.now b };

    fn is_sought<L: Ledger>(&self, item: &Item, extent: &Extent, steps: &mut Steps<L>) -> bool {
        if item.id == self.a.id {
            return false;
        }
        if self.extent.is_far_from(extent, self.reach) {
            return false;
        }
        !pair_ok(self.d, self.a, item, steps)
    }
}

/// Items that disagree with what a probe stands for.
#[derive(Clone, Copy)]
pub(crate) struct Blocking<'a> {
    pub(crate) d: &'a Design,
    pub(crate) net: u32,
    pub(crate) p: &'a Probe,
    pub(crate) extent: Extent,
    pub(crate) reach: u64,
}

impl<'a> Seeks for Blocking<'a> {
    ghost ready = { λ s. IsAsking s.d.now s.reach (pieces_of s.d.now (metal_of s.p.now)) s.extent
        × IsProbeFit s.d.now s.p.now };

    ghost yes = { λ s b. ProbeAgrees s.d.now s.net s.p.now b → ⊥ };

    ghost no = { λ s b. ProbeAgrees s.d.now s.net s.p.now b };

    fn is_sought<L: Ledger>(&self, item: &Item, extent: &Extent, steps: &mut Steps<L>) -> bool {
        if self.extent.is_far_from(extent, self.reach) {
            return false;
        }
        !probe_ok(self.d, self.net, self.p, item, steps)
    }
}

/// Items of an item's net that touch it.
#[derive(Clone, Copy)]
pub(crate) struct Joining<'a> {
    pub(crate) a: &'a Item,
    pub(crate) extent: Extent,
}

impl<'a> Seeks for Joining<'a> {
    ghost ready = { λ s. IsItemFit s.a.now × IsExtentOf s.a.now.pieces s.extent };

    ghost yes = { λ s b. IsOther (Some s.a.now.id) b × AreTouching s.a.now b };

    ghost no = { λ s b. IsOther (Some s.a.now.id) b → AreTouching s.a.now b → ⊥ };

    fn is_sought<L: Ledger>(&self, item: &Item, extent: &Extent, steps: &mut Steps<L>) -> bool {
        joins(self.a, &self.extent, item, extent, steps)
    }
}

// Whether an id is below the best one.
fn is_under(best: Option<u64>, id: u64) -> bool
    ensures yes { OnTrue result (IsUnder best id) }
    ensures no { OnFalse result (IsUnder best id → ⊥) }
{
    match best {
        Some(b) => id < b,
        None => true,
    }
}

// Whether an entry is sought, from an id on and under the best one. At most one step.
fn is_better<S: Seeks, L: Ledger>(
    s: &S,
    from: u64,
    best: Option<u64>,
    e: &Entry,
    steps: &mut Steps<L>,
) -> bool
    requires ready { S.ready s.now }
    requires entry { IsEntry e.now }
    ensures yes { OnTrue result (IsBetter (S.yes s.now) from best e.now) }
    ensures no { OnFalse result (IsPassed (S.no s.now) from best e.now) }
    ensures cost { steps.new ≤ steps.old + 1 }
{
    if e.id < from || !is_under(best, e.id) {
        return false;
    }
    s.is_sought(e.item.get(), &e.extent, steps)
}

// The best id after the entries of a tile.
fn best_in_cell<S: Seeks, L: Ledger>(
    s: &S,
    from: u64,
    best: Option<u64>,
    cell: &[Entry],
    steps: &mut Steps<L>,
) -> Option<u64>
    requires ready { S.ready s.now }
    requires entries { All IsEntry cell.now }
    ensures so { CellSoFar (S.yes s.now) (S.no s.now) from best result cell.now }
    ensures cost { steps.new ≤ steps.old + length cell.now }
{
    let mut found = best;
    for e in cell {
        if is_better(s, from, found, e, steps) {
            found = Some(e.id);
        }
    }
    found
}

// The best id after the tiles of a row, from `first` to `last`.
fn best_in_row<S: Seeks, L: Ledger>(
    s: &S,
    from: u64,
    best: Option<u64>,
    row: &[Cell],
    b: &Block,
    steps: &mut Steps<L>,
) -> Option<u64>
    requires ready { S.ready s.now }
    requires row { HasColumns row.now b.now }
    ensures so { RowSoFar (S.yes s.now) (S.no s.now) from best result row.now
        b.now.first_column (suc b.now.last_column) }
    ensures cost { steps.new ≤ steps.old + sum_by (λ column. length (cell_at row.now column)) (columns_of b.now) }
{
    let mut found = best;
    for column in b.first_column..b.last_column + 1 {
        found = best_in_cell(s, from, found, row[column].get().as_slice(), steps);
    }
    found
}

/// The least id at or above `from` of an entry that is sought, in a block of tiles.
pub(crate) fn best_in_rows<S: Seeks, L: Ledger>(
    s: &S,
    from: u64,
    rows: &[Row],
    b: &Block,
    steps: &mut Steps<L>,
) -> Option<u64>
    requires ready { S.ready s.now }
    requires rows { HasBlock rows.now b.now }
    ensures so { RowsSoFar (S.yes s.now) (S.no s.now) from result rows.now b.now (suc b.now.last_row) }
    ensures cost { steps.new ≤ steps.old + sum_by
        (λ row. sum_by (λ column. length (cell_at (row_in rows.now row) column)) (columns_of b.now))
        (rows_of b.now) }
{
    let mut found = None;
    for row in b.first_row..b.last_row + 1 {
        found = best_in_row(s, from, found, rows[row].get().as_slice(), b, steps);
    }
    found
}

// Whether an entry of a tile is sought. It ends at the first one.
fn any_in_cell<S: Seeks, L: Ledger>(s: &S, cell: &[Entry], steps: &mut Steps<L>) -> bool
    requires ready { S.ready s.now }
    requires entries { All IsEntry cell.now }
    ensures yes { OnTrue result (IsMetIn (S.yes s.now) cell.now) }
    ensures no { OnFalse result (All (IsPassed (S.no s.now) 0 None) cell.now) }
    ensures cost { steps.new ≤ steps.old + length cell.now }
{
    for e in cell {
        if s.is_sought(e.item.get(), &e.extent, steps) {
            return true;
        }
    }
    false
}

// Whether one in the tiles of a row is, from `first` to `last`.
fn any_in_row<S: Seeks, L: Ledger>(s: &S, row: &[Cell], b: &Block, steps: &mut Steps<L>) -> bool
    requires ready { S.ready s.now }
    requires row { HasColumns row.now b.now }
    ensures yes { OnTrue result (IsMetInRow (S.yes s.now) row.now b.now.first_column (suc b.now.last_column)) }
    ensures no { OnFalse result (IsRowPassed (S.no s.now) row.now b.now.first_column (suc b.now.last_column)) }
    ensures cost { steps.new ≤ steps.old + sum_by (λ column. length (cell_at row.now column)) (columns_of b.now) }
{
    for at in b.first_column..b.last_column + 1 {
        if any_in_cell(s, row[at].get().as_slice(), steps) {
            return true;
        }
    }
    false
}

/// Whether an entry is sought, in a block of tiles. It ends at the first one.
pub(crate) fn any_in_rows<S: Seeks, L: Ledger>(
    s: &S,
    rows: &[Row],
    b: &Block,
    steps: &mut Steps<L>,
) -> bool
    requires ready { S.ready s.now }
    requires rows { HasBlock rows.now b.now }
    ensures yes { OnTrue result (IsMetInRows (S.yes s.now) rows.now b.now) }
    ensures no { OnFalse result (AreRowsPassed (S.no s.now) rows.now b.now (suc b.now.last_row)) }
    ensures cost { steps.new ≤ steps.old + sum_by
        (λ row. sum_by (λ column. length (cell_at (row_in rows.now row) column)) (columns_of b.now))
        (rows_of b.now) }
{
    for at in b.first_row..b.last_row + 1 {
        if any_in_row(s, rows[at].get().as_slice(), b, steps) {
            return true;
        }
    }
    false
}
