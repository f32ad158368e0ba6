//! The entries of tiles: rows of tiles, each shared until it changes.
//! A change makes new tiles, rows and a new list of rows, and shares all that stays.

ghost use Rattle.std.specs.Prelude.{◌≡◌, ◌≤◌, ◌<◌, ◌^◌, [], ◌∷◌, ◌++◌, IfOk, cond, filter, ltb, replicate};
ghost use Rattle.geo_kernel.specs.declared.point.Rect4.{Rect4 as TheArea};
ghost use Rattle.pcb_model.specs.Bounds.{IsItemFit};
ghost use Rattle.pcb_tiles.specs.declared.cells.Entry.{Entry as OneEntry};
ghost use Rattle.pcb_tiles.specs.Tiling.{IsArea};
ghost use Rattle.pcb_tiles.specs.Cells.{entry_of, with_entry, without_entry, changed_cell, changed_row, changed_grid};
ghost use Rattle.pcb_tiles.specs.Cells.{grid_of};

use crate::block::{Block, columns_in, is_from_to, rows_in};
use geo_kernel::{List, Rect4};
use pcb_model::{Extent, Item};
use shared_value::Shared;
use std::alloc::{AllocError, Global};

/// An item's entry in a tile. The id and the extent stand here so that a search seldom looks at the item.
#[derive(Drop)]
pub(crate) struct Entry {
    pub(crate) id: u64,
    pub(crate) extent: Extent,
    pub(crate) item: Shared<Item>,
}

/// The entries of one tile, in order of id.
pub(crate) type Cell = Shared<List<Entry>>;

pub(crate) type Row = Shared<List<Cell>>;

pub(crate) type Grid = Shared<List<Row>>;

/// A change of the items.
#[derive(Drop)]
pub(crate) enum Change {
    Put(Entry),
    Drop(u64),
}

impl Entry {
    pub(crate) fn of_item(item: &Shared<Item>) -> Result<Entry, AllocError>
        requires { IsItemFit item.now }
        ensures { IfOk result (λ e. e ≡ entry_of item.now) }
    {
        let held = item.get();
        Ok(Entry {
            id: held.id,
            extent: Extent::of_item(held),
            item: item.share()?,
        })
    }

    /// An equal entry.
    pub(crate) fn share(&self) -> Result<Entry, AllocError>
        ensures { IfOk result (λ e. e ≡ self.now) }
    {
        Ok(Entry {
            id: self.id,
            extent: self.extent,
            item: self.item.share()?,
        })
    }
}

fn add_below(cell: &[Entry], id: u64, entries: &mut List<Entry>) -> Result<(), AllocError>
    ensures { IfOk result (λ _. entries.new ≡ entries.old ++ filter (λ (f : OneEntry). ltb f.id id) cell.now) }
{
    for f in cell {
        if f.id < id {
            entries.push(f.share()?)?;
        }
    }
    Ok(())
}

fn add_above(cell: &[Entry], id: u64, entries: &mut List<Entry>) -> Result<(), AllocError>
    ensures { IfOk result (λ _. entries.new ≡ entries.old ++ filter (λ (f : OneEntry). ltb id f.id) cell.now) }
{
    for f in cell {
        if id < f.id {
            entries.push(f.share()?)?;
        }
    }
    Ok(())
}

fn put(alloc: Global, e: &Entry, cell: &[Entry]) -> Result<List<Entry>, AllocError>
    ensures { IfOk result (λ c. c ≡ with_entry e.now cell.now) }
{
    let mut entries = List::new(alloc);
    add_below(cell, e.id, &mut entries)?;
    entries.push(e.share()?)?;
    add_above(cell, e.id, &mut entries)?;
    Ok(entries)
}

fn take(alloc: Global, id: u64, cell: &[Entry]) -> Result<List<Entry>, AllocError>
    ensures { IfOk result (λ c. c ≡ without_entry id cell.now) }
{
    let mut entries = List::new(alloc);
    for f in cell {
        if f.id != id {
            entries.push(f.share()?)?;
        }
    }
    Ok(entries)
}

fn change_cell(alloc: Global, change: &Change, cell: &[Entry]) -> Result<List<Entry>, AllocError>
    ensures { IfOk result (λ c. c ≡ changed_cell change.now cell.now) }
{
    match change {
        Change::Put(e) => put(alloc, e, cell),
        Change::Drop(id) => take(alloc, *id, cell),
    }
}

fn next_cell(alloc: Global, change: &Change, changes: bool, cell: &Cell) -> Result<Cell, AllocError>
    ensures { IfOk result (λ c. c ≡ cond changes (changed_cell change.now cell.now) cell.now) }
{
    if changes {
        let cell = change_cell(alloc, change, cell.get().as_slice())?;
        Ok(Shared::new(alloc, cell)?)
    } else {
        cell.share()
    }
}

fn change_row(
    alloc: Global,
    change: &Change,
    b: &Block,
    row: &[Cell],
) -> Result<List<Cell>, AllocError>
    ensures { IfOk result (λ r. r ≡ changed_row change.now b.now row.now) }
{
    let mut cells = List::new(alloc);
    for i in 0..row.len() {
        let changes = is_from_to(b.first_column, b.last_column, i);
        cells.push(next_cell(alloc, change, changes, &row[i])?)?;
    }
    Ok(cells)
}

fn next_row(
    alloc: Global,
    change: &Change,
    b: &Block,
    changes: bool,
    row: &Row,
) -> Result<Row, AllocError>
    ensures { IfOk result (λ r. r ≡ cond changes (changed_row change.now b.now row.now) row.now) }
{
    if changes {
        let row = change_row(alloc, change, b, row.get().as_slice())?;
        Ok(Shared::new(alloc, row)?)
    } else {
        row.share()
    }
}

fn change_rows(
    alloc: Global,
    change: &Change,
    b: &Block,
    rows: &[Row],
) -> Result<List<Row>, AllocError>
    ensures { IfOk result (λ g. g ≡ changed_grid change.now b.now rows.now) }
{
    let mut changed = List::new(alloc);
    for i in 0..rows.len() {
        let changes = is_from_to(b.first_row, b.last_row, i);
        changed.push(next_row(alloc, change, b, changes, &rows[i])?)?;
    }
    Ok(changed)
}

/// The tiles with a change in a block of them.
pub(crate) fn change_grid(
    alloc: Global,
    change: &Change,
    b: &Block,
    grid: &Grid,
) -> Result<Grid, AllocError>
    ensures { IfOk result (λ g. g ≡ changed_grid change.now b.now grid.now) }
{
    let rows = change_rows(alloc, change, b, grid.get().as_slice())?;
    Ok(Shared::new(alloc, rows)?)
}

// So many shares of a value.
fn shares<T: Drop>(
    alloc: Global,
    value: &Shared<T>,
    count: usize,
) -> Result<List<Shared<T>>, AllocError>
    ensures { IfOk result (λ l. l ≡ replicate count value.now) }
{
    let mut shares = List::new(alloc);
    for _one in 0..count {
        shares.push(value.share()?)?;
    }
    Ok(shares)
}

fn empty_row(alloc: Global, columns: usize) -> Result<Row, AllocError>
    ensures { IfOk result (λ r. r ≡ replicate columns []) }
{
    let cell = Shared::new(alloc, List::new(alloc))?;
    let cells = shares(alloc, &cell, columns)?;
    Ok(Shared::new(alloc, cells)?)
}

/// Tiles without entries, all of them shares of one tile.
pub(crate) fn empty_grid(alloc: Global, area: Rect4) -> Result<Grid, AllocError>
    requires { IsArea area }
    ensures { IfOk result (λ g. g ≡ grid_of area []) }
{
    let row = empty_row(alloc, columns_in(area))?;
    let rows = shares(alloc, &row, rows_in(area))?;
    Ok(Shared::new(alloc, rows)?)
}
