//! The parts of tiles for many items at once: the chunks of the shelf, and the grid.
//! Entries go to the rows of tiles, and from each row to its tiles, and are shared once at the end.

ghost use Rattle.std.specs.Prelude.{◌≡◌, ℕ, ◌≤◌, ◌<◌, ◌^◌, [], ◌∷◌, ◌++◌, All, IfOk, OnOk, cond, drop, length, map};
ghost use Rattle.std.specs.Prelude.{take as first_of};
ghost use Rattle.pcb_model.specs.declared.item.Item.{Item as OneItem};
ghost use Rattle.pcb_model.specs.Bounds.{IsItemFit};
ghost use Rattle.pcb_tiles.specs.Tiling.{IsArea, IsBlockIn, own_block, is_between};
ghost use Rattle.pcb_tiles.specs.Cells.{entry_of, cell_at, grid_of};
ghost use Rattle.pcb_tiles.specs.Filling.{IsMade, IsRun, count_along, places_along, row_of_tiles};
ghost use Rattle.pcb_tiles.specs.declared.fill.Along.TheVariants.{Rows};
ghost use Rattle.pcb_tiles.specs.Shelves.{flat, IsChunk};

use crate::block::{Block, block_around, columns_in, rows_in};
use crate::cells::{Cell, Entry, Grid, Row};
use crate::shelf::{Chunk, MOST, add_chunk};
use geo_kernel::{List, Rect4};
use pcb_model::{Item, copy_item};
use shared_value::Shared;
use std::alloc::{AllocError, Global};

/// The rows of tiles, or the tiles of a row.
#[derive(Clone, Copy)]
pub(crate) enum Along {
    Rows,
    Columns,
}

// The places from the first to the last, ends included.
#[derive(Clone, Copy)]
struct Run {
    first: usize,
    last: usize,
}

/// Copies of items.
pub(crate) fn held_copies(alloc: Global, items: &[Item]) -> Result<List<Shared<Item>>, AllocError>
    ensures is { IfOk result (λ held. held ≡ items.now) }
    ensures ids { IfOk result (λ _. All (λ (b : OneItem). b.id < 2 ^ 64) items.now) }
{
    let mut held = List::new(alloc);
    for item in items {
        let _id = item.id;
        held.push(Shared::new(alloc, copy_item(alloc, item)?)?)?;
    }
    Ok(held)
}

fn shares_of(alloc: Global, held: &[Shared<Item>]) -> Result<List<Shared<Item>>, AllocError>
    ensures { IfOk result (λ s. s ≡ held.now) }
{
    let mut shares = List::new(alloc);
    for a in held {
        shares.push(a.share()?)?;
    }
    Ok(shares)
}

// At most as many items as a chunk has, from a place on.
fn part_from(held: &[Shared<Item>], from: usize) -> &[Shared<Item>]
    requires { from ≤ length held.now }
    ensures is { result.now ≡ first_of 128 (drop from held.now) }
    ensures most { length result.now ≤ 128 }
{
    let rest = &held[from..];
    &rest[..rest.len().min(MOST)]
}

/// The items in chunks.
pub(crate) fn chunks_of(alloc: Global, held: &[Shared<Item>]) -> Result<List<Chunk>, AllocError>
    ensures items { IfOk result (λ s. flat s ≡ held.now) }
    ensures chunks { IfOk result (λ s. All IsChunk s) }
{
    let mut chunks = List::new(alloc);
    for at in 0..held.len() / MOST + 1 {
        let part = part_from(held, at * MOST);
        add_chunk(alloc, shares_of(alloc, part)?, &mut chunks)?;
    }
    Ok(chunks)
}

fn entries_of(alloc: Global, held: &[Shared<Item>]) -> Result<List<Entry>, AllocError>
    requires { All IsItemFit held.now }
    ensures { IfOk result (λ es. es ≡ map entry_of held.now) }
{
    let mut entries = List::new(alloc);
    for a in held {
        entries.push(Entry::of_item(a)?)?;
    }
    Ok(entries)
}

// The tiles in which an entry stands.
fn block_of_entry(area: Rect4, e: &Entry) -> Block
    requires area { IsArea area }
    requires made { IsMade e.now }
    ensures is { result ≡ own_block area e.now.item }
    ensures within { IsBlockIn area result }
{
    block_around(area, e.extent.bounds, (e.extent.width + 1) / 2)
}

// Where an entry stands, of the rows or the columns.
fn run_of(area: Rect4, along: Along, e: &Entry) -> Run
    requires area { IsArea area }
    requires made { IsMade e.now }
    ensures { IsRun area along e.now result.first result.last }
{
    let b = block_of_entry(area, e);
    match along {
        Along::Rows => Run {
            first: b.first_row,
            last: b.last_row,
        },
        Along::Columns => Run {
            first: b.first_column,
            last: b.last_column,
        },
    }
}

// How many rows or columns an area has.
fn count_of(area: Rect4, along: Along) -> usize
    requires { IsArea area }
    ensures { result ≡ count_along area along }
{
    match along {
        Along::Rows => rows_in(area),
        Along::Columns => columns_in(area),
    }
}

// Puts one more entry to each place of a run.
fn push_in_run(places: &mut Vec<List<Entry>>, e: &Entry, r: Run) -> Result<(), AllocError>
    requires order { r.first ≤ r.last }
    requires within { r.last < length places.old.items }
    ensures count { OnOk result (length places.new.items ≡ length places.old.items) }
    ensures each { OnOk result ((k : ℕ) → cell_at places.new.items k
        ≡ cond (is_between r.first r.last k) (cell_at places.old.items k ++ e.now ∷ [])
        (cell_at places.old.items k)) }
{
    for at in r.first..r.last + 1 {
        let place = &mut places[at];
        place.push(e.share()?)?;
    }
    Ok(())
}

fn empty_places(alloc: Global, count: usize) -> Result<Vec<List<Entry>>, AllocError>
    ensures count { IfOk result (λ v. length v.items ≡ count) }
    ensures each { IfOk result (λ v. (k : ℕ) → cell_at v.items k ≡ []) }
{
    let mut places = Vec::new(alloc);
    for _one in 0..count {
        places.push(List::new(alloc))?;
    }
    Ok(places)
}

// The entries by the rows or the columns in which they stand.
fn spread(
    alloc: Global,
    area: Rect4,
    along: Along,
    entries: &[Entry],
) -> Result<Vec<List<Entry>>, AllocError>
    requires area { IsArea area }
    requires made { All IsMade entries.now }
    ensures { IfOk result (λ v. v.items ≡ places_along area along entries.now) }
{
    let mut places = empty_places(alloc, count_of(area, along))?;
    for e in entries {
        push_in_run(&mut places, e, run_of(area, along, e))?;
    }
    Ok(places)
}

fn share_cells(alloc: Global, places: Vec<List<Entry>>) -> Result<List<Cell>, AllocError>
    ensures { IfOk result (λ cells. cells ≡ places.items) }
{
    let mut cells = List::new(alloc);
    for place in places {
        cells.push(Shared::new(alloc, place)?)?;
    }
    Ok(cells)
}

// The tiles of a row that has these entries.
fn fill_row(alloc: Global, area: Rect4, entries: &[Entry]) -> Result<Row, AllocError>
    requires area { IsArea area }
    requires made { All IsMade entries.now }
    ensures { IfOk result (λ row. row ≡ row_of_tiles area entries.now) }
{
    let cells = share_cells(alloc, spread(alloc, area, Along::Columns, entries)?)?;
    Ok(Shared::new(alloc, cells)?)
}

fn fill_rows(alloc: Global, area: Rect4, places: &[List<Entry>]) -> Result<List<Row>, AllocError>
    requires area { IsArea area }
    requires made { All (All IsMade) places.now }
    ensures { IfOk result (λ rows. rows ≡ map (row_of_tiles area) places.now) }
{
    let mut rows = List::new(alloc);
    for place in places {
        rows.push(fill_row(alloc, area, place.as_slice())?)?;
    }
    Ok(rows)
}

/// The tiles of items.
pub(crate) fn fill_grid(
    alloc: Global,
    area: Rect4,
    held: &[Shared<Item>],
) -> Result<Grid, AllocError>
    requires area { IsArea area }
    requires fit { All IsItemFit held.now }
    ensures { IfOk result (λ grid. grid ≡ grid_of area held.now) }
{
    let places = places_of(alloc, area, held)?;
    let rows = fill_rows(alloc, area, places.as_slice())?;
    Ok(Shared::new(alloc, rows)?)
}

// The entries of items by the rows of tiles in which they stand.
fn places_of(
    alloc: Global,
    area: Rect4,
    held: &[Shared<Item>],
) -> Result<Vec<List<Entry>>, AllocError>
    requires area { IsArea area }
    requires fit { All IsItemFit held.now }
    ensures { IfOk result (λ v. v.items ≡ places_along area Rows (map entry_of held.now)) }
{
    let entries = entries_of(alloc, held)?;
    spread(alloc, area, Along::Rows, entries.as_slice())
}
