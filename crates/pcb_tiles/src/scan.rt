//! Searches through the items themselves, for blocks that have more tiles than there are items.
//! An item that has no entry in the block costs its own block, and no step.

ghost use Rattle.std.specs.Prelude.{◌≡◌, ◌≤◌, ◌+◌, All, MatchOption, cond};
ghost use Rattle.std.specs.List.{count_by};
ghost use Rattle.std.specs.Bool.{OnTrue, OnFalse};
ghost use Rattle.pcb_model.specs.Bounds.{IsItemFit};
ghost use Rattle.pcb_tiles.specs.Tiling.{IsArea};
ghost use Rattle.pcb_tiles.specs.Shelves.{flat};
ghost use Rattle.pcb_tiles.specs.Scans.{share_tile, is_entered, IsUnsought, IsFirstHit};

use crate::block::{Block, block_around};
use crate::search::Seeks;
use crate::shelf::{Chunk, MOST};
use geo_kernel::Rect4;
use pcb_model::{Extent, Item, Steps};
use shared_value::Shared;
use std::sync::ledger::Ledger;

/// Whether a block has more tiles than so many chunks can have items.
pub(crate) fn is_wide(b: &Block, chunks: usize) -> bool {
    let rows = b.last_row.saturating_sub(b.first_row).saturating_add(1);
    let columns = b
        .last_column
        .saturating_sub(b.first_column)
        .saturating_add(1);
    rows.saturating_mul(columns) / MOST > chunks
}

// Whether two blocks have a tile in common.
fn shares_tile(a: Block, b: &Block) -> bool
    ensures { result ≡ share_tile a b.now }
{
    (a.first_row <= b.last_row && b.first_row <= a.last_row)
        && (a.first_column <= b.last_column && b.first_column <= a.last_column)
}

// Whether an item is sought, from an id on, that has an entry in a block. At most one step, and none where it has none.
fn is_hit<S: Seeks, L: Ledger>(
    s: &S,
    area: Rect4,
    b: &Block,
    from: u64,
    item: &Item,
    steps: &mut Steps<L>,
) -> bool
    requires ready { S.ready s.now }
    requires area { IsArea area }
    requires fits { IsItemFit item.now }
    ensures yes { OnTrue result ((from ≤ item.now.id) × S.yes s.now item.now) }
    ensures no { OnFalse result (IsUnsought (S.no s.now) from area b.now item.now) }
    ensures cost { steps.new ≤ steps.old + cond (is_entered area b.now item.now) 1 0 }
{
    if item.id < from {
        return false;
    }
    let e = Extent::of_item(item);
    if !shares_tile(block_around(area, e.bounds, (e.width + 1) / 2), b) {
        return false;
    }
    s.is_sought(item, &e, steps)
}

// The id of the first item that is sought.
fn first_in_chunk<S: Seeks, L: Ledger>(
    s: &S,
    area: Rect4,
    b: &Block,
    from: u64,
    items: &[Shared<Item>],
    steps: &mut Steps<L>,
) -> Option<u64>
    requires ready { S.ready s.now }
    requires area { IsArea area }
    requires fit { All IsItemFit items.now }
    ensures so { MatchOption result (All (IsUnsought (S.no s.now) from area b.now) items.now)
        (IsFirstHit (S.yes s.now) (S.no s.now) from area b.now items.now) }
    ensures cost { steps.new ≤ steps.old + count_by (is_entered area b.now) items.now }
{
    for a in items {
        let item = a.get();
        if is_hit(s, area, b, from, item, steps) {
            return Some(item.id);
        }
    }
    None
}

/// The least id at or above `from` of an item that is sought and has an entry in a block of tiles.
pub(crate) fn first_in_chunks<S: Seeks, L: Ledger>(
    s: &S,
    area: Rect4,
    b: &Block,
    from: u64,
    chunks: &[Chunk],
    steps: &mut Steps<L>,
) -> Option<u64>
    requires ready { S.ready s.now }
    requires area { IsArea area }
    requires fit { All IsItemFit (flat chunks.now) }
    ensures so { MatchOption result (All (IsUnsought (S.no s.now) from area b.now) (flat chunks.now))
        (IsFirstHit (S.yes s.now) (S.no s.now) from area b.now (flat chunks.now)) }
    ensures cost { steps.new ≤ steps.old + count_by (is_entered area b.now) (flat chunks.now) }
{
    for c in chunks {
        match first_in_chunk(s, area, b, from, c.get().as_slice(), steps) {
            Some(id) => return Some(id),
            None => {}
        }
    }
    None
}
