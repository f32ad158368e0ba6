//! The copper on which stubs are sought: tiles with a design's fixed items, and behind them ribs and stubs.
//! In the tiles these are routed items, since tiles serve a design that has all their fixed ones.

use geo_kernel::List;
use pcb_model::Item;
use pcb_tiles::Tiles;

/// The tiles, and what was added to the design so far, as fixed items.
#[derive(Drop)]
pub(crate) struct Held {
    pub(crate) tiles: Tiles,
    pub(crate) added: List<Item>,
}
