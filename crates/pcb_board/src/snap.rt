//! Snapshots of a board: its items after some entries, which stay while the board goes on.
//! A snapshot shares the board's design and tiles, and answers what copper is asked as the tiles do.

ghost use Rattle.std.specs.Prelude.{◌≡◌, ◌*◌, ◌^◌, length, IfOk};
ghost use Rattle.pcb_model.specs.Sound.{Serves};
ghost use Rattle.copper_change.specs.Changes.{IsSince};

use copper_change::{Since, changes_between};
use pcb_model::{Copper, Design, Item, Probe, Steps};
use pcb_tiles::Tiles;
use shared_value::Shared;
use std::alloc::{AllocError, Global};
use std::marker::Model;
use std::sync::ledger::Ledger;

/// One more owner of a design, and one of tiles.
pub(crate) fn shares(
    design: &Shared<Design>,
    tiles: &Tiles,
) -> Result<(Shared<Design>, Tiles), AllocError>
    ensures design { IfOk result (λ r. r.0 ≡ design.now) }
    ensures tiles { IfOk result (λ r. r.1 ≡ tiles.now) }
{
    let design = design.share()?;
    match tiles.share() {
        Ok(tiles) => Ok((design, tiles)),
        Err(error) => {
            drop(design);
            Err(error)
        }
    }
}

/// The items of a board after a number of entries, and its design.
pub struct Snap {
    pub(crate) alloc: Global,
    pub(crate) design: Shared<Design>,
    pub(crate) tiles: Tiles,
    pub(crate) number: u64,
}

// Let go by a call, as a board is.
impl Drop for Snap {
    fn drop(self) {
        let Snap {
            alloc: _,
            design: _,
            tiles: _,
            number: _,
        } = self;
    }
}

impl Model for Snap {
    ghost use Rattle.pcb_board.specs.Snaps.{AreTilesOf};
    ghost use Rattle.pcb_board.specs.Boards.{SnapOf};

    ghost Value = { SnapOf };

    ghost view = { λ s. record { design = s.design; items = s.tiles.items; number = s.number } };

    ghost invariant = { λ s. AreTilesOf s.design s.tiles.area s.tiles.reach };
}

impl Snap {
    /// How many entries it has seen.
    pub fn number(&self) -> u64
        ensures { result ≡ self.now.number }
    {
        self.number
    }

    /// The board's design.
    pub fn design(&self) -> &Design
        ensures { result.now ≡ self.now.design }
    {
        self.design.get()
    }

    /// The same snapshot once more, which shares all with this one.
    pub fn share(&self) -> Result<Snap, AllocError>
        ensures { IfOk result (λ s. s ≡ self.now) }
    {
        let (design, tiles) = shares(&self.design, &self.tiles)?;
        Ok(Snap {
            alloc: self.alloc,
            design,
            tiles,
            number: self.number,
        })
    }

    /// What changed since an earlier snapshot: the items that it alone has, by id, and those that this one alone has.
    /// `AllocError` comes only for want of memory.
    pub fn since(&self, old: &Snap) -> Result<Since, AllocError>
        ensures { IfOk result (λ s. IsSince old.now.items self.now.items s.gone s.come) }
    {
        changes_between(self.alloc, old, self)
    }
}

impl Copper for Snap {
    ghost items = { λ s. s.items };

    ghost serves = { λ s d. (s.design ≡ d) × Serves s.items d };

    ghost ticks = { λ s a. 2 ^ 22 * length s.items };

    ghost touch_ticks = { λ s a. 2 ^ 22 * length s.items };

    ghost probe_ticks = { λ s d p. 2 ^ 22 * length s.items };

    fn in_order(&self) {
        self.tiles.in_order();
    }

    fn item(&self, id: u64) -> Option<&Item> {
        self.tiles.item(id)
    }

    fn next_item(&self, from: u64) -> Option<&Item> {
        self.tiles.next_item(from)
    }

    fn next_clash<L: Ledger>(
        &self,
        d: &Design,
        a: &Item,
        from: u64,
        steps: &mut Steps<L>,
    ) -> Option<u64> {
        self.tiles.next_clash(d, a, from, steps)
    }

    fn next_block<L: Ledger>(
        &self,
        d: &Design,
        net: u32,
        p: &Probe,
        from: u64,
        steps: &mut Steps<L>,
    ) -> Option<u64> {
        self.tiles.next_block(d, net, p, from, steps)
    }

    fn is_blocked<L: Ledger>(&self, d: &Design, net: u32, p: &Probe, steps: &mut Steps<L>) -> bool {
        self.tiles.is_blocked(d, net, p, steps)
    }

    fn next_touch<L: Ledger>(&self, a: &Item, from: u64, steps: &mut Steps<L>) -> Option<u64> {
        self.tiles.next_touch(a, from, steps)
    }

    ghost serving = { λ s d h. h.1 };
}
