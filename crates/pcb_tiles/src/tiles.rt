//! A board's copper in tiles.
//! Each call works over the parts of the tiles, which contracts don't name.

ghost use Rattle.std.specs.Prelude.{◌≡◌, ◌≤◌, ◌<◌, ◌+◌, ◌^◌, [], ◌∷◌, ◌++◌, All, Contains, OnOk, OnErr, IfErr, IfOk};
ghost use Rattle.std.specs.Prelude.{MatchOption, None};
ghost use Rattle.std.specs.Bool.{OnTrue, OnFalse};
ghost use Rattle.pcb_model.specs.Bounds.{IsItemFit};
ghost use Rattle.pcb_model.specs.Near.{IsBoxWithin};
ghost use Rattle.std.specs.Option.{option_copied};
ghost use Rattle.pcb_model.specs.Copper.{Ascends};
ghost use Rattle.pcb_tiles.specs.Tiling.{IsArea, IsBlockOf, IsBlockIn, asked_block, own_block, probed_block};
ghost use Rattle.pcb_tiles.specs.Tiling.{entries_in};
ghost use Rattle.pcb_tiles.specs.Searches.{Sought, IsMet};
ghost use Rattle.pcb_tiles.specs.Cells.{with_item, without_item};
ghost use Rattle.pcb_tiles.specs.Spread.{holding, Gains, Loses, ServesSpread};

use crate::block::{Block, block_around};
use crate::cells::{Grid, empty_grid};
use crate::fill::{chunks_of, fill_grid, held_copies};
use crate::parts::{with_less, with_more};
use crate::scan::{first_in_chunks, is_wide};
use crate::search::{Blocking, Clashing, Joining, Seeks, any_in_rows, best_in_rows};
use crate::shelf::{Shelf, first_from, item_of};
use geo_kernel::{List, Rect4};
use pcb_model::{Copper, Design, Extent, Item, Probe, Steps, copy_item};
use shared_value::Shared;
use std::alloc::{AllocError, Global};
use std::marker::Model;
use std::sync::ledger::Ledger;

/// Copper in square tiles of 2,000,000 nm.
/// Contracts see its area, its reach and the list of its items in order of id.
/// A share of it costs the same however much it holds, and a change makes only what it touches anew.
pub struct Tiles {
    alloc: Global,
    area: Rect4,
    reach: u64,
    shelf: Shelf,
    grid: Grid,
}

// Let go by a call, where a derived `Drop` would let go field by field in each function that owns tiles.
impl Drop for Tiles {
    fn drop(self) {
        let Tiles {
            alloc: _,
            area: _,
            reach: _,
            shelf: _,
            grid: _,
        } = self;
    }
}

impl Model for Tiles {
    ghost use Rattle.pcb_tiles.specs.Spread.{Spread};
    ghost use Rattle.pcb_tiles.specs.Kept.{IsSpread};
    ghost use Rattle.pcb_tiles.specs.Shelves.{flat};

    ghost Value = { Spread };

    ghost view = { λ t. record { area = t.area; reach = t.reach; items = flat t.shelf } };

    ghost invariant = { λ t. IsSpread t.area t.reach t.shelf t.grid };
}

impl Tiles {
    /// Copper without items. `reach` is the greatest clearance of the designs that it will serve.
    pub fn new(alloc: Global, area: Rect4, reach: u64) -> Result<Tiles, AllocError>
        requires area { IsArea area }
        requires reach_within { reach ≤ 2 ^ 28 }
        ensures { IfOk result (λ t. t ≡ record { area = area; reach = reach; items = [] }) }
    {
        Ok(Tiles {
            alloc,
            area,
            reach,
            shelf: Shared::new(alloc, List::new(alloc))?,
            grid: empty_grid(alloc, area)?,
        })
    }

    /// Copper of many items at once, in order of id, of which copies are kept. Items are sorted into tiles in one pass,
    /// where `add` copies the tiles of each. `reach` is the greatest clearance of the designs that it will serve.
    pub fn of(alloc: Global, area: Rect4, reach: u64, items: &[Item]) -> Result<Tiles, AllocError>
        requires area { IsArea area }
        requires reach_within { reach ≤ 2 ^ 28 }
        requires ascends { Ascends items.now }
        requires fit { All IsItemFit items.now }
        ensures { IfOk result (λ t. t ≡ record { area = area; reach = reach; items = items.now }) }
    {
        let held = held_copies(alloc, items)?;
        let shelf = Shared::new(alloc, chunks_of(alloc, held.as_slice())?)?;
        let grid = fill_grid(alloc, area, held.as_slice())?;
        Ok(Tiles {
            alloc,
            area,
            reach,
            shelf,
            grid,
        })
    }

    /// An equal value.
    pub fn share(&self) -> Result<Tiles, AllocError>
        ensures { IfOk result (λ t. t ≡ self.now) }
    {
        Ok(Tiles {
            alloc: self.alloc,
            area: self.area,
            reach: self.reach,
            shelf: self.shelf.share()?,
            grid: self.grid.share()?,
        })
    }

    // The greatest clearance that is served.
    fn known_reach(&self) -> u64
        ensures is { result ≡ self.now.reach }
        ensures within { result ≤ 2 ^ 28 }
    {
        self.reach
    }

    // The tiles that a box grown on each side meets.
    fn block_around(&self, bounds: Rect4, by: u64) -> Block
        requires bounds_within { IsBoxWithin (2 ^ 29) bounds }
        requires by_within { by ≤ 2 ^ 29 }
        ensures of { IsBlockOf self.now.area bounds by result }
        ensures within { IsBlockIn self.now.area result }
        ensures area { IsArea self.now.area }
        ensures fit { All IsItemFit self.now.items }
    {
        block_around(self.area, bounds, by)
    }

    // The least id that is sought in a block of tiles, tile by tile.
    fn seek_tiles<S: Seeks, L: Ledger>(
        &self,
        s: &S,
        b: &Block,
        from: u64,
        steps: &mut Steps<L>,
    ) -> Option<u64>
        requires ready { S.ready s.now }
        requires block { IsBlockIn self.now.area b.now }
        ensures so { Sought (S.yes s.now) (S.no s.now) from self.now.area b.now self.now.items result }
        ensures cost { steps.new ≤ steps.old + entries_in self.now.area self.now.items b.now }
    {
        best_in_rows(s, from, self.grid.get().as_slice(), b, steps)
    }

    // The same, item by item.
    fn seek_items<S: Seeks, L: Ledger>(
        &self,
        s: &S,
        b: &Block,
        from: u64,
        steps: &mut Steps<L>,
    ) -> Option<u64>
        requires ready { S.ready s.now }
        requires block { IsBlockIn self.now.area b.now }
        ensures so { Sought (S.yes s.now) (S.no s.now) from self.now.area b.now self.now.items result }
        ensures cost { steps.new ≤ steps.old + entries_in self.now.area self.now.items b.now }
    {
        first_in_chunks(s, self.area, b, from, self.shelf.get().as_slice(), steps)
    }

    // Whether a block has more tiles than there are items.
    fn is_sparse_in(&self, b: &Block) -> bool {
        is_wide(b, self.shelf.get().as_slice().len())
    }

    // The least id that is sought in a block of tiles.
    fn seek<S: Seeks, L: Ledger>(
        &self,
        s: &S,
        b: &Block,
        from: u64,
        steps: &mut Steps<L>,
    ) -> Option<u64>
        requires ready { S.ready s.now }
        requires block { IsBlockIn self.now.area b.now }
        ensures so { Sought (S.yes s.now) (S.no s.now) from self.now.area b.now self.now.items result }
        ensures cost { steps.new ≤ steps.old + entries_in self.now.area self.now.items b.now }
    {
        if self.is_sparse_in(b) {
            return self.seek_items(s, b, from, steps);
        }
        self.seek_tiles(s, b, from, steps)
    }

    // Whether something is sought in a block of tiles, tile by tile.
    fn any_in_tiles<S: Seeks, L: Ledger>(&self, s: &S, b: &Block, steps: &mut Steps<L>) -> bool
        requires ready { S.ready s.now }
        requires block { IsBlockIn self.now.area b.now }
        ensures yes { OnTrue result (IsMet (S.yes s.now) self.now.items) }
        ensures no { OnFalse result (Sought (S.yes s.now) (S.no s.now) 0 self.now.area b.now self.now.items None) }
        ensures cost { steps.new ≤ steps.old + entries_in self.now.area self.now.items b.now }
    {
        any_in_rows(s, self.grid.get().as_slice(), b, steps)
    }

    // The same, item by item.
    fn any_in_items<S: Seeks, L: Ledger>(&self, s: &S, b: &Block, steps: &mut Steps<L>) -> bool
        requires ready { S.ready s.now }
        requires block { IsBlockIn self.now.area b.now }
        ensures yes { OnTrue result (IsMet (S.yes s.now) self.now.items) }
        ensures no { OnFalse result (Sought (S.yes s.now) (S.no s.now) 0 self.now.area b.now self.now.items None) }
        ensures cost { steps.new ≤ steps.old + entries_in self.now.area self.now.items b.now }
    {
        match self.seek_items(s, b, 0, steps) {
            Some(_) => true,
            None => false,
        }
    }

    // Whether something is sought in a block of tiles.
    fn seek_any<S: Seeks, L: Ledger>(&self, s: &S, b: &Block, steps: &mut Steps<L>) -> bool
        requires ready { S.ready s.now }
        requires block { IsBlockIn self.now.area b.now }
        ensures yes { OnTrue result (IsMet (S.yes s.now) self.now.items) }
        ensures no { OnFalse result (Sought (S.yes s.now) (S.no s.now) 0 self.now.area b.now self.now.items None) }
        ensures cost { steps.new ≤ steps.old + entries_in self.now.area self.now.items b.now }
    {
        if self.is_sparse_in(b) {
            return self.any_in_items(s, b, steps);
        }
        self.any_in_tiles(s, b, steps)
    }

    // What is kept with one more item.
    fn with(&self, item: &Item) -> Result<Tiles, AllocError>
        requires absent { All (λ b. b.id ≡ item.now.id → ⊥) self.now.items }
        requires fits { IsItemFit item.now }
        ensures more { IfOk result (λ t. t ≡ holding self.now (with_item item.now self.now.items)) }
        ensures ascends { Ascends self.now.items }
    {
        let (shelf, grid) = with_more(
            self.alloc,
            self.area,
            self.reach,
            &self.shelf,
            &self.grid,
            item,
        )?;
        Ok(Tiles {
            alloc: self.alloc,
            area: self.area,
            reach: self.reach,
            shelf,
            grid,
        })
    }

    // What is kept without an item that is held.
    fn without(&self, item: &Item) -> Result<Tiles, AllocError>
        requires only { All (λ b. b.id ≡ item.now.id → b ≡ item.now) self.now.items }
        requires fits { IsItemFit item.now }
        ensures { IfOk result (λ t. t ≡ holding self.now (without_item item.now.id self.now.items)) }
    {
        let (shelf, grid) = with_less(
            self.alloc,
            self.area,
            self.reach,
            &self.shelf,
            &self.grid,
            item,
        )?;
        Ok(Tiles {
            alloc: self.alloc,
            area: self.area,
            reach: self.reach,
            shelf,
            grid,
        })
    }

    /// Adds an item whose id is above all that are held. Where memory is wanting the item comes back,
    /// and nothing changes.
    pub fn add(&mut self, item: Item) -> Result<(), (Item, AllocError)>
        requires above { All (λ b. b.id < item.id) self.old.items }
        requires fits { IsItemFit item }
        ensures ok { OnOk result (self.new ≡ holding self.old (self.old.items ++ item ∷ [])) }
        ensures err { IfErr result (λ e. (self.new ≡ self.old) × (e.0 ≡ item)) }
    {
        match self.with(&item) {
            Ok(tiles) => {
                *self = tiles;
                Ok(())
            }
            Err(cause) => Err((item, cause)),
        }
    }

    /// Adds an item whose id isn't held. Where memory is wanting the item comes back, and nothing changes.
    pub fn put_back(&mut self, item: Item) -> Result<(), (Item, AllocError)>
        requires absent { All (λ b. b.id ≡ item.id → ⊥) self.old.items }
        requires fits { IsItemFit item }
        ensures ok { OnOk result (Gains self.old item self.new) }
        ensures err { IfErr result (λ e. (self.new ≡ self.old) × (e.0 ≡ item)) }
    {
        match self.with(&item) {
            Ok(tiles) => {
                *self = tiles;
                Ok(())
            }
            Err(cause) => Err((item, cause)),
        }
    }

    // The item of this id.
    fn held(&self, id: u64) -> Option<&Item>
        ensures found { MatchOption (option_copied result) (All (λ b. b.id ≡ id → ⊥) self.now.items)
            (λ b. Contains self.now.items b × (b.id ≡ id)) }
        ensures ascends { Ascends self.now.items }
        ensures fit { All IsItemFit self.now.items }
    {
        item_of(self.shelf.get().as_slice(), id)
    }

    // A copy of the item of this id, and what is kept without it.
    fn less(&self, id: u64) -> Result<Option<(Item, Tiles)>, AllocError>
        ensures { IfOk result (λ o.
            MatchOption o (All (λ b. b.id ≡ id → ⊥) self.now.items)
            (λ p. (p.0.id ≡ id) × Loses self.now p.0 p.1)) }
    {
        match self.held(id) {
            Some(found) => {
                let item = copy_item(self.alloc, found)?;
                let rest = self.without(&item)?;
                Ok(Some((item, rest)))
            }
            None => Ok(None),
        }
    }

    /// Takes the item of this id out, or answers None exactly where there is none. Where memory is wanting
    /// nothing changes.
    pub fn remove(&mut self, id: u64) -> Result<Option<Item>, AllocError>
        ensures ok { IfOk result (λ o.
            MatchOption o ((self.new ≡ self.old) × All (λ b. b.id ≡ id → ⊥) self.old.items)
            (λ b. (b.id ≡ id) × Loses self.old b self.new)) }
        ensures err { OnErr result (self.new ≡ self.old) }
    {
        match self.less(id)? {
            Some((item, rest)) => {
                *self = rest;
                Ok(Some(item))
            }
            None => Ok(None),
        }
    }
}

impl Copper for Tiles {
    ghost items = { λ t. t.items };

    ghost serves = { λ t d. ServesSpread t d };

    ghost ticks = { λ t a. entries_in t.area t.items (asked_block t.area t.reach a) };

    ghost touch_ticks = { λ t a. entries_in t.area t.items (own_block t.area a) };

    ghost probe_ticks = { λ t d p. entries_in t.area t.items (probed_block t.area t.reach d p) };

    fn in_order(&self) {
        let _ = &self.shelf;
    }

    fn item(&self, id: u64) -> Option<&Item> {
        self.held(id)
    }

    fn next_item(&self, from: u64) -> Option<&Item> {
        first_from(self.shelf.get().as_slice(), from)
    }

    fn next_clash<L: Ledger>(
        &self,
        d: &Design,
        a: &Item,
        from: u64,
        steps: &mut Steps<L>,
    ) -> Option<u64> {
        let e = Extent::of_item(a);
        let reach = self.known_reach();
        let b = self.block_around(e.bounds, reach + e.width);
        let sought = Clashing {
            d,
            a,
            extent: e,
            reach,
        };
        self.seek(&sought, &b, from, steps)
    }

    fn next_block<L: Ledger>(
        &self,
        d: &Design,
        net: u32,
        p: &Probe,
        from: u64,
        steps: &mut Steps<L>,
    ) -> Option<u64> {
        let e = Extent::of_probe(d, p);
        let reach = self.known_reach();
        let b = self.block_around(e.bounds, reach + (e.width + 1) / 2);
        let sought = Blocking {
            d,
            net,
            p,
            extent: e,
            reach,
        };
        self.seek(&sought, &b, from, steps)
    }

    fn is_blocked<L: Ledger>(&self, d: &Design, net: u32, p: &Probe, steps: &mut Steps<L>) -> bool {
        let e = Extent::of_probe(d, p);
        let reach = self.known_reach();
        let b = self.block_around(e.bounds, reach + (e.width + 1) / 2);
        let sought = Blocking {
            d,
            net,
            p,
            extent: e,
            reach,
        };
        self.seek_any(&sought, &b, steps)
    }

    fn next_touch<L: Ledger>(&self, a: &Item, from: u64, steps: &mut Steps<L>) -> Option<u64> {
        let e = Extent::of_item(a);
        let b = self.block_around(e.bounds, (e.width + 1) / 2);
        let sought = Joining { a, extent: e };
        self.seek(&sought, &b, from, steps)
    }

    ghost serving = { λ c d h. h.serves };
}
