//! Copper as a plain list of items.
//! Beside each item stands its extent, so that a search passes over what is far.

ghost use Rattle.std.specs.Prelude.{◌≡◌, ◌<◌, ◌^◌, [], ◌∷◌, ◌++◌, All, OnOk, IfErr, IfSome, length};
ghost use Rattle.std.specs.Option.{IfNone};
ghost use Rattle.pcb_model.specs.Bounds.{IsItemFit};
ghost use Rattle.pcb_model.specs.Sound.{Serves};
ghost use Rattle.pcb_model.specs.Copper.{Ascends, Removes};

use crate::near::Extent;
use crate::search::{first_block, first_clash, first_touch, index_of, place_of};
use crate::{Copper, Design, Item, Probe, Steps};
use geo_kernel::List;
use std::alloc::{AllocError, AllocFailed, Global};
use std::marker::Model;
use std::sync::ledger::Ledger;

/// A plain list of items, in order of id. Contracts see it as that list.
#[derive(Drop)]
pub struct PlainCopper {
    items: List<Item>,
    extents: List<Extent>,
}

impl Model for PlainCopper {
    ghost use Rattle.std.specs.Prelude.{List as Seq};
    ghost use Rattle.pcb_model.specs.declared.item.Item.{Item as Held};
    ghost use Rattle.pcb_model.specs.Copper.{IsPlain};

    ghost Value = { Seq Held };

    ghost view = { λ c. c.items };

    ghost invariant = { λ c. IsPlain c.items c.extents };
}

impl PlainCopper {
    /// Copper without items; it takes no memory.
    pub fn new(alloc: Global) -> PlainCopper
        ensures { result ≡ [] }
    {
        PlainCopper {
            items: List::new(alloc),
            extents: List::new(alloc),
        }
    }

    /// The items, in order of id.
    pub fn items(&self) -> &[Item]
        ensures items { result.now ≡ self.now }
        ensures ascends { Ascends self.now }
        ensures ids { All (λ b. b.id < 2 ^ 64) self.now }
    {
        self.items.as_slice()
    }

    /// Adds an item whose id is above all that are held. Where memory is wanting the item comes back,
    /// and nothing changes.
    pub fn add(&mut self, item: Item) -> Result<(), (Item, AllocError)>
        requires above { All (λ b. b.id < item.id) self.old }
        requires fits { IsItemFit item }
        ensures ok { OnOk result (self.new ≡ self.old ++ item ∷ []) }
        ensures err { IfErr result (λ e. (self.new ≡ self.old) × (e.0 ≡ item)) }
    {
        let extent = Extent::of_item(&item);
        if let Err(_) = self.extents.push(extent) {
            return Err((item, AllocError));
        }
        match self.items.push(item) {
            Ok(()) => Ok(()),
            Err(AllocFailed { value }) => {
                self.extents.pop();
                Err((value, AllocError))
            }
        }
    }

    /// Takes the item of this id out, or answers None exactly where there is none.
    pub fn remove(&mut self, id: u64) -> Option<Item>
        ensures none { IfNone result ((self.new ≡ self.old) × All (λ b. b.id ≡ id → ⊥) self.old) }
        ensures some { IfSome result (λ b. (b.id ≡ id) × Removes self.old b self.new) }
    {
        match index_of(self.items.as_slice(), id) {
            Some(i) => {
                self.extents.remove(i);
                Some(self.items.remove(i))
            }
            None => None,
        }
    }
}

impl Copper for PlainCopper {
    ghost items = { λ c. c };

    ghost serves = { λ c d. Serves c d };

    ghost ticks = { λ c a. length c };

    ghost touch_ticks = { λ c a. length c };

    ghost probe_ticks = { λ c d p. length c };

    fn in_order(&self) {
        let _ = self.items();
    }

    fn item(&self, id: u64) -> Option<&Item> {
        let items = self.items.as_slice();
        match index_of(items, id) {
            Some(i) => Some(&items[i]),
            None => None,
        }
    }

    fn next_item(&self, from: u64) -> Option<&Item> {
        let items = self.items.as_slice();
        let i = place_of(items, from);
        if i == items.len() {
            return None;
        }
        Some(&items[i])
    }

    fn next_clash<L: Ledger>(
        &self,
        d: &Design,
        a: &Item,
        from: u64,
        steps: &mut Steps<L>,
    ) -> Option<u64> {
        first_clash(
            d,
            a,
            self.items.as_slice(),
            self.extents.as_slice(),
            from,
            steps,
        )
    }

    fn next_block<L: Ledger>(
        &self,
        d: &Design,
        net: u32,
        p: &Probe,
        from: u64,
        steps: &mut Steps<L>,
    ) -> Option<u64> {
        first_block(
            d,
            net,
            p,
            self.items.as_slice(),
            self.extents.as_slice(),
            from,
            steps,
        )
    }

    fn next_touch<L: Ledger>(&self, a: &Item, from: u64, steps: &mut Steps<L>) -> Option<u64> {
        first_touch(
            a,
            self.items.as_slice(),
            self.extents.as_slice(),
            from,
            steps,
        )
    }

    ghost serving = { λ c d h. h };
}
