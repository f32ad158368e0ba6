//! Whether a new item may take an item's place.
//! Nothing here takes memory.

ghost use Rattle.std.specs.Prelude.{◌≡◌, ◌↔◌, IsTrue};
ghost use Rattle.pcb_model.specs.Bounds.{IsItemFit};
ghost use Rattle.shove.specs.Shoves.{CanReplace};
ghost use Rattle.shove.specs.inner.Steps.{TouchesAll};

use pcb_model::{Copper, Item, touch};
use route_lattice::Ground;

/// An item, and a new one of its id and net that may take its place.
#[derive(Drop)]
pub(crate) struct Replacement<'a, C: Copper> {
    pub on: Ground<'a, C>,
    pub old: &'a Item,
    pub new: &'a Item,
    pub ghost one_net: { new.now.net ≡ old.now.net },
    pub ghost one_id: { new.now.id ≡ old.now.id },
}

impl<C: Copper> Replacement<'_, C> {
    /// Whether the new item touches all items of its net that the old one touched.
    fn touches_all(&self) -> bool
        requires old_fits { IsItemFit self.now.old.now }
        requires new_fits { IsItemFit self.now.new.now }
        ensures { IsTrue result ↔ TouchesAll self.now.on.items self.now.old.now self.now.new.now }
    {
        self.on.in_order();
        let mut from = 0;
        while let Some(id) = self.on.touch_from(self.old, from) {
            let Some(other) = self.on.item(id) else {
                unreachable!();
            };
            if !touch(self.new, other) {
                return false;
            }
            let Some(next) = id.checked_add(1) else {
                return true;
            };
            from = next;
        }
        true
    }

    /// Whether the new item may take the place of the old one.
    pub(crate) fn can_replace(&self) -> bool
        requires old_fits { IsItemFit self.now.old.now }
        requires new_fits { IsItemFit self.now.new.now }
        ensures { IsTrue result ↔ CanReplace self.now.on.d self.now.on.items self.now.old.now self.now.new.now }
    {
        if !self.on.is_item_inside(self.new) {
            return false;
        }
        if let Some(_) = self.on.clash_from(self.new, 0) {
            return false;
        }
        self.touches_all()
    }
}
