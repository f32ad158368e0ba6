//! Items that agree with each other, and those that don't.
//! The pair tests that are made here are counted by nobody.

ghost use Rattle.std.specs.Prelude.{◌≡◌, ◌↔◌, ◌<◌, ◌^◌, All, AllPairs, Any, IsTrue, Some};
ghost use Rattle.std.specs.Bool.{OnTrue, OnFalse};
ghost use Rattle.pcb_model.specs.declared.item.Item.{Item as OneItem};
ghost use Rattle.pcb_model.specs.Bounds.{IsItemFit, HasRulesWithin};
ghost use Rattle.pcb_model.specs.Pairs.{Agrees};

use pcb_model::{Design, Item, agree};

/// Whether the item is of the net.
pub(crate) fn has_net(a: &Item, net: u32) -> bool
    ensures { IsTrue result ↔ (a.now.net ≡ Some net) }
{
    match a.net {
        Some(n) => n == net,
        None => false,
    }
}

/// Whether some of the items disagrees with the last; where none does, each agrees with it.
pub(crate) fn some_disagrees(d: &Design, items: &[Item], b: &Item) -> bool
    requires rules { HasRulesWithin (2 ^ 28) d.now }
    requires fit { All IsItemFit items.now }
    requires b_fits { IsItemFit b.now }
    ensures yes { OnTrue result (Any (λ (a : OneItem). Agrees d.now a b.now → ⊥) items.now) }
    ensures no { OnFalse result (All (λ (a : OneItem). Agrees d.now a b.now) items.now) }
{
    for a in items {
        if !agree(d, a, b) {
            return true;
        }
    }
    false
}

/// Whether the items agree with each other.
pub(crate) fn all_agree(d: &Design, items: &[Item]) -> bool
    requires rules { HasRulesWithin (2 ^ 28) d.now }
    requires fit { All IsItemFit items.now }
    ensures { IsTrue result ↔ AllPairs (Agrees d.now) items.now }
{
    for i in 0..items.len() {
        if some_disagrees(d, &items[..i], &items[i]) {
            return false;
        }
    }
    true
}
