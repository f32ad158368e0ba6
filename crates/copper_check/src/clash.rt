//! The least id of an item that disagrees with another one.

ghost use Rattle.std.specs.Prelude.{◌≡◌, ◌⊎◌, ℕ, All, Contains, MatchOption};
ghost use Rattle.pcb_model.specs.Bounds.{IsItemFit};
ghost use Rattle.pcb_model.specs.Sound.{Serves};
ghost use Rattle.copper_check.specs.Checks.{AgreesWithAll, Clashes, IsFirstBad};
ghost use Rattle.copper_check.specs.inner.Searching.{AgreesBelow, IsBelow, IsReached};

use pcb_model::{Copper, Design, Item, pairs_are_symmetric};

// The lesser of two ids.
fn lesser(one: Option<u64>, other: Option<u64>) -> Option<u64>
    ensures is { (result ≡ one) ⊎ (result ≡ other) }
    ensures below { (id : ℕ) → IsBelow result id → IsBelow one id × IsBelow other id }
{
    match (one, other) {
        (Some(a), Some(b)) => Some(a.min(b)),
        (None, _) => other,
        (_, None) => one,
    }
}

// The lesser of the item's id and that of the first one that disagrees with it, or None where all agree or it isn't
// routed.
fn clash_of<C: Copper>(d: &Design, c: &C, a: &Item) -> Option<u64>
    requires serves { C.serves c.now d.now }
    requires there { Contains (C.items c.now) a.now }
    requires fits { IsItemFit a.now }
    ensures reached { IsReached d.now (C.items c.now) result }
    ensures own { AgreesBelow d.now (C.items c.now) result a.now }
{
    pairs_are_symmetric();
    if a.fixed {
        return None;
    }
    match c.clash_from(d, a, 0) {
        None => None,
        Some(id) => Some(id.min(a.id)),
    }
}

/// The least id of an item that disagrees with another one, where one of the two is routed, or None exactly where all
/// such agree. The items are those of the copper.
pub fn first_clash<C: Copper>(d: &Design, c: &C, items: &[Item]) -> Option<u64>
    requires same { C.items c.now ≡ items.now }
    requires serves { C.serves c.now d.now }
    ensures { MatchOption result (All (AgreesWithAll d.now items.now) items.now)
        (IsFirstBad (Clashes d.now items.now) (AgreesWithAll d.now items.now) items.now) }
{
    pairs_are_symmetric();
    let mut bound = None;
    for a in items {
        bound = lesser(bound, clash_of(d, c, a));
    }
    bound
}
