//! What of the copper of a board isn't as its design wants it: items that aren't inside, or aren't laid well.

ghost use Rattle.std.specs.Prelude.{All, MatchOption};
ghost use Rattle.std.specs.Bool.{OnFalse, OnTrue};
ghost use Rattle.pcb_model.specs.Bounds.{IsDesignFit, IsItemFit};
ghost use Rattle.pcb_model.specs.Copper.{Ascends};
ghost use Rattle.copper_check.specs.Checks.{IsFirstBad, IsLaidWell, IsWithinEdges};

use pcb_model::{Design, Item, inside_board, width_ok};

// Whether the item is of the session and isn't inside.
fn is_outside(d: &Design, a: &Item) -> bool
    requires design { IsDesignFit d.now }
    requires fits { IsItemFit a.now }
    ensures yes { OnTrue result (IsWithinEdges d.now a.now → ⊥) }
    ensures no { OnFalse result (IsWithinEdges d.now a.now) }
{
    if a.fixed {
        return false;
    }
    !inside_board(d, a)
}

// Whether the item is of the session and isn't laid as its net wants it.
fn is_ill_laid(d: &Design, a: &Item) -> bool
    ensures yes { OnTrue result (IsLaidWell d.now a.now → ⊥) }
    ensures no { OnFalse result (IsLaidWell d.now a.now) }
{
    if a.fixed {
        return false;
    }
    !width_ok(d, a)
}

/// The least id of an item of the session that isn't inside, or None exactly where all are.
pub fn first_outside(d: &Design, items: &[Item]) -> Option<u64>
    requires design { IsDesignFit d.now }
    requires fit { All IsItemFit items.now }
    requires ascends { Ascends items.now }
    ensures { MatchOption result (All (IsWithinEdges d.now) items.now)
        (IsFirstBad (λ a. IsWithinEdges d.now a → ⊥) (IsWithinEdges d.now) items.now) }
{
    for a in items {
        if is_outside(d, a) {
            return Some(a.id);
        }
    }
    None
}

/// The least id of an item of the session that isn't laid as its net wants it, or None exactly where all are.
pub fn first_ill_laid(d: &Design, items: &[Item]) -> Option<u64>
    requires ascends { Ascends items.now }
    ensures { MatchOption result (All (IsLaidWell d.now) items.now)
        (IsFirstBad (λ a. IsLaidWell d.now a → ⊥) (IsLaidWell d.now) items.now) }
{
    for a in items {
        if is_ill_laid(d, a) {
            return Some(a.id);
        }
    }
    None
}
