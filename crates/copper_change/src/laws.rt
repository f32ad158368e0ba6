//! A law of changes, on a call that does nothing.
//! Other crates cite it by what this call ensures.

ghost use Rattle.std.specs.Prelude.{List};
ghost use Rattle.pcb_model.specs.declared.item.Item.{Item as OneItem};
ghost use Rattle.pcb_model.specs.Copper.{Ascends};
ghost use Rattle.copper_change.specs.Changes.{IsSince, IsChange, AreOneById};

/// Between lists in order of id that have one item for an id, what the one has alone went, and what the other has
/// alone came: with the items that stay they are the two lists.
pub fn differences_are_changes()
    ensures { (old new gone come : List OneItem) → Ascends old → Ascends new → AreOneById old new
        → IsSince old new gone come → IsChange old gone come new }
{}
