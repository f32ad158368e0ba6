//! Laws of islands, each on a call that does nothing.
//! Other crates cite them by what these calls ensure.

ghost use Rattle.std.specs.Prelude.{◌≡◌, ◌≢◌, ℕ, ◌<◌, ◌≤◌, ◌++◌, List, length, All, Contains, Some};
ghost use Rattle.pcb_model.specs.declared.item.Item.{Item as OneItem};
ghost use Rattle.pcb_model.specs.declared.design.Design.{Design as TheDesign};
ghost use Rattle.pcb_model.specs.Board.{AreJoined};
ghost use Rattle.pcb_model.specs.Sound.{IsSound, Serves};
ghost use Rattle.pcb_model.specs.Copper.{Ascends};
ghost use Rattle.pcb_islands.specs.declared.net.Island.{Island as OneIsland};
ghost use Rattle.pcb_islands.specs.Islands.{AreIslands, HasItemAt};

use pcb_model::pairs_are_symmetric;

/// Where copper is added, a net has no more islands than before; where it joins items of two islands, it has fewer.
pub fn joining_falls()
    ensures never_more { (d : TheDesign) (items later : List OneItem) (net : ℕ) (old found : List OneIsland)
        → IsSound d → Serves items d → ((x : OneItem) → Contains items x → Contains later x)
        → AreIslands d items net old → AreIslands d later net found → length found ≤ length old }
    ensures fewer { (d : TheDesign) (items later : List OneItem) (net : ℕ) (old found : List OneIsland) → IsSound d
        → Serves items d → Ascends items → ((x : OneItem) → Contains items x → Contains later x)
        → AreIslands d items net old → AreIslands d later net found → (i j : ℕ) (a b : OneItem) → Contains items a
        → Contains items b → HasItemAt old i a.id → HasItemAt old j b.id → i ≢ j → ¬ (¬ (AreJoined later a b))
        → length found < length old }
{
    pairs_are_symmetric();
}

/// A net has one list of islands.
pub fn islands_are_one()
    ensures { (d : TheDesign) (items : List OneItem) (net : ℕ) (found others : List OneIsland) → IsSound d
        → Serves items d → AreIslands d items net found → AreIslands d items net others → found ≡ others }
{
    pairs_are_symmetric();
}

/// Items of other nets change no islands of a net.
pub fn others_change_nothing()
    ensures { (d : TheDesign) (items added : List OneItem) (net : ℕ) (found : List OneIsland) → IsSound d
        → Serves items d → All (λ b. b.net ≢ Some net) added → AreIslands d items net found
        → AreIslands d (items ++ added) net found }
{}

/// An item of an island of a net has that net.
pub fn island_items_own()
    ensures { (d : TheDesign) (items : List OneItem) (net place : ℕ) (found : List OneIsland) (b : OneItem)
        → IsSound d → Serves items d → Ascends items → AreIslands d items net found → Contains items b
        → HasItemAt found place b.id → b.net ≡ Some net }
{}
