//! Laws of the pair rule and of counts, each on a call that does nothing.
//! Other crates cite them by what these calls ensure.

ghost use Rattle.std.specs.Prelude.{◌≡◌, ℕ, List};
ghost use Rattle.pcb_model.specs.declared.item.Item.{Item as OneItem};
ghost use Rattle.pcb_model.specs.declared.design.Design.{Design as TheDesign};
ghost use Rattle.pcb_model.specs.Pairs.{Agrees, AreTouching};
ghost use Rattle.pcb_model.specs.Counts.{Counts};

/// Agreement and touching don't ask which item comes first.
pub fn pairs_are_symmetric()
    ensures agree { (d : TheDesign) (a b : OneItem) → Agrees d a b → Agrees d b a }
    ensures touch { (a b : OneItem) → AreTouching a b → AreTouching b a }
{}

/// A list has at most one count of the items that disagree with an item.
pub fn counts_are_unique()
    ensures { (d : TheDesign) (a : OneItem) (items : List OneItem) (m n : ℕ)
        → Counts (λ b. Agrees d a b → ⊥) items m → Counts (λ b. Agrees d a b → ⊥) items n → m ≡ n }
{}
