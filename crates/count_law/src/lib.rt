//! The readers of a design count notes and items by sums that end at 2^64 - 1; no text of at most 2^26 bytes comes
//! so far. This is a law on a call that does nothing; its statement is `specs/Counts.antt`.
#![tactic(auto)]

ghost use Rattle.std.specs.Prelude.{◌≤◌, ◌^◌, ℕ, List as Seq, [], ◌∷◌, length};
ghost use Rattle.dsn_tree.specs.declared.tree.Tree.{Tree as OneTree};
ghost use Rattle.dsn_tree.specs.Trees.{HasTree};
ghost use Rattle.pcb_model.specs.declared.design.Design.{Design as TheDesign};
ghost use Rattle.dsn_design.specs.Reading.{HasDesign};
ghost use Rattle.dsn_design.specs.Sound.{weight};
ghost use Rattle.count_law.specs.Counts.{AreCountsPlain, HasPlainNotes};

/// Each count is the plain sum, of a tree of at most 2^26 tokens and so of a text of at most 2^26 bytes. The notes of
/// such a text's design are the plain sum of what its tree passes over and its parts can't use.
pub fn counts_are_plain()
    ensures trees { (pcb : OneTree) → weight (pcb ∷ []) ≤ 2 ^ 26 → AreCountsPlain pcb }
    ensures texts { (text : Seq ℕ) (pcb : OneTree) → length text ≤ 2 ^ 26 → HasTree text pcb → AreCountsPlain pcb }
    ensures designs { (text : Seq ℕ) (d : TheDesign) → length text ≤ 2 ^ 26 → HasDesign text d → HasPlainNotes text d }
{}
