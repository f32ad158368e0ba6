//! Laws of boards, each on a call that does nothing.
//! Other crates cite them by what these calls ensure.

ghost use Rattle.std.specs.Prelude.{◌≡◌, ℕ, ◌≤◌, ◌^◌, List, None, length};
ghost use Rattle.pcb_model.specs.declared.item.Item.{Item as OneItem};
ghost use Rattle.pcb_model.specs.declared.design.Design.{Design as TheDesign};
ghost use Rattle.pcb_model.specs.Board.{IsLegal};
ghost use Rattle.pcb_model.specs.Copper.{Ascends};
ghost use Rattle.pcb_model.specs.Sound.{IsSound, Serves};
ghost use Rattle.copper_change.specs.Changes.{AreOneById};
ghost use Rattle.board_offers.specs.declared.offer.Offer.{Offer as OneOffer};
ghost use Rattle.board_offers.specs.Offers.{IsWellFormed};
ghost use Rattle.board_offers.specs.Troubles.{FailsLeast};
ghost use Rattle.pcb_board.specs.declared.answer.Answer.{Answer as OneAnswer};
ghost use Rattle.pcb_board.specs.Boards.{BoardOf, Starts, board_at};
ghost use Rattle.pcb_board.specs.Answers.{Step, Makes, IsTaken, IsClearOn, known, taken_back};
ghost use Rattle.pcb_board.specs.Keeping.{IsBoard, Grows, started};

use pcb_model::pairs_are_symmetric;

/// The board of a start list is one.
pub fn starts_keep()
    ensures { (d : TheDesign) (dropped : List ℕ) (start : List OneItem) (cap : ℕ) → IsSound d
        → cap ≤ 2 ^ 19 → Starts d dropped start → IsBoard (started d start cap) }
{}

/// A board stays one by whatever it answers; its design, its start list and its cap stay, and its history grows.
pub fn steps_keep()
    ensures boards { (b c : BoardOf) (o : OneOffer) (a : OneAnswer) → IsBoard b → Step b o a c → IsBoard c }
    ensures grows { (b c : BoardOf) (o : OneOffer) (a : OneAnswer) → Step b o a c → Grows b c }
{
    pairs_are_symmetric();
}

/// So it is with a list of offers.
pub fn runs_keep()
    ensures boards { (b c : BoardOf) (offers : List OneOffer) (answers : List OneAnswer)
        → IsBoard b → Makes b offers answers c → IsBoard c }
    ensures grows { (b c : BoardOf) (offers : List OneOffer) (answers : List OneAnswer)
        → Makes b offers answers c → Grows b c }
{
    pairs_are_symmetric();
}

/// So it is where the board goes back.
pub fn backs_keep()
    ensures boards { (b : BoardOf) (to : ℕ) → IsBoard b → to ≤ length b.history → IsBoard (taken_back b to) }
    ensures grows { (b : BoardOf) (to : ℕ) → Grows b (taken_back b to) }
{}

/// A board after its first entries is one, after all of them it is itself, and further entries don't change it.
pub fn prefixes_keep()
    ensures boards { (b : BoardOf) (n : ℕ) → IsBoard b → n ≤ length b.history → IsBoard (board_at b n) }
    ensures whole { (b : BoardOf) → IsBoard b → board_at b (length b.history) ≡ b }
    ensures stay { (b c : BoardOf) (n : ℕ) → Grows b c → n ≤ length b.history → board_at c n ≡ board_at b n }
{}

/// A well-formed offer that meets no trouble is committed, or the board is full.
pub fn offers_are_taken()
    ensures { (b c : BoardOf) (o : OneOffer) (a : OneAnswer)
        → IsWellFormed (known b) o → FailsLeast (IsClearOn b o) None → Step b o a c → IsTaken b o a }
{}

/// A board's items are legal, stand in order of id, and serve its design.
pub fn boards_serve()
    ensures legal { (b : BoardOf) → IsBoard b → IsLegal b.design b.items }
    ensures ascends { (b : BoardOf) → IsBoard b → Ascends b.items }
    ensures serves { (b : BoardOf) → IsBoard b → Serves b.items b.design }
{}

/// An id is given once: boards of which one has grown from the other have one item for an id that both have.
pub fn ids_stay()
    ensures { (b c : BoardOf) → IsBoard b → IsBoard c → Grows b c → AreOneById b.items c.items }
{}
