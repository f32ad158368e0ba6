//! What an earlier session is worth to a design that starts from it: a law on a call that does nothing.
#![tactic(auto)]

ghost use Rattle.std.specs.Prelude.{◌≡◌, ℕ, List as Seq, [], false};
ghost use Rattle.pcb_model.specs.declared.item.Item.{Item as OneItem};
ghost use Rattle.pcb_model.specs.Scale.{scale_of};
ghost use Rattle.pcb_board.specs.Boards.{BoardOf, Starts};
ghost use Rattle.pcb_board.specs.Keeping.{IsBoard};
ghost use Rattle.dsn_design.specs.Reading.{HasDesign};
ghost use Rattle.ses_writer.specs.Session.{session_of};
ghost use Rattle.ses_reader.specs.declared.item.SesItem.{SesItem as OneSesItem};
ghost use Rattle.ses_reader.specs.Reading.{HasSession};
ghost use Rattle.session_law.specs.Told.{HaveSameCopper, IsOnScale};
ghost use Rattle.session_start.specs.Starting.{started};

use copper_alike::legal_copper_is_alike;
use pcb_board::boards_serve;
use session_law::{boards_read_back, designs_have_wiring};

/// A design that was read and starts from the session of a board of it, with the fixed wiring, begins with the routed
/// copper of that board, up to ids and the direction of chains, and nothing is dropped: where that copper is on scale.
pub fn sessions_come_back()
    ensures { (text : Seq ℕ) (b : BoardOf) (old : Seq OneSesItem) (dropped : Seq ℕ) (start : Seq OneItem)
        → HasDesign text b.design → IsBoard b → IsOnScale (scale_of b.design).nm b.items
        → HasSession (session_of b.design b.items false) b.design old → Starts (started b.design old) dropped start
        → (dropped ≡ []) × HaveSameCopper b.design b.items start }
{
    legal_copper_is_alike();
    boards_serve();
    designs_have_wiring();
    boards_read_back();
}
