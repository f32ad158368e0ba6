//! Laws of events, each on a call that does nothing.
//! Other crates cite them by what these calls ensure.

ghost use Rattle.std.specs.Prelude.{◌≡◌, List, ◌++◌};
ghost use Rattle.pcb_board.specs.Boards.{BoardOf};
ghost use Rattle.pcb_board.specs.Keeping.{IsBoard, Grows};
ghost use Rattle.board_turn.specs.declared.event.Action.{Action as OneAction};
ghost use Rattle.board_turn.specs.declared.event.Event.{Event as OneEvent};
ghost use Rattle.board_turn.specs.Events.{Reaches, Extends};
ghost use Rattle.board_turn.specs.Turns.{PassOf, Calls, count_of};

use pcb_board::steps_keep;

/// A board stays one by any events; its design, its start list and its cap stay, and its history grows by the offers
/// that were committed. Events may be taken in two parts, and lead to one board.
pub fn events_keep()
    ensures boards { (b c : BoardOf) (es : List OneEvent) → IsBoard b → Reaches b es c → IsBoard c }
    ensures grows { (b c : BoardOf) (es : List OneEvent) → Reaches b es c → Grows b c }
    ensures extends { (b c : BoardOf) (es : List OneEvent) → Reaches b es c → Extends b es c }
    ensures parts { (b c : BoardOf) (es fs : List OneEvent) → Reaches b (es ++ fs) c
        → (m : BoardOf) × Reaches b es m × Reaches m fs c }
    ensures whole { (b m c : BoardOf) (es fs : List OneEvent) → Reaches b es m → Reaches m fs c
        → Reaches b (es ++ fs) c }
    ensures one { (b c d : BoardOf) (es : List OneEvent) → Reaches b es c → Reaches b es d → d ≡ c }
{
    steps_keep();
}

/// The only pass of a turn has seen all events before its call.
pub fn one_pass_sees_all()
    ensures { (p q : PassOf) (d : OneAction) (b : BoardOf) (call : Calls p q d b) → p.name ≡ 0 → count_of p.turn ≡ 1
        → call.events ≡ p.seen }
{}
