//! Laws of designs with other free wiring, on calls that do nothing.

ghost use Rattle.std.specs.Prelude.{◌≡◌, ℕ, List as Seq, [], All};
ghost use Rattle.pcb_model.specs.declared.item.Item.{Item as OneItem};
ghost use Rattle.pcb_model.specs.declared.design.Design.{Design as TheDesign};
ghost use Rattle.pcb_model.specs.declared.design.FreeWire.{FreeWire as OneWire};
ghost use Rattle.pcb_model.specs.Sound.{IsSound, IsFreeSound};
ghost use Rattle.pcb_model.specs.Plain.{IsPlainCopper};
ghost use Rattle.pcb_model.specs.Board.{IsLegal};
ghost use Rattle.pcb_board.specs.Boards.{Starts};
ghost use Rattle.ses_reader.specs.declared.item.SesItem.{SesItem as OneSesItem};
ghost use Rattle.ses_reader.specs.Sound.{IsItemSound};
ghost use Rattle.route_check.specs.Board.{board_of};
ghost use Rattle.session_start.specs.Starting.{started, with_free};

/// A sound design stays sound with other free wiring that is sound for it, and one of plain copper is so still.
/// So a design that starts from a session is sound.
pub fn other_wiring_keeps()
    ensures sound { (d : TheDesign) (wires : Seq OneWire) → IsSound d → All (IsFreeSound d) wires
        → IsSound (with_free d wires) }
    ensures plain { (d : TheDesign) (wires : Seq OneWire) → IsPlainCopper d → IsPlainCopper (with_free d wires) }
    ensures started { (d : TheDesign) (old : Seq OneSesItem) → IsSound d → All (IsItemSound d) old
        → IsSound (started d old) }
{}

/// Where the board of a session is legal, the design that starts from the session begins with that board alone, and
/// nothing is dropped.
pub fn legal_wiring_is_kept()
    ensures kept { (d : TheDesign) (old : Seq OneSesItem) → IsLegal d (board_of d old)
        → Starts (started d old) [] (board_of d old) }
    ensures alone { (d : TheDesign) (old : Seq OneSesItem) (dropped : Seq ℕ) (start : Seq OneItem)
        → IsLegal d (board_of d old) → Starts (started d old) dropped start
        → (dropped ≡ []) × (start ≡ board_of d old) }
{}
