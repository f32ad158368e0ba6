//! What answers of the judge are worth: laws on calls that do nothing.

ghost use Rattle.std.specs.Prelude.{◌≡◌, ℕ, List as Seq, All, Result as OneResult};
ghost use Rattle.pcb_model.specs.declared.design.Design.{Design as TheDesign};
ghost use Rattle.pcb_model.specs.Copper.{Ascends};
ghost use Rattle.pcb_model.specs.Sound.{IsSound, Serves};
ghost use Rattle.pcb_islands.specs.declared.net.Island.{Island as OneIsland};
ghost use Rattle.copper_check.specs.Checks.{AreAllIslands};
ghost use Rattle.ses_reader.specs.declared.item.SesItem.{SesItem as OneSesItem};
ghost use Rattle.ses_reader.specs.Sound.{IsItemSound};
ghost use Rattle.route_check.specs.Board.{board_of};
ghost use Rattle.route_check.specs.Judged.{Answers, Case, IsRight, IsVouched, IsYes};
ghost use Rattle.route_check.specs.declared.verdict.Verdict.{Verdict as TheVerdict};
ghost use Rattle.route_check.specs.declared.verdict.JudgeFault.{JudgeFault as TheFault};

use pcb_model::pairs_are_symmetric;

/// The board of a session of sound items stands in order of id, and serves its design.
pub fn session_boards_serve()
    ensures { (d : TheDesign) (xs : Seq OneSesItem) → IsSound d → All (IsItemSound d) xs
        → Ascends (board_of d xs) × Serves (board_of d xs) d }
{}

/// What is judged right is legal, each net that is told complete is joined, and each island of one that is told open
/// has a set of nodes that shuts it in.
pub fn right_is_vouched()
    ensures { (d : TheDesign) (xs : Seq OneSesItem) (report : Seq ℕ) (found : Seq (Seq OneIsland)) → IsSound d
        → All (IsItemSound d) xs → AreAllIslands d (board_of d xs) found
        → IsRight (record { design = d; items = board_of d xs; found = found; report = report })
        → IsVouched (record { design = d; items = board_of d xs; found = found; report = report }) }
{
    pairs_are_symmetric();
    session_boards_serve();
}

/// Where nothing is wrong, the answer is yes or want of memory: a report's text says one thing alone.
pub fn right_is_yes()
    ensures { (c : Case) (r : OneResult TheVerdict TheFault) → IsRight c → Answers c r → IsYes r }
{}
