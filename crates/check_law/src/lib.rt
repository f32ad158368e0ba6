//! What a run writes is judged right: laws on calls that do nothing.
#![tactic(auto)]

ghost use Rattle.std.specs.Prelude.{◌≡◌, ◌≤◌, ℕ, Bool, List as Seq, All, false, Result as OneResult};
ghost use Rattle.pcb_model.specs.declared.item.Item.{Item as OneItem};
ghost use Rattle.pcb_model.specs.declared.design.Design.{Design as TheDesign};
ghost use Rattle.pcb_model.specs.Sound.{IsSound};
ghost use Rattle.pcb_islands.specs.declared.net.Island.{Island as OneIsland};
ghost use Rattle.route_lattice.specs.Mesh.{node_count};
ghost use Rattle.route_lattice.specs.Whole.{lattice_of};
ghost use Rattle.route_lattice.specs.declared.limits.TheConstants.{MOST_NODES};
ghost use Rattle.board_offers.specs.declared.offer.TheConstants.{CLOSER};
ghost use Rattle.copper_alike.specs.Twins.{HasEdges};
ghost use Rattle.pcb_board.specs.Boards.{BoardOf};
ghost use Rattle.route_run.specs.declared.facts.Facts.{Facts as RunFacts};
ghost use Rattle.route_run.specs.Runs.{IsRun, RunOf};
ghost use Rattle.route_report.specs.Report.{report_of};
ghost use Rattle.dsn_design.specs.Reading.{HasDesign};
ghost use Rattle.ses_reader.specs.declared.item.SesItem.{SesItem as OneSesItem};
ghost use Rattle.ses_reader.specs.declared.item.SesFault.{SesFault as OneSesFault};
ghost use Rattle.ses_reader.specs.Reading.{HasSession, ReadsSession};
ghost use Rattle.ses_reader.specs.Sound.{IsItemSound};
ghost use Rattle.ses_writer.specs.Session.{session_of};
ghost use Rattle.session_law.specs.Back.{TellsWiring};
ghost use Rattle.session_start.specs.Starting.{IsLater};
ghost use Rattle.route_check.specs.Board.{board_of};
ghost use Rattle.copper_check.specs.Checks.{AreAllIslands};
ghost use Rattle.route_check.specs.Judged.{IsRight, IsYes, Judges};
ghost use Rattle.route_check.specs.declared.verdict.Verdict.{Verdict as TheVerdict};
ghost use Rattle.route_check.specs.declared.verdict.JudgeFault.{JudgeFault as TheFault};
ghost use Rattle.check_law.specs.Written.{AreSmall, IsWritten};

use pcb_board::boards_serve;
use pcb_model::pairs_are_symmetric;
use route_check::{right_is_yes, session_boards_serve};
use session_law::{designs_have_wiring, runs_are_on_scale, runs_read_back, sessions_read_back};

/// A design that was read has the edge of each boundary among its fixed items.
pub fn designs_have_edges()
    ensures { (text : Seq ℕ) (d : TheDesign) → HasDesign text d → HasEdges d }
{}

/// A session that was read back and the report of the same run are right, whether the fixed wiring was left out or not.
pub fn written_is_right()
    ensures { (d : TheDesign) (items routed : Seq OneItem) (omit : Bool) (xs : Seq OneSesItem) (facts : RunFacts)
        (found : Seq (Seq OneIsland)) → IsWritten d items routed omit xs facts → All (IsItemSound d) xs
        → AreAllIslands d (board_of d xs) found
        → IsRight (record {
          design = d;
          items = board_of d xs;
          found = found;
          report = report_of d (lattice_of d facts.grid) items facts false;
        }) }
{
    pairs_are_symmetric();
    session_boards_serve();
}

/// The session of a run and its report are judged right, or memory was wanting: over a design that was read, on a
/// lattice of it and by at most 16 workers, whether the fixed wiring is left out or not.
pub fn runs_are_right()
    ensures { (text : Seq ℕ) (d : TheDesign) (grid : ℕ) (r : RunOf) (b : BoardOf) (facts : RunFacts) (omit : Bool)
        (xs : Seq OneSesItem) (answer : OneResult TheVerdict TheFault) → HasDesign text d → r.workers ≤ CLOSER
        → 1000 ≤ grid → grid ≤ 409600000 → node_count (lattice_of d grid) ≤ MOST_NODES
        → IsRun d (lattice_of d grid) r b facts → AreSmall d b.items facts
        → HasSession (session_of d b.items omit) d xs
        → Judges d xs (report_of d (lattice_of d grid) b.items facts false) answer → IsYes answer }
{
    pairs_are_symmetric();
    boards_serve();
    designs_have_wiring();
    runs_read_back();
    session_boards_serve();
    right_is_yes();
    written_is_right();
}

// ---- runs that start from an earlier session

/// Reading the session of a run that starts from an earlier one, by the design that was read, answers the printed
/// wiring, or want of memory.
pub fn later_runs_read_back()
    ensures { (text : Seq ℕ) (read d : TheDesign) (grid : ℕ) (r : RunOf) (b : BoardOf) (facts : RunFacts)
        (omit : Bool) (result : OneResult (Seq OneSesItem) OneSesFault) → HasDesign text read → IsLater read d
        → r.workers ≤ CLOSER → IsRun d (lattice_of d grid) r b facts
        → ReadsSession (session_of d b.items omit) read result → TellsWiring d b.items omit result }
{
    designs_have_wiring();
    runs_are_on_scale();
    sessions_read_back();
}

/// That session and the report are judged right by the sound design that was read, or memory was wanting, as those of a
/// run over this design are: where the run's session has the scale of this design's.
pub fn later_runs_are_right()
    ensures { (text : Seq ℕ) (read d : TheDesign) (grid : ℕ) (r : RunOf) (b : BoardOf) (facts : RunFacts)
        (omit : Bool) (xs : Seq OneSesItem) (answer : OneResult TheVerdict TheFault) → HasDesign text read
        → IsSound read → IsLater read d → r.workers ≤ CLOSER → 1000 ≤ grid → grid ≤ 409600000
        → node_count (lattice_of d grid) ≤ MOST_NODES → IsRun d (lattice_of d grid) r b facts
        → AreSmall d b.items facts → HasSession (session_of d b.items omit) read xs
        → Judges read xs (report_of d (lattice_of d grid) b.items facts false) answer → IsYes answer }
{
    pairs_are_symmetric();
    boards_serve();
    designs_have_wiring();
    later_runs_read_back();
    session_boards_serve();
    right_is_yes();
    written_is_right();
}
