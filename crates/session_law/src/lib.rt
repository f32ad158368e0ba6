//! What a written session is worth: laws on calls that do nothing.
//! Its bytes tell the routed copper, the copper of each run is on its scale, its text spells a tree, and reading it
//! back answers what was written.
#![tactic(auto)]

ghost use Rattle.std.specs.Prelude.{◌≡◌, Bool, List as Seq, ◌++◌, ◌≤◌, ◌<◌, ◌*ℤ◌, ℕ, ℤ, pos, true, length};
ghost use Rattle.std.specs.Prelude.{unsigned_abs, Some, None, slice_get, All, Result, filter};
ghost use Rattle.pcb_board.specs.Boards.{BoardOf, board_at, replayed};
ghost use Rattle.pcb_board.specs.Keeping.{IsBoard};
ghost use Rattle.pcb_model.specs.declared.design.Design.{Design as TheDesign};
ghost use Rattle.pcb_model.specs.declared.item.Item.{Item as OneItem};
ghost use Rattle.pcb_model.specs.Scale.{scale_of, is_whole};
ghost use Rattle.pcb_model.specs.Sound.{HasDistinctNames, HasPrintableNames};
ghost use Rattle.ses_writer.specs.Session.{session_of, is_printed};
ghost use Rattle.session_law.specs.Told.{AreRoutedOf, HaveSameCopper, IsOnScale};
ghost use Rattle.route_lattice.specs.Whole.{lattice_of};
ghost use Rattle.board_offers.specs.declared.offer.Offer.{Offer as OneOffer};
ghost use Rattle.pcb_board.specs.declared.answer.Entry.TheVariants.{Join};
ghost use Rattle.closing_pass.specs.Settled.{TakesOne};
ghost use Rattle.route_run.specs.declared.facts.Facts.{Facts as RunFacts};
ghost use Rattle.route_run.specs.Runs.{AreLeast, IsRun, RunOf};
ghost use Rattle.ses_writer.specs.Words.{nearest};
ghost use Rattle.board_offers.specs.declared.offer.TheConstants.{CLOSER};
ghost use Rattle.session_law.specs.Spelled.{HasSessionTree};
ghost use Rattle.ses_reader.specs.declared.item.SesItem.{SesItem as OneSesItem};
ghost use Rattle.ses_reader.specs.declared.item.SesFault.{SesFault as OneSesFault};
ghost use Rattle.ses_reader.specs.Reading.{ReadsSession};
ghost use Rattle.session_law.specs.Back.{IsReadable, TellsWiring};
ghost use Rattle.dsn_design.specs.Reading.{HasDesign};
ghost use Rattle.session_law.specs.Wired.{HasWiring};

use pcb_board::boards_serve;
use ses_reader::one_session;

// ---- what bytes tell

/// Routed copper on scale behind the same fixed items is told by the bytes of its session, up to ids and the direction
/// of chains, whether the fixed items are left out or not.
pub fn sessions_tell_copper()
    ensures { (d : TheDesign) (fixed first second : Seq OneItem) (omit_fixed : Bool) → HasDistinctNames d
        → HasPrintableNames d → AreRoutedOf d first → AreRoutedOf d second
        → session_of d (fixed ++ first) omit_fixed ≡ session_of d (fixed ++ second) omit_fixed
        → HaveSameCopper d first second }
{}

/// So are the boards of one design whose routed copper is on scale.
pub fn sessions_tell_boards()
    ensures { (b c : BoardOf) (omit_fixed : Bool) → IsBoard b → IsBoard c → b.design ≡ c.design
        → IsOnScale (scale_of b.design).nm b.items → IsOnScale (scale_of c.design).nm c.items
        → session_of b.design b.items omit_fixed ≡ session_of c.design c.items omit_fixed
        → HaveSameCopper b.design b.items c.items }
{
    boards_serve();
}

// ---- on scale

/// Where each join of a board was a least offer on the design's lattice, or one by moves at 45 degrees where they are
/// asked for, and those without a penalty take out or move aside at most one item, the routed copper is on the scale of
/// its session after each number of entries.
pub fn least_joins_are_on_scale()
    ensures { (grid via_cost : ℕ) (diagonal : Bool) (b : BoardOf) → IsBoard b
        → AreLeast diagonal (lattice_of b.design grid) via_cost b
        → ((k : ℕ) (o : OneOffer) (first after : ℕ) → slice_get b.history k ≡ Some (Join o first after)
        → o.penalty ≡ None → TakesOne (lattice_of b.design grid) (board_at b o.base) o)
        → (n : ℕ) → n ≤ length b.history → IsOnScale (scale_of b.design).nm (replayed b n) }
{}

/// So is that of a run on a lattice of its design, made by at most 16 workers.
pub fn runs_are_on_scale()
    ensures { (d : TheDesign) (grid : ℕ) (r : RunOf) (b : BoardOf) (facts : RunFacts) → r.workers ≤ CLOSER
        → IsRun d (lattice_of d grid) r b facts
        → (n : ℕ) → n ≤ length b.history → IsOnScale (scale_of d).nm (replayed b n) }
{}

/// A length that is whole in a unit is printed exactly: the printed number times the unit is the length.
pub fn whole_lengths_are_exact()
    ensures { (nm : ℕ) (x : ℤ) → 0 < nm → is_whole nm (unsigned_abs x) ≡ true → nearest nm x *ℤ pos nm ≡ x }
{}

// ---- the tree

/// The text of a session spells a tree, whose words and groups are those of the session's lists.
pub fn sessions_have_trees()
    ensures { (d : TheDesign) (items : Seq OneItem) (omit_fixed : Bool) → HasPrintableNames d
        → HasSessionTree d items omit_fixed }
{}

// ---- reading back

/// Reading the session of a board answers the printed wiring, item by item in the printed order, or want of memory:
/// where the routed copper is on scale, each printed wire has two points or more, and fixed copper has the pieces that
/// its metal makes.
pub fn sessions_read_back()
    ensures { (b : BoardOf) (omit_fixed : Bool) (result : Result (Seq OneSesItem) OneSesFault) → IsBoard b
        → IsOnScale (scale_of b.design).nm b.items
        → All (IsReadable b.design) (filter (is_printed omit_fixed) b.items)
        → ReadsSession (session_of b.design b.items omit_fixed) b.design result
        → TellsWiring b.design b.items omit_fixed result }
{
    boards_serve();
    one_session();
    sessions_have_trees();
}

/// A design that was read has wiring that reads back: fixed copper has the pieces of its metal, and wires have two
/// points or more.
pub fn designs_have_wiring()
    ensures { (text : Seq ℕ) (d : TheDesign) → HasDesign text d → HasWiring d }
{}

/// So reading the session of any board of a design that was read answers the printed wiring, or want of memory, where
/// the board's routed copper is on scale, whether the fixed wiring is left out or not.
pub fn boards_read_back()
    ensures { (text : Seq ℕ) (b : BoardOf) (omit_fixed : Bool) (result : Result (Seq OneSesItem) OneSesFault)
        → HasDesign text b.design → IsBoard b → IsOnScale (scale_of b.design).nm b.items
        → ReadsSession (session_of b.design b.items omit_fixed) b.design result
        → TellsWiring b.design b.items omit_fixed result }
{
    designs_have_wiring();
    sessions_read_back();
}

/// That of a run is on scale: reading the session of a run over a design that was read, on a lattice of it and by at
/// most 16 workers, answers the printed wiring, or want of memory.
pub fn runs_read_back()
    ensures { (text : Seq ℕ) (d : TheDesign) (grid : ℕ) (r : RunOf) (b : BoardOf) (facts : RunFacts)
        (omit_fixed : Bool) (result : Result (Seq OneSesItem) OneSesFault) → HasDesign text d → r.workers ≤ CLOSER
        → IsRun d (lattice_of d grid) r b facts → ReadsSession (session_of d b.items omit_fixed) d result
        → TellsWiring d b.items omit_fixed result }
{
    runs_are_on_scale();
    boards_read_back();
}
