//! Laws of passes, each on a call that does nothing.
//! Other crates cite them by what these calls ensure.

ghost use Rattle.std.specs.Prelude.{◌≡◌, ◌≤◌, ℕ, List, Some, length, slice_get};
ghost use Rattle.board_offers.specs.declared.offer.Offer.{Offer as OneOffer};
ghost use Rattle.pcb_board.specs.declared.answer.Entry.TheVariants.{Join};
ghost use Rattle.pcb_board.specs.Boards.{BoardOf, board_at};
ghost use Rattle.least_offer.specs.Least.{IsLeastOffer};
ghost use Rattle.searcher_pool.specs.declared.log.WorkerLog.{WorkerLog as OneLog};
ghost use Rattle.searcher_pool.specs.Passes.{PassOf, IsPassed, IsSpent, MetFull};

/// Each entry of a pass is a least offer on the board after its base, which is one of the entries before it.
pub fn passes_are_least()
    ensures { (p : PassOf) (old new : BoardOf) (logs : List OneLog) → IsPassed p old new logs
        → (n : ℕ) (o : OneOffer) (first after : ℕ) → length old.history ≤ n
        → slice_get new.history n ≡ Some (Join o first after)
        → (o.base ≤ n) × IsLeastOffer p.lattice p.via_cost (board_at new o.base) o }
{}

/// Where some offer of a pass met a full board, as many entries of workers stand as may.
pub fn full_passes_are_spent()
    ensures { (p : PassOf) (old new : BoardOf) (logs : List OneLog) → IsPassed p old new logs → MetFull logs
        → IsSpent new }
{}
