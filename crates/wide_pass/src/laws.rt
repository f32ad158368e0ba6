//! Laws of rounds, on calls that do nothing.

ghost use Rattle.std.specs.Prelude.{◌≤◌, ◌<◌, ℕ, List as Seq, length};
ghost use Rattle.pcb_model.specs.declared.item.Item.{Item as OneItem};
ghost use Rattle.pcb_model.specs.declared.design.Design.{Design as TheDesign};
ghost use Rattle.pcb_islands.specs.declared.net.Island.{Island as OneIsland};
ghost use Rattle.route_lattice.specs.Mesh.{Mesh};
ghost use Rattle.route_lattice.specs.Walks.{Hop as OneHop, Leads};
ghost use Rattle.path_wire.specs.Diagonals.{wide_graph};
ghost use Rattle.cut_certificate.specs.Cuts.{IsStart, IsGoal};
ghost use Rattle.pcb_board.specs.Boards.{BoardOf};
ghost use Rattle.pcb_model.specs.Plain.{IsPlainCopper};
ghost use Rattle.route_lattice.specs.Fits.{FitsDesign};
ghost use Rattle.board_offers.specs.declared.offer.Offer.{Offer as OneOffer};
ghost use Rattle.pcb_board.specs.Keeping.{IsBoard};
ghost use Rattle.pcb_board.specs.Answers.{joined};
ghost use Rattle.least_offer.specs.Least.{IsWideOffer};
ghost use Rattle.closing_pass.specs.OpenCount.{FewerOpen};
ghost use Rattle.wide_pass.specs.Rounds.{ClosesWide, IsJoinAt, IsWideReach};

use least_offer::wide_offers_may_be_made;

/// No walk with diagonals leads from an island to another one, if their reach holds no anchor of another.
pub fn wide_reach_shuts()
    ensures { (d : TheDesign) (m : Mesh) (items : Seq OneItem) (via_cost : ℕ) (island : OneIsland)
        (others : Seq OneIsland) (nodes : Seq ℕ) (from to : ℕ) (hops : Seq OneHop)
        → IsWideReach d m items via_cost island others nodes → IsStart d m items island from
        → IsGoal d m items others to → Leads (wide_graph d m items island.net via_cost) from hops to → ⊥ }
{}

/// Each further entry of rounds is a least offer on the board after its base, or one by a walk with diagonals.
pub fn rounds_join_least()
    ensures { (m : Mesh) (via_cost : ℕ) (old new : BoardOf) → ClosesWide m via_cost old new → (n : ℕ)
        → length old.history ≤ n → IsJoinAt m via_cost new n }
{}

/// A join by a walk with diagonals that rests on the board as it is leaves fewer connections open. So rounds end.
pub fn wide_joins_leave_fewer()
    ensures { (m : Mesh) (via_cost : ℕ) (b : BoardOf) (o : OneOffer) → IsBoard b → IsPlainCopper b.design
        → FitsDesign b.design m → o.base ≤ length b.history → o.net < length b.design.nets → IsWideOffer m via_cost b o
        → FewerOpen b (joined b o) }
{
    wide_offers_may_be_made();
}
