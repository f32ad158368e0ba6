//! Laws of settled moves, on a call that does nothing.
//! What takes out one item and lays a stated walk lays one copper.

ghost use Rattle.std.specs.Prelude.{◌≡◌, ℕ, List as Seq, [], ◌∷◌, None};
ghost use Rattle.board_offers.specs.declared.offer.Shoved.{Shoved as OneShove};
ghost use Rattle.pcb_islands.specs.declared.net.Island.{Island as OneIsland};
ghost use Rattle.route_lattice.specs.Mesh.{Mesh};
ghost use Rattle.board_offers.specs.declared.offer.Offer.{Offer as OneOffer};
ghost use Rattle.pcb_board.specs.Boards.{BoardOf};
ghost use Rattle.closing_pass.specs.Settled.{TakesOut, LaysStated};
ghost use Rattle.pcb_model.specs.declared.item.Item.{Item as OneItem};
ghost use Rattle.pcb_model.specs.declared.design.Design.{Design as TheDesign};
ghost use Rattle.geo_kernel.specs.declared.point.Point.{Point as OnePoint};
ghost use Rattle.route_lattice.specs.Legal.{legal_graph};
ghost use Rattle.closing_pass.specs.Ids.{beside, IdsChangeNothing, StatedAlike};

/// Two offers for an island that take out the same item, or move it aside to the same chain, and lay stated walks add
/// the same copper.
pub fn one_way_out()
    ensures aside { (m : Mesh) (via_cost : ℕ) (b : BoardOf) (s : OneShove) (island : OneIsland) (others : Seq OneIsland)
        (o p : OneOffer) → o.rip ≡ [] → p.rip ≡ [] → o.shoves ≡ s ∷ [] → p.shoves ≡ s ∷ [] → o.penalty ≡ None
        → p.penalty ≡ None → o.net ≡ p.net → LaysStated m via_cost b o island others
        → LaysStated m via_cost b p island others → o.add ≡ p.add }
    ensures out { (m : Mesh) (via_cost : ℕ) (b : BoardOf) (island : OneIsland) (others : Seq OneIsland) (id : ℕ)
        (o p : OneOffer) → TakesOut o id → TakesOut p id → o.penalty ≡ None → p.penalty ≡ None → o.net ≡ p.net
        → LaysStated m via_cost b o island others → LaysStated m via_cost b p island others → o.add ≡ p.add }
{}

/// The id of a wire that was moved aside changes neither the moves beside it nor which nodes are legal, and so no
/// stated walk.
pub fn ids_change_nothing()
    ensures moves { IdsChangeNothing }
    ensures walks { (d : TheDesign) (m : Mesh) (net via_cost : ℕ) (xs : Seq OneItem) (a : OneItem)
        (chain : Seq OnePoint) (i k : ℕ) → StatedAlike (legal_graph d m (beside d xs a chain i) net via_cost)
        (legal_graph d m (beside d xs a chain k) net via_cost) }
{}
