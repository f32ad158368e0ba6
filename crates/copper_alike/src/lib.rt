//! Copper that is the same up to ids and the direction of chains: laws on calls that do nothing.
//! Two lists of items show the same copper where each item of one has a twin in the other; whether an item is fixed
//! doesn't count, nor how often its copper stands in a list.
#![tactic(auto)]

ghost use Rattle.std.specs.Prelude.{◌≡◌, ◌<◌, ℕ, length, List as Seq, Contains, Some, slice_get, map, remove, filter};
ghost use Rattle.pcb_model.specs.declared.item.Item.{Item as OneItem};
ghost use Rattle.pcb_model.specs.declared.design.Design.{Design as TheDesign};
ghost use Rattle.pcb_model.specs.Board.{IsLegal, IsMade, IsRouted, is_fixed};
ghost use Rattle.pcb_model.specs.Copper.{Ascends};
ghost use Rattle.pcb_model.specs.Sound.{IsSound, Serves};
ghost use Rattle.pcb_islands.specs.declared.net.Island.{Island as OneIsland};
ghost use Rattle.pcb_islands.specs.Islands.{AreIslands};
ghost use Rattle.route_lattice.specs.Mesh.{Mesh};
ghost use Rattle.cut_certificate.specs.declared.cut.Cut.{Cut as OneCut};
ghost use Rattle.cut_certificate.specs.Cuts.{IsCut};
ghost use Rattle.copper_alike.specs.Twins.{HasEdges, HasRoutedTwin, ShowSame};
ghost use Rattle.copper_alike.specs.Sets.{IsCutSet};
ghost use Rattle.geo_kernel.specs.declared.point.Point.{Point as OnePoint};
ghost use Rattle.pcb_model.specs.declared.item.Probe.{Probe as OneProbe};
ghost use Rattle.pcb_model.specs.declared.item.Probe.TheVariants.{Step};
ghost use Rattle.route_lattice.specs.Legal.{IsLegalProbe};

use pcb_model::pairs_are_symmetric;

/// The islands of a net have the same pins, in the same order.
pub fn islands_are_alike()
    ensures { (d : TheDesign) (net : ℕ) (xs ys : Seq OneItem) (old found : Seq OneIsland) → IsSound d → Serves xs d
        → Serves ys d → ShowSame xs ys → AreIslands d xs net old → AreIslands d ys net found
        → map (λ (s : OneIsland). s.pins) old ≡ map (λ (s : OneIsland). s.pins) found }
{
    pairs_are_symmetric();
}

/// A set of nodes that shuts an island in on the one shuts in the island at its place on the other. The nodes of a cut
/// are such a set.
pub fn sets_are_alike()
    ensures alike { (d : TheDesign) (m : Mesh) (net : ℕ) (xs ys : Seq OneItem) (old found : Seq OneIsland) (k : ℕ)
        (s t : OneIsland) (nodes : Seq ℕ) → IsSound d → Ascends xs → Ascends ys → Serves xs d → Serves ys d
        → ShowSame xs ys → AreIslands d xs net old → AreIslands d ys net found → slice_get old k ≡ Some s
        → slice_get found k ≡ Some t → IsCutSet d m xs s (remove old k) nodes
        → IsCutSet d m ys t (remove found k) nodes }
    ensures cuts { (d : TheDesign) (m : Mesh) (items : Seq OneItem) (island : OneIsland) (others : Seq OneIsland)
        (cut : OneCut) → IsCut d m items island others cut → IsCutSet d m items island others cut.reach.nodes }
{
    pairs_are_symmetric();
}

/// Items whose routed ones have the copper of routed items of a legal board, and whose fixed ones are the design's, are
/// legal too.
pub fn legal_copper_is_alike()
    ensures { (d : TheDesign) (xs ys : Seq OneItem) → HasEdges d → IsLegal d xs
        → ((a : OneItem) → Contains ys a → IsRouted a → IsMade d a × HasRoutedTwin xs a)
        → filter is_fixed ys ≡ d.fixed → IsLegal d ys }
{
    pairs_are_symmetric();
}

/// What a step lays between two points is legal exactly where the way back is.
pub fn steps_are_open_both_ways()
    ensures { (d : TheDesign) (items : Seq OneItem) (net layer width : ℕ) (a b : OnePoint) → Serves items d → HasEdges d
        → layer < length d.layers → IsLegalProbe d items net (Step layer width a b)
        → IsLegalProbe d items net (Step layer width b a) }
{}
