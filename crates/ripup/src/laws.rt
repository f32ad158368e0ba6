//! Laws of moves that take routed items out, each on a call that does nothing.
//! Other crates cite them by what these calls ensure.

ghost use Rattle.std.specs.Prelude.{◌≡◌, ℕ, min, List as Seq};
ghost use Rattle.pcb_model.specs.declared.item.Item.{Item as OneItem};
ghost use Rattle.pcb_model.specs.declared.item.Probe.{Probe as OneProbe};
ghost use Rattle.pcb_model.specs.declared.design.Design.{Design as TheDesign};
ghost use Rattle.pcb_model.specs.Counts.{Counts};
ghost use Rattle.route_lattice.specs.Mesh.{Mesh};
ghost use Rattle.route_lattice.specs.Walks.{IsSound as IsGraphSound};
ghost use Rattle.ripup.specs.Rips.{CanRip, CountsTo, IsInWay, rip_graph};

/// The graph of these moves is one that may be searched: its moves lead to nodes, and each has one price, at most 2^35.
pub fn rip_graph_sound()
    ensures { (d : TheDesign) (m : Mesh) (items : Seq OneItem) (net via_cost penalty : ℕ)
        → CanRip d m net via_cost penalty → IsGraphSound (rip_graph d m items net via_cost penalty) }
{}

/// Where n items are in the way, the lesser of n and the limit is charged.
pub fn counts_to_limit()
    ensures { (d : TheDesign) (net : ℕ) (p : OneProbe) (items : Seq OneItem) (limit n : ℕ)
        → Counts (IsInWay d net p) items n → CountsTo (IsInWay d net p) limit items (min n limit) }
{}
