//! Legal moves lead back, open or not: a law on a call that does nothing.
//! It is of any design, copper and net.

ghost use Rattle.std.specs.Prelude.{ℕ, List as Seq};
ghost use Rattle.pcb_model.specs.declared.design.Design.{Design as TheDesign};
ghost use Rattle.pcb_model.specs.declared.item.Item.{Item as OneItem};
ghost use Rattle.route_lattice.specs.Mesh.{Mesh};
ghost use Rattle.route_lattice.specs.Legal.{legal_graph};
ghost use Rattle.cut_certificate.specs.Backwards.{IsMutual};

/// Where a legal move of a net leads, one leads back, which needn't be open. A law, on a call that does nothing.
pub fn legal_moves_lead_back()
    ensures { (d : TheDesign) (m : Mesh) (items : Seq OneItem) (net via_cost : ℕ)
        → IsMutual (legal_graph d m items net via_cost) }
{}
