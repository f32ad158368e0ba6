//! What a run says of its cuts: a law, on a call that does nothing.

ghost use Rattle.std.specs.Prelude.{◌≡◌, All, true};
ghost use Rattle.pcb_model.specs.declared.design.Design.{Design as TheDesign};
ghost use Rattle.route_lattice.specs.Mesh.{Mesh};
ghost use Rattle.pcb_board.specs.Boards.{BoardOf};
ghost use Rattle.route_run.specs.declared.facts.Facts.{Facts as RunFacts};
ghost use Rattle.route_run.specs.Runs.{IsRun, IsWideShut, RunOf};

/// Where a run joins by moves at 45 degrees too, no walk with such moves leads from the island of a cut to another
/// island of its net.
pub fn cuts_are_shut()
    ensures { (d : TheDesign) (m : Mesh) (r : RunOf) (b : BoardOf) (facts : RunFacts) → IsRun d m r b facts
        → r.diagonal ≡ true → All (IsWideShut b.design m b.items r.via_cost) facts.cuts }
{}
