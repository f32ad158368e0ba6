//! Laws of moves with diagonals, for the proofs of callers.
//! The functions do nothing; a call brings the law that its clauses state.

ghost use Rattle.std.specs.Prelude.{◌≡◌, ℕ, List as Seq, Contains};
ghost use Rattle.geo_kernel.specs.declared.point.Rect4.{Rect4 as OneBox};
ghost use Rattle.pcb_model.specs.declared.item.Item.{Item as OneItem};
ghost use Rattle.pcb_model.specs.declared.design.Design.{Design as TheDesign};
ghost use Rattle.route_lattice.specs.Mesh.{Mesh};
ghost use Rattle.route_lattice.specs.Walks.{Hop as OneHop, IsReach, IsSound as IsGraphSound, Leads};
ghost use Rattle.route_lattice.specs.Legal.{CanMove, legal_graph};
ghost use Rattle.path_wire.specs.Diagonals.{wide_graph};
ghost use Rattle.wave_search.specs.Around.{AreAround, low_at};
ghost use Rattle.wave_search.specs.Bounds.{IsBound};
ghost use Rattle.diag_moves.specs.Bounds.{shorter};
ghost use Rattle.diag_moves.specs.Slopes.{slant_graph};

use route_lattice::legal_graph_sound;
use wave_search::box_bound_sound;

/// The graph of the moves of a net along the lines, by vias and at 45 degrees is one that may be searched.
pub fn wide_graph_sound()
    ensures { (d : TheDesign) (m : Mesh) (items : Seq OneItem) (net via_cost : ℕ) → CanMove d m net via_cost
        → IsGraphSound (wide_graph d m items net via_cost) }
{
    legal_graph_sound();
}

/// Over them the way along the axes to the nearest of boxes around the goals, times 0.707107 and rounded down, is a
/// bound.
pub fn diag_bound_sound()
    ensures { (d : TheDesign) (m : Mesh) (items : Seq OneItem) (net via_cost : ℕ) (goals : Seq ℕ)
        (boxes : Seq OneBox) → CanMove d m net via_cost → AreAround m goals boxes
        → IsBound (wide_graph d m items net via_cost) goals (λ v. shorter (low_at m boxes v)) }
{
    box_bound_sound();
}

/// What these moves reach from all nodes that legal moves reach from the starts is all that they reach from the starts
/// themselves.
pub fn reach_goes_on()
    ensures { (d : TheDesign) (m : Mesh) (items : Seq OneItem) (net via_cost : ℕ) (starts legal nodes : Seq ℕ)
        → IsReach (legal_graph d m items net via_cost) starts legal
        → IsReach (wide_graph d m items net via_cost) legal nodes
        → IsReach (wide_graph d m items net via_cost) starts nodes }
{}

/// Walks over these moves are walks on fewer items too.
pub fn copper_takes_moves()
    ensures { (d : TheDesign) (m : Mesh) (items later : Seq OneItem) (net via_cost : ℕ) (hops : Seq OneHop) (a b : ℕ)
        → ((x : OneItem) → Contains items x → Contains later x)
        → Leads (wide_graph d m later net via_cost) a hops b → Leads (wide_graph d m items net via_cost) a hops b }
{}

/// The graph of the diagonals alone is one that may be searched.
pub fn slant_graph_sound()
    ensures { (d : TheDesign) (m : Mesh) (items : Seq OneItem) (net via_cost : ℕ) → CanMove d m net via_cost
        → IsGraphSound (slant_graph d m items net via_cost) }
{
    legal_graph_sound();
}

/// Where no diagonal leaves the nodes that legal moves reach from the starts, these are all that both reach.
pub fn reach_is_whole()
    ensures { (d : TheDesign) (m : Mesh) (items : Seq OneItem) (net via_cost : ℕ) (starts nodes : Seq ℕ)
        → IsReach (legal_graph d m items net via_cost) starts nodes
        → IsReach (slant_graph d m items net via_cost) nodes nodes
        → IsReach (wide_graph d m items net via_cost) starts nodes }
{}
