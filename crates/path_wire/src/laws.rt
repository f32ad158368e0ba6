//! Laws of a walk's copper, for the proofs of callers.
//! The functions do nothing; a call brings the law that its clauses state.

ghost use Rattle.std.specs.Prelude.{◌≡◌, ℕ, ◌+◌, ◌*◌, ◌<◌, ◌≤◌, ◌∷◌, List as Seq, All, Any, Contains, length, map};
ghost use Rattle.std.specs.Prelude.{Some};
ghost use Rattle.geo_kernel.specs.declared.point.Point.{Point as OnePoint};
ghost use Rattle.pcb_model.specs.declared.item.Item.{Item as OneItem};
ghost use Rattle.pcb_model.specs.declared.item.Metal.{Metal as OneMetal};
ghost use Rattle.pcb_model.specs.declared.design.Design.{Design as TheDesign};
ghost use Rattle.pcb_model.specs.Rules.{width_for};
ghost use Rattle.pcb_model.specs.Pairs.{Agrees, ProbeAgrees, AreTouching};
ghost use Rattle.pcb_model.specs.Board.{IsMetalLaid};
ghost use Rattle.pcb_model.specs.Sound.{IsSound};
ghost use Rattle.route_lattice.specs.declared.moves.Move.{Move as OneMove};
ghost use Rattle.route_lattice.specs.declared.moves.Walk.{Walk as OneWalk};
ghost use Rattle.route_lattice.specs.Walks.{IsWalk};
ghost use Rattle.route_lattice.specs.Mesh.{Mesh, node_count};
ghost use Rattle.route_lattice.specs.Fits.{FitsDesign};
ghost use Rattle.route_lattice.specs.Anchors.{Holds, Anchors};
ghost use Rattle.route_lattice.specs.Legal.{IsLegalProbe, legal_graph};
ghost use Rattle.path_wire.specs.Diagonals.{diagonal_price, wide_graph};
ghost use Rattle.path_wire.specs.Wires.{IsNetWalk, copper_of};
ghost use Rattle.path_wire.specs.Lays.{move_probes, walk_probes, laid_item, IsProbeInside, IsMetalInside};
ghost use Rattle.path_wire.specs.Lays.{IsWellLaid, IsWireOrVia};
ghost use Rattle.path_wire.specs.Joins.{HasNode, Connect, last_node};
ghost use Rattle.path_wire.specs.Parts.{Part, AreParts, part_metal};
ghost use Rattle.pcb_model.specs.Plain.{ArePlain, IsPlainItem, IsPlainCopper};

/// A walk over legal moves, from nodes of the lattice, is a walk of the net; what each of its moves lays is legal;
/// it leads from a start to a goal.
pub fn net_walks()
    ensures walk { (d : TheDesign) (m : Mesh) (items : Seq OneItem) (net via_cost : ℕ) (starts goals : Seq ℕ)
        (w : OneWalk)
        → All (λ v. v < node_count m) starts → IsWalk (legal_graph d m items net via_cost) starts goals w
        → IsNetWalk d m net w.nodes w.moves }
    ensures legal { (d : TheDesign) (m : Mesh) (items : Seq OneItem) (net via_cost : ℕ) (starts goals : Seq ℕ)
        (w : OneWalk)
        → IsWalk (legal_graph d m items net via_cost) starts goals w
        → All (IsLegalProbe d items net) (move_probes d m net w.nodes w.moves) }
    ensures ends { (d : TheDesign) (m : Mesh) (items : Seq OneItem) (net via_cost : ℕ) (starts goals : Seq ℕ)
        (w : OneWalk)
        → IsWalk (legal_graph d m items net via_cost) starts goals w → (v : ℕ) × (vs : Seq ℕ) × (w.nodes ≡ v ∷ vs)
        × Contains starts v × Contains goals (last_node v vs) }
{}

/// The same of a walk over legal moves and diagonals.
pub fn wide_walks()
    ensures walk { (d : TheDesign) (m : Mesh) (items : Seq OneItem) (net via_cost : ℕ) (starts goals : Seq ℕ)
        (w : OneWalk) → FitsDesign d m
        → All (λ v. v < node_count m) starts → IsWalk (wide_graph d m items net via_cost) starts goals w
        → IsNetWalk d m net w.nodes w.moves }
    ensures legal { (d : TheDesign) (m : Mesh) (items : Seq OneItem) (net via_cost : ℕ) (starts goals : Seq ℕ)
        (w : OneWalk) → FitsDesign d m → IsWalk (wide_graph d m items net via_cost) starts goals w
        → All (IsLegalProbe d items net) (move_probes d m net w.nodes w.moves) }
    ensures ends { (d : TheDesign) (m : Mesh) (items : Seq OneItem) (net via_cost : ℕ) (starts goals : Seq ℕ)
        (w : OneWalk) → FitsDesign d m
        → IsWalk (wide_graph d m items net via_cost) starts goals w → (v : ℕ) × (vs : Seq ℕ) × (w.nodes ≡ v ∷ vs)
        × Contains starts v × Contains goals (last_node v vs) }
{}

/// A diagonal's price is its gap times 1.414214, rounded up to a whole number of nm.
pub fn diagonal_prices_round_up()
    ensures { (gap : ℕ) → (gap * 1414214 ≤ diagonal_price gap * 1000000)
        × (diagonal_price gap * 1000000 < gap * 1414214 + 1000000) }
{}

/// The copper of a walk with moves is that of the walk's parts, in order: a wire for each longest stretch of steps,
/// whose vertices are its ends and the nodes at which the direction changes, and a via for each via move.
pub fn copper_by_parts()
    ensures { (d : TheDesign) (m : Mesh) (net v : ℕ) (nodes : Seq ℕ) (moves : Seq OneMove) → 1 ≤ length moves
        → IsNetWalk d m net (v ∷ nodes) moves → (parts : Seq Part) × AreParts v nodes moves parts
        × (copper_of d m net (v ∷ nodes) moves ≡ map (part_metal m (width_for d net)) parts) }
{}

/// Where the disc at the first node and what each move lays agree with an item, so does the copper.
pub fn copper_agrees()
    ensures { (d : TheDesign) (m : Mesh) (net id : ℕ) (nodes : Seq ℕ) (moves : Seq OneMove) (b : OneItem)
        → FitsDesign d m → IsNetWalk d m net nodes moves
        → All (λ p. ProbeAgrees d net p b) (walk_probes d m net nodes moves)
        → All (λ a. Agrees d (laid_item d net id a) b) (copper_of d m net nodes moves) }
{}

/// Where the disc at the first node and what each move lays lie inside every boundary, so does the copper.
pub fn copper_inside()
    ensures { (d : TheDesign) (m : Mesh) (net : ℕ) (nodes : Seq ℕ) (moves : Seq OneMove)
        → IsNetWalk d m net nodes moves → All (IsProbeInside d) (walk_probes d m net nodes moves)
        → All (IsMetalInside d) (copper_of d m net nodes moves) }
{}

/// The copper is laid as its net wants it, and its items fit the design.
pub fn copper_well_laid()
    ensures { (d : TheDesign) (m : Mesh) (net id : ℕ) (nodes : Seq ℕ) (moves : Seq OneMove) → IsSound d
        → FitsDesign d m → net < length d.nets → IsNetWalk d m net nodes moves
        → All (IsWellLaid d net id) (copper_of d m net nodes moves) }
{}

/// Each wire of the copper has just the net's width, and two points at least.
pub fn copper_widths()
    ensures { (d : TheDesign) (m : Mesh) (net : ℕ) (nodes : Seq ℕ) (moves : Seq OneMove) → IsNetWalk d m net nodes moves
        → All (IsWireOrVia (width_for d net)) (copper_of d m net nodes moves) }
{}

/// Routed items of one net that metals make agree with each other.
pub fn own_copper_agrees()
    ensures { (d : TheDesign) (net i j : ℕ) (a b : OneMetal) → Agrees d (laid_item d net i a) (laid_item d net j b) }
{}

/// The copper leads from the first node to the last, each metal with a node in common with the next.
pub fn copper_connects()
    ensures { (d : TheDesign) (m : Mesh) (net v : ℕ) (nodes : Seq ℕ) (moves : Seq OneMove) → FitsDesign d m
        → IsNetWalk d m net (v ∷ nodes) moves
        → Connect d m v (copper_of d m net (v ∷ nodes) moves) (last_node v nodes) }
{}

/// Items of one net whose areas have one loop each touch where pieces of both, on one layer, cover one point.
pub fn common_points_touch()
    ensures { (a b : OneItem) (net layer : ℕ) (p : OnePoint) → a.net ≡ Some net → b.net ≡ Some net
        → ArePlain a.pieces → ArePlain b.pieces → Any (Holds layer p) a.pieces → Any (Holds layer p) b.pieces
        → AreTouching a b }
{}

/// A metal that is laid as its net wants it touches each item of the net that one of its nodes anchors, and each
/// metal with which it has a node in common.
/// The copper that metals stand for is plain.
pub fn copper_touches()
    ensures anchored { (d : TheDesign) (m : Mesh) (net id v : ℕ) (a : OneMetal) (b : OneItem) → IsSound d
        → IsPlainCopper d → IsMetalLaid d (Some net) a → HasNode d m v a → b.net ≡ Some net → IsPlainItem b
        → Anchors d m v b → AreTouching (laid_item d net id a) b }
    ensures neighbours { (d : TheDesign) (m : Mesh) (net i j v : ℕ) (a b : OneMetal) → IsSound d → IsPlainCopper d
        → IsMetalLaid d (Some net) a → IsMetalLaid d (Some net) b → HasNode d m v a → HasNode d m v b
        → AreTouching (laid_item d net i a) (laid_item d net j b) }
    ensures plain { (d : TheDesign) (net id : ℕ) (a : OneMetal) → IsPlainCopper d → IsPlainItem (laid_item d net id a) }
{}
