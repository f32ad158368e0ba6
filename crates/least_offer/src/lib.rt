//! Least offers: that they may be made, and what a board answers to an offer that was planned before it grew. Laws on
//! calls that do nothing.
#![tactic(auto)]

ghost use Rattle.std.specs.Prelude.{◌≡◌, ◌≤◌, ◌<◌, ℕ, List as Seq, [], ◌∷◌, length, Some, None};
ghost use Rattle.pcb_model.specs.Copper.{Ascends};
ghost use Rattle.pcb_model.specs.Plain.{IsPlainCopper};
ghost use Rattle.route_lattice.specs.Mesh.{Mesh};
ghost use Rattle.route_lattice.specs.Fits.{FitsDesign};
ghost use Rattle.board_offers.specs.declared.offer.Offer.{Offer as OneOffer};
ghost use Rattle.pcb_board.specs.Boards.{BoardOf};
ghost use Rattle.pcb_board.specs.declared.answer.Answer.{Answer as OneAnswer};
ghost use Rattle.pcb_board.specs.Answers.{Step};
ghost use Rattle.pcb_board.specs.Keeping.{IsBoard, Grows};
ghost use Rattle.ripup.specs.Rips.{AreIdsInWay, HasIdInWay, IsInWayOf};
ghost use Rattle.shove.specs.Shoves.{IsWire, IsShove};
ghost use Rattle.geo_kernel.specs.declared.point.Point.{Point as OnePoint};
ghost use Rattle.std.specs.Prelude.{Bool, Contains};
ghost use Rattle.board_offers.specs.Items.{added, added_from};
ghost use Rattle.pcb_board.specs.Boards.{given};
ghost use Rattle.least_offer.specs.Late.{IsFair};
ghost use Rattle.least_offer.specs.Together.{StandTogether};
ghost use Rattle.least_offer.specs.Least.{IsLaidLeast, IsLeastOffer, IsWideOffer, TakesNothing, MayBeMade};
ghost use Rattle.least_offer.specs.Least.{AreShovesOf};
ghost use Rattle.pcb_model.specs.declared.item.Item.{Item as OneItem};
ghost use Rattle.pcb_model.specs.declared.item.Metal.{Metal as OneMetal};
ghost use Rattle.pcb_model.specs.declared.design.Design.{Design as TheDesign};
ghost use Rattle.board_offers.specs.declared.offer.Shoved.{Shoved as OneShove};
ghost use Rattle.board_offers.specs.declared.offer.TheConstants.{CLOSER};

use path_wire::own_copper_agrees;
use pcb_board::prefixes_keep;
use pcb_islands::joining_falls;

/// A least offer for a board is well formed there and meets no trouble, whether it takes nothing out, rips what is in
/// its way or shoves it.
pub fn least_offers_may_be_made()
    ensures { (m : Mesh) (via_cost : ℕ) (b : BoardOf) (o : OneOffer) → IsBoard b → Ascends b.items
        → IsPlainCopper b.design → FitsDesign b.design m → o.base ≤ length b.history → o.worker ≤ CLOSER
        → o.net < length b.design.nets → IsLeastOffer m via_cost b o → (o.penalty ≡ None → TakesNothing o)
        → MayBeMade b o }
{
    own_copper_agrees();
    joining_falls();
}

/// So is a least offer without a penalty that takes out one item, which is in its way.
pub fn one_may_be_taken_out()
    ensures { (m : Mesh) (via_cost : ℕ) (b : BoardOf) (o : OneOffer) (id : ℕ) → IsBoard b → Ascends b.items
        → IsPlainCopper b.design → FitsDesign b.design m → o.base ≤ length b.history → o.worker ≤ CLOSER
        → o.net < length b.design.nets → IsLeastOffer m via_cost b o → o.penalty ≡ None → o.rip ≡ id ∷ []
        → o.shoves ≡ [] → HasIdInWay b.design b.items (added b.design (given b) o) id → MayBeMade b o }
{
    own_copper_agrees();
    joining_falls();
}

/// So is one that moves one run of a wire in its way aside by a line.
pub fn one_may_be_moved_aside()
    ensures { (m : Mesh) (via_cost : ℕ) (b : BoardOf) (o : OneOffer) (item : OneItem) (r : ℕ) (up : Bool)
        (chain : Seq OnePoint) → IsBoard b → Ascends b.items → IsPlainCopper b.design → FitsDesign b.design m
        → o.base ≤ length b.history → o.worker ≤ CLOSER → o.net < length b.design.nets
        → IsLeastOffer m via_cost b o → o.penalty ≡ None → Contains b.items item → IsWire item.metal
        → IsShove b.design m b.items item r up chain
        → o.shoves ≡ (record { id = item.id; chain = chain }) ∷ [] → o.rip ≡ []
        → IsInWayOf b.design (added b.design (given b) o) item → MayBeMade b o }
{
    own_copper_agrees();
    joining_falls();
}

/// An offer with a penalty that shoves each item in its way to the first chain that fits may be made where these
/// shoves stand together.
pub fn shoves_may_be_made()
    ensures { (m : Mesh) (via_cost : ℕ) (b : BoardOf) (o : OneOffer) (penalty : ℕ) (ids : Seq ℕ) → IsBoard b
        → Ascends b.items → IsPlainCopper b.design → FitsDesign b.design m → o.base ≤ length b.history
        → o.worker ≤ CLOSER → o.net < length b.design.nets → IsLaidLeast m via_cost b o → o.penalty ≡ Some penalty
        → AreIdsInWay b.design b.items (added b.design (given b) o) ids
        → AreShovesOf b.design m b.items (added b.design (given b) o) ids o.shoves → o.rip ≡ []
        → StandTogether b.design b.items o.shoves → MayBeMade b o }
{
    own_copper_agrees();
    joining_falls();
}

/// A join of the closing pass by a walk with moves at 45 degrees is well formed and meets no trouble.
pub fn wide_offers_may_be_made()
    ensures { (m : Mesh) (via_cost : ℕ) (b : BoardOf) (o : OneOffer) → IsBoard b → Ascends b.items
        → IsPlainCopper b.design → FitsDesign b.design m → o.base ≤ length b.history
        → o.net < length b.design.nets → IsWideOffer m via_cost b o → MayBeMade b o }
{
    own_copper_agrees();
    joining_falls();
}

/// Shoves of an offer that may be made stand together.
pub fn made_shoves_stand_together()
    ensures { (b : BoardOf) (o : OneOffer) → IsBoard b → MayBeMade b o → StandTogether b.design b.items o.shoves }
{}

/// Items have at most one list of shoves; it and the ids in the way stay the same whatever ids the new items have.
pub fn shoves_are_one()
    ensures one { (d : TheDesign) (m : Mesh) (items new : Seq OneItem) (ids : Seq ℕ) (ss ts : Seq OneShove)
        → Ascends items → AreShovesOf d m items new ids ss → AreShovesOf d m items new ids ts → ss ≡ ts }
    ensures in_way { (d : TheDesign) (net : ℕ) (items : Seq OneItem) (i k : ℕ) (metals : Seq OneMetal) (ids : Seq ℕ)
        → AreIdsInWay d items (added_from d net i metals) ids → AreIdsInWay d items (added_from d net k metals) ids }
    ensures alike { (d : TheDesign) (m : Mesh) (net : ℕ) (items : Seq OneItem) (i k : ℕ) (metals : Seq OneMetal)
        (ids : Seq ℕ) (ss : Seq OneShove) → AreShovesOf d m items (added_from d net i metals) ids ss
        → AreShovesOf d m items (added_from d net k metals) ids ss }
{}

/// An offer that might be made on a board is committed by any later one, or is stale there, or that board is full.
pub fn late_offers_are_fair()
    ensures { (b c after : BoardOf) (o : OneOffer) (a : OneAnswer) → IsBoard b → IsBoard c → Grows b c
        → MayBeMade b o → Step c o a after → IsFair a }
{
    prefixes_keep();
}
