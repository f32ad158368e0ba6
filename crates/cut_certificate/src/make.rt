//! Cuts, made by a search that closed.
//! No cut is made where legal moves lead on.

ghost use Rattle.std.specs.Prelude.{◌≡◌, ◌<◌, ◌≤◌, ◌^◌, ◌==◌, length, List as Seq, IfOk, slice_index};
ghost use Rattle.std.specs.List.{list_any};
ghost use Rattle.pcb_islands.specs.declared.net.Island.{Island as OneIsland};
ghost use Rattle.pcb_model.specs.Sound.{IsSound};
ghost use Rattle.route_lattice.specs.Fits.{FitsDesign};
ghost use Rattle.route_lattice.specs.Legal.{CanMove, legal_graph};
ghost use Rattle.cut_certificate.specs.Same.{SameMoves};
ghost use Rattle.cut_certificate.specs.Cuts.{Cuts, CutsOff, AreStarts, AreGoals, others_of};
ghost use Rattle.cut_certificate.specs.inner.Checks.{AreIdsOf};

use crate::border::{Border, close};
use crate::cut::Cut;
use crate::sound::SoundMoves;
use geo_kernel::List;
use pcb_islands::{Island, islands};
use pcb_model::{Copper, Design};
use route_lattice::{Ground, Lattice, Moves, anchors_among, legal_among, legal_graph_sound};
use std::alloc::{AllocError, Global};

/// The ids of the items of the islands.
fn ids_of(alloc: Global, others: &[Island]) -> Result<Vec<u64>, AllocError>
    ensures { IfOk result (λ ids. AreIdsOf others.now ids.items) }
{
    let mut ids = Vec::new(alloc);
    for other in others {
        ids.extend_from_slice(other.items.as_slice())?;
    }
    Ok(ids)
}

/// The nodes at which a walk from the island may start: its legal anchors.
pub fn starts_of<C: Copper>(
    alloc: Global,
    lat: &Lattice,
    d: &Design,
    c: &C,
    island: &Island,
) -> Result<List<u32>, AllocError>
    requires sound { IsSound d.now }
    requires fits { FitsDesign d.now lat.now }
    requires net { island.now.net < length d.now.nets }
    requires serves { C.serves c.now d.now }
    ensures { IfOk result (AreStarts d.now lat.now (C.items c.now) island.now) }
{
    let anchors = anchors_among(alloc, lat, d, c, island.items.as_slice())?;
    legal_among(alloc, lat, d, c, island.net, anchors.as_slice())
}

/// The nodes at which a walk to one of the islands may end: their anchors.
pub fn goals_of<C: Copper>(
    alloc: Global,
    lat: &Lattice,
    d: &Design,
    c: &C,
    others: &List<Island>,
) -> Result<List<u32>, AllocError>
    requires sound { IsSound d.now }
    requires fits { FitsDesign d.now lat.now }
    requires serves { C.serves c.now d.now }
    ensures { IfOk result (AreGoals d.now lat.now (C.items c.now) others.now) }
{
    let ids = ids_of(alloc, others.as_slice())?;
    anchors_among(alloc, lat, d, c, ids.as_slice())
}

fn first_pin(island: &Island) -> u32
    ensures { result ≡ slice_index island.now.pins 0 }
{
    match island.pins.get(0) {
        None => 0,
        Some(pin) => *pin,
    }
}

/// An island of a net on its ground, and the price of a via in nm.
#[derive(Drop)]
struct FromIsland<'a, C: Copper> {
    on: Ground<'a, C>,
    island: &'a Island,
    via_cost: u64,
    ghost net_there: { island.now.net < length on.d.nets },
    ghost small_cost: { via_cost ≤ 2 ^ 30 },
    ghost pins: { 0 < length island.now.pins },
}

impl<C: Copper> FromIsland<'_, C> {
    /// A cut that holds the starts of the island, or None where legal moves lead from one of them to a goal; whichever
    /// islands the goals are of. The flood goes over `legal`.
    fn cut_between<M: Moves>(
        &self,
        alloc: Global,
        legal: &SoundMoves<'_, M>,
        starts: &List<u32>,
        goals: &List<u32>,
    ) -> Result<Option<Cut>, AllocError>
        requires legal { SameMoves (M.graph legal.now) (legal_graph self.now.on.d self.now.on.lat self.now.on.items
            self.now.island.now.net self.now.via_cost) }
        requires starts { AreStarts self.now.on.d self.now.on.lat self.now.on.items self.now.island.now starts.now }
        ensures { IfOk result (λ cut. (others : Seq OneIsland)
            → AreGoals self.now.on.d self.now.on.lat self.now.on.items others goals.now
            → Cuts self.now.on.d self.now.on.lat self.now.on.items self.now.via_cost self.now.island.now others cut) }
    {
        legal_graph_sound();
        let net = self.island.net;
        let moves = self.on.moves(net, self.via_cost);
        let shuts = SoundMoves { moves: &moves };
        match close(alloc, shuts, legal, starts, goals)? {
            None => Ok(None),
            Some(Border { reach, blocked }) => Ok(Some(Cut {
                net,
                pin: first_pin(self.island),
                reach,
                blocked,
            })),
        }
    }
}

/// `make_cut_among` by moves that are the legal ones: the flood goes over them, and the copper is asked only what
/// shuts the moves that lead out.
pub fn make_cut_with<C: Copper, M: Moves>(
    alloc: Global,
    lat: &Lattice,
    d: &Design,
    c: &C,
    legal: &M,
    island: &Island,
    others: &List<Island>,
    via_cost: u64,
) -> Result<Option<Cut>, AllocError>
    requires can_move { CanMove d.now lat.now island.now.net via_cost }
    requires pins { 0 < length island.now.pins }
    requires serves { C.serves c.now d.now }
    requires ready { M.ready legal.now }
    requires legal { SameMoves (M.graph legal.now) (legal_graph d.now lat.now (C.items c.now) island.now.net via_cost) }
    ensures { IfOk result (Cuts d.now lat.now (C.items c.now) via_cost island.now others.now) }
{
    legal_graph_sound();
    c.in_order();
    let starts = starts_of(alloc, lat, d, c, island)?;
    let goals = goals_of(alloc, lat, d, c, others)?;
    let on = Ground { lat, d, c };
    let from = FromIsland {
        on,
        island,
        via_cost,
    };
    let legal = SoundMoves { moves: legal };
    from.cut_between(alloc, &legal, &starts, &goals)
}

/// A cut between an island and the others, or None exactly where legal moves lead from a legal anchor of the island to
/// an anchor of one of them. The nodes of the cut are all that legal moves reach.
pub fn make_cut_among<C: Copper>(
    alloc: Global,
    lat: &Lattice,
    d: &Design,
    c: &C,
    island: &Island,
    others: &List<Island>,
    via_cost: u64,
) -> Result<Option<Cut>, AllocError>
    requires can_move { CanMove d.now lat.now island.now.net via_cost }
    requires pins { 0 < length island.now.pins }
    requires serves { C.serves c.now d.now }
    ensures { IfOk result (Cuts d.now lat.now (C.items c.now) via_cost island.now others.now) }
{
    c.in_order();
    let on = Ground { lat, d, c };
    let legal = on.moves(island.net, via_cost);
    make_cut_with(alloc, lat, d, c, &legal, island, others, via_cost)
}

fn has_pin(s: &Island, pin: u32) -> bool
    ensures { result ≡ list_any (λ p. p == pin) s.now.pins }
{
    for p in s.pins.as_slice() {
        if *p == pin {
            return true;
        }
    }
    false
}

/// The islands that don't have the first pin of the island.
fn others_among(found: List<Island>, island: &Island) -> List<Island>
    ensures { result ≡ others_of island.now found }
{
    let first = first_pin(island);
    let mut others = found.into_vec();
    others.retain(|s| !has_pin(s, first));
    List::from_vec(others)
}

/// `make_cut_among` the other islands of the net: those that don't have the first pin of the island.
pub fn make_cut<C: Copper>(
    alloc: Global,
    lat: &Lattice,
    d: &Design,
    c: &C,
    island: &Island,
    via_cost: u64,
) -> Result<Option<Cut>, AllocError>
    requires can_move { CanMove d.now lat.now island.now.net via_cost }
    requires pins { 0 < length island.now.pins }
    requires serves { C.serves c.now d.now }
    ensures { IfOk result (CutsOff d.now lat.now (C.items c.now) via_cost island.now) }
{
    let found = islands(alloc, d, c, island.net)?;
    let others = others_among(found, island);
    make_cut_among(alloc, lat, d, c, island, &others, via_cost)
}
