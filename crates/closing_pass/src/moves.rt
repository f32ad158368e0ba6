//! Settled moves of one item, for one island: each run of a wire is moved to the next line, up and then down, and then
//! the item is taken out. The first that helps is kept.

ghost use Rattle.std.specs.Prelude.{◌≡◌, ◌+◌, ◌-◌, ◌<◌, [], ◌∷◌, ◌↔◌, All, IfOk, IsTrue, None, length};
ghost use Rattle.std.specs.Bool.{OnFalse};
ghost use Rattle.pcb_model.specs.Bounds.{IsFit, IsMetalFit};
ghost use Rattle.pcb_model.specs.declared.design.Padstack.{Padstack as Stack};
ghost use Rattle.cut_certificate.specs.Cuts.{LeadsOn};
ghost use Rattle.board_offers.specs.Items.{reshaped, with_chain, without};
ghost use Rattle.shove.specs.Shoves.{IsWire, chain_of};
ghost use Rattle.closing_pass.specs.Settled.{MovesAside, TakesOut};
ghost use Rattle.closing_pass.specs.inner.Steps.{AreReady};
ghost use Rattle.closing_pass.specs.inner.Rooms.{IsRoomFor, MakesRoom};
ghost use Rattle.closing_pass.specs.inner.Trials.{after_trial};
ghost use Rattle.closing_pass.specs.inner.Tries.{AnswersBy, AnswersItem, AnswersTrial, FindsRoute, HasRouted};
ghost use Rattle.closing_pass.specs.inner.Tries.{IsPastOffer, IsPastTrial, IsShoveTo, IsTriedItem, MovesRunTo, MovesTo};
ghost use Rattle.closing_pass.specs.inner.Tries.{IsOfOther};

use crate::join::{Closer, SearchState};
use crate::room::Room;
use cut_certificate::Cut;
use geo_kernel::{List, Point};
use least_offer::{one_may_be_moved_aside, one_may_be_taken_out};
use pcb_board::{Board, CLOSER, Offer, Shoved};
use pcb_islands::Island;
use pcb_model::{Copper, Design, Item, Metal, make_item};
use route_plan::Route;
use shove::{Reshape, shove_at};
use std::alloc::{AllocError, Global};
use std::marker::Model;

/// An island of a net on a board, and the others, none of which a legal walk leads to, as its cut shows.
#[derive(Drop)]
pub(crate) struct ShutIsland<'a> {
    pub closer: Closer<'a>,
    pub board: &'a Board,
    pub island: &'a Island,
    pub others: &'a List<Island>,
    pub cut: &'a Cut,
}

impl<'a> Model for ShutIsland<'a> {
    ghost use Rattle.closing_pass.specs.inner.Tries.{ShutIslandOf, IsShutIsland};

    ghost Value = { ShutIslandOf };

    ghost view = { λ s. record {
      lat = s.closer.lat.now;
      via_cost = s.closer.via_cost;
      tries = s.closer.tries;
      board = s.board.now;
      island = s.island.now;
      others = s.others.now;
      cut = s.cut.now;
    } };

    ghost invariant = { λ s. IsShutIsland s.closer.lat.now s.closer.via_cost s.board.now s.island.now s.others.now
        s.cut.now };
}

// How many runs a wire has; other metals have none.
fn run_count(metal: &Metal) -> usize
    ensures { result ≡ length (chain_of metal.now) - 1 }
{
    match metal {
        Metal::Wire { chain, .. } => chain.len().saturating_sub(1),
        _ => 0,
    }
}

// Whether an item is of another net than this one.
fn is_of_other(item: &Item, net: u32) -> bool
    ensures { IsTrue result ↔ IsOfOther item.now net }
{
    match item.net {
        Some(own) => own != net,
        None => false,
    }
}

// A wire with another chain, under its own id.
fn reshape(alloc: Global, d: &Design, item: &Item, chain: &List<Point>) -> Result<Item, AllocError>
    requires wire { IsWire item.now.metal }
    requires fit { IsMetalFit (with_chain chain.now item.now.metal) }
    requires padstacks { All (λ (s : Stack). All IsFit s.pieces) d.now.padstacks }
    ensures { IfOk result (λ moved. moved ≡ reshaped d.now item.now.id chain.now item.now) }
{
    let Metal::Wire { layer, width, .. } = &item.metal else {
        unreachable!();
    };
    let metal = Metal::Wire {
        layer: *layer,
        width: *width,
        chain: List::from_slice(alloc, chain.as_slice())?,
    };
    make_item(alloc, d, item.id, item.net, false, metal)
}

impl ShutIsland<'_> {
    /// Copper of the board without the item of an id, and with another in its place where one is given.
    fn room(
        &self,
        alloc: Global,
        state: &mut SearchState,
        id: u64,
        moved: Option<Item>,
    ) -> Result<Room<'_>, AllocError>
        requires ready { AreReady self.now.lat self.now.via_cost self.now.board state.old }
        requires makes { MakesRoom self.now.board id moved }
        ensures room { IfOk result (IsRoomFor self.now.lat self.now.via_cost self.now.board id moved) }
        ensures ready { AreReady self.now.lat self.now.via_cost self.now.board state.new }
    {
        let (lat, via_cost) = (self.closer.lat, self.closer.via_cost);
        let mapped = self.closer.map_now(alloc, state, self.board)?;
        Room::of(alloc, lat, via_cost, self.board, mapped, id, moved)
    }

    /// Whether a legal walk may lead on without the item of an id.
    fn opens(&self, alloc: Global, state: &mut SearchState, id: u64) -> Result<bool, AllocError>
        requires ready { AreReady self.now.lat self.now.via_cost self.now.board state.old }
        requires there { MakesRoom self.now.board id None }
        ensures shut { IfOk result (λ led. OnFalse led (¬ (LeadsOn self.now.board.design self.now.lat
            (without (id ∷ []) self.now.board.items) self.now.via_cost self.now.island self.now.others))) }
        ensures ready { AreReady self.now.lat self.now.via_cost self.now.board state.new }
    {
        self.board.keeps();
        let room = self.room(alloc, state, id, None)?;
        let led = room.may_lead(alloc, self.island, self.others, self.cut, id);
        drop(state.mapped.replace(room.home()?));
        led
    }

    /// The route of the stated walk without the item of an id, and with another in its place where one is given; None
    /// where no walk leads on.
    fn route_past(
        &self,
        alloc: Global,
        state: &mut SearchState,
        id: u64,
        moved: Option<Item>,
    ) -> Result<Option<Route>, AllocError>
        requires ready { AreReady self.now.lat self.now.via_cost self.now.board state.old }
        requires makes { MakesRoom self.now.board id moved }
        ensures finds { IfOk result (FindsRoute self.now id moved) }
        ensures ready { AreReady self.now.lat self.now.via_cost self.now.board state.new }
    {
        self.board.keeps();
        let room = self.room(alloc, state, id, moved)?;
        let (island, others) = (self.island, self.others);
        let route = room.route(alloc, &mut state.search, island, others, self.cut, id);
        match room.home() {
            Ok(mapped) => {
                drop(state.mapped.replace(mapped));
                route
            }
            Err(error) => {
                drop(route);
                Err(error)
            }
        }
    }

    /// The offer of a route, with what makes way for it.
    fn offer_past(&self, route: Route, rip: List<u64>, shoves: List<Shoved>) -> Offer
        ensures { IsPastOffer self.now route rip shoves result }
    {
        Offer {
            base: self.board.history().len() as u64,
            worker: CLOSER,
            net: self.island.net,
            from: route.from,
            to: route.to,
            penalty: None,
            add: route.metals,
            rip,
            shoves,
        }
    }

    /// Tries an offer that makes way past an item.
    fn attempt(
        &self,
        alloc: Global,
        state: &mut SearchState,
        item: &Item,
        offer: Offer,
    ) -> Result<Option<Board>, AllocError>
        requires ready { AreReady self.now.lat self.now.via_cost self.now.board state.old }
        requires item { IsTriedItem self.now item.now }
        requires trial { IsPastTrial self.now item.now offer }
        ensures tries { IfOk result (AnswersTrial self.now item.now offer) }
        ensures ready { IfOk result (λ o. AreReady self.now.lat self.now.via_cost (after_trial self.now.board o)
            state.new) }
    {
        self.board.keeps();
        one_may_be_taken_out();
        one_may_be_moved_aside();
        let Some(net) = item.net else {
            unreachable!();
        };
        match self.closer.trial(alloc, state, self.board, offer, net)? {
            Some(helped) => {
                helped.keeps();
                Ok(Some(helped))
            }
            None => Ok(None),
        }
    }

    /// Takes an item out.
    fn try_out(
        &self,
        alloc: Global,
        state: &mut SearchState,
        item: &Item,
    ) -> Result<Option<Board>, AllocError>
        requires ready { AreReady self.now.lat self.now.via_cost self.now.board state.old }
        requires item { IsTriedItem self.now item.now }
        ensures answers { IfOk result (AnswersBy self.now item.now.id (λ o. TakesOut o item.now.id)) }
        ensures ready { IfOk result (λ o. AreReady self.now.lat self.now.via_cost (after_trial self.now.board o)
            state.new) }
    {
        self.board.keeps();
        match self.route_past(alloc, state, item.id, None)? {
            None => Ok(None),
            Some(route) => {
                let rip = List::from_slice(alloc, &[item.id])?;
                let offer = self.offer_past(route, rip, List::new(alloc));
                self.attempt(alloc, state, item, offer)
            }
        }
    }

    /// Moves a wire to another chain.
    fn try_chain(
        &self,
        alloc: Global,
        state: &mut SearchState,
        item: &Item,
        chain: List<Point>,
    ) -> Result<Option<Board>, AllocError>
        requires ready { AreReady self.now.lat self.now.via_cost self.now.board state.old }
        requires item { IsTriedItem self.now item.now }
        requires shove { IsShoveTo self.now item.now chain }
        ensures answers { IfOk result (AnswersBy self.now item.now.id (λ o. MovesTo item.now.id chain o)) }
        ensures ready { IfOk result (λ o. AreReady self.now.lat self.now.via_cost (after_trial self.now.board o)
            state.new) }
    {
        self.board.keeps();
        let moved = reshape(alloc, self.board.design(), item, &chain)?;
        match self.route_past(alloc, state, item.id, Some(moved))? {
            None => {
                drop(chain);
                Ok(None)
            }
            Some(route) => {
                let mut shoves = List::new(alloc);
                shoves.push(Shoved { id: item.id, chain })?;
                let offer = self.offer_past(route, List::new(alloc), shoves);
                self.attempt(alloc, state, item, offer)
            }
        }
    }

    /// Moves a run of a wire to the next line.
    fn try_run(
        &self,
        alloc: Global,
        state: &mut SearchState,
        item: &Item,
        run: usize,
        up: bool,
    ) -> Result<Option<Board>, AllocError>
        requires ready { AreReady self.now.lat self.now.via_cost self.now.board state.old }
        requires item { IsTriedItem self.now item.now }
        requires run { run + 1 < length (chain_of item.now.metal) }
        ensures answers { IfOk result (AnswersBy self.now item.now.id (MovesRunTo self.now item.now run up)) }
        ensures ready { IfOk result (λ o. AreReady self.now.lat self.now.via_cost (after_trial self.now.board o)
            state.new) }
    {
        self.board.keeps();
        let (lat, d, tiles) = (self.closer.lat, self.board.design(), self.board.items());
        let Some(Reshape { chain }) = shove_at(alloc, lat, d, tiles, item, run, up)? else {
            return Ok(None);
        };
        self.try_chain(alloc, state, item, chain)
    }

    /// Moves each run of a wire, up and then down.
    fn try_runs(
        &self,
        alloc: Global,
        state: &mut SearchState,
        item: &Item,
    ) -> Result<Option<Board>, AllocError>
        requires ready { AreReady self.now.lat self.now.via_cost self.now.board state.old }
        requires item { IsTriedItem self.now item.now }
        ensures answers { IfOk result (AnswersBy self.now item.now.id
            (λ o. MovesAside self.now.lat self.now.board o item.now.id)) }
        ensures ready { IfOk result (λ o. AreReady self.now.lat self.now.via_cost (after_trial self.now.board o)
            state.new) }
    {
        self.board.keeps();
        for run in 0..run_count(&item.metal) {
            if let Some(helped) = self.try_run(alloc, state, item, run, true)? {
                return Ok(Some(helped));
            }
            if let Some(helped) = self.try_run(alloc, state, item, run, false)? {
                return Ok(Some(helped));
            }
        }
        Ok(None)
    }

    /// Tries the settled moves of the item of an id: the board after the first that helps. Where no walk leads on even
    /// without the item, nothing else is looked at.
    pub(crate) fn try_item(
        &self,
        alloc: Global,
        state: &mut SearchState,
        id: u64,
    ) -> Result<Option<Board>, AllocError>
        requires ready { AreReady self.now.lat self.now.via_cost self.now.board state.old }
        requires item { HasRouted self.now id }
        ensures answers { IfOk result (AnswersItem self.now id) }
        ensures ready { IfOk result (λ o. AreReady self.now.lat self.now.via_cost (after_trial self.now.board o)
            state.new) }
    {
        self.board.keeps();
        let Some(item) = self.board.items().item(id) else {
            unreachable!();
        };
        if !is_of_other(item, self.island.net) {
            return Ok(None);
        }
        if !self.opens(alloc, state, id)? {
            return Ok(None);
        }
        if let Some(helped) = self.try_runs(alloc, state, item)? {
            return Ok(Some(helped));
        }
        self.try_out(alloc, state, item)
    }
}
