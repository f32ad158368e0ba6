//! The copper of a board without one of its items, perhaps with that wire where it is moved to, and maps of the moves
//! on it. The maps follow there, and back to the board as it is; nothing of the board's size is copied.

ghost use Rattle.std.specs.Prelude.{◌≡◌, ◌<◌, [], ◌∷◌, IfOk, Option, length};
ghost use Rattle.std.specs.Bool.{OnFalse};
ghost use Rattle.pcb_model.specs.Bounds.{IsItemFit};
ghost use Rattle.route_lattice.specs.Mesh.{node_count};
ghost use Rattle.cut_certificate.specs.Past.{IsCutPast};
ghost use Rattle.route_plan.specs.Routes.{FindsPast, IsLed, walks_of};
ghost use Rattle.route_lattice.specs.Legal.{legal_graph};
ghost use Rattle.route_plan.specs.Mapped.{IsMapped};
ghost use Rattle.route_plan.specs.Planners.{AreMovesOf};
ghost use Rattle.pcb_board.specs.Answers.{snap_of};
ghost use Rattle.closing_pass.specs.Closing.{CanClose};
ghost use Rattle.closing_pass.specs.inner.Rooms.{CanPut, HasPut, IsHome, IsRoomFor, IsRoomOf, MakesRoom, search_in};

use copper_change::Since;
use cut_certificate::Cut;
use geo_kernel::List;
use move_maps::MoveMaps;
use pcb_board::{Board, Snap, boards_serve};
use pcb_islands::Island;
use pcb_model::{Copper, Design, Item, copy_item};
use pcb_tiles::Tiles;
use route_lattice::{Lattice, LegalMoves, Moves};
use route_plan::{MappedSnap, NetSearch, Route};
use std::alloc::{AllocError, Global};
use std::marker::Model;
use wave_search::Search;

/// Copper beside that of a board, what differs between them, and maps of the moves on it.
#[derive(Drop)]
pub(crate) struct Room<'a> {
    lat: &'a Lattice,
    d: &'a Design,
    snap: Snap,
    tiles: Tiles,
    maps: MoveMaps,
    change: Since,
    via_cost: u64,
}

impl<'a> Model for Room<'a> {
    ghost use Rattle.closing_pass.specs.inner.Rooms.{RoomOf, IsRoom};

    ghost Value = { RoomOf };

    ghost view = { λ s. record {
      d = s.d.now;
      lat = s.lat.now;
      snap = s.snap;
      items = s.tiles.items;
      via_cost = s.via_cost;
    } };

    ghost invariant = { λ s. IsRoom s.d.now s.lat.now s.via_cost s.snap s.tiles s.maps s.change.gone s.change.come };
}

// A list of one item.
fn single(alloc: Global, item: Item) -> Result<List<Item>, AllocError>
    ensures { IfOk result (λ items. items ≡ item ∷ []) }
{
    let mut items = List::new(alloc);
    items.push(item)?;
    Ok(items)
}

// Puts an item into copper, where there is one, and lists it.
fn put(alloc: Global, tiles: &mut Tiles, item: Option<Item>) -> Result<List<Item>, AllocError>
    requires { CanPut tiles.old.items item }
    ensures { IfOk result (HasPut tiles.old tiles.new item) }
{
    match item {
        None => Ok(List::new(alloc)),
        Some(item) => {
            let come = single(alloc, copy_item(alloc, &item)?)?;
            match tiles.put_back(item) {
                Ok(()) => Ok(come),
                Err((item, cause)) => {
                    drop((item, come));
                    Err(cause)
                }
            }
        }
    }
}

// The tiles of a board without the item of an id, and with another in its place where one is given; and what changed.
fn changed_tiles(
    alloc: Global,
    board: &Board,
    id: u64,
    moved: Option<Item>,
) -> Result<(Tiles, Since), AllocError>
    requires { MakesRoom board.now id moved }
    ensures { IfOk result (λ r. IsRoomOf board.now id moved r.0 r.1.gone r.1.come) }
{
    let mut tiles = board.items().share()?;
    tiles.in_order();
    let item = match tiles.remove(id)? {
        Some(item) => item,
        None => unreachable!(),
    };
    let gone = single(alloc, item)?;
    let come = put(alloc, &mut tiles, moved)?;
    Ok((tiles, Since { gone, come }))
}

impl<'a> Room<'a> {
    /// The copper of a board without the item of an id, and with another in its place where one is given.
    pub(crate) fn of(
        alloc: Global,
        lat: &'a Lattice,
        via_cost: u64,
        board: &'a Board,
        mapped: MappedSnap,
        id: u64,
        moved: Option<Item>,
    ) -> Result<Room<'a>, AllocError>
        requires makes { MakesRoom board.now id moved }
        requires can { CanClose lat.now via_cost board.now.design }
        requires mapped { IsMapped lat.now (snap_of board.now) mapped }
        ensures { IfOk result (IsRoomFor lat.now via_cost board.now id moved) }
    {
        board.keeps();
        boards_serve();
        let MappedSnap { snap, mut maps } = mapped;
        let (tiles, change) = match changed_tiles(alloc, board, id, moved) {
            Ok(changed) => changed,
            Err(error) => {
                drop((snap, maps));
                return Err(error);
            }
        };
        match maps.follow(lat, board.design(), &tiles, &change.gone, &change.come) {
            Ok(()) => Ok(Room {
                lat,
                d: board.design(),
                snap,
                tiles,
                maps,
                change,
                via_cost,
            }),
            Err(error) => {
                drop((snap, maps, tiles, change));
                Err(error)
            }
        }
    }

    /// The board's snapshot again, with its maps.
    pub(crate) fn home(self) -> Result<MappedSnap, AllocError>
        ensures { IfOk result (IsHome self.entry) }
    {
        let Room {
            lat,
            d,
            snap,
            tiles,
            mut maps,
            change,
            via_cost: _,
        } = self;
        let followed = maps.follow(lat, d, &snap, &change.come, &change.gone);
        drop((tiles, change));
        match followed {
            Ok(()) => Ok(MappedSnap { snap, maps }),
            Err(error) => {
                drop((snap, maps));
                Err(error)
            }
        }
    }

    // The search from an island to others over moves that are given.
    fn search<'b, M: Moves>(
        &'b self,
        moves: &'b M,
        island: &'b Island,
        others: &'b List<Island>,
    ) -> NetSearch<'b, Tiles, M>
        requires net { island.now.net < length self.now.d.nets }
        requires moves { AreMovesOf M.Moves moves.now
            (legal_graph self.now.d self.now.lat self.now.items island.now.net self.now.via_cost) }
        ensures { result ≡ search_in self.now island.now others.now }
    {
        NetSearch {
            lat: self.lat,
            d: self.d,
            copper: &self.tiles,
            moves,
            island,
            others,
            via_cost: self.via_cost,
            penalty: None,
        }
    }

    /// Whether a legal walk may lead from an island to one of the others past the item of an id, which shut moves of
    /// the island's cut.
    pub(crate) fn may_lead(
        &self,
        alloc: Global,
        island: &Island,
        others: &List<Island>,
        cut: &Cut,
        id: u64,
    ) -> Result<bool, AllocError>
        requires net { island.now.net < length self.now.d.nets }
        requires cut { IsCutPast (walks_of (search_in self.now island.now others.now)) cut.now id }
        ensures { IfOk result (λ led. OnFalse led (¬ (IsLed (search_in self.now island.now others.now)))) }
    {
        let (lat, d, net) = (self.lat, self.d, island.net);
        match self
            .maps
            .net_moves(alloc, lat, d, &self.tiles, net, self.via_cost)
        {
            Ok(Some(moves)) => {
                let led = self
                    .search(&moves, island, others)
                    .may_lead_past(alloc, cut, id);
                drop(moves);
                led
            }
            Ok(None) => {
                let moves = LegalMoves::of(lat, d, &self.tiles, net, self.via_cost);
                self.search(&moves, island, others)
                    .may_lead_past(alloc, cut, id)
            }
            Err(error) => Err(error),
        }
    }

    /// The route of the stated walk from an island to one of the others past the item of an id, which shut moves of the
    /// island's cut; None where no walk leads on.
    pub(crate) fn route(
        &self,
        alloc: Global,
        search: &mut Search,
        island: &Island,
        others: &List<Island>,
        cut: &Cut,
        id: u64,
    ) -> Result<Option<Route>, AllocError>
        requires net { island.now.net < length self.now.d.nets }
        requires size { search.old ≡ node_count self.now.lat }
        requires cut { IsCutPast (walks_of (search_in self.now island.now others.now)) cut.now id }
        ensures finds { IfOk result (FindsPast (search_in self.now island.now others.now)) }
        ensures size { search.new ≡ search.old }
    {
        let (lat, d, net) = (self.lat, self.d, island.net);
        match self
            .maps
            .net_moves(alloc, lat, d, &self.tiles, net, self.via_cost)
        {
            Ok(Some(moves)) => {
                let route = self
                    .search(&moves, island, others)
                    .stated_route_past(alloc, search, cut, id);
                drop(moves);
                route
            }
            Ok(None) => {
                let moves = LegalMoves::of(lat, d, &self.tiles, net, self.via_cost);
                self.search(&moves, island, others)
                    .stated_route_past(alloc, search, cut, id)
            }
            Err(error) => Err(error),
        }
    }
}
