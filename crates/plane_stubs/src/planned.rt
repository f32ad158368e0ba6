//! A design with its planes: ribs, and the stubs that lead to them, as further fixed items.

ghost use Rattle.std.specs.Prelude.{◌≡◌, ◌+◌, ◌≤◌, ◌^◌, ◌++◌, map, All, IfOk, OnOk, length};
ghost use Rattle.pcb_model.specs.Sound.{IsSound};
ghost use Rattle.pcb_tiles.specs.Tiling.{IsArea};
ghost use Rattle.route_lattice.specs.Fits.{FitsDesign};
ghost use Rattle.plane_joins.specs.Changed.{MayFollow, with_fixed};
ghost use Rattle.plane_joins.specs.Stubs.{loose};
ghost use Rattle.plane_joins.specs.Planes.{IsPlaneOf};
ghost use Rattle.plane_joins.specs.Planned.{AnswersPlaned, IsPlaned};
ghost use Rattle.plane_joins.specs.Ribs.{AreRibs};
ghost use Rattle.plane_stubs.specs.Holding.{AnswersRibbed};
ghost use Rattle.plane_stubs.specs.inner.Adding.{AnswersAdded, IsFirstHeld};

use crate::held::Held;
use crate::nets::nets_of;
use crate::site::Site;
use geo_kernel::{List, Rect4};
use pcb_model::{Design, Item, copy_item, greatest_clearance};
use pcb_tiles::Tiles;
use plane_joins::{PlaneArea, RibFault, further_items_serve, ribs, ribs_hold};
use route_lattice::{Lattice, board_box};
use std::alloc::{AllocError, Global};

// Copies of items.
fn copies(alloc: Global, items: &[Item]) -> Result<List<Item>, AllocError>
    ensures { IfOk result (λ list. list ≡ items.now) }
{
    let mut list = List::new(alloc);
    for item in items {
        list.push(copy_item(alloc, item)?)?;
    }
    Ok(list)
}

// A copy as a routed item.
fn loose_copy(alloc: Global, item: &Item) -> Result<Item, AllocError>
    ensures { IfOk result (λ a. a ≡ loose item.now) }
{
    let mut copy = copy_item(alloc, item)?;
    copy.fixed = false;
    Ok(copy)
}

// The fixed items, and behind them the ribs as routed ones.
fn first_items(alloc: Global, d: &Design, ribs: &[Item]) -> Result<List<Item>, AllocError>
    ensures { IfOk result (λ list. list ≡ d.now.fixed ++ map loose ribs.now) }
{
    let mut list = copies(alloc, d.fixed.as_slice())?;
    for rib in ribs {
        list.push(loose_copy(alloc, rib)?)?;
    }
    Ok(list)
}

// The area of the tiles.
fn area_of(d: &Design) -> Rect4
    requires { IsSound d.now }
    ensures { IsArea result }
{
    board_box(d)
}

// The copper in which stubs are sought at first.
fn first_held(alloc: Global, d: &Design, ribs: List<Item>) -> Result<Held, AllocError>
    requires sound { IsSound d.now }
    requires follow { MayFollow d.now ribs }
    ensures { IfOk result (IsFirstHeld d.now ribs) }
{
    let items = first_items(alloc, d, ribs.as_slice())?;
    let tiles = Tiles::of(alloc, area_of(d), greatest_clearance(d), items.as_slice())?;
    drop(items);
    Ok(Held { tiles, added: ribs })
}

// The ribs and the stubs that lead to them.
fn with_stubs(
    site: &Site<'_>,
    alloc: Global,
    ribs: List<Item>,
    planes: &[PlaneArea],
) -> Result<List<Item>, AllocError>
    requires follow { MayFollow site.now.d ribs }
    requires ribs { AreRibs site.now.d planes.now ribs }
    requires first { site.now.first ≡ length site.now.d.fixed }
    requires last { site.now.last ≡ length site.now.d.fixed + length ribs }
    ensures planned { IfOk result (λ more.
        IsPlaned site.now.d site.now.lat planes.now site.now.via_cost (with_fixed site.now.d more)) }
    ensures follow { IfOk result (MayFollow site.now.d) }
{
    let nets = nets_of(alloc, site.d, planes)?;
    let mut held = first_held(alloc, site.d, ribs)?;
    match site.try_nets(alloc, &mut held, nets.as_slice()) {
        Ok(()) => {
            let Held { tiles, added } = held;
            drop(tiles);
            Ok(added)
        }
        Err(error) => {
            drop(held);
            Err(error)
        }
    }
}

// What is added to the design for planes.
fn added_items(
    alloc: Global,
    d: &Design,
    lat: &Lattice,
    planes: &List<PlaneArea>,
    via_cost: u64,
) -> Result<List<Item>, RibFault>
    requires sound { IsSound d.now }
    requires fits { FitsDesign d.now lat.now }
    requires planes { All (IsPlaneOf d.now) planes.now }
    requires small_cost { via_cost ≤ 2 ^ 30 }
    ensures { AnswersAdded d.now lat.now planes.now via_cost result }
{
    ribs_hold();
    let found = ribs(alloc, d, planes)?;
    let first = d.fixed.as_slice().len() as u64;
    let site = Site {
        d,
        lat,
        via_cost,
        first,
        last: first + found.as_slice().len() as u64,
    };
    Ok(with_stubs(&site, alloc, found, planes.as_slice())?)
}

// The fixed items with further ones behind them.
fn fixed_with(alloc: Global, d: &Design, more: List<Item>) -> Result<List<Item>, AllocError>
    ensures { IfOk result (λ list. list ≡ d.now.fixed ++ more) }
{
    let mut list = copies(alloc, d.fixed.as_slice())?.into_vec();
    let mut more = more.into_vec();
    list.append(&mut more)?;
    Ok(List::from_vec(list))
}

// The design with other fixed items.
fn with_all(d: Design, fixed: List<Item>) -> Design
    ensures { result ≡ record d { fixed = fixed } }
{
    let mut d = d;
    d.fixed = fixed;
    d
}

// The design with further fixed items.
fn with_more(alloc: Global, d: Design, more: List<Item>) -> Result<Design, AllocError>
    ensures { IfOk result (λ e. e ≡ with_fixed d more) }
{
    match fixed_with(alloc, &d, more) {
        Ok(fixed) => Ok(with_all(d, fixed)),
        Err(error) => {
            drop(d);
            Err(error)
        }
    }
}

/// The design with its planes as further fixed items, which have the next ids: first their ribs, then the copper of
/// stubs, net by net and island by island. A stub is a least way by legal moves from a legal anchor of an island that
/// holds no rib to a via that touches one.
///
/// # Errors
/// `TooMany`, exactly where the design's items and the candidates of the ribs together are more than a design may have;
/// `Memory` where memory is wanting.
pub fn with_planes(
    alloc: Global,
    d: Design,
    lat: &Lattice,
    planes: &List<PlaneArea>,
    via_cost: u64,
) -> Result<Design, RibFault>
    requires sound { IsSound d }
    requires fits { FitsDesign d lat.now }
    requires planes { All (IsPlaneOf d) planes.now }
    requires small_cost { via_cost ≤ 2 ^ 30 }
    ensures planed { AnswersPlaned d lat.now planes.now via_cost result }
    ensures sound { IfOk result IsSound }
{
    further_items_serve();
    match added_items(alloc, &d, lat, planes, via_cost) {
        Ok(more) => Ok(with_more(alloc, d, more)?),
        Err(fault) => {
            drop(d);
            Err(fault)
        }
    }
}

/// The design with the ribs of its planes alone as further fixed items, which have the next ids.
///
/// # Errors
/// `TooMany`, exactly where the design's items and the candidates of the ribs together are more than a design may have;
/// `Memory` where memory is wanting.
pub fn with_ribs(alloc: Global, d: Design, planes: &List<PlaneArea>) -> Result<Design, RibFault>
    requires sound { IsSound d }
    requires planes { All (IsPlaneOf d) planes.now }
    ensures ribbed { AnswersRibbed d planes.now result }
    ensures sound { IfOk result IsSound }
{
    further_items_serve();
    ribs_hold();
    match ribs(alloc, &d, planes) {
        Ok(more) => Ok(with_more(alloc, d, more)?),
        Err(fault) => {
            drop(d);
            Err(fault)
        }
    }
}
