//! The copper on which candidates are tried: a design's fixed items, and ribs behind them.
//! In the tiles ribs are routed items, since tiles serve a design that has all their fixed ones. Only those are there
//! that a plane to come asks for: the others agree with each of its candidates.

ghost use Rattle.std.specs.Prelude.{◌≡◌, ◌<◌, ◌++◌, ◌∷◌, [], All, IfOk, OnOk, length};
ghost use Rattle.geo_kernel.specs.declared.spine.Spine.TheVariants.{Area};
ghost use Rattle.pcb_model.specs.declared.item.Item.{Item as OneItem};
ghost use Rattle.pcb_model.specs.Bounds.{IsBoundFit, IsItemFit, HasClearancesWithin};
ghost use Rattle.pcb_model.specs.Sound.{IsSound};
ghost use Rattle.pcb_tiles.specs.Tiling.{IsArea};
ghost use Rattle.pcb_tiles.specs.Spread.{holding};
ghost use Rattle.plane_joins.specs.inner.Laying.{Holds, IsBare, IsCandidateFit, IsLaid, IsTrial, items_of};
ghost use Rattle.plane_joins.specs.Planes.{IsPlaneOf};
ghost use Rattle.plane_joins.specs.Ribs.{rib_item};

use crate::area::PlaneArea;
use crate::candidate::Candidate;
use crate::trial::Trial;
use geo_kernel::{List, Rect4};
use pcb_model::{Design, Item, Metal, copy_item, greatest_clearance, make_item, width_of};
use pcb_tiles::Tiles;
use route_lattice::board_box;
use std::alloc::{AllocError, Global};

/// The tiles, and the ribs so far.
#[derive(Drop)]
pub(crate) struct Laid {
    pub(crate) tiles: Tiles,
    pub(crate) ribs: List<Item>,
}

// Puts an item into tiles.
fn add(tiles: &mut Tiles, item: Item) -> Result<(), AllocError>
    requires above { All (λ (b : OneItem). b.id < item.id) tiles.old.items }
    requires fits { IsItemFit item }
    ensures { OnOk result (tiles.new ≡ holding tiles.old (tiles.old.items ++ item ∷ [])) }
{
    match tiles.add(item) {
        Ok(()) => Ok(()),
        Err((item, cause)) => {
            drop(item);
            Err(cause)
        }
    }
}

// The area of the tiles.
fn area_of(d: &Design) -> Rect4
    requires { IsSound d.now }
    ensures { IsArea result }
{
    board_box(d)
}

// The tiles of the design's fixed items.
fn fixed_tiles(alloc: Global, d: &Design) -> Result<Tiles, AllocError>
    requires { IsSound d.now }
    ensures held { IfOk result (λ t. t.items ≡ d.now.fixed) }
    ensures reach { IfOk result (λ t. HasClearancesWithin t.reach d.now) }
{
    Tiles::of(alloc, area_of(d), greatest_clearance(d), d.fixed.as_slice())
}

/// The fixed items alone.
pub(crate) fn start(alloc: Global, d: &Design) -> Result<Laid, AllocError>
    requires { IsSound d.now }
    ensures { IfOk result (IsBare d.now) }
{
    Ok(Laid {
        tiles: fixed_tiles(alloc, d)?,
        ribs: List::new(alloc),
    })
}

// The wire of a candidate as a fixed item or as a routed one.
fn wire(
    alloc: Global,
    d: &Design,
    p: &PlaneArea,
    id: u64,
    fixed: bool,
    c: Candidate,
) -> Result<Item, AllocError>
    requires sound { IsSound d.now }
    requires plane { IsPlaneOf d.now p.now }
    requires fit { IsCandidateFit c }
    ensures { IfOk result (λ a. a ≡ record (rib_item d.now p.now id c) { fixed = fixed }) }
{
    let mut chain = List::new(alloc);
    chain.push(c.from)?;
    chain.push(c.to)?;
    let metal = Metal::Wire {
        layer: p.layer,
        width: width_of(d, p.net),
        chain,
    };
    make_item(alloc, d, id, Some(p.net), fixed, metal)
}

// Puts a rib into tiles, as a routed item, where a plane to come asks for it.
fn hold(
    alloc: Global,
    d: &Design,
    t: &Trial<'_>,
    tiles: &mut Tiles,
    id: u64,
    c: Candidate,
) -> Result<(), AllocError>
    requires sound { IsSound d.now }
    requires trial { IsTrial d.now t.now.p.now t.now.later.now t.now.rim t.now.is_met }
    requires fit { IsCandidateFit c }
    requires above { All (λ (b : OneItem). b.id < id) tiles.old.items }
    ensures { OnOk result (Holds d.now t.now.p.now t.now.is_met id c tiles.old tiles.new) }
{
    if !t.is_met {
        return Ok(());
    }
    add(tiles, wire(alloc, d, t.p, id, false, c)?)
}

/// One more rib.
pub(crate) fn keep(
    alloc: Global,
    d: &Design,
    t: &Trial<'_>,
    laid: &mut Laid,
    c: Candidate,
) -> Result<(), AllocError>
    requires sound { IsSound d.now }
    requires trial { IsTrial d.now t.now.p.now t.now.later.now t.now.rim t.now.is_met }
    requires fit { IsCandidateFit c }
    requires laid { IsLaid d.now (t.now.p.now ∷ t.now.later.now) laid.old }
    ensures laid { OnOk result (IsLaid d.now (t.now.p.now ∷ t.now.later.now) laid.new) }
    ensures more { OnOk result (items_of d.now laid.new
        ≡ items_of d.now laid.old ++ rib_item d.now t.now.p.now (length (items_of d.now laid.old)) c ∷ []) }
{
    let id = d.fixed.as_slice().len() as u64 + laid.ribs.as_slice().len() as u64;
    let rib = wire(alloc, d, t.p, id, true, c)?;
    hold(alloc, d, t, &mut laid.tiles, id, c)?;
    laid.ribs.push(rib)?;
    Ok(())
}
