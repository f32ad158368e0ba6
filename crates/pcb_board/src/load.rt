//! The items that a board begins with: the design's fixed items, and its free ones as far as they break no rule.
//! Each free item is looked at in order, beside what is loaded by then; the place of each one that is dropped is told.

ghost use Rattle.std.specs.Prelude.{◌≡◌, ◌↔◌, ◌<◌, ◌≤◌, ◌^◌, [], ◌∷◌, ◌++◌, All, IfOk, OnOk, IfSome, IsTrue, slice_get};
ghost use Rattle.geo_kernel.specs.declared.spine.Spine.TheVariants.{Area};
ghost use Rattle.geo_kernel.specs.Boxes.{IsBoxOf};
ghost use Rattle.pcb_model.specs.declared.item.Item.{Item as OneItem};
ghost use Rattle.pcb_model.specs.Bounds.{IsBoundFit, IsItemFit};
ghost use Rattle.pcb_model.specs.Pairs.{Agrees};
ghost use Rattle.pcb_model.specs.Board.{IsLegal, IsMade, IsRouted};
ghost use Rattle.pcb_model.specs.Sound.{IsSound, IsFreeSound};
ghost use Rattle.pcb_tiles.specs.Tiling.{IsArea};
ghost use Rattle.pcb_tiles.specs.Spread.{holding, ServesSpread};
ghost use Rattle.pcb_board.specs.Snaps.{AreTilesOf};
ghost use Rattle.pcb_board.specs.inner.Loading.{IsKept, LoadsOne, AreLoaded};

use crate::copy::copy_items;
use crate::renew::add_copy;
use geo_kernel::{List, Point, Rect4, Spine, box_of};
use pcb_model::{
    Copper, Design, FreeWire, Item, Steps, copy_loops, copy_metal, greatest_clearance,
    inside_board, make_item, pairs_are_symmetric, width_ok,
};
use pcb_tiles::Tiles;
use std::alloc::{AllocError, Global};
use std::marker::Brand;
use std::sync::ledger::{Blank, Ledger};

/// What is loaded: in tiles, in order of id, and the places of what was dropped.
#[derive(Drop)]
pub(crate) struct Loaded {
    pub(crate) tiles: Tiles,
    pub(crate) given: Vec<Item>,
    pub(crate) dropped: List<u64>,
}

// The least box that holds the first boundary.
fn area_of(alloc: Global, bounds: &[List<List<Point>>]) -> Result<Rect4, AllocError>
    requires { All IsBoundFit bounds.now }
    ensures area { IfOk result IsArea }
    ensures least { IfOk result (λ r. IfSome (slice_get bounds.now 0) (λ loops. IsBoxOf (Area loops) r)) }
{
    match bounds.get(0) {
        Some(loops) => {
            let spine = Spine::Area(copy_loops(alloc, loops.as_slice())?);
            let area = box_of(&spine);
            drop(spine);
            Ok(area)
        }
        None => Ok(Rect4 {
            x0: 0,
            y0: 0,
            x1: 0,
            y1: 0,
        }),
    }
}

/// Tiles for a design's items, without any.
pub(crate) fn empty_tiles(alloc: Global, d: &Design) -> Result<Tiles, AllocError>
    requires { IsSound d.now }
    ensures empty { IfOk result (λ t. t.items ≡ []) }
    ensures spread { IfOk result (λ t. AreTilesOf d.now t.area t.reach) }
{
    let area = area_of(alloc, d.bounds.as_slice())?;
    Tiles::new(alloc, area, greatest_clearance(d))
}

// Puts one more item to what is loaded.
fn keep(alloc: Global, loaded: &mut Loaded, item: Item) -> Result<(), AllocError>
    requires above { All (λ (a : OneItem). a.id < item.id) loaded.old.tiles.items }
    requires fits { IsItemFit item }
    ensures tiles { OnOk result (loaded.new.tiles
        ≡ holding loaded.old.tiles (loaded.old.tiles.items ++ item ∷ [])) }
    ensures given { OnOk result (loaded.new.given.items ≡ loaded.old.given.items ++ item ∷ []) }
    ensures dropped { OnOk result (loaded.new.dropped ≡ loaded.old.dropped) }
{
    match add_copy(alloc, &mut loaded.tiles, &item) {
        Ok(()) => {
            loaded.given.push(item)?;
            Ok(())
        }
        Err(error) => {
            drop(item);
            Err(error)
        }
    }
}

fn is_agreed_by<L: Ledger>(d: &Design, tiles: &Tiles, item: &Item, blank: Blank) -> bool
    requires name { blank.name ≡ L.name }
    requires parts { blank.parts ≡ L.parts }
    requires whole { 0 < blank.parts }
    requires serves { ServesSpread tiles.now d.now }
    requires fits { IsItemFit item.now }
    requires above { All (λ (a : OneItem). a.id < item.now.id) tiles.now.items }
    ensures { IsTrue result ↔ All (Agrees d.now item.now) tiles.now.items }
{
    let mut steps: Steps<L> = Steps::new(blank);
    match tiles.next_clash(d, item, 0, &mut steps) {
        Some(_) => false,
        None => true,
    }
}

// Whether what is loaded stays legal with one more item, which has a greater id.
fn fits(d: &Design, tiles: &Tiles, item: &Item) -> bool
    requires serves { ServesSpread tiles.now d.now }
    requires fits { IsItemFit item.now }
    requires above { All (λ (a : OneItem). a.id < item.now.id) tiles.now.items }
    requires routed { IsRouted item.now }
    requires made { IsMade d.now item.now }
    requires legal { IsLegal d.now tiles.now.items }
    ensures { IsTrue result ↔ IsLegal d.now (tiles.now.items ++ item.now ∷ []) }
{
    pairs_are_symmetric();
    if !inside_board(d, item) {
        return false;
    }
    if !width_ok(d, item) {
        return false;
    }
    is_agreed_by::<Brand>(d, tiles, item, Blank::new(1))
}

// Puts one free item to what is loaded where that stays legal, and else its place to the dropped.
fn load_one(alloc: Global, d: &Design, loaded: &mut Loaded, w: &FreeWire) -> Result<(), AllocError>
    requires sound { IsSound d.now }
    requires wire { IsFreeSound d.now w.now }
    requires kept { IsKept d.now loaded.old }
    ensures kept { OnOk result (IsKept d.now loaded.new) }
    ensures one { OnOk result (LoadsOne d.now loaded.old w.now loaded.new) }
{
    let id = loaded.given.len() as u64;
    let metal = copy_metal(alloc, &w.metal)?;
    let item = make_item(alloc, d, id, Some(w.net), false, metal)?;
    if fits(d, &loaded.tiles, &item) {
        keep(alloc, loaded, item)
    } else {
        drop(item);
        drop_place(loaded, w.at)
    }
}

// Puts one more place to the dropped.
fn drop_place(loaded: &mut Loaded, at: u64) -> Result<(), AllocError>
    ensures tiles { OnOk result (loaded.new.tiles ≡ loaded.old.tiles) }
    ensures given { OnOk result (loaded.new.given.items ≡ loaded.old.given.items) }
    ensures dropped { OnOk result (loaded.new.dropped ≡ loaded.old.dropped ++ at ∷ []) }
{
    loaded.dropped.push(at)?;
    Ok(())
}

// Behind the fixed items, the free ones in order.
fn load_free(alloc: Global, d: &Design, loaded: &mut Loaded) -> Result<(), AllocError>
    requires sound { IsSound d.now }
    requires fixed { AreLoaded d.now d.now.free loaded.old }
    ensures { OnOk result (AreLoaded d.now [] loaded.new) }
{
    for w in d.free.as_slice() {
        load_one(alloc, d, loaded, w)?;
    }
    Ok(())
}

// The tiles of the design's fixed items.
fn fixed_tiles(alloc: Global, d: &Design) -> Result<Tiles, AllocError>
    requires { IsSound d.now }
    ensures items { IfOk result (λ t. t.items ≡ d.now.fixed) }
    ensures spread { IfOk result (λ t. AreTilesOf d.now t.area t.reach) }
{
    let bounds = d.bounds.as_slice();
    let area = area_of(alloc, bounds)?;
    Tiles::of(alloc, area, greatest_clearance(d), d.fixed.as_slice())
}

// The design's fixed items.
fn load_fixed(alloc: Global, d: &Design) -> Result<Loaded, AllocError>
    requires { IsSound d.now }
    ensures { IfOk result (AreLoaded d.now d.now.free) }
{
    let tiles = fixed_tiles(alloc, d)?;
    let given = copy_items(alloc, d.fixed.as_slice())?;
    Ok(Loaded {
        tiles,
        given,
        dropped: List::new(alloc),
    })
}

/// The design's items: the fixed ones, and behind them the free ones in order.
pub(crate) fn load(alloc: Global, d: &Design) -> Result<Loaded, AllocError>
    requires { IsSound d.now }
    ensures { IfOk result (AreLoaded d.now []) }
{
    let mut loaded = load_fixed(alloc, d)?;
    match load_free(alloc, d, &mut loaded) {
        Ok(()) => Ok(loaded),
        Err(error) => {
            drop(loaded);
            Err(error)
        }
    }
}
