//! Keepouts and pins as fixed items: those of the structure, and component by component those of the images.
//! Source: SPECCTRA reference, keepout, image and padstack descriptors.

ghost use Rattle.std.specs.Prelude.{◌≡◌, ◌≤◌, ◌^◌, ◌++◌, map, All, IfOk, OnOk, if◌then◌else◌};
ghost use Rattle.geo_kernel.specs.Spine.{IsSpineWithin};
ghost use Rattle.dsn_shapes.specs.declared.parts.BanShape.{BanShape as TheBan};
ghost use Rattle.dsn_shapes.specs.Within.{IsPinWithin};
ghost use Rattle.dsn_design.specs.Fit.{ArePartsFit, IsPlaceWithin};
ghost use Rattle.dsn_design.specs.Counts.{items_from, pads_at};
ghost use Rattle.dsn_design.specs.Items.{ban_item, edge_item, numbered, numbered_from, pad_kind};
ghost use Rattle.dsn_design.specs.Items.{pad_pieces, placed_ban};
ghost use Rattle.dsn_design.specs.Pins.{layer_count};

use crate::copper::{add_pieces, shape_pieces};
use crate::edges::{edge_item, fixed_item};
use crate::parts::{Parts, layer_count};
use crate::pins::{Board, image_bans, image_pins, is_smd, net_of_pin, stand_of};
use dsn_placement::{ban_copper, pin_copper};
use dsn_shapes::{BanShape, ImagePin, LayerShape, PinRef, Place, place_index};
use geo_kernel::List;
use pcb_model::{Item, Kind, Metal, Piece};
use std::alloc::{AllocError, Global};

/// Appends the edges of boundaries on a board of `n` layers.
pub(crate) fn push_edges(
    alloc: Global,
    items: &mut List<Item>,
    n: u8,
    bounds: &[LayerShape],
) -> Result<(), AllocError>
    ensures { OnOk result (items.new ≡ items.old ++ map (edge_item n) bounds.now) }
{
    for bound in bounds {
        items.push(edge_item(alloc, n, bound)?)?;
    }
    Ok(())
}

/// Appends the keepouts of the structure on a board of `n` layers.
#[tactic(auto, unfolding(crate::specs::Items::ban_item))]
pub(crate) fn push_bans(
    alloc: Global,
    items: &mut List<Item>,
    n: u8,
    bans: &[BanShape],
) -> Result<(), AllocError>
    requires { n ≤ 32 }
    ensures { OnOk result (items.new ≡ items.old ++ map (ban_item n) bans.now) }
{
    for ban in bans {
        let mut pieces = List::new(alloc);
        add_pieces(alloc, &mut pieces, n, &ban.shape)?;
        let metal = Metal::Ban {
            wires: ban.wires,
            vias: ban.vias,
        };
        items.push(fixed_item(None, Kind::Area, metal, pieces))?;
    }
    Ok(())
}

// A keepout of an image where its component stands.
#[tactic(auto, unfolding(crate::specs::Items::placed_ban))]
fn placed_ban(
    alloc: Global,
    parts: &Parts,
    place: &Place,
    ban: &BanShape,
) -> Result<Item, AllocError>
    requires parts_fit { ArePartsFit parts.now }
    requires place_within { IsPlaceWithin place.now }
    requires ban_within { IsSpineWithin (2 ^ 29) ban.now.shape.spine }
    ensures { IfOk result (λ a. a ≡ placed_ban parts.now place.now ban.now) }
{
    let n = layer_count(parts);
    let stand = stand_of(parts.structure.flip_last, place);
    let mut pieces = List::new(alloc);
    if let Some(shape) = ban_copper(alloc, n as u32, stand, ban)? {
        let added = add_pieces(alloc, &mut pieces, n, &shape);
        drop(shape);
        added?;
    }
    let metal = Metal::Ban {
        wires: ban.wires,
        vias: ban.vias,
    };
    Ok(fixed_item(None, Kind::Area, metal, pieces))
}

fn push_placed_bans(
    alloc: Global,
    items: &mut List<Item>,
    parts: &Parts,
    place: &Place,
    bans: &[BanShape],
) -> Result<(), AllocError>
    requires parts_fit { ArePartsFit parts.now }
    requires place_within { IsPlaceWithin place.now }
    requires bans_within { All (λ (ban : TheBan). IsSpineWithin (2 ^ 29) ban.shape.spine) bans.now }
    ensures { OnOk result (items.new ≡ items.old ++ map (placed_ban parts.now place.now) bans.now) }
{
    for ban in bans {
        items.push(placed_ban(alloc, parts, place, ban)?)?;
    }
    Ok(())
}

#[tactic(auto, unfolding(crate::specs::Items::pad_pieces))]
fn pad_pieces(
    alloc: Global,
    parts: &Parts,
    place: &Place,
    pin: &ImagePin,
) -> Result<List<Piece>, AllocError>
    requires parts_fit { ArePartsFit parts.now }
    requires place_within { IsPlaceWithin place.now }
    requires pin_within { IsPinWithin pin.now }
    ensures { IfOk result (λ ps. ps ≡ pad_pieces parts.now place.now pin.now) }
{
    let n = layer_count(parts);
    let stand = stand_of(parts.structure.flip_last, place);
    match pin_copper(alloc, n as u32, stand, &parts.library.stacks, pin)? {
        Some(shapes) => shape_pieces(alloc, n, shapes.as_slice()),
        None => Ok(List::new(alloc)),
    }
}

fn pad_kind(smd: bool) -> Kind
    ensures { result ≡ pad_kind smd }
{
    if smd { Kind::Smd } else { Kind::Pin }
}

// The pads of the pins of a component, of which the first is pin `first` of the design.
#[tactic(auto, unfolding(crate::specs::Items::pad_item))]
fn push_pads(
    alloc: Global,
    items: &mut List<Item>,
    board: &Board,
    place: &Place,
    number: u32,
    first: u32,
    pins: &[ImagePin],
) -> Result<(), AllocError>
    requires parts_fit { ArePartsFit board.now.parts.now }
    requires place_within { IsPlaceWithin place.now }
    requires pins_within { All IsPinWithin pins.now }
    ensures { OnOk result
        (items.new ≡ items.old ++ pads_at board.now.parts.now board.now.stacks.now number place.now 0 first
        pins.now) }
{
    let mut next: u32 = 0;
    let mut count = first;
    for pin in pins {
        let number = PinRef {
            place: number,
            pin: next,
        };
        let pieces = pad_pieces(alloc, board.parts, place, pin)?;
        let net = net_of_pin(&board.owners, number);
        let kind = pad_kind(is_smd(board.stacks, pin));
        let metal = Metal::Pad { pin: count };
        items.push(fixed_item(net, kind, metal, pieces))?;
        next = next.saturating_add(1);
        count = count.saturating_add(1);
    }
    Ok(())
}

/// Appends the keepouts and pins of the placed components.
#[tactic(auto, unfolding(crate::specs::Counts::place_items))]
pub(crate) fn push_places(
    alloc: Global,
    items: &mut List<Item>,
    board: &Board,
    places: &[Place],
) -> Result<(), AllocError>
    requires parts_fit { ArePartsFit board.now.parts.now }
    requires places_within { All IsPlaceWithin places.now }
    ensures { OnOk result
        (items.new ≡ items.old ++ items_from board.now.parts.now board.now.stacks.now 0 0 places.now) }
{
    let lib = &board.parts.library;
    let mut number: u32 = 0;
    let mut first: u32 = 0;
    for place in places {
        if place.at.is_some() {
            push_placed_bans(alloc, items, board.parts, place, image_bans(lib, place))?;
            let pins = image_pins(lib, place);
            push_pads(alloc, items, board, place, number, first, pins)?;
            first = first.saturating_add(place_index(pins.len()));
        }
        number = number.saturating_add(1);
    }
    Ok(())
}

/// The items with ids that count up from 0.
#[tactic(auto, unfolding(crate::specs::Items::numbered))]
pub(crate) fn numbered(alloc: Global, items: List<Item>) -> Result<List<Item>, AllocError>
    ensures { IfOk result (λ rs. rs ≡ numbered items) }
{
    let mut all = List::new(alloc);
    for mut item in items.into_vec() {
        item.id = all.len() as u64;
        all.push(item)?;
    }
    Ok(all)
}
