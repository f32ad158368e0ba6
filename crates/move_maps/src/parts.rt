//! Items of chains, as routed wires and the edge of the board: link by link, since their box is large and what they
//! shut is little.

ghost use Rattle.std.specs.Prelude.{◌≡◌, ◌<◌, ◌≤◌, ◌++◌, ◌∷◌, [], true, false, map, length, All, IfOk, OnOk};
ghost use Rattle.geo_kernel.specs.Spine.{chain_segments};
ghost use Rattle.pcb_model.specs.Bounds.{IsFit, IsItemFit};
ghost use Rattle.move_maps.specs.Parts.{IsString, IsStrung, part as part_by, parts_by, parts as parts_in};

use geo_kernel::{List, Point, Spine};
use pcb_model::pieces::{meets_vias, meets_wires};
use pcb_model::{Item, Kind, Metal, Piece};
use std::alloc::{AllocError, Global};

// Whether the piece is a chain of two points or more.
fn is_string(piece: &Piece) -> bool
    ensures { result ≡ true → IsString piece.now }
{
    match &piece.spine {
        Spine::Chain(points) => 2 <= points.len(),
        Spine::Area(_) => false,
    }
}

fn are_strings(pieces: &[Piece]) -> bool
    ensures { result ≡ true → All IsString pieces.now }
{
    for piece in pieces {
        if !is_string(piece) {
            return false;
        }
    }
    true
}

/// Whether the item is no smd pad, and all its pieces are chains of two points or more.
pub(crate) fn is_strung(item: &Item) -> bool
    ensures { result ≡ true → IsStrung item.now }
{
    if item.kind == Kind::Smd {
        return false;
    }
    are_strings(item.pieces.as_slice())
}

/// Whether the item is a fixed ban of chains.
pub(crate) fn is_edge(item: &Item) -> bool
    ensures { result ≡ true → IsStrung item.now }
{
    item.fixed && item.net.is_none() && item.kind == Kind::Area && is_strung(item)
}

// One link of a piece for all pieces of the item: a ban of what the item is compared with.
fn part(
    alloc: Global,
    item: &Item,
    piece: &Piece,
    from: Point,
    to: Point,
) -> Result<Item, AllocError>
    ensures { IfOk result (λ a. a ≡ part_by item.now piece.now (record { from = from; to = to })) }
{
    let chain = List::from_slice(alloc, &[from, to])?;
    let mut pieces = List::new(alloc);
    pieces.push(Piece {
        layer: piece.layer,
        spine: Spine::Chain(chain),
        width: piece.width,
    })?;
    Ok(Item {
        id: item.id,
        net: item.net,
        fixed: item.fixed,
        kind: item.kind,
        metal: Metal::Ban {
            wires: meets_wires(&item.metal),
            vias: meets_vias(&item.metal),
        },
        pieces,
    })
}

// Appends a part for each link of the piece.
fn push_links(
    alloc: Global,
    parts: &mut List<Item>,
    item: &Item,
    piece: &Piece,
    points: &[Point],
) -> Result<(), AllocError>
    requires { 2 ≤ length points.now }
    ensures { OnOk result (parts.new ≡ parts.old ++ map (part_by item.now piece.now) (chain_segments points.now)) }
{
    let mut from = points[0];
    for to in &points[1..] {
        parts.push(part(alloc, item, piece, from, *to)?)?;
        from = *to;
    }
    Ok(())
}

// Appends a part for each link of the piece.
fn push_parts(
    alloc: Global,
    parts: &mut List<Item>,
    item: &Item,
    piece: &Piece,
) -> Result<(), AllocError>
    requires { IsString piece.now }
    ensures { OnOk result (parts.new ≡ parts.old ++ parts_by item.now piece.now) }
{
    match &piece.spine {
        Spine::Chain(points) => push_links(alloc, parts, item, piece, points.as_slice()),
        Spine::Area(_) => Ok(()),
    }
}

/// The item, link by link: each part is the item with one link for all its pieces.
pub(crate) fn parts_of(alloc: Global, item: &Item) -> Result<List<Item>, AllocError>
    requires { IsStrung item.now }
    ensures { IfOk result (λ ps. ps ≡ parts_in item.now) }
{
    let mut parts = List::new(alloc);
    for piece in item.pieces.as_slice() {
        push_parts(alloc, &mut parts, item, piece)?;
    }
    Ok(parts)
}
