//! Items that are made of wires and vias, and copies of items.
//! Source: SPECCTRA reference, wire, via and padstack descriptors.

ghost use Rattle.std.specs.Prelude.{◌≡◌, ◌^◌, All, IfOk, map};
ghost use Rattle.geo_kernel.specs.Plane.{IsWithin};
ghost use Rattle.geo_kernel.specs.Spine.{IsSpineWithin};
ghost use Rattle.geo_kernel.specs.Moved.{moved, moved_spine};
ghost use Rattle.pcb_model.specs.declared.design.Padstack.{Padstack as Stack};
ghost use Rattle.pcb_model.specs.Bounds.{IsFit, IsMetalFit};
ghost use Rattle.pcb_model.specs.Pieces.{moved_piece, pieces_of as the_pieces, kind_of as the_kind, item_of};

use crate::{Design, Item, Kind, Metal, Piece};
use geo_kernel::{List, Point, Spine};
use std::alloc::{AllocError, Global};

/// The point moved by a vector.
pub fn move_point(p: Point, by: Point) -> Point
    requires p_within { IsWithin (2 ^ 29) p }
    requires by_within { IsWithin (2 ^ 29) by }
    ensures { result ≡ moved by p }
{
    Point {
        x: p.x + by.x,
        y: p.y + by.y,
    }
}

fn move_points(alloc: Global, points: &[Point], by: Point) -> Result<List<Point>, AllocError>
    requires points_within { All (IsWithin (2 ^ 29)) points.now }
    requires by_within { IsWithin (2 ^ 29) by }
    ensures { IfOk result (λ ps. ps ≡ map (moved by) points.now) }
{
    let mut moved = List::new(alloc);
    for p in points {
        moved.push(move_point(*p, by))?;
    }
    Ok(moved)
}

fn move_loops(
    alloc: Global,
    loops: &[List<Point>],
    by: Point,
) -> Result<List<List<Point>>, AllocError>
    requires loops_within { All (All (IsWithin (2 ^ 29))) loops.now }
    requires by_within { IsWithin (2 ^ 29) by }
    ensures { IfOk result (λ ls. ls ≡ map (map (moved by)) loops.now) }
{
    let mut moved = List::new(alloc);
    for points in loops {
        moved.push(move_points(alloc, points.as_slice(), by)?)?;
    }
    Ok(moved)
}

fn move_spine(alloc: Global, s: &Spine, by: Point) -> Result<Spine, AllocError>
    requires within { IsSpineWithin (2 ^ 29) s.now }
    requires by_within { IsWithin (2 ^ 29) by }
    ensures { IfOk result (λ t. t ≡ moved_spine by s.now) }
{
    match s {
        Spine::Chain(points) => Ok(Spine::Chain(move_points(alloc, points.as_slice(), by)?)),
        Spine::Area(loops) => Ok(Spine::Area(move_loops(alloc, loops.as_slice(), by)?)),
    }
}

fn move_pieces(alloc: Global, ps: &[Piece], by: Point) -> Result<List<Piece>, AllocError>
    requires ps_fit { All IsFit ps.now }
    requires by_within { IsWithin (2 ^ 29) by }
    ensures { IfOk result (λ rs. rs ≡ map (moved_piece by) ps.now) }
{
    let mut moved = List::new(alloc);
    for p in ps {
        moved.push(Piece {
            layer: p.layer,
            spine: move_spine(alloc, &p.spine, by)?,
            width: p.width,
        })?;
    }
    Ok(moved)
}

fn pieces_of(alloc: Global, d: &Design, m: &Metal) -> Result<List<Piece>, AllocError>
    requires place { IsMetalFit m.now }
    requires padstacks { All (λ (s : Stack). All IsFit s.pieces) d.now.padstacks }
    ensures { IfOk result (λ ps. ps ≡ the_pieces d.now m.now) }
{
    match m {
        Metal::Wire {
            layer,
            width,
            chain,
        } => {
            let points = List::from_slice(alloc, chain.as_slice())?;
            let mut ps = List::new(alloc);
            ps.push(Piece {
                layer: *layer,
                spine: Spine::Chain(points),
                width: *width,
            })?;
            Ok(ps)
        }
        Metal::Via { padstack, at } => match d.padstacks.as_slice().get(*padstack as usize) {
            Some(stack) => move_pieces(alloc, stack.pieces.as_slice(), *at),
            None => Ok(List::new(alloc)),
        },
        _ => Ok(List::new(alloc)),
    }
}

fn kind_of(m: &Metal) -> Kind
    ensures { result ≡ the_kind m.now }
{
    match m {
        Metal::Wire { .. } => Kind::Wire,
        Metal::Via { .. } => Kind::Via,
        Metal::Pad { .. } => Kind::Pin,
        Metal::Ban { .. } => Kind::Area,
    }
}

/// The item of a wire, whose one piece is its chain, or of a via, whose pieces are its padstack's at its place.
/// `AllocError` comes only for want of memory.
pub fn make_item(
    alloc: Global,
    d: &Design,
    id: u64,
    net: Option<u32>,
    fixed: bool,
    metal: Metal,
) -> Result<Item, AllocError>
    requires place { IsMetalFit metal }
    requires padstacks { All (λ (s : Stack). All IsFit s.pieces) d.now.padstacks }
    ensures { IfOk result (λ a. a ≡ item_of d.now id net fixed metal) }
{
    let kind = kind_of(&metal);
    let pieces = pieces_of(alloc, d, &metal)?;
    Ok(Item {
        id,
        net,
        fixed,
        kind,
        metal,
        pieces,
    })
}

/// Equal loops. `AllocError` comes only for want of memory.
pub fn copy_loops(alloc: Global, loops: &[List<Point>]) -> Result<List<List<Point>>, AllocError>
    ensures { IfOk result (λ ls. ls ≡ loops.now) }
{
    let mut copies = List::new(alloc);
    for points in loops {
        copies.push(List::from_slice(alloc, points.as_slice())?)?;
    }
    Ok(copies)
}

/// An equal spine. `AllocError` comes only for want of memory.
pub fn copy_spine(alloc: Global, s: &Spine) -> Result<Spine, AllocError>
    ensures { IfOk result (λ t. t ≡ s.now) }
{
    match s {
        Spine::Chain(points) => Ok(Spine::Chain(List::from_slice(alloc, points.as_slice())?)),
        Spine::Area(loops) => Ok(Spine::Area(copy_loops(alloc, loops.as_slice())?)),
    }
}

fn copy_pieces(alloc: Global, ps: &[Piece]) -> Result<List<Piece>, AllocError>
    ensures { IfOk result (λ rs. rs ≡ ps.now) }
{
    let mut copies = List::new(alloc);
    for p in ps {
        copies.push(Piece {
            layer: p.layer,
            spine: copy_spine(alloc, &p.spine)?,
            width: p.width,
        })?;
    }
    Ok(copies)
}

/// An equal metal. `AllocError` comes only for want of memory.
pub fn copy_metal(alloc: Global, m: &Metal) -> Result<Metal, AllocError>
    ensures { IfOk result (λ n. n ≡ m.now) }
{
    match m {
        Metal::Wire {
            layer,
            width,
            chain,
        } => Ok(Metal::Wire {
            layer: *layer,
            width: *width,
            chain: List::from_slice(alloc, chain.as_slice())?,
        }),
        Metal::Via { padstack, at } => Ok(Metal::Via {
            padstack: *padstack,
            at: *at,
        }),
        Metal::Pad { pin } => Ok(Metal::Pad { pin: *pin }),
        Metal::Ban { wires, vias } => Ok(Metal::Ban {
            wires: *wires,
            vias: *vias,
        }),
    }
}

/// An equal item. `AllocError` comes only for want of memory.
pub fn copy_item(alloc: Global, a: &Item) -> Result<Item, AllocError>
    ensures { IfOk result (λ b. b ≡ a.now) }
{
    let metal = copy_metal(alloc, &a.metal)?;
    let pieces = copy_pieces(alloc, a.pieces.as_slice())?;
    Ok(Item {
        id: a.id,
        net: a.net,
        fixed: a.fixed,
        kind: a.kind,
        metal,
        pieces,
    })
}
