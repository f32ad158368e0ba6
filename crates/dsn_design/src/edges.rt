//! The edges of boundaries: on every layer a closed chain for each loop.
//! Source: SPECCTRA reference, boundary descriptor.

ghost use Rattle.std.specs.Prelude.{◌≡◌, ◌++◌, map, IfOk, OnOk};
ghost use Rattle.std.specs.List.{flat_map};
ghost use Rattle.pcb_model.specs.Pieces.{wire_piece};
ghost use Rattle.dsn_design.specs.Copper.{below};
ghost use Rattle.dsn_design.specs.Items.{edge_item, edge_pieces, fixed_item, loops_of};

use dsn_shapes::LayerShape;
use geo_kernel::{List, Point, Spine};
use pcb_model::{Item, Kind, Metal, Piece, copy_loops};
use std::alloc::{AllocError, Global};

/// A fixed item, whose id is given with all of them.
pub(crate) fn fixed_item(net: Option<u32>, kind: Kind, metal: Metal, pieces: List<Piece>) -> Item
    ensures { result ≡ fixed_item net kind metal pieces }
{
    Item {
        id: 0,
        net,
        fixed: true,
        kind,
        metal,
        pieces,
    }
}

/// The loops of a boundary.
pub(crate) fn loops_of(alloc: Global, spine: &Spine) -> Result<List<List<Point>>, AllocError>
    ensures { IfOk result (λ ls. ls ≡ loops_of spine.now) }
{
    match spine {
        Spine::Area(loops) => copy_loops(alloc, loops.as_slice()),
        Spine::Chain(points) => {
            let mut loops = List::new(alloc);
            loops.push(List::from_slice(alloc, points.as_slice())?)?;
            Ok(loops)
        }
    }
}

/// The numbers of the layers of a board of `n`.
pub(crate) fn below(alloc: Global, n: u8) -> Result<List<u8>, AllocError>
    ensures { IfOk result (λ ls. ls ≡ below n) }
{
    let mut layers = List::new(alloc);
    for layer in 0..n {
        layers.push(layer)?;
    }
    Ok(layers)
}

fn push_chain(
    alloc: Global,
    pieces: &mut List<Piece>,
    layers: &[u8],
    width: u64,
    chain: &[Point],
) -> Result<(), AllocError>
    ensures { OnOk result (pieces.new ≡ pieces.old ++ map (λ layer. wire_piece layer width chain.now) layers.now) }
{
    for layer in layers {
        pieces.push(Piece {
            layer: *layer,
            spine: Spine::Chain(List::from_slice(alloc, chain)?),
            width,
        })?;
    }
    Ok(())
}

fn push_edge(
    alloc: Global,
    pieces: &mut List<Piece>,
    layers: &[u8],
    width: u64,
    points: &[Point],
) -> Result<(), AllocError>
    ensures { OnOk result (pieces.new ≡ pieces.old ++ edge_pieces layers.now width points.now) }
{
    let mut chain = List::from_slice(alloc, points)?;
    if let [first, ..] = points {
        chain.push(*first)?;
    }
    push_chain(alloc, pieces, layers, width, chain.as_slice())
}

fn edges_of(
    alloc: Global,
    layers: &[u8],
    width: u64,
    loops: &[List<Point>],
) -> Result<List<Piece>, AllocError>
    ensures { IfOk result (λ ps. ps ≡ flat_map (edge_pieces layers.now width) loops.now) }
{
    let mut pieces = List::new(alloc);
    for points in loops {
        push_edge(alloc, &mut pieces, layers, width, points.as_slice())?;
    }
    Ok(pieces)
}

/// The edge of a boundary on a board of `n` layers.
#[tactic(auto, unfolding(crate::specs::Items::edge_item))]
pub(crate) fn edge_item(alloc: Global, n: u8, shape: &LayerShape) -> Result<Item, AllocError>
    ensures { IfOk result (λ a. a ≡ edge_item n shape.now) }
{
    let layers = below(alloc, n)?;
    let loops = loops_of(alloc, &shape.spine)?;
    let pieces = edges_of(alloc, layers.as_slice(), shape.width, loops.as_slice())?;
    let metal = Metal::Ban {
        wires: true,
        vias: true,
    };
    Ok(fixed_item(None, Kind::Area, metal, pieces))
}
