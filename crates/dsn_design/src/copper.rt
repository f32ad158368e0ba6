//! The copper of shapes: a piece for each of their layers.
//! Source: SPECCTRA reference, padstack and keepout descriptors; layers count from 0.

ghost use Rattle.std.specs.Prelude.{◌≡◌, ◌≤◌, ◌++◌, map, IfOk, OnOk};
ghost use Rattle.std.specs.List.{flat_map};
ghost use Rattle.dsn_design.specs.Copper.{piece_on, pieces_of};

use dsn_shapes::{LayerShape, Stack};
use dsn_wiring::layers_below;
use geo_kernel::List;
use pcb_model::{Piece, copy_spine};
use std::alloc::{AllocError, Global};

fn add_on(
    alloc: Global,
    pieces: &mut List<Piece>,
    layers: &[u8],
    shape: &LayerShape,
) -> Result<(), AllocError>
    ensures { OnOk result (pieces.new ≡ pieces.old ++ map (piece_on shape.now) layers.now) }
{
    for layer in layers {
        pieces.push(Piece {
            layer: *layer,
            spine: copy_spine(alloc, &shape.spine)?,
            width: shape.width,
        })?;
    }
    Ok(())
}

/// Appends the pieces of a shape on a board of `n` layers: one for each of its layers.
#[tactic(auto, unfolding(crate::specs::Copper::pieces_of))]
pub(crate) fn add_pieces(
    alloc: Global,
    pieces: &mut List<Piece>,
    n: u8,
    shape: &LayerShape,
) -> Result<(), AllocError>
    requires { n ≤ 32 }
    ensures { OnOk result (pieces.new ≡ pieces.old ++ pieces_of n shape.now) }
{
    let layers = layers_below(alloc, n, shape.layers)?;
    add_on(alloc, pieces, layers.as_slice(), shape)
}

/// The pieces of some shapes on a board of `n` layers, shape by shape.
pub(crate) fn shape_pieces(
    alloc: Global,
    n: u8,
    shapes: &[LayerShape],
) -> Result<List<Piece>, AllocError>
    requires { n ≤ 32 }
    ensures { IfOk result (λ ps. ps ≡ flat_map (pieces_of n) shapes.now) }
{
    let mut pieces = List::new(alloc);
    for shape in shapes {
        add_pieces(alloc, &mut pieces, n, shape)?;
    }
    Ok(pieces)
}
