//! The padstacks of a board: the pieces of each, and whether it may be a via.
//! Source: SPECCTRA reference, padstack descriptor.

ghost use Rattle.std.specs.Prelude.{◌≡◌, ◌≤◌, ◌↔◌, All, IfOk, IsTrue};
ghost use Rattle.pcb_model.specs.Sound.{IsUsable};
ghost use Rattle.dsn_design.specs.Copper.{stack_pieces};
ghost use Rattle.dsn_design.specs.Fit.{IsStackFit};
ghost use Rattle.dsn_design.specs.Usable.{AreUsable, origin_spine, padstack_of, padstacks_of, usables};

use crate::copper::shape_pieces;
use crate::usable::is_usable;
use dsn_shapes::Stack;
use geo_kernel::{List, Point, Spine};
use pcb_model::Padstack;
use std::alloc::{AllocError, Global};

#[tactic(auto, unfolding(crate::specs::Copper::stack_pieces))]
fn padstack_of(alloc: Global, n: u8, centre: &Spine, stack: &Stack) -> Result<Padstack, AllocError>
    requires few { n ≤ 32 }
    requires centre_is { centre.now ≡ origin_spine }
    requires fit { IsStackFit stack.now }
    ensures is { IfOk result (λ p. p ≡ padstack_of n (p.usable, stack.now)) }
    ensures usable { IfOk result (λ p. IsTrue p.usable ↔ IsUsable (stack_pieces n stack.now)) }
{
    let pieces = shape_pieces(alloc, n, stack.shapes.as_slice())?;
    let usable = is_usable(centre, pieces.as_slice());
    let name = List::from_slice(alloc, stack.name.as_slice())?;
    Ok(Padstack {
        name,
        pieces,
        usable,
    })
}

fn padstacks_about(
    alloc: Global,
    n: u8,
    centre: &Spine,
    stacks: &[Stack],
) -> Result<List<Padstack>, AllocError>
    requires few { n ≤ 32 }
    requires centre_is { centre.now ≡ origin_spine }
    requires fit { All IsStackFit stacks.now }
    ensures are { IfOk result (λ ps. ps ≡ padstacks_of n (usables ps) stacks.now) }
    ensures usable { IfOk result (λ ps. AreUsable n (usables ps) stacks.now) }
{
    let mut padstacks = List::new(alloc);
    for stack in stacks {
        padstacks.push(padstack_of(alloc, n, centre, stack)?)?;
    }
    Ok(padstacks)
}

/// The padstacks of a board of `n` layers, in the order of the library.
pub(crate) fn padstacks_of(
    alloc: Global,
    n: u8,
    stacks: &List<Stack>,
) -> Result<List<Padstack>, AllocError>
    requires few { n ≤ 32 }
    requires fit { All IsStackFit stacks.now }
    ensures are { IfOk result (λ ps. ps ≡ padstacks_of n (usables ps) stacks.now) }
    ensures usable { IfOk result (λ ps. AreUsable n (usables ps) stacks.now) }
{
    let centre = Spine::Chain(List::from_slice(alloc, &[Point { x: 0, y: 0 }])?);
    padstacks_about(alloc, n, &centre, stacks.as_slice())
}
