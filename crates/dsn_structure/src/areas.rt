//! The boundaries and keepouts of a structure.
//! Source: SPECCTRA reference, boundary, keepout and window descriptors.

ghost use Rattle.std.specs.Prelude.{◌≡◌, ◌++◌, map, sum_by, IfOk, OnOk};
ghost use Rattle.dsn_shapes.specs.Lists.{capped, trees_of};
ghost use Rattle.dsn_shapes.specs.Refusals.{noted};
ghost use Rattle.dsn_shapes.specs.Shapes.{ban_notes, ban_of, bound_of};
ghost use Rattle.dsn_structure.specs.Layout.{area_refusals};

use dsn_shapes::{
    BanShape, Bounds, Keepouts, Layer, LayerShape, Refusal, Trees, What, ban_notes, read_each,
    refuse_past,
};
use dsn_tree::Tree;
use dsn_units::Scale;
use geo_kernel::List;
use std::alloc::{AllocError, Global};

/// The boundaries and the keepouts, and how many lists the keepouts have beside their forms.
#[derive(Drop)]
pub(crate) struct Areas {
    pub(crate) bounds: List<LayerShape>,
    pub(crate) bans: List<BanShape>,
    pub(crate) notes: u64,
}

// Appends these trees.
fn push_all<'a>(all: &mut Trees<'a>, trees: &[&'a Tree]) -> Result<(), AllocError>
    ensures { OnOk result (all.new ≡ all.old ++ trees_of trees.now) }
{
    for tree in trees {
        all.push(tree)?;
    }
    Ok(())
}

/// Reads the boundaries and the keepouts.
#[tactic(auto, unfolding(crate::specs::Layout::area_refusals))]
pub(crate) fn read_areas(
    alloc: Global,
    first: &mut Option<Refusal>,
    bounds: &Trees,
    bans: &Trees,
    scale: Scale,
    layers: &List<Layer>,
) -> Result<Areas, AllocError>
    ensures noted { OnOk result (first.new ≡ noted first.old (area_refusals scale.nm layers.now bounds.now bans.now)) }
    ensures bounds { IfOk result (λ a. a.bounds ≡ map (bound_of scale.nm layers.now) bounds.now) }
    ensures bans { IfOk result (λ a. a.bans ≡ map (ban_of scale.nm layers.now) bans.now) }
    ensures notes { IfOk result (λ a. a.notes ≡ capped (sum_by ban_notes bans.now)) }
{
    // The items of the structure in their order.
    let mut all = Trees::new(alloc);
    push_all(&mut all, bounds.as_slice())?;
    push_all(&mut all, bans.as_slice())?;
    let bound_shapes = match read_each(alloc, &Bounds { scale, layers }, first, bounds) {
        Ok(shapes) => shapes,
        Err(error) => {
            drop(all);
            return Err(error);
        }
    };
    let ban_shapes = match read_each(alloc, &Keepouts { scale, layers }, first, bans) {
        Ok(shapes) => shapes,
        Err(error) => {
            drop((all, bound_shapes));
            return Err(error);
        }
    };
    refuse_past(first, What::Items, 0, &all);
    drop(all);
    Ok(Areas {
        bounds: bound_shapes,
        bans: ban_shapes,
        notes: ban_notes(bans),
    })
}
