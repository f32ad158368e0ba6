//! Items that are anchored at a node, id by id and island by island.

ghost use Rattle.std.specs.Prelude.{◌<◌};
ghost use Rattle.route_lattice.specs.Mesh.{node_count};
ghost use Rattle.cut_certificate.specs.Cuts.{IsGoal};
ghost use Rattle.wide_offer.specs.inner.Routes.{FindsAnchored, IsAnchoredIn};

use pcb_islands::Island;
use pcb_model::Copper;
use route_lattice::Ground;

/// The first of the ids whose item is anchored at the node.
pub(crate) fn anchored_among<C: Copper>(on: &Ground<'_, C>, ids: &[u64], node: u32) -> Option<u64>
    requires { node < node_count on.now.lat }
    ensures { FindsAnchored on.now.d on.now.lat on.now.items ids.now node result }
{
    on.in_order();
    for id in ids {
        let Some(item) = on.item(*id) else {
            continue;
        };
        if on.anchor(node, item) {
            return Some(*id);
        }
    }
    None
}

/// The id of an item of one of the islands that is anchored at a goal.
pub(crate) fn anchored_at_goal<C: Copper>(on: &Ground<'_, C>, others: &[Island], node: u32) -> u64
    requires { IsGoal on.now.d on.now.lat on.now.items others.now node }
    ensures { IsAnchoredIn on.now.d on.now.lat on.now.items others.now node result }
{
    for other in others {
        if let Some(id) = anchored_among(on, other.items.as_slice(), node) {
            return id;
        }
    }
    unreachable!()
}
