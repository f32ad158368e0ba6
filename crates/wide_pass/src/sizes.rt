//! How many nodes moves at 45 degrees reach from islands that have cuts, on a board as it was.
//! The nodes of the cut are where such moves begin.

ghost use Rattle.std.specs.Prelude.{◌≡◌, ◌↔◌, ◌<◌, ◌≤◌, All, Contains, IfOk, IsTrue, length};
ghost use Rattle.std.specs.List.Sorted.{IsStrictlyIncreasing};
ghost use Rattle.pcb_islands.specs.declared.net.Island.{Island as OneIsland};
ghost use Rattle.route_lattice.specs.Mesh.{node_count};
ghost use Rattle.cut_certificate.specs.Goals.{Meets};
ghost use Rattle.closing_pass.specs.Closing.{Ends};
ghost use Rattle.wide_pass.specs.inner.Sizes.{CanReach, HasCutAt, HasNodes, Looks, LooksAt, LooksAtPlace};

use crate::join::{WideCloser, put_back};
use cut_certificate::{Cut, goals_of};
use geo_kernel::List;
use pcb_board::Snap;
use pcb_islands::{Island, islands};
use std::alloc::{AllocError, Global};
use wide_offer::WideSearch;

/// Whether the node is among the nodes.
fn has(nodes: &[u32], node: u32) -> bool
    requires { IsStrictlyIncreasing nodes.now }
    ensures { IsTrue result ↔ Contains nodes.now node }
{
    nodes.binary_search(&node).is_ok()
}

/// Whether one of the nodes is a goal.
fn meets(nodes: &[u32], goals: &[u32]) -> bool
    requires { IsStrictlyIncreasing nodes.now }
    ensures { IsTrue result ↔ Meets nodes.now goals.now }
{
    for goal in goals {
        if has(nodes, *goal) {
            return true;
        }
    }
    false
}

impl WideCloser<'_> {
    /// How many nodes moves at 45 degrees reach from an island with this cut; None where they lead to one of the
    /// others.
    fn size_of(
        &self,
        alloc: Global,
        snap: &Snap,
        net: u32,
        others: &List<Island>,
        cut: &Cut,
    ) -> Result<Option<u64>, AllocError>
        requires can { CanReach self.now.lat.now self.now.via_cost snap.now net }
        requires there { All (λ v. v < node_count self.now.lat.now) cut.now.reach.nodes }
        ensures { IfOk result (λ size. (island : OneIsland)
            → HasNodes snap.now.design self.now.lat.now self.now.via_cost snap.now.items net island others.now cut.now
            → LooksAt snap.now.design self.now.lat.now self.now.via_cost snap.now.items island others.now size) }
    {
        let d = snap.design();
        let search = WideSearch {
            lat: self.lat,
            d,
            copper: snap,
            via_cost: self.via_cost,
        };
        let reach = search.reach(alloc, net, &cut.reach.nodes)?;
        let goals = match goals_of(alloc, self.lat, d, snap, others) {
            Ok(goals) => goals,
            Err(error) => {
                drop(reach);
                return Err(error);
            }
        };
        let led = meets(reach.nodes.as_slice(), goals.as_slice());
        let size = reach.nodes.len() as u64;
        drop((reach, goals));
        if led {
            return Ok(None);
        }
        Ok(Some(size))
    }

    /// The same of the island at a place among those of its net. The islands come back.
    fn size_at(
        &self,
        alloc: Global,
        snap: &Snap,
        found: List<Island>,
        place: usize,
        cut: &Cut,
    ) -> Result<(List<Island>, Option<u64>), AllocError>
        requires { HasCutAt self.now.lat.now self.now.via_cost snap.now found place cut.now }
        ensures found { IfOk result (λ r. r.0 ≡ found) }
        ensures looks { IfOk result
            (λ r. LooksAtPlace self.now.lat.now self.now.via_cost snap.now cut.now r.1) }
    {
        let mut others = found;
        let island = others.remove(place);
        let size = match self.size_of(alloc, snap, cut.net, &others, cut) {
            Ok(size) => size,
            Err(error) => {
                drop((others, island));
                return Err(error);
            }
        };
        let found = put_back(others, place, island)?;
        Ok((found, size))
    }

    /// Whether moves at 45 degrees lead from an island of a net to another. Where they don't, the sizes of what they
    /// reach from each are put behind the others.
    pub(crate) fn leads_on(
        &self,
        alloc: Global,
        snap: &Snap,
        net: u32,
        cuts: &List<Cut>,
        wide: &mut List<u64>,
    ) -> Result<bool, AllocError>
        requires can { CanReach self.now.lat.now self.now.via_cost snap.now net }
        requires ends { Ends snap.now.design self.now.lat.now self.now.via_cost snap.now.items net cuts.now }
        ensures { IfOk result (Looks self.now.lat.now self.now.via_cost snap.now net cuts.now wide.old wide.new) }
    {
        if cuts.is_empty() {
            return Ok(false);
        }
        let mut found = islands(alloc, snap.design(), snap, net)?;
        for place in 0..cuts.len() {
            let cut = &cuts.as_slice()[place];
            let (same, size) = self.size_at(alloc, snap, found, place, cut)?;
            found = same;
            match size {
                Some(size) => wide.push(size)?,
                None => return Ok(true),
            }
        }
        Ok(false)
    }
}
