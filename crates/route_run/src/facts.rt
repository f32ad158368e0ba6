//! What a run tells beside its board, and what of it comes from the nets' ends.
//! Lengths are in nm, and places are byte offsets in the design's text.

ghost use Rattle.std.specs.Prelude.{◌≡◌, ◌≤◌, ◌^◌, IfOk, flat_map, length, List as Seq};
ghost use Rattle.cut_certificate.specs.declared.cut.Cut.{Cut as OneCut};
ghost use Rattle.route_run.specs.Runs.{complete_from};

use cut_certificate::Cut;
use geo_kernel::List;
use std::alloc::{AllocError, Global};

/// What a pass made: how many entries, and how many connections are open after it.
#[derive(Clone, Copy)]
pub struct PassLine {
    pub commits: u64,
    pub parted: u64,
}

/// What is told of a run.
#[derive(Drop)]
pub struct Facts {
    /// The distance of the lattice's lines.
    pub grid: u64,
    /// How many nodes the lattice has.
    pub nodes: u64,
    /// The places of the free wiring that wasn't legal, in order.
    pub dropped: List<u64>,
    /// The passes, in order.
    pub passes: List<PassLine>,
    /// The number of the pass that is kept, counted from 1.
    pub kept: u32,
    /// How many joins the closing pass made.
    pub joins: u64,
    /// The complete nets, ascending.
    pub complete: List<u32>,
    /// A cut for each island of every other net, net by net.
    pub cuts: List<Cut>,
    /// For each cut how many nodes the net's moves reach, those at 45 degrees among them, where they are asked for.
    pub wide: Option<List<u64>>,
}

/// The nets that have no cut, ascending.
pub(crate) fn complete_nets(alloc: Global, ends: &List<List<Cut>>) -> Result<List<u32>, AllocError>
    requires { length ends.now ≤ 2 ^ 26 }
    ensures { IfOk result (λ nets. nets ≡ complete_from 0 ends.now) }
{
    let mut nets = List::new(alloc);
    let mut net = 0;
    for cuts in ends.as_slice() {
        if cuts.is_empty() {
            nets.push(net)?;
        }
        net += 1;
    }
    Ok(nets)
}

/// All cuts, net by net.
pub(crate) fn all_cuts(alloc: Global, ends: List<List<Cut>>) -> Result<List<Cut>, AllocError>
    ensures { IfOk result (λ all. all ≡ flat_map (λ (cuts : Seq OneCut). cuts) ends) }
{
    let mut all = Vec::new(alloc);
    for cuts in ends.into_vec() {
        let mut cuts = cuts.into_vec();
        all.append(&mut cuts)?;
    }
    Ok(List::from_vec(all))
}
