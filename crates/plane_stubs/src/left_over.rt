//! What is left of each walk to a rib: a via at least.

ghost use Rattle.std.specs.Prelude.{nat_lt, if◌then◌else◌};

use wave_search::Bound;

/// A bound on what is left of a walk to the node behind the last one of the lattice: the price of a via.
/// By it a search visits no node from which it would have to go on for longer than the least walk does.
#[derive(Drop)]
pub(crate) struct LeftOver {
    pub(crate) count: u32,
    pub(crate) via_cost: u64,
}

impl Bound for LeftOver {
    ghost low_of = { λ s node. if nat_lt node s.count then s.via_cost else 0 };

    fn low(&self, node: u32) -> u64 {
        if node < self.count { self.via_cost } else { 0 }
    }
}
