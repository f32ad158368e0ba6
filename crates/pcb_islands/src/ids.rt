//! A set of item ids; contracts tell it by membership.
//! It is kept in order, so that the ids come out ascending.

ghost use Rattle.std.specs.Prelude.{◌≡◌, [], IfOk, Contains};
ghost use Rattle.std.specs.List.Sorted.{IsStrictlyIncreasing};
ghost use Rattle.pcb_islands.specs.inner.Numbers.{IsWith};

use geo_kernel::List;
use std::alloc::{AllocError, Global};
use std::collections::BTreeSet;
use std::marker::Model;

/// A set of item ids.
#[derive(Drop)]
pub(crate) struct Ids {
    ids: BTreeSet<u64>,
}

impl Model for Ids {
    ghost use Rattle.std.specs.Prelude.{ℕ, List as Seq};
    ghost use Rattle.std.specs.Ordering.{nat_cmp};
    ghost use Rattle.std.specs.BTreeSet.{IsOrdered};

    ghost Value = { Seq ℕ };

    ghost view = { λ s. s.ids.keys };

    ghost invariant = { λ s. IsOrdered nat_cmp s.ids };
}

impl Ids {
    /// The empty set; it takes no memory.
    pub(crate) fn new(alloc: Global) -> Ids
        ensures { result ≡ [] }
    {
        Ids {
            ids: BTreeSet::new(alloc),
        }
    }

    /// Puts an id into the set, and says whether it is fresh there.
    pub(crate) fn insert(&mut self, id: u64) -> Result<bool, AllocError>
        ensures { IfOk result (λ fresh. IsWith self.old id fresh self.new) }
    {
        let fresh = self.ids.insert(id)?;
        Ok(fresh)
    }

    /// The ids, ascending.
    pub(crate) fn to_list(&self, alloc: Global) -> Result<List<u64>, AllocError>
        ensures list { IfOk result (λ list. list ≡ self.now) }
        ensures ascend { IsStrictlyIncreasing self.now }
    {
        let ids: Vec<u64> = self.ids.iter().copied().collect(alloc)?;
        Ok(List::from_vec(ids))
    }
}
