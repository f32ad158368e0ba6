//! Marked nodes, in rising order, and goals with marks on them.
//! Whether a node is one of many goals is told without a look at each.

ghost use Rattle.std.specs.Prelude.{◌≡◌, ℕ, ◌↔◌, IfOk, IsTrue, Contains};

use geo_kernel::List;
use std::alloc::{AllocError, Global};
use std::marker::Model;

/// Marked nodes; contracts see them as a list in rising order.
#[derive(Drop)]
pub(crate) struct Marks {
    nodes: Vec<u32>,
}

impl Model for Marks {
    ghost use Rattle.std.specs.Prelude.{ℕ, List};
    ghost use Rattle.std.specs.List.Sorted.{IsStrictlyIncreasing};

    ghost Value = { List ℕ };

    ghost view = { λ s. s.nodes.items };

    ghost invariant = { λ s. IsStrictlyIncreasing s.nodes.items };
}

impl Marks {
    /// These nodes.
    pub(crate) fn of(alloc: Global, nodes: &[u32]) -> Result<Marks, AllocError>
        ensures { IfOk result (λ s. (v : ℕ) → (Contains s v ↔ Contains nodes.now v)) }
    {
        let mut sorted = Vec::from_slice(alloc, nodes)?;
        sorted.sort_unstable();
        sorted.dedup();
        Ok(Marks { nodes: sorted })
    }

    /// Whether the node is marked.
    pub(crate) fn has(&self, v: u32) -> bool
        ensures { IsTrue result ↔ Contains self.now v }
    {
        self.nodes.binary_search(&v).is_ok()
    }
}

/// Goals, and marks on them; contracts see the goals as they are listed.
#[derive(Drop)]
pub(crate) struct Goals<'a> {
    list: &'a List<u32>,
    marks: Marks,
}

impl<'a> Model for Goals<'a> {
    ghost use Rattle.std.specs.Prelude.{ℕ, List as Seq, Contains, ◌↔◌};

    ghost Value = { Seq ℕ };

    ghost view = { λ s. s.list.now };

    ghost invariant = { λ s. (v : ℕ) → (Contains s.marks v ↔ Contains s.list.now v) };
}

impl<'a> Goals<'a> {
    /// These goals.
    pub(crate) fn of(alloc: Global, list: &'a List<u32>) -> Result<Goals<'a>, AllocError>
        ensures { IfOk result (λ s. s ≡ list.now) }
    {
        let marks = Marks::of(alloc, list.as_slice())?;
        Ok(Goals { list, marks })
    }

    /// The goals.
    pub(crate) fn as_slice(&self) -> &[u32]
        ensures { result.now ≡ self.now }
    {
        self.list.as_slice()
    }

    /// Whether the node is a goal.
    pub(crate) fn has(&self, v: u32) -> bool
        ensures { IsTrue result ↔ Contains self.now v }
    {
        self.marks.has(v)
    }
}
