//! Marks on nodes, and the marked nodes that wait for their moves to be followed.
//! A node is marked when it begins to wait, so it waits once.

ghost use Rattle.std.specs.Prelude.{◌≡◌, ◌↔◌, ◌<◌, ℕ, length, IfOk, OnOk, IsTrue};
ghost use Rattle.cut_certificate.specs.inner.Marks.{IsMarked, IsBlank, Gains, AreListed, fill_of};

use crate::marks::Marks;
use geo_kernel::List;
use std::alloc::{AllocError, Global};

/// Marks on nodes, and the marked nodes that wait, of which the last is taken first.
#[derive(Drop)]
pub(crate) struct Front {
    pub marks: Marks,
    pub waiting: Vec<u32>,
}

impl Front {
    /// Marks for nodes below `count`, none of which is set; none waits.
    pub(crate) fn new(alloc: Global, count: u32) -> Result<Front, AllocError>
        ensures { IfOk result (λ f. IsBlank count (fill_of f)) }
    {
        let marks = Marks::new(alloc, count)?;
        let waiting = Vec::new(alloc);
        Ok(Front { marks, waiting })
    }

    /// Whether the node is marked.
    pub(crate) fn has(&self, node: u32) -> bool
        requires { node < length self.now.marks }
        ensures { IsTrue result ↔ IsMarked self.now.marks node }
    {
        self.marks.has(node)
    }

    /// Marks a node, and lets it wait if it wasn't marked.
    pub(crate) fn mark(&mut self, node: u32) -> Result<(), AllocError>
        requires { node < length self.old.marks }
        ensures { OnOk result (Gains (λ v. node ≡ v) (fill_of self.old) (fill_of self.new)) }
    {
        if self.has(node) {
            return Ok(());
        }
        self.waiting.push(node)?;
        self.marks.set(node)?;
        Ok(())
    }

    /// The marked nodes, ascending.
    pub(crate) fn marked(&self, alloc: Global) -> Result<List<u32>, AllocError>
        ensures { IfOk result (AreListed self.now.marks (length self.now.marks)) }
    {
        self.marks.marked(alloc)
    }
}
