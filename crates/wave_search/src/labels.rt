//! What a search knows of each node.
//! A table of labels is made once and cleared by what was written, so a later search costs only what it visits.

ghost use Rattle.std.specs.Prelude.{◌≡◌, ℕ, ◌<◌, ◌^◌, length, IfOk, OnOk, None, IfSome};
ghost use Rattle.wave_search.specs.inner.State.{label_at, done_count, IsPut, IsListed};

use crate::rows::{Label, Rows};
use std::alloc::{AllocError, Global};
use std::marker::Model;

/// Nodes that get labels are listed while they are at most one in so many of all; where more do, all rows are cleared.
const ONE_IN: usize = 16;

/// The labels of the nodes.
#[derive(Drop)]
pub(crate) struct Labels {
    rows: Rows,
    touched: Vec<u32>,
    unlisted: bool,
}

impl Model for Labels {
    ghost use Rattle.std.specs.Prelude.{List, Option};
    ghost use Rattle.wave_search.specs.declared.rows.Label.{Label};
    ghost use Rattle.wave_search.specs.inner.Rows.{AreTouched};

    ghost Value = { List (Option Label) };

    ghost view = { λ s. s.rows };

    ghost invariant = { λ s. AreTouched s.rows s.unlisted s.touched.items };
}

impl Labels {
    /// Labels for nodes below `count`, of which none has one.
    pub(crate) fn new(alloc: Global, count: u32) -> Result<Labels, AllocError>
        ensures { IfOk result (λ t. length t ≡ count) }
    {
        let rows = Rows::new(alloc, count)?;
        Ok(Labels {
            rows,
            touched: Vec::new(alloc),
            unlisted: false,
        })
    }

    /// The label of a node.
    pub(crate) fn get(&self, v: u32) -> Option<Label>
        requires { v < length self.now }
        ensures { result ≡ label_at self.now v }
    {
        self.rows.get(v)
    }

    /// Gives a node a label.
    pub(crate) fn put(&mut self, v: u32, label: Label) -> Result<(), AllocError>
        requires node { v < length self.old }
        requires price { label.price < 2 ^ 63 }
        requires origin { IfSome label.origin (λ o. o < 2 ^ 25) }
        ensures ok { OnOk result (IsPut self.old v label self.new) }
        ensures size { length self.new ≡ length self.old }
    {
        if self.unlisted || self.rows.get(v).is_some() {
            self.rows.put(v, label);
            return Ok(());
        }
        if self.touched.len() >= self.rows.count() / ONE_IN {
            self.unlisted = true;
            self.rows.put(v, label);
            return Ok(());
        }
        self.touched.push(v)?;
        self.rows.put(v, label);
        Ok(())
    }

    /// Takes all labels away.
    pub(crate) fn clear(&mut self)
        ensures none { (v : ℕ) → label_at self.new v ≡ None }
        ensures done { done_count self.new ≡ 0 }
        ensures size { length self.new ≡ length self.old }
    {
        if self.unlisted {
            self.rows.blank_all();
            self.touched.clear();
            self.unlisted = false;
            return;
        }
        while let Some(v) = self.touched.pop() {
            self.rows.blank(v);
        }
    }

    /// The nodes that have a label, ascending.
    pub(crate) fn nodes(&self, alloc: Global) -> Result<Vec<u32>, AllocError>
        ensures { IfOk result (λ nodes. IsListed self.now nodes.items) }
    {
        if self.unlisted {
            return self.rows.labelled(alloc);
        }
        let mut nodes = Vec::from_slice(alloc, self.touched.as_slice())?;
        nodes.sort_unstable();
        nodes.dedup();
        Ok(nodes)
    }
}
