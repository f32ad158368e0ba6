//! The labels of nodes as they are kept, in 16 bytes a node.

ghost use Rattle.std.specs.Prelude.{◌≡◌, ℕ, ◌<◌, ◌^◌, length, IfOk, None, IfSome};
ghost use Rattle.wave_search.specs.inner.Rows.{row_label};
ghost use Rattle.wave_search.specs.inner.State.{label_at, IsPut, IsListed};

use std::alloc::{AllocError, Global};
use std::marker::Model;

/// The price of a row that has no label.
const NO_PRICE: u64 = u64::MAX;

/// The origin of a row whose label is a start's.
const NO_NODE: u32 = u32::MAX;

/// The price of a walk to a node, the node's rank among those that are done (0 while it waits), and the node before it.
#[derive(Clone, Copy)]
pub(crate) struct Label {
    pub price: u64,
    pub rank: u32,
    pub origin: Option<u32>,
}

/// A label as it is kept.
#[derive(Clone, Copy)]
struct Row {
    price: u64,
    rank: u32,
    origin: u32,
}

/// A row for each node; contracts see the labels.
#[derive(Drop)]
pub(crate) struct Rows {
    rows: Vec<Row>,
}

impl Model for Rows {
    ghost use Rattle.std.specs.Prelude.{◌<◌, ◌^◌, List, Option, length};
    ghost use Rattle.wave_search.specs.declared.rows.Label.{Label};
    ghost use Rattle.wave_search.specs.inner.Rows.{labels_of};

    ghost Value = { List (Option Label) };

    ghost view = { λ s. labels_of s.rows.items };

    ghost invariant = { λ s. length s.rows.items < 2 ^ 32 };
}

/// The row of a node without a label.
fn blank_row() -> Row
    ensures { row_label result ≡ None }
{
    Row {
        price: NO_PRICE,
        rank: 0,
        origin: NO_NODE,
    }
}

/// The label of a row.
fn label_of(row: Row) -> Option<Label>
    ensures { result ≡ row_label row }
{
    if row.price == NO_PRICE {
        return None;
    }
    let origin = if row.origin == NO_NODE {
        None
    } else {
        Some(row.origin)
    };
    Some(Label {
        price: row.price,
        rank: row.rank,
        origin,
    })
}

/// The row of a label.
fn row_of(label: Label) -> Row
    requires price { label.price < 2 ^ 63 }
    requires origin { IfSome label.origin (λ o. o < 2 ^ 25) }
    ensures { row_label result ≡ Some label }
{
    Row {
        price: label.price,
        rank: label.rank,
        origin: label.origin.unwrap_or(NO_NODE),
    }
}

impl Rows {
    /// Rows for nodes below `count`, of which none has a label.
    pub(crate) fn new(alloc: Global, count: u32) -> Result<Rows, AllocError>
        ensures size { IfOk result (λ t. length t ≡ count) }
        ensures none { IfOk result (λ t. (v : ℕ) → label_at t v ≡ None) }
    {
        let rows = vec![in alloc; blank_row(); count as usize]?;
        Ok(Rows { rows })
    }

    /// How many nodes there are.
    pub(crate) fn count(&self) -> usize
        ensures { result ≡ length self.now }
    {
        self.rows.len()
    }

    /// The label of a node.
    pub(crate) fn get(&self, v: u32) -> Option<Label>
        requires { v < length self.now }
        ensures { result ≡ label_at self.now v }
    {
        label_of(self.rows[v as usize])
    }

    /// Gives a node a label.
    pub(crate) fn put(&mut self, v: u32, label: Label)
        requires node { v < length self.old }
        requires price { label.price < 2 ^ 63 }
        requires origin { IfSome label.origin (λ o. o < 2 ^ 25) }
        ensures { IsPut self.old v label self.new }
    {
        self.rows[v as usize] = row_of(label);
    }

    /// Takes a node's label away.
    pub(crate) fn blank(&mut self, v: u32)
        requires { v < length self.old }
        ensures here { label_at self.new v ≡ None }
        ensures others { (u : ℕ) → (u ≡ v → ⊥) → label_at self.new u ≡ label_at self.old u }
        ensures size { length self.new ≡ length self.old }
    {
        self.rows[v as usize] = blank_row();
    }

    /// Takes all labels away.
    pub(crate) fn blank_all(&mut self)
        ensures none { (v : ℕ) → label_at self.new v ≡ None }
        ensures size { length self.new ≡ length self.old }
    {
        self.rows.fill(blank_row());
    }

    /// The nodes that have a label, ascending.
    pub(crate) fn labelled(&self, alloc: Global) -> Result<Vec<u32>, AllocError>
        ensures { IfOk result (λ nodes. IsListed self.now nodes.items) }
    {
        let mut nodes = Vec::new(alloc);
        for v in 0..self.rows.len() as u32 {
            if self.get(v).is_some() {
                nodes.push(v)?;
            }
        }
        Ok(nodes)
    }
}
