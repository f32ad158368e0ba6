//! Marks on nodes, a byte a node, in rows of many nodes each.
//! A row takes memory once a node of it is marked, so a flood of few nodes costs little on a lattice of many.

ghost use Rattle.std.specs.Prelude.{◌≡◌, ◌↔◌, ◌<◌, ◌≤◌, ◌+◌, ◌*◌, ◌==◌, ℕ, [], length, set, slice_index_or, true};
ghost use Rattle.std.specs.Prelude.{false, IfOk, OnErr, OnOk, IsTrue};
ghost use Rattle.cut_certificate.specs.declared.marks.TheConstants.{ROW};
ghost use Rattle.cut_certificate.specs.inner.Rows.{IsSetIn, AreBlank};
ghost use Rattle.cut_certificate.specs.inner.Marks.{IsMarked, AreListed};

use geo_kernel::List;
use std::alloc::{AllocError, Global};
use std::marker::Model;

/// How many nodes a row has.
const ROW: usize = 512;

/// The marks of a row's nodes, or none where no node of the row is marked.
#[derive(Drop)]
struct Row {
    marks: Vec<bool>,
}

impl Model for Row {
    ghost use Rattle.std.specs.Prelude.{List, Bool};
    ghost use Rattle.cut_certificate.specs.inner.Rows.{IsRow};

    ghost Value = { List Bool };

    ghost view = { λ s. s.marks.items };

    ghost invariant = { λ s. IsRow s.marks.items };
}

/// Makes so many marks of which none is set, where there are none.
fn make_blank(marks: &mut Vec<bool>, count: usize) -> Result<(), AllocError>
    requires { length marks.old.items ≡ 0 }
    ensures size { OnOk result (length marks.new.items ≡ count) }
    ensures same { OnOk result ((u : ℕ) → slice_index_or marks.new.items u false
        ≡ slice_index_or marks.old.items u false) }
    ensures err { OnErr result (length marks.new.items ≡ 0) }
{
    marks.resize(count, false)
}

impl Row {
    /// The row of nodes of which none is marked; it takes no memory.
    fn new(alloc: Global) -> Row
        ensures { result ≡ [] }
    {
        Row {
            marks: Vec::new(alloc),
        }
    }

    /// Whether the row keeps no marks.
    fn is_empty(&self) -> bool
        ensures { result ≡ (length self.now == 0) }
    {
        self.marks.is_empty()
    }

    /// Whether the node at this place of the row is marked.
    fn has(&self, at: usize) -> bool
        ensures { result ≡ slice_index_or self.now at false }
    {
        if at < self.marks.len() {
            return self.marks[at];
        }
        false
    }

    /// Makes the marks of the row's nodes, of which none is set, where there are none yet.
    fn fill(&mut self) -> Result<(), AllocError>
        ensures size { OnOk result (length self.new ≡ ROW) }
        ensures same { OnOk result ((u : ℕ) → slice_index_or self.new u false ≡ slice_index_or self.old u false) }
    {
        if !self.marks.is_empty() {
            return Ok(());
        }
        make_blank(&mut self.marks, ROW)
    }

    /// Marks the node at this place of the row.
    fn set(&mut self, at: usize) -> Result<(), AllocError>
        requires { at < ROW }
        ensures { OnOk result (IsSetIn at self.old self.new) }
    {
        self.fill()?;
        self.marks[at] = true;
        Ok(())
    }
}

/// Marks on nodes; contracts see a mark for each node.
#[derive(Drop)]
pub(crate) struct Marks {
    count: u32,
    rows: Vec<Row>,
}

impl Model for Marks {
    ghost use Rattle.std.specs.Prelude.{List, Bool};
    ghost use Rattle.cut_certificate.specs.inner.Rows.{marks_of, AreRowsOf};

    ghost Value = { List Bool };

    ghost view = { λ s. marks_of s.count s.rows.items };

    ghost invariant = { λ s. AreRowsOf s.count s.rows.items };
}

/// Rows of nodes of which none is marked.
fn blank_rows(alloc: Global, count: usize) -> Result<Vec<Row>, AllocError>
    ensures { IfOk result (λ rows. AreBlank count rows.items) }
{
    let mut rows = Vec::new(alloc);
    for _row in 0..count {
        let row = Row::new(alloc);
        rows.push(row)?;
    }
    Ok(rows)
}

impl Marks {
    /// Marks for nodes below `count`, of which none is set.
    pub(crate) fn new(alloc: Global, count: u32) -> Result<Marks, AllocError>
        ensures size { IfOk result (λ marks. length marks ≡ count) }
        ensures none { IfOk result (λ marks. (v : ℕ) → IsMarked marks v → ⊥) }
    {
        let rows = blank_rows(alloc, count as usize / ROW + 1)?;
        Ok(Marks { count, rows })
    }

    /// Whether the node is marked.
    pub(crate) fn has(&self, node: u32) -> bool
        requires { node < length self.now }
        ensures { IsTrue result ↔ IsMarked self.now node }
    {
        let node = node as usize;
        self.rows[node / ROW].has(node % ROW)
    }

    /// Marks the node.
    pub(crate) fn set(&mut self, node: u32) -> Result<(), AllocError>
        requires { node < length self.old }
        ensures { OnOk result (self.new ≡ set self.old node true) }
    {
        let node = node as usize;
        self.rows[node / ROW].set(node % ROW)?;
        Ok(())
    }

    /// Lists the marked nodes from `first` to below `last`, behind those below `first`.
    fn list_between(&self, nodes: &mut List<u32>, first: u32, last: u32) -> Result<(), AllocError>
        requires order { first ≤ last }
        requires within { last ≤ length self.now }
        requires before { AreListed self.now first nodes.old }
        ensures { OnOk result (AreListed self.now last nodes.new) }
    {
        for node in first..last {
            if self.has(node) {
                nodes.push(node)?;
            }
        }
        Ok(())
    }

    /// How many nodes there are.
    fn size(&self) -> u32
        ensures { result ≡ length self.now }
    {
        self.count
    }

    /// Where the nodes of a row end: the first of the next row, or one past the last node.
    fn end_of(&self, row: usize) -> u32
        requires { row * ROW ≤ length self.now }
        ensures above { row * ROW ≤ result }
        ensures within { result ≤ length self.now }
        ensures below { result ≤ (row + 1) * ROW }
        ensures whole { result < length self.now → result ≡ (row + 1) * ROW }
    {
        let size = self.size();
        let first = (row * ROW) as u32;
        if size - first > ROW as u32 {
            return first + ROW as u32;
        }
        size
    }

    /// Lists the marked nodes of a row behind those of the rows before it.
    fn list_row(&self, nodes: &mut List<u32>, row: usize) -> Result<(), AllocError>
        requires row { row * ROW ≤ length self.now }
        requires before { AreListed self.now (row * ROW) nodes.old }
        ensures { OnOk result (AreListed self.now ((row + 1) * ROW) nodes.new) }
    {
        let last = self.end_of(row);
        self.list_between(nodes, (row * ROW) as u32, last)?;
        Ok(())
    }

    /// The marked nodes, ascending.
    pub(crate) fn marked(&self, alloc: Global) -> Result<List<u32>, AllocError>
        ensures { IfOk result (AreListed self.now (length self.now)) }
    {
        let mut nodes = List::new(alloc);
        for row in 0..self.rows.len() {
            if !self.rows[row].is_empty() {
                self.list_row(&mut nodes, row)?;
            }
        }
        Ok(nodes)
    }
}
