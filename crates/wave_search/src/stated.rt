//! The stated walk: of the least walks the one of the fewest moves, of these the one of the least nodes, and of these
//! the one of the least indices of moves.
//! A pass goes from the starts over tight moves between the nodes that a search has done. It comes to nodes by the
//! fewest moves first, and of as many by the least nodes, so the first goal that it comes to ends the walk.

ghost use Rattle.std.specs.Prelude.{◌≡◌, ℕ, ◌^◌, ◌<◌, ◌≤◌, length, [], None, IfOk, OnOk, IfSome, Contains, Some, All};
ghost use Rattle.std.specs.Prelude.{MatchOption, slice_get, List as Seq, IsTrue, ◌↔◌};
ghost use Rattle.route_lattice.specs.Walks.{Hop, Opens};
ghost use Rattle.wave_search.specs.declared.rows.Label.{Label as TheLabel};
ghost use Rattle.wave_search.specs.inner.State.{label_at, IsStep};
ghost use Rattle.std.specs.List.Sorted.{IsStrictlyIncreasing};
ghost use Rattle.std.specs.Prelude.{slice_index_or, ◌+◌};
ghost use Rattle.route_lattice.specs.Walks.{NoneCostsLess};
ghost use Rattle.wave_search.specs.inner.State.{IsExact};
ghost use Rattle.wave_search.specs.inner.Passing.{IsMarked, Adds, AreNew, LeadsTo, AddsAll, IsBlankPass, IsPriced};
ghost use Rattle.wave_search.specs.inner.Passing.{EndsAt};
ghost use Rattle.wave_search.specs.Stated.{IsStated};
ghost use Rattle.wave_search.specs.inner.State.{IsFirstGoal};

use crate::bound::Bound;
use crate::front::Front;
use crate::labels::Labels;
use crate::query::{Done, Query};
use crate::rows::Label;
use crate::ties::Ties;
use geo_kernel::List;
use route_lattice::{Move, Moves, Walk};
use std::alloc::{AllocError, Global};

/// The place before a start.
const NO_PLACE: u32 = u32::MAX;

/// Nodes that a pass has come to, in order, for each of them the place of the node before it, and marks on them.
#[derive(Drop)]
pub(crate) struct Pass {
    pub nodes: Vec<u32>,
    pub before: Vec<u32>,
    pub marks: Vec<bool>,
}

/// Whether the node is marked.
fn is_marked(marks: &[bool], node: u32) -> bool
    requires { node < length marks.now }
    ensures { IsTrue result ↔ IsMarked marks.now node }
{
    marks[node as usize]
}

/// The label of a node that is done.
fn done_label(table: &Labels, node: u32) -> Option<Label>
    requires { node < length table.now }
    ensures { MatchOption result ((l : TheLabel) → label_at table.now node ≡ Some l → l.rank ≡ 0)
        (λ l. (label_at table.now node ≡ Some l) × (0 < l.rank)) }
{
    let label = table.get(node)?;
    if label.rank == 0 {
        return None;
    }
    Some(label)
}

/// The node at a place.
fn node_at(nodes: &[u32], k: u32) -> u32
    requires { k < length nodes.now }
    ensures { result ≡ slice_index_or nodes.now k 0 }
{
    nodes[k as usize]
}

/// The nodes, ascending, each once.
fn ascending(alloc: Global, nodes: &[u32]) -> Result<Vec<u32>, AllocError>
    ensures ascend { IfOk result (λ v. IsStrictlyIncreasing v.items) }
    ensures same { IfOk result (λ v. (x : ℕ) → (Contains v.items x ↔ Contains nodes.now x)) }
{
    let mut sorted = Vec::from_slice(alloc, nodes)?;
    sorted.sort_unstable();
    sorted.dedup();
    Ok(sorted)
}

impl Pass {
    /// Adds a node, with the place of the one before it.
    fn add(&mut self, node: u32, place: u32) -> Result<(), AllocError>
        requires { node < length self.old.marks.items }
        ensures { OnOk result (Adds self.old node place self.new) }
    {
        self.nodes.push(node)?;
        self.before.push(place)?;
        self.marks[node as usize] = true;
        Ok(())
    }
}

impl<'a, M: Moves, B: Bound, T: Ties> Query<'a, M, B, T> {
    /// The node that move `i` of a node leads to, where the move is tight and the node isn't marked.
    fn new_over(
        &self,
        table: &Labels,
        marks: &[bool],
        node: u32,
        here: Label,
        i: u32,
    ) -> Option<u32>
        requires size { length table.now ≡ (M.graph self.now.m.now).count }
        requires marks { length marks.now ≡ (M.graph self.now.m.now).count }
        requires node { node < (M.graph self.now.m.now).count }
        requires there { label_at table.now node ≡ Some here }
        requires is_done { 0 < here.rank }
        requires small { here.price < 2 ^ 60 }
        requires index { i < (M.graph self.now.m.now).arity }
        ensures { MatchOption result
            ((v : ℕ) (s : IsStep (M.graph self.now.m.now) table.now node v) → s.tight.hop.index ≡ i
            → IsMarked marks.now v)
            (λ v. LeadsTo (M.graph self.now.m.now) table.now node i marks.now v) }
    {
        let Some((mv, to)) = self.m.at(node, i) else {
            return None;
        };
        if is_marked(marks, to) {
            return None;
        }
        let Some(after) = done_label(table, to) else {
            return None;
        };
        if here.price + self.m.price(node, i) != after.price {
            return None;
        }
        if !self.m.is_open(node, i) {
            return None;
        }
        let _move = mv;
        Some(to)
    }

    /// The nodes that tight moves lead to from a node and that aren't marked, ascending.
    fn new_from(
        &self,
        table: &Labels,
        marks: &[bool],
        node: u32,
        here: Label,
        fresh: &mut Vec<u32>,
    ) -> Result<(), AllocError>
        requires size { length table.now ≡ (M.graph self.now.m.now).count }
        requires marks { length marks.now ≡ (M.graph self.now.m.now).count }
        requires node { node < (M.graph self.now.m.now).count }
        requires there { label_at table.now node ≡ Some here }
        requires is_done { 0 < here.rank }
        requires small { here.price < 2 ^ 60 }
        ensures { OnOk result (AreNew (M.graph self.now.m.now) table.now marks.now node fresh.new.items) }
    {
        fresh.clear();
        for i in 0..self.m.arity() {
            if let Some(to) = self.new_over(table, marks, node, here, i) {
                fresh.push(to)?;
            }
        }
        fresh.sort_unstable();
        fresh.dedup();
        Ok(())
    }
}

impl Pass {
    /// No nodes, and room for marks on so many.
    fn new(alloc: Global, count: u32) -> Result<Pass, AllocError>
        ensures { IfOk result (IsBlankPass count) }
    {
        let marks = vec![in alloc; false; count as usize]?;
        Ok(Pass {
            nodes: Vec::new(alloc),
            before: Vec::new(alloc),
            marks,
        })
    }

    /// Adds the nodes, each with the place of the one before it.
    fn add_all(&mut self, fresh: &[u32], place: u32) -> Result<(), AllocError>
        requires { All (λ v. v < length self.old.marks.items) fresh.now }
        ensures { OnOk result (AddsAll self.old fresh.now place self.new) }
    {
        for v in fresh {
            self.add(*v, place)?;
        }
        Ok(())
    }
}

impl<'a, M: Moves, B: Bound, T: Ties> Query<'a, M, B, T> {
    /// Whether the node is a goal that is done at the price.
    fn ends_at(&self, table: &Labels, node: u32, price: u64) -> bool
        requires size { node < length table.now }
        ensures { IsTrue result ↔ (Contains self.now.goals.now node × IsPriced table.now node price) }
    {
        let Some(label) = done_label(table, node) else {
            return false;
        };
        label.price == price && self.goals.has(node)
    }

    /// The nodes that tight moves lead to from a node, if it is done, and that aren't marked, ascending.
    fn new_beyond(
        &self,
        table: &Labels,
        marks: &[bool],
        node: u32,
        fresh: &mut Vec<u32>,
    ) -> Result<(), AllocError>
        requires size { length table.now ≡ (M.graph self.now.m.now).count }
        requires marks { length marks.now ≡ (M.graph self.now.m.now).count }
        requires node { node < (M.graph self.now.m.now).count }
        requires small { (v : ℕ) (l : TheLabel) → label_at table.now v ≡ Some l → l.price < 2 ^ 60 }
        ensures { OnOk result (AreNew (M.graph self.now.m.now) table.now marks.now node fresh.new.items) }
    {
        let Some(here) = done_label(table, node) else {
            fresh.clear();
            return Ok(());
        };
        self.new_from(table, marks, node, here, fresh)
    }

    /// Goes over tight moves from the starts until it comes to a goal at the price, and gives its place.
    fn pass_to(
        &self,
        alloc: Global,
        table: &Labels,
        pass: &mut Pass,
        price: u64,
    ) -> Result<u32, AllocError>
        requires exact { IsExact (M.graph self.now.m.now) self.now.starts.now (B.low_of self.now.b.now) table.now
            price }
        requires small { (v : ℕ) (l : TheLabel) → label_at table.now v ≡ Some l → l.price < 2 ^ 60 }
        requires none_less { NoneCostsLess (M.graph self.now.m.now) self.now.starts.now self.now.goals.now price }
        requires goal { (g : ℕ) × Contains self.now.goals.now g × IsPriced table.now g price }
        requires blank { IsBlankPass (M.graph self.now.m.now).count pass.old }
        ensures { IfOk result
            (EndsAt (M.graph self.now.m.now) self.now.starts.now self.now.goals.now table.now price pass.new) }
    {
        let roots = ascending(alloc, self.starts.as_slice())?;
        pass.add_all(roots.as_slice(), NO_PLACE)?;
        let mut fresh = Vec::new(alloc);
        let mut k: u32 = 0;
        'pass: while (k as usize) < pass.nodes.len() {
            let node = node_at(pass.nodes.as_slice(), k);
            if self.ends_at(table, node, price) {
                return Ok(k);
            }
            self.new_beyond(table, pass.marks.as_slice(), node, &mut fresh)?;
            pass.add_all(fresh.as_slice(), k)?;
            k += 1;
        }
        unreachable!()
    }
}

impl<'a, M: Moves, B: Bound, T: Ties> Query<'a, M, B, T> {
    /// Adds the nodes and the moves of the walk that a pass ended at a place.
    fn lay(
        &self,
        table: &Labels,
        pass: &Pass,
        place: u32,
        price: u64,
        nodes: &mut Vec<u32>,
        moves: &mut Vec<Move>,
    ) -> Result<(), AllocError>
        requires exact { IsExact (M.graph self.now.m.now) self.now.starts.now (B.low_of self.now.b.now) table.now
            price }
        requires small { (v : ℕ) (l : TheLabel) → label_at table.now v ≡ Some l → l.price < 2 ^ 60 }
        requires none_less { NoneCostsLess (M.graph self.now.m.now) self.now.starts.now self.now.goals.now price }
        requires price { price < 2 ^ 60 }
        requires ends { EndsAt (M.graph self.now.m.now) self.now.starts.now self.now.goals.now table.now price pass.now
            place }
        requires no_nodes { nodes.old.items ≡ [] }
        requires no_moves { moves.old.items ≡ [] }
        ensures { OnOk result (IsStated (M.graph self.now.m.now) self.now.starts.now self.now.goals.now
            (record { nodes = nodes.new.items; moves = moves.new.items; price = price })) }
    {
        let mut at = place;
        let mut node = node_at(pass.nodes.as_slice(), at);
        nodes.push(node)?;
        'back: while node_at(pass.before.as_slice(), at) != NO_PLACE {
            at = node_at(pass.before.as_slice(), at);
            let from = node_at(pass.nodes.as_slice(), at);
            let Some(before) = done_label(table, from) else {
                unreachable!();
            };
            let Some(after) = done_label(table, node) else {
                unreachable!();
            };
            let Some(mv) = self.tight_to(from, before.price, node, after.price) else {
                unreachable!();
            };
            moves.push(mv)?;
            node = from;
            nodes.push(node)?;
        }
        nodes.reverse();
        moves.reverse();
        Ok(())
    }

    /// The stated walk, from a goal that was done last.
    pub(crate) fn stated_end(
        &self,
        alloc: Global,
        table: &mut Labels,
        front: &mut Front,
        order: &mut Vec<u32>,
        goal: Done,
    ) -> Result<Walk, AllocError>
        requires first { IsFirstGoal (M.graph self.now.m.now) self.now.starts.now self.now.goals.now
            (B.low_of self.now.b.now) table.old front.old goal.node goal.label }
        ensures stated { IfOk result (IsStated (M.graph self.now.m.now) self.now.starts.now self.now.goals.now) }
        ensures size { length table.new ≡ length table.old }
    {
        self.settle_rest(alloc, table, front, order, goal)?;
        let mut pass = Pass::new(alloc, self.m.count())?;
        let place = self.pass_to(alloc, table, &mut pass, goal.label.price)?;
        let mut nodes = Vec::new(alloc);
        let mut moves = Vec::new(alloc);
        self.lay(
            table,
            &pass,
            place,
            goal.label.price,
            &mut nodes,
            &mut moves,
        )?;
        Ok(Walk {
            nodes: List::from_vec(nodes),
            moves: List::from_vec(moves),
            price: goal.label.price,
        })
    }
}
