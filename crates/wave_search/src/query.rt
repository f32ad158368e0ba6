//! The steps of a search over a table of labels and a front of nodes that wait.
//! A node is done once it comes out of the front; its price is then the least.

ghost use Rattle.std.specs.Prelude.{◌≡◌, ℕ, ◌+◌, ◌*◌, ◌^◌, ◌<◌, ◌≤◌, ◌↔◌, length, [], OnOk, IfOk, IfSome, Contains};
ghost use Rattle.std.specs.Prelude.{Some, None, All, MatchOption};
ghost use Rattle.std.specs.Bool.{OnTrue, OnFalse};
ghost use Rattle.std.proofs.Props.{props};
ghost use Rattle.route_lattice.specs.Walks.{IsSound, IsWalk, Answers};
ghost use Rattle.wave_search.specs.Bounds.{IsBound};
ghost use Rattle.wave_search.specs.declared.rows.Label.{Label as TheLabel};
ghost use Rattle.wave_search.specs.inner.State.{label_at, done_count, improves_on, is_done_by, KeepsDone, Roots};
ghost use Rattle.wave_search.specs.inner.State.{IsState};
ghost use Rattle.wave_search.specs.inner.State.{IsPut, entry, IsExact};
ghost use Rattle.wave_search.specs.inner.State.{IsListed, IsExhausted, IsFirstGoal};
ghost use Rattle.wave_search.specs.inner.Waiting.{IsAdded};
ghost use Rattle.wave_search.specs.Stated.{AnswersStated};

use crate::bound::Bound;
use crate::choices::Choices;
use crate::choose::Openness;
use crate::front::{Entry, Front};
use crate::labels::Labels;
use crate::marks::Goals;
use crate::ready::ReadyMoves;
use crate::rows::Label;
use crate::ties::Ties;
use geo_kernel::List;
use route_lattice::{Found, Moves, Reach, Walk};
use std::alloc::{AllocError, Global};

/// Whether the price is below that of the label.
fn improves(price: u64, old: Option<Label>) -> bool
    ensures { result ≡ improves_on price old }
{
    match old {
        None => true,
        Some(label) => price < label.price,
    }
}

/// Whether the label is of a node that is done.
fn is_done(old: Option<Label>) -> bool
    ensures { result ≡ is_done_by old }
{
    match old {
        None => false,
        Some(label) => label.rank > 0,
    }
}

/// The label of a node that isn't done; None where it is done.
fn waiting(table: &Labels, node: u32) -> Option<Label>
    requires node { node < length table.now }
    requires there { (l : TheLabel) × (label_at table.now node ≡ Some l) }
    ensures { MatchOption result ((l : TheLabel) → label_at table.now node ≡ Some l → l.rank ≡ 0 → ⊥)
        (λ l. (label_at table.now node ≡ Some l) × (l.rank ≡ 0)) }
{
    let Some(label) = table.get(node) else {
        unreachable!();
    };
    if label.rank != 0 {
        return None;
    }
    Some(label)
}

/// Gives a node that is done its label and its place in the order.
fn place(
    table: &mut Labels,
    order: &mut Vec<u32>,
    node: u32,
    label: Label,
) -> Result<(), AllocError>
    requires node { node < length table.old }
    requires price { label.price < 2 ^ 60 }
    requires origin { IfSome label.origin (λ o. o < 2 ^ 25) }
    ensures put { OnOk result (IsPut table.old node label table.new) }
    ensures size { length table.new ≡ length table.old }
{
    table.put(node, label)?;
    order.push(node)?;
    Ok(())
}

/// All nodes that have a label.
fn reach(alloc: Global, table: &Labels) -> Result<Reach, AllocError>
    ensures { IfOk result (λ r. IsListed table.now r.nodes) }
{
    let nodes = table.nodes(alloc)?;
    Ok(Reach {
        nodes: List::from_vec(nodes),
    })
}

/// A node that is done, and its label.
#[derive(Clone, Copy)]
pub(crate) struct Done {
    pub node: u32,
    pub label: Label,
}

/// What is searched for.
#[derive(Drop)]
pub(crate) struct Query<'a, M: Moves, B: Bound, T: Ties> {
    pub m: &'a ReadyMoves<'a, M>,
    pub b: &'a B,
    pub ties: &'a T,
    pub starts: &'a List<u32>,
    pub goals: &'a Goals<'a>,
    ghost sound: { IsSound (M.graph m.now) } by { Prim.hlevel props },
    ghost starts_there: { All (λ s. s < (M.graph m.now).count) starts.now } by { Prim.hlevel props },
    ghost bound: { IsBound (M.graph m.now) goals.now (B.low_of b.now) } by { Prim.hlevel props },
}

impl<'a, M: Moves, B: Bound, T: Ties> Query<'a, M, B, T> {
    /// Gives a node a label, with which it waits. Of nodes that wait under one key the one nearest to the goals comes
    /// first. Where a rule of ties chooses, the one of least price does, so that a node is done after all that come
    /// before it on a least walk.
    fn let_wait(
        &self,
        table: &mut Labels,
        front: &mut Front,
        node: u32,
        label: Label,
    ) -> Result<(), AllocError>
        requires node { node < length table.old }
        requires price { label.price < 2 ^ 62 }
        requires low { B.low_of self.now.b.now node < 2 ^ 62 }
        requires origin { IfSome label.origin (λ o. o < 2 ^ 25) }
        ensures put { OnOk result (IsPut table.old node label table.new) }
        ensures added { OnOk result
            (IsAdded front.old (entry (label.price + B.low_of self.now.b.now node) node) front.new) }
        ensures size { length table.new ≡ length table.old }
    {
        table.put(node, label)?;
        let low = self.b.low(node);
        let key = label.price + low;
        let order = if self.ties.tells() { label.price } else { low };
        front.push(Entry { key, node }, order)
    }

    /// Looks at move `i` of the node, which was done last.
    fn relax_one(
        &self,
        table: &mut Labels,
        front: &mut Front,
        node: u32,
        label: Label,
        i: u32,
    ) -> Result<(), AllocError>
        requires node { node < (M.graph self.now.m.now).count }
        requires index { i < (M.graph self.now.m.now).arity }
        requires there { label_at table.old node ≡ Some label }
        requires is_done { 0 < label.rank }
        requires state { IsState (M.graph self.now.m.now) self.now.starts.now self.now.goals.now
            (B.low_of self.now.b.now) table.old front.old
            (label.price + B.low_of self.now.b.now node) label.rank node i }
        ensures kept { OnOk result (KeepsDone table.old table.new) }
        ensures len { OnOk result (length front.new ≤ length front.old + 1) }
        ensures state { OnOk result
            (IsState (M.graph self.now.m.now) self.now.starts.now self.now.goals.now
            (B.low_of self.now.b.now) table.new front.new (label.price + B.low_of self.now.b.now node) label.rank node
            (i + 1)) }
        ensures size { length table.new ≡ length table.old }
    {
        let Some((_, to)) = self.m.at(node, i) else {
            return Ok(());
        };
        let old = table.get(to);
        if is_done(old) {
            return Ok(());
        }
        let price = label.price + self.m.price(node, i);
        if !improves(price, old) {
            return Ok(());
        }
        if !self.m.is_open(node, i) {
            return Ok(());
        }
        let origin = Some(node);
        self.let_wait(
            table,
            front,
            to,
            Label {
                price,
                rank: 0,
                origin,
            },
        )?;
        Ok(())
    }

    /// Looks at all moves of the node, which was done last.
    fn relax(
        &self,
        table: &mut Labels,
        front: &mut Front,
        node: u32,
        label: Label,
    ) -> Result<(), AllocError>
        requires node { node < (M.graph self.now.m.now).count }
        requires there { label_at table.old node ≡ Some label }
        requires is_done { 0 < label.rank }
        requires state { IsState (M.graph self.now.m.now) self.now.starts.now self.now.goals.now
            (B.low_of self.now.b.now) table.old front.old
            (label.price + B.low_of self.now.b.now node) label.rank node 0 }
        ensures kept { OnOk result (KeepsDone table.old table.new) }
        ensures len { OnOk result (length front.new ≤ length front.old + (M.graph self.now.m.now).arity) }
        ensures state { OnOk result
            (IsState (M.graph self.now.m.now) self.now.starts.now self.now.goals.now
            (B.low_of self.now.b.now) table.new front.new (label.price + B.low_of self.now.b.now node) label.rank node
            (M.graph self.now.m.now).arity) }
        ensures size { length table.new ≡ length table.old }
    {
        for i in 0..self.m.arity() {
            self.relax_one(table, front, node, label, i)?;
        }
        Ok(())
    }

    /// Labels the starts.
    fn seed(&self, table: &mut Labels, front: &mut Front) -> Result<(), AllocError>
        requires size { length table.old ≡ (M.graph self.now.m.now).count }
        requires blank { (v : ℕ) → label_at table.old v ≡ None }
        requires none_done { done_count table.old ≡ 0 }
        requires empty { front.old ≡ [] }
        ensures state { OnOk result
            (IsState (M.graph self.now.m.now) self.now.starts.now self.now.goals.now
            (B.low_of self.now.b.now) table.new front.new 0 0 0 (M.graph self.now.m.now).arity) }
        ensures size { length table.new ≡ length table.old }
    {
        for s in self.starts.as_slice() {
            self.let_wait(
                table,
                front,
                *s,
                Label {
                    price: 0,
                    rank: 0,
                    origin: None,
                },
            )?;
        }
        Ok(())
    }

    /// Goes on from a node that was done last until each node whose key is at most its price is done. No node is a
    /// goal.
    fn settle(
        &self,
        table: &mut Labels,
        front: &mut Front,
        order: &mut Vec<u32>,
        node: u32,
        last: Label,
    ) -> Result<(), AllocError>
        requires no_goals { self.now.goals.now ≡ [] }
        requires there { label_at table.old node ≡ Some last }
        requires is_done { 0 < last.rank }
        requires state { IsState (M.graph self.now.m.now) self.now.starts.now self.now.goals.now
            (B.low_of self.now.b.now) table.old front.old
            (last.price + B.low_of self.now.b.now node) last.rank node 0 }
        ensures kept { OnOk result (KeepsDone table.old table.new) }
        ensures exact { OnOk result (IsExact (M.graph self.now.m.now) self.now.starts.now (B.low_of self.now.b.now)
            table.new last.price) }
        ensures roots { OnOk result (Roots (M.graph self.now.m.now) self.now.starts.now table.new) }
        ensures small { OnOk result ((v : ℕ) (l : TheLabel) → label_at table.new v ≡ Some l → l.price < 2 ^ 60) }
        ensures size { length table.new ≡ length table.old }
    {
        self.relax(table, front, node, last)?;
        let mut finished = last.rank;
        'settle: while let Some(entry) = front.pop()? {
            if entry.key > last.price {
                return Ok(());
            }
            let Some(found) = waiting(table, entry.node) else {
                continue;
            };
            let label = Label {
                price: found.price,
                rank: finished + 1,
                origin: found.origin,
            };
            place(table, order, entry.node, label)?;
            finished += 1;
            self.relax(table, front, entry.node, label)?;
        }
        Ok(())
    }

    /// Goes on from a goal that was done last until all nodes on walks of its price are done.
    pub(crate) fn settle_rest(
        &self,
        alloc: Global,
        table: &mut Labels,
        front: &mut Front,
        order: &mut Vec<u32>,
        goal: Done,
    ) -> Result<(), AllocError>
        requires there { label_at table.old goal.node ≡ Some goal.label }
        requires is_done { 0 < goal.label.rank }
        requires state { IsState (M.graph self.now.m.now) self.now.starts.now []
            (B.low_of self.now.b.now) table.old front.old
            (goal.label.price + B.low_of self.now.b.now goal.node) goal.label.rank goal.node 0 }
        ensures kept { OnOk result (KeepsDone table.old table.new) }
        ensures exact { OnOk result (IsExact (M.graph self.now.m.now) self.now.starts.now (B.low_of self.now.b.now)
            table.new goal.label.price) }
        ensures roots { OnOk result (Roots (M.graph self.now.m.now) self.now.starts.now table.new) }
        ensures small { OnOk result ((v : ℕ) (l : TheLabel) → label_at table.new v ≡ Some l → l.price < 2 ^ 60) }
        ensures size { length table.new ≡ length table.old }
    {
        let empty = List::new(alloc);
        let none = Goals::of(alloc, &empty)?;
        let rest = Query {
            m: self.m,
            b: self.b,
            ties: self.ties,
            starts: self.starts,
            goals: &none,
        };
        rest.settle(table, front, order, goal.node, goal.label)
    }

    /// A walk to a goal at the price that costs little by the rule of ties, if the pass of the rule leads to one.
    fn chosen_walk(
        &self,
        alloc: Global,
        table: &Labels,
        order: &[u32],
        price: u64,
        openness: Openness,
    ) -> Result<Option<Walk>, AllocError>
        requires roots { Roots (M.graph self.now.m.now) self.now.starts.now table.now }
        requires small { (v : ℕ) (l : TheLabel) → label_at table.now v ≡ Some l → l.price < 2 ^ 60 }
        ensures { IfOk result
            (λ o. IfSome o (λ w. IsWalk (M.graph self.now.m.now) self.now.starts.now self.now.goals.now w
            × (w.price ≡ price))) }
    {
        let mut choices = Choices::new(alloc, order.len())?;
        self.choose(table, &mut choices, order, price, openness)?;
        let Some(start) = choices.start else {
            return Ok(None);
        };
        self.follow(alloc, table, &choices, start, price)
    }

    /// The walk to a goal that is done last. Where a rule of ties chooses among walks, the search goes on until all
    /// nodes on them are done. Nearly all moves that the labels allow are open, so a walk is sought as if all were, and
    /// again by asking of each where that one isn't open.
    fn end(
        &self,
        alloc: Global,
        table: &mut Labels,
        front: &mut Front,
        order: &mut Vec<u32>,
        goal: Done,
    ) -> Result<Walk, AllocError>
        requires first { IsFirstGoal (M.graph self.now.m.now) self.now.starts.now self.now.goals.now
            (B.low_of self.now.b.now) table.old front.old goal.node goal.label }
        ensures walk { IfOk result (IsWalk (M.graph self.now.m.now) self.now.starts.now self.now.goals.now) }
        ensures price { IfOk result (λ w. w.price ≡ goal.label.price) }
        ensures size { length table.new ≡ length table.old }
    {
        if !self.ties.tells() {
            return self.trace(alloc, table, goal.node, goal.label);
        }
        self.settle_rest(alloc, table, front, order, goal)?;
        let done = order.as_slice();
        if let Some(walk) = self.chosen_walk(
            alloc,
            table,
            done,
            goal.label.price,
            Openness::Taken,
        )? {
            return Ok(walk);
        }
        if let Some(walk) = self.chosen_walk(
            alloc,
            table,
            done,
            goal.label.price,
            Openness::Asked,
        )? {
            return Ok(walk);
        }
        self.trace(alloc, table, goal.node, goal.label)
    }

    /// Whether the node of an entry, which waited at a price, is a goal. Where the key isn't the price its bound isn't
    /// 0, so it is none.
    fn is_goal(&self, entry: Entry, price: u64) -> bool
        ensures yes { OnTrue result (Contains self.now.goals.now entry.node) }
        ensures no { OnFalse result (entry.key ≡ price → Contains self.now.goals.now entry.node → ⊥) }
    {
        if entry.key != price {
            return false;
        }
        self.goals.has(entry.node)
    }

    /// Makes nodes done until a goal is, which is given with its label; None where no walk leads to a goal. The nodes
    /// that are done are added to the order.
    fn first_goal(
        &self,
        table: &mut Labels,
        front: &mut Front,
        order: &mut Vec<u32>,
    ) -> Result<Option<Done>, AllocError>
        requires size { length table.old ≡ (M.graph self.now.m.now).count }
        requires blank { (v : ℕ) → label_at table.old v ≡ None }
        requires none_done { done_count table.old ≡ 0 }
        requires empty { front.old ≡ [] }
        ensures found { IfOk result (λ o. MatchOption o
            (IsExhausted (M.graph self.now.m.now) self.now.starts.now self.now.goals.now table.new)
            (λ g. IsFirstGoal (M.graph self.now.m.now) self.now.starts.now self.now.goals.now
            (B.low_of self.now.b.now) table.new front.new g.node g.label)) }
        ensures size { length table.new ≡ length table.old }
    {
        self.seed(table, front)?;
        let mut finished: u32 = 0;
        'search: while let Some(entry) = front.pop()? {
            let Some(found) = waiting(table, entry.node) else {
                continue;
            };
            let label = Label {
                price: found.price,
                rank: finished + 1,
                origin: found.origin,
            };
            place(table, order, entry.node, label)?;
            if self.is_goal(entry, label.price) {
                return Ok(Some(Done {
                    node: entry.node,
                    label,
                }));
            }
            finished += 1;
            self.relax(table, front, entry.node, label)?;
        }
        Ok(None)
    }

    /// A least walk, or all that is reached.
    pub(crate) fn run(&self, alloc: Global, table: &mut Labels) -> Result<Found, AllocError>
        requires size { length table.old ≡ (M.graph self.now.m.now).count }
        requires blank { (v : ℕ) → label_at table.old v ≡ None }
        requires none_done { done_count table.old ≡ 0 }
        ensures answers { IfOk result (Answers (M.graph self.now.m.now) self.now.starts.now self.now.goals.now) }
        ensures size { length table.new ≡ length table.old }
    {
        let mut front = Front::new(alloc);
        let mut order = Vec::new(alloc);
        let Some(goal) = self.first_goal(table, &mut front, &mut order)? else {
            let all = reach(alloc, table)?;
            return Ok(Found::Closed(all));
        };
        let walk = self.end(alloc, table, &mut front, &mut order, goal)?;
        Ok(Found::Walk(walk))
    }

    /// The stated walk, or all that is reached.
    pub(crate) fn run_stated(&self, alloc: Global, table: &mut Labels) -> Result<Found, AllocError>
        requires size { length table.old ≡ (M.graph self.now.m.now).count }
        requires blank { (v : ℕ) → label_at table.old v ≡ None }
        requires none_done { done_count table.old ≡ 0 }
        ensures answers { IfOk result (AnswersStated (M.graph self.now.m.now) self.now.starts.now self.now.goals.now) }
        ensures size { length table.new ≡ length table.old }
    {
        let mut front = Front::new(alloc);
        let mut order = Vec::new(alloc);
        let Some(goal) = self.first_goal(table, &mut front, &mut order)? else {
            let all = reach(alloc, table)?;
            return Ok(Found::Closed(all));
        };
        let walk = self.stated_end(alloc, table, &mut front, &mut order, goal)?;
        Ok(Found::Walk(walk))
    }
}
