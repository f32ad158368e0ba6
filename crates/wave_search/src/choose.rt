//! The pass of a rule of ties over the nodes that a search has done, from the goals back to the starts over tight
//! moves.
//! Nodes are looked at in falling order of rank, so that all ways on from a node are known when it is its turn.

ghost use Rattle.std.specs.Prelude.{◌≡◌, ℕ, ◌^◌, ◌<◌, length, Some};
ghost use Rattle.wave_search.specs.declared.rows.Label.{Label as TheLabel};
ghost use Rattle.wave_search.specs.inner.State.{label_at};

use crate::bound::Bound;
use crate::choices::{Choices, MOST, NO_NODE, NO_WAY, Way, Ways};
use crate::labels::Labels;
use crate::query::{Done, Query};
use crate::rows::Label;
use crate::ties::{Heading, Ties, heading_of};
use route_lattice::{Move, Moves};
use std::alloc::AllocError;

/// Whether the first label was done before the second.
fn is_before(first: Label, second: Label) -> bool {
    0 < first.rank && first.rank < second.rank
}

/// Whether a pass asks of each move if it is open, or takes it to be: a walk that it leads to is asked of in any case.
#[derive(Clone, Copy)]
pub(crate) enum Openness {
    Taken,
    Asked,
}

impl<'a, M: Moves, B: Bound, T: Ties> Query<'a, M, B, T> {
    /// What a move and the way of a heading behind it cost by the rule; no way costs as much as none.
    fn cost_over(&self, node: u32, m: Move, price: u64, heading: Heading, way: Way) -> u32 {
        if way.cost == NO_WAY {
            return NO_WAY;
        }
        let sum = self
            .ties
            .cost(node, m, price, heading)
            .saturating_add(way.cost as u64);
        if sum < MOST as u64 { sum as u32 } else { MOST }
    }

    /// The way on over a tight move, and then on by the way of a heading that makes it the best, of equal ones the
    /// first.
    fn way_over(&self, ways: Ways, from: Done, m: Move, to: Done) -> Way {
        let price = to.label.price.saturating_sub(from.label.price);
        let across = self.cost_over(from.node, m, price, Heading::Across, ways.across);
        let up = self.cost_over(from.node, m, price, Heading::Up, ways.up);
        let elsewhere = self.cost_over(from.node, m, price, Heading::Elsewhere, ways.elsewhere);
        let mut then = Heading::Across;
        let mut cost = across;
        if up < cost {
            then = Heading::Up;
            cost = up;
        }
        if elsewhere < cost {
            then = Heading::Elsewhere;
            cost = elsewhere;
        }
        Way {
            to: to.node,
            then,
            cost,
        }
    }

    /// The first move from one node to another; move `guess` is tried before all.
    fn first_to(&self, from: u32, to: u32, guess: u32) -> Option<Move>
        requires node { from < (M.graph self.now.m.now).count }
    {
        if guess < self.m.arity()
            && let Some((m, there)) = self.m.at(from, guess)
            && there == to
        {
            return Some(m);
        }
        for i in 0..self.m.arity() {
            if let Some((m, there)) = self.m.at(from, i)
                && there == to
            {
                return Some(m);
            }
        }
        None
    }

    /// The ways on from a node over a move to one that was done after it at a price that the move may make up.
    fn choose_from(
        &self,
        choices: &mut Choices,
        from: Done,
        to: Done,
        guess: u32,
        openness: Openness,
    ) -> Result<(), AllocError>
        requires node { from.node < (M.graph self.now.m.now).count }
        requires small { from.label.price < 2 ^ 60 }
    {
        let found = match openness {
            Openness::Taken => self.first_to(from.node, to.node, guess),
            Openness::Asked => self.tight_to(from.node, from.label.price, to.node, to.label.price),
        };
        let Some(m) = found else {
            return Ok(());
        };
        let Some(ways) = choices.ways(to.label.rank) else {
            return Ok(());
        };
        let way = self.way_over(ways, from, m, to);
        choices.offer(from.label.rank, heading_of(m), way)
    }

    /// The ways on from the node to which move `i` leads back. On a lattice moves lead both ways at one price;
    /// where they don't, ways are missed, and the walk is one that costs more by the rule of ties. The node that the
    /// label came from is known to lead on.
    fn choose_over(
        &self,
        table: &Labels,
        choices: &mut Choices,
        to: Done,
        i: u32,
        openness: Openness,
    ) -> Result<(), AllocError>
        requires size { length table.now ≡ (M.graph self.now.m.now).count }
        requires small { (v : ℕ) (l : TheLabel) → label_at table.now v ≡ Some l → l.price < 2 ^ 60 }
        requires node { to.node < (M.graph self.now.m.now).count }
        requires index { i < (M.graph self.now.m.now).arity }
    {
        let Some((_, node)) = self.m.at(to.node, i) else {
            return Ok(());
        };
        let Some(label) = table.get(node) else {
            return Ok(());
        };
        if !is_before(label, to.label) {
            return Ok(());
        }
        let from = Done { node, label };
        if to.label.origin == Some(node) {
            return self.choose_from(choices, from, to, i ^ 1, Openness::Taken);
        }
        if label.price.saturating_add(self.m.price(to.node, i)) != to.label.price {
            return Ok(());
        }
        self.choose_from(choices, from, to, i ^ 1, openness)
    }

    /// The goals that are done at the price: walks end there.
    fn choose_ends(
        &self,
        table: &Labels,
        choices: &mut Choices,
        price: u64,
    ) -> Result<(), AllocError>
        requires size { length table.now ≡ (M.graph self.now.m.now).count }
    {
        for goal in self.goals.as_slice() {
            if let Some(label) = self.label_after(table, 0, *goal)
                && label.price == price
            {
                let end = Way {
                    to: NO_NODE,
                    then: Heading::Elsewhere,
                    cost: 0,
                };
                choices.offer(label.rank, Heading::Elsewhere, end)?;
            }
        }
        Ok(())
    }

    /// The ways on from the nodes before a node that has ways on itself.
    fn choose_at(
        &self,
        table: &Labels,
        choices: &mut Choices,
        node: u32,
        openness: Openness,
    ) -> Result<(), AllocError>
        requires size { length table.now ≡ (M.graph self.now.m.now).count }
        requires small { (v : ℕ) (l : TheLabel) → label_at table.now v ≡ Some l → l.price < 2 ^ 60 }
    {
        let Some(label) = self.label_after(table, 0, node) else {
            return Ok(());
        };
        if label.origin.is_none() {
            choices.start_by(node, label.rank, Heading::Across);
            choices.start_by(node, label.rank, Heading::Up);
            choices.start_by(node, label.rank, Heading::Elsewhere);
            return Ok(());
        }
        let to = Done { node, label };
        for i in 0..self.m.arity() {
            self.choose_over(table, choices, to, i, openness)?;
        }
        Ok(())
    }

    /// Adds the ways on from the nodes that are done, which are given in the order in which they were, to goals at the
    /// price.
    pub(crate) fn choose(
        &self,
        table: &Labels,
        choices: &mut Choices,
        order: &[u32],
        price: u64,
        openness: Openness,
    ) -> Result<(), AllocError>
        requires size { length table.now ≡ (M.graph self.now.m.now).count }
        requires small { (v : ℕ) (l : TheLabel) → label_at table.now v ≡ Some l → l.price < 2 ^ 60 }
    {
        self.choose_ends(table, choices, price)?;
        for k in (0..order.len()).rev() {
            if choices.has(k + 1) {
                self.choose_at(table, choices, order[k], openness)?;
            }
        }
        Ok(())
    }
}
