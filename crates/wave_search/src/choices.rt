//! The ways on from nodes to a goal that a rule of ties chooses among, with what each costs by the rule.
//! They only advise a trace, which checks each move: so they have no contracts but that they are safe.

use crate::ties::Heading;
use std::alloc::{AllocError, Global};

/// The slot of a rank without ways.
const NO_SLOT: u32 = u32::MAX;

/// Where the way of a goal leads.
pub(crate) const NO_NODE: u32 = u32::MAX;

/// The cost of no way.
pub(crate) const NO_WAY: u32 = u32::MAX;

/// The greatest cost that is kept.
pub(crate) const MOST: u32 = u32::MAX - 1;

/// A way on from a node to a goal: the node that its first move leads to, the heading there, and its cost by the rule.
#[derive(Clone, Copy)]
pub(crate) struct Way {
    pub to: u32,
    pub then: Heading,
    pub cost: u32,
}

/// The best ways on from a node, one of each heading.
#[derive(Clone, Copy)]
pub(crate) struct Ways {
    pub across: Way,
    pub up: Way,
    pub elsewhere: Way,
}

/// A start and the heading of its best way.
#[derive(Clone, Copy)]
pub(crate) struct Start {
    pub node: u32,
    pub heading: Heading,
}

/// For each node that is done, by its rank, the best way on of each heading: 4 bytes a node, and 36 more where
/// there are ways.
#[derive(Drop)]
pub(crate) struct Choices {
    slots: Vec<u32>,
    ways: Vec<Ways>,
    /// Where a walk begins, if any way on leads from a start.
    pub start: Option<Start>,
    start_cost: u32,
}

/// No ways.
fn no_ways() -> Ways {
    let none = Way {
        to: NO_NODE,
        then: Heading::Elsewhere,
        cost: NO_WAY,
    };
    Ways {
        across: none,
        up: none,
        elsewhere: none,
    }
}

/// The way that costs less, of equal ones the first.
fn better_of(first: Way, second: Way) -> Way {
    if second.cost < first.cost {
        second
    } else {
        first
    }
}

impl Choices {
    /// No ways, for ranks up to `done`.
    pub(crate) fn new(alloc: Global, done: usize) -> Result<Choices, AllocError> {
        Ok(Choices {
            slots: vec![in alloc; NO_SLOT; done.saturating_add(1)]?,
            ways: Vec::new(alloc),
            start: None,
            start_cost: NO_WAY,
        })
    }

    fn slot(&self, rank: usize) -> u32 {
        self.slots.get(rank).copied().unwrap_or(NO_SLOT)
    }

    /// Whether the node of that rank has any way on.
    pub(crate) fn has(&self, rank: usize) -> bool {
        self.slot(rank) != NO_SLOT
    }

    /// The best ways on from the node of that rank.
    pub(crate) fn ways(&self, rank: u32) -> Option<Ways> {
        self.ways.get(self.slot(rank as usize) as usize).copied()
    }

    /// The best way on of a heading from the node of that rank.
    pub(crate) fn way(&self, rank: u32, heading: Heading) -> Option<Way> {
        let ways = self.ways(rank)?;
        let way = match heading {
            Heading::Across => ways.across,
            Heading::Up => ways.up,
            Heading::Elsewhere => ways.elsewhere,
        };
        if way.cost == NO_WAY {
            return None;
        }
        Some(way)
    }

    /// The way on of a heading from the node of that rank, if it has a move.
    pub(crate) fn on(&self, rank: u32, heading: Heading) -> Option<Way> {
        let way = self.way(rank, heading)?;
        if way.to == NO_NODE {
            return None;
        }
        Some(way)
    }

    /// A way on of that heading from the node of that rank, which is kept if it is the best.
    pub(crate) fn offer(
        &mut self,
        rank: u32,
        heading: Heading,
        way: Way,
    ) -> Result<(), AllocError> {
        let mut slot = self.slot(rank as usize);
        if slot == NO_SLOT {
            slot = u32::try_from(self.ways.len()).unwrap_or(NO_SLOT);
            self.ways.push(no_ways())?;
            if let Some(place) = self.slots.get_mut(rank as usize) {
                *place = slot;
            }
        }
        if let Some(kept) = self.ways.get_mut(slot as usize) {
            match heading {
                Heading::Across => kept.across = better_of(kept.across, way),
                Heading::Up => kept.up = better_of(kept.up, way),
                Heading::Elsewhere => kept.elsewhere = better_of(kept.elsewhere, way),
            }
        }
        Ok(())
    }

    /// A start, whose way on of that heading is known by now.
    pub(crate) fn start_by(&mut self, node: u32, rank: u32, heading: Heading) {
        if let Some(way) = self.way(rank, heading)
            && way.cost < self.start_cost
        {
            self.start = Some(Start { node, heading });
            self.start_cost = way.cost;
        }
    }
}
