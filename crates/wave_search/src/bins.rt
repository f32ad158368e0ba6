//! Bins of items that wait in no order, each with a bound from below on its keys.
//! What lies in a bin needn't be compared before its bound is reached.

ghost use Rattle.std.specs.Prelude.{◌≡◌, ◌≤◌, [], OnOk, OnErr, MatchOption};
ghost use Rattle.wave_search.specs.declared.front.Entry.{Entry as OneEntry};
ghost use Rattle.wave_search.specs.inner.Waiting.{Waits, IsAdded, IsDrawn};
ghost use Rattle.wave_search.specs.inner.Order.{entry_of};

use std::alloc::{AllocError, Global};
use std::marker::Model;

/// An entry as it is kept, in 16 bytes: of equal keys the least in order comes first.
#[derive(Clone, Copy, PartialEq, Eq, PartialOrd, Ord)]
pub(crate) struct Waiting {
    pub key: u64,
    pub order: u32,
    pub node: u32,
}

/// Items in no order.
#[derive(Drop)]
pub(crate) struct Bin {
    least: u64,
    items: Vec<Waiting>,
}

impl Model for Bin {
    ghost use Rattle.std.specs.Prelude.{List};
    ghost use Rattle.wave_search.specs.declared.front.Entry.{Entry};
    ghost use Rattle.wave_search.specs.inner.Order.{entries_in, IsBounded};

    ghost Value = { List Entry };

    ghost view = { λ b. entries_in b.items.items };

    ghost invariant = { λ b. IsBounded b.least (entries_in b.items.items) };
}

impl Bin {
    /// The empty bin; it takes no memory.
    pub(crate) fn new(alloc: Global) -> Bin
        ensures { result ≡ [] }
    {
        Bin {
            least: u64::MAX,
            items: Vec::new(alloc),
        }
    }

    /// A bound from below on the keys.
    pub(crate) fn least(&self) -> u64
        ensures { (e : OneEntry) → Waits self.now e → result ≤ e.key }
    {
        self.least
    }

    /// Whether there is nothing in it.
    pub(crate) fn is_empty(&self) -> bool {
        self.items.is_empty()
    }

    /// Puts an item into it.
    pub(crate) fn push(&mut self, item: Waiting) -> Result<(), AllocError>
        ensures ok { OnOk result (IsAdded self.old (entry_of item) self.new) }
        ensures err { OnErr result (self.new ≡ self.old) }
    {
        self.items.push(item)?;
        self.least = self.least.min(item.key);
        Ok(())
    }

    /// Takes any item out of it.
    pub(crate) fn pop(&mut self) -> Option<Waiting>
        ensures { MatchOption result ((self.old ≡ []) × (self.new ≡ [])) (λ i. IsDrawn self.old (entry_of i) self.new) }
    {
        let Some(item) = self.items.pop() else {
            self.least = u64::MAX;
            return None;
        };
        Some(item)
    }
}
