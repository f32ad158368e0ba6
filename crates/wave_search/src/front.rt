//! The front of a search: entries that wait, of which one with the least key comes out first.
//! Contracts see it as a list of entries of which only membership is told.

ghost use Rattle.std.specs.Prelude.{◌≡◌, ◌++◌, [], OnOk, OnErr, IfOk, MatchOption};
ghost use Rattle.std.specs.Bool.{OnTrue};
ghost use Rattle.wave_search.specs.inner.Waiting.{IsAdded, IsTaken, IsSame};
ghost use Rattle.wave_search.specs.inner.Order.{entry_of, entries_of, IsOrdered};
ghost use Rattle.wave_search.specs.inner.Ready.{IsReady, all_of};

use crate::bins::{Bin, Waiting};
use std::alloc::{AllocError, Global};
use std::cmp::Reverse;
use std::collections::BinaryHeap;
use std::marker::Model;

/// A node that waits under a key.
#[derive(Clone, Copy)]
pub(crate) struct Entry {
    pub key: u64,
    pub node: u32,
}

/// How many of a key's lowest bits don't tell apart what lies in the heap.
const NEAR: u32 = 16;

/// The same of the first bin.
const NEXT: u32 = 19;

/// The same of the second bin.
const LATER: u32 = 22;

/// The entries that wait: in a heap those near the key at which it was filled last, or below it, and in bins all
/// others, by the bits in which their key differs from that one. The spare bin holds those that are being moved.
struct Bins {
    at: u64,
    near: BinaryHeap<Reverse<Waiting>>,
    next: Bin,
    later: Bin,
    last: Bin,
    spare: Bin,
}

// Let go by a call, where a derived `Drop` would let go field by field in each function that owns them.
impl Drop for Bins {
    fn drop(self) {
        let Bins {
            at: _,
            near: _,
            next: _,
            later: _,
            last: _,
            spare: _,
        } = self;
    }
}

/// Takes the top of the heap.
fn take_top(near: &mut BinaryHeap<Reverse<Waiting>>) -> Option<Waiting>
    requires ordered { IsOrdered near.old }
    ensures ordered { IsOrdered near.new }
    ensures top { MatchOption result ((entries_of near.old ≡ []) × (entries_of near.new ≡ []))
        (λ i. IsTaken (entries_of near.old) (entry_of i) (entries_of near.new)) }
{
    let Some(Reverse(item)) = near.pop() else {
        return None;
    };
    Some(item)
}

/// Moves all of a bin into the heap.
fn empty_into(near: &mut BinaryHeap<Reverse<Waiting>>, bin: &mut Bin) -> Result<(), AllocError>
    requires ordered { IsOrdered near.old }
    ensures ordered { IsOrdered near.new }
    ensures empty { OnOk result (bin.new ≡ []) }
    ensures same { OnOk result (IsSame (entries_of near.old ++ bin.old) (entries_of near.new)) }
{
    while let Some(item) = bin.pop() {
        near.push(Reverse(item))?;
    }
    Ok(())
}

impl Bins {
    /// Whether the heap has an entry whose key is below all that isn't in it.
    fn is_ready(&self) -> bool
        ensures { OnTrue result (IsReady self.now) }
    {
        let first = self.next.least().min(self.later.least());
        let second = self.last.least().min(self.spare.least());
        let least = first.min(second);
        let Some(top) = self.near.peek() else {
            return false;
        };
        if top.0.key < least {
            return true;
        }
        false
    }

    /// Puts an item where its key has it lie.
    fn place(&mut self, item: Waiting) -> Result<(), AllocError>
        requires ordered { IsOrdered self.old.near }
        ensures ordered { IsOrdered self.new.near }
        ensures ok { OnOk result (IsAdded (all_of self.old) (entry_of item) (all_of self.new)) }
        ensures err { OnErr result (all_of self.new ≡ all_of self.old) }
        ensures spare { self.new.spare ≡ self.old.spare }
    {
        if item.key >> NEAR <= self.at >> NEAR {
            self.near.push(Reverse(item))?;
            Ok(())
        } else if item.key >> NEXT == self.at >> NEXT {
            self.next.push(item)
        } else if item.key >> LATER == self.at >> LATER {
            self.later.push(item)
        } else {
            self.last.push(item)
        }
    }

    /// Has the first bin that isn't empty change places with the spare one.
    fn take_first(&mut self)
        ensures near { self.new.near ≡ self.old.near }
        ensures same { IsSame (all_of self.old) (all_of self.new) }
    {
        if !self.next.is_empty() {
            std::mem::swap(&mut self.next, &mut self.spare);
        } else if !self.later.is_empty() {
            std::mem::swap(&mut self.later, &mut self.spare);
        } else {
            std::mem::swap(&mut self.last, &mut self.spare);
        }
    }

    /// Fills the heap with what comes next.
    fn refill(&mut self) -> Result<(), AllocError>
        requires ordered { IsOrdered self.old.near }
        ensures ordered { IsOrdered self.new.near }
        ensures same { OnOk result (IsSame (all_of self.old) (all_of self.new)) }
    {
        self.take_first();
        self.at = self.spare.least();
        while let Some(item) = self.spare.pop() {
            self.place(item)?;
        }
        Ok(())
    }

    /// Moves all into the heap.
    fn gather(&mut self) -> Result<(), AllocError>
        requires ordered { IsOrdered self.old.near }
        ensures ordered { IsOrdered self.new.near }
        ensures ready { OnOk result (IsReady self.new) }
        ensures same { OnOk result (IsSame (all_of self.old) (all_of self.new)) }
    {
        empty_into(&mut self.near, &mut self.next)?;
        empty_into(&mut self.near, &mut self.later)?;
        empty_into(&mut self.near, &mut self.last)?;
        empty_into(&mut self.near, &mut self.spare)?;
        Ok(())
    }

    /// Has the heap have an entry whose key is the least. Where keys don't fall, one filling suffices.
    fn make_ready(&mut self) -> Result<(), AllocError>
        requires ordered { IsOrdered self.old.near }
        ensures ordered { IsOrdered self.new.near }
        ensures ready { OnOk result (IsReady self.new) }
        ensures same { OnOk result (IsSame (all_of self.old) (all_of self.new)) }
    {
        if self.is_ready() {
            return Ok(());
        }
        self.refill()?;
        if self.is_ready() {
            return Ok(());
        }
        self.gather()
    }
}

/// The entries that wait.
#[derive(Drop)]
pub(crate) struct Front {
    bins: Bins,
}

impl Model for Front {
    ghost use Rattle.std.specs.Prelude.{List};
    ghost use Rattle.wave_search.specs.declared.front.Entry.{Entry};
    ghost use Rattle.wave_search.specs.inner.Order.{IsOrdered};
    ghost use Rattle.wave_search.specs.inner.Ready.{all_of};

    ghost Value = { List Entry };

    ghost view = { λ f. all_of f.bins };

    ghost invariant = { λ f. IsOrdered f.bins.near };
}

impl Front {
    /// The empty front; it takes no memory.
    pub(crate) fn new(alloc: Global) -> Front
        ensures { result ≡ [] }
    {
        Front {
            bins: Bins {
                at: 0,
                near: BinaryHeap::new(alloc),
                next: Bin::new(alloc),
                later: Bin::new(alloc),
                last: Bin::new(alloc),
                spare: Bin::new(alloc),
            },
        }
    }

    /// Lets an entry wait, before those of its key that have a greater order; orders above 2^32 are one.
    pub(crate) fn push(&mut self, e: Entry, order: u64) -> Result<(), AllocError>
        ensures ok { OnOk result (IsAdded self.old e self.new) }
        ensures err { OnErr result (self.new ≡ self.old) }
    {
        self.bins.place(Waiting {
            key: e.key,
            order: u32::try_from(order).unwrap_or(u32::MAX),
            node: e.node,
        })
    }

    /// Takes an entry with the least key.
    pub(crate) fn pop(&mut self) -> Result<Option<Entry>, AllocError>
        ensures { IfOk result (λ o. MatchOption o ((self.old ≡ []) × (self.new ≡ []))
            (λ e. IsTaken self.old e self.new)) }
    {
        self.bins.make_ready()?;
        let Some(item) = take_top(&mut self.bins.near) else {
            return Ok(None);
        };
        Ok(Some(Entry {
            key: item.key,
            node: item.node,
        }))
    }
}
