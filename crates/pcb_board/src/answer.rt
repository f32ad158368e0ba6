//! What a board answers to offers, and the entries of its history.
//! A call that finds no memory hands back what it was asked.

use board_offers::Offer;
use geo_kernel::List;
use std::alloc::AllocError;

/// What a board answers to an offer.
#[derive(Clone, Copy, PartialEq, Eq)]
pub enum Answer {
    /// The offer is taken, and its entry has this number; entries count from 1.
    Committed { number: u64 },
    /// At this id, the least such, the board stands in the offer's way. The entry of the number `commit`, which came
    /// after the offer's base, removed the item or placed it.
    Stale { item: u64, commit: u64 },
    /// The same, but that entry isn't after the offer's base; 0 is the start.
    Wrong { item: u64, commit: u64 },
    /// The offer breaks a rule that has nothing to do with what is on the board now. The first such clause, of nine:
    ///
    /// 1. the base is above the number of entries, or the worker above 16;
    /// 2. the net isn't in the design, `from` equals `to`, or one of them was never given to an item of the net;
    /// 3. nothing is added, or something that isn't a wire of the net's width on a signal layer, with two points or
    ///    more, or a via of the net's list; or a coordinate passes 2^29 nm;
    /// 4. the added items don't lead from `from` to `to`, each touching the next;
    /// 5. an added item isn't inside every boundary;
    /// 6. items are ripped and others shoved, or one twice;
    /// 7. a ripped id was never given, is fixed, is of the net, or agrees with every added item;
    /// 8. a shoved id likewise, or it isn't a wire; or its new chain has fewer than two points, a coordinate past
    ///    2^29 nm, or isn't inside;
    /// 9. two new items disagree.
    Malformed { clause: u8 },
    /// A worker made the offer, and as many entries of workers stand as may.
    Full,
}

/// An offer for which memory was wanting.
#[derive(Drop)]
pub struct OfferBack {
    pub offer: Offer,
    pub cause: AllocError,
}

/// An entry of a board's history. Entries are numbered from 1; the board after no entry is the start.
#[derive(Drop)]
pub enum Entry {
    /// An offer that was taken. The ids of its new items begin with `first` and end before `after`: those of what it
    /// adds, and behind them those of the replacements of what it shoves.
    Join {
        offer: Offer,
        first: u64,
        after: u64,
    },
    /// The items became those after the first `to` entries, with their ids.
    Back {
        to: u64,
    },
}

/// Why a board didn't go back.
#[derive(Drop)]
pub enum BackFault {
    /// There are only so many entries.
    Later { entries: u64 },
    /// Memory was wanting.
    Memory(AllocError),
}

/// Offers for which memory was wanting, and the answers to those before them.
#[derive(Drop)]
pub struct RunBack {
    pub done: List<Answer>,
    pub left: List<Offer>,
    pub cause: AllocError,
}
