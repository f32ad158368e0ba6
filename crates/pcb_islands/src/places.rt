//! The places in a list at which numbers stand.
//! Contracts see them as a list of pairs of which only look-ups are told.

ghost use Rattle.std.specs.Prelude.{◌≡◌, [], OnOk};
ghost use Rattle.pcb_islands.specs.inner.Numbers.{place_at, IsPlaced};

use std::alloc::{AllocError, Global};
use std::collections::BTreeMap;
use std::marker::Model;

/// Places of numbers.
#[derive(Drop)]
pub(crate) struct Places {
    places: BTreeMap<u64, usize>,
}

impl Model for Places {
    ghost use Rattle.std.specs.Prelude.{ℕ, List as Seq};

    ghost Value = { Seq (ℕ × ℕ) };

    ghost view = { λ s. s.places.entries };
}

impl Places {
    /// No place of any number; it takes no memory.
    pub(crate) fn new(alloc: Global) -> Places
        ensures { result ≡ [] }
    {
        Places {
            places: BTreeMap::new(alloc),
        }
    }

    /// The place of a number.
    pub(crate) fn get(&self, n: u64) -> Option<usize>
        ensures { result ≡ place_at self.now n }
    {
        self.places.get(&n).copied()
    }

    /// Gives a number its place.
    pub(crate) fn set(&mut self, n: u64, place: usize) -> Result<(), AllocError>
        ensures { OnOk result (IsPlaced self.old n place self.new) }
    {
        self.places.insert(n, place)?;
        Ok(())
    }
}
