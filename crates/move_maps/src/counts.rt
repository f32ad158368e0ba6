//! Counts of one byte each, which are changed in place.

ghost use Rattle.std.specs.Prelude.{◌≡◌, ◌<◌, [], ◌∷◌, ◌++◌, length, slice_index, slice_set, IfOk, OnOk};

use std::alloc::{AllocError, Global};
use std::marker::Model;

/// A table of counts. Contracts see it as their list.
#[derive(Drop)]
pub struct Counts {
    bytes: Vec<u8>,
}

impl Model for Counts {
    ghost use Rattle.std.specs.Prelude.{ℕ, List as Seq};

    ghost Value = { Seq ℕ };

    ghost view = { λ s. s.bytes.items };
}

impl Counts {
    /// A table without counts.
    pub(crate) fn new(alloc: Global) -> Counts
        ensures { result ≡ [] }
    {
        Counts {
            bytes: Vec::new(alloc),
        }
    }

    /// Appends a count.
    pub(crate) fn push(&mut self, n: u8) -> Result<(), AllocError>
        ensures { OnOk result (self.new ≡ self.old ++ n ∷ []) }
    {
        self.bytes.push(n)?;
        Ok(())
    }

    /// Appends some counts.
    pub(crate) fn push_all(&mut self, counts: &[u8]) -> Result<(), AllocError>
        ensures { OnOk result (self.new ≡ self.old ++ counts.now) }
    {
        self.bytes.extend_from_slice(counts)
    }

    /// A table of the same counts.
    pub(crate) fn copy(&self, alloc: Global) -> Result<Counts, AllocError>
        ensures { IfOk result (λ s. s ≡ self.now) }
    {
        let bytes = Vec::from_slice(alloc, self.bytes.as_slice())?;
        Ok(Counts { bytes })
    }

    /// How many counts there are.
    pub fn len(&self) -> usize
        ensures { result ≡ length self.now }
    {
        self.bytes.len()
    }

    /// The count at a place.
    pub fn get(&self, at: usize) -> u8
        requires { at < length self.now }
        ensures { result ≡ slice_index self.now at }
    {
        self.bytes[at]
    }

    /// Changes the count at a place.
    pub(crate) fn set(&mut self, at: usize, n: u8)
        requires { at < length self.old }
        ensures { self.new ≡ slice_set self.old at n }
    {
        self.bytes[at] = n;
    }
}
