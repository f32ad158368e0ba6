//! Values that have a name, and where a name first stands among them.
//! A look-up is one pass here; `names_of` makes an index for many.

ghost use Rattle.std.specs.Prelude.{◌≡◌, map, IfOk};
ghost use Rattle.dsn_shapes.specs.Names.{first_place};

use crate::names::NameIndex;
use crate::parts::{Image, ImagePin, Place, ReadNet, Stack};
use std::alloc::{AllocError, Global};

/// What has a name, as bytes.
pub trait Named {
    ghost use Rattle.std.specs.Prelude.{◌≡◌, ℕ, List};

    ghost name: { Self → List ℕ };

    /// The name, as bytes.
    fn name(&self) -> &[u8]
        ensures { result.now ≡ name self.now };
}

impl Named for Image {
    ghost name = { λ i. i.name };

    fn name(&self) -> &[u8] {
        self.name.as_slice()
    }
}

impl Named for ReadNet {
    ghost name = { λ n. n.name };

    fn name(&self) -> &[u8] {
        self.name.as_slice()
    }
}

impl Named for Place {
    ghost name = { λ p. p.name };

    fn name(&self) -> &[u8] {
        self.name.as_slice()
    }
}

impl Named for ImagePin {
    ghost name = { λ p. p.name };

    fn name(&self) -> &[u8] {
        self.name.as_slice()
    }
}

impl Named for Stack {
    ghost name = { λ s. s.name };

    fn name(&self) -> &[u8] {
        self.name.as_slice()
    }
}

/// Where a name first stands among those of these values.
#[tactic(auto, unfolding(crate::specs::Names::first_place))]
pub fn first_named<T: Named>(values: &[T], name: &[u8]) -> Option<usize>
    ensures { result ≡ first_place name.now (map T.name values.now) }
{
    for (k, value) in values.iter().enumerate() {
        if value.name() == name {
            return Some(k);
        }
    }
    None
}

/// The index of the names of these values.
pub fn names_of<'a, T: Named>(alloc: Global, values: &'a [T]) -> Result<NameIndex<'a>, AllocError>
    ensures { IfOk result (λ x. x ≡ map T.name values.now) }
{
    let mut names = Vec::new(alloc);
    for value in values {
        names.push(value.name())?;
    }
    NameIndex::of(alloc, names)
}
