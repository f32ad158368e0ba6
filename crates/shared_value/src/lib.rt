//! Values with several owners, in any threads.
//! Contracts see them as the values themselves.
#![tactic(auto)]

ghost use Rattle.std.specs.Prelude.{◌≡◌, IfOk, IfErr};

use std::alloc::{AllocError, AllocFailed, Global};
use std::marker::Model;
use std::sync::Arc;

/// A value with several owners. Contracts see the value, and not how many owners it has.
#[derive(Drop)]
pub struct Shared<T> {
    arc: Arc<T, Global>,
}

impl<T> Model for Shared<T> {
    ghost Value = { T };

    ghost coded = { T.code };

    ghost view = { λ s. s.arc.value };
}

impl<T> Shared<T> {
    /// The first owner of a value, which comes back where memory is wanting.
    pub fn new(alloc: Global, value: T) -> Result<Shared<T>, AllocFailed<T>>
        ensures ok { IfOk result (λ s. s ≡ value) }
        ensures err { IfErr result (λ f. f.value ≡ value) }
    {
        let arc = Arc::new(alloc, value)?;
        Ok(Shared { arc })
    }

    /// One more owner. It copies nothing of the value.
    pub fn share(&self) -> Result<Shared<T>, AllocError>
        ensures { IfOk result (λ s. s ≡ self.now) }
    {
        let arc = Arc::try_clone(&self.arc)?;
        Ok(Shared { arc })
    }

    /// The value.
    pub fn get(&self) -> &T
        ensures { result.now ≡ self.now }
    {
        &self.arc
    }
}
