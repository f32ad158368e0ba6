//! What a call that routes works with, whatever its words say.
//! It is lent to each step of the call.

use std::alloc::Global;

/// What a call that routes works with.
#[derive(Drop)]
pub(crate) struct RunContext<'a, T, G> {
    /// Who starts its threads, and lets them wait.
    pub rt: &'a T,
    /// Its memory.
    pub alloc: Global,
    /// The gate round each offer.
    pub gate: &'a G,
}
