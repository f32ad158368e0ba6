//! What a session holds, and why a text is none.
//! Offsets count the bytes before.

use dsn_tree::TreeFault;
use pcb_model::Metal;
use std::alloc::AllocError;
use thiserror::Error;

/// A wire or via of a session: the byte offset of its list, its net and its copper.
/// Nets, layers and padstacks are indices of the design, which count from 0; lengths are in nm.
#[derive(Drop)]
pub struct SesItem {
    pub at: u64,
    pub net: u32,
    pub metal: Metal,
}

/// Why a text is no session of a design.
#[derive(Debug, Drop, Error)]
pub enum SesFault {
    /// The text has no tree.
    #[error(transparent)]
    Spelling(TreeFault),
    /// The refusal whose place comes first, and there the one of the least number: 1 where the head isn't `session`
    /// or one of the lists `routes`, `resolution` and `network_out` is missing; 2 where a number, a unit or a count
    /// is none or passes its limit, or a vertex of a placed via does; 3 for an unknown net, 4 for an unknown layer
    /// and 5 for an unknown padstack; 6 where a wire hasn't just one path, or a path has fewer than two points or
    /// half a point.
    #[error("rule {number} refuses the session at byte {at}")]
    Refused { number: u8, at: u64 },
    /// There was no memory.
    #[error(transparent)]
    Memory(AllocError),
}
