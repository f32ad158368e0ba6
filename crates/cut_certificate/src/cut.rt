//! A cut: nodes that hold the anchors of an island, and the moves that lead out of them.
//! It is a value that can be kept and checked later.

use geo_kernel::List;
use route_lattice::Reach;

/// What shuts a move: of the items that disagree with what the move lays the one of the least id, or, where all
/// agree, a boundary.
#[derive(Clone, Copy, PartialEq, Eq)]
pub enum Blocker {
    Item(u64),
    Outside,
}

/// The move of this index at a node leads out of a cut, and is shut.
#[derive(Clone, Copy, PartialEq, Eq)]
pub struct Block {
    pub node: u32,
    pub index: u32,
    pub by: Blocker,
}

/// A set of nodes that holds each legal anchor of an island of the net, whose first pin is `pin`, and no anchor of
/// another
/// one, and the moves that lead out of it.
#[derive(Drop)]
pub struct Cut {
    pub net: u32,
    pub pin: u32,
    pub reach: Reach,
    pub blocked: List<Block>,
}
