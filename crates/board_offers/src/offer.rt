//! Offers: what is to be laid for a net between two of its items, and what gives way to it.
//! All lengths are whole nanometres (nm).

use geo_kernel::{List, Point};
use pcb_model::Metal;

/// The worker number of the pass that closes; those of the workers are below it.
pub const CLOSER: u32 = 16;

/// A wire's new chain, with points in nm.
#[derive(Drop)]
pub struct Shoved {
    pub id: u64,
    pub chain: List<Point>,
}

/// What is laid for a net from the item `from` to the item `to`, as planned on the board after `base` entries:
/// wires and vias in their order, and the ids that they rip up, or the wires that they shove aside.
/// `worker` is the maker's number, and `penalty` that of the maker's search for ripping, where it had one.
#[derive(Drop)]
pub struct Offer {
    pub base: u64,
    pub worker: u32,
    pub net: u32,
    pub from: u64,
    pub to: u64,
    pub penalty: Option<u64>,
    pub add: List<Metal>,
    pub rip: List<u64>,
    pub shoves: List<Shoved>,
}
