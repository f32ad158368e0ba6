//! Items of copper and bans, their pieces, and probes: items that a search asks about before they are laid.
//! Source: SPECCTRA reference, wire, via, pin and keepout descriptors.

use geo_kernel::{List, Point, Spine};

/// What clearances tell apart; a surface-mounted pin (its padstack has shapes on one layer only) is `Smd`.
#[derive(Clone, Copy, PartialEq, Eq)]
pub enum Kind {
    Wire,
    Via,
    Pin,
    Smd,
    Area,
}

/// Copper on one layer: a spine grown by half of `width` nm.
#[derive(Drop)]
pub struct Piece {
    pub layer: u8,
    pub spine: Spine,
    pub width: u64,
}

/// What an item is made of: a wire, a via of a padstack, the pad of a pin, or a ban of wires, vias or both.
#[derive(Drop)]
pub enum Metal {
    Wire {
        layer: u8,
        width: u64,
        chain: List<Point>,
    },
    Via {
        padstack: u32,
        at: Point,
    },
    Pad {
        pin: u32,
    },
    Ban {
        wires: bool,
        vias: bool,
    },
}

/// An item of a board. The fixed ones are the design's; the others are routed.
#[derive(Drop)]
pub struct Item {
    pub id: u64,
    pub net: Option<u32>,
    pub fixed: bool,
    pub kind: Kind,
    pub metal: Metal,
    pub pieces: List<Piece>,
}

/// A disc, a step or a via of a net that a search asks about.
#[derive(Clone, Copy)]
pub enum Probe {
    Disc {
        layer: u8,
        width: u64,
        at: Point,
    },
    Step {
        layer: u8,
        width: u64,
        a: Point,
        b: Point,
    },
    Via {
        padstack: u32,
        at: Point,
    },
}
