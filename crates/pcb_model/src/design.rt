//! What a design holds: layers, boundaries, padstacks, placed pins, nets, rules and wiring.
//! Source: SPECCTRA reference, structure, library, placement, network and wiring descriptors.

use crate::{Item, Kind, Metal, Piece};
use geo_kernel::{List, Name, Point, Unit};

/// A clearance in nm for a pair of kinds; with `b` None for `a` with any kind.
#[derive(Clone, Copy)]
pub struct Typed {
    pub a: Kind,
    pub b: Option<Kind>,
    pub value: u64,
}

/// A width, a plain clearance and the clearances of pairs of kinds, in nm and as far as they are given.
#[derive(Drop)]
pub struct RuleSet {
    pub width: Option<u64>,
    pub plain: Option<u64>,
    pub typed: List<Typed>,
}

/// The rules between the nets of one class and those of another, or of the same.
#[derive(Drop)]
pub struct ClassPair {
    pub a: u32,
    pub b: u32,
    pub rules: RuleSet,
}

/// A placed pin.
#[derive(Drop)]
pub struct Pin {
    pub component: u32,
    pub name: Name,
    pub net: Option<u32>,
    pub centre: Point,
    pub smd: bool,
}

/// A placed component.
#[derive(Drop)]
pub struct Component {
    pub name: Name,
    pub image: Name,
    pub at: Point,
    pub back: bool,
    pub microdegrees: u32,
}

/// A net: its pins, its class, its own rules, and the usable padstacks of its list of vias.
#[derive(Drop)]
pub struct Net {
    pub name: Name,
    pub pins: List<u32>,
    pub class: Option<u32>,
    pub rules: RuleSet,
    pub vias: List<u32>,
}

/// A padstack; usable as a via where it has copper at the origin on at least two layers.
#[derive(Drop)]
pub struct Padstack {
    pub name: Name,
    pub pieces: List<Piece>,
    pub usable: bool,
}

/// A wire or via of the design that may be ripped up, and the byte offset of its list.
#[derive(Drop)]
pub struct FreeWire {
    pub at: u64,
    pub net: u32,
    pub metal: Metal,
}

/// A layer; a power layer takes no wires.
#[derive(Drop)]
pub struct BoardLayer {
    pub name: Name,
    pub power: bool,
}

/// A design. `per` units of `unit` are its resolution; each entry of `bounds` has the loops of one boundary.
pub struct Design {
    pub name: Name,
    pub unit: Unit,
    pub per: u64,
    pub host_cad: Option<Name>,
    pub host_version: Option<Name>,
    pub layers: List<BoardLayer>,
    pub bounds: List<List<List<Point>>>,
    pub padstacks: List<Padstack>,
    pub components: List<Component>,
    pub pins: List<Pin>,
    pub nets: List<Net>,
    pub classes: List<RuleSet>,
    pub rules: RuleSet,
    pub pairs: List<ClassPair>,
    pub via_at_smd: bool,
    pub fixed: List<Item>,
    pub free: List<FreeWire>,
    pub notes: u64,
}

// A design is let go by a call. Derived, it would be let go field by field wherever one ends, at seven seconds of
// proof each.
impl Drop for Design {
    fn drop(self) {
        let Design {
            name: _,
            unit: _,
            per: _,
            host_cad: _,
            host_version: _,
            layers: _,
            bounds: _,
            padstacks: _,
            components: _,
            pins: _,
            nets: _,
            classes: _,
            rules: _,
            pairs: _,
            via_at_smd: _,
            fixed: _,
            free: _,
            notes: _,
        } = self;
    }
}

/// The scale of a session: a printed number counts units of `nm` nm, `per` of them to one `unit`.
#[derive(Clone, Copy)]
pub struct SesScale {
    pub unit: Unit,
    pub per: u64,
    pub nm: u64,
}
