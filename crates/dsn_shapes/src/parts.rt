//! What the sections of a design hold, as they are read and before they are joined to one design.
//! Lengths are whole nanometres (nm); indices count from 0.
//! Source: SPECCTRA reference, structure, library, placement, network and wiring descriptors.

use dsn_units::{Angle, Scale};
use geo_kernel::{List, Name, Point, Spine, Unit};
use pcb_model::{ClassPair, Metal, RuleSet};

/// A layer; a power layer takes no wires.
#[derive(Drop)]
pub struct Layer {
    pub name: Name,
    pub power: bool,
}

/// A spine grown by half of `width` on the layers `i` whose bit `i` is set in `layers`.
#[derive(Drop)]
pub struct LayerShape {
    pub layers: u32,
    pub spine: Spine,
    pub width: u64,
}

/// What stands before the sections. `per` units of `unit` are the design's resolution,
/// `scale` is that of its numbers, and `notes` counts the lists that were passed over.
#[derive(Drop)]
pub struct Head {
    pub name: Name,
    pub unit: Unit,
    pub per: u64,
    pub scale: Scale,
    pub host_cad: Option<Name>,
    pub host_version: Option<Name>,
    pub notes: u64,
}

/// A shape that bans wires, vias or both.
#[derive(Drop)]
pub struct BanShape {
    pub shape: LayerShape,
    pub wires: bool,
    pub vias: bool,
}

/// The structure: layers, boundaries, keepouts, the names of its via padstacks, and its rules.
/// `via_at_smd` lets vias touch surface-mounted pins of their net; with `flip_last`
/// a component on the back is mirrored after its turn.
#[derive(Drop)]
pub struct Structure {
    pub layers: List<Layer>,
    pub bounds: List<LayerShape>,
    pub bans: List<BanShape>,
    pub vias: List<Name>,
    pub rules: RuleSet,
    pub via_at_smd: bool,
    pub flip_last: bool,
    pub notes: u64,
}

/// A padstack.
#[derive(Drop)]
pub struct Stack {
    pub name: Name,
    pub shapes: List<LayerShape>,
}

/// A pin of an image: its padstack by index, turned by its angle.
#[derive(Drop)]
pub struct ImagePin {
    pub name: Name,
    pub stack: u32,
    pub at: Point,
    pub angle: Angle,
}

/// A component's footprint.
#[derive(Drop)]
pub struct Image {
    pub name: Name,
    pub pins: List<ImagePin>,
    pub bans: List<BanShape>,
}

/// The padstacks and the images.
#[derive(Drop)]
pub struct Library {
    pub stacks: List<Stack>,
    pub images: List<Image>,
    pub notes: u64,
}

/// A component: its image by index, and where it is placed, if it is.
#[derive(Drop)]
pub struct Place {
    pub name: Name,
    pub image: u32,
    pub at: Option<Point>,
    pub back: bool,
    pub angle: Angle,
}

/// The components.
#[derive(Drop)]
pub struct Placing {
    pub places: List<Place>,
    pub notes: u64,
}

/// A pin by the indices of its component and of the image's pin.
#[derive(Clone, Copy, PartialEq, Eq)]
pub struct PinRef {
    pub place: u32,
    pub pin: u32,
}

/// What the splits of a pin's reference at its hyphens name: no pin, one, or several.
#[derive(Clone, Copy, PartialEq, Eq)]
pub enum Split {
    Unknown,
    One(PinRef),
    Many,
}

/// A net: its pins, its own rules, and the class that names it last.
#[derive(Drop)]
pub struct ReadNet {
    pub name: Name,
    pub pins: List<PinRef>,
    pub rules: RuleSet,
    pub class: Option<u32>,
}

/// A class: the padstacks of its vias by index, where it names some, and its rules.
#[derive(Drop)]
pub struct ReadClass {
    pub vias: Option<List<u32>>,
    pub rules: RuleSet,
}

/// The nets and the classes.
#[derive(Drop)]
pub struct Network {
    pub nets: List<ReadNet>,
    pub classes: List<ReadClass>,
    pub pairs: List<ClassPair>,
    pub notes: u64,
}

/// A wire or a via, its net, and the byte offset of its list.
#[derive(Drop)]
pub struct ReadWire {
    pub at: u64,
    pub net: Option<u32>,
    pub fixed: bool,
    pub metal: Metal,
}

/// The wires and vias.
#[derive(Drop)]
pub struct Wiring {
    pub wires: List<ReadWire>,
    pub notes: u64,
}
