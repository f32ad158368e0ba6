//! The table of lists: which lists are read in a list, and which are known there and have no effect.
//! Any other list in it is left out (`is_left_out`) or passed over with a note (`pass_over`).

ghost use Rattle.std.specs.Prelude.{◌≡◌};
ghost use Rattle.dsn_shapes.specs.Known.{form_heads, idle_in, keepout_heads, read_in};
ghost use Rattle.dsn_shapes.specs.Lists.{heads_of};

/// A kind of list in which others stand: a row of the table.
/// Where a row serves a list and lists in it, what stands in one of the two alone is passed over in silence
/// in the other.
#[derive(Clone, Copy)]
pub enum ListKind {
    /// `pcb`, the whole design.
    Pcb,
    /// `parser`, in the design.
    Parser,
    /// `structure`, in the design.
    Structure,
    /// `layer`, in the structure.
    Layer,
    /// `control`, in the structure.
    Control,
    /// `library`, in the design.
    Library,
    /// `image`, in the library.
    Image,
    /// `pin`, in an image.
    Pin,
    /// `padstack`, in the library.
    Padstack,
    /// `placement`, in the design.
    Placement,
    /// `component`, in the placement, and each `place` in it, which may have a `PN`.
    Component,
    /// `network`, in the design.
    Network,
    /// `net`, in the network.
    Net,
    /// `class`, in the network, and each `circuit` in it, which may have a `use_via`.
    Class,
    /// `class_class`, in the network.
    Pair,
    /// `rule`, in the structure, a net, a class or a class pair, and each `clearance` in it, which may have a `type`.
    Rule,
    /// `wiring`, in the design, and each `wire` and `via` in it.
    Wiring,
}

/// The heads of the lists that are read in a list of this kind.
pub fn read_in(kind: ListKind) -> &'static [&'static [u8]]
    ensures { heads_of result.now ≡ read_in kind }
{
    match kind {
        ListKind::Pcb => &[
            b"parser",
            b"resolution",
            b"unit",
            b"structure",
            b"placement",
            b"library",
            b"network",
            b"wiring",
        ],
        ListKind::Parser => &[b"string_quote", b"host_cad", b"host_version"],
        ListKind::Structure => &[
            b"layer",
            b"boundary",
            b"keepout",
            b"via_keepout",
            b"wire_keepout",
            b"via",
            b"rule",
            b"control",
            b"place_control",
        ],
        ListKind::Layer => &[b"type"],
        ListKind::Control => &[b"via_at_smd"],
        ListKind::Library => &[b"image", b"padstack"],
        ListKind::Image => &[b"pin", b"keepout", b"via_keepout", b"wire_keepout"],
        ListKind::Pin => &[b"rotate"],
        ListKind::Padstack => &[b"shape"],
        ListKind::Placement => &[b"component", b"place_control"],
        ListKind::Component => &[b"place"],
        ListKind::Network => &[b"net", b"class", b"class_class"],
        ListKind::Net => &[b"pins", b"rule"],
        ListKind::Class => &[b"circuit", b"rule", b"use_via"],
        ListKind::Pair => &[b"classes", b"rule"],
        ListKind::Rule => &[b"width", b"clearance", b"type"],
        ListKind::Wiring => &[b"wire", b"via", b"path", b"net", b"type"],
    }
}

/// The heads of the lists that are known in a list of this kind and have no effect.
pub fn idle_in(kind: ListKind) -> &'static [&'static [u8]]
    ensures { heads_of result.now ≡ idle_in kind }
{
    match kind {
        ListKind::Parser => &[b"space_in_quoted_tokens"],
        ListKind::Layer => &[b"property"],
        ListKind::Image => &[b"outline"],
        ListKind::Padstack => &[b"attach"],
        ListKind::Component => &[b"PN"],
        _ => &[],
    }
}

/// The heads of the forms of a shape, with those that are left out.
pub fn form_heads() -> &'static [&'static [u8]]
    ensures { heads_of result.now ≡ form_heads }
{
    &[
        b"circle",
        b"rect",
        b"polygon",
        b"path",
        b"qarc",
        b"polyline_path",
    ]
}

/// The heads of the lists that are keepouts.
pub fn keepout_heads() -> &'static [&'static [u8]]
    ensures { heads_of result.now ≡ keepout_heads }
{
    &[b"keepout", b"via_keepout", b"wire_keepout"]
}
