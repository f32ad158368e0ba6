//! What a status line says.
//! The names of what is counted are those of the line.

/// What is counted where a limit is passed.
#[derive(Clone, Copy)]
pub enum Counted {
    /// The bytes of a file.
    Bytes,
    /// The layers of the design.
    Layers,
    /// Its nets.
    Nets,
    /// Its pins.
    Pins,
    /// Its pads, keepouts and wires.
    Items,
    /// The vertices of one shape.
    Vertices,
    /// The nodes of the lattice.
    Nodes,
}

/// What a status line says.
#[derive(Clone, Copy)]
pub enum Said {
    /// The words are refused by this number.
    Usage { number: u64 },
    /// The design is refused by this number, at the byte with this offset.
    Refused { number: u64, place: u64 },
    /// A file can't be read.
    ReadFault,
    /// A limit is passed. The number is the limit, or for nodes how many there would be.
    Limit { counted: Counted, number: u128 },
    /// A session or its report isn't as it should be, by this number: at a byte of the session (1), in a line of the
    /// report (2), at an item (3 to 5), a net (6) or a pin (7).
    Check { number: u64, at: u64 },
    /// It is no status line.
    Other,
}
