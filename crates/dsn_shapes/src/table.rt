//! The numbers of the refusals of a design, as `docs/REFUSALS.md` tells them: those of its tree, and then of its lists.

/// A quoted piece has no end.
pub const QUOTE_OPEN: u8 = 1;

/// The byte behind `(string_quote` is none that quotes.
pub const BAD_QUOTE_BYTE: u8 = 2;

/// A bracket isn't closed.
pub const UNCLOSED: u8 = 3;

/// Something stands before or behind the list.
pub const SURPLUS: u8 = 4;

/// More brackets are open than may be.
pub const TOO_DEEP: u8 = 5;

/// There is no list.
pub const NO_LIST: u8 = 6;

/// The list isn't a `pcb` with a name.
pub const NO_BOARD: u8 = 7;

/// `resolution`, `structure` or a layer is missing.
pub const NO_SECTION: u8 = 8;

/// A number is wanted, and isn't there or is none that can be.
pub const NO_NUMBER: u8 = 9;

/// A coordinate, width, clearance or angle is too large.
pub const OUT_OF_RANGE: u8 = 10;

/// The unit is none of those that are known.
pub const NO_UNIT: u8 = 11;

/// A layer word names no layer.
pub const NO_LAYER: u8 = 12;

/// A second layer, padstack, image, pin of one image, component or net has a name.
pub const NAMED_TWICE: u8 = 13;

/// The library has no padstack of this name.
pub const NO_PADSTACK: u8 = 14;

/// The library has no image of this name.
pub const NO_IMAGE: u8 = 15;

/// No component and pin fit a reference.
pub const NO_PIN: u8 = 16;

/// A reference fits two pins.
pub const TWO_PINS: u8 = 17;

/// A second net names a pin.
pub const TAKEN_PIN: u8 = 18;

/// A reference names a component without coordinates.
pub const UNPLACED_PIN: u8 = 19;

/// No net has this name.
pub const NO_NET: u8 = 20;

/// This program leaves a form out, or a name has a quotation mark.
pub const LEFT_OUT: u8 = 21;

/// A shape's layer or numbers, or the side of a place, don't fit.
pub const BAD_FORM: u8 = 22;

/// A limit is passed on what is counted.
pub const PAST_LIMIT: u8 = 23;

/// There is no boundary.
pub const NO_BOUNDARY: u8 = 24;

/// No class has this name.
pub const NO_CLASS: u8 = 25;

/// A class pair hasn't two names.
pub const BAD_PAIR: u8 = 26;
