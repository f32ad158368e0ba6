//! What the tokens before a place mean for the next one.
//! Every token and every blank is read under such a context.

/// How the line of a place stands before it.
#[derive(Clone, Copy, PartialEq, Eq)]
pub enum Line {
    /// Blanks alone; a `#` begins a skipped line.
    Fresh,
    /// More than blanks.
    Begun,
    /// Behind `(string_quote`, on whatever line: a quoting byte is due, and no line is skipped.
    Quoting,
}

/// The context of a place in a text.
#[derive(Clone, Copy)]
pub struct Context {
    pub line: Line,
    /// The last token is an opening bracket.
    pub opened: bool,
    /// The quoting byte in force.
    pub quote: u8,
}
