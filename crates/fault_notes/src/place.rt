//! Where a byte stands in a text.
//! Lines and columns count from 1, columns in bytes.

ghost use Rattle.std.specs.Prelude.{◌≡◌};
ghost use Rattle.fault_notes.specs.Places.{line_of, column_of};

/// The place of a byte: its line, and its column in bytes. Both count from 1.
#[derive(Clone, Copy, PartialEq, Eq)]
pub struct Place {
    pub line: u64,
    pub column: u64,
}

/// The place of the byte at the offset `at` of a text. The line is one more than the line feeds before it, the column
/// one more than the bytes behind the last of them. An offset past the end counts as the end.
pub fn place_of(text: &[u8], at: u64) -> Place
    ensures line { result.line ≡ line_of text.now at }
    ensures column { result.column ≡ column_of text.now at }
{
    let end = at.min(text.len() as u64) as usize;
    let mut line = 1;
    let mut column = 1;
    for byte in &text[..end] {
        if *byte == b'\n' {
            line += 1;
            column = 1;
        } else {
            column += 1;
        }
    }
    Place { line, column }
}
