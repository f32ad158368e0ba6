//! How long the gap or the word at the front of some bytes is.
//! Each is found by one pass over its bytes.

ghost use Rattle.std.specs.Prelude.{false, ◌≡◌, ◌<◌, ◌≤◌, ◌^◌, drop, length};
ghost use Rattle.dsn_tokens.specs.Gaps.{is_blank, blank, behind_space};
ghost use Rattle.dsn_tokens.specs.Words.{ends_word};
ghost use Rattle.dsn_tokens.specs.Scanning.{gap_rest, word_rest};

use crate::context::Line;

fn is_blank(byte: u8) -> bool
    ensures { result ≡ is_blank byte }
{
    (byte >= 9 && byte <= 13) || byte == 32
}

/// Whether the byte ends a word.
fn ends_word(byte: u8) -> bool
    ensures { result ≡ ends_word byte }
{
    is_blank(byte) || byte == b'(' || byte == b')'
}

/// How the line stands behind a blank.
fn behind_blank(line: Line, byte: u8) -> Line
    ensures { result ≡ behind_space line (blank byte) }
{
    if line == Line::Begun && byte == b'\n' {
        Line::Fresh
    } else {
        line
    }
}

/// The length of the gap at the front.
pub fn gap_front(bytes: &[u8], start: Line) -> usize
    ensures rest { drop result bytes.now ≡ gap_rest false start bytes.now }
    ensures within { result ≤ length bytes.now }
{
    let mut line = start;
    let mut skips = false;
    for (i, byte) in bytes.iter().enumerate() {
        if skips {
            skips = *byte != b'\n';
        } else if *byte == b'#' && line == Line::Fresh {
            skips = true;
        } else if is_blank(*byte) {
            line = behind_blank(line, *byte);
        } else {
            return i;
        }
    }
    bytes.len()
}

/// The length of the word at the front, and how many bytes its open quoted piece has.
pub fn word_front(bytes: &[u8], quote: u8) -> (usize, usize)
    ensures rest { word_rest quote 0 bytes.now ≡ (drop result.0 bytes.now, result.1) }
    ensures within { result.0 ≤ length bytes.now }
    ensures open_within { result.1 ≤ result.0 }
{
    let mut open_bytes: usize = 0;
    for (i, byte) in bytes.iter().enumerate() {
        if *byte == quote {
            open_bytes = if open_bytes == 0 { 1 } else { 0 };
        } else if open_bytes > 0 {
            open_bytes += 1;
        } else if ends_word(*byte) {
            return (i, 0);
        }
    }
    (bytes.len(), open_bytes)
}
