//! A status line is read by its first word.
//! What doesn't fit the form of that word to its end says nothing.

ghost use Rattle.std.specs.Prelude.{◌≡◌, ◌++◌, List as Seq, ℕ, IfSome, IsSomeAnd, codes};
ghost use Rattle.fault_notes.specs.declared.said.Counted.{Counted};
ghost use Rattle.fault_notes.specs.Lines.{Reads, word_of};

use crate::number::{last_number, last_short, short_front};
use crate::{Counted, Said};

/// All that is counted.
const ALL_COUNTED: [Counted; 7] = [
    Counted::Bytes,
    Counted::Layers,
    Counted::Nets,
    Counted::Pins,
    Counted::Items,
    Counted::Vertices,
    Counted::Nodes,
];

/// The word of a status line for what is counted.
pub(crate) fn word(counted: Counted) -> &'static str
    ensures { result.now ≡ word_of counted }
{
    match counted {
        Counted::Bytes => "bytes",
        Counted::Layers => "layers",
        Counted::Nets => "nets",
        Counted::Pins => "pins",
        Counted::Items => "items",
        Counted::Vertices => "vertices",
        Counted::Nodes => "nodes",
    }
}

// What is counted by the word at the front, and what stands behind that.
fn front_counted(bytes: &[u8]) -> Option<(Counted, &[u8])>
    ensures told { IfSome result (λ p. bytes.now ≡ word_of p.0 ++ p.1.now) }
    ensures whole { (counted : Counted) (rest : Seq ℕ) → bytes.now ≡ word_of counted ++ rest
        → IsSomeAnd result (λ p. (p.0 ≡ counted) × (p.1.now ≡ rest)) }
{
    for counted in ALL_COUNTED {
        if let Some(rest) = bytes.strip_prefix(word(counted).as_bytes()) {
            return Some((counted, rest));
        }
    }
    None
}

fn read_usage(rest: &[u8]) -> Said
    ensures { Reads (codes "usage " ++ rest.now) result }
{
    match last_short(rest) {
        Some(number) => Said::Usage { number },
        None => Said::Other,
    }
}

fn read_refused(rest: &[u8]) -> Said
    ensures { Reads (codes "refused " ++ rest.now) result }
{
    let Some((number, behind)) = short_front(rest) else {
        return Said::Other;
    };
    let Some(last) = behind.strip_prefix(b" at ") else {
        return Said::Other;
    };
    match last_short(last) {
        Some(place) => Said::Refused { number, place },
        None => Said::Other,
    }
}

fn read_check(rest: &[u8]) -> Said
    ensures { Reads (codes "check " ++ rest.now) result }
{
    let Some((number, behind)) = short_front(rest) else {
        return Said::Other;
    };
    let Some(last) = behind.strip_prefix(b" at ") else {
        return Said::Other;
    };
    match last_short(last) {
        Some(at) => Said::Check { number, at },
        None => Said::Other,
    }
}

fn read_limit(rest: &[u8]) -> Said
    ensures { Reads (codes "limit " ++ rest.now) result }
{
    let Some((counted, behind)) = front_counted(rest) else {
        return Said::Other;
    };
    let Some(last) = behind.strip_prefix(b" ") else {
        return Said::Other;
    };
    match last_number(last) {
        Some(number) => Said::Limit { counted, number },
        None => Said::Other,
    }
}

/// What a line says: `usage N`, `refused N at PLACE`, `read fault`, `limit WHAT NUMBER` or `check N at M`, with its
/// line feed and numbers as the program prints them. `Other` comes exactly where it is no such line.
pub fn read_line(line: &[u8]) -> Said
    ensures { Reads line.now result }
{
    if let Some(rest) = line.strip_prefix(b"usage ") {
        return read_usage(rest);
    }
    if let Some(rest) = line.strip_prefix(b"refused ") {
        return read_refused(rest);
    }
    if let Some(rest) = line.strip_prefix(b"limit ") {
        return read_limit(rest);
    }
    if let Some(rest) = line.strip_prefix(b"check ") {
        return read_check(rest);
    }
    if line == b"read fault\n".as_slice() {
        Said::ReadFault
    } else {
        Said::Other
    }
}
