//! Answers in words: texts and numbers, one behind the other.

use std::alloc::AllocError;

/// A text or a number.
#[derive(Clone, Copy)]
pub(crate) enum Piece<'a> {
    Text(&'a str),
    Number(i128),
}

/// Puts all pieces.
pub(crate) fn put(words: &mut String, pieces: &[Piece]) -> Result<(), AllocError> {
    for piece in pieces {
        match *piece {
            Piece::Text(text) => words.push_str(text)?,
            Piece::Number(number) => write!(words, "{number}")?,
        }
    }
    Ok(())
}

/// Puts a text and a number, and once more a text and a number.
pub(crate) fn put_two<'a>(
    words: &mut String,
    first: (&'a str, i128),
    second: (&'a str, i128),
) -> Result<(), AllocError> {
    let (one, two) = (Piece::Text(first.0), Piece::Text(second.0));
    put(
        words,
        &[one, Piece::Number(first.1), two, Piece::Number(second.1)],
    )
}
