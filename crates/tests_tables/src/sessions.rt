//! What the reader of sessions answers, in words. Lengths are in nm.

use crate::table::Answers;
use crate::words::{Piece, put, put_two};
use geo_kernel::Point;
use pcb_model::{Design, Metal};
use ses_reader::{SesFault, SesItem, read_session};
use std::alloc::{AllocError, Global};

/// Puts the coordinates of a point, each behind a blank.
fn put_point(words: &mut String, point: Point) -> Result<(), AllocError> {
    put_two(
        words,
        (" ", i128::from(point.x)),
        (" ", i128::from(point.y)),
    )
}

/// Puts ` wire LAYER WIDTH X Y ..` or ` via PADSTACK X Y`.
fn put_metal(words: &mut String, metal: &Metal) -> Result<(), AllocError> {
    match metal {
        Metal::Wire {
            layer,
            width,
            chain,
        } => {
            put_two(
                words,
                (" wire ", i128::from(*layer)),
                (" ", i128::from(*width)),
            )?;
            for point in chain.as_slice() {
                put_point(words, *point)?;
            }
            Ok(())
        }
        Metal::Via { padstack, at } => {
            put(
                words,
                &[Piece::Text(" via "), Piece::Number(i128::from(*padstack))],
            )?;
            put_point(words, *at)
        }
        _ => words.push_str(" no copper"),
    }
}

/// Puts `read`, and the net, the place and the copper of each item.
fn put_items(words: &mut String, items: &[SesItem]) -> Result<(), AllocError> {
    words.push_str("read")?;
    for item in items {
        put_two(
            words,
            (" | net ", i128::from(item.net)),
            (" at ", i128::from(item.at)),
        )?;
        put_metal(words, &item.metal)?;
    }
    Ok(())
}

/// Puts why a text holds no session.
fn put_fault(words: &mut String, fault: &SesFault) -> Result<(), AllocError> {
    match fault {
        SesFault::Spelling(fault) => write!(words, "no tree: {fault}"),
        SesFault::Refused { number, at } => {
            put_two(
                words,
                ("refused ", i128::from(*number)),
                (" at ", i128::from(*at)),
            )
        }
        SesFault::Memory(_) => words.push_str("memory is wanting"),
    }
}

/// The reader of sessions for a design.
#[derive(Drop)]
pub(crate) struct Sessions {
    pub design: Design,
}

impl Answers for Sessions {
    fn answer(&self, alloc: Global, text: &str, words: &mut String) -> Result<(), AllocError> {
        match read_session(alloc, text.as_bytes(), &self.design) {
            Ok(items) => put_items(words, items.as_slice()),
            Err(fault) => put_fault(words, &fault),
        }
    }
}
