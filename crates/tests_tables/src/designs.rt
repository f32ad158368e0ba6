//! What the reader of designs answers, in words.

ghost use Rattle.std.specs.Prelude.{IfOk};
ghost use Rattle.pcb_model.specs.Sound.{IsSound};

use crate::table::Answers;
use crate::words::{Piece, put, put_two};
use dsn_design::read_design;
use dsn_shapes::{DesignFault, Refusal, What, refused};
use dsn_tree::TreeFault;
use pcb_model::Design;
use std::alloc::{AllocError, Global};

/// The number of the refusal for a limit that is passed.
const LIMIT_NUMBER: u8 = 23;

/// The most bytes that the reader takes.
const MAX_BYTES: usize = 67_108_864;

/// The refusal by number of a text that has no tree, or None where memory was wanting.
fn tree_refusal(fault: &TreeFault) -> Option<Refusal> {
    match fault {
        TreeFault::QuoteOpen { at } => Some(refused(1, *at)),
        TreeFault::BadQuoteByte { at } => Some(refused(2, *at)),
        TreeFault::Unclosed { at } => Some(refused(3, *at)),
        TreeFault::Surplus { at } => Some(refused(4, *at)),
        TreeFault::TooDeep { at } => Some(refused(5, *at)),
        TreeFault::Empty => Some(refused(6, 0)),
        TreeFault::Memory(_) => None,
    }
}

fn word_of(what: What) -> &'static str {
    match what {
        What::Nothing => "nothing",
        What::Layers => "layers",
        What::Nets => "nets",
        What::Pins => "pins",
        What::Items => "items",
        What::Vertices => "vertices",
    }
}

/// Puts `refused NUMBER at PLACE`, or `limit WHAT NUMBER at PLACE` where a limit is passed.
pub(crate) fn put_refusal(words: &mut String, refusal: Refusal) -> Result<(), AllocError> {
    let Refusal {
        number,
        at,
        what,
        limit,
    } = refusal;
    if number != LIMIT_NUMBER {
        return put_two(
            words,
            ("refused ", i128::from(number)),
            (" at ", i128::from(at)),
        );
    }
    put(
        words,
        &[
            Piece::Text("limit "),
            Piece::Text(word_of(what)),
            Piece::Text(" "),
            Piece::Number(i128::from(limit)),
            Piece::Text(" at "),
            Piece::Number(i128::from(at)),
        ],
    )
}

fn put_fault(words: &mut String, fault: &DesignFault) -> Result<(), AllocError> {
    let refusal = match fault {
        DesignFault::Spelling(fault) => tree_refusal(fault),
        DesignFault::Refused(refusal) => Some(*refusal),
        DesignFault::Memory(_) => None,
    };
    match refusal {
        Some(refusal) => put_refusal(words, refusal),
        None => words.push_str("memory is wanting"),
    }
}

/// The design of a text, or why it has none.
pub(crate) fn design_of(alloc: Global, text: &[u8]) -> Result<Design, DesignFault>
    ensures { IfOk result IsSound }
{
    if text.len() > MAX_BYTES {
        return Err(DesignFault::Spelling(TreeFault::Empty));
    }
    read_design(alloc, text)
}

/// The reader of designs.
pub(crate) struct Designs;

impl Answers for Designs {
    fn answer(&self, alloc: Global, text: &str, words: &mut String) -> Result<(), AllocError> {
        match design_of(alloc, text.as_bytes()) {
            Ok(_) => words.push_str("read"),
            Err(fault) => put_fault(words, &fault),
        }
    }
}
