//! What the planes of a design become, in words. Lengths are in nm.

ghost use Rattle.std.specs.Prelude.{All, IfOk};
ghost use Rattle.pcb_model.specs.Sound.{IsSound};
ghost use Rattle.plane_joins.specs.Planes.{IsPlaneOf};

use crate::designs::{design_of, put_refusal};
use crate::table::Answers;
use crate::words::{Piece, put, put_two};
use dsn_shapes::ReadFault;
use dsn_structure::read_head;
use dsn_tree::read_tree;
use geo_kernel::{List, Point};
use pcb_model::{Design, Item, Metal};
use plane_joins::{PlaneArea, RibFault, planes_in, ribs};
use std::alloc::{AllocError, Global};

/// Puts a point behind a word.
fn put_point(words: &mut String, word: &'static str, point: Point) -> Result<(), AllocError> {
    words.push_str(word)?;
    put_two(
        words,
        (" ", i128::from(point.x)),
        (" ", i128::from(point.y)),
    )
}

/// Puts a rib: its item, and where it begins and ends.
fn put_rib(words: &mut String, rib: &Item) -> Result<(), AllocError> {
    put(
        words,
        &[
            Piece::Text(", the first item "),
            Piece::Number(i128::from(rib.id)),
        ],
    )?;
    let Metal::Wire { chain, .. } = &rib.metal else {
        return words.push_str(" no wire");
    };
    let [from, to] = chain.as_slice() else {
        return words.push_str(" no segment");
    };
    put_point(words, " from", *from)?;
    put_point(words, " to", *to)
}

/// Puts how many planes and ribs there are, and the first rib.
fn put_ribs(words: &mut String, planes: usize, ribs: &[Item]) -> Result<(), AllocError> {
    put_two(
        words,
        ("planes ", planes as i128),
        (" ribs ", ribs.len() as i128),
    )?;
    match ribs.first() {
        Some(rib) => put_rib(words, rib),
        None => Ok(()),
    }
}

/// The planes of a text of a design.
fn planes_of(alloc: Global, text: &[u8], d: &Design) -> Result<List<PlaneArea>, ReadFault>
    requires { IsSound d.now }
    ensures { IfOk result (All (IsPlaneOf d.now)) }
{
    let Ok(tree) = read_tree(alloc, text) else {
        return Ok(List::new(alloc));
    };
    let head = read_head(alloc, &tree)?;
    let scale = head.scale;
    drop(head);
    let planes = planes_in(alloc, &tree, scale, d);
    drop(tree);
    planes
}

/// Puts the ribs of a design's planes, or how many items there would be.
fn put_planes(
    alloc: Global,
    d: &Design,
    planes: &List<PlaneArea>,
    words: &mut String,
) -> Result<(), AllocError>
    requires sound { IsSound d.now }
    requires planes { All (IsPlaneOf d.now) planes.now }
{
    match ribs(alloc, d, planes) {
        Ok(ribs) => put_ribs(words, planes.as_slice().len(), ribs.as_slice()),
        Err(RibFault::TooMany { count }) => write!(words, "items {count}"),
        Err(RibFault::Memory(error)) => Err(error),
    }
}

/// The reader of planes, and the ribs in place of them.
pub(crate) struct Planes;

impl Answers for Planes {
    fn answer(&self, alloc: Global, text: &str, words: &mut String) -> Result<(), AllocError> {
        let Ok(design) = design_of(alloc, text.as_bytes()) else {
            return words.push_str("no design");
        };
        match planes_of(alloc, text.as_bytes(), &design) {
            Ok(planes) => put_planes(alloc, &design, &planes, words),
            Err(ReadFault::Refused(refusal)) => put_refusal(words, refusal),
            Err(ReadFault::Memory(error)) => Err(error),
        }
    }
}
