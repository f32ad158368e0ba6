//! Spines: chains and areas, whose copper is the spine grown by half a width.
//! Source: SPECCTRA reference, shape descriptor.

use crate::{List, Point};

/// A chain of points, or the loops of an area under the even-odd rule.
#[derive(Drop)]
pub enum Spine {
    Chain(List<Point>),
    Area(List<List<Point>>),
}
