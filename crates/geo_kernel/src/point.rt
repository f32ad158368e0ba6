//! Points and boxes of the plane.
//! Coordinates are whole nanometres (nm).

/// A point, in nm.
#[derive(Clone, Copy, PartialEq, Eq)]
pub struct Point {
    pub x: i64,
    pub y: i64,
}

/// A box with its sides parallel to the axes: x from `x0` to `x1` and y from `y0` to `y1`, in nm, ends included.
#[derive(Clone, Copy, PartialEq, Eq)]
pub struct Rect4 {
    pub x0: i64,
    pub y0: i64,
    pub x1: i64,
    pub y1: i64,
}
