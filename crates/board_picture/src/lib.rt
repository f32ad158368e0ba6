//! A picture of a board, as the bytes of an SVG file: its edge, keepouts, copper by layers, holes, names and open
//! connections, and a legend. Lengths are in mm and exact; the same board gives the same bytes.
//! Source: Scalable Vector Graphics 1.1.
#![tactic(auto)]

mod copper;
mod edge;
mod laws;
mod legend;
mod names;
mod open;
mod paint;
mod picture;
mod rings;
mod shapes;
mod sheet;
mod words;

pub use laws::lengths_are_exact;
pub use open::{OpenLine, open_lines};
pub use picture::picture_text;
