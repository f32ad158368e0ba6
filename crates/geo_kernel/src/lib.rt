//! Exact plane geometry in whole nanometres (nm), and the plain types that every other crate shares.
//! Distances are compared over all rational points, without rounding; no call takes memory or refuses.
#![tactic(auto)]

mod bounded;
mod close;
mod interior;
mod keep;
mod laws;
pub mod limits;
mod list;
mod moved;
mod path;
mod point;
mod rect;
mod segment;
mod spine;
mod unit;

pub use interior::{first_point, inside};
pub use keep::{
    on_spine, points_keep, spine_keeps, spine_keeps_moved, spine_touch, spine_touch_moved,
};
pub use laws::{edges_hold, keeping_is_symmetric, keeps_less};
pub use list::{List, Name};
pub use point::{Point, Rect4};
pub use rect::{box_of, parted};
pub use segment::{seg_keeps, seg_touches};
pub use spine::Spine;
pub use unit::Unit;
