//! Numbers of a design: decimals, lengths in whole nanometres (nm), angles, and turned points.
//! Every value is an exact fraction until it is rounded once; no call takes memory.
#![tactic(auto)]

mod angle;
mod count;
mod decimal;
mod fraction;
mod length;
mod number;
mod turn;

pub use angle::Angle;
pub use count::whole_number;
pub use decimal::read_decimal;
pub use length::{RangeFault, Scale, coord, extent};
pub use number::Decimal;
pub use turn::{quarter_turns, rotate};
