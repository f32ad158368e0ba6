//! The form of a report: what a text says that is one, and which line of another text isn't in its place.
#![tactic(auto)]

mod cursor;
mod cuts;
mod head;
mod laws;
mod nets;
mod passes;
mod reading;
mod report;
mod spelling;
mod value;

pub use laws::{reports_begin_alike, reports_say_one};
pub use reading::{GridLine, ReadCut, ReadRun, Reading};
pub use report::read_report;
