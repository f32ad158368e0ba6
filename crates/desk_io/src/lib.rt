//! Named files and a place for a report: all that the router sees of the outside.
//! Contracts see a desk as its files, a sink as the bytes that were put, and both as a count of faults and as calm
//! or not.
#![tactic(auto)]

mod calm;
mod count;
mod desk;
mod files;
mod host;
mod kept;
mod memory;
mod replace;
mod sink;
mod stream;

pub use calm::CalmDesk;
pub use desk::{Desk, DeskFail, Sink, SinkFail};
pub use files::{are_one_file, has_no_place, holds_a_list};
pub use host::{HostDesk, HostSink};
pub use kept::KeptText;
pub use memory::MemDesk;
pub use sink::MemSink;
pub use stream::WatchedOutput;
