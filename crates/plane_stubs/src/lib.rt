//! Stubs: ways from islands of a plane's net to vias that touch its ribs; and the design with ribs and stubs.
//! Source: SPECCTRA reference, plane descriptor.
#![tactic(auto)]

mod held;
mod landings;
mod laws;
mod laying;
mod left_over;
mod nets;
mod pins;
mod planned;
mod rib_moves;
mod site;
mod stub;
mod stub_moves;

pub use laws::planed_designs_hold;
pub use planned::{with_planes, with_ribs};
