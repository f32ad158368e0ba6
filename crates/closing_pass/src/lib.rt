//! The closing pass: it joins islands by least legal walks until none leads on, and cuts off those that stay. Then an
//! item in an island's way is taken out or moved aside where that helps: where the island is joined, and the item's net
//! has no more islands than before.
#![tactic(auto)]

mod close;
mod closed;
mod count;
mod ends;
mod helps;
mod join;
mod laws;
mod moves;
mod room;
mod rounds;
mod trial;

pub use closed::{Closed, close_out};
pub use laws::{ids_change_nothing, one_way_out};
