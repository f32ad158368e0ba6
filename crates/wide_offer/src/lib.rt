//! Offers of the closing pass by moves at 45 degrees, and what such moves reach.
//! Such an offer lays the copper of a least walk from an island of a net to another, and takes nothing out.
#![tactic(auto)]

mod anchored;
mod offer;
mod search;

pub use offer::offer_from;
pub use search::WideSearch;
