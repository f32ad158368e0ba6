//! Which item of a board isn't as it has to be: one that disagrees with another, isn't inside or isn't laid as its net
//! wants it; and the islands of all nets.
#![tactic(auto)]

mod all_islands;
mod clash;
mod copper;
mod spread;

pub use all_islands::islands_of_all;
pub use clash::first_clash;
pub use copper::{first_ill_laid, first_outside};
pub use spread::tiles_of;
