//! The board on which offers are made: its items, its history, and what it answers.
//! A board is legal after every entry of its history.
#![tactic(auto)]

mod answer;
mod board;
mod copy;
mod laws;
mod load;
mod marks;
mod renew;
mod snap;

pub use answer::{Answer, BackFault, Entry, OfferBack, RunBack};
pub use board::{Board, PassBack, run_offers};
pub use board_offers::{CLOSER, Offer, Shoved, copy_offer};
pub use copper_change::Since;
pub use laws::{
    backs_keep, boards_serve, ids_stay, offers_are_taken, prefixes_keep, runs_keep, starts_keep,
    steps_keep,
};
pub use snap::Snap;
