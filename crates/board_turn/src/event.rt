//! What passes do with a board. No value of these types is made: contracts speak of them.

use pcb_board::{Answer, Offer};

/// What a pass did with the board: it took a snapshot, it made an offer that was answered so, or memory was wanting
/// for either.
pub enum Action {
    Snapped,
    Offered(Offer, Answer),
    NoMemory,
}

/// An action of the pass of this name.
pub struct Event {
    pub name: u32,
    pub action: Action,
}
