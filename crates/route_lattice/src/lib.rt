//! The routing lattice: its nodes, the moves between them, and what a search over moves answers.
//! A search knows the lattice only through the trait of moves.
#![tactic(auto)]

mod anchor;
mod axis;
mod found;
mod gather;
mod ground;
mod laws;
mod legal;
pub mod limits;
mod lines;
mod make;
mod mesh;
mod moves;
mod near;
mod outline;
mod round;
mod ruled;
mod touch;
mod ways;

pub use found::{anchor_nodes, anchors_among, first_above, first_from};
pub use ground::Ground;
pub use laws::{lines_by_membership, nodes_within, outline_is_least};
pub use legal::{LegalMoves, legal_among, legal_graph_sound, legal_node};
pub use make::LatticeFault;
pub use mesh::Lattice;
pub use moves::{Found, Move, Moves, Reach, Walk};
pub use near::{has_copper, pieces_near};
pub use ruled::{board_box, least_box, line_count, lines_between, rounded_coordinate};
