//! What a board is: its design, its items of copper and bans, and the rule for each pair of items.
//! All lengths are whole nanometres (nm).
#![tactic(auto)]

mod copper;
mod design;
mod greatest;
mod item;
mod laws;
mod legal;
pub mod limits;
mod make;
mod near;
mod pair;
pub mod pieces;
mod plain;
mod probe;
mod rules;
mod scale;
mod search;
mod steps;
mod uncounted;

pub use copper::Copper;
pub use design::{
    BoardLayer, ClassPair, Component, Design, FreeWire, Net, Padstack, Pin, RuleSet, SesScale,
    Typed,
};
pub use greatest::greatest_clearance;
pub use item::{Item, Kind, Metal, Piece, Probe};
pub use laws::{counts_are_unique, pairs_are_symmetric};
pub use legal::{inside_board, is_listed, is_signal, width_ok};
pub use make::{copy_item, copy_loops, copy_metal, copy_spine, make_item, move_point};
pub use near::{Extent, Query};
pub use pair::{agree, are_touching, pair_ok, same_net, touch};
pub use plain::PlainCopper;
pub use probe::{probe_inside, probe_ok};
pub use rules::{clearance, reach_of, width_of};
pub use search::joins;
pub use steps::Steps;
