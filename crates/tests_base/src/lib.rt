//! The tests of what lies below a board: plane geometry, desks, tokens, trees and numbers; words, which are those of
//! the command line, of generated boards and of what standard error says; and what the readers of a design's sections
//! hold, on boards that are worked out by hand. What is refused stands in the tables of `tests_tables`.
//! They stand over public calls in a crate of their own, so that the crates below are proved without them.
#![tactic(auto)]

#[cfg(test)]
mod of_board_gen;
#[cfg(test)]
mod of_desk_io;
#[cfg(test)]
mod of_dsn_tokens;
#[cfg(test)]
mod of_dsn_tree;
#[cfg(test)]
mod of_dsn_units;
#[cfg(test)]
mod of_fault_notes;
#[cfg(test)]
mod of_geo_kernel;
#[cfg(test)]
mod of_head;
#[cfg(test)]
mod of_hosts;
#[cfg(test)]
mod of_placement;
#[cfg(test)]
mod of_route_words;
#[cfg(test)]
mod of_shapes;
#[cfg(test)]
mod sections;
