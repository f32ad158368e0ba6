//! The tests of boards that short texts give: their designs, what the rules, pairs and searches answer, and what is
//! written of them: their sessions, the report of facts that are set by hand, and a whole picture, which was looked at.
//! Of what stands on them: copper in tiles answers as a plain list of the same items does, with a worked row; the moves
//! by the maps of moves are the legal moves, in each answer, and those past routed items are those that ask the copper;
//! lattices, searches over moves, islands and a walk's copper. And of offers to them and of plans: what is answered,
//! what stands afterwards, what passes of a turn see of one another's offers, what a plan offers and takes out for it,
//! and what moves past copper cost.
//! Worked examples of the top call, over desks and sinks in memory, with settled moves, moves at 45 degrees and several
//! starts; what it answers where a session or a report is changed; and workers side by side, in passes and in the top
//! call: gates hold them until others have come, so a body that lets them work one after another fails. They stand over
//! public calls in a crate of their own, so that the crates below are proved without them.
#![tactic(auto)]

#[cfg(test)]
mod answers;
#[cfg(test)]
mod board;
#[cfg(test)]
mod calls;
#[cfg(test)]
mod cell_walks;
#[cfg(test)]
mod cells;
#[cfg(test)]
mod clearances;
#[cfg(test)]
mod copper;
#[cfg(test)]
mod designs;
#[cfg(test)]
mod gates;
#[cfg(test)]
mod lattices;
#[cfg(test)]
mod laying;
#[cfg(test)]
mod of_checks;
#[cfg(test)]
mod of_dsn_design;
#[cfg(test)]
mod of_earlier;
#[cfg(test)]
mod of_lattices;
#[cfg(test)]
mod of_maps;
#[cfg(test)]
mod of_nets;
#[cfg(test)]
mod of_refusals;
#[cfg(test)]
mod of_routes;
#[cfg(test)]
mod of_tiles;
#[cfg(test)]
mod offer_board;
#[cfg(test)]
mod pairs;
#[cfg(test)]
mod passes;
#[cfg(test)]
mod pictures;
#[cfg(test)]
mod plans;
#[cfg(test)]
mod reports;
#[cfg(test)]
mod row;
#[cfg(test)]
mod runs;
#[cfg(test)]
mod same;
#[cfg(test)]
mod searches;
#[cfg(test)]
mod sessions;
#[cfg(test)]
mod settled;
#[cfg(test)]
mod slants;
#[cfg(test)]
mod starts;
#[cfg(test)]
mod turns;
