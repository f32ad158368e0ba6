//! What a report tells of.
//! It is lent to whoever puts a part of the report.

use pcb_board::Board;
use pcb_model::Design;
use route_lattice::Lattice;
use route_run::Facts;

/// What a report tells of: a design, its lattice, the board and the facts of a run; and whether it is short.
#[derive(Drop)]
pub(crate) struct ReportInput<'a> {
    pub d: &'a Design,
    pub lat: &'a Lattice,
    pub board: &'a Board,
    pub facts: &'a Facts,
    pub short: bool,
}
