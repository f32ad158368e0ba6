//! What a pass tells of its workers.

ghost use Rattle.std.specs.Prelude.{◌↔◌, Any, IsTrue};
ghost use Rattle.searcher_pool.specs.declared.log.OfferNote.{OfferNote as OneNote};
ghost use Rattle.searcher_pool.specs.Passes.{IsFullAnswer, MetFull};

use geo_kernel::List;
use pcb_board::{Answer, Offer};

/// An offer that a worker made, and its answer.
#[derive(Drop)]
pub struct OfferNote {
    pub offer: Offer,
    pub answer: Answer,
}

/// What a worker did in a pass: the places of its tasks in the list, and its offers with their answers.
#[derive(Drop)]
pub struct WorkerLog {
    pub worker: u32,
    pub tasks: List<u32>,
    pub notes: List<OfferNote>,
}

// Whether the answer is that the board is full.
fn is_full_answer(answer: Answer) -> bool
    ensures { IsTrue result ↔ IsFullAnswer answer }
{
    matches!(answer, Answer::Full)
}

// Whether some offer of the log met a full board.
fn is_log_full(log: &WorkerLog) -> bool
    ensures { IsTrue result ↔ Any (λ (note : OneNote). IsFullAnswer note.answer) log.now.notes }
{
    for note in log.notes.as_slice() {
        if is_full_answer(note.answer) {
            return true;
        }
    }
    false
}

/// Whether some offer of these logs met a full board.
pub fn is_full(logs: &[WorkerLog]) -> bool
    ensures { IsTrue result ↔ MetFull logs.now }
{
    for log in logs {
        if is_log_full(log) {
            return true;
        }
    }
    false
}
