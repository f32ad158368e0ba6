//! What standard error says to a person of a call that didn't end with a report: which file, where, and what it means.
//! It stands on the line that the call put, on its words and on the names of its files, and on nothing of the router.
#![tactic(auto)]

mod fault;
mod host;
mod judged;
mod kept;
mod line;
mod look;
mod notes;
mod number;
mod place;
mod refusals;
mod said;
mod seen;
mod told;
mod trouble;
mod words;

pub use fault::{Bar, Fault, FileNames};
pub use host::{why_unread, why_unwritten};
pub use kept::KeptLine;
pub use line::read_line;
pub use notes::note_text;
pub use place::{Place, place_of};
pub use refusals::{check_words, refusal_words};
pub use said::{Counted, Said};
pub use seen::{mistake_in, word_at};
pub use told::word_note;
pub use trouble::{Choice, Range, Trouble};
pub use words::find_trouble;
