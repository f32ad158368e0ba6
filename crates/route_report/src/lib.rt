//! The report of a run, as bytes.
#![tactic(auto)]

mod cuts;
mod input;
mod nets;
mod report;
mod stretches;
mod words;

pub use report::report_text;
pub use stretches::stretches_are_longest;
