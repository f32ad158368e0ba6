//! The law of designs, as the contract of a function that does nothing.
//! It says that the answers of `read_design` shut each other out, and that each text has one.

ghost use Rattle.dsn_design.specs.Reading.{OneOutcome};

/// A text has one design, or one fault of its tree, or one refusal, and only one of these.
pub fn one_outcome()
    ensures { OneOutcome }
{
    dsn_tree::one_answer();
}
