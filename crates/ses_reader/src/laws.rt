//! The law of sessions, as the contract of a function that does nothing.
//! It says that the answers of `read_session` shut each other out, and that each text has one.

ghost use Rattle.ses_reader.specs.Reading.{OneSession};

/// For each design a text has one list of items, or one fault of its tree, or one refusal, and only one of these.
pub fn one_session()
    ensures { OneSession }
{
    dsn_tree::one_answer();
}
