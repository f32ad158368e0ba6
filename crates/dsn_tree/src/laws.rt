//! The law of trees, as the contract of a function that does nothing.
//! It says that the answers of `read_tree` shut each other out.

ghost use Rattle.dsn_tree.specs.Trees.{OneAnswer};

/// A text has one tree or one fault, and not both.
pub fn one_answer()
    ensures { OneAnswer }
{
    dsn_tokens::one_reading();
    dsn_tokens::each_read();
}
