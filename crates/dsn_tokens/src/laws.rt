//! Laws of the spelling, each the contract of a function that does nothing.
//! They tie a text to one list of tokens, whatever reads it.

ghost use Rattle.dsn_tokens.specs.Spelling.{OneReading, EachRead};

/// A text has one reading: the same tokens, and the same end or fault behind them.
pub fn one_reading()
    ensures { OneReading }
{}

/// From each place there is a reading: tokens, and then the end or a fault.
pub fn each_read()
    ensures { EachRead }
{}
