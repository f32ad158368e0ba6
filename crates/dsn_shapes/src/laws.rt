//! The law of refusals, as the contract of a function that does nothing.
//! It says which of several refusals counts.

ghost use Rattle.dsn_shapes.specs.First.{FirstCounts};

/// Of several refusals the first counts: the one of the least place, and there of the least number.
pub fn first_counts()
    ensures { FirstCounts }
{}
