//! Counts of calls and of faults.
//! A count rises by one, and stands still at 2^64 - 1.

ghost use Rattle.std.specs.Prelude.{◌≡◌, ◌≤◌, ◌-◌, ◌^◌};
ghost use Rattle.desk_io.specs.States.{next_count};

/// A count that stands still at its end.
#[derive(Drop)]
pub struct Count {
    number: u64,
    ghost fits: { number ≤ 2 ^ 64 - 1 },
}

impl Count {
    ghost use Rattle.desk_io.specs.Count.{count_of};

    /// No call yet.
    pub fn new() -> Count
        ensures { count_of result ≡ 0 }
    {
        Count { number: 0 }
    }

    /// How many calls were counted.
    pub fn get(&self) -> u64
        ensures { result ≡ count_of self.now }
    {
        self.number
    }

    /// Counts one more.
    pub fn raise(&mut self)
        ensures { count_of self.new ≡ next_count (count_of self.old) }
    {
        self.number = self.number.saturating_add(1);
    }
}
