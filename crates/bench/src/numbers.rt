//! Numbers that look random, by which figures, cells and ends of walks are picked.
//! The generator is a linear congruential one, so each run has the same.

ghost use Rattle.std.specs.Prelude.{◌<◌, unsigned_abs};

/// The generator.
#[derive(Clone, Copy)]
pub struct Numbers {
    seed: u64,
}

impl Numbers {
    pub fn new(seed: u64) -> Numbers {
        Numbers { seed }
    }

    /// The next number.
    pub fn next(&mut self) -> u32 {
        self.seed = self
            .seed
            .wrapping_mul(6364136223846793005)
            .wrapping_add(1442695040888963407);
        (self.seed >> 33) as u32
    }

    /// The next number below `limit`.
    pub fn below(&mut self, limit: u32) -> i64
        requires { 0 < limit }
        ensures { unsigned_abs result < limit }
    {
        (self.next() % limit) as i64
    }
}
