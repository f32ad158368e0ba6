//! Units of length of a design.
//! Source: SPECCTRA reference, unit descriptor.

ghost use Rattle.std.specs.Prelude.{◌≡◌, ◌<◌, ◌≤◌};
ghost use Rattle.geo_kernel.specs.Units.{unit_nm};

/// A unit of length.
#[derive(Clone, Copy, PartialEq, Eq)]
pub enum Unit {
    Inch,
    Mil,
    Cm,
    Mm,
    Um,
}

impl Unit {
    /// How many nm one unit has.
    pub fn nm(self) -> u64
        ensures value { result ≡ unit_nm self }
        ensures some { 0 < result }
        ensures few { result ≤ 25400000 }
    {
        match self {
            Unit::Inch => 25_400_000,
            Unit::Mil => 25_400,
            Unit::Cm => 10_000_000,
            Unit::Mm => 1_000_000,
            Unit::Um => 1_000,
        }
    }
}
