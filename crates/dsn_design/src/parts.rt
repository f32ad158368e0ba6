//! What the sections of a design hold, where none of them is refused.
//! A design is made of these parts alone.

ghost use Rattle.std.specs.Prelude.{◌≡◌, ◌≤◌, length};
ghost use Rattle.dsn_design.specs.Fit.{ArePartsFit};
ghost use Rattle.dsn_design.specs.Pins.{layer_count};

use dsn_shapes::{Head, Library, Network, Placing, Structure, Wiring};

/// The sections of a design.
#[derive(Drop)]
pub struct Parts {
    pub head: Head,
    pub structure: Structure,
    pub library: Library,
    pub placing: Placing,
    pub network: Network,
    pub wiring: Wiring,
}

/// How many layers the board has.
pub(crate) fn layer_count(parts: &Parts) -> u8
    requires { ArePartsFit parts.now }
    ensures value { result ≡ layer_count parts.now }
    ensures few { result ≤ 32 }
{
    parts.structure.layers.len() as u8
}
