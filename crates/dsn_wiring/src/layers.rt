//! Sets of layers, which are numbers: bit i stands for layer i.
//! Layers count from 0.

ghost use Rattle.std.specs.Prelude.{◌≡◌, ◌≤◌, ◌<◌, IfOk};
ghost use Rattle.dsn_wiring.specs.Layers.{has_layer, layers_below};

use geo_kernel::List;
use std::alloc::{AllocError, Global};

fn has_layer(layers: u32, i: u8) -> bool
    requires { i < 32 }
    ensures { result ≡ has_layer layers i }
{
    (layers >> i) % 2 == 1
}

/// The layers of the set that are below `n`, ascending.
#[tactic(auto, unfolding(crate::specs::Layers::layers_below))]
pub fn layers_below(alloc: Global, n: u8, layers: u32) -> Result<List<u8>, AllocError>
    requires { n ≤ 32 }
    ensures { IfOk result (λ ls. ls ≡ layers_below n layers) }
{
    let mut found = List::new(alloc);
    for i in 0..n {
        if has_layer(layers, i) {
            found.push(i)?;
        }
    }
    Ok(found)
}
