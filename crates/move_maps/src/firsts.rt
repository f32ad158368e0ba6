//! The groups that have maps, each by its first net.

ghost use Rattle.std.specs.Prelude.{◌≡◌, ◌+◌, ◌*◌, ◌<◌, ◌≤◌, ◌^◌, ◌↔◌, ◌⊎◌, true, false, length, All, Any, IsTrue};
ghost use Rattle.std.specs.Prelude.{IfOk};
ghost use Rattle.move_maps.specs.Groups.{IsUnruled, AreAlike, AreMapped};

use crate::group::{Group, are_alike, is_unruled};
use geo_kernel::List;
use pcb_model::{Copper, Design};
use route_lattice::Ground;
use std::alloc::{AllocError, Global};

/// Groups that have maps: 16 at most.
pub const MOST_GROUPS: usize = 16;

/// Moves that the maps have together: 2^28 at most.
pub const MOST_MOVES: u64 = 1 << 28;

// Whether the net is like one of the nets.
fn is_like_some(d: &Design, firsts: &[u32], net: u32) -> bool
    requires firsts { All (λ g. g < length d.now.nets) firsts.now }
    requires net { net < length d.now.nets }
    ensures { IsTrue result ↔ Any (λ g. AreAlike d.now g net) firsts.now }
{
    for first in firsts {
        if are_alike(d, *first, net) {
            return true;
        }
    }
    false
}

// Whether the net has a rule of its own, or is like one of the nets.
fn is_old(d: &Design, firsts: &[u32], net: u32) -> bool
    requires firsts { All (λ g. g < length d.now.nets) firsts.now }
    requires net { net < length d.now.nets }
    ensures old { result ≡ true → IsUnruled d.now net → Any (λ g. AreAlike d.now g net) firsts.now }
    ensures unruled { result ≡ false → IsUnruled d.now net }
    ensures new { result ≡ false → ¬ (Any (λ g. AreAlike d.now g net) firsts.now) }
{
    if is_unruled(d, net) {
        return is_like_some(d, firsts, net);
    }
    true
}

// Whether there can't be a group more than these, where the maps would then have so many moves.
fn is_full(groups: usize, moves: u64) -> bool
    ensures full { result ≡ true → (16 ≤ groups) ⊎ (2 ^ 28 < moves) }
    ensures groups { result ≡ false → groups < 16 }
    ensures moves { result ≡ false → moves ≤ 2 ^ 28 }
{
    if MOST_GROUPS <= groups {
        return true;
    }
    if MOST_MOVES < moves {
        return true;
    }
    false
}

/// The first nets of the groups that have maps, in order.
pub(crate) fn first_nets<C: Copper>(
    alloc: Global,
    on: &Ground<'_, C>,
) -> Result<List<u32>, AllocError>
    ensures { IfOk result (AreMapped on.now.d on.now.lat) }
{
    let mut firsts = List::new(alloc);
    let mut used = 0u64;
    for net in 0..on.d.nets.len() as u32 {
        if is_old(on.d, firsts.as_slice(), net) {
            continue;
        }
        let size = Group::of(on, net).moves();
        if is_full(firsts.len(), used + size) {
            return Ok(firsts);
        }
        firsts.push(net)?;
        used += size;
    }
    Ok(firsts)
}
