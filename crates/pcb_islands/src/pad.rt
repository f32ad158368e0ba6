//! The pad of a pin, among the fixed items of a design.
//! Where pads stand in order of their pins, as a reader of designs lays them, it is found by halving.

ghost use Rattle.std.specs.Prelude.{◌≡◌, ◌<◌, ◌≤◌, IfSome, MatchOption, All, length, slice_get};
ghost use Rattle.std.specs.Option.{IsSome};
ghost use Rattle.pcb_model.specs.declared.item.Item.{Item as OneItem};
ghost use Rattle.pcb_model.specs.declared.item.Metal.TheVariants.{Pad};
ghost use Rattle.pcb_model.specs.Sound.{IsSound};
ghost use Rattle.pcb_islands.specs.Islands.{IsPadOf};
ghost use Rattle.pcb_islands.specs.inner.Progress.{IsPadAt, IsPadFrom};

use pcb_model::{Design, Item, Metal};

// The first pad from a place on and before an end, with its pin.
fn next_pad(fixed: &[Item], from: usize, end: usize) -> Option<(usize, u32)>
    requires { end ≤ length fixed.now }
    ensures { IfSome result (IsPadFrom fixed.now from end) }
{
    for place in from..end {
        if let Metal::Pad { pin } = fixed[place].metal {
            return Some((place, pin));
        }
    }
    None
}

// The place of the pad of a pin, where halving meets it.
fn halved(fixed: &[Item], pin: u32) -> Option<usize>
    ensures { IfSome result (IsPadAt fixed.now pin) }
{
    let mut low = 0;
    let mut high = fixed.len();
    while low < high {
        let middle = low + (high - low) / 2;
        let Some((place, found)) = next_pad(fixed, middle, high) else {
            high = middle;
            continue;
        };
        if found == pin {
            return Some(place);
        }
        if found < pin {
            low = place + 1;
        } else {
            high = middle;
        }
    }
    None
}

// The place of the pad of a pin, or None exactly where no item is its pad.
fn scanned(fixed: &[Item], pin: u32) -> Option<usize>
    ensures { MatchOption result (All (λ (a : OneItem). a.metal ≡ Pad pin → ⊥) fixed.now) (IsPadAt fixed.now pin) }
{
    for place in 0..fixed.len() {
        if let Metal::Pad { pin: found } = fixed[place].metal {
            if found == pin {
                return Some(place);
            }
        }
    }
    None
}

fn place_of_pad(fixed: &[Item], pin: u32) -> Option<usize>
    ensures { MatchOption result (All (λ (a : OneItem). a.metal ≡ Pad pin → ⊥) fixed.now) (IsPadAt fixed.now pin) }
{
    match halved(fixed, pin) {
        Some(place) => Some(place),
        None => scanned(fixed, pin),
    }
}

/// The pad of a pin.
pub fn pad_of(d: &Design, pin: u32) -> &Item
    requires sound { IsSound d.now }
    requires pin { IsSome (slice_get d.now.pins pin) }
    ensures { IsPadOf d.entry.now pin result.now }
{
    let fixed = d.fixed.as_slice();
    let Some(place) = place_of_pad(fixed, pin) else {
        unreachable!();
    };
    &fixed[place]
}
