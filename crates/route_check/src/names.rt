//! The names of the islands' first pins.

ghost use Rattle.std.specs.Prelude.{◌≡◌, IfOk, OnOk, map};
ghost use Rattle.ses_writer.specs.Words.{Appends};
ghost use Rattle.told_words.specs.PinNames.{component_name as component_name_of, name_of_pin};
ghost use Rattle.told_words.specs.PinNames.{pin_name as pin_name_of};
ghost use Rattle.route_check.specs.Judged.{first_name as first_name_of, first_names as first_names_of};
ghost use Rattle.route_check.specs.Judged.{first_of};

use geo_kernel::{List, Name};
use pcb_islands::Island;
use pcb_model::{Design, Pin};
use ses_writer::put;
use std::alloc::{AllocError, Global};

fn component_name(d: &Design, component: u32) -> &[u8]
    ensures { result.now ≡ component_name_of d.now component }
{
    match d.components.as_slice().get(component as usize) {
        Some(c) => c.name.as_slice(),
        None => &[],
    }
}

// The component's name, a hyphen and the pin's name.
fn put_pin(out: &mut Vec<u8>, d: &Design, pin: &Pin) -> Result<(), AllocError>
    ensures { OnOk result (Appends out.old.items out.new.items (name_of_pin d.now pin.now)) }
{
    put(out, component_name(d, pin.component))?;
    put(out, b"-")?;
    put(out, pin.name.as_slice())
}

fn pin_name(alloc: Global, d: &Design, pin: u32) -> Result<Vec<u8>, AllocError>
    ensures { IfOk result (λ name. name.items ≡ pin_name_of d.now pin) }
{
    let mut name = Vec::new(alloc);
    match d.pins.as_slice().get(pin as usize) {
        Some(p) => {
            put_pin(&mut name, d, p)?;
            Ok(name)
        }
        None => Ok(name),
    }
}

/// The first pin of an island.
pub(crate) fn first_pin(s: &Island) -> u32
    ensures { result ≡ first_of s.now.pins }
{
    match s.pins.get(0) {
        None => 0,
        Some(pin) => *pin,
    }
}

fn first_name(alloc: Global, d: &Design, s: &Island) -> Result<Name, AllocError>
    ensures { IfOk result (λ name. name ≡ first_name_of d.now s.now) }
{
    let name = pin_name(alloc, d, first_pin(s))?;
    Ok(List::from_vec(name))
}

fn names_of(alloc: Global, d: &Design, own: &[Island]) -> Result<List<Name>, AllocError>
    ensures { IfOk result (λ names. names ≡ map (first_name_of d.now) own.now) }
{
    let mut names = List::new(alloc);
    for s in own {
        names.push(first_name(alloc, d, s)?)?;
    }
    Ok(names)
}

/// The names of the first pins of each net's islands.
pub(crate) fn first_names(
    alloc: Global,
    d: &Design,
    found: &[List<Island>],
) -> Result<List<List<Name>>, AllocError>
    ensures { IfOk result (λ names. names ≡ first_names_of d.now found.now) }
{
    let mut names = List::new(alloc);
    for own in found {
        names.push(names_of(alloc, d, own.as_slice())?)?;
    }
    Ok(names)
}
