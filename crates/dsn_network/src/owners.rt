//! Which net first names a pin, and pins that a second one names.
//! Pins are kept in ordered maps by the indices of their component and their own.

ghost use Rattle.std.specs.Prelude.{◌≡◌, Some, cond, if◌then◌else◌, is_some, map, IfOk, OnOk};
ghost use Rattle.std.specs.List.{flat_map};
ghost use Rattle.std.specs.Option.{option_or};
ghost use Rattle.dsn_shapes.specs.declared.parts.PinRef.{PinRef as ThePin};
ghost use Rattle.dsn_shapes.specs.Lists.{trees_of};
ghost use Rattle.dsn_shapes.specs.Refusals.{noted};
ghost use Rattle.dsn_network.specs.Nets.{each_once, first_net, has_pin, is_pin, ref_taken, refs_of, taken_from};
ghost use Rattle.dsn_network.specs.Owners.{net_by, pins_of};

use crate::pins::PinIndex;
use crate::refs::refs_of;
use crate::split::split_by;
use dsn_shapes::table::TAKEN_PIN;
use dsn_shapes::{PinRef, ReadNet, Refusal, Split, at_of, note, refused, text_of};
use dsn_tree::Tree;
use geo_kernel::List;
use std::alloc::{AllocError, Global};
use std::collections::BTreeMap;
use std::marker::Model;

type PinMap = BTreeMap<(u32, u32), usize>;

fn find_pin(map: &PinMap, pin: PinRef) -> Option<usize>
    ensures { result ≡ net_by map.now pin }
{
    map.get(&(pin.place, pin.pin)).copied()
}

// Keeps the net of a pin that has none yet.
fn keep_pin(map: &mut PinMap, pin: PinRef, net: usize) -> Result<(), AllocError>
    ensures { OnOk result ((q : ThePin)
        → net_by map.new q ≡ option_or (net_by map.old q) (if is_pin q pin then Some net else None)) }
{
    if find_pin(map, pin).is_none() {
        map.insert((pin.place, pin.pin), net)?;
    }
    Ok(())
}

/// Each of these pins once, where it first stands.
#[tactic(auto, unfolding(crate::specs::Nets::each_once))]
pub(crate) fn each_once(alloc: Global, pins: &[PinRef]) -> Result<List<PinRef>, AllocError>
    ensures { IfOk result (λ ps. ps ≡ each_once pins.now) }
{
    let mut once = List::new(alloc);
    let mut seen = BTreeMap::new(alloc);
    for pin in pins {
        if find_pin(&seen, *pin).is_none() {
            keep_pin(&mut seen, *pin, 0)?;
            once.push(*pin)?;
        }
    }
    Ok(once)
}

fn keep_pins(map: &mut PinMap, pins: &[PinRef], net: usize) -> Result<(), AllocError>
    ensures { OnOk result ((q : ThePin)
        → net_by map.new q ≡ option_or (net_by map.old q) (if has_pin q pins.now then Some net else None)) }
{
    for pin in pins {
        keep_pin(map, *pin, net)?;
    }
    Ok(())
}

fn first_nets(alloc: Global, nets: &[ReadNet]) -> Result<PinMap, AllocError>
    ensures { IfOk result (λ m. (q : ThePin) → net_by m q ≡ first_net q (pins_of nets.now)) }
{
    let mut map = BTreeMap::new(alloc);
    for (k, net) in nets.iter().enumerate() {
        keep_pins(&mut map, net.pins.as_slice(), k)?;
    }
    Ok(map)
}

/// Which of some nets first names each pin.
#[derive(Drop)]
pub struct Owners<'a> {
    nets: &'a [ReadNet],
    first: PinMap,
}

impl<'a> Model for Owners<'a> {
    ghost use Rattle.std.specs.Prelude.{◌≡◌, List};
    ghost use Rattle.dsn_shapes.specs.declared.parts.PinRef.{PinRef as ThePin};
    ghost use Rattle.dsn_shapes.specs.declared.parts.ReadNet.{ReadNet as TheNet};
    ghost use Rattle.dsn_network.specs.Nets.{first_net};
    ghost use Rattle.dsn_network.specs.Owners.{net_by, pins_of};

    ghost Value = { List TheNet };

    ghost view = { λ s. s.nets.now };

    ghost invariant = { λ s. (q : ThePin) → net_by s.first q ≡ first_net q (pins_of s.nets.now) };
}

impl<'a> Owners<'a> {
    /// The owners of the pins of these nets.
    pub fn of(alloc: Global, nets: &'a [ReadNet]) -> Result<Owners<'a>, AllocError>
        ensures { IfOk result (λ x. x ≡ nets.now) }
    {
        let first = first_nets(alloc, nets)?;
        Ok(Owners { nets, first })
    }

    /// The first net that names the pin.
    pub fn net_of(&self, pin: PinRef) -> Option<usize>
        ensures { result ≡ first_net pin (pins_of self.now) }
    {
        find_pin(&self.first, pin)
    }
}

#[tactic(auto, unfolding(crate::specs::Nets::ref_taken))]
fn refuse_ref(first: &mut Option<Refusal>, word: &Tree, k: usize, owners: &Owners, pins: &PinIndex)
    ensures { first.new
        ≡ noted first.old (ref_taken pins.now.lib.now pins.now.placing.now (pins_of owners.now) k word.now) }
{
    match split_by(text_of(word), pins) {
        Split::Unknown => {}
        Split::One(pin) => {
            if owners.net_of(pin) != Some(k) {
                note(first, refused(TAKEN_PIN, at_of(word)));
            }
        }
        Split::Many => {}
    }
}

fn refuse_refs(
    first: &mut Option<Refusal>,
    words: &[&Tree],
    k: usize,
    owners: &Owners,
    pins: &PinIndex,
)
    ensures { first.new
        ≡ noted first.old
        (flat_map (ref_taken pins.now.lib.now pins.now.placing.now (pins_of owners.now) k) (trees_of words.now)) }
{
    for word in words {
        refuse_ref(first, word, k, owners, pins);
    }
}

/// Refuses each reference by which one of these nets names a pin of an earlier one;
/// `owners` are of the same nets.
pub(crate) fn refuse_taken(
    alloc: Global,
    first: &mut Option<Refusal>,
    nets: &[&Tree],
    owners: &Owners,
    pins: &PinIndex,
) -> Result<(), AllocError>
    ensures { OnOk result
        (first.new ≡ noted first.old
        (taken_from pins.now.lib.now pins.now.placing.now (pins_of owners.now) 0 (trees_of nets.now))) }
{
    for (k, net) in nets.iter().enumerate() {
        let words = refs_of(alloc, net)?;
        refuse_refs(first, words.as_slice(), k, owners, pins);
    }
    Ok(())
}
