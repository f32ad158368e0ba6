//! Pins of a net, gathered into islands one by one.
//! A pin joins the island that has its pad, or opens one by a flood from its pad.

ghost use Rattle.std.specs.Prelude.{◌≡◌, ◌+◌, ◌<◌, take, length, All, Contains, IfOk, OnOk, vec_len};
ghost use Rattle.pcb_model.specs.Sound.{IsSound};
ghost use Rattle.pcb_model.specs.Bounds.{IsItemFit};
ghost use Rattle.pcb_model.specs.Copper.{Ascends};
ghost use Rattle.pcb_islands.specs.Islands.{pins_of, AreIslands};
ghost use Rattle.pcb_islands.specs.inner.Flooding.{HasIdWithin};
ghost use Rattle.pcb_islands.specs.inner.Progress.{ArePlaced, HasPinMore, HasIslandMore, IsProgress};

use crate::flood::flood;
use crate::net::Island;
use crate::pad::pad_of;
use crate::places::Places;
use geo_kernel::List;
use pcb_model::{Copper, Design, Item, pairs_are_symmetric};
use std::alloc::{AllocError, Global};

/// Gives all ids one place.
pub(crate) fn place_all(places: &mut Places, ids: &[u64], place: usize) -> Result<(), AllocError>
    ensures { OnOk result (ArePlaced places.old ids.now place places.new) }
{
    for id in ids {
        places.set(*id, place)?;
    }
    Ok(())
}

/// Lets a pin join the island at a place.
pub(crate) fn join(found: &mut Vec<Island>, place: usize, pin: u32) -> Result<(), AllocError>
    requires { place < vec_len found.old }
    ensures { OnOk result (HasPinMore found.old.items place pin found.new.items) }
{
    found[place].pins.push(pin)?;
    Ok(())
}

/// Opens the island of a pin whose pad is in none.
fn open<C: Copper>(
    alloc: Global,
    c: &C,
    net: u32,
    pin: u32,
    pad: &Item,
    found: &mut Vec<Island>,
    places: &mut Places,
) -> Result<(), AllocError>
    requires in_order { Ascends (C.items c.now) }
    requires ids { All HasIdWithin (C.items c.now) }
    requires fit { All IsItemFit (C.items c.now) }
    requires there { Contains (C.items c.now) pad.now }
    ensures { OnOk result
        (HasIslandMore (C.items c.now) net pin pad.now found.old.items places.old found.new.items places.new) }
{
    let items = flood(alloc, c, pad)?;
    place_all(places, items.as_slice(), found.len())?;
    let mut pins = List::new(alloc);
    pins.push(pin)?;
    found.push(Island { net, pins, items })?;
    Ok(())
}

/// The copper and the net of which islands are sought.
#[derive(Drop)]
pub(crate) struct Gatherer<'a, C: Copper> {
    pub d: &'a Design,
    pub c: &'a C,
    pub net: u32,
}

impl<'a, C: Copper> Gatherer<'a, C> {
    /// Lets the pin at place `k` of the net's list join the island that has its pad, or open one.
    fn gather(
        &self,
        alloc: Global,
        pins: &[u32],
        k: usize,
        found: &mut Vec<Island>,
        places: &mut Places,
    ) -> Result<(), AllocError>
        requires sound { IsSound self.now.d.now }
        requires serves { C.serves self.now.c.now self.now.d.now }
        requires in_order { Ascends (C.items self.now.c.now) }
        requires ids { All HasIdWithin (C.items self.now.c.now) }
        requires pins { pins.now ≡ pins_of self.now.d.now self.now.net }
        requires place { k < length pins.now }
        requires progress { IsProgress self.now.d.now (C.items self.now.c.now) self.now.net (take k pins.now)
            found.old.items
            places.old }
        ensures { OnOk result
            (IsProgress self.now.d.now (C.items self.now.c.now) self.now.net (take (k + 1) pins.now)
            found.new.items places.new) }
    {
        pairs_are_symmetric();
        let pin = pins[k];
        let pad = pad_of(self.d, pin);
        match places.get(pad.id) {
            Some(place) => join(found, place, pin),
            None => open(alloc, self.c, self.net, pin, pad, found, places),
        }
    }

    /// Gathers all pins.
    pub(crate) fn gather_all(&self, alloc: Global, pins: &[u32]) -> Result<Vec<Island>, AllocError>
        requires sound { IsSound self.now.d.now }
        requires serves { C.serves self.now.c.now self.now.d.now }
        requires in_order { Ascends (C.items self.now.c.now) }
        requires ids { All HasIdWithin (C.items self.now.c.now) }
        requires pins { pins.now ≡ pins_of self.now.d.now self.now.net }
        ensures { IfOk result (λ found. AreIslands self.now.d.now (C.items self.now.c.now) self.now.net found.items) }
    {
        let mut found = Vec::new(alloc);
        let mut places = Places::new(alloc);
        for k in 0..pins.len() {
            self.gather(alloc, pins, k, &mut found, &mut places)?;
        }
        Ok(found)
    }
}
