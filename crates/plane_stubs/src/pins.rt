//! The pins of a net, one after another: an island that begins with one gets a stub where it holds no rib and has one.

ghost use Rattle.std.specs.Prelude.{◌≡◌, ◌↔◌, ◌<◌, ◌≤◌, false, All, Any, IsTrue, IfOk, OnOk, MatchOption, length};
ghost use Rattle.pcb_islands.specs.declared.net.Island.{Island as OneIsland};
ghost use Rattle.pcb_islands.specs.Islands.{AreIslands, pins_of};
ghost use Rattle.plane_joins.specs.Stubs.{BeginsWith, TriesPins};
ghost use Rattle.plane_stubs.specs.inner.Holding.{HasTriedPin, IsBeginning, IsHeld, TriesIsland};
ghost use Rattle.plane_stubs.specs.inner.Landings.{AreLandings};
ghost use Rattle.plane_stubs.specs.inner.Sites.{on_site};

use crate::held::Held;
use crate::landings::Landings;
use crate::site::Site;
use geo_kernel::List;
use path_wire::net_walks;
use pcb_islands::{Island, islands};
use pcb_model::Design;
use std::alloc::{AllocError, Global};

// Whether the pin is the first of the island.
fn begins_with(island: &Island, pin: u32) -> bool
    ensures { IsTrue result ↔ BeginsWith pin island.now }
{
    match island.pins.get(0) {
        Some(first) => *first == pin,
        None => false,
    }
}

// The place of the first island that begins with the pin.
fn beginning(found: &[Island], pin: u32) -> Option<usize>
    ensures { MatchOption result (All (λ (s : OneIsland). ¬ (BeginsWith pin s)) found.now)
        (IsBeginning found.now pin) }
{
    for place in 0..found.len() {
        if begins_with(&found[place], pin) {
            return Some(place);
        }
    }
    None
}

// The pins of a net.
fn pins_in(d: &Design, net: u32) -> &[u32]
    requires { net < length d.now.nets }
    ensures { result.now ≡ pins_of d.now net }
{
    d.nets.as_slice()[net as usize].pins.as_slice()
}

impl Site<'_> {
    // Whether a rib has the id.
    fn is_rib(&self, id: u64) -> bool
        ensures { IsTrue result ↔ ((self.now.first ≤ id) × (id < self.now.last)) }
    {
        self.first <= id && id < self.last
    }

    // Whether an item of the island is a rib.
    fn holds_rib(&self, island: &Island) -> bool
        ensures { IsTrue result ↔ Any (λ id. (self.now.first ≤ id) × (id < self.now.last)) island.now.items }
    {
        for id in island.items.as_slice() {
            if self.is_rib(*id) {
                return true;
            }
        }
        false
    }

    // A stub for an island that isn't served; whether one came.
    fn try_island(
        &self,
        alloc: Global,
        held: &mut Held,
        at: &Landings,
        island: &Island,
    ) -> Result<bool, AllocError>
        requires net { at.now.net < length self.now.d.nets }
        requires of_net { island.now.net ≡ at.now.net }
        requires held { IsHeld self.now held.old }
        requires landings { AreLandings (on_site self.now held.old.tiles.items) at.now.net at.now.rows }
        ensures held { OnOk result (IsHeld self.now held.new) }
        ensures tries { IfOk result
            (TriesIsland (on_site self.now held.old.tiles.items) island.now held.new.tiles.items) }
    {
        net_walks();
        let _ = &self.d;
        if self.holds_rib(island) {
            return Ok(false);
        }
        match self.stub_of(alloc, &held.tiles, &at.rows, island)? {
            Some(walk) => {
                self.lay_walk(alloc, held, island.net, &walk)?;
                Ok(true)
            }
            None => Ok(false),
        }
    }

    // One pin of a net that has these islands; whether a stub came.
    fn try_pin(
        &self,
        alloc: Global,
        held: &mut Held,
        at: &Landings,
        found: &[Island],
        pin: u32,
    ) -> Result<bool, AllocError>
        requires net { at.now.net < length self.now.d.nets }
        requires held { IsHeld self.now held.old }
        requires found { AreIslands self.now.d held.old.tiles.items at.now.net found.now }
        requires landings { AreLandings (on_site self.now held.old.tiles.items) at.now.net at.now.rows }
        ensures held { OnOk result (IsHeld self.now held.new) }
        ensures tries { IfOk result
            (HasTriedPin (on_site self.now held.old.tiles.items) at.now.net pin held.new.tiles.items) }
    {
        match beginning(found, pin) {
            Some(place) => self.try_island(alloc, held, at, &found[place]),
            None => Ok(false),
        }
    }

    // The islands after a pin, where a stub may have come.
    fn islands_after(
        &self,
        alloc: Global,
        held: &Held,
        net: u32,
        found: List<Island>,
        laid: bool,
    ) -> Result<List<Island>, AllocError>
        requires net { net < length self.now.d.nets }
        requires held { IsHeld self.now held.now }
        requires same { laid ≡ false → AreIslands self.now.d held.now.tiles.items net found }
        ensures { IfOk result (AreIslands self.now.d held.now.tiles.items net) }
    {
        if !laid {
            return Ok(found);
        }
        drop(found);
        islands(alloc, self.d, &held.tiles, net)
    }

    // All pins of a net.
    fn try_pins(&self, alloc: Global, held: &mut Held, at: &Landings) -> Result<(), AllocError>
        requires net { at.now.net < length self.now.d.nets }
        requires held { IsHeld self.now held.old }
        requires landings { AreLandings (on_site self.now held.old.tiles.items) at.now.net at.now.rows }
        ensures held { OnOk result (IsHeld self.now held.new) }
        ensures tries { OnOk result
            (TriesPins (on_site self.now held.old.tiles.items) at.now.net (pins_of self.now.d at.now.net)
            held.new.tiles.items) }
    {
        let mut found = islands(alloc, self.d, &held.tiles, at.net)?;
        let pins = pins_in(self.d, at.net);
        for pin in pins {
            let laid = self.try_pin(alloc, held, at, found.as_slice(), *pin)?;
            found = self.islands_after(alloc, held, at.net, found, laid)?;
        }
        Ok(())
    }

    /// All islands of a net.
    pub(crate) fn try_net(&self, alloc: Global, held: &mut Held, net: u32) -> Result<(), AllocError>
        requires net { net < length self.now.d.nets }
        requires held { IsHeld self.now held.old }
        ensures held { OnOk result (IsHeld self.now held.new) }
        ensures tries { OnOk result
            (TriesPins (on_site self.now held.old.tiles.items) net (pins_of self.now.d net) held.new.tiles.items) }
    {
        let _ = &self.d;
        let at = self.landings(alloc, &held.tiles, net)?;
        self.try_pins(alloc, held, &at)
    }
}
