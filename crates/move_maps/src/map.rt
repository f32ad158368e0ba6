//! The maps of the groups, which follow some copper.

ghost use Rattle.std.specs.Prelude.{◌≡◌, ◌↔◌, ℕ, ◌*◌, ◌<◌, length, All, Contains, IfSome, IfNone};
ghost use Rattle.std.specs.Prelude.{IfOk, OnOk, OnErr, slice_index_or};
ghost use Rattle.pcb_model.specs.Sound.{IsSound, IsItemOf};
ghost use Rattle.route_lattice.specs.Fits.{FitsDesign};
ghost use Rattle.route_lattice.specs.Legal.{CanMove};
ghost use Rattle.move_maps.specs.Groups.{HasMap, AreAlike, AreMapped};
ghost use Rattle.move_maps.specs.Maps.{IsMapOf, IsSized, AreMapsOf, IsNotFor, Follows, FollowFrom};
ghost use Rattle.move_maps.specs.Starts.{AreInner};
ghost use Rattle.move_maps.specs.declared.map.GroupMap.{GroupMap as OneMap};

use crate::counts::Counts;
use crate::fill::counts_for;
use crate::firsts::first_nets;
use crate::group::{Group, are_alike};
use crate::inner::inner_points;
use crate::moves::MapMoves;
use crate::tally::change;
use geo_kernel::List;
use pcb_model::{Copper, Design, Item};
use route_lattice::{Ground, Lattice, LegalMoves};
use std::alloc::{AllocError, Global};
use std::marker::Model;

/// The map of a group: its first net, and for each index of each node how much shuts the move.
#[derive(Drop)]
pub struct GroupMap {
    pub first: u32,
    pub counts: Counts,
}

/// The maps of the first groups. Contracts see them as their list.
#[derive(Drop)]
pub struct MoveMaps {
    maps: Vec<GroupMap>,
}

impl Model for MoveMaps {
    ghost use Rattle.std.specs.Prelude.{List as Seq};
    ghost use Rattle.move_maps.specs.declared.map.GroupMap.{GroupMap as OneMap};

    ghost Value = { Seq OneMap };

    ghost view = { λ s. s.maps.items };
}

impl GroupMap {
    /// The same map once more.
    fn copy(&self, alloc: Global) -> Result<GroupMap, AllocError>
        ensures { IfOk result (λ g. g ≡ self.now) }
    {
        let counts = self.counts.copy(alloc)?;
        Ok(GroupMap {
            first: self.first,
            counts,
        })
    }
}

// Copies of the maps, in order.
fn copies_of(alloc: Global, maps: &[GroupMap]) -> Result<Vec<GroupMap>, AllocError>
    ensures { IfOk result (λ copies. copies.items ≡ maps.now) }
{
    let mut copies = Vec::new(alloc);
    for map in maps {
        copies.push(map.copy(alloc)?)?;
    }
    Ok(copies)
}

// Changes the counts of a map.
fn change_map<C: Copper>(on: &Ground<'_, C>, map: &mut GroupMap, gone: &[Item], come: &[Item])
    requires gone { All (IsItemOf on.now.d) gone.now }
    requires come { All (IsItemOf on.now.d) come.now }
    requires sized { IsSized on.now.d on.now.lat map.old }
    ensures { Follows on.now.d on.now.lat gone.now come.now map.old map.new }
{
    let group = Group::of(on, map.first);
    change(&group, &mut map.counts, gone, come);
}

// Changes the counts of each map.
fn change_all<C: Copper>(on: &Ground<'_, C>, maps: &mut [GroupMap], gone: &[Item], come: &[Item])
    requires gone { All (IsItemOf on.now.d) gone.now }
    requires come { All (IsItemOf on.now.d) come.now }
    requires maps { All (IsSized on.now.d on.now.lat) maps.old }
    ensures count { length maps.new ≡ length maps.old }
    ensures each { (k : ℕ) (o : OneMap) → k < length maps.old → Follows on.now.d on.now.lat gone.now come.now
        (slice_index_or maps.old k o) (slice_index_or maps.new k o) }
{
    for map in maps.iter_mut() {
        change_map(on, map, gone, come);
    }
}

// The maps of the groups of these nets for the copper.
fn maps_for<C: Copper>(
    alloc: Global,
    on: &Ground<'_, C>,
    inner: &[bool],
    firsts: &[u32],
) -> Result<Vec<GroupMap>, AllocError>
    requires inner { let m = on.now.lat in AreInner on.now.d m (length m.ys * length m.xs) inner.now }
    requires firsts { AreMapped on.now.d on.now.lat firsts.now }
    ensures { IfOk result (λ v. AreMapsOf on.now.d on.now.lat on.now.items v.items) }
{
    let mut maps = Vec::new(alloc);
    for first in firsts {
        let counts = counts_for(alloc, on, *first, inner)?;
        maps.push(GroupMap {
            first: *first,
            counts,
        })?;
    }
    Ok(maps)
}

/// The map of the net's group among the maps.
fn map_for<'a>(d: &Design, maps: &'a [GroupMap], net: u32) -> Option<&'a GroupMap>
    requires net { net < length d.now.nets }
    requires firsts { All (λ (g : OneMap). g.first < length d.now.nets) maps.now }
    ensures none { IfNone result (All (IsNotFor d.now net) maps.now) }
    ensures there { IfSome result (λ g. Contains maps.now g.now) }
    ensures alike { IfSome result (λ g. AreAlike d.now g.now.first net) }
{
    for map in maps {
        if are_alike(d, map.first, net) {
            return Some(map);
        }
    }
    None
}

impl MoveMaps {
    /// The maps of the first groups for the copper. `AllocError` comes only for want of memory.
    pub fn of<C: Copper>(
        alloc: Global,
        lat: &Lattice,
        d: &Design,
        c: &C,
    ) -> Result<MoveMaps, AllocError>
        requires sound { IsSound d.now }
        requires fits { FitsDesign d.now lat.now }
        requires serves { C.serves c.now d.now }
        ensures { IfOk result (AreMapsOf d.now lat.now (C.items c.now)) }
    {
        c.in_order();
        let on = Ground { lat, d, c };
        let firsts = first_nets(alloc, &on)?;
        let inner = inner_points(alloc, &on)?;
        let maps = maps_for(alloc, &on, inner.as_slice(), firsts.as_slice())?;
        Ok(MoveMaps { maps })
    }

    /// The same maps once more. `AllocError` comes only for want of memory.
    pub fn copy(&self, alloc: Global) -> Result<MoveMaps, AllocError>
        ensures { IfOk result (λ maps. maps ≡ self.now) }
    {
        let maps = copies_of(alloc, self.maps.as_slice())?;
        Ok(MoveMaps { maps })
    }

    /// Takes the items that are gone out of the counts and brings in those that have come, so that the maps answer
    /// for the copper. Where memory is wanting nothing changes.
    pub fn follow<C: Copper>(
        &mut self,
        lat: &Lattice,
        d: &Design,
        c: &C,
        gone: &List<Item>,
        come: &List<Item>,
    ) -> Result<(), AllocError>
        requires sound { IsSound d.now }
        requires fits { FitsDesign d.now lat.now }
        requires serves { C.serves c.now d.now }
        requires follows { FollowFrom d.now lat.now gone.now come.now (C.items c.now) self.old }
        ensures ok { OnOk result (AreMapsOf d.now lat.now (C.items c.now) self.new) }
        ensures err { OnErr result (self.new ≡ self.old) }
    {
        c.in_order();
        let on = Ground { lat, d, c };
        let maps = self.maps.as_mut_slice();
        change_all(&on, maps, gone.as_slice(), come.as_slice());
        Ok(())
    }

    /// The map of the net's group, or None where none of the maps is one of it.
    pub fn map_of(&self, d: &Design, net: u32) -> Option<&GroupMap>
        requires net { net < length d.now.nets }
        requires firsts { All (λ (g : OneMap). g.first < length d.now.nets) self.now }
        ensures none { IfNone result (All (IsNotFor d.now net) self.now) }
        ensures there { IfSome result (λ g. Contains self.now g.now) }
        ensures alike { IfSome result (λ g. AreAlike d.now g.now.first net) }
    {
        map_for(d, self.maps.as_slice(), net)
    }

    /// The moves of a net on the copper that the maps follow, or None exactly where the net has no map.
    pub fn moves<'a, C: Copper>(
        &'a self,
        lat: &'a Lattice,
        d: &'a Design,
        c: &'a C,
        net: u32,
        via_cost: u64,
    ) -> Option<MapMoves<'a, C>>
        requires can_move { CanMove d.now lat.now net via_cost }
        requires serves { C.serves c.now d.now }
        requires maps { AreMapsOf d.now lat.now (C.items c.now) self.now }
        ensures none { IfNone result (¬ (HasMap d.now lat.now net)) }
        ensures mapped { IfSome result (λ s. HasMap d.now lat.now net) }
        ensures lat { IfSome result (λ s. s.legal.lat.now ≡ lat.now) }
        ensures d { IfSome result (λ s. s.legal.d.now ≡ d.now) }
        ensures c { IfSome result (λ s. s.legal.c.now ≡ c.now) }
        ensures net { IfSome result (λ s. s.legal.net ≡ net) }
        ensures via_cost { IfSome result (λ s. s.legal.via_cost ≡ via_cost) }
        ensures map { IfSome result (λ s. IsMapOf d.now lat.now (C.items c.now) s.map.now) }
        ensures alike { IfSome result (λ s. AreAlike d.now s.map.now.first net) }
    {
        match map_for(d, self.maps.as_slice(), net) {
            Some(map) => Some(MapMoves {
                legal: LegalMoves::of(lat, d, c, net, via_cost),
                map,
            }),
            None => None,
        }
    }
}
