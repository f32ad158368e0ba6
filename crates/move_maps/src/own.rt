//! The copper of a net itself, as windows of the lattice: the moves of all nodes out of them are clear of it.
//! There a map needs no look at the copper: what it counts is foreign.

ghost use Rattle.std.specs.Prelude.{◌<◌, ◌↔◌, length, IfOk, IsTrue, OnOk};
ghost use Rattle.std.specs.Bool.{OnTrue};
ghost use Rattle.pcb_model.specs.Bounds.{IsItemFit};
ghost use Rattle.route_lattice.specs.Mesh.{node_count};
ghost use Rattle.move_maps.specs.Windows.{IsOutOfAll, Widens};
ghost use Rattle.move_maps.specs.OwnCopper.{IsForeign, IsOwnCopper, TakesOwn};

use crate::cover::{cover, joined};
use crate::group::Group;
use crate::links::MOST_APART;
use crate::window::{Window, is_out_of_all};
use pcb_model::pieces::meets_vias;
use pcb_model::{Copper, Design, Extent, Item, Kind, clearance};
use route_lattice::{Ground, Lattice};
use std::alloc::{AllocError, Global};
use std::marker::Model;

/// Windows round the copper of a net. Contracts see them as their list.
#[derive(Drop)]
pub struct OwnCopper {
    windows: Vec<Window>,
}

impl Model for OwnCopper {
    ghost use Rattle.std.specs.Prelude.{List as Seq};
    ghost use Rattle.move_maps.specs.declared.window.Window.{Window as OneWindow};

    ghost Value = { Seq OneWindow };

    ghost view = { λ s. s.windows.items };
}

// Adds a window, or joins it to the last of many.
fn add_window(windows: &mut Vec<Window>, window: Window) -> Result<(), AllocError>
    ensures { OnOk result (Widens windows.old.items window windows.new.items) }
{
    if windows.len() >= MOST_APART
        && let Some(last) = windows.pop()
    {
        windows.push(joined(last, window))?;
        return Ok(());
    }
    windows.push(window)?;
    Ok(())
}

// Whether what the map counts of the item shuts moves of the net: the item is of another net, and no via touches it
// that keeps its clearance.
fn is_foreign(d: &Design, first: u32, net: u32, item: &Item) -> bool
    ensures { OnTrue result (IsForeign d.now first net item.now) }
{
    if item.net == Some(net) {
        return false;
    }
    if item.kind != Kind::Smd {
        return true;
    }
    if !meets_vias(&item.metal) {
        return false;
    }
    0 < clearance(d, Some(first), Kind::Via, item.net, item.kind)
}

// Takes an item in that isn't foreign; another item changes nothing.
fn take_item(
    windows: &mut Vec<Window>,
    group: &Group<'_>,
    net: u32,
    item: &Item,
) -> Result<(), AllocError>
    requires { IsItemFit item.now }
    ensures { let s = group.now in
        OnOk result (TakesOwn s.d s.lat s.first net item.now windows.old.items windows.new.items) }
{
    if is_foreign(group.d, group.first, net, item) {
        return Ok(());
    }
    let window = cover(group, Extent::of_item(item));
    add_window(windows, window)
}

impl OwnCopper {
    /// The windows round the copper of the net, for moves of the group of another.
    pub(crate) fn of<C: Copper>(
        alloc: Global,
        on: &Ground<'_, C>,
        first: u32,
        net: u32,
    ) -> Result<OwnCopper, AllocError>
        requires { first < length on.now.d.nets }
        ensures { IfOk result (IsOwnCopper on.now.d on.now.lat on.now.items first net) }
    {
        let copper = on.c;
        copper.in_order();
        let group = Group::of(on, first);
        let mut windows = Vec::new(alloc);
        let mut from = 0;
        while let Some(item) = copper.next_item(from) {
            take_item(&mut windows, &group, net, item)?;
            let Some(next) = item.id.checked_add(1) else {
                return Ok(OwnCopper { windows });
            };
            from = next;
        }
        Ok(OwnCopper { windows })
    }

    /// Whether the node is out of all windows.
    pub fn is_off(&self, lat: &Lattice, node: u32) -> bool
        requires { node < node_count lat.now }
        ensures { IsTrue result ↔ IsOutOfAll lat.now self.now node }
    {
        let width = lat.xs().len();
        let height = lat.ys().len();
        let place = node as usize;
        let column = place % width;
        let row = place / width % height;
        is_out_of_all(self.windows.as_slice(), column, row)
    }
}
