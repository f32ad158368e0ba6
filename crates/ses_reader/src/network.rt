//! The nets of a session, each with its wires and vias, in the text's order.
//! Source: SPECCTRA reference, network_out descriptor.

ghost use Rattle.std.specs.Prelude.{◌≡◌, ◌≤◌, ◌++◌, is_some, map, IfOk, OnOk};
ghost use Rattle.std.specs.List.{flat_map};
ghost use Rattle.dsn_shapes.specs.Lists.{place_of, trees_of};
ghost use Rattle.dsn_shapes.specs.Refusals.{noted};
ghost use Rattle.ses_reader.specs.Measures.{refused_unless};
ghost use Rattle.ses_reader.specs.Copper.{metal_of, metal_refusals};
ghost use Rattle.ses_reader.specs.Session.{item_of, net_items, net_place, net_refusals, network_items};
ghost use Rattle.ses_reader.specs.Session.{network_refusals};

use crate::index::DesignIndex;
use crate::item::SesItem;
use crate::measure::Measure;
use crate::numbers::note_unless;
use crate::table::NO_NET;
use crate::via::note_via;
use crate::wire::note_wire;
use dsn_shapes::{Refusal, Trees, at_of, name_of, place_index, place_of};
use dsn_tree::{Tree, is_headed};
use geo_kernel::List;
use pcb_model::{Design, Metal};
use std::alloc::{AllocError, Global};

#[tactic(auto, unfolding(crate::specs::Copper::metal_of, crate::specs::Copper::metal_refusals))]
fn note_metal(
    alloc: Global,
    first: &mut Option<Refusal>,
    index: &DesignIndex,
    tree: &Tree,
    m: Measure,
) -> Result<Metal, AllocError>
    requires { 1 ≤ m.per }
    ensures noted { OnOk result (first.new ≡ noted first.old (metal_refusals index.now m tree.now)) }
    ensures value { IfOk result (λ v. v ≡ metal_of index.now m tree.now) }
{
    if is_headed(tree, b"via") {
        Ok(note_via(first, index, tree, m))
    } else {
        note_wire(alloc, first, index, tree, m)
    }
}

// Appends these wires and vias of a net.
fn push_items(
    alloc: Global,
    first: &mut Option<Refusal>,
    index: &DesignIndex,
    copper: &[&Tree],
    m: Measure,
    net: u32,
    found: &mut List<SesItem>,
) -> Result<(), AllocError>
    requires { 1 ≤ m.per }
    ensures noted { OnOk result (first.new ≡ noted first.old
        (flat_map (metal_refusals index.now m) (trees_of copper.now))) }
    ensures value { OnOk result (found.new ≡ found.old ++ map (item_of index.now m net) (trees_of copper.now)) }
{
    for tree in copper {
        let metal = note_metal(alloc, first, index, tree, m)?;
        found.push(SesItem {
            at: at_of(tree),
            net,
            metal,
        })?;
    }
    Ok(())
}

// Where a net of a session stands in the design.
fn note_net(first: &mut Option<Refusal>, index: &DesignIndex, net: &Tree) -> Option<usize>
    ensures noted { first.new ≡ noted first.old
        (refused_unless (is_some (net_place index.now net.now)) NO_NET (place_of net.now 1)) }
    ensures value { result ≡ net_place index.now net.now }
{
    let place = index.net(name_of(net, 1));
    note_unless(first, place.is_some(), NO_NET, place_of(net, 1));
    place
}

// Appends the items of a net.
#[tactic(auto, unfolding(crate::specs::Session::net_items, crate::specs::Session::net_refusals))]
fn push_net(
    alloc: Global,
    first: &mut Option<Refusal>,
    index: &DesignIndex,
    net: &Tree,
    m: Measure,
    found: &mut List<SesItem>,
) -> Result<(), AllocError>
    requires { 1 ≤ m.per }
    ensures noted { OnOk result (first.new ≡ noted first.old (net_refusals index.now m net.now)) }
    ensures value { OnOk result (found.new ≡ found.old ++ net_items index.now m net.now) }
{
    let place = note_net(first, index, net);
    let heads: [&[u8]; 2] = [b"wire", b"via"];
    let copper = Trees::one(alloc, net)?.lists(alloc, &heads)?;
    let number = place_index(place.unwrap_or(0));
    push_items(alloc, first, index, copper.as_slice(), m, number, found)
}

fn read_nets(
    alloc: Global,
    first: &mut Option<Refusal>,
    index: &DesignIndex,
    nets: &[&Tree],
    m: Measure,
) -> Result<List<SesItem>, AllocError>
    requires { 1 ≤ m.per }
    ensures noted { OnOk result (first.new ≡ noted first.old
        (flat_map (net_refusals index.now m) (trees_of nets.now))) }
    ensures value { IfOk result (λ v. v ≡ flat_map (net_items index.now m) (trees_of nets.now)) }
{
    let mut found = List::new(alloc);
    for net in nets {
        match push_net(alloc, first, index, net, m, &mut found) {
            Ok(()) => {}
            Err(error) => {
                drop(found);
                return Err(error);
            }
        }
    }
    Ok(found)
}

/// The items of all nets of a `network_out`.
pub(crate) fn note_network(
    alloc: Global,
    first: &mut Option<Refusal>,
    d: &Design,
    network: &Tree,
    m: Measure,
) -> Result<List<SesItem>, AllocError>
    requires { 1 ≤ m.per }
    ensures noted { OnOk result (first.new ≡ noted first.old (network_refusals d.now m network.now)) }
    ensures value { IfOk result (λ v. v ≡ network_items d.now m network.now) }
{
    let nets = Trees::in_list(alloc, network, b"net")?;
    let index = match DesignIndex::of(alloc, d) {
        Ok(index) => index,
        Err(error) => {
            drop(nets);
            return Err(error);
        }
    };
    let items = read_nets(alloc, first, &index, nets.as_slice(), m);
    drop((index, nets));
    items
}
