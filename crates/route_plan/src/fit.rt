//! The first run of a wire that can be moved to the next line, among the items of a ground and beside new ones.
//! Runs are tried in order, each up before down.

ghost use Rattle.std.specs.Prelude.{◌≡◌, ◌↔◌, ◌+◌, ◌-◌, ◌<◌, All, IfOk, IsTrue, length};
ghost use Rattle.pcb_model.specs.declared.item.Item.{Item as OneItem};
ghost use Rattle.pcb_model.specs.Bounds.{IsItemFit, IsMetalFit};
ghost use Rattle.pcb_model.specs.Pairs.{Agrees};
ghost use Rattle.pcb_model.specs.Sound.{IsItemOf};
ghost use Rattle.shove.specs.Shoves.{IsWire, chain_of, with_chain, reshaped};
ghost use Rattle.route_plan.specs.inner.Ways.{FindsFit, FindsFirst};

use geo_kernel::{List, Point};
use pcb_model::{Copper, Design, Item, Metal, agree, make_item};
use route_lattice::Lattice;
use shove::{shove_at, shoved_chains};
use std::alloc::{AllocError, Global};
use std::marker::Model;

/// How many runs a wire has; other metals have none.
fn run_count(metal: &Metal) -> usize
    ensures { result ≡ length (chain_of metal.now) - 1 }
{
    match metal {
        Metal::Wire { chain, .. } => chain.len().saturating_sub(1),
        _ => 0,
    }
}

/// New items, whose numbers are within the bounds, on their ground: a lattice, its sound design, and copper that serves
/// it.
#[derive(Drop)]
pub(crate) struct NewItems<'a, C: Copper> {
    pub lat: &'a Lattice,
    pub d: &'a Design,
    pub copper: &'a C,
    pub new: &'a [Item],
}

impl<'a, C: Copper> Model for NewItems<'a, C> {
    ghost use Rattle.std.specs.Prelude.{All};
    ghost use Rattle.pcb_model.specs.Bounds.{IsItemFit};
    ghost use Rattle.route_lattice.specs.Ground.{IsGround, ground_of};
    ghost use Rattle.route_plan.specs.inner.NewItems.{NewItemsOf};

    ghost Value = { NewItemsOf };

    ghost view = { λ s. record { on = ground_of s.d.now s.lat.now (C.items s.copper.now); new = s.new.now } };

    ghost invariant = { λ s. IsGround C.Copper s.d.now s.lat.now s.copper.now × All IsItemFit s.new.now };
}

impl<C: Copper> NewItems<'_, C> {
    /// Whether each of the new items agrees with another one.
    fn all_agree_with(&self, item: &Item) -> bool
        requires { IsItemFit item.now }
        ensures { IsTrue result ↔ All (λ (a : OneItem). Agrees self.now.on.d a item.now) self.now.new }
    {
        let d = self.d;
        let new = self.new;
        for a in new {
            if !agree(d, a, item) {
                return false;
            }
        }
        true
    }

    /// A wire with another chain.
    fn reshape(&self, alloc: Global, item: &Item, chain: List<Point>) -> Result<Item, AllocError>
        requires wire { IsWire item.now.metal }
        requires fit { IsMetalFit (with_chain chain item.now.metal) }
        ensures { IfOk result (λ moved. moved ≡ reshaped self.now.on.d item.now.id chain item.now) }
    {
        let Metal::Wire { layer, width, .. } = &item.metal else {
            unreachable!();
        };
        let metal = Metal::Wire {
            layer: *layer,
            width: *width,
            chain,
        };
        make_item(alloc, self.d, item.id, item.net, false, metal)
    }

    /// The wire with run `run` moved to the next line at greater coordinate, or at lesser where `up` is false,
    /// if it fits among the items of the ground and beside the new ones.
    fn fit(
        &self,
        alloc: Global,
        item: &Item,
        run: usize,
        up: bool,
    ) -> Result<Option<Item>, AllocError>
        requires item { IsItemOf self.now.on.d item.now }
        requires run { run + 1 < length (chain_of item.now.metal) }
        ensures { IfOk result (FindsFit self.now.on.d self.now.on.lat self.now.on.items self.now.new item.now run up) }
    {
        shoved_chains();
        let Some(shape) = shove_at(alloc, self.lat, self.d, self.copper, item, run, up)? else {
            return Ok(None);
        };
        let moved = self.reshape(alloc, item, shape.chain)?;
        if self.all_agree_with(&moved) {
            Ok(Some(moved))
        } else {
            Ok(None)
        }
    }

    /// The wire with the first run moved that fits.
    pub(crate) fn first_fit(&self, alloc: Global, item: &Item) -> Result<Option<Item>, AllocError>
        requires { IsItemOf self.now.on.d item.now }
        ensures { IfOk result (FindsFirst self.now.on.d self.now.on.lat self.now.on.items self.now.new item.now) }
    {
        for run in 0..run_count(&item.metal) {
            if let Some(moved) = self.fit(alloc, item, run, true)? {
                return Ok(Some(moved));
            }
            if let Some(moved) = self.fit(alloc, item, run, false)? {
                return Ok(Some(moved));
            }
        }
        Ok(None)
    }
}
