//! The routed items that are in the way of new ones.
//! They are found from id to id, behind the fixed items.

ghost use Rattle.std.specs.Prelude.{◌≡◌, ◌↔◌, ◌<◌, ◌^◌, [], All, Contains, IfOk, IsTrue, MatchOption, OnOk, Some};
ghost use Rattle.std.specs.Prelude.{length};
ghost use Rattle.std.specs.Option.{option_copied};
ghost use Rattle.pcb_model.specs.Bounds.{IsItemFit};
ghost use Rattle.pcb_model.specs.Pairs.{Agrees};
ghost use Rattle.pcb_model.specs.Sound.{IsSound, IsItemOf, Serves};
ghost use Rattle.pcb_model.specs.Copper.{Ascends, Finds};
ghost use Rattle.route_lattice.specs.Found.{AreSorted};
ghost use Rattle.ripup.specs.Rips.{AreIdsInWay};
ghost use Rattle.ripup.specs.inner.Steps.{AreInWayBelow, AreInWayOfOne, AreInWayOfAll};

use geo_kernel::List;
use pcb_model::{Copper, Design, Item, agree};
use std::alloc::{AllocError, Global};
use std::marker::Model;

/// A sound design, and copper that serves it. Nothing is asked of a lattice here.
#[derive(Drop)]
struct Served<'a, C: Copper> {
    d: &'a Design,
    copper: &'a C,
}

impl<'a, C: Copper> Model for Served<'a, C> {
    ghost use Rattle.ripup.specs.inner.Served.{ServedOf, IsServed};

    ghost Value = { ServedOf };

    ghost view = { λ s. record { d = s.d.now; items = C.items s.copper.now } };

    ghost invariant = { λ s. IsServed C.Copper s.d.now s.copper.now };
}

impl<C: Copper> Served<'_, C> {
    /// What the two keep: a call that does nothing but say so.
    fn keeps(&self)
        ensures sound { IsSound self.now.d }
        ensures serves { Serves self.now.items self.now.d }
        ensures ascends { Ascends self.now.items }
        ensures ids { All (λ b. b.id < 2 ^ 64) self.now.items }
    {
        self.copper.in_order();
    }

    /// How many fixed items the design has.
    fn fixed_count(&self) -> u64
        ensures { result ≡ length self.now.d.fixed }
    {
        self.d.fixed.len() as u64
    }

    /// The item of this id, which is one of the design, or None exactly where there is none.
    fn item(&self, id: u64) -> Option<&Item>
        ensures { MatchOption (option_copied result) (All (λ b. b.id ≡ id → ⊥) self.now.items)
            (λ b. Contains self.now.items b × (b.id ≡ id) × IsItemOf self.now.d b) }
    {
        self.copper.item(id)
    }

    /// The least id at or above `from` of an item that disagrees with this one, other than the one with its id.
    fn next_clash(&self, item: &Item, from: u64) -> Option<u64>
        requires { IsItemFit item.now }
        ensures { Finds (λ b. Agrees self.now.d item.now b → ⊥) (Agrees self.now.d item.now) from (Some item.now.id)
            self.now.items result }
    {
        self.copper.clash_from(self.d, item, from)
    }

    /// Whether two items agree.
    fn agree(&self, item: &Item, other: &Item) -> bool
        requires item_fits { IsItemFit item.now }
        requires other_fits { IsItemFit other.now }
        ensures { IsTrue result ↔ Agrees self.now.d item.now other.now }
    {
        agree(self.d, item, other)
    }
}

/// Appends the id of an item that has the id of a new one, if it is in its way.
fn push_namesake<C: Copper>(
    found: &mut Vec<u64>,
    on: &Served<'_, C>,
    item: &Item,
) -> Result<(), AllocError>
    requires { IsItemFit item.now }
    ensures { OnOk result (AreInWayBelow on.now.d on.now.items item.now (length on.now.d.fixed) found.old.items
        found.new.items) }
{
    on.keeps();
    let Some(other) = on.item(item.id) else {
        return Ok(());
    };
    if other.fixed {
        return Ok(());
    }
    if on.agree(item, other) {
        return Ok(());
    }
    found.push(other.id)?;
    Ok(())
}

/// Appends the ids of the routed items that are in the way of a new one.
fn push_in_way<C: Copper>(
    found: &mut Vec<u64>,
    on: &Served<'_, C>,
    item: &Item,
) -> Result<(), AllocError>
    requires { IsItemFit item.now }
    ensures { OnOk result (AreInWayOfOne on.now.d on.now.items item.now found.old.items found.new.items) }
{
    on.keeps();
    push_namesake(found, on, item)?;
    let mut from = on.fixed_count();
    while let Some(id) = on.next_clash(item, from) {
        found.push(id)?;
        let Some(next) = id.checked_add(1) else {
            return Ok(());
        };
        from = next;
    }
    Ok(())
}

/// The ids of the routed items that are in the way of new ones, in any order.
fn gather_in_way<C: Copper>(
    alloc: Global,
    on: &Served<'_, C>,
    new: &[Item],
) -> Result<Vec<u64>, AllocError>
    requires { All IsItemFit new.now }
    ensures { IfOk result (λ found. AreInWayOfAll on.now.d on.now.items new.now found.items) }
{
    let mut found = Vec::new(alloc);
    for item in new {
        push_in_way(&mut found, on, item)?;
    }
    Ok(found)
}

fn ascending(mut ids: Vec<u64>) -> List<u64>
    ensures { AreSorted ids.items result }
{
    ids.sort_unstable();
    ids.dedup();
    List::from_vec(ids)
}

/// The ids of all routed items that disagree with one of the new ones, ascending.
/// `AllocError` comes only for want of memory.
pub fn to_rip<C: Copper>(
    alloc: Global,
    d: &Design,
    c: &C,
    new: &List<Item>,
) -> Result<List<u64>, AllocError>
    requires sound { IsSound d.now }
    requires serves { C.serves c.now d.now }
    requires fit { All IsItemFit new.now }
    ensures { IfOk result (AreIdsInWay d.now (C.items c.now) new.now) }
{
    let on = Served { d, copper: c };
    let found = gather_in_way(alloc, &on, new.as_slice())?;
    Ok(ascending(found))
}
