//! What is left of a session when each fixed wire and via has taken away the first item that is the same.
//! The items of a net are linked, so that a fixed item is compared with those of its net alone.

ghost use Rattle.std.specs.Prelude.{◌≡◌, ◌<◌, length, All, IfOk, IfSome, Some};
ghost use Rattle.pcb_model.specs.declared.item.Item.{Item as OneItem};
ghost use Rattle.pcb_model.specs.Sound.{IsSound};
ghost use Rattle.ses_reader.specs.Sound.{IsItemSound};
ghost use Rattle.route_check.specs.Board.{left_of, without};
ghost use Rattle.route_check.specs.inner.Left.{AreLinked, kept};

use crate::equal::is_same;
use geo_kernel::List;
use pcb_model::{Design, Item, copy_metal};
use ses_reader::SesItem;
use std::alloc::{AllocError, Global};

/// The items of a session: of each net its first item, and of each item the next one of its net; where there is none,
/// the number of items.
#[derive(Drop)]
struct Linked<'a> {
    xs: &'a [SesItem],
    first: Vec<usize>,
    next: Vec<usize>,
    nets: usize,
    ghost linked: { AreLinked xs.now nets 0 first.items next.items },
}

// Links the items from the last to the first.
fn link<'a>(alloc: Global, nets: usize, xs: &'a [SesItem]) -> Result<Linked<'a>, AllocError>
    requires { All (λ x. x.net < nets) xs.now }
    ensures xs { IfOk result (λ l. l.xs.now ≡ xs.entry.now) }
    ensures nets { IfOk result (λ l. l.nets ≡ nets) }
{
    let count = xs.len();
    let mut first = vec![in alloc; count; nets]?;
    let mut next = vec![in alloc; count; count]?;
    for k in 0..count {
        let i = count - 1 - k;
        let net = xs[i].net as usize;
        next[i] = first[net];
        first[net] = i;
    }
    Ok(Linked {
        xs,
        first,
        next,
        nets,
    })
}

impl Linked<'_> {
    // Takes away the first item that is there and the same as the fixed one, which has this net.
    fn take_first(&self, gone: &mut Vec<bool>, a: &Item, net: u32)
        requires net { a.now.net ≡ Some net }
        requires within { net < self.now.nets }
        requires count { length gone.old.items ≡ length self.now.xs.now }
        ensures count { length gone.new.items ≡ length gone.old.items }
        ensures taken { kept gone.new.items self.now.xs.now ≡ without a.now (kept gone.old.items self.now.xs.now) }
    {
        let count = self.xs.len();
        let mut place = self.first[net as usize];
        while place < count {
            if !gone[place] && is_same(a, &self.xs[place]) {
                gone[place] = true;
                return;
            }
            place = self.next[place];
        }
    }

    fn take_away(&self, gone: &mut Vec<bool>, a: &Item)
        requires net { IfSome a.now.net (λ net. net < self.now.nets) }
        requires count { length gone.old.items ≡ length self.now.xs.now }
        ensures count { length gone.new.items ≡ length gone.old.items }
        ensures taken { kept gone.new.items self.now.xs.now ≡ without a.now (kept gone.old.items self.now.xs.now) }
    {
        match a.net {
            Some(net) => self.take_first(gone, a, net),
            None => {}
        }
    }

    // Each fixed item takes away the first one that is the same.
    fn take_each(&self, gone: &mut Vec<bool>, fixed: &[Item])
        requires nets { All (λ (a : OneItem). IfSome a.net (λ net. net < self.now.nets)) fixed.now }
        requires count { length gone.old.items ≡ length self.now.xs.now }
        ensures count { length gone.new.items ≡ length gone.old.items }
        ensures taken { kept gone.new.items self.now.xs.now ≡ left_of fixed.now (kept gone.old.items self.now.xs.now) }
    {
        for a in fixed {
            self.take_away(gone, a);
        }
    }
}

// Which items of a session are gone when each fixed wire and via has taken away the first one that is the same.
fn gone_items(alloc: Global, d: &Design, xs: &[SesItem]) -> Result<Vec<bool>, AllocError>
    requires sound { IsSound d.now }
    requires items { All (IsItemSound d.now) xs.now }
    ensures count { IfOk result (λ gone. length gone.items ≡ length xs.now) }
    ensures left { IfOk result (λ gone. kept gone.items xs.now ≡ left_of d.now.fixed xs.now) }
{
    let linked = link(alloc, d.nets.len(), xs)?;
    let mut gone = vec![in alloc; false; xs.len()]?;
    linked.take_each(&mut gone, d.fixed.as_slice());
    Ok(gone)
}

fn copy_of(alloc: Global, x: &SesItem) -> Result<SesItem, AllocError>
    ensures { IfOk result (λ copy. copy ≡ x.now) }
{
    let metal = copy_metal(alloc, &x.metal)?;
    Ok(SesItem {
        at: x.at,
        net: x.net,
        metal,
    })
}

// The items that aren't gone.
fn kept_items(alloc: Global, xs: &[SesItem], gone: &[bool]) -> Result<List<SesItem>, AllocError>
    requires { length gone.now ≡ length xs.now }
    ensures { IfOk result (λ left. left ≡ kept gone.now xs.now) }
{
    let mut left = List::new(alloc);
    for (i, x) in xs.iter().enumerate() {
        if !gone[i] {
            left.push(copy_of(alloc, x)?)?;
        }
    }
    Ok(left)
}

/// What is left of a session, in order: each fixed wire and via of the design takes away the first item that is the
/// same. `AllocError` comes only for want of memory.
pub fn items_left(
    alloc: Global,
    d: &Design,
    xs: &List<SesItem>,
) -> Result<List<SesItem>, AllocError>
    requires sound { IsSound d.now }
    requires items { All (IsItemSound d.now) xs.now }
    ensures { IfOk result (λ left. left ≡ left_of d.now.fixed xs.now) }
{
    let gone = gone_items(alloc, d, xs.as_slice())?;
    kept_items(alloc, xs.as_slice(), &gone)
}
