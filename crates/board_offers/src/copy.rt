//! Copies of offers.
//! An offer owns its lists, so a copy takes memory for them.

ghost use Rattle.std.specs.Prelude.{◌≡◌, IfOk};

use crate::offer::{Offer, Shoved};
use geo_kernel::List;
use pcb_model::{Metal, copy_metal};
use std::alloc::{AllocError, Global};

fn copy_metals(alloc: Global, metals: &[Metal]) -> Result<List<Metal>, AllocError>
    ensures { IfOk result (λ ms. ms ≡ metals.now) }
{
    let mut copies = List::new(alloc);
    for m in metals {
        copies.push(copy_metal(alloc, m)?)?;
    }
    Ok(copies)
}

fn copy_shoves(alloc: Global, shoves: &[Shoved]) -> Result<List<Shoved>, AllocError>
    ensures { IfOk result (λ ss. ss ≡ shoves.now) }
{
    let mut copies = List::new(alloc);
    for s in shoves {
        copies.push(Shoved {
            id: s.id,
            chain: List::from_slice(alloc, s.chain.as_slice())?,
        })?;
    }
    Ok(copies)
}

/// An equal offer. `AllocError` comes only for want of memory.
pub fn copy_offer(alloc: Global, o: &Offer) -> Result<Offer, AllocError>
    ensures { IfOk result (λ p. p ≡ o.now) }
{
    let rip = List::from_slice(alloc, o.rip.as_slice())?;
    let add = copy_metals(alloc, o.add.as_slice())?;
    let shoves = copy_shoves(alloc, o.shoves.as_slice())?;
    Ok(Offer {
        base: o.base,
        worker: o.worker,
        net: o.net,
        from: o.from,
        to: o.to,
        penalty: o.penalty,
        add,
        rip,
        shoves,
    })
}
