//! Ids among ids, and the ids that an offer names.
//! An offer rips items up or shoves wires aside; either way their ids go.

ghost use Rattle.std.specs.Prelude.{◌≡◌, ◌≢◌, ◌==◌, ◌↔◌, ◌<◌, ◌⊎◌, [], AllPairs, IfOk, IsTrue, length, map};
ghost use Rattle.std.specs.List.{list_any};
ghost use Rattle.board_offers.specs.declared.offer.Shoved.{Shoved as OneShove};
ghost use Rattle.board_offers.specs.Items.{names, gone};
ghost use Rattle.board_offers.specs.Offers.{NamesOnce};

use crate::offer::{Offer, Shoved};
use std::alloc::{AllocError, Global};

/// Whether the id is among the ids.
pub(crate) fn is_named(ids: &[u64], id: u64) -> bool
    ensures { result ≡ names ids.now id }
{
    for x in ids {
        if *x == id {
            return true;
        }
    }
    false
}

// Whether the id is that of a shove.
fn is_shoved(shoves: &[Shoved], id: u64) -> bool
    ensures { result ≡ list_any (λ (s : OneShove). s.id == id) shoves.now }
{
    for s in shoves {
        if s.id == id {
            return true;
        }
    }
    false
}

// Whether no id stands twice.
fn are_distinct(ids: &[u64]) -> bool
    ensures { IsTrue result ↔ AllPairs (λ x y. x ≢ y) ids.now }
{
    for i in 0..ids.len() {
        if is_named(&ids[..i], ids[i]) {
            return false;
        }
    }
    true
}

// Whether no id is shoved twice.
fn are_shoved_once(shoves: &[Shoved]) -> bool
    ensures { IsTrue result ↔ AllPairs (λ x y. x ≢ y) (map (λ (s : OneShove). s.id) shoves.now) }
{
    for i in 0..shoves.len() {
        if is_shoved(&shoves[..i], shoves[i].id) {
            return false;
        }
    }
    true
}

// Whether one of two lists is empty, so that an offer doesn't both rip and shove.
fn is_one_empty(rip: &[u64], shoves: &[Shoved]) -> bool
    ensures { IsTrue result ↔ ((rip.now ≡ []) ⊎ (shoves.now ≡ [])) }
{
    rip.is_empty() || shoves.is_empty()
}

/// Whether an offer rips or shoves, not both, and nothing twice.
pub(crate) fn names_once(offer: &Offer) -> bool
    ensures { IsTrue result ↔ NamesOnce offer.now }
{
    let rip = offer.rip.as_slice();
    let shoves = offer.shoves.as_slice();
    if !is_one_empty(rip, shoves) {
        return false;
    }
    if !are_distinct(rip) {
        return false;
    }
    are_shoved_once(shoves)
}

/// The ids that an offer takes out: those that it rips, and behind them those that it shoves.
/// `AllocError` comes only for want of memory.
pub fn gone_ids(alloc: Global, offer: &Offer) -> Result<Vec<u64>, AllocError>
    ensures { IfOk result (λ ids. ids.items ≡ gone offer.now) }
{
    let shoves = offer.shoves.as_slice();
    let mut ids = Vec::from_slice(alloc, offer.rip.as_slice())?;
    for s in shoves {
        ids.push(s.id)?;
    }
    Ok(ids)
}
