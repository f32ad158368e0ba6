//! Whether an offer is well formed, and the items that it makes.
//! An offer is judged by the design, the items ever given and the number of entries, not by what is on the board now.

ghost use Rattle.std.specs.Prelude.{◌≡◌, IfOk, OnErr};
ghost use Rattle.pcb_model.specs.Sound.{IsSound};
ghost use Rattle.board_offers.specs.Given.{AreGiven};
ghost use Rattle.board_offers.specs.Judging.{known_by, Judges};
ghost use Rattle.board_offers.specs.Offers.{IsMakeable};

use crate::clauses::{has_ends, is_timely, leads_across, lie_inside, may_rip_all};
use crate::ids::names_once;
use crate::make::added_items;
use crate::metals::has_metals;
use crate::offer::Offer;
use crate::pairs::all_agree;
use crate::shoves::replacements;
use geo_kernel::List;
use pcb_model::{Design, Item};
use std::alloc::{AllocError, Global};

/// The first clause that an offer breaks, or the new items of one that breaks none.
#[derive(Drop)]
pub enum Judged {
    Fault(u8),
    Fine(List<Item>),
}

/// The first clause that an offer breaks, or its new items: those that it adds, and behind them the replacements
/// of what it shoves. It takes memory for these items alone, so `AllocError` comes only for want of memory, and only
/// where the first three clauses hold.
pub fn judge(
    alloc: Global,
    d: &Design,
    given: &[Item],
    entries: u64,
    offer: &Offer,
) -> Result<Judged, AllocError>
    requires sound { IsSound d.now }
    requires given { AreGiven d.now given.now }
    ensures judged { IfOk result (Judges (known_by d.now given.now entries) offer.now) }
    ensures memory { OnErr result (IsMakeable (known_by d.now given.now entries) offer.now) }
{
    let net = offer.net;
    let add = offer.add.as_slice();
    if !is_timely(entries, offer) {
        return Ok(Judged::Fault(1));
    }
    if !has_ends(d, given, offer) {
        return Ok(Judged::Fault(2));
    }
    if !has_metals(d, net, add) {
        return Ok(Judged::Fault(3));
    }
    let first = given.len() as u64;
    let mut items = added_items(alloc, d, net, first, add)?;
    let added = items.as_slice();
    if !leads_across(given, offer.from, added, offer.to) {
        return Ok(Judged::Fault(4));
    }
    if !lie_inside(d, added) {
        return Ok(Judged::Fault(5));
    }
    if !names_once(offer) {
        return Ok(Judged::Fault(6));
    }
    if !may_rip_all(d, given, net, added, offer.rip.as_slice()) {
        return Ok(Judged::Fault(7));
    }
    let behind = first + add.len() as u64;
    let shoves = offer.shoves.as_slice();
    let Some(mut others) = replacements(alloc, d, given, net, added, behind, shoves)? else {
        return Ok(Judged::Fault(8));
    };
    items.append(&mut others)?;
    if !all_agree(d, items.as_slice()) {
        return Ok(Judged::Fault(9));
    }
    Ok(Judged::Fine(List::from_vec(items)))
}
