//! What a committed offer changes: the tiles, and the index of the last entries.
//! New tiles are a share of the old ones that is changed, so nothing has to be undone where memory is wanting.

ghost use Rattle.std.specs.Prelude.{◌≡◌, ℕ, ◌+◌, ◌<◌, ◌≤◌, ◌^◌, if◌then◌else◌, ◌++◌, ◌∷◌, [], All, IfOk, OnOk, IfErr};
ghost use Rattle.std.specs.Prelude.{OnErr, Some, length, slice_get, vec_len, vec_capacity};
ghost use Rattle.pcb_model.specs.declared.item.Item.{Item as OneItem};
ghost use Rattle.pcb_model.specs.Bounds.{IsItemFit};
ghost use Rattle.pcb_tiles.specs.Spread.{holding};
ghost use Rattle.board_offers.specs.declared.offer.Offer.{Offer as OneOffer};
ghost use Rattle.board_offers.specs.Items.{without, gone};
ghost use Rattle.pcb_board.specs.Boards.{is_worker};
ghost use Rattle.pcb_board.specs.inner.Renewing.{IsRenewed, IsJoin};

use crate::answer::{Entry, OfferBack};
use board_offers::{CLOSER, Offer, gone_ids};
use geo_kernel::List;
use pcb_model::{Copper, Item, copy_item};
use pcb_tiles::Tiles;
use std::alloc::{AllocError, AllocFailed, Global};

/// The offer of a join.
pub(crate) fn offer_of(entry: Entry) -> Offer
    requires { IsJoin entry }
    ensures { (first after : ℕ) → (o : OneOffer) → entry ≡ Entry.Join o first after → result ≡ o }
{
    match entry {
        Entry::Join { offer, .. } => offer,
        Entry::Back { .. } => unreachable!(),
    }
}

/// The number of entries of workers with one more entry.
pub(crate) fn count_worker(workers: u64, worker: u32) -> u64
    requires { workers + 1 < 2 ^ 64 }
    ensures { result ≡ (if is_worker worker then workers + 1 else workers) }
{
    if worker < CLOSER {
        workers + 1
    } else {
        workers
    }
}

/// Puts an equal item into tiles.
pub(crate) fn add_copy(alloc: Global, tiles: &mut Tiles, item: &Item) -> Result<(), AllocError>
    requires above { All (λ (a : OneItem). a.id < item.now.id) tiles.old.items }
    requires fits { IsItemFit item.now }
    ensures ok { OnOk result (tiles.new ≡ holding tiles.old (tiles.old.items ++ item.now ∷ [])) }
{
    let copy = copy_item(alloc, item)?;
    match tiles.add(copy) {
        Ok(()) => Ok(()),
        Err((copy, cause)) => {
            drop(copy);
            Err(cause)
        }
    }
}

/// Puts tiles in the place of others.
pub(crate) fn put_tiles(place: &mut Tiles, tiles: Tiles)
    ensures { place.new ≡ tiles }
{
    *place = tiles;
}

// Takes some items out of tiles, and puts others with the next ids into them.
fn change_tiles(
    alloc: Global,
    tiles: &mut Tiles,
    gone: &[u64],
    first: u64,
    come: &[Item],
) -> Result<(), AllocError>
    requires fit { All IsItemFit come.now }
    requires below { All (λ (a : OneItem). a.id < first) tiles.old.items }
    requires numbered { (j : ℕ) (a : OneItem) → slice_get come.now j ≡ Some a → a.id ≡ first + j }
    ensures { OnOk result (tiles.new ≡ holding tiles.old (without gone.now tiles.old.items ++ come.now)) }
{
    for id in gone {
        tiles.in_order();
        tiles.remove(*id)?;
    }
    for item in come {
        add_copy(alloc, tiles, item)?;
    }
    Ok(())
}

// The ids that an offer takes from the tiles, and the tiles afterwards.
fn changes(
    alloc: Global,
    tiles: &Tiles,
    offer: &Offer,
    first: u64,
    come: &[Item],
) -> Result<(Vec<u64>, Tiles), AllocError>
    requires fit { All IsItemFit come.now }
    requires below { All (λ (a : OneItem). a.id < first) tiles.now.items }
    requires numbered { (j : ℕ) (a : OneItem) → slice_get come.now j ≡ Some a → a.id ≡ first + j }
    ensures gone { IfOk result (λ r. r.0.items ≡ gone offer.now) }
    ensures tiles { IfOk result (λ r. r.1 ≡ holding tiles.now
        (without (gone offer.now) tiles.now.items ++ come.now)) }
{
    let gone = gone_ids(alloc, offer)?;
    let mut next = tiles.share()?;
    match change_tiles(alloc, &mut next, gone.as_slice(), first, come) {
        Ok(()) => Ok((gone, next)),
        Err(error) => {
            drop((gone, next));
            Err(error)
        }
    }
}

/// A history with the entry of a way back.
pub(crate) fn push_back(history: &mut List<Entry>, to: u64) -> Result<(), AllocError>
    ensures ok { OnOk result (history.new ≡ history.old ++ Entry.Back to ∷ []) }
    ensures err { OnErr result (history.new ≡ history.old) }
{
    match history.push(Entry::Back { to }) {
        Ok(()) => Ok(()),
        Err(failed) => {
            drop(failed);
            Err(AllocError)
        }
    }
}

// Enters an offer into a history, and gives the ids that it takes from the tiles, and the tiles afterwards.
fn enter(
    alloc: Global,
    history: &mut List<Entry>,
    tiles: &Tiles,
    offer: Offer,
    first: usize,
    come: &[Item],
) -> Result<(Vec<u64>, Tiles), OfferBack>
    requires total { first + length come.now < 2 ^ 64 }
    requires fit { All IsItemFit come.now }
    requires below { All (λ (a : OneItem). a.id < first) tiles.now.items }
    requires numbered { (j : ℕ) (a : OneItem) → slice_get come.now j ≡ Some a → a.id ≡ first + j }
    ensures gone { IfOk result (λ r. r.0.items ≡ gone offer) }
    ensures tiles { IfOk result (λ r. r.1 ≡ holding tiles.now (without (gone offer) tiles.now.items ++ come.now)) }
    ensures entered { OnOk result
        (history.new ≡ history.old ++ Entry.Join offer first (first + length come.now) ∷ []) }
    ensures err { IfErr result (λ e. (e.offer ≡ offer) × (history.new ≡ history.old)) }
{
    let (gone, tiles) = match changes(alloc, tiles, &offer, first as u64, come) {
        Ok(changes) => changes,
        Err(cause) => return Err(OfferBack { offer, cause }),
    };
    let entry = Entry::Join {
        offer,
        first: first as u64,
        after: (first + come.len()) as u64,
    };
    match history.push(entry) {
        Ok(()) => Ok((gone, tiles)),
        Err(AllocFailed { value }) => {
            drop((gone, tiles));
            Err(OfferBack {
                offer: offer_of(value),
                cause: AllocError,
            })
        }
    }
}

/// Makes room for an offer's new items and enters it, and gives what entering it gives.
pub(crate) fn admit(
    alloc: Global,
    given: &mut Vec<Item>,
    changed: &mut Vec<u64>,
    history: &mut List<Entry>,
    tiles: &Tiles,
    offer: Offer,
    come: &[Item],
) -> Result<(Vec<u64>, Tiles), OfferBack>
    requires total { length given.old.items + length come.now < 2 ^ 64 }
    requires fit { All IsItemFit come.now }
    requires below { All (λ (a : OneItem). a.id < length given.old.items) tiles.now.items }
    requires numbered { (j : ℕ) (a : OneItem) → slice_get come.now j ≡ Some a
        → a.id ≡ length given.old.items + j }
    ensures given { given.new.items ≡ given.old.items }
    ensures changed { changed.new.items ≡ changed.old.items }
    ensures given_room { OnOk result (vec_len given.old + length come.now ≤ vec_capacity given.new) }
    ensures changed_room { OnOk result (vec_len changed.old + length come.now ≤ vec_capacity changed.new) }
    ensures gone { IfOk result (λ r. r.0.items ≡ gone offer) }
    ensures tiles { IfOk result (λ r. r.1 ≡ holding tiles.now (without (gone offer) tiles.now.items ++ come.now)) }
    ensures entered { OnOk result (history.new ≡ history.old ++ Entry.Join offer (length given.old.items)
        (length given.old.items + length come.now) ∷ []) }
    ensures err { IfErr result (λ e. (e.offer ≡ offer) × (history.new ≡ history.old)) }
{
    let first = given.len();
    if let Err(cause) = given.reserve(come.len()) {
        return Err(OfferBack { offer, cause });
    }
    if let Err(cause) = changed.reserve(come.len()) {
        return Err(OfferBack { offer, cause });
    }
    enter(alloc, history, tiles, offer, first, come)
}

/// Gives the ids and all new ones up to a total the number of an entry. There is room for them.
pub(crate) fn renew(changed: &mut Vec<u64>, ids: &[u64], number: u64, total: usize)
    requires within { All (λ x. x < vec_len changed.old) ids.now }
    requires more { vec_len changed.old ≤ total }
    requires room { total ≤ vec_capacity changed.old }
    ensures { IsRenewed ids.now (vec_len changed.old) number changed.old.items changed.new.items total }
{
    for id in ids {
        changed[*id as usize] = number;
    }
    let _ = changed.resize(total, number);
}
