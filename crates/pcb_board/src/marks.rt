//! Marks of ids, one for each id that was given: which of them stand on a board.
//! They are what is known of a board's items on the way back to it.

ghost use Rattle.std.specs.Prelude.{◌≡◌, ◌≤◌, ◌<◌, [], ◌∷◌, true, false, All, Bool, IfOk, IfSome, filter, length, map};
ghost use Rattle.std.specs.Prelude.{slice_get};
ghost use Rattle.std.specs.Prelude.{slice_index_or};
ghost use Rattle.pcb_model.specs.declared.item.Item.{Item as OneItem};
ghost use Rattle.pcb_model.specs.Sound.{IsSound};
ghost use Rattle.board_offers.specs.declared.offer.Shoved.{Shoved as OneShove};
ghost use Rattle.board_offers.specs.Items.{is_on};
ghost use Rattle.board_offers.specs.Given.{AreGiven};
ghost use Rattle.pcb_board.specs.Snaps.{AreTilesOf};
ghost use Rattle.pcb_board.specs.inner.Turning.{ArePut, IsRangePut, MarksJoin, EndsWithin, AreTurned};
ghost use Rattle.pcb_board.specs.inner.Turning.{is_marked as marked};

use crate::answer::Entry;
use crate::load::empty_tiles;
use crate::renew::add_copy;
use board_offers::Shoved;
use pcb_model::{Copper, Design, Item};
use pcb_tiles::Tiles;
use std::alloc::{AllocError, Global};

fn is_marked(marks: &[bool], id: u64) -> bool
    ensures { result ≡ marked marks.now id }
{
    match marks.get(id as usize) {
        Some(mark) => *mark,
        None => false,
    }
}

fn clear(marks: &mut Vec<bool>, id: u64)
    ensures { ArePut (id ∷ []) false marks.old.items marks.new.items }
{
    let place = id as usize;
    if place < marks.len() {
        marks[place] = false;
    }
}

fn clear_all(marks: &mut Vec<bool>, ids: &[u64])
    ensures { ArePut ids.now false marks.old.items marks.new.items }
{
    for id in ids {
        clear(marks, *id);
    }
}

fn clear_shoved(marks: &mut Vec<bool>, shoves: &[Shoved])
    ensures { ArePut (map (λ (s : OneShove). s.id) shoves.now) false marks.old.items marks.new.items }
{
    for s in shoves {
        clear(marks, s.id);
    }
}

/// Marks the ids from one to before another.
pub(crate) fn mark_range(marks: &mut Vec<bool>, from: usize, to: usize)
    requires rises { from ≤ to }
    requires within { to ≤ length marks.old.items }
    ensures { IsRangePut from to marks.old.items marks.new.items }
{
    for place in from..to {
        marks[place] = true;
    }
}

// Takes the marks of what a join took out, and marks its new items.
fn mark_join(marks: &mut Vec<bool>, entry: &Entry)
    requires { EndsWithin entry.now (length marks.old.items) }
    ensures { MarksJoin entry.now marks.old.items marks.new.items }
{
    if let Entry::Join {
        offer,
        first,
        after,
    } = entry
    {
        clear_all(marks, offer.rip.as_slice());
        clear_shoved(marks, offer.shoves.as_slice());
        mark_range(marks, *first as usize, *after as usize);
    }
}

/// The same of the entry at a place of a history.
pub(crate) fn mark_entry(marks: &mut Vec<bool>, history: &[Entry], place: usize)
    requires within { place < length history.now }
    requires ends { IfSome (slice_get history.now place) (λ e. EndsWithin e (length marks.old.items)) }
    ensures { IfSome (slice_get history.now place) (λ e. MarksJoin e marks.old.items marks.new.items) }
{
    mark_join(marks, &history[place]);
}

/// Tiles of the marked items.
pub(crate) fn marked_tiles(
    alloc: Global,
    d: &Design,
    given: &[Item],
    marks: &[bool],
) -> Result<Tiles, AllocError>
    requires sound { IsSound d.now }
    requires given { AreGiven d.now given.now }
    ensures items { IfOk result (λ t. t.items ≡ filter (λ (a : OneItem). marked marks.now a.id) given.now) }
    ensures spread { IfOk result (λ t. AreTilesOf d.now t.area t.reach) }
{
    let mut tiles = empty_tiles(alloc, d)?;
    for item in given {
        if is_marked(marks, item.id) {
            match add_copy(alloc, &mut tiles, item) {
                Ok(()) => {}
                Err(error) => {
                    drop(tiles);
                    return Err(error);
                }
            }
        }
    }
    Ok(tiles)
}

fn is_held(tiles: &Tiles, id: u64) -> bool
    ensures { result ≡ is_on id tiles.now.items }
{
    match tiles.item(id) {
        Some(_) => true,
        None => false,
    }
}

/// Gives each id that is in the tiles and isn't marked, or the other way round, the number of an entry.
pub(crate) fn renew_turned(changed: &mut Vec<u64>, tiles: &Tiles, marks: &[bool], number: u64)
    ensures { AreTurned tiles.now.items marks.now number (length changed.old.items)
        changed.old.items changed.new.items }
{
    for place in 0..changed.len() {
        let id = place as u64;
        if is_held(tiles, id) != is_marked(marks, id) {
            changed[place] = number;
        }
    }
}
