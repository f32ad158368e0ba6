//! Copies of what a board keeps.
//! Want of memory is the only refusal.

ghost use Rattle.std.specs.Prelude.{◌≡◌, ◌++◌, IfOk, OnOk};

use crate::answer::Entry;
use board_offers::copy_offer;
use geo_kernel::List;
use pcb_model::{Item, copy_item};
use std::alloc::{AllocError, Global};

fn copy_entry(alloc: Global, entry: &Entry) -> Result<Entry, AllocError>
    ensures { IfOk result (λ e. e ≡ entry.now) }
{
    match entry {
        Entry::Join {
            offer,
            first,
            after,
        } => Ok(Entry::Join {
            offer: copy_offer(alloc, offer)?,
            first: *first,
            after: *after,
        }),
        Entry::Back { to } => Ok(Entry::Back { to: *to }),
    }
}

// Appends equal entries.
fn push_entries(
    alloc: Global,
    copies: &mut List<Entry>,
    history: &[Entry],
) -> Result<(), AllocError>
    ensures { OnOk result (copies.new ≡ copies.old ++ history.now) }
{
    for entry in history {
        copies.push(copy_entry(alloc, entry)?)?;
    }
    Ok(())
}

/// Equal items.
pub(crate) fn copy_items(alloc: Global, items: &[Item]) -> Result<Vec<Item>, AllocError>
    ensures { IfOk result (λ copies. copies.items ≡ items.now) }
{
    let mut copies = Vec::new(alloc);
    for item in items {
        copies.push(copy_item(alloc, item)?)?;
    }
    Ok(copies)
}

/// The lists of a board.
#[derive(Drop)]
pub(crate) struct Lists {
    pub(crate) history: List<Entry>,
    pub(crate) given: Vec<Item>,
    pub(crate) changed: Vec<u64>,
}

// Fills the lists of a copy, which are empty.
fn fill(
    alloc: Global,
    lists: &mut Lists,
    history: &[Entry],
    given: &[Item],
    changed: &[u64],
) -> Result<(), AllocError>
    ensures history { OnOk result (lists.new.history ≡ lists.old.history ++ history.now) }
    ensures given { OnOk result (lists.new.given.items ≡ given.now) }
    ensures changed { OnOk result (lists.new.changed.items ≡ changed.now) }
{
    push_entries(alloc, &mut lists.history, history)?;
    lists.given = copy_items(alloc, given)?;
    lists.changed = Vec::from_slice(alloc, changed)?;
    Ok(())
}

/// Equal lists.
pub(crate) fn copy_lists(
    alloc: Global,
    history: &[Entry],
    given: &[Item],
    changed: &[u64],
) -> Result<Lists, AllocError>
    ensures history { IfOk result (λ l. l.history ≡ history.now) }
    ensures given { IfOk result (λ l. l.given.items ≡ given.now) }
    ensures changed { IfOk result (λ l. l.changed.items ≡ changed.now) }
{
    let mut lists = Lists {
        history: List::new(alloc),
        given: Vec::new(alloc),
        changed: Vec::new(alloc),
    };
    match fill(alloc, &mut lists, history, given, changed) {
        Ok(()) => Ok(lists),
        Err(error) => {
            drop(lists);
            Err(error)
        }
    }
}
