//! The items of a board, taken one after another.

ghost use Rattle.std.specs.Prelude.{◌≡◌, IfOk};

use geo_kernel::List;
use pcb_board::Board;
use pcb_model::{Copper, Item, copy_item};
use std::alloc::{AllocError, Global};

// The items of a board, in order of id.
pub(crate) fn items_of(alloc: Global, board: &Board) -> Result<List<Item>, AllocError>
    ensures { IfOk result (λ items. items ≡ board.now.items) }
{
    let copper = board.items();
    copper.in_order();
    let mut items = List::new(alloc);
    let mut from = 0;
    while let Some(item) = copper.next_item(from) {
        items.push(copy_item(alloc, item)?)?;
        let Some(next) = item.id.checked_add(1) else {
            return Ok(items);
        };
        from = next;
    }
    Ok(items)
}
