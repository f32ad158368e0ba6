//! Cells in rows, over which searches go as over nodes; a cell is entered at its price.
//! Move 0 leads to the next cell of a row, 1 to the one before, 2 and 3 to those of the next row and of the one before.

ghost use Rattle.std.specs.Prelude.{◌≡◌, ◌<◌, ◌≤◌, ◌^◌, All, IfOk, length};
ghost use Rattle.route_lattice.specs.Walks.{IsSound};
ghost use Rattle.wave_search.specs.Cells.{next_cell, price_of, cells_graph};

use geo_kernel::List;
use route_lattice::{Move, Moves};
use std::alloc::{AllocError, Global};

/// Cells in rows of the width; a cell of price 0 is a wall.
#[derive(Drop)]
pub(crate) struct Cells {
    prices: List<u32>,
    offsets: List<u32>,
    width: u32,
    ghost few: { length prices ≤ 2 ^ 24 },
    ghost ways: { length offsets ≤ 4 },
}

impl Cells {
    /// Cells of these prices, in rows of the width; none of more than 1,000.
    fn of(alloc: Global, width: u8, prices: List<u32>) -> Result<Cells, AllocError> {
        let width = u32::from(width);
        let offsets = [width + 1, width.saturating_sub(1), width + width, 0];
        let prices = if prices.len() > 1_000 {
            List::new(alloc)
        } else {
            prices
        };
        Ok(Cells {
            prices,
            offsets: List::from_slice(alloc, &offsets)?,
            width,
        })
    }

    /// Cells that a map shows by their prices, `.` for a wall.
    pub(crate) fn drawn(alloc: Global, width: u8, map: &str) -> Result<Cells, AllocError> {
        let mut prices = List::new(alloc);
        for mark in map.as_bytes() {
            prices.push(u32::from(mark.saturating_sub(b'0')))?;
        }
        Cells::of(alloc, width, prices)
    }

    /// A list of the one cell, or of none where there is no such cell.
    pub(crate) fn only(&self, alloc: Global, v: u32) -> Result<List<u32>, AllocError>
        ensures { IfOk result (All (λ u. u < length self.now.prices)) }
    {
        let mut only = List::new(alloc);
        if v < self.count() {
            only.push(v)?;
        }
        Ok(only)
    }

    /// Where move `i` of a cell leads.
    fn next(&self, v: u32, i: u32) -> u64
        requires { i < length self.now.offsets }
        ensures { result ≡ next_cell self.now.offsets self.now.width v i }
    {
        let offset = self.offsets.as_slice()[i as usize];
        (v as u64 + offset as u64).saturating_sub(self.width as u64)
    }

    /// The price at which a cell is entered, 0 where there is none.
    fn price_at(&self, v: u64) -> u32
        ensures { result ≡ price_of self.now.prices v }
    {
        let prices = self.prices.as_slice();
        if v < prices.len() as u64 {
            prices[v as usize]
        } else {
            0
        }
    }
}

/// A graph of cells may be searched. A law, on a call that does nothing.
pub(crate) fn cells_sound(cells: &Cells)
    ensures { IsSound (cells_graph cells.now.prices cells.now.offsets cells.now.width) }
{}

impl Moves for Cells {
    ghost graph = { λ s. cells_graph s.prices s.offsets s.width };

    ghost ready = { λ s. length s.prices ≤ 2 ^ 24 };

    fn count(&self) -> u32 {
        self.prices.len() as u32
    }

    fn arity(&self) -> u32 {
        self.offsets.len() as u32
    }

    fn at(&self, node: u32, i: u32) -> Option<(Move, u32)> {
        let to = self.next(node, i);
        if to < self.prices.len() as u64 {
            Some((Move::Step { dir: i as u8 }, to as u32))
        } else {
            None
        }
    }

    fn is_open(&self, node: u32, i: u32) -> bool {
        self.price_at(self.next(node, i)) > 0
    }

    fn price(&self, node: u32, i: u32) -> u64 {
        self.price_at(self.next(node, i)) as u64
    }
}
