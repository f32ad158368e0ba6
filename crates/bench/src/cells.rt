//! Cells in square rows, with walls at the border and at places that a small generator of numbers picks.
//! The generator is a linear congruential one, so each run has the same cells.

ghost use Rattle.std.specs.Prelude.{◌≡◌, ◌<◌, ◌≤◌, ◌^◌, length};
ghost use Rattle.route_lattice.specs.Walks.{IsSound};
ghost use Rattle.wave_search.specs.Cells.{next_cell, price_of, cells_graph};

use crate::numbers::Numbers;
use geo_kernel::List;
use route_lattice::{Move, Moves};
use std::alloc::{AllocError, Global};

/// Cells in rows of the width, each entered at its price; a cell of price 0 is a wall.
#[derive(Drop)]
pub struct Cells {
    prices: List<u32>,
    offsets: List<u32>,
    width: u32,
    ghost few: { length prices ≤ 2 ^ 24 },
    ghost ways: { length offsets ≤ 4 },
}

/// Whether the cell lies at the border of the square.
fn is_border(side: u32, v: u32) -> bool
    requires { 0 < side }
{
    let x = v % side;
    let y = v / side;
    x == 0 || y == 0 || x == side - 1 || y == side - 1
}

/// The prices of a square of cells, of which so many in a hundred are walls.
fn prices_of(alloc: Global, side: u32, count: u32, walls: u32) -> Result<List<u32>, AllocError>
    requires { 0 < side }
{
    let mut numbers = Numbers::new(1);
    let mut prices = List::new(alloc);
    for v in 0..count {
        let number = numbers.next() % 100;
        let price = if is_border(side, v) || number < walls {
            0
        } else {
            1
        };
        prices.push(price)?;
    }
    Ok(prices)
}

impl Cells {
    /// A square of cells; None where there are more than 2^24, or fewer than one.
    pub fn square(alloc: Global, side: u32, walls: u32) -> Result<Option<Cells>, AllocError> {
        if side < 1 || side > 4096 {
            return Ok(None);
        }
        let prices = prices_of(alloc, side, side.wrapping_mul(side), walls)?;
        if prices.len() > 1 << 24 {
            return Ok(None);
        }
        let offsets = [side + 1, side - 1, side + side, 0];
        Ok(Some(Cells {
            prices,
            offsets: List::from_slice(alloc, &offsets)?,
            width: side,
        }))
    }

    /// Where move `i` of a cell leads.
    fn next(&self, v: u32, i: u32) -> u64
        requires { i < length self.now.offsets }
        ensures { result ≡ next_cell self.now.offsets self.now.width v i }
    {
        let offset = self.offsets.as_slice()[i as usize];
        (v as u64 + offset as u64).saturating_sub(self.width as u64)
    }

    /// The price at which a cell is entered, 0 where there is none.
    fn price_at(&self, v: u64) -> u32
        ensures { result ≡ price_of self.now.prices v }
    {
        let prices = self.prices.as_slice();
        if v < prices.len() as u64 {
            prices[v as usize]
        } else {
            0
        }
    }
}

/// A graph of cells may be searched. A law, on a call that does nothing.
pub fn cells_sound(cells: &Cells)
    ensures { IsSound (cells_graph cells.now.prices cells.now.offsets cells.now.width) }
{}

impl Moves for Cells {
    ghost graph = { λ s. cells_graph s.prices s.offsets s.width };

    ghost ready = { λ s. length s.prices ≤ 2 ^ 24 };

    fn count(&self) -> u32 {
        self.prices.len() as u32
    }

    fn arity(&self) -> u32 {
        self.offsets.len() as u32
    }

    fn at(&self, node: u32, i: u32) -> Option<(Move, u32)> {
        let to = self.next(node, i);
        if to < self.prices.len() as u64 {
            Some((Move::Step { dir: i as u8 }, to as u32))
        } else {
            None
        }
    }

    fn is_open(&self, node: u32, i: u32) -> bool {
        self.price_at(self.next(node, i)) > 0
    }

    fn price(&self, node: u32, i: u32) -> u64 {
        self.price_at(self.next(node, i)) as u64
    }
}
