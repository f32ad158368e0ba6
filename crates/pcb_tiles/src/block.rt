//! Tiles by number, and the blocks of tiles that boxes meet.
//! Tile (i, j) has x from 2,000,000 i to 2,000,000 i + 1,999,999 nm, and y likewise.

ghost use Rattle.std.specs.Prelude.{◌≡◌, ◌≤◌, ◌<◌, ◌^◌, ◌≤ℤ◌, ◌+ℤ◌, ◌-ℤ◌, pos, unsigned_abs};
ghost use Rattle.pcb_model.specs.Near.{IsBoxWithin};
ghost use Rattle.pcb_tiles.specs.Tiling.{tile_of as tile_number, place_of as place_number, count_of as count_number};
ghost use Rattle.pcb_tiles.specs.Tiling.{columns_in as columns_number, rows_in as rows_number, is_between, IsArea};
ghost use Rattle.pcb_tiles.specs.Tiling.{IsBlockOf, IsBlockIn};

use geo_kernel::Rect4;

// The side of a tile, in nm.
const SIDE: u64 = 2_000_000;

// A thousand tiles: what makes coordinates of tiles not negative.
const OFFSET: i64 = 2_000_000_000;

/// A block of tiles, ends included. Columns and rows count from the first tile of the area.
#[derive(Clone, Copy)]
pub(crate) struct Block {
    pub(crate) first_column: usize,
    pub(crate) last_column: usize,
    pub(crate) first_row: usize,
    pub(crate) last_row: usize,
}

/// The coordinates of an area along one axis, ends included.
#[derive(Clone, Copy)]
struct Span {
    lo: i64,
    hi: i64,
    ghost rises: { lo ≤ℤ hi },
    ghost lo_within: { unsigned_abs lo ≤ 2 ^ 29 },
    ghost hi_within: { unsigned_abs hi ≤ 2 ^ 29 },
}

fn tile_of(z: i64) -> u64
    requires { unsigned_abs z ≤ 2 ^ 30 }
    ensures { result ≡ tile_number z }
{
    (z + OFFSET) as u64 / SIDE
}

impl Span {
    fn place_of(self, z: i64) -> usize
        ensures is { result ≡ place_number self.lo self.hi z }
        ensures within { result < count_number self.lo self.hi }
    {
        let nearest = z.min(self.hi).max(self.lo);
        (tile_of(nearest) - tile_of(self.lo)) as usize
    }

    // How many tiles there are.
    fn count(self) -> usize
        ensures is { result ≡ count_number self.lo self.hi }
        ensures within { result ≤ 2 ^ 20 }
    {
        (tile_of(self.hi) - tile_of(self.lo)) as usize + 1
    }

    // The place of a coordinate less a distance.
    fn place_before(self, z: i64, by: u64) -> usize
        requires z_within { unsigned_abs z ≤ 2 ^ 29 }
        requires by_within { by ≤ 2 ^ 29 }
        ensures { result ≡ place_number self.lo self.hi (z -ℤ pos by) }
    {
        self.place_of(z - by as i64)
    }

    // The place of a coordinate and a distance more.
    fn place_after(self, z: i64, by: u64) -> usize
        requires z_within { unsigned_abs z ≤ 2 ^ 29 }
        requires by_within { by ≤ 2 ^ 29 }
        ensures { result ≡ place_number self.lo self.hi (z +ℤ pos by) }
    {
        self.place_of(z + by as i64)
    }
}

/// The tiles that a box grown on each side meets.
pub(crate) fn block_around(area: Rect4, bounds: Rect4, by: u64) -> Block
    requires area { IsArea area }
    requires bounds_within { IsBoxWithin (2 ^ 29) bounds }
    requires by_within { by ≤ 2 ^ 29 }
    ensures of { IsBlockOf area bounds by result }
    ensures within { IsBlockIn area result }
{
    let across = Span {
        lo: area.x0,
        hi: area.x1,
    };
    let up = Span {
        lo: area.y0,
        hi: area.y1,
    };
    let column = across.place_before(bounds.x0, by);
    let row = up.place_before(bounds.y0, by);
    Block {
        first_column: column,
        last_column: across.place_after(bounds.x1, by).max(column),
        first_row: row,
        last_row: up.place_after(bounds.y1, by).max(row),
    }
}

/// How many columns of tiles an area has.
pub(crate) fn columns_in(area: Rect4) -> usize
    requires { IsArea area }
    ensures is { result ≡ columns_number area }
    ensures within { result ≤ 2 ^ 20 }
{
    let across = Span {
        lo: area.x0,
        hi: area.x1,
    };
    across.count()
}

/// How many rows.
pub(crate) fn rows_in(area: Rect4) -> usize
    requires { IsArea area }
    ensures is { result ≡ rows_number area }
    ensures within { result ≤ 2 ^ 20 }
{
    let up = Span {
        lo: area.y0,
        hi: area.y1,
    };
    up.count()
}

/// Whether a number is from `first` to `last`.
pub(crate) fn is_from_to(first: usize, last: usize, i: usize) -> bool
    ensures { result ≡ is_between first last i }
{
    first <= i && i <= last
}
