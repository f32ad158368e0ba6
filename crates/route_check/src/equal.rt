//! Equal copper: a wire from either end, or a via.

ghost use Rattle.std.specs.Prelude.{◌≡◌, reverse};
ghost use Rattle.route_check.specs.Board.{are_points, is_equal, is_net, is_point, is_same};

use geo_kernel::Point;
use pcb_model::{Item, Metal};
use ses_reader::SesItem;

fn is_point(p: Point, q: Point) -> bool
    ensures { result ≡ is_point p q }
{
    p.x == q.x && p.y == q.y
}

fn are_points(c: &[Point], e: &[Point]) -> bool
    ensures { result ≡ are_points c.now e.now }
{
    if c.len() != e.len() {
        return false;
    }
    for i in 0..c.len() {
        if !is_point(c[i], e[i]) {
            return false;
        }
    }
    true
}

// The first chain from its other end.
fn are_points_turned(c: &[Point], e: &[Point]) -> bool
    ensures { result ≡ are_points (reverse c.now) e.now }
{
    if c.len() != e.len() {
        return false;
    }
    let last = c.len();
    for i in 0..last {
        if !is_point(c[last - 1 - i], e[i]) {
            return false;
        }
    }
    true
}

fn is_equal(m: &Metal, n: &Metal) -> bool
    ensures { result ≡ is_equal m.now n.now }
{
    match (m, n) {
        (
            Metal::Wire {
                layer,
                width,
                chain,
            },
            Metal::Wire {
                layer: other_layer,
                width: other_width,
                chain: other_chain,
            },
        ) => {
            *layer == *other_layer
                && *width == *other_width
                && (are_points(chain.as_slice(), other_chain.as_slice())
                    || are_points_turned(chain.as_slice(), other_chain.as_slice()))
        }
        (
            Metal::Via { padstack, at },
            Metal::Via {
                padstack: other_padstack,
                at: other_at,
            },
        ) => *padstack == *other_padstack && is_point(*at, *other_at),
        _ => false,
    }
}

fn is_net(net: Option<u32>, other: u32) -> bool
    ensures { result ≡ is_net net other }
{
    match net {
        Some(own) => own == other,
        None => false,
    }
}

/// Whether the item of the session has the net and the copper of the fixed one.
pub(crate) fn is_same(a: &Item, x: &SesItem) -> bool
    ensures { result ≡ is_same a.now x.now }
{
    is_net(a.net, x.net) && is_equal(&a.metal, &x.metal)
}
