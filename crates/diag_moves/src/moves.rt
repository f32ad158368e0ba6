//! The moves of a net on some copper: the legal ones, and after them steps at 45 degrees.
//! A diagonal leads to the crossing of the next lines, where the gaps to both are equal; it is open as other steps are.

ghost use Rattle.std.specs.Prelude.{◌≡◌, ◌↔◌, ◌<◌, ◌≤◌, ◌^◌, ◌+◌, ◌-ℤ◌, unsigned_abs, IsTrue, IfSome};
ghost use Rattle.geo_kernel.specs.Plane.{IsWithin};
ghost use Rattle.pcb_model.specs.Bounds.{IsDesignFit, IsProbeFit};
ghost use Rattle.route_lattice.specs.Mesh.{node_count, point_of};
ghost use Rattle.route_lattice.specs.Ways.{step_at};
ghost use Rattle.route_lattice.specs.Legal.{IsLegalProbe, CanMove, probe_of, way_between};
ghost use Rattle.path_wire.specs.Diagonals.{across as across_of, up as up_of, second_leg, diagonal_at};
ghost use Rattle.path_wire.specs.Diagonals.{wide_count, diagonal_price, slope_price, wide_graph};
ghost use Rattle.diag_moves.specs.Slopes.{diagonal_probe};

use geo_kernel::Point;
use pcb_model::{Copper, Design, Probe, probe_inside};
use route_lattice::{Lattice, LegalMoves, Move, Moves};

/// Whether what the probe stands for lies inside every boundary and agrees with all items.
fn is_legal<C: Copper>(d: &Design, c: &C, net: u32, p: &Probe) -> bool
    requires design { IsDesignFit d.now }
    requires serves { C.serves c.now d.now }
    requires p_fits { IsProbeFit d.now p.now }
    ensures { IsTrue result ↔ IsLegalProbe d.now (C.items c.now) net p.now }
{
    if !probe_inside(d, p) {
        return false;
    }
    c.is_clear(d, net, p)
}

/// The direction of a diagonal's step along x.
fn across(dir: u32) -> u32
    ensures value { result ≡ across_of dir }
    ensures small { result < 4 }
{
    match dir {
        4 | 7 => 0,
        _ => 1,
    }
}

/// The direction of a diagonal's step along y.
fn up(dir: u32) -> u32
    ensures value { result ≡ up_of dir }
    ensures small { result < 4 }
{
    match dir {
        4 | 5 => 2,
        _ => 3,
    }
}

/// How far a coordinate is from another, in nm.
fn apart(a: i64, b: i64) -> u64
    requires a { unsigned_abs a ≤ 2 ^ 29 }
    requires b { unsigned_abs b ≤ 2 ^ 29 }
    ensures value { result ≡ unsigned_abs (b -ℤ a) }
    ensures small { result ≤ 2 ^ 30 }
{
    (b - a).unsigned_abs()
}

/// The way between two points along the axes, in nm.
fn way(p: Point, q: Point) -> u64
    requires p { IsWithin (2 ^ 29) p }
    requires q { IsWithin (2 ^ 29) q }
    ensures { result ≡ way_between p q }
{
    apart(p.x, q.x) + apart(p.y, q.y)
}

/// How far a point is from another along x, in nm.
fn across_gap(p: Point, q: Point) -> u64
    requires p { IsWithin (2 ^ 29) p }
    requires q { IsWithin (2 ^ 29) q }
    ensures value { result ≡ unsigned_abs (q.x -ℤ p.x) }
    ensures small { result ≤ 2 ^ 30 }
{
    apart(p.x, q.x)
}

/// What a diagonal over a gap costs, in nm.
fn slope(gap: u64) -> u64
    requires { gap ≤ 2 ^ 30 }
    ensures { result ≡ diagonal_price gap }
{
    (gap * 1_414_214 + 999_999) / 1_000_000
}

/// The moves of a net on some copper, of which those from `legal.arity` on are the four diagonals.
#[derive(Drop)]
pub struct DiagMoves<'a, C: Copper> {
    pub legal: LegalMoves<'a, C>,
    pub arity: u32,
    ghost arity_is: { arity ≡ wide_count legal.d.now legal.lat.now legal.net },
}

impl<'a, C: Copper> DiagMoves<'a, C> {
    /// The moves of a net of the design on the copper.
    pub fn of(
        lat: &'a Lattice,
        d: &'a Design,
        c: &'a C,
        net: u32,
        via_cost: u64,
    ) -> DiagMoves<'a, C>
        requires can_move { CanMove d.now lat.now net via_cost }
        ensures lat { result.legal.lat.now ≡ lat.now }
        ensures d { result.legal.d.now ≡ d.now }
        ensures c { result.legal.c.now ≡ c.now }
        ensures net { result.legal.net ≡ net }
        ensures via_cost { result.legal.via_cost ≡ via_cost }
    {
        let legal = LegalMoves::of(lat, d, c, net, via_cost);
        let arity = legal.arity + 4;
        DiagMoves { legal, arity }
    }

    /// The step of a direction below 4.
    fn leg(&self, node: u32, dir: u32) -> Option<(Move, u32)>
        requires can_move { CanMove self.now.legal.d.now self.now.legal.lat.now self.now.legal.net
            self.now.legal.via_cost }
        requires serves { C.serves self.now.legal.c.now self.now.legal.d.now }
        requires node { node < node_count self.now.legal.lat.now }
        requires dir { dir < 4 }
        ensures value { result ≡ step_at self.now.legal.lat.now node dir }
        ensures there { IfSome result (λ w. w.1 < node_count self.now.legal.lat.now) }
    {
        self.legal.at(node, dir)
    }

    /// The way between two nodes along the axes, in nm.
    fn gap(&self, node: u32, to: u32) -> u64
        requires can_move { CanMove self.now.legal.d.now self.now.legal.lat.now self.now.legal.net
            self.now.legal.via_cost }
        requires node { node < node_count self.now.legal.lat.now }
        requires to { to < node_count self.now.legal.lat.now }
        ensures { result ≡ way_between (point_of self.now.legal.lat.now node) (point_of self.now.legal.lat.now to) }
    {
        way(self.legal.lat.point(node), self.legal.lat.point(to))
    }

    /// The diagonal whose first leg leads to a node.
    fn over(&self, node: u32, dir: u32, mid: u32) -> Option<(Move, u32)>
        requires can_move { CanMove self.now.legal.d.now self.now.legal.lat.now self.now.legal.net
            self.now.legal.via_cost }
        requires serves { C.serves self.now.legal.c.now self.now.legal.d.now }
        requires node { node < node_count self.now.legal.lat.now }
        requires mid { mid < node_count self.now.legal.lat.now }
        requires dir { dir < 8 }
        ensures value { result ≡ second_leg self.now.legal.lat.now node dir mid
            (step_at self.now.legal.lat.now mid (up_of dir)) }
        ensures there { IfSome result (λ w. w.1 < node_count self.now.legal.lat.now) }
    {
        match self.leg(mid, up(dir)) {
            Some((_step, to)) => {
                if self.gap(node, mid) == self.gap(mid, to) {
                    Some((Move::Step { dir: dir as u8 }, to))
                } else {
                    None
                }
            }
            None => None,
        }
    }

    /// The diagonal of a direction from 4 to 7.
    fn diagonal(&self, node: u32, dir: u32) -> Option<(Move, u32)>
        requires can_move { CanMove self.now.legal.d.now self.now.legal.lat.now self.now.legal.net
            self.now.legal.via_cost }
        requires serves { C.serves self.now.legal.c.now self.now.legal.d.now }
        requires node { node < node_count self.now.legal.lat.now }
        requires dir { dir < 8 }
        ensures value { result ≡ diagonal_at self.now.legal.lat.now node dir }
        ensures there { IfSome result (λ w. w.1 < node_count self.now.legal.lat.now) }
    {
        match self.leg(node, across(dir)) {
            Some((_step, mid)) => self.over(node, dir, mid),
            None => None,
        }
    }

    /// What a diagonal lays.
    fn probe(&self, node: u32, dir: u32) -> Option<Probe>
        requires can_move { CanMove self.now.legal.d.now self.now.legal.lat.now self.now.legal.net
            self.now.legal.via_cost }
        requires serves { C.serves self.now.legal.c.now self.now.legal.d.now }
        requires node { node < node_count self.now.legal.lat.now }
        requires dir { dir < 8 }
        ensures value { result ≡ diagonal_probe self.now.legal.d.now self.now.legal.lat.now self.now.legal.net node
            (diagonal_at self.now.legal.lat.now node dir) }
        ensures fits { IfSome result (IsProbeFit self.now.legal.d.now) }
    {
        match self.diagonal(node, dir) {
            Some((_step, to)) => Some(Probe::Step {
                layer: self.legal.lat.layer(node),
                width: self.legal.width,
                a: self.legal.lat.point(node),
                b: self.legal.lat.point(to),
            }),
            None => None,
        }
    }

    /// What a diagonal costs, in nm; 0 where it isn't there.
    fn cost(&self, node: u32, dir: u32) -> u64
        requires can_move { CanMove self.now.legal.d.now self.now.legal.lat.now self.now.legal.net
            self.now.legal.via_cost }
        requires serves { C.serves self.now.legal.c.now self.now.legal.d.now }
        requires node { node < node_count self.now.legal.lat.now }
        requires dir { dir < 8 }
        ensures { result ≡ slope_price self.now.legal.lat.now node
            (diagonal_at self.now.legal.lat.now node dir) }
    {
        match self.diagonal(node, dir) {
            Some((_step, to)) => slope(across_gap(
                self.legal.lat.point(node),
                self.legal.lat.point(to),
            )),
            None => 0,
        }
    }
}

impl<C: Copper> Moves for DiagMoves<'_, C> {
    ghost graph = { λ s. wide_graph s.legal.d.now s.legal.lat.now (C.items s.legal.c.now) s.legal.net
        s.legal.via_cost };

    ghost ready = { λ s. CanMove s.legal.d.now s.legal.lat.now s.legal.net s.legal.via_cost
        × C.serves s.legal.c.now s.legal.d.now };

    fn count(&self) -> u32 {
        self.legal.count()
    }

    fn arity(&self) -> u32 {
        self.arity
    }

    fn at(&self, node: u32, i: u32) -> Option<(Move, u32)> {
        if i < self.legal.arity {
            self.legal.at(node, i)
        } else {
            self.diagonal(node, 4 + (i - self.legal.arity))
        }
    }

    fn is_open(&self, node: u32, i: u32) -> bool {
        if i < self.legal.arity {
            return self.legal.is_open(node, i);
        }
        match self.probe(node, 4 + (i - self.legal.arity)) {
            Some(p) => is_legal(self.legal.d, self.legal.c, self.legal.net, &p),
            None => false,
        }
    }

    fn price(&self, node: u32, i: u32) -> u64 {
        if i < self.legal.arity {
            self.legal.price(node, i)
        } else {
            self.cost(node, 4 + (i - self.legal.arity))
        }
    }
}
