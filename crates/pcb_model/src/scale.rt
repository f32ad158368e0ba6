//! The scale of a session: the design's resolution, where all that a session prints is whole in it.
//! Source: SPECCTRA reference, resolution descriptor.

ghost use Rattle.std.specs.Prelude.{◌≡◌, ◌<◌, ◌≤◌};
ghost use Rattle.std.specs.List.{list_all};
ghost use Rattle.pcb_model.specs.Scale.{is_whole_point, is_whole_spine, is_whole_piece, is_whole_padstack};
ghost use Rattle.pcb_model.specs.Scale.{is_whole_metal, is_whole_net, is_on_scale, scale_of};

use crate::rules::{DEFAULT_WIDTH, width_in_class};
use crate::{Component, Design, FreeWire, Item, Metal, Net, Piece, SesScale};
use geo_kernel::{List, Point, Spine, Unit};

fn has_whole_point(nm: u64, p: &Point) -> bool
    requires { 0 < nm }
    ensures { result ≡ is_whole_point nm p.now }
{
    p.x.unsigned_abs() % nm == 0 && p.y.unsigned_abs() % nm == 0
}

fn has_whole_points(nm: u64, points: &[Point]) -> bool
    requires { 0 < nm }
    ensures { result ≡ list_all (is_whole_point nm) points.now }
{
    for p in points {
        if !has_whole_point(nm, p) {
            return false;
        }
    }
    true
}

fn has_whole_loops(nm: u64, loops: &[List<Point>]) -> bool
    requires { 0 < nm }
    ensures { result ≡ list_all (list_all (is_whole_point nm)) loops.now }
{
    for points in loops {
        if !has_whole_points(nm, points.as_slice()) {
            return false;
        }
    }
    true
}

fn has_whole_spine(nm: u64, spine: &Spine) -> bool
    requires { 0 < nm }
    ensures { result ≡ is_whole_spine nm spine.now }
{
    match spine {
        Spine::Chain(points) => has_whole_points(nm, points.as_slice()),
        Spine::Area(loops) => has_whole_loops(nm, loops.as_slice()),
    }
}

fn has_whole_pieces(nm: u64, pieces: &[Piece]) -> bool
    requires { 0 < nm }
    ensures { result ≡ list_all (is_whole_piece nm) pieces.now }
{
    for c in pieces {
        if c.width % nm != 0 || !has_whole_spine(nm, &c.spine) {
            return false;
        }
    }
    true
}

fn has_whole_padstack(d: &Design, nm: u64, padstack: u32) -> bool
    requires { 0 < nm }
    ensures { result ≡ is_whole_padstack d.now nm padstack }
{
    match d.padstacks.as_slice().get(padstack as usize) {
        Some(s) => has_whole_pieces(nm, s.pieces.as_slice()),
        None => true,
    }
}

fn has_whole_metal(d: &Design, nm: u64, metal: &Metal) -> bool
    requires { 0 < nm }
    ensures { result ≡ is_whole_metal d.now nm metal.now }
{
    match metal {
        Metal::Wire { width, chain, .. } => {
            *width % nm == 0 && has_whole_points(nm, chain.as_slice())
        }
        Metal::Via { padstack, at } => {
            has_whole_point(nm, at) && has_whole_padstack(d, nm, *padstack)
        }
        Metal::Pad { .. } => true,
        Metal::Ban { .. } => true,
    }
}

fn has_whole_padstacks(d: &Design, nm: u64, padstacks: &[u32]) -> bool
    requires { 0 < nm }
    ensures { result ≡ list_all (is_whole_padstack d.now nm) padstacks.now }
{
    for p in padstacks {
        if !has_whole_padstack(d, nm, *p) {
            return false;
        }
    }
    true
}

fn has_whole_net(d: &Design, nm: u64, n: &Net) -> bool
    requires { 0 < nm }
    ensures { result ≡ is_whole_net d.now nm n.now }
{
    let structure = d.rules.width.unwrap_or(DEFAULT_WIDTH);
    let width = n
        .rules
        .width
        .unwrap_or(width_in_class(d, n.class, structure));
    width % nm == 0 && has_whole_padstacks(d, nm, n.vias.as_slice())
}

fn has_whole_nets(d: &Design, nm: u64, nets: &[Net]) -> bool
    requires { 0 < nm }
    ensures { result ≡ list_all (is_whole_net d.now nm) nets.now }
{
    for n in nets {
        if !has_whole_net(d, nm, n) {
            return false;
        }
    }
    true
}

fn has_whole_places(nm: u64, components: &[Component]) -> bool
    requires { 0 < nm }
    ensures { result ≡ list_all (λ c. is_whole_point nm c.at) components.now }
{
    for c in components {
        if !has_whole_point(nm, &c.at) {
            return false;
        }
    }
    true
}

fn has_whole_items(d: &Design, nm: u64, items: &[Item]) -> bool
    requires { 0 < nm }
    ensures { result ≡ list_all (λ a. is_whole_metal d.now nm a.metal) items.now }
{
    for a in items {
        if !has_whole_metal(d, nm, &a.metal) {
            return false;
        }
    }
    true
}

fn has_whole_free(d: &Design, nm: u64, free: &[FreeWire]) -> bool
    requires { 0 < nm }
    ensures { result ≡ list_all (λ w. is_whole_metal d.now nm w.metal) free.now }
{
    for w in free {
        if !has_whole_metal(d, nm, &w.metal) {
            return false;
        }
    }
    true
}

fn has_whole_parts(d: &Design, nm: u64) -> bool
    requires { 0 < nm }
    ensures { result ≡ is_on_scale d.now nm }
{
    has_whole_places(nm, d.components.as_slice())
        && has_whole_nets(d, nm, d.nets.as_slice())
        && has_whole_items(d, nm, d.fixed.as_slice())
        && has_whole_free(d, nm, d.free.as_slice())
}

impl SesScale {
    /// The design's resolution where one of its units is a whole number of nm and all that a session prints of the
    /// design
    /// is whole in it: places, net widths, the wiring and the padstacks of vias. Otherwise 1000 to the micrometre,
    /// 1 nm.
    #[tactic(auto, unfolding(crate::specs::Scale::scale_of))]
    pub fn pick(d: &Design) -> SesScale
        ensures value { result ≡ scale_of d.now }
        ensures some { 0 < result.nm }
        ensures few { result.nm ≤ 25400000 }
    {
        let nm = d.unit.nm();
        if d.per > 0 && nm % d.per == 0 && has_whole_parts(d, nm / d.per) {
            SesScale {
                unit: d.unit,
                per: d.per,
                nm: nm / d.per,
            }
        } else {
            SesScale {
                unit: Unit::Um,
                per: 1000,
                nm: 1,
            }
        }
    }
}
