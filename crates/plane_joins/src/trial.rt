//! A plane whose candidates are tried, one after another.

ghost use Rattle.std.specs.Prelude.{◌≡◌, ◌↔◌, ◌∷◌, ◌++◌, [], IfOk, IsTrue};
ghost use Rattle.std.specs.List.{list_any};
ghost use Rattle.geo_kernel.specs.Spine.{closed as closed_of};
ghost use Rattle.pcb_model.specs.Sound.{IsSound};
ghost use Rattle.pcb_tiles.specs.Spread.{ServesSpread};
ghost use Rattle.plane_joins.specs.Planes.{IsPlaneOf};
ghost use Rattle.plane_joins.specs.Ribs.{IsRib};
ghost use Rattle.plane_joins.specs.inner.Laying.{IsCandidateFit, IsRimOf, IsTrial, meets};

use crate::area::PlaneArea;
use crate::candidate::Candidate;
use geo_kernel::{List, Point, Spine, inside, points_keep};
use pcb_model::{Copper, Design, Probe, width_of};
use pcb_tiles::Tiles;
use std::alloc::{AllocError, Global};

/// The closed chain of a rim, and its loop.
#[derive(Drop)]
pub(crate) struct Rim {
    pub(crate) edge: Spine,
    pub(crate) loops: List<List<Point>>,
}

// A loop as a chain that ends where it begins.
fn closed(alloc: Global, points: &[Point]) -> Result<List<Point>, AllocError>
    ensures { IfOk result (λ ps. ps ≡ closed_of points.now) }
{
    let mut chain = List::from_slice(alloc, points)?;
    if let [first, ..] = points {
        chain.push(*first)?;
    }
    Ok(chain)
}

// The rim of these points.
fn rim_of(alloc: Global, points: &[Point]) -> Result<Rim, AllocError>
    ensures { IfOk result (IsRimOf points.now) }
{
    let chain = closed(alloc, points)?;
    let mut loops = List::new(alloc);
    loops.push(List::from_slice(alloc, points)?)?;
    Ok(Rim {
        edge: Spine::Chain(chain),
        loops,
    })
}

/// A plane with its rim, and the planes behind it; `is_met` where one of these has another net and its layer.
#[derive(Drop)]
pub(crate) struct Trial<'a> {
    pub(crate) p: &'a PlaneArea,
    pub(crate) later: &'a [PlaneArea],
    pub(crate) rim: Rim,
    pub(crate) is_met: bool,
}

// Whether one of the planes has another net and the layer of this one.
fn is_met(p: &PlaneArea, later: &[PlaneArea]) -> bool
    ensures { result ≡ list_any (meets p.now) later.now }
{
    for q in later {
        if q.layer == p.layer && q.net != p.net {
            return true;
        }
    }
    false
}

impl<'a> Trial<'a> {
    /// A plane, before the planes behind it.
    pub(crate) fn of(
        alloc: Global,
        d: &Design,
        p: &'a PlaneArea,
        later: &'a [PlaneArea],
    ) -> Result<Trial<'a>, AllocError>
        requires { IsPlaneOf d.now p.now }
        ensures p { IfOk result (λ t. t.p.now ≡ p.now) }
        ensures later { IfOk result (λ t. t.later.now ≡ later.now) }
        ensures trial { IfOk result (λ t. IsTrial d.now t.p.now t.later.now t.rim t.is_met) }
    {
        let rim = rim_of(alloc, p.rim.as_slice())?;
        Ok(Trial {
            p,
            later,
            rim,
            is_met: is_met(p, later),
        })
    }

    /// Whether a candidate becomes a rib beside what the tiles hold.
    pub(crate) fn is_rib(&self, d: &Design, tiles: &Tiles, c: Candidate) -> bool
        requires sound { IsSound d.now }
        requires serves { ServesSpread tiles.now d.now }
        requires trial { IsTrial d.now self.now.p.now self.now.later.now self.now.rim self.now.is_met }
        requires fit { IsCandidateFit c }
        ensures { IsTrue result ↔ IsRib d.now self.now.p.now tiles.now.items c }
    {
        let width = width_of(d, self.p.net);
        if !inside(c.from, &self.rim.loops) {
            return false;
        }
        if !points_keep(&[c.from, c.to], &self.rim.edge, width.max(1)) {
            return false;
        }
        let probe = Probe::Step {
            layer: self.p.layer,
            width,
            a: c.from,
            b: c.to,
        };
        tiles.is_clear(d, self.p.net, &probe)
    }
}
