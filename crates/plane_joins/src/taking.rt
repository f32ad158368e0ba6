//! Ribs: the candidates that are laid as wires in place of planes.

ghost use Rattle.std.specs.Prelude.{◌≡◌, ◌∷◌, All, IfOk, OnOk};
ghost use Rattle.pcb_model.specs.Sound.{IsSound};
ghost use Rattle.plane_joins.specs.Planes.{IsPlaneOf, candidates as candidates_of, load_of};
ghost use Rattle.plane_joins.specs.Ribs.{AnswersRibs, AreRibs, TakesPlanes, TakesRibs};
ghost use Rattle.plane_joins.specs.inner.Laying.{IsCandidateFit, IsLaid, IsTrial, TakesOne, items_of};

use crate::area::PlaneArea;
use crate::candidate::Candidate;
use crate::fault::RibFault;
use crate::laid::{Laid, keep, start};
use crate::lines::{candidate_count, candidates};
use crate::trial::Trial;
use geo_kernel::List;
use pcb_model::limits::MOST_ITEMS;
use pcb_model::{Design, Item};
use std::alloc::{AllocError, Global};

// One candidate.
fn take_one(
    alloc: Global,
    d: &Design,
    t: &Trial<'_>,
    laid: &mut Laid,
    c: Candidate,
) -> Result<(), AllocError>
    requires sound { IsSound d.now }
    requires trial { IsTrial d.now t.now.p.now t.now.later.now t.now.rim t.now.is_met }
    requires fit { IsCandidateFit c }
    requires laid { IsLaid d.now (t.now.p.now ∷ t.now.later.now) laid.old }
    ensures laid { OnOk result (IsLaid d.now (t.now.p.now ∷ t.now.later.now) laid.new) }
    ensures one { OnOk result (TakesOne d.now t.now.p.now (items_of d.now laid.old) c (items_of d.now laid.new)) }
{
    if t.is_rib(d, &laid.tiles, c) {
        keep(alloc, d, t, laid, c)
    } else {
        Ok(())
    }
}

// All candidates of a plane.
fn take_all(
    alloc: Global,
    d: &Design,
    t: &Trial<'_>,
    laid: &mut Laid,
    candidates: &[Candidate],
) -> Result<(), AllocError>
    requires sound { IsSound d.now }
    requires trial { IsTrial d.now t.now.p.now t.now.later.now t.now.rim t.now.is_met }
    requires fit { All IsCandidateFit candidates.now }
    requires laid { IsLaid d.now (t.now.p.now ∷ t.now.later.now) laid.old }
    ensures laid { OnOk result (IsLaid d.now (t.now.p.now ∷ t.now.later.now) laid.new) }
    ensures all { OnOk result
        (TakesRibs d.now t.now.p.now (items_of d.now laid.old) candidates.now (items_of d.now laid.new)) }
{
    for c in candidates {
        take_one(alloc, d, t, laid, *c)?;
    }
    Ok(())
}

// One plane, before those behind it.
fn take_plane(
    alloc: Global,
    d: &Design,
    p: &PlaneArea,
    later: &[PlaneArea],
    laid: &mut Laid,
) -> Result<(), AllocError>
    requires sound { IsSound d.now }
    requires plane { IsPlaneOf d.now p.now }
    requires laid { IsLaid d.now (p.now ∷ later.now) laid.old }
    ensures laid { OnOk result (IsLaid d.now later.now laid.new) }
    ensures all { OnOk result
        (TakesRibs d.now p.now (items_of d.now laid.old) (candidates_of d.now p.now) (items_of d.now laid.new)) }
{
    let t = Trial::of(alloc, d, p, later)?;
    let found = candidates(alloc, d, p)?;
    take_all(alloc, d, &t, laid, found.as_slice())
}

// All planes.
fn take_planes(
    alloc: Global,
    d: &Design,
    planes: &[PlaneArea],
    laid: &mut Laid,
) -> Result<(), AllocError>
    requires sound { IsSound d.now }
    requires planes { All (IsPlaneOf d.now) planes.now }
    requires laid { IsLaid d.now planes.now laid.old }
    ensures { OnOk result (TakesPlanes d.now (items_of d.now laid.old) planes.now (items_of d.now laid.new)) }
{
    for i in 0..planes.len() {
        take_plane(alloc, d, &planes[i], &planes[i + 1..], laid)?;
    }
    Ok(())
}

// The ribs of planes that aren't too many.
fn lay(alloc: Global, d: &Design, planes: &[PlaneArea]) -> Result<List<Item>, AllocError>
    requires sound { IsSound d.now }
    requires planes { All (IsPlaneOf d.now) planes.now }
    ensures { IfOk result (AreRibs d.now planes.now) }
{
    let mut laid = start(alloc, d)?;
    match take_planes(alloc, d, planes, &mut laid) {
        Ok(()) => {
            let Laid { tiles, ribs } = laid;
            drop(tiles);
            Ok(ribs)
        }
        Err(error) => {
            drop(laid);
            Err(error)
        }
    }
}

// The design's items and the candidates of all planes together.
fn load_total(alloc: Global, d: &Design, planes: &[PlaneArea]) -> Result<u128, AllocError>
    requires sound { IsSound d.now }
    requires planes { All (IsPlaneOf d.now) planes.now }
    ensures { IfOk result (λ n. n ≡ load_of d.now planes.now) }
{
    let mut total = d.fixed.len() as u128 + d.free.len() as u128;
    for i in 0..planes.len() {
        total += candidate_count(alloc, d, &planes[i])?;
    }
    Ok(total)
}

/// The ribs of planes: the wires of those candidates, in order, that begin inside their plane's rim, keep their width
/// from its edge, and agree with the design's fixed items and all ribs before them.
///
/// # Errors
/// `TooMany`, exactly where the design's items and the candidates together are more than a design may have;
/// `Memory` where memory is wanting.
pub fn ribs(alloc: Global, d: &Design, planes: &List<PlaneArea>) -> Result<List<Item>, RibFault>
    requires sound { IsSound d.now }
    requires planes { All (IsPlaneOf d.now) planes.now }
    ensures { AnswersRibs d.now planes.now result }
{
    let count = load_total(alloc, d, planes.as_slice())?;
    if count > u128::from(MOST_ITEMS) {
        return Err(RibFault::TooMany { count });
    }
    Ok(lay(alloc, d, planes.as_slice())?)
}
