//! The nets that have a plane, one after another.

ghost use Rattle.std.specs.Prelude.{◌≡◌, ◌==◌, ◌<◌, ◌≤◌, ◌^◌, ◌++◌, ◌∷◌, [], if◌then◌else◌, All, IfOk, OnOk};
ghost use Rattle.std.specs.Prelude.{length};
ghost use Rattle.std.specs.List.{list_any};
ghost use Rattle.plane_joins.specs.declared.area.PlaneArea.{PlaneArea as OnePlane};
ghost use Rattle.plane_joins.specs.Planned.{TriesNets, nets_of as nets_with_planes};
ghost use Rattle.plane_stubs.specs.inner.Holding.{IsHeld};
ghost use Rattle.plane_stubs.specs.inner.Sites.{on_site};

use crate::held::Held;
use crate::site::Site;
use geo_kernel::List;
use pcb_model::Design;
use plane_joins::PlaneArea;
use std::alloc::{AllocError, Global};

// Whether one of the planes has the net.
fn has_plane(planes: &[PlaneArea], net: u32) -> bool
    ensures { result ≡ list_any (λ (p : OnePlane). p.net == net) planes.now }
{
    for p in planes {
        if p.net == net {
            return true;
        }
    }
    false
}

// The net behind the others, where it has a plane.
fn push_net(nets: &mut List<u32>, planes: &[PlaneArea], net: u32) -> Result<(), AllocError>
    ensures { OnOk result (nets.new
        ≡ nets.old ++ (if list_any (λ (p : OnePlane). p.net == net) planes.now then net ∷ [] else [])) }
{
    if has_plane(planes, net) {
        nets.push(net)?;
    }
    Ok(())
}

/// The nets that have a plane, ascending.
pub(crate) fn nets_of(
    alloc: Global,
    d: &Design,
    planes: &[PlaneArea],
) -> Result<List<u32>, AllocError>
    requires { length d.now.nets ≤ 2 ^ 26 }
    ensures { IfOk result (λ nets. nets ≡ nets_with_planes d.now planes.now) }
{
    let mut nets = List::new(alloc);
    for net in 0..d.nets.len() as u32 {
        push_net(&mut nets, planes, net)?;
    }
    Ok(nets)
}

impl Site<'_> {
    /// The islands of these nets.
    pub(crate) fn try_nets(
        &self,
        alloc: Global,
        held: &mut Held,
        nets: &[u32],
    ) -> Result<(), AllocError>
        requires nets { All (λ net. net < length self.now.d.nets) nets.now }
        requires held { IsHeld self.now held.old }
        ensures held { OnOk result (IsHeld self.now held.new) }
        ensures tries { OnOk result
            (TriesNets (on_site self.now held.old.tiles.items) nets.now held.new.tiles.items) }
    {
        for net in nets {
            self.try_net(alloc, held, *net)?;
        }
        Ok(())
    }
}
