//! The order of what may be wrong: first the copper, item by item, then the nets' lines, then the cuts.

ghost use Rattle.std.specs.Prelude.{◌≡◌, ◌<◌, All, IfOk, MatchOption, length};
ghost use Rattle.pcb_islands.specs.declared.net.Island.{Island as OneIsland};
ghost use Rattle.pcb_model.specs.Copper.{Ascends};
ghost use Rattle.pcb_model.specs.Sound.{Serves};
ghost use Rattle.route_check.specs.inner.Order.{IsBadCopper, IsNetsVerdict, IsWellLaid};

use crate::cuts::first_false_cut;
use crate::lines::first_false_line;
use crate::verdict::Verdict;
use copper_check::{first_clash, first_ill_laid, first_outside};
use geo_kernel::List;
use pcb_islands::Island;
use pcb_model::{Copper, Design, Item};
use report_form::ReadCut;
use route_lattice::Ground;
use std::alloc::{AllocError, Global};

/// What is wrong with the copper first, or None where nothing is. The items are those of the copper.
pub(crate) fn wrong_copper<C: Copper>(d: &Design, c: &C, items: &[Item]) -> Option<Verdict>
    requires same { C.items c.now ≡ items.now }
    requires serves { C.serves c.now d.now }
    requires ascends { Ascends items.now }
    requires all_serve { Serves items.now d.now }
    ensures { MatchOption result (IsWellLaid d.now items.now) (IsBadCopper d.now items.now) }
{
    match first_clash(d, c, items) {
        Some(at) => return Some(Verdict::No { number: 3, at }),
        None => {}
    }
    match first_outside(d, items) {
        Some(at) => return Some(Verdict::No { number: 4, at }),
        None => {}
    }
    match first_ill_laid(d, items) {
        Some(at) => Some(Verdict::No { number: 5, at }),
        None => None,
    }
}

/// What is wrong with the lines and the cuts of a report first, or that nothing is.
pub(crate) fn judge_nets<C: Copper>(
    alloc: Global,
    on: &Ground<'_, C>,
    found: &[List<Island>],
    nets: &[List<ReadCut>],
) -> Result<Verdict, AllocError>
    requires nets { All (All (λ (s : OneIsland). s.net < length on.now.d.nets)) found.now }
    requires same { length found.now ≡ length nets.now }
    ensures { IfOk result (IsNetsVerdict on.now.d on.now.lat on.now.items found.now nets.now) }
{
    match first_false_line(found, nets) {
        Some(at) => return Ok(Verdict::No { number: 6, at }),
        None => {}
    }
    match first_false_cut(alloc, on, found, nets)? {
        Some(at) => Ok(Verdict::No { number: 7, at }),
        None => Ok(Verdict::Yes),
    }
}
