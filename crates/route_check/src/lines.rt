//! Whether each net's line of a report is true of the islands on the board.

ghost use Rattle.std.specs.Prelude.{◌≡◌, ◌↔◌, ◌≤◌, IsTrue, MatchOption, length};
ghost use Rattle.route_check.specs.Judged.{islands_told as islands_told_of};
ghost use Rattle.route_check.specs.inner.Kept.{HasItsCuts, HaveTheirCuts, IsFirstLine};

use geo_kernel::List;
use pcb_islands::Island;
use report_form::ReadCut;

// How many islands a report tells of a net.
fn islands_told(own: &[Island]) -> usize
    ensures { result ≡ islands_told_of own.now }
{
    if own.len() <= 1 {
        return 0;
    }
    own.len()
}

fn has_its_cuts(own: &[Island], cuts: &[ReadCut]) -> bool
    ensures { IsTrue result ↔ HasItsCuts own.now cuts.now }
{
    cuts.len() == islands_told(own)
}

/// The first net whose line isn't true, or None where all are.
pub(crate) fn first_false_line(found: &[List<Island>], nets: &[List<ReadCut>]) -> Option<u64>
    requires same { length found.now ≡ length nets.now }
    ensures { MatchOption result (HaveTheirCuts found.now nets.now) (IsFirstLine found.now nets.now) }
{
    for net in 0..found.len() {
        if !has_its_cuts(found[net].as_slice(), nets[net].as_slice()) {
            return Some(net as u64);
        }
    }
    None
}
