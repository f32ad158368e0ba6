//! Runs of the top call with several workers, between gates, which tell that they were called.

use crate::calls::called;
use crate::designs::CROSSING;
use crate::gates::{AllCome, FirstWaits};
use board_gen::design_text;
use board_turn::Gate;
use dsn_route::Status;
use std::alloc::Global;
use std::process::Abort;
use std::sync::Wait;
use std::thread::Threads;

// Whether a call with the words of a line routes a design between a gate: it ends with a session, whole or with nets
// that are open.
fn routes<R: Threads + Wait + Sync + Abort, G: Gate + Sync>(
    rt: &R,
    alloc: Global,
    bytes: &[u8],
    line: &str,
    gate: &G,
) -> bool {
    let left = called(rt, alloc, bytes, line, (0, 0), gate);
    matches!(left.status, Status::Complete | Status::SomeOpen)
}

#[test]
fn two_workers_route_side_by_side(rt: HostRuntime) {
    let gate = FirstWaits::new();
    let line = "route u.dsn u.ses --grid 1000 --workers 2 --passes 1";
    assert!(rt; routes(&rt, rt.alloc(), CROSSING.as_bytes(), line, &gate));
    assert!(rt; gate.held() < 2 && !gate.gave_up());
}

// There are four workers without an option.
#[test]
fn four_workers_route_side_by_side(rt: HostRuntime) {
    let gate = AllCome::new(4);
    let text = design_text(rt.alloc(), 8).expect(&rt, "no board");
    let line = "route u.dsn u.ses --passes 1";
    assert!(rt; routes(&rt, rt.alloc(), text.as_slice(), line, &gate));
    assert!(rt; gate.come() == 4 && !gate.gave_up());
}
