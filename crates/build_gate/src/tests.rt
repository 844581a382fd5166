//! Two workers at a gate.

use crate::{Gate, GatePoint, MeetGate};
use std::test::Fail;
use std::thread::join;

#[test]
fn two_workers_meet_after_their_first_piece(rt: HostRuntime) -> Result<(), Fail> {
    let gate = MeetGate::new(3, 7);
    join(
        &rt,
        || gate.pass(3, GatePoint::AfterFirst),
        || gate.pass(7, GatePoint::AfterFirst),
    );
    assert!(rt; !gate.missed());
    Ok(())
}

#[test]
fn a_worker_alone_misses_the_other(rt: HostRuntime) -> Result<(), Fail> {
    let gate = MeetGate::new(0, 1);
    gate.pass(1, GatePoint::Start);
    gate.pass(0, GatePoint::AfterFirst);
    assert!(rt; gate.missed());
    Ok(())
}

#[test]
fn other_workers_and_other_points_pass(rt: HostRuntime) -> Result<(), Fail> {
    let gate = MeetGate::new(0, 1);
    gate.pass(2, GatePoint::AfterFirst);
    gate.pass(0, GatePoint::Start);
    gate.pass(0, GatePoint::End);
    assert!(rt; !gate.missed());
    Ok(())
}
