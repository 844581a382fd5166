// The bounds of the states, and states and lines that were worked out by hand.

ghost use Rattle.std.specs.Prelude.{◌-◌, ◌^◌};
ghost use Rattle.bh_model.specs.Pulls.{IsWithin};

use super::*;
use octant_code::OutOfMemory;
use std::alloc::Global;
use std::process::Abort;

// The greatest push that a frame may have.
const GREATEST_PUSH: i128 = (1 << 120) - 1;

fn frame(cells: u32, cost: u64, greatest: u64, push_x: i128, push_y: i128) -> Frame
    requires x { IsWithin (2 ^ 120 - 1) push_x }
    requires y { IsWithin (2 ^ 120 - 1) push_y }
{
    Frame {
        step: 0,
        bodies: 2,
        cells,
        cost,
        greatest,
        met: 2,
        push_x,
        push_y,
        push_z: -1,
    }
}

fn show<P: Probe>(rt: &impl Abort, probe: &mut P, frame: &Frame, times: u32) -> Verdict {
    let mut verdict = Verdict::More;
    for _ in 0..times {
        assert!(rt; verdict == Verdict::More);
        verdict = probe.see(frame).expect(rt, "a verdict");
    }
    verdict
}

fn tells<P: Probe>(rt: &impl Abort, alloc: Global, probe: &P, line: &str) -> bool {
    let mut out = Vec::new(alloc);
    probe.line(&mut out).expect(rt, "a line");
    out.as_slice() == line.as_bytes()
}

#[test]
fn balance_sums_up_the_costs(rt: HostRuntime) {
    let mut probe = Balance::new();
    assert!(rt; probe.kind() == Kind::Balance);
    assert!(rt;
        tells(
            &rt,
            rt.alloc(),
            &probe,
            "balance frames 0 cost 0 greatest 0"
        )
    );
    assert!(rt; show(&rt, &mut probe, &frame(21, 2, 1, 0, 0), 1) == Verdict::More);
    assert!(rt; show(&rt, &mut probe, &frame(21, 4, 3, 0, 0), 1) == Verdict::More);
    assert!(rt;
        tells(
            &rt,
            rt.alloc(),
            &probe,
            "balance frames 2 cost 6 greatest 4"
        )
    );
}

#[test]
fn sums_of_costs_stay_at_their_bound(rt: HostRuntime) {
    let mut probe = Balance::new();
    let most = 1 << 63;
    show(&rt, &mut probe, &frame(0, most - 1, most, 0, 0), 1);
    assert!(rt;
        tells(
            &rt,
            rt.alloc(),
            &probe,
            "balance frames 1 cost 9223372036854775807 greatest 9223372036854775808"
        )
    );
    show(&rt, &mut probe, &frame(0, 1, 1, 0, 0), 1);
    assert!(rt;
        tells(
            &rt,
            rt.alloc(),
            &probe,
            "balance frames 2 cost 9223372036854775808 greatest 9223372036854775808"
        )
    );
    show(&rt, &mut probe, &frame(0, u64::MAX, u64::MAX, 0, 0), 2);
    assert!(rt;
        tells(
            &rt,
            rt.alloc(),
            &probe,
            "balance frames 4 cost 9223372036854775808 greatest 9223372036854775808"
        )
    );
}

#[test]
fn momentum_sums_up_the_pushes(rt: HostRuntime) {
    let mut probe = Momentum::new();
    assert!(rt; probe.kind() == Kind::Momentum);
    assert!(rt; show(&rt, &mut probe, &frame(21, 2, 1, 5, -7), 3) == Verdict::More);
    assert!(rt; tells(&rt, rt.alloc(), &probe, "momentum frames 3 push 15 -21 -3"));
}

#[test]
fn sums_of_pushes_stay_within_their_bounds(rt: HostRuntime) {
    let mut probe = Momentum::new();
    let rows = [
        (
            (GREATEST_PUSH, -GREATEST_PUSH, 64),
            "momentum frames 64 push 85070591730234615865843651857942052800 -85070591730234615865843651857942052800 -64",
        ),
        (
            (64, -64, 1),
            "momentum frames 65 push 85070591730234615865843651857942052864 -85070591730234615865843651857942052864 -65",
        ),
        (
            (1, -1, 1),
            "momentum frames 66 push 85070591730234615865843651857942052864 -85070591730234615865843651857942052864 -66",
        ),
        (
            (-2, 3, 1),
            "momentum frames 67 push 85070591730234615865843651857942052862 -85070591730234615865843651857942052861 -67",
        ),
    ];
    for ((x, y, times), line) in rows {
        show(&rt, &mut probe, &frame(0, 0, 0, x, y), times);
        assert!(rt; tells(&rt, rt.alloc(), &probe, line));
    }
}

#[test]
fn first_finishes_at_its_last_frame(rt: HostRuntime) {
    let mut probe = FirstFrames::new(3);
    assert!(rt; probe.kind() == Kind::First);
    assert!(rt; tells(&rt, rt.alloc(), &probe, "first left 3 cells 0"));
    assert!(rt; show(&rt, &mut probe, &frame(21, 2, 1, 0, 0), 2) == Verdict::More);
    assert!(rt; tells(&rt, rt.alloc(), &probe, "first left 1 cells 21"));
    assert!(rt; show(&rt, &mut probe, &frame(20, 2, 1, 0, 0), 1) == Verdict::Finished);
    assert!(rt; tells(&rt, rt.alloc(), &probe, "first left 0 cells 20"));
}

#[test]
fn first_of_no_frames_finishes_at_once(rt: HostRuntime) {
    let mut probe = FirstFrames::new(0);
    assert!(rt; show(&rt, &mut probe, &frame(21, 2, 1, 0, 0), 1) == Verdict::Finished);
    assert!(rt; tells(&rt, rt.alloc(), &probe, "first left 0 cells 21"));
}

#[test]
fn a_refusing_probe_sees_its_good_frames(rt: HostRuntime) {
    let mut probe = RefusingBalance::new(2, false);
    assert!(rt; probe.kind() == Kind::Balance);
    show(&rt, &mut probe, &frame(21, 2, 1, 0, 0), 2);
    assert!(rt;
        tells(
            &rt,
            rt.alloc(),
            &probe,
            "balance frames 2 cost 4 greatest 2"
        )
    );
    assert!(rt; probe.see(&frame(21, 2, 1, 0, 0)) == Err(OutOfMemory));
    assert!(rt; probe.see(&frame(21, 2, 1, 0, 0)) == Err(OutOfMemory));
}

#[test]
fn a_refusing_probe_refuses_its_line(rt: HostRuntime) {
    let mut probe = RefusingBalance::new(1, true);
    show(&rt, &mut probe, &frame(21, 2, 1, 0, 0), 1);
    let mut out = Vec::new(rt.alloc());
    assert!(rt; probe.line(&mut out) == Err(OutOfMemory));
}
