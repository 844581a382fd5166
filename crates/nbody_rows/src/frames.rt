//! Frames of runs of one step.

use crate::serving::gives;
use nbody_cli::Status;
use std::test::Fail;

#[test]
fn a_frame_of_no_body(rt: HostRuntime) -> Result<(), Fail> {
    let text = b"frame 0\ntree .\ncells 0 depth 0\ncost 0 greatest 0\nzone 0\n";
    gives(&rt, "run", b"", Status::Done, text)
}

#[test]
fn a_frame_of_one_body(rt: HostRuntime) -> Result<(), Fail> {
    let text =
        b"frame 0\ntree b0\ncells 0 depth 0\ncost 1 greatest 1\nzone 0 0\nacc 0 at 5 6 7 pull 0 0 0 met 0\n";
    gives(&rt, "run", b"body,9,5,6,7\n", Status::Done, text)
}

#[test]
fn two_bodies_pull_each_other(rt: HostRuntime) -> Result<(), Fail> {
    let text =
        b"frame 0\ntree (((((((((((((((((((b0...b1...).......).......).......).......).......).......).......).......).......).......).......).......).......).......).......).......).......).......)\ncells 19 depth 19\ncost 2 greatest 2\nzone 0 0 1\nacc 0 at 0 0 0 pull 268435456 0 0 met 1\nacc 1 at 4 0 0 pull -2147483648 0 0 met 1\n";
    gives(
        &rt,
        "run",
        b"body,8,0,0,0\nbody,1,4,0,0\n",
        Status::Done,
        text,
    )
}

#[test]
fn a_cell_at_the_opening_distance_is_opened(rt: HostRuntime) -> Result<(), Fail> {
    let text =
        b"frame 0\ntree (((((((((((((((((((b0...(b1...b2...)...).......).......).......).......).......).......).......).......).......).......).......).......).......).......).......).......).......).......)\ncells 20 depth 20\ncost 3 greatest 3\nzone 0 0 1 2\nacc 0 at 1 0 0 pull 649017279 0 0 met 2\nacc 1 at 4 0 0 pull 596523236 0 0 met 2\nacc 2 at 6 0 0 pull -1245540515 0 0 met 2\n";
    gives(
        &rt,
        "run",
        b"body,1,1,0,0\nbody,1,4,0,0\nbody,1,6,0,0\n",
        Status::Done,
        text,
    )
}

#[test]
fn a_cell_beyond_the_opening_distance_is_taken_whole(rt: HostRuntime) -> Result<(), Fail> {
    let text =
        b"frame 0\ntree (((((((((((((((((((b0...(b1...b2...)...).......).......).......).......).......).......).......).......).......).......).......).......).......).......).......).......).......).......)\ncells 20 depth 20\ncost 3 greatest 3\nzone 0 0 1 2\nacc 0 at 1 0 0 pull 536870912 0 0 met 1\nacc 1 at 4 0 0 pull 596523236 0 0 met 2\nacc 2 at 6 0 0 pull -1245540515 0 0 met 2\n";
    gives(
        &rt,
        "run --theta 2/1",
        b"body,1,1,0,0\nbody,1,4,0,0\nbody,1,6,0,0\n",
        Status::Done,
        text,
    )
}

#[test]
fn a_cell_is_not_taken_whole_from_inside_it(rt: HostRuntime) -> Result<(), Fail> {
    let text =
        b"frame 0\ntree (((((((((((((((((((((b0...b1...)...b2...).......).......).......).......).......).......).......).......).......).......).......).......).......).......).......).......).......).......).......)\ncells 21 depth 21\ncost 3 greatest 3\nzone 0 0 1 2\nacc 0 at 0 0 0 pull 5368709120 0 0 met 2\nacc 1 at 1 0 0 pull 0 0 0 met 2\nacc 2 at 2 0 0 pull -5368709120 0 0 met 2\n";
    gives(
        &rt,
        "run",
        b"body,1,0,0,0\nbody,1,1,0,0\nbody,1,2,0,0\n",
        Status::Done,
        text,
    )
}

#[test]
fn three_workers_share_four_bodies(rt: HostRuntime) -> Result<(), Fail> {
    let text =
        b"frame 0\ntree (b0b1b2.b3...)\ncells 1 depth 1\ncost 4 greatest 2\nzone 0 0 1\nzone 1 2\nzone 2 3\nacc 0 at 0 0 0 pull 0 0 0 met 3\nacc 1 at 0 0 1048576 pull 0 0 0 met 3\nacc 2 at 0 1048576 0 pull 0 0 0 met 3\nacc 3 at 1048576 0 0 pull 0 0 0 met 3\n";
    gives(
        &rt,
        "run --workers 3",
        b"body,1,0,0,0\nbody,1,0,0,1048576\nbody,1,0,1048576,0\nbody,1,1048576,0,0\n",
        Status::Done,
        text,
    )
}

#[test]
fn eight_workers_share_three_bodies(rt: HostRuntime) -> Result<(), Fail> {
    let text =
        b"frame 0\ntree (b0b1b2.....)\ncells 1 depth 1\ncost 3 greatest 1\nzone 0 0\nzone 1\nzone 2 1\nzone 3\nzone 4\nzone 5 2\nzone 6\nzone 7\nacc 0 at 0 0 0 pull 0 0 0 met 2\nacc 1 at 0 0 1048576 pull 0 0 0 met 2\nacc 2 at 0 1048576 0 pull 0 0 0 met 2\n";
    gives(
        &rt,
        "run --workers 8",
        b"body,1,0,0,0\nbody,1,0,0,1048576\nbody,1,0,1048576,0\n",
        Status::Done,
        text,
    )
}
