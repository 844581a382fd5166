// What no clause says: that the calls succeed, and what `csv` takes for a record's end.

use super::*;
use octant_code::Point;
use std::alloc::Global;

// Whether the body of a number has this mass and this point.
fn is_body(bodies: &Bodies, n: u32, mass: u32, x: u32, y: u32, z: u32) -> bool {
    if n >= bodies.len() {
        return false;
    }
    let body = bodies.get(n);
    body.mass == mass && Point::new(x, y, z) == Some(body.at)
}

#[test]
fn each_line_end_and_quoting_is_read(rt: HostRuntime) {
    let text =
        b"\xEF\xBB\xBFbody,1,0,0,0\r\n\n\"body\",\"4294967295\",2097151,\"0\",1\rbody,007,1,0,0\n\r\n\"bo\"dy,2,3,4,5";
    let scene = read_scene(rt.alloc(), text).expect(&rt, "a scene");
    assert_eq!(rt; scene.bodies.len(), 4);
    assert!(rt; is_body(&scene.bodies, 0, 1, 0, 0, 0));
    assert!(rt; is_body(&scene.bodies, 1, 4_294_967_295, 2_097_151, 0, 1));
    assert!(rt; is_body(&scene.bodies, 2, 7, 1, 0, 0));
    assert!(rt; is_body(&scene.bodies, 3, 2, 3, 4, 5));
}

#[test]
fn a_record_cut_in_the_middle_is_bad(rt: HostRuntime) {
    match read_scene(rt.alloc(), b"body,1,0,0,0\nbody,1,5") {
        Ok(_) => assert!(rt; false, "the cut record was accepted"),
        Err(fault) => assert_eq!(rt; fault, SceneFault::BadRecord(2)),
    }
}

#[test]
fn points_are_those_of_the_bodies(rt: HostRuntime) {
    let text = b"body,1,0,0,0\nbody,1,1048576,0,0\n";
    let bodies = read_scene(rt.alloc(), text).expect(&rt, "a scene").bodies;
    let points = bodies.points(rt.alloc()).expect(&rt, "points");
    assert_eq!(rt; points.len(), 2);
    if points.len() == 2 {
        assert!(rt; Point::new(0, 0, 0) == Some(points.at(0)));
        assert!(rt; Point::new(1_048_576, 0, 0) == Some(points.at(1)));
    }
}

#[test]
fn the_text_of_a_scene_has_its_bodies(rt: HostRuntime) {
    let text = b"body,007,0,2,3\r\n\n\"bo\"dy,4294967295,2097151,0,1";
    let scene = read_scene(rt.alloc(), text).expect(&rt, "a scene");
    let written = scene_text(rt.alloc(), &scene).expect(&rt, "a text");
    assert_eq!(rt;
        written.as_slice(),
        b"body,7,0,2,3\nbody,4294967295,2097151,0,1\n".as_slice()
    );
    let again = read_scene(rt.alloc(), &written).expect(&rt, "a scene");
    assert_eq!(rt; again.bodies.len(), 2);
    assert!(rt; is_body(&again.bodies, 1, 4_294_967_295, 2_097_151, 0, 1));
}

#[test]
fn a_body_of_a_made_scene_lies_where_its_code_says(rt: HostRuntime) {
    let corner = made_scene(rt.alloc(), 2, 0, Shape::Corner).expect(&rt, "a scene");
    assert_eq!(rt; corner.bodies.len(), 2);
    assert!(rt; is_body(&corner.bodies, 0, 1, 0, 0, 0));
    assert!(rt; is_body(&corner.bodies, 1, 2, 20_281, 29_658, 14_097));
}

// The fault of a text, or None where it is a scene.
fn fault_of(alloc: Global, text: &[u8]) -> Option<SceneFault> {
    match read_scene(alloc, text) {
        Ok(_) => None,
        Err(fault) => Some(fault),
    }
}

#[test]
fn the_text_of_a_scene_of_two_moves_has_69_bytes(rt: HostRuntime) {
    let text =
        b"body,1,0,0,0\nbody,1,1048576,0,0\nmove,0,1048576,0,0\nmove,1,0,0,0\npass\n".as_slice();
    let scene = read_scene(rt.alloc(), text).expect(&rt, "a scene");
    assert_eq!(rt; scene.passes.len(), 1);
    let written = scene_text(rt.alloc(), &scene).expect(&rt, "a text");
    assert_eq!(rt; written.len(), 69);
    assert_eq!(rt; written.as_slice(), text);
}

#[test]
fn swaps_and_points_that_are_left_are_accepted(rt: HostRuntime) {
    let text =
        b"body,1,0,0,0\nbody,2,1,0,0\nbody,3,2,0,0\nmove,0,1,0,0\nmove,1,2,0,0\nmove,2,0,0,0\npass\nmove,1,3,0,0\nmove,0,2,0,0\npass\npass\nmove,2,1,0,0".as_slice();
    let scene = read_scene(rt.alloc(), text).expect(&rt, "a scene");
    assert_eq!(rt; scene.passes.len(), 4);
    if scene.passes.len() == 4 {
        assert_eq!(rt; scene.passes.pass(0).len(), 3);
        assert_eq!(rt; scene.passes.pass(1).len(), 2);
        assert_eq!(rt; scene.passes.pass(2).len(), 0);
        assert_eq!(rt; scene.passes.pass(3).len(), 1);
    }
}

#[test]
fn two_bodies_at_one_point_after_a_pass_are_refused(rt: HostRuntime) {
    assert_eq!(rt;
        fault_of(
            rt.alloc(),
            b"body,1,0,0,0\nbody,1,1048576,0,0\nmove,0,1048576,0,0\npass\n"
        ),
        Some(SceneFault::PassCoincident(4, 0, 1))
    );
    assert_eq!(rt;
        fault_of(
            rt.alloc(),
            b"body,1,0,0,0\nbody,1,1048576,0,0\nmove,0,1048576,0,0"
        ),
        Some(SceneFault::PassCoincident(4, 0, 1))
    );
    // The least body at the point of one before it, and not the first move that meets one.
    assert_eq!(rt;
        fault_of(
            rt.alloc(),
            b"body,1,0,0,0\nbody,1,1,0,0\nbody,1,2,0,0\nbody,1,3,0,0\nmove,3,0,0,0\nmove,2,1,0,0\npass"
        ),
        Some(SceneFault::PassCoincident(7, 1, 2))
    );
}

#[test]
fn each_fault_of_a_move_is_told(rt: HostRuntime) {
    assert_eq!(rt;
        fault_of(rt.alloc(), b"body,1,0,0,0\nmove,1,5,5,5\npass"),
        Some(SceneFault::UnknownBody(2))
    );
    assert_eq!(rt;
        fault_of(
            rt.alloc(),
            b"body,1,0,0,0\nmove,0,1,0,0\nmove,0,2,0,0\npass"
        ),
        Some(SceneFault::MovedTwice(3, 0))
    );
    assert_eq!(rt;
        fault_of(rt.alloc(), b"body,1,0,0,0\nmove,65536,5,5,5"),
        Some(SceneFault::OutOfRange(2, 2))
    );
    assert_eq!(rt;
        fault_of(rt.alloc(), b"body,1,0,0,0\nmove,65535,5,5,5"),
        Some(SceneFault::UnknownBody(2))
    );
    assert_eq!(rt;
        fault_of(rt.alloc(), b"move,x,5,2097152,5"),
        Some(SceneFault::BadNumber(1, 2))
    );
    assert_eq!(rt;
        fault_of(rt.alloc(), b"move,0,5,2097152,5"),
        Some(SceneFault::OutOfRange(1, 4))
    );
    assert_eq!(rt;
        fault_of(rt.alloc(), b"pass,"),
        Some(SceneFault::BadRecord(1))
    );
    assert_eq!(rt;
        fault_of(rt.alloc(), b"move,0,5,5"),
        Some(SceneFault::BadRecord(1))
    );
}

#[test]
fn a_body_behind_a_move_or_a_pass_is_refused(rt: HostRuntime) {
    assert_eq!(rt;
        fault_of(rt.alloc(), b"body,1,0,0,0\npass\nbody,1,1,0,0"),
        Some(SceneFault::BodyAfterMove(3))
    );
    // A body at the point that a record gave another one is told first, and first of all points.
    assert_eq!(rt;
        fault_of(rt.alloc(), b"body,1,0,0,0\npass\nbody,1,0,0,0"),
        Some(SceneFault::Coincident(3, 0, 1))
    );
    assert_eq!(rt;
        fault_of(rt.alloc(), b"body,1,0,0,0\nmove,0,1,0,0\nbody,1,0,0,0"),
        Some(SceneFault::Coincident(3, 0, 1))
    );
    assert_eq!(rt;
        fault_of(
            rt.alloc(),
            b"body,1,0,0,0\nmove,0,1,0,0\npass\nbody,1,1,0,0"
        ),
        Some(SceneFault::BodyAfterMove(4))
    );
    assert_eq!(rt;
        fault_of(
            rt.alloc(),
            b"body,1,0,0,0\nbody,1,0,0,0\nmove,7,1,0,0\npass"
        ),
        Some(SceneFault::Coincident(2, 0, 1))
    );
}

#[test]
fn a_pass_too_many_is_refused(rt: HostRuntime) {
    let mut text = Vec::new(rt.alloc());
    for _pass in 0..1024u32 {
        text.extend_from_slice(b"pass\n").expect(&rt, "memory");
    }
    let scene = read_scene(rt.alloc(), &text).expect(&rt, "a scene");
    assert_eq!(rt; scene.passes.len(), 1024);
    text.extend_from_slice(b"pass").expect(&rt, "memory");
    assert_eq!(rt;
        fault_of(rt.alloc(), &text),
        Some(SceneFault::TooMany(1025))
    );
}

#[test]
fn the_end_of_the_file_ends_a_pass_that_can_be_one_too_many(rt: HostRuntime) {
    let mut text = Vec::new(rt.alloc());
    text.extend_from_slice(b"body,1,0,0,0\nbody,1,1,0,0\n")
        .expect(&rt, "memory");
    for _pass in 0..1023u32 {
        text.extend_from_slice(b"pass\n").expect(&rt, "memory");
    }
    text.extend_from_slice(b"move,0,2,0,0\n")
        .expect(&rt, "memory");
    let scene = read_scene(rt.alloc(), &text).expect(&rt, "a scene");
    assert_eq!(rt; scene.passes.len(), 1024);
    // After one pass more two bodies would meet too; that is looked for only where there is place for it.
    text.extend_from_slice(b"pass\nmove,0,1,0,0")
        .expect(&rt, "memory");
    assert_eq!(rt;
        fault_of(rt.alloc(), &text),
        Some(SceneFault::TooMany(1029))
    );
}

#[test]
fn bodies_are_shifted_by_a_pass(rt: HostRuntime) {
    let text = b"body,5,0,0,0\nbody,6,1,0,0\nmove,1,0,0,0\nmove,0,1,0,0";
    let scene = read_scene(rt.alloc(), text).expect(&rt, "a scene");
    assert!(rt; scene.passes.len() > 0);
    let moves = scene.passes.pass(0);
    let shifted = scene
        .bodies
        .shifted(rt.alloc(), moves)
        .expect(&rt, "bodies");
    assert!(rt; is_body(&shifted, 0, 5, 1, 0, 0));
    assert!(rt; is_body(&shifted, 1, 6, 0, 0, 0));
}
