// Steps that were worked out by hand, and that the calls answer where there is memory.

use super::*;
use bh_model::Pull;
use octant_code::Point;
use scene_file::{Move, read_scene};
use std::alloc::Global;
use std::process::Abort;

// A position unit.
const UNIT: i64 = 1 << 32;

fn motion(rt: &impl Abort, alloc: Global, text: &[u8]) -> Motion {
    let scene = read_scene(alloc, text).expect(rt, "a scene");
    Motion::new(alloc, &scene.bodies).expect(rt, "a motion")
}

fn pull(ax: i64, ay: i64, az: i64) -> Pull {
    Pull {
        ax: i128::from(ax),
        ay: i128::from(ay),
        az: i128::from(az),
        met: 1,
    }
}

fn step(rt: &impl Abort, motion: &mut Motion, pulls: &[Pull]) -> Vec<Move> {
    assert!(rt; pulls.len() == motion.len() as usize);
    motion.step(pulls).expect(rt, "moves")
}

fn is_at(motion: &Motion, n: u32, x: i64, y: i64, z: i64) -> bool {
    if n >= motion.len() {
        return false;
    }
    let at = motion.exact(n);
    i128::from(at.x) == i128::from(x)
        && i128::from(at.y) == i128::from(y)
        && i128::from(at.z) == i128::from(z)
}

fn has_velocity(motion: &Motion, n: u32, x: i64, y: i64, z: i64) -> bool {
    if n >= motion.len() {
        return false;
    }
    let velocity = motion.velocity(n);
    velocity.x == x && velocity.y == y && velocity.z == z
}

// The one move is that of a body to a point on the x axis.
fn is_one_move(moves: &[Move], body: u32, x: u32) -> bool {
    moves.len() == 1 && moves[0].body == body && Some(moves[0].to) == Point::new(x, 0, 0)
}

#[test]
fn fractions_are_kept(rt: HostRuntime) {
    let mut motion = motion(&rt, rt.alloc(), b"body,1,0,0,0\n");
    let moves = step(&rt, &mut motion, &[pull(UNIT / 2, 3, 0)]);
    assert!(rt; moves.is_empty());
    assert!(rt; is_at(&motion, 0, UNIT / 2, 3, 0));
    let moves = step(&rt, &mut motion, &[pull(0, 0, 0)]);
    assert!(rt; is_one_move(&moves, 0, 1));
    assert!(rt; is_at(&motion, 0, UNIT, 6, 0));
    assert!(rt; has_velocity(&motion, 0, UNIT / 2, 3, 0));
}

#[test]
fn a_velocity_is_clamped_before_the_target(rt: HostRuntime) {
    let mut motion = motion(&rt, rt.alloc(), b"body,1,0,0,0\nbody,1,2097151,0,0\n");
    let mut far = pull(0, 0, 0);
    far.ax = 1 << 79;
    let mut back = pull(0, 0, 0);
    back.ax = -(1 << 79);
    let moves = step(&rt, &mut motion, &[far, back]);
    assert_eq!(rt; moves.len(), 2);
    assert!(rt; is_at(&motion, 0, UNIT << 18, 0, 0));
    assert!(rt; has_velocity(&motion, 0, UNIT << 18, 0, 0));
    assert!(rt; is_at(&motion, 1, (2_097_151 - (1 << 18)) * UNIT, 0, 0));
    assert!(rt; has_velocity(&motion, 1, -(UNIT << 18), 0, 0));
}

#[test]
fn a_wall_keeps_the_coordinate_and_turns_the_velocity(rt: HostRuntime) {
    let mut motion = motion(&rt, rt.alloc(), b"body,1,0,0,0\nbody,1,2097151,0,0\n");
    let moves = step(&rt, &mut motion, &[pull(-5, 7, 0), pull(UNIT, 0, 0)]);
    assert!(rt; moves.is_empty());
    assert!(rt; is_at(&motion, 0, 0, 7, 0));
    assert!(rt; has_velocity(&motion, 0, 5, 7, 0));
    assert!(rt; is_at(&motion, 1, 2_097_151 * UNIT, 0, 0));
    assert!(rt; has_velocity(&motion, 1, -UNIT, 0, 0));
}

#[test]
fn an_occupied_point_stops_all_three_coordinates(rt: HostRuntime) {
    let mut motion = motion(&rt, rt.alloc(), b"body,1,0,0,0\nbody,1,1,0,0\n");
    let moves = step(&rt, &mut motion, &[pull(UNIT, 3, 4), pull(0, 0, 0)]);
    assert!(rt; moves.is_empty());
    assert!(rt; is_at(&motion, 0, 0, 0, 0));
    assert!(rt; has_velocity(&motion, 0, 0, 0, 0));
}

#[test]
fn a_body_of_a_higher_number_has_not_moved_yet(rt: HostRuntime) {
    let mut motion = motion(&rt, rt.alloc(), b"body,1,0,0,0\nbody,1,1,0,0\n");
    let moves = step(&rt, &mut motion, &[pull(UNIT, 0, 0), pull(UNIT, 0, 0)]);
    assert!(rt; is_one_move(&moves, 1, 2));
    assert!(rt; is_at(&motion, 0, 0, 0, 0));
    assert!(rt; is_at(&motion, 1, 2 * UNIT, 0, 0));
}

#[test]
fn a_body_of_a_lower_number_has_moved_away(rt: HostRuntime) {
    let mut motion = motion(&rt, rt.alloc(), b"body,1,1,0,0\nbody,1,0,0,0\n");
    let moves = step(&rt, &mut motion, &[pull(UNIT, 0, 0), pull(UNIT, 0, 0)]);
    assert_eq!(rt; moves.len(), 2);
    assert!(rt; is_at(&motion, 0, 2 * UNIT, 0, 0));
    assert!(rt; is_at(&motion, 1, UNIT, 0, 0));
}

#[test]
fn two_bodies_that_would_swap_stop(rt: HostRuntime) {
    let mut motion = motion(&rt, rt.alloc(), b"body,1,0,0,0\nbody,1,1,0,0\n");
    let moves = step(&rt, &mut motion, &[pull(UNIT, 0, 0), pull(-UNIT, 0, 0)]);
    assert!(rt; moves.is_empty());
    assert!(rt; is_at(&motion, 0, 0, 0, 0) && is_at(&motion, 1, UNIT, 0, 0));
}
