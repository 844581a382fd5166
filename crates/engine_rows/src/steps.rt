//! An engine's frames: bodies that move by the pulls of a frame, the frame after that, and workers who are
//! at work at the same time.

ghost use Rattle.std.specs.Prelude.{◌≡◌, IfOk};
ghost use Rattle.bh_model.specs.Plans.{HasWorkers};
ghost use Rattle.bh_model.specs.declared.plan.Builder.TheVariants.{Orig};
ghost use Rattle.frame_core.specs.Engines.{WithFrame, WithoutTree, frame_of};

use bh_model::{Builder, Law, Plan};
use build_gate::{MeetGate, OpenGate};
use frame_core::Engine;
use locked_tree::LockedYard;
use octant_code::OutOfMemory;
use probe::Frame;
use scene_file::{Bodies, Shape, made_scene, read_scene};
use std::alloc::Global;
use std::test::Fail;

/// A body of mass 128 in the corner of the cube, and one of mass 1 eight positions along x.
const PAIR: &[u8] = b"body,128,0,0,0\nbody,1,8,0,0\n";

/// The engine of bodies by ORIG with so many workers: opening angle 1, no softening, and 2^32 for the
/// constant of gravitation.
fn engine_of(alloc: Global, workers: u32, bodies: Bodies) -> Result<Engine, Fail>
    requires { HasWorkers workers }
    ensures bare { IfOk result (λ e. e.stage ≡ WithoutTree) }
    ensures builder { IfOk result (λ e. e.plan.builder ≡ Orig) }
{
    let plan = Plan {
        builder: Builder::Orig,
        workers,
        law: Law {
            theta_num: 1,
            theta_den: 1,
            eps2: 0,
            g: 1 << 32,
        },
    };
    Ok(Engine::open(alloc, plan, bodies)?)
}

/// Where the body of number 1 is along x, and its acceleration along x, where there is one.
fn second_body(engine: &Engine, frame: &Frame) -> Option<(u32, i128)>
    requires stage { engine.now.stage ≡ WithFrame }
    requires figures { frame.now ≡ frame_of engine.now }
{
    if frame.bodies > 1 {
        Some((engine.point(1).x, engine.pull_of(1).ax))
    } else {
        None
    }
}

#[test]
fn a_step_moves_a_body_by_its_pull(rt: HostRuntime) -> Result<(), Fail> {
    let mut yard = LockedYard::new();
    let bodies = read_scene(rt.alloc(), PAIR)?.bodies;
    let mut engine = engine_of(rt.alloc(), 1, bodies)?;
    engine.tree(&rt, &mut yard, &OpenGate)?;
    let frame = engine.frame(&rt, &OpenGate)?;
    assert_eq!(rt; (frame.step, frame.cost, frame.met), (0, 2, 2));
    // 128 * 2^32 * 8 / 8^3 is 2 positions, which the body goes in one step
    assert_eq!(rt; second_body(&engine, &frame), Some((8, -(2 << 32))));
    engine.drift()?;
    engine.tree(&rt, &mut yard, &OpenGate)?;
    let frame = engine.frame(&rt, &OpenGate)?;
    assert_eq!(rt; (engine.step(), frame.step, frame.cost), (1, 1, 4));
    // 128 * 2^32 * 6 / 6^3, rounded towards zero
    assert_eq!(rt; second_body(&engine, &frame), Some((6, -15_270_994_830)));
    Ok(())
}

#[test]
fn two_workers_of_a_frame_meet(rt: HostRuntime) -> Result<(), Fail> {
    let bodies = made_scene(rt.alloc(), 64, 7, Shape::Uniform)?.bodies;
    let mut engine = engine_of(rt.alloc(), 2, bodies)?;
    engine.tree(&rt, &mut LockedYard::new(), &OpenGate)?;
    // the builder's workers pass another gate, so those who meet are at work on the pulls
    let gate = MeetGate::new(0, 1);
    let frame = engine.frame(&rt, &gate)?;
    assert!(rt; !gate.missed());
    assert_eq!(rt; (frame.cost, frame.greatest), (64, 32));
    let mut met = 0u64;
    for n in 0..frame.bodies {
        met = met.saturating_add(u64::from(engine.pull_of(n).met));
    }
    assert_eq!(rt; frame.met, met);
    Ok(())
}
