//! How bodies move from a frame to the next.

ghost use Rattle.std.specs.Prelude.{◌≡◌, IfOk, All, length, map};
ghost use Rattle.bh_model.specs.Zones.{IsCost, cost_after};
ghost use Rattle.drift.specs.Motions.{stepped, whole_points};
ghost use Rattle.frame_core.specs.Held.{motion_by};
ghost use Rattle.frame_core.specs.Next.{bodies_at, next_number};
ghost use Rattle.scene_file.specs.Bodies.{sites_of};

use bh_model::Pull;
use drift::Motion;
use octant_code::OutOfMemory;
use scene_file::Bodies;
use std::alloc::Global;

/// The number of the next frame. It stands still at the greatest one of 32 bits.
pub fn next_number(step: u32) -> u32
    ensures { result ≡ next_number step }
{
    step.saturating_add(1)
}

/// The bodies after a step by pulls, and their motion after it. Where none was kept they rested at
/// their points.
pub fn step_bodies(
    alloc: Global,
    bodies: &Bodies,
    motion: Option<Motion>,
    pulls: &[Pull],
) -> Result<(Bodies, Motion), OutOfMemory>
    requires whole { whole_points (motion_by motion bodies.now) ≡ sites_of bodies.now }
    requires one_each { length pulls.now ≡ length bodies.now }
    ensures bodies { IfOk result (λ r. r.0 ≡ bodies_at (whole_points (stepped pulls.now (motion_by motion bodies.now))) bodies.now) }
    ensures points { IfOk result (λ r. whole_points r.1 ≡ sites_of r.0) }
    ensures count { IfOk result (λ r. length r.0 ≡ length bodies.now) }
    ensures motion { IfOk result (λ r. r.1 ≡ stepped pulls.now (motion_by motion bodies.now)) }
{
    let mut motion = match motion {
        Some(motion) => motion,
        None => Motion::new(alloc, bodies)?,
    };
    let moves = motion.step(pulls)?;
    let moved = bodies.shifted(alloc, &moves)?;
    Ok((moved, motion))
}

/// Sets the cost of each body after a frame: 1, and the number of terms of its pull.
pub fn set_costs(costs: &mut [u32], pulls: &[Pull])
    requires one_each { length pulls.now ≡ length costs.old }
    requires small { All (λ p. IsCost (cost_after p)) pulls.now }
    ensures { costs.new ≡ map cost_after pulls.now }
{
    for n in 0..pulls.len() {
        costs[n] = 1 + pulls[n].met;
    }
}
