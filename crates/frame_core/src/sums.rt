//! Sums over the bodies of a frame.

ghost use Rattle.std.specs.Prelude.{◌≡◌, ◌-◌, ◌^◌, ◌<◌, ◌+ℤ◌, ◌*ℤ◌, pos, ℕ, All, length, map};
ghost use Rattle.bh_model.specs.Pulls.{IsWithin};
ghost use Rattle.bh_model.specs.Trees.{greatest};
ghost use Rattle.bh_model.specs.Zones.{cost_of};
ghost use Rattle.force_walk.specs.Walks.{IsPullAmong};
ghost use Rattle.frame_core.specs.Pushes.{met_by, push_by};
ghost use Rattle.mass_moments.specs.Kept.{cost_at};

use bh_model::Pull;
use scene_file::Bodies;

/// The cost of the bodies of a zone.
fn zone_cost(zone: &[u32], costs: &[u32]) -> u64
    requires inside { All (λ n. n < length costs.now) zone.now }
    requires fits { cost_of (cost_at costs.now) zone.now < 2 ^ 64 }
    ensures { result ≡ cost_of (cost_at costs.now) zone.now }
{
    let mut cost = 0u64;
    for n in zone {
        cost += u64::from(costs[*n as usize]);
    }
    cost
}

/// The greatest cost of a zone, 0 for none.
pub fn greatest_cost(zones: &[Vec<u32>], costs: &[u32]) -> u64
    requires inside { All (λ z. All (λ n. n < length costs.now) z.items) zones.now }
    requires fits { All (λ z. cost_of (cost_at costs.now) z.items < 2 ^ 64) zones.now }
    ensures { result ≡ greatest (map (λ z. cost_of (cost_at costs.now) z.items) zones.now) }
{
    let mut most = 0u64;
    for zone in zones {
        most = most.max(zone_cost(zone, costs));
    }
    most
}

/// The number of terms of all pulls, and the sums of mass times acceleration along each axis.
#[derive(Clone, Copy, Drop)]
pub struct Sums {
    pub met: u64,
    pub push_x: i128,
    pub push_y: i128,
    pub push_z: i128,
}

/// A sum and mass times one part of an acceleration.
fn with_push(sum: i128, mass: u32, part: i128) -> i128
    requires room { IsWithin (2 ^ 120 - 1) sum }
    requires small { IsWithin (2 ^ 80 - 1) part }
    ensures { result ≡ sum +ℤ (pos mass *ℤ part) }
{
    sum + i128::from(mass) * part
}

/// The sums over all bodies and the pulls on them.
pub fn sum_up(bodies: &Bodies, pulls: &[Pull]) -> Sums
    requires one_each { length pulls.now ≡ length bodies.now }
    requires small { All (IsPullAmong (length bodies.now)) pulls.now }
    ensures met { result.met ≡ met_by pulls.now (length bodies.now) }
    ensures push_x { result.push_x ≡ push_by (λ p. p.ax) bodies.now pulls.now (length bodies.now) }
    ensures push_y { result.push_y ≡ push_by (λ p. p.ay) bodies.now pulls.now (length bodies.now) }
    ensures push_z { result.push_z ≡ push_by (λ p. p.az) bodies.now pulls.now (length bodies.now) }
    ensures small_x { IsWithin (2 ^ 120 - 1) result.push_x }
    ensures small_y { IsWithin (2 ^ 120 - 1) result.push_y }
    ensures small_z { IsWithin (2 ^ 120 - 1) result.push_z }
{
    let mut sums = Sums {
        met: 0,
        push_x: 0,
        push_y: 0,
        push_z: 0,
    };
    for n in 0..bodies.len() {
        let mass = bodies.get(n).mass;
        let pull = pulls[n as usize];
        sums.met += u64::from(pull.met);
        sums.push_x = with_push(sums.push_x, mass, pull.ax);
        sums.push_y = with_push(sums.push_y, mass, pull.ay);
        sums.push_z = with_push(sums.push_z, mass, pull.az);
    }
    sums
}
