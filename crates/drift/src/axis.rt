//! A step along one axis.

ghost use Rattle.std.specs.Prelude.{◌≡◌, ◌<◌, ◌^◌};
ghost use Rattle.bh_model.specs.Pulls.{IsWithin};
ghost use Rattle.drift.specs.Motions.{along, sped};

/// How much of an exact coordinate is below the cube's side.
const SIDE: i64 = 1 << 53;

/// The greatest velocity along an axis.
const FASTEST: i64 = 1 << 50;

/// The velocity along an axis after an acceleration. No more of the acceleration counts than takes
/// the fastest body from one direction to the other, so that the sum has room in 64 bits.
#[inline]
pub fn sped(velocity: i64, acceleration: i128) -> i64
    requires { IsWithin (2 ^ 50) velocity }
    ensures value { result ≡ sped velocity acceleration }
    ensures small { IsWithin (2 ^ 50) result }
{
    let most = i128::from(2 * FASTEST);
    let change = acceleration.clamp(-most, most) as i64;
    (velocity + change).clamp(-FASTEST, FASTEST)
}

/// The coordinate and the velocity along an axis after a step with a velocity.
#[inline]
pub fn along(coordinate: u64, velocity: i64) -> (u64, i64)
    requires inside { coordinate < 2 ^ 53 }
    requires slow { IsWithin (2 ^ 50) velocity }
    ensures value { result ≡ along coordinate velocity }
    ensures inside { result.0 < 2 ^ 53 }
    ensures slow { IsWithin (2 ^ 50) result.1 }
{
    let target = coordinate as i64 + velocity;
    if 0 <= target && target < SIDE {
        (target as u64, velocity)
    } else {
        (coordinate, -velocity)
    }
}
