//! Pulls on bodies, and the law by which bodies pull.

use std::marker::Model;

/// The sum of terms of acceleration along each axis, in units of 2^-32 of a position unit, and `met`,
/// the number of the terms.
#[derive(Clone, Copy, Debug, PartialEq, Eq)]
pub struct Pull {
    pub ax: i128,
    pub ay: i128,
    pub az: i128,
    pub met: u32,
}

impl Pull {
    ghost use Rattle.std.specs.Prelude.{◌≡◌, ◌+◌, ◌<◌, ◌^◌};
    ghost use Rattle.bh_model.specs.Pulls.{IsSmall, add_pull, no_pull};

    /// The sum of no terms.
    pub fn none() -> Pull
        ensures { result ≡ no_pull }
    {
        Pull {
            ax: 0,
            ay: 0,
            az: 0,
            met: 0,
        }
    }

    /// The sum of two pulls whose parts are at most 2^120 in size and which have fewer than 2^32 terms.
    #[inline]
    pub fn plus(self, other: Pull) -> Pull
        requires small { IsSmall (2 ^ 120) (2 ^ 32) self }
        requires other_small { IsSmall (2 ^ 120) (2 ^ 32) other }
        requires few { self.met + other.met < 2 ^ 32 }
        ensures { result ≡ add_pull self other }
    {
        Pull {
            ax: self.ax + other.ax,
            ay: self.ay + other.ay,
            az: self.az + other.az,
            met: self.met + other.met,
        }
    }
}

/// The numbers by which bodies pull.
///
/// The opening angle theta is `theta_num / theta_den`, the first from 0 to 65,535 and the second from
/// 1 to 65,535 (Barnes and Hut, Nature 324, 1986). `eps2`, below 2^44, is the square of the softening
/// length, in squared positions. `g`, at most 2^40, is the constant of gravitation. Contracts see it
/// as a `PullLaw`, the record of these numbers.
#[derive(Clone, Copy, Debug, PartialEq, Eq)]
pub struct Law {
    pub theta_num: u32,
    pub theta_den: u32,
    pub eps2: u64,
    pub g: u64,
}

impl Model for Law {
    ghost use Rattle.bh_model.specs.Pulls.{PullLaw, IsPullLaw};

    ghost Value = { PullLaw };

    ghost view = { λ l. record { theta_num = l.theta_num; theta_den = l.theta_den; eps2 = l.eps2; g = l.g } };

    ghost invariant = { λ l. IsPullLaw (record { theta_num = l.theta_num; theta_den = l.theta_den; eps2 = l.eps2; g = l.g }) };

    ghost inverse = { λ l. record { theta_num = l.theta_num; theta_den = l.theta_den; eps2 = l.eps2; g = l.g } };
}
