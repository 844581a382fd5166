//! Sums of terms in words of 64 bits.

ghost use Rattle.std.specs.Prelude.{◌≡◌, ◌+◌, ◌-◌, ◌<◌, ◌^◌};
ghost use Rattle.bh_model.specs.Pulls.{IsSmall, add_pull, no_pull};
ghost use Rattle.force_walk.specs.Short.{pull_of};

use bh_model::Pull;

/// A pull whose coordinates fit words of 64 bits.
#[derive(Clone, Copy)]
pub struct ShortPull {
    pub ax: i64,
    pub ay: i64,
    pub az: i64,
    pub met: u32,
}

impl ShortPull {
    /// The sum of no terms.
    #[inline]
    pub fn none() -> ShortPull
        ensures { pull_of result ≡ no_pull }
    {
        ShortPull {
            ax: 0,
            ay: 0,
            az: 0,
            met: 0,
        }
    }

    /// The sum of a pull and a term.
    #[inline]
    pub fn plus(self, term: ShortPull) -> ShortPull
        requires small { IsSmall (2 ^ 63 - 2 ^ 32) (2 ^ 32 - 2) (pull_of self) }
        requires term_small { IsSmall (2 ^ 31) 1 (pull_of term) }
        ensures { pull_of result ≡ add_pull (pull_of self) (pull_of term) }
    {
        ShortPull {
            ax: self.ax + term.ax,
            ay: self.ay + term.ay,
            az: self.az + term.az,
            met: self.met + term.met,
        }
    }

    /// The same pull in words of 128 bits.
    #[inline]
    pub fn pull(self) -> Pull
        ensures { result ≡ pull_of self }
    {
        Pull {
            ax: i128::from(self.ax),
            ay: i128::from(self.ay),
            az: i128::from(self.az),
            met: self.met,
        }
    }
}
