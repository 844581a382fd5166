//! What probes watch, and what they answer of a frame.

/// What a probe watches.
#[derive(Clone, Copy, Debug, PartialEq, Eq)]
pub enum Kind {
    /// The costs of the zones.
    Balance,
    /// The sum of the pulls.
    Momentum,
    /// The first frames.
    First,
}

/// What a probe answers of a frame that it was shown.
#[derive(Clone, Copy, Debug, PartialEq, Eq)]
pub enum Verdict {
    /// It wants to see the next frame.
    More,
    /// It has seen enough.
    Finished,
}
