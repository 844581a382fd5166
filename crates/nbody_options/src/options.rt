//! What the words of a command line choose.

use bh_model::Plan;
use probe::Kind;
use scene_file::Shape;
use std::marker::Model;
use thiserror::Error;

/// What the program does.
#[derive(Clone, Copy, Debug, PartialEq, Eq)]
pub enum Command {
    /// Writes the tree of the scene's bodies.
    Tree,
    /// Writes the tree of the bodies, and then the tree after each pass of the scene.
    Passes,
    /// Writes a frame for each step.
    Run,
    /// Makes a scene, runs it, and writes a summary of the last frame.
    Trial,
}

/// The probes that a run keeps.
#[derive(Clone, Copy, Debug, PartialEq, Eq)]
pub enum ProbeChoice {
    /// No probe.
    Nobody,
    /// Every probe.
    All,
    /// The probes of one kind.
    Only(Kind),
}

/// The scene that a trial makes: how many bodies, the seed of their numbers, and their shape.
#[derive(Clone, Copy, Debug, PartialEq, Eq)]
pub struct Made {
    pub count: u32,
    pub seed: u64,
    pub shape: Shape,
}

/// The options of a command line: 1 to 10,000 steps, and a made scene of at most 65,536 bodies.
///
/// Contracts see it as `Choices`, the record of its five parts.
#[derive(Clone, Copy, Debug, PartialEq, Eq)]
pub struct Options {
    pub command: Command,
    pub plan: Plan,
    pub steps: u32,
    pub probe: ProbeChoice,
    pub made: Made,
}

impl Model for Options {
    ghost use Rattle.nbody_options.specs.Choices.{Choices, AreChoices};

    ghost Value = { Choices };

    ghost view = { λ o. record { command = o.command; plan = o.plan; steps = o.steps; probe = o.probe; made = o.made } };

    ghost invariant = { λ o. AreChoices o.steps o.made };

    ghost inverse = { λ o. record { command = o.command; plan = o.plan; steps = o.steps; probe = o.probe; made = o.made } };
}

/// Why there are no options.
#[derive(Clone, Copy, Debug, PartialEq, Eq, Error)]
pub enum OptionsFault {
    /// The words have no options.
    #[error("the words have no options")]
    Usage,
    /// Memory ran out.
    #[error("out of memory")]
    OutOfMemory,
}
