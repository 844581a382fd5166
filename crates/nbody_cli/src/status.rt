//! How a run of the program ends.

ghost use Rattle.std.specs.Prelude.{◌≡◌};
ghost use Rattle.nbody_cli.specs.Status.{number_of};

/// How a run of the program ended.
#[derive(Clone, Copy, Debug, PartialEq, Eq)]
pub enum Status {
    /// The input was read to its end and the scene is accepted, or the scene was made without touching
    /// the source, and the whole text is written.
    Done,
    /// The words have no options, and the usage line is written.
    Usage,
    /// A read failed. Nothing is written.
    Read,
    /// A write failed. A prefix of the text is written.
    Write,
    /// The scene is refused, and the line of its first fault is written.
    Scene,
    /// Memory ran out. A prefix of the text is written.
    Memory,
}

impl Status {
    /// The number that the program ends with.
    pub fn number(self) -> u8
        ensures { result ≡ number_of self }
    {
        match self {
            Status::Done => 0,
            Status::Usage => 2,
            Status::Read => 3,
            Status::Write => 4,
            Status::Scene => 5,
            Status::Memory => 6,
        }
    }
}
