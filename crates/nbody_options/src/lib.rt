//! The words of the program's command line, and the options that they have.
#![tactic(auto)]

mod options;
mod plain;
mod read;
mod values;

pub use options::{Command, Made, Options, OptionsFault, ProbeChoice};
pub use probe::Kind;
pub use read::read_options;
pub use scene_file::Shape;
