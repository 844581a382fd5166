//! The texts and the top calls of the program `nbody`.
#![tactic(auto)]

mod frame_text;
mod frames;
mod lines;
mod probes;
mod service;
mod status;
mod text;

pub use nbody_options::{
    Command, Kind, Made, Options, OptionsFault, ProbeChoice, Shape, read_options,
};
pub use service::{serve, serve_free};
pub use status::Status;
