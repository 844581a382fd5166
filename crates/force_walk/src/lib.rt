//! The pulls on bodies.
#![tactic(auto)]

mod all_bodies;
mod lay;
mod least;
mod node;
mod one_body;
mod parts;
mod short_pull;
mod term;
mod view;
mod walk;
mod workers;

pub use all_bodies::pulls;
pub use bh_model::{Law, Pull};
pub use one_body::pull;
pub use term::term_at;
