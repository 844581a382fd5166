//! Points of the cube, octants and the keys of cubes, lists of distinct points, decimal numbers, and
//! exact square roots and quotients, and steps that are counted.
#![tactic(auto)]

mod decimal;
mod limits;
mod memory;
mod numbers;
mod point;
mod points;
mod space;
mod steps;

pub use decimal::{NumberFault, read_decimal};
pub use limits::{LEVELS, MOST_BODIES, SIDE};
pub use memory::OutOfMemory;
pub use numbers::{isqrt, short_isqrt, trunc_div};
pub use point::Point;
pub use points::{Distinct, Points};
pub use space::{key_at, key_has, level_of, octant, squared_distance};
pub use steps::Steps;
