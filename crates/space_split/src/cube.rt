//! Cubes whose bodies stand side by side in a list.

/// A cube by its key, and its bodies by where they begin in a list of codes and how many there are.
#[derive(Clone, Copy, Debug, PartialEq, Eq)]
pub struct Cube {
    pub key: u64,
    pub start: u32,
    pub count: u32,
}
