//! What a pass knows, and what a table is told when it is made.

use octant_code::{Point, Points};
use std::collections::LinkedList;
use std::snapshot::Snapshot;
use tree_rule::{BodyNote, CellNote};

/// The number of a cell's key among the words that a pass writes of it: those of its eight children
/// are 0 to 7.
pub const KEY_PART: u32 = 8;

/// How many words of a cell a pass writes before it publishes the cell.
pub const ROW_WORDS: u32 = KEY_PART + 1;

/// What a pass knows and has. No value of it is made: contracts and the rule of the words see it.
pub struct View {
    /// The points of the bodies.
    pub points: LinkedList<Point>,
    /// The opening's bodies: those of the start, and those that were to be put in.
    pub bodies: LinkedList<u32>,
    /// The words as the pass wrote them: those of the cells that it holds are the table's.
    pub memory: LinkedList<u64>,
    /// The cells of its region, and its private cells.
    pub held: LinkedList<u32>,
    /// How many cells it may still draw from the shared pool.
    pub quota: u64,
    /// The cells that it published.
    pub published: LinkedList<u32>,
    /// The bodies that it is to put in.
    pub todo: LinkedList<u32>,
    /// The bodies that it put in.
    pub done: LinkedList<u32>,
    /// The bodies that it was told of.
    pub seen: LinkedList<u32>,
    /// How many times it published.
    pub changes: u64,
    /// How many published words it loaded.
    pub loads: u64,
    /// The key and the value of the published word that it loaded last.
    pub last: (u64, u64),
    /// The places of the lock words that it holds.
    pub locks: LinkedList<u64>,
    /// The places that it loaded or stored under these locks, and what they hold.
    pub under: LinkedList<(u64, u64)>,
    /// The published cells that it knows.
    pub cell_notes: LinkedList<CellNote>,
    /// The published words that it knows to have named a body.
    pub body_notes: LinkedList<BodyNote>,
}

/// How the published words of a table are written: by single exchanges, and then no lock is ever set,
/// or by the pass that holds the word's lock.
#[derive(Clone, Copy, Debug, PartialEq, Eq)]
pub enum Writing {
    ByExchange,
    UnderLocks,
}

/// What a table is told when it is made: how its published words are written, the points, the words
/// of the start, the bodies that are to be put in, and the cells and the quota of the first pass.
#[derive(Drop)]
pub struct Told {
    pub writing: Writing,
    pub points: Snapshot<Points>,
    pub words: Snapshot<Vec<u64>>,
    pub todo: Snapshot<Vec<u32>>,
    pub held: Snapshot<Vec<u32>>,
    pub quota: u64,
}
