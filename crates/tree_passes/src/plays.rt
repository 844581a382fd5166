//! What each step tells, as the steps of `atomic_table` name it. Types whose names say of what are
//! given a part of it by the proof of a call.

use crate::view::View;
use atomic_table::{Join, Play, Split};
use std::marker::{Brand, PhantomData};

/// The point that is sought, which the proof of a call picks.
pub trait Target {
    ghost use Rattle.octant_code.specs.Space.{Site};

    ghost point: { Site };
}

impl Target for Brand {
    ghost use Rattle.octant_code.specs.Space.{origin};

    ghost point = { origin };
}

/// No body is sought: the point lies outside of the cube of all points.
pub struct Nowhere;

impl Target for Nowhere {
    ghost use Rattle.tree_passes.specs.Looks.{nowhere};

    ghost point = { nowhere };
}

/// A load of a published word on the way to a body at a point.
pub struct Seek<T> {
    target: PhantomData<T>,
}

impl<T: Target> Play<(), View> for Seek<T> {
    ghost use Rattle.tree_passes.specs.Plays.{sought};

    ghost then = { sought T.point };
}

/// A store into a cell that the pass holds.
pub struct Write;

impl Play<(), View> for Write {
    ghost use Rattle.tree_passes.specs.Plays.{wrote};

    ghost then = { wrote };
}

/// A load of a word of a cell that the pass holds.
pub struct Read;

impl Play<(), View> for Read {
    ghost use Rattle.tree_passes.specs.Plays.{read};

    ghost then = { read };
}

/// The cells and the bodies that a step publishes, which the proof of a call picks.
pub trait Batch {
    ghost use Rattle.std.specs.Prelude.{List, ℕ};

    ghost cells: { List ℕ };

    ghost bodies: { List ℕ };
}

impl Batch for Brand {
    ghost use Rattle.std.specs.Prelude.{[]};

    ghost cells = { [] };

    ghost bodies = { [] };
}

/// An exchange of a published word.
pub struct Publish<B> {
    batch: PhantomData<B>,
}

impl<B: Batch> Play<(), View> for Publish<B> {
    ghost use Rattle.tree_passes.specs.Plays.{exchanged};

    ghost then = { exchanged B.cells B.bodies };
}

/// An attempt to take a lock.
pub struct Acquire;

impl Play<(), View> for Acquire {
    ghost use Rattle.tree_passes.specs.Plays.{acquired};

    ghost then = { acquired };
}

/// A load of a published word under its lock.
pub struct LookUnder;

impl Play<(), View> for LookUnder {
    ghost use Rattle.tree_passes.specs.Plays.{looked_under};

    ghost then = { looked_under };
}

/// A store of a published word under its lock.
pub struct Put<B> {
    batch: PhantomData<B>,
}

impl<B: Batch> Play<(), View> for Put<B> {
    ghost use Rattle.tree_passes.specs.Plays.{put};

    ghost then = { put B.cells B.bodies };
}

/// The lock is given up.
pub struct Release;

impl Play<(), View> for Release {
    ghost use Rattle.tree_passes.specs.Plays.{released};

    ghost then = { released };
}

/// A cell is drawn from the shared pool.
pub struct Draw;

impl Play<(), View> for Draw {
    ghost use Rattle.tree_passes.specs.Plays.{drawn};

    ghost then = { drawn };
}

/// The cells, the bodies and the quota of a part, which the proof of a call picks.
pub trait Share {
    ghost use Rattle.std.specs.Prelude.{List, ℕ};

    ghost cells: { List ℕ };

    ghost bodies: { List ℕ };

    ghost quota: { ℕ };
}

impl Share for Brand {
    ghost use Rattle.std.specs.Prelude.{[]};

    ghost cells = { [] };

    ghost bodies = { [] };

    ghost quota = { 0 };
}

/// A pass is split.
pub struct Part<B> {
    share: PhantomData<B>,
}

impl<B: Share> Split<View> for Part<B> {
    ghost use Rattle.tree_passes.specs.Passes.{kept_part, given_part};

    ghost left = { kept_part B.cells B.bodies B.quota };

    ghost right = { given_part B.cells B.bodies B.quota };
}

/// What every pass of a tree knows, which the proof of a call picks.
pub trait Common {
    ghost use Rattle.std.specs.Prelude.{List, ℕ};
    ghost use Rattle.octant_code.specs.Space.{Site};

    ghost points: { List Site };

    ghost bodies: { List ℕ };

    ghost memory: { List ℕ };
}

impl Common for Brand {
    ghost use Rattle.std.specs.Prelude.{[]};

    ghost points = { [] };

    ghost bodies = { [] };

    ghost memory = { [] };
}

/// A pass takes another in.
pub struct Together<C> {
    common: PhantomData<C>,
}

impl<C: Common> Join<View> for Together<C> {
    ghost use Rattle.tree_passes.specs.Passes.{joined, spent};

    ghost both = { joined };

    ghost spent = { spent C.points C.bodies C.memory };
}
