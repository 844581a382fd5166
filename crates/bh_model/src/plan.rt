//! How trees are built.

use crate::pull::Law;
use std::marker::Model;

/// The way in which a tree is built (Shan and Singh, IPPS 1998).
#[derive(Clone, Copy, Debug, PartialEq, Eq)]
pub enum Builder {
    /// All workers insert into one shared tree.
    Orig,
    /// The same, with the memory of cells parted among the workers.
    Local,
    /// The tree of the frame before is changed where bodies left their cells.
    Update,
    /// Each worker builds a tree of its own, and these are merged.
    Partree,
    /// Space is divided first, and each worker builds the trees of whole cubes.
    Space,
}

/// How trees are built, by 1 to 64 workers, and the law by which bodies pull.
///
/// Contracts see it as a `TreePlan`, the record of the three.
#[derive(Clone, Copy, Debug, PartialEq, Eq)]
pub struct Plan {
    pub builder: Builder,
    pub workers: u32,
    pub law: Law,
}

impl Model for Plan {
    ghost use Rattle.bh_model.specs.Plans.{TreePlan, HasWorkers};

    ghost Value = { TreePlan };

    ghost view = { λ p. record { builder = p.builder; workers = p.workers; law = p.law } };

    ghost invariant = { λ p. HasWorkers p.workers };

    ghost inverse = { λ p. record { builder = p.builder; workers = p.workers; law = p.law } };
}
