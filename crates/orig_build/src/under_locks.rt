//! A tree with locks, as workers see it.

use build_workers::{SharedInsert, SharedPasses};
use locked_tree::{LockedPass, LockedTree};
use octant_code::OutOfMemory;
use std::marker::Sync;
use std::sync::Wait;

/// A tree with locks, and the leave to wait for them.
#[derive(Drop)]
pub struct UnderLocks<'a, R> {
    pub rt: &'a R,
    pub tree: &'a LockedTree,
}

impl<R: Wait + Sync> SharedPasses for UnderLocks<'_, R> {
    type Pass = LockedPass;

    ghost tree = { λ t. t.tree.now };

    ghost state = { λ p. p };

    fn split(&self, pass: &mut LockedPass, part: &[u32]) -> Result<LockedPass, OutOfMemory> {
        self.tree.split(pass, part)
    }

    fn join(&self, into: &mut LockedPass, from: LockedPass) {
        self.tree.join(into, from);
    }
}

impl<R: Wait + Sync> SharedInsert for UnderLocks<'_, R> {
    fn insert(&self, pass: &mut LockedPass, n: u32) {
        self.tree.insert(self.rt, pass, n);
    }
}
