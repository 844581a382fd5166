//! A tree without locks, as workers see it.

ghost use Rattle.std.specs.Prelude.{◌≡◌, ◌∷◌, ◌+◌, ◌<◌, ◌≤◌};
ghost use Rattle.tree_passes.specs.Counting.{times, without};
ghost use Rattle.shared_tree.specs.Seen.{IsOf};

use build_workers::{SharedInsert, SharedPasses};
use free_tree::{FreePass, FreeTree};
use octant_code::{OutOfMemory, Steps};
use std::marker::Brand;
use std::sync::ledger::{Blank, Ledger};

/// A tree without locks, whose steps nobody counts.
#[derive(Drop)]
pub struct Uncounted<'a> {
    pub tree: &'a FreeTree,
}

// Puts a body in, by steps in a ledger of their own.
fn insert_alone<L: Ledger>(tree: &FreeTree, pass: &mut FreePass, n: u32, blank: Blank)
    requires name { blank.name ≡ L.name }
    requires parts { (blank.parts ≡ L.parts) × (0 < blank.parts) }
    requires tree { IsOf pass.old tree.now }
    requires todo { 1 ≤ times n pass.old.todo }
    ensures { pass.new ≡ record pass.old { todo = without n pass.old.todo; done = n ∷ pass.old.done; changes = pass.old.changes + 1; loads = pass.new.loads; last = pass.new.last } }
{
    let mut steps = Steps::<L>::new(blank);
    tree.insert(pass, n, &mut steps);
}

impl SharedPasses for Uncounted<'_> {
    type Pass = FreePass;

    ghost tree = { λ t. t.tree.now };

    ghost state = { λ p. p };

    fn split(&self, pass: &mut FreePass, part: &[u32]) -> Result<FreePass, OutOfMemory> {
        self.tree.split(pass, part)
    }

    fn join(&self, into: &mut FreePass, from: FreePass) {
        self.tree.join(into, from);
    }
}

impl SharedInsert for Uncounted<'_> {
    fn insert(&self, pass: &mut FreePass, n: u32) {
        insert_alone::<Brand>(self.tree, pass, n, Blank::new(1));
    }
}
