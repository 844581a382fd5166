//! Shared trees as workers see them.

ghost use Rattle.std.specs.Prelude.{◌≡◌, ℕ, [], ◌∷◌, ◌+◌, ◌≤◌, ◌++◌, IfOk, OnErr, OnOk};
ghost use Rattle.tree_passes.specs.Counting.{times, without, without_all};
ghost use Rattle.shared_tree.specs.Seen.{IsOf};

use octant_code::OutOfMemory;
use std::marker::{Send, Sync};

/// A shared tree over which any number of passes are at work.
pub trait SharedPasses: Sync {
    ghost use Rattle.shared_tree.specs.Seen.{PassState, SharedTree};

    /// A pass over the tree.
    type Pass: Send + Drop;

    // Which tree it is.
    ghost tree: { Self → SharedTree };
    // What is seen of a pass.
    ghost state: { Self.Pass → PassState };

    /// Splits bodies of the todo list off for a new pass, which has seen what the old one has seen or
    /// done.
    ///
    /// # Errors
    ///
    /// `OutOfMemory` for want of memory. Nothing changed then.
    fn split(&self, pass: &mut Self::Pass, part: &[u32]) -> Result<Self::Pass, OutOfMemory>
        requires tree { IsOf (state pass.old) (tree self.now) }
        requires part { (x : ℕ) → times x part.now ≤ times x (state pass.old).todo }
        ensures refused { OnErr result (state pass.new ≡ state pass.old) }
        ensures kept { OnOk result (state pass.new ≡ record (state pass.old) { todo = without_all part.now (state pass.old).todo }) }
        ensures new { IfOk result (λ r. state r ≡ record (state pass.old) { todo = part.now; done = []; seen = (state pass.old).done ++ (state pass.old).seen; changes = 0; loads = 0; last = (0, 0) }) };

    /// Takes in a pass whose todo list is empty. It takes no memory.
    fn join(&self, into: &mut Self::Pass, from: Self::Pass)
        requires tree { IsOf (state into.old) (tree self.now) × IsOf (state from) (tree self.now) }
        requires empty { (state from).todo ≡ [] }
        ensures { state into.new ≡ record (state into.old) { done = (state into.old).done ++ (state from).done; seen = (state into.old).seen ++ (state from).seen; changes = (state into.old).changes + (state from).changes } };
}

/// A shared tree into which passes insert bodies.
pub trait SharedInsert: SharedPasses {
    /// Puts a body of the pass's todo list into the tree, by one publication. It takes no memory.
    fn insert(&self, pass: &mut Self::Pass, n: u32)
        requires tree { IsOf (Self.state pass.old) (Self.tree self.now) }
        requires todo { 1 ≤ times n (Self.state pass.old).todo }
        ensures { Self.state pass.new ≡ record (Self.state pass.old) { todo = without n (Self.state pass.old).todo; done = n ∷ (Self.state pass.old).done; changes = (Self.state pass.old).changes + 1; loads = (Self.state pass.new).loads; last = (Self.state pass.new).last } };
}
