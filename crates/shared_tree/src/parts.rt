//! The parts of shared trees and of their passes.

ghost use Rattle.std.specs.Prelude.{◌≡◌, ◌≢◌, ℕ, [], ◌∷◌, ◌+◌, ◌-◌, ◌*◌, ◌<◌, ◌≤◌, ◌++◌, List, drop, length, take, IfNone, IfOk, IfSome, OnErr};
ghost use Rattle.std.specs.Arc.{arc_value};
ghost use Rattle.octant_code.specs.Points.{site_at};
ghost use Rattle.octant_code.specs.declared.limits.TheConstants.{MOST_BODIES};
ghost use Rattle.octant_code.specs.Space.{IsUnder};
ghost use Rattle.bh_model.specs.Blocks.{blocks};
ghost use Rattle.bh_model.specs.Bodies.{NoneTwice};
ghost use Rattle.bh_model.specs.Trees.{cell_count, order};
ghost use Rattle.octree.specs.Stored.{IsCanonical, tree_of};
ghost use Rattle.tree_rule.specs.Words.{body_word, HasBody};
ghost use Rattle.tree_rule.specs.declared.words.TheConstants.{CELLS_OF_ONE, POOL_PLACE};
ghost use Rattle.tree_passes.specs.declared.view.Writing.TheVariants.{UnderLocks};
ghost use Rattle.tree_passes.specs.Counting.{times, without};
ghost use Rattle.tree_passes.specs.Opening.{all_bodies, opening_of};
ghost use Rattle.tree_passes.specs.Passes.{joined};
ghost use Rattle.tree_passes.specs.Turns.{HasFound, HasNone};
ghost use Rattle.shared_tree.specs.Finding.{NamesNoneAt};
ghost use Rattle.shared_tree.specs.Merging.{others_among, HasAllBodies, IsMerged};
ghost use Rattle.shared_tree.specs.Seen.{risen, seen_of, IsOf, IsSplit};

use crate::descent::insert;
use crate::merge::{count_bodies, merge_part};
use crate::publisher::Publisher;
use crate::search::find;
use crate::stock::draw_up_to;
use cell_pool::Region;
use octant_code::{OutOfMemory, Point, Points, Steps};
use octree::Octree;
use std::marker::Model;
use std::sync::Arc;
use std::sync::ledger::Ledger;
use tree_passes::{Pass, Tree, join_passes, split_pass};
use tree_rule::CELLS_OF_ONE;

/// How many cells for each body a part gets from the front of the region that is split; the others it
/// gets from the end. Insertions use a region from its front, so the cells that all passes use first
/// have the lowest numbers and stand together in the table. Most octrees have about one cell for two
/// bodies.
const LOW_CELLS_OF_ONE: usize = 1;

/// What a shared tree is made of: its table, its points, and an empty list with room for the words that
/// closing copies out of the table. Contracts see it as a `SharedTree`.
#[derive(Drop)]
pub struct TreeParts {
    pub(crate) table: Tree,
    pub(crate) points: Arc<Points>,
    pub(crate) room: Vec<u64>,
}

impl Model for TreeParts {
    ghost use Rattle.std.specs.Prelude.{◌≡◌, ◌≤◌, vec_capacity};
    ghost use Rattle.std.specs.Arc.{arc_value};
    ghost use Rattle.tree_passes.specs.Opening.{opening_of};
    ghost use Rattle.shared_tree.specs.Seen.{IsInside, SharedTree};

    ghost Value = { SharedTree };

    ghost view = { λ t. record { writing = t.table.shared.key.writing; table_id = t.table.shared.table_id; opening = opening_of t.table.shared.key } };

    ghost invariant = { λ t. (t.table.shared.table_id.slots ≡ 0) × (arc_value t.points ≡ (opening_of t.table.shared.key).sites) × (t.table.shared.table_id.words ≤ vec_capacity t.room) × IsInside (opening_of t.table.shared.key) };
}

/// What a pass is made of: its seat, its region, how many bodies it put in, and how often it published,
/// up to 2^64 - 1. The region has room for the cells that the pass may draw, too. Contracts see it as a
/// `PartsOfPass`.
#[derive(Drop)]
pub struct PassParts {
    pub(crate) seat: Pass,
    pub(crate) region: Region,
    pub(crate) published: u64,
    pub(crate) changes: u64,
}

impl Model for PassParts {
    ghost use Rattle.std.specs.Prelude.{◌≡◌, []};
    ghost use Rattle.shared_tree.specs.Seen.{IsAtRest, IsCounted, PartsOfPass};

    ghost Value = { PartsOfPass };

    ghost view = { λ p. record { table_id = p.seat.table_id; view = p.seat.me.0; cells = p.region.cells } };

    ghost invariant = { λ p. (p.seat.me.1 ≡ []) × IsCounted p.seat.me.0 p.published p.changes × IsAtRest p.seat.me.0 p.seat.table_id.words p.region.cells p.region.room };
}

impl TreeParts {
    /// Sees to it that a pass has 21 cells for each of so many bodies, which are no more than it is to put
    /// in. Those that it hasn't it draws from the shared pool.
    pub fn fill_up(&self, pass: &mut PassParts, bodies: usize)
        requires locks { self.now.writing ≡ UnderLocks }
        requires table { pass.old.table_id ≡ self.now.table_id }
        requires bodies { bodies ≤ length pass.old.view.todo }
        ensures seen { seen_of pass.new ≡ seen_of pass.old }
        ensures enough { CELLS_OF_ONE * bodies ≤ length pass.new.cells }
    {
        pass.todo_rule();
        let wanted = CELLS_OF_ONE as usize * bodies;
        draw_up_to(&self.table.shared, &mut pass.seat, &mut pass.region, wanted);
    }

    /// Sees to it that a pass has 21 cells for each body of a private octree of bodies of its todo list.
    pub fn fill_up_for(&self, pass: &mut PassParts, part: &Octree)
        requires locks { self.now.writing ≡ UnderLocks }
        requires tree { IsOf (seen_of pass.old) self.now }
        requires base { part.now.base ≡ 1 }
        requires canonical { IsCanonical self.now.opening.sites part.now }
        requires todo { (x : ℕ) → HasBody part.now.words x → 1 ≤ times x pass.old.view.todo }
        ensures seen { seen_of pass.new ≡ seen_of pass.old }
        ensures enough { CELLS_OF_ONE * length (order (tree_of part.now)) ≤ length pass.new.cells }
    {
        pass.todo_rule();
        part.canonical_tree(&self.points);
        let bodies = count_bodies(&part.whole());
        self.fill_up(pass, bodies as usize);
    }

    /// The body at a point, by at most 22 steps.
    pub fn find<L: Ledger>(
        &self,
        pass: &mut PassParts,
        p: Point,
        steps: &mut Steps<L>,
    ) -> Option<u32>
        requires tree { IsOf (seen_of pass.old) self.now }
        ensures table { pass.new.table_id ≡ pass.old.table_id }
        ensures cells { pass.new.cells ≡ pass.old.cells }
        ensures quota { pass.new.view.quota ≡ pass.old.view.quota }
        ensures found { IfSome result (HasFound pass.old.view pass.new.view p) }
        ensures missed { IfNone result (HasNone pass.old.view pass.new.view p) }
        ensures some { IfSome result (λ b. site_at self.now.opening.sites b ≡ p) }
        ensures seen { IfSome result (λ b. seen_of pass.new ≡ record (seen_of pass.old) { seen = b ∷ pass.old.view.seen; loads = pass.new.view.loads; last = pass.new.view.last }) }
        ensures none { IfNone result ((x : ℕ) → 1 ≤ times x pass.old.view.done + times x pass.old.view.seen → site_at self.now.opening.sites x ≢ p) }
        ensures stays { IfNone result (seen_of pass.new ≡ record (seen_of pass.old) { loads = pass.new.view.loads; last = pass.new.view.last }) }
        ensures loaded { pass.old.view.loads < pass.new.view.loads }
        ensures under { IsUnder pass.new.view.last.0 p }
        ensures names { IfSome result (λ b. pass.new.view.last.1 ≡ body_word b) }
        ensures names_none { IfNone result (NamesNoneAt self.now.opening.sites p pass.new.view.last.1) }
        ensures steps { steps.new ≤ steps.old + 22 }
    {
        find(&self.table.shared, &mut pass.seat, &self.points, p, steps)
    }

    /// Splits bodies of the todo list off for a new pass, which gets room for 21 cells for each of them,
    /// and the right to draw them. As many as the old one has no room to draw it gets from the region: the
    /// first, up to one for each body, from its front, and the others from its end.
    ///
    /// # Errors
    ///
    /// `OutOfMemory` for want of memory. Nothing changed then.
    pub fn split(&self, pass: &mut PassParts, part: &[u32]) -> Result<PassParts, OutOfMemory>
        requires tree { IsOf (seen_of pass.old) self.now }
        requires part { (x : ℕ) → times x part.now ≤ times x pass.old.view.todo }
        ensures refused { OnErr result (pass.new ≡ pass.old) }
        ensures split { IfOk result (λ r. IsSplit pass.old pass.new r part.now (length r.cells) (CELLS_OF_ONE * length part.now - length r.cells)) }
        ensures quota { IfOk result (λ r. r.view.quota ≤ pass.old.view.quota) }
    {
        pass.todo_rule();
        let wanted = CELLS_OF_ONE as usize * part.len();
        let drawn = wanted.min(pass.region.room() - pass.region.len());
        let cells = wanted - drawn;
        let front = cells.min(LOW_CELLS_OF_ONE * part.len());
        let region = pass.region.split_ends(front, cells - front, drawn)?;
        let seat = split_pass(
            &self.table.shared,
            &mut pass.seat,
            region.rest(),
            part,
            drawn as u64,
        );
        Ok(PassParts {
            seat,
            region,
            published: 0,
            changes: 0,
        })
    }

    /// Takes in a pass whose todo list is empty. The cells that it has left are
    /// given up.
    pub fn join(&self, into: &mut PassParts, from: PassParts)
        requires tree { IsOf (seen_of into.old) self.now × IsOf (seen_of from) self.now }
        requires empty { from.view.todo ≡ [] }
        ensures { into.new ≡ record into.old { view = joined into.old.view from.view } }
    {
        let PassParts {
            seat,
            published,
            changes,
            ..
        } = from;
        into.published = into.published.saturating_add(published);
        into.changes = into.changes.saturating_add(changes);
        join_passes(&self.table.shared, &mut into.seat, seat);
    }

    /// Puts a body of the todo list in with cells of the pass's region, and counts at most 66 steps. A pass
    /// that may draw cells has filled up before.
    pub fn insert<P: Publisher, L: Ledger>(
        &self,
        publisher: &P,
        pass: &mut PassParts,
        n: u32,
        steps: &mut Steps<L>,
    )
        requires writing { self.now.writing ≡ P.writing }
        requires tree { IsOf (seen_of pass.old) self.now }
        requires todo { 1 ≤ times n pass.old.view.todo }
        requires stock { 1 ≤ pass.old.view.quota → CELLS_OF_ONE ≤ length pass.old.cells }
        ensures quota { pass.new.view.quota ≡ pass.old.view.quota }
        ensures put { seen_of pass.new ≡ record (seen_of pass.old) { todo = without n pass.old.view.todo; done = n ∷ pass.old.view.done; changes = pass.old.view.changes + 1; loads = pass.new.view.loads; last = pass.new.view.last } }
        ensures steps { steps.new ≤ steps.old + 66 }
    {
        let used = insert(
            publisher,
            &self.table.shared,
            &mut pass.seat,
            pass.region.rest(),
            &self.points,
            n,
            steps,
        );
        pass.region.spend(used);
        pass.published = pass.published.saturating_add(1);
        pass.changes = pass.changes.saturating_add(1);
    }

    /// Merges a private octree of bodies of the todo list into the tree with cells of the pass's region,
    /// by at most three steps for each of its cells and 66 for each of its bodies. A pass that may draw
    /// cells has filled up before. It takes no memory.
    /// Returns how often it published: at most as often as the part has blocks against the other bodies
    /// of the opening, and once where there are none.
    pub fn merge<P: Publisher, L: Ledger>(
        &self,
        publisher: &P,
        pass: &mut PassParts,
        part: &Octree,
        steps: &mut Steps<L>,
    ) -> u64
        requires writing { self.now.writing ≡ P.writing }
        requires tree { IsOf (seen_of pass.old) self.now }
        requires base { part.now.base ≡ 1 }
        requires canonical { IsCanonical self.now.opening.sites part.now }
        requires todo { (x : ℕ) → HasBody part.now.words x → 1 ≤ times x pass.old.view.todo }
        requires stock { 1 ≤ pass.old.view.quota → CELLS_OF_ONE * length (order (tree_of part.now)) ≤ length pass.old.cells }
        ensures quota { pass.new.view.quota ≡ pass.old.view.quota }
        ensures merged { (used : ℕ) × (used ≤ CELLS_OF_ONE * length (order (tree_of part.now))) × (pass.new.cells ≡ drop used pass.old.cells) × IsMerged pass.old.view pass.new.view (order (tree_of part.now)) (take used pass.old.cells) }
        ensures stays { seen_of pass.new ≡ record (seen_of pass.old) { todo = pass.new.view.todo; done = pass.new.view.done; changes = pass.new.view.changes; loads = pass.new.view.loads; last = pass.new.view.last } }
        ensures todo { (x : ℕ) → times x pass.new.view.todo + times x (order (tree_of part.now)) ≡ times x pass.old.view.todo }
        ensures done { (x : ℕ) → times x pass.new.view.done ≡ times x (order (tree_of part.now)) + times x pass.old.view.done }
        ensures changes { pass.new.view.changes ≡ pass.old.view.changes + result }
        ensures most { result ≤ length (order (tree_of part.now)) }
        ensures some { 1 ≤ length (order (tree_of part.now)) → 1 ≤ result }
        ensures blocks { result ≤ blocks (site_at self.now.opening.sites) (order (tree_of part.now)) (others_among (all_bodies self.now.opening) (order (tree_of part.now))) }
        ensures steps { steps.new ≤ steps.old + 3 * (cell_count (tree_of part.now) + 22 * length (order (tree_of part.now))) }
        ensures once { HasAllBodies (seen_of pass.old) self.now.opening → (result ≤ 1) × (steps.new ≤ steps.old + 3) }
    {
        part.canonical_tree(&self.points);
        let _whole = part.whole();
        let merged = merge_part(
            publisher,
            &self.table.shared,
            &mut pass.seat,
            pass.region.rest(),
            &self.points,
            part,
            steps,
        );
        pass.region.spend(merged.used);
        pass.published = pass.published.saturating_add(merged.bodies);
        pass.changes = pass.changes.saturating_add(merged.changes);
        merged.changes
    }
}

impl PassParts {
    /// It is to put in no more bodies than there may be, and each has a point.
    pub fn todo_rule(&self)
        ensures few { length self.now.view.todo ≤ MOST_BODIES }
        ensures points { (x : ℕ) → 1 ≤ times x self.now.view.todo → x < length self.now.view.points }
    {
        let _counted = self.published;
    }

    /// How many bodies it put in, and how often it published, up to 2^64 - 1.
    pub(crate) fn counts(&self) -> (u64, u64)
        ensures { (result.0 ≡ risen 0 (length self.now.view.done)) × (result.1 ≡ risen 0 self.now.view.changes) }
    {
        (self.published, self.changes)
    }
}
