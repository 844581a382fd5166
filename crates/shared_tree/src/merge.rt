//! The walk that merges a private octree into a shared tree.

ghost use Rattle.std.specs.Prelude.{◌≡◌, ℕ, [], ◌+◌, ◌*◌, ◌<◌, ◌≤◌, Some, length, take};
ghost use Rattle.octant_code.specs.Points.{site_at};
ghost use Rattle.bh_model.specs.Trees.{cell_count, order};
ghost use Rattle.tree_rule.specs.Words.{child_place, lock_place, HasBody};
ghost use Rattle.tree_rule.specs.declared.words.TheConstants.{CELLS_OF_ONE, MOST_CELLS, POOL_PLACE};
ghost use Rattle.octree.specs.Stored.{tree_of, word_count, IsCanonical};
ghost use Rattle.octree.specs.Subtree.{IsBodyAt, IsCellAt};
ghost use Rattle.tree_passes.specs.Counting.{times};
ghost use Rattle.tree_passes.specs.Making.{IsReady};
ghost use Rattle.tree_passes.specs.Turns.{IsBelow, IsThere};
ghost use Rattle.shared_tree.specs.Copying.{bodies_under, IsOtherAt};
ghost use Rattle.shared_tree.specs.Seen.{risen};
ghost use Rattle.shared_tree.specs.Merging.{most_steps, AreBlocks, IsAlone, IsMerged, IsPartIn, IsPartMerged, LeadsPart, TriesPart};

use crate::publisher::{Batched, Publisher, Spot, publish};
use crate::subtrees::{Copied, copy_part, word_of_other};
use octant_code::{LEVELS, Points, Steps, octant};
use octree::{CellAt, Octree, Subtree, Top};
use std::sync::ledger::Ledger;
use tree_passes::{Cube, Pass, Words, look};
use tree_rule::{Named, ROOT_LOCK, named_by, place_of_child, place_of_lock};

/// What a merge took and did: how many of the spare cells it took, from the front, how often it
/// published, and how many bodies it put in, up to 2^64 - 1.
#[derive(Clone, Copy, Drop)]
pub struct Merged {
    pub used: usize,
    pub changes: u64,
    pub bodies: u64,
}

/// What came of a copy of a subtree: it is published, or another word was found.
#[derive(Clone, Copy, Drop)]
pub enum Tried {
    Put(Copied),
    Missed(u64),
}

/// What a visit of a published word with a subtree leads to: a copy of it is published, or the way goes
/// on below a cell.
#[derive(Clone, Copy, Drop)]
pub enum PartTurn {
    Done(Copied),
    Below(u32),
}

/// Publishes a copy of a subtree where the word was empty when it was looked at, or named the other
/// body, which the copy has too then. Where the word is another by now the spare cells stay with the pass.
fn publish_copy<P: Publisher, L: Ledger>(
    publisher: &P,
    table: &Words,
    pass: &mut Pass,
    spare: &[u32],
    points: &Points,
    part: &Subtree,
    other: Option<u32>,
    key: u64,
    spot: Spot,
    steps: &mut Steps<L>,
) -> Tried
    requires writing { table.now.key.writing ≡ P.writing }
    requires place { pass.old.table_id ≡ table.now.table_id }
    requires at { IsPartIn pass.old.me.0 table.now.table_id.words points.now part.now key spot }
    requires other { (x : ℕ) → other ≡ Some x → IsOtherAt points.now part.now key spot.level x }
    requires some { 1 ≤ length (bodies_under part.now) }
    requires ready { IsReady pass.old.me.0 table.now.table_id.words spare.now }
    requires stock { CELLS_OF_ONE * length (bodies_under part.now) ≤ length spare.now }
    ensures pass { (pass.new.table_id ≡ pass.old.table_id) × (pass.new.me.1 ≡ pass.old.me.1) }
    ensures no_lock { (pass.new.me.0.locks ≡ []) × (pass.new.me.0.under ≡ []) }
    ensures tried { TriesPart pass.old.me.0 pass.new.me.0 (bodies_under part.now) spare.now spot.word key other result }
    ensures steps { steps.new ≡ steps.old + 1 }
{
    let cube = Cube {
        key,
        level: spot.level,
    };
    let copied = copy_part(table, pass, spare, points, part, other, cube);
    let old = word_of_other(other);
    let cells = &spare[..copied.used];
    let found = publish(
        publisher,
        table,
        pass,
        spot,
        old,
        copied.word,
        cells,
        Batched::Below(part),
        steps,
    );
    if found == old {
        Tried::Put(copied)
    } else {
        Tried::Missed(found)
    }
}

/// Publishes a copy of a subtree over body `x`, which the word named when it was looked at. The copy
/// has that body, too.
fn put_part_over<P: Publisher, L: Ledger>(
    publisher: &P,
    table: &Words,
    pass: &mut Pass,
    spare: &[u32],
    points: &Points,
    part: &Subtree,
    x: u32,
    key: u64,
    spot: Spot,
    steps: &mut Steps<L>,
) -> PartTurn
    requires writing { table.now.key.writing ≡ P.writing }
    requires place { pass.old.table_id ≡ table.now.table_id }
    requires at { IsPartIn pass.old.me.0 table.now.table_id.words points.now part.now key spot }
    requires there { IsThere pass.old.me.0 spot.word key x }
    requires some { 1 ≤ length (bodies_under part.now) }
    requires ready { IsReady pass.old.me.0 table.now.table_id.words spare.now }
    requires stock { CELLS_OF_ONE * length (bodies_under part.now) ≤ length spare.now }
    ensures pass { (pass.new.table_id ≡ pass.old.table_id) × (pass.new.me.1 ≡ pass.old.me.1) }
    ensures no_lock { (pass.new.me.0.locks ≡ []) × (pass.new.me.0.under ≡ []) }
    ensures turn { LeadsPart pass.old.me.0 pass.new.me.0 (bodies_under part.now) spare.now key result }
    ensures steps { steps.new ≡ steps.old + 1 }
{
    let other = Some(x);
    match publish_copy(
        publisher, table, pass, spare, points, part, other, key, spot, steps,
    ) {
        Tried::Put(copied) => PartTurn::Done(copied),
        Tried::Missed(found) => match named_by(found) {
            Named::Cell(cell) => PartTurn::Below(cell),
            _ => unreachable!(),
        },
    }
}

/// Publishes a copy of a subtree where the word was empty when it was looked at.
fn put_part_alone<P: Publisher, L: Ledger>(
    publisher: &P,
    table: &Words,
    pass: &mut Pass,
    spare: &[u32],
    points: &Points,
    part: &Subtree,
    key: u64,
    spot: Spot,
    steps: &mut Steps<L>,
) -> PartTurn
    requires writing { table.now.key.writing ≡ P.writing }
    requires place { pass.old.table_id ≡ table.now.table_id }
    requires at { IsPartIn pass.old.me.0 table.now.table_id.words points.now part.now key spot }
    requires some { 1 ≤ length (bodies_under part.now) }
    requires ready { IsReady pass.old.me.0 table.now.table_id.words spare.now }
    requires stock { CELLS_OF_ONE * length (bodies_under part.now) ≤ length spare.now }
    ensures pass { (pass.new.table_id ≡ pass.old.table_id) × (pass.new.me.1 ≡ pass.old.me.1) }
    ensures no_lock { (pass.new.me.0.locks ≡ []) × (pass.new.me.0.under ≡ []) }
    ensures turn { LeadsPart pass.old.me.0 pass.new.me.0 (bodies_under part.now) spare.now key result }
    ensures steps { steps.new ≤ steps.old + 2 }
{
    match publish_copy(
        publisher, table, pass, spare, points, part, None, key, spot, steps,
    ) {
        Tried::Put(copied) => PartTurn::Done(copied),
        Tried::Missed(found) => match named_by(found) {
            Named::Nothing => unreachable!(),
            Named::Body(x) => put_part_over(
                publisher, table, pass, spare, points, part, x, key, spot, steps,
            ),
            Named::Cell(cell) => PartTurn::Below(cell),
        },
    }
}

/// Visits a published word with a subtree. Like the visit with one body it looks at the word three
/// times at most; what a failed publication copied is made anew.
fn visit_part<P: Publisher, L: Ledger>(
    publisher: &P,
    table: &Words,
    pass: &mut Pass,
    spare: &[u32],
    points: &Points,
    part: &Subtree,
    key: u64,
    spot: Spot,
    steps: &mut Steps<L>,
) -> PartTurn
    requires writing { table.now.key.writing ≡ P.writing }
    requires place { pass.old.table_id ≡ table.now.table_id }
    requires at { IsPartIn pass.old.me.0 table.now.table_id.words points.now part.now key spot }
    requires some { 1 ≤ length (bodies_under part.now) }
    requires ready { IsReady pass.old.me.0 table.now.table_id.words spare.now }
    requires stock { CELLS_OF_ONE * length (bodies_under part.now) ≤ length spare.now }
    ensures pass { (pass.new.table_id ≡ pass.old.table_id) × (pass.new.me.1 ≡ pass.old.me.1) }
    ensures no_lock { (pass.new.me.0.locks ≡ []) × (pass.new.me.0.under ≡ []) }
    ensures turn { LeadsPart pass.old.me.0 pass.new.me.0 (bodies_under part.now) spare.now key result }
    ensures steps { steps.new ≤ steps.old + 3 }
{
    match named_by(look(table, pass, spot.word, steps)) {
        Named::Nothing => {
            put_part_alone(
                publisher, table, pass, spare, points, part, key, spot, steps,
            )
        }
        Named::Body(x) => put_part_over(
            publisher, table, pass, spare, points, part, x, key, spot, steps,
        ),
        Named::Cell(cell) => PartTurn::Below(cell),
    }
}

/// The published word of child `k` below a cell of a level.
fn child_spot(cell: u32, k: u32, level: u32) -> Spot
    requires level { level < LEVELS }
    ensures word { result.word ≡ child_place cell k }
    ensures lock { result.lock ≡ lock_place cell }
    ensures level { result.level ≡ level + 1 }
{
    Spot {
        word: place_of_child(cell, k),
        lock: place_of_lock(cell),
        level: level + 1,
    }
}

#[cycle(merging)]
/// Merges a subtree of a private octree into the shared tree from the published word of its cube on.
#[inline]
fn merge_below<P: Publisher, L: Ledger>(
    publisher: &P,
    table: &Words,
    pass: &mut Pass,
    spare: &[u32],
    points: &Points,
    part: &Subtree,
    key: u64,
    spot: Spot,
    steps: &mut Steps<L>,
) -> Merged
    requires writing { table.now.key.writing ≡ P.writing }
    requires place { pass.old.table_id ≡ table.now.table_id }
    requires at { IsPartIn pass.old.me.0 table.now.table_id.words points.now part.now key spot }
    requires ready { IsReady pass.old.me.0 table.now.table_id.words spare.now }
    requires stock { CELLS_OF_ONE * length (bodies_under part.now) ≤ length spare.now }
    ensures pass { (pass.new.table_id ≡ pass.old.table_id) × (pass.new.me.1 ≡ pass.old.me.1) }
    ensures no_lock { (pass.new.me.0.locks ≡ []) × (pass.new.me.0.under ≡ []) }
    ensures merged { IsPartMerged pass.old.me.0 pass.new.me.0 points.now part.now spare.now key spot.level result.used result.changes }
    ensures bodies { result.bodies ≡ risen 0 (length (bodies_under part.now)) }
    ensures steps { steps.new ≤ steps.old + most_steps part.now spot.level }
    ensures alone { IsAlone pass.old.me.0 → (result.changes ≤ 1) × (steps.new ≤ steps.old + 3) }
{
    match part.top() {
        Top::Nothing => Merged {
            used: 0,
            changes: 0,
            bodies: 0,
        },
        Top::Body(n) => merge_body(
            publisher, table, pass, spare, points, part, n, key, spot, steps,
        ),
        Top::Cell(cell) => match visit_part(
            publisher, table, pass, spare, points, part, key, spot, steps,
        ) {
            PartTurn::Done(copied) => Merged {
                used: copied.used,
                changes: 1,
                bodies: copied.bodies,
            },
            PartTurn::Below(below) => merge_cell(
                publisher, table, pass, spare, points, cell, below, key, spot, steps,
            ),
        },
    }
}

#[cycle(merging)]
/// Merges the eight children of a private cell below the shared cell that its word names.
fn merge_cell<P: Publisher, L: Ledger>(
    publisher: &P,
    table: &Words,
    pass: &mut Pass,
    spare: &[u32],
    points: &Points,
    cell: CellAt,
    below: u32,
    key: u64,
    spot: Spot,
    steps: &mut Steps<L>,
) -> Merged
    requires writing { table.now.key.writing ≡ P.writing }
    requires place { pass.old.table_id ≡ table.now.table_id }
    requires cell { IsCellAt cell cell }
    requires at { IsPartIn pass.old.me.0 table.now.table_id.words points.now cell key spot }
    requires below { IsBelow pass.old.me.0 key below }
    requires ready { IsReady pass.old.me.0 table.now.table_id.words spare.now }
    requires stock { CELLS_OF_ONE * length (bodies_under cell) ≤ length spare.now }
    ensures pass { (pass.new.table_id ≡ pass.old.table_id) × (pass.new.me.1 ≡ pass.old.me.1) }
    ensures no_lock { (pass.new.me.0.locks ≡ []) × (pass.new.me.0.under ≡ []) }
    ensures merged { IsPartMerged pass.old.me.0 pass.new.me.0 points.now cell.entry spare.now key spot.level result.used result.changes }
    ensures bodies { result.bodies ≡ risen 0 (length (bodies_under cell.entry)) }
    ensures steps { steps.new + 3 ≤ steps.old + most_steps cell.entry spot.level }
{
    let mut used = 0;
    let mut changes = 0;
    let mut bodies = 0u64;
    for k in 0..8 {
        let inner = child_spot(below, k, spot.level);
        let merged = merge_below(
            publisher,
            table,
            pass,
            &spare[used..],
            points,
            &cell.child(k),
            8 * key + u64::from(k),
            inner,
            steps,
        );
        used += merged.used;
        changes += merged.changes;
        bodies = bodies.saturating_add(merged.bodies);
    }
    Merged {
        used,
        changes,
        bodies,
    }
}

/// Merges a subtree that is one body from the published word of its cube on.
fn merge_body<P: Publisher, L: Ledger>(
    publisher: &P,
    table: &Words,
    pass: &mut Pass,
    spare: &[u32],
    points: &Points,
    part: &Subtree,
    n: u32,
    key: u64,
    spot: Spot,
    steps: &mut Steps<L>,
) -> Merged
    requires writing { table.now.key.writing ≡ P.writing }
    requires place { pass.old.table_id ≡ table.now.table_id }
    requires body { IsBodyAt part.now n }
    requires at { IsPartIn pass.old.me.0 table.now.table_id.words points.now part.now key spot }
    requires ready { IsReady pass.old.me.0 table.now.table_id.words spare.now }
    requires stock { CELLS_OF_ONE * length (bodies_under part.now) ≤ length spare.now }
    ensures pass { (pass.new.table_id ≡ pass.old.table_id) × (pass.new.me.1 ≡ pass.old.me.1) }
    ensures no_lock { (pass.new.me.0.locks ≡ []) × (pass.new.me.0.under ≡ []) }
    ensures merged { IsPartMerged pass.old.me.0 pass.new.me.0 points.now part.now spare.now key spot.level result.used result.changes }
    ensures bodies { result.bodies ≡ risen 0 (length (bodies_under part.now)) }
    ensures steps { steps.new ≤ steps.old + most_steps part.now spot.level }
    ensures alone { IsAlone pass.old.me.0 → (result.changes ≤ 1) × (steps.new ≤ steps.old + 3) }
{
    match visit_part(
        publisher, table, pass, spare, points, part, key, spot, steps,
    ) {
        PartTurn::Done(copied) => Merged {
            used: copied.used,
            changes: 1,
            bodies: copied.bodies,
        },
        PartTurn::Below(below) => {
            let k = octant(points.at(n), spot.level);
            let inner = child_spot(below, k, spot.level);
            let key_below = 8 * key + u64::from(k);
            merge_body(
                publisher, table, pass, spare, points, part, n, key_below, inner, steps,
            )
        }
    }
}

/// How many bodies a subtree has, up to 2^64 - 1.
pub(crate) fn count_bodies(part: &Subtree) -> u64
    ensures { result ≡ risen 0 (length (bodies_under part.now)) }
{
    match part.top() {
        Top::Nothing => 0,
        Top::Body(_) => 1,
        Top::Cell(cell) => {
            let mut count = 0u64;
            for k in 0..8 {
                count = count.saturating_add(count_bodies(&cell.child(k)));
            }
            count
        }
    }
}

/// Merges a private octree of bodies of the todo list into the shared tree, with spare cells, 21 for
/// each of its bodies at least. It takes no memory, and by at most three steps for each of its cells
/// and 66 for each of its bodies. One publication puts all in where the tree has no other body and no
/// other pass.
pub fn merge_part<P: Publisher, L: Ledger>(
    publisher: &P,
    table: &Words,
    pass: &mut Pass,
    spare: &[u32],
    points: &Points,
    part: &Octree,
    steps: &mut Steps<L>,
) -> Merged
    requires writing { table.now.key.writing ≡ P.writing }
    requires place { pass.old.table_id ≡ table.now.table_id }
    requires some { POOL_PLACE < table.now.table_id.words }
    requires few { table.now.table_id.words ≤ word_count MOST_CELLS }
    requires points { pass.old.me.0.points ≡ points.now }
    requires no_lock { (pass.old.me.0.locks ≡ []) × (pass.old.me.0.under ≡ []) }
    requires base { part.now.base ≡ 1 }
    requires canonical { IsCanonical points.now part.now }
    requires todo { (x : ℕ) → HasBody part.now.words x → 1 ≤ times x pass.old.me.0.todo }
    requires ready { IsReady pass.old.me.0 table.now.table_id.words spare.now }
    requires stock { CELLS_OF_ONE * length (order (tree_of part.now)) ≤ length spare.now }
    ensures pass { (pass.new.table_id ≡ pass.old.table_id) × (pass.new.me.1 ≡ pass.old.me.1) }
    ensures no_lock { (pass.new.me.0.locks ≡ []) × (pass.new.me.0.under ≡ []) }
    ensures within { result.used ≤ length spare.now }
    ensures few { result.used ≤ CELLS_OF_ONE * length (order (tree_of part.now)) }
    ensures merged { IsMerged pass.old.me.0 pass.new.me.0 (order (tree_of part.now)) (take result.used spare.now) }
    ensures bodies { result.bodies ≡ risen 0 (length (order (tree_of part.now))) }
    ensures changes { pass.new.me.0.changes ≡ pass.old.me.0.changes + result.changes }
    ensures most { result.changes ≤ length (order (tree_of part.now)) }
    ensures some_change { 1 ≤ length (order (tree_of part.now)) → 1 ≤ result.changes }
    ensures blocks { AreBlocks pass.old.me.0 points.now 1 0 (order (tree_of part.now)) result.changes }
    ensures steps { steps.new ≤ steps.old + 3 * (cell_count (tree_of part.now) + 22 * length (order (tree_of part.now))) }
    ensures alone { IsAlone pass.old.me.0 → (result.changes ≤ 1) × (steps.new ≤ steps.old + 3) }
{
    let _rule = points.len();
    part.canonical_tree(points);
    let root = Spot {
        word: 0,
        lock: ROOT_LOCK,
        level: 0,
    };
    merge_below(
        publisher,
        table,
        pass,
        spare,
        points,
        &part.whole(),
        1,
        root,
        steps,
    )
}
