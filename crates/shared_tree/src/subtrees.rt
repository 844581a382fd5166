//! Subtrees of private octrees, copied into cells of a pass.

ghost use Rattle.std.specs.Prelude.{◌≡◌, ℕ, ◌-◌, ◌*◌, ◌<◌, ◌≤◌, Some, length, take};
ghost use Rattle.octant_code.specs.Points.{site_at, ArePoints};
ghost use Rattle.bh_model.specs.Bodies.{IsIn};
ghost use Rattle.tree_rule.specs.Flat.{StandsFor};
ghost use Rattle.tree_rule.specs.Words.{at_of, cell_word};
ghost use Rattle.octree.specs.Subtree.{IsCellAt};
ghost use Rattle.tree_passes.specs.Making.{HasWritten, IsReady};
ghost use Rattle.shared_tree.specs.Copying.{bodies_under, other_in, other_word, with_other, IsOtherAt, IsPartAt};
ghost use Rattle.shared_tree.specs.Seen.{risen};

use octant_code::{LEVELS, Points, octant};
use octree::{CellAt, Subtree, Top};
use tree_passes::{Cube, Pass, Words, part_two, write_cell};
use tree_rule::{word_of_body, word_of_cell};

/// The copy of a subtree: the word that stands for it, how many cells it has, and how many bodies of the
/// subtree, up to 2^64 - 1.
#[derive(Clone, Copy, Drop)]
pub struct Copied {
    pub word: u64,
    pub used: usize,
    pub bodies: u64,
}

/// The word that names the other body, if there is one.
pub(crate) fn word_of_other(other: Option<u32>) -> u64
    ensures { result ≡ other_word other }
{
    match other {
        Some(x) => word_of_body(x),
        None => 0,
    }
}

/// The other body, if it lies in an octant.
fn other_at(points: &Points, other: Option<u32>, level: u32, k: u32) -> Option<u32>
    requires level { level < LEVELS }
    requires inside { (x : ℕ) → other ≡ Some x → x < length points.now }
    ensures { result ≡ other_in (site_at points.now) level k other }
{
    match other {
        Some(x) if octant(points.at(x), level) == k => Some(x),
        _ => None,
    }
}

#[cycle(copying)]
/// Copies a subtree of a private octree into the first of these cells of the pass. Where there is
/// another body, which lies in the subtree's cube, the copy stands for it too. It takes no memory.
pub fn copy_part(
    table: &Words,
    pass: &mut Pass,
    spare: &[u32],
    points: &Points,
    part: &Subtree,
    other: Option<u32>,
    cube: Cube,
) -> Copied
    requires place { pass.old.table_id ≡ table.now.table_id }
    requires ready { IsReady pass.old.me.0 table.now.table_id.words spare.now }
    requires rule { ArePoints points.now }
    requires part { IsPartAt points.now part.now cube.key cube.level }
    requires other { (x : ℕ) → other ≡ Some x → IsOtherAt points.now part.now cube.key cube.level x }
    requires room { (LEVELS - cube.level) * length (bodies_under part.now) ≤ length spare.now }
    ensures pass { (pass.new.table_id ≡ pass.old.table_id) × (pass.new.me.1 ≡ pass.old.me.1) }
    ensures wrote { HasWritten pass.old.me.0 pass.new.me.0 (take result.used spare.now) }
    ensures within { result.used ≤ length spare.now }
    ensures few { result.used ≤ (LEVELS - cube.level) * length (bodies_under part.now) }
    ensures stands { StandsFor (site_at points.now) (at_of pass.new.me.0.memory) result.word cube.key (IsIn (take result.used spare.now)) (IsIn (with_other other (bodies_under part.now))) }
    ensures grows { (x : ℕ) → other ≡ Some x → 1 ≤ length (bodies_under part.now) → (c : ℕ) × (result.word ≡ cell_word c) }
    ensures bodies { result.bodies ≡ risen 0 (length (bodies_under part.now)) }
{
    match part.top() {
        Top::Nothing => Copied {
            word: word_of_other(other),
            used: 0,
            bodies: 0,
        },
        Top::Body(n) => match other {
            None => Copied {
                word: word_of_body(n),
                used: 0,
                bodies: 1,
            },
            Some(x) => {
                let used = part_two(table, pass, spare, points, x, n, cube);
                Copied {
                    word: word_of_cell(spare[0]),
                    used,
                    bodies: 1,
                }
            }
        },
        Top::Cell(cell) => copy_cell(table, pass, spare, points, cell, other, cube),
    }
}

#[cycle(copying)]
/// Copies a cell with what stands below it. The cell is the first of the spare ones, so copies stand in
/// tree order, and it is written once, after its children.
fn copy_cell(
    table: &Words,
    pass: &mut Pass,
    spare: &[u32],
    points: &Points,
    cell: CellAt,
    other: Option<u32>,
    cube: Cube,
) -> Copied
    requires place { pass.old.table_id ≡ table.now.table_id }
    requires ready { IsReady pass.old.me.0 table.now.table_id.words spare.now }
    requires rule { ArePoints points.now }
    requires cell { IsCellAt cell cell }
    requires part { IsPartAt points.now cell cube.key cube.level }
    requires other { (x : ℕ) → other ≡ Some x → IsOtherAt points.now cell cube.key cube.level x }
    requires room { (LEVELS - cube.level) * length (bodies_under cell) ≤ length spare.now }
    ensures pass { (pass.new.table_id ≡ pass.old.table_id) × (pass.new.me.1 ≡ pass.old.me.1) }
    ensures wrote { HasWritten pass.old.me.0 pass.new.me.0 (take result.used spare.now) }
    ensures within { result.used ≤ length spare.now }
    ensures few { result.used ≤ (LEVELS - cube.level) * length (bodies_under cell.entry) }
    ensures stands { StandsFor (site_at points.now) (at_of pass.new.me.0.memory) result.word cube.key (IsIn (take result.used spare.now)) (IsIn (with_other other (bodies_under cell.entry))) }
    ensures grows { (c : ℕ) × (result.word ≡ cell_word c) }
    ensures bodies { result.bodies ≡ risen 0 (length (bodies_under cell.entry)) }
{
    let top = spare[0];
    let mut children = [0u64; 8];
    let mut used = 1;
    let mut bodies = 0u64;
    for k in 0..8 {
        let inner = Cube {
            key: 8 * cube.key + u64::from(k),
            level: cube.level + 1,
        };
        let joins = other_at(points, other, cube.level, k);
        let copied = copy_part(
            table,
            pass,
            &spare[used..],
            points,
            &cell.child(k),
            joins,
            inner,
        );
        children[k as usize] = copied.word;
        used += copied.used;
        bodies = bodies.saturating_add(copied.bodies);
    }
    write_cell(table, pass, top, &children, cube.key);
    Copied {
        word: word_of_cell(top),
        used,
        bodies,
    }
}
