//! How shared trees begin.

ghost use Rattle.std.specs.Prelude.{◌≡◌, ℕ, [], ◌+◌, ◌*◌, ◌++◌, ◌<◌, ◌≤◌, length, slice_set, IfOk, OnErr, OnOk};
ghost use Rattle.std.specs.Arc.{arc_value};
ghost use Rattle.octant_code.specs.declared.limits.TheConstants.{MOST_BODIES};
ghost use Rattle.bh_model.specs.Bodies.{IsIn, NoneTwice};
ghost use Rattle.bh_model.specs.Trees.{cell_count};
ghost use Rattle.tree_rule.specs.Words.{at_of, HasBody};
ghost use Rattle.tree_rule.specs.declared.words.TheConstants.{CELLS_OF_ONE, MOST_CELLS};
ghost use Rattle.octree.specs.Stored.{IsBlankFrom, IsCanonical, tree_of, word_count};
ghost use Rattle.tree_passes.specs.declared.view.Writing.TheVariants.{ByExchange};
ghost use Rattle.tree_passes.specs.Counting.{numbers_from};
ghost use Rattle.tree_passes.specs.Ends.{CanOpen, CanPool};
ghost use Rattle.tree_passes.specs.Opening.{all_bodies, fresh_view, opening_of};
ghost use Rattle.shared_tree.specs.Ends.{AreHandedOut, AreStartWords, AreZeros, Serves};
ghost use Rattle.shared_tree.specs.Seen.{seen_of};

use crate::parts::{PassParts, TreeParts};
use cell_pool::Region;
use octant_code::{OutOfMemory, Points};
use octree::Octree;
use std::alloc::Global;
use std::sync::Arc;
use tree_passes::{Pass, Tree, Writing, open_free, open_locked};
use tree_rule::{CELLS_OF_ONE, place_of_child};

/// How the cells of a new table are dealt out.
#[derive(Drop)]
pub struct Deal {
    /// The cells of the first pass's region.
    pub region: Vec<u32>,
    /// How many cells the table has.
    pub cells: u32,
    /// The first number that the pool gives out, and how many it may give out.
    pub pool: u64,
    pub quota: u64,
}

// Appends so many numbers from one on.
fn push_numbers(list: &mut Vec<u32>, first: u32, count: u32) -> Result<(), OutOfMemory>
    requires { first + count ≤ MOST_CELLS }
    ensures { OnOk result (list.new.items ≡ list.old.items ++ numbers_from first count) }
{
    for i in 0..count {
        list.push(first + i)?;
    }
    Ok(())
}

/// The deal without a pool: the region has 21 cells for each of so many bodies at least, those of the
/// start that can't be reached first.
///
/// # Errors
///
/// `OutOfMemory` for want of memory.
pub fn deal_region(alloc: Global, start: &Octree, bodies: usize) -> Result<Deal, OutOfMemory>
    requires few { bodies ≤ MOST_BODIES }
    requires room { cell_count (tree_of start.now) + CELLS_OF_ONE * bodies ≤ MOST_CELLS }
    ensures handed { IfOk result (λ d. AreHandedOut start.now (CELLS_OF_ONE * bodies) d.region.items d.cells) }
    ensures pool { IfOk result (λ d. (d.pool ≡ d.cells) × (d.quota ≡ 0)) }
{
    let held = start.held();
    let mut region = start.free_cells(alloc)?;
    let count = CELLS_OF_ONE as usize * bodies;
    let more = count.saturating_sub(region.len()) as u32;
    push_numbers(&mut region, held, more)?;
    Ok(Deal {
        region,
        cells: held + more,
        pool: u64::from(held + more),
        quota: 0,
    })
}

// Writes words over the first zeros of a list.
fn write_front(zeros: &mut Vec<u64>, front: &[u64])
    requires zeros { AreZeros zeros.old.items }
    requires long { length front.now ≤ length zeros.old.items }
    ensures long { length zeros.new.items ≡ length zeros.old.items }
    ensures written { (i : ℕ) → at_of zeros.new.items i ≡ at_of front.now i }
{
    for i in 0..front.len() {
        zeros[i] = front[i];
    }
}

// Makes so many words in front zeros again.
fn clear_front(words: &mut Vec<u64>, count: usize)
    requires long { count ≤ length words.old.items }
    requires rest { (i : ℕ) → count ≤ i → at_of words.old.items i ≡ 0 }
    ensures { AreZeros words.new.items }
{
    for i in 0..count {
        words[i] = 0;
    }
}

// Writes the words of a start over zeros, with those of so many cells. Zeros that are there stay.
fn write_start(zeros: &mut Vec<u64>, start: Octree, cells: u32) -> Result<(), OutOfMemory>
    requires zeros { AreZeros zeros.old.items }
    requires base { start.base ≡ 1 }
    requires held { start.held ≤ cells }
    requires few { cells ≤ MOST_CELLS }
    ensures refused { OnErr result (AreZeros zeros.new.items) }
    ensures written { OnOk result (AreStartWords start zeros.new.items cells) }
{
    let words = start.into_words();
    zeros.resize(place_of_child(cells, 0), 0)?;
    write_front(zeros, &words);
    Ok(())
}

// The table of these words, written in one way or the other, and its first pass.
fn open_table(
    alloc: Global,
    writing: Writing,
    points: &Points,
    words: &mut Vec<u64>,
    todo: &Vec<u32>,
    deal: &Deal,
) -> Result<(Tree, Pass), OutOfMemory>
    requires opens { CanOpen points.now words.old.items todo.now.items deal.now.region.items }
    requires pool { CanPool words.old.items deal.now.region.items deal.now.pool deal.now.quota }
    requires quota { writing ≡ ByExchange → deal.now.quota ≡ 0 }
    ensures long { length words.new.items ≡ length words.old.items }
    ensures blank { (fresh : ℕ) → IsBlankFrom words.old.items fresh → IsBlankFrom words.new.items fresh }
    ensures writing { IfOk result (λ r. r.0.shared.key.writing ≡ writing) }
    ensures opening { IfOk result (λ r. opening_of r.0.shared.key ≡ record { sites = points.now; words = words.old.items; todo = todo.now.items }) }
    ensures counts { IfOk result (λ r. (r.0.shared.table_id.words ≡ length words.old.items) × (r.0.shared.table_id.slots ≡ 0)) }
    ensures pass { IfOk result (λ r. (r.1.table_id ≡ r.0.shared.table_id) × (r.1.me ≡ (fresh_view (opening_of r.0.shared.key) deal.now.region.items deal.now.quota todo.now.items, []))) }
{
    match writing {
        Writing::ByExchange => open_free(alloc, points, words, todo, &deal.region),
        Writing::UnderLocks => open_locked(
            alloc,
            points,
            words,
            todo,
            &deal.region,
            deal.pool,
            deal.quota,
        ),
    }
}

// The same, and the words are zeros then.
fn open_cleared(
    alloc: Global,
    writing: Writing,
    points: &Points,
    words: &mut Vec<u64>,
    fresh: u32,
    todo: &Vec<u32>,
    deal: &Deal,
) -> Result<(Tree, Pass), OutOfMemory>
    requires opens { CanOpen points.now words.old.items todo.now.items deal.now.region.items }
    requires pool { CanPool words.old.items deal.now.region.items deal.now.pool deal.now.quota }
    requires quota { writing ≡ ByExchange → deal.now.quota ≡ 0 }
    requires fresh { IsBlankFrom words.old.items fresh × (word_count fresh ≤ length words.old.items) }
    ensures zeros { AreZeros words.new.items }
    ensures writing { IfOk result (λ r. r.0.shared.key.writing ≡ writing) }
    ensures opening { IfOk result (λ r. opening_of r.0.shared.key ≡ record { sites = points.now; words = words.old.items; todo = todo.now.items }) }
    ensures counts { IfOk result (λ r. (r.0.shared.table_id.words ≡ length words.old.items) × (r.0.shared.table_id.slots ≡ 0)) }
    ensures pass { IfOk result (λ r. (r.1.table_id ≡ r.0.shared.table_id) × (r.1.me ≡ (fresh_view (opening_of r.0.shared.key) deal.now.region.items deal.now.quota todo.now.items, []))) }
{
    let opened = open_table(alloc, writing, points, words, todo, deal);
    clear_front(words, place_of_child(fresh, 0));
    opened
}

// The parts of a tree with these words, which are zeros then, and of the pass that is entrusted with all
// bodies.
fn begin(
    alloc: Global,
    writing: Writing,
    points: Arc<Points>,
    words: &mut Vec<u64>,
    fresh: u32,
    todo: &Vec<u32>,
    deal: Deal,
) -> Result<(TreeParts, PassParts), OutOfMemory>
    requires opens { CanOpen (arc_value points) words.old.items todo.now.items deal.region.items }
    requires pool { CanPool words.old.items deal.region.items deal.pool deal.quota }
    requires quota { writing ≡ ByExchange → deal.quota ≡ 0 }
    requires fresh { IsBlankFrom words.old.items fresh × (word_count fresh ≤ length words.old.items) }
    requires enough { CELLS_OF_ONE * length todo.now.items ≤ length deal.region.items + deal.quota }
    requires few { length deal.region.items + deal.quota ≤ MOST_CELLS }
    ensures zeros { AreZeros words.new.items }
    ensures writing { IfOk result (λ r. r.0.writing ≡ writing) }
    ensures opening { IfOk result (λ r. r.0.opening ≡ record { sites = arc_value points; words = words.old.items; todo = todo.now.items }) }
    ensures pass { IfOk result (λ r. r.1 ≡ record { table_id = r.0.table_id; view = fresh_view (record { sites = arc_value points; words = words.old.items; todo = todo.now.items }) deal.region.items deal.quota todo.now.items; cells = deal.region.items }) }
{
    let (table, seat) = open_cleared(alloc, writing, &points, words, fresh, todo, &deal)?;
    let Deal { region, quota, .. } = deal;
    let mut region = Region::of(region);
    region.reserve(quota as usize)?;
    let room = Vec::with_capacity(alloc, table.word_count())?;
    let tree = TreeParts {
        table,
        points,
        room,
    };
    let pass = PassParts {
        seat,
        region,
        published: 0,
        changes: 0,
    };
    Ok((tree, pass))
}

/// Opens a tree with a start and bodies that are to be put in, whose cells are dealt out so, and the
/// pass that is entrusted with them. The list of zeros becomes as long as the table, and what is written
/// into it are zeros again at the end: so whoever keeps it writes them once.
///
/// # Errors
///
/// `OutOfMemory` for want of memory. The start is given up then.
pub fn open(
    alloc: Global,
    writing: Writing,
    points: &Arc<Points>,
    start: Octree,
    todo: &[u32],
    deal: Deal,
    zeros: &mut Vec<u64>,
) -> Result<(TreeParts, PassParts), OutOfMemory>
    requires base { start.base ≡ 1 }
    requires canonical { IsCanonical (arc_value points.now) start }
    requires todo_once { NoneTwice todo.now }
    requires todo_in { (x : ℕ) → IsIn todo.now x → x < length (arc_value points.now) }
    requires todo_fresh { (x : ℕ) → IsIn todo.now x → HasBody start.words x → ⊥ }
    requires deal { Serves start deal.region.items deal.cells deal.pool deal.quota }
    requires quota { writing ≡ ByExchange → deal.quota ≡ 0 }
    requires enough { CELLS_OF_ONE * length todo.now ≤ length deal.region.items + deal.quota }
    requires zeros { AreZeros zeros.old.items }
    ensures zeros { AreZeros zeros.new.items }
    ensures writing { IfOk result (λ r. r.0.writing ≡ writing) }
    ensures points { IfOk result (λ r. r.0.opening.sites ≡ arc_value points.now) }
    ensures words { IfOk result (λ r. (i : ℕ) → at_of r.0.opening.words i ≡ at_of start.words i) }
    ensures todo { IfOk result (λ r. r.0.opening.todo ≡ todo.now) }
    ensures pass { IfOk result (λ r. seen_of r.1 ≡ record { table_id = r.0.table_id; points = arc_value points.now; bodies = all_bodies r.0.opening; todo = todo.now; done = []; seen = []; changes = 0; loads = 0; last = (0, 0) }) }
    ensures quota { IfOk result (λ r. r.1.view.quota ≡ deal.quota) }
{
    let _rule = points.len();
    let fresh = start.used();
    let bodies = todo.to_vec(alloc)?;
    let shared = points.clone()?;
    write_start(zeros, start, deal.cells)?;
    begin(alloc, writing, shared, zeros, fresh, &bodies, deal)
}
