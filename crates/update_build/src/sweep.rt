//! Words that passes empty, each those of its own list, all at the same time: a table with a rule of its
//! own.

ghost use Rattle.std.specs.Prelude.{◌≡◌, ℕ, [], ◌+◌, ◌<◌, ◌≤◌, length, IfOk};
ghost use Rattle.std.specs.Slots.{slots_items, slots_len, IsFull};
ghost use Rattle.tree_passes.specs.Counting.{times};
ghost use Rattle.update_build.specs.Sweeping.{AreSwept, given_places, kept_places, opening_of, together, with_removed};

use atomic_table::{Closed, Join, Play, Seat, Shared, Split, Table, TableRule};
use octant_code::OutOfMemory;
use std::alloc::Global;
use std::collections::LinkedList;
use std::marker::{Brand, PhantomData};
use std::snapshot::Snapshot;

/// What a pass knows and has: the places of the words that it is to empty, and of those that it emptied.
/// No value of it is made: contracts and the rule of the words see it.
pub struct SweepView {
    pub todo: LinkedList<u32>,
    pub removed: LinkedList<u32>,
}

/// What a table is told when it is made: the words, and the places of those that are to be emptied.
#[derive(Drop)]
pub struct SweepTold {
    pub words: Snapshot<Vec<u64>>,
    pub places: Snapshot<Vec<u32>>,
}

/// The rule of the words of a sweep.
pub struct SweepRule;

impl TableRule<(), SweepView, SweepTold> for SweepRule {
    ghost use Rattle.update_build.specs.Sweeping.{Sweeps, opening_of, first_view};

    ghost holds = { λ k. Sweeps (opening_of k) };

    ghost first = { first_view };
}

/// A sweep with the memory of its words.
pub type SweepTable = Table<(), SweepView, SweepTold, SweepRule, Global>;

/// The words of a sweep.
pub type SweepWords = Shared<(), SweepView, SweepTold, SweepRule>;

/// What a pass steps with. It takes no bytes.
pub type SweepPass = Seat<(), SweepView>;

/// A word is emptied.
struct Emptying;

impl Play<(), SweepView> for Emptying {
    ghost use Rattle.update_build.specs.Sweeping.{removed_one};

    ghost then = { removed_one };
}

/// The places that are split off, which the proof of a call picks.
pub trait Places {
    ghost use Rattle.std.specs.Prelude.{List, ℕ};

    ghost places: { List ℕ };
}

impl Places for Brand {
    ghost use Rattle.std.specs.Prelude.{[]};

    ghost places = { [] };
}

/// A pass is split.
struct Part<P> {
    places: PhantomData<P>,
}

impl<P: Places> Split<SweepView> for Part<P> {
    ghost use Rattle.update_build.specs.Sweeping.{kept_places, given_places};

    ghost left = { kept_places P.places };

    ghost right = { given_places P.places };
}

/// A pass takes another in.
struct Together;

impl Join<SweepView> for Together {
    ghost use Rattle.update_build.specs.Sweeping.{together, nothing_left};

    ghost both = { together };

    ghost spent = { nothing_left };
}

/// A sweep of words, and the pass that is to empty all these places.
///
/// # Errors
///
/// `OutOfMemory` for want of memory.
pub fn open_sweep(
    alloc: Global,
    words: &Vec<u64>,
    places: &Vec<u32>,
) -> Result<(SweepTable, SweepPass), OutOfMemory>
    ensures opening { IfOk result (λ r. opening_of r.0.shared.key ≡ record { words = words.now.items; places = places.now.items }) }
    ensures counts { IfOk result (λ r. (r.0.shared.table_id.words ≡ length words.now.items) × (r.0.shared.table_id.slots ≡ 0)) }
    ensures pass { IfOk result (λ r. (r.1.table_id ≡ r.0.shared.table_id) × (r.1.me ≡ (record { todo = places.now.items; removed = [] }, []))) }
{
    let told = SweepTold {
        words: Snapshot::of(words),
        places: Snapshot::of(places),
    };
    match Table::of_words(alloc, words, &told) {
        Ok(opened) => Ok(opened),
        Err(_) => Err(OutOfMemory),
    }
}

/// Empties a word of the pass's list.
#[inline]
pub fn empty_word(table: &SweepWords, pass: &mut SweepPass, place: u32)
    requires table { pass.old.table_id ≡ table.now.table_id }
    requires inside { place < table.now.table_id.words }
    requires todo { 1 ≤ times place pass.old.me.0.todo }
    ensures table { (pass.new.table_id ≡ pass.old.table_id) × (pass.new.me.1 ≡ pass.old.me.1) }
    ensures removed { pass.new.me.0 ≡ with_removed place pass.old.me.0 }
{
    table.store::<Emptying>(pass, place as usize, 0);
}

// The places are picked by the list.
fn split_places<P: Places>(table: &SweepWords, pass: &mut SweepPass, places: &[u32]) -> SweepPass
    requires table { (pass.old.table_id ≡ table.now.table_id) × (0 < table.now.table_id.words) }
    requires places { (i : ℕ) → times i P.places ≤ times i pass.old.me.0.todo }
    ensures old { (pass.new.table_id ≡ pass.old.table_id) × (pass.new.me.1 ≡ pass.old.me.1) × (pass.new.me.0 ≡ kept_places P.places pass.old.me.0) }
    ensures new { (result.table_id ≡ pass.old.table_id) × (result.me ≡ (given_places P.places pass.old.me.0, [])) }
{
    let _places = places.len();
    table.split_seat::<Part<P>>(pass)
}

/// Splits places off for a new pass.
pub fn split_sweep(table: &SweepWords, pass: &mut SweepPass, places: &[u32]) -> SweepPass
    requires table { (pass.old.table_id ≡ table.now.table_id) × (0 < table.now.table_id.words) }
    requires places { (i : ℕ) → times i places.now ≤ times i pass.old.me.0.todo }
    ensures old { (pass.new.table_id ≡ pass.old.table_id) × (pass.new.me.1 ≡ pass.old.me.1) × (pass.new.me.0 ≡ kept_places places.now pass.old.me.0) }
    ensures new { (result.table_id ≡ pass.old.table_id) × (result.me ≡ (given_places places.now pass.old.me.0, [])) }
{
    split_places::<Brand>(table, pass, places)
}

/// Takes in another pass.
pub fn join_sweeps(table: &SweepWords, pass: &mut SweepPass, other: SweepPass)
    requires table { (pass.old.table_id ≡ table.now.table_id) × (other.table_id ≡ table.now.table_id) × (0 < table.now.table_id.words) }
    requires no_slot { other.me.1 ≡ [] }
    ensures { (pass.new.table_id ≡ pass.old.table_id) × (pass.new.me.1 ≡ pass.old.me.1) × (pass.new.me.0 ≡ together pass.old.me.0 other.me.0) }
{
    table.join_seat::<Together>(pass, other);
}

/// The words of a sweep, once a pass has all places that it began with.
pub fn close_sweep(table: SweepTable, pass: SweepPass) -> Closed<(), Global>
    requires table { pass.table_id ≡ table.shared.table_id }
    requires all { (i : ℕ) → times i (opening_of table.shared.key).places ≡ times i pass.me.0.todo + times i pass.me.0.removed }
    ensures counts { (slots_len result.words ≡ table.shared.table_id.words) × (slots_len result.slots ≡ table.shared.table_id.slots) }
    ensures full { IsFull result.words }
    ensures swept { AreSwept (opening_of table.shared.key).words (slots_items result.words) pass.me.0.removed }
{
    table.close_with(pass)
}
