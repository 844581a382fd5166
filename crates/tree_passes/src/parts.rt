//! Passes that are split off and taken in.

ghost use Rattle.std.specs.Prelude.{◌≡◌, ℕ, [], ◌<◌, ◌≤◌};
ghost use Rattle.tree_passes.specs.Counting.{times};
ghost use Rattle.tree_passes.specs.Passes.{given_part, joined, kept_part};

use crate::plays::{Common, Part, Share, Together};
use crate::rule::{Pass, Words};
use std::marker::Brand;

// The share is picked by the cells, the bodies and the quota.
fn split_share<S: Share>(
    table: &Words,
    pass: &mut Pass,
    cells: &[u32],
    bodies: &[u32],
    quota: u64,
) -> Pass
    requires place { (pass.old.table_id ≡ table.now.table_id) × (0 < table.now.table_id.words) }
    requires cells { (c : ℕ) → times c S.cells ≤ times c pass.old.me.0.held }
    requires bodies { (x : ℕ) → times x S.bodies ≤ times x pass.old.me.0.todo }
    requires quota { S.quota ≤ pass.old.me.0.quota }
    ensures old { (pass.new.table_id ≡ pass.old.table_id) × (pass.new.me.1 ≡ pass.old.me.1) × (pass.new.me.0 ≡ kept_part S.cells S.bodies S.quota pass.old.me.0) }
    ensures new { (result.table_id ≡ pass.old.table_id) × (result.me ≡ (given_part S.cells S.bodies S.quota pass.old.me.0, [])) }
{
    let _share = (cells.len(), bodies.len(), quota);
    table.split_seat::<Part<S>>(pass)
}

/// Splits bodies of the todo list off for a new pass, which gets these cells and this quota, and has
/// seen what the old one has done or seen.
pub fn split_pass(table: &Words, pass: &mut Pass, cells: &[u32], bodies: &[u32], quota: u64) -> Pass
    requires place { (pass.old.table_id ≡ table.now.table_id) × (0 < table.now.table_id.words) }
    requires cells { (c : ℕ) → times c cells.now ≤ times c pass.old.me.0.held }
    requires bodies { (x : ℕ) → times x bodies.now ≤ times x pass.old.me.0.todo }
    requires quota { quota ≤ pass.old.me.0.quota }
    ensures old { (pass.new.table_id ≡ pass.old.table_id) × (pass.new.me.1 ≡ pass.old.me.1) × (pass.new.me.0 ≡ kept_part cells.now bodies.now quota pass.old.me.0) }
    ensures new { (result.table_id ≡ pass.old.table_id) × (result.me ≡ (given_part cells.now bodies.now quota pass.old.me.0, [])) }
{
    split_share::<Brand>(table, pass, cells, bodies, quota)
}

// What every pass knows is picked by the first pass.
fn join_common<C: Common>(table: &Words, pass: &mut Pass, other: Pass)
    requires place { (pass.old.table_id ≡ table.now.table_id) × (other.table_id ≡ table.now.table_id) × (0 < table.now.table_id.words) }
    requires no_slot { other.me.1 ≡ [] }
    requires no_lock { other.me.0.locks ≡ [] }
    requires common { (C.points ≡ pass.old.me.0.points) × (C.bodies ≡ pass.old.me.0.bodies) × (C.memory ≡ pass.old.me.0.memory) }
    ensures pass { (pass.new.table_id ≡ pass.old.table_id) × (pass.new.me.1 ≡ pass.old.me.1) × (pass.new.me.0 ≡ joined pass.old.me.0 other.me.0) }
{
    table.join_seat::<Together<C>>(pass, other);
}

/// Takes in another pass, which holds no lock. The cells that it still holds are given up.
pub fn join_passes(table: &Words, pass: &mut Pass, other: Pass)
    requires place { (pass.old.table_id ≡ table.now.table_id) × (other.table_id ≡ table.now.table_id) × (0 < table.now.table_id.words) }
    requires no_slot { other.me.1 ≡ [] }
    requires no_lock { other.me.0.locks ≡ [] }
    ensures pass { (pass.new.table_id ≡ pass.old.table_id) × (pass.new.me.1 ≡ pass.old.me.1) × (pass.new.me.0 ≡ joined pass.old.me.0 other.me.0) }
{
    join_common::<Brand>(table, pass, other);
}
