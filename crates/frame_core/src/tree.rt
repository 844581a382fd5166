//! The trees that an engine makes.

ghost use Rattle.std.specs.Prelude.{◌≡◌, IfOk, None, OnErr, OnOk, length, map};
ghost use Rattle.std.specs.Arc.{arc_value};
ghost use Rattle.bh_model.specs.declared.plan.Builder.TheVariants.{Orig, Update};
ghost use Rattle.build_workers.specs.Shares.{AreShares};
ghost use Rattle.frame_core.specs.Building.{IsFree, IsMadeTree, Rises, one_for_each, told_pieces, told_update, tree_publishes};
ghost use Rattle.frame_core.specs.Engines.{tree_for};
ghost use Rattle.frame_core.specs.Held.{IsOfSize};
ghost use Rattle.octree.specs.Stored.{IsOctreeOf};
ghost use Rattle.scene_file.specs.Bodies.{sites_of};

use bh_model::{Builder, Plan, UpdateCounts};
use build_gate::Gate;
use free_tree::FreeYard;
use locked_tree::LockedYard;
use octant_code::{OutOfMemory, Points};
use octree::Octree;
use scene_file::Bodies;
use space_split::build_with_pieces;
use std::alloc::Global;
use std::marker::Model;
use std::sync::{Arc, Wait};
use std::thread::Threads;
use update_build::update;

/// What a builder made: the octree, how many pieces SPACE made, and the counts of UPDATE's update.
#[derive(Drop)]
struct Built {
    octree: Octree,
    pieces: Option<u32>,
    update: Option<UpdateCounts>,
}

/// What a builder made afresh.
fn afresh(octree: Octree, pieces: Option<u32>) -> Built
    ensures { result ≡ record { octree = octree; pieces = pieces; update = None } }
{
    Built {
        octree,
        pieces,
        update: None,
    }
}

/// The octree of all points by UPDATE: the last tree with an update, and where there is none the tree that
/// LOCAL builds. The last tree is given up.
fn build_update<R: Threads + Sync, G: Gate>(
    rt: &R,
    alloc: Global,
    points: &Arc<Points>,
    shares: &[Vec<u32>],
    last: Option<KeptTree>,
    free: &mut FreeYard,
    gate: &G,
) -> Result<Built, OutOfMemory>
    requires shares { AreShares (length (arc_value points.now)) (map (λ s. s.items) shares.now) }
    requires last { IsOfSize (length (arc_value points.now)) last }
    ensures octree { IfOk result (λ b. IsOctreeOf (arc_value points.now) b.octree) }
    ensures pieces { IfOk result (λ b. b.pieces ≡ None) }
    ensures update { IfOk result (λ b. b.update ≡ told_update Update last (arc_value points.now)) }
    ensures counts { OnOk result (Rises (tree_publishes Update last (arc_value points.now) (map (λ s. s.items) shares.now)) free.old free.new) }
    ensures kept { OnErr result (free.new ≡ free.old) }
{
    let Some(last) = last else {
        let octree = local_build::build(rt, alloc, free, points, shares, gate)?;
        return Ok(afresh(octree, None));
    };
    let KeptTree {
        points: before,
        octree: old,
        ..
    } = last;
    let (octree, counts) = update(rt, alloc, free, old, &before, points, shares, gate)?;
    Ok(Built {
        octree,
        pieces: None,
        update: Some(counts),
    })
}

/// The octree of all points by a builder that waits for nobody, and what it tells of it. The last tree is
/// given up.
fn build_free<R: Threads + Sync, G: Gate>(
    rt: &R,
    alloc: Global,
    plan: Plan,
    points: &Arc<Points>,
    shares: &[Vec<u32>],
    last: Option<KeptTree>,
    free: &mut FreeYard,
    gate: &G,
) -> Result<Built, OutOfMemory>
    requires builder { IsFree plan.builder }
    requires shares { AreShares (length (arc_value points.now)) (map (λ s. s.items) shares.now) }
    requires last { IsOfSize (length (arc_value points.now)) last }
    ensures made { IfOk result (λ b. IsMadeTree plan (arc_value points.now) b.octree) }
    ensures pieces { IfOk result (λ b. b.pieces ≡ told_pieces plan.builder plan.workers (arc_value points.now)) }
    ensures update { IfOk result (λ b. b.update ≡ told_update plan.builder last (arc_value points.now)) }
    ensures counts { OnOk result (Rises (tree_publishes plan.builder last (arc_value points.now) (map (λ s. s.items) shares.now)) free.old free.new) }
    ensures kept { OnErr result (free.new ≡ free.old) }
{
    // The counts have 64 bits, so none that rises by nothing changes.
    let _published = free.published();
    let _changes = free.changes();
    match plan.builder {
        Builder::Local => {
            let octree = local_build::build(rt, alloc, free, points, shares, gate)?;
            Ok(afresh(octree, None))
        }
        Builder::Update => build_update(rt, alloc, points, shares, last, free, gate),
        Builder::Partree => {
            let octree = partree_merge::build(rt, alloc, free, points, shares, gate)?;
            Ok(afresh(octree, None))
        }
        Builder::Space => {
            let (octree, pieces) = build_with_pieces(rt, alloc, points, plan.workers, gate)?;
            Ok(afresh(octree, Some(pieces)))
        }
        Builder::Orig => unreachable!(),
    }
}

/// An octree, the plan by which it was made, the points that it was made for, and the counts of the update
/// that made it, where one did. Contracts see it as a `MadeTree`.
#[derive(Drop)]
pub struct KeptTree {
    plan: Plan,
    points: Arc<Points>,
    octree: Octree,
    // how many pieces SPACE made
    pieces: Option<u32>,
    update: Option<UpdateCounts>,
}

impl Model for KeptTree {
    ghost use Rattle.std.specs.Prelude.{◌≡◌};
    ghost use Rattle.std.specs.Arc.{arc_value};
    ghost use Rattle.frame_core.specs.Building.{IsMadeTree, MadeTree, told_pieces};

    ghost Value = { MadeTree };

    ghost view = { λ k. record { plan = k.plan; sites = arc_value k.points; update = k.update } };

    ghost invariant = { λ k. IsMadeTree k.plan (arc_value k.points) k.octree × (k.pieces ≡ told_pieces k.plan.builder k.plan.workers (arc_value k.points)) };
}

impl KeptTree {
    /// The octree of the bodies' points, made by the builder ORIG, each of whose workers builds its share
    /// of the bodies. It may wait.
    pub fn make<R: Threads + Wait + Sync, G: Gate>(
        rt: &R,
        alloc: Global,
        plan: Plan,
        bodies: &Bodies,
        shares: &[Vec<u32>],
        locked: &mut LockedYard,
        gate: &G,
    ) -> Result<KeptTree, OutOfMemory>
        requires builder { plan.builder ≡ Orig }
        requires shares { AreShares (length bodies.now) (map (λ s. s.items) shares.now) }
        ensures made { IfOk result (λ k. k ≡ record { plan = plan; sites = sites_of bodies.now; update = None }) }
        ensures counts { OnOk result (Rises (one_for_each (length bodies.now)) locked.old locked.new) }
        ensures kept { OnErr result (locked.new ≡ locked.old) }
    {
        let points = Arc::new(alloc, bodies.points(alloc)?)?;
        let octree = orig_build::build(rt, alloc, locked, &points, shares, gate)?;
        Ok(KeptTree {
            plan,
            points,
            octree,
            pieces: None,
            update: None,
        })
    }

    /// The octree of the bodies' points, made by a builder that waits for nobody. Each worker of LOCAL,
    /// of UPDATE and of PARTREE builds its share of the bodies. The last tree is given up: UPDATE makes the
    /// new one of it.
    pub fn make_free<R: Threads + Sync, G: Gate>(
        rt: &R,
        alloc: Global,
        plan: Plan,
        bodies: &Bodies,
        shares: &[Vec<u32>],
        last: Option<KeptTree>,
        free: &mut FreeYard,
        gate: &G,
    ) -> Result<KeptTree, OutOfMemory>
        requires builder { IsFree plan.builder }
        requires shares { AreShares (length bodies.now) (map (λ s. s.items) shares.now) }
        requires last { IsOfSize (length bodies.now) last }
        ensures made { IfOk result (λ k. k ≡ tree_for plan last bodies.now) }
        ensures counts { OnOk result (Rises (tree_publishes plan.builder last (sites_of bodies.now) (map (λ s. s.items) shares.now)) free.old free.new) }
        ensures kept { OnErr result (free.new ≡ free.old) }
    {
        let points = Arc::new(alloc, bodies.points(alloc)?)?;
        let built = build_free(rt, alloc, plan, &points, shares, last, free, gate)?;
        Ok(KeptTree {
            plan,
            points,
            octree: built.octree,
            pieces: built.pieces,
            update: built.update,
        })
    }

    /// The octree.
    pub fn octree(&self) -> &Octree
        ensures { IsMadeTree self.now.plan self.now.sites result.now }
    {
        &self.octree
    }

    /// How many pieces SPACE made. None for every other builder.
    pub fn pieces(&self) -> Option<u32>
        ensures { result ≡ told_pieces self.now.plan.builder self.now.plan.workers self.now.sites }
    {
        self.pieces
    }

    /// The counts of the update that made the tree, where one did.
    pub fn update_counts(&self) -> Option<UpdateCounts>
        ensures { result ≡ self.now.update }
    {
        self.update
    }
}
