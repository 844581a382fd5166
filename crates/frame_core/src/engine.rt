//! The engine of a run.

ghost use Rattle.std.specs.Prelude.{IfOk};

use crate::moving::{next_number, set_costs, step_bodies};
use crate::shares::first_shares;
use crate::stage::{FrameParts, Stage};
use crate::sums::{greatest_cost, sum_up};
use crate::tree::KeptTree;
use bh_model::{Plan, Pull, UpdateCounts};
use build_gate::Gate;
use costzones::zones;
use drift::Motion;
use force_walk::pulls;
use free_tree::FreeYard;
use locked_tree::LockedYard;
use mass_moments::moments;
use octant_code::{OutOfMemory, Point};
use octree::{Extent, Octree};
use probe::Frame;
use scene_file::{Bodies, Move};
use std::alloc::Global;
use std::marker::Model;
use std::mem::replace;
use std::sync::Wait;
use std::thread::Threads;

/// The bodies of a run with what is made for them: their octree, and the zones and the pulls of their
/// frame. From a frame to the next they move by their pulls, or by moves. Once a call was refused for
/// want of memory the engine is spent, and nothing more is asked of it.
///
/// Contracts see it as an `EngineState`: the plan, the number of the frame, the bodies, where each is
/// exactly and how fast it moves, its cost, the shares in which workers build, the last tree that was
/// made, and the stage, which says whether the points have a tree and a frame, and whether the
/// engine is spent.
#[derive(Drop)]
pub struct Engine {
    alloc: Global,
    plan: Plan,
    step: u32,
    bodies: Bodies,
    // none while the bodies rest at their points
    motion: Option<Motion>,
    costs: Vec<u32>,
    shares: Vec<Vec<u32>>,
    last: Option<KeptTree>,
    stage: Stage,
}

impl Model for Engine {
    ghost use Rattle.frame_core.specs.Engines.{EngineState};

    ghost Value = { EngineState };

    ghost use Rattle.frame_core.specs.Held.{IsEngine, state_of};

    ghost view = { state_of };

    ghost invariant = { λ e. IsEngine (state_of e) e.stage };
}

impl Engine {
    ghost use Rattle.std.specs.Prelude.{◌≡◌, ◌<◌, IfOk, IsErr, OnErr, OnOk, Some, length, map};
    ghost use Rattle.octant_code.specs.Points.{site_at};
    ghost use Rattle.bh_model.specs.Trees.{cell_count, depth};
    ghost use Rattle.bh_model.specs.Zones.{zone};
    ghost use Rattle.bh_model.specs.declared.plan.Builder.TheVariants.{Orig, Space};
    ghost use Rattle.frame_core.specs.Building.{IsFree, Rises, pieces_at};
    ghost use Rattle.frame_core.specs.Engines.{HasTree, IsUsable, Spent, WithFrame, WithTree, WithoutTree, builder_pieces, builder_publishes, frame_of, last_update, opened, where_built, with_frame, with_made, with_tree};
    ghost use Rattle.frame_core.specs.Frames.{pull_on, tree_of_bodies};
    ghost use Rattle.frame_core.specs.Held.{AreParts, IsMadeFor};
    ghost use Rattle.frame_core.specs.Next.{drifted, shifted_by};
    ghost use Rattle.mass_moments.specs.Kept.{cost_at};
    ghost use Rattle.octree.specs.ByKeys.{StandsByKeys};
    ghost use Rattle.octree.specs.Stored.{IsOctreeOf, tree_of};
    ghost use Rattle.scene_file.specs.Bodies.{sites_of};
    ghost use Rattle.scene_file.specs.Moves.{IsPass};

    /// The engine of a plan and bodies, with a cost of 1 for each body, and the bodies shared among
    /// the workers by their numbers. It has no tree yet.
    ///
    /// # Errors
    ///
    /// `OutOfMemory` for want of memory.
    pub fn open(alloc: Global, plan: Plan, bodies: Bodies) -> Result<Engine, OutOfMemory>
        ensures { IfOk result (λ e. e ≡ opened plan bodies) }
    {
        let costs = vec![in alloc; 1u32; bodies.len() as usize]?;
        let shares = first_shares(alloc, plan.workers, bodies.len())?;
        Ok(Engine {
            alloc,
            plan,
            step: 0,
            bodies,
            motion: None,
            costs,
            shares,
            last: None,
            stage: Stage::Bare,
        })
    }

    /// Makes the canonical octree of the bodies' points by the builder ORIG: the workers build it, each its
    /// share of the bodies, and pass the gate. The yard counts a body and a publication for each body. It
    /// may wait.
    ///
    /// # Errors
    ///
    /// `OutOfMemory` for want of memory. The engine is spent then, and the yard as it was.
    pub fn tree<R: Threads + Wait + Sync, G: Gate>(
        &mut self,
        rt: &R,
        locked: &mut LockedYard,
        gate: &G,
    ) -> Result<(), OutOfMemory>
        requires builder { self.old.plan.builder ≡ Orig }
        requires bare { self.old.stage ≡ WithoutTree }
        ensures made { OnOk result (self.new ≡ with_tree self.old) }
        ensures refused { OnErr result (self.new.stage ≡ Spent) }
        ensures counts { OnOk result (Rises (builder_publishes self.old) locked.old locked.new) }
        ensures kept { OnErr result (locked.new ≡ locked.old) }
    {
        let shares = self.shares.as_slice();
        match KeptTree::make(
            rt,
            self.alloc,
            self.plan,
            &self.bodies,
            shares,
            locked,
            gate,
        ) {
            Ok(tree) => {
                self.keep(tree);
                Ok(())
            }
            Err(_) => self.refuse(),
        }
    }

    /// Makes the canonical octree of the bodies' points by a builder that waits for nobody: the workers
    /// build it and pass the gate. UPDATE makes it of the last tree, and the first one as LOCAL does. For
    /// LOCAL the yard counts a body and a publication for each body, for UPDATE too at its first tree and
    /// then for each body that left its cell, for PARTREE each body and at most as many publications as
    /// the workers' shares have blocks, and for SPACE nothing.
    ///
    /// # Errors
    ///
    /// `OutOfMemory` for want of memory. The engine is spent then, and the yard as it was.
    pub fn tree_free<R: Threads + Sync, G: Gate>(
        &mut self,
        rt: &R,
        free: &mut FreeYard,
        gate: &G,
    ) -> Result<(), OutOfMemory>
        requires builder { IsFree self.old.plan.builder }
        requires bare { self.old.stage ≡ WithoutTree }
        ensures made { OnOk result (self.new ≡ with_tree self.old) }
        ensures refused { OnErr result (self.new.stage ≡ Spent) }
        ensures counts { OnOk result (Rises (builder_publishes self.old) free.old free.new) }
        ensures kept { OnErr result (free.new ≡ free.old) }
    {
        let last = replace(&mut self.last, None);
        let shares = self.shares.as_slice();
        match KeptTree::make_free(
            rt,
            self.alloc,
            self.plan,
            &self.bodies,
            shares,
            last,
            free,
            gate,
        ) {
            Ok(tree) => {
                self.keep(tree);
                Ok(())
            }
            Err(_) => self.refuse(),
        }
    }

    // Keeps the tree of the bodies' points, which is the last one from then on.
    fn keep(&mut self, tree: KeptTree)
        requires { IsMadeFor self.old.plan self.old.bodies (Some tree) }
        ensures { self.new ≡ with_made tree self.old }
    {
        self.last = Some(tree);
        self.stage = Stage::Tree;
    }

    /// Makes the frame of the engine's number: the moments of the tree's cells, the zones of the
    /// workers, and the pulls on all bodies. The workers work these out, each those on the bodies of its
    /// zone, and pass the gate.
    ///
    /// # Errors
    ///
    /// `OutOfMemory` for want of memory. The engine is spent then.
    pub fn frame<R: Threads + Sync, G: Gate>(
        &mut self,
        rt: &R,
        gate: &G,
    ) -> Result<Frame, OutOfMemory>
        requires { self.old.stage ≡ WithTree }
        ensures figures { IfOk result (λ f. f ≡ frame_of self.old) }
        ensures made { OnOk result (self.new ≡ with_frame self.old) }
        ensures refused { OnErr result (self.new.stage ≡ Spent) }
    {
        match self.frame_parts(rt, gate) {
            Ok(parts) => {
                let figures = parts.figures;
                self.stage = Stage::Frame(parts);
                Ok(figures)
            }
            Err(_) => self.refuse(),
        }
    }

    // The parts of the frame of the engine's number: zones are cut by the costs, and the pulls are
    // worked out zone by zone, all zones at the same time.
    fn frame_parts<R: Threads + Sync, G: Gate>(
        &self,
        rt: &R,
        gate: &G,
    ) -> Result<FrameParts, OutOfMemory>
        requires { self.now.stage ≡ WithTree }
        ensures { IfOk result (AreParts self.now) }
    {
        let Some(kept) = &self.last else {
            unreachable!()
        };
        let tree = kept.octree();
        let bodies = &self.bodies;
        let costs = self.costs.as_slice();
        let plan = self.plan;
        let count = bodies.len();
        let moments = moments(rt, self.alloc, tree, bodies, costs)?;
        let zones = zones(self.alloc, tree, &moments, costs, plan.workers)?;
        let cut = zones.as_slice();
        let pulls = pulls(rt, self.alloc, tree, &moments, bodies, cut, &plan.law, gate)?;
        let sums = sum_up(bodies, &pulls);
        let size = tree.extent();
        let figures = Frame {
            step: self.step,
            bodies: count,
            cells: size.cells,
            cost: moments.cost_of(&tree.whole(), costs),
            greatest: greatest_cost(cut, costs),
            met: sums.met,
            push_x: sums.push_x,
            push_y: sums.push_y,
            push_z: sums.push_z,
        };
        Ok(FrameParts {
            figures,
            depth: size.depth,
            zones,
            pulls,
        })
    }

    /// Goes on to the next frame of a run: the bodies move by the pulls of this frame, its zones become
    /// the shares, and a body's cost is 1 and the number of terms of its pull. The new points have no
    /// tree yet.
    ///
    /// # Errors
    ///
    /// `OutOfMemory` for want of memory. The engine is spent then.
    pub fn drift(&mut self) -> Result<(), OutOfMemory>
        requires { self.old.stage ≡ WithFrame }
        ensures moved { OnOk result (self.new ≡ drifted self.old) }
        ensures refused { OnErr result (self.new.stage ≡ Spent) }
    {
        let stage = replace(&mut self.stage, Stage::Spent);
        let Stage::Frame(parts) = stage else {
            unreachable!()
        };
        let FrameParts { zones, pulls, .. } = parts;
        let motion = replace(&mut self.motion, None);
        let (bodies, motion) = step_bodies(self.alloc, &self.bodies, motion, &pulls)?;
        set_costs(&mut self.costs, &pulls);
        self.step = next_number(self.step);
        self.bodies = bodies;
        self.motion = Some(motion);
        self.shares = zones;
        self.stage = Stage::Bare;
        Ok(())
    }

    /// Goes on to the frame after moves. Shares and costs stay, and all bodies rest at their new points,
    /// which have no tree yet.
    ///
    /// # Errors
    ///
    /// `OutOfMemory` for want of memory. The engine is spent then.
    pub fn shift(&mut self, moves: &[Move]) -> Result<(), OutOfMemory>
        requires tree { HasTree self.old.stage }
        requires moves { IsPass self.old.bodies moves.now }
        ensures moved { OnOk result (self.new ≡ shifted_by moves.now self.old) }
        ensures refused { OnErr result (self.new.stage ≡ Spent) }
    {
        match self.bodies.shifted(self.alloc, moves) {
            Ok(bodies) => {
                self.step = next_number(self.step);
                self.bodies = bodies;
                self.motion = None;
                self.stage = Stage::Bare;
                Ok(())
            }
            Err(_) => self.refuse(),
        }
    }

    // What a refused call answers: from then on the engine is spent.
    fn refuse<T>(&mut self) -> Result<T, OutOfMemory>
        ensures answer { IsErr result }
        ensures spent { self.new.stage ≡ Spent }
    {
        self.stage = Stage::Spent;
        Err(OutOfMemory)
    }

    /// The canonical octree of the bodies' points.
    pub fn octree(&self) -> &Octree
        requires { HasTree self.now.stage }
        ensures canonical { IsOctreeOf (sites_of self.now.bodies) result.now }
        ensures tree { tree_of result.now ≡ tree_of_bodies self.now.bodies }
        ensures by_pieces { self.now.plan.builder ≡ Space → StandsByKeys (map (λ p. p.key) (pieces_at self.now.plan.workers (sites_of self.now.bodies))) result.now }
    {
        match &self.last {
            Some(tree) => tree.octree(),
            None => unreachable!(),
        }
    }

    /// How many pieces the cube was divided into. Some exactly where the builder is SPACE and the bodies'
    /// points have a tree.
    pub fn pieces(&self) -> Option<u32>
        ensures { result ≡ where_built self.now.stage (builder_pieces self.now) }
    {
        match (&self.stage, &self.last) {
            (Stage::Tree | Stage::Frame(_), Some(tree)) => tree.pieces(),
            _ => None,
        }
    }

    /// The counts of the update that made the tree of the bodies' points. Some exactly where the builder is
    /// UPDATE and the points have a tree that isn't its first.
    pub fn update_counts(&self) -> Option<UpdateCounts>
        ensures { result ≡ where_built self.now.stage (last_update self.now) }
    {
        match (&self.stage, &self.last) {
            (Stage::Tree | Stage::Frame(_), Some(tree)) => tree.update_counts(),
            _ => None,
        }
    }

    /// How many cells the tree of the bodies' points has, and how deep its bodies lie.
    pub fn extent(&self) -> Extent
        requires { HasTree self.now.stage }
        ensures cells { result.cells ≡ cell_count (tree_of_bodies self.now.bodies) }
        ensures depth { result.depth ≡ depth (tree_of_bodies self.now.bodies) }
    {
        self.octree().extent()
    }

    /// The depth of the tree of the engine's frame: the greatest level of a word that names a body, 0 to 21.
    pub fn depth(&self) -> u32
        requires { self.now.stage ≡ WithFrame }
        ensures { result ≡ depth (tree_of_bodies self.now.bodies) }
    {
        match &self.stage {
            Stage::Frame(parts) => parts.depth,
            _ => unreachable!(),
        }
    }

    /// The number of the engine's frame, from 0.
    pub fn step(&self) -> u32
        requires { IsUsable self.now.stage }
        ensures { result ≡ self.now.step }
    {
        self.step
    }

    /// How many workers there are, from 1 to 64.
    pub fn workers(&self) -> u32
        requires { IsUsable self.now.stage }
        ensures { result ≡ self.now.plan.workers }
    {
        self.plan.workers
    }

    /// The bodies of the zone of worker `w` in the engine's frame, in tree order.
    pub fn zone(&self, w: u32) -> &[u32]
        requires frame { self.now.stage ≡ WithFrame }
        requires worker { w < self.now.plan.workers }
        ensures { result.now ≡ zone (cost_at self.now.costs) self.now.plan.workers w (tree_of_bodies self.now.bodies) }
    {
        match &self.stage {
            Stage::Frame(parts) => &parts.zones[w as usize],
            _ => unreachable!(),
        }
    }

    /// The pull of all bodies on body `n` in the engine's frame.
    pub fn pull_of(&self, n: u32) -> Pull
        requires frame { self.now.stage ≡ WithFrame }
        requires body { n < length self.now.bodies }
        ensures { result ≡ pull_on self.now.plan.law self.now.bodies n }
    {
        match &self.stage {
            Stage::Frame(parts) => parts.pulls[n as usize],
            _ => unreachable!(),
        }
    }

    /// The point of body `n`.
    pub fn point(&self, n: u32) -> Point
        requires usable { IsUsable self.now.stage }
        requires body { n < length self.now.bodies }
        ensures { result ≡ site_at (sites_of self.now.bodies) n }
    {
        self.bodies.get(n).at
    }
}
