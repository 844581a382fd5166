//! What the records that were read so far gave.

ghost use Rattle.std.specs.Prelude.{◌≡◌, IfErr, IfOk};
ghost use Rattle.octant_code.specs.Points.{AreApart};
ghost use Rattle.scene_file.specs.Bodies.{sites_of};
ghost use Rattle.scene_file.specs.Reading.{IsReading, so_far_of};
ghost use Rattle.scene_file.specs.Scene.{still};
ghost use Rattle.scene_file.specs.declared.fault.SceneFault.TheVariants as fault;

use crate::bodies::Body;
use crate::entry::Entry;
use crate::fault::SceneFault;
use crate::gathering::Gathering;
use crate::moves::Move;
use crate::passes::Passes;
use crate::passing::Passing;
use crate::record::read_entry;
use crate::scene::Scene;
use csv::ByteRecord;
use octant_code::OutOfMemory;
use std::alloc::Global;
use std::marker::Model;

// The passes over bodies that were gathered, before there is one.
fn begun(alloc: Global, gathering: &Gathering) -> Result<Passing, SceneFault>
    ensures passing { IfOk result (λ passing. passing ≡ still gathering.now) }
    ensures apart { IfOk result (λ passing. AreApart (sites_of gathering.now)) }
    ensures fault { IfErr result (λ f. AreApart (sites_of gathering.now) → f ≡ fault.OutOfMemory) }
{
    match gathering.test_points(alloc) {
        Ok(()) => match Passing::new(alloc, gathering.bodies()) {
            Ok(passing) => Ok(passing),
            Err(OutOfMemory) => Err(SceneFault::OutOfMemory),
        },
        Err(fault) => Err(fault),
    }
}

// The passes over bodies that were gathered, whether there was one before or not.
fn opened(
    alloc: Global,
    gathering: &Gathering,
    passing: Option<Passing>,
) -> Result<Passing, SceneFault>
    requires { IsReading gathering.now passing }
    ensures passing { IfOk result (λ opened. opened ≡ so_far_of gathering.now passing) }
    ensures bodies { IfOk result (λ opened. opened.bodies ≡ gathering.now) }
    ensures apart { IfOk result (λ opened. AreApart (sites_of gathering.now)) }
    ensures fault { IfErr result (λ f. AreApart (sites_of gathering.now) → f ≡ fault.OutOfMemory) }
{
    match passing {
        Some(passing) => Ok(passing),
        None => begun(alloc, gathering),
    }
}

/// Bodies that were gathered, and, from the first record of a move or of a pass on, the passes over
/// them. Then the bodies' points were tested.
#[derive(Drop)]
pub struct Reading {
    gathering: Gathering,
    passing: Option<Passing>,
}

impl Model for Reading {
    ghost use Rattle.scene_file.specs.Scene.{SoFar};
    ghost use Rattle.scene_file.specs.Reading.{IsReading, so_far_of};

    ghost Value = { SoFar };

    ghost view = { λ r. so_far_of r.gathering r.passing };

    ghost invariant = { λ r. IsReading r.gathering r.passing };
}

impl Reading {
    ghost use Rattle.std.specs.Prelude.{◌≡◌, ◌<◌, IfOk, OnErr, false};
    ghost use Rattle.csv.specs.Records.{fields_of};
    ghost use Rattle.octant_code.specs.Points.{AreApart};
    ghost use Rattle.octant_code.specs.Space.{IsInCube};
    ghost use Rattle.scene_file.specs.Bodies.{sites_of};
    ghost use Rattle.scene_file.specs.Gathering.{IsPointTest};
    ghost use Rattle.scene_file.specs.Reading.{Gathers, gathered_entry, gathered_with};
    ghost use Rattle.scene_file.specs.Scene.{IsFaultOf, Reads, closed, is_still, nothing, with_move, with_pass};
    ghost use Rattle.scene_file.specs.declared.entry.Entry.TheVariants as entry;

    /// No record, with room for so many bodies.
    pub fn new(alloc: Global, room: usize) -> Result<Reading, OutOfMemory>
        ensures { IfOk result (λ reading. reading ≡ nothing) }
    {
        Ok(Reading {
            gathering: Gathering::new(alloc, room)?,
            passing: None,
        })
    }

    // Adds a body, whose record's number is told.
    fn add_body(&mut self, number: u32, body: &Body) -> Result<(), SceneFault>
        requires mass { 0 < body.now.mass }
        requires inside { IsInCube body.now.at }
        ensures step { Gathers self.old self.new (gathered_entry number self.old (entry.Body body.now)) result }
        ensures kept { OnErr result (self.new.bodies ≡ self.old.bodies) }
    {
        match self.passing {
            None => self.gathering.join(number, body),
            Some(_) => Err(self.gathering.late(number, body)),
        }
    }

    // Adds a move, whose record's number is told.
    #[tactic(auto, using(crate::proofs::Gatherings::move_gives))]
    fn add_move(&mut self, alloc: Global, number: u32, step: &Move) -> Result<(), SceneFault>
        requires { IsInCube step.now.to }
        ensures step { Gathers self.old self.new (with_move number self.old step.now) result }
        ensures kept { OnErr result (self.new.bodies ≡ self.old.bodies) }
    {
        if let Some(passing) = &mut self.passing {
            return passing.add(number, step);
        }
        match begun(alloc, &self.gathering) {
            Ok(passing) => {
                let mut passing = passing;
                match passing.add(number, step) {
                    Ok(()) => {
                        self.passing = Some(passing);
                        Ok(())
                    }
                    Err(fault) => Err(fault),
                }
            }
            Err(fault) => Err(fault),
        }
    }

    // Ends the pass that is open, as the record of this number says.
    #[tactic(auto, using(crate::proofs::Gatherings::pass_gives))]
    fn end_pass(&mut self, alloc: Global, number: u32) -> Result<(), SceneFault>
        ensures step { Gathers self.old self.new (with_pass number self.old) result }
        ensures kept { OnErr result (self.new.bodies ≡ self.old.bodies) }
    {
        let passing = self.passing.take();
        match opened(alloc, &self.gathering, passing) {
            Ok(open) => match open.close(alloc, number) {
                Ok(closed) => {
                    self.passing = Some(closed);
                    Ok(())
                }
                Err(fault) => Err(fault),
            },
            Err(fault) => Err(fault),
        }
    }

    /// Adds a record, whose number is told. A fault is the first where the bodies of the records
    /// before it are at points of their own, which is tested when it is told.
    pub fn add(&mut self, alloc: Global, number: u32, row: &ByteRecord) -> Result<(), SceneFault>
        ensures step { Gathers self.old self.new (gathered_with number self.old (fields_of row.now)) result }
        ensures kept { OnErr result (self.new.bodies ≡ self.old.bodies) }
    {
        match read_entry(number, row) {
            Ok(Entry::Body(body)) => self.add_body(number, &body),
            Ok(Entry::Move(step)) => self.add_move(alloc, number, &step),
            Ok(Entry::Pass) => self.end_pass(alloc, number),
            Err(fault) => Err(fault),
        }
    }

    /// Tests whether no two bodies were given one point. The fault names the first record that gives
    /// a body the point of an earlier one.
    pub fn test_points(&self, alloc: Global) -> Result<(), SceneFault>
        ensures { IsPointTest self.now.bodies result }
    {
        match &self.passing {
            None => self.gathering.test_points(alloc),
            Some(_) => Ok(()),
        }
    }

    /// The scene at the end of the file, whose number as one record more is told, where no two bodies
    /// were given one point.
    pub fn finish(self, alloc: Global, number: u32) -> Result<Scene, SceneFault>
        requires { AreApart (sites_of self.bodies) }
        ensures { Reads result (closed number self) }
    {
        let Reading { gathering, passing } = self;
        match passing {
            Some(passing) => passing.finish(alloc, number),
            None => Ok(Scene {
                bodies: gathering.finish(),
                passes: Passes::none(alloc),
            }),
        }
    }
}
