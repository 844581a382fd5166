//! The lines of a frame.

ghost use Rattle.std.specs.Prelude.{◌≡◌, [], ◌∷◌, ◌++◌, length};
ghost use Rattle.bh_model.specs.Trees.{cell_count, depth};
ghost use Rattle.bh_outside.specs.Outside.{HasCause, Writes};
ghost use Rattle.bh_outside.specs.Text.{Puts};
ghost use Rattle.frame_core.specs.Engines.{HasTree, WithFrame, WithTree, frame_of};
ghost use Rattle.nbody_cli.specs.Frames.{body_line, body_lines, cells_line, cost_line, frame_lines, head_lines, met_line, pass_lines, pieces_lines, push_line, shape_name, size_lines, summary_lines, told_lines, told_of, tree_lines, trial_line, trial_lines, update_lines, zone_line, zone_lines};
ghost use Rattle.nbody_cli.specs.Lines.{Word, line_text, lines_text};
ghost use Rattle.nbody_cli.specs.Seen.{item_of};
ghost use Rattle.octree.specs.Stored.{tree_of};

use crate::lines::{Item, Line, put_line, put_lines};
use bh_model::{Pull, UpdateCounts};
use bh_outside::{Failed, Sink, TextBuffer};
use frame_core::Engine;
use nbody_options::Options;
use octant_code::Point;
use octree::{Extent, Octree};
use probe::Frame;
use scene_file::Shape;

/// Puts the line of how large a tree is.
fn put_cells<K: Sink>(
    cells: u32,
    depth: u32,
    buffer: &mut TextBuffer,
    sink: &mut K,
) -> Result<(), Failed>
    ensures text { Puts (K.written sink.old) (K.written sink.new) buffer.old buffer.new (line_text (cells_line cells depth)) result }
    ensures cause { HasCause (K.faults sink.old) (K.faults sink.new) result }
{
    let items = [
        Item::Number(cells as u64),
        Item::Word(b"depth"),
        Item::Number(depth as u64),
    ];
    put_line(&Line::Words(b"cells", &items), buffer, sink)
}

/// What a builder tells of a tree: of how many pieces SPACE made it, and the counts of UPDATE's update.
#[derive(Clone, Copy)]
pub struct Told {
    pub pieces: Option<u32>,
    pub update: Option<UpdateCounts>,
}

/// What the builder of an engine tells of the tree of its bodies.
fn told_of(engine: &Engine) -> Told
    requires { HasTree engine.now.stage }
    ensures { result ≡ told_of engine.now }
{
    Told {
        pieces: engine.pieces(),
        update: engine.update_counts(),
    }
}

/// Puts the first lines of the frame of a number: the number, the tree, and how large that is.
fn put_size<K: Sink>(
    step: u32,
    tree: &Octree,
    size: Extent,
    buffer: &mut TextBuffer,
    sink: &mut K,
) -> Result<(), Failed>
    requires cells { size.cells ≡ cell_count (tree_of tree.now) }
    requires levels { size.depth ≡ depth (tree_of tree.now) }
    ensures text { Puts (K.written sink.old) (K.written sink.new) buffer.old buffer.new (lines_text (size_lines step (tree_of tree.now))) result }
    ensures cause { HasCause (K.faults sink.old) (K.faults sink.new) result }
{
    let step = [Item::Number(step as u64)];
    put_line(&Line::Words(b"frame", &step), buffer, sink)?;
    put_line(&Line::Tree(tree), buffer, sink)?;
    put_cells(size.cells, size.depth, buffer, sink)
}

/// Puts the line of the number of pieces, where the builder tells of any.
fn put_pieces<K: Sink>(
    pieces: Option<u32>,
    buffer: &mut TextBuffer,
    sink: &mut K,
) -> Result<(), Failed>
    ensures text { Puts (K.written sink.old) (K.written sink.new) buffer.old buffer.new (lines_text (pieces_lines pieces)) result }
    ensures cause { HasCause (K.faults sink.old) (K.faults sink.new) result }
{
    match pieces {
        Some(count) => {
            let count = [Item::Number(count as u64)];
            put_lines(&[Line::Words(b"pieces", &count)], buffer, sink)
        }
        None => put_lines(&[], buffer, sink),
    }
}

/// Puts the line of the counts of an update, where the builder tells of one.
fn put_update<K: Sink>(
    update: Option<UpdateCounts>,
    buffer: &mut TextBuffer,
    sink: &mut K,
) -> Result<(), Failed>
    ensures text { Puts (K.written sink.old) (K.written sink.new) buffer.old buffer.new (lines_text (update_lines update)) result }
    ensures cause { HasCause (K.faults sink.old) (K.faults sink.new) result }
{
    match update {
        Some(counts) => {
            let counts = [
                Item::Word(b"left"),
                Item::Number(counts.left as u64),
                Item::Word(b"freed"),
                Item::Number(counts.freed as u64),
                Item::Word(b"taken"),
                Item::Number(counts.taken as u64),
            ];
            put_lines(&[Line::Words(b"update", &counts)], buffer, sink)
        }
        None => put_lines(&[], buffer, sink),
    }
}

/// Puts the lines of what a builder tells.
fn put_told<K: Sink>(told: Told, buffer: &mut TextBuffer, sink: &mut K) -> Result<(), Failed>
    ensures text { Puts (K.written sink.old) (K.written sink.new) buffer.old buffer.new (lines_text (told_lines told)) result }
    ensures cause { HasCause (K.faults sink.old) (K.faults sink.new) result }
{
    put_pieces(told.pieces, buffer, sink)?;
    put_update(told.update, buffer, sink)
}

/// Puts the lines of a builder, and that of the cost of all bodies and the greatest of a zone.
fn put_costs<K: Sink>(
    told: Told,
    frame: &Frame,
    buffer: &mut TextBuffer,
    sink: &mut K,
) -> Result<(), Failed>
    ensures text { Puts (K.written sink.old) (K.written sink.new) buffer.old buffer.new (lines_text (told_lines told ++ (cost_line frame.now ∷ []))) result }
    ensures cause { HasCause (K.faults sink.old) (K.faults sink.new) result }
{
    put_told(told, buffer, sink)?;
    let cost = [
        Item::Number(frame.cost),
        Item::Word(b"greatest"),
        Item::Number(frame.greatest),
    ];
    put_lines(&[Line::Words(b"cost", &cost)], buffer, sink)
}

/// Puts the lines at the head of a frame whose tree is so large.
fn put_head<K: Sink>(
    tree: &Octree,
    size: Extent,
    told: Told,
    frame: &Frame,
    buffer: &mut TextBuffer,
    sink: &mut K,
) -> Result<(), Failed>
    requires cells { size.cells ≡ cell_count (tree_of tree.now) }
    requires levels { size.depth ≡ depth (tree_of tree.now) }
    ensures text { Puts (K.written sink.old) (K.written sink.new) buffer.old buffer.new (lines_text (head_lines (tree_of tree.now) told frame.now)) result }
    ensures cause { HasCause (K.faults sink.old) (K.faults sink.new) result }
{
    put_size(frame.step, tree, size, buffer, sink)?;
    put_costs(told, frame, buffer, sink)
}

/// Puts the line of a worker's zone.
fn put_zone<K: Sink>(
    w: u32,
    bodies: &[u32],
    buffer: &mut TextBuffer,
    sink: &mut K,
) -> Result<(), Failed>
    ensures text { Puts (K.written sink.old) (K.written sink.new) buffer.old buffer.new (line_text (zone_line w bodies.now)) result }
    ensures cause { HasCause (K.faults sink.old) (K.faults sink.new) result }
{
    let items = [Item::Number(w as u64), Item::Numbers(bodies)];
    put_line(&Line::Words(b"zone", &items), buffer, sink)
}

/// Puts the line of a body.
fn put_body<K: Sink>(
    n: u32,
    at: Point,
    pull: &Pull,
    buffer: &mut TextBuffer,
    sink: &mut K,
) -> Result<(), Failed>
    ensures text { Puts (K.written sink.old) (K.written sink.new) buffer.old buffer.new (line_text (body_line n at pull.now)) result }
    ensures cause { HasCause (K.faults sink.old) (K.faults sink.new) result }
{
    let items = [
        Item::Number(n as u64),
        Item::Word(b"at"),
        Item::Number(at.x as u64),
        Item::Number(at.y as u64),
        Item::Number(at.z as u64),
        Item::Word(b"pull"),
        Item::Signed(pull.ax),
        Item::Signed(pull.ay),
        Item::Signed(pull.az),
        Item::Word(b"met"),
        Item::Number(pull.met as u64),
    ];
    put_line(&Line::Words(b"acc", &items), buffer, sink)
}

/// Puts a line for the zone of each worker.
fn put_zones<K: Sink>(engine: &Engine, buffer: &mut TextBuffer, sink: &mut K) -> Result<(), Failed>
    requires { engine.now.stage ≡ WithFrame }
    ensures text { Puts (K.written sink.old) (K.written sink.new) buffer.old buffer.new (lines_text (zone_lines engine.now)) result }
    ensures cause { HasCause (K.faults sink.old) (K.faults sink.new) result }
{
    let workers = engine.workers();
    for w in 0..workers {
        match put_zone(w, engine.zone(w), buffer, sink) {
            Ok(()) => {}
            Err(failed) => return Err(failed),
        }
    }
    Ok(())
}

/// Puts a line for each body.
fn put_bodies<K: Sink>(
    engine: &Engine,
    bodies: u32,
    buffer: &mut TextBuffer,
    sink: &mut K,
) -> Result<(), Failed>
    requires frame { engine.now.stage ≡ WithFrame }
    requires bodies { bodies ≡ length engine.now.bodies }
    ensures text { Puts (K.written sink.old) (K.written sink.new) buffer.old buffer.new (lines_text (body_lines engine.now)) result }
    ensures cause { HasCause (K.faults sink.old) (K.faults sink.new) result }
{
    for n in 0..bodies {
        match put_body(n, engine.point(n), &engine.pull_of(n), buffer, sink) {
            Ok(()) => {}
            Err(failed) => return Err(failed),
        }
    }
    Ok(())
}

/// Puts a line for the zone of each worker, and a line for each body.
fn put_rows<K: Sink>(
    engine: &Engine,
    bodies: u32,
    buffer: &mut TextBuffer,
    sink: &mut K,
) -> Result<(), Failed>
    requires frame { engine.now.stage ≡ WithFrame }
    requires bodies { bodies ≡ length engine.now.bodies }
    ensures text { Puts (K.written sink.old) (K.written sink.new) buffer.old buffer.new (lines_text (zone_lines engine.now ++ body_lines engine.now)) result }
    ensures cause { HasCause (K.faults sink.old) (K.faults sink.new) result }
{
    put_zones(engine, buffer, sink)?;
    put_bodies(engine, bodies, buffer, sink)
}

/// Puts the lines of an engine's frame.
fn put_frame<K: Sink>(
    engine: &Engine,
    frame: &Frame,
    buffer: &mut TextBuffer,
    sink: &mut K,
) -> Result<(), Failed>
    requires frame { engine.now.stage ≡ WithFrame }
    requires figures { frame.now ≡ frame_of engine.now }
    ensures text { Puts (K.written sink.old) (K.written sink.new) buffer.old buffer.new (lines_text (frame_lines engine.now)) result }
    ensures cause { HasCause (K.faults sink.old) (K.faults sink.new) result }
{
    let tree = engine.octree();
    let size = Extent {
        cells: frame.cells,
        depth: engine.depth(),
    };
    put_head(tree, size, told_of(engine), frame, buffer, sink)?;
    put_rows(engine, frame.bodies, buffer, sink)
}

/// Writes the lines of an engine's frame.
pub fn write_frame<K: Sink>(sink: &mut K, engine: &Engine, frame: &Frame) -> Result<(), Failed>
    requires frame { engine.now.stage ≡ WithFrame }
    requires figures { frame.now ≡ frame_of engine.now }
    ensures text { Writes (K.written sink.old) (K.written sink.new) (lines_text (frame_lines engine.now)) result }
    ensures cause { HasCause (K.faults sink.old) (K.faults sink.new) result }
{
    let mut buffer = TextBuffer::new();
    put_frame(engine, frame, &mut buffer, sink)?;
    buffer.finish(sink)
}

/// Puts the lines of the tree of an engine.
fn put_tree<K: Sink>(engine: &Engine, buffer: &mut TextBuffer, sink: &mut K) -> Result<(), Failed>
    requires { engine.now.stage ≡ WithTree }
    ensures text { Puts (K.written sink.old) (K.written sink.new) buffer.old buffer.new (lines_text (tree_lines engine.now)) result }
    ensures cause { HasCause (K.faults sink.old) (K.faults sink.new) result }
{
    put_line(&Line::Tree(engine.octree()), buffer, sink)?;
    put_told(told_of(engine), buffer, sink)
}

/// Writes the lines of the tree of an engine.
pub fn write_tree<K: Sink>(sink: &mut K, engine: &Engine) -> Result<(), Failed>
    requires { engine.now.stage ≡ WithTree }
    ensures text { Writes (K.written sink.old) (K.written sink.new) (lines_text (tree_lines engine.now)) result }
    ensures cause { HasCause (K.faults sink.old) (K.faults sink.new) result }
{
    let mut buffer = TextBuffer::new();
    put_tree(engine, &mut buffer, sink)?;
    buffer.finish(sink)
}

/// Puts the lines of a frame of passes.
fn put_pass<K: Sink>(engine: &Engine, buffer: &mut TextBuffer, sink: &mut K) -> Result<(), Failed>
    requires { engine.now.stage ≡ WithTree }
    ensures text { Puts (K.written sink.old) (K.written sink.new) buffer.old buffer.new (lines_text (pass_lines engine.now)) result }
    ensures cause { HasCause (K.faults sink.old) (K.faults sink.new) result }
{
    let tree = engine.octree();
    put_size(engine.step(), tree, engine.extent(), buffer, sink)?;
    put_told(told_of(engine), buffer, sink)
}

/// Writes the lines of a frame of passes.
pub fn write_pass<K: Sink>(sink: &mut K, engine: &Engine) -> Result<(), Failed>
    requires { engine.now.stage ≡ WithTree }
    ensures text { Writes (K.written sink.old) (K.written sink.new) (lines_text (pass_lines engine.now)) result }
    ensures cause { HasCause (K.faults sink.old) (K.faults sink.new) result }
{
    let mut buffer = TextBuffer::new();
    put_pass(engine, &mut buffer, sink)?;
    buffer.finish(sink)
}

/// The name of a shape.
fn shape_word<'a>(shape: Shape) -> Item<'a>
    ensures { item_of result ≡ Word (shape_name shape) }
{
    match shape {
        Shape::Uniform => Item::Word(b"uniform"),
        Shape::Corner => Item::Word(b"corner"),
    }
}

/// Puts the line of what a trial made and ran.
fn put_made<K: Sink>(options: &Options, buffer: &mut TextBuffer, sink: &mut K) -> Result<(), Failed>
    ensures text { Puts (K.written sink.old) (K.written sink.new) buffer.old buffer.new (line_text (trial_line options.now.made options.now.steps)) result }
    ensures cause { HasCause (K.faults sink.old) (K.faults sink.new) result }
{
    let items = [
        Item::Number(options.made.count as u64),
        Item::Word(b"seed"),
        Item::Number(options.made.seed),
        Item::Word(b"shape"),
        shape_word(options.made.shape),
        Item::Word(b"steps"),
        Item::Number(options.steps as u64),
    ];
    put_line(&Line::Words(b"trial", &items), buffer, sink)
}

/// Puts the line of the cost of all bodies, the greatest of a zone, and the terms of all pulls.
fn put_met<K: Sink>(frame: &Frame, buffer: &mut TextBuffer, sink: &mut K) -> Result<(), Failed>
    ensures text { Puts (K.written sink.old) (K.written sink.new) buffer.old buffer.new (line_text (met_line frame.now)) result }
    ensures cause { HasCause (K.faults sink.old) (K.faults sink.new) result }
{
    let items = [
        Item::Number(frame.cost),
        Item::Word(b"greatest"),
        Item::Number(frame.greatest),
        Item::Word(b"met"),
        Item::Number(frame.met),
    ];
    put_line(&Line::Words(b"cost", &items), buffer, sink)
}

/// Puts the line of the sums of mass times acceleration.
fn put_push<K: Sink>(frame: &Frame, buffer: &mut TextBuffer, sink: &mut K) -> Result<(), Failed>
    ensures text { Puts (K.written sink.old) (K.written sink.new) buffer.old buffer.new (line_text (push_line frame.now)) result }
    ensures cause { HasCause (K.faults sink.old) (K.faults sink.new) result }
{
    let items = [
        Item::Signed(frame.push_x),
        Item::Signed(frame.push_y),
        Item::Signed(frame.push_z),
    ];
    put_line(&Line::Words(b"push", &items), buffer, sink)
}

/// Puts the lines of a trial, by the depth and the figures of its last frame.
fn put_summary<K: Sink>(
    options: &Options,
    depth: u32,
    frame: &Frame,
    buffer: &mut TextBuffer,
    sink: &mut K,
) -> Result<(), Failed>
    ensures text { Puts (K.written sink.old) (K.written sink.new) buffer.old buffer.new (lines_text (summary_lines options.now.made options.now.steps depth frame.now)) result }
    ensures cause { HasCause (K.faults sink.old) (K.faults sink.new) result }
{
    put_made(options, buffer, sink)?;
    put_cells(frame.cells, depth, buffer, sink)?;
    put_met(frame, buffer, sink)?;
    put_push(frame, buffer, sink)
}

/// Writes the lines of a trial whose last frame is an engine's.
pub fn write_trial<K: Sink>(
    sink: &mut K,
    options: &Options,
    engine: &Engine,
    frame: &Frame,
) -> Result<(), Failed>
    requires stage { engine.now.stage ≡ WithFrame }
    requires figures { frame.now ≡ frame_of engine.now }
    ensures text { Writes (K.written sink.old) (K.written sink.new) (lines_text (trial_lines options.now.made options.now.steps engine.now)) result }
    ensures cause { HasCause (K.faults sink.old) (K.faults sink.new) result }
{
    let mut buffer = TextBuffer::new();
    put_summary(options, engine.depth(), frame, &mut buffer, sink)?;
    buffer.finish(sink)
}
