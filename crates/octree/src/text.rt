//! The text of a tree.

ghost use Rattle.std.specs.Prelude.{◌≡◌, ◌∷◌, decimal};
ghost use Rattle.bh_outside.specs.Outside.{HasCause};
ghost use Rattle.bh_outside.specs.Text.{Puts};
ghost use Rattle.bh_model.specs.Trees.{text};
ghost use Rattle.octree.specs.Spot.{tree_under};
ghost use Rattle.octree.specs.Subtree.{IsCellAt};

use crate::subtree::{CellAt, Subtree, Top};
use bh_outside::{Failed, Sink, TextBuffer};
use itoa::Buffer;

/// Puts the text of one body: `b` and its number.
#[inline]
fn put_body<K: Sink>(n: u32, buffer: &mut TextBuffer, sink: &mut K) -> Result<(), Failed>
    ensures text { Puts (K.written sink.old) (K.written sink.new) buffer.old buffer.new (98 ∷ decimal n) result }
    ensures cause { HasCause (K.faults sink.old) (K.faults sink.new) result }
{
    match buffer.put_byte(sink, b'b') {
        Ok(()) => {
            let mut digits = Buffer::new();
            buffer.put(sink, digits.format(n).as_bytes())
        }
        Err(failed) => Err(failed),
    }
}

#[cycle(put)]
#[inline(always)]
/// Puts the text of a subtree. It is compiled into the loop over the children of a cell, so that
/// only cells are called for.
pub fn put_tree<K: Sink>(at: Subtree, buffer: &mut TextBuffer, sink: &mut K) -> Result<(), Failed>
    ensures text { Puts (K.written sink.old) (K.written sink.new) buffer.old buffer.new (text (tree_under at.entry)) result }
    ensures cause { HasCause (K.faults sink.old) (K.faults sink.new) result }
{
    match at.top() {
        Top::Nothing => buffer.put_byte(sink, b'.'),
        Top::Body(n) => put_body(n, buffer, sink),
        Top::Cell(cell) => put_cell(cell, buffer, sink),
    }
}

#[cycle(put)]
/// Puts the text of a cell: those of its children in brackets.
fn put_cell<K: Sink>(cell: CellAt, buffer: &mut TextBuffer, sink: &mut K) -> Result<(), Failed>
    requires cell { IsCellAt cell cell }
    ensures text { Puts (K.written sink.old) (K.written sink.new) buffer.old buffer.new (text (tree_under cell.entry)) result }
    ensures cause { HasCause (K.faults sink.old) (K.faults sink.new) result }
{
    match buffer.put_byte(sink, b'(') {
        Ok(()) => {}
        Err(failed) => return Err(failed),
    }
    for k in 0..8 {
        match put_tree(cell.child(k), buffer, sink) {
            Ok(()) => {}
            Err(failed) => return Err(failed),
        }
    }
    buffer.put_byte(sink, b')')
}
