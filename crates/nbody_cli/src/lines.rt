//! The lines of texts: words and numbers as data, and how they are put and written.

ghost use Rattle.std.specs.Prelude.{[], ◌∷◌, ◌++◌, codes, map};
ghost use Rattle.std.specs.List.{flat_map};
ghost use Rattle.bh_model.specs.Trees.{text};
ghost use Rattle.bh_outside.specs.Outside.{HasCause, Writes};
ghost use Rattle.bh_outside.specs.Text.{Puts};
ghost use Rattle.nbody_cli.specs.Lines.{item_text, items_text, line_start, line_text, lines_text, newline, number_text};
ghost use Rattle.nbody_cli.specs.Seen.{item_of, line_of};
ghost use Rattle.octree.specs.Stored.{tree_of};

use bh_outside::{Failed, Sink, TextBuffer};
use itoa::{Buffer, Integer};
use octree::Octree;

/// What stands in a line behind its first word, after a space.
#[derive(Clone, Copy)]
pub enum Item<'a> {
    /// A word.
    Word(&'a [u8]),
    /// A number in decimal.
    Number(u64),
    /// Numbers in decimal, each after a space.
    Numbers(&'a [u32]),
    /// A whole number in decimal, with a sign where it is negative.
    Signed(i128),
}

/// A line of a text.
#[derive(Clone, Copy)]
pub enum Line<'a> {
    /// The word `tree`, and the text of an octree.
    Tree(&'a Octree),
    /// A first word, and what stands behind it.
    Words(&'a [u8], &'a [Item<'a>]),
}

/// Puts a word after a space.
fn put_word<K: Sink>(word: &[u8], buffer: &mut TextBuffer, sink: &mut K) -> Result<(), Failed>
    ensures text { Puts (K.written sink.old) (K.written sink.new) buffer.old buffer.new (32 ∷ word.now) result }
    ensures cause { HasCause (K.faults sink.old) (K.faults sink.new) result }
{
    buffer.put_byte(sink, b' ')?;
    buffer.put(sink, word)
}

/// Puts a number in decimal, after a space.
fn put_number<I: Integer, K: Sink>(
    number: I,
    buffer: &mut TextBuffer,
    sink: &mut K,
) -> Result<(), Failed>
    ensures text { Puts (K.written sink.old) (K.written sink.new) buffer.old buffer.new (32 ∷ I.text number) result }
    ensures cause { HasCause (K.faults sink.old) (K.faults sink.new) result }
{
    let mut digits = Buffer::new();
    put_word(digits.format(number).as_bytes(), buffer, sink)
}

/// Puts numbers in decimal, each after a space.
fn put_numbers<K: Sink>(
    numbers: &[u32],
    buffer: &mut TextBuffer,
    sink: &mut K,
) -> Result<(), Failed>
    ensures text { Puts (K.written sink.old) (K.written sink.new) buffer.old buffer.new (flat_map number_text numbers.now) result }
    ensures cause { HasCause (K.faults sink.old) (K.faults sink.new) result }
{
    for number in numbers {
        match put_number(*number, buffer, sink) {
            Ok(()) => {}
            Err(failed) => return Err(failed),
        }
    }
    Ok(())
}

/// Puts an item of a line.
fn put_item<K: Sink>(item: &Item, buffer: &mut TextBuffer, sink: &mut K) -> Result<(), Failed>
    ensures text { Puts (K.written sink.old) (K.written sink.new) buffer.old buffer.new (item_text (item_of item.now)) result }
    ensures cause { HasCause (K.faults sink.old) (K.faults sink.new) result }
{
    match item {
        Item::Word(word) => put_word(word, buffer, sink),
        Item::Number(number) => put_number(*number, buffer, sink),
        Item::Numbers(numbers) => put_numbers(numbers, buffer, sink),
        Item::Signed(number) => put_number(*number, buffer, sink),
    }
}

/// Puts the items of a line.
fn put_items<K: Sink>(items: &[Item], buffer: &mut TextBuffer, sink: &mut K) -> Result<(), Failed>
    ensures text { Puts (K.written sink.old) (K.written sink.new) buffer.old buffer.new (items_text (map item_of items.now)) result }
    ensures cause { HasCause (K.faults sink.old) (K.faults sink.new) result }
{
    for item in items {
        match put_item(item, buffer, sink) {
            Ok(()) => {}
            Err(failed) => return Err(failed),
        }
    }
    Ok(())
}

/// Puts the word `tree` and the text of an octree.
fn put_tree<K: Sink>(tree: &Octree, buffer: &mut TextBuffer, sink: &mut K) -> Result<(), Failed>
    ensures text { Puts (K.written sink.old) (K.written sink.new) buffer.old buffer.new (codes "tree " ++ text (tree_of tree.now)) result }
    ensures cause { HasCause (K.faults sink.old) (K.faults sink.new) result }
{
    buffer.put(sink, b"tree ")?;
    tree.put_text(buffer, sink)
}

/// Puts a first word and what stands behind it.
fn put_words<K: Sink>(
    word: &[u8],
    items: &[Item],
    buffer: &mut TextBuffer,
    sink: &mut K,
) -> Result<(), Failed>
    ensures text { Puts (K.written sink.old) (K.written sink.new) buffer.old buffer.new (word.now ++ items_text (map item_of items.now)) result }
    ensures cause { HasCause (K.faults sink.old) (K.faults sink.new) result }
{
    buffer.put(sink, word)?;
    put_items(items, buffer, sink)
}

/// Puts a line up to its newline.
fn put_start<K: Sink>(line: &Line, buffer: &mut TextBuffer, sink: &mut K) -> Result<(), Failed>
    ensures text { Puts (K.written sink.old) (K.written sink.new) buffer.old buffer.new (line_start (line_of line.now)) result }
    ensures cause { HasCause (K.faults sink.old) (K.faults sink.new) result }
{
    match line {
        Line::Tree(tree) => put_tree(tree, buffer, sink),
        Line::Words(word, items) => put_words(word, items, buffer, sink),
    }
}

/// Puts a line.
pub fn put_line<K: Sink>(line: &Line, buffer: &mut TextBuffer, sink: &mut K) -> Result<(), Failed>
    ensures text { Puts (K.written sink.old) (K.written sink.new) buffer.old buffer.new (line_text (line_of line.now)) result }
    ensures cause { HasCause (K.faults sink.old) (K.faults sink.new) result }
{
    put_start(line, buffer, sink)?;
    buffer.put_byte(sink, b'\n')
}

/// Puts lines one after another.
pub fn put_lines<K: Sink>(
    lines: &[Line],
    buffer: &mut TextBuffer,
    sink: &mut K,
) -> Result<(), Failed>
    ensures text { Puts (K.written sink.old) (K.written sink.new) buffer.old buffer.new (lines_text (map line_of lines.now)) result }
    ensures cause { HasCause (K.faults sink.old) (K.faults sink.new) result }
{
    for line in lines {
        match put_line(line, buffer, sink) {
            Ok(()) => {}
            Err(failed) => return Err(failed),
        }
    }
    Ok(())
}

/// Writes lines one after another.
pub fn write_lines<K: Sink>(sink: &mut K, lines: &[Line]) -> Result<(), Failed>
    ensures text { Writes (K.written sink.old) (K.written sink.new) (lines_text (map line_of lines.now)) result }
    ensures cause { HasCause (K.faults sink.old) (K.faults sink.new) result }
{
    let mut buffer = TextBuffer::new();
    put_lines(lines, &mut buffer, sink)?;
    buffer.finish(sink)
}
