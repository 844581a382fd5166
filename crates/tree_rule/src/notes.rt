//! What a pass over a shared tree may note of its words, and the theorem that notes stay true.

ghost use Rattle.std.specs.Prelude.{◌<◌, ◌≡◌, ◌++◌, ℕ, length, slice_set};
ghost use Rattle.bh_model.specs.Bodies.{IsIn};
ghost use Rattle.tree_rule.specs.Words.{NamesBody, NamesCell, at_of};
ghost use Rattle.tree_rule.specs.Standing.{IsPublished};
ghost use Rattle.tree_rule.specs.Notes.{AreLater, HasNamed, IsPublishedAs};

/// A note that a cell is published with a key.
#[derive(Clone, Copy, Debug, PartialEq, Eq)]
pub struct CellNote {
    pub cell: u32,
    pub key: u64,
}

/// A note that the word at a place is published and named a body.
#[derive(Clone, Copy, Debug, PartialEq, Eq)]
pub struct BodyNote {
    pub place: usize,
    pub body: u32,
}

/// Notes stay true while words go on: a published cell stays published with its key, and a
/// published word that named a body is published, and names it still or names a cell.
pub fn notes_stay(
    words: &[u64],
    later: &[u64],
    cells: &[u32],
    later_cells: &[u32],
    cell: CellNote,
    body: BodyNote,
)
    requires later { AreLater (at_of words.now) (at_of later.now) 0 1 (IsIn cells.now) (IsIn later_cells.now) }
    requires cell { IsPublishedAs (at_of words.now) (IsIn cells.now) cell.cell cell.key }
    requires body { HasNamed (at_of words.now) 0 1 (IsIn cells.now) body.place body.body }
    ensures cell { IsPublishedAs (at_of later.now) (IsIn later_cells.now) cell.cell cell.key }
    ensures body { HasNamed (at_of later.now) 0 1 (IsIn later_cells.now) body.place body.body }
{
    let _read = (words.len(), later.len(), cells.len(), later_cells.len());
}

/// Words go on where one published word is changed that names no cell, and becomes that of a cell
/// where it named a body.
pub fn publication_goes_on(
    words: &[u64],
    cells: &[u32],
    new_cells: &[u32],
    key: u64,
    place: usize,
    w: u64,
)
    requires published { IsPublished (at_of words.now) 0 1 cells.now key place }
    requires inside { place < length words.now }
    requires no_cell { (c : ℕ) → NamesCell (at_of words.now place) c → ⊥ }
    requires next { (n : ℕ) → NamesBody (at_of words.now place) n → (c : ℕ) × NamesCell w c }
    ensures { AreLater (at_of words.now) (at_of (slice_set words.now place w)) 0 1 (IsIn cells.now) (IsIn (new_cells.now ++ cells.now)) }
{
    let _read = (words.len(), cells.len(), new_cells.len());
}
