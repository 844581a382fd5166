//! The theorems of words that stand for bodies. Each is said of the words from a root word on, which
//! stands at a place and has a key: of a whole tree at place 0 with key 1, and of a part at the
//! place of the word that publishes it.

ghost use Rattle.std.specs.Prelude.{◌≡◌, ◌≢◌, ◌<◌, ◌≤◌, ◌↔◌, ◌+◌, [], ◌++◌, ◌∷◌, ℕ, length, slice_index, slice_set};
ghost use Rattle.octant_code.specs.declared.limits.TheConstants.{LEVELS};
ghost use Rattle.octant_code.specs.Space.{IsUnder};
ghost use Rattle.octant_code.specs.Points.{site_at};
ghost use Rattle.bh_model.specs.Bodies.{IsIn, NoneTwice};
ghost use Rattle.bh_model.specs.Trees.{octree, order};
ghost use Rattle.tree_rule.specs.Words.{IsReached, NamesBody, NamesCell, NamesNothing, at_of, body_word, cell_word, cells_from, tree_from};
ghost use Rattle.tree_rule.specs.Flat.{WordsStandAmid, WordsStandFor};
ghost use Rattle.tree_rule.specs.Standing.{IsPublished, WordsNameExactly};
ghost use Rattle.tree_rule.specs.Renumbered.{AreRenumbered, IsNumberOf, renumbered};

use octant_code::Points;

/// Flat gives canonical: words that stand for a list of bodies give the canonical octree of the
/// list.
pub fn flat_gives_canonical(points: &Points, words: &[u64], cells: &[u32], bodies: &[u32])
    requires stands { WordsStandFor points.now words.now 0 1 cells.now bodies.now }
    requires distinct { NoneTwice bodies.now }
    ensures { tree_from (at_of words.now) (LEVELS + 1) (at_of words.now 0) ≡ octree (site_at points.now) bodies.now }
{
    let _read = (points.len(), words.len(), cells.len(), bodies.len());
}

/// Words that stand for bodies, in whatever list, give the canonical octree of the bodies in the
/// tree order of the words' own tree.
pub fn flat_gives_own_order(points: &Points, words: &[u64], cells: &[u32], bodies: &[u32])
    requires { WordsStandFor points.now words.now 0 1 cells.now bodies.now }
    ensures { let tree = tree_from (at_of words.now) (LEVELS + 1) (at_of words.now 0) in tree ≡ octree (site_at points.now) (order tree) }
{
    let _read = (points.len(), words.len(), cells.len(), bodies.len());
}

/// Words name cells and bodies exactly, as one says it aloud, where they stand for the bodies by the
/// facts on single words and no cell number stands twice among the cells and the others.
pub fn exact_words_stand(
    points: &Points,
    words: &[u64],
    root: usize,
    base: u64,
    cells: &[u32],
    others: &[u32],
    bodies: &[u32],
)
    ensures { WordsNameExactly points.now words.now root base cells.now others.now bodies.now ↔ (WordsStandFor points.now words.now root base cells.now bodies.now × NoneTwice (cells.now ++ others.now)) }
{
    let _read = (points.len(), words.len(), cells.len(), bodies.len());
    let _other = (others.len(), root, base);
}

/// The cells with which words stand for bodies are those that are read from the root word on.
pub fn cells_are_those_read(
    points: &Points,
    words: &[u64],
    root: usize,
    base: u64,
    cells: &[u32],
    bodies: &[u32],
)
    requires base { 1 ≤ base }
    requires stands { WordsStandFor points.now words.now root base cells.now bodies.now }
    ensures { (c : ℕ) → IsIn cells.now c ↔ IsIn (cells_from (at_of words.now) (LEVELS + 1) (at_of words.now root)) c }
{
    let _read = (points.len(), words.len(), cells.len(), bodies.len());
    let _other = root;
}

/// Words that stand for bodies name exactly the cells that are read from the root word on, and the
/// bodies of their tree, beside other cell numbers, none of which is one of the cells.
pub fn words_name_what_is_read(
    points: &Points,
    words: &[u64],
    root: usize,
    base: u64,
    cells: &[u32],
    others: &[u32],
    bodies: &[u32],
)
    requires base { 1 ≤ base }
    requires stands { WordsStandFor points.now words.now root base cells.now bodies.now }
    requires once { NoneTwice others.now }
    requires apart { (c : ℕ) → IsIn cells.now c → IsIn others.now c → ⊥ }
    ensures { let top = at_of words.now root in WordsNameExactly points.now words.now root base (cells_from (at_of words.now) (LEVELS + 1) top) others.now (order (tree_from (at_of words.now) (LEVELS + 1) top)) }
{
    let _read = (points.len(), words.len(), cells.len(), bodies.len());
    let _other = (others.len(), root);
}

/// Words that stand amid some witnesses stand amid any that have these.
pub fn more_witnesses(
    points: &Points,
    words: &[u64],
    root: usize,
    base: u64,
    cells: &[u32],
    bodies: &[u32],
    witnesses: &[u32],
    all: &[u32],
)
    requires stands { WordsStandAmid points.now words.now root base cells.now bodies.now witnesses.now }
    requires more { (n : ℕ) → IsIn witnesses.now n → IsIn all.now n }
    ensures { WordsStandAmid points.now words.now root base cells.now bodies.now all.now }
{
    let _read = (points.len(), words.len(), cells.len(), bodies.len());
    let _other = (witnesses.len(), all.len(), root, base);
}

/// A published word that is empty becomes that of a body whose point lies under the word's key: the
/// words then stand for the bodies and that one.
pub fn body_in_empty_word(
    points: &Points,
    words: &[u64],
    root: usize,
    base: u64,
    cells: &[u32],
    others: &[u32],
    bodies: &[u32],
    key: u64,
    place: usize,
    n: u32,
)
    requires stands { WordsNameExactly points.now words.now root base cells.now others.now bodies.now }
    requires published { IsPublished (at_of words.now) root base cells.now key place }
    requires inside { place < length words.now }
    requires empty { NamesNothing (at_of words.now place) }
    requires under { IsUnder key (site_at points.now n) }
    ensures { WordsNameExactly points.now (slice_set words.now place (body_word n)) root base cells.now others.now (n ∷ bodies.now) }
{
    let _read = (points.len(), words.len(), cells.len(), bodies.len());
    let _other = (others.len(), root, base);
}

/// A published word that is empty becomes that of a cell which is not published. Once the word is
/// written it stands, with the cells below it, for other bodies of its cube. The words then stand
/// for the bodies of both, and the new cells are published and no longer among the others.
pub fn cell_in_empty_word(
    points: &Points,
    words: &[u64],
    root: usize,
    base: u64,
    cells: &[u32],
    others: &[u32],
    bodies: &[u32],
    key: u64,
    place: usize,
    c: u32,
    new_cells: &[u32],
    new_bodies: &[u32],
)
    requires stands { WordsNameExactly points.now words.now root base cells.now (new_cells.now ++ others.now) bodies.now }
    requires published { IsPublished (at_of words.now) root base cells.now key place }
    requires inside { place < length words.now }
    requires empty { NamesNothing (at_of words.now place) }
    requires part { WordsNameExactly points.now (slice_set words.now place (cell_word c)) place key new_cells.now [] new_bodies.now }
    ensures { WordsNameExactly points.now (slice_set words.now place (cell_word c)) root base (new_cells.now ++ cells.now) others.now (new_bodies.now ++ bodies.now) }
{
    let _read = (points.len(), words.len(), cells.len(), bodies.len());
    let _other = (others.len(), new_cells.len(), new_bodies.len(), root, base);
}

/// A published word that names a body becomes that of a cell which is not published. Once the word
/// is written it stands, with the cells below it, for that body and others of its cube. The words
/// then stand for the bodies and the others, and the new cells are published and no longer among
/// the others.
pub fn cell_over_body(
    points: &Points,
    words: &[u64],
    root: usize,
    base: u64,
    cells: &[u32],
    others: &[u32],
    bodies: &[u32],
    key: u64,
    place: usize,
    x: u32,
    c: u32,
    new_cells: &[u32],
    new_bodies: &[u32],
)
    requires stands { WordsNameExactly points.now words.now root base cells.now (new_cells.now ++ others.now) bodies.now }
    requires published { IsPublished (at_of words.now) root base cells.now key place }
    requires inside { place < length words.now }
    requires named { NamesBody (at_of words.now place) x }
    requires part { WordsNameExactly points.now (slice_set words.now place (cell_word c)) place key new_cells.now [] (x ∷ new_bodies.now) }
    ensures { WordsNameExactly points.now (slice_set words.now place (cell_word c)) root base (new_cells.now ++ cells.now) others.now (new_bodies.now ++ bodies.now) }
{
    let _read = (points.len(), words.len(), cells.len(), bodies.len());
    let _other = (others.len(), new_cells.len(), new_bodies.len(), root, base);
}

/// A published word that names a body becomes empty: the words then stand for the other bodies,
/// amid the same witnesses. The cells stay, though fewer bodies may be named below them than a cell
/// has in a whole tree.
pub fn body_out_of_word(
    points: &Points,
    words: &[u64],
    root: usize,
    base: u64,
    cells: &[u32],
    bodies: &[u32],
    others: &[u32],
    witnesses: &[u32],
    key: u64,
    place: usize,
    n: u32,
)
    requires stands { WordsStandAmid points.now words.now root base cells.now bodies.now witnesses.now }
    requires published { IsPublished (at_of words.now) root base cells.now key place }
    requires inside { place < length words.now }
    requires named { NamesBody (at_of words.now place) n }
    requires others { (m : ℕ) → IsIn others.now m ↔ (IsIn bodies.now m × (m ≢ n)) }
    ensures { WordsStandAmid points.now (slice_set words.now place 0) root base cells.now others.now witnesses.now }
{
    let _read = (points.len(), words.len(), cells.len(), bodies.len());
    let _other = (others.len(), witnesses.len(), root, base, key);
}

/// A published word that names a cell below which no body is named becomes empty: the words then
/// stand for the same bodies with the cells that are not read below the word, amid the same
/// witnesses.
pub fn empty_cell_out_of_word(
    points: &Points,
    words: &[u64],
    root: usize,
    base: u64,
    cells: &[u32],
    kept: &[u32],
    bodies: &[u32],
    witnesses: &[u32],
    key: u64,
    place: usize,
    c: u32,
)
    requires stands { WordsStandAmid points.now words.now root base cells.now bodies.now witnesses.now }
    requires published { IsPublished (at_of words.now) root base cells.now key place }
    requires inside { place < length words.now }
    requires named { NamesCell (at_of words.now place) c }
    requires empty { (n : ℕ) → IsReached (at_of words.now) (cell_word c) (body_word n) → ⊥ }
    requires kept { (d : ℕ) → IsIn kept.now d ↔ (IsIn cells.now d × (IsReached (at_of words.now) (cell_word c) (cell_word d) → ⊥)) }
    ensures { WordsStandAmid points.now (slice_set words.now place 0) root base kept.now bodies.now witnesses.now }
{
    let _read = (points.len(), words.len(), cells.len(), bodies.len());
    let _other = (kept.len(), witnesses.len(), root, base, key);
}

/// A published word that names a cell below which one body alone is named becomes that of the body:
/// the words then stand for the same bodies with the cells that are not read below the word, amid
/// the same witnesses.
pub fn last_body_for_cell(
    points: &Points,
    words: &[u64],
    root: usize,
    base: u64,
    cells: &[u32],
    kept: &[u32],
    bodies: &[u32],
    witnesses: &[u32],
    key: u64,
    place: usize,
    c: u32,
    x: u32,
)
    requires stands { WordsStandAmid points.now words.now root base cells.now bodies.now witnesses.now }
    requires published { IsPublished (at_of words.now) root base cells.now key place }
    requires inside { place < length words.now }
    requires named { NamesCell (at_of words.now place) c }
    requires last { (n : ℕ) → IsReached (at_of words.now) (cell_word c) (body_word n) ↔ (n ≡ x) }
    requires kept { (d : ℕ) → IsIn kept.now d ↔ (IsIn cells.now d × (IsReached (at_of words.now) (cell_word c) (cell_word d) → ⊥)) }
    ensures { WordsStandAmid points.now (slice_set words.now place (body_word x)) root base kept.now bodies.now witnesses.now }
{
    let _read = (points.len(), words.len(), cells.len(), bodies.len());
    let _other = (kept.len(), witnesses.len(), root, base, key);
}

/// Words in which each cell stands under another number stand for the same bodies with the cells of
/// the other numbers, amid the same witnesses. The list `numbers` has at each cell's number the
/// other.
pub fn cells_under_other_numbers(
    points: &Points,
    words: &[u64],
    after: &[u64],
    root: usize,
    after_root: usize,
    base: u64,
    cells: &[u32],
    after_cells: &[u32],
    bodies: &[u32],
    witnesses: &[u32],
    numbers: &[u32],
)
    requires stands { WordsStandAmid points.now words.now root base cells.now bodies.now witnesses.now }
    requires renumbered { AreRenumbered (at_of words.now) (at_of after.now) (IsIn cells.now) (slice_index numbers.now) }
    requires root { at_of after.now after_root ≡ renumbered (slice_index numbers.now) (at_of words.now root) }
    requires cells { (d : ℕ) → IsIn after_cells.now d ↔ IsNumberOf (slice_index numbers.now) (IsIn cells.now) d }
    ensures { WordsStandAmid points.now after.now after_root base after_cells.now bodies.now witnesses.now }
{
    let _read = (points.len(), words.len(), cells.len(), bodies.len());
    let _other = (
        after.len(),
        after_cells.len(),
        witnesses.len(),
        numbers.len(),
        base,
    );
}

/// The same where the words name cells and bodies exactly: they do so with the cells of the other
/// numbers, beside other cell numbers that are told now.
pub fn exactly_under_other_numbers(
    points: &Points,
    words: &[u64],
    after: &[u64],
    root: usize,
    after_root: usize,
    base: u64,
    cells: &[u32],
    after_cells: &[u32],
    others: &[u32],
    after_others: &[u32],
    bodies: &[u32],
    numbers: &[u32],
)
    requires stands { WordsNameExactly points.now words.now root base cells.now others.now bodies.now }
    requires renumbered { AreRenumbered (at_of words.now) (at_of after.now) (IsIn cells.now) (slice_index numbers.now) }
    requires root { at_of after.now after_root ≡ renumbered (slice_index numbers.now) (at_of words.now root) }
    requires cells { (d : ℕ) → IsIn after_cells.now d ↔ IsNumberOf (slice_index numbers.now) (IsIn cells.now) d }
    requires once { NoneTwice (after_cells.now ++ after_others.now) }
    ensures { WordsNameExactly points.now after.now after_root base after_cells.now after_others.now bodies.now }
{
    let _read = (points.len(), words.len(), cells.len(), bodies.len());
    let _other = (
        after.len(),
        after_cells.len(),
        others.len(),
        numbers.len(),
        base,
    );
}
