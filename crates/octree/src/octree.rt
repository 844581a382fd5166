//! The octree of bodies.

use crate::assemble::{copy_parts, make_places};
use crate::chain::{Cube, cells_of_words, part_two, words_of_cells};
use crate::descend::{find_place, word_of_key};
use crate::extent::{Extent, extent_of};
use crate::free::{mark_cells, unmarked};
use crate::node::{CellNo, Node, node_of};
use crate::order::push_order;
use crate::ranks::{body_of, ranks_of};
use crate::subtree::Subtree;
use crate::text::put_tree;
use bh_outside::{Failed, Sink, TextBuffer};
use octant_code::{LEVELS, OutOfMemory, Points, key_at, level_of};
use std::alloc::Global;
use std::marker::Model;
use tree_rule::{
    CELLS_OF_ONE, MOST_CELLS, Named, named_by, place_of_child, word_of_body, word_of_cell,
};

/// How many cells a tree of many points begins with at least.
const FIRST_CELLS: u32 = 1024;

/// The octree of the bodies of a cube, kept in words: the word that names the root, two words that
/// are not used, and for each cell the words of its eight children, its key and its lock. A word is
/// 0 for nothing, 2n + 1 for body n, and 2c + 2 for cell c (Barnes and Hut, Nature 324, 1986; the
/// words are this project's own). The words that are not used and the locks are 0: only builders of
/// shared trees write them.
///
/// The words of the spare cells are room in the list that is not written yet.
///
/// Contracts see it as `Stored`: the words of its used cells, the key and the level of its cube, and
/// how many of its cells are used and held.
#[derive(Drop)]
pub struct Octree {
    words: Vec<u64>,
    base: u64,
    level: u32,
    used: u32,
    held: u32,
}

impl Model for Octree {
    ghost use Rattle.std.specs.Prelude.{◌≤◌, vec_capacity};
    ghost use Rattle.octree.specs.Stored.{Stored, IsStored, word_count};

    ghost Value = { Stored };

    ghost view = { λ a. record { words = a.words.items; base = a.base; level = a.level; used = a.used; held = a.held } };

    ghost invariant = { λ a. IsStored (record { words = a.words.items; base = a.base; level = a.level; used = a.used; held = a.held }) × (word_count a.held ≤ vec_capacity a.words) };
}

impl Octree {
    ghost use Rattle.std.specs.Prelude.{◌≡◌, ◌+◌, ◌-◌, ◌*◌, ◌<◌, ◌≤◌, ◌↔◌, ℕ, List, [], IfOk, OnOk, OnErr, length};
    ghost use Rattle.octant_code.specs.Prefixes.{IsKeyOfLevel};
    ghost use Rattle.octant_code.specs.Space.{Site, IsKey, IsUnder};
    ghost use Rattle.octant_code.specs.Points.{site_at};
    ghost use Rattle.bh_model.specs.Bodies.{IsIn, NoneTwice, numbers};
    ghost use Rattle.bh_model.specs.Trees.{cell_count, depth, octree_from, order, text};
    ghost use Rattle.bh_outside.specs.Outside.{HasCause, Writes};
    ghost use Rattle.bh_outside.specs.Text.{Puts};
    ghost use Rattle.tree_rule.specs.Words.{at_of, child_place, HasBody};
    ghost use Rattle.tree_rule.specs.Standing.{WordsNameExactly};
    ghost use Rattle.octree.specs.ByKeys.{AreParts, IsAssembled};
    ghost use Rattle.octree.specs.Free.{AreFreeCells};
    ghost use Rattle.octree.specs.Node.{IsNodeOf};
    ghost use Rattle.octree.specs.Numbers.{IsNumberOf};
    ghost use Rattle.octree.specs.Stored.{AreOctreeWords, IsBlankFrom, IsCanonical, IsInserted, IsOctreeOf, IsRoomier, IsStored, all_used, all_words, cells_of, full_tree, root_word, spare_of, tree_of, word_count};
    ghost use Rattle.octree.specs.Spot.{IsCellUnder, IsReachable, tree_under};
    ghost use Rattle.bh_model.specs.Trees.{height};

    /// The empty tree of the whole cube, with spare cells: at most 1,376,256.
    pub fn empty(alloc: Global, cells: u32) -> Result<Octree, OutOfMemory>
        requires { cells ≤ MOST_CELLS }
        ensures base { IfOk result (λ t. t.base ≡ 1) }
        ensures level { IfOk result (λ t. t.level ≡ 0) }
        ensures used { IfOk result (λ t. t.used ≡ 0) }
        ensures held { IfOk result (λ t. t.held ≡ cells) }
        ensures empty { IfOk result (λ t. root_word t ≡ 0) }
    {
        Octree::with_cube(alloc, 1, 0, cells)
    }

    /// The empty tree of the cube of a key, with spare cells: at most 1,376,256.
    pub fn under(alloc: Global, key: u64, cells: u32) -> Result<Octree, OutOfMemory>
        requires key { IsKey key }
        requires cells { cells ≤ MOST_CELLS }
        ensures base { IfOk result (λ t. t.base ≡ key) }
        ensures level { IfOk result (λ t. IsKeyOfLevel t.level key) }
        ensures used { IfOk result (λ t. t.used ≡ 0) }
        ensures held { IfOk result (λ t. t.held ≡ cells) }
        ensures empty { IfOk result (λ t. root_word t ≡ 0) }
    {
        Octree::with_cube(alloc, key, level_of(key), cells)
    }

    /// The empty tree of a cube, by its key and its level.
    fn with_cube(alloc: Global, key: u64, level: u32, cells: u32) -> Result<Octree, OutOfMemory>
        requires key { IsKeyOfLevel level key }
        requires shallow { level ≤ LEVELS }
        requires cells { cells ≤ MOST_CELLS }
        ensures base { IfOk result (λ t. t.base ≡ key) }
        ensures level { IfOk result (λ t. t.level ≡ level) }
        ensures used { IfOk result (λ t. t.used ≡ 0) }
        ensures held { IfOk result (λ t. t.held ≡ cells) }
        ensures empty { IfOk result (λ t. root_word t ≡ 0) }
    {
        let mut words = Vec::with_capacity(alloc, words_of_cells(cells))?;
        words.resize(words_of_cells(0), 0)?;
        Ok(Octree {
            words,
            base: key,
            level,
            used: 0,
            held: cells,
        })
    }

    /// The key of the tree's cube.
    pub fn base(&self) -> u64
        ensures value { result ≡ self.now.base }
        ensures key { IsKeyOfLevel self.now.level result }
    {
        self.base
    }

    /// How many cells the octree has, reachable or not, the spare ones among them. The numbers of its
    /// cells are below.
    pub fn held(&self) -> u32
        ensures value { result ≡ self.now.held }
        ensures rule { IsStored self.now }
    {
        self.held
    }

    /// The words of a tree of the whole cube, those of its spare cells too, which are 0. It takes no
    /// memory.
    ///
    /// Made a tree again by `of_words`, they are this tree, its spare cells counted as used.
    pub fn into_words(self) -> Vec<u64>
        requires { self.base ≡ 1 }
        ensures words { result.items ≡ all_words self }
        ensures count { length result.items ≡ word_count self.held }
        ensures rule { IsStored self }
        ensures of_words { AreOctreeWords result.items }
        ensures spare { IsBlankFrom result.items self.used }
        ensures tree { full_tree result.items ≡ all_used self }
    {
        let Octree {
            mut words,
            held,
            ..
        } = self;
        match words.resize(words_of_cells(held), 0) {
            Ok(()) => words,
            Err(_) => unreachable!(),
        }
    }

    /// The tree of the whole cube that has the words, each cell with the number that it has there. It
    /// has no spare cell, and takes no memory.
    pub fn of_words(words: Vec<u64>) -> Octree
        requires { AreOctreeWords words.items }
        ensures tree { result ≡ full_tree words.items }
        ensures count { length words.items ≡ word_count result.held }
        ensures full { spare_of result ≡ 0 }
    {
        let held = cells_of_words(words.len());
        Octree {
            words,
            base: 1,
            level: 0,
            used: held,
            held,
        }
    }

    /// The same tree without its spare cells. It takes no memory.
    pub fn without_spare(self) -> Octree
        ensures { result ≡ record self { held = self.used } }
    {
        Octree {
            held: self.used,
            ..self
        }
    }

    /// How many cells are used, reachable or not. The numbers of the cells that can be reached are
    /// below.
    pub fn used(&self) -> u32
        ensures value { result ≡ self.now.used }
        ensures cells { (c : ℕ) → IsReachable self.now c → c < result }
    {
        self.used
    }

    /// How many cells are spare.
    pub fn spare(&self) -> u32
        ensures { result ≡ spare_of self.now }
    {
        self.held - self.used
    }

    /// The node at the root.
    pub fn root(&self) -> Node
        ensures { IsNodeOf (root_word self.now) result }
    {
        node_of(self.words[0])
    }

    /// The word at a place.
    #[inline]
    pub(crate) fn word_at(&self, place: usize) -> u64
        requires { place < word_count self.now.used }
        ensures { result ≡ at_of self.now.words place }
    {
        self.words[place]
    }

    /// The whole octree as a subtree.
    pub fn whole(&self) -> Subtree<'_>
        ensures rule { IsStored self.now }
        ensures octree { result.octree ≡ self.now }
        ensures tree { tree_under result ≡ tree_of self.now }
        ensures height { height (tree_under result) ≤ LEVELS }
        ensures cells { (c : ℕ) → IsReachable self.now c → IsCellUnder result c }
        ensures reached { (c : ℕ) → IsCellUnder result c → IsReachable self.now c }
        ensures bodies { (n : ℕ) → IsIn (order (tree_of self.now)) n ↔ HasBody self.now.words n }
    {
        Subtree {
            octree: self,
            word: self.words[0],
        }
    }

    /// The node at child `k`, 0 to 7, of a cell that can be reached.
    pub fn child(&self, c: CellNo, k: u32) -> Node
        requires reachable { IsReachable self.now c.0 }
        requires octant { k < 8 }
        ensures { IsNodeOf (at_of self.now.words (child_place c.0 k)) result }
    {
        node_of(self.words[place_of_child(c.0, k)])
    }

    /// The cell that can be reached and has a key, and `None` exactly where there is none. Any number
    /// may be asked for. It takes no memory.
    pub fn number_of(&self, key: u64) -> Option<CellNo>
        ensures { IsNumberOf self.now key result }
    {
        let Some(word) = word_of_key(&self.words, self.base, key) else {
            return None;
        };
        let Named::Cell(cell) = named_by(word) else {
            return None;
        };
        Some(CellNo(cell))
    }

    /// Inserts body `n`, which takes at most 21 of the spare cells and no memory.
    pub fn insert(&mut self, points: &Points, n: u32)
        requires room { CELLS_OF_ONE ≤ spare_of self.old }
        requires n_in { n < length points.now }
        requires under { IsUnder self.old.base (site_at points.now n) }
        requires canonical { IsCanonical points.now self.old }
        requires fresh { HasBody self.old.words n → ⊥ }
        ensures canonical { IsCanonical points.now self.new }
        ensures inserted { IsInserted n self.old self.new }
    {
        let _rule = points.len();
        let end = find_place(&self.words, self.level, points, n);
        match end.body {
            None => self.words[end.place] = word_of_body(n),
            Some(x) => {
                let cube = Cube {
                    key: key_at(points.at(n), end.level),
                    level: end.level,
                };
                let next = part_two(&mut self.words, self.used, points, x, n, cube);
                self.words[end.place] = word_of_cell(self.used);
                self.used = next;
            }
        }
    }

    /// Makes room for at least `cells` spare cells, and for as many again as are held, so that a tree
    /// that grows one body at a time takes memory only a few times.
    pub fn reserve(&mut self, cells: u32) -> Result<(), OutOfMemory>
        requires { self.old.used + cells ≤ MOST_CELLS }
        ensures room { OnOk result (cells ≤ spare_of self.new) }
        ensures stays { IsRoomier self.old self.new }
        ensures refused { OnErr result (self.new ≡ self.old) }
    {
        if cells <= self.held - self.used {
            return Ok(());
        }
        let held = MOST_CELLS.min((self.used + cells).max(2 * self.held));
        let more = words_of_cells(held) - self.words.len();
        self.words.reserve_exact(more)?;
        self.held = held;
        Ok(())
    }

    /// A tree that is canonical at points is the canonical octree of any list of its bodies: of those
    /// of its cube, from the level of its cube on.
    pub fn canonical_tree(&self, points: &Points)
        requires canonical { IsCanonical points.now self.now }
        ensures rule { IsStored self.now }
        ensures tree { (bodies : List ℕ) → NoneTwice bodies → ((m : ℕ) → IsIn (order (tree_of self.now)) m ↔ IsIn bodies m) → tree_of self.now ≡ octree_from (site_at points.now) (LEVELS - self.now.level) self.now.level bodies }
    {
        let _read = (self.held, points.len());
    }

    /// The words of a tree that is canonical at points name exactly the cells that can be reached and
    /// the bodies of its order, each in its cube.
    pub fn names_exactly(&self, points: &Points)
        requires canonical { IsCanonical points.now self.now }
        ensures { WordsNameExactly points.now self.now.words 0 self.now.base (cells_of self.now) [] (order (tree_of self.now)) }
    {
        let _read = (self.held, points.len());
    }

    /// The octree of the whole cube with all bodies of some octrees, which have bodies, and whose cubes
    /// stand in tree order, none in another. Its cells stand by the parts' base keys: those above them
    /// come first, and then those of each part in turn. Each cell of the parts is read once.
    pub fn assembled(
        alloc: Global,
        points: &Points,
        parts: &[Octree],
    ) -> Result<Octree, OutOfMemory>
        requires parts { AreParts points.now parts.now }
        ensures { IfOk result (IsAssembled points.now parts.now) }
    {
        let _rule = points.len();
        let mut words = Vec::with_capacity(alloc, words_of_cells(0))?;
        words.resize(words_of_cells(0), 0)?;
        let places = make_places(alloc, &mut words, points, parts)?;
        copy_parts(&mut words, &places, points, parts)?;
        let count = cells_of_words(words.len());
        Ok(Octree {
            words,
            base: 1,
            level: 0,
            used: count,
            held: count,
        })
    }

    /// The canonical octree of all points of a list, each body by its point's number, made by
    /// inserting one body after another. They come in the order of their points' Morton keys, so
    /// that cells lie in memory much as walks through the tree meet them.
    pub fn of_points(alloc: Global, points: &Points) -> Result<Octree, OutOfMemory>
        ensures { IfOk result (λ t. IsOctreeOf points.now t) }
    {
        let count = points.len();
        let ranks = ranks_of(alloc, points)?;
        let first = count.max(FIRST_CELLS.min(CELLS_OF_ONE * count));
        let mut tree = Octree::empty(alloc, first)?;
        for rank in &ranks {
            tree.reserve(CELLS_OF_ONE)?;
            tree.insert(points, body_of(*rank));
        }
        tree.canonical_tree(points);
        Ok(tree)
    }

    /// How large the tree is: how many cells can be reached, and the greatest level of a word that
    /// names a body.
    pub fn extent(&self) -> Extent
        ensures numbers { result.cells ≡ length (cells_of self.now) }
        ensures tree { result.cells ≡ cell_count (tree_of self.now) }
        ensures depth { result.depth ≡ depth (tree_of self.now) }
    {
        extent_of(self.whole(), 0)
    }

    /// How many cells can be reached.
    pub fn cells(&self) -> u32
        ensures numbers { result ≡ length (cells_of self.now) }
        ensures tree { result ≡ cell_count (tree_of self.now) }
    {
        self.extent().cells
    }

    /// The numbers of the cells that it holds and that can't be reached, the lowest first.
    pub fn free_cells(&self, alloc: Global) -> Result<Vec<u32>, OutOfMemory>
        ensures { IfOk result (λ v. AreFreeCells self.now v.items) }
    {
        let held = self.held();
        let mut marks = vec![in alloc; false; held as usize]?;
        mark_cells(self.whole(), &mut marks);
        unmarked(alloc, &marks, held)
    }

    /// The greatest level of a word that names a body, counted from the root's word, which is of level
    /// 0; and 0 where the tree has no body.
    pub fn depth(&self) -> u32
        ensures { result ≡ depth (tree_of self.now) }
    {
        self.extent().depth
    }

    /// The bodies in tree order: those of child 0 first, then those of child 1, and so on.
    pub fn order(&self, alloc: Global) -> Result<Vec<u32>, OutOfMemory>
        ensures { IfOk result (λ v. v.items ≡ order (tree_of self.now)) }
    {
        let mut bodies = Vec::new(alloc);
        push_order(self.whole(), &mut bodies)?;
        Ok(bodies)
    }

    /// Puts the text of the tree behind the bytes that wait in a buffer. It takes no memory.
    ///
    /// # Errors
    ///
    /// `Failed` only where the sink's count of faults rose.
    pub fn put_text<K: Sink>(&self, buffer: &mut TextBuffer, sink: &mut K) -> Result<(), Failed>
        ensures text { Puts (K.written sink.old) (K.written sink.new) buffer.old buffer.new (text (tree_of self.now)) result }
        ensures cause { HasCause (K.faults sink.old) (K.faults sink.new) result }
    {
        put_tree(self.whole(), buffer, sink)
    }

    /// Writes the text of the tree: `.` for no body, `b` and the number for one, and for a cell the
    /// texts of its children 0 to 7 in brackets. It takes no memory.
    ///
    /// # Errors
    ///
    /// `Failed` only where the sink's count of faults rose. A prefix of the text is written then.
    pub fn write_text<K: Sink>(&self, out: &mut K) -> Result<(), Failed>
        ensures text { Writes (K.written out.old) (K.written out.new) (text (tree_of self.now)) result }
        ensures cause { HasCause (K.faults out.old) (K.faults out.new) result }
    {
        let mut buffer = TextBuffer::new();
        match self.put_text(&mut buffer, out) {
            Ok(()) => buffer.finish(out),
            Err(failed) => Err(failed),
        }
    }
}
