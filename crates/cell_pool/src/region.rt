//! Lists of free cells.

use octant_code::OutOfMemory;
use octree::CellNo;
use std::marker::Model;

/// Numbers of cells that are free, each once, with room for as many as it began with. Single numbers
/// are taken and given back at the end of the list. Several are used at once from its front: `rest`
/// shows them, and `spend` gives up as many as were used, once they are.
///
/// Contracts see it as `Free`: its cells and its room.
#[derive(Debug, Drop)]
pub struct Region {
    list: Vec<u32>,
    // how many at the front of the list were spent
    spent: usize,
    room: usize,
}

impl Model for Region {
    ghost use Rattle.std.specs.Prelude.{◌+◌, ◌≤◌, drop, length, vec_capacity};
    ghost use Rattle.cell_pool.specs.Free.{Free, IsRegion};

    ghost Value = { Free };

    ghost view = { λ r. record { cells = drop r.spent r.list.items; room = r.room } };

    ghost invariant = { λ r. IsRegion (record { cells = drop r.spent r.list.items; room = r.room }) × (r.spent ≤ length r.list.items) × (r.spent + r.room ≤ vec_capacity r.list) };
}

impl Region {
    ghost use Rattle.std.specs.Prelude.{◌≡◌, ◌==◌, ◌<◌, ◌≤◌, ◌-◌, [], ◌∷◌, ◌++◌, ◌+◌, ◌^◌, IfOk, OnErr, OnOk, drop, length, take};
    ghost use Rattle.bh_model.specs.Bodies.{IsIn, NoneTwice};
    ghost use Rattle.cell_pool.specs.Free.{ends_of, IsRegion, Splits, SplitsEnds};

    /// The region of a list of distinct numbers, which it takes over. Its room is the list's length.
    pub fn of(list: Vec<u32>) -> Region
        requires { NoneTwice list.items }
        ensures cells { result.cells ≡ list.items }
        ensures room { result.room ≡ length list.items }
    {
        let room = list.len();
        Region {
            list,
            spent: 0,
            room,
        }
    }

    /// Takes the last cell.
    pub fn take(&mut self) -> CellNo
        requires { 0 < length self.old.cells }
        ensures cells { self.old.cells ≡ self.new.cells ++ (result.0 ∷ []) }
        ensures room { self.new.room ≡ self.old.room }
    {
        match self.list.pop() {
            Some(number) => CellNo(number),
            None => unreachable!(),
        }
    }

    /// Gives a cell back, which becomes the last. It takes no memory.
    pub fn give(&mut self, c: CellNo)
        requires absent { IsIn self.old.cells c.0 → ⊥ }
        requires room { length self.old.cells < self.old.room }
        ensures cells { self.new.cells ≡ self.old.cells ++ (c.0 ∷ []) }
        ensures room { self.new.room ≡ self.old.room }
    {
        match self.list.push(c.0) {
            Ok(()) => {}
            Err(_) => unreachable!(),
        }
    }

    /// Parts off the last `n` cells into a region of their own, with room for them. This one keeps
    /// its room.
    pub fn split_off(&mut self, n: usize) -> Result<Region, OutOfMemory>
        requires { n ≤ length self.old.cells }
        ensures split { IfOk result (Splits self.old self.new n) }
        ensures refused { OnErr result (self.new ≡ self.old) }
    {
        let from = self.list.len() - n;
        match self.list.split_off(from) {
            Ok(list) => Ok(Region {
                list,
                spent: 0,
                room: n,
            }),
            Err(_) => Err(OutOfMemory),
        }
    }

    /// Takes room for `n` more cells.
    pub fn reserve(&mut self, n: usize) -> Result<(), OutOfMemory>
        requires { self.old.room + n < 2 ^ 64 }
        ensures room { OnOk result (self.new ≡ record self.old { room = self.old.room + n }) }
        ensures refused { OnErr result (self.new ≡ self.old) }
    {
        let room = self.room + n;
        let cells = self.list.len() - self.spent;
        self.list.reserve_exact(room - cells)?;
        self.room = room;
        Ok(())
    }

    /// Parts off the first `front` cells, and after them the last `back`, into a region of their own, with
    /// room for them and for `more` others. This one keeps the cells between them, and its room without
    /// that.
    pub fn split_ends(
        &mut self,
        front: usize,
        back: usize,
        more: usize,
    ) -> Result<Region, OutOfMemory>
        requires cells { front + back ≤ length self.old.cells }
        requires room { length self.old.cells + more ≤ self.old.room }
        ensures split { IfOk result (SplitsEnds self.old self.new front back more) }
        ensures refused { OnErr result (self.new ≡ self.old) }
    {
        let _rule = (self.len(), self.room());
        let list = self.ends(front, back)?;
        let mut ends = Region::of(list);
        ends.reserve(more)?;
        self.cut(back, more);
        self.spend(front);
        Ok(ends)
    }

    // A copy of the first `front` cells and the last `back`.
    fn ends(&self, front: usize, back: usize) -> Result<Vec<u32>, OutOfMemory>
        requires { front + back ≤ length self.now.cells }
        ensures { IfOk result (λ v. v.items ≡ ends_of front back self.now.cells) }
    {
        let cells = self.rest();
        let mut list = Vec::with_capacity(*self.list.allocator(), front + back)?;
        list.extend_from_slice(&cells[..front])?;
        list.extend_from_slice(&cells[cells.len() - back..])?;
        Ok(list)
    }

    // Gives up the last `n` cells, and the room for them and for `more` others.
    fn cut(&mut self, n: usize, more: usize)
        requires cells { n ≤ length self.old.cells }
        requires room { length self.old.cells + more ≤ self.old.room }
        ensures cells { self.new.cells ≡ take (length self.old.cells - n) self.old.cells }
        ensures room { self.new.room ≡ self.old.room - (n + more) }
    {
        let place = self.list.len() - n;
        self.list.truncate(place);
        self.room -= n + more;
    }

    /// The cells, to be used from the front.
    pub fn rest(&self) -> &[u32]
        ensures { result.now ≡ self.now.cells }
    {
        &self.list[self.spent..]
    }

    /// Gives up the first `n` cells, which were used, and the room for them.
    pub fn spend(&mut self, n: usize)
        requires { n ≤ length self.old.cells }
        ensures cells { self.new.cells ≡ drop n self.old.cells }
        ensures room { self.new.room ≡ self.old.room - n }
    {
        self.spent += n;
        self.room -= n;
    }

    /// How many cells there are.
    pub fn len(&self) -> usize
        ensures value { result ≡ length self.now.cells }
        ensures rule { IsRegion self.now }
    {
        self.list.len() - self.spent
    }

    /// Whether there is no cell.
    pub fn is_empty(&self) -> bool
        ensures { result ≡ (length self.now.cells == 0) }
    {
        self.list.len() == self.spent
    }

    /// How many cells there is room for.
    pub fn room(&self) -> usize
        ensures { result ≡ self.now.room }
    {
        self.room
    }
}
