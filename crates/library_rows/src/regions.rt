//! Regions of free cells.

use crate::plain::numbers_below;
use cell_pool::Region;
use octant_code::OutOfMemory;
use octree::CellNo;
use std::alloc::Global;
use std::test::Fail;

#[test]
fn cells_are_taken_and_given_back_at_the_end(rt: HostRuntime) -> Result<(), Fail> {
    let mut region = Region::of([4, 7, 9].to_vec(rt.alloc())?);
    assert_eq!(rt; region.len(), 3);
    assert_eq!(rt; region.take(), CellNo(9));
    region.give(CellNo(2));
    let mut tail = region.split_off(2)?;
    assert_eq!(rt; tail.room(), 2);
    assert_eq!(rt; region.room(), 3);
    assert_eq!(rt; tail.take(), CellNo(2));
    assert_eq!(rt; tail.take(), CellNo(7));
    assert_eq!(rt; region.take(), CellNo(4));
    assert!(rt; region.is_empty());
    Ok(())
}

/// The region of the cells below a count.
fn first_cells(alloc: Global, count: u32) -> Result<Region, OutOfMemory> {
    Ok(Region::of(numbers_below(alloc, count)?))
}

#[test]
fn a_region_of_a_thousand_cells_is_split(rt: HostRuntime) -> Result<(), Fail> {
    let mut region = first_cells(rt.alloc(), 1000)?;
    assert_eq!(rt; region.len(), 1000);
    let tail = region.split_off(600)?;
    assert_eq!(rt; tail.len(), 600);
    assert_eq!(rt; region.len(), 400);
    region.spend(150);
    assert_eq!(rt; region.rest().first(), Some(&150));
    assert_eq!(rt; region.room(), 850);
    Ok(())
}
