//! How a program sees to it that memory that is given back is kept.

use octant_code::OutOfMemory;
use std::alloc::Global;

/// How many words of 64 bits make a block just below 32 MiB, the greatest that the C library learns
/// from when it is given back.
const BLOCK_WORDS: usize = 4_190_000;

/// Takes one great block and gives it back, for speed alone: the block costs one touched page, and
/// from then on the C library keeps what is given back, up to twice that size, for the blocks that
/// come. Else each block of 128 KiB and more would be mapped anew and taken away at its end, and its
/// pages would have to be zeroed again each time.
///
/// # Errors
///
/// `OutOfMemory` for want of memory.
pub fn keep_blocks(alloc: Global) -> Result<(), OutOfMemory> {
    let mut block: Vec<u64> = Vec::with_capacity(alloc, BLOCK_WORDS)?;
    block.push(0)?;
    Ok(())
}
