//! The shares in which the workers build the first tree.

ghost use Rattle.std.specs.Prelude.{◌≡◌, [], IfOk, map, replicate};
ghost use Rattle.bh_model.specs.Plans.{HasWorkers};
ghost use Rattle.build_workers.specs.Shares.{AreShares};
ghost use Rattle.frame_core.specs.Shares.{first_shares};

use octant_code::OutOfMemory;
use std::alloc::Global;

/// A share for each worker: body `n` of `count` is in share `n * workers / count`.
pub fn first_shares(alloc: Global, workers: u32, count: u32) -> Result<Vec<Vec<u32>>, OutOfMemory>
    requires { HasWorkers workers }
    ensures lists { IfOk result (λ s. map (λ z. z.items) s.items ≡ first_shares workers count) }
    ensures shares { IfOk result (λ s. AreShares count (map (λ z. z.items) s.items)) }
{
    let mut shares = no_shares(alloc, workers)?;
    for n in 0..count {
        let own = u64::from(n) * u64::from(workers) / u64::from(count);
        shares[own as usize].push(n)?;
    }
    Ok(shares)
}

/// A share with no body for each worker.
fn no_shares(alloc: Global, workers: u32) -> Result<Vec<Vec<u32>>, OutOfMemory>
    ensures { IfOk result (λ s. map (λ z. z.items) s.items ≡ replicate workers []) }
{
    let mut shares = Vec::with_capacity(alloc, workers as usize)?;
    for _ in 0..workers {
        shares.push(Vec::new(alloc))?;
    }
    Ok(shares)
}
