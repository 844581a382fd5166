//! The gate at which two workers meet.

use crate::gate::{Gate, GatePoint};
use std::sync::atomic::{AtomicU64, Ordering};

/// How often a worker looks for the other.
const LOOKS: u32 = 1 << 30;

/// A gate at which two workers meet: at `AfterFirst` each of them looks until the other has come to
/// `AfterFirst` too, at most 2^30 times, and then notes that they missed each other. The other workers
/// pass. Two workers can only meet where both are at work at the same time.
#[derive(Debug, Drop)]
pub struct MeetGate {
    first: Comer,
    second: Comer,
    missed: AtomicU64,
}

/// One of the two workers, and whether it has come: 1, else 0.
#[derive(Debug, Drop)]
struct Comer {
    worker: u32,
    came: AtomicU64,
}

impl Comer {
    fn new(worker: u32) -> Comer {
        Comer {
            worker,
            came: AtomicU64::new(0),
        }
    }
}

impl MeetGate {
    /// The gate of two workers, by their numbers. It takes no memory.
    pub fn new(a: u32, b: u32) -> MeetGate {
        MeetGate {
            first: Comer::new(a),
            second: Comer::new(b),
            missed: AtomicU64::new(0),
        }
    }

    /// Whether one of the two workers looked 2^30 times in vain.
    pub fn missed(&self) -> bool {
        self.missed.load(Ordering::SeqCst) > 0
    }

    // One of the two has come, and looks for the other.
    fn meet(&self, one: &Comer, other: &Comer) {
        one.came.store(1, Ordering::SeqCst);
        for _ in 0..LOOKS {
            if other.came.load(Ordering::SeqCst) > 0 {
                return;
            }
        }
        self.missed.store(1, Ordering::SeqCst);
    }
}

impl Gate for MeetGate {
    fn pass(&self, worker: u32, point: GatePoint) {
        if point != GatePoint::AfterFirst {
            return;
        }
        if worker == self.first.worker {
            self.meet(&self.first, &self.second);
        } else if worker == self.second.worker {
            self.meet(&self.second, &self.first);
        }
    }
}
