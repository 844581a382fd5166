//! A gate that tells when the first worker came to its start, and when the last one ended.

use build_gate::{Gate, GatePoint};
use std::sync::atomic::{AtomicU64, Ordering};
use std::time::{Clock, Instant};

/// A gate that notes the nanoseconds from a moment to the first `Start`, and to the last `End`.
#[derive(Drop)]
pub struct NotingGate<'a, R> {
    rt: &'a R,
    begin: Instant,
    first: AtomicU64,
    last: AtomicU64,
}

impl<'a, R: Clock> NotingGate<'a, R> {
    /// A gate that nobody has passed.
    pub fn new(rt: &'a R, begin: Instant) -> NotingGate<'a, R> {
        NotingGate {
            rt,
            begin,
            first: AtomicU64::new(0),
            last: AtomicU64::new(0),
        }
    }

    /// The nanoseconds to the first `Start`.
    pub fn first(&self) -> u64 {
        self.first.load(Ordering::SeqCst)
    }

    /// The nanoseconds to the last `End`.
    pub fn last(&self) -> u64 {
        self.last.load(Ordering::SeqCst)
    }

    /// The nanoseconds from the moment on.
    fn spent(&self) -> u64 {
        match self.begin.elapsed(self.rt) {
            Ok(time) => u64::try_from(time.as_nanos()).unwrap_or(u64::MAX),
            Err(_) => 0,
        }
    }
}

impl<R: Clock + Sync> Gate for NotingGate<'_, R> {
    fn pass(&self, _worker: u32, point: GatePoint) {
        let spent = self.spent();
        match point {
            GatePoint::Start => {
                let _noted = self
                    .first
                    .compare_exchange(0, spent, Ordering::SeqCst, Ordering::SeqCst);
            }
            GatePoint::AfterFirst => {}
            GatePoint::End => self.last.store(spent, Ordering::SeqCst),
        }
    }
}
