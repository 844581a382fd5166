//! A gate that notes when each worker is at work.

use build_gate::{Gate, GatePoint};
use std::sync::atomic::{AtomicU64, Ordering};
use std::time::{Clock, Instant};

/// When a worker came to its start, and when to its end, in nanoseconds.
#[derive(Drop)]
struct Spell {
    start: AtomicU64,
    end: AtomicU64,
}

impl Spell {
    fn new() -> Spell {
        Spell {
            start: AtomicU64::new(0),
            end: AtomicU64::new(0),
        }
    }

    /// How long the worker was at work.
    fn long(&self) -> u64 {
        let start = self.start.load(Ordering::SeqCst);
        self.end.load(Ordering::SeqCst).saturating_sub(start)
    }
}

/// A gate that notes of up to four workers how long each is at work. What others do is told of the fourth.
#[derive(Drop)]
pub struct NotingGate<'a, R> {
    rt: &'a R,
    begin: Instant,
    first: Spell,
    second: Spell,
    third: Spell,
    fourth: Spell,
}

impl<'a, R: Clock> NotingGate<'a, R> {
    /// A gate that nobody has passed, with the moment from which on it counts.
    pub fn new(rt: &'a R, begin: Instant) -> NotingGate<'a, R> {
        NotingGate {
            rt,
            begin,
            first: Spell::new(),
            second: Spell::new(),
            third: Spell::new(),
            fourth: Spell::new(),
        }
    }

    /// The nanoseconds that the worker took who was at work the longest.
    pub fn greatest(&self) -> u64 {
        let some = self.first.long().max(self.second.long());
        some.max(self.third.long()).max(self.fourth.long())
    }

    /// The nanoseconds that all workers took.
    pub fn all(&self) -> u64 {
        let some = self.first.long().saturating_add(self.second.long());
        some.saturating_add(self.third.long())
            .saturating_add(self.fourth.long())
    }

    /// The nanoseconds from the moment on.
    fn spent(&self) -> u64 {
        match self.begin.elapsed(self.rt) {
            Ok(time) => u64::try_from(time.as_nanos()).unwrap_or(u64::MAX),
            Err(_) => 0,
        }
    }

    /// What is noted of a worker.
    fn spell(&self, worker: u32) -> &Spell {
        match worker {
            0 => &self.first,
            1 => &self.second,
            2 => &self.third,
            _ => &self.fourth,
        }
    }
}

impl<R: Clock + Sync> Gate for NotingGate<'_, R> {
    fn pass(&self, worker: u32, point: GatePoint) {
        let spent = self.spent();
        match point {
            GatePoint::Start => self.spell(worker).start.store(spent, Ordering::SeqCst),
            GatePoint::AfterFirst => {}
            GatePoint::End => self.spell(worker).end.store(spent, Ordering::SeqCst),
        }
    }
}
