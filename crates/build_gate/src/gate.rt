//! What a gate is, and the gate that does nothing.

/// Where a worker stands when it passes a gate.
#[derive(Clone, Copy, Debug, PartialEq, Eq)]
pub enum GatePoint {
    /// Before its first piece of work.
    Start,
    /// After its first insertion, its first part that was merged, its first piece that was built, or the
    /// pull on its first body.
    AfterFirst,
    /// When its work is done.
    End,
}

/// What workers pass on their way, so that a caller can see where they are or hold them up. A gate is
/// shared by all workers, and is told nothing of the tree.
///
/// A worker passes `Start`, then `AfterFirst`, then `End`; one that has no work passes `Start` and
/// `End` alone.
pub trait Gate: Sync {
    /// Lets worker `worker`, from 0, pass at a point. It returns, and waits for nobody without a limit.
    fn pass(&self, worker: u32, point: GatePoint);
}

/// The gate that does nothing.
#[derive(Clone, Copy, Debug, Drop)]
pub struct OpenGate;

impl Gate for OpenGate {
    fn pass(&self, _worker: u32, _point: GatePoint) {}
}
