//! Where a worker may be held up.

/// Is asked by each worker at two points, and may let it wait there: a test holds workers back by
/// it. It tells nothing and changes nothing.
pub trait Gate: Sync {
    /// Asked before `worker` looks for a task, having done `slices` slices.
    fn before(&self, worker: u32, slices: u64);

    /// Asked once `worker` has taken a task, having done `slices` slices before it.
    fn begun(&self, worker: u32, slices: u64);
}

/// A gate that returns at once.
#[derive(Clone, Copy, PartialEq, Eq, Debug)]
pub struct OpenGate;

impl Gate for OpenGate {
    fn before(&self, _worker: u32, _slices: u64) {}

    fn begun(&self, _worker: u32, _slices: u64) {}
}
