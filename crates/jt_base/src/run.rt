//! What a run is given beside its script.

/// A pool of workers.
#[derive(Clone, Copy, PartialEq, Eq, Debug)]
pub enum Pool {
    Default,
    Interactive,
}

/// The limits of a run.
#[derive(Clone, Copy, PartialEq, Eq, Debug)]
pub struct Limits {
    /// The most turns of a task: 1 to 1,000,000,000.
    pub turns: u64,
    /// The greatest stamp of an entry: 1 to 262,144.
    pub events: u32,
}

/// The numbers of workers.
#[derive(Clone, Copy, PartialEq, Eq, Debug)]
pub struct Sizes {
    /// The workers of the default pool: 1 to 64.
    pub default: u32,
    /// The workers of the interactive pool: 0 to 16.
    pub interactive: u32,
}

/// The seed words: the main task's four words of xoshiro256++ and its fifth word, from which
/// spawned tasks' streams are forked.
#[derive(Clone, Copy, PartialEq, Eq, Debug)]
pub struct Seeds {
    pub words: [u64; 5],
}
