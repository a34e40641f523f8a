//! The limits of scripts and of their runs.

use crate::run::Limits;

/// The most bytes of a script.
pub const MOST_SCRIPT: usize = 1_048_576;

/// The most openers of a script that may be open at once.
pub const MOST_OPEN: usize = 200;

/// The most calls of a task that may be open at once.
pub const MOST_CALLS: u32 = 10_000;

/// The limits of a run for which no others are chosen.
pub const DEFAULT_LIMITS: Limits = Limits {
    turns: 100_000_000,
    events: 262_144,
};
