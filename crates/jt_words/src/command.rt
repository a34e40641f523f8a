//! What a command is asked to do.

use crate::ancestry::Ancestry;
use jt_base::{Limits, Seeds, Sizes};

/// What `run` or `trace` is to do.
#[derive(Clone, Copy, PartialEq, Eq, Debug)]
pub struct RunOptions {
    /// The numbers of workers: `--threads N,M`.
    pub sizes: Sizes,
    /// The seed words of the main task's stream: `--seed A,B,C,D,E`.
    pub seeds: Seeds,
    /// The number of the picks: `--picks P`.
    pub picks: u64,
    /// The limits of the run: `--max-turns T` and `--max-events E`.
    pub limits: Limits,
}

/// What `draws` is to do.
#[derive(Drop, Debug)]
pub struct DrawsOptions {
    /// The seed words of the main task's stream: `--seed A,B,C,D,E`.
    pub seeds: Seeds,
    /// How many draws are to be written, 1 to 1,000: `--count K`.
    pub count: u32,
    /// The ancestors of the task whose draws these are: `--path D:F,D:F`.
    pub ancestry: Ancestry,
}

/// What `gen` is to do.
#[derive(Clone, Copy, PartialEq, Eq, Debug)]
pub struct GenOptions {
    /// The size of the generated script, 1 to 80: `--size K`.
    pub size: u32,
    /// Whether the script alone is to be written: `--text`.
    pub text: bool,
}

/// What the words of a command line ask for.
#[derive(Drop, Debug)]
pub enum Command {
    /// To run a script and write its lines.
    Run(RunOptions),
    /// To run a script and write the trace of the run.
    Trace(RunOptions),
    /// To check a trace.
    Check,
    /// To write the first draws of a task's stream.
    Draws(DrawsOptions),
    /// To generate a script, and to write it or what its run writes.
    Gen(GenOptions),
}
