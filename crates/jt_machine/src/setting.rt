//! What a run is given.

use jt_base::{Limits, Seeds, Sizes};
use jt_program::Program;
use std::alloc::Global;

/// What all tasks of a run have in common.
#[derive(Drop)]
pub(crate) struct Setting<'p> {
    pub alloc: Global,
    pub program: &'p Program,
    pub seeds: Seeds,
    pub sizes: Sizes,
    pub limits: Limits,
}
