//! A whole program.

use crate::code::Code;
use sqlite_items::Items;

/// A function of the script, or a task's body. The first of its variables are a function's
/// parameters, or what the task takes from its maker.
#[derive(Drop)]
pub struct Body {
    /// How many variables it has, those of its loops apart.
    pub variables: usize,
    pub code: Code,
}

/// A script with its names bound.
#[derive(Drop)]
pub struct Program {
    /// How many constants it has. They are numbered from 0 in the order of the script.
    pub constants: usize,
    /// The functions, in the order of the script.
    pub functions: Items<Body>,
    /// The task bodies by number. The main task's has the number 0.
    pub tasks: Items<Body>,
}
