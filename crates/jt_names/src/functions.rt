//! The functions of a script.

use jt_syntax::Identifier;

/// A function of the script: its name, and how many parameters it has.
#[derive(Drop)]
pub struct Signature {
    pub name: Identifier,
    pub parameters: usize,
}
