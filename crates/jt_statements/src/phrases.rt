//! The rules of blocks, macros and statements.

ghost use Rattle.std.specs.Prelude.{◌≡◌};

use crate::readers::Readers;
use jt_expressions::Rules;
use std::alloc::Global;

/// The rules inside as many openers as are open, for all that stands between two separators of a
/// block.
#[derive(Clone, Copy)]
pub(crate) struct Phrases<N> {
    /// The rules of expressions that are no block and no macro.
    pub(crate) rules: Rules<N>,
}

impl<F, G> Phrases<Readers<F, G>> {
    /// The rules where `depth` more openers may be open, no list has more than `turns` parts, and
    /// these functions read an expression and a statement inside one more opener.
    pub(crate) fn new(
        alloc: Global,
        turns: usize,
        depth: usize,
        expression: F,
        statement: G,
    ) -> Self
        ensures { result ≡ record { rules = record { alloc = alloc; turns = turns; depth = depth; nested = record { expression = expression; statement = statement } } } }
    {
        let nested = Readers {
            expression,
            statement,
        };
        let rules = Rules {
            alloc,
            turns,
            depth,
            nested,
        };
        Phrases { rules }
    }
}
