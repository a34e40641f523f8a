//! From a tree to the kinds of its tokens.

ghost use Rattle.jt_syntax.specs.Tree as tree;
ghost use Rattle.jt_syntax.specs.declared.token.Sign.TheVariants as sign;
ghost use Rattle.jt_grammar.specs.Printed.{◌⁀◌, mark, word, quoted, truth_kinds, of_int64, pool_kinds, schedule_kinds, tree_kinds};
ghost use Rattle.jt_printer.specs.Kinds.{Adds};

use crate::memory::OutOfMemory;
use jt_syntax::{Identifier, PoolName, Schedule, Sign, TokenKind};
use sqlite_items::Items;
use std::alloc::Global;

/// The kinds of the tokens that are written so far.
#[derive(Drop)]
pub(crate) struct Kinds {
    pub alloc: Global,
    pub kinds: Vec<TokenKind>,
}

// Single tokens, and the forms with no expression in them.
impl Kinds {
    pub(crate) fn sign(&mut self, sign: Sign) -> Result<(), OutOfMemory>
        ensures { Adds (mark sign) self.old.kinds.items result self.new.kinds.items }
    {
        self.kinds.push(TokenKind::Sign(sign))?;
        Ok(())
    }

    pub(crate) fn word(&mut self, name: &[u8]) -> Result<(), OutOfMemory>
        ensures { Adds (word name.now) self.old.kinds.items result self.new.kinds.items }
    {
        let name = Items::from_slice(self.alloc, name)?;
        self.kinds.push(TokenKind::Name(name))?;
        Ok(())
    }

    pub(crate) fn name(&mut self, identifier: &Identifier) -> Result<(), OutOfMemory>
        ensures { Adds (word identifier.now.name) self.old.kinds.items result self.new.kinds.items }
    {
        self.word(identifier.name.as_slice())
    }

    pub(crate) fn number(&mut self, value: u64) -> Result<(), OutOfMemory>
        ensures { Adds (tree_kinds (tree.number value)) self.old.kinds.items result self.new.kinds.items }
    {
        self.kinds.push(TokenKind::Number(value))?;
        Ok(())
    }

    pub(crate) fn text(&mut self, text: &Items<u8>) -> Result<(), OutOfMemory>
        ensures { Adds (quoted text.now) self.old.kinds.items result self.new.kinds.items }
    {
        let text = Items::from_slice(self.alloc, text.as_slice())?;
        self.kinds.push(TokenKind::Text(text))?;
        Ok(())
    }

    pub(crate) fn truth(&mut self, value: bool) -> Result<(), OutOfMemory>
        ensures { Adds (truth_kinds value) self.old.kinds.items result self.new.kinds.items }
    {
        self.sign(if value { Sign::True } else { Sign::False })
    }

    pub(crate) fn interpolation(&mut self, identifier: &Identifier) -> Result<(), OutOfMemory>
        ensures { Adds (mark sign.Dollar ⁀ word identifier.now.name) self.old.kinds.items result self.new.kinds.items }
    {
        self.sign(Sign::Dollar)?;
        self.name(identifier)
    }

    pub(crate) fn error(&mut self, text: &Items<u8>) -> Result<(), OutOfMemory>
        ensures { Adds (tree_kinds (tree.error text.now)) self.old.kinds.items result self.new.kinds.items }
    {
        self.sign(Sign::Error)?;
        self.sign(Sign::Open)?;
        self.text(text)?;
        self.sign(Sign::Close)
    }

    pub(crate) fn of_int64(&mut self) -> Result<(), OutOfMemory>
        ensures { Adds of_int64 self.old.kinds.items result self.new.kinds.items }
    {
        self.sign(Sign::OpenCurly)?;
        self.sign(Sign::Int64)?;
        self.sign(Sign::CloseCurly)
    }

    pub(crate) fn unbuffered(&mut self) -> Result<(), OutOfMemory>
        ensures { Adds (tree_kinds tree.unbuffered) self.old.kinds.items result self.new.kinds.items }
    {
        self.sign(Sign::Channel)?;
        self.of_int64()?;
        self.sign(Sign::Open)?;
        self.sign(Sign::Close)
    }

    /// A call with the word `Int64` for its argument.
    pub(crate) fn call_of_int64(&mut self, function: Sign) -> Result<(), OutOfMemory>
        ensures { Adds (mark function ⁀ mark sign.Open ⁀ mark sign.Int64 ⁀ mark sign.Close) self.old.kinds.items result self.new.kinds.items }
    {
        self.sign(function)?;
        self.sign(Sign::Open)?;
        self.sign(Sign::Int64)?;
        self.sign(Sign::Close)
    }

    pub(crate) fn element(&mut self, identifier: &Identifier) -> Result<(), OutOfMemory>
        ensures { Adds (word identifier.now.name ⁀ mark sign.OpenSquare ⁀ mark sign.CloseSquare) self.old.kinds.items result self.new.kinds.items }
    {
        self.name(identifier)?;
        self.sign(Sign::OpenSquare)?;
        self.sign(Sign::CloseSquare)
    }

    pub(crate) fn pool(&mut self, pool: Option<PoolName>) -> Result<(), OutOfMemory>
        ensures { Adds (pool_kinds pool) self.old.kinds.items result self.new.kinds.items }
    {
        let word: &[u8] = match pool {
            None => return Ok(()),
            Some(PoolName::Default) => b"default",
            Some(PoolName::Interactive) => b"interactive",
        };
        self.sign(Sign::Colon)?;
        self.word(word)
    }

    pub(crate) fn schedule(&mut self, schedule: Option<Schedule>) -> Result<(), OutOfMemory>
        ensures { Adds (schedule_kinds schedule) self.old.kinds.items result self.new.kinds.items }
    {
        let word: &[u8] = match schedule {
            None => return Ok(()),
            Some(Schedule::Static) => b"static",
            Some(Schedule::Dynamic) => b"dynamic",
        };
        self.sign(Sign::Colon)?;
        self.word(word)
    }
}
