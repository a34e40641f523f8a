//! From a script to the kinds of its tokens.

ghost use Rattle.std.specs.Prelude.{◌≡◌, IfOk};
ghost use Rattle.jt_syntax.specs.Tree as tree;
ghost use Rattle.jt_syntax.specs.View.{view, stmt_views, form_view, top_views, script_view};
ghost use Rattle.jt_syntax.specs.declared.token.Sign.TheVariants as sign;
ghost use Rattle.jt_grammar.specs.Printed.{◌⁀◌, mark, word, names_kinds, form_kinds, script_kinds};
ghost use Rattle.jt_printer.specs.Kinds.{Adds};

use crate::kinds::Kinds;
use crate::memory::OutOfMemory;
use jt_syntax::{Expr, Identifier, Script, Sign, Stmt, TokenKind, Top, TopForm};
use sqlite_items::{Boxed, Items};
use std::alloc::Global;

impl Kinds {
    /// Parameters, with commas between.
    fn names(&mut self, names: &[Identifier]) -> Result<(), OutOfMemory>
        ensures { Adds (names_kinds names.now) self.old.kinds.items result self.new.kinds.items }
    {
        if let Some((first, rest)) = names.split_first() {
            self.name(first)?;
            for name in rest {
                self.sign(Sign::Comma)?;
                self.name(name)?;
            }
        }
        Ok(())
    }

    fn using(&mut self) -> Result<(), OutOfMemory>
        ensures { Adds (form_kinds tree.using_threads) self.old.kinds.items result self.new.kinds.items }
    {
        self.sign(Sign::Using)?;
        self.sign(Sign::BaseThreads)
    }

    fn constant(&mut self, name: &Identifier, value: &Boxed<Expr>) -> Result<(), OutOfMemory>
        ensures { Adds (form_kinds (tree.constant name.now (view value.now))) self.old.kinds.items result self.new.kinds.items }
    {
        self.sign(Sign::Const)?;
        self.name(name)?;
        self.prefixed(Sign::Assign, value)
    }

    /// A function's name, and its parameters in parentheses.
    fn head(&mut self, name: &Identifier, parameters: &Items<Identifier>) -> Result<(), OutOfMemory>
        ensures { Adds (word name.now.name ⁀ mark sign.Open ⁀ names_kinds parameters.now ⁀ mark sign.Close) self.old.kinds.items result self.new.kinds.items }
    {
        self.name(name)?;
        self.sign(Sign::Open)?;
        self.names(parameters.as_slice())?;
        self.sign(Sign::Close)
    }

    fn function(
        &mut self,
        name: &Identifier,
        parameters: &Items<Identifier>,
        body: &Items<Stmt>,
    ) -> Result<(), OutOfMemory>
        ensures { Adds (form_kinds (tree.function name.now parameters.now (stmt_views body.now))) self.old.kinds.items result self.new.kinds.items }
    {
        self.sign(Sign::Function)?;
        self.head(name, parameters)?;
        self.body(body)
    }

    fn short_function(
        &mut self,
        name: &Identifier,
        parameters: &Items<Identifier>,
        value: &Boxed<Expr>,
    ) -> Result<(), OutOfMemory>
        ensures { Adds (form_kinds (tree.short name.now parameters.now (view value.now))) self.old.kinds.items result self.new.kinds.items }
    {
        self.head(name, parameters)?;
        self.prefixed(Sign::Assign, value)
    }

    fn form(&mut self, form: &TopForm) -> Result<(), OutOfMemory>
        ensures { Adds (form_kinds (form_view form.now)) self.old.kinds.items result self.new.kinds.items }
    {
        match form {
            TopForm::Using => self.using(),
            TopForm::Constant(name, value) => self.constant(name, value),
            TopForm::Function(name, parameters, body) => self.function(name, parameters, body),
            TopForm::ShortFunction(name, parameters, value) => self.short_function(
                name, parameters, value,
            ),
            TopForm::Stmt(statement) => self.statement(statement),
        }
    }

    /// Each with a semicolon behind it.
    fn tops(&mut self, tops: &[Top]) -> Result<(), OutOfMemory>
        ensures { Adds (script_kinds (top_views tops.now)) self.old.kinds.items result self.new.kinds.items }
    {
        for top in tops {
            self.form(&top.form)?;
            self.sign(Sign::Semicolon)?;
        }
        Ok(())
    }
}

/// The kinds of the tokens that a script is printed with.
///
/// # Errors
///
/// `OutOfMemory`, and no kinds.
pub(crate) fn kinds_of(alloc: Global, script: &Script) -> Result<Vec<TokenKind>, OutOfMemory>
    ensures { IfOk result (λ kinds. kinds.items ≡ script_kinds (script_view script.now)) }
{
    let mut written = Kinds {
        alloc,
        kinds: Vec::new(alloc),
    };
    written.tops(script.tops.as_slice())?;
    let Kinds { kinds, .. } = written;
    Ok(kinds)
}
