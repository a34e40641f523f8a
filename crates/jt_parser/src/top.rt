//! What stands between two separators of a script.

ghost use Rattle.std.specs.Prelude.{[], ◌∷◌};
ghost use Rattle.jt_grammar.specs.Reader as spec;
ghost use Rattle.jt_syntax.specs.View.{stmt_view, form_view, top_view, top_views};
ghost use Rattle.jt_expressions.specs.Nested.{nested};
ghost use Rattle.jt_cursor.specs.Parses.{Parses, same};
ghost use Rattle.jt_parser.specs.Forms.{function_body, named_function, short_function, stepped_form};

use jt_cursor::{Cursor, Failure, Kind, ends, step_target};
use jt_grammar::Target;
use jt_statements::{statement, tail, whole};
use jt_syntax::{Identifier, Sign, Stmt, Top, TopForm};
use sqlite_items::Items;
use std::alloc::Global;

/// The rules of what stands between two separators of a script.
#[derive(Clone, Copy)]
struct TopRules {
    alloc: Global,
    /// More than there are tokens, so that no list is cut short.
    turns: usize,
    /// How many openers may be open.
    depth: usize,
}

impl TopRules {
    fn using_read(&self, tokens: &mut Cursor<'_>) -> Result<TopForm, Failure>
        ensures { Parses form_view (nested spec.using_read self.now.turns self.now.depth tokens.old) result tokens.new }
    {
        tokens.skip()?;
        tokens.expect(Sign::BaseThreads)?;
        Ok(TopForm::Using)
    }

    fn constant_read(&self, tokens: &mut Cursor<'_>) -> Result<TopForm, Failure>
        ensures { Parses form_view (nested spec.constant_read self.now.turns self.now.depth tokens.old) result tokens.new }
    {
        tokens.skip()?;
        let name = tokens.word(self.alloc)?;
        tokens.expect(Sign::Assign)?;
        Ok(TopForm::Constant(name, whole(self.alloc, tokens, self.turns, self.depth)?))
    }

    fn more_names(
        &self,
        tokens: &mut Cursor<'_>,
        mut found: Items<Identifier>,
    ) -> Result<Items<Identifier>, Failure>
        ensures { Parses same (spec.commas_from spec.word [] (λ i is. i ∷ is) self.now.turns found tokens.old) result tokens.new }
    {
        for _turn in 0..self.turns {
            if !tokens.sees(Sign::Comma) {
                return Ok(found);
            }
            tokens.skip()?;
            found.push(tokens.word(self.alloc)?)?;
        }
        Err(Failure::Spent)
    }

    #[tactic(auto, using(jt_cursor::proofs::Lists::commas_one))]
    fn names(&self, tokens: &mut Cursor<'_>) -> Result<Items<Identifier>, Failure>
        ensures { Parses same (nested spec.names self.now.turns self.now.depth tokens.old) result tokens.new }
    {
        let mut found = Items::new(self.alloc);
        if tokens.sees(Sign::Close) {
            return Ok(found);
        }
        found.push(tokens.word(self.alloc)?)?;
        self.more_names(tokens, found)
    }

    /// Behind the parameters of a function.
    fn function_body(
        &self,
        tokens: &mut Cursor<'_>,
        name: Identifier,
        parameters: Items<Identifier>,
    ) -> Result<TopForm, Failure>
        ensures { Parses form_view (nested function_body self.now.turns self.now.depth name parameters tokens.old) result tokens.new }
    {
        let body = tail(self.alloc, tokens, self.turns, self.depth)?;
        tokens.expect(Sign::End)?;
        Ok(TopForm::Function(name, parameters, body))
    }

    /// Behind the name of a function.
    fn named_function(&self, tokens: &mut Cursor<'_>, name: Identifier) -> Result<TopForm, Failure>
        ensures { Parses form_view (nested named_function self.now.turns self.now.depth name tokens.old) result tokens.new }
    {
        tokens.opening(self.depth.saturating_sub(1), Sign::Open)?;
        let parameters = self.names(tokens)?;
        tokens.expect(Sign::Close)?;
        self.function_body(tokens, name, parameters)
    }

    fn function_read(&self, tokens: &mut Cursor<'_>) -> Result<TopForm, Failure>
        ensures { Parses form_view (nested spec.function_read self.now.turns self.now.depth tokens.old) result tokens.new }
    {
        tokens.opening(self.depth, Sign::Function)?;
        let name = tokens.word(self.alloc)?;
        self.named_function(tokens, name)
    }

    fn short_function(
        &self,
        tokens: &mut Cursor<'_>,
        name: Identifier,
        parameters: Items<Identifier>,
    ) -> Result<TopForm, Failure>
        ensures { Parses form_view (nested short_function self.now.turns self.now.depth name parameters tokens.old) result tokens.new }
    {
        tokens.skip()?;
        Ok(TopForm::ShortFunction(
            name,
            parameters,
            whole(self.alloc, tokens, self.turns, self.depth)?,
        ))
    }

    fn short_by(
        &self,
        tokens: &mut Cursor<'_>,
        step: Stmt,
        target: Target,
    ) -> Result<TopForm, Failure>
        ensures { Parses form_view (nested spec.short_by self.now.turns self.now.depth (stmt_view step) target tokens.old) result tokens.new }
    {
        match target {
            Target::Function(name, parameters) => self.short_function(tokens, name, parameters),
            Target::Variable(_) => Ok(TopForm::Stmt(step)),
            Target::Element(_) => Ok(TopForm::Stmt(step)),
            Target::Other => Ok(TopForm::Stmt(step)),
        }
    }

    /// Behind a statement, which may be the left side of a short function.
    fn shortened(&self, tokens: &mut Cursor<'_>, step: Stmt) -> Result<TopForm, Failure>
        ensures { Parses form_view (nested spec.shortened self.now.turns self.now.depth (stmt_view step) tokens.old) result tokens.new }
    {
        if !tokens.sees(Sign::Assign) {
            return Ok(TopForm::Stmt(step));
        }
        let target = step_target(self.alloc, &step)?;
        self.short_by(tokens, step, target)
    }

    fn stepped_form(&self, tokens: &mut Cursor<'_>) -> Result<TopForm, Failure>
        ensures { Parses form_view (nested stepped_form self.now.turns self.now.depth tokens.old) result tokens.new }
    {
        let step = statement(self.alloc, tokens, self.turns, self.depth)?;
        self.shortened(tokens, step)
    }

    fn form(&self, tokens: &mut Cursor<'_>) -> Result<TopForm, Failure>
        ensures { Parses form_view (nested spec.form_by self.now.turns self.now.depth (spec.kind_of tokens.old) tokens.old) result tokens.new }
    {
        match tokens.kind() {
            Kind::Sign(Sign::Using) => self.using_read(tokens),
            Kind::Sign(Sign::Const) => self.constant_read(tokens),
            Kind::Sign(Sign::Function) => self.function_read(tokens),
            Kind::Sign(_) => self.stepped_form(tokens),
            Kind::Number(_) | Kind::Name(_) | Kind::Text(_) => self.stepped_form(tokens),
        }
    }

    #[tactic(auto, unfolding(jt_grammar::specs::Reader::topped))]
    fn topped(&self, tokens: &mut Cursor<'_>) -> Result<Top, Failure>
        ensures { Parses top_view (nested spec.topped self.now.turns self.now.depth tokens.old) result tokens.new }
    {
        let at = tokens.place();
        let form = self.form(tokens)?;
        Ok(Top { at, form })
    }
}

#[tactic(auto, unfolding(jt_grammar::specs::Reader::read_top))]
fn read_top(
    alloc: Global,
    tokens: &mut Cursor<'_>,
    turns: usize,
    depth: usize,
) -> Result<Top, Failure>
    ensures { Parses top_view (spec.read_top turns depth tokens.old) result tokens.new }
{
    TopRules {
        alloc,
        turns,
        depth,
    }
    .topped(tokens)
}

fn tops(
    alloc: Global,
    tokens: &mut Cursor<'_>,
    turns: usize,
    depth: usize,
) -> Result<Items<Top>, Failure>
    ensures { Parses top_views (spec.list_from turns (spec.read_top turns depth) [] (λ x xs. x ∷ xs) turns [] tokens.old) result tokens.new }
{
    let mut found = Items::new(alloc);
    for _turn in 0..turns {
        if ends(tokens.kind()) {
            return Ok(found);
        }
        found.push(read_top(alloc, tokens, turns, depth)?)?;
        let apart = tokens.gap(turns)?;
        if !apart {
            return Ok(found);
        }
    }
    Err(Failure::Spent)
}

/// A script in which no more than `depth` openers are open at once.
#[tactic(auto, unfolding(jt_grammar::specs::Reader::script), using(jt_cursor::proofs::Lists::list_start))]
pub(crate) fn script(
    alloc: Global,
    tokens: &mut Cursor<'_>,
    turns: usize,
    depth: usize,
) -> Result<Items<Top>, Failure>
    ensures { Parses top_views (spec.script turns depth tokens.old) result tokens.new }
{
    tokens.gap(turns)?;
    let found = tops(alloc, tokens, turns, depth)?;
    tokens.expect(Sign::Stop)?;
    Ok(found)
}
