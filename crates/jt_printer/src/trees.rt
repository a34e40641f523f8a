//! From expressions and statements to the kinds of their tokens.

ghost use Rattle.std.specs.Prelude.{map};
ghost use Rattle.jt_syntax.specs.Tree as tree;
ghost use Rattle.jt_syntax.specs.View.{item_view, view, views, item_views, term_view, terms_of, arms_of, arm_view, jump_view, stmt_view, stmt_views};
ghost use Rattle.jt_syntax.specs.declared.operator.BinaryOperator.TheVariants as binary;
ghost use Rattle.jt_syntax.specs.declared.token.Sign.TheVariants as sign;
ghost use Rattle.jt_grammar.specs.Printed.{◌⁀◌, schedule_kinds, pool_kinds, mark, word, of_int64, tree_kinds, list_kinds, term_kinds, arms_kinds, leap_kinds, step_kinds, steps_kinds};
ghost use Rattle.jt_printer.specs.Kinds.{Adds};

use crate::kinds::Kinds;
use crate::memory::OutOfMemory;
use crate::operator::{assignment_sign, unary_sign};
use jt_syntax::{
    ArithmeticOperator, Arm, AssignmentOperator, BinaryOperator, Connective, Expr, Identifier,
    Item, Jump, PoolName, Schedule, Sign, Stmt, UnaryOperator,
};
use sqlite_items::{Boxed, Items};

impl Kinds {
    #[cycle(expression)]
    pub(crate) fn expression(&mut self, expression: &Expr) -> Result<(), OutOfMemory>
        ensures { Adds (tree_kinds (view expression.now)) self.old.kinds.items result self.new.kinds.items }
    {
        match expression {
            Expr::Number(value) => self.number(*value),
            Expr::Truth(value) => self.truth(*value),
            Expr::Name(name) => self.name(name),
            Expr::Interpolation(_, name) => self.interpolation(name),
            Expr::Group(inner) => self.enclosed(inner),
            Expr::Call(name, arguments) => self.call(name, arguments),
            Expr::Println(items) => self.println(items),
            Expr::Error(text) => self.error(text),
            Expr::Channel(None) => self.unbuffered(),
            Expr::Channel(Some(capacity)) => self.object(Sign::Channel, capacity),
            Expr::Atomic(value) => self.object(Sign::Atomic, value),
            Expr::Least => self.call_of_int64(Sign::TypeMin),
            Expr::Greatest => self.call_of_int64(Sign::TypeMax),
            Expr::Random => self.call_of_int64(Sign::Rand),
            Expr::RandomIn(first, last) => self.random_in(first, last),
            Expr::Notify(condition, all) => self.notify(condition, *all),
            Expr::Read(name) => self.element(name),
            Expr::Power(base, exponent) => self.power(base, exponent),
            Expr::Unary(operator, operand) => self.unary(*operator, operand),
            Expr::Chain(_, first, terms) => self.chain(first, terms),
            Expr::Conditional(test, value, other) => self.conditional(test, value, other),
            Expr::Block(body) => self.block(body),
            Expr::If(test, body, arms, None) => self.branches(test, body, arms),
            Expr::If(test, body, arms, Some(last)) => self.branches_else(test, body, arms, last),
            Expr::While(test, body) => self.repeated(test, body),
            Expr::ForRange(name, first, last, body) => self.range_loop(name, first, last, body),
            Expr::ForEach(name, channel, body) => self.channel_loop(name, channel, body),
            Expr::Spawn(_, pool, body) => self.spawn(*pool, body),
            Expr::Async(_, body) => self.prefixed(Sign::Async, body),
            Expr::Sync(body) => self.prefixed(Sign::Sync, body),
            Expr::Threads(_, schedule, name, first, last, body) => self.threads(
                *schedule, name, first, last, body,
            ),
        }
    }

    #[cycle(expression)]
    fn enclosed(&mut self, inner: &Boxed<Expr>) -> Result<(), OutOfMemory>
        ensures { Adds (mark sign.Open ⁀ tree_kinds (view inner.now) ⁀ mark sign.Close) self.old.kinds.items result self.new.kinds.items }
    {
        self.sign(Sign::Open)?;
        self.expression(inner.get())?;
        self.sign(Sign::Close)
    }

    #[cycle(expression)]
    fn call(&mut self, name: &Identifier, arguments: &Items<Boxed<Expr>>) -> Result<(), OutOfMemory>
        ensures { Adds (word name.now.name ⁀ mark sign.Open ⁀ list_kinds (views arguments.now) ⁀ mark sign.Close) self.old.kinds.items result self.new.kinds.items }
    {
        self.name(name)?;
        self.sign(Sign::Open)?;
        if let Some((first, rest)) = arguments.as_slice().split_first() {
            self.expression(first.get())?;
            for argument in rest {
                self.prefixed(Sign::Comma, argument)?;
            }
        }
        self.sign(Sign::Close)
    }

    #[cycle(expression)]
    fn println(&mut self, items: &Items<Item>) -> Result<(), OutOfMemory>
        ensures { Adds (mark sign.Println ⁀ mark sign.Open ⁀ list_kinds (item_views items.now) ⁀ mark sign.Close) self.old.kinds.items result self.new.kinds.items }
    {
        self.sign(Sign::Println)?;
        self.sign(Sign::Open)?;
        if let Some((first, rest)) = items.as_slice().split_first() {
            self.item(first)?;
            for item in rest {
                self.sign(Sign::Comma)?;
                self.item(item)?;
            }
        }
        self.sign(Sign::Close)
    }

    #[cycle(expression)]
    fn item(&mut self, item: &Item) -> Result<(), OutOfMemory>
        ensures { Adds (tree_kinds (item_view item.now)) self.old.kinds.items result self.new.kinds.items }
    {
        match item {
            Item::Value(value) => self.expression(value.get()),
            Item::Text(text) => self.text(text),
        }
    }

    #[cycle(expression)]
    fn object(&mut self, kind: Sign, value: &Boxed<Expr>) -> Result<(), OutOfMemory>
        ensures { Adds (mark kind ⁀ of_int64 ⁀ mark sign.Open ⁀ tree_kinds (view value.now) ⁀ mark sign.Close) self.old.kinds.items result self.new.kinds.items }
    {
        self.sign(kind)?;
        self.of_int64()?;
        self.enclosed(value)
    }

    #[cycle(expression)]
    fn random_in(&mut self, first: &Boxed<Expr>, last: &Boxed<Expr>) -> Result<(), OutOfMemory>
        ensures { Adds (mark sign.Rand ⁀ mark sign.Open ⁀ tree_kinds (view first.now) ⁀ mark sign.Colon ⁀ tree_kinds (view last.now) ⁀ mark sign.Close) self.old.kinds.items result self.new.kinds.items }
    {
        self.sign(Sign::Rand)?;
        self.sign(Sign::Open)?;
        self.pair(first, Sign::Colon, last)?;
        self.sign(Sign::Close)
    }

    #[cycle(expression)]
    fn notify(&mut self, condition: &Boxed<Expr>, all: bool) -> Result<(), OutOfMemory>
        ensures { Adds (tree_kinds (tree.notify (view condition.now) all)) self.old.kinds.items result self.new.kinds.items }
    {
        self.word(b"notify")?;
        self.sign(Sign::Open)?;
        self.expression(condition.get())?;
        self.sign(Sign::Comma)?;
        self.word(b"all")?;
        self.sign(Sign::Assign)?;
        self.truth(all)?;
        self.sign(Sign::Close)
    }

    #[cycle(expression)]
    fn pair(
        &mut self,
        first: &Boxed<Expr>,
        between: Sign,
        second: &Boxed<Expr>,
    ) -> Result<(), OutOfMemory>
        ensures { Adds (tree_kinds (view first.now) ⁀ mark between ⁀ tree_kinds (view second.now)) self.old.kinds.items result self.new.kinds.items }
    {
        self.expression(first.get())?;
        self.sign(between)?;
        self.expression(second.get())
    }

    #[cycle(expression)]
    pub(crate) fn prefixed(&mut self, sign: Sign, operand: &Boxed<Expr>) -> Result<(), OutOfMemory>
        ensures { Adds (mark sign ⁀ tree_kinds (view operand.now)) self.old.kinds.items result self.new.kinds.items }
    {
        self.sign(sign)?;
        self.expression(operand.get())
    }

    #[cycle(expression)]
    fn power(&mut self, base: &Boxed<Expr>, exponent: &Boxed<Expr>) -> Result<(), OutOfMemory>
        ensures { Adds (tree_kinds (tree.power (view base.now) (view exponent.now))) self.old.kinds.items result self.new.kinds.items }
    {
        let sign = Sign::Binary(BinaryOperator::Arithmetic(ArithmeticOperator::Power));
        self.pair(base, sign, exponent)
    }

    #[cycle(expression)]
    fn unary(&mut self, operator: UnaryOperator, operand: &Boxed<Expr>) -> Result<(), OutOfMemory>
        ensures { Adds (tree_kinds (tree.unary operator (view operand.now))) self.old.kinds.items result self.new.kinds.items }
    {
        self.prefixed(unary_sign(operator), operand)
    }

    /// A first operand, and the others each behind its operator.
    #[cycle(expression)]
    fn chain(
        &mut self,
        first: &Boxed<Expr>,
        terms: &Items<(BinaryOperator, Boxed<Expr>)>,
    ) -> Result<(), OutOfMemory>
        ensures { Adds (tree_kinds (view first.now) ⁀ term_kinds (terms_of (map term_view terms.now))) self.old.kinds.items result self.new.kinds.items }
    {
        self.expression(first.get())?;
        for term in terms.as_slice() {
            self.prefixed(Sign::Binary(term.0), &term.1)?;
        }
        Ok(())
    }

    #[cycle(expression)]
    fn conditional(
        &mut self,
        test: &Boxed<Expr>,
        value: &Boxed<Expr>,
        otherwise: &Boxed<Expr>,
    ) -> Result<(), OutOfMemory>
        ensures { Adds (tree_kinds (tree.conditional (view test.now) (view value.now) (view otherwise.now))) self.old.kinds.items result self.new.kinds.items }
    {
        self.expression(test.get())?;
        self.sign(Sign::Question)?;
        self.pair(value, Sign::Colon, otherwise)
    }

    #[cycle(expression)]
    fn block(&mut self, body: &Items<Stmt>) -> Result<(), OutOfMemory>
        ensures { Adds (mark sign.Begin ⁀ steps_kinds (stmt_views body.now) ⁀ mark sign.End) self.old.kinds.items result self.new.kinds.items }
    {
        self.sign(Sign::Begin)?;
        self.statements(body.as_slice())?;
        self.sign(Sign::End)
    }

    #[cycle(expression)]
    fn branches(
        &mut self,
        test: &Boxed<Expr>,
        body: &Items<Stmt>,
        arms: &Items<Arm>,
    ) -> Result<(), OutOfMemory>
        ensures { Adds (tree_kinds (tree.branches (view test.now) (stmt_views body.now) (arms_of (map arm_view arms.now) tree.no_arms))) self.old.kinds.items result self.new.kinds.items }
    {
        self.first_arms(test, body, arms)?;
        self.sign(Sign::End)
    }

    #[cycle(expression)]
    fn branches_else(
        &mut self,
        test: &Boxed<Expr>,
        body: &Items<Stmt>,
        arms: &Items<Arm>,
        last: &Items<Stmt>,
    ) -> Result<(), OutOfMemory>
        ensures { Adds (tree_kinds (tree.branches (view test.now) (stmt_views body.now) (arms_of (map arm_view arms.now) (tree.otherwise (stmt_views last.now))))) self.old.kinds.items result self.new.kinds.items }
    {
        self.first_arms(test, body, arms)?;
        self.sign(Sign::Else)?;
        self.statements(last.as_slice())?;
        self.sign(Sign::End)
    }

    #[cycle(expression)]
    fn first_arms(
        &mut self,
        test: &Boxed<Expr>,
        body: &Items<Stmt>,
        arms: &Items<Arm>,
    ) -> Result<(), OutOfMemory>
        ensures { Adds (mark sign.If ⁀ tree_kinds (view test.now) ⁀ mark sign.Semicolon ⁀ steps_kinds (stmt_views body.now) ⁀ arms_kinds (arms_of (map arm_view arms.now) tree.no_arms)) self.old.kinds.items result self.new.kinds.items }
    {
        self.prefixed(Sign::If, test)?;
        self.sign(Sign::Semicolon)?;
        self.statements(body.as_slice())?;
        for arm in arms.as_slice() {
            self.prefixed(Sign::ElseIf, &arm.condition)?;
            self.sign(Sign::Semicolon)?;
            self.statements(arm.body.as_slice())?;
        }
        Ok(())
    }

    /// The statements of a loop, behind its head.
    #[cycle(expression)]
    pub(crate) fn body(&mut self, body: &Items<Stmt>) -> Result<(), OutOfMemory>
        ensures { Adds (mark sign.Semicolon ⁀ steps_kinds (stmt_views body.now) ⁀ mark sign.End) self.old.kinds.items result self.new.kinds.items }
    {
        self.sign(Sign::Semicolon)?;
        self.statements(body.as_slice())?;
        self.sign(Sign::End)
    }

    #[cycle(expression)]
    fn repeated(&mut self, test: &Boxed<Expr>, body: &Items<Stmt>) -> Result<(), OutOfMemory>
        ensures { Adds (tree_kinds (tree.while (view test.now) (stmt_views body.now))) self.old.kinds.items result self.new.kinds.items }
    {
        self.prefixed(Sign::While, test)?;
        self.body(body)
    }

    #[cycle(expression)]
    fn range_loop(
        &mut self,
        name: &Identifier,
        first: &Boxed<Expr>,
        last: &Boxed<Expr>,
        body: &Items<Stmt>,
    ) -> Result<(), OutOfMemory>
        ensures { Adds (tree_kinds (tree.for_range name.now (view first.now) (view last.now) (stmt_views body.now))) self.old.kinds.items result self.new.kinds.items }
    {
        self.sign(Sign::For)?;
        self.name(name)?;
        self.sign(Sign::In)?;
        self.pair(first, Sign::Colon, last)?;
        self.body(body)
    }

    #[cycle(expression)]
    fn channel_loop(
        &mut self,
        name: &Identifier,
        channel: &Boxed<Expr>,
        body: &Items<Stmt>,
    ) -> Result<(), OutOfMemory>
        ensures { Adds (tree_kinds (tree.for_each name.now (view channel.now) (stmt_views body.now))) self.old.kinds.items result self.new.kinds.items }
    {
        self.sign(Sign::For)?;
        self.name(name)?;
        self.prefixed(Sign::In, channel)?;
        self.body(body)
    }

    #[cycle(expression)]
    fn spawn(&mut self, pool: Option<PoolName>, body: &Boxed<Expr>) -> Result<(), OutOfMemory>
        ensures { Adds (mark sign.Spawn ⁀ pool_kinds pool ⁀ tree_kinds (view body.now)) self.old.kinds.items result self.new.kinds.items }
    {
        self.sign(Sign::Spawn)?;
        self.pool(pool)?;
        self.expression(body.get())
    }

    #[cycle(expression)]
    fn threads(
        &mut self,
        schedule: Option<Schedule>,
        name: &Identifier,
        first: &Boxed<Expr>,
        last: &Boxed<Expr>,
        body: &Items<Stmt>,
    ) -> Result<(), OutOfMemory>
        ensures { Adds (mark sign.Threads ⁀ schedule_kinds schedule ⁀ tree_kinds (tree.for_range name.now (view first.now) (view last.now) (stmt_views body.now))) self.old.kinds.items result self.new.kinds.items }
    {
        self.sign(Sign::Threads)?;
        self.schedule(schedule)?;
        self.range_loop(name, first, last, body)
    }

    /// Each with a semicolon behind it.
    #[cycle(expression)]
    pub(crate) fn statements(&mut self, statements: &[Stmt]) -> Result<(), OutOfMemory>
        ensures { Adds (steps_kinds (stmt_views statements.now)) self.old.kinds.items result self.new.kinds.items }
    {
        for statement in statements {
            self.statement(statement)?;
            self.sign(Sign::Semicolon)?;
        }
        Ok(())
    }

    #[cycle(expression)]
    pub(crate) fn statement(&mut self, statement: &Stmt) -> Result<(), OutOfMemory>
        ensures { Adds (step_kinds (stmt_view statement.now)) self.old.kinds.items result self.new.kinds.items }
    {
        match statement {
            Stmt::Assign(name, operator, value) => self.assignment(name, *operator, value),
            Stmt::Store(name, value) => self.store(name, value),
            Stmt::Jump(jump) => self.jump(jump),
            Stmt::Guard(connective, first, terms, jump) => {
                self.tests(*connective, first, terms)?;
                self.jump(jump)
            }
            Stmt::Expression(value) => self.expression(value.get()),
        }
    }

    /// Operands of a connective, and the connective behind them.
    #[cycle(expression)]
    fn tests(
        &mut self,
        connective: Connective,
        first: &Boxed<Expr>,
        terms: &Items<(BinaryOperator, Boxed<Expr>)>,
    ) -> Result<(), OutOfMemory>
        ensures { Adds (tree_kinds (view first.now) ⁀ term_kinds (terms_of (map term_view terms.now)) ⁀ mark (sign.Binary (binary.Connective connective))) self.old.kinds.items result self.new.kinds.items }
    {
        self.chain(first, terms)?;
        self.sign(Sign::Binary(BinaryOperator::Connective(connective)))
    }

    #[cycle(expression)]
    fn assignment(
        &mut self,
        name: &Identifier,
        operator: AssignmentOperator,
        value: &Boxed<Expr>,
    ) -> Result<(), OutOfMemory>
        ensures { Adds (step_kinds (tree.assign name.now operator (view value.now))) self.old.kinds.items result self.new.kinds.items }
    {
        self.name(name)?;
        self.prefixed(assignment_sign(operator), value)
    }

    #[cycle(expression)]
    fn store(&mut self, name: &Identifier, value: &Boxed<Expr>) -> Result<(), OutOfMemory>
        ensures { Adds (step_kinds (tree.store name.now (view value.now))) self.old.kinds.items result self.new.kinds.items }
    {
        self.element(name)?;
        self.prefixed(Sign::Assign, value)
    }

    #[cycle(expression)]
    fn jump(&mut self, jump: &Jump) -> Result<(), OutOfMemory>
        ensures { Adds (leap_kinds (jump_view jump.now)) self.old.kinds.items result self.new.kinds.items }
    {
        match jump {
            Jump::Return(_, None) => self.sign(Sign::Return),
            Jump::Return(_, Some(value)) => self.prefixed(Sign::Return, value),
            Jump::Break(_) => self.sign(Sign::Break),
            Jump::Continue(_) => self.sign(Sign::Continue),
        }
    }
}
