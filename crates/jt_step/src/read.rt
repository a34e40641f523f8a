//! What is read at once, with no frame and no move of the evaluator.

ghost use Rattle.std.specs.Prelude.{◌≡◌, IfOk, IfSome, Some, slice_get};
ghost use Rattle.jt_program.specs.View.{plan_of, plans};
ghost use Rattle.jt_step.specs.AtOnce.{IsRead};
ghost use Rattle.jt_meaning.specs.Meaning.{gives, go, run_choices, run_connection};
ghost use Rattle.jt_meaning.specs.State.{bind};
ghost use Rattle.jt_step.specs.Stack.{choices_in, comparisons_in, does, does_comparisons, does_operands, operands_in};
ghost use Rattle.jt_meaning.specs.Values.{unary_of};

use crate::evaluator::Evaluator;
use crate::row::{asks, first_of, truth};
use crate::small::{Form, SmallValue};
use crate::value::{apply_unary, compare, literal_value, operate};
use jt_base::OutOfMemory;
use jt_program::{Arm, Code};
use jt_syntax::{ArithmeticOperator, ComparisonOperator, Connective, UnaryOperator};
use sqlite_items::at;
use std::alloc::Global;

/// How deep parts may lie within a part that is read at once. What fails to be read is evaluated from
/// its beginning, so this bounds how often a part is begun.
const DEPTH: u32 = 8;

impl Evaluator<'_> {
    /// The value of a part that gives one and changes nothing, where that is found at once: a literal,
    /// a variable or a constant that has a value, and operators, comparisons, `&&`, `||` and branches
    /// whose parts are such in turn. Nothing for other parts.
    pub(crate) fn read(&self, alloc: Global, e: &Code) -> Result<Option<SmallValue>, OutOfMemory>
        ensures { IfOk result (λ r. IfSome r (IsRead self.now (λ program. does program (plan_of e.now)))) }
    {
        self.read_within(alloc, e, DEPTH)
    }

    /// The same where parts lie at most so deep within it.
    #[cycle(read)]
    fn read_within(
        &self,
        alloc: Global,
        e: &Code,
        depth: u32,
    ) -> Result<Option<SmallValue>, OutOfMemory>
        ensures { IfOk result (λ r. IfSome r (IsRead self.now (λ program. does program (plan_of e.now)))) }
    {
        match e {
            Code::Literal(literal) => Ok(Some(literal_value(*literal))),
            Code::Variable(slot) => stored(alloc, self.variables.as_slice(), *slot),
            Code::Constant(number) => stored(alloc, self.constants.as_slice(), *number),
            _ if depth == 0 => Ok(None),
            Code::Unary(operator, e) => self.read_unary(alloc, *operator, e.get(), depth - 1),
            Code::Operation(e, es) => self.read_operation(alloc, e.get(), es.as_slice(), depth - 1),
            Code::Comparison(e, es) => {
                self.read_comparison(alloc, e.get(), es.as_slice(), depth - 1)
            }
            Code::Connection(connective, e, es) => {
                self.read_connection(alloc, *connective, e.get(), es.as_slice(), depth - 1)
            }
            Code::Branch(arms, otherwise) => {
                self.read_branch(alloc, arms.as_slice(), otherwise.get(), depth - 1)
            }
            _ => Ok(None),
        }
    }

    /// The value of an operator before its operand.
    #[cycle(read)]
    fn read_unary(
        &self,
        alloc: Global,
        operator: UnaryOperator,
        e: &Code,
        depth: u32,
    ) -> Result<Option<SmallValue>, OutOfMemory>
        ensures { IfOk result (λ r. IfSome r (IsRead self.now (λ program s. bind (does program (plan_of e.now) s) (λ v. gives (unary_of operator v))))) }
    {
        let Some(v) = self.read_within(alloc, e, depth)? else {
            return Ok(None);
        };
        match apply_unary(operator, &v) {
            Ok(value) => Ok(Some(value)),
            Err(_) => Ok(None),
        }
    }

    /// The value of operators one after another.
    #[cycle(read)]
    fn read_operation(
        &self,
        alloc: Global,
        first: &Code,
        es: &[(ArithmeticOperator, Code)],
        depth: u32,
    ) -> Result<Option<SmallValue>, OutOfMemory>
        ensures { IfOk result (λ r. IfSome r (IsRead self.now (λ program s. bind (does program (plan_of first.now) s) (λ v. does_operands program v (operands_in es.now))))) }
    {
        let Some(start) = self.read_within(alloc, first, depth)? else {
            return Ok(None);
        };
        let mut v = start;
        let mut es = es;
        'operands: loop {
            match first_of(es) {
                None => return Ok(Some(v)),
                Some(((operator, e), rest)) => {
                    let Some(w) = self.read_within(alloc, e, depth)? else {
                        return Ok(None);
                    };
                    match operate(*operator, &v, &w) {
                        Ok(value) => v = value,
                        Err(_) => return Ok(None),
                    }
                    es = rest;
                }
            }
        }
    }

    /// The truth value of comparisons of neighbours.
    #[cycle(read)]
    fn read_comparison(
        &self,
        alloc: Global,
        first: &Code,
        es: &[(ComparisonOperator, Code)],
        depth: u32,
    ) -> Result<Option<SmallValue>, OutOfMemory>
        ensures { IfOk result (λ r. IfSome r (IsRead self.now (λ program s. bind (does program (plan_of first.now) s) (λ v. does_comparisons program v (comparisons_in es.now))))) }
    {
        let Some(start) = self.read_within(alloc, first, depth)? else {
            return Ok(None);
        };
        let mut v = start;
        let mut es = es;
        'comparisons: loop {
            match first_of(es) {
                None => return Ok(Some(SmallValue {
                    form: Form::Flag(true),
                })),
                Some(((operator, e), rest)) => {
                    let Some(w) = self.read_within(alloc, e, depth)? else {
                        return Ok(None);
                    };
                    match compare(*operator, &v, &w) {
                        Some(true) => v = w,
                        Some(false) => return Ok(Some(SmallValue {
                            form: Form::Flag(false),
                        })),
                        None => return Ok(None),
                    }
                    es = rest;
                }
            }
        }
    }

    /// The value of the operand of `&&` or `||` that decides, or of the last one.
    #[cycle(read)]
    fn read_connection(
        &self,
        alloc: Global,
        connective: Connective,
        first: &Code,
        es: &[Code],
        depth: u32,
    ) -> Result<Option<SmallValue>, OutOfMemory>
        ensures { IfOk result (λ r. IfSome r (IsRead self.now (λ program s. bind (does program (plan_of first.now) s) (λ v. run_connection program (go program) connective v (plans es.now))))) }
    {
        let Some(start) = self.read_within(alloc, first, depth)? else {
            return Ok(None);
        };
        let mut v = start;
        let mut es = es;
        'operands: loop {
            match first_of(es) {
                None => return Ok(Some(v)),
                Some((e, rest)) => {
                    match asks(connective, &v) {
                        Some(true) => match self.read_within(alloc, e, depth)? {
                            Some(w) => v = w,
                            None => return Ok(None),
                        },
                        Some(false) => return Ok(Some(v)),
                        None => return Ok(None),
                    }
                    es = rest;
                }
            }
        }
    }

    /// The value of the first arm whose condition holds, else of the last part.
    #[cycle(read)]
    fn read_branch(
        &self,
        alloc: Global,
        arms: &[Arm],
        otherwise: &Code,
        depth: u32,
    ) -> Result<Option<SmallValue>, OutOfMemory>
        ensures { IfOk result (λ r. IfSome r (IsRead self.now (λ program. run_choices program (go program) (choices_in arms.now) (does program (plan_of otherwise.now))))) }
    {
        let mut arms = arms;
        'arms: loop {
            match first_of(arms) {
                None => return self.read_within(alloc, otherwise, depth),
                Some((arm, rest)) => {
                    let Some(v) = self.read_within(alloc, &arm.condition, depth)? else {
                        return Ok(None);
                    };
                    match truth(&v) {
                        Some(true) => return self.read_within(alloc, &arm.body, depth),
                        Some(false) => arms = rest,
                        None => return Ok(None),
                    }
                }
            }
        }
    }
}

/// The value in this slot, if it has one.
fn stored(
    alloc: Global,
    slots: &[Option<SmallValue>],
    slot: usize,
) -> Result<Option<SmallValue>, OutOfMemory>
    ensures { IfOk result (λ r. IfSome r (λ v. slice_get slots.now slot ≡ Some (Some v))) }
{
    match at(slots, slot) {
        Some(Some(value)) => Ok(Some(value.copy(alloc)?)),
        _ => Ok(None),
    }
}
