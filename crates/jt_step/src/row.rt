//! What follows in a row: the next operand, argument, arm or part of a block.

ghost use Rattle.std.specs.Prelude.{◌≡◌, ◌∷◌, ◌+◌, [], IfOk, MatchOption};
ghost use Rattle.jt_program.specs.Plan.{ProgramPlan};
ghost use Rattle.jt_program.specs.View.{plan_of, plans};
ghost use Rattle.jt_step.specs.AtOnce.{Did, asks, truth};
ghost use Rattle.jt_meaning.specs.Meaning.{go, run_all, run_arguments, run_choices, run_comparisons, run_connection, run_operands};
ghost use Rattle.jt_step.specs.Moves.{Does, asking, valued_mode};
ghost use Rattle.jt_meaning.specs.State.{State, bind};
ghost use Rattle.jt_step.specs.Stack.{choices_in, choices_weight, comparisons_in, comparisons_weight, does, operands_in, operands_weight, plans_weight, weight};

use crate::evaluator::Evaluator;
use crate::fork::call_built_in;
use crate::frame::Frame;
use crate::mode::Mode;
use crate::small::{Cause, Form, SmallFault, SmallValue};
use crate::value::{compare, operate};
use crate::variables::assign;
use jt_base::OutOfMemory;
use jt_program::{Arm, Callee, Code};
use jt_syntax::{ArithmeticOperator, ComparisonOperator, Connective};
use sqlite_items::Items;
use std::alloc::Global;

impl<'p> Evaluator<'p> {
    /// Goes on with the parts of a block that are left; `v` is the value of the one before.
    pub(crate) fn next_part(
        &mut self,
        alloc: Global,
        v: SmallValue,
        es: &'p [Code],
    ) -> Result<Mode<'p>, OutOfMemory>
        ensures { IfOk result (λ m. (program : ProgramPlan) → Does program self.old (run_all program (go program) v (plans es.now)) (plans_weight (plans es.now) + 1) self.new m) }
    {
        let mut v = v;
        let mut es = es;
        'parts: loop {
            match first_of(es) {
                None => return Ok(Mode::Gave(v)),
                Some((e, rest)) => {
                    match self.assign_read(alloc, e)? {
                        None => return Ok(self.begin_part(e, rest)?),
                        Some(w) => v = w,
                    }
                    es = rest;
                }
            }
        }
    }

    /// Does an assignment whose value is read at once; does nothing, and gives none, for other parts.
    fn assign_read(&mut self, alloc: Global, e: &Code) -> Result<Option<SmallValue>, OutOfMemory>
        ensures { IfOk result (λ r. MatchOption r (self.new ≡ self.old) (λ v. Did self.old (λ program. does program (plan_of e.now)) v self.new)) }
    {
        match e {
            Code::Assign(slot, e) => match self.read(alloc, e.get())? {
                Some(v) => {
                    assign(&mut self.variables, *slot, v.copy(alloc)?);
                    Ok(Some(v))
                }
                None => Ok(None),
            },
            _ => Ok(None),
        }
    }

    /// Begins a part of a block, behind which the others stand.
    fn begin_part(&mut self, e: &'p Code, rest: &'p [Code]) -> Result<Mode<'p>, OutOfMemory>
        ensures { IfOk result (λ m. (program : ProgramPlan) → Does program self.old (λ (s : State). bind (does program (plan_of e.entry.now) s) (λ v. run_all program (go program) v (plans rest.now))) (weight (plan_of e.entry.now) + plans_weight (plans rest.now) + 1) self.new m) }
    {
        if rest.is_empty() {
            return Ok(Mode::Eval(e));
        }
        Ok(self.begin_with(Frame::Rest(rest), e)?)
    }

    /// Goes on with the operands that are left; `v` is the value so far.
    pub(crate) fn next_operand(
        &mut self,
        alloc: Global,
        v: SmallValue,
        es: &'p [(ArithmeticOperator, Code)],
    ) -> Result<Mode<'p>, OutOfMemory>
        ensures { IfOk result (λ m. (program : ProgramPlan) → Does program self.old (run_operands program (go program) v (operands_in es.now)) (operands_weight (operands_in es.now) + 1) self.new m) }
    {
        let mut v = v;
        let mut es = es;
        'operands: loop {
            match first_of(es) {
                None => return Ok(Mode::Gave(v)),
                Some((first, rest)) => {
                    let (operator, e) = first;
                    match self.read(alloc, e)? {
                        None => {
                            self.frames.push(Frame::Operand(*operator, v, rest))?;
                            return Ok(Mode::Eval(e));
                        }
                        Some(w) => match operate(*operator, &v, &w) {
                            Err(fault) => return Ok(Mode::Faulted(fault)),
                            Ok(value) => v = value,
                        },
                    }
                    es = rest;
                }
            }
        }
    }

    /// Goes on with the comparisons that are left; `v` is the operand before them.
    pub(crate) fn next_comparison(
        &mut self,
        alloc: Global,
        v: SmallValue,
        es: &'p [(ComparisonOperator, Code)],
    ) -> Result<Mode<'p>, OutOfMemory>
        ensures { IfOk result (λ m. (program : ProgramPlan) → Does program self.old (run_comparisons program (go program) v (comparisons_in es.now)) (comparisons_weight (comparisons_in es.now) + 1) self.new m) }
    {
        let mut v = v;
        let mut es = es;
        'comparisons: loop {
            match first_of(es) {
                None => return Ok(Mode::Gave(SmallValue {
                    form: Form::Flag(true),
                })),
                Some((first, rest)) => {
                    let (operator, e) = first;
                    match self.read(alloc, e)? {
                        None => {
                            self.frames.push(Frame::Compared(*operator, v, rest))?;
                            return Ok(Mode::Eval(e));
                        }
                        Some(w) => match compare(*operator, &v, &w) {
                            None => return Ok(Mode::Faulted(SmallFault {
                                cause: Cause::Method,
                            })),
                            Some(false) => return Ok(Mode::Gave(SmallValue {
                                form: Form::Flag(false),
                            })),
                            Some(true) => v = w,
                        },
                    }
                    es = rest;
                }
            }
        }
    }

    /// Goes on with the operands of `&&` or `||` that are left, unless the last value decides.
    pub(crate) fn next_connected(
        &mut self,
        alloc: Global,
        connective: Connective,
        v: SmallValue,
        es: &'p [Code],
    ) -> Result<Mode<'p>, OutOfMemory>
        ensures { IfOk result (λ m. (program : ProgramPlan) → Does program self.old (run_connection program (go program) connective v (plans es.now)) (plans_weight (plans es.now) + 1) self.new m) }
    {
        let mut v = v;
        let mut es = es;
        'operands: loop {
            match first_of(es) {
                None => return Ok(Mode::Gave(v)),
                Some((e, rest)) => {
                    match asks(connective, &v) {
                        None => return Ok(Mode::Faulted(SmallFault {
                            cause: Cause::Method,
                        })),
                        Some(false) => return Ok(Mode::Gave(v)),
                        Some(true) => match self.read(alloc, e)? {
                            None => {
                                self.frames.push(Frame::Connection(connective, rest))?;
                                return Ok(Mode::Eval(e));
                            }
                            Some(w) => v = w,
                        },
                    }
                    es = rest;
                }
            }
        }
    }

    /// Goes on with the arms of a branch that are left.
    pub(crate) fn next_arm(
        &mut self,
        alloc: Global,
        arms: &'p [Arm],
        otherwise: &'p Code,
    ) -> Result<Mode<'p>, OutOfMemory>
        ensures { IfOk result (λ m. (program : ProgramPlan) → Does program self.old (run_choices program (go program) (choices_in arms.now) (does program (plan_of otherwise.entry.now))) (choices_weight (choices_in arms.now) + weight (plan_of otherwise.entry.now) + 1) self.new m) }
    {
        let mut arms = arms;
        'arms: loop {
            match first_of(arms) {
                None => return Ok(Mode::Eval(otherwise)),
                Some((arm, rest)) => {
                    match self.read(alloc, &arm.condition)? {
                        None => {
                            self.frames.push(Frame::Choice(&arm.body, rest, otherwise))?;
                            return Ok(Mode::Eval(&arm.condition));
                        }
                        Some(v) => match truth(&v) {
                            Some(true) => return Ok(Mode::Eval(&arm.body)),
                            Some(false) => arms = rest,
                            None => return Ok(Mode::Faulted(SmallFault {
                                cause: Cause::Method,
                            })),
                        },
                    }
                }
            }
        }
    }

    /// Goes on with the arguments that are left, and calls; `vs` are the values so far.
    pub(crate) fn next_argument(
        &mut self,
        alloc: Global,
        callee: Callee,
        vs: Items<SmallValue>,
        es: &'p [Code],
    ) -> Result<Mode<'p>, OutOfMemory>
        ensures { IfOk result (λ m. (program : ProgramPlan) → Does program self.old (run_arguments program (go program) callee vs (plans es.now)) (plans_weight (plans es.now) + 1) self.new m) }
    {
        let mut vs = vs;
        let mut es = es;
        'arguments: loop {
            match first_of(es) {
                None => match callee {
                    Callee::Function(number) => return Ok(Mode::Enter(number, vs)),
                    Callee::BuiltIn(function) => {
                        return Ok(call_built_in(alloc, function, vs.as_slice())?);
                    }
                },
                Some((e, rest)) => {
                    match self.read(alloc, e)? {
                        None => {
                            self.frames.push(Frame::Arguments(callee, rest, vs))?;
                            return Ok(Mode::Eval(e));
                        }
                        Some(v) => vs.push(v)?,
                    }
                    es = rest;
                }
            }
        }
    }
}

/// The truth value, if this is one.
pub(crate) fn truth(v: &SmallValue) -> Option<bool>
    ensures { result ≡ truth v.now }
{
    match &v.form {
        Form::Flag(flag) => Some(*flag),
        _ => None,
    }
}

/// Whether the next operand is evaluated after this value; nothing after one that is no truth value.
pub(crate) fn asks(connective: Connective, v: &SmallValue) -> Option<bool>
    ensures { result ≡ asks connective v.now }
{
    match &v.form {
        Form::Flag(flag) => Some(*flag == asking(connective)),
        _ => None,
    }
}

/// The truth value that asks for the next operand.
fn asking(connective: Connective) -> bool
    ensures { result ≡ asking connective }
{
    match connective {
        Connective::And => true,
        Connective::Or => false,
    }
}

/// A value, or a fault.
pub(crate) fn valued<'p>(outcome: Result<SmallValue, SmallFault>) -> Mode<'p>
    ensures { result ≡ valued_mode outcome }
{
    match outcome {
        Ok(value) => Mode::Gave(value),
        Err(fault) => Mode::Faulted(fault),
    }
}

/// The first item and the others.
pub(crate) fn first_of<T>(list: &[T]) -> Option<(&T, &[T])>
    ensures { MatchOption result (list.now ≡ []) (λ p. list.now ≡ p.0.now ∷ p.1.now) }
{
    list.split_first()
}
