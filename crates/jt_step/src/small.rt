//! Values and faults as the evaluator keeps them: two words each, with what is longer elsewhere.

ghost use Rattle.std.specs.Prelude.{◌≡◌, IfOk};
ghost use Rattle.jt_base.specs.declared.value.Value.TheVariants.{Task};
ghost use Rattle.jt_base.specs.declared.operation.Fault.TheVariants.{TaskFailed, Error};

use jt_base::{Fault, Kind, Name, OutOfMemory, Path, Text, Value};
use sqlite_items::Boxed;
use std::alloc::Global;
use std::marker::Model;

/// What a value is.
#[derive(Drop)]
pub enum Form {
    Int(i64),
    Flag(bool),
    Nothing,
    Task(Boxed<Path>),
    Object(Kind, Boxed<Name>),
}

/// A value, which contracts see as the one of the language.
#[derive(Drop)]
pub struct SmallValue {
    pub form: Form,
}

impl Model for SmallValue {
    ghost use Rattle.jt_base.specs.declared.value.Value as language;

    ghost Value = { language.Value };

    ghost use Rattle.jt_step.specs.Forms.{value_in};

    ghost view = { λ v. value_in v.form };
}

impl SmallValue {
    /// The handle of the task of this path.
    pub(crate) fn task(alloc: Global, path: &Path) -> Result<SmallValue, OutOfMemory>
        ensures { IfOk result (λ v. v ≡ Task path.now) }
    {
        Ok(SmallValue {
            form: Form::Task(Boxed::new(alloc, path.copy())?),
        })
    }

    /// An equal value. Only a handle takes memory.
    pub(crate) fn copy(&self, alloc: Global) -> Result<SmallValue, OutOfMemory>
        ensures { IfOk result (λ v. v ≡ self.now) }
    {
        match &self.form {
            Form::Int(number) => Ok(SmallValue {
                form: Form::Int(*number),
            }),
            Form::Flag(flag) => Ok(SmallValue {
                form: Form::Flag(*flag),
            }),
            Form::Nothing => Ok(SmallValue {
                form: Form::Nothing,
            }),
            Form::Task(path) => Ok(SmallValue {
                form: Form::Task(Boxed::new(alloc, path.get().copy())?),
            }),
            Form::Object(kind, name) => Ok(SmallValue {
                form: Form::Object(*kind, Boxed::new(alloc, name.get().copy())?),
            }),
        }
    }

    /// The same value as one of the language. It takes no memory.
    pub(crate) fn value(&self) -> Value
        ensures { result ≡ self.now }
    {
        match &self.form {
            Form::Int(number) => Value::Int(*number),
            Form::Flag(flag) => Value::Flag(*flag),
            Form::Nothing => Value::Nothing,
            Form::Task(path) => Value::Task(path.get().copy()),
            Form::Object(kind, name) => Value::Object(*kind, name.get().copy()),
        }
    }

    /// The same value as the evaluator keeps it. Only a handle takes memory.
    pub(crate) fn of(alloc: Global, value: &Value) -> Result<SmallValue, OutOfMemory>
        ensures { IfOk result (λ v. v ≡ value.now) }
    {
        match value {
            Value::Int(number) => Ok(SmallValue {
                form: Form::Int(*number),
            }),
            Value::Flag(flag) => Ok(SmallValue {
                form: Form::Flag(*flag),
            }),
            Value::Nothing => Ok(SmallValue {
                form: Form::Nothing,
            }),
            Value::Task(path) => Ok(SmallValue {
                form: Form::Task(Boxed::new(alloc, path.copy())?),
            }),
            Value::Object(kind, name) => Ok(SmallValue {
                form: Form::Object(*kind, Boxed::new(alloc, name.copy())?),
            }),
        }
    }
}

/// What a fault is.
#[derive(Drop)]
pub enum Cause {
    Divide,
    Domain,
    Method,
    Undefined,
    TurnLimit,
    StackLimit,
    ForkTooDeep,
    /// Any fault.
    Long(Boxed<Fault>),
}

/// A fault, which contracts see as the one of the language.
#[derive(Drop)]
pub struct SmallFault {
    pub cause: Cause,
}

impl Model for SmallFault {
    ghost use Rattle.jt_base.specs.declared.operation.Fault.{Fault};

    ghost Value = { Fault };

    ghost use Rattle.jt_step.specs.Forms.{fault_in};

    ghost view = { λ f. fault_in f.cause };
}

impl SmallFault {
    /// A failed task was waited for.
    pub(crate) fn task_failed(alloc: Global, path: &Path) -> Result<SmallFault, OutOfMemory>
        ensures { IfOk result (λ f. f ≡ TaskFailed path.now) }
    {
        Ok(SmallFault {
            cause: Cause::Long(Boxed::new(alloc, Fault::TaskFailed(path.copy()))?),
        })
    }

    /// A call of `error` with this text.
    pub(crate) fn error(alloc: Global, text: Text) -> Result<SmallFault, OutOfMemory>
        ensures { IfOk result (λ f. f ≡ Error text) }
    {
        Ok(SmallFault {
            cause: Cause::Long(Boxed::new(alloc, Fault::Error(text))?),
        })
    }

    /// The same fault as one of the language. Only a text takes memory.
    pub(crate) fn fault(&self, alloc: Global) -> Result<Fault, OutOfMemory>
        ensures { IfOk result (λ f. f ≡ self.now) }
    {
        match &self.cause {
            Cause::Divide => Ok(Fault::Divide),
            Cause::Domain => Ok(Fault::Domain),
            Cause::Method => Ok(Fault::Method),
            Cause::Undefined => Ok(Fault::Undefined),
            Cause::TurnLimit => Ok(Fault::TurnLimit),
            Cause::StackLimit => Ok(Fault::StackLimit),
            Cause::ForkTooDeep => Ok(Fault::ForkTooDeep),
            Cause::Long(fault) => Ok(fault.get().copy(alloc)?),
        }
    }
}
