//! Values of the language.

ghost use Rattle.std.specs.Prelude.{◌≡◌};

use crate::name::Name;
use crate::path::Path;

/// The kinds of objects that tasks share.
#[derive(Clone, Copy, PartialEq, Eq, Debug)]
pub enum Kind {
    /// A channel with a capacity of at least 1.
    Channel,
    /// A channel of capacity 0, whose `put!` waits for a `take!`.
    Unbuffered,
    /// A 64-bit integer that is read and changed in one step.
    Atomic,
    /// An event, which stays set until it is reset, or until one task has waited for it.
    Event,
    /// A lock with a list of tasks that wait to be notified.
    Condition,
    /// A lock that its task may take more than once.
    Lock,
    /// A counting semaphore.
    Semaphore,
}

/// A value of the language.
#[derive(PartialEq, Eq, Debug, Drop)]
pub enum Value {
    Int(i64),
    Flag(bool),
    Nothing,
    /// The handle of a task.
    Task(Path),
    /// The handle of an object.
    Object(Kind, Name),
}

impl Value {
    /// An equal value. It takes no memory.
    pub fn copy(&self) -> Value
        ensures { result ≡ self.now }
    {
        match self {
            Value::Int(number) => Value::Int(*number),
            Value::Flag(flag) => Value::Flag(*flag),
            Value::Nothing => Value::Nothing,
            Value::Task(path) => Value::Task(path.copy()),
            Value::Object(kind, name) => Value::Object(*kind, name.copy()),
        }
    }
}
