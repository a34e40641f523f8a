//! Why a script has no program.

ghost use Rattle.std.specs.Prelude.{◌≡◌};
ghost use Rattle.jt_naming.specs.Refusals.{refusal_of};

use crate::rules::{Broken, Rule};
use std::alloc::AllocError;
use thiserror::Error;

/// Why `resolve` gives no program: the broken rule of names at the smallest place, and at one place
/// the first of these. A place is in bytes from the text's beginning.
#[derive(Clone, Copy, Debug, PartialEq, Eq, Drop, Error)]
pub enum NameError {
    /// The name here means no variable that is there, no constant and no function.
    #[error("unknown name at {0}")]
    UnknownName(u32),
    /// A task's body uses a variable here that isn't assigned once and before the body, or assigns
    /// here to a variable outside it.
    #[error("captured variable assigned at {0}")]
    CapturedAssigned(u32),
    /// A loop of the script assigns here to a variable of the script.
    #[error("ambiguous global variable at {0}")]
    AmbiguousGlobal(u32),
    /// The function, constant or parameter here was made before.
    #[error("defined twice at {0}")]
    TwiceDefined(u32),
    /// The call here has another number of arguments than its function takes.
    #[error("wrong number of arguments at {0}")]
    WrongCount(u32),
    /// A function uses a variable of the script here, or the constant here doesn't come first or calls the script.
    #[error("no constant at {0}")]
    NoConstant(u32),
    /// The jump here would leave its function, its loop or the script.
    #[error("bad jump at {0}")]
    BadJump(u32),
    /// There was no memory for the program.
    #[error("out of memory")]
    OutOfMemory,
}

impl From<AllocError> for NameError {
    ghost use Rattle.std.specs.Prelude.{◌≡◌};
    ghost use Rattle.jt_naming.specs.declared.error.NameError.TheVariants.{OutOfMemory};

    ghost from_gives = { λ _ e. e ≡ OutOfMemory };

    fn from(_error: AllocError) -> NameError {
        NameError::OutOfMemory
    }
}

/// The error for a rule that is broken.
pub fn refusal(broken: Broken) -> NameError
    ensures { result ≡ refusal_of broken }
{
    match broken.rule {
        Rule::UnknownName => NameError::UnknownName(broken.at),
        Rule::CapturedAssigned => NameError::CapturedAssigned(broken.at),
        Rule::AmbiguousGlobal => NameError::AmbiguousGlobal(broken.at),
        Rule::TwiceDefined => NameError::TwiceDefined(broken.at),
        Rule::WrongCount => NameError::WrongCount(broken.at),
        Rule::NoConstant => NameError::NoConstant(broken.at),
        Rule::BadJump => NameError::BadJump(broken.at),
    }
}
