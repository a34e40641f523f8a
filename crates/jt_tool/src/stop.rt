//! Why a command stops before its run.

use crate::reading::ReadError;
use crate::report::Refusal;
use jt_base::OutOfMemory;
use jt_lexer::LexError;
use jt_naming::NameError;
use jt_parser::ParseError;

/// Why a command stops before its run.
#[derive(Clone, Copy, PartialEq, Eq, Debug, Drop)]
pub(crate) enum Stop {
    /// The words are no command.
    Usage,
    /// A read of the source failed.
    ReadFault,
    /// The source gave more bytes than a script may have.
    TooLarge,
    /// The bytes that the source gave aren't UTF-8.
    NotText,
    /// The script is refused, at this byte of it, counted from 0.
    Refused(Refusal, u32),
    /// No memory was to be had.
    OutOfMemory,
}

impl From<OutOfMemory> for Stop {
    ghost use Rattle.std.specs.Prelude.{◌≡◌};
    ghost use Rattle.jt_tool.specs.declared.stop.Stop.TheVariants.{OutOfMemory as NoMemory};

    ghost from_gives = { λ _ s. s ≡ NoMemory };

    fn from(_error: OutOfMemory) -> Stop {
        Stop::OutOfMemory
    }
}

impl From<ReadError> for Stop {
    ghost use Rattle.std.specs.Prelude.{◌≡◌};
    ghost use Rattle.jt_tool.specs.Stops.{stop_of_reading};

    ghost from_gives = { λ e s. s ≡ stop_of_reading e };

    fn from(error: ReadError) -> Stop {
        match error {
            ReadError::Failed => Stop::ReadFault,
            ReadError::TooLarge => Stop::TooLarge,
            ReadError::OutOfMemory => Stop::OutOfMemory,
        }
    }
}

impl From<LexError> for Stop {
    ghost use Rattle.std.specs.Prelude.{◌≡◌};
    ghost use Rattle.jt_tool.specs.Stops.{stop_of_lexing};

    ghost from_gives = { λ e s. s ≡ stop_of_lexing e };

    fn from(error: LexError) -> Stop {
        match error {
            LexError::BadCharacter(at) => Stop::Refused(Refusal::BadCharacter, at),
            LexError::OpenString(at) => Stop::Refused(Refusal::OpenString, at),
            LexError::NumberTooLarge(at) => Stop::Refused(Refusal::NumberTooLarge, at),
            LexError::OutOfMemory => Stop::OutOfMemory,
        }
    }
}

impl From<ParseError> for Stop {
    ghost use Rattle.std.specs.Prelude.{◌≡◌};
    ghost use Rattle.jt_tool.specs.Stops.{stop_of_parsing};

    ghost from_gives = { λ e s. s ≡ stop_of_parsing e };

    fn from(error: ParseError) -> Stop {
        match error {
            ParseError::Unexpected(at) => Stop::Refused(Refusal::Unexpected, at),
            ParseError::TooDeep(at) => Stop::Refused(Refusal::TooDeep, at),
            ParseError::OutOfMemory => Stop::OutOfMemory,
        }
    }
}

impl From<NameError> for Stop {
    ghost use Rattle.std.specs.Prelude.{◌≡◌};
    ghost use Rattle.jt_tool.specs.Stops.{stop_of_naming};

    ghost from_gives = { λ e s. s ≡ stop_of_naming e };

    fn from(error: NameError) -> Stop {
        match error {
            NameError::UnknownName(at) => Stop::Refused(Refusal::UnknownName, at),
            NameError::CapturedAssigned(at) => Stop::Refused(Refusal::CapturedAssigned, at),
            NameError::AmbiguousGlobal(at) => Stop::Refused(Refusal::AmbiguousGlobal, at),
            NameError::TwiceDefined(at) => Stop::Refused(Refusal::TwiceDefined, at),
            NameError::WrongCount(at) => Stop::Refused(Refusal::WrongCount, at),
            NameError::NoConstant(at) => Stop::Refused(Refusal::NoConstant, at),
            NameError::BadJump(at) => Stop::Refused(Refusal::BadJump, at),
            NameError::OutOfMemory => Stop::OutOfMemory,
        }
    }
}
