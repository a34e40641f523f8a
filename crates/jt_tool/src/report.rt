//! What a command answers.

ghost use Rattle.std.specs.Prelude.{◌≡◌, ◌≤◌, length};
ghost use Rattle.jt_tool.specs.Status.{exit_status, refusal_word};

use jt_base::{Entry, Fault};

/// Why a script is refused. A place is that of the byte at which a token begins, but where another
/// byte is named.
#[derive(Clone, Copy, PartialEq, Eq, Debug)]
pub enum Refusal {
    /// No token begins or goes on with the character whose first byte stands here.
    BadCharacter,
    /// The string or comment that begins here isn't closed.
    OpenString,
    /// The number that begins here is greater than 9223372036854775807.
    NumberTooLarge,
    /// The tokens before this one begin a script, and with it they begin none.
    Unexpected,
    /// This opener is expected here, and would be open inside `MOST_OPEN` others.
    TooDeep,
    /// The form of the script that begins here isn't built yet.
    NotBuilt,
    /// The name here means nothing, or a `$` stands here outside the body of a task.
    UnknownName,
    /// A task's body uses a variable here that is not assigned just once before the body, or assigns
    /// here to a variable of outside.
    CapturedAssigned,
    /// A loop of the script assigns here to a variable of the script.
    AmbiguousGlobal,
    /// The function, constant or parameter here was made before.
    TwiceDefined,
    /// The call here has another number of arguments than its function takes.
    WrongCount,
    /// A function uses a variable of the script here, or a constant stands here that doesn't come
    /// first, or that calls a function of the script, makes a task or prints.
    NoConstant,
    /// The jump here leaves its function, its task's body, its loop, an `@sync` or the script.
    BadJump,
}

impl Refusal {
    /// The word of this kind of refusal.
    pub(crate) fn name(&self) -> &'static str
        ensures name { result.now ≡ refusal_word self.now }
        ensures short { length result.now ≤ 20 }
    {
        match self {
            Refusal::BadCharacter => "bad-character",
            Refusal::OpenString => "open-string",
            Refusal::NumberTooLarge => "number-too-large",
            Refusal::Unexpected => "unexpected",
            Refusal::TooDeep => "too-deep",
            Refusal::NotBuilt => "not-built",
            Refusal::UnknownName => "unknown-name",
            Refusal::CapturedAssigned => "captured-assigned",
            Refusal::AmbiguousGlobal => "ambiguous-global",
            Refusal::TwiceDefined => "twice-defined",
            Refusal::WrongCount => "wrong-count",
            Refusal::NoConstant => "no-constant",
            Refusal::BadJump => "bad-jump",
        }
    }
}

/// How a command ended.
#[derive(PartialEq, Eq, Debug, Drop)]
pub enum Status {
    /// The script's main task ended, and all lines were written.
    Ok,
    /// The script's main task failed with this fault, and all lines were written.
    MainFailed(Fault),
    /// The words are no command.
    Usage,
    /// The script is refused, at this byte of it, counted from 0.
    Refused(Refusal, u32),
    /// A read of the source failed.
    ReadFault,
    /// A write of the output failed.
    WriteFault,
    /// The script's main task hasn't ended and no task can go on; all lines were written.
    Deadlock,
    /// The script's main task hasn't ended at the limit on entries, and all lines were written.
    EventLimit,
    /// No memory was to be had. Nothing was written.
    OutOfMemory,
    /// The source gave more bytes than a script may have.
    TooLarge,
    /// The bytes that the source gave aren't UTF-8.
    NotText,
}

impl Status {
    /// The exit status of the program.
    pub fn number(&self) -> u8
        ensures { result ≡ exit_status self.now }
    {
        match self {
            Status::Ok => 0,
            Status::MainFailed(_) => 1,
            Status::Usage => 2,
            Status::Refused(_, _) => 3,
            Status::ReadFault => 4,
            Status::WriteFault => 5,
            Status::Deadlock => 6,
            Status::EventLimit => 7,
            Status::OutOfMemory => 8,
            Status::TooLarge => 9,
            Status::NotText => 10,
        }
    }
}

/// What a command answers: how it ended, and the history of its run. The history is empty where no
/// run was made.
#[derive(Drop)]
pub struct Report {
    pub status: Status,
    pub history: Vec<Entry>,
}
