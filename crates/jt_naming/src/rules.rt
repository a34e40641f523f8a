//! The rules of names.

ghost use Rattle.std.specs.Prelude.{◌≡◌};
ghost use Rattle.jt_naming.specs.Rules as spec;

use jt_functions::Arity;

/// A rule of names.
#[derive(Clone, Copy, Debug, PartialEq, Eq)]
pub enum Rule {
    /// A name means a variable that is there, a constant or a function.
    UnknownName,
    /// A task's body uses a variable of outside only where it is assigned once, before the body, and
    /// assigns none.
    CapturedAssigned,
    /// A loop of the script doesn't assign to a variable of the script.
    AmbiguousGlobal,
    /// A function, a constant and a parameter are made once.
    TwiceDefined,
    /// A call has as many arguments as its function takes.
    WrongCount,
    /// A function uses no variable of the script; constants come first, call nothing of the script and
    /// make no task.
    NoConstant,
    /// A jump stays within its function, its task's body, its loop, its `@sync` and the script.
    BadJump,
}

/// A rule that is broken, and where.
#[derive(Clone, Copy, Debug, PartialEq, Eq)]
pub struct Broken {
    /// In bytes from the text's beginning.
    pub at: u32,
    pub rule: Rule,
}

impl Rule {
    /// Of two rules that are broken at one place, the one of the lower rank counts.
    fn rank(self) -> u32
        ensures { result ≡ spec.rank self }
    {
        match self {
            Rule::UnknownName => 1,
            Rule::CapturedAssigned => 2,
            Rule::AmbiguousGlobal => 3,
            Rule::TwiceDefined => 4,
            Rule::WrongCount => 5,
            Rule::NoConstant => 6,
            Rule::BadJump => 7,
        }
    }
}

impl Broken {
    /// Whether it comes before the other one: by its place, and at one place by its rule's rank.
    pub fn is_below(self, other: Broken) -> bool
        ensures { result ≡ spec.below self other }
    {
        self.at < other.at || (self.at == other.at && self.rule.rank() < other.rule.rank())
    }
}

/// Whether a function that takes so many arguments is called with another number.
pub fn is_wrong(arity: Arity, count: usize) -> bool
    ensures { result ≡ spec.is_wrong arity count }
{
    count < arity.least || arity.most < count
}
