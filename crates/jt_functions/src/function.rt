//! The functions of the language.

ghost use Rattle.std.specs.Prelude.{◌≡◌, Some};
ghost use Rattle.jt_functions.specs.Functions as spec;

/// How many arguments a function takes.
#[derive(Clone, Copy, Debug, PartialEq, Eq)]
pub struct Arity {
    /// The least number.
    pub least: usize,
    /// The greatest number.
    pub most: usize,
}

/// A function of the language.
#[derive(Clone, Copy, Debug, PartialEq, Eq)]
pub enum Function {
    Div,
    Rem,
    Mod,
    Fetch,
    Wait,
    Close,
    IsOpen,
    IsReady,
    Take,
    Notify,
    Reset,
    Lock,
    Unlock,
    Acquire,
    Release,
    Put,
    AtomicAdd,
    AtomicSub,
    AtomicXchg,
    AtomicCas,
    Yield,
    Condition,
    ReentrantLock,
    Semaphore,
    Event,
}

/// All functions of the language.
const FUNCTIONS: [Function; 25] = [
    Function::Div,
    Function::Rem,
    Function::Mod,
    Function::Fetch,
    Function::Wait,
    Function::Close,
    Function::IsOpen,
    Function::IsReady,
    Function::Take,
    Function::Notify,
    Function::Reset,
    Function::Lock,
    Function::Unlock,
    Function::Acquire,
    Function::Release,
    Function::Put,
    Function::AtomicAdd,
    Function::AtomicSub,
    Function::AtomicXchg,
    Function::AtomicCas,
    Function::Yield,
    Function::Condition,
    Function::ReentrantLock,
    Function::Semaphore,
    Function::Event,
];

impl Function {
    /// The table: name, least and greatest number of arguments, whether a call can be run today.
    fn row(self) -> (&'static [u8], usize, usize, bool)
        ensures name { result.0.now ≡ (spec.row_of self).name }
        ensures arity { spec.takes result.1 result.2 ≡ (spec.row_of self).arity }
        ensures runs { result.3 ≡ (spec.row_of self).runs }
    {
        match self {
            Function::Div => (b"div", 2, 2, true),
            Function::Rem => (b"rem", 2, 2, true),
            Function::Mod => (b"mod", 2, 2, true),
            Function::Fetch => (b"fetch", 1, 1, true),
            Function::Wait => (b"wait", 1, 1, true),
            Function::Close => (b"close", 1, 1, false),
            Function::IsOpen => (b"isopen", 1, 1, false),
            Function::IsReady => (b"isready", 1, 1, false),
            Function::Take => (b"take!", 1, 1, false),
            Function::Notify => (b"notify", 1, 1, false),
            Function::Reset => (b"reset", 1, 1, false),
            Function::Lock => (b"lock", 1, 1, false),
            Function::Unlock => (b"unlock", 1, 1, false),
            Function::Acquire => (b"acquire", 1, 1, false),
            Function::Release => (b"release", 1, 1, false),
            Function::Put => (b"put!", 2, 2, false),
            Function::AtomicAdd => (b"atomic_add!", 2, 2, false),
            Function::AtomicSub => (b"atomic_sub!", 2, 2, false),
            Function::AtomicXchg => (b"atomic_xchg!", 2, 2, false),
            Function::AtomicCas => (b"atomic_cas!", 3, 3, false),
            Function::Yield => (b"yield", 0, 0, true),
            Function::Condition => (b"Condition", 0, 0, false),
            Function::ReentrantLock => (b"ReentrantLock", 0, 0, false),
            Function::Semaphore => (b"Semaphore", 1, 1, false),
            Function::Event => (b"Event", 0, 1, false),
        }
    }

    /// The function of the language with this name; nothing if there is none of that name.
    #[tactic(auto, unfolding(crate::specs::Functions::language_functions))]
    pub fn named(name: &[u8]) -> Option<Function>
        ensures { result ≡ spec.named name.now }
    {
        named_in(&FUNCTIONS, name)
    }

    /// What it is called. No other function of the language has its name.
    #[tactic(auto, using(crate::proofs::Named::name_alone))]
    pub fn name(self) -> &'static [u8]
        ensures row { result.now ≡ (spec.row_of self).name }
        ensures again { spec.named result.now ≡ Some self }
        ensures alone { (other : Function) → (spec.row_of other).name ≡ result.now → other ≡ self }
    {
        self.row().0
    }

    /// How many arguments it takes.
    pub fn arity(self) -> Arity
        ensures { result ≡ (spec.row_of self).arity }
    {
        let (_, least, most, _) = self.row();
        Arity { least, most }
    }

    /// Whether a call of it can be run today.
    pub fn runs(self) -> bool
        ensures { result ≡ (spec.row_of self).runs }
    {
        self.row().3
    }
}

/// The first of these functions with this name.
fn named_in(functions: &[Function], name: &[u8]) -> Option<Function>
    ensures { result ≡ spec.named_in functions.now name.now }
{
    for function in functions {
        if function.row().0 == name {
            return Some(*function);
        }
    }
    None
}

/// How many arguments the function of the language with this name takes; nothing if there is none
/// of that name.
pub fn arity_of(name: &[u8]) -> Option<Arity>
    ensures { result ≡ spec.arity_of name.now }
{
    Some(Function::named(name)?.arity())
}

/// Whether this is the name of a function of the language.
pub fn is_language_function(name: &[u8]) -> bool
    ensures { result ≡ spec.is_language_function name.now }
{
    Function::named(name).is_some()
}
