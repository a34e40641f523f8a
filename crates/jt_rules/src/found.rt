//! What a walk over a script found so far, and how each thing that stands there adds to it.

ghost use Rattle.std.specs.Prelude.{◌≡◌, [], false, true, not, IfOk};
ghost use Rattle.jt_functions.specs.Functions.{arity_of};
ghost use Rattle.jt_names.specs.Names.{member, is_nothing};
ghost use Rattle.jt_names.specs.Tops.{signature_of};
ghost use Rattle.jt_scopes.specs.Tests.{outer, outside};
ghost use Rattle.jt_naming.specs.Rules as rules;
ghost use Rattle.jt_naming.specs.Scripts.{parameters_break};
ghost use Rattle.jt_rules.specs.Walk as spec;

use crate::context::{Context, is_constant_before, is_defined_before};
use jt_functions::{arity_of, is_language_function};
use jt_names::{Names, is_nothing};
use jt_naming::{Broken, Rule, is_wrong};
use jt_outline::ScopeKind;
use jt_places::{Chain, is_before};
use jt_syntax::Identifier;
use std::alloc::{AllocError, Global};

/// What was found so far.
#[derive(Clone, Copy, Debug)]
pub(crate) struct Found {
    /// The least rule that is broken.
    pub least: Option<Broken>,
    /// Whether a function of the script is called, something printed or a macro word found, since this
    /// was last false.
    pub called: bool,
}

impl Found {
    /// With the beginning of a scope.
    pub(crate) fn opened(self, kind: ScopeKind) -> Found
        ensures { result ≡ spec.opened kind self }
    {
        Found {
            least: self.least,
            called: !matches!(kind, ScopeKind::Loop) || self.called,
        }
    }

    /// With a rule, broken where the test says so.
    fn refusing(self, is_broken: bool, at: u32, rule: Rule) -> Found
        ensures { result ≡ spec.refusing is_broken at rule self }
    {
        if !is_broken {
            return self;
        }
        let broken = Broken { at, rule };
        match self.least {
            Some(least) if !broken.is_below(least) => self,
            _ => Found {
                least: Some(broken),
                called: self.called,
            },
        }
    }

    /// With the use of a name.
    #[tactic(auto, using(jt_places::proofs::Outer::outer_all))]
    pub(crate) fn with_use(self, context: &Context, chain: &Chain, name: &Identifier) -> Found
        ensures { result ≡ spec.judged self (rules.use_breaks context.now name.now chain.now) false }
    {
        self.with_use_within(context, chain, chain.depth(), name)
    }

    /// With the use of a name in the outermost `depth` scopes.
    fn with_use_within(
        self,
        context: &Context,
        chain: &Chain,
        depth: usize,
        name: &Identifier,
    ) -> Found
        ensures { result ≡ spec.judged self (rules.use_breaks context.now name.now (outer depth chain.now)) false }
    {
        let bytes = name.name.as_slice();
        let is_unknown = !(chain.is_known(depth, bytes)
            || (context.constants.has(bytes) || is_nothing(bytes)));
        let is_crossed = chain.crosses(depth, bytes);
        let is_left = chain.leaves_function(depth, bytes);
        self.refusing(is_unknown, name.at, Rule::UnknownName)
            .refusing(is_crossed, name.at, Rule::CapturedAssigned)
            .refusing(is_left, name.at, Rule::NoConstant)
    }

    /// With `$x`, where the `$` stands at this place.
    pub(crate) fn with_interpolation(
        self,
        context: &Context,
        chain: &Chain,
        at: u32,
        name: &Identifier,
    ) -> Found
        ensures { result ≡ spec.judged self (rules.interpolation_breaks context.now at name.now (outside chain.now)) false }
    {
        match chain.outside() {
            None => self.refusing(true, at, Rule::UnknownName),
            Some(depth) => self.with_use_within(context, chain, depth, name),
        }
    }

    /// With an assignment.
    pub(crate) fn with_assignment(
        self,
        context: &Context,
        chain: &Chain,
        name: &Identifier,
    ) -> Found
        ensures { result ≡ spec.judged self (rules.assignment_breaks context.now name.now chain.now) false }
    {
        let is_outside = chain.is_assigned_out(name.name.as_slice());
        let is_ambiguous = chain.is_ambiguous(name.name.as_slice());
        let is_twice = chain.in_script() && is_constant_before(context, name);
        self.refusing(is_outside, name.at, Rule::CapturedAssigned)
            .refusing(is_ambiguous, name.at, Rule::AmbiguousGlobal)
            .refusing(is_twice, name.at, Rule::TwiceDefined)
    }

    /// With the call of a function that has so many arguments.
    pub(crate) fn with_call(self, context: &Context, name: &Identifier, count: usize) -> Found
        ensures { result ≡ spec.judged self (rules.call_breaks (arity_of name.now.name) (signature_of context.now.functions name.now.name) name.now.at count) (rules.is_script_function context.now name.now.name) }
    {
        let bytes = name.name.as_slice();
        let is_call = !is_language_function(bytes) && context.functions.place_of(bytes).is_some();
        let found = self.with_count(context, name, count);
        Found {
            least: found.least,
            called: is_call || self.called,
        }
    }

    /// With the number of arguments of a call.
    fn with_count(self, context: &Context, name: &Identifier, count: usize) -> Found
        ensures { result ≡ spec.judged self (rules.call_breaks (arity_of name.now.name) (signature_of context.now.functions name.now.name) name.now.at count) false }
    {
        match arity_of(name.name.as_slice()) {
            Some(arity) => self.refusing(is_wrong(arity, count), name.at, Rule::WrongCount),
            None => self.with_script_count(context, name, count),
        }
    }

    /// With the number of arguments of a call of a function of the script.
    fn with_script_count(self, context: &Context, name: &Identifier, count: usize) -> Found
        ensures { result ≡ spec.judged self (rules.script_call_breaks (signature_of context.now.functions name.now.name) name.now.at count) false }
    {
        match context.functions.get(name.name.as_slice()) {
            None => self.refusing(true, name.at, Rule::UnknownName),
            Some(function) => {
                self.refusing(function.parameters != count, name.at, Rule::WrongCount)
            }
        }
    }

    /// With a jump, which may not stand there unless the test says so.
    pub(crate) fn with_jump(self, at: u32, may_stand: bool) -> Found
        ensures { result ≡ spec.judged self (rules.when (not may_stand) at Rule.BadJump) false }
    {
        self.refusing(!may_stand, at, Rule::BadJump)
    }

    /// With a constant, where `const` stands at this place.
    pub(crate) fn with_constant(
        self,
        context: &Context,
        name: &Identifier,
        at: u32,
        is_misplaced: bool,
    ) -> Found
        ensures { result ≡ spec.judged self (rules.constant_breaks context.now name.now at is_misplaced) false }
    {
        let is_twice = is_defined_before(context, name);
        self.refusing(is_twice, name.at, Rule::TwiceDefined)
            .refusing(is_misplaced, at, Rule::NoConstant)
    }

    /// With a function's name.
    pub(crate) fn with_function(self, context: &Context, name: &Identifier) -> Found
        ensures { result ≡ spec.judged self (rules.function_breaks context.now name.now) false }
    {
        let bytes = name.name.as_slice();
        let function = context.functions.place_of(bytes);
        let is_twice = is_language_function(bytes) || is_before(function, name.at);
        self.refusing(is_twice, name.at, Rule::TwiceDefined)
    }

    /// With the parameters of a function.
    #[tactic(auto, using(crate::proofs::Least::worse_append))]
    pub(crate) fn with_parameters(
        self,
        alloc: Global,
        parameters: &[Identifier],
    ) -> Result<Found, AllocError>
        ensures { IfOk result (λ found. found ≡ spec.judged self (parameters_break [] parameters.now) false) }
    {
        let mut found = self;
        let mut earlier = Names::new(alloc);
        for parameter in parameters {
            let is_twice = earlier.has(parameter.name.as_slice());
            found = found.refusing(is_twice, parameter.at, Rule::TwiceDefined);
            earlier.add(alloc, parameter)?;
        }
        Ok(found)
    }
}
