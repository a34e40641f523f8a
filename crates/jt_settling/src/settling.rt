//! The scopes of a script, in one pass over its outline.

ghost use Rattle.std.specs.Prelude.{◌≡◌, [], length, not, map, IfOk, OnOk};
ghost use Rattle.jt_names.specs.Names.{add_where};
ghost use Rattle.jt_outline.specs.declared.mark.ScopeKind.TheVariants as kind;
ghost use Rattle.jt_outline.specs.Marks as tree;
ghost use Rattle.jt_outline.specs.View.{mark_view, mark_views, scope_view, function_view, part_view, outline_view};
ghost use Rattle.jt_scopes.specs.Bodies.{direct_parts};
ghost use Rattle.jt_scopes.specs.Scopes.{scopes_of};
ghost use Rattle.jt_settling.specs.Settling as spec;

use crate::counts::Counts;
use crate::direct::{add_script_names, direct, marks_of};
use jt_holders::Holders;
use jt_names::Names;
use jt_outline::{FunctionMark, Mark, Outline, Part, ScopeKind, ScopeMark};
use jt_scopes::Scope;
use jt_syntax::Identifier;
use sqlite_items::Items;
use std::alloc::{AllocError, Global};
use std::mem::replace;

/// Where the pass stands. A body is that of a function, of a task or of the script, with its loops; it
/// goes by how many scopes are open round it.
#[derive(Drop)]
pub(crate) struct Settling {
    alloc: Global,
    /// The names of the open scopes.
    holders: Holders,
    /// How often each name was assigned so far in the innermost open scope that has it.
    counts: Counts,
    /// What the innermost body takes.
    taken: Names,
    /// The scopes that began. One that is open is empty yet.
    scopes: Items<Scope>,
}

/// A scope that is open, or is to begin next.
#[derive(Drop)]
pub(crate) struct Open {
    /// How many scopes began before it.
    index: usize,
    /// What is known of it so far: its kind, its place and its names.
    scope: Scope,
    /// How often each of the names was assigned before it, as a variable of a scope round it.
    numbers: Items<u8>,
}

/// How a scope begins.
#[derive(Clone, Copy)]
pub(crate) struct Head<'a> {
    kind: ScopeKind,
    at: u32,
    variables: &'a [Identifier],
}

/// What a step of the pass gives back: an error where memory is wanting.
type Step = Result<(), AllocError>;

/// All scopes of a script, in the order in which they begin: its own first, then those of its functions,
/// then those of the main task. The time grows with the outline and with the captures alone, whatever is
/// nested in whatever.
///
/// # Errors
///
/// Where memory is wanting.
pub fn settle(alloc: Global, outline: &Outline) -> Result<Items<Scope>, AllocError>
    ensures { IfOk result (λ scopes. scopes ≡ scopes_of (outline_view outline.now)) }
{
    let mut settling = Settling::new(alloc);
    let scopes = settling.finish(outline);
    drop(settling);
    scopes
}

/// A scope with no names.
fn empty_scope(alloc: Global, kind: ScopeKind, at: u32) -> Scope
    ensures { result ≡ record { kind = kind; at = at; names = []; again = []; captures = [] } }
{
    Scope {
        kind,
        at,
        names: Names::new(alloc),
        again: Names::new(alloc),
        captures: Names::new(alloc),
    }
}

/// What is assigned where a scope begins.
fn variables_of(kind: ScopeKind, variables: &[Identifier]) -> &[Identifier]
    ensures { result.now ≡ spec.variables_of kind variables.now }
{
    match kind {
        ScopeKind::Sync => &[],
        ScopeKind::Loop | ScopeKind::Task | ScopeKind::Function | ScopeKind::Script => variables,
    }
}

/// Whether a list has the name that stands further in than the outermost `depth`.
fn is_within(holders: &Holders, depth: usize, name: &[u8]) -> bool
    ensures { result ≡ spec.is_within depth holders.now name.now }
{
    depth < holders.innermost(name)
}

/// Adds those of the names that no list further in than the outermost `depth` has.
fn add_outside(
    alloc: Global,
    holders: &Holders,
    depth: usize,
    names: &mut Names,
    more: &[Identifier],
) -> Result<(), AllocError>
    ensures { OnOk result (names.new ≡ add_where (λ x. not (spec.is_within depth holders.now x)) names.old more.now) }
{
    for name in more {
        if !is_within(holders, depth, name.name.as_slice()) {
            names.add(alloc, name)?;
        }
    }
    Ok(())
}

impl Settling {
    fn new(alloc: Global) -> Settling
        ensures holders { result.holders ≡ [] }
        ensures counts { result.counts ≡ [] }
        ensures taken { result.taken ≡ [] }
        ensures scopes { result.scopes ≡ [] }
    {
        Settling {
            alloc,
            holders: Holders::new(alloc),
            counts: Counts::new(alloc),
            taken: Names::new(alloc),
            scopes: Items::new(alloc),
        }
    }

    /// Adds the variables of a loop in this body, and what is assigned in it that no scope of the body
    /// has.
    fn add_loop_names(&self, names: &mut Names, body: usize, head: &Head, marks: &[Mark]) -> Step
        requires { names.old ≡ [] }
        ensures { OnOk result (names.new ≡ spec.names_in body self.now.holders kind.Loop head.now.variables.now (mark_views marks.now)) }
    {
        names.add_all(self.alloc, head.variables)?;
        let mut assigned = Names::new(self.alloc);
        direct(self.alloc, &mut assigned, marks)?;
        add_outside(self.alloc, &self.holders, body, names, assigned.as_slice())
    }

    /// Adds the names of a scope in this body.
    fn add_names(&self, names: &mut Names, body: usize, head: &Head, marks: &[Mark]) -> Step
        requires { names.old ≡ [] }
        ensures { OnOk result (names.new ≡ spec.names_in body self.now.holders head.now.kind head.now.variables.now (mark_views marks.now)) }
    {
        match head.kind {
            ScopeKind::Sync => Ok(()),
            ScopeKind::Loop => self.add_loop_names(names, body, head, marks),
            ScopeKind::Task => direct(self.alloc, names, marks),
            ScopeKind::Function | ScopeKind::Script => {
                names.add_all(self.alloc, head.variables)?;
                direct(self.alloc, names, marks)
            }
        }
    }

    /// A scope that is to begin next.
    fn next_scope(&self, kind: ScopeKind, at: u32) -> Open
        ensures { result ≡ spec.next_scope self.now kind at }
    {
        Open {
            index: self.scopes.len(),
            scope: empty_scope(self.alloc, kind, at),
            numbers: Items::new(self.alloc),
        }
    }

    /// Opens a scope that is to begin next and has its names.
    fn start(&mut self, begun: &mut Open) -> Step
        requires index { begun.old.index ≡ length self.old.scopes }
        requires again { begun.old.scope.again ≡ [] }
        requires captures { begun.old.scope.captures ≡ [] }
        requires numbers { begun.old.numbers ≡ [] }
        ensures scope { OnOk result (begun.new ≡ spec.open_scope self.old begun.old.scope.kind begun.old.scope.at begun.old.scope.names) }
        ensures after { OnOk result (self.new ≡ spec.opened self.old begun.old.scope.names) }
    {
        let names = &begun.scope.names;
        self.counts
            .add_numbers(&mut begun.numbers, names.as_slice())?;
        self.counts.restore(names.as_slice(), &[])?;
        self.holders.enter(names)?;
        let place = empty_scope(self.alloc, ScopeKind::Script, 0);
        self.scopes.push(place)
    }

    /// The use of a name in this body.
    fn note_use(&mut self, body: usize, name: &Identifier) -> Step
        ensures { OnOk result (self.new ≡ spec.with_use body self.old name.now) }
    {
        if is_within(&self.holders, body, name.name.as_slice()) {
            return Ok(());
        }
        self.taken.add(self.alloc, name)
    }

    #[tactic(auto, unfolding(crate::specs::Settling::with_uses))]
    fn note_uses(&mut self, body: usize, names: &[Identifier]) -> Step
        ensures { OnOk result (self.new ≡ spec.with_uses body self.old names.now) }
    {
        add_outside(self.alloc, &self.holders, body, &mut self.taken, names)
    }

    /// An assignment to a name in this body.
    fn note_assignment(&mut self, body: usize, name: &Identifier) -> Step
        ensures { OnOk result (self.new ≡ spec.with_assignment body self.old name.now) }
    {
        if is_within(&self.holders, body, name.name.as_slice()) {
            return self.counts.count(name);
        }
        Ok(())
    }

    fn note_assignments(&mut self, body: usize, names: &[Identifier]) -> Step
        ensures { OnOk result (self.new ≡ spec.with_assignments body self.old names.now) }
    {
        for name in names {
            self.note_assignment(body, name)?;
        }
        Ok(())
    }

    /// Opens a scope in this body that is to begin next, and assigns its variables.
    fn begin(&mut self, begun: &mut Open, body: usize, head: &Head, marks: &[Mark]) -> Step
        requires { begun.old ≡ spec.next_scope self.old head.now.kind head.now.at }
        ensures scope { OnOk result (begun.new ≡ spec.open_scope self.old head.now.kind head.now.at (spec.names_in body self.old.holders head.now.kind head.now.variables.now (mark_views marks.now))) }
        ensures after { OnOk result (self.new ≡ spec.begun_in body head.now.kind head.now.variables.now (mark_views marks.now) self.old) }
    {
        self.add_names(&mut begun.scope.names, body, head, marks)?;
        self.start(begun)?;
        self.note_assignments(body, variables_of(head.kind, head.variables))
    }

    /// Adds those of the names that the innermost body takes which a scope further in than the
    /// outermost `text` has.
    fn add_kept(&self, names: &mut Names, text: usize) -> Step
        ensures { OnOk result (names.new ≡ add_where (spec.is_within text self.now.holders) names.old self.now.taken) }
    {
        for name in self.taken.as_slice() {
            if is_within(&self.holders, text, name.name.as_slice()) {
                names.add(self.alloc, name)?;
            }
        }
        Ok(())
    }

    /// Finds what a scope captures that takes what the innermost body takes.
    fn add_captures(&self, captures: &mut Names, text: usize, kind: ScopeKind) -> Step
        requires { captures.old ≡ [] }
        ensures { OnOk result (captures.new ≡ spec.captures_in text self.now.holders kind self.now.taken) }
    {
        match kind {
            ScopeKind::Task => self.add_kept(captures, text),
            ScopeKind::Loop | ScopeKind::Sync | ScopeKind::Function | ScopeKind::Script => Ok(()),
        }
    }

    /// Leaves a scope of the function or script that `text` scopes are round, where its names had these
    /// numbers before it, and finds which names were assigned more than once and what it captures.
    fn leave(&mut self, text: usize, scope: &mut Scope, numbers: &[u8]) -> Step
        requires again { scope.old.again ≡ [] }
        requires captures { scope.old.captures ≡ [] }
        ensures after { OnOk result (self.new ≡ spec.left scope.old.names numbers.now self.old) }
        ensures scope { OnOk result (scope.new ≡ spec.finished text self.old scope.old) }
    {
        self.counts
            .add_again(&mut scope.again, scope.names.as_slice())?;
        self.counts.restore(scope.names.as_slice(), numbers)?;
        self.holders.leave();
        self.add_captures(&mut scope.captures, text, scope.kind)
    }

    /// Puts a scope in its place.
    fn place(&mut self, index: usize, scope: Scope)
        ensures { self.new ≡ spec.placed index scope self.old }
    {
        if index < self.scopes.len() {
            self.scopes.set(index, scope);
        }
    }

    /// Closes a scope of the function or script that `text` scopes are round.
    fn close(&mut self, text: usize, mut begun: Open) -> Step
        requires again { begun.scope.again ≡ [] }
        requires captures { begun.scope.captures ≡ [] }
        ensures { OnOk result (self.new ≡ spec.closed text begun self.old) }
    {
        let left = self.leave(text, &mut begun.scope, begun.numbers.as_slice());
        self.place(begun.index, begun.scope);
        left
    }

    /// Goes through marks in this body, in the function or script that `text` scopes are round.
    #[cycle(walk)]
    fn walk(&mut self, body: usize, text: usize, marks: &[Mark]) -> Step
        ensures { OnOk result (self.new ≡ spec.walked body text self.old (mark_views marks.now)) }
    {
        for mark in marks {
            self.walk_mark(body, text, mark)?;
        }
        Ok(())
    }

    #[cycle(walk)]
    fn walk_mark(&mut self, body: usize, text: usize, mark: &Mark) -> Step
        ensures { OnOk result (self.new ≡ spec.walked_mark body text self.old (mark_view mark.now)) }
    {
        match mark {
            Mark::Use(name) => self.note_use(body, name),
            Mark::Interpolation(_, name) => self.taken.add(self.alloc, name),
            Mark::Assignment(name) => self.note_assignment(body, name),
            Mark::Scope(scope) => self.walk_scope(body, text, scope),
            Mark::Call(..) | Mark::Print | Mark::Macro => Ok(()),
            Mark::LoopJump(_) | Mark::Return(_) => Ok(()),
        }
    }

    #[cycle(walk)]
    fn walk_scope(&mut self, body: usize, text: usize, scope: &ScopeMark) -> Step
        ensures { OnOk result (self.new ≡ spec.walked_mark body text self.old (scope_view scope.now)) }
    {
        let depth = self.holders.len();
        let head = Head {
            kind: scope.kind,
            at: scope.at,
            variables: scope.variables.as_slice(),
        };
        let marks = scope.body.as_slice();
        match scope.kind {
            ScopeKind::Loop | ScopeKind::Sync => self.walk_within(body, text, &head, marks),
            ScopeKind::Task => self.walk_task(body, text, &head, marks),
            ScopeKind::Function => self.walk_apart(depth, &head, marks),
            ScopeKind::Script => self.walk_apart(text, &head, marks),
        }
    }

    /// Goes through a scope.
    #[cycle(walk)]
    fn walk_within(&mut self, body: usize, text: usize, head: &Head, marks: &[Mark]) -> Step
        ensures { OnOk result (self.new ≡ spec.walked_within body text head.now.kind head.now.at head.now.variables.now (mark_views marks.now) self.old) }
    {
        let mut begun = self.next_scope(head.kind, head.at);
        self.begin(&mut begun, body, head, marks)?;
        self.walk(body, text, marks)?;
        self.close(text, begun)
    }

    /// Goes through a scope that is a body of its own.
    #[cycle(walk)]
    fn walk_apart(&mut self, text: usize, head: &Head, marks: &[Mark]) -> Step
        ensures { OnOk result (self.new ≡ spec.walked_apart text head.now.kind head.now.at head.now.variables.now (mark_views marks.now) self.old) }
    {
        let outer = replace(&mut self.taken, Names::new(self.alloc));
        let depth = self.holders.len();
        let walked = self.walk_within(depth, text, head, marks);
        self.taken = outer;
        walked
    }

    /// Goes through a task's body. What it takes is used where it stands.
    #[cycle(walk)]
    fn walk_task(&mut self, body: usize, text: usize, head: &Head, marks: &[Mark]) -> Step
        ensures { OnOk result (self.new ≡ spec.walked_task body text head.now.kind head.now.at head.now.variables.now (mark_views marks.now) self.old) }
    {
        let outer = replace(&mut self.taken, Names::new(self.alloc));
        let depth = self.holders.len();
        self.walk_within(depth, text, head, marks)?;
        let inner = replace(&mut self.taken, outer);
        self.note_uses(body, inner.as_slice())
    }

    /// Goes through functions.
    fn walk_functions(&mut self, functions: &[FunctionMark]) -> Step
        ensures { OnOk result (self.new ≡ spec.walked_functions self.old (map function_view functions.now)) }
    {
        for function in functions {
            let depth = self.holders.len();
            let head = Head {
                kind: ScopeKind::Function,
                at: 0,
                variables: function.parameters.as_slice(),
            };
            self.walk_apart(depth, &head, function.body.as_slice())?;
        }
        Ok(())
    }

    /// Goes through what the main task does.
    fn walk_parts(&mut self, parts: &[Part]) -> Step
        ensures { OnOk result (self.new ≡ spec.walked_parts self.old (map part_view parts.now)) }
    {
        for part in parts {
            self.walk(0, 0, marks_of(part))?;
        }
        Ok(())
    }

    /// Opens the script's own scope, and goes through what stands in it.
    fn walk_body(&mut self, begun: &mut Open, outline: &Outline) -> Step
        requires { begun.old ≡ spec.next_scope self.old kind.Script 0 }
        ensures scope { OnOk result (begun.new ≡ spec.open_scope self.old kind.Script 0 (direct_parts [] (outline_view outline.now).parts)) }
        ensures after { OnOk result (self.new ≡ spec.walked_body self.old (outline_view outline.now)) }
    {
        let parts = outline.parts.as_slice();
        add_script_names(self.alloc, &mut begun.scope.names, parts)?;
        self.start(begun)?;
        self.walk_functions(outline.functions.as_slice())?;
        self.walk_parts(parts)
    }

    /// Goes through a script.
    fn walk_script(&mut self, outline: &Outline) -> Step
        ensures { OnOk result (self.new ≡ spec.walked_script self.old (outline_view outline.now)) }
    {
        let mut begun = self.next_scope(ScopeKind::Script, 0);
        self.walk_body(&mut begun, outline)?;
        self.close(0, begun)
    }

    /// Goes through a script, and gives back its scopes.
    fn finish(&mut self, outline: &Outline) -> Result<Items<Scope>, AllocError>
        ensures { IfOk result (λ scopes. scopes ≡ (spec.walked_script self.old (outline_view outline.now)).scopes) }
    {
        self.walk_script(outline)?;
        Ok(replace(&mut self.scopes, Items::new(self.alloc)))
    }
}
