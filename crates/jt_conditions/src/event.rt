//! Events.

ghost use Rattle.std.specs.Prelude.{◌≡◌, false, ℕ, List};
ghost use Rattle.jt_base.specs.declared.entry.Ask.TheVariants.{NotYet};
ghost use Rattle.jt_base.specs.declared.name.Name.{Name};
ghost use Rattle.jt_base.specs.declared.operation.Op.TheVariants.{NewEvent};
ghost use Rattle.jt_base.specs.declared.object.Object.{Object};
ghost use Rattle.jt_base.specs.Objects.{object_of};
ghost use Rattle.jt_base.specs.declared.object.Object.TheVariants.{Named};
ghost use Rattle.jt_laws.specs.Objects.{Allowed, Asked, MadeBy};
ghost use Rattle.jt_conditions.specs.Events.{EventState, event_left_by, is_event_op, event_wait_answer, event_after_wait};

use jt_base::{Ask, Op, Reply};
use std::marker::Model;

/// An event, which is set by a notify (Julia manual, `Base.Event`). It stays set until a reset, and
/// an automatic one until one task has waited for it.
#[derive(Debug, Drop)]
pub struct Event {
    auto: bool,
    set: bool,
}

impl Model for Event {
    ghost use Rattle.jt_conditions.specs.Events.{EventState};

    ghost Value = { EventState };

    ghost view = { λ e. record { auto = e.auto; set = e.set } };
}

impl Event {
    /// An event that isn't set; whether each wait resets it.
    pub fn new(auto: bool) -> Event
        ensures { (name : Name) → MadeBy EventState event_left_by (NewEvent name auto) result }
    {
        Event { auto, set: false }
    }

    /// Answers a Notify, a Reset or an EWait of this event. `NotYet` exactly where the law of
    /// objects allows no reply, at an EWait while the event isn't set, and at every other operation:
    /// the event is then as it was.
    pub fn ask(&mut self, op: &Op) -> Ask
        ensures law { (task : List ℕ) (name : Name) → object_of task op.now ≡ Named name → Asked EventState event_left_by task op.now self.old result self.new }
        ensures others { is_event_op op.now ≡ false → (result ≡ NotYet) × (self.new ≡ self.old) }
    {
        match op {
            Op::Notify(_) => {
                self.set = true;
                Ask::Done(Reply::Ok)
            }
            Op::Reset(_) => {
                self.set = false;
                Ask::Done(Reply::Ok)
            }
            Op::EWait(_) => self.wait(),
            _ => Ask::NotYet,
        }
    }

    /// Whether `ask` would answer this operation with a reply now.
    pub fn allows(&self, op: &Op) -> bool
        ensures law { (task : List ℕ) (name : Name) → object_of task op.now ≡ Named name → Allowed EventState event_left_by task op.now self.now result }
        ensures others { is_event_op op.now ≡ false → result ≡ false }
    {
        match op {
            Op::Notify(_) | Op::Reset(_) => true,
            Op::EWait(_) => self.set,
            _ => false,
        }
    }

    fn wait(&mut self) -> Ask
        ensures answer { result ≡ event_wait_answer self.old }
        ensures after { self.new ≡ event_after_wait self.old }
    {
        if !self.set {
            return Ask::NotYet;
        }
        self.set = !self.auto;
        Ask::Done(Reply::Ok)
    }
}
