//! Does what an action says.

ghost use Rattle.pb_sums.specs.engine.Machine.{ActionFits};
ghost use Rattle.pb_sums.specs.engine.State.{ContinuesBy, EndsBy};

use crate::linear::{Linear, SumEvent};
use crate::machine::{SumMachine, finish, flush};
use crate::name::Name;
use crate::phase::Action;

impl SumMachine {
    /// Continues as an action says, if that ends no text and no allocation is refused.
    #[inline(always)]
    pub(super) fn advance(&mut self, action: Action) -> bool
        requires { ActionFits self.old.limit action }
        ensures { ContinuesBy self.old action result self.new }
    {
        match action {
            Action::Begin(phase, first) => {
                let mut name = Name::new(self.alloc);
                if name.push(first).is_err() {
                    return false;
                }
                self.name = name;
                self.phase = phase;
                true
            }
            Action::Add(phase, next) => {
                if self.name.push(next).is_err() {
                    return false;
                }
                self.phase = phase;
                true
            }
            Action::To(phase) => {
                if flush(self.alloc, &mut self.terms, &mut self.name, self.phase).is_err() {
                    return false;
                }
                self.phase = phase;
                true
            }
            Action::EndSum | Action::EndLinear(_, _) | Action::Stop => false,
        }
    }

    /// Ends the text as an action says, if that ends it and no allocation is refused.
    #[inline(always)]
    pub(super) fn end_by(&mut self, action: Action) -> Option<SumEvent>
        ensures { EndsBy self.old action result self.new }
    {
        match action {
            Action::EndSum => {
                let Ok(terms) = finish(self.alloc, &mut self.terms, &mut self.name, &mut self.phase)
                else {
                    return None;
                };
                Some(SumEvent::Sum(terms))
            }
            Action::EndLinear(relation, degree) => {
                let Ok(terms) = finish(self.alloc, &mut self.terms, &mut self.name, &mut self.phase)
                else {
                    return None;
                };
                Some(SumEvent::Linear(Linear {
                    terms,
                    relation,
                    degree,
                }))
            }
            Action::To(_) | Action::Begin(_, _) | Action::Add(_, _) | Action::Stop => None,
        }
    }
}
