//! An instance as forms, made as its statements come.

pub(crate) mod forms;

ghost use Rattle.std.specs.Prelude.{◌≡◌, ◌⊎◌, [], Err, IfOk, IfErr};
ghost use Rattle.pb_text.specs.meaning.Limits.{largest};
ghost use Rattle.pb_opb.specs.declared.Instance.{Instance};
ghost use Rattle.pb_replay.specs.contract.Loading.{NamesInOrder};
ghost use Rattle.pb_replay.specs.contract.ReplayModel.{IsOpened};
ghost use Rattle.pb_replay.specs.meaning.Problem.{FitsAll, Opened};

use crate::fault::Fault;
use crate::loading::forms::FormsSoFar;
use crate::state::Running;
use crate::state::load::{as_linear, objective_fits, started, with_variables};
use pb_normal::HashKeys;
use pb_opb::{Notes, OpbEvent};
use pb_sums::Term;
use pb_text::{Gather, Limits, Sequence};
use std::alloc::{AllocError, Global};
use std::marker::Model;

/// The forms of an instance, made as its statements come. No constraint is stored as written, so a
/// replay begins with less memory in use. Contracts see the limits and the statements.
#[derive(Drop)]
pub struct Loading {
    notes: Notes,
    objective: Option<Sequence<Term>>,
    forms: FormsSoFar,
}

impl Model for Loading {
    ghost use Rattle.std.specs.Prelude.{List};
    ghost use Rattle.pb_text.specs.declared.Limits.{Limits};
    ghost use Rattle.pb_opb.specs.declared.OpbEvent.{OpbEvent};
    ghost use Rattle.pb_replay.specs.engine.Loading.{IsStored};

    ghost Value = { Limits × List OpbEvent };

    ghost view = { λ l. (l.forms.limits, l.notes.events) };

    ghost invariant = { λ l. IsStored l.notes.events l.objective l.forms };
}

impl Loading {
    /// Before any statement, with the names hashed with these keys.
    pub fn new(alloc: Global, keys: HashKeys, limits: Limits) -> Loading
        ensures { result ≡ (limits, []) }
    {
        Loading {
            notes: Notes::new(),
            objective: None,
            forms: FormsSoFar::new(alloc, keys, limits),
        }
    }

    /// The start of a replay of the instance that the statements are.
    pub(crate) fn open(self) -> Result<Running, Fault>
        ensures ok { IfOk result (λ r. (v : Instance) → NamesInOrder self.1 v →
            IsOpened self.0 v r) }
        ensures err { IfErr result (λ e. (e ≡ Fault.Memory) ⊎ ((v : Instance) →
            NamesInOrder self.1 v → Opened (largest self.0) v (Err e))) }
        ensures memory { result ≡ Err Fault.Memory → (v : Instance) → NamesInOrder self.1 v →
            FitsAll (largest self.0) v }
    {
        let limits = self.forms.limits;
        if !objective_fits(&self.objective, limits) {
            return Err(Fault::Overflow);
        }
        self.forms.made?;
        let running = started(
            self.forms.alloc,
            limits,
            self.forms.names,
            self.forms.forms,
            as_linear(self.objective),
        );
        with_variables(running)
    }
}

impl Gather for Loading {
    ghost use Rattle.std.specs.Prelude.{false};
    ghost use Rattle.pb_replay.specs.contract.Loading.{noted};

    type Event = OpbEvent;

    ghost with = { λ l e. noted l e };

    ghost asks = { λ l e. false };

    /// Adds a statement. Nothing of a header or a comment is stored.
    #[inline(always)]
    fn add(&mut self, event: OpbEvent) -> Result<Option<OpbEvent>, AllocError> {
        self.notes = self.notes.and(&event);
        match event {
            OpbEvent::Header {
                variables: _,
                constraints: _,
                tail: _tail,
            } => Ok(None),
            OpbEvent::Comment(_text) => Ok(None),
            OpbEvent::Objective(terms) => {
                self.forms.number(terms.as_slice());
                self.objective = Some(terms);
                Ok(None)
            }
            OpbEvent::Constraint(linear) => {
                self.forms.add(&linear);
                Ok(Some(OpbEvent::Constraint(linear)))
            }
        }
    }
}
