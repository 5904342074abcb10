//! The normal form of an instance, built as its statements come.

ghost use Rattle.std.specs.Prelude.{◌≡◌, ◌++◌, ◌∷◌, [], List, ℕ, false};
ghost use Rattle.pb_text.specs.meaning.Limits.{largest};
ghost use Rattle.pb_text.specs.meaning.Writing.{Writes};
ghost use Rattle.pb_sums.specs.declared.Linear.{Linear as Written};
ghost use Rattle.pb_normal.specs.meaning.Written.{names_of};
ghost use Rattle.pb_opb.specs.declared.Instance.{Instance};
ghost use Rattle.pb_opb.specs.declared.OpbEvent.TheVariants.{Header};
ghost use Rattle.pb_tool.specs.engine.InstanceText.{line, line_if};
ghost use Rattle.pb_replay.specs.contract.Loading.{NamesInOrder};
ghost use Rattle.pb_tool.specs.engine.NormalText.{AreMade};
ghost use Rattle.pb_tool.specs.contract.Tidy.{HasNormalForm, LacksNormalForm, WritesText, tidied};

use crate::canonical::write_line;
use crate::commands::tidy::form_lines::FormLines;
use crate::commands::tidy::instance_text::write_line_if;
use crate::fault::{Input, ToolFault};
use pb_normal::{HashKeys, fits};
use pb_opb::{Notes, OpbEvent};
use pb_sums::{Linear, Term};
use pb_text::{Bytes, Failed, Gather, Limits, Sink, write_bytes};
use std::alloc::{AllocError, Global};
use std::marker::Model;

/// Whether the forms could be made.
#[derive(Clone, Copy)]
enum Standing {
    /// The forms of all constraints are stored.
    Stored,
    /// Every constraint fits the limit, but memory ran out for a form or a name.
    Lost,
    /// A constraint exceeds the limit.
    Overflows,
}

/// What was made of the constraints.
#[derive(Drop)]
struct Forms {
    limits: Limits,
    standing: Standing,
    lines: FormLines,
}

impl Forms {
    /// Numbers the names of an objective.
    fn number(&mut self, terms: &[Term])
        ensures limits { self.new.limits ≡ self.old.limits }
        ensures made { (named : List (List ℕ)) (cs : List Written) → AreMade named cs self.old →
            AreMade (named ++ names_of terms.now) cs self.new }
    {
        if let Standing::Stored = self.standing {
            match self.lines.number(terms) {
                Ok(()) => {}
                Err(AllocError) => self.standing = Standing::Lost,
            }
        }
    }

    /// Adds the forms of a constraint.
    fn add(&mut self, constraint: &Linear)
        ensures limits { self.new.limits ≡ self.old.limits }
        ensures made { (named : List (List ℕ)) (cs : List Written) → AreMade named cs self.old →
            AreMade (named ++ names_of constraint.now.terms) (cs ++ constraint.now ∷ []) self.new }
    {
        if !fits(constraint, self.limits) {
            self.standing = Standing::Overflows;
            return;
        }
        if let Standing::Stored = self.standing {
            match self.lines.add(constraint, self.limits) {
                Ok(()) => {}
                Err(AllocError) => self.standing = Standing::Lost,
            }
        }
    }
}

/// The normal form of the statements so far. The number of variables and the objective are stored
/// as they are, and the forms as lines. Contracts see the limits and the statements.
#[derive(Drop)]
pub(crate) struct NormalText {
    notes: Notes,
    variables: u64,
    objective: Option<OpbEvent>,
    forms: Forms,
}

impl Model for NormalText {
    ghost use Rattle.std.specs.Prelude.{List};
    ghost use Rattle.pb_text.specs.declared.Limits.{Limits};
    ghost use Rattle.pb_opb.specs.declared.OpbEvent.{OpbEvent};
    ghost use Rattle.pb_tool.specs.engine.NormalText.{IsNoted};

    ghost Value = { Limits × List OpbEvent };

    ghost view = { λ t. (t.forms.limits, t.notes.events) };

    ghost invariant = { λ t. IsNoted t.notes.events t.variables t.objective t.forms };
}

impl NormalText {
    ghost use Rattle.std.specs.Prelude.{[]};

    /// Before any statement.
    pub(crate) fn new(alloc: Global, keys: HashKeys, limits: Limits) -> NormalText
        ensures { result ≡ (limits, []) }
    {
        let forms = Forms {
            limits,
            standing: Standing::Stored,
            lines: FormLines::new(alloc, keys),
        };
        NormalText {
            notes: Notes::new(),
            variables: 0,
            objective: None,
            forms,
        }
    }

    /// Writes the normal form of the instance, or nothing if there is none.
    pub(crate) fn write<W: Sink>(&self, alloc: Global, out: &mut W) -> Result<(), ToolFault>
        ensures { (v : Instance) → NamesInOrder self.now.1 v →
            WritesText (HasNormalForm (largest self.now.0) v)
            (LacksNormalForm (largest self.now.0) v) tidied W.contents W.faults out.old result
            out.new }
    {
        match self.forms.standing {
            Standing::Stored => {}
            Standing::Lost => return Err(ToolFault::Memory(Input::File)),
            Standing::Overflows => return Err(ToolFault::Overflow(Input::File)),
        }
        let header = OpbEvent::Header {
            variables: self.variables,
            constraints: self.forms.lines.count(),
            tail: Bytes::new(alloc),
        };
        match write_normal(&header, &self.objective, self.forms.lines.text(), out) {
            Ok(()) => Ok(()),
            Err(Failed) => Err(ToolFault::Write),
        }
    }
}

/// Writes the line of a header, the line of an objective if there is one, and then these lines.
fn write_normal<W: Sink>(
    header: &OpbEvent,
    objective: &Option<OpbEvent>,
    lines: &[u8],
    out: &mut W,
) -> Result<(), Failed>
    ensures { Writes W.contents W.faults out.old
        (line header.now ++ (line_if objective.now ++ lines.now)) result out.new }
{
    write_line(header, out)?;
    write_line_if(objective, out)?;
    write_bytes(lines, out)
}

impl Gather for NormalText {
    ghost use Rattle.pb_replay.specs.contract.Loading.{noted};

    type Event = OpbEvent;

    ghost with = { λ t e. noted t e };

    ghost asks = { λ t e. false };

    fn add(&mut self, event: OpbEvent) -> Result<Option<OpbEvent>, AllocError> {
        self.notes = self.notes.and(&event);
        match event {
            OpbEvent::Header {
                variables,
                constraints: _,
                tail: _tail,
            } => {
                self.variables = variables;
                Ok(None)
            }
            OpbEvent::Comment(_text) => Ok(None),
            OpbEvent::Objective(terms) => {
                self.forms.number(terms.as_slice());
                self.objective = Some(OpbEvent::Objective(terms));
                Ok(None)
            }
            OpbEvent::Constraint(linear) => {
                self.forms.add(&linear);
                Ok(Some(OpbEvent::Constraint(linear)))
            }
        }
    }
}
