//! Why a statement was rejected, as far as the stored constraints show it.

mod conclusion;
mod ids;
mod near;
mod pol;
mod propagated;

ghost use Rattle.std.specs.Prelude.{◌≡◌, IfOk, Some};
ghost use Rattle.std.specs.Option.{option_copied};
ghost use Rattle.pb_sums.specs.declared.linear.Linear.{Linear};
ghost use Rattle.pb_normal.specs.meaning.Names.{AreDistinct};
ghost use Rattle.pb_proof.specs.declared.Statement.TheVariants.{Rup};
ghost use Rattle.pb_replay.specs.declared.fault.Fault.TheVariants.{NotImplied};
ghost use Rattle.pb_trace.specs.Derived.{IsShownIn};
ghost use Rattle.pb_trace.specs.Rejected.{IsUnshown};

use crate::instance_text::InstanceText;
use crate::open_sums::to_signed;
use crate::piece::{Derivation, Lines, Piece, Reasons};
use crate::propagation::Forced;
use crate::stored::Constraints;
use pb_normal::{Names, Normal};
use pb_proof::{Conclusion, Statement};
use pb_replay::{Fault, Replay};
use pb_sums::Linear;
use pb_text::Limits;
use std::alloc::{AllocError, Global};

/// What the reasons are made of, and the lines so far.
#[derive(Drop)]
pub(crate) struct Scene<'a> {
    pub(crate) alloc: Global,
    pub(crate) constraints: &'a Constraints,
    pub(crate) text: &'a InstanceText,
    pub(crate) names: Names,
    pub(crate) limits: Limits,
    /// The best logged value.
    pub(crate) best: Option<i128>,
    /// The line of the last statement that logged a solution, or 0.
    pub(crate) logged: u64,
    /// A derivation, and the lines before it.
    pub(crate) shown: Option<(Lines, Derivation)>,
    /// Lines, after the derivation if there is one.
    pub(crate) lines: Lines,
}

/// The names of a replay, each with its number there.
#[tactic(auto, using(crate::proofs::Storing::copied))]
fn names_of(alloc: Global, replay: &Replay) -> Result<Names, AllocError>
    ensures { IfOk result (λ names. AreDistinct replay.now.names → names ≡ replay.now.names) }
{
    let mut names = Names::new(alloc);
    for number in 0..usize::MAX {
        let Some(name) = replay.name_of(number) else {
            return Ok(names);
        };
        let _ = names.number(name)?;
    }
    Err(AllocError)
}

/// The goal of a `rup` that propagation does not show.
fn goal_of(statement: &Statement, fault: Fault) -> Option<&Linear>
    ensures { (goal : Linear) → statement.now ≡ Rup goal → fault ≡ NotImplied
        → option_copied result ≡ Some goal }
{
    match (fault, statement) {
        (Fault::NotImplied, Statement::Rup(goal)) => Some(goal),
        _ => None,
    }
}

impl<'a> Scene<'a> {
    /// What a trace stores, and what a replay has.
    pub(crate) fn new(
        alloc: Global,
        constraints: &'a Constraints,
        text: &'a InstanceText,
        logged: u64,
        replay: &Replay,
    ) -> Result<Scene<'a>, AllocError>
        ensures constraints { IfOk result (λ s. s.constraints.now ≡ constraints.now) }
        ensures limits { IfOk result (λ s. s.limits ≡ replay.now.limits) }
        ensures names { IfOk result
            (λ s. AreDistinct replay.now.names → s.names ≡ replay.now.names) }
    {
        Ok(Scene {
            alloc,
            constraints,
            text,
            names: names_of(alloc, replay)?,
            limits: replay.limits(),
            best: replay.best(),
            logged,
            shown: None,
            lines: Lines::new(alloc),
        })
    }

    /// The reasons for a fault of a statement.
    pub(crate) fn reasons(
        mut self,
        statement: &Statement,
        fault: Fault,
    ) -> Result<Reasons, AllocError>
        ensures { IfOk result
            (λ r. (goal : Linear) → IsUnshown statement.now fault goal →
            IsShownIn self.entry goal r) }
    {
        match goal_of(statement, fault) {
            Some(goal) => self.not_implied(goal),
            None => {
                self.find(statement, fault)?;
                Ok(self.found())
            }
        }
    }

    /// The reasons so far.
    fn found(self) -> Reasons {
        let Scene { shown, lines, .. } = self;
        match shown {
            Some((before, derivation)) => Reasons::Shown(Some(before), derivation, lines),
            None => Reasons::Plain(lines),
        }
    }

    /// Shows literals that became true after the lines so far.
    fn show(&mut self, negation: Option<Normal>, forced: Vec<Forced>) {
        let before = std::mem::replace(&mut self.lines, Lines::new(self.alloc));
        self.shown = Some((before, Derivation { negation, forced }));
    }

    /// Finds the reasons for another fault of a statement.
    fn find(&mut self, statement: &Statement, fault: Fault) -> Result<(), AllocError> {
        match (fault, statement) {
            (Fault::FormulaCount(count), _) => self.say_count(count),
            (Fault::NoSuchId(_) | Fault::Overflow, Statement::Pol(words)) => {
                self.say_words(words.as_slice())?;
                self.say_fault(fault)
            }
            (
                Fault::Conflict | Fault::NotTotal(_) | Fault::Violates(_),
                Statement::Soli(given) | Statement::Solx(given),
            ) => self.say_solution(given.as_slice(), fault),
            (Fault::NotContradiction, Statement::Conclude(conclusion)) => self.say_no_contradiction(
                conclusion,
            ),
            (
                Fault::NotBound,
                Statement::Conclude(
                    Conclusion::Bounds {
                        lower,
                        id,
                        upper,
                        shown,
                    },
                ),
            ) => self.say_no_bound(*lower, *id, *upper, shown),
            (
                Fault::NoSolution,
                Statement::Conclude(Conclusion::Sat(shown) | Conclusion::Bounds { shown, .. }),
            ) => self.say_no_solution(shown),
            _ => self.say_fault(fault),
        }
    }

    /// Finds the reasons that do not depend on the statement.
    fn say_fault(&mut self, fault: Fault) -> Result<(), AllocError> {
        match fault {
            Fault::NoSuchId(id) => self.say_no_id(id),
            Fault::Overflow => {
                let bits = self.limits.bits() as u64;
                self.say(vec![in self.alloc;
                    Piece::Text(
                        b"the sum of the coefficients, or the degree, exceeds the limit 2^"
                    ),
                    Piece::Count(bits),
                    Piece::Text(b" - 1"),
                ]?)
            }
            Fault::SolutionLogged => self.say_logged(),
            Fault::NoObjective => {
                self.say_text(
                    b"the instance has no objective: no line min: is before its constraints",
                )?;
                self.say_text(b"accepted: solx, and a conclusion of SAT, UNSAT or NONE")
            }
            Fault::IdsSpent => {
                let top = self.limits.top();
                self.say(vec![in self.alloc;
                    Piece::Text(b"the largest id is "),
                    Piece::Count(top),
                ]?)
            }
            _ => Ok(()),
        }
    }

    /// How many constraints an instance has.
    fn say_count(&mut self, count: u64) -> Result<(), AllocError> {
        let (written, equalities) = (self.text.written, self.text.equalities);
        if written > 0 {
            self.say(vec![in self.alloc;
                Piece::Text(b"constraints that the instance has: "),
                Piece::Count(written),
                Piece::Text(b"; equalities among them, which count twice: "),
                Piece::Count(equalities),
            ]?)?;
        }
        self.say(vec![in self.alloc;
            Piece::Text(b"accepted: f "),
            Piece::Count(count),
            Piece::Text(b", or f"),
        ]?)
    }

    /// That a solution was logged.
    fn say_logged(&mut self) -> Result<(), AllocError> {
        let mut pieces = vec![in self.alloc;
            Piece::Text(b"a solution was logged in proof line "),
            Piece::Count(self.logged),
        ]?;
        if let (Some(best), Some(_)) = (self.best, &self.text.objective) {
            pieces.push(Piece::Text(b", the best value is "))?;
            pieces.push(Piece::Number(best))?;
        }
        self.say(pieces)?;
        self.say_text(b"accepted: a conclusion of SAT, or of BOUNDS with a finite lower bound")
    }

    /// Adds a line.
    fn say(&mut self, pieces: Vec<Piece>) -> Result<(), AllocError> {
        self.lines.add(pieces)
    }

    /// Adds a line of words.
    fn say_text(&mut self, text: &'static [u8]) -> Result<(), AllocError> {
        let pieces = vec![in self.alloc; Piece::Text(text)]?;
        self.say(pieces)
    }

    /// Adds a line with a constraint after a label and its id.
    fn say_constraint(&mut self, label: &'static [u8], id: u64) -> Result<(), AllocError> {
        let pieces = vec![in self.alloc; Piece::Text(label), Piece::Constraint(id)]?;
        self.say(pieces)
    }
}

/// A copy of a form.
fn copy_of(form: &Normal) -> Result<Normal, AllocError> {
    match form.copy() {
        Ok(form) => Ok(form),
        Err(_) => Err(AllocError),
    }
}

/// A number of at most 127 bits.
fn number(value: u128) -> Piece {
    Piece::Number(to_signed(value))
}
