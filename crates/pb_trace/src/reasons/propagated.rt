//! What propagates from the negation of a goal, or from the literals of a solution.

ghost use Rattle.std.specs.Prelude.{◌≡◌, IfOk};
ghost use Rattle.pb_trace.specs.Derived.{IsDerivationBy, IsDerivationIn, IsDerivedBy, IsGoalIn, IsShownIn};

use crate::piece::{Derivation, Lines, Piece, Reasons};
use crate::propagation::{Base, Forced, Over, Propagation, Reason};
use crate::reasons::{Scene, number};
use crate::uses::Uses;
use pb_normal::{Normal, NormalFault, Side};
use pb_replay::Fault;
use pb_sums::{Linear, Literal};
use std::alloc::AllocError;

impl<'a> Scene<'a> {
    /// Why propagation does not show the goal of a `rup`.
    pub(crate) fn not_implied(mut self, goal: &Linear) -> Result<Reasons, AllocError>
        ensures { IfOk result (IsShownIn self.entry goal.now) }
    {
        match self.derivation_of_written(goal)? {
            Some(derivation) => Ok(Reasons::Shown(None, derivation, self.lines)),
            None => Ok(Reasons::Nothing),
        }
    }

    /// What the negation of a written goal propagates, if the goal is within the limits and does
    /// not always hold.
    fn derivation_of_written(&mut self, goal: &Linear) -> Result<Option<Derivation>, AllocError>
        ensures { IfOk result (IsDerivationIn self.old goal.now) }
    {
        let Some(form) = self.form_of(goal)? else {
            return Ok(None);
        };
        let found = self.derivation_of(&form)?;
        Ok(found)
    }

    /// What the negation of a goal propagates, if the goal does not always hold. Lines say what
    /// came nearest to a conflict.
    fn derivation_of(&mut self, goal: &Normal) -> Result<Option<Derivation>, AllocError>
        ensures { IfOk result (IsDerivationBy goal.now self.old.constraints.now) }
    {
        if goal.degree() < 1 {
            return Ok(None);
        }
        let Ok(negation) = goal.negation() else {
            return Err(AllocError);
        };
        let forced = self.forced_by(&negation, goal.degree() == 1)?;
        Ok(Some(Derivation {
            negation: Some(negation),
            forced,
        }))
    }

    /// The literals that a negation propagates. Lines say what came nearest to a conflict.
    fn forced_by(&mut self, negation: &Normal, is_clause: bool) -> Result<Vec<Forced>, AllocError>
        ensures { IfOk result (λ v. IsDerivedBy negation.now self.old.constraints.now v.items) }
    {
        let base = Base {
            negation: Some(negation),
            constraints: self.constraints.all(),
            over: Over::Live,
        };
        let uses = base.uses(self.alloc, self.names.len())?;
        let mut propagation = Propagation::from_nothing(self.alloc, self.names.len(), base, &uses)?;
        let forced = propagation.literals(self.alloc)?;
        self.say_end(&mut propagation, base, &uses, is_clause)?;
        Ok(forced)
    }

    /// How a propagation from a negation ended.
    fn say_end(
        &mut self,
        propagation: &mut Propagation,
        base: Base<'_>,
        uses: &Uses,
        is_clause: bool,
    ) -> Result<(), AllocError> {
        if propagation.conflict.is_some() {
            return self.say_conflict(propagation.conflict);
        }
        let nearest = self.nearest(propagation)?;
        self.say_near(propagation, nearest.as_slice())?;
        if is_clause {
            self.say_lacking(propagation, base, uses, nearest.as_slice())?;
        }
        match base.negation {
            Some(negation) => self.say_with_deleted(negation),
            None => Ok(()),
        }
    }

    /// Why propagation does not show a goal, after the lines so far.
    pub(crate) fn say_not_shown(&mut self, goal: &Normal) -> Result<(), AllocError> {
        let before = std::mem::replace(&mut self.lines, Lines::new(self.alloc));
        match self.derivation_of(goal)? {
            Some(derivation) => self.shown = Some((before, derivation)),
            None => self.lines = before,
        }
        Ok(())
    }

    /// The form of a written constraint, if it is within the limits.
    pub(crate) fn form_of(&mut self, goal: &Linear) -> Result<Option<Normal>, AllocError>
        ensures form { IfOk result (IsGoalIn self.old goal.now) }
        ensures constraints { self.new.constraints ≡ self.old.constraints }
    {
        let side = Side::AtLeast;
        match Normal::from_linear(self.alloc, &mut self.names, goal, side, self.limits) {
            Ok(form) => Ok(Some(form)),
            Err(NormalFault::Overflow) => Ok(None),
            Err(NormalFault::Memory) => Err(AllocError),
        }
    }

    /// Whether a goal is shown by propagation over the live constraints.
    pub(crate) fn is_shown(&self, goal: &Normal) -> Result<bool, AllocError> {
        if goal.degree() < 1 {
            return Ok(true);
        }
        let Ok(negation) = goal.negation() else {
            return Err(AllocError);
        };
        let propagation = self.propagation_of(&negation, Over::Live)?;
        Ok(propagation.conflict.is_some())
    }

    /// The negation of a goal, and the stored constraints that propagate with it.
    fn base_of<'b>(&self, negation: &'b Normal, over: Over) -> Base<'b>
    where
        'a: 'b,
    {
        Base {
            negation: Some(negation),
            constraints: self.constraints.all(),
            over,
        }
    }

    /// What propagates from the negation of a goal.
    fn propagation_of(&self, negation: &Normal, over: Over) -> Result<Propagation, AllocError> {
        let base = self.base_of(negation, over);
        let variables = self.names.len();
        let uses = base.uses(self.alloc, variables)?;
        Propagation::from_nothing(self.alloc, variables, base, &uses)
    }

    /// What the literals of a solution propagate over the live constraints, and what that violates.
    pub(crate) fn say_solution(
        &mut self,
        given: &[Literal],
        fault: Fault,
    ) -> Result<(), AllocError> {
        let propagation = self.say_given(given, Over::Live)?;
        let count = self.names.len();
        match fault {
            Fault::NotTotal(_) => self.say_open(&propagation, count),
            Fault::Violates(id) => self.say_violated(&propagation, id),
            _ => Ok(()),
        }
    }

    /// What the literals of a solution propagate.
    pub(crate) fn say_given(
        &mut self,
        given: &[Literal],
        over: Over,
    ) -> Result<Propagation, AllocError> {
        let mut propagation = Propagation::new(self.alloc, self.names.len())?;
        for literal in given {
            if let Some(number) = self.names.number_of(literal.name.as_str()) {
                if propagation.value(number) == Some(literal.negated) {
                    propagation.conflict = Some(Reason::Given);
                }
                propagation.force(Forced {
                    variable: number,
                    negated: literal.negated,
                    reason: Reason::Given,
                    slack: 0,
                })?;
            }
        }
        let base = Base {
            negation: None,
            constraints: self.constraints.all(),
            over,
        };
        let uses = base.uses(self.alloc, self.names.len())?;
        propagation.propagate(base, &uses)?;
        let forced = propagation.literals(self.alloc)?;
        self.show(None, forced);
        self.say_conflict(propagation.conflict)?;
        Ok(propagation)
    }

    /// What is falsified, if anything is.
    fn say_conflict(&mut self, conflict: Option<Reason>) -> Result<(), AllocError> {
        match conflict {
            None => Ok(()),
            Some(Reason::Given) => self.say_text(b"falsified: the statement"),
            Some(Reason::Negation) => self.say_text(b"falsified: the negation"),
            Some(Reason::Id(id)) => self.say_constraint(b"falsified ", id),
        }
    }

    /// The names without a value, of the first ones up to a count.
    pub(crate) fn say_open(
        &mut self,
        propagation: &Propagation,
        names: usize,
    ) -> Result<(), AllocError> {
        let mut pieces = vec![in self.alloc; Piece::Text(b"no value:")]?;
        for variable in 0..names {
            if propagation.value(variable).is_none() {
                pieces.push(Piece::Text(b" "))?;
                pieces.push(Piece::Literal(variable, false))?;
            }
        }
        self.say(pieces)
    }

    /// A constraint of the instance that is violated, and what its true literals sum to.
    pub(crate) fn say_violated(
        &mut self,
        propagation: &Propagation,
        id: u64,
    ) -> Result<(), AllocError> {
        let Some(stored) = self.constraints.find(id) else {
            return Ok(());
        };
        let sum = propagation.true_sum(&stored.form);
        self.say(vec![in self.alloc;
            Piece::Text(b"violated "),
            Piece::Constraint(id),
            Piece::Text(b", its true literals sum to "),
            number(sum),
        ]?)
    }

    /// Whether the goal would be shown with the deleted constraints back, and by which of them.
    fn say_with_deleted(&mut self, negation: &Normal) -> Result<(), AllocError> {
        if !self
            .constraints
            .all()
            .iter()
            .any(|stored| stored.deleted > 0)
        {
            return Ok(());
        }
        let propagation = self.propagation_of(negation, Over::All)?;
        let Some(conflict) = propagation.conflict else {
            return self.say_text(b"not implied either with the deleted constraints back");
        };
        self.say_text(b"implied with these deleted constraints back")?;
        for id in self
            .ids_needed(negation, &propagation, conflict)?
            .as_slice()
        {
            if let Some(stored) = self.constraints.find(*id)
                && !stored.is_live
            {
                self.say_constraint(b"deleted ", *id)?;
            }
        }
        Ok(())
    }

    /// The ids of the constraints that a conflict needs, the last one first.
    fn ids_needed(
        &self,
        negation: &Normal,
        propagation: &Propagation,
        conflict: Reason,
    ) -> Result<Vec<u64>, AllocError> {
        let mut ids = Vec::new(self.alloc);
        let mut needed: Vec<bool> = Vec::new(self.alloc);
        for _ in 0..self.names.len() {
            needed.push(false)?;
        }
        self.need(negation, propagation, conflict, &mut needed, &mut ids)?;
        for forced in propagation.forced.iter().rev() {
            if let Some(true) = needed.get(forced.variable) {
                self.need(negation, propagation, forced.reason, &mut needed, &mut ids)?;
            }
        }
        Ok(ids)
    }

    /// Notes a constraint, and that its false literals are needed.
    fn need(
        &self,
        negation: &Normal,
        propagation: &Propagation,
        reason: Reason,
        needed: &mut Vec<bool>,
        ids: &mut Vec<u64>,
    ) -> Result<(), AllocError> {
        let form = match reason {
            Reason::Given => return Ok(()),
            Reason::Negation => negation,
            Reason::Id(id) => match self.constraints.find(id) {
                Some(stored) => {
                    ids.push(id)?;
                    &stored.form
                }
                None => return Ok(()),
            },
        };
        for entry in form.entries() {
            if propagation.is_false(&entry)
                && let Some(needs) = needed.get_mut(entry.variable)
            {
                *needs = true;
            }
        }
        Ok(())
    }
}
