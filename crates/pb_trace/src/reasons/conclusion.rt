//! Conclusions that the steps do not show.

use crate::piece::Piece;
use crate::propagation::Over;
use crate::reasons::{Scene, number};
use pb_normal::Normal;
use pb_proof::{Bound, Conclusion};
use pb_replay::Fault;
use pb_sums::{Linear, Literal, Relation, Term};
use pb_text::Sequence;
use std::alloc::AllocError;

impl Scene<'_> {
    /// The constraint that a conclusion names, and whether another one is a contradiction.
    pub(crate) fn say_no_contradiction(
        &mut self,
        conclusion: &Conclusion,
    ) -> Result<(), AllocError> {
        let named = match conclusion {
            Conclusion::Unsat(id) => *id,
            Conclusion::Bounds { id, .. } => *id,
            _ => None,
        };
        if let Some(id) = named {
            self.say_named(id)?;
        }
        self.say_contradictions()
    }

    /// The constraint with an id as it is written, and what a contradiction with its terms would
    /// be.
    fn say_named(&mut self, id: i64) -> Result<(), AllocError> {
        let Some((found, form)) = self.constraints.find_written(id) else {
            return Ok(());
        };
        let (size, degree) = (form.size(), form.degree());
        self.say_constraint(b"named ", found)?;
        self.say(vec![in self.alloc;
            Piece::Text(b"its coefficients sum to "),
            number(size),
            Piece::Text(b", which is not less than its degree, "),
            Piece::Number(degree),
        ]?)
    }

    /// A constraint that is a contradiction: a live one, or else a deleted one.
    fn say_contradictions(&mut self) -> Result<(), AllocError> {
        let constraints = self.constraints;
        let (mut live, mut deleted) = (0u64, 0u64);
        let mut id = 0u64;
        for stored in constraints.all() {
            id = id.saturating_add(1);
            if stored.form.is_contradiction() {
                if stored.is_live {
                    live = id;
                } else {
                    deleted = id;
                }
            }
        }
        if live > 0 {
            return self.say_constraint(b"accepted: the contradiction ", live);
        }
        self.say_text(b"no live constraint is a contradiction")?;
        if deleted > 0 {
            self.say_constraint(b"deleted ", deleted)?;
        }
        Ok(())
    }

    /// Why a bound is not shown.
    pub(crate) fn say_no_bound(
        &mut self,
        lower: Bound,
        id: Option<i64>,
        upper: Bound,
        shown: &Option<Sequence<Literal>>,
    ) -> Result<(), AllocError> {
        if let Bound::Finite(bound) = lower {
            if let Some(best) = self.best
                && bound > best
            {
                self.say_best(best)?;
                return self.say_bound(b"accepted: a lower bound of at most ", best);
            }
            if let Some(goal) = self.goal_of(bound)?
                && !self.is_refuted(id, &goal)?
                && !self.is_shown(&goal)?
            {
                return self.say_no_lower(id, &goal);
            }
        }
        match (upper, shown, self.best) {
            (Bound::Finite(_), None, Some(best)) => {
                self.say_best(best)?;
                self.say_bound(b"accepted: an upper bound of at least ", best)
            }
            (Bound::Finite(_), Some(given), _) => self.say_shown_value(given.as_slice()),
            _ => Ok(()),
        }
    }

    /// Why the lower bound is not shown: the goal, the named constraint, and what propagates.
    fn say_no_lower(&mut self, id: Option<i64>, goal: &Normal) -> Result<(), AllocError> {
        self.say(vec![in self.alloc; Piece::Text(b"goal: "), Piece::Form(super::copy_of(goal)?)]?)?;
        if let Some(id) = id
            && let Some((found, _)) = self.constraints.find_written(id)
        {
            self.say_constraint(b"named ", found)?;
        }
        self.say_not_shown(goal)
    }

    /// The best value so far.
    fn say_best(&mut self, best: i128) -> Result<(), AllocError> {
        self.say(vec![in self.alloc;
            Piece::Text(b"the best value is "),
            Piece::Number(best),
            Piece::Text(b", the last solution was logged in proof line "),
            Piece::Count(self.logged),
        ]?)
    }

    fn say_bound(&mut self, label: &'static [u8], bound: i128) -> Result<(), AllocError> {
        self.say(vec![in self.alloc; Piece::Text(label), Piece::Number(bound)]?)
    }

    /// That the objective is at least a bound, if the objective is known.
    fn goal_of(&mut self, bound: i128) -> Result<Option<Normal>, AllocError> {
        let Some(terms) = &self.text.objective else {
            return Ok(None);
        };
        let terms: Vec<Term> = Vec::from_clones(self.alloc, terms.as_slice())?;
        self.form_of(&Linear {
            terms: Sequence::from_vec(terms),
            relation: Relation::AtLeast,
            degree: bound,
        })
    }

    /// Whether the constraint with an id is a contradiction, or its sum with the negation of a goal
    /// is one.
    fn is_refuted(&self, id: Option<i64>, goal: &Normal) -> Result<bool, AllocError> {
        let Some(id) = id else {
            return Ok(false);
        };
        let Some((_, form)) = self.constraints.find_written(id) else {
            return Ok(false);
        };
        if goal.degree() < 1 || form.is_contradiction() {
            return Ok(true);
        }
        match goal.negation() {
            Ok(negation) => Ok(form.refutes(&negation)),
            Err(_) => Err(AllocError),
        }
    }

    /// The value of the objective that literals show.
    fn say_shown_value(&mut self, given: &[Literal]) -> Result<(), AllocError> {
        let count = self.constraints.loaded().len() as u64;
        let propagation = self.say_given(given, Over::First(count))?;
        let Some(terms) = &self.text.objective else {
            return Ok(());
        };
        let mut value = 0i128;
        for term in terms.as_slice() {
            if let Some(variable) = self.names.number_of(term.literal.name.as_str())
                && propagation.value(variable) == Some(!term.literal.negated)
            {
                value = value.saturating_add(term.coefficient);
            }
        }
        self.say_bound(b"accepted: an upper bound of at least ", value)
    }

    /// Why no solution is there: none was logged, or the literals show none.
    pub(crate) fn say_no_solution(
        &mut self,
        shown: &Option<Sequence<Literal>>,
    ) -> Result<(), AllocError> {
        let Some(given) = shown else {
            self.say_text(b"no soli or solx is before this statement")?;
            return self.say_text(b"accepted: all literals of a solution after a colon");
        };
        let count = self.constraints.loaded().len() as u64;
        let propagation = self.say_given(given.as_slice(), Over::First(count))?;
        if propagation.conflict.is_some() {
            return Ok(());
        }
        self.say_open(&propagation, self.constraints.own())
    }
}
