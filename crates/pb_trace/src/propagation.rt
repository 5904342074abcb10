//! Propagation with reasons, over stored constraints. It runs after a rejection.

ghost use Rattle.std.specs.Prelude.{◌≡◌, ◌<◌, [], None, IfOk, IfSome, IsTrue, OnOk, get_or, length};
ghost use Rattle.pb_normal.specs.meaning.Form.{counted, total};
ghost use Rattle.pb_trace.specs.Derived.{Forces, HasSlack, IsFresh, IsSoundOver, KeepsNamed, KeepsOver, NamesOver, Takes, falsified_by, free_by};

use crate::open_sums::OpenSums;
use crate::stored::Stored;
use crate::uses::{Use, Uses};
use pb_normal::{Entry, Normal};
use std::alloc::{AllocError, Global};

/// What forces a literal.
#[derive(Clone, Copy)]
pub(crate) enum Reason {
    /// It was given.
    Given,
    /// The negation of a goal.
    Negation,
    /// The constraint with this id.
    Id(u64),
}

/// A literal that became true, why, and the slack of the constraint that forced it.
#[derive(Clone, Copy)]
pub(crate) struct Forced {
    pub(crate) variable: usize,
    pub(crate) negated: bool,
    pub(crate) reason: Reason,
    pub(crate) slack: u128,
}

/// Which of the stored constraints propagate.
#[derive(Clone, Copy, PartialEq, Eq)]
pub(crate) enum Over {
    /// Those that are live.
    Live,
    /// All of them.
    All,
    /// The first ones, up to this count, live or deleted.
    First(u64),
}

/// What propagates: the negation of a goal, if there is one, and stored constraints.
#[derive(Clone, Copy)]
pub(crate) struct Base<'a> {
    pub(crate) negation: Option<&'a Normal>,
    pub(crate) constraints: &'a [Stored],
    pub(crate) over: Over,
}

/// A propagation: the values of the variables, and the literals in the order in which they became
/// true.
#[derive(Drop)]
pub(crate) struct Propagation {
    values: Vec<Option<bool>>,
    pub(crate) forced: Vec<Forced>,
    /// The constraint that is falsified.
    pub(crate) conflict: Option<Reason>,
    /// How many of the literals were followed.
    followed: usize,
    open_sums: OpenSums,
    /// How many terms were visited.
    pub(crate) visits: u64,
}

impl Over {
    /// Whether a constraint propagates.
    fn has(self, id: u64, stored: &Stored) -> bool
        ensures { IsTrue result → Takes self id stored.now }
    {
        match self {
            Over::Live => stored.is_live,
            Over::All => true,
            Over::First(count) => id <= count,
        }
    }
}

impl<'a> Base<'a> {
    /// The constraint that a reason names, if it propagates.
    pub(crate) fn form_named_by(self, reason: Reason) -> Option<&'a Normal>
        ensures { IfSome result (λ f. NamesOver self.entry reason f.now) }
    {
        match reason {
            Reason::Given => None,
            Reason::Negation => self.negation,
            Reason::Id(id) => {
                let stored = self.constraints.get(id.saturating_sub(1) as usize)?;
                if self.over.has(id, stored) {
                    Some(&stored.form)
                } else {
                    None
                }
            }
        }
    }
}

impl Propagation {
    /// No values for this many variables.
    pub(crate) fn new(alloc: Global, variables: usize) -> Result<Propagation, AllocError>
        ensures { IfOk result IsFresh }
    {
        let mut values = Vec::with_capacity(alloc, variables)?;
        for _ in 0..variables {
            values.push(None)?;
        }
        Ok(Propagation {
            values,
            forced: Vec::new(alloc),
            conflict: None,
            followed: 0,
            open_sums: OpenSums::none(alloc),
            visits: 0,
        })
    }

    /// What propagates with nothing given. Each literal follows from those before it by the
    /// constraint that its reason names.
    pub(crate) fn from_nothing(
        alloc: Global,
        variables: usize,
        base: Base<'_>,
        uses: &Uses,
    ) -> Result<Propagation, AllocError>
        ensures { IfOk result (λ p. IsSoundOver base.entry [] p) }
    {
        let mut propagation = Propagation::new(alloc, variables)?;
        propagation.propagate(base, uses)?;
        Ok(propagation)
    }

    /// The literals that became true, in order.
    pub(crate) fn literals(&self, alloc: Global) -> Result<Vec<Forced>, AllocError>
        ensures { IfOk result (λ v. v.items ≡ self.now.forced.items) }
    {
        let mut literals = Vec::new(alloc);
        literals.extend_from_slice(self.forced.as_slice())?;
        Ok(literals)
    }

    /// The value of a variable.
    pub(crate) fn value(&self, variable: usize) -> Option<bool>
        ensures { result ≡ get_or self.now.values.items variable None }
    {
        match self.values.get(variable) {
            Some(value) => *value,
            None => None,
        }
    }

    /// Makes a literal true, if its variable is open.
    pub(crate) fn force(&mut self, forced: Forced) -> Result<(), AllocError>
        ensures { OnOk result (Forces self.old forced self.new) }
    {
        if !self.is_open(forced.variable) {
            return Ok(());
        }
        self.values[forced.variable] = Some(!forced.negated);
        self.forced.push(forced)?;
        Ok(())
    }

    /// Whether there is such a variable without a value.
    fn is_open(&self, variable: usize) -> bool
        ensures inside { IsTrue result → variable < length self.now.values.items }
        ensures unset { IsTrue result → get_or self.now.values.items variable None ≡ None }
    {
        match self.values.get(variable) {
            Some(value) => value.is_none(),
            None => false,
        }
    }

    /// Propagates from the literals so far, until nothing more follows or a constraint is
    /// falsified.
    pub(crate) fn propagate(&mut self, base: Base<'_>, uses: &Uses) -> Result<(), AllocError>
        ensures { OnOk result (KeepsOver base.entry self.old self.new) }
    {
        self.open_sums = OpenSums::of(base, *self.values.allocator())?;
        self.visit_named(base, Reason::Negation)?;
        for index in 0..base.constraints.len() {
            self.visit_named(base, Reason::Id(index as u64 + 1))?;
        }
        self.follow(0, base, uses)
    }

    /// Whether the literals so far and one more propagate to a conflict. It leaves the propagation
    /// as it was.
    pub(crate) fn conflicts_with(
        &mut self,
        forced: Forced,
        base: Base<'_>,
        uses: &Uses,
    ) -> Result<bool, AllocError> {
        let count = self.forced.len();
        self.force(forced)?;
        self.follow(count, base, uses)?;
        let conflicts = self.conflict.is_some();
        self.undo(count, uses);
        Ok(conflicts)
    }

    /// Takes back all literals but the first ones, up to a count, which were followed, and a
    /// conflict.
    fn undo(&mut self, count: usize, uses: &Uses) {
        for next in count..self.followed {
            if let Some(forced) = self.forced.get(next) {
                let falsified = uses.first(forced.variable, !forced.negated);
                self.open_sums.raise(falsified, uses);
            }
        }
        for _ in count..self.forced.len() {
            if let Some(forced) = self.forced.pop()
                && let Some(value) = self.values.get_mut(forced.variable)
            {
                *value = None;
            }
        }
        self.followed = count;
        self.conflict = None;
    }

    /// Visits what the literals falsify in part that became true, in their order from one on, until
    /// nothing more follows.
    fn follow(&mut self, first: usize, base: Base<'_>, uses: &Uses) -> Result<(), AllocError>
        ensures { OnOk result (KeepsOver base.entry self.old self.new) }
    {
        for next in first..usize::MAX {
            let Some(forced) = self.forced.get(next) else {
                break;
            };
            let falsified = uses.first(forced.variable, !forced.negated);
            if self.conflict.is_some() {
                break;
            }
            self.visit_from(falsified, base, uses)?;
            self.followed = next + 1;
        }
        Ok(())
    }

    /// Visits the constraints of a list of uses, from an index on.
    fn visit_from(
        &mut self,
        first: Option<usize>,
        base: Base<'_>,
        uses: &Uses,
    ) -> Result<(), AllocError>
        ensures { OnOk result (KeepsOver base.entry self.old self.new) }
    {
        let mut at = first;
        for _ in 0..uses.len() {
            let Some(found) = uses.at(at) else {
                break;
            };
            self.visit_use(found, base, uses)?;
            at = found.next;
        }
        Ok(())
    }

    /// Visits a constraint after a literal of it was falsified, if it can force a literal.
    fn visit_use(&mut self, found: Use, base: Base<'_>, uses: &Uses) -> Result<(), AllocError>
        ensures { OnOk result (KeepsOver base.entry self.old self.new) }
    {
        self.visits = self.visits.saturating_add(1);
        if !self.open_sums.lower(found) {
            return Ok(());
        }
        self.visit_named(base, found.reason)
    }

    /// Visits the constraint that a reason names, if it propagates.
    fn visit_named(&mut self, base: Base<'_>, reason: Reason) -> Result<(), AllocError>
        ensures { OnOk result (KeepsOver base.entry self.old self.new) }
    {
        match base.form_named_by(reason) {
            Some(form) => self.visit(form, reason),
            None => Ok(()),
        }
    }

    /// Makes the literals true that a constraint forces, or notes that it is falsified.
    fn visit(&mut self, form: &Normal, reason: Reason) -> Result<(), AllocError>
        ensures { OnOk result (KeepsNamed reason form.now self.old self.new) }
    {
        if self.conflict.is_some() {
            return Ok(());
        }
        self.visits = self.visits.saturating_add(form.len() as u64);
        let open = self.open_sum(form);
        let degree = form.degree().unsigned_abs();
        if open < degree {
            self.conflict = Some(reason);
            return Ok(());
        }
        self.force_all(form, reason, open - degree)
    }

    /// Makes the literals true whose coefficients exceed the slack of their constraint.
    fn force_all(&mut self, form: &Normal, reason: Reason, slack: u128) -> Result<(), AllocError>
        ensures { OnOk result
            (HasSlack self.old form.now slack → KeepsNamed reason form.now self.old self.new) }
    {
        let terms = form.terms();
        'terms: for i in 0..terms.len() {
            let entry = terms.get(i);
            if slack < entry.coefficient {
                self.force(Forced {
                    variable: entry.variable,
                    negated: entry.negated,
                    reason,
                    slack,
                })?;
            }
        }
        Ok(())
    }

    /// The sum of the coefficients whose literals are not false.
    pub(crate) fn open_sum(&self, form: &Normal) -> u128
        ensures { result ≡ total (free_by self.now.values.items) form.now.terms }
    {
        let mut sum = 0u128;
        let terms = form.terms();
        'terms: for i in 0..terms.len() {
            let entry = terms.get(i);
            sum += self.open_part(&entry);
        }
        sum
    }

    /// The coefficient of a term if its literal is not false, and 0 otherwise.
    fn open_part(&self, entry: &Entry) -> u128
        ensures { result ≡ counted (free_by self.now.values.items) entry.now }
    {
        if self.is_false(entry) {
            0
        } else {
            entry.coefficient
        }
    }

    /// The sum of the coefficients whose literals are true.
    pub(crate) fn true_sum(&self, form: &Normal) -> u128 {
        let mut sum = 0u128;
        for entry in form.entries() {
            if self.value(entry.variable) == Some(!entry.negated) {
                sum = sum.saturating_add(entry.coefficient);
            }
        }
        sum
    }

    /// Whether the literal of a term is false.
    pub(crate) fn is_false(&self, entry: &Entry) -> bool
        ensures { result ≡ falsified_by self.now.values.items entry.now }
    {
        match self.value(entry.variable) {
            Some(value) => value == entry.negated,
            None => false,
        }
    }
}
