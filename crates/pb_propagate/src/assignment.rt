//! The list of assigned literals.

ghost use Rattle.std.specs.Prelude.{◌≡◌, ℕ, ◌≤◌, ◌+◌, ◌*◌, ◌<◌, ◌⊎◌, ◌++◌, ◌∷◌, [], None, Some, not, true, false, length, take, sum_by, IfOk, OnOk, OnErr, slice_index_or, slice_set};
ghost use Rattle.pb_normal.specs.declared.numbered.NumberedLiteral.{NumberedLiteral};
ghost use Rattle.pb_normal.specs.meaning.Rules.{negation};
ghost use Rattle.pb_propagate.specs.engine.engine.Lists.{has, says, vacancy, KeepsReasons, IsDue};
ghost use Rattle.pb_propagate.specs.engine.clauses.Truths.{true_at, false_at, AreMarked};

use crate::clause::opposite;
use pb_normal::NumberedLiteral;
use std::alloc::{AllocError, Global};

/// A list of literals, with the value that it gives to each variable.
#[derive(Drop)]
pub struct Assignment {
    // The value of each variable that has a literal on the list.
    pub values: Vec<Option<bool>>,
    // Whether the literal of each code is falsified. Clauses read this in place of the values.
    failed: Vec<bool>,
    pub list: Vec<NumberedLiteral>,
    // For each variable that has a literal on the list the slot of the form that has forced it,
    // `usize::MAX` if none has.
    pub reasons: Vec<usize>,
    ghost agrees: { (l : NumberedLiteral) → has list.items l ≡ says values.items l },
    ghost room: { length list.items + sum_by vacancy values.items ≡ length values.items },
    ghost sizes: { length failed.items ≡ 4 * length values.items },
    ghost known: { length reasons.items ≡ length values.items },
    ghost marked: { (x : ℕ) → slice_index_or failed.items x false ≡ false_at values.items x },
}

// Gives a literal's variable the value that makes the literal true.
fn assign(values: &mut Vec<Option<bool>>, failed: &mut Vec<bool>, literal: NumberedLiteral)
    requires inside { literal.variable < length values.old.items }
    requires marked { AreMarked values.old.items failed.old.items }
    ensures values { values.new.items ≡ slice_set values.old.items literal.variable
        (Some (not literal.negated)) }
    ensures marked { AreMarked values.new.items failed.new.items }
{
    let first = 4 * literal.variable;
    failed[first] = literal.negated;
    failed[first + 1] = !literal.negated;
    failed[first + 2] = literal.negated;
    failed[first + 3] = !literal.negated;
    values[literal.variable] = Some(!literal.negated);
}

// Removes a variable's value.
fn unassign(values: &mut Vec<Option<bool>>, failed: &mut Vec<bool>, variable: usize)
    requires inside { variable < length values.old.items }
    requires marked { AreMarked values.old.items failed.old.items }
    ensures values { values.new.items ≡ slice_set values.old.items variable None }
    ensures marked { AreMarked values.new.items failed.new.items }
{
    let first = 4 * variable;
    failed[first] = false;
    failed[first + 1] = false;
    failed[first + 2] = false;
    failed[first + 3] = false;
    values[variable] = None;
}

// Removes the values of a list's literals.
fn forget(values: &mut Vec<Option<bool>>, failed: &mut Vec<bool>, list: &[NumberedLiteral])
    requires agrees { (l : NumberedLiteral) → has list.now l ≡ says values.old.items l }
    requires marked { AreMarked values.old.items failed.old.items }
    ensures values { length values.new.items ≡ length values.old.items }
    ensures none { (k : ℕ) → slice_index_or values.new.items k None ≡ None }
    ensures marked { AreMarked values.new.items failed.new.items }
{
    'list: for literal in list {
        unassign(values, failed, literal.variable);
    }
}

// Removes the literals after the first `count` from the list, and their values.
fn shorten(
    values: &mut Vec<Option<bool>>,
    failed: &mut Vec<bool>,
    list: &mut Vec<NumberedLiteral>,
    count: usize,
)
    requires agrees { (l : NumberedLiteral) → has list.old.items l ≡ says values.old.items l }
    requires room { length list.old.items + sum_by vacancy values.old.items ≡ length
        values.old.items }
    requires marked { AreMarked values.old.items failed.old.items }
    ensures agrees { (l : NumberedLiteral) → has list.new.items l ≡ says values.new.items l }
    ensures room { length list.new.items + sum_by vacancy values.new.items ≡ length
        values.new.items }
    ensures values { length values.new.items ≡ length values.old.items }
    ensures list { list.new.items ≡ take count list.old.items }
    ensures marked { AreMarked values.new.items failed.new.items }
{
    'list: while list.len() > count {
        let last = list.len() - 1;
        let literal = list[last];
        unassign(values, failed, literal.variable);
        list.pop();
    }
}

impl Assignment {
    /// The empty list, over no variables.
    #[tactic(auto, using(crate::proofs::rulesets::Store::new))]
    pub fn new(alloc: Global) -> Assignment
        ensures { (result.values.items ≡ []) × (result.list.items ≡ []) }
    {
        Assignment {
            values: Vec::new(alloc),
            failed: Vec::new(alloc),
            list: Vec::new(alloc),
            reasons: Vec::new(alloc),
        }
    }

    /// The empty list, over no variables, with memory for this many.
    #[tactic(auto, using(crate::proofs::rulesets::Store::new))]
    pub fn with_capacity(alloc: Global, variables: usize) -> Result<Assignment, AllocError>
        ensures { IfOk result (λ a. (a.values.items ≡ []) × (a.list.items ≡ [])) }
    {
        let values = Vec::with_capacity(alloc, variables)?;
        let failed = Vec::with_capacity(alloc, variables.saturating_mul(4))?;
        let list = Vec::with_capacity(alloc, variables)?;
        let reasons = Vec::with_capacity(alloc, variables)?;
        Ok(Assignment {
            values,
            failed,
            list,
            reasons,
        })
    }

    /// Adds a variable.
    #[inline(always)]
    #[tactic(auto, using(crate::proofs::rulesets::Store::widen))]
    pub fn widen(&mut self) -> Result<(), AllocError>
        ensures values { OnOk result
            (length self.new.values.items ≡ length self.old.values.items + 1) }
        ensures list { self.new.list.items ≡ self.old.list.items }
        ensures reasons { OnOk result (
            KeepsReasons self.old.list.items self.old.reasons.items self.new.reasons.items) }
    {
        self.failed.reserve(4)?;
        self.reasons.reserve(1)?;
        self.values.push(None)?;
        self.failed.push_reserved(false);
        self.failed.push_reserved(false);
        self.failed.push_reserved(false);
        self.failed.push_reserved(false);
        self.reasons.push_reserved(usize::MAX);
        Ok(())
    }

    /// Removes all literals from the list.
    #[tactic(auto, using(crate::proofs::rulesets::Store::clear))]
    pub fn clear(&mut self)
        ensures values { length self.new.values.items ≡ length self.old.values.items }
        ensures list { self.new.list.items ≡ [] }
    {
        forget(&mut self.values, &mut self.failed, self.list.as_slice());
        self.list.clear();
    }

    /// Removes the literals after the first `count` from the list.
    pub fn cut(&mut self, count: usize)
        ensures values { length self.new.values.items ≡ length self.old.values.items }
        ensures list { self.new.list.items ≡ take count self.old.list.items }
        ensures reasons { self.new.reasons ≡ self.old.reasons }
    {
        shorten(&mut self.values, &mut self.failed, &mut self.list, count);
    }

    /// Whether the literal is on the list.
    pub fn contains(&self, literal: NumberedLiteral) -> bool
        requires { literal.variable < length self.now.values.items }
        ensures { result ≡ has self.now.list.items literal }
    {
        match self.values[literal.variable] {
            Some(value) => value != literal.negated,
            None => false,
        }
    }

    /// Whether the literal of a code is falsified.
    pub fn falsifies(&self, code: u32) -> bool
        requires { code < 4 * length self.now.values.items }
        ensures { result ≡ false_at self.now.values.items code }
    {
        self.failed[code as usize]
    }

    /// Whether the literal of a code is true.
    pub fn satisfies(&self, code: u32) -> bool
        requires { code < 4 * length self.now.values.items }
        ensures { result ≡ true_at self.now.values.items code }
    {
        self.failed[opposite(code as usize)]
    }

    /// Whether the literal of a code is falsified. A variable that is not there has no value.
    pub fn has_falsified(&self, code: usize) -> bool
        ensures { result ≡ false_at self.now.values.items code }
    {
        match self.failed.get(code) {
            Some(failed) => *failed,
            None => false,
        }
    }

    /// Whether the literal of a code has no value.
    pub fn leaves_open(&self, code: u32) -> bool
        requires { code < 4 * length self.now.values.items }
        ensures yes { result ≡ true → (true_at self.now.values.items code ≡ false) ×
            (false_at self.now.values.items code ≡ false) }
        ensures no { result ≡ false → (true_at self.now.values.items code ≡ true) ⊎
            (false_at self.now.values.items code ≡ true) }
    {
        if self.satisfies(code) {
            return false;
        }
        !self.falsifies(code)
    }

    /// Adds a literal to the list. The form of the slot `reason` has forced it.
    #[tactic(auto, using(crate::proofs::rulesets::Store::put))]
    pub fn put(&mut self, literal: NumberedLiteral, reason: usize) -> Result<(), AllocError>
        requires inside { literal.variable < length self.old.values.items }
        requires absent { has self.old.list.items literal ≡ false }
        requires not_falsified { has self.old.list.items (negation literal) ≡ false }
        ensures values { length self.new.values.items ≡ length self.old.values.items }
        ensures ok { OnOk result (self.new.list.items ≡ self.old.list.items ++ literal ∷ []) }
        ensures err { OnErr result (self.new.list.items ≡ self.old.list.items) }
        ensures reasons { OnOk result (
            self.new.reasons.items ≡ slice_set self.old.reasons.items literal.variable reason) }
    {
        self.list.push(literal)?;
        self.reasons[literal.variable] = reason;
        assign(&mut self.values, &mut self.failed, literal);
        Ok(())
    }

    /// Whether the literal is on the list, and the form of a slot is its reason.
    pub fn is_due(&self, literal: NumberedLiteral, slot: usize) -> bool
        requires { literal.variable < length self.now.values.items }
        ensures yes { result ≡ true →
            IsDue slot self.now.list.items self.now.reasons.items literal }
        ensures no { result ≡ false →
            IsDue slot self.now.list.items self.now.reasons.items literal → ⊥ }
    {
        if self.reasons[literal.variable] != slot {
            return false;
        }
        self.contains(literal)
    }

    /// Gives the literal of a variable another reason.
    pub fn explain(&mut self, variable: usize, reason: usize)
        requires { variable < length self.old.values.items }
        ensures reasons { self.new.reasons.items ≡ slice_set self.old.reasons.items variable
            reason }
        ensures values { self.new.values ≡ self.old.values }
        ensures list { self.new.list ≡ self.old.list }
    {
        self.reasons[variable] = reason;
    }
}
