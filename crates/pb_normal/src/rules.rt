//! The rules of cutting planes.

ghost use Rattle.std.specs.Prelude.{◌≡◌, [], ◌*◌, ◌<◌, ◌≤◌, ◌≤ℤ◌, ◌^◌, ◌↔◌, ◌==◌, not, pos, IfOk, IfErr, IsTrue, All, map, min, nat_lt, filter, Err};
ghost use Rattle.std.specs.Int.{div_ceil};
ghost use Rattle.std.specs.Int.RustNames.{unsigned_abs};
ghost use Rattle.pb_text.specs.meaning.Limits.{largest};
ghost use Rattle.pb_normal.specs.engine.Adds.{SumFits};
ghost use Rattle.pb_normal.specs.meaning.Form.{IsNormal, IsRising, IsWithin, Follows, FollowsBoth, IsOpposite};
ghost use Rattle.pb_normal.specs.meaning.Rules.{IsSum, Passes, SumPasses, SumMeasures, SumIsContradiction, multiplied, divided, saturated, weakened, axiom_on, negation_of, with_coefficient, opposite};

use crate::entry::Entry;
use crate::fault::NormalFault;
use crate::form::{Normal, size_of};
use crate::merge::{cancelled, merged};
use crate::terms::Terms;
use crate::terms::choice::{OnVariable, total_of};
use crate::terms::listed::Listed;
use crate::terms::reading::Reading;
use pb_text::Limits;
use std::alloc::{AllocError, Global};

impl Normal {
    /// The sum of two forms. `Overflow` comes if and only if the sum of its coefficients or its
    /// degree exceeds the limit.
    pub fn add(&self, other: &Normal, limits: Limits) -> Result<Normal, NormalFault>
        ensures sum { IfOk result (λ r. IsSum self.now other.now r) }
        ensures normal { IfOk result (λ r. IsNormal r) }
        ensures within { IfOk result (λ r. IsWithin (largest limits) r) }
        ensures overflow { (result ≡ Err NormalFault.Overflow) ↔ SumPasses
            (largest limits) self.now other.now }
        ensures sound { IfOk result (λ r. FollowsBoth self.now other.now r) }
    {
        let limit = limits.largest();
        let (size, degree) = measures_of_sum(self, other);
        if size > limit || degree > limit {
            return Err(NormalFault::Overflow);
        }
        let alloc = self.terms().allocator();
        let (terms, _) = merged(Vec::new(alloc), self.terms(), other.terms())?;
        let form = Normal::of(Terms::wide(terms), degree)?;
        Ok(form)
    }

    // The sum of two forms, which is normal. Its terms are put into an empty list.
    pub(crate) fn joined(&self, other: &Normal, empty: Vec<Entry>) -> Result<Normal, AllocError>
        requires fits { SumFits self.now other.now }
        requires empty { empty.items ≡ [] }
        ensures sum { IfOk result (λ r. IsSum self.now other.now r) }
        ensures normal { IfOk result (λ r. IsNormal r) }
    {
        let (terms, gone) = merged(empty, self.terms(), other.terms())?;
        let degree = (self.unsigned_degree() + other.unsigned_degree()).saturating_sub(gone);
        Normal::of(Terms::wide(terms), degree)
    }

    /// The form with all coefficients and the degree multiplied. `Overflow` comes if and only if
    /// the sum of the coefficients or the degree of the result exceeds the limit.
    #[tactic(auto, using(crate::proofs::Rulesets::multiply))]
    pub fn multiply(&self, factor: i128, limits: Limits) -> Result<Normal, NormalFault>
        requires { pos 1 ≤ℤ factor }
        ensures product { IfOk result (λ r. r ≡ multiplied (unsigned_abs factor) self.now) }
        ensures normal { IfOk result (λ r. IsNormal r) }
        ensures within { IfOk result (λ r. IsWithin (largest limits) r) }
        ensures overflow { (result ≡ Err NormalFault.Overflow) ↔ Passes (largest limits)
            (multiplied (unsigned_abs factor) self.now) }
        ensures sound { IfOk result (λ r. Follows self.now r) }
    {
        let k = factor.unsigned_abs();
        let most = limits.largest() / k;
        if size_of(self.terms()) > most || self.unsigned_degree() > most {
            return Err(NormalFault::Overflow);
        }
        let terms = multiplied_terms(Vec::new(self.terms().allocator()), self.terms(), k)?;
        let degree = self.unsigned_degree() * k;
        let form = Normal::of(Terms::wide(terms), degree)?;
        Ok(form)
    }

    // The form with all coefficients and the degree multiplied, which is normal. Its terms are put
    // into an empty list.
    #[tactic(auto, using(crate::proofs::Rulesets::scaled))]
    pub(crate) fn scaled(&self, k: u128, empty: Vec<Entry>) -> Result<Normal, AllocError>
        requires fits { IsNormal (multiplied k self.now) }
        requires empty { empty.items ≡ [] }
        ensures product { IfOk result (λ r. r ≡ multiplied k self.now) }
    {
        let terms = multiplied_terms(empty, self.terms(), k)?;
        let degree = self.unsigned_degree() * k;
        Normal::of(Terms::wide(terms), degree)
    }

    /// The form with all coefficients and the degree divided and rounded up.
    #[tactic(auto, using(crate::proofs::Rulesets::steps))]
    pub fn divide(&self, divisor: i128) -> Result<Normal, NormalFault>
        requires { pos 1 ≤ℤ divisor }
        ensures quotient { IfOk result (λ r. r ≡ divided (unsigned_abs divisor) self.now) }
        ensures normal { IfOk result (λ r. IsNormal r) }
        ensures sound { IfOk result (λ r. Follows self.now r) }
        ensures memory { IfErr result (λ e. e ≡ NormalFault.Memory) }
    {
        let form = self.widened()?;
        let quotient = form.divided(divisor.unsigned_abs())?;
        Ok(quotient)
    }

    // The form with all coefficients and the degree divided and rounded up, in the same list if it
    // has entries.
    pub(crate) fn divided(self, k: u128) -> Result<Normal, AllocError>
        requires { 0 < k }
        ensures quotient { IfOk result (λ r. r ≡ divided k self) }
        ensures normal { IfOk result (λ r. IsNormal r) }
    {
        let (terms, degree) = self.into_parts();
        let mut terms = terms.into_entries()?;
        divide_all(&mut terms, k);
        Normal::of(Terms::wide(terms), degree.div_ceil(k))
    }

    /// The form with every coefficient reduced to at most the degree.
    #[tactic(auto, using(crate::proofs::Rulesets::steps))]
    pub fn saturate(&self) -> Result<Normal, NormalFault>
        ensures saturated { IfOk result (λ r. r ≡ saturated self.now) }
        ensures normal { IfOk result (λ r. IsNormal r) }
        ensures sound { IfOk result (λ r. Follows self.now r) }
        ensures memory { IfErr result (λ e. e ≡ NormalFault.Memory) }
    {
        let form = self.widened()?;
        let saturation = form.saturated()?;
        Ok(saturation)
    }

    // The form with every coefficient reduced to at most the degree, in the same list if it has
    // entries.
    pub(crate) fn saturated(self) -> Result<Normal, AllocError>
        ensures saturated { IfOk result (λ r. r ≡ saturated self) }
        ensures normal { IfOk result (λ r. IsNormal r) }
    {
        let (terms, degree) = self.into_parts();
        let mut terms = terms.into_entries()?;
        saturate_all(&mut terms, degree);
        Normal::of(Terms::wide(terms), degree)
    }

    /// The form without the term on a variable, whose coefficient is subtracted from the degree.
    pub fn weaken(&self, variable: usize) -> Result<Normal, NormalFault>
        ensures weakened { IfOk result (λ r. r ≡ weakened variable self.now) }
        ensures normal { IfOk result (λ r. IsNormal r) }
        ensures sound { IfOk result (λ r. Follows self.now r) }
        ensures memory { IfErr result (λ e. e ≡ NormalFault.Memory) }
    {
        let weakening = self.weakened(variable, Vec::new(self.terms().allocator()))?;
        Ok(weakening)
    }

    // The same. The terms are put into an empty list.
    pub(crate) fn weakened(&self, variable: usize, empty: Vec<Entry>) -> Result<Normal, AllocError>
        requires empty { empty.items ≡ [] }
        ensures weakened { IfOk result (λ r. r ≡ weakened variable self.now) }
        ensures normal { IfOk result (λ r. IsNormal r) }
    {
        let terms = terms_without(empty, self.terms(), variable)?;
        let dropped = total_of(self.terms(), &OnVariable { variable });
        let degree = self.unsigned_degree().saturating_sub(dropped);
        Normal::of(Terms::wide(terms), degree)
    }

    /// A literal with coefficient 1 and degree 0, which always holds.
    pub fn axiom(alloc: Global, variable: usize, negated: bool) -> Result<Normal, NormalFault>
        ensures axiom { IfOk result (λ r. r ≡ axiom_on variable negated) }
        ensures normal { IfOk result (λ r. IsNormal r) }
        ensures memory { IfErr result (λ e. e ≡ NormalFault.Memory) }
    {
        let literal = Entry {
            variable,
            negated,
            coefficient: 1,
        };
        let terms = Terms::of(alloc, &[literal])?;
        let form = Normal::of(terms, 0)?;
        Ok(form)
    }

    /// The form that holds if and only if this one, of degree at least 1, does not.
    pub fn negation(&self) -> Result<Normal, NormalFault>
        requires { 1 ≤ self.now.degree }
        ensures negation { IfOk result (λ r. r ≡ negation_of self.now) }
        ensures normal { IfOk result (λ r. IsNormal r) }
        ensures opposite { IfOk result (λ r. IsOpposite self.now r) }
        ensures memory { IfErr result (λ e. e ≡ NormalFault.Memory) }
    {
        let terms = opposite_terms(self.terms().allocator(), self.terms())?;
        let degree = (size_of(self.terms()) + 1).saturating_sub(self.unsigned_degree());
        let form = Normal::of(Terms::wide(terms), degree)?;
        Ok(form)
    }

    /// Whether the sum of the two, in unbounded integers, is a contradiction. It allocates nothing.
    pub fn refutes(&self, other: &Normal) -> bool
        ensures { IsTrue result ↔ SumIsContradiction self.now other.now }
    {
        let (size, degree) = measures_of_sum(self, other);
        size < degree
    }
}

// The sum of the coefficients, and the degree, of the sum of two forms.
fn measures_of_sum(left: &Normal, right: &Normal) -> (u128, u128)
    ensures { SumMeasures left.now right.now result.0 result.1 }
{
    let gone = cancelled(left.terms(), right.terms());
    let sizes = size_of(left.terms()) + size_of(right.terms());
    let degrees = left.unsigned_degree() + right.unsigned_degree();
    (sizes - 2 * gone, degrees.saturating_sub(gone))
}

// The functions below choose once how terms are read. Each list has room for all terms from the
// start.

fn multiplied_terms(empty: Vec<Entry>, terms: &Terms, k: u128) -> Result<Vec<Entry>, AllocError>
    requires empty { empty.items ≡ [] }
    requires fits { All (λ t. t.coefficient * k < 2 ^ 128) terms.now }
    ensures { IfOk result (λ v.
        v.items ≡ map (λ t. with_coefficient t (t.coefficient * k)) terms.now) }
{
    match terms.reading() {
        Reading::Codes(codes) => multiplied_list(empty, &codes, k),
        Reading::Narrow(terms) => multiplied_list(empty, &terms, k),
        Reading::Wide(terms) => multiplied_list(empty, &terms, k),
    }
}

fn multiplied_list<L: Listed>(
    empty: Vec<Entry>,
    terms: &L,
    k: u128,
) -> Result<Vec<Entry>, AllocError>
    requires empty { empty.items ≡ [] }
    requires fits { All (λ t. t.coefficient * k < 2 ^ 128) (L.entries terms.now) }
    ensures { IfOk result (λ v.
        v.items ≡ map (λ t. with_coefficient t (t.coefficient * k)) (L.entries terms.now)) }
{
    let mut out = empty;
    out.reserve(terms.count())?;
    'terms: for i in 0..terms.count() {
        let t = terms.at(i);
        out.push(Entry {
            coefficient: t.coefficient * k,
            ..t
        })?;
    }
    Ok(out)
}

// The term with its coefficient divided and rounded up.
fn divided_term(term: Entry, k: u128) -> Entry
    requires { 0 < k }
    ensures { result ≡ with_coefficient term (div_ceil term.coefficient k) }
{
    Entry {
        coefficient: term.coefficient.div_ceil(k),
        ..term
    }
}

// Divides each coefficient and rounds it up.
fn divide_all(terms: &mut Vec<Entry>, k: u128)
    requires { 0 < k }
    ensures { terms.new.items ≡
        map (λ t. with_coefficient t (div_ceil t.coefficient k)) terms.old.items }
{
    'terms: for i in 0..terms.len() {
        let t = terms[i];
        terms[i] = divided_term(t, k);
    }
}

// The term with its coefficient reduced to at most the degree.
fn saturated_term(term: Entry, degree: u128) -> Entry
    ensures { result ≡ with_coefficient term (min term.coefficient degree) }
{
    Entry {
        coefficient: term.coefficient.min(degree),
        ..term
    }
}

// Reduces each coefficient to at most the degree, and drops the terms whose coefficient is then 0.
fn saturate_all(terms: &mut Vec<Entry>, degree: u128)
    requires { IsRising 0 terms.old.items }
    ensures { terms.new.items ≡ filter (λ t. nat_lt 0 t.coefficient)
        (map (λ t. with_coefficient t (min t.coefficient degree)) terms.old.items) }
{
    if degree == 0 {
        terms.clear();
        return;
    }
    'terms: for i in 0..terms.len() {
        let t = terms[i];
        terms[i] = saturated_term(t, degree);
    }
}

fn opposite_terms(alloc: Global, terms: &Terms) -> Result<Vec<Entry>, AllocError>
    ensures { IfOk result (λ v. v.items ≡ map opposite terms.now) }
{
    match terms.reading() {
        Reading::Codes(codes) => opposite_list(alloc, &codes),
        Reading::Narrow(terms) => opposite_list(alloc, &terms),
        Reading::Wide(terms) => opposite_list(alloc, &terms),
    }
}

fn opposite_list<L: Listed>(alloc: Global, terms: &L) -> Result<Vec<Entry>, AllocError>
    ensures { IfOk result (λ v. v.items ≡ map opposite (L.entries terms.now)) }
{
    let mut out = Vec::with_capacity(alloc, terms.count())?;
    'terms: for i in 0..terms.count() {
        let t = terms.at(i);
        out.push(Entry {
            negated: !t.negated,
            ..t
        })?;
    }
    Ok(out)
}

fn terms_without(
    empty: Vec<Entry>,
    terms: &Terms,
    variable: usize,
) -> Result<Vec<Entry>, AllocError>
    requires { empty.items ≡ [] }
    ensures { IfOk result (λ v. v.items ≡ filter (λ t. not (t.variable == variable)) terms.now) }
{
    match terms.reading() {
        Reading::Codes(codes) => list_without(empty, &codes, variable),
        Reading::Narrow(terms) => list_without(empty, &terms, variable),
        Reading::Wide(terms) => list_without(empty, &terms, variable),
    }
}

fn list_without<L: Listed>(
    empty: Vec<Entry>,
    terms: &L,
    variable: usize,
) -> Result<Vec<Entry>, AllocError>
    requires { empty.items ≡ [] }
    ensures { IfOk result (λ v.
        v.items ≡ filter (λ t. not (t.variable == variable)) (L.entries terms.now)) }
{
    let mut out = empty;
    out.reserve(terms.count())?;
    'terms: for i in 0..terms.count() {
        let t = terms.at(i);
        if t.variable != variable {
            out.push(t)?;
        }
    }
    Ok(out)
}
