//! Forms whose terms are found by their variables.

ghost use Rattle.std.specs.Prelude.{◌≡◌, ◌+◌, ◌<◌, ◌^◌, ◌==◌, [], ◌∷◌, not, filter, IfOk, length};
ghost use Rattle.std.specs.BTreeMap.{values};
ghost use Rattle.pb_normal.specs.engine.Adds.{Adds, Cancels, SumFits};
ghost use Rattle.pb_normal.specs.engine.Keyed.{IsKeyed, TermCancels};
ghost use Rattle.pb_normal.specs.meaning.Form.{IsNormal, IsRising, size, total, each};
ghost use Rattle.pb_normal.specs.meaning.Rules.{IsSum, weakened, of_variable};

use crate::entry::Entry;
use crate::form::{Normal, size_of};
use crate::merge::combined;
use crate::terms::Terms;
use std::alloc::{AllocError, Global};
use std::collections::BTreeMap;
use std::marker::Model;

/// A form whose terms are in a map by their variables. Its size is kept, so that a small change
/// takes little time.
#[derive(Drop)]
pub(crate) struct Tree {
    terms: BTreeMap<usize, Entry>,
    size: u128,
    degree: u128,
}

impl Model for Tree {
    ghost use Rattle.pb_normal.specs.meaning.Form.{Form};
    ghost use Rattle.pb_normal.specs.engine.Keyed.{IsKept, keyed_form};

    ghost Value = { Form };

    ghost view = { λ t. keyed_form t.terms t.degree };

    ghost invariant = { λ t. IsKept t.terms t.size t.degree };
}

impl Tree {
    /// The tree of a form.
    pub(crate) fn of(alloc: Global, form: &Normal) -> Result<Tree, AllocError>
        ensures same { IfOk result (λ r. r ≡ form.now) }
    {
        let mut terms = BTreeMap::new(alloc);
        let _ = put_all(&mut terms, form.terms())?;
        Ok(Tree {
            terms,
            size: size_of(form.terms()),
            degree: form.unsigned_degree(),
        })
    }

    /// How many terms it has.
    pub(crate) fn len(&self) -> usize
        ensures length { result ≡ length self.now.terms }
    {
        self.terms.len()
    }

    /// The form as a list of terms.
    pub(crate) fn listed(self, alloc: Global) -> Result<Normal, AllocError>
        ensures same { IfOk result (λ r. r ≡ self) }
    {
        let Tree { terms, degree, .. } = self;
        let terms = terms.into_values().collect(alloc)?;
        Normal::of(Terms::wide(terms), degree)
    }

    /// The sum of the coefficients.
    pub(crate) fn size(&self) -> u128
        ensures size { result ≡ size self.now }
        ensures normal { IsNormal self.now }
    {
        self.size
    }

    /// The degree.
    pub(crate) fn degree(&self) -> u128
        ensures degree { result ≡ self.now.degree }
    {
        self.degree
    }

    /// How much cancels in the sum with a form. It allocates nothing.
    pub(crate) fn cancelled(&self, other: &Normal) -> u128
        ensures { Cancels self.now.terms other.now.terms result }
    {
        cancelled_by_list(&self.terms, other.terms())
    }

    /// How much cancels in the sum with another tree. It allocates nothing.
    pub(crate) fn cancelled_in(&self, other: &Tree) -> u128
        ensures { Cancels self.now.terms other.now.terms result }
    {
        cancelled_by_tree(&self.terms, &other.terms)
    }

    /// The sum with a form, which is normal.
    pub(crate) fn joined(self, other: &Normal) -> Result<Tree, AllocError>
        requires fits { SumFits self other.now }
        ensures sum { IfOk result (λ r. IsSum self other.now r) }
    {
        let Tree {
            mut terms,
            size,
            degree,
        } = self;
        let gone = put_all(&mut terms, other.terms())?;
        let size = size + size_of(other.terms()) - 2 * gone;
        let degree = (degree + other.unsigned_degree()).saturating_sub(gone);
        Ok(Tree {
            terms,
            size,
            degree,
        })
    }

    /// The form without the term on a variable, whose coefficient is subtracted from the degree.
    pub(crate) fn weaken(self, variable: usize) -> Tree
        ensures weakened { result ≡ weakened variable self }
    {
        let Tree {
            mut terms,
            size,
            degree,
        } = self;
        let dropped = take_out(&mut terms, variable);
        Tree {
            terms,
            size: size - dropped,
            degree: degree.saturating_sub(dropped),
        }
    }
}

// Removes the term on a variable, and returns its coefficient.
#[tactic(auto, using(crate::proofs::Rulesets::take_out))]
fn take_out(terms: &mut BTreeMap<usize, Entry>, variable: usize) -> u128
    requires keyed { IsKeyed terms.old }
    requires rising { IsRising 0 (values terms.old) }
    ensures keyed { IsKeyed terms.new }
    ensures weakened { values terms.new ≡ filter (λ t. not (t.variable == variable))
        (values terms.old) }
    ensures dropped { result ≡ total (of_variable variable) (values terms.old) }
    ensures size { total each (values terms.new) + result ≡ total each (values terms.old) }
{
    match terms.remove(&variable) {
        Some(t) => t.coefficient,
        None => 0,
    }
}

// How much of a term cancels in the sum with the one on its variable.
#[tactic(auto, using(crate::proofs::Rulesets::cancelled_by))]
fn cancelled_by(terms: &BTreeMap<usize, Entry>, term: Entry) -> u128
    requires keyed { IsKeyed terms.now }
    requires positive { 0 < term.coefficient }
    requires fits { total each (values terms.now) + term.coefficient < 2 ^ 128 }
    ensures { TermCancels terms.now term result }
{
    let Some(before) = terms.get(&term.variable) else {
        return 0;
    };
    let (_, gone) = combined(*before, term);
    gone
}

// How much cancels in the sum with a list.
#[tactic(auto, using(crate::proofs::Rulesets::cancelled))]
fn cancelled_by_list(terms: &BTreeMap<usize, Entry>, list: &Terms) -> u128
    requires keyed { IsKeyed terms.now }
    requires rising { IsRising 0 (values terms.now) }
    requires list_rising { IsRising 0 list.now }
    requires fits { total each (values terms.now) + total each list.now < 2 ^ 128 }
    ensures { Cancels (values terms.now) list.now result }
{
    let mut cancelled = 0;
    'terms: for i in 0..list.len() {
        let term = list.get(i);
        cancelled += cancelled_by(terms, term);
    }
    cancelled
}

// How much cancels in the sum with another map.
#[tactic(auto, using(crate::proofs::Rulesets::cancelled))]
fn cancelled_by_tree(terms: &BTreeMap<usize, Entry>, others: &BTreeMap<usize, Entry>) -> u128
    requires keyed { IsKeyed terms.now }
    requires rising { IsRising 0 (values terms.now) }
    requires others_rising { IsRising 0 (values others.now) }
    requires fits { total each (values terms.now) + total each (values others.now) < 2 ^ 128 }
    ensures { Cancels (values terms.now) (values others.now) result }
{
    let mut cancelled = 0;
    for term in others.values() {
        cancelled += cancelled_by(terms, *term);
    }
    cancelled
}

// Adds a term, and returns how much of it cancels.
#[tactic(auto, using(crate::proofs::Rulesets::cancelled_by))]
fn put(terms: &mut BTreeMap<usize, Entry>, term: Entry) -> Result<u128, AllocError>
    requires keyed { IsKeyed terms.old }
    requires positive { 0 < term.coefficient }
    requires fits { total each (values terms.old) + term.coefficient < 2 ^ 128 }
    ensures keyed { IfOk result (λ _. IsKeyed terms.new) }
    ensures rising { IfOk result (λ _. IsRising 0 (values terms.new)) }
    ensures adds { IfOk result (λ gone. Adds (values terms.old) (term ∷ [])
        (values terms.new) gone) }
{
    let Some(before) = terms.insert(term.variable, term)? else {
        return Ok(0);
    };
    let (sum, gone) = combined(before, term);
    match sum {
        Some(t) => {
            let _ = terms.insert(term.variable, t)?;
        }
        None => {
            let _ = terms.remove(&term.variable);
        }
    }
    Ok(gone)
}

// Adds all terms of a list, and returns how much of them cancels.
fn put_all(terms: &mut BTreeMap<usize, Entry>, list: &Terms) -> Result<u128, AllocError>
    requires keyed { IsKeyed terms.old }
    requires rising { IsRising 0 (values terms.old) }
    requires list_rising { IsRising 0 list.now }
    requires fits { total each (values terms.old) + total each list.now < 2 ^ 128 }
    ensures keyed { IfOk result (λ _. IsKeyed terms.new) }
    ensures rising { IfOk result (λ _. IsRising 0 (values terms.new)) }
    ensures adds { IfOk result (λ gone. Adds (values terms.old) list.now (values terms.new) gone) }
{
    let mut cancelled = 0;
    'terms: for i in 0..list.len() {
        let term = list.get(i);
        cancelled += put(terms, term)?;
    }
    Ok(cancelled)
}
