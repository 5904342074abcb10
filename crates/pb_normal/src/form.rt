//! Normal forms.

pub(crate) mod body;

ghost use Rattle.std.specs.Prelude.{◌≡◌, ◌<◌, ◌^◌, ◌↔◌, [], pos, IfOk, IfErr, length, IsTrue, All};
ghost use Rattle.pb_normal.specs.meaning.Form.{IsNormal, ReadsTerm, total, each, size, Holds};
ghost use Rattle.pb_normal.specs.meaning.Rules.{IsContradiction, assignment};

use crate::entries::Entries;
use crate::entry::Entry;
use crate::fault::NormalFault;
use crate::form::body::Body;
use crate::memory::Memory;
use crate::terms::Terms;
use crate::terms::choice::{Each, TrueAt, total_of};
use crate::terms::reading::Reading;
use std::alloc::AllocError;
use std::marker::Model;

/// A constraint in normal form: positive coefficients on literals of different variables, and a
/// degree. It holds if the coefficients of its true literals add up to at least the degree.
///
/// The terms are in the order of their variables. The sum of the coefficients and the degree are
/// below `2^127`.
#[derive(Drop)]
pub struct Normal {
    body: Body,
}

impl Model for Normal {
    ghost use Rattle.pb_normal.specs.meaning.Form.{Form, IsNormal};
    ghost use Rattle.pb_normal.specs.engine.Bodies.{form_of};

    ghost Value = { Form };

    ghost view = { λ n. form_of n.body };

    ghost invariant = { λ n. IsNormal (form_of n.body) };
}

impl Normal {
    // The form of these terms and this degree. It allocates if the degree is `2^32` or more.
    #[inline]
    pub(crate) fn of(terms: Terms, degree: u128) -> Result<Normal, AllocError>
        requires normal { IsNormal record { terms = terms; degree = degree } }
        ensures same { IfOk result (λ r. r ≡ record { terms = terms; degree = degree }) }
    {
        let body = Body::of(terms, degree)?;
        Ok(Normal { body })
    }

    // Its terms and its degree.
    #[inline]
    pub(crate) fn into_parts(self) -> (Terms, u128)
        ensures terms { result.0 ≡ self.terms }
        ensures degree { result.1 ≡ self.degree }
        ensures normal { IsNormal self }
    {
        self.body.into_parts()
    }

    // The degree, which is not negative.
    #[inline]
    pub(crate) fn unsigned_degree(&self) -> u128
        ensures degree { result ≡ self.now.degree }
        ensures normal { IsNormal self.now }
    {
        self.body.degree()
    }

    /// How many terms it has.
    pub fn len(&self) -> usize
        ensures length { result ≡ length self.now.terms }
        ensures normal { IsNormal self.now }
    {
        self.terms().len()
    }

    /// Whether it has no terms.
    pub fn is_empty(&self) -> bool
        ensures { IsTrue result ↔ (self.now.terms ≡ []) }
    {
        self.terms().len() == 0
    }

    /// A term: its variable, whether it is negated, and its coefficient.
    pub fn term(&self, index: usize) -> (usize, bool, i128)
        requires { index < length self.now.terms }
        ensures { ReadsTerm self.now.terms index result }
    {
        let t = self.terms().get(index);
        (t.variable, t.negated, t.coefficient as i128)
    }

    /// The terms, in the order of their variables.
    #[inline]
    pub fn terms(&self) -> &Terms
        ensures terms { result.now ≡ self.now.terms }
        ensures normal { IsNormal self.now }
    {
        self.body.terms()
    }

    /// The terms one after another, in the order of their variables.
    pub fn entries(&self) -> Entries<'_>
        ensures entries { result ≡ self.now.terms }
        ensures normal { IsNormal self.now }
    {
        self.terms().iter()
    }

    /// The sum of the coefficients.
    pub fn size(&self) -> u128
        ensures size { result ≡ size self.now }
        ensures normal { IsNormal self.now }
    {
        size_of(self.terms())
    }

    /// The degree.
    pub fn degree(&self) -> i128
        ensures degree { result ≡ pos self.now.degree }
        ensures normal { IsNormal self.now }
    {
        self.unsigned_degree() as i128
    }

    /// A copy of the form.
    pub fn copy(&self) -> Result<Normal, NormalFault>
        ensures copy { IfOk result (λ r. r ≡ self.now) }
        ensures normal { IfOk result (λ r. IsNormal r) }
        ensures memory { IfErr result (λ e. e ≡ NormalFault.Memory) }
    {
        let terms = self.terms().copy()?;
        let copy = Normal::of(terms, self.unsigned_degree())?;
        Ok(copy)
    }

    // A copy whose terms are stored as entries.
    pub(crate) fn widened(&self) -> Result<Normal, AllocError>
        ensures same { IfOk result (λ r. r ≡ self.now) }
    {
        let entries = self.terms().to_entries()?;
        Normal::of(Terms::wide(entries), self.unsigned_degree())
    }

    // The same. The terms are put into an empty list.
    pub(crate) fn widened_in(&self, empty: Vec<Entry>) -> Result<Normal, AllocError>
        requires { empty.items ≡ [] }
        ensures same { IfOk result (λ r. r ≡ self.now) }
    {
        let mut entries = empty;
        self.terms().append_to(&mut entries)?;
        Normal::of(Terms::wide(entries), self.unsigned_degree())
    }

    // The same form, in as little memory as it allows. The terms are allocated once, or their list
    // shrinks.
    pub(crate) fn compact(self) -> Result<Normal, AllocError>
        ensures same { IfOk result (λ r. r ≡ self) }
    {
        let (terms, degree) = self.into_parts();
        let terms = terms.compact()?;
        Normal::of(terms, degree)
    }

    // The same form, in as little memory as it allows. The terms are allocated once, and the memory
    // of a list of entries is used again.
    pub(crate) fn compact_from(self, memory: &mut Memory) -> Result<Normal, AllocError>
        ensures same { IfOk result (λ r. r ≡ self) }
    {
        let (terms, degree) = self.into_parts();
        let terms = terms.compact_from(memory)?;
        Normal::of(terms, degree)
    }

    /// Whether the two have the same terms and the same degree.
    pub fn is_same(&self, other: &Normal) -> bool
        ensures { IsTrue result ↔ (self.now ≡ other.now) }
    {
        self.unsigned_degree() == other.unsigned_degree() && self.terms().is_same(other.terms())
    }

    /// Whether it holds at these values, one for each variable.
    pub fn holds(&self, values: &[bool]) -> bool
        requires { All (λ t. t.variable < length values.now) self.now.terms }
        ensures { IsTrue result ↔ Holds (assignment values.now) self.now }
    {
        total_of(self.terms(), &TrueAt { values }) >= self.unsigned_degree()
    }

    /// Whether its degree exceeds the sum of its coefficients, so that it holds nowhere.
    pub fn is_contradiction(&self) -> bool
        ensures { IsTrue result ↔ IsContradiction self.now }
    {
        self.size() < self.unsigned_degree()
    }
}

// The sum of the coefficients.
pub(crate) fn size_of(terms: &Terms) -> u128
    requires { total each terms.now < 2 ^ 128 }
    ensures { result ≡ total each terms.now }
{
    match terms.reading() {
        Reading::Codes(codes) => codes.len() as u128,
        _ => total_of(terms, &Each {}),
    }
}
