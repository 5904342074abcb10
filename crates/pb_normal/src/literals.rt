//! Forms of literals with equal coefficients.

ghost use Rattle.std.specs.Prelude.{◌≡◌, ℕ, ◌<◌, ◌^◌, true, false, IfOk, IfErr, map};
ghost use Rattle.pb_normal.specs.meaning.Form.{IsNormal};
ghost use Rattle.pb_normal.specs.meaning.Rules.{IsCountOf, on, unit_of, with_coefficient};

use crate::collect::collected;
use crate::entry::Entry;
use crate::fault::NormalFault;
use crate::form::Normal;
use crate::numbered::NumberedLiteral;
use crate::terms::Terms;
use std::alloc::{AllocError, Global};

impl Normal {
    /// The constraint that at least `degree` of the literals of a list hold. Each has coefficient
    /// 1, however often the list contains it. With degree 1 the form is the clause of the literals.
    pub fn from_literals(
        alloc: Global,
        literals: &[NumberedLiteral],
        degree: u128,
    ) -> Result<Normal, NormalFault>
        requires apart { (x : ℕ) → on literals.now x true ≡ true →
            on literals.now x false ≡ true → ⊥ }
        requires small { degree < 2 ^ 127 }
        ensures count { IfOk result (λ r. IsCountOf literals.now degree r) }
        ensures normal { IfOk result (λ r. IsNormal r) }
        ensures memory { IfErr result (λ e. e ≡ NormalFault.Memory) }
    {
        let mut raw = units(alloc, literals)?;
        let (once, _) = collected(alloc, raw.as_mut_slice())?;
        let counted = counted_once(alloc, &once)?;
        let terms = Terms::wide(counted).compact()?;
        let form = Normal::of(terms, degree)?;
        Ok(form)
    }
}

// A term of coefficient 1 for each literal.
fn units(alloc: Global, literals: &[NumberedLiteral]) -> Result<Vec<Entry>, AllocError>
    ensures { IfOk result (λ v. v.items ≡ map unit_of literals.now) }
{
    literals
        .iter()
        .map(|l| Entry {
            variable: l.variable,
            negated: l.negated,
            coefficient: 1,
        })
        .collect(alloc)
}

// The terms with coefficient 1.
fn counted_once(alloc: Global, terms: &Terms) -> Result<Vec<Entry>, AllocError>
    ensures { IfOk result (λ v. v.items ≡ map (λ t. with_coefficient t 1) terms.now) }
{
    terms
        .iter()
        .map(|t| Entry {
            coefficient: 1,
            ..t
        })
        .collect(alloc)
}
