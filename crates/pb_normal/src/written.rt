//! A form written with names.

ghost use Rattle.std.specs.Prelude.{◌≡◌, ◌<◌, ◌^◌, IfOk, IfErr, All, map, length};
ghost use Rattle.pb_normal.specs.meaning.Form.{total, each};
ghost use Rattle.pb_normal.specs.meaning.Written.{term_of, linear_of};

use crate::fault::NormalFault;
use crate::form::Normal;
use crate::names::Names;
use crate::terms::Terms;
use pb_sums::{Linear, Literal, Name, Relation, Term};
use pb_text::Sequence;
use std::alloc::{AllocError, Global};

impl Normal {
    /// The form as a constraint `>=` over the names of its variables, each of which must have a
    /// name.
    pub fn to_linear(&self, names: &Names) -> Result<Linear, NormalFault>
        requires { All (λ t. t.variable < length names.now) self.now.terms }
        ensures linear { IfOk result (λ r. r ≡ linear_of names.now self.now) }
        ensures memory { IfErr result (λ e. e ≡ NormalFault.Memory) }
    {
        let terms = named_terms(self.terms().allocator(), names, self.terms())?;
        Ok(Linear {
            terms: Sequence::from_vec(terms),
            relation: Relation::AtLeast,
            degree: self.degree(),
        })
    }
}

fn named_terms(alloc: Global, names: &Names, terms: &Terms) -> Result<Vec<Term>, AllocError>
    requires named { All (λ t. t.variable < length names.now) terms.now }
    requires small { total each terms.now < 2 ^ 127 }
    ensures { IfOk result (λ v. v.items ≡ map (term_of names.now) terms.now) }
{
    let mut out = Vec::with_capacity(alloc, terms.len())?;
    'terms: for i in 0..terms.len() {
        let t = terms.get(i);
        let name = Name::from_text(alloc, names.text_of(t.variable))?;
        let literal = Literal {
            name,
            negated: t.negated,
        };
        out.push(Term {
            coefficient: t.coefficient as i128,
            literal,
        })?;
    }
    Ok(out)
}
