//! Constraints that are clauses, and the codes of their literals. A literal has two codes, one for
//! each group of clauses: four times its variable, plus 2 in long clauses, and plus 1 if it is
//! negated.

ghost use Rattle.std.specs.Prelude.{◌≡◌, ◌+◌, ◌*◌, ◌<◌, ◌≤◌, ◌^◌, [], All, true, false, IfOk};
ghost use Rattle.pb_normal.specs.meaning.Form.{IsNormal};
ghost use Rattle.pb_propagate.specs.engine.clauses.Truths.{flip};
ghost use Rattle.pb_propagate.specs.engine.clauses.Shapes.{IsLight, IsClause, code_in, codes_of_terms, group_by};

use crate::store::sorted_form::term_of;
use pb_normal::{Entry, Normal, NumberedLiteral, Terms};
use std::alloc::AllocError;

/// Two groups of clauses: the short ones, of at most four literals, and the long ones. A question
/// visits the long ones only when the short ones force nothing more. A literal has a code for each
/// group.
#[derive(Clone, Copy)]
pub enum Group {
    Short,
    Long,
}

// Whether the coefficient is 1 and the codes of the literal fit in 4 bytes.
fn is_light(entry: Entry) -> bool
    ensures yes { result ≡ true → IsLight entry }
    ensures no { result ≡ false → IsLight entry → ⊥ }
{
    if entry.coefficient != 1 {
        return false;
    }
    entry.variable < 1073741824
}

/// Whether the constraint is a clause of at least two literals, each with codes that fit in 4
/// bytes.
#[inline(always)]
pub fn is_clause(form: &Normal) -> bool
    ensures yes { result ≡ true → IsClause form.now }
    ensures no { result ≡ false → IsClause form.now → ⊥ }
    ensures normal { IsNormal form.now }
{
    if form.degree() != 1 {
        return false;
    }
    let entries = form.terms();
    if entries.len() < 2 {
        return false;
    }
    'entries: for entry in entries.iter() {
        if !is_light(entry) {
            return false;
        }
    }
    true
}

// The group of a clause with that number of literals.
fn group_of(count: usize) -> Group
    ensures { result ≡ group_by count }
{
    if count < 5 { Group::Short } else { Group::Long }
}

/// The code of a literal in the clauses of a group.
pub fn code_of(group: Group, literal: NumberedLiteral) -> usize
    requires fits { 4 * literal.variable + 4 ≤ 2 ^ 64 }
    ensures { result ≡ code_in group literal }
{
    let first = match group {
        Group::Short => 4 * literal.variable,
        Group::Long => 4 * literal.variable + 2,
    };
    if literal.negated { first + 1 } else { first }
}

/// The code of a literal's negation in the same group, and the other of the two watches of a
/// clause.
pub fn opposite(code: usize) -> usize
    requires { code + 1 < 2 ^ 64 }
    ensures { result ≡ flip code }
{
    code ^ 1
}

/// The codes of the terms' literals, in the group of a clause with these terms. They are put into
/// an empty list.
pub fn codes_of(entries: &Terms, empty: Vec<u32>) -> Result<Vec<u32>, AllocError>
    requires light { All IsLight entries.now }
    requires empty { empty.items ≡ [] }
    ensures { IfOk result (λ codes. codes.items ≡ codes_of_terms entries.now) }
{
    let group = group_of(entries.len());
    let mut codes = empty;
    'entries: for entry in entries.iter() {
        let term = term_of(entry);
        codes.push(code_of(group, term.literal) as u32)?;
    }
    Ok(codes)
}
