//! Given literals by the numbers of their names.

ghost use Rattle.std.specs.Prelude.{◌≡◌, ◌<◌, All, IfOk, OnOk, length};
ghost use Rattle.pb_normal.specs.meaning.Names.{HasNames, with_names};
ghost use Rattle.pb_replay.specs.meaning.Meaning.{IsNamePrefix};
ghost use Rattle.pb_replay.specs.meaning.Replay.{numbered};
ghost use Rattle.pb_replay.specs.meaning.Statements.{literal_names};

use crate::state::find::number_of;
use pb_normal::{Names, NumberedLiteral};
use pb_sums::Literal;
use std::alloc::{AllocError, AllocFailed, Global};

/// Numbers the names of the literals in order.
pub(crate) fn number_names(names: &mut Names, given: &[Literal]) -> Result<(), AllocError>
    ensures names { OnOk result (names.new ≡ with_names names.old (literal_names given.now)) }
    ensures prefix { IsNamePrefix names.old names.new }
{
    for literal in given {
        let _ = names.number(literal.name.as_str())?;
    }
    Ok(())
}

/// The literals by the numbers of their names.
pub(crate) fn numbered_literals(
    alloc: Global,
    names: &Names,
    given: &[Literal],
) -> Result<Vec<NumberedLiteral>, AllocError>
    requires { HasNames names.now (literal_names given.now) }
    ensures literals { IfOk result (λ v. v.items ≡ numbered names.now given.now) }
    ensures inside { IfOk result (λ v. All (λ l. l.variable < length names.now) v.items) }
{
    let mut out = Vec::new(alloc);
    for literal in given {
        let variable = number_of(names, literal.name.as_str());
        out.push(NumberedLiteral {
            variable,
            negated: literal.negated,
        })?;
    }
    Ok(out)
}
