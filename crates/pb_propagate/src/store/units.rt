//! Forms of one term, outside of questions. No visit is counted.

ghost use Rattle.std.specs.Prelude.{◌≡◌, ◌^◌, ◌<◌, ◌∷◌, [], true, length, IfSome, IfNone};
ghost use Rattle.pb_normal.specs.declared.numbered.NumberedLiteral.{NumberedLiteral};
ghost use Rattle.pb_propagate.specs.engine.engine.Counts.{place};
ghost use Rattle.pb_propagate.specs.engine.engine.Fields.{shapes_of};
ghost use Rattle.pb_propagate.specs.engine.engine.Root.{IsOtherUnit, IsOnly};
ghost use Rattle.pb_propagate.specs.engine.engine.Stored.{stored_degree, stored_terms};

use crate::run::place_of;
use crate::store::Store;
use crate::store::stored_form::StoredForm;
use pb_normal::NumberedLiteral;

/// The literal of a form with one term.
pub fn only_literal(kept: &StoredForm) -> Option<NumberedLiteral>
    ensures some { IfSome result (IsOnly (stored_terms kept.now)) }
    ensures none { IfNone result (length (stored_terms kept.now) ≡ 1 → ⊥) }
{
    if kept.len() != 1 {
        return None;
    }
    Some(kept.term(0).literal)
}

/// Whether a form is a unit of the literal: it has no other, and is not met without it.
pub fn is_unit(kept: &StoredForm, literal: NumberedLiteral) -> bool
    ensures { result ≡ true → IsOnly (stored_terms kept.now) literal ×
        (0 < stored_degree kept.now) }
{
    if kept.degree() == 0 {
        return false;
    }
    match only_literal(kept) {
        Some(only) => only == literal,
        None => false,
    }
}

/// Another slot with a unit of the literal. For each literal, by its occurrence list, `units` has
/// the last slot that took one. Only that slot is looked at.
pub fn other_unit(
    store: &Store,
    units: &[u32],
    slot: usize,
    literal: NumberedLiteral,
) -> Option<usize>
    requires fits { place literal < 2 ^ 64 }
    ensures { IfSome result (IsOtherUnit (shapes_of store.now.stored.items) slot literal) }
{
    let unit = *units.get(place_of(literal))? as usize;
    if unit == slot {
        return None;
    }
    let kept = store.stored.get(unit)?;
    if !is_unit(kept, literal) {
        return None;
    }
    Some(unit)
}
