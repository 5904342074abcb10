//! `rup`.

ghost use Rattle.std.specs.Prelude.{◌≡◌, ◌≤◌, ◌⊎◌, List, [], length, true, false, OnOk, IfOk, IfErr, Err};
ghost use Rattle.pb_text.specs.meaning.Limits.{largest};
ghost use Rattle.pb_normal.specs.meaning.Constraints.{Fits};
ghost use Rattle.pb_normal.specs.meaning.Names.{with_names};
ghost use Rattle.pb_normal.specs.meaning.Rules.{negation_of};
ghost use Rattle.pb_normal.specs.meaning.Written.{names_of, IsSideOf};
ghost use Rattle.pb_normal.specs.declared.numbered.NumberedLiteral.{NumberedLiteral};
ghost use Rattle.pb_propagate.specs.engine.engine.Live.{Live};
ghost use Rattle.pb_propagate.specs.meaning.Propagation.{IsCompletion, IsRup, MeetsConflict, With};
ghost use Rattle.pb_replay.specs.contract.ReplayModel.{Adding, Keeps, Goes, HasNamed, IsInside, IsLinked, IsReady, Preserves};
ghost use Rattle.pb_replay.specs.contract.Visits.{IsFew, RupVisits};

use crate::fault::Fault;
use crate::state::Running;
use crate::state::live::{add, widen};
use pb_normal::{Normal, NormalFault, Side};
use pb_proof::Statement;
use pb_sums::Linear;
use std::alloc::AllocError;

/// The form of a written constraint, once its names have numbers.
fn take_form(running: &mut Running, linear: &Linear) -> Result<Normal, Fault>
    requires { IsLinked running.old }
    ensures fits { OnOk result (Fits (largest running.old.limits) linear.now) }
    ensures form { IfOk result (λ r. IsSideOf running.new.names Side.AtLeast linear.now r) }
    ensures inside { IfOk result (λ r. IsInside (length running.new.names) r) }
    ensures err { IfErr result (λ e. ((e ≡ Fault.Memory) ×
        Fits (largest running.old.limits) linear.now) ⊎
        ((e ≡ Fault.Overflow) × (Fits (largest running.old.limits) linear.now → ⊥))) }
    ensures named { OnOk result (HasNamed (names_of linear.now.terms) running.old running.new) }
    ensures preserves { Preserves running.old result running.new }
{
    let before = running.names.len();
    let form = Normal::from_linear(
        running.alloc,
        &mut running.names,
        linear,
        Side::AtLeast,
        running.limits,
    )?;
    widen(&mut running.constraints, before, running.names.len())?;
    Ok(form)
}

/// Whether propagation implies the form. Its visits are counted.
fn is_implied(running: &mut Running, form: &Normal) -> Result<bool, Fault>
    requires linked { IsLinked running.old }
    requires inside { IsInside (length running.old.names) form.now }
    ensures implied { IfOk result (λ found. found ≡ true →
        IsRup (Live running.old.constraints.forms) form.now) }
    ensures not_implied { IfOk result (λ found. found ≡ false →
        IsRup (Live running.old.constraints.forms) form.now → ⊥) }
    ensures few { IsFew running.old.constraints.forms form.now running.new.visits }
    ensures unasked { form.now.degree ≡ 0 → running.new.visits ≡ 0 }
    ensures conflict { IfOk result (λ found. found ≡ true → (form.now.degree ≡ 0) ⊎
        ((m : MeetsConflict (With (Live running.old.constraints.forms) (negation_of form.now)) []) ×
        (length m.list ≤ running.new.visits))) }
    ensures completion { IfOk result (λ found. found ≡ false → (list : List NumberedLiteral) ×
        IsCompletion (With (Live running.old.constraints.forms) (negation_of form.now)) [] list ×
        (length list ≤ running.new.visits)) }
    ensures err { IfErr result (λ e. e ≡ Fault.Memory) }
    ensures same { OnOk result (HasNamed [] running.old running.new) }
    ensures linked { OnOk result (IsLinked running.new) }
    ensures kept { Keeps running.old running.new }
{
    let found = running.constraints.rup(form);
    running.visits = running.constraints.visits();
    let implied = found?;
    Ok(implied)
}

/// Adds a form that is implied, and rejects any other.
fn judge(running: &mut Running, form: Normal, implied: bool) -> Result<(), Fault>
    requires linked { IsLinked running.old }
    requires inside { IsInside (length running.old.names) form }
    ensures added { implied ≡ true → Adding running.old form result running.new }
    ensures refused { implied ≡ false → result ≡ Err Fault.NotImplied }
    ensures best { running.new.best ≡ running.old.best }
    ensures preserves { Preserves running.old result running.new }
{
    if implied {
        add(running, form)
    } else {
        Err(Fault::NotImplied)
    }
}

/// `rup`: adds a constraint that propagation implies.
pub(crate) fn rup(running: &mut Running, linear: &Linear) -> Result<(), Fault>
    requires ready { IsReady running.old }
    requires visits { running.old.visits ≡ 0 }
    ensures goes { Goes running.old (Statement.Rup linear.now) result running.new }
    ensures linked { OnOk result (IsLinked running.new) }
    ensures kept { Keeps running.old running.new }
    ensures visits_made { RupVisits running.old.constraints.forms
        (with_names running.old.names (names_of linear.now.terms)) linear.now result
        running.new.visits }
    ensures memory { result ≡ Err Fault.Memory → Fits (largest running.old.limits) linear.now }
{
    let form = take_form(running, linear)?;
    let implied = is_implied(running, &form)?;
    judge(running, form, implied)
}
