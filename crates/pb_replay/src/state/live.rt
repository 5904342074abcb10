//! The live constraints.

ghost use Rattle.std.specs.Prelude.{◌≡◌, ◌≤◌, Contains, IfOk, IfErr, OnOk, length, map, Some, false, []};
ghost use Rattle.pb_normal.specs.meaning.Form.{Form};
ghost use Rattle.pb_replay.specs.contract.ReplayModel.{Adding, IsLinked, IsInside, Preserves};
ghost use Rattle.pb_replay.specs.engine.Constraints.{AreLive};

use crate::fault::Fault;
use crate::state::Running;
use crate::state::constraints::Constraints;
use pb_normal::Normal;
use std::alloc::{AllocError, Global};

/// Adds variables, up to this number.
pub(crate) fn widen(constraints: &mut Constraints, from: usize, to: usize) -> Result<(), Fault>
    requires ready { constraints.old.spent ≡ false }
    requires from { constraints.old.variables ≡ from }
    requires to { from ≤ to }
    ensures loaded { constraints.new.loaded ≡ constraints.old.loaded }
    ensures live { OnOk result (AreLive constraints.old.forms to constraints.new) }
    ensures err { IfErr result (λ e. e ≡ Fault.Memory) }
{
    for _number in from..to {
        constraints.widen()?;
    }
    Ok(())
}

/// Adds variables up to this number, and reserves memory for all constraints to become live.
pub(crate) fn prepare(
    constraints: &mut Constraints,
    alloc: Global,
    variables: usize,
) -> Result<(), Fault>
    requires { AreLive [] 0 constraints.old }
    ensures loaded { constraints.new.loaded ≡ constraints.old.loaded }
    ensures live { OnOk result (AreLive [] variables constraints.new) }
    ensures err { IfErr result (λ e. e ≡ Fault.Memory) }
{
    constraints.reserve(alloc, variables)?;
    widen(constraints, 0, variables)
}

/// Adds a copy of each constraint of an instance to live ones, of which there are none.
fn fill(copies: &mut Constraints, constraints: &Constraints) -> Result<(), Fault>
    requires ready { copies.old.spent ≡ false }
    requires empty { copies.old.forms ≡ [] }
    requires instance { constraints.now.spent ≡ false }
    requires inside { (f : Form) → Contains constraints.now.loaded f →
        IsInside copies.old.variables f }
    ensures live { OnOk result (AreLive
        (map (λ f. Some f) constraints.now.loaded) copies.old.variables copies.new) }
    ensures err { IfErr result (λ e. e ≡ Fault.Memory) }
{
    for at in 0..constraints.count() {
        let form = constraints.of_instance(at).copy()?;
        copies.insert(form)?;
    }
    Ok(())
}

/// Copies of the constraints of an instance as live ones, over this many variables.
pub(crate) fn copies_of(
    alloc: Global,
    constraints: &Constraints,
    variables: usize,
) -> Result<Constraints, Fault>
    requires ready { constraints.now.spent ≡ false }
    requires inside { (f : Form) → Contains constraints.now.loaded f → IsInside variables f }
    ensures live { IfOk result (AreLive (map (λ f. Some f) constraints.now.loaded) variables) }
    ensures err { IfErr result (λ e. e ≡ Fault.Memory) }
{
    let mut copies = Constraints::with_capacity(alloc, variables, constraints.count())?;
    widen(&mut copies, 0, variables)?;
    fill(&mut copies, constraints)?;
    Ok(copies)
}

/// The constraints of the instance become live, over this many variables, and no other is live.
pub(crate) fn make_live(
    constraints: &mut Constraints,
    alloc: Global,
    variables: usize,
) -> Result<(), Fault>
    requires ready { constraints.old.spent ≡ false }
    requires variables { constraints.old.variables ≡ variables }
    requires inside { (f : Form) → Contains constraints.old.loaded f → IsInside variables f }
    ensures loaded { constraints.new.loaded ≡ constraints.old.loaded }
    ensures live { OnOk result (AreLive
        (map (λ f. Some f) constraints.old.loaded) variables constraints.new) }
    ensures err { IfErr result (λ e. e ≡ Fault.Memory) }
{
    if constraints.len() > 0 {
        let copies = copies_of(alloc, constraints, variables)?;
        constraints.adopt(copies);
        return Ok(());
    }
    constraints.make_live(alloc)?;
    Ok(())
}

/// Adds a form with the next id.
pub(crate) fn add(running: &mut Running, form: Normal) -> Result<(), Fault>
    requires linked { IsLinked running.old }
    requires inside { IsInside (length running.old.names) form }
    ensures adding { Adding running.old form result running.new }
    ensures best { running.new.best ≡ running.old.best }
    ensures preserves { Preserves running.old result running.new }
{
    if running.constraints.len() as u64 >= running.limits.top() {
        return Err(Fault::IdsSpent);
    }
    match running.constraints.insert(form) {
        Ok(()) => Ok(()),
        Err(_) => Err(Fault::Memory),
    }
}
