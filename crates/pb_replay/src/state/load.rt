//! An instance as forms.

ghost use Rattle.std.specs.Prelude.{◌≡◌, ◌<◌, ◌≤◌, ◌↔◌, pos, option_map, [], All, OnOk, IfOk, IfErr, IsTrue, Err, None, Ok, ◌⊎◌};
ghost use Rattle.pb_text.specs.meaning.Limits.{largest};
ghost use Rattle.pb_normal.specs.meaning.Constraints.{Fits};
ghost use Rattle.pb_normal.specs.meaning.Names.{with_names};
ghost use Rattle.pb_normal.specs.meaning.Written.{names_of, magnitude};
ghost use Rattle.pb_replay.specs.meaning.Problem.{FitsAll, Opened, objective_of};
ghost use Rattle.pb_replay.specs.contract.ReplayModel.{IsFirst, IsLoaded, IsOpened, problem_of};
ghost use Rattle.pb_replay.specs.engine.Constraints.{AreLive};
ghost use Rattle.pb_opb.specs.declared.Instance.{Instance as AnInstance};

use crate::fault::Fault;
use crate::state::Running;
use crate::state::constraints::Constraints;
use crate::state::live::prepare;
use pb_normal::{HashKeys, Memory, Names, Normal, NormalFault, Side, fits, load, terms_fit};
use pb_opb::Instance;
use pb_proof::Stage;
use pb_sums::{Linear, Relation, Term};
use pb_text::{Limits, Sequence};
use std::alloc::Global;

/// A constraint with these terms. Its relation and degree have no meaning.
fn with_terms(terms: Sequence<Term>) -> Linear
    ensures terms { result.terms ≡ terms }
    ensures degree { result.degree ≡ pos 0 }
{
    Linear {
        terms,
        relation: Relation::AtLeast,
        degree: 0,
    }
}

/// The terms of an objective, if there is one, as a constraint.
pub(crate) fn as_linear(objective: Option<Sequence<Term>>) -> Option<Linear>
    ensures { option_map (λ c. c.terms) result ≡ objective }
{
    match objective {
        None => None,
        Some(terms) => Some(with_terms(terms)),
    }
}

/// The objective's terms as a constraint, once their names have numbers.
fn objective_of_terms(
    alloc: Global,
    names: &mut Names,
    terms: &[Term],
    limits: Limits,
) -> Result<Linear, NormalFault>
    ensures terms { IfOk result (λ linear. linear.terms ≡ terms.now) }
    ensures names { OnOk result (names.new ≡ with_names names.old (names_of terms.now)) }
    ensures fits { OnOk result (magnitude terms.now ≤ largest limits) }
    ensures overflow { result ≡ Err NormalFault.Overflow → largest limits < magnitude terms.now }
{
    let linear = with_terms(Sequence::from_vec(Vec::from_clones(alloc, terms)?));
    let _ = Normal::from_linear(alloc, names, &linear, Side::AtLeast, limits)?;
    Ok(linear)
}

/// The same, if there is an objective.
fn kept_objective(
    alloc: Global,
    names: &mut Names,
    objective: &Option<Sequence<Term>>,
    limits: Limits,
) -> Result<Option<Linear>, NormalFault>
    ensures terms { IfOk result (λ kept. option_map (λ c. c.terms) kept ≡ objective.now) }
    ensures absent { objective.now ≡ None → result ≡ Ok None }
    ensures names { OnOk result (names.new ≡ with_names names.old
        (names_of (objective_of objective.now))) }
    ensures fits { OnOk result (magnitude (objective_of objective.now) ≤ largest limits) }
    ensures overflow { result ≡ Err NormalFault.Overflow →
        largest limits < magnitude (objective_of objective.now) }
{
    match objective {
        None => Ok(None),
        Some(terms) => {
            let kept = objective_of_terms(alloc, names, terms.as_slice(), limits)?;
            Ok(Some(kept))
        }
    }
}

/// Whether each constraint fits, and the coefficients of the objective fit together. Nothing is
/// allocated.
fn fits_all(instance: &Instance, limits: Limits) -> bool
    ensures { IsTrue result ↔ FitsAll (largest limits) instance.now }
{
    objective_fits(&instance.objective, limits)
        && constraints_fit(instance.constraints.as_slice(), limits)
}

/// Whether the coefficients of the objective, if there is one, fit together.
pub(crate) fn objective_fits(objective: &Option<Sequence<Term>>, limits: Limits) -> bool
    ensures { IsTrue result ↔ (magnitude (objective_of objective.now) ≤ largest limits) }
{
    match objective {
        None => true,
        Some(terms) => terms_fit(terms.as_slice(), limits),
    }
}

/// Whether each of the constraints fits.
fn constraints_fit(constraints: &[Linear], limits: Limits) -> bool
    ensures { IsTrue result ↔ All (Fits (largest limits)) constraints.now }
{
    constraints
        .iter()
        .all(|constraint| fits(constraint, limits))
}

/// The start of a replay of the instance, with the names hashed with these keys.
pub(crate) fn open(
    alloc: Global,
    keys: HashKeys,
    instance: &Instance,
    limits: Limits,
) -> Result<Running, Fault>
    ensures ok { IfOk result (IsOpened limits instance.now) }
    ensures err { IfErr result (λ e. (e ≡ Fault.Memory) ⊎
        Opened (largest limits) instance.now (Err e)) }
    ensures memory { result ≡ Err Fault.Memory → FitsAll (largest limits) instance.now }
{
    let running = load_tested(alloc, keys, instance, limits)?;
    with_variables(running)
}

/// The instance as forms, with the names hashed with these keys. There are no variables yet.
fn load_tested(
    alloc: Global,
    keys: HashKeys,
    instance: &Instance,
    limits: Limits,
) -> Result<Running, Fault>
    ensures ok { IfOk result (IsLoaded limits instance.now) }
    ensures live { IfOk result (λ r. AreLive [] 0 r.constraints) }
    ensures err { IfErr result (λ e. (e ≡ Fault.Memory) ⊎
        Opened (largest limits) instance.now (Err e)) }
    ensures memory { result ≡ Err Fault.Memory → FitsAll (largest limits) instance.now }
{
    // With no objective, `load` tests the constraints before anything is allocated.
    if instance.objective.is_some() && !fits_all(instance, limits) {
        return Err(Fault::Overflow);
    }
    load_instance(alloc, keys, instance, limits)
}

/// The same, with the numbers tested while they are loaded.
fn load_instance(
    alloc: Global,
    keys: HashKeys,
    instance: &Instance,
    limits: Limits,
) -> Result<Running, Fault>
    ensures ok { IfOk result (IsLoaded limits instance.now) }
    ensures live { IfOk result (λ r. AreLive [] 0 r.constraints) }
    ensures err { IfErr result (λ e. (e ≡ Fault.Memory) ⊎
        Opened (largest limits) instance.now (Err e)) }
    ensures memory { instance.now.objective ≡ None → result ≡ Err Fault.Memory →
        FitsAll (largest limits) instance.now }
{
    let mut names = Names::with_hasher(alloc, keys);
    let objective = match kept_objective(alloc, &mut names, &instance.objective, limits) {
        Ok(objective) => objective,
        Err(fault) => return Err(Fault::from(fault)),
    };
    let forms = match load(alloc, &mut names, instance.constraints.as_slice(), limits) {
        Ok(forms) => forms,
        Err(fault) => return Err(Fault::from(fault)),
    };
    Ok(started(alloc, limits, names, forms, objective))
}

/// A replay of these forms before its first statement. There are no variables yet.
pub(crate) fn started(
    alloc: Global,
    limits: Limits,
    names: Names,
    loaded: Vec<Normal>,
    objective: Option<Linear>,
) -> Running
    ensures first { IsFirst limits result }
    ensures live { AreLive [] 0 result.constraints }
    ensures problem { problem_of result ≡ record {
      loaded = loaded.items;
      objective = option_map (λ c. c.terms) objective;
      names = names;
    } }
{
    let own = names.len();
    Running {
        alloc,
        limits,
        names,
        own,
        constraints: Constraints::new(alloc, loaded),
        objective,
        best: None,
        next: Stage::Opening,
        concluded: None,
        visits: 0,
        memory: Memory::new(alloc),
    }
}

/// The same replay, with a variable for each name and memory for each constraint.
pub(crate) fn with_variables(running: Running) -> Result<Running, Fault>
    requires { AreLive [] 0 running.constraints }
    ensures ok { (i : AnInstance) → IsLoaded running.limits i running →
        IfOk result (IsOpened running.limits i) }
    ensures err { IfErr result (λ e. e ≡ Fault.Memory) }
{
    let mut running = running;
    prepare(&mut running.constraints, running.alloc, running.own)?;
    Ok(running)
}
