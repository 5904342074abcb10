//! Written constraints as forms.

ghost use Rattle.std.specs.Prelude.{◌≡◌, ◌++◌, ◌∷◌, [], List, OnOk, OnErr, IfOk, IfErr, Err, All, Contains};
ghost use Rattle.pb_text.specs.meaning.Limits.{largest};
ghost use Rattle.pb_sums.specs.declared.linear.Linear.{Linear as Written};
ghost use Rattle.pb_normal.specs.meaning.Constraints.{AreFormsOf, Fits, constraint_names, sides_in, with_sides};
ghost use Rattle.pb_normal.specs.meaning.Form.{Form};
ghost use Rattle.pb_normal.specs.meaning.Names.{AfterPrefix, HasNames, with_names};
ghost use Rattle.pb_normal.specs.meaning.Written.{names_of};

use crate::fault::NormalFault;
use crate::form::Normal;
use crate::linear::fits;
use crate::names::Names;
use crate::side::Side;
use pb_sums::{Linear, Relation};
use pb_text::Limits;
use std::alloc::Global;

// Adds the form of one side of a constraint.
#[tactic(auto, using(crate::proofs::Rulesets::side_terms_in))]
fn add_side(
    alloc: Global,
    names: &mut Names,
    constraint: &Linear,
    side: Side,
    limits: Limits,
    forms: &mut Vec<Normal>,
) -> Result<(), NormalFault>
    ensures forms { OnOk result ((added : Form) × AreFormsOf names.new ((side, constraint.now) ∷ [])
        (added ∷ []) ×
        (forms.new.items ≡ forms.old.items ++ added ∷ [])) }
    ensures names { OnOk result (names.new ≡ with_names names.old (names_of constraint.now.terms)) }
    ensures named { OnOk result (HasNames names.new (names_of constraint.now.terms)) }
    ensures fits { OnOk result (Fits (largest limits) constraint.now) }
    ensures overflow { result ≡ Err NormalFault.Overflow → ¬ Fits (largest limits) constraint.now }
    ensures err { OnErr result (AfterPrefix names.old (names_of constraint.now.terms) names.new) }
{
    let form = Normal::from_linear(alloc, names, constraint, side, limits)?;
    forms.push(form)?;
    Ok(())
}

// Adds the forms of a constraint.
#[tactic(auto, using(crate::proofs::lemmas::names::Loaded::second_after, crate::proofs::lemmas::names::Loaded::second_names))]
fn add(
    alloc: Global,
    names: &mut Names,
    constraint: &Linear,
    limits: Limits,
    forms: &mut Vec<Normal>,
) -> Result<(), NormalFault>
    ensures forms { OnOk result ((added : List Form) ×
        AreFormsOf names.new (with_sides constraint.now.relation constraint.now) added ×
        (forms.new.items ≡ forms.old.items ++ added)) }
    ensures names { OnOk result (names.new ≡ with_names names.old (names_of constraint.now.terms)) }
    ensures fits { OnOk result (Fits (largest limits) constraint.now) }
    ensures overflow { result ≡ Err NormalFault.Overflow → ¬ Fits (largest limits) constraint.now }
    ensures err { OnErr result (AfterPrefix names.old (names_of constraint.now.terms) names.new) }
{
    add_side(alloc, names, constraint, Side::AtLeast, limits, forms)?;
    match constraint.relation {
        Relation::AtLeast => Ok(()),
        Relation::Equal => add_side(alloc, names, constraint, Side::AtMost, limits, forms),
    }
}

// Tests each constraint, before anything is allocated.
fn test(constraints: &[Linear], limits: Limits) -> Result<(), NormalFault>
    ensures ok { OnOk result (All (Fits (largest limits)) constraints.now) }
    ensures err { IfErr result (λ e. (e ≡ NormalFault.Overflow) × (c : Written) ×
        Contains constraints.now c × ¬ Fits (largest limits) c) }
{
    for tested in constraints {
        if !fits(tested, limits) {
            return Err(NormalFault::Overflow);
        }
    }
    Ok(())
}

/// The forms of the constraints in order, over the numbers of their names. A constraint `>=` has
/// one form; an equality has that of its side "at least" and then that of its side "at most".
///
/// `Overflow` comes if and only if some constraint exceeds the limit, before anything is allocated,
/// and leaves the names as they are. After `Memory` a prefix of the list of names has appeared.
pub fn load(
    alloc: Global,
    names: &mut Names,
    constraints: &[Linear],
    limits: Limits,
) -> Result<Vec<Normal>, NormalFault>
    ensures forms { IfOk result (λ v. AreFormsOf names.new (sides_in constraints.now) v.items) }
    ensures names { OnOk result (names.new ≡ with_names names.old
        (constraint_names constraints.now)) }
    ensures fits { OnOk result (All (Fits (largest limits)) constraints.now) }
    ensures overflow { result ≡ Err NormalFault.Overflow →
        (c : Written) × Contains constraints.now c × ¬ Fits (largest limits) c }
    ensures memory { result ≡ Err NormalFault.Memory → All (Fits (largest limits)) constraints.now }
    ensures unchanged { result ≡ Err NormalFault.Overflow → names.new ≡ names.old }
    ensures err { OnErr result
        (AfterPrefix names.old (constraint_names constraints.now) names.new) }
{
    names.report_distinct();
    match test(constraints, limits) {
        Ok(()) => load_tested(alloc, names, constraints, limits),
        Err(fault) => Err(fault),
    }
}

// The same for constraints that all fit.
fn load_tested(
    alloc: Global,
    names: &mut Names,
    constraints: &[Linear],
    limits: Limits,
) -> Result<Vec<Normal>, NormalFault>
    requires { All (Fits (largest limits)) constraints.now }
    ensures forms { IfOk result (λ v. AreFormsOf names.new (sides_in constraints.now) v.items) }
    ensures names { OnOk result (names.new ≡ with_names names.old
        (constraint_names constraints.now)) }
    ensures err { IfErr result (λ e. (e ≡ NormalFault.Memory) ×
        AfterPrefix names.old (constraint_names constraints.now) names.new) }
{
    names.report_distinct();
    let mut forms = Vec::with_capacity(alloc, constraints.len())?;
    for constraint in constraints {
        add(alloc, names, constraint, limits, &mut forms)?;
    }
    Ok(forms)
}
