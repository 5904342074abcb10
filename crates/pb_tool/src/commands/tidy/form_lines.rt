//! The normal forms of constraints, as the lines that are written for them.

ghost use Rattle.std.specs.Prelude.{◌≡◌, ◌<◌, ◌+◌, ◌∷◌, ◌++◌, [], List, All, IfOk, OnOk, length};
ghost use Rattle.pb_text.specs.meaning.Limits.{largest};
ghost use Rattle.pb_normal.specs.meaning.Constraints.{AreFormsOf, Fits, constraint_names, sides_in};
ghost use Rattle.pb_normal.specs.meaning.Form.{Form};
ghost use Rattle.pb_normal.specs.meaning.Names.{with_names};
ghost use Rattle.pb_normal.specs.meaning.Written.{linear_of, names_of};
ghost use Rattle.pb_opb.specs.declared.OpbEvent.TheVariants.{Constraint};
ghost use Rattle.pb_tool.specs.engine.InstanceText.{line};
ghost use Rattle.pb_tool.specs.engine.NormalText.{form_lines};

use crate::commands::tidy::page::Page;
use pb_normal::{HashKeys, Names, Normal, NormalFault, load, number_names};
use pb_opb::OpbEvent;
use pb_sums::{Linear, Term};
use pb_text::Limits;
use std::alloc::{AllocError, Global};
use std::slice;

/// The lines of the forms so far, how many forms there are, and the names that have appeared. The
/// number of a name is its position among these.
#[derive(Drop)]
pub(crate) struct FormLines {
    alloc: Global,
    names: Names,
    page: Page,
    count: u64,
}

impl FormLines {
    /// Before any form.
    pub(crate) fn new(alloc: Global, keys: HashKeys) -> FormLines
        ensures names { result.names ≡ [] }
        ensures text { result.page.text ≡ [] }
        ensures count { result.count ≡ 0 }
    {
        FormLines {
            alloc,
            names: Names::with_hasher(alloc, keys),
            page: Page::new(alloc),
            count: 0,
        }
    }

    /// The lines as text.
    pub(crate) fn text(&self) -> &[u8]
        ensures { result.now ≡ self.now.page.text }
    {
        self.page.as_slice()
    }

    /// How many forms there are.
    pub(crate) fn count(&self) -> u64
        ensures { result ≡ self.now.count }
    {
        self.count
    }

    /// Numbers the names of the terms in turn.
    pub(crate) fn number(&mut self, terms: &[Term]) -> Result<(), AllocError>
        ensures names { OnOk result (self.new.names ≡ with_names self.old.names
            (names_of terms.now)) }
        ensures text { self.new.page.text ≡ self.old.page.text }
        ensures count { self.new.count ≡ self.old.count }
    {
        number_names(&mut self.names, terms)
    }

    /// Adds the lines of a constraint's forms. For an equality these are the `at least` side and
    /// then the `at most` side.
    pub(crate) fn add(&mut self, constraint: &Linear, limits: Limits) -> Result<(), AllocError>
        requires { Fits (largest limits) constraint.now }
        ensures names { OnOk result (self.new.names ≡ with_names self.old.names
            (constraint_names (constraint.now ∷ []))) }
        ensures forms { OnOk result ((forms : List Form) ×
            AreFormsOf self.new.names (sides_in (constraint.now ∷ [])) forms ×
            (self.new.page.text ≡ self.old.page.text ++ form_lines self.new.names forms) ×
            (self.new.count ≡ self.old.count + length forms)) }
    {
        let constraints = slice::from_ref(constraint);
        let forms = loaded(self.alloc, &mut self.names, constraints, limits)?;
        self.write_forms(forms)
    }

    /// Adds the lines of forms.
    fn write_forms(&mut self, forms: Vec<Normal>) -> Result<(), AllocError>
        requires { All (λ f. All (λ t. t.variable < length self.old.names) f.terms) forms.items }
        ensures names { self.new.names ≡ self.old.names }
        ensures text { OnOk result
            (self.new.page.text ≡ self.old.page.text ++ form_lines self.old.names forms.items) }
        ensures count { OnOk result (self.new.count ≡ self.old.count + length forms.items) }
    {
        for form in forms {
            self.write_form(&form)?;
        }
        Ok(())
    }

    /// Adds the line of a form.
    fn write_form(&mut self, form: &Normal) -> Result<(), AllocError>
        requires { All (λ t. t.variable < length self.old.names) form.now.terms }
        ensures names { self.new.names ≡ self.old.names }
        ensures text { OnOk result (self.new.page.text ≡ self.old.page.text ++ line
            (Constraint (linear_of self.old.names form.now))) }
        ensures count { OnOk result (self.new.count ≡ self.old.count + 1) }
    {
        let Ok(linear) = form.to_linear(&self.names) else {
            return Err(AllocError);
        };
        let Some(count) = self.count.checked_add(1) else {
            return Err(AllocError);
        };
        match self.page.write_line(&OpbEvent::Constraint(linear)) {
            Ok(()) => {
                self.count = count;
                Ok(())
            }
            Err(_) => Err(AllocError),
        }
    }
}

/// The forms of constraints that fit the limits, in turn.
fn loaded(
    alloc: Global,
    names: &mut Names,
    constraints: &[Linear],
    limits: Limits,
) -> Result<Vec<Normal>, AllocError>
    requires { All (Fits (largest limits)) constraints.now }
    ensures forms { IfOk result (λ v. AreFormsOf names.new (sides_in constraints.now) v.items) }
    ensures names { OnOk result (names.new ≡ with_names names.old
        (constraint_names constraints.now)) }
{
    match load(alloc, names, constraints, limits) {
        Ok(forms) => Ok(forms),
        Err(NormalFault::Memory) => Err(AllocError),
        Err(NormalFault::Overflow) => unreachable!(),
    }
}
