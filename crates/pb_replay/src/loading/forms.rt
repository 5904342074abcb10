//! The forms of constraints that come one by one.

ghost use Rattle.std.specs.Prelude.{◌≡◌, ◌↔◌, ◌+◌, ◌<◌, ◌++◌, ◌∷◌, [], List, ℕ, Err, Ok, OnOk};
ghost use Rattle.std.specs.Int.RustNames.{unsigned_abs};
ghost use Rattle.pb_text.specs.meaning.Limits.{largest};
ghost use Rattle.pb_sums.specs.declared.Linear.{Linear as Written};
ghost use Rattle.pb_normal.specs.meaning.Constraints.{AreFormsOf, with_sides};
ghost use Rattle.pb_normal.specs.meaning.Form.{Form};
ghost use Rattle.pb_normal.specs.meaning.Names.{HasNames, with_names};
ghost use Rattle.pb_normal.specs.meaning.Written.{magnitude, names_of};
ghost use Rattle.pb_replay.specs.engine.Loading.{Made};

use crate::fault::Fault;
use pb_normal::{HashKeys, Names, Normal, NormalFault, Side, fits, number_names};
use pb_sums::{Linear, Relation, Term};
use pb_text::Limits;
use std::alloc::{AllocError, Global};

/// The forms of the constraints so far, and the names that have appeared. The number of a name is
/// its position among these.
#[derive(Drop)]
pub(crate) struct FormsSoFar {
    pub(crate) alloc: Global,
    pub(crate) limits: Limits,
    pub(crate) names: Names,
    pub(crate) forms: Vec<Normal>,
    /// `Memory` if memory ran out for a form or a name, and `Overflow` if a constraint exceeds the
    /// limit. Then no more is stored.
    pub(crate) made: Result<(), Fault>,
}

impl FormsSoFar {
    /// Before any constraint.
    pub(crate) fn new(alloc: Global, keys: HashKeys, limits: Limits) -> FormsSoFar
        ensures limits { result.limits ≡ limits }
        ensures made { Made [] [] result }
    {
        FormsSoFar {
            alloc,
            limits,
            names: Names::with_hasher(alloc, keys),
            forms: Vec::new(alloc),
            made: Ok(()),
        }
    }

    /// Numbers the names of an objective.
    #[inline(always)]
    pub(crate) fn number(&mut self, terms: &[Term])
        ensures limits { self.new.limits ≡ self.old.limits }
        ensures made { (named : List (List ℕ)) (cs : List Written) → Made named cs self.old →
            Made (named ++ names_of terms.now) cs self.new }
    {
        if let Ok(()) = self.made {
            match number_names(&mut self.names, terms) {
                Ok(()) => {}
                Err(AllocError) => self.made = Err(Fault::Memory),
            }
        }
    }

    /// Adds the forms of a constraint.
    pub(crate) fn add(&mut self, constraint: &Linear)
        ensures limits { self.new.limits ≡ self.old.limits }
        ensures made { (named : List (List ℕ)) (cs : List Written) → Made named cs self.old →
            Made (named ++ names_of constraint.now.terms) (cs ++ constraint.now ∷ []) self.new }
    {
        match self.made {
            Ok(()) => match self.add_sides(constraint) {
                Ok(()) => {}
                Err(fault) => self.made = Err(fault.into()),
            },
            Err(_) => {
                if !fits(constraint, self.limits) {
                    self.made = Err(Fault::Overflow);
                }
            }
        }
    }

    // Adds the forms of a constraint: that of its side "at least", and for an equality then that of
    // its side "at most".
    #[inline(always)]
    fn add_sides(&mut self, constraint: &Linear) -> Result<(), NormalFault>
        ensures limits { self.new.limits ≡ self.old.limits }
        ensures made { self.new.made ≡ self.old.made }
        ensures overflow { (result ≡ Err NormalFault.Overflow) ↔ (largest self.old.limits <
            magnitude constraint.now.terms + unsigned_abs constraint.now.degree) }
        ensures names { OnOk result (self.new.names ≡ with_names self.old.names
            (names_of constraint.now.terms)) }
        ensures forms { OnOk result ((added : List Form) × AreFormsOf self.new.names
            (with_sides constraint.now.relation constraint.now) added ×
            (self.new.forms.items ≡ self.old.forms.items ++ added)) }
    {
        self.add_side(constraint, Side::AtLeast)?;
        match constraint.relation {
            Relation::AtLeast => Ok(()),
            Relation::Equal => self.add_side(constraint, Side::AtMost),
        }
    }

    // Adds the form of one side of a constraint.
    #[inline(always)]
    fn add_side(&mut self, constraint: &Linear, side: Side) -> Result<(), NormalFault>
        ensures limits { self.new.limits ≡ self.old.limits }
        ensures made { self.new.made ≡ self.old.made }
        ensures overflow { (result ≡ Err NormalFault.Overflow) ↔ (largest self.old.limits <
            magnitude constraint.now.terms + unsigned_abs constraint.now.degree) }
        ensures names { OnOk result (self.new.names ≡ with_names self.old.names
            (names_of constraint.now.terms)) }
        ensures named { OnOk result (HasNames self.new.names (names_of constraint.now.terms)) }
        ensures forms { OnOk result ((added : Form) × AreFormsOf self.new.names
            ((side, constraint.now) ∷ []) (added ∷ []) ×
            (self.new.forms.items ≡ self.old.forms.items ++ added ∷ [])) }
    {
        let form = Normal::from_linear(self.alloc, &mut self.names, constraint, side, self.limits)?;
        self.forms.push(form)?;
        Ok(())
    }
}
