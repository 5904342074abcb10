//! The stored forms and the occurrence lists.

pub mod counted_form;
pub mod occurrence_lists;
pub mod opened;
pub mod reasons;
pub mod refresh;
pub mod sorted_form;
pub mod spots;
pub mod stored_form;
pub mod sums;
pub mod unit_form;
pub mod units;

ghost use Rattle.std.specs.Prelude.{◌≡◌, ◌≤◌, ◌+◌, ◌-◌, ◌^◌, ◌<◌, [], length, min, slice_index_or, IfOk};
ghost use Rattle.pb_propagate.specs.declared.term.Term.{Term};
ghost use Rattle.pb_propagate.specs.engine.engine.Stored.{stored_terms};
ghost use Rattle.pb_propagate.specs.engine.engine.Fields.{entry_at};

use crate::column::Column;
use crate::engine::visits::Visits;
use crate::lists::Lists;
use crate::store::spots::Spots;
use crate::store::stored_form::StoredForm;
use crate::term::Term;
use std::alloc::{AllocError, Global};

/// A form that contains a literal, and the position of its term there. The fields are private:
/// other modules learn them only by `visit`.
#[derive(Clone, Copy)]
pub struct Occurrence {
    form: u32,
    index: u32,
}

impl Occurrence {
    ghost use Rattle.std.specs.Prelude.{◌≡◌, ◌≤◌, ◌^◌, ◌⊎◌, IfOk, OnErr};

    // An entry for a term of a form. Both numbers must fit in 4 bytes.
    fn of(form: usize, index: usize) -> Result<Occurrence, AllocError>
        ensures ok { IfOk result (λ entry. entry ≡ record { form = form; index = index }) }
        ensures err { OnErr result ((2 ^ 32 ≤ form) ⊎ (2 ^ 32 ≤ index)) }
    {
        let largest = u32::MAX as usize;
        if form > largest || index > largest {
            return Err(AllocError);
        }
        Ok(Occurrence {
            form: form as u32,
            index: index as u32,
        })
    }
}

/// An entry that was visited. Only `visit` makes one.
#[derive(Drop)]
pub struct Visited {
    pub form: usize,
    index: usize,
}

/// The stored forms, and for each literal the forms that contain it.
#[derive(Drop)]
pub struct Store {
    pub stored: Vec<StoredForm>,
    // For each form, the position of the entry of each of its terms in the list of its literal.
    pub spots: Column<Spots>,
    pub occurrences: Lists<Occurrence>,
    pub variables: usize,
}

impl Store {
    /// No forms, over no variables, with memory for that many forms.
    pub fn with_capacity(alloc: Global, forms: usize) -> Result<Store, AllocError>
        ensures stored { IfOk result (λ store. store.stored.items ≡ []) }
        ensures spots { IfOk result (λ store. store.spots ≡ []) }
        ensures occurrences { IfOk result (λ store. store.occurrences ≡ []) }
        ensures variables { IfOk result (λ store. store.variables ≡ 0) }
    {
        let stored = Vec::with_capacity(alloc, forms)?;
        let spots = Column::with_capacity(alloc, forms)?;
        Ok(Store {
            stored,
            spots,
            occurrences: Lists::new(alloc),
            variables: 0,
        })
    }
}

/// Reads an entry of an occurrence list, and counts the visit. This is also a visit to the entry's
/// term, whose coefficient `weight_of` returns.
pub fn visit(entries: &[Occurrence], i: usize, visits: &mut Visits) -> Visited
    requires { i < length entries.now }
    ensures item { entry_at result ≡ slice_index_or entries.now i (entry_at result) }
    ensures rising { visits.old ≤ visits.new }
    ensures count { visits.new ≡ min (visits.old + 1) (2 ^ 64 - 1) }
{
    visits.count();
    let entry = entries[i];
    Visited {
        form: entry.form as usize,
        index: entry.index as usize,
    }
}

/// The coefficient of a visited entry's term.
pub fn weight_of(kept: &StoredForm, entry: &Visited) -> u128
    requires { entry.now.index < length (stored_terms kept.now) }
    ensures { (d : Term) →
        result ≡ (slice_index_or (stored_terms kept.now) entry.now.index d).coefficient }
{
    kept.weight(entry.index)
}

/// Reads a candidate, and counts the visit.
pub fn visit_term(kept: &StoredForm, i: usize, visits: &mut Visits) -> Term
    requires { i < length (stored_terms kept.now) }
    ensures item { (d : Term) → result ≡ slice_index_or (stored_terms kept.now) i d }
    ensures rising { visits.old ≤ visits.new }
    ensures count { visits.new ≡ min (visits.old + 1) (2 ^ 64 - 1) }
{
    visits.count();
    kept.term(i)
}
