//! The terms of a form. Where they allow it, they are stored in little memory.

pub(crate) mod choice;
pub(crate) mod code;
pub(crate) mod coded_term;
pub(crate) mod few_codes;
pub(crate) mod listed;
pub(crate) mod reading;

ghost use Rattle.std.specs.Prelude.{◌≡◌, ◌<◌, ◌++◌, true, false, IfOk, length, get_or};
ghost use Rattle.pb_normal.specs.engine.Compact.{entries_of};
ghost use Rattle.pb_normal.specs.engine.Reading.{read_entries};

use crate::entries::Entries;
use crate::entry::Entry;
use crate::memory::Memory;
use crate::terms::code::{append_decoded, can_store_all, coded_all, decoded_all};
use crate::terms::coded_term::CodedTerm;
use crate::terms::few_codes::{FEW, FewCodes};
use crate::terms::reading::{Reading, copied};
use std::alloc::{AllocError, Global};
use std::marker::Model;

/// How terms are stored.
#[derive(Drop)]
pub(crate) enum Stored {
    /// The codes of the literals of terms with coefficient 1: twice the variable, and 1 more if it
    /// is negated.
    Codes(Vec<u32>),
    /// The same codes, if they are few.
    Few(FewCodes),
    /// The same codes, each with a coefficient that fits 64 bits.
    Narrow(Vec<CodedTerm>),
    /// Any terms.
    Wide(Vec<Entry>),
}

// Codes in place make no form larger.
const _: () = prove!(size_of::<Stored>() <= 32);

/// The terms of a form, which contracts see as the list of them.
#[derive(Drop)]
pub struct Terms {
    pub(crate) stored: Stored,
}

impl Model for Terms {
    ghost use Rattle.std.specs.Prelude.{List};
    ghost use Rattle.pb_normal.specs.declared.entry.Entry.{Entry};
    ghost use Rattle.pb_normal.specs.engine.Compact.{entries_of};

    ghost Value = { List Entry };

    ghost view = { λ t. entries_of t.stored };
}

impl Terms {
    /// These terms, stored in as little memory as they allow. It allocates one list at most.
    #[inline(always)]
    pub(crate) fn of(alloc: Global, terms: &[Entry]) -> Result<Terms, AllocError>
        ensures same { IfOk result (λ r. r ≡ terms.now) }
    {
        let stored = stored_of(alloc, terms)?;
        Ok(Terms { stored })
    }

    /// The same terms, stored as they are.
    pub(crate) fn wide(terms: Vec<Entry>) -> Terms
        ensures same { result ≡ terms.items }
    {
        Terms {
            stored: Stored::Wide(terms),
        }
    }

    /// Where they are allocated.
    pub(crate) fn allocator(&self) -> Global {
        match &self.stored {
            Stored::Codes(codes) => *codes.allocator(),
            Stored::Few(codes) => codes.allocator(),
            Stored::Narrow(terms) => *terms.allocator(),
            Stored::Wide(terms) => *terms.allocator(),
        }
    }

    /// The terms as they are read.
    #[inline]
    pub(crate) fn reading(&self) -> Reading<'_>
        ensures same { read_entries result ≡ self.now }
    {
        match &self.stored {
            Stored::Codes(codes) => Reading::Codes(codes.as_slice()),
            Stored::Few(codes) => Reading::Codes(codes.as_slice()),
            Stored::Narrow(terms) => Reading::Narrow(terms.as_slice()),
            Stored::Wide(terms) => Reading::Wide(terms.as_slice()),
        }
    }

    /// How many there are.
    #[inline]
    pub fn len(&self) -> usize
        ensures length { result ≡ length self.now }
    {
        self.reading().len()
    }

    /// The term at an index.
    #[inline]
    pub fn get(&self, index: usize) -> Entry
        requires { index < length self.now }
        ensures read { (d : Entry) → result ≡ get_or self.now index d }
    {
        self.reading().get(index)
    }

    /// The terms one after another.
    pub fn iter(&self) -> Entries<'_>
        ensures items { result ≡ self.now }
    {
        Entries::of(self)
    }

    /// A list of the same terms.
    pub(crate) fn to_entries(&self) -> Result<Vec<Entry>, AllocError>
        ensures same { IfOk result (λ r. r.items ≡ self.now) }
    {
        self.reading().to_entries(self.allocator())
    }

    /// A list of the same terms. If they are stored in one, it is this.
    pub(crate) fn into_entries(self) -> Result<Vec<Entry>, AllocError>
        ensures same { IfOk result (λ r. r.items ≡ self) }
    {
        match self.stored {
            Stored::Codes(codes) => decoded_all(*codes.allocator(), codes.as_slice()),
            Stored::Few(codes) => decoded_all(codes.allocator(), codes.as_slice()),
            Stored::Narrow(terms) => decoded_all(*terms.allocator(), terms.as_slice()),
            Stored::Wide(terms) => Ok(terms),
        }
    }

    /// A copy.
    pub(crate) fn copy(&self) -> Result<Terms, AllocError>
        ensures same { IfOk result (λ r. r ≡ self.now) }
    {
        let alloc = self.allocator();
        let stored = match &self.stored {
            Stored::Codes(codes) => Stored::Codes(copied(alloc, codes.as_slice())?),
            Stored::Few(codes) => Stored::Few(codes.copy()),
            Stored::Narrow(terms) => Stored::Narrow(copied(alloc, terms.as_slice())?),
            Stored::Wide(terms) => Stored::Wide(copied(alloc, terms.as_slice())?),
        };
        Ok(Terms { stored })
    }

    /// Whether the two are the same terms.
    pub(crate) fn is_same(&self, other: &Terms) -> bool
        ensures yes { result ≡ true → self.now ≡ other.now }
        ensures no { result ≡ false → self.now ≡ other.now → ⊥ }
    {
        if self.len() != other.len() {
            return false;
        }
        'terms: for i in 0..self.len() {
            let left = self.get(i);
            let right = other.get(i);
            if !are_same(left, right) {
                return false;
            }
        }
        true
    }

    /// Appends the terms to a list.
    pub(crate) fn append_to(&self, out: &mut Vec<Entry>) -> Result<(), AllocError>
        ensures { IfOk result (λ _. out.new.items ≡ out.old.items ++ self.now) }
    {
        out.reserve(self.len())?;
        match self.reading() {
            Reading::Codes(codes) => append_decoded(codes, out),
            Reading::Narrow(terms) => append_decoded(terms, out),
            Reading::Wide(terms) => out.extend_from_slice(terms),
        }
    }

    /// Drops the terms. The memory of a list of entries is used again.
    pub(crate) fn spend(self, memory: &mut Memory) -> Result<(), AllocError> {
        match self.stored {
            Stored::Wide(terms) => memory.keep(terms),
            _ => Ok(()),
        }
    }

    /// The same terms. A list of entries is stored in as little memory as they allow, and its own
    /// memory is used again: it allocates once.
    pub(crate) fn compact_from(self, memory: &mut Memory) -> Result<Terms, AllocError>
        ensures same { IfOk result (λ r. r ≡ self) }
    {
        let stored = match self.stored {
            Stored::Wide(terms) => {
                let stored = stored_of(*terms.allocator(), terms.as_slice())?;
                memory.keep(terms)?;
                stored
            }
            stored => stored,
        };
        Ok(Terms { stored })
    }

    /// The same terms. A list of entries is stored in as little memory as they allow: it allocates
    /// once, or shrinks.
    pub(crate) fn compact(self) -> Result<Terms, AllocError>
        ensures same { IfOk result (λ r. r ≡ self) }
    {
        let stored = match self.stored {
            Stored::Wide(terms) => compacted(terms)?,
            stored => stored,
        };
        Ok(Terms { stored })
    }
}

// Whether the two are equal.
fn are_same(left: Entry, right: Entry) -> bool
    ensures yes { result ≡ true → left ≡ right }
    ensures no { result ≡ false → left ≡ right → ⊥ }
{
    left == right
}

// The same terms, stored in as little memory as they allow. If that is as entries, it is this list.
fn compacted(mut terms: Vec<Entry>) -> Result<Stored, AllocError>
    ensures same { IfOk result (λ r. entries_of r ≡ terms.items) }
{
    if can_store_all::<CodedTerm>(terms.as_slice()) {
        return stored_of(*terms.allocator(), terms.as_slice());
    }
    terms.shrink_to_fit();
    Ok(Stored::Wide(terms))
}

// These terms, stored in as little memory as they allow.
#[inline(always)]
fn stored_of(alloc: Global, terms: &[Entry]) -> Result<Stored, AllocError>
    ensures same { IfOk result (λ r. entries_of r ≡ terms.now) }
{
    if can_store_all::<u32>(terms) {
        if terms.len() <= FEW {
            return Ok(Stored::Few(FewCodes::of(alloc, terms)));
        }
        return Ok(Stored::Codes(coded_all(alloc, terms)?));
    }
    if can_store_all::<CodedTerm>(terms) {
        return Ok(Stored::Narrow(coded_all(alloc, terms)?));
    }
    Ok(Stored::Wide(copied(alloc, terms)?))
}
