//! Terms that are stored with codes of their literals.

ghost use Rattle.std.specs.Prelude.{◌≡◌, ◌<◌, ◌++◌, All, true, false, IfOk, map};
ghost use Rattle.pb_normal.specs.declared.entry.Entry.{Entry};
ghost use Rattle.pb_normal.specs.engine.Codes.{IsUnit, decoded};
ghost use Rattle.pb_normal.specs.meaning.Rules.{with_coefficient};

use crate::entry::Entry;
use std::alloc::{AllocError, Global};

/// A way to store a term in less memory than an `Entry`.
pub(crate) trait Coded {
    /// The term.
    ghost term: { Self → Entry };

    /// The terms that can be stored so.
    ghost fits: { Entry → Type 0 };

    /// Whether a term can be stored so.
    fn can_store(entry: Entry) -> bool
        ensures yes { result ≡ true → fits entry }
        ensures no { result ≡ false → fits entry → ⊥ };

    /// A term as it is stored.
    fn of(entry: Entry) -> Self
        requires { fits entry }
        ensures { term result ≡ entry };

    /// The term.
    fn entry(self) -> Entry
        ensures { result ≡ term self };
}

/// The code of a literal whose coefficient is 1: twice its variable, and 1 more if it is negated.
impl Coded for u32 {
    ghost term = { decoded };

    ghost fits = { IsUnit };

    #[inline]
    fn can_store(entry: Entry) -> bool {
        has_code(entry)
    }

    #[inline]
    fn of(entry: Entry) -> u32 {
        code_of(entry)
    }

    #[inline]
    fn entry(self) -> Entry {
        decoded(self)
    }
}

// Whether the term has a code: its coefficient is 1, and the code fits in 4 bytes.
fn has_code(entry: Entry) -> bool
    ensures yes { result ≡ true → IsUnit entry }
    ensures no { result ≡ false → IsUnit entry → ⊥ }
{
    if entry.coefficient != 1 {
        return false;
    }
    entry.variable < 2147483648
}

/// The code of the literal of a term.
#[inline]
pub(crate) fn code_of(entry: Entry) -> u32
    requires { entry.variable < 2147483648 }
    ensures { with_coefficient (decoded result) entry.coefficient ≡ entry }
{
    let double = 2 * entry.variable as u32;
    if entry.negated { double + 1 } else { double }
}

/// The term of a code.
#[inline]
pub(crate) fn decoded(code: u32) -> Entry
    ensures { result ≡ decoded code }
{
    Entry {
        variable: (code / 2) as usize,
        negated: code % 2 == 1,
        coefficient: 1,
    }
}

/// Whether all terms can be stored so.
pub(crate) fn can_store_all<T: Coded>(terms: &[Entry]) -> bool
    ensures { result ≡ true → All T.fits terms.now }
{
    'terms: for i in 0..terms.len() {
        if !T::can_store(terms[i]) {
            return false;
        }
    }
    true
}

/// The terms as they are stored, in a list that is allocated once.
pub(crate) fn coded_all<T: Coded + Copy>(
    alloc: Global,
    terms: &[Entry],
) -> Result<Vec<T>, AllocError>
    requires { All T.fits terms.now }
    ensures { IfOk result (λ r. map T.term r.items ≡ terms.now) }
{
    let mut codes = Vec::with_capacity(alloc, terms.len())?;
    'terms: for i in 0..terms.len() {
        codes.push(T::of(terms[i]))?;
    }
    Ok(codes)
}

/// Appends the terms to a list.
pub(crate) fn append_decoded<T: Coded + Copy>(
    codes: &[T],
    out: &mut Vec<Entry>,
) -> Result<(), AllocError>
    ensures { IfOk result (λ _. out.new.items ≡ out.old.items ++ map T.term codes.now) }
{
    'codes: for i in 0..codes.len() {
        out.push(codes[i].entry())?;
    }
    Ok(())
}

/// The terms as entries, in a list that is allocated once.
pub(crate) fn decoded_all<T: Coded + Copy>(
    alloc: Global,
    codes: &[T],
) -> Result<Vec<Entry>, AllocError>
    ensures { IfOk result (λ r. r.items ≡ map T.term codes.now) }
{
    let mut out = Vec::with_capacity(alloc, codes.len())?;
    append_decoded(codes, &mut out)?;
    Ok(out)
}
