//! A few codes of literals, without a list.

ghost use Rattle.std.specs.Prelude.{◌≡◌, ◌≤◌, All, length, map};
ghost use Rattle.pb_normal.specs.engine.Codes.{IsUnit, decoded};

use crate::entry::Entry;
use crate::terms::code::Coded;
use std::alloc::Global;
use std::marker::Model;

/// The maximum number of codes that are stored in place.
pub(crate) const FEW: usize = 4;

/// At most `FEW` codes of literals, stored in place. Contracts see the list of them.
#[derive(Drop)]
pub(crate) struct FewCodes {
    alloc: Global,
    len: u8,
    codes: [u32; FEW],
}

impl Model for FewCodes {
    ghost use Rattle.std.specs.Prelude.{List, ℕ, ◌≤◌, take};

    ghost Value = { List ℕ };

    ghost view = { λ c. take c.len c.codes };

    ghost invariant = { λ c. c.len ≤ 4 };
}

impl FewCodes {
    /// The codes of terms with coefficient 1.
    pub(crate) fn of(alloc: Global, terms: &[Entry]) -> FewCodes
        requires few { length terms.now ≤ 4 }
        requires units { All IsUnit terms.now }
        ensures { map decoded result ≡ terms.now }
    {
        let mut codes = [0; FEW];
        'terms: for i in 0..terms.len() {
            codes[i] = u32::of(terms[i]);
        }
        FewCodes {
            alloc,
            len: terms.len() as u8,
            codes,
        }
    }

    /// The codes.
    #[inline]
    pub(crate) fn as_slice(&self) -> &[u32]
        ensures { result.now ≡ self.now }
    {
        &self.codes[..self.len as usize]
    }

    /// A copy.
    pub(crate) fn copy(&self) -> FewCodes
        ensures { result ≡ self.now }
    {
        FewCodes {
            alloc: self.alloc,
            len: self.len,
            codes: self.codes,
        }
    }

    /// The allocator that was given.
    pub(crate) fn allocator(&self) -> Global {
        self.alloc
    }
}
