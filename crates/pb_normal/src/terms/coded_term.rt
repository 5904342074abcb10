//! Terms whose coefficients fit 64 bits.

ghost use Rattle.std.specs.Prelude.{◌≡◌, ◌<◌, true, false};
ghost use Rattle.pb_normal.specs.engine.Codes.{IsNarrow, weighed};

use crate::entry::Entry;
use crate::terms::code::{Coded, code_of, decoded};

/// The code of a literal, and its coefficient.
#[derive(Clone, Copy)]
pub(crate) struct CodedTerm {
    code: u32,
    coefficient: u64,
}

impl Coded for CodedTerm {
    ghost term = { weighed };

    ghost fits = { IsNarrow };

    #[inline]
    fn can_store(entry: Entry) -> bool {
        is_narrow(entry)
    }

    #[inline]
    fn of(entry: Entry) -> CodedTerm {
        CodedTerm {
            code: code_of(entry),
            coefficient: entry.coefficient as u64,
        }
    }

    #[inline]
    fn entry(self) -> Entry {
        let literal = decoded(self.code);
        Entry {
            coefficient: self.coefficient as u128,
            ..literal
        }
    }
}

// Whether the coefficient fits in 8 bytes, and the code in 4.
fn is_narrow(entry: Entry) -> bool
    ensures yes { result ≡ true → IsNarrow entry }
    ensures no { result ≡ false → IsNarrow entry → ⊥ }
{
    if entry.coefficient > 18446744073709551615 {
        return false;
    }
    entry.variable < 2147483648
}
