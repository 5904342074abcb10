//! The live constraints of a check, for programs in C.

ghost use Rattle.std.specs.Prelude.{◌≡◌, ◌≢◌, length, map};
ghost use Rattle.pb_c.specs.Constraint.{Copies, CopiesFound, Sizes, coefficient_high, coefficient_low, form_of, sign};

use crate::handle::CheckerHandle;
use crate::options::WRONG_WORDS;
use pb_normal::Normal;
use pb_pieces::split;
use std::alloc::Global;

/// A number in two words.
#[repr(C)]
#[derive(Clone, Copy)]
pub struct Number {
    pub low: u64,
    pub high: i64,
}

/// How many terms the live constraint with the id has.
#[unsafe(no_mangle)]
pub extern "C" fn pb_checker_terms(
    alloc: Global,
    checker: &mut CheckerHandle,
    id: u64,
    terms: &mut usize,
) -> u8
    ensures kept { checker.new.value ≡ checker.old.value }
    ensures terms { Sizes (form_of checker.old.value id) result terms.old terms.new }
{
    let session = match checker.take(alloc) {
        Some(session) => session,
        None => return WRONG_WORDS,
    };
    let status = match session.constraint(id) {
        Some(form) => {
            *terms = form.len();
            0
        }
        None => WRONG_WORDS,
    };
    *checker = CheckerHandle::of(session);
    status
}

/// Copies the live constraint with the id: the numbers of the names of its terms, whether each is
/// negated, the coefficients and the degree. Each array has to have as many elements as the
/// constraint has terms. Otherwise, or if no live constraint has the id, the status is 2, and
/// nothing is written.
#[unsafe(no_mangle)]
pub extern "C" fn pb_checker_constraint(
    alloc: Global,
    checker: &mut CheckerHandle,
    id: u64,
    numbers: &mut [u64],
    negated: &mut [u8],
    lows: &mut [u64],
    highs: &mut [i64],
    degree: &mut Number,
) -> u8
    ensures kept { checker.new.value ≡ checker.old.value }
    ensures copies { CopiesFound (form_of checker.old.value id) result numbers.new negated.new
        lows.new highs.new degree.new }
    ensures unwritten { result ≢ 0 → (numbers.new ≡ numbers.old) × (negated.new ≡ negated.old) ×
        (lows.new ≡ lows.old)
        × (highs.new ≡ highs.old) × (degree.new ≡ degree.old) }
{
    let session = match checker.take(alloc) {
        Some(session) => session,
        None => return WRONG_WORDS,
    };
    let status = match session.constraint(id) {
        Some(form) => copy_form(form, numbers, negated, lows, highs, degree),
        None => WRONG_WORDS,
    };
    *checker = CheckerHandle::of(session);
    status
}

fn copy_form(
    form: &Normal,
    numbers: &mut [u64],
    negated: &mut [u8],
    lows: &mut [u64],
    highs: &mut [i64],
    degree: &mut Number,
) -> u8
    ensures copies { Copies form.now result numbers.new negated.new lows.new highs.new degree.new }
    ensures unwritten { result ≢ 0 → (numbers.new ≡ numbers.old) × (negated.new ≡ negated.old) ×
        (lows.new ≡ lows.old)
        × (highs.new ≡ highs.old) × (degree.new ≡ degree.old) }
{
    let count = form.len();
    if numbers.len() != count
        || negated.len() != count
        || lows.len() != count
        || highs.len() != count
    {
        return WRONG_WORDS;
    }
    copy_literals(form, numbers, negated);
    copy_coefficients(form, lows, highs);
    let (low, high) = split(form.degree());
    *degree = Number { low, high };
    0
}

/// The numbers of the names, and 1 for those that are negated.
fn copy_literals(form: &Normal, numbers: &mut [u64], negated: &mut [u8])
    requires numbers { length numbers.old ≡ length form.now.terms }
    requires negated { length negated.old ≡ length form.now.terms }
    ensures numbers { numbers.new ≡ map (λ t. t.variable) form.now.terms }
    ensures negated { negated.new ≡ map sign form.now.terms }
{
    'terms: for at in 0..form.len() {
        let (variable, is_negated, _) = form.term(at);
        numbers[at] = variable as u64;
        negated[at] = is_negated as u8;
    }
}

/// The two words of each coefficient.
fn copy_coefficients(form: &Normal, lows: &mut [u64], highs: &mut [i64])
    requires lows { length lows.old ≡ length form.now.terms }
    requires highs { length highs.old ≡ length form.now.terms }
    ensures lows { lows.new ≡ map coefficient_low form.now.terms }
    ensures highs { highs.new ≡ map coefficient_high form.now.terms }
{
    'terms: for at in 0..form.len() {
        let (_, _, coefficient) = form.term(at);
        let (low, high) = split(coefficient);
        lows[at] = low;
        highs[at] = high;
    }
}
