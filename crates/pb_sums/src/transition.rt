//! What a machine does with a kind of byte.

ghost use Rattle.std.specs.Prelude.{◌≡◌, ℕ, ◌-◌, ◌<◌, ◌≤◌, ◌^◌, Bool, None};
ghost use Rattle.pb_sums.specs.meaning.Sums.{reads_sums, allows};
ghost use Rattle.pb_sums.specs.engine.Machine.{digits, number, next_action, transition, KindFits, PhaseFits, ActionFits, is_numeric, is_in_number, is_more, is_done};
ghost use Rattle.pb_sums.specs.engine.Prefix.{begins_number, begins_relation, role, sign_read, after_name, after_number, after_space};
ghost use Rattle.pb_sums.specs.engine.State.{in_hand};

use crate::linear::Relation;
use crate::phase::{Action, Kind, Phase};
use crate::sum_kind::Part;
use pb_text::decimal::{next_digit, signed};

/// Whether digits in this phase are digits of a number.
pub fn is_numeric(phase: Phase) -> bool
    ensures { result ≡ is_numeric phase }
{
    match phase {
        Phase::Start
        | Phase::Signed(_, _)
        | Phase::Digits(_, _, _)
        | Phase::Between
        | Phase::Relation(_) => true,
        _ => false,
    }
}

/// Whether the last byte is a digit of a number.
pub fn is_in_number(phase: Phase) -> bool
    ensures { result ≡ is_in_number phase }
{
    match phase {
        Phase::Digits(_, _, _) => true,
        _ => false,
    }
}

/// Whether the text is complete.
pub fn is_done(phase: Phase) -> bool
    ensures { result ≡ is_done phase }
{
    match phase {
        Phase::Done => true,
        _ => false,
    }
}

/// Whether at least two bytes of a name were read.
pub fn is_more(phase: Phase) -> bool
    ensures { result ≡ is_more phase }
{
    match phase {
        Phase::More(_, _) => true,
        _ => false,
    }
}

/// Whether a number may begin, or its digits.
pub fn begins_number(phase: Phase) -> bool
    ensures { result ≡ begins_number phase }
{
    match phase {
        Phase::Start | Phase::Signed(_, _) | Phase::Between | Phase::Relation(_) => true,
        _ => false,
    }
}

/// The relation before a number, if any.
pub fn role(phase: Phase) -> Option<Relation>
    ensures { result ≡ role phase }
{
    match phase {
        Phase::Signed(role, _) => role,
        Phase::Relation(r) => Some(r),
        _ => None,
    }
}

/// If a sign was read last, whether it is a minus.
pub fn sign_read(phase: Phase) -> Option<bool>
    ensures { result ≡ sign_read phase }
{
    match phase {
        Phase::Signed(_, negative) => Some(negative),
        _ => None,
    }
}

/// Whether terms and space were read last, after which a relation may follow.
pub fn begins_relation(phase: Phase) -> bool
    ensures { result ≡ begins_relation phase }
{
    match phase {
        Phase::Between => true,
        _ => false,
    }
}

/// The phase after a number and space.
pub fn after_number(role: Option<Relation>, value: i128) -> Phase
    ensures { result ≡ after_number role value }
{
    match role {
        None => Phase::Gap(value),
        Some(r) => Phase::Tail(r, value),
    }
}

/// The phase after a name, if one may begin.
pub fn after_name(phase: Phase) -> Option<Phase>
    ensures { result ≡ after_name phase }
{
    match phase {
        Phase::Gap(z) => Some(Phase::More(z, false)),
        Phase::Tilde(z) => Some(Phase::More(z, true)),
        _ => None,
    }
}

/// The phase after a space, in the phases where one is common.
#[inline(always)]
pub fn after_space(phase: Phase) -> Option<Phase>
    requires { PhaseFits (2 ^ 127 - 1) phase }
    ensures { result ≡ after_space phase }
{
    match phase {
        Phase::Digits(None, negative, n) => Some(Phase::Gap(signed(negative, n))),
        Phase::Digits(Some(r), negative, n) => Some(Phase::Tail(r, signed(negative, n))),
        Phase::Gap(z) => Some(Phase::Gap(z)),
        Phase::More(_, _) | Phase::Between => Some(Phase::Between),
        Phase::Relation(r) => Some(Phase::Relation(r)),
        Phase::Tail(r, z) => Some(Phase::Tail(r, z)),
        _ => None,
    }
}

/// How many literals have a name and no term yet.
pub fn in_hand(phase: Phase) -> usize
    ensures { result ≡ in_hand phase }
{
    match phase {
        Phase::First(_, _) | Phase::More(_, _) => 1,
        _ => 0,
    }
}

fn reads_sums(part: Part) -> bool
    ensures { result ≡ reads_sums part }
{
    match part {
        Part::Sum => true,
        Part::Linear | Part::AtLeast => false,
    }
}

/// Whether the part allows the relation.
pub fn allows(part: Part, relation: Relation) -> bool
    ensures { result ≡ allows part relation }
{
    match (part, relation) {
        (Part::Linear, _) => true,
        (Part::AtLeast, Relation::AtLeast) => true,
        _ => false,
    }
}

#[inline(always)]
fn digits(limit: u128, role: Option<Relation>, negative: bool, magnitude: u128, digit: u8) -> Action
    requires room { limit < 2 ^ 127 }
    requires fits { magnitude ≤ limit }
    requires digit { digit < 10 }
    ensures transition { result ≡ digits limit role negative magnitude digit }
    ensures fits { ActionFits limit result }
{
    match next_digit(limit, magnitude, digit) {
        None => Action::Stop,
        Some(next) => Action::To(Phase::Digits(role, negative, next)),
    }
}

#[inline(always)]
fn number(limit: u128, role: Option<Relation>, kind: Kind) -> Action
    requires room { limit < 2 ^ 127 }
    requires fits { KindFits kind }
    ensures transition { result ≡ number limit role kind }
    ensures fits { ActionFits limit result }
{
    match kind {
        Kind::Plus => Action::To(Phase::Signed(role, false)),
        Kind::Minus => Action::To(Phase::Signed(role, true)),
        Kind::Digit(d) => digits(limit, role, false, 0, d),
        _ => Action::Stop,
    }
}

#[inline(always)]
fn next_action(part: Part, kind: Kind) -> Action
    ensures transition { result ≡ next_action part kind }
    ensures fits { (limit : ℕ) → ActionFits limit result }
{
    match kind {
        Kind::Greater if allows(part, Relation::AtLeast) => Action::To(Phase::Greater),
        Kind::Equals if allows(part, Relation::Equal) => Action::To(Phase::Relation(
            Relation::Equal,
        )),
        Kind::Semicolon if reads_sums(part) => Action::EndSum,
        _ => Action::Stop,
    }
}

/// What a machine does with a kind of byte. It does not allocate.
#[inline(always)]
pub fn transition(part: Part, limit: u128, phase: Phase, kind: Kind) -> Action
    requires room { limit < 2 ^ 127 }
    requires phase { PhaseFits limit phase }
    requires kind { KindFits kind }
    ensures transition { result ≡ transition part limit phase kind }
    ensures fits { ActionFits limit result }
{
    match (phase, kind) {
        (Phase::Start, Kind::Space) if reads_sums(part) => Action::To(Phase::Empty),
        (Phase::Start, Kind::Space) => Action::Stop,
        (Phase::Start | Phase::Between, Kind::Plus | Kind::Minus | Kind::Digit(_)) => {
            number(limit, None, kind)
        }
        (Phase::Start, _) => next_action(part, kind),
        (Phase::Signed(role, negative), Kind::Digit(d)) => digits(limit, role, negative, 0, d),
        (Phase::Digits(role, negative, n), Kind::Digit(d)) => digits(limit, role, negative, n, d),
        (Phase::Digits(None, negative, n), Kind::Space) => Action::To(Phase::Gap(signed(
            negative, n,
        ))),
        (Phase::Digits(Some(r), negative, n), Kind::Space) => {
            Action::To(Phase::Tail(r, signed(negative, n)))
        }
        (Phase::Digits(Some(r), negative, n), Kind::Semicolon) => {
            Action::EndLinear(r, signed(negative, n))
        }
        (Phase::Gap(z), Kind::Space) => Action::To(Phase::Gap(z)),
        (Phase::Gap(z), Kind::Tilde) => Action::To(Phase::Tilde(z)),
        (Phase::Gap(z), Kind::Start(b)) => Action::Begin(Phase::First(z, false), b),
        (Phase::Tilde(z), Kind::Start(b)) => Action::Begin(Phase::First(z, true), b),
        (Phase::First(z, negated) | Phase::More(z, negated), Kind::Start(b) | Kind::Inner(b)) => {
            Action::Add(Phase::More(z, negated), b)
        }
        (Phase::More(_, _) | Phase::Between, Kind::Space) => Action::To(Phase::Between),
        (Phase::More(_, _) | Phase::Between, _) => next_action(part, kind),
        (Phase::Greater, Kind::Equals) => Action::To(Phase::Relation(Relation::AtLeast)),
        (Phase::Relation(r), Kind::Space) => Action::To(Phase::Relation(r)),
        (Phase::Relation(r), _) => number(limit, Some(r), kind),
        (Phase::Tail(r, z), Kind::Space) => Action::To(Phase::Tail(r, z)),
        (Phase::Tail(r, z), Kind::Semicolon) => Action::EndLinear(r, z),
        (Phase::Empty, Kind::Space) => Action::To(Phase::Empty),
        (Phase::Empty, Kind::Semicolon) => Action::EndSum,
        _ => Action::Stop,
    }
}
