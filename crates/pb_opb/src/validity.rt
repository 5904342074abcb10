//! The rules that an instance meets.

ghost use Rattle.pb_text.specs.meaning.Blank.{IsInLine};
ghost use Rattle.std.specs.Prelude.{◌≡◌, ◌<◌, ◌≤◌, ◌↔◌, IsTrue, length};
ghost use Rattle.pb_text.specs.meaning.Limits.{largest, top_of};
ghost use Rattle.pb_opb.specs.meaning.Instances.{IsTail};
ghost use Rattle.pb_opb.specs.meaning.Values.{IsObjective, AreLinears, AreComments, IsInstanceValue};

use crate::instance::{Comment, Instance};
use pb_sums::{Linear, Term, linear_is_value, sum_is_value};
use pb_text::bytes::is_blank;
use pb_text::{Limits, Sequence};

/// Whether there is no line feed.
fn is_in_line(bytes: &[u8]) -> bool
    ensures { IsTrue result ↔ IsInLine bytes.now }
{
    for byte in bytes {
        if *byte == b'\n' {
            return false;
        }
    }
    true
}

/// Whether the bytes may follow the counts of a header: none, or a blank and then no line feed.
fn is_tail(bytes: &[u8]) -> bool
    ensures { IsTrue result ↔ IsTail bytes.now }
{
    match bytes {
        [] => true,
        [first, rest @ ..] => is_blank(*first) && is_in_line(rest),
    }
}

/// Whether there is no objective, or one whose sum is within the limits and which comes before some
/// constraint.
fn objective_is_value(
    objective: &Option<Sequence<Term>>,
    constraints: &[Linear],
    limits: Limits,
) -> bool
    ensures { IsTrue result ↔ IsObjective (largest limits) constraints.now objective.now }
{
    match objective {
        None => true,
        Some(terms) => !constraints.is_empty() && sum_is_value(terms.as_slice(), limits),
    }
}

/// Whether each constraint is within the limits.
fn are_linears(constraints: &[Linear], limits: Limits) -> bool
    ensures { IsTrue result ↔ AreLinears (largest limits) constraints.now }
{
    for linear in constraints {
        if !linear_is_value(linear, limits) {
            return false;
        }
    }
    true
}

/// Whether a comment comes after at least this many statements and before the last one, in one
/// line.
fn comment_is_value(comment: &Comment, least: u64, statements: u64) -> bool
    ensures { IsTrue result ↔ (least ≤ comment.now.before) × (comment.now.before < statements) ×
        IsInLine comment.now.text }
{
    least <= comment.before && comment.before < statements && is_in_line(comment.text.as_slice())
}

/// Whether the comments come in order before the last of this many statements, each in one line.
fn are_comments(comments: &[Comment], statements: u64) -> bool
    ensures { IsTrue result ↔ AreComments 0 statements comments.now }
{
    let mut least = 0;
    for comment in comments {
        if !comment_is_value(comment, least, statements) {
            return false;
        }
        least = comment.before;
    }
    true
}

/// Whether the count of variables and the number of constraints are at most `top`.
fn counts_are_within(instance: &Instance, top: u64) -> bool
    ensures { IsTrue result ↔ (instance.now.variables ≤ top) ×
        (length instance.now.constraints ≤ top) }
{
    instance.variables <= top && instance.constraints.len() as u64 <= top
}

/// Whether the instance has a text under the limits:
/// - its sums and constraints are within them, as are the count of variables and the number of
///   constraints;
/// - there is no objective without a constraint;
/// - the tail is empty, or a blank and then no line feed;
/// - no comment holds a line feed, and the comments come in order, each before the last constraint.
pub fn instance_is_value(instance: &Instance, limits: Limits) -> bool
    ensures { IsTrue result ↔ IsInstanceValue (largest limits) (top_of limits) instance.now }
{
    if !counts_are_within(instance, limits.top()) {
        return false;
    }
    let constraints = instance.constraints.as_slice();
    let statements = constraints.len() as u64 + instance.objective.is_some() as u64;
    is_tail(instance.tail.as_slice())
        && objective_is_value(&instance.objective, constraints, limits)
        && are_comments(instance.comments.as_slice(), statements)
        && are_linears(constraints, limits)
}
