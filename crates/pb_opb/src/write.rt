//! Canonical text.

ghost use Rattle.std.specs.Prelude.{◌≡◌, ◌≤◌, [], ◌∷◌, ◌++◌, IsTrue, length};
ghost use Rattle.pb_text.specs.meaning.Writing.{Writes};
ghost use Rattle.pb_sums.specs.contract.Canonical.{linear_bytes};
ghost use Rattle.pb_opb.specs.contract.Canonical.{header_bytes, objective_bytes, event_bytes, due, comment_events, constraint_events, in_order, lines, body_events, instance_bytes};
ghost use Rattle.pb_opb.specs.engine.Led.{led_lines};

use crate::event::OpbEvent;
use crate::instance::{Comment, Instance};
use pb_sums::piece::Piece;
use pb_sums::{Linear, Term, put_linear, write_count, write_linear, write_sum};
use pb_text::{Failed, Sink, write_bytes};

fn write_header<S: Sink>(
    variables: u64,
    constraints: u64,
    tail: &[u8],
    out: &mut S,
) -> Result<(), Failed>
    ensures { Writes S.contents S.faults out.old
        (header_bytes variables constraints tail.now) result out.new }
{
    write_bytes(b"* #variable= ", out)?;
    write_count(variables, out)?;
    write_bytes(b" #constraint= ", out)?;
    write_count(constraints, out)?;
    write_bytes(tail, out)
}

fn write_comment<S: Sink>(text: &[u8], out: &mut S) -> Result<(), Failed>
    ensures { Writes S.contents S.faults out.old (42 ∷ text.now) result out.new }
{
    write_bytes(b"*", out)?;
    write_bytes(text, out)
}

fn write_objective<S: Sink>(terms: &[Term], out: &mut S) -> Result<(), Failed>
    ensures { Writes S.contents S.faults out.old (objective_bytes terms.now) result out.new }
{
    if terms.is_empty() {
        return write_bytes(b"min: ;", out);
    }
    write_bytes(b"min: ", out)?;
    write_sum(terms, out)?;
    write_bytes(b" ;", out)
}

/// Prepends a comment if it fits, and returns whether it did.
fn put_comment(text: &[u8], piece: &mut Piece) -> bool
    ensures { IsTrue result → piece.new ≡ (42 ∷ text.now) ++ piece.old }
{
    if text.len() >= piece.room() {
        return false;
    }
    piece.put_text(text);
    piece.put(b'*');
    true
}

/// Prepends the line of a statement without its line feed, if it surely fits, and returns whether
/// it did. If it did not, the piece may have a part of it.
pub fn put_event(event: &OpbEvent, piece: &mut Piece) -> bool
    ensures { IsTrue result → piece.new ≡ event_bytes event.now ++ piece.old }
{
    match event {
        OpbEvent::Comment(text) => put_comment(text.as_slice(), piece),
        OpbEvent::Constraint(linear) => put_linear(linear, piece),
        _ => false,
    }
}

/// Writes the line of a statement without its line feed.
pub fn write_event<S: Sink>(event: &OpbEvent, out: &mut S) -> Result<(), Failed>
    ensures { Writes S.contents S.faults out.old (event_bytes event.now) result out.new }
{
    match event {
        OpbEvent::Header {
            variables,
            constraints,
            tail,
        } => write_header(*variables, *constraints, tail.as_slice(), out),
        OpbEvent::Comment(text) => write_comment(text.as_slice(), out),
        OpbEvent::Objective(terms) => write_objective(terms.as_slice(), out),
        OpbEvent::Constraint(linear) => write_linear(linear, out),
    }
}

/// How many comments at the start of the list come before the statement with this number.
fn count_due(comments: &[Comment], statement: u64) -> usize
    ensures count { result ≡ due statement comments.now }
    ensures within { result ≤ length comments.now }
{
    comments
        .iter()
        .take_while(|comment| comment.before <= statement)
        .count()
}

/// Writes a line feed and a comment.
fn write_comment_line<S: Sink>(comment: &Comment, out: &mut S) -> Result<(), Failed>
    ensures { Writes S.contents S.faults out.old (10 ∷ 42 ∷ comment.now.text) result out.new }
{
    write_bytes(b"\n", out)?;
    write_comment(comment.text.as_slice(), out)
}

/// Writes the comments, each after a line feed.
fn write_comments<S: Sink>(comments: &[Comment], out: &mut S) -> Result<(), Failed>
    ensures { Writes S.contents S.faults out.old (led_lines (comment_events comments.now)) result
        out.new }
{
    for comment in comments {
        write_comment_line(comment, out)?;
    }
    Ok(())
}

/// Writes a line feed and a constraint.
fn write_line<S: Sink>(linear: &Linear, out: &mut S) -> Result<(), Failed>
    ensures { Writes S.contents S.faults out.old (10 ∷ linear_bytes linear.now) result out.new }
{
    write_bytes(b"\n", out)?;
    write_linear(linear, out)
}

/// Writes the constraints from the one with this number on, each after a line feed. The comments
/// that are due come before each.
fn write_constraints<S: Sink>(
    first: u64,
    comments: &[Comment],
    constraints: &[Linear],
    out: &mut S,
) -> Result<(), Failed>
    requires { first ≤ 1 }
    ensures { Writes S.contents S.faults out.old
        (led_lines (in_order first comments.now (constraint_events constraints.now))) result
        out.new }
{
    let mut rest = comments;
    for (index, linear) in constraints.iter().enumerate() {
        let (due, later) = rest.split_at(count_due(rest, first + index as u64));
        write_comments(due, out)?;
        write_line(linear, out)?;
        rest = later;
    }
    Ok(())
}

/// Writes the objective and the constraints, each after a line feed. The comments that are due come
/// before each.
fn write_all<S: Sink>(
    terms: &[Term],
    comments: &[Comment],
    constraints: &[Linear],
    out: &mut S,
) -> Result<(), Failed>
    ensures { Writes S.contents S.faults out.old
        (led_lines (in_order 0 comments.now
        (OpbEvent.Objective terms.now ∷ constraint_events constraints.now))) result out.new }
{
    let (due, later) = comments.split_at(count_due(comments, 0));
    write_comments(due, out)?;
    write_bytes(b"\n", out)?;
    write_objective(terms, out)?;
    write_constraints(1, later, constraints, out)
}

/// Writes what follows the counts of the header and its tail.
#[tactic(auto, using(crate::proofs::lemmas::instances::Spelled::body_with, crate::proofs::lemmas::instances::Spelled::body_without))]
fn write_body<S: Sink>(instance: &Instance, out: &mut S) -> Result<(), Failed>
    ensures { Writes S.contents S.faults out.old
        (10 ∷ lines (body_events instance.now)) result out.new }
{
    let comments = instance.comments.as_slice();
    let constraints = instance.constraints.as_slice();
    match &instance.objective {
        None if constraints.is_empty() => write_bytes(b"\n", out),
        None => write_constraints(0, comments, constraints, out),
        Some(terms) => write_all(terms.as_slice(), comments, constraints, out),
    }
}

/// Writes the canonical text of the instance: one line for each statement. There is no line feed
/// after the last line, except after that of the header. A comment whose number is not below the
/// number of statements is not written.
pub fn write_instance<S: Sink>(instance: &Instance, out: &mut S) -> Result<(), Failed>
    ensures { Writes S.contents S.faults out.old (instance_bytes instance.now) result out.new }
{
    write_header(
        instance.variables,
        instance.constraints.len() as u64,
        instance.tail.as_slice(),
        out,
    )?;
    write_body(instance, out)
}
