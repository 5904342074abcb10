//! The lines of a derivation.
#![tactic(auto, using(crate::proofs::Texts::texts))]

ghost use Rattle.std.specs.Prelude.{◌≡◌, ◌++◌, codes};
ghost use Rattle.std.specs.Fmt.{signed_decimal};
ghost use Rattle.std.specs.List.{flat_map};
ghost use Rattle.std.specs.Option.{option_copied};
ghost use Rattle.pb_text.specs.meaning.Writing.{Writes};
ghost use Rattle.pb_trace.specs.Named.{cause_bytes, derivation_bytes, forced_line, forcing_bytes, known_by, negation_bytes, negation_line, slack_bytes};

use crate::facts::Facts;
use crate::named::write_named;
use crate::piece::Derivation;
use crate::propagation::{Forced, Reason};
use crate::write::{write_form, write_numbered};
use pb_normal::Normal;
use pb_sums::write_number;
use pb_text::{Failed, Sink, write_bytes};

/// Writes a derivation: the negation of its goal, and a line for each literal.
pub(crate) fn write_derivation<S: Sink>(
    derivation: &Derivation,
    facts: &Facts<'_>,
    out: &mut S,
) -> Result<(), Failed>
    ensures { Writes S.contents S.faults out.old
        (derivation_bytes (known_by facts.now) derivation.now) result out.new }
{
    write_negation(&derivation.negation, facts, out)?;
    write_literals(derivation.forced.as_slice(), facts, out)
}

/// Writes the line of the negation of a goal, if there is one.
fn write_negation<S: Sink>(
    negation: &Option<Normal>,
    facts: &Facts<'_>,
    out: &mut S,
) -> Result<(), Failed>
    ensures { Writes S.contents S.faults out.old
        (negation_bytes (known_by facts.now) negation.now) result out.new }
{
    match negation {
        Some(form) => write_negated(form, facts, out),
        None => Ok(()),
    }
}

fn write_negated<S: Sink>(form: &Normal, facts: &Facts<'_>, out: &mut S) -> Result<(), Failed>
    ensures { Writes S.contents S.faults out.old
        (negation_line (known_by facts.now) form.now) result out.new }
{
    write_bytes(b"  negation: ", out)?;
    write_form(form, facts.replay, out)?;
    write_bytes(b"\n", out)
}

/// Writes a line for each literal, in order.
fn write_literals<S: Sink>(forced: &[Forced], facts: &Facts<'_>, out: &mut S) -> Result<(), Failed>
    ensures { Writes S.contents S.faults out.old
        (flat_map (forced_line (known_by facts.now)) forced.now) result out.new }
{
    for one in forced {
        write_forced(one, facts, out)?;
    }
    Ok(())
}

/// Writes the line of a literal: what forced it, and with which slack.
fn write_forced<S: Sink>(forced: &Forced, facts: &Facts<'_>, out: &mut S) -> Result<(), Failed>
    ensures { Writes S.contents S.faults out.old
        (forced_line (known_by facts.now) forced.now) result out.new }
{
    write_bytes(b"  ", out)?;
    write_numbered(forced.variable, forced.negated, facts.replay, out)?;
    write_cause(forced.reason, forced.slack, facts, out)
}

/// Writes the rest of such a line.
fn write_cause<S: Sink>(
    reason: Reason,
    slack: u128,
    facts: &Facts<'_>,
    out: &mut S,
) -> Result<(), Failed>
    ensures { Writes S.contents S.faults out.old
        (cause_bytes (known_by facts.now) reason slack) result out.new }
{
    match reason {
        Reason::Given => write_bytes(b" by the statement\n", out),
        Reason::Negation => write_by_negation(slack, out),
        Reason::Id(id) => write_by_id(id, slack, facts, out),
    }
}

fn write_by_negation<S: Sink>(slack: u128, out: &mut S) -> Result<(), Failed>
    ensures { Writes S.contents S.faults out.old
        (codes " by the negation" ++ slack_bytes slack) result out.new }
{
    write_bytes(b" by the negation", out)?;
    write_slack(slack, out)
}

fn write_by_id<S: Sink>(id: u64, slack: u128, facts: &Facts<'_>, out: &mut S) -> Result<(), Failed>
    ensures { Writes S.contents S.faults out.old
        (forcing_bytes (known_by facts.now) id slack) result out.new }
{
    write_named(b" by ", id, facts, out)?;
    write_slack(slack, out)
}

/// Writes a slack, and ends the line. That of a clause which forces a literal is 0, and is written
/// whole.
fn write_slack<S: Sink>(slack: u128, out: &mut S) -> Result<(), Failed>
    ensures { Writes S.contents S.faults out.old (slack_bytes slack) result out.new }
{
    if slack == 0 {
        return write_bytes(b", slack 0\n", out);
    }
    write_last(slack.min(i128::MAX as u128) as i128, out)
}

fn write_last<S: Sink>(slack: i128, out: &mut S) -> Result<(), Failed>
    ensures { Writes S.contents S.faults out.old
        (codes ", slack " ++ (signed_decimal slack ++ codes "\n")) result out.new }
{
    write_bytes(b", slack ", out)?;
    write_number(slack, out)?;
    write_bytes(b"\n", out)
}
