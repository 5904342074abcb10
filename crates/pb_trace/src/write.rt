//! Lines of a trace.
#![tactic(auto, using(crate::proofs::Texts::shown))]

ghost use Rattle.std.specs.Prelude.{◌≡◌, pos, ◌<◌, ◌^◌, ◌-◌, ◌∷◌, ◌++◌, List, ℕ, All, length, map, slice_get, decimal, codes};
ghost use Rattle.std.specs.Fmt.{signed_decimal};
ghost use Rattle.std.specs.Option.{option_copied};
ghost use Rattle.pb_text.specs.meaning.Writing.{Writes};
ghost use Rattle.pb_sums.specs.meaning.Sums.{literal_bytes};
ghost use Rattle.pb_sums.specs.contract.Canonical.{head_bytes, place_bytes, term_bytes};
ghost use Rattle.pb_proof.specs.meaning.Canonical.{statement_bytes, word_bytes};
ghost use Rattle.pb_normal.specs.meaning.Form.{total, each};
ghost use Rattle.pb_trace.specs.Counted.{count_line};
ghost use Rattle.pb_trace.specs.Changes.{HasAllNames, IsLinearText, coefficient_bytes, end_bytes, name_shown, term_shown, form_bytes, change_bytes, constraint_in, id_bytes, origin_bytes};

use pb_normal::{Entry, Normal, Terms};
use pb_proof::{PolWord, Statement, write_statement};
use pb_sums::{write_count, write_literal, write_number, write_place};
use pb_text::{Failed, Sink, Spanned, write_bytes};

/// Names by number.
pub(crate) trait Named {
    /// The names, each at its number.
    ghost names: { Self → List (List ℕ) };

    /// The name with a number, if there is one.
    fn text_of(&self, number: usize) -> Option<&str>
        ensures { option_copied result ≡ slice_get (names self.now) number };
}

/// How a trace shows constraints.
#[derive(Clone, Copy)]
pub(crate) struct Style<'a> {
    /// Whether it shows their ids alone.
    pub(crate) ids: bool,
    /// The lines in which the constraints of the instance are written.
    pub(crate) lines: &'a [u64],
}

/// Writes a count after its name, as a line.
pub(crate) fn write_counted<S: Sink>(name: &[u8], count: u64, out: &mut S) -> Result<(), Failed>
    ensures { Writes S.contents S.faults out.old (count_line name.now count) result out.new }
{
    write_bytes(name, out)?;
    write_bytes(b": ", out)?;
    write_count(count, out)?;
    write_bytes(b"\n", out)
}

/// Writes the position and the canonical text of a statement.
pub(crate) fn write_read<S: Sink>(read: &Spanned<Statement>, out: &mut S) -> Result<(), Failed>
    ensures { Writes S.contents S.faults out.old
        (place_bytes read.now.first ++ statement_bytes read.now.event) result out.new }
{
    write_place(read.first, out)?;
    write_statement(&read.event, out)
}

/// Writes an id and its form after an arrow.
pub(crate) fn write_change<S: Sink, N: Named>(
    arrow: &[u8],
    id: u64,
    form: &Normal,
    names: &N,
    out: &mut S,
) -> Result<(), Failed>
    ensures { Writes S.contents S.faults out.old
        (change_bytes arrow.now (N.names names.now) id form.now) result out.new }
{
    write_bytes(arrow, out)?;
    write_count(id, out)?;
    write_bytes(b": ", out)?;
    write_form(form, names, out)
}

/// Writes an id and its constraint after an arrow, with the line of the instance in which it is
/// written.
pub(crate) fn write_constraint<S: Sink, N: Named>(
    style: Style<'_>,
    arrow: &[u8],
    id: u64,
    form: &Normal,
    names: &N,
    out: &mut S,
) -> Result<(), Failed>
    ensures { Writes S.contents S.faults out.old
        (constraint_in style.entry arrow.now (N.names names.now) id form.now) result out.new }
{
    write_id(style.ids, arrow, id, form, names, out)?;
    write_origin(line_of(style.lines, id), out)
}

/// Writes an id after an arrow, and its constraint unless only ids are shown.
fn write_id<S: Sink, N: Named>(
    ids: bool,
    arrow: &[u8],
    id: u64,
    form: &Normal,
    names: &N,
    out: &mut S,
) -> Result<(), Failed>
    ensures { Writes S.contents S.faults out.old
        (id_bytes ids arrow.now (N.names names.now) id form.now) result out.new }
{
    if ids {
        write_numbered_arrow(arrow, id, out)
    } else {
        write_change(arrow, id, form, names, out)
    }
}

/// Writes an id after an arrow.
pub(crate) fn write_numbered_arrow<S: Sink>(
    arrow: &[u8],
    id: u64,
    out: &mut S,
) -> Result<(), Failed>
    ensures { Writes S.contents S.faults out.old (arrow.now ++ decimal id) result out.new }
{
    write_bytes(arrow, out)?;
    write_count(id, out)
}

/// The line of the instance in which the constraint with an id is written, if it is known.
pub(crate) fn line_of(lines: &[u64], id: u64) -> Option<u64>
    ensures { result ≡ slice_get lines.now (id - 1) }
{
    lines.get(id.saturating_sub(1) as usize).copied()
}

/// Writes the line of the instance in which a constraint is written, if it is known.
fn write_origin<S: Sink>(line: Option<u64>, out: &mut S) -> Result<(), Failed>
    ensures { Writes S.contents S.faults out.old (origin_bytes line) result out.new }
{
    match line {
        Some(line) => write_instance_line(line, out),
        None => Ok(()),
    }
}

/// Writes a line of the instance, in parentheses.
fn write_instance_line<S: Sink>(line: u64, out: &mut S) -> Result<(), Failed>
    ensures { Writes S.contents S.faults out.old
        (codes " (instance line " ++ (decimal line ++ codes ")")) result out.new }
{
    write_bytes(b" (instance line ", out)?;
    write_count(line, out)?;
    write_bytes(b")", out)
}

/// Writes a form as `tidy --normal` does: `+2 x1 +1 ~x2 >= 2 ;`.
pub(crate) fn write_form<S: Sink, N: Named>(
    form: &Normal,
    names: &N,
    out: &mut S,
) -> Result<(), Failed>
    ensures text { Writes S.contents S.faults out.old
        (form_bytes (N.names names.now) form.now) result out.new }
    ensures same { HasAllNames (N.names names.now) form.now →
        IsLinearText (N.names names.now) form.now }
{
    write_entries(form.terms(), names, out)?;
    write_end(form.degree(), out)
}

/// Writes the end of a form: `>=`, the degree and ` ;`. That of a clause has degree 1, and is
/// written whole.
fn write_end<S: Sink>(degree: i128, out: &mut S) -> Result<(), Failed>
    ensures { Writes S.contents S.faults out.old (end_bytes degree) result out.new }
{
    if degree == 1 {
        return write_bytes(b">= 1 ;", out);
    }
    write_degree(degree, out)
}

fn write_degree<S: Sink>(degree: i128, out: &mut S) -> Result<(), Failed>
    ensures { Writes S.contents S.faults out.old (end_bytes degree) result out.new }
{
    write_bytes(b">= ", out)?;
    write_number(degree, out)?;
    write_bytes(b" ;", out)
}

/// Writes terms, each with a space after it.
fn write_entries<S: Sink, N: Named>(entries: &Terms, names: &N, out: &mut S) -> Result<(), Failed>
    requires { total each entries.now < 2 ^ 127 }
    ensures { Writes S.contents S.faults out.old
        (head_bytes (map (term_shown (N.names names.now)) entries.now)) result out.new }
{
    'entries: for i in 0..entries.len() {
        let entry = entries.get(i);
        write_entry(&entry, names, out)?;
    }
    Ok(())
}

fn write_entry<S: Sink, N: Named>(entry: &Entry, names: &N, out: &mut S) -> Result<(), Failed>
    requires { entry.now.coefficient < 2 ^ 127 }
    ensures { Writes S.contents S.faults out.old
        (term_bytes (term_shown (N.names names.now) entry.now) ++ codes " ") result out.new }
{
    write_coefficient(entry.coefficient, out)?;
    write_numbered(entry.variable, entry.negated, names, out)?;
    write_bytes(b" ", out)
}

/// Writes a coefficient after `+`, and a space. That of each literal of a clause is 1, so this one
/// is written whole.
fn write_coefficient<S: Sink>(coefficient: u128, out: &mut S) -> Result<(), Failed>
    requires { coefficient < 2 ^ 127 }
    ensures { Writes S.contents S.faults out.old
        (coefficient_bytes (pos coefficient)) result out.new }
{
    if coefficient == 1 {
        return write_bytes(b"+1 ", out);
    }
    write_signed(coefficient as i128, out)
}

/// Writes a number between `+` and a space.
fn write_signed<S: Sink>(number: i128, out: &mut S) -> Result<(), Failed>
    ensures { Writes S.contents S.faults out.old (coefficient_bytes number) result out.new }
{
    write_bytes(b"+", out)?;
    write_number(number, out)?;
    write_bytes(b" ", out)
}

/// Writes a literal by the number of its name.
pub(crate) fn write_numbered<S: Sink, N: Named>(
    variable: usize,
    negated: bool,
    names: &N,
    out: &mut S,
) -> Result<(), Failed>
    ensures { Writes S.contents S.faults out.old
        (literal_bytes negated (name_shown (N.names names.now) variable)) result out.new }
{
    if negated {
        write_bytes(b"~", out)?;
        return write_name(variable, names, out);
    }
    write_name(variable, names, out)
}

/// Writes the name with a number, or `?` if there is none.
fn write_name<S: Sink, N: Named>(variable: usize, names: &N, out: &mut S) -> Result<(), Failed>
    ensures { Writes S.contents S.faults out.old
        (name_shown (N.names names.now) variable) result out.new }
{
    match names.text_of(variable) {
        Some(name) => write_bytes(name.as_bytes(), out),
        None => write_bytes(b"?", out),
    }
}

/// Writes a number, and then an operator.
fn write_factor<S: Sink>(factor: i128, operator: &[u8], out: &mut S) -> Result<(), Failed>
    ensures { Writes S.contents S.faults out.old
        (signed_decimal factor ++ operator.now) result out.new }
{
    write_number(factor, out)?;
    write_bytes(operator, out)
}

/// Writes a name, and then ` w`.
fn write_weakened<S: Sink>(name: &[u8], out: &mut S) -> Result<(), Failed>
    ensures { Writes S.contents S.faults out.old (name.now ++ codes " w") result out.new }
{
    write_bytes(name, out)?;
    write_bytes(b" w", out)
}

/// Writes a word of `pol`.
pub(crate) fn write_word<S: Sink>(word: &PolWord, out: &mut S) -> Result<(), Failed>
    ensures { Writes S.contents S.faults out.old (word_bytes word.now) result out.new }
{
    match word {
        PolWord::Id(id) => write_number(*id as i128, out),
        PolWord::Axiom(literal) => write_literal(literal, out),
        PolWord::Add => write_bytes(b"+", out),
        PolWord::Multiply(factor) => write_factor(*factor, b" *", out),
        PolWord::Divide(divisor) => write_factor(*divisor, b" d", out),
        PolWord::Saturate => write_bytes(b"s", out),
        PolWord::Weaken(name) => write_weakened(name.as_str().as_bytes(), out),
    }
}
