//! Rows of normal forms.

use crate::broken::Broken;
use crate::page::{Done, Page, finished, page, report_count, report_either};
use crate::row::call::Call;
use pb_normal::{Names, Normal, NormalFault, Side};
use pb_opb::{Instance, read_instance};
use pb_sums::write_number;
use pb_text::{Failed, Limits, Over, Sink, write_bytes};
use std::alloc::{AllocError, Global};

/// Why a form was not made.
#[derive(Clone, Copy)]
enum NoForm {
    /// A number exceeds the limit.
    Overflow,
    /// The row cannot be run.
    Broken(Broken),
}

impl From<NormalFault> for NoForm {
    fn from(fault: NormalFault) -> NoForm {
        match fault {
            NormalFault::Overflow => NoForm::Overflow,
            NormalFault::Memory => NoForm::Broken(Broken::Memory),
        }
    }
}

impl From<AllocError> for NoForm {
    fn from(_error: AllocError) -> NoForm {
        NoForm::Broken(Broken::Memory)
    }
}

impl From<Failed> for NoForm {
    fn from(_error: Failed) -> NoForm {
        NoForm::Broken(Broken::Memory)
    }
}

impl From<Broken> for NoForm {
    fn from(broken: Broken) -> NoForm {
        NoForm::Broken(broken)
    }
}

/// What the rules of a row work on.
#[derive(Drop)]
struct Forms<'a> {
    alloc: Global,
    instance: &'a Instance,
    names: Names,
    limits: Limits,
}

/// Whether a word is a rule or a question of `forms`.
pub(crate) fn is_rule(word: &str) -> bool {
    let (rule, _) = parted(word);
    matches!(
        rule,
        "at-least"
            | "at-most"
            | "add"
            | "axiom"
            | "add-axiom"
            | "weaken"
            | "saturate"
            | "multiply"
            | "divide"
            | "negate"
            | "copy"
            | "holds"
            | "refutes"
            | "names"
    )
}

/// Runs the words of the call: a constraint of the instance, and rules that make one form from
/// another. Writes the last form, and reports the answers to questions in between.
pub(crate) fn run_forms(
    alloc: Global,
    call: &Call,
    line: &str,
    text: &[u8],
) -> Result<Done, Broken> {
    let limits = call.limits()?;
    let Ok(read) = read_instance(alloc, &mut Over::new(text), Limits::full()) else {
        return Err(Broken::Value);
    };
    let (mut out, mut reported) = (page(alloc), page(alloc));
    let mut forms = Forms {
        alloc,
        instance: &read.event,
        names: Names::new(alloc),
        limits,
    };
    forms.report_last(line, &mut out, &mut reported)?;
    Ok(finished(out, reported))
}

fn word_of(form: &Normal) -> &'static [u8] {
    if form.is_contradiction() {
        b"ok, a contradiction\n"
    } else {
        b"ok\n"
    }
}

/// A word before its `=`, and its value.
fn parted(word: &str) -> (&str, &str) {
    word.split_once('=').unwrap_or((word, ""))
}

impl Forms<'_> {
    /// Writes the form that the rules of a line make, or reports that it overflows.
    fn report_last(
        &mut self,
        line: &str,
        out: &mut Page,
        reported: &mut Page,
    ) -> Result<(), Broken> {
        match self.last(line, reported) {
            Ok(form) => {
                write_form(&form, &self.names, out)?;
                write_bytes(word_of(&form), reported)?;
            }
            Err(NoForm::Overflow) => {
                write_bytes(b"overflow\n", reported)?;
                report_count(self.names.len() as u64, b" names\n", reported)?;
            }
            Err(NoForm::Broken(broken)) => return Err(broken),
        }
        Ok(())
    }

    /// The form that the rules of a line make.
    fn last(&mut self, line: &str, reported: &mut Page) -> Result<Normal, NoForm> {
        let mut form = Normal::axiom(self.alloc, 0, false)?;
        for word in line.split_whitespace() {
            form = self.after_word(form, word, reported)?;
        }
        Ok(form)
    }

    /// The form after a word. The word may be a question about the form before it.
    fn after_word(
        &mut self,
        form: Normal,
        word: &str,
        reported: &mut Page,
    ) -> Result<Normal, NoForm> {
        let (rule, value) = parted(word);
        self.answer(&form, rule, value, reported)?;
        self.next(form, rule, value)
    }

    /// Reports the answer to a question about a form.
    fn answer(
        &mut self,
        form: &Normal,
        rule: &str,
        value: &str,
        reported: &mut Page,
    ) -> Result<(), NoForm> {
        match rule {
            "holds" => {
                let holds = holds_at(self.alloc, form, value)?;
                report_either(holds, b"holds\n", b"does not hold\n", reported)?;
            }
            "refutes" => {
                let other = self.side(value, Side::AtLeast)?;
                let refutes = form.refutes(&other);
                report_either(refutes, b"refutes\n", b"does not refute\n", reported)?;
            }
            "names" => report_count(self.names.len() as u64, b" names\n", reported)?,
            _ => {}
        }
        Ok(())
    }

    /// The form that a rule makes of this one, or the same form if the word is no rule.
    fn next(&mut self, form: Normal, rule: &str, value: &str) -> Result<Normal, NoForm> {
        match rule {
            "at-least" => self.side(value, Side::AtLeast),
            "at-most" => self.side(value, Side::AtMost),
            "add" => {
                let other = self.side(value, Side::AtLeast)?;
                Ok(form.add(&other, self.limits)?)
            }
            "axiom" => self.axiom(value),
            "add-axiom" => {
                let other = self.axiom(value)?;
                Ok(form.add(&other, self.limits)?)
            }
            "weaken" => Ok(form.weaken(self.names.number(value)?)?),
            _ => self.rounded(form, rule, value),
        }
    }

    /// The form that a rule without names makes of this one.
    fn rounded(&self, form: Normal, rule: &str, value: &str) -> Result<Normal, NoForm> {
        match rule {
            "saturate" => Ok(form.saturate()?),
            "multiply" => multiplied(&form, factor_of(value)?, self.limits),
            "divide" => divided(&form, factor_of(value)?),
            "negate" => negated(&form),
            "copy" => Ok(form.copy()?),
            _ => Ok(form),
        }
    }

    /// The form of a side of a constraint, counted from 1.
    fn side(&mut self, value: &str, side: Side) -> Result<Normal, NoForm> {
        let Ok(number) = value.parse::<usize>() else {
            return Err(NoForm::Broken(Broken::Word));
        };
        match self
            .instance
            .constraints
            .as_slice()
            .get(number.saturating_sub(1))
        {
            Some(linear) => {
                let limits = self.limits;
                Ok(Normal::from_linear(self.alloc, &mut self.names, linear, side, limits)?)
            }
            None => Err(NoForm::Broken(Broken::Word)),
        }
    }

    /// A literal with coefficient 1 and degree 0.
    fn axiom(&mut self, value: &str) -> Result<Normal, NoForm> {
        let (negated, name) = match value.strip_prefix('~') {
            Some(name) => (true, name),
            None => (false, value),
        };
        Ok(Normal::axiom(self.alloc, self.names.number(name)?, negated)?)
    }
}

/// Whether a form holds at values by number, each given as a letter `0` or `1`.
fn holds_at(alloc: Global, form: &Normal, value: &str) -> Result<bool, NoForm> {
    let values: Vec<bool> = value.bytes().map(|letter| letter == b'1').collect(alloc)?;
    let count = values.len();
    if form.entries().all(|entry| entry.variable < count) {
        Ok(form.holds(values.as_slice()))
    } else {
        Err(NoForm::Broken(Broken::Word))
    }
}

fn factor_of(value: &str) -> Result<i128, Broken> {
    match value.parse::<i128>() {
        Ok(factor) => Ok(factor),
        Err(_) => Err(Broken::Word),
    }
}

fn multiplied(form: &Normal, factor: i128, limits: Limits) -> Result<Normal, NoForm> {
    if factor < 1 {
        return Err(NoForm::Broken(Broken::Word));
    }
    Ok(form.multiply(factor, limits)?)
}

fn divided(form: &Normal, divisor: i128) -> Result<Normal, NoForm> {
    if divisor < 1 {
        return Err(NoForm::Broken(Broken::Word));
    }
    Ok(form.divide(divisor)?)
}

fn negated(form: &Normal) -> Result<Normal, NoForm> {
    if form.degree() < 1 {
        return Err(NoForm::Broken(Broken::Word));
    }
    Ok(form.negation()?)
}

/// Something that has a name for a number.
pub trait Named {
    fn text_of(&self, number: usize) -> Option<&str>;
}

impl Named for Names {
    fn text_of(&self, number: usize) -> Option<&str> {
        self.name_of(number)
    }
}

/// Writes a form as a line.
pub(crate) fn write_form<S: Sink, N: Named>(
    form: &Normal,
    names: &N,
    out: &mut S,
) -> Result<(), Failed> {
    for index in 0..form.len() {
        let (variable, negated, coefficient) = form.term(index);
        let name = names.text_of(variable).unwrap_or("?");
        write_bytes(b"+", out)?;
        write_number(coefficient, out)?;
        write_bytes(if negated { b" ~" } else { b" " }, out)?;
        write_bytes(name.as_bytes(), out)?;
        write_bytes(b" ", out)?;
    }
    write_bytes(b">= ", out)?;
    write_number(form.degree(), out)?;
    write_bytes(b" ;\n", out)
}
