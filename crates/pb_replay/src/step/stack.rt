//! The forms of `pol` that a word may take.

ghost use Rattle.std.specs.Prelude.{◌≡◌, ◌<◌, ◌++◌, ◌∷◌, [], length, OnOk, IfOk};
ghost use Rattle.pb_replay.specs.engine.StackForms.{piled_forms};

use pb_normal::Sum;
use std::alloc::{AllocError, Global};
use std::marker::Model;
use std::mem;

/// The forms on a stack. Up to two need no list.
#[derive(Drop)]
pub(crate) enum Piled<'a> {
    Empty,
    One(Sum<'a>),
    Two(Sum<'a>, Sum<'a>),
    Many(Vec<Sum<'a>>),
}

/// A stack of forms, the last one on top.
#[derive(Drop)]
pub(crate) struct Stack<'a> {
    forms: Piled<'a>,
}

impl<'a> Model for Stack<'a> {
    ghost use Rattle.std.specs.Prelude.{List};
    ghost use Rattle.pb_normal.specs.meaning.Form.{Form};
    ghost use Rattle.pb_replay.specs.engine.StackForms.{piled_forms};

    ghost Value = { List Form };

    ghost view = { λ s. piled_forms s.forms };
}

// A list of three forms.
fn three<'a>(
    alloc: Global,
    first: Sum<'a>,
    second: Sum<'a>,
    third: Sum<'a>,
) -> Result<Vec<Sum<'a>>, AllocError>
    ensures { IfOk result (λ forms.
        forms.items ≡ first.entry ∷ second.entry ∷ third.entry ∷ []) }
{
    let mut forms = Vec::new(alloc);
    forms.push(first)?;
    forms.push(second)?;
    forms.push(third)?;
    Ok(forms)
}

// A list with one form more.
fn longer<'a>(mut forms: Vec<Sum<'a>>, form: Sum<'a>) -> Result<Vec<Sum<'a>>, AllocError>
    ensures { IfOk result (λ longer. longer.items ≡ forms.entry.items ++ form.entry ∷ []) }
{
    forms.push(form)?;
    Ok(forms)
}

// The forms, and one more on top.
fn pushed<'a>(alloc: Global, forms: Piled<'a>, form: Sum<'a>) -> Result<Piled<'a>, AllocError>
    ensures { IfOk result (λ r. piled_forms r ≡ piled_forms forms.entry ++ form.entry ∷ []) }
{
    match forms {
        Piled::Empty => Ok(Piled::One(form)),
        Piled::One(first) => Ok(Piled::Two(first, form)),
        Piled::Two(first, second) => Ok(Piled::Many(three(alloc, first, second, form)?)),
        Piled::Many(forms) => Ok(Piled::Many(longer(forms, form)?)),
    }
}

// The forms without the one on top, and that one.
fn popped<'a>(forms: Piled<'a>) -> (Piled<'a>, Sum<'a>)
    requires { 0 < length (piled_forms forms) }
    ensures { piled_forms forms.entry ≡ piled_forms result.0 ++ result.1 ∷ [] }
{
    match forms {
        Piled::Empty => unreachable!(),
        Piled::One(form) => (Piled::Empty, form),
        Piled::Two(below, form) => (Piled::One(below), form),
        Piled::Many(forms) => shorter(forms),
    }
}

// A list without its last form, and that one.
fn shorter<'a>(mut forms: Vec<Sum<'a>>) -> (Piled<'a>, Sum<'a>)
    requires { 0 < length forms.items }
    ensures { forms.entry.items ≡ piled_forms result.0 ++ result.1 ∷ [] }
{
    match forms.pop() {
        Some(form) => (Piled::Many(forms), form),
        None => unreachable!(),
    }
}

impl<'a> Stack<'a> {
    /// No form.
    pub(crate) fn new() -> Stack<'a>
        ensures { result ≡ [] }
    {
        Stack {
            forms: Piled::Empty,
        }
    }

    /// Puts a form on top.
    pub(crate) fn push(&mut self, alloc: Global, form: Sum<'a>) -> Result<(), AllocError>
        ensures { OnOk result (self.new ≡ self.old ++ form.entry ∷ []) }
    {
        let forms = mem::replace(&mut self.forms, Piled::Empty);
        self.forms = pushed(alloc, forms, form)?;
        Ok(())
    }

    /// Takes the form on top.
    pub(crate) fn pop(&mut self) -> Sum<'a>
        requires { 0 < length self.old }
        ensures { self.old ≡ self.new ++ result ∷ [] }
    {
        let forms = mem::replace(&mut self.forms, Piled::Empty);
        let (below, form) = popped(forms);
        self.forms = below;
        form
    }
}
