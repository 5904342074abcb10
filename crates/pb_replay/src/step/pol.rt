//! The words of `pol` on a stack of forms.

ghost use Rattle.std.specs.Prelude.{◌≡◌, ℤ, ◌<◌, ◌≤◌, ◌+◌, ◌-◌, ◌∷◌, ◌++◌, ◌⊎◌, [], pos, ◌≤ℤ◌, All, length, reverse, unsigned_abs, OnOk, OnErr, IfOk, IfErr, Ok, Err};
ghost use Rattle.pb_text.specs.meaning.Limits.{largest, top_of};
ghost use Rattle.pb_proof.specs.meaning.Postfix.{IsPostfix, words as words_of};
ghost use Rattle.pb_proof.specs.contract.Values.{IsStatementValue, IsWord};
ghost use Rattle.pb_normal.specs.meaning.Names.{HasNames, with_names};
ghost use Rattle.pb_normal.specs.meaning.Rules.{IsSum, divided, multiplied, saturated, weakened};
ghost use Rattle.pb_replay.specs.meaning.Answer.{some};
ghost use Rattle.pb_replay.specs.meaning.Meaning.{IsNamePrefix};
ghost use Rattle.pb_replay.specs.meaning.Replay.{FormOfExpression, limited};
ghost use Rattle.pb_replay.specs.contract.ReplayModel.{Goes, IsReady, Preserves};
ghost use Rattle.pb_replay.specs.engine.Stack.{Word};
ghost use Rattle.pb_proof.specs.contract.Leaving.{takes};
ghost use Rattle.pb_replay.specs.meaning.Statements.{word_names};

use crate::fault::Fault;
use crate::state::Running;
use crate::state::constraints::Constraints;
use crate::state::find::{find, number_of};
use crate::state::live::{add, widen};
use crate::step::stack::Stack;
use pb_normal::{Memory, Names, Normal, Sum};
use pb_proof::{PolWord, Statement};
use pb_text::{Limits, Sequence};
use std::alloc::AllocError;

/// The sum of two forms.
fn sum_of<'a>(
    memory: &mut Memory,
    left: Sum<'a>,
    right: Sum<'a>,
    limits: Limits,
) -> Result<Sum<'a>, Fault>
    ensures ok { IfOk result (λ r. some (IsSum left.entry right.entry) (limited (largest limits))
        (Ok r)) }
    ensures err { IfErr result (λ e. (e ≡ Fault.Memory) ⊎
        some (IsSum left.entry right.entry) (limited (largest limits)) (Err e)) }
{
    match left.add(memory, right, limits) {
        Ok(sum) => Ok(sum),
        Err(fault) => Err(Fault::from(fault)),
    }
}

/// A form times a factor.
fn product_of<'a>(
    memory: &mut Memory,
    form: Sum<'a>,
    factor: i128,
    limits: Limits,
) -> Result<Sum<'a>, Fault>
    requires { pos 1 ≤ℤ factor }
    ensures ok { IfOk result (λ r.
        limited (largest limits) (multiplied (unsigned_abs factor) form.entry) (Ok r)) }
    ensures err { IfErr result (λ e. (e ≡ Fault.Memory) ⊎
        limited (largest limits) (multiplied (unsigned_abs factor) form.entry) (Err e)) }
{
    match form.multiply(memory, factor, limits) {
        Ok(product) => Ok(product),
        Err(fault) => Err(Fault::from(fault)),
    }
}

/// A form divided by a divisor.
fn quotient_of<'a>(memory: &mut Memory, form: Sum<'a>, divisor: i128) -> Result<Sum<'a>, Fault>
    requires { pos 1 ≤ℤ divisor }
    ensures ok { IfOk result (λ r. r ≡ divided (unsigned_abs divisor) form.entry) }
    ensures err { IfErr result (λ e. e ≡ Fault.Memory) }
{
    let quotient = form.divide(memory, divisor)?;
    Ok(quotient)
}

/// A form saturated.
fn saturation_of<'a>(memory: &mut Memory, form: Sum<'a>) -> Result<Sum<'a>, Fault>
    ensures ok { IfOk result (λ r. r ≡ saturated form.entry) }
    ensures err { IfErr result (λ e. e ≡ Fault.Memory) }
{
    let saturation = form.saturate(memory)?;
    Ok(saturation)
}

/// A form weakened on a variable.
fn weakening_of<'a>(memory: &mut Memory, form: Sum<'a>, variable: usize) -> Result<Sum<'a>, Fault>
    ensures ok { IfOk result (λ r. r ≡ weakened variable form.entry) }
    ensures err { IfErr result (λ e. e ≡ Fault.Memory) }
{
    let weakening = form.weaken(memory, variable)?;
    Ok(weakening)
}

/// The form that a word pushes on the stack, in place of the forms that it takes.
fn form_of_word<'a>(
    memory: &mut Memory,
    names: &Names,
    constraints: &'a Constraints,
    word: &PolWord,
    stack: &mut Stack<'a>,
    limits: Limits,
) -> Result<Sum<'a>, Fault>
    requires takes { takes word.now ≤ length stack.old }
    requires named { HasNames names.now (word_names (word.now ∷ [])) }
    requires value { IsWord (largest limits) (top_of limits) word.now }
    ensures ok { IfOk result (λ r. Word (largest limits) names.now constraints.now.forms word.now
        (reverse stack.old) (Ok (r ∷ reverse stack.new))) }
    ensures count { OnOk result (length stack.new + takes word.now ≡ length stack.old) }
    ensures err { IfErr result (λ e. (e ≡ Fault.Memory) ⊎
        Word (largest limits) names.now constraints.now.forms word.now (reverse stack.old)
        (Err e)) }
{
    match word {
        PolWord::Id(id) => match find(constraints, *id) {
            Some(form) => Ok(Sum::held(form)),
            None => Err(Fault::NoSuchId(*id)),
        },
        PolWord::Axiom(literal) => {
            let variable = number_of(names, literal.name.as_str());
            let axiom = Normal::axiom(memory.allocator(), variable, literal.negated)?;
            Ok(Sum::made(axiom))
        }
        PolWord::Add => {
            let right = stack.pop();
            let left = stack.pop();
            sum_of(memory, left, right, limits)
        }
        PolWord::Multiply(factor) => {
            let form = stack.pop();
            product_of(memory, form, *factor, limits)
        }
        PolWord::Divide(divisor) => {
            let form = stack.pop();
            quotient_of(memory, form, *divisor)
        }
        PolWord::Saturate => {
            let form = stack.pop();
            saturation_of(memory, form)
        }
        PolWord::Weaken(name) => {
            let form = stack.pop();
            weakening_of(memory, form, number_of(names, name.as_str()))
        }
    }
}

/// Numbers the name of a word, if it has one.
fn number_word(names: &mut Names, word: &PolWord) -> Result<(), AllocError>
    ensures names { OnOk result (names.new ≡ with_names names.old (word_names (word.now ∷ []))) }
    ensures err { OnErr result (names.new ≡ names.old) }
{
    let name = match word {
        PolWord::Axiom(literal) => &literal.name,
        PolWord::Weaken(name) => name,
        _ => return Ok(()),
    };
    let _ = names.number(name.as_str())?;
    Ok(())
}

/// Numbers the names of the words in order.
fn number_words(names: &mut Names, words: &[PolWord]) -> Result<(), AllocError>
    ensures names { OnOk result (names.new ≡ with_names names.old (word_names words.now)) }
    ensures prefix { IsNamePrefix names.old names.new }
{
    for word in words {
        number_word(names, word)?;
    }
    Ok(())
}

/// The form of the expression of these words, or its fault.
fn form_of_words(
    memory: &mut Memory,
    names: &Names,
    constraints: &Constraints,
    words: &[PolWord],
    limits: Limits,
) -> Result<Normal, Fault>
    requires postfix { IsPostfix words.now }
    requires values { All (IsWord (largest limits) (top_of limits)) words.now }
    requires named { HasNames names.now (word_names words.now) }
    ensures ok { IfOk result (λ r. some (λ tree. words.now ≡ words_of tree)
        (FormOfExpression (largest limits) names.now constraints.now.forms) (Ok r)) }
    ensures err { IfErr result (λ e. (e ≡ Fault.Memory) ⊎
        some (λ tree. words.now ≡ words_of tree)
        (FormOfExpression (largest limits) names.now constraints.now.forms) (Err e)) }
{
    let mut stack = Stack::new();
    for word in words {
        let form = form_of_word(memory, names, constraints, word, &mut stack, limits)?;
        stack.push(memory.allocator(), form)?;
    }
    let form = stack.pop().into_normal(memory)?;
    Ok(form)
}

/// `pol`: the form of an expression is added.
pub(crate) fn pol(running: &mut Running, words: &Sequence<PolWord>) -> Result<(), Fault>
    requires value { IsStatementValue (largest running.old.limits) (top_of running.old.limits)
        (Statement.Pol words.now) }
    requires ready { IsReady running.old }
    ensures goes { Goes running.old (Statement.Pol words.now) result running.new }
    ensures preserves { Preserves running.old result running.new }
{
    let before = running.names.len();
    if let Err(_) = number_words(&mut running.names, words.as_slice()) {
        return Err(Fault::Memory);
    }
    widen(&mut running.constraints, before, running.names.len())?;
    let form = form_of_words(
        &mut running.memory,
        &running.names,
        &running.constraints,
        words.as_slice(),
        running.limits,
    )?;
    running.memory.trim();
    add(running, form)
}
