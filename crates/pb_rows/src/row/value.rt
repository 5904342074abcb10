//! Values that a row gives part by part, also values that have no text in the formats.

use crate::broken::Broken;
use pb_opb::{Comment, Instance};
use pb_proof::{Bound, Conclusion, PolWord, Proof, Statement};
use pb_sums::{Linear, Literal, Name, Relation, Term};
use pb_text::{Bytes, Sequence};
use std::alloc::Global;
use std::str::FromStr;

/// The instance of lines `variables N`, `tail BYTES`, `objective`, `comment BEFORE BYTES` and
/// `constraint COEFFICIENT DEGREE` on the name `x1`. Bytes are given by their hexadecimal digits.
pub(crate) fn instance_of(alloc: Global, lines: &str) -> Result<Instance, Broken> {
    let mut instance = Instance {
        variables: 0,
        tail: Bytes::from_vec(Vec::new(alloc)),
        objective: None,
        comments: Sequence::new(alloc),
        constraints: Sequence::new(alloc),
    };
    for line in lines.lines() {
        add_part(alloc, &mut instance, line)?;
    }
    Ok(instance)
}

fn add_part(alloc: Global, instance: &mut Instance, line: &str) -> Result<(), Broken> {
    let (key, value) = parted(line);
    match key {
        "variables" => instance.variables = number(value)?,
        "tail" => instance.tail = bytes_of(alloc, value)?,
        "objective" => instance.objective = Some(Sequence::new(alloc)),
        "comment" => add_comment(alloc, instance, value)?,
        "constraint" => add_constraint(alloc, instance, value)?,
        _ => return Err(Broken::Value),
    }
    Ok(())
}

fn add_comment(alloc: Global, instance: &mut Instance, value: &str) -> Result<(), Broken> {
    let (before, text) = parted(value);
    let before = number(before)?;
    let text = bytes_of(alloc, text)?;
    instance.comments.push(Comment { before, text })?;
    Ok(())
}

fn add_constraint(alloc: Global, instance: &mut Instance, value: &str) -> Result<(), Broken> {
    let (coefficient, degree) = parted(value);
    let term = Term {
        coefficient: number(coefficient)?,
        literal: literal_of(alloc, "x1")?,
    };
    let mut terms = Sequence::new(alloc);
    terms.push(term)?;
    instance.constraints.push(Linear {
        terms,
        relation: Relation::AtLeast,
        degree: number(degree)?,
    })?;
    Ok(())
}

/// The proof of lines: `f`, steps and other statements, and a conclusion.
pub(crate) fn proof_of(alloc: Global, lines: &str) -> Result<Proof, Broken> {
    let mut proof = Proof {
        count: None,
        steps: Sequence::new(alloc),
        conclusion: Conclusion::NoClaim,
    };
    for line in lines.lines() {
        match statement_of(alloc, line)? {
            Statement::F(count) => proof.count = count,
            Statement::Conclude(conclusion) => proof.conclusion = conclusion,
            step => proof.steps.push(step)?,
        }
    }
    Ok(proof)
}

/// The statement of a line, as in a proof, with these differences:
/// - any words, ids and names are allowed anywhere;
/// - a factor is written `*3` or `d3`, and a weakening `w:x1`;
/// - a `rup` has an empty sum;
/// - conclusions are `unsat`, `sat` and `bounds LOWER ID UPPER`, with `-` for no id.
pub(crate) fn statement_of(alloc: Global, line: &str) -> Result<Statement, Broken> {
    let (key, value) = parted(line);
    match key {
        "header" => Ok(Statement::Header),
        "f" => Ok(Statement::F(count_of(value)?)),
        "pol" => Ok(Statement::Pol(words_of(alloc, value)?)),
        "rup" => Ok(Statement::Rup(goal_of(alloc, value)?)),
        "soli" => Ok(Statement::Soli(literals_of(alloc, value)?)),
        "solx" => Ok(Statement::Solx(literals_of(alloc, value)?)),
        "del" => Ok(Statement::Delete(ids_of(alloc, value)?)),
        "output" => Ok(Statement::Output),
        "end" => Ok(Statement::End),
        _ => Ok(Statement::Conclude(conclusion_of(alloc, key, value)?)),
    }
}

fn conclusion_of(alloc: Global, key: &str, value: &str) -> Result<Conclusion, Broken> {
    match key {
        "none" => Ok(Conclusion::NoClaim),
        "unsat" => Ok(Conclusion::Unsat(id_of(value)?)),
        "sat" => Ok(Conclusion::Sat(Some(literals_of(alloc, value)?))),
        "bounds" => bounds_of(value),
        _ => Err(Broken::Value),
    }
}

fn bounds_of(value: &str) -> Result<Conclusion, Broken> {
    let (lower, rest) = parted(value);
    let (id, upper) = parted(rest);
    Ok(Conclusion::Bounds {
        lower: bound_of(lower)?,
        id: id_of(id)?,
        upper: bound_of(upper)?,
        shown: None,
    })
}

fn bound_of(word: &str) -> Result<Bound, Broken> {
    match word {
        "INF" => Ok(Bound::Infinite),
        _ => Ok(Bound::Finite(number(word)?)),
    }
}

fn id_of(word: &str) -> Result<Option<i64>, Broken> {
    match word {
        "" | "-" => Ok(None),
        _ => Ok(Some(number(word)?)),
    }
}

fn count_of(word: &str) -> Result<Option<u64>, Broken> {
    match word {
        "" => Ok(None),
        _ => Ok(Some(number(word)?)),
    }
}

/// An empty sum, as `>= 1` or `= 1`.
fn goal_of(alloc: Global, value: &str) -> Result<Linear, Broken> {
    let (text, degree) = parted(value);
    let relation = match text {
        ">=" => Relation::AtLeast,
        "=" => Relation::Equal,
        _ => return Err(Broken::Value),
    };
    Ok(Linear {
        terms: Sequence::new(alloc),
        relation,
        degree: number(degree)?,
    })
}

fn words_of(alloc: Global, value: &str) -> Result<Sequence<PolWord>, Broken> {
    let mut words = Sequence::new(alloc);
    for word in value.split_whitespace() {
        words.push(word_of(alloc, word)?)?;
    }
    Ok(words)
}

fn word_of(alloc: Global, word: &str) -> Result<PolWord, Broken> {
    if let Some(factor) = word.strip_prefix('*') {
        return Ok(PolWord::Multiply(number(factor)?));
    }
    if let Some(divisor) = word.strip_prefix('d') {
        return Ok(PolWord::Divide(number(divisor)?));
    }
    if let Some(name) = word.strip_prefix("w:") {
        return Ok(PolWord::Weaken(name_of(alloc, name)?));
    }
    match (word, word.parse::<i64>()) {
        ("+", _) => Ok(PolWord::Add),
        ("s", _) => Ok(PolWord::Saturate),
        (_, Ok(id)) => Ok(PolWord::Id(id)),
        _ => Ok(PolWord::Axiom(literal_of(alloc, word)?)),
    }
}

fn ids_of(alloc: Global, value: &str) -> Result<Sequence<i64>, Broken> {
    let mut ids = Sequence::new(alloc);
    for word in value.split_whitespace() {
        ids.push(number(word)?)?;
    }
    Ok(ids)
}

fn literals_of(alloc: Global, value: &str) -> Result<Sequence<Literal>, Broken> {
    let mut literals = Sequence::new(alloc);
    for word in value.split_whitespace() {
        literals.push(literal_of(alloc, word)?)?;
    }
    Ok(literals)
}

fn literal_of(alloc: Global, word: &str) -> Result<Literal, Broken> {
    let (negated, name) = match word.strip_prefix('~') {
        Some(name) => (true, name),
        None => (false, word),
    };
    Ok(Literal {
        name: name_of(alloc, name)?,
        negated,
    })
}

fn name_of(alloc: Global, text: &str) -> Result<Name, Broken> {
    Ok(Name::from_string(String::from_str(alloc, text)?))
}

fn bytes_of(alloc: Global, digits: &str) -> Result<Bytes, Broken> {
    let mut bytes = Vec::new(alloc);
    let mut rest = digits;
    for _ in 0..digits.len() {
        let Some((code, after)) = rest.split_at_checked(2) else {
            break;
        };
        match u8::from_str_radix(code, 16) {
            Ok(byte) => bytes.push(byte)?,
            Err(_) => return Err(Broken::Value),
        }
        rest = after;
    }
    Ok(Bytes::from_vec(bytes))
}

/// A word, and the text after the blank that follows it.
fn parted(line: &str) -> (&str, &str) {
    line.split_once(' ').unwrap_or((line, ""))
}

fn number<T: FromStr>(word: &str) -> Result<T, Broken>
where
    T::Err: Drop,
{
    match word.parse::<T>() {
        Ok(number) => Ok(number),
        Err(_) => Err(Broken::Value),
    }
}
