//! Rules of proofs that are not read.

use crate::hints::Hint;
use std::str;

const REWRITTEN: &str = "pb-pbp2profile (in a clone contrib/pbp2profile) rewrites it";

const IF_PROPAGATED: &str =
    "pb-pbp2profile (in a clone contrib/pbp2profile) rewrites it if unit propagation shows it";

const OUTSIDE: &str = "no script rewrites it";

const DROPPED: &str =
    "the hints of rup are not read; pb-pbp2profile (in a clone contrib/pbp2profile) drops them";

/// The hint for a line of a proof that begins with these bytes, and that was rejected after the
/// bytes `before`.
pub(crate) fn rule_hint(line: &[u8], before: &[u8]) -> Option<Hint> {
    let text = str::from_utf8(line).ok()?;
    let mut words = text.lines().next()?.split_whitespace();
    let word = words.next()?;
    if word == "rup" && before.trim_ascii_end().ends_with(b";") {
        return Some(Hint::Foreign(DROPPED));
    }
    if let Some(rule) = rewritten(word, words.next()) {
        return Some(Hint::Rule(rule, REWRITTEN));
    }
    if word == "red" {
        return Some(Hint::Rule("red", IF_PROPAGATED));
    }
    let rule = outside(word)?;
    Some(Hint::Rule(rule, OUTSIDE))
}

/// The rule that a line begins with, if the script rewrites it.
fn rewritten(word: &str, second: Option<&str>) -> Option<&'static str> {
    match (word, second) {
        ("del", Some("spec")) => Some("del spec"),
        ("del", Some("range")) => Some("del range"),
        ("output", Some(kind)) if kind != "NONE" => Some("output"),
        ("e", _) => Some("e"),
        ("ea", _) => Some("ea"),
        ("i", _) => Some("i"),
        ("ia", _) => Some("ia"),
        ("j", _) => Some("j"),
        ("sol", _) => Some("sol"),
        ("core", _) => Some("core"),
        ("p", _) => Some("p"),
        ("u", _) => Some("u"),
        ("d", _) => Some("d"),
        ("v", _) => Some("v"),
        ("o", _) => Some("o"),
        ("c", _) => Some("c"),
        ("w", _) => Some("w"),
        ("#", _) => Some("#"),
        _ => None,
    }
}

/// The rule that a line begins with, if neither this program nor the script reads it.
fn outside(word: &str) -> Option<&'static str> {
    match word {
        "dom" => Some("dom"),
        "obju" => Some("obju"),
        "pre_order" => Some("pre_order"),
        "def_order" => Some("def_order"),
        "load_order" => Some("load_order"),
        _ => None,
    }
}
