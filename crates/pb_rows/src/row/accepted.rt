//! Which words a call accepts.

use crate::row::call::Verb;

/// Whether a call accepts a word with this key. A word of another call is an error, so that none is
/// silently ignored.
pub(crate) fn accepts(verb: Verb, key: &str) -> bool {
    match key {
        "same" => true,
        "opb" | "proof" | "lines" | "sum" | "linear" | "at-least" | "statement" => {
            has_grammar(verb)
        }
        "bits" | "top" => has_limits(verb),
        "longest" => has_longest(verb),
        "blanks" | "held" => is_feed(verb),
        "spans" => matches!(verb, Verb::Feed | Verb::Pull),
        "normal" => matches!(verb, Verb::Tidy),
        "once" => matches!(verb, Verb::Checker),
        "room" => matches!(verb, Verb::Count),
        "line" | "column" | "offset" => matches!(verb, Verb::Rest),
        "alone" | "visits-least" | "visits-most" => matches!(verb, Verb::Steps),
        _ => accepts_failure(verb, key),
    }
}

/// The same for the words of failing readers and writers.
fn accepts_failure(verb: Verb, key: &str) -> bool {
    match key {
        "reader-fails" => is_command(verb) || matches!(verb, Verb::Pull | Verb::Rest),
        "writer-fails" | "writer-most" => is_command(verb) || matches!(verb, Verb::Write),
        "reader-most" => is_command(verb) || matches!(verb, Verb::Pull),
        "each-read" | "each-write" => is_command(verb),
        "each-proof-read" | "proof-reader-fails" => matches!(verb, Verb::Check),
        _ => false,
    }
}

/// Whether it runs a command over readers and a writer.
fn is_command(verb: Verb) -> bool {
    matches!(
        verb,
        Verb::Show | Verb::Tidy | Verb::TidyNormal | Verb::Check
    )
}

fn is_feed(verb: Verb) -> bool {
    matches!(verb, Verb::Feed | Verb::Stop)
}

/// Whether a grammar is named.
fn has_grammar(verb: Verb) -> bool {
    is_feed(verb)
        || matches!(
            verb,
            Verb::Read | Verb::Pull | Verb::Prefixes | Verb::Zeros | Verb::Judge
        )
}

/// Whether it has limits.
fn has_limits(verb: Verb) -> bool {
    has_longest(verb) || matches!(verb, Verb::Judge | Verb::Forms | Verb::Limits)
}

/// Whether it has a limit on the bytes of a statement.
fn has_longest(verb: Verb) -> bool {
    is_command(verb)
        || is_feed(verb)
        || matches!(
            verb,
            Verb::Read
                | Verb::Pull
                | Verb::Prefixes
                | Verb::Zeros
                | Verb::Count
                | Verb::Checker
                | Verb::Steps
        )
}
