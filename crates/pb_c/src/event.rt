//! A statement that a reader gives, for programs in C.

ghost use Rattle.std.specs.Prelude.{◌≡◌};
ghost use Rattle.pb_c.specs.Event.{event_code, event_of, no_event};

use pb_pieces::{Event, EventKind};

/// What a statement is, where it is, how many tokens it has, and the length of its free text.
#[repr(C)]
#[derive(Clone, Copy)]
pub struct Statement {
    /// The line of its first byte, from 1.
    pub line: u64,
    /// The column of its first byte, in bytes and from 1.
    pub column: u64,
    /// The offset of its first byte, in bytes and from 0.
    pub offset: u64,
    /// The offset past its last byte.
    pub past: u64,
    /// The number of its tokens.
    pub tokens: usize,
    /// The bytes of its free text.
    pub bytes: usize,
    /// The number of its kind, or 0 if there is no statement.
    pub kind: u32,
}

impl Statement {
    /// No statement.
    pub(crate) fn none() -> Statement
        ensures { result ≡ no_event }
    {
        Statement {
            line: 0,
            column: 0,
            offset: 0,
            past: 0,
            tokens: 0,
            bytes: 0,
            kind: 0,
        }
    }

    /// A statement with these numbers of tokens and of bytes of free text.
    pub(crate) fn of(event: Event, tokens: usize, bytes: usize) -> Statement
        ensures { result ≡ event_of event tokens bytes }
    {
        Statement {
            line: event.first.line,
            column: event.first.column,
            offset: event.first.offset,
            past: event.past.offset,
            tokens,
            bytes,
            kind: event_code(event.kind),
        }
    }
}

/// The number of a kind of statement: those of instances from 1, those of proofs from 16.
fn event_code(kind: EventKind) -> u32
    ensures { result ≡ event_code kind }
{
    match kind {
        EventKind::Header => 1,
        EventKind::Comment => 2,
        EventKind::Objective => 3,
        EventKind::Constraint => 4,
        EventKind::Proof => 16,
        EventKind::F => 17,
        EventKind::Pol => 18,
        EventKind::Rup => 19,
        EventKind::Soli => 20,
        EventKind::Solx => 21,
        EventKind::Delete => 22,
        EventKind::Output => 23,
        EventKind::NoClaim => 24,
        EventKind::Unsat => 25,
        EventKind::Sat => 26,
        EventKind::Bounds => 27,
        EventKind::End => 28,
    }
}
