//! Statements that can be given as tokens.

ghost use Rattle.std.specs.Prelude.{◌≡◌, ◌++◌, List, ℕ, OnOk};
ghost use Rattle.pb_pieces.specs.Tokens.{Token};

use crate::token_sink::TokenSink;
use std::alloc::AllocError;

/// The kinds of statements, of instances first and then of proofs.
#[derive(Clone, Copy, Debug, PartialEq, Eq)]
pub enum EventKind {
    /// The first line of an instance. Its tokens are two counts, and its text is what follows them.
    Header,
    /// A comment of an instance. It has only text.
    Comment,
    /// The objective: terms.
    Objective,
    /// A constraint: terms and the relation.
    Constraint,
    /// The first line of a proof.
    Proof,
    /// `f`: a count, or nothing.
    F,
    /// `pol`: its words.
    Pol,
    /// `rup`: terms and the relation.
    Rup,
    /// `soli`: literals.
    Soli,
    /// `solx`: literals.
    Solx,
    /// `del id`: ids.
    Delete,
    /// `output NONE`.
    Output,
    /// `conclusion NONE`.
    NoClaim,
    /// `conclusion UNSAT`: an id, or nothing.
    Unsat,
    /// `conclusion SAT`: a solution, or nothing.
    Sat,
    /// `conclusion BOUNDS`: the lower bound, maybe an id, the upper bound, maybe a solution.
    Bounds,
    /// The last line of a proof.
    End,
}

/// A statement with a kind, tokens and a free text.
pub trait Tokenized {
    ghost use Rattle.pb_pieces.specs.declared.tokenized.EventKind.{EventKind};

    /// What it is.
    ghost sort: { Self → EventKind };

    /// Its tokens, in the order in which they are written.
    ghost tokens: { Self → List Token };

    /// The bytes that follow the counts of a header, or the text of a comment. Other statements
    /// have none.
    ghost text: { Self → List ℕ };

    /// What it is.
    fn kind(&self) -> EventKind
        ensures { result ≡ sort self.now };

    /// Puts its tokens.
    fn put_tokens<T: TokenSink>(&self, into: &mut T) -> Result<(), AllocError>
        ensures { (start : T) (before : List Token) → T.took start before into.old
            → OnOk result (T.took start (before ++ tokens self.now) into.new) };

    /// Its free text.
    fn free_text(&self) -> &[u8]
        ensures { result.now ≡ text self.now };
}
