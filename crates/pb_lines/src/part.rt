//! What a machine for words has read last, and what it does with a byte.

use crate::word::{Capital, Sign, Word};

/// What has been read last.
#[derive(Clone, Copy, Drop)]
pub enum Part {
    /// Nothing.
    Start,
    /// Blanks, or a `:` and perhaps blanks.
    Gap,
    /// A mark that is no letter.
    Symbol,
    /// The sign of a number.
    Sign(Sign),
    /// Digits with this value.
    Number(Sign, u128),
    /// The `~` of a literal.
    Tilde,
    /// `~` and a letter.
    First,
    /// A letter.
    Letter(u8),
    /// Two or more bytes of a name, after `~` if it is negated.
    Name(bool),
    /// This many bytes of a word in capital letters.
    Capital(Capital, usize),
    /// The words and `;`.
    Closing,
    /// The whole line.
    Done,
}

/// What the machine does with a byte.
#[derive(Clone, Copy, Drop)]
pub enum Step {
    /// Continues in this part.
    To(Part),
    /// Adds the byte to the name.
    Add(Part),
    /// Ends a word, if there is one.
    End(Option<Word>, Part),
    /// The same, and the line has to end.
    Close(Option<Word>),
    /// The same, and takes a `:`.
    Colon(Option<Word>),
    /// The same, and ends the line.
    Finish(Option<Word>),
    Stop,
}
