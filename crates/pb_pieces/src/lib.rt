//! The pieces that programs in other languages take: a check of a proof while it is written, an
//! instance as flat arrays, statements as tokens, and numbers in two words.
#![tactic(auto)]

mod any_statement;
mod flat;
mod given_token;
mod instance;
mod make;
mod make_fault;
mod matcher;
mod named_tokens;
mod opb_tokens;
mod places;
mod proof_tokens;
mod read;
mod reader;
mod rows;
mod session;
mod terms;
mod token_arrays;
mod token_parts;
mod token_reader;
mod token_rules;
mod token_sink;
mod tokenized;
mod tokens;
mod words;

pub use any_statement::AnyStatement;
pub use flat::Named;
pub use instance::Flat;
pub use make::make_statement;
pub use make_fault::MakeFault;
pub use named_tokens::NamedTokens;
pub use places::{Places, Span};
pub use read::read_flat;
pub use reader::{Format, Reader};
pub use rows::{Row, Rows};
pub use session::{OpenFault, Session};
pub use terms::Terms;
pub use token_arrays::TokenArrays;
pub use token_reader::{Event, Taken, TokenReader};
pub use token_sink::TokenSink;
pub use tokenized::{EventKind, Tokenized};
pub use tokens::{TokenKind, Tokens};
pub use words::split;
