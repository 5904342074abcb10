//! Normal forms of linear constraints, and the rules of cutting planes on them.
#![tactic(auto)]

mod collect;
mod constraints;
mod entries;
mod entry;
mod fault;
mod form;
mod hash_keys;
mod kind;
pub mod laws;
mod linear;
mod literals;
mod memory;
mod merge;
mod names;
mod numbered;
mod rules;
mod side;
mod sum;
mod terms;
mod tree;
mod written;

pub use constraints::load;
pub use entries::Entries;
pub use entry::Entry;
pub use fault::NormalFault;
pub use form::Normal;
pub use hash_keys::HashKeys;
pub use linear::{fits, number_names, terms_fit};
pub use memory::Memory;
pub use names::Names;
pub use names::hasher::NameHasher;
pub use numbered::NumberedLiteral;
pub use side::Side;
pub use sum::Sum;
pub use terms::Terms;
