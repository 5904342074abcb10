//! Literals, sums and linear texts, read one byte at a time and written.
#![tactic(auto)]

mod capacity;
mod classes;
pub mod laws;
mod linear;
mod machine;
mod name;
mod phase;
pub mod piece;
mod prefix;
mod short;
mod sum_kind;
mod term_prefix;
mod transition;
mod units;
mod validity;
mod whole;
mod write;

pub use linear::{Linear, Literal, Relation, SumEvent, Term};
pub use machine::SumMachine;
pub use name::Name;
pub use sum_kind::{Part, Spaces};
pub use units::count_units;
pub use validity::{is_name, linear_is_value, sum_is_value};
pub use whole::linear_at;
pub use write::{
    put_linear, put_place, write_count, write_linear, write_literal, write_number, write_place,
    write_sum,
};
