//! What the text of an instance says beside its constraints.

ghost use Rattle.std.specs.Prelude.{◌≡◌, []};

use pb_sums::Term;
use pb_text::Sequence;
use std::alloc::Global;

/// What the text of an instance says beside its constraints. A trace shows it, and checks nothing
/// by it.
#[derive(Drop)]
pub struct InstanceText {
    /// The line in which each loaded constraint begins, counted from 1. Both of an equality have
    /// its line.
    pub lines: Vec<u64>,
    /// How many constraints are written, or 0 if that is not known.
    pub written: u64,
    /// How many of these are equalities.
    pub equalities: u64,
    /// The terms of the objective, if there is one.
    pub objective: Option<Sequence<Term>>,
}

impl InstanceText {
    /// Nothing is known of the text.
    pub fn unknown(alloc: Global) -> InstanceText
        ensures { result.lines.items ≡ [] }
    {
        InstanceText {
            lines: Vec::new(alloc),
            written: 0,
            equalities: 0,
            objective: None,
        }
    }
}
