//! How far the literals of a list are walked in each group of clauses.

#![tactic(auto, using(crate::proofs::rulesets::Clauses::heads))]

ghost use Rattle.std.specs.Prelude.{◌≡◌, ◌+◌, ◌-◌, ◌*◌, ◌^◌, ◌<◌, ◌≤◌, ◌⊎◌, ◌++◌, [], true, false, All, length, replicate, slice_index_or, take, IfSome, IfNone, OnOk};
ghost use Rattle.pb_propagate.specs.engine.clauses.Walked.{IsAhead};

use crate::clause::{Group, code_of};
use crate::mark::Mark;
use pb_normal::NumberedLiteral;
use std::alloc::{AllocError, Global};

/// How many literals of the list are walked in each group.
#[derive(Clone, Copy)]
pub struct Heads {
    pub short: usize,
    pub long: usize,
}

impl Heads {
    /// The first `count` literals are walked in both groups.
    pub fn at(count: usize) -> Heads
        ensures { (result.short ≡ count) × (result.long ≡ count) }
    {
        Heads {
            short: count,
            long: count,
        }
    }
}

/// In which order the literals of a list are walked.
#[derive(Clone, Copy)]
pub enum Order {
    /// All of them in the short clauses, then all of them in the long ones.
    ShortFirst,
    /// Each of them in the short clauses, and at once in the long ones.
    ByLiteral,
}

/// How far the literals of a list are walked, and how far they were when each of them was put.
#[derive(Drop)]
pub struct Walked {
    pub heads: Heads,
    // For each literal of the list, the heads from before it was put. They still hold if the list
    // is cut before that literal.
    pub marks: Vec<Mark>,
}

// Appends that many marks.
#[inline(never)]
fn push_marks(marks: &mut Vec<Mark>, count: usize, heads: Heads) -> Result<(), AllocError>
    ensures { OnOk result (marks.new.items ≡ marks.old.items ++ replicate count heads) }
{
    let len = marks.len();
    if count > usize::MAX - len {
        return Err(AllocError);
    }
    let mark = Mark::of(heads)?;
    marks.resize(len + count, mark)?;
    Ok(())
}

/// Marks the next literals of a list: each was put when the list was walked up to these heads.
#[inline]
pub fn mark(marks: &mut Vec<Mark>, count: usize, heads: Heads) -> Result<(), AllocError>
    ensures { OnOk result (marks.new.items ≡ marks.old.items ++ replicate count heads) }
{
    if count == 0 {
        return Ok(());
    }
    push_marks(marks, count, heads)
}

impl Walked {
    /// No literal is walked, and none is on the list.
    pub fn none(alloc: Global) -> Walked
        ensures heads { (result.heads.short ≡ 0) × (result.heads.long ≡ 0) }
        ensures marks { result.marks.items ≡ [] }
    {
        Walked {
            heads: Heads::at(0),
            marks: Vec::new(alloc),
        }
    }

    /// The list is cut to its first `count` literals. The heads are those from before the next
    /// literal was put.
    pub fn cut(&mut self, count: usize)
        ensures heads { self.new.heads ≡ slice_index_or self.old.marks.items count
            record { short = 0; long = 0 } }
        ensures marks { self.new.marks.items ≡ take count self.old.marks.items }
    {
        self.heads = match self.marks.get(count) {
            Some(mark) => mark.heads(),
            None => Heads::at(0),
        };
        self.marks.truncate(count);
    }

    /// All literals of the list are walked. A literal without a mark gets that of an empty walk.
    pub fn finish(&mut self, count: usize) -> Result<(), AllocError>
        ensures heads { OnOk result (
            (self.new.heads.short ≡ count) × (self.new.heads.long ≡ count)) }
        ensures marks { OnOk result (self.new.marks.items ≡ self.old.marks.items ++
            replicate (count - length self.old.marks.items) record { short = 0; long = 0 }) }
    {
        let unmarked = count.saturating_sub(self.marks.len());
        mark(&mut self.marks, unmarked, Heads::at(0))?;
        self.heads = Heads::at(count);
        Ok(())
    }
}

/// The code whose watches are visited next, and the heads after that.
#[derive(Clone, Copy)]
pub struct Ahead {
    pub code: usize,
    pub heads: Heads,
}

// Whether the next walk is in the long clauses: no literal is left in the short ones, or the order
// wants it.
fn goes_long(order: Order, heads: Heads, count: usize) -> bool
    ensures yes { result ≡ true → (count ≤ heads.short) ⊎ (heads.long < heads.short) }
    ensures no { result ≡ false → heads.short < count }
{
    if heads.short >= count {
        return true;
    }
    match order {
        Order::ShortFirst => false,
        Order::ByLiteral => heads.long < heads.short,
    }
}

/// The next walk over a list in that order. There is none if each literal is walked in both groups.
pub fn next_walk(order: Order, heads: Heads, list: &[NumberedLiteral]) -> Option<Ahead>
    requires fits { All (λ l. 4 * l.variable + 4 ≤ 2 ^ 64) list.now }
    ensures some { IfSome result (IsAhead heads list.now) }
    ensures none { IfNone result ((length list.now ≤ heads.short) ×
        (length list.now ≤ heads.long)) }
{
    if !goes_long(order, heads, list.len()) {
        let code = code_of(Group::Short, list[heads.short].negation());
        let heads = Heads {
            short: heads.short + 1,
            long: heads.long,
        };
        return Some(Ahead { code, heads });
    }
    if heads.long < list.len() {
        let code = code_of(Group::Long, list[heads.long].negation());
        let heads = Heads {
            short: heads.short,
            long: heads.long + 1,
        };
        return Some(Ahead { code, heads });
    }
    None
}
