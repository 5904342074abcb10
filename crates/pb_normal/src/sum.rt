//! Sums that grow.

ghost use Rattle.std.specs.Prelude.{◌≡◌, ◌≤ℤ◌, ◌↔◌, pos, length, IfOk, IfErr, IsTrue, Err};
ghost use Rattle.std.specs.Int.RustNames.{unsigned_abs};
ghost use Rattle.pb_text.specs.meaning.Limits.{largest};
ghost use Rattle.pb_normal.specs.engine.Adds.{SumFits};
ghost use Rattle.pb_normal.specs.meaning.Form.{IsNormal, IsWithin};
ghost use Rattle.pb_normal.specs.meaning.Rules.{IsSum, Passes, SumPasses, multiplied, divided, saturated, weakened};

use crate::fault::NormalFault;
use crate::form::Normal;
use crate::kind::{Kind, Listing};
use crate::memory::Memory;
use pb_text::Limits;
use std::alloc::{AllocError, Global};
use std::marker::Model;

/// The fewest terms for which a form becomes a tree.
const MANY: usize = 32;

/// How many small changes in a row make the list again, before the form becomes a tree. To make a
/// tree takes about as long.
const LISTED: usize = 16;

/// A form that one rule after another changes.
///
/// A change is small if it weakens, or adds a form with few terms. After some small changes in a
/// row, each takes time in the terms that it adds, and not in all terms of the form.
#[derive(Drop)]
pub struct Sum<'a> {
    kind: Kind<'a>,
    changes: usize,
}

impl<'a> Model for Sum<'a> {
    ghost use Rattle.pb_normal.specs.meaning.Form.{Form};
    ghost use Rattle.pb_normal.specs.engine.Growing.{kind_form};

    ghost Value = { Form };

    ghost view = { λ s. kind_form s.kind };
}

impl<'a> Sum<'a> {
    /// A form that stands elsewhere. Nothing is copied.
    pub fn held(form: &'a Normal) -> Sum<'a>
        ensures same { result ≡ form.now }
    {
        Sum {
            kind: Kind::Listing(Listing::Held(form)),
            changes: 0,
        }
    }

    /// A form of its own.
    pub fn made(form: Normal) -> Sum<'a>
        ensures same { result ≡ form }
    {
        Sum {
            kind: Kind::Listing(Listing::Made(form)),
            changes: 0,
        }
    }

    /// How many terms it has.
    pub fn len(&self) -> usize
        ensures length { result ≡ length self.now.terms }
    {
        self.kind.len()
    }

    /// The form.
    pub fn into_normal(self, memory: &mut Memory) -> Result<Normal, NormalFault>
        ensures same { IfOk result (λ r. r ≡ self.entry) }
        ensures memory { IfErr result (λ e. e ≡ NormalFault.Memory) }
    {
        match self.kind.listing(memory.allocator())? {
            Listing::Held(form) => form.copy(),
            Listing::Made(form) => {
                let form = form.compact_from(memory)?;
                Ok(form)
            }
        }
    }

    /// The sum of both. `Overflow` comes if and only if the sum of its coefficients or its degree
    /// exceeds the limit.
    #[tactic(auto, using(crate::proofs::Rulesets::steps))]
    pub fn add(
        self,
        memory: &mut Memory,
        other: Sum<'a>,
        limits: Limits,
    ) -> Result<Sum<'a>, NormalFault>
        ensures sum { IfOk result (λ r. IsSum self.entry other.entry r) }
        ensures within { IfOk result (λ r. IsWithin (largest limits) r) }
        ensures overflow { (result ≡ Err NormalFault.Overflow) ↔ SumPasses
            (largest limits) self.entry other.entry }
    {
        if self.len() < other.len() {
            return other.take(memory, self, limits);
        }
        self.take(memory, other, limits)
    }

    // The sum with a form that has as many terms, or fewer.
    fn take(
        self,
        memory: &mut Memory,
        other: Sum<'a>,
        limits: Limits,
    ) -> Result<Sum<'a>, NormalFault>
        ensures sum { IfOk result (λ r. IsSum self.entry other.entry r) }
        ensures within { IfOk result (λ r. IsWithin (largest limits) r) }
        ensures overflow { (result ≡ Err NormalFault.Overflow) ↔ SumPasses
            (largest limits) self.entry other.entry }
    {
        if self.kind.sum_exceeds(&other.kind, limits.largest()) {
            return Err(NormalFault::Overflow);
        }
        let sum = self.joined(memory, other)?;
        Ok(sum)
    }

    // The sum with a form that has as many terms, or fewer. It is normal.
    fn joined(self, memory: &mut Memory, other: Sum<'a>) -> Result<Sum<'a>, AllocError>
        requires fits { SumFits self other }
        ensures sum { IfOk result (λ r. IsSum self.entry other.entry r) }
    {
        let small = self.len() >= MANY && other.len() <= self.len() / 8;
        let alloc = memory.allocator();
        let other = other.kind.listing(alloc)?;
        let changes = counted(small, self.changes);
        if changes > LISTED {
            let tree = self.kind.tree(alloc)?.joined(other.form())?;
            other.spend(memory)?;
            return Ok(Sum {
                kind: Kind::Tree(tree),
                changes,
            });
        }
        let listing = self.kind.listing(alloc)?;
        let sum = listing.form().joined(other.form(), memory.list())?;
        listing.spend(memory)?;
        other.spend(memory)?;
        Ok(Sum {
            kind: Kind::Listing(Listing::Made(sum)),
            changes,
        })
    }

    /// All coefficients and the degree multiplied. `Overflow` comes if and only if the sum of the
    /// coefficients or the degree of the result exceeds the limit.
    #[tactic(auto, using(crate::proofs::Rulesets::multiply))]
    pub fn multiply(
        self,
        memory: &mut Memory,
        factor: i128,
        limits: Limits,
    ) -> Result<Sum<'a>, NormalFault>
        requires { pos 1 ≤ℤ factor }
        ensures product { IfOk result (λ r. r ≡ multiplied (unsigned_abs factor) self.entry) }
        ensures within { IfOk result (λ r. IsWithin (largest limits) r) }
        ensures overflow { (result ≡ Err NormalFault.Overflow) ↔ Passes (largest limits)
            (multiplied (unsigned_abs factor) self.entry) }
    {
        let k = factor.unsigned_abs();
        let most = limits.largest() / k;
        if self.kind.size() > most || self.kind.degree() > most {
            return Err(NormalFault::Overflow);
        }
        let product = self.scaled(memory, k)?;
        Ok(product)
    }

    // All coefficients and the degree multiplied; the result is normal. A factor of 1 is a small
    // change.
    #[tactic(auto, using(crate::proofs::Rulesets::steps))]
    fn scaled(self, memory: &mut Memory, k: u128) -> Result<Sum<'a>, AllocError>
        requires fits { IsNormal (multiplied k self) }
        ensures product { IfOk result (λ r. r ≡ multiplied k self.entry) }
    {
        if is_one(k) {
            return self.unchanged(memory.allocator());
        }
        let listing = self.kind.listing(memory.allocator())?;
        let product = listing.form().scaled(k, memory.list())?;
        listing.spend(memory)?;
        Ok(Sum::made(product))
    }

    // The same form after a small change, which may make it a tree.
    fn unchanged(self, alloc: Global) -> Result<Sum<'a>, AllocError>
        ensures same { IfOk result (λ r. r ≡ self.entry) }
    {
        let changes = counted(self.len() >= MANY, self.changes);
        let kind = if changes > LISTED {
            Kind::Tree(self.kind.tree(alloc)?)
        } else {
            self.kind
        };
        Ok(Sum { kind, changes })
    }

    /// All coefficients and the degree divided and rounded up. A divisor of 1 costs nothing.
    #[tactic(auto, using(crate::proofs::Rulesets::steps))]
    pub fn divide(self, memory: &mut Memory, divisor: i128) -> Result<Sum<'a>, NormalFault>
        requires { pos 1 ≤ℤ divisor }
        ensures quotient { IfOk result (λ r. r ≡ divided (unsigned_abs divisor) self.entry) }
        ensures memory { IfErr result (λ e. e ≡ NormalFault.Memory) }
    {
        let k = divisor.unsigned_abs();
        if is_one(k) {
            return Ok(self);
        }
        let form = self.kind.listing(memory.allocator())?.owned(memory)?;
        let quotient = form.divided(k)?;
        Ok(Sum::made(quotient))
    }

    /// Every coefficient reduced to at most the degree.
    pub fn saturate(self, memory: &mut Memory) -> Result<Sum<'a>, NormalFault>
        ensures saturated { IfOk result (λ r. r ≡ saturated self.entry) }
        ensures memory { IfErr result (λ e. e ≡ NormalFault.Memory) }
    {
        let form = self.kind.listing(memory.allocator())?.owned(memory)?;
        let saturation = form.saturated()?;
        Ok(Sum::made(saturation))
    }

    /// Without the term on a variable, whose coefficient is subtracted from the degree.
    pub fn weaken(self, memory: &mut Memory, variable: usize) -> Result<Sum<'a>, NormalFault>
        ensures weakened { IfOk result (λ r. r ≡ weakened variable self.entry) }
        ensures memory { IfErr result (λ e. e ≡ NormalFault.Memory) }
    {
        let changes = counted(true, self.changes);
        if changes > LISTED && self.len() >= MANY {
            let tree = self.kind.tree(memory.allocator())?;
            return Ok(Sum {
                kind: Kind::Tree(tree.weaken(variable)),
                changes,
            });
        }
        let listing = self.kind.listing(memory.allocator())?;
        let weakening = listing.form().weakened(variable, memory.list())?;
        listing.spend(memory)?;
        Ok(Sum {
            kind: Kind::Listing(Listing::Made(weakening)),
            changes,
        })
    }
}

// Whether a factor or a divisor is 1, so that it changes nothing.
fn is_one(k: u128) -> bool
    ensures { IsTrue result ↔ (k ≡ 1) }
{
    k == 1
}

// The number of small changes in a row after one more change.
fn counted(small: bool, changes: usize) -> usize {
    if small { changes.saturating_add(1) } else { 0 }
}
