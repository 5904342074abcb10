//! A form as a list of terms or as a tree.

ghost use Rattle.std.specs.Prelude.{◌≡◌, ◌↔◌, IsTrue, length, IfOk};
ghost use Rattle.pb_normal.specs.engine.Adds.{Cancels};
ghost use Rattle.pb_normal.specs.engine.Growing.{listing_form, kind_form};
ghost use Rattle.pb_normal.specs.meaning.Form.{IsNormal, size};
ghost use Rattle.pb_normal.specs.meaning.Rules.{SumPasses};

use crate::form::Normal;
use crate::memory::Memory;
use crate::merge::cancelled;
use crate::tree::Tree;
use std::alloc::{AllocError, Global};

/// A form that stands elsewhere, or one that was made.
#[derive(Drop)]
pub(crate) enum Listing<'a> {
    Held(&'a Normal),
    Made(Normal),
}

impl<'a> Listing<'a> {
    /// The form.
    pub(crate) fn form(&self) -> &Normal
        ensures same { result.now ≡ listing_form self.now }
    {
        match self {
            Listing::Held(form) => *form,
            Listing::Made(form) => form,
        }
    }

    /// The form as one of its own. One that was made is not copied.
    pub(crate) fn owned(self, memory: &mut Memory) -> Result<Normal, AllocError>
        ensures same { IfOk result (λ r. r ≡ listing_form self.entry) }
    {
        match self {
            Listing::Held(form) => {
                let form = form.widened_in(memory.list())?;
                Ok(form)
            }
            Listing::Made(form) => Ok(form),
        }
    }

    /// Drops the form. The memory of a list that was made is used again.
    pub(crate) fn spend(self, memory: &mut Memory) -> Result<(), AllocError> {
        match self {
            Listing::Held(_) => Ok(()),
            Listing::Made(form) => {
                let (terms, _) = form.into_parts();
                terms.spend(memory)
            }
        }
    }
}

/// A form as a list of terms or as a tree.
#[derive(Drop)]
pub(crate) enum Kind<'a> {
    Listing(Listing<'a>),
    Tree(Tree),
}

impl<'a> Kind<'a> {
    /// How many terms it has.
    pub(crate) fn len(&self) -> usize
        ensures length { result ≡ length (kind_form self.now).terms }
    {
        match self {
            Kind::Listing(listing) => listing.form().len(),
            Kind::Tree(tree) => tree.len(),
        }
    }

    /// The sum of the coefficients. A tree keeps it.
    pub(crate) fn size(&self) -> u128
        ensures size { result ≡ size (kind_form self.now) }
        ensures normal { IsNormal (kind_form self.now) }
    {
        match self {
            Kind::Listing(listing) => listing.form().size(),
            Kind::Tree(tree) => tree.size(),
        }
    }

    /// The degree.
    pub(crate) fn degree(&self) -> u128
        ensures degree { result ≡ (kind_form self.now).degree }
    {
        match self {
            Kind::Listing(listing) => listing.form().unsigned_degree(),
            Kind::Tree(tree) => tree.degree(),
        }
    }

    /// Whether the sum with a form exceeds a limit. It allocates nothing.
    pub(crate) fn sum_exceeds(&self, other: &Kind<'a>, limit: u128) -> bool
        ensures { IsTrue result ↔ SumPasses limit (kind_form self.now) (kind_form other.now) }
    {
        let size = self.size() + other.size();
        let degree = self.degree() + other.degree();
        if size <= limit && degree <= limit {
            return false;
        }
        let gone = self.cancelled(other);
        size - 2 * gone > limit || degree.saturating_sub(gone) > limit
    }

    // How much cancels in the sum with a form.
    fn cancelled(&self, other: &Kind<'a>) -> u128
        ensures { Cancels (kind_form self.now).terms (kind_form other.now).terms result }
    {
        match self {
            Kind::Listing(listing) => other.cancelled_with(listing.form()),
            Kind::Tree(tree) => match other {
                Kind::Listing(listing) => tree.cancelled(listing.form()),
                Kind::Tree(other) => tree.cancelled_in(other),
            },
        }
    }

    // How much cancels in the sum of a list and this form.
    fn cancelled_with(&self, list: &Normal) -> u128
        ensures { Cancels list.now.terms (kind_form self.now).terms result }
    {
        match self {
            Kind::Listing(listing) => cancelled(list.terms(), listing.form().terms()),
            Kind::Tree(tree) => tree.cancelled(list),
        }
    }

    /// The form as a list.
    pub(crate) fn listing(self, alloc: Global) -> Result<Listing<'a>, AllocError>
        ensures same { IfOk result (λ r. listing_form r ≡ kind_form self.entry) }
    {
        match self {
            Kind::Listing(listing) => Ok(listing),
            Kind::Tree(tree) => {
                let form = tree.listed(alloc)?;
                Ok(Listing::Made(form))
            }
        }
    }

    /// The form as a tree.
    pub(crate) fn tree(self, alloc: Global) -> Result<Tree, AllocError>
        ensures same { IfOk result (λ r. r ≡ kind_form self.entry) }
    {
        match self {
            Kind::Listing(listing) => {
                let tree = Tree::of(alloc, listing.form())?;
                Ok(tree)
            }
            Kind::Tree(tree) => Ok(tree),
        }
    }
}
