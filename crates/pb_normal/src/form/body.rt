//! What a form stores.

ghost use Rattle.std.specs.Prelude.{◌≡◌, IfOk};
ghost use Rattle.pb_normal.specs.engine.Bodies.{form_of};

use crate::terms::Terms;
use std::alloc::AllocError;

/// The terms and the degree of a form. Few forms have a degree of `2^32` or more. Those are in a
/// box, so all others are small.
#[derive(Drop)]
pub(crate) enum Body {
    /// With a degree below `2^32`.
    Small(u32, Terms),
    /// With any degree.
    Large(Box<LargeBody>),
}

/// The terms, and a degree that may be large.
#[derive(Drop)]
pub(crate) struct LargeBody {
    pub(crate) terms: Terms,
    pub(crate) degree: u128,
}

// With its two counts of owners such a form fits in 56 bytes.
const _: () = prove!(size_of::<Body>() <= 40);

impl Body {
    /// These terms and this degree. It allocates if the degree is `2^32` or more.
    #[inline]
    pub(crate) fn of(terms: Terms, degree: u128) -> Result<Body, AllocError>
        ensures same { IfOk result (λ b. form_of b ≡ record { terms = terms; degree = degree }) }
    {
        if degree <= 4294967295 {
            return Ok(Body::Small(degree as u32, terms));
        }
        let large = Box::new(terms.allocator(), LargeBody { terms, degree })?;
        Ok(Body::Large(large))
    }

    /// The terms.
    #[inline]
    pub(crate) fn terms(&self) -> &Terms
        ensures { result.now ≡ (form_of self.now).terms }
    {
        match self {
            Body::Small(_, terms) => terms,
            Body::Large(large) => &large.as_ref().terms,
        }
    }

    /// The degree.
    #[inline]
    pub(crate) fn degree(&self) -> u128
        ensures { result ≡ (form_of self.now).degree }
    {
        match self {
            Body::Small(degree, _) => *degree as u128,
            Body::Large(large) => large.as_ref().degree,
        }
    }

    /// The terms and the degree.
    #[inline]
    pub(crate) fn into_parts(self) -> (Terms, u128)
        ensures terms { result.0 ≡ (form_of self).terms }
        ensures degree { result.1 ≡ (form_of self).degree }
    {
        match self {
            Body::Small(degree, terms) => (terms, degree as u128),
            Body::Large(large) => {
                let LargeBody { terms, degree } = Box::into_inner(large);
                (terms, degree)
            }
        }
    }
}
