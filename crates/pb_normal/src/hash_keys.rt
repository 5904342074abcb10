//! How the table of names hashes.

ghost use Rattle.std.specs.Prelude.{◌≡◌};
ghost use Rattle.pb_normal.specs.contract.HashKeys.{hasher_by};

use crate::names::hasher::NameHasher;
use std::hash::{BuildHasher, DefaultHasher, RandomState};

/// The keys by which names are hashed. No result depends on them, but the time that colliding names
/// take does.
#[derive(Clone, Copy)]
pub enum HashKeys {
    /// Always the same keys: whoever picks the names can make them collide.
    Fixed,
    /// Random keys, for names from untrusted input.
    Random(RandomState),
}

impl BuildHasher for HashKeys {
    type Hasher = NameHasher;

    ghost build_hasher = { hasher_by };

    fn build_hasher(&self) -> NameHasher {
        NameHasher::keyed_by(match self {
            HashKeys::Fixed => DefaultHasher::new(),
            HashKeys::Random(state) => state.build_hasher(),
        })
    }
}
