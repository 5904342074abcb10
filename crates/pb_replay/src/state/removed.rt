//! Constraints of the instance that are no longer live.

use pb_normal::Normal;
use pb_propagate::Zero;

/// What is stored of a constraint of the instance that was removed.
#[derive(Drop)]
pub(crate) enum Removed {
    /// It was not removed.
    Nothing,
    /// Its form.
    One(Normal),
}

impl Zero for Removed {
    ghost use Rattle.pb_replay.specs.declared.state.removed.Removed.TheVariants.{Nothing};

    ghost zero = { Nothing };

    fn zero() -> Removed {
        Removed::Nothing
    }

    fn is_zero(&self) -> bool {
        match self {
            Removed::Nothing => true,
            Removed::One(_) => false,
        }
    }
}
