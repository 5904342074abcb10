//! Ids that no live constraint has.

use crate::piece::Piece;
use crate::reasons::Scene;
use std::alloc::AllocError;

/// How many live constraints are shown on each side of an id.
const NEAREST: usize = 2;

impl Scene<'_> {
    /// Why no live constraint has an id, and the nearest ones that are live.
    pub(crate) fn say_no_id(&mut self, id: i64) -> Result<(), AllocError> {
        let newest = self.constraints.newest();
        let found = self.constraints.number_of(id);
        match self.constraints.find(found) {
            Some(stored) if stored.is_live => {
                self.say_constraint(b"deleted by this statement ", found)?;
            }
            Some(_) => self.say_constraint(b"deleted ", found)?,
            None => self.say_never_given(id, newest)?,
        }
        self.say_nearest(if found == 0 {
            newest.saturating_add(1)
        } else {
            found
        })
    }

    /// That an id was never given.
    fn say_never_given(&mut self, id: i64, newest: u64) -> Result<(), AllocError> {
        if newest == 0 {
            return self.say_text(b"no constraint has an id yet");
        }
        let why: &'static [u8] = if id < 0 {
            b" counts back past the first id: the newest is "
        } else {
            b" is past the newest id, "
        };
        self.say(vec![in self.alloc;
            Piece::Number(id as i128),
            Piece::Text(why),
            Piece::Count(newest),
        ]?)
    }

    /// The live constraints with ids nearest to one.
    fn say_nearest(&mut self, id: u64) -> Result<(), AllocError> {
        let constraints = self.constraints;
        let at = (id.saturating_sub(1) as usize).min(constraints.all().len());
        let mut below = 0usize;
        for index in (0..at).rev() {
            if below < NEAREST && constraints.is_live_at(index) {
                below = below.saturating_add(1);
                self.say_constraint(b"live ", index as u64 + 1)?;
            }
            if below >= NEAREST {
                break;
            }
        }
        let mut above = 0usize;
        for index in at.saturating_add(1)..constraints.all().len() {
            if constraints.is_live_at(index) {
                above = above.saturating_add(1);
                self.say_constraint(b"live ", index as u64 + 1)?;
            }
            if above >= NEAREST {
                break;
            }
        }
        Ok(())
    }
}
