//! The events of a source, one after another.

ghost use Rattle.std.specs.Prelude.{◌≡◌};
ghost use Rattle.pb_text.specs.contract.Feeding.{place_of};
ghost use Rattle.pb_text.specs.contract.Events.{Gives, feeder_of, most_left, source_of};

use crate::feeder::Feeder;
use crate::machine::Machine;
use crate::next_event::pull;
use crate::place::{Place, Spanned, Stop};
use crate::source::Source;
use std::iter::FusedIterator;

/// The events of a source in order: each call is a `pull`. The first stop is its last item. After
/// the last event, or a stop, it yields nothing more and does not call the source.
#[derive(Drop)]
pub struct Events<'s, S, M: Machine> {
    source: &'s mut S,
    feeder: Feeder<M>,
}

impl<'s, S, M: Machine> Events<'s, S, M> {
    /// The events that the feeder returns for the source.
    pub fn new(source: &'s mut S, feeder: Feeder<M>) -> Self
        ensures source { source_of result ≡ source.old }
        ensures feeder { feeder_of result ≡ feeder }
    {
        Events { source, feeder }
    }

    /// The position of the next byte.
    pub fn place(&self) -> Place
        ensures { result ≡ place_of (feeder_of self.now) }
    {
        self.feeder.place()
    }
}

impl<S: Source, M: Machine + Drop> Iterator for Events<'_, S, M> {
    type Item = Result<Spanned<M::Event>, Stop>;

    ghost next_gives = { Gives S.left S.shown S.ended S.history S.faults };

    ghost remaining = { most_left };

    fn next(&mut self) -> Option<Result<Spanned<M::Event>, Stop>> {
        if self.feeder.stopped().is_some() {
            return None;
        }
        pull(self.source, &mut self.feeder).transpose()
    }
}

impl<S: Source, M: Machine + Drop> FusedIterator for Events<'_, S, M> {}
