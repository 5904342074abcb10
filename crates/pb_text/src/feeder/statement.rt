//! Takes a statement of a piece at once.

ghost use Rattle.std.specs.Prelude.{false, ◌≡◌, None};

use crate::feeder::{Fed, Feeder, end_at};
use crate::machine::Machine;
use crate::place::Spanned;

impl<M: Machine> Feeder<M> {
    ghost use Rattle.pb_text.specs.contract.Automaton.{IsState};
    ghost use Rattle.pb_text.specs.contract.Feeding.{state_of, halt_of, is_complete};
    ghost use Rattle.pb_text.specs.engine.Prefixes.{TakesPrefix};

    /// Takes a prefix of a piece that is fast to take, at most through the end of a statement.
    pub(super) fn feed_prefix(&mut self, piece: &[u8]) -> Fed<M::Event>
        requires unfinished { is_complete self.old ≡ false }
        requires running { halt_of self.old ≡ None }
        requires state { IsState M.automaton (state_of self.old) }
        ensures { TakesPrefix self.old piece.now result self.new }
    {
        let skipped = self.skip_line_feed(piece);
        let mut event = None;
        let used = self.feed_statement(&piece[skipped..], &mut event);
        Fed {
            used: skipped + used,
            event,
        }
    }

    /// Takes a line feed before a statement, if there is one. It returns how many bytes it took.
    #[inline(always)]
    pub(crate) fn skip_line_feed(&mut self, piece: &[u8]) -> usize
        requires unfinished { is_complete self.old ≡ false }
        requires running { halt_of self.old ≡ None }
        requires state { IsState M.automaton (state_of self.old) }
        ensures { TakesPrefix self.old piece.now (record { used = result; event = None }) self.new }
    {
        if piece.is_empty() || piece[0] != b'\n' {
            return 0;
        }
        if self.try_continue(b'\n') { 1 } else { 0 }
    }

    /// Takes a whole statement, or otherwise what is fast to take of one. It puts the event that
    /// ends there, if any, into `event`, which is `None` before, and returns how many bytes it took.
    pub(crate) fn feed_statement(
        &mut self,
        piece: &[u8],
        event: &mut Option<Spanned<M::Event>>,
    ) -> usize
        requires unfinished { is_complete self.old ≡ false }
        requires running { halt_of self.old ≡ None }
        requires state { IsState M.automaton (state_of self.old) }
        requires none { event.old ≡ None }
        ensures { TakesPrefix self.old piece.now (record { used = result; event = event.new })
            self.new }
    {
        if self.first.is_some() {
            return self.feed_part(piece, event);
        }
        let first = self.place;
        let room = (end_at(self.longest, Some(first)) - first.offset) as usize;
        let prefix = &piece[..piece.len().min(room)];
        let Some((last, taken)) = self.machine.take_statement(prefix) else {
            return self.feed_part(piece, event);
        };
        let past = first.past(&prefix[..last]).after(prefix[last]);
        self.place = past;
        *event = Some(Spanned {
            event: taken,
            first,
            past,
        });
        last + 1
    }

    /// Takes a prefix of a piece in parts, at most through the end of a statement, in the same way.
    fn feed_part(&mut self, piece: &[u8], event: &mut Option<Spanned<M::Event>>) -> usize
        requires unfinished { is_complete self.old ≡ false }
        requires running { halt_of self.old ≡ None }
        requires state { IsState M.automaton (state_of self.old) }
        requires none { event.old ≡ None }
        ensures { TakesPrefix self.old piece.now (record { used = result; event = event.new })
            self.new }
    {
        let fast = self.feed_fast(piece);
        if fast == piece.len() {
            return fast;
        }
        *event = self.try_finish(piece[fast]);
        if event.is_some() { fast + 1 } else { fast }
    }
}
