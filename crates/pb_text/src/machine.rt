//! A machine that reads a text byte by byte.

ghost use Rattle.std.specs.Prelude.{◌≡◌, ◌<◌, ◌≤◌, take, length};
ghost use Rattle.pb_text.specs.contract.Automaton.{Automaton, IsState, Pushes, Continues, Finishes, Runs, TakesStatement, begins};

/// The response of a machine to a byte.
#[derive(Drop)]
pub enum Push<E> {
    /// The byte was taken.
    Go,
    /// The byte was taken, and a statement ends with it.
    Event(E),
    /// No text that continues with this byte is grammatical. The machine is unchanged.
    No,
    /// The same, and the byte is a digit directly after a digit of a number.
    Large,
    /// Out of memory. The machine is unchanged.
    Memory,
}

/// A reader of a text, one byte at a time.
///
/// Its automaton alone says what a machine accepts: the states that bytes lead to, and the
/// statements that end on the way. A machine stores the statement that it is in, and nothing of
/// earlier ones.
pub trait Machine {
    type Event: Drop;

    ghost automaton: { Automaton Self Self.Event };

    /// Takes a byte, or returns why not and leaves the machine unchanged.
    fn push(&mut self, byte: u8) -> Push<Self::Event>
        ensures pushes { Pushes automaton self.old byte result self.new }
        ensures state { IsState automaton self.new };

    /// Takes a byte that ends no statement, if that is fast and no allocation is refused. Otherwise
    /// it leaves the machine unchanged, and `push` says why.
    fn try_continue(&mut self, byte: u8) -> bool
        ensures continues { Continues automaton self.old byte result self.new }
        ensures state { IsState automaton self.new }
    {
        let _ = self.is_done();
        let _ = byte;
        false
    }

    /// Takes a byte that ends a statement, if that is fast and no allocation is refused, and
    /// returns the event. Otherwise it leaves the machine unchanged, and `push` says why.
    fn try_finish(&mut self, byte: u8) -> Option<Self::Event>
        ensures finishes { Finishes automaton self.old byte result self.new }
        ensures state { IsState automaton self.new }
    {
        let _ = self.is_done();
        let _ = byte;
        None
    }

    /// Takes the first byte of a piece as `try_continue` does, or a longer prefix that is faster to
    /// take at once. Such a prefix may be a whole name or number. It returns the number of bytes
    /// taken.
    #[tactic(auto, using(crate::proofs::lemmas::machine::Running::runs_on))]
    fn take_prefix(&mut self, piece: &[u8]) -> usize
        requires { 0 < length piece.now }
        ensures bound { result ≤ length piece.now }
        ensures runs { Runs automaton self.old (take result piece.now) self.new }
        ensures state { IsState automaton self.new }
    {
        if self.try_continue(piece[0]) { 1 } else { 0 }
    }

    /// Takes a prefix of a piece as `try_continue` does, and returns its length. It may leave bytes
    /// that `try_continue` would take.
    fn take_run(&mut self, piece: &[u8]) -> usize
        ensures bound { result ≤ length piece.now }
        ensures runs { Runs automaton self.old (take result piece.now) self.new }
        ensures state { IsState automaton self.new }
    {
        let _ = self.is_done();
        let mut taken: usize = 0;
        while taken < piece.len() {
            let more = self.take_prefix(&piece[taken..]);
            if more == 0 {
                return taken;
            }
            taken += more;
        }
        taken
    }

    /// Takes a whole statement at the start of a piece, if none has begun and that is fast. It
    /// returns the index of its last byte, and the event. Otherwise it leaves the machine
    /// unchanged.
    fn take_statement(&mut self, piece: &[u8]) -> Option<(usize, Self::Event)>
        ensures statement { TakesStatement automaton self.old piece.now result self.new }
        ensures state { IsState automaton self.new }
    {
        let _ = self.is_done();
        let _ = piece;
        None
    }

    /// Takes an event that is no longer needed, so that its memory may be used for a later one.
    fn reuse(&mut self, event: Self::Event)
        ensures { self.new ≡ self.old }
    {
        let _event = event;
    }

    /// Whether the text is complete.
    fn is_done(&self) -> bool
        ensures done { result ≡ automaton.done self.now }
        ensures state { IsState automaton self.now };

    /// Whether the byte begins a statement.
    fn starts(&self, byte: u8) -> bool
        ensures { result ≡ begins automaton self.now byte };

    /// How much of the current statement is stored.
    fn held(&self) -> usize
        ensures { result ≡ automaton.kept self.now };
}
