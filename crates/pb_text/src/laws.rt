//! The theorems on feeders and spans.

ghost use Rattle.std.specs.Prelude.{◌≡◌, ℕ, List, [], Bool, Result, length};
ghost use Rattle.pb_text.specs.contract.Automaton.{AcceptsItems};
ghost use Rattle.pb_text.specs.contract.Fields.{BytesKeep, SequenceKeeps};
ghost use Rattle.pb_text.specs.contract.Parts.{KeepsItsParts};
ghost use Rattle.pb_text.specs.meaning.Reading.{Reads, HasFixedSpans};
ghost use Rattle.pb_text.specs.contract.Standing.{IsOpen, IsUnread};
ghost use Rattle.pb_text.specs.contract.Feeding.{StandsAt, Feeds, NoneStopped, input_fed, spans_answered, used_by, place_of, halt_of, is_complete};
ghost use Rattle.pb_text.specs.declared.feeder.Fed.{Fed};
ghost use Rattle.pb_text.specs.declared.feeder.Feeder.{Feeder};
ghost use Rattle.pb_text.specs.declared.place.Spanned.{Spanned};
ghost use Rattle.pb_text.specs.declared.place.Stop.{Stop};

use crate::machine::Machine;

/// However the input is cut: after any sequence of feeds to a new feeder, the results are a read of
/// all bytes fed.
#[tactic(auto, using(crate::proofs::lemmas::feeder::Reported::none_read))]
pub fn any_cutting<M: Machine>()
    // If none stopped, the number of bytes used is what the feeds report.
    ensures reads { (longest : ℕ) (start : M) (before after : Feeder M M.Event M.Machine)
        (feeds : List (List ℕ × Result (Fed M.Event) Stop))
        → StandsAt longest start [] [] before
        → IsOpen (halt_of before)
        → Feeds before feeds after
        → (used : List ℕ) × Reads (AcceptsItems M.automaton start) longest (input_fed feeds) used
        (spans_answered feeds)
        (place_of after) (is_complete after) (halt_of after)
        × (NoneStopped feeds → length used ≡ used_by feeds) }
    // There is no reader that can fail.
    ensures unread { (before after : Feeder M M.Event M.Machine) (feeds : List (List ℕ ×
        Result (Fed M.Event) Stop))
        → IsUnread (halt_of before)
        → Feeds before feeds after
        → IsUnread (halt_of after) }
{}

/// A feeder that `StandsAt` its input has read it. The spans that it returned, its position,
/// whether the text is complete, and its stop are those of a read.
pub fn standing_is_reading<M: Machine>()
    ensures { (longest : ℕ) (start : M) (input : List ℕ) (spans : List (Spanned M.Event))
        (feeder : Feeder M M.Event M.Machine)
        → StandsAt longest start input spans feeder
        → (used : List ℕ) × Reads (AcceptsItems M.automaton start) longest input used spans
        (place_of feeder) (is_complete feeder) (halt_of feeder) }
{}

/// All texts of a machine that begin with the same prefix have the same statements that end within
/// it, at the same positions.
#[tactic(auto, using(crate::proofs::lemmas::text::FixedSpans::fixed_spans))]
pub fn fixed_spans<M: Machine>()
    ensures { (start : M) → HasFixedSpans (AcceptsItems M.automaton start) }
{}

/// A feeder stores only its machine, the positions of the next byte and of the statement that has
/// begun, its limit and its stop, as contracts see these. What the types of the fields hide is not
/// covered.
pub fn keeps_its_parts<M: Machine>()
    ensures { KeepsItsParts M M.Event M.Machine }
{}

/// A list stores only the vector of its values, and a text only the vector of its bytes, as
/// contracts see these.
pub fn lists_keep_their_items<T>()
    ensures lists { SequenceKeeps T }
    ensures texts { BytesKeep }
{}
