//! The rest of an input, which must be white space and comments.

ghost use Rattle.std.specs.Prelude.{◌≡◌, ◌+◌, ◌^◌, ◌≤◌, ◌&&◌, ◌||◌, not, nat_eq, true, None, IfErr, OnOk};
ghost use Rattle.pb_text.specs.meaning.Blank.{ReadsBlank};
ghost use Rattle.pb_text.specs.meaning.Classes.{is_white};
ghost use Rattle.pb_text.specs.meaning.Pulling.{OfGiven, faults_after};
ghost use Rattle.pb_text.specs.meaning.Stopping.{IsShown};

use crate::bytes::is_white;
use crate::feeder::BYTE_LIMIT;
use crate::place::{Place, Stop, Why};
use crate::source::{Failed, Source};

/// `Ok` if the input ends at offset `2^40` at most, and its rest, which begins at `place`, is white
/// space and comments. A comment is `*` through the next line feed or the end. Otherwise the first
/// of: `Byte` at the first other byte, `TooLong` at the byte at offset `2^40`, `Read`.
pub fn rest_is_blank<S: Source>(source: &mut S, place: Place) -> Result<(), Stop>
    requires offset { place.offset ≤ 2 ^ 40 }
    requires line { place.line ≤ 2 ^ 40 + 1 }
    requires column { place.column ≤ 2 ^ 40 + 1 }
    ensures blank { ReadsBlank place (S.left source.old) result (S.left source.new) }
    // For any source, also a file: the rest is what its calls have given since.
    ensures given { OfGiven (λ left rest. ReadsBlank place left result rest) (S.history source.old)
        (S.history source.new) }
    // The rest ends only if the source has shown its end. A byte that does not belong there is the
    // one it has shown.
    ensures ended { OnOk result (S.ended source.new ≡ true) }
    ensures shown { IfErr result (λ s. IsShown (S.shown source.new) (S.ended source.new) s.why) }
    // `Read` comes only if the source failed.
    ensures faults { S.faults source.new ≡ faults_after None result (S.faults source.old) }
{
    let mut at = place;
    let mut in_comment = false;
    loop {
        let byte = match source.peek() {
            Ok(Some(byte)) => byte,
            Ok(None) => return Ok(()),
            Err(Failed) => {
                return Err(Stop {
                    place: at,
                    why: Why::Read,
                });
            }
        };
        if at.offset == BYTE_LIMIT {
            return Err(Stop {
                place: at,
                why: Why::TooLong,
            });
        }
        if !passes(in_comment, byte) {
            return Err(Stop {
                place: at,
                why: Why::Byte(byte),
            });
        }
        in_comment = stays_in_comment(in_comment, byte);
        source.skip();
        at = at.after(byte);
    }
}

/// Whether the byte is white space, begins a comment, or is in a comment.
fn passes(in_comment: bool, byte: u8) -> bool
    ensures { result ≡ (is_white byte || nat_eq byte 42 || in_comment) }
{
    is_white(byte) || byte == b'*' || in_comment
}

/// Whether the next byte is in a comment.
fn stays_in_comment(in_comment: bool, byte: u8) -> bool
    ensures { result ≡ (not (nat_eq byte 10) && (nat_eq byte 42 || in_comment)) }
{
    byte != b'\n' && (byte == b'*' || in_comment)
}
