//! A text in the room that a caller provides for it.

ghost use Rattle.pb_c.specs.Buffer.{Puts};

/// Puts a text into the room, as much of it as fits, and returns the length of the whole text in
/// bytes.
pub(crate) fn put(text: &[u8], room: &mut [u8]) -> usize
    ensures { Puts text.now room.old room.new result }
{
    let count = text.len().min(room.len());
    room[..count].copy_from_slice(&text[..count]);
    text.len()
}
