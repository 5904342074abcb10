//! The bytes that the text of a row stands for.

use crate::broken::Broken;
use itoa::Buffer;

/// Adds the bytes of a line, and a line feed unless the line ends in a `\`. A blank at its start is
/// skipped.
pub(crate) fn add_line(bytes: &mut Vec<u8>, line: &str) -> Result<(), Broken> {
    let line = line.strip_prefix(' ').unwrap_or(line);
    match line.strip_suffix('\\') {
        Some(prefix) => add_text(bytes, prefix),
        None => {
            add_text(bytes, line)?;
            bytes.push(b'\n')?;
            Ok(())
        }
    }
}

/// Adds the bytes of a text: the part between `\[COUNT:` and `\]` is added COUNT times.
pub(crate) fn add_text(bytes: &mut Vec<u8>, text: &str) -> Result<(), Broken> {
    let mut parts = text.split("\\[");
    if let Some(prefix) = parts.next() {
        add_turn(bytes, prefix, 0)?;
    }
    for part in parts {
        let Some((group, after)) = part.split_once("\\]") else {
            return Err(Broken::Escape);
        };
        add_group(bytes, group)?;
        add_turn(bytes, after, 0)?;
    }
    Ok(())
}

/// Adds a group, as `3:ab`.
fn add_group(bytes: &mut Vec<u8>, group: &str) -> Result<(), Broken> {
    let Some((count, text)) = group.split_once(':') else {
        return Err(Broken::Escape);
    };
    let Ok(count) = count.parse::<u32>() else {
        return Err(Broken::Escape);
    };
    for turn in 0..count {
        add_turn(bytes, text, turn)?;
    }
    Ok(())
}

/// Adds the bytes of a text without groups, in which `\#` is the number of the turn, counted from
/// 0, and `\+` the next number.
fn add_turn(bytes: &mut Vec<u8>, text: &str, turn: u32) -> Result<(), Broken> {
    let mut parts = text.split('\\');
    if let Some(part) = parts.next() {
        bytes.extend_from_slice(part.as_bytes())?;
    }
    for part in parts {
        if let Some(rest) = part.strip_prefix('#') {
            add_number(bytes, turn, rest)?;
        } else if let Some(rest) = part.strip_prefix('+') {
            add_number(bytes, turn.saturating_add(1), rest)?;
        } else {
            add_escaped(bytes, part)?;
        }
    }
    Ok(())
}

/// Adds a number and the text after it.
fn add_number(bytes: &mut Vec<u8>, number: u32, rest: &str) -> Result<(), Broken> {
    bytes.extend_from_slice(Buffer::new().format(number).as_bytes())?;
    bytes.extend_from_slice(rest.as_bytes())?;
    Ok(())
}

/// Adds the text after a `\`: `t`, `r`, `n`, `s` for a tab, a return, a line feed and a `\`, or two
/// hexadecimal digits of a byte.
fn add_escaped(bytes: &mut Vec<u8>, part: &str) -> Result<(), Broken> {
    let (code, rest) = match part.split_at_checked(2) {
        Some(pair) => pair,
        None => (part, ""),
    };
    if let Ok(byte) = u8::from_str_radix(code, 16) {
        bytes.push(byte)?;
        bytes.extend_from_slice(rest.as_bytes())?;
        return Ok(());
    }
    add_letter(bytes, part)
}

fn add_letter(bytes: &mut Vec<u8>, part: &str) -> Result<(), Broken> {
    let (byte, rest) = match part.as_bytes() {
        [b't', rest @ ..] => (b'\t', rest),
        [b'r', rest @ ..] => (b'\r', rest),
        [b'n', rest @ ..] => (b'\n', rest),
        [b's', rest @ ..] => (b'\\', rest),
        _ => return Err(Broken::Escape),
    };
    bytes.push(byte)?;
    bytes.extend_from_slice(rest)?;
    Ok(())
}
