//! Bytes as a line for people shows them.
use bstr::decode_utf8;
use std::alloc::AllocError;

/// Adds bytes to a line, and gives how many characters they take there. Control characters and bytes that are no UTF-8 are
/// shown by their numbers, as `\x1b`.
pub fn push_shown(line: &mut String, bytes: &[u8]) -> Result<usize, AllocError> {
    let mut width = 0usize;
    let mut rest = bytes;
    while !rest.is_empty() {
        let (found, size) = decode_utf8(rest);
        let (front, others) = rest.split_at(size.clamp(1, rest.len()));
        width = width.saturating_add(push_piece(line, found, front)?);
        rest = others;
    }
    Ok(width)
}

/// Adds one character, or the numbers of bytes that are none.
fn push_piece(line: &mut String, found: Option<char>, bytes: &[u8]) -> Result<usize, AllocError> {
    if let Some(character) = found {
        if !character.is_control() {
            line.push(character)?;
            return Ok(1);
        }
    }
    for byte in bytes {
        line.push_str("\\x")?;
        line.push(hex_digit(*byte / 16))?;
        line.push(hex_digit(*byte % 16))?;
    }
    Ok(bytes.len().saturating_mul(4))
}

/// The hexadecimal digit of a number below 16.
fn hex_digit(number: u8) -> char {
    char::from_digit(u32::from(number), 16).unwrap_or('?')
}

/// Adds a character so many times.
pub(crate) fn push_times(
    line: &mut String,
    character: char,
    count: usize,
) -> Result<(), AllocError> {
    for _ in 0..count {
        line.push(character)?;
    }
    Ok(())
}
