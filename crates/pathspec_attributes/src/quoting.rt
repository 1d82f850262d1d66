//! Texts that are quoted in C style, as git reads them in a line of attributes.
ghost use Rattle.std.specs.Prelude.{◌≡◌, ◌≤◌, ◌+◌, ◌-◌, ◌*◌, length, IfOk, IfSome, IsTrue};
ghost use Rattle.std.specs.Option.{option_map};
ghost use Rattle.pathspec_attributes.specs.Quoting.{escape_of, escape_view, is_digit_to, letter_byte, octal_byte, sized, unit_of, unquoted};
ghost use Rattle.pathspec_attributes.specs.Views.{quoted_view};

use std::alloc::{AllocError, Global};

/// What the text behind an opening quote stands for, and what stands behind its closing quote. None where no quote closes it,
/// or a backslash has no escape.
///
/// The call looks at each byte up to the closing quote, and copies those that the text stands for.
///
/// # Errors
/// Memory runs out.
pub fn unquote(alloc: Global, text: &[u8]) -> Result<Option<(Vec<u8>, &[u8])>, AllocError>
    ensures { IfOk result (λ quoted. option_map quoted_view quoted ≡ unquoted text.now) }
{
    let mut bytes = Vec::new(alloc);
    let mut rest = text;
    while let [first, behind @ ..] = rest {
        if *first == b'"' {
            return Ok(Some((bytes, behind)));
        }
        let Some((byte, size)) = unit(*first, behind) else {
            return Ok(None);
        };
        bytes.push(byte)?;
        rest = &behind[size..];
    }
    Ok(None)
}

/// The byte that a text begins with, and how many bytes it takes behind the first: none for one that stands for itself.
fn unit(first: u8, behind: &[u8]) -> Option<(u8, usize)>
    ensures unit { option_map escape_view result ≡ unit_of first behind.now }
    ensures size { IfSome result (λ unit. unit.1 ≤ length behind.now) }
{
    if first == b'\\' {
        escape(behind)
    } else {
        Some((first, 0))
    }
}

/// The byte that an escape stands for, and how many bytes it takes.
fn escape(text: &[u8]) -> Option<(u8, usize)>
    ensures escape { option_map escape_view result ≡ escape_of text.now }
    ensures size { IfSome result (λ unit. unit.1 ≤ length text.now) }
{
    let [letter, ..] = text else {
        return None;
    };
    match letter_byte(*letter) {
        Some(byte) => Some((byte, 1)),
        None => octal_escape(text),
    }
}

/// The byte that three octal digits stand for, and how many bytes they take.
fn octal_escape(text: &[u8]) -> Option<(u8, usize)>
    ensures escape { option_map escape_view result ≡ option_map (sized 3) (octal_byte text.now) }
    ensures size { IfSome result (λ unit. unit.1 ≤ length text.now) }
{
    let [high, middle, low, ..] = text else {
        return None;
    };
    if is_digit_to(b'3', *high) && is_digit_to(b'7', *middle) && is_digit_to(b'7', *low) {
        Some((octal_value(*high, *middle, *low), 3))
    } else {
        None
    }
}

/// Whether a byte is a digit from `0` to `last`.
fn is_digit_to(last: u8, byte: u8) -> bool
    ensures test { result ≡ is_digit_to last byte }
    ensures bounds { IsTrue result → (48 ≤ byte) × (byte ≤ last) }
{
    b'0' <= byte && byte <= last
}

/// The number that three octal digits write.
fn octal_value(high: u8, middle: u8, low: u8) -> u8
    requires high { (48 ≤ high) × (high ≤ 51) }
    requires middle { (48 ≤ middle) × (middle ≤ 55) }
    requires low { (48 ≤ low) × (low ≤ 55) }
    ensures { result ≡ (high - 48) * 64 + (middle - 48) * 8 + (low - 48) }
{
    (high - b'0') * 64 + (middle - b'0') * 8 + (low - b'0')
}

/// The byte that a letter stands for behind a backslash.
fn letter_byte(letter: u8) -> Option<u8>
    ensures { result ≡ letter_byte letter }
{
    match letter {
        b'a' => Some(7),
        b'b' => Some(8),
        b't' => Some(9),
        b'n' => Some(10),
        b'v' => Some(11),
        b'f' => Some(12),
        b'r' => Some(13),
        b'"' | b'\\' => Some(letter),
        _ => None,
    }
}
