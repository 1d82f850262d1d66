//! The prefix length that long magic asks for by `prefix:` and decimal digits.
ghost use Rattle.std.specs.Prelude.{◌≡◌, true, false, IfNone, IfSome, drop};
ghost use Rattle.std.specs.List.{list_all};
ghost use Rattle.std.specs.Char.{is_ascii_digit};
ghost use Rattle.std.specs.Option.{option_map};
ghost use Rattle.pathspec_pattern.specs.Errors.{IsAnswer};
ghost use Rattle.pathspec_pattern.specs.Specs.{is_boundary};
ghost use Rattle.pathspec_pattern.specs.Reading.{is_number, prefix_length_of, piece_number};

use crate::{Error, error};
use pathspec_parts::truth::decimal_value;
use std::alloc::Global;

/// Whether the text is one or more decimal digits.
pub(super) fn is_number(digits: &[u8]) -> bool
    ensures { result ≡ is_number digits.now }
{
    !digits.is_empty() && are_digits(digits)
}

/// Whether each byte is a decimal digit.
fn are_digits(text: &[u8]) -> bool
    ensures { result ≡ list_all is_ascii_digit text.now }
{
    text.iter().all(|byte| byte.is_ascii_digit())
}

/// The prefix length that the last piece `prefix:` asks for, if there is one.
pub(super) fn length_of(alloc: Global, prefix: Option<&[u8]>, path: &[u8]) -> Result<usize, Error>
    ensures { let piece = option_map (λ piece. piece.now) prefix.entry in
        IsAnswer (prefix_length_of piece path.now) result }
{
    let Some(piece) = prefix else {
        return Ok(0);
    };
    match boundary_of(path, piece) {
        Some(length) => Ok(length),
        None => Err(Error::InvalidPrefix(error::to_vec(alloc, piece)?)),
    }
}

/// The number that a piece `prefix:` writes, if it is a boundary of the path.
fn boundary_of(path: &[u8], piece: &[u8]) -> Option<usize>
    ensures none { IfNone result (is_boundary path.now (piece_number piece.now) ≡ false) }
    ensures some { IfSome result (λ length. (length ≡ piece_number piece.now)
        × (is_boundary path.now (piece_number piece.now) ≡ true)) }
{
    let length = decimal_value(digits_of(piece)) as usize;
    if !is_boundary(path, length) {
        return None;
    }
    Some(length)
}

/// The digits behind the `prefix:` of a piece.
fn digits_of(piece: &[u8]) -> &[u8]
    ensures { result.now ≡ drop 7 piece.now }
{
    let start = piece.len().min(7);
    &piece[start..]
}

/// Whether the length is 0, that of the path, or the position of a slash.
fn is_boundary(path: &[u8], length: usize) -> bool
    ensures { result ≡ is_boundary path.now length }
{
    length == 0 || length == path.len() || path.get(length) == Some(&b'/')
}
