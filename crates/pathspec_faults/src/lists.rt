//! Where something stands in a list of attributes.
ghost use Rattle.std.specs.Prelude.{◌≡◌, ◌+◌, ◌<◌, ◌^◌, false, length};
ghost use Rattle.pathspec_faults.specs.Places.{place_in_list, place_in_part, place_in_name, place_in_assignment, place_of_byte};
ghost use Rattle.pathspec_faults.specs.WantedViews.{wanted_view};

use crate::magic::place_if_equal;
use crate::positions::{around, position_of};
use crate::wanted::Wanted;
use pathspec_parts::split;
use pathspec_pattern::parse::is_escape;
use std::ops::Range;

/// The place in a list of attributes, which begins at `start`.
pub(crate) fn place_in_list(list: &[u8], start: usize, wanted: &Wanted<'_>) -> Option<Range<usize>>
    requires { start + length list.now < 2 ^ 63 }
    ensures { result ≡ place_in_list (wanted_view wanted.now) start list.now }
{
    let mut rest = list;
    let mut from = start;
    while let Some(at) = position_of(rest, b' ') {
        let (part, others) = around(rest, at);
        let found = place_in_part(part, from, wanted);
        if found.is_some() {
            return found;
        }
        rest = others;
        from += at + 1;
    }
    place_in_part(rest, from, wanted)
}

/// The place in a part of a list.
fn place_in_part(part: &[u8], start: usize, wanted: &Wanted<'_>) -> Option<Range<usize>>
    requires { start + length part.now < 2 ^ 63 }
    ensures { result ≡ place_in_part (wanted_view wanted.now) start part.now }
{
    match part {
        [b'!' | b'-', name @ ..] => place_in_name(name, start + 1, wanted),
        _ => place_in_assignment(part, start, wanted),
    }
}

/// The place in what follows a mark, which is a name.
fn place_in_name(name: &[u8], start: usize, wanted: &Wanted<'_>) -> Option<Range<usize>>
    requires { start + length name.now < 2 ^ 63 }
    ensures { result ≡ place_in_name (wanted_view wanted.now) start name.now }
{
    match wanted {
        Wanted::Name(wanted) => place_if_equal(name, start, wanted),
        _ => None,
    }
}

/// The place in a part without a mark: a name, or `name=value`.
fn place_in_assignment(part: &[u8], start: usize, wanted: &Wanted<'_>) -> Option<Range<usize>>
    requires { start + length part.now < 2 ^ 63 }
    ensures { result ≡ place_in_assignment (wanted_view wanted.now) start part.now }
{
    let (name, value) = split::at_first(part, b'=');
    let value_start = start + part.len() - value.len();
    match wanted {
        Wanted::Piece(_) => None,
        Wanted::Name(wanted) => place_if_equal(name, start, wanted),
        Wanted::Value(wanted) => place_if_equal(value, value_start, wanted),
        Wanted::ValueByte(byte) => place_of_byte(value, value_start, *byte),
    }
}

/// The first such byte of a value, other than a backslash that escapes.
fn place_of_byte(value: &[u8], start: usize, wanted: u8) -> Option<Range<usize>>
    requires { start + length value.now < 2 ^ 63 }
    ensures { result ≡ place_of_byte wanted false start value.now }
{
    let mut escaped = false;
    for (index, byte) in value.iter().enumerate() {
        let escapes = is_escape(*byte, escaped);
        if !escapes && *byte == wanted {
            let at = start + index;
            return Some(at..at + 1);
        }
        escaped = escapes;
    }
    None
}
