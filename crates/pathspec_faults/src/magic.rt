//! Where something stands in long magic.
ghost use Rattle.std.specs.Prelude.{◌≡◌, ◌+◌, ◌<◌, ◌^◌, length};
ghost use Rattle.pathspec_faults.specs.Places.{place_if_equal, place_in_attributes, place_in_piece, place_in_pieces, place_in_magic};
ghost use Rattle.pathspec_faults.specs.WantedViews.{wanted_view};

use crate::lists;
use crate::positions::{around, position_of};
use crate::wanted::Wanted;
use pathspec_parts::split;
use pathspec_pattern::parse::place_of_cut;
use std::ops::Range;

/// The place in a text of what is looked for in its long magic.
pub(crate) fn place_in_magic(text: &[u8], wanted: &Wanted<'_>) -> Option<Range<usize>>
    ensures { result ≡ place_in_magic (wanted_view wanted.now) text.now }
{
    let at = position_of(text, b'(')?;
    let (_, rest) = around(text, at);
    let (long, _) = split::at_first(rest, b')');
    place_in_pieces(long, at + 1, wanted)
}

/// The place in the text of long magic, which begins at `start`.
fn place_in_pieces(long: &[u8], start: usize, wanted: &Wanted<'_>) -> Option<Range<usize>>
    requires { start + length long.now < 2 ^ 63 }
    ensures { result ≡ place_in_pieces (wanted_view wanted.now) start long.now }
{
    let mut rest = long;
    let mut from = start;
    while let Some(at) = place_of_cut(rest) {
        let (piece, others) = around(rest, at);
        let found = place_in_piece(piece, from, wanted);
        if found.is_some() {
            return found;
        }
        rest = others;
        from += at + 1;
    }
    place_in_piece(rest, from, wanted)
}

/// The place in a piece, which begins at `start`.
fn place_in_piece(piece: &[u8], start: usize, wanted: &Wanted<'_>) -> Option<Range<usize>>
    requires { start + length piece.now < 2 ^ 63 }
    ensures { result ≡ place_in_piece (wanted_view wanted.now) start piece.now }
{
    match wanted {
        Wanted::Piece(wanted) => place_if_equal(piece, start, wanted),
        _ => place_in_attributes(piece, start, wanted),
    }
}

/// The place in a piece that may begin with `attr:`.
fn place_in_attributes(piece: &[u8], start: usize, wanted: &Wanted<'_>) -> Option<Range<usize>>
    requires { start + length piece.now < 2 ^ 63 }
    ensures { result ≡ place_in_attributes (wanted_view wanted.now) start piece.now }
{
    let list = piece.strip_prefix(b"attr:")?;
    lists::place_in_list(list, start + 5, wanted)
}

/// The place of a text that begins at `start`, if it is the one that is looked for.
pub(crate) fn place_if_equal(text: &[u8], start: usize, wanted: &[u8]) -> Option<Range<usize>>
    requires { start + length text.now < 2 ^ 63 }
    ensures { result ≡ place_if_equal wanted.now start text.now }
{
    if text != wanted {
        return None;
    }
    Some(start..start + text.len())
}
