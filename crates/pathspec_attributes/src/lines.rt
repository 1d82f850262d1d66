//! The lines of an attribute file, and the words of a line (gitattributes).
ghost use Rattle.std.specs.Prelude.{◌≡◌, ◌==◌, ◌<◌, [], ◌∷◌, length, MatchOption};
ghost use Rattle.std.specs.List.{after_first, before_first, position, prefix_len};
ghost use Rattle.std.specs.Str.Lines.{lines, strip_carriage_return};
ghost use Rattle.pathspec_attributes.specs.Lines.{before_nul, behind_blanks, is_blank, without_order_mark};

use pathspec_parts::split;

/// The text without a byte order mark in front.
pub(crate) fn without_order_mark(text: &[u8]) -> &[u8]
    ensures { result.now ≡ without_order_mark text.now }
{
    if text.starts_with(b"\xef\xbb\xbf") {
        &text[3..]
    } else {
        text
    }
}

/// The first line of a text, without its line feed and a carriage return before that, and what stands behind it. None for
/// the empty text.
pub(crate) fn next_line(text: &[u8]) -> Option<(&[u8], &[u8])>
    ensures { MatchOption result (lines text.now ≡ [])
        (λ x. (lines text.now ≡ x.0.now ∷ lines x.1.now) × (length x.1.now < length text.now)) }
{
    if text.is_empty() {
        return None;
    }
    match place_of_line_feed(text) {
        Some(at) => Some((without_carriage_return(&text[..at]), &text[at + 1..])),
        None => Some((text, &[])),
    }
}

/// The place of the first line feed.
fn place_of_line_feed(text: &[u8]) -> Option<usize>
    ensures { result ≡ position (λ b. b == 10) text.now }
{
    text.iter().position(|byte| *byte == b'\n')
}

/// The line without a carriage return at its end.
fn without_carriage_return(line: &[u8]) -> &[u8]
    ensures { result.now ≡ strip_carriage_return line.now }
{
    match line {
        [front @ .., b'\r'] => front,
        _ => line,
    }
}

/// What stands before the first byte 0.
pub(crate) fn before_nul(text: &[u8]) -> &[u8]
    ensures { result.now ≡ before_nul text.now }
{
    split::at_first(text, 0).0
}

/// The text without the blanks in front.
pub(crate) fn behind_blanks(text: &[u8]) -> &[u8]
    ensures { result.now ≡ behind_blanks text.now }
{
    text.split_at(blank_count(text)).1
}

/// The count of blanks in front.
fn blank_count(text: &[u8]) -> usize
    ensures { result ≡ prefix_len is_blank text.now }
{
    text.iter()
        .copied()
        .take_while(|byte| is_blank(*byte))
        .count()
}

/// What stands before the first blank, and what stands behind it. Without a blank, all stands before it.
pub(crate) fn at_first_blank(text: &[u8]) -> (&[u8], &[u8])
    ensures before { result.0.now ≡ before_first is_blank text.now }
    ensures behind { result.1.now ≡ after_first is_blank text.now }
{
    match place_of_blank(text) {
        Some(at) => (&text[..at], &text[at + 1..]),
        None => (text, &[]),
    }
}

/// The place of the first blank.
fn place_of_blank(text: &[u8]) -> Option<usize>
    ensures { result ≡ position is_blank text.now }
{
    text.iter().position(|byte| is_blank(*byte))
}

/// Whether a byte is a space, a tab, a line feed or a carriage return.
pub(crate) fn is_blank(byte: u8) -> bool
    ensures { result ≡ is_blank byte }
{
    matches!(byte, b' ' | b'\t' | b'\n' | b'\r')
}
