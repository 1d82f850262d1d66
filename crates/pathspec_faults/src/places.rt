//! Where in the text of a spec a fault is.
ghost use Rattle.std.specs.Prelude.{◌≡◌, ◌≤◌, length};
ghost use Rattle.pathspec_pattern.specs.Errors.{fault_of};
ghost use Rattle.pathspec_faults.specs.Places.{place_told, place_of_first, place_at_end, place_of_path};
ghost use Rattle.pathspec_faults.specs.PlaceLaws.{PlaceLiesInText, PlaceHoldsCarried, PlaceHoldsPath, PlaceHoldsWord};

use crate::magic;
use crate::positions::position_of;
use crate::wanted::Wanted;
use pathspec_parts::path;
use pathspec_pattern::Error;
use std::ops::Range;

/// The range of bytes in a spec's text that the fault of reading or normalising it is about.
///
/// It holds what the error carries: the piece, the name, the value or the byte in magic, or the path. For
/// [`Error::EmptyAttributes`] it is the piece `attr:`. Where nothing less is at fault it is the whole text, as for
/// [`Error::MissingParen`], and for [`Error::NotTruth`], whose text is the variable's word.
///
/// The call looks at each byte a fixed number of times, and takes no memory.
pub fn place(text: &[u8], error: &Error) -> Range<usize>
    ensures place { result ≡ place_told (fault_of error.now) text.now }
    ensures within { (result.start ≤ result.end) × (result.end ≤ length text.now) }
    // The place lies in the text, and holds what the error carries, where parse or normalize gave that for the text.
    ensures laws { PlaceLiesInText × PlaceHoldsCarried × PlaceHoldsPath × PlaceHoldsWord }
{
    place_told(text, error)
}

/// The place, as the definition has it.
fn place_told(text: &[u8], error: &Error) -> Range<usize>
    ensures { result ≡ place_told (fault_of error.now) text.now }
{
    let found = match error {
        Error::UnimplementedShort(byte) => place_of_first(text, *byte),
        Error::InvalidKeyword(piece)
        | Error::LiteralWithGlob(piece)
        | Error::SecondAttributes(piece)
        | Error::InvalidPrefix(piece) => magic::place_in_magic(text, &Wanted::Piece(piece)),
        Error::EmptyAttributes => magic::place_in_magic(text, &Wanted::Piece(b"attr:")),
        Error::InvalidName(name) => magic::place_in_magic(text, &Wanted::Name(name)),
        Error::InvalidValueByte(byte) => magic::place_in_magic(text, &Wanted::ValueByte(*byte)),
        Error::TrailingEscape(value) => magic::place_in_magic(text, &Wanted::Value(value)),
        Error::OutsideRoot(path) | Error::LeavesRepository(path) => place_of_path(text, path),
        Error::Empty
        | Error::MissingParen(_)
        | Error::NotTruth(_)
        | Error::GlobAndNoGlob
        | Error::Memory => None,
    };
    found.unwrap_or(0..text.len())
}

/// The first such byte of a text.
fn place_of_first(text: &[u8], byte: u8) -> Option<Range<usize>>
    ensures { result ≡ place_of_first byte text.now }
{
    let at = position_of(text, byte)?;
    Some(at..at + 1)
}

/// The path of a text, which a slash may follow.
fn place_of_path(text: &[u8], path: &[u8]) -> Option<Range<usize>>
    ensures { result ≡ place_of_path path.now text.now }
{
    place_at_end(path::strip_last_slash(text).0, path).or(place_at_end(text, path))
}

/// The last bytes of a text, if they are a path.
fn place_at_end(text: &[u8], path: &[u8]) -> Option<Range<usize>>
    ensures { result ≡ place_at_end path.now text.now }
{
    if !text.ends_with(path) {
        return None;
    }
    Some(text.len() - path.len()..text.len())
}
