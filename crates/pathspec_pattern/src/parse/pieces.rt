//! The pieces of long magic.
ghost use Rattle.std.specs.Prelude.{◌≡◌, IfNone, IfSome, MatchOption, ◌==◌, ◌&&◌, not};
ghost use Rattle.pathspec_parts.specs.Bytes.{comma, backslash};
ghost use Rattle.pathspec_pattern.specs.Reading.{IsOnlyPiece, IsFirstPiece, IsFirstCut};

/// The position of the first comma that cuts long magic: an even number of backslashes precedes it directly. It looks at each
/// byte up to there.
pub fn place_of_cut(long: &[u8]) -> Option<usize>
    ensures { MatchOption result (IsOnlyPiece long.now long.now) (IsFirstCut long.now) }
{
    let mut escaped = false;
    for (at, byte) in long.iter().enumerate() {
        if is_cut(*byte, escaped) {
            return Some(at);
        }
        escaped = is_escape(*byte, escaped);
    }
    None
}

/// Whether the byte is a comma that nothing escapes.
fn is_cut(byte: u8, is_escaped: bool) -> bool
    ensures { result ≡ (byte == comma && not is_escaped) }
{
    byte == b',' && !is_escaped
}

/// Whether the byte is a backslash that nothing escapes. `is_escaped` says whether the byte in front escapes it.
pub fn is_escape(byte: u8, is_escaped: bool) -> bool
    ensures { result ≡ (byte == backslash && not is_escaped) }
{
    byte == b'\\' && !is_escaped
}

/// The first piece, and the text behind the comma that cuts it off, if one does.
pub(super) fn split_piece(long: &[u8]) -> (&[u8], Option<&[u8]>)
    ensures last { IfNone result.1 (IsOnlyPiece long.now result.0.now) }
    ensures first { IfSome result.1 (λ others. IsFirstPiece long.now result.0.now others.now) }
{
    match place_of_cut(long) {
        Some(at) => (&long[..at], Some(&long[at + 1..])),
        None => (long, None),
    }
}
