//! Where a byte stands, and what is cut there.
ghost use Rattle.std.specs.Prelude.{◌≡◌, ◌+◌, ◌<◌, ◌==◌, if◌then◌else◌, length, take, drop, IfSome};
ghost use Rattle.std.specs.List.{list_any, position, position_or_len};

/// The position of the first byte of a kind.
pub(crate) fn position_of(text: &[u8], byte: u8) -> Option<usize>
    ensures place { result ≡ (if list_any (λ b. b == byte) text.now
        then Some (position_or_len (λ b. b == byte) text.now) else None) }
    ensures within { IfSome result (λ at. at < length text.now) }
{
    first_position(text, byte)
}

/// The position of the first byte of a kind, as the contract of the iterator's `position` names it.
fn first_position(text: &[u8], byte: u8) -> Option<usize>
    ensures { result ≡ position (λ b. b == byte) text.now }
{
    text.iter().position(|b| *b == byte)
}

/// What stands before a byte, and what follows it.
pub(crate) fn around(text: &[u8], at: usize) -> (&[u8], &[u8])
    requires { at < length text.now }
    ensures front { result.0.now ≡ take at text.now }
    ensures back { result.1.now ≡ drop (at + 1) text.now }
{
    (&text[..at], &text[at + 1..])
}
