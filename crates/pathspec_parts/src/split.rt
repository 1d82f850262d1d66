//! Byte strings, cut in two.
ghost use Rattle.std.specs.Prelude.{◌≡◌, ◌==◌};
ghost use Rattle.std.specs.List.{before_first, after_first, position};

use bstr::ByteSlice;

/// The bytes before the first byte of a kind, and those after it: `a` and `b,c` for `a,b,c` at `,`. Without such a byte, all
/// stand before it and none after it.
///
/// The call looks at each byte up to that one.
pub fn at_first(bytes: &[u8], byte: u8) -> (&[u8], &[u8])
    ensures before { result.0.now ≡ before_first (λ b. b == byte) bytes.now }
    ensures after { result.1.now ≡ after_first (λ b. b == byte) bytes.now }
{
    match place_of(bytes, byte) {
        Some(at) => (&bytes[..at], &bytes[at + 1..]),
        None => (bytes, &[]),
    }
}

/// The position of the first byte of a kind.
fn place_of(bytes: &[u8], byte: u8) -> Option<usize>
    ensures { result ≡ position (λ b. b == byte) bytes.now }
{
    bytes.find_byte(byte)
}
