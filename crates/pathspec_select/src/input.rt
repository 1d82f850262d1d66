//! Inputs that have specs before their listing.
ghost use Rattle.std.specs.Prelude.{◌≡◌, true, false, IfOk, IfErr};
ghost use Rattle.pathspec_select.specs.Input.{is_end_line, has_end_line, spec_text, listing_text};

use crate::Refusal;
use bstr::ByteSlice;

/// The two parts of an input: before the line `--`, and after it.
#[derive(Drop)]
pub(crate) struct Parts<'i> {
    /// The lines of the specs.
    pub(crate) specs: &'i [u8],
    pub(crate) listing: &'i [u8],
}

/// Divides an input at its first line `--`. The call copies nothing, and looks at each byte up to that line once.
///
/// # Errors
/// [`Refusal::Specs`]: no line is `--`.
pub(crate) fn divide(input: &[u8]) -> Result<Parts<'_>, Refusal>
    ensures divided { IfOk result (λ parts. has_end_line input.now ≡ true) }
    ensures specs { IfOk result (λ parts. parts.specs.now ≡ spec_text input.now) }
    ensures listing { IfOk result (λ parts. parts.listing.now ≡ listing_text input.now) }
    ensures refused { IfErr result (λ refused. refused ≡ Refusal.Specs) }
    ensures undivided { IfErr result (λ refused. has_end_line input.now ≡ false) }
{
    let mut lines = input.lines_with_terminator();
    let mut before = 0;
    while let Some(line) = lines.next() {
        if is_end_line(line) {
            return Ok(Parts {
                specs: &input[..before],
                listing: lines.as_bytes(),
            });
        }
        before += line.len();
    }
    Err(Refusal::Specs)
}

/// Whether a line is `--`, whatever ends it.
fn is_end_line(line: &[u8]) -> bool
    ensures { result ≡ is_end_line line.now }
{
    line == b"--".as_slice() || line == b"--\n".as_slice() || line == b"--\r\n".as_slice()
}
