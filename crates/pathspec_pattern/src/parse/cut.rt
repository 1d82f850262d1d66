//! The cut of a text into its magic and its body.
ghost use Rattle.std.specs.Prelude.{◌≡◌, drop, IfNone, IfSome, IsFalse, length, ◌≤◌};
ghost use Rattle.std.specs.Option.{option_map};
ghost use Rattle.std.specs.List.{take_while, prefix_len};
ghost use Rattle.pathspec_parts.specs.Bytes.{first_is};
ghost use Rattle.pathspec_pattern.specs.Errors.{IsAnswer};
ghost use Rattle.pathspec_pattern.specs.Reading.{Cut as Parts, cut_of, after_mark, is_short, is_unimplemented, is_colon, BeginsFree};

use crate::{Error, error};
use pathspec_parts::split;
use std::alloc::Global;
use std::marker::Model;

/// The parts of a text with magic, after its `:`.
#[derive(Drop)]
pub(super) struct Cut<'t> {
    /// Short magic: bytes of `/`, `^` and `!`.
    pub(super) short: &'t [u8],
    /// Whether a further `:` ends the short magic.
    pub(super) ended: bool,
    /// The text in parentheses, if there are any.
    pub(super) long: Option<&'t [u8]>,
    pub(super) body: &'t [u8],
}

impl<'t> Model for Cut<'t> {
    ghost Value = { Parts };

    ghost view = { λ c. record { short = c.short.now; ended = c.ended; long = option_map (λ long. long.now) c.long; body = c.body.now } };
}

/// Cuts a text that begins with `:`. It looks at each byte at most twice.
///
/// # Errors
/// [`Error::UnimplementedShort`] and [`Error::MissingParen`]; for the second it copies the text, which may be
/// [`Error::Memory`].
pub(super) fn cut_text(alloc: Global, text: &[u8]) -> Result<Cut<'_>, Error>
    ensures { IsAnswer (cut_of text.now) result }
{
    let (short, rest) = split_short(after_first(text));
    if let Some(byte) = free_byte(rest) {
        return Err(Error::UnimplementedShort(byte));
    }
    let (ended, rest) = split_mark(rest);
    let Some(inside) = rest.strip_prefix(b"(") else {
        return Ok(Cut {
            short,
            ended,
            long: None,
            body: rest,
        });
    };
    if !inside.contains(&b')') {
        return Err(Error::MissingParen(error::to_vec(alloc, text)?));
    }
    let (long, body) = split::at_first(inside, b')');
    Ok(Cut {
        short,
        ended,
        long: Some(long),
        body,
    })
}

/// The text behind its first byte.
fn after_first(text: &[u8]) -> &[u8]
    ensures { result.now ≡ drop 1 text.now }
{
    match text {
        [_, rest @ ..] => rest,
        [] => text,
    }
}

/// The byte in front, if git keeps it free for more short magic.
fn free_byte(rest: &[u8]) -> Option<u8>
    ensures none { IfNone result (IsFalse (first_is is_unimplemented rest.now)) }
    ensures free { IfSome result (BeginsFree rest.now) }
{
    match rest {
        [byte, ..] if is_unimplemented(*byte) => Some(*byte),
        _ => None,
    }
}

/// Splits a text into the short magic in front and the rest.
fn split_short(magic: &[u8]) -> (&[u8], &[u8])
    ensures short { result.0.now ≡ take_while is_short magic.now }
    ensures rest { result.1.now ≡ drop (prefix_len is_short magic.now) magic.now }
{
    magic.split_at(short_len(magic))
}

/// The count of bytes of short magic in front.
fn short_len(magic: &[u8]) -> usize
    ensures count { result ≡ prefix_len is_short magic.now }
    ensures within { result ≤ length magic.now }
{
    magic.iter().take_while(|byte| is_short(**byte)).count()
}

/// Whether the end mark `:` stands in front, and the text behind it.
fn split_mark(rest: &[u8]) -> (bool, &[u8])
    ensures ended { result.0 ≡ first_is is_colon rest.now }
    ensures rest { result.1.now ≡ after_mark rest.now }
{
    match rest {
        [b':', others @ ..] => (true, others),
        _ => (false, rest),
    }
}

/// Whether the byte is short magic.
fn is_short(byte: u8) -> bool
    ensures { result ≡ is_short byte }
{
    matches!(byte, b'/' | b'^' | b'!')
}

/// Whether git keeps the byte free for more short magic.
#[tactic(auto, unfolding(crate::specs::Reading::is_unimplemented))]
fn is_unimplemented(byte: u8) -> bool
    ensures { result ≡ is_unimplemented byte }
{
    b"\"#%&'-,;<=>@_`~".contains(&byte)
}
