//! Reading the text of a pathspec (gitglossary, "pathspec").
ghost use Rattle.std.specs.Prelude.{◌≡◌, [], ◌∷◌, bytes_eq, codes, if◌then◌else◌, IfOk, IfErr};
ghost use Rattle.std.specs.List.{list_any};
ghost use Rattle.pathspec_parts.specs.Bytes.{colon, first_is, is_one_of};
ghost use Rattle.pathspec_pattern.specs.Errors.{Computes, IsAnswer, IsMemory, IsMemoryOr};
ghost use Rattle.pathspec_pattern.specs.Signatures.{signature_bits};
ghost use Rattle.pathspec_pattern.specs.Specs.{BoundaryIsExact};
ghost use Rattle.pathspec_pattern.specs.Reading.{Reads, IsRefused, reading, magic_reading, magic_of, short_bits, spec_of, is_colon, OneCut, ReadingIsExact, ReadHasBoundary, PrefixIsAsked};
ghost use Rattle.pathspec_pattern.specs.Patterns.{pattern_spec};

mod cut;
mod lists;
mod magic;
mod pieces;
mod prefix;

use crate::{Defaults, Error, MagicSignature, Pattern};
use bitflags::Flags;
use cut::Cut;
pub use lists::attributes;
use magic::Magic;
use pathspec_parts::path;
pub use pieces::{is_escape, place_of_cut};
use std::alloc::Global;

/// Reads the text of a pathspec: `:` alone, a path, or a path behind magic. The defaults decide what the text doesn't say.
///
/// Short magic is `:` and bytes of `/`, `^` and `!`; a further `:` may end it. Long magic follows it in parentheses, as in
/// `:(top,icase)a`: `top`, `icase`, `exclude`, `literal`, `glob`, and `attr`, which asks for nothing. Once it may say `attr:`
/// with a list of attributes (see [`attributes`]). `prefix:` has the length of the prefix directory in decimal digits, and the
/// last one counts: so `:(icase,prefix:1)a/B` has the prefix directory `a`.
///
/// The call looks at each byte a fixed number of times. It takes memory for the path, for the attributes with their names and
/// values, or for the bytes that an error carries.
///
/// # Errors
/// - [`Error::Empty`] for the empty text, [`Error::UnimplementedShort`] for a byte of short magic that git keeps free, and
///   [`Error::MissingParen`] for `(` without `)`.
/// - For the first piece of long magic at fault: [`Error::InvalidKeyword`], [`Error::LiteralWithGlob`] for a second mode,
///   [`Error::SecondAttributes`] for a second list, a list's own error ([`attributes`]), or [`Error::InvalidPrefix`] for other
///   than digits.
/// - Else [`Error::InvalidPrefix`] where the last `prefix:` has no length that a directory of the path can have. Such lengths
///   are 0, the path's length, and the position of a slash.
/// - [`Error::Memory`].
pub fn parse(alloc: Global, input: &[u8], defaults: Defaults) -> Result<Pattern, Error>
    ensures reads { IfOk result (λ p. Reads defaults input.now (pattern_spec p)) }
    ensures refused { IfErr result (λ e. IsMemoryOr e (IsRefused defaults input.now)) }
    // The function that other definitions stand on says the same.
    ensures exact { Computes pattern_spec (reading defaults input.now) result }
    // A text has at most one cut, and the relation and the function say the same of each text.
    ensures grammar { OneCut × ReadingIsExact }
    // The prefix length of a spec that a text says is a boundary of its path, and 0 where no piece asks for one.
    ensures prefix { ReadHasBoundary × BoundaryIsExact × PrefixIsAsked }
{
    pattern_of(alloc, input, defaults)
}

/// Reads the pattern of a text.
fn pattern_of(alloc: Global, input: &[u8], defaults: Defaults) -> Result<Pattern, Error>
    ensures { Computes pattern_spec (reading defaults input.now) result }
{
    if input.is_empty() {
        return Err(Error::Empty);
    }
    if defaults.literal {
        return Pattern::from_literal(alloc, input, defaults.signature);
    }
    if !begins_with_colon(input) {
        return Pattern::with_body(alloc, defaults, Magic::none(alloc), input);
    }
    if is_lone_colon(input) {
        return Ok(Pattern::nil(alloc));
    }
    pattern_with_magic(alloc, input, defaults)
}

/// Reads the pattern of a text that begins with `:` and doesn't end there.
fn pattern_with_magic(alloc: Global, text: &[u8], defaults: Defaults) -> Result<Pattern, Error>
    ensures { Computes pattern_spec (magic_reading defaults text.now) result }
{
    let cut = cut::cut_text(alloc, text)?;
    let magic = magic_of(alloc, &cut)?;
    Pattern::with_body(alloc, defaults, magic, cut.body)
}

/// Reads the magic of a cut.
#[tactic(auto, unfolding(crate::specs::Reading::magic_of))]
fn magic_of<'p>(alloc: Global, cut: &Cut<'p>) -> Result<Magic<'p>, Error>
    ensures { IsAnswer (magic_of cut.now) result }
{
    let short = Magic {
        signature: signature_of(cut.short),
        mode: None,
        attributes: Vec::new(alloc),
        prefix: None,
    };
    magic::after_long(alloc, short, cut.long.unwrap_or(&[]))
}

/// Whether the text is `:` alone.
fn is_lone_colon(input: &[u8]) -> bool
    ensures { result ≡ bytes_eq input.now (colon ∷ []) }
{
    input == b":".as_slice()
}

/// Whether the text begins with `:`.
fn begins_with_colon(input: &[u8]) -> bool
    ensures { result ≡ first_is is_colon input.now }
{
    matches!(input, [b':', ..])
}

/// The flags that short magic asks for: `/` the top, `^` and `!` an exclude.
fn signature_of(short: &[u8]) -> MagicSignature
    ensures { signature_bits result ≡ short_bits short.now }
{
    let mut signature = MagicSignature::empty();
    signature.set(MagicSignature::TOP, short.contains(&b'/'));
    signature.set(MagicSignature::EXCLUDE, holds_exclude(short));
    signature
}

/// Whether short magic holds `^` or `!`.
fn holds_exclude(short: &[u8]) -> bool
    ensures { result ≡ list_any (is_one_of (codes "^!")) short.now }
{
    short.iter().any(|byte| matches!(*byte, b'^' | b'!'))
}

impl Pattern {
    // In line, since it takes the magic apart, and gives a large pattern, for each spec.
    /// Makes the pattern that magic and a body say.
    #[inline(always)]
    #[tactic(auto, unfolding(crate::specs::Reading::spec_of))]
    fn with_body(
        alloc: Global,
        defaults: Defaults,
        magic: Magic<'_>,
        body: &[u8],
    ) -> Result<Pattern, Error>
        ensures { Computes pattern_spec (spec_of defaults magic.entry body.now) result }
    {
        let (path, wants_directory) = path::strip_last_slash(body);
        let prefix_length = prefix::length_of(alloc, magic.prefix, path)?;
        let mut directory = MagicSignature::empty();
        directory.set(MagicSignature::MUST_BE_DIR, wants_directory);
        Ok(Pattern {
            path: Vec::from_slice(alloc, path)?,
            signature: defaults.signature.union(magic.signature).union(directory),
            search_mode: magic.mode.unwrap_or(defaults.search_mode),
            attributes: magic.attributes,
            nil: false,
            prefix_length,
        })
    }
}
