//! Long magic (gitglossary, "pathspec"): reads what its pieces ask for.
ghost use Rattle.std.specs.Prelude.{◌≡◌, map, unwrap_or, None};
ghost use Rattle.std.specs.Option.{option_map};
ghost use Rattle.pathspec_parts.specs.AttributeStates.{assignment_view};
ghost use Rattle.pathspec_pattern.specs.Errors.{IsAnswer};
ghost use Rattle.pathspec_pattern.specs.Signatures.{signature_bits};
ghost use Rattle.pathspec_pattern.specs.Keywords.{keyword_view};
ghost use Rattle.pathspec_pattern.specs.Reading.{Magic as ParsedMagic, keyword_of, valued_keyword_of, same_mode, with_mode, with_list, with_prefix, with_piece, with_pieces, long_pieces, no_magic};

use super::{lists, pieces, prefix};
use crate::{Error, MagicSignature, SearchMode, error};
use bitflags::Flags;
use pathspec_parts::attributes::Assignment;
use std::alloc::Global;
use std::marker::Model;

/// The magic of a text, as far as it was read.
#[derive(Drop)]
pub(super) struct Magic<'p> {
    pub(super) signature: MagicSignature,
    pub(super) mode: Option<SearchMode>,
    pub(super) attributes: Vec<Assignment>,
    /// The last piece `prefix:` with its digits.
    pub(super) prefix: Option<&'p [u8]>,
}

impl<'p> Model for Magic<'p> {
    ghost Value = { ParsedMagic };

    ghost view = { λ m. record { signature = signature_bits m.signature; mode = m.mode; attributes = map assignment_view m.attributes.items; prefix = option_map (λ piece. piece.now) m.prefix } };
}

/// The meaning of a piece of long magic.
enum Keyword<'p> {
    /// A bit of the signature.
    Flag(MagicSignature),
    /// A mode.
    Mode(SearchMode),
    /// A piece that asks for nothing, as `attr`.
    Ignored,
    /// The attributes of a list.
    Attributes(&'p [u8]),
    /// The prefix length that digits write.
    PrefixLength(&'p [u8]),
    /// A piece that is no keyword.
    Unknown,
}

/// The keyword that a piece is.
fn keyword_of(piece: &[u8]) -> Keyword<'_>
    ensures { keyword_view result ≡ keyword_of piece.now }
{
    if piece == b"top".as_slice() {
        Keyword::Flag(MagicSignature::TOP)
    } else if piece == b"icase".as_slice() {
        Keyword::Flag(MagicSignature::ICASE)
    } else if piece == b"exclude".as_slice() {
        Keyword::Flag(MagicSignature::EXCLUDE)
    } else if piece == b"literal".as_slice() {
        Keyword::Mode(SearchMode::Literal)
    } else if piece == b"glob".as_slice() {
        Keyword::Mode(SearchMode::PathAwareGlob)
    } else if piece == b"attr".as_slice() {
        Keyword::Ignored
    } else {
        valued_keyword_of(piece)
    }
}

/// The keyword that a piece with a value is, as `attr:a`.
fn valued_keyword_of(piece: &[u8]) -> Keyword<'_>
    ensures { keyword_view result ≡ valued_keyword_of piece.now }
{
    if let Some(list) = piece.strip_prefix(b"attr:") {
        Keyword::Attributes(list)
    } else if let Some(digits) = piece.strip_prefix(b"prefix:") {
        Keyword::PrefixLength(digits)
    } else {
        Keyword::Unknown
    }
}

/// Whether the modes are the same.
fn is_same_mode(mode: SearchMode, other: SearchMode) -> bool
    ensures { result ≡ same_mode mode other }
{
    mode == other
}

impl<'p> Magic<'p> {
    /// Magic that asks for nothing.
    pub(super) fn none(alloc: Global) -> Magic<'p>
        ensures { result ≡ no_magic }
    {
        Magic {
            signature: MagicSignature::empty(),
            mode: None,
            attributes: Vec::new(alloc),
            prefix: None,
        }
    }

    /// Adds the search mode that a piece picks. A mode may be picked twice; two different modes are refused.
    fn with_mode(self, alloc: Global, piece: &[u8], mode: SearchMode) -> Result<Magic<'p>, Error>
        ensures { IsAnswer (with_mode self.entry piece.now mode) result }
    {
        if !is_same_mode(self.mode.unwrap_or(mode), mode) {
            return Err(Error::LiteralWithGlob(error::to_vec(alloc, piece)?));
        }
        Ok(Magic {
            mode: Some(mode),
            ..self
        })
    }

    /// Adds the attributes that a piece lists. A second list is refused, unless the first was of spaces alone.
    fn with_attributes(self, alloc: Global, piece: &[u8], list: &[u8]) -> Result<Magic<'p>, Error>
        ensures { IsAnswer (with_list self.entry piece.now list.now) result }
    {
        if !self.attributes.is_empty() {
            return Err(Error::SecondAttributes(error::to_vec(alloc, piece)?));
        }
        Ok(Magic {
            attributes: lists::attributes(alloc, list)?,
            ..self
        })
    }

    /// Adds the prefix length that a piece asks for. Of several pieces the last counts.
    fn with_prefix(self, alloc: Global, piece: &'p [u8], digits: &[u8]) -> Result<Magic<'p>, Error>
        ensures { IsAnswer (with_prefix self.entry piece.now digits.now) result }
    {
        if !prefix::is_number(digits) {
            return Err(Error::InvalidPrefix(error::to_vec(alloc, piece)?));
        }
        Ok(Magic {
            prefix: Some(piece),
            ..self
        })
    }

    /// Adds what a piece asks for: `icase` adds a flag, `glob` a search mode, `attr:a` attributes, `prefix:2` a prefix length.
    fn with_piece(self, alloc: Global, piece: &'p [u8]) -> Result<Magic<'p>, Error>
        ensures { IsAnswer (with_piece self.entry piece.now (keyword_of piece.now)) result }
    {
        match keyword_of(piece) {
            Keyword::Flag(flag) => Ok(Magic {
                signature: self.signature.union(flag),
                ..self
            }),
            Keyword::Mode(mode) => self.with_mode(alloc, piece, mode),
            Keyword::Ignored => Ok(self),
            Keyword::Attributes(list) => self.with_attributes(alloc, piece, list),
            Keyword::PrefixLength(digits) => self.with_prefix(alloc, piece, digits),
            Keyword::Unknown => Err(Error::InvalidKeyword(error::to_vec(alloc, piece)?)),
        }
    }
}

/// Adds what the pieces of long magic ask for to the magic before them. The call looks at each byte a fixed number of times.
///
/// # Errors
/// For the first piece at fault [`Error::InvalidKeyword`], [`Error::LiteralWithGlob`], [`Error::SecondAttributes`] or the
/// error of its list, as [`lists::attributes`] gives it; [`Error::Memory`].
pub(super) fn after_long<'p>(
    alloc: Global,
    short: Magic<'p>,
    long: &'p [u8],
) -> Result<Magic<'p>, Error>
    ensures { IsAnswer (with_pieces short.entry (long_pieces long.now)) result }
{
    let mut magic = short;
    let mut rest = Some(long);
    while let Some(text) = rest {
        let (piece, others) = pieces::split_piece(text);
        if !piece.is_empty() {
            magic = magic.with_piece(alloc, piece)?;
        }
        rest = others;
    }
    Ok(magic)
}
