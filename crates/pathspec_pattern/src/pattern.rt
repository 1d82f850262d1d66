//! A pathspec as it is read from a text, and its normal form.
ghost use Rattle.std.specs.Prelude.{◌≡◌, [], map, IsTrue, IfOk, IfErr};
ghost use Rattle.bstr.specs.BStr.{bstr_bytes};
ghost use Rattle.pathspec_parts.specs.AttributeStates.{assignment_view};
ghost use Rattle.pathspec_parts.specs.Paths.{IsBytes};
ghost use Rattle.pathspec_pattern.specs.Errors.{IsMemory, IsMemoryOr, Computes};
ghost use Rattle.pathspec_pattern.specs.Signatures.{signature_bits};
ghost use Rattle.pathspec_pattern.specs.Specs.{is_exclude, always_matches, has_wildcard, is_glob, prefix_directory, is_boundary, has_boundary};
ghost use Rattle.pathspec_pattern.specs.Reading.{empty_spec, nil_spec, literal_spec, Reads, IsRefused, reading};

mod long_text;
mod normalize;

use crate::{Defaults, Error, MagicSignature, SearchMode, parse};
use bitflags::Flags;
use bstr::BStr;
use pathspec_parts::attributes::Assignment;
use pathspec_parts::glob::first_wildcard;
use std::alloc::{AllocError, Global};

/// A pathspec: a path, and the rules by which it is compared with paths.
///
/// Patterns compare by their path, signature, search mode, attributes, whether they are nil, and the length of their prefix
/// directory, in this order.
#[derive(Debug, Drop, PartialEq, Eq, PartialOrd, Ord, Hash)]
pub struct Pattern {
    pub(crate) path: Vec<u8>,
    /// The flags that the magic asks for.
    pub signature: MagicSignature,
    /// The way in which the path is compared with paths.
    pub search_mode: SearchMode,
    /// The attributes that a path must have, each with its state.
    pub attributes: Vec<Assignment>,
    pub(crate) nil: bool,
    /// The length of the prefix directory, in bytes.
    pub(crate) prefix_length: usize,
    ghost boundary: { IsTrue (is_boundary path.items prefix_length) },
    ghost nil_has_none: { IsTrue nil → prefix_length ≡ 0 },
}

impl Pattern {
    ghost use Rattle.pathspec_pattern.specs.Patterns.{pattern_spec, ComparesSpecs};

    /// The spec with an empty path, no magic and mode [`SearchMode::ShellGlob`]. It takes no memory.
    pub fn new(alloc: Global) -> Pattern
        ensures { pattern_spec result ≡ empty_spec }
    {
        Pattern {
            path: Vec::new(alloc),
            signature: MagicSignature::empty(),
            search_mode: SearchMode::ShellGlob,
            attributes: Vec::new(alloc),
            nil: false,
            prefix_length: 0,
        }
    }

    /// Reads the text of a pathspec, as [`parse::parse`] does, with its cost and its errors.
    ///
    /// # Errors
    /// The errors of [`parse::parse`].
    pub fn from_bytes(alloc: Global, input: &[u8], defaults: Defaults) -> Result<Pattern, Error>
        ensures reads { IfOk result (λ p. Reads defaults input.now (pattern_spec p)) }
        ensures refused { IfErr result (λ e. IsMemoryOr e (IsRefused defaults input.now)) }
        ensures exact { Computes pattern_spec (reading defaults input.now) result }
    {
        parse::parse(alloc, input, defaults)
    }

    /// The spec whose path is the text as it stands, in mode [`SearchMode::Literal`]. No slash is stripped.
    ///
    /// # Errors
    /// [`Error::Memory`] alone.
    pub fn from_literal(
        alloc: Global,
        path: &[u8],
        signature: MagicSignature,
    ) -> Result<Pattern, Error>
        ensures ok { IfOk result (λ p. pattern_spec p
            ≡ literal_spec (signature_bits signature) path.now) }
        ensures err { IfErr result IsMemory }
    {
        Ok(Pattern {
            path: Vec::from_slice(alloc, path)?,
            signature,
            search_mode: SearchMode::Literal,
            attributes: Vec::new(alloc),
            nil: false,
            prefix_length: 0,
        })
    }

    /// The spec `:`, which says that there is no pathspec. It takes no memory.
    pub fn nil(alloc: Global) -> Pattern
        ensures { pattern_spec result ≡ nil_spec }
    {
        Pattern {
            path: Vec::new(alloc),
            signature: MagicSignature::empty(),
            search_mode: SearchMode::ShellGlob,
            attributes: Vec::new(alloc),
            nil: true,
            prefix_length: 0,
        }
    }

    /// Clones the pattern.
    ///
    /// # Errors
    /// [`Error::Memory`] alone.
    pub fn try_clone(&self) -> Result<Pattern, Error>
        ensures ok { IfOk result (λ p. pattern_spec p ≡ pattern_spec self.now) }
        ensures err { IfErr result IsMemory }
        // The copy equals the pattern, since `==` compares just what the spec holds.
        ensures equal { ComparesSpecs ⟦<Pattern as PartialEq>⟧.eq }
    {
        Ok(Pattern {
            path: self.path.clone()?,
            signature: self.signature,
            search_mode: self.search_mode,
            attributes: cloned(*self.path.allocator(), self.attributes.as_slice())?,
            nil: self.nil,
            prefix_length: self.prefix_length,
        })
    }

    /// The path, without magic and without the last slash that asks for a directory.
    pub fn path(&self) -> BStr<'_>
        ensures path { bstr_bytes result ≡ (pattern_spec self.now).path }
        ensures bytes { IsBytes (pattern_spec self.now).path }
    {
        text_of(self.path.as_slice())
    }

    /// The directory in front of the path, without a last slash, that a spec without case compares with case. A text asks for
    /// it by `prefix:`. [`Pattern::normalize`] sets it to what came from the prefix: `a` for `b`, given in `a`. Of an absolute
    /// path it is all but the last component, or all where a directory is wanted. Otherwise it is empty.
    ///
    /// The directory is empty, the whole path, or followed by a slash. Its length is kept, so nothing is searched. A nil spec
    /// has none.
    pub fn prefix_directory(&self) -> BStr<'_>
        ensures directory { bstr_bytes result ≡ prefix_directory (pattern_spec self.now) }
        ensures boundary { IsTrue (has_boundary (pattern_spec self.now)) }
        ensures nil { IsTrue (pattern_spec self.now).nil → bstr_bytes result ≡ [] }
    {
        BStr::new(&self.path[..self.prefix_length])
    }

    /// Whether the spec is nil: it says that there is no pathspec, as `:` does.
    pub fn is_nil(&self) -> bool
        ensures { result ≡ (pattern_spec self.now).nil }
    {
        self.nil
    }

    /// Whether the spec is an exclude, which takes matching paths out.
    pub fn is_excluded(&self) -> bool
        ensures { result ≡ is_exclude (pattern_spec self.now) }
    {
        self.signature.contains(MagicSignature::EXCLUDE)
    }

    /// Whether every path matches: the spec is nil, or its path is empty.
    pub fn always_matches(&self) -> bool
        ensures { result ≡ always_matches (pattern_spec self.now) }
    {
        self.nil || self.path.is_empty()
    }

    /// Whether the spec isn't nil and its path holds `*`, `?`, `[` or `\`. Looks at each byte of the path once.
    pub fn has_wildcard(&self) -> bool
        ensures { result ≡ has_wildcard (pattern_spec self.now) }
    {
        !self.nil && first_wildcard(self.path.as_slice()).is_some()
    }

    /// Whether the path is compared as a glob: the spec has a wildcard, and its mode isn't [`SearchMode::Literal`]. Looks at
    /// each byte of the path once.
    pub fn is_glob(&self) -> bool
        ensures { result ≡ is_glob (pattern_spec self.now) }
    {
        self.has_wildcard() && self.search_mode != SearchMode::Literal
    }
}

/// A copy of a list of assignments.
fn cloned(alloc: Global, assignments: &[Assignment]) -> Result<Vec<Assignment>, AllocError>
    ensures { IfOk result (λ copy.
        map assignment_view copy.items ≡ map assignment_view assignments.now) }
{
    let mut copy = Vec::new(alloc);
    for assignment in assignments {
        copy.push(assignment.try_clone()?)?;
    }
    Ok(copy)
}

/// The bytes as a text.
fn text_of(bytes: &[u8]) -> BStr<'_>
    ensures text { bstr_bytes result ≡ bytes.now }
    ensures bytes { IsBytes bytes.now }
{
    BStr::new(bytes)
}
