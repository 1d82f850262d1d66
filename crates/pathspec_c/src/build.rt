//! Makes searches of texts.
ghost use Rattle.std.specs.Prelude.{◌≡◌, map, IsTrue};
ghost use Rattle.pathspec_parts.specs.Paths.{is_clean_prefix};
ghost use Rattle.gix_pathspec.specs.Building.{Builds, IsErrorAt};
ghost use Rattle.gix_pathspec.specs.Lines.{readings_from, search_of_texts};
ghost use Rattle.gix_pathspec.specs.Patterns.{pattern_spec};
ghost use Rattle.gix_pathspec.specs.Reading.{reading};
ghost use Rattle.gix_pathspec.specs.Search.{at_number};
ghost use Rattle.pathspec_c.specs.Calls.{texts_in};

use bstr::BStr;
use gix_pathspec::{BuildError, Defaults, Error, Pattern, Search, parse};
use pathspec_parts::split;
use std::alloc::Global;

/// Makes the search of texts, each ended by the byte 0, in the directory `prefix` of the repository at `root`.
///
/// # Errors
/// The first fault of a text as it is read, and then of a spec as it is normalised; or [`BuildError::Memory`].
pub(crate) fn search_of_texts(
    alloc: Global,
    texts: &[u8],
    defaults: Defaults,
    prefix: &[u8],
    root: &[u8],
) -> Result<Search, BuildError>
    requires { IsTrue (is_clean_prefix prefix.now) }
    ensures { Builds (λ search. search.specs)
        (search_of_texts defaults prefix.now root.now (texts_in texts.now)) result }
{
    let patterns = parse_texts(alloc, texts, defaults)?;
    Search::from_specs(alloc, patterns, Some(BStr::new(prefix)), BStr::new(root))
}

/// Reads the pattern of each text.
fn parse_texts(alloc: Global, texts: &[u8], defaults: Defaults) -> Result<Vec<Pattern>, BuildError>
    ensures { Builds (λ patterns. map pattern_spec patterns.items)
        (readings_from 0 defaults (texts_in texts.now)) result }
{
    let mut patterns = Vec::new(alloc);
    let mut rest = texts;
    while !rest.is_empty() {
        let (text, others) = split::at_first(rest, 0);
        let pattern = parse_text(alloc, patterns.len(), text, defaults)?;
        patterns.push(pattern)?;
        rest = others;
    }
    Ok(patterns)
}

/// Reads the pattern of the text with a number.
fn parse_text(
    alloc: Global,
    number: usize,
    text: &[u8],
    defaults: Defaults,
) -> Result<Pattern, BuildError>
    ensures { Builds pattern_spec (at_number number (reading defaults text.now)) result }
{
    match parse::parse(alloc, text, defaults) {
        Ok(pattern) => Ok(pattern),
        Err(error) => Err(error_at(number, error)),
    }
}

/// The build error for an error of the text with a number.
fn error_at(number: usize, error: Error) -> BuildError
    ensures { IsErrorAt number error result }
{
    match error {
        Error::Memory => BuildError::Memory,
        error => BuildError::Spec(number, error),
    }
}
