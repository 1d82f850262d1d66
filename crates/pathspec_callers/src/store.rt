//! A caller of `gix_pathspec` that stores a search as texts, and makes it again from what it stored.
ghost use Rattle.std.specs.Prelude.{◌≡◌, Ok, map, IfOk, OnOk, IsTrue};
ghost use Rattle.bstr.specs.BStr.{bstr_bytes};
ghost use Rattle.bstr.specs.Owned.{bstring_bytes};
ghost use Rattle.pathspec_parts.specs.Paths.{is_clean_prefix};
ghost use Rattle.gix_pathspec.specs.Patterns.{pattern_spec};
ghost use Rattle.gix_pathspec.specs.Reading.{reading, no_defaults};
ghost use Rattle.gix_pathspec.specs.NormalForm.{NormalFormIsNormal};
ghost use Rattle.gix_pathspec.specs.Search.{specs_of, HoldsNormalForms};
ghost use Rattle.pathspec_callers.specs.Stores.{Stores, StoreEach, IsSearchOfTexts, ChooseAlike};

use bstr::{BStr, BString};
use gix_pathspec::{BuildError, Defaults, Error, Pattern, Search, laws};
use std::alloc::Global;
use std::mem;

/// Makes a search of texts in the directory `prefix` of a repository, and makes it again, at the top, from the texts that a
/// store has of it. Both choose the same paths, whatever a look-up says.
///
/// # Errors
/// The errors of [`search_of_texts`].
pub fn search_and_stored(
    alloc: Global,
    texts: &[BString],
    prefix: BStr<'_>,
    root: BStr<'_>,
) -> Result<(Search, Search), BuildError>
    requires { IsTrue (is_clean_prefix (bstr_bytes prefix)) }
    ensures { IfOk result (λ searches.
        ChooseAlike (specs_of searches.0.specs) (specs_of searches.1.specs)) }
{
    let search = search_of_texts(alloc, texts, prefix, root)?;
    // The proof reads here that no nil spec has a prefix directory.
    laws::nil_specs_lack_a_prefix(&search);
    let Ok(stored) = stored_texts(alloc, &search) else {
        return Err(BuildError::Memory);
    };
    let again = search_of_texts(alloc, stored.as_slice(), BStr::new(b""), root)?;
    Ok((search, again))
}

/// Makes the search of texts.
///
/// # Errors
/// [`BuildError::Spec`] with the number of the first text that can't be read, or else of the first whose path lies outside;
/// [`BuildError::Memory`].
pub fn search_of_texts(
    alloc: Global,
    texts: &[BString],
    prefix: BStr<'_>,
    root: BStr<'_>,
) -> Result<Search, BuildError>
    requires { IsTrue (is_clean_prefix (bstr_bytes prefix)) }
    ensures search { IfOk result (λ search. IsSearchOfTexts (bstr_bytes prefix.entry)
        (bstr_bytes root.entry) (map bstring_bytes texts.now) search.specs) }
    ensures laws { OnOk result (HoldsNormalForms × NormalFormIsNormal) }
{
    let patterns = patterns_of(alloc, texts)?;
    Search::from_specs(alloc, patterns, Some(prefix), root)
}

/// Reads the pattern of each text.
fn patterns_of(alloc: Global, texts: &[BString]) -> Result<Vec<Pattern>, BuildError>
    ensures { IfOk result (λ patterns. map (reading no_defaults) (map bstring_bytes texts.now)
        ≡ map Ok (map pattern_spec patterns.items)) }
{
    let mut patterns = Vec::new(alloc);
    for text in texts {
        match Pattern::from_bytes(alloc, text.as_bytes(), Defaults::default()) {
            Ok(pattern) => patterns.push(pattern)?,
            Err(Error::Memory) => return Err(BuildError::Memory),
            Err(error) => return Err(BuildError::Spec(patterns.len(), error)),
        }
    }
    Ok(patterns)
}

/// The texts that a store has of a search, one for each of its specs.
///
/// # Errors
/// [`Error::Memory`] alone.
pub fn stored_texts(alloc: Global, search: &Search) -> Result<Vec<BString>, Error>
    ensures { IfOk result (λ texts.
        StoreEach (specs_of search.now.specs) (map bstring_bytes texts.items)) }
{
    let mut texts = Vec::new(alloc);
    let mut patterns = search.patterns();
    while let Some(pattern) = patterns.next() {
        texts.push(stored_text(alloc, pattern)?)?;
    }
    Ok(texts)
}

/// The text that is stored of a normalised pattern. A nil pattern's own text is `:`, which doesn't say its magic. So it is
/// stored as the spec of the empty path, which matches the same.
///
/// # Errors
/// [`Error::Memory`] alone.
fn stored_text(alloc: Global, pattern: &Pattern) -> Result<BString, Error>
    ensures { IfOk result (λ text. Stores (pattern_spec pattern.now) (bstring_bytes text)) }
{
    if !pattern.is_nil() {
        return pattern.to_bstring();
    }
    let mut copy = pattern.try_clone()?;
    let mut always = Pattern::from_literal(alloc, b"", pattern.signature)?;
    mem::swap(&mut always.attributes, &mut copy.attributes);
    always.to_bstring()
}
