//! What the tests of searches, walks and the program share: the search of texts.
#![tactic(auto)]

pub mod answers;

use bstr::{BStr, BString};
use gix_pathspec::{BuildError, Defaults, Error, Pattern, Search};
use pathspec_parts::path::is_clean_prefix;
use std::alloc::Global;
use std::test::Fail;

/// The pattern of a text.
pub fn pattern_of(alloc: Global, text: &str) -> Result<Pattern, Error> {
    Pattern::from_bytes(alloc, text.as_bytes(), Defaults::default())
}

/// Builds a search of patterns, given in a directory of a repository at `/r`. It is boxed, as all searches of the tests are:
/// then a test is proved without a look at what a search is made of.
pub fn build_from(
    alloc: Global,
    patterns: Vec<Pattern>,
    prefix: &str,
) -> Result<Result<Box<Search>, BuildError>, Fail> {
    let prefix = BStr::new(prefix.as_bytes());
    if !is_clean_prefix(prefix) {
        return Err("the prefix isn't clean".into());
    }
    match Search::from_specs(alloc, patterns, Some(prefix), BStr::new(b"/r")) {
        Ok(search) => Ok(Ok(Box::new(alloc, search)?)),
        Err(error) => Ok(Err(error)),
    }
}

/// The patterns of these texts.
pub fn patterns_of(alloc: Global, texts: &[&str]) -> Result<Vec<Pattern>, Error> {
    let mut patterns = Vec::new(alloc);
    for text in texts {
        patterns.push(pattern_of(alloc, text)?)?;
    }
    Ok(patterns)
}

/// The search of these texts, given in this directory of a repository at `/r`.
pub fn search_of(alloc: Global, texts: &[&str], prefix: &str) -> Result<Box<Search>, Fail> {
    Ok(build_from(alloc, patterns_of(alloc, texts)?, prefix)??)
}

/// The patterns of the words of a line, between spaces.
fn patterns_of_line(alloc: Global, line: &str) -> Result<Vec<Pattern>, Error> {
    let mut patterns = Vec::new(alloc);
    for word in line.split(' ') {
        if !word.is_empty() {
            patterns.push(pattern_of(alloc, word)?)?;
        }
    }
    Ok(patterns)
}

/// The search of the words of a line, given in this directory of a repository at `/r`. A table whose rows have one text for
/// all specs is proved sooner than one with a list in each row.
pub fn search_of_line(alloc: Global, line: &str, prefix: &str) -> Result<Box<Search>, Fail> {
    Ok(build_from(alloc, patterns_of_line(alloc, line)?, prefix)??)
}

/// The search of these texts, which comes from a list.
pub fn search_of_list(alloc: Global, texts: &[&str], prefix: &str) -> Result<Box<Search>, Fail> {
    let mut search = search_of(alloc, texts, prefix)?;
    search.source = Some(BString::from_slice(alloc, "list")?);
    Ok(search)
}

/// Whether two searches are of equal specs, and come from the same place.
pub fn are_same(search: &Search, other: &Search) -> bool {
    for (pattern, other) in search.patterns().zip(other.patterns()) {
        if pattern != other {
            return false;
        }
    }
    search.patterns().len() == other.patterns().len() && search.source == other.source
}

/// Whether a clone is of the same specs, and comes from the same place.
pub fn is_cloned(alloc: Global, search: &Search) -> Result<bool, Error> {
    let copy = Box::new(alloc, search.try_clone()?)?;
    Ok(are_same(&copy, search))
}
