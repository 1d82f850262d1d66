//! Sets of globs beside the globs themselves.
use pathspec_glob::{Case, Glob, Mode, Scratch, Tokens};
use pathspec_glob_set::{GlobSet, Member, SetScratch};
use std::alloc::{AllocError, Global};

/// A glob, with what it was made of.
#[derive(Drop)]
pub struct Written {
    pattern: Vec<u8>,
    mode: Mode,
    case: Case,
    pub cuts: bool,
    glob: Glob,
}

impl Written {
    pub fn new(
        alloc: Global,
        pattern: Vec<u8>,
        mode: Mode,
        case: Case,
    ) -> Result<Written, AllocError> {
        let glob = Glob::compile(alloc, &pattern, mode)?;
        Ok(Written {
            pattern,
            mode,
            case,
            cuts: false,
            glob,
        })
    }
}

/// The set of some patterns, with room to search it in.
#[derive(Drop)]
pub struct Searched {
    pub set: GlobSet,
    pub scratch: SetScratch,
}

/// Makes the set of some patterns.
pub fn made(alloc: Global, written: &[Written]) -> Result<Box<Searched>, AllocError> {
    let mut globs = Vec::new(alloc);
    for one in written {
        globs.push(Member {
            tokens: Tokens::of_pattern(alloc, &one.pattern, one.mode)?,
            case: one.case,
            cuts: one.cuts,
        })?;
    }
    let Some(set) = GlobSet::new(alloc, &globs)? else {
        return Err(AllocError);
    };
    let scratch = set.new_scratch(alloc, 9 << 20)?;
    Ok(Box::new(alloc, Searched { set, scratch })?)
}

/// Whether a glob matches a text, by itself.
fn is_match(alloc: Global, one: &Written, text: &[u8]) -> Result<bool, AllocError> {
    let mut scratch = Box::new(alloc, Scratch::for_tokens(alloc, one.glob.tokens())?)?;
    Ok(one.glob.fits(&scratch) && one.glob.matches(text, one.case, &mut scratch))
}

/// What a set finds from a number on, if its scratch fits.
pub fn next(searched: &mut Searched, text: &[u8], from: usize, count: usize) -> Option<usize> {
    if from > count || count != searched.set.len() || !searched.set.fits(&searched.scratch) {
        return None;
    }
    searched.set.next(text, from, &mut searched.scratch)
}

/// Whether a set finds each glob that matches a text, and no other where it doesn't give up, up to one that cuts and matches.
pub fn is_right(
    alloc: Global,
    written: &[Written],
    searched: &mut Searched,
    text: &[u8],
) -> Result<bool, AllocError> {
    for (number, one) in written.iter().enumerate() {
        let is_found = next(searched, text, number, written.len()) == Some(number);
        let is_wanted = is_match(alloc, one, text)?;
        if is_found != is_wanted && (is_wanted || !searched.scratch.gave_up()) {
            return Ok(false);
        }
        if is_wanted && one.cuts {
            return Ok(true);
        }
    }
    Ok(next(searched, text, written.len(), written.len()).is_none())
}

/// The patterns of a table, all with this mode and case.
pub fn listed(
    alloc: Global,
    patterns: &[&[u8]],
    mode: Mode,
    case: Case,
) -> Result<Vec<Written>, AllocError> {
    let mut written = Vec::new(alloc);
    for pattern in patterns {
        let pattern = Vec::from_slice(alloc, pattern)?;
        written.push(Written::new(alloc, pattern, mode, case)?)?;
    }
    Ok(written)
}
