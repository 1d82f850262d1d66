//! The search that a command asks, with what people need to be told of its specs.
ghost use Rattle.std.specs.Prelude.{◌≡◌, IfOk, IsTrue, length, filter};
ghost use Rattle.bstr.specs.BStr.{bstr_bytes};
ghost use Rattle.pathspec_parts.specs.Paths.{is_clean_prefix};
ghost use Rattle.pathspec_commands.specs.SpecPlaces.{ArePlaces};

use crate::Failure;
use crate::environment::variable;
use crate::spec_texts::{SpecText, spec_texts};
use bitflags::Flags;
use bstr::BStr;
use gix_pathspec::search::BuildError;
use gix_pathspec::{Defaults, Error, MagicSignature, Pattern, Search, parse};
use pathspec_faults::report;
use pathspec_options::{Modes, SpecOptions};
use pathspec_parts::path;
use std::alloc::{AllocError, Global};
use std::fs::Files;
use std::rt::Env;

/// A search, and its specs as they were given.
pub(crate) struct Asked<'a> {
    pub(crate) texts: Vec<SpecText<'a>>,
    /// For each spec, as it was given, its place in search order.
    places: Vec<usize>,
    /// Whether a spec lists attributes.
    pub(crate) lists_attributes: bool,
    /// Whether a spec is taken from the top, whatever the prefix.
    pub(crate) counts_from_top: bool,
    pub(crate) search: Search,
}

// Written out, so that whoever drops a search with its specs needn't prove anew what becomes of them.
impl Drop for Asked<'_> {
    fn drop(self) {
        let Asked {
            texts: _texts,
            places: _places,
            lists_attributes: _lists_attributes,
            counts_from_top: _counts_from_top,
            search: _search,
        } = self;
    }
}

/// Reads the specs of a command, and makes their search.
///
/// # Errors
/// The first fault of a file, of the environment or of a spec.
pub(crate) fn read_specs<'a, R: Files + Env + AllocGlobal>(
    rt: &R,
    options: &SpecOptions<'a>,
) -> Result<Asked<'a>, Failure> {
    let texts = spec_texts(rt, options)?;
    let patterns = patterns_of(rt, &texts, options.modes)?;
    let places = places_of(rt.alloc(), &patterns)?;
    let lists_attributes = any_lists_attributes(&patterns);
    let counts_from_top = any_counts_from_top(&patterns);
    let search = search_of(rt.alloc(), patterns, &texts, options)?;
    Ok(Asked {
        texts,
        places,
        lists_attributes,
        counts_from_top,
        search,
    })
}

impl Asked<'_> {
    /// The place in search order of the spec with a number. The prefix, where it stands for no specs, has the place 0.
    pub(crate) fn place_of(&self, number: usize) -> usize {
        match self.places.get(number) {
            Some(place) => *place,
            None => 0,
        }
    }
}

/// The patterns of specs, in the order in which they were given.
fn patterns_of<R: Env + AllocGlobal>(
    rt: &R,
    texts: &[SpecText<'_>],
    modes: Modes,
) -> Result<Vec<Pattern>, Failure> {
    let defaults = defaults(rt, modes)?;
    let mut patterns = Vec::new(rt.alloc());
    for text in texts {
        patterns.push(pattern_of(rt.alloc(), text, defaults)?)?;
    }
    Ok(patterns)
}

/// Whether some pattern lists attributes.
fn any_lists_attributes(patterns: &[Pattern]) -> bool {
    patterns
        .iter()
        .any(|pattern| !pattern.attributes.is_empty())
}

/// Whether some pattern is taken from the top, whatever the prefix.
fn any_counts_from_top(patterns: &[Pattern]) -> bool {
    patterns
        .iter()
        .any(|pattern| pattern.signature.contains(MagicSignature::TOP))
}

/// For each of patterns, its place in search order.
fn places_of(alloc: Global, patterns: &[Pattern]) -> Result<Vec<usize>, AllocError> {
    let mut excludes = Vec::new(alloc);
    for pattern in patterns {
        excludes.push(pattern.is_excluded())?;
    }
    places_in_search(alloc, &excludes)
}

/// The places in search order: excludes come first, each group in the order in which it was given.
fn places_in_search(alloc: Global, excludes: &[bool]) -> Result<Vec<usize>, AllocError>
    ensures { IfOk result (λ places. ArePlaces excludes.now places.items) }
{
    let mut places = Vec::new(alloc);
    let mut excluded = 0usize;
    let mut included = count_excludes(excludes);
    for is_exclude in excludes {
        if *is_exclude {
            places.push(excluded)?;
            excluded += 1;
        } else {
            places.push(included)?;
            included += 1;
        }
    }
    Ok(places)
}

/// How many specs are excludes.
fn count_excludes(excludes: &[bool]) -> usize
    ensures { result ≡ length (filter (λ is_exclude. is_exclude) excludes.now) }
{
    let mut count = 0;
    for is_exclude in excludes {
        if *is_exclude {
            count += 1;
        }
    }
    count
}

/// The pattern of a spec.
fn pattern_of(alloc: Global, text: &SpecText<'_>, defaults: Defaults) -> Result<Pattern, Failure> {
    match parse::parse(alloc, &text.text, defaults) {
        Ok(pattern) => Ok(pattern),
        Err(error) => Err(spec_fault(alloc, text, &error)?),
    }
}

/// What people are told of a spec at fault.
fn spec_fault(alloc: Global, text: &SpecText<'_>, error: &Error) -> Result<Failure, Failure> {
    if *error == Error::Memory {
        return Ok(Failure::Memory);
    }
    let subject = text.origin.name(alloc)?;
    Ok(Failure::Told(report(alloc, subject.as_str(), &text.text, error)?))
}

/// The prefix that options name: one slash at its end isn't part of it.
///
/// # Errors
/// It isn't clean.
fn prefix_of<'a>(alloc: Global, options: &SpecOptions<'a>) -> Result<BStr<'a>, Failure>
    ensures { IfOk result (λ prefix. IsTrue (is_clean_prefix (bstr_bytes prefix))) }
{
    let given = options.prefix.as_bytes();
    let prefix = match given.strip_suffix(b"/") {
        Some(front) if !front.is_empty() => front,
        _ => given,
    };
    if !path::is_clean_prefix(BStr::new(prefix)) {
        return Err(Failure::Told(format!(in alloc;
            "error: --prefix: `{}` is no directory's path: names between single slashes, none of them `.` or `..`\n",
            options.prefix
        )?));
    }
    Ok(BStr::new(prefix))
}

/// The root that options name; empty without one.
///
/// # Errors
/// It isn't absolute.
fn root_of<'a>(alloc: Global, options: &SpecOptions<'a>) -> Result<BStr<'a>, Failure> {
    let root = options.root;
    if !root.is_empty() && !root.starts_with('/') {
        return Err(Failure::Told(format!(in alloc;
            "error: --root: `{root}` is no absolute path\n"
        )?));
    }
    Ok(BStr::new(root.as_bytes()))
}

/// The search of patterns.
fn search_of(
    alloc: Global,
    patterns: Vec<Pattern>,
    texts: &[SpecText<'_>],
    options: &SpecOptions<'_>,
) -> Result<Search, Failure> {
    let prefix = prefix_of(alloc, options)?;
    let root = root_of(alloc, options)?;
    match Search::from_specs(alloc, patterns, Some(prefix), root) {
        Ok(search) => Ok(search),
        Err(error) => Err(build_fault(alloc, texts, &error)?),
    }
}

/// What people are told where no search could be made of specs.
fn build_fault(
    alloc: Global,
    texts: &[SpecText<'_>],
    error: &BuildError,
) -> Result<Failure, Failure> {
    match error {
        BuildError::Memory => Ok(Failure::Memory),
        BuildError::Spec(number, error) => match texts.get(*number) {
            Some(text) => spec_fault(alloc, text, error),
            None => Ok(Failure::Memory),
        },
    }
}

/// The words of git's four variables for pathspecs, by the options and else by the environment.
#[derive(Drop)]
struct Variables {
    literal: Option<String>,
    icase: Option<String>,
    glob: Option<String>,
    noglob: Option<String>,
}

impl Variables {
    /// The words by options and the environment.
    ///
    /// # Errors
    /// A variable isn't UTF-8.
    fn read<R: Env + AllocGlobal>(rt: &R, modes: Modes) -> Result<Variables, Failure> {
        Ok(Variables {
            literal: word(rt, "GIT_LITERAL_PATHSPECS", modes.literal, false)?,
            icase: word(rt, "GIT_ICASE_PATHSPECS", modes.icase, false)?,
            glob: word(rt, "GIT_GLOB_PATHSPECS", modes.glob, modes.noglob)?,
            noglob: word(rt, "GIT_NOGLOB_PATHSPECS", modes.noglob, modes.glob)?,
        })
    }

    /// The word of the variable with a name, if it is set.
    fn word(&self, name: &str) -> Option<&str> {
        if name == "GIT_LITERAL_PATHSPECS" {
            self.literal.as_deref()
        } else if name == "GIT_ICASE_PATHSPECS" {
            self.icase.as_deref()
        } else if name == "GIT_GLOB_PATHSPECS" {
            self.glob.as_deref()
        } else {
            self.noglob.as_deref()
        }
    }
}

/// How specs are read where they don't say it: by the options, and else by git's four variables.
///
/// # Errors
/// A variable that is neither true nor false, or isn't UTF-8.
fn defaults<R: Env + AllocGlobal>(rt: &R, modes: Modes) -> Result<Defaults, Failure> {
    let variables = Variables::read(rt, modes)?;
    let mut var = |name: &str| -> Option<&str> { variables.word(name) };
    match Defaults::from_environment(rt.alloc(), &mut var) {
        Ok(defaults) => Ok(defaults),
        Err(error) => Err(environment_fault(rt.alloc(), &error)?),
    }
}

/// What people are told of variables at fault.
fn environment_fault(alloc: Global, error: &Error) -> Result<Failure, AllocError> {
    if *error == Error::Memory {
        return Ok(Failure::Memory);
    }
    Ok(Failure::Told(report(alloc, "environment", b"", error)?))
}

/// The word of a variable: one that says yes where an option asks for it, none where an option rules it out, and else the
/// environment's.
fn word<R: Env + AllocGlobal>(
    rt: &R,
    name: &str,
    is_asked: bool,
    is_ruled_out: bool,
) -> Result<Option<String>, Failure> {
    if is_asked {
        return Ok(Some(String::from_str(rt.alloc(), "1")?));
    }
    if is_ruled_out {
        return Ok(None);
    }
    variable(rt, name)
}
