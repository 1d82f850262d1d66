//! Each growth refused in turn, of calls that read, write, normalise and build specs.
use bstr::BStr;
use gix_pathspec::search::{Scratch, Visit};
use gix_pathspec::{BuildError, Defaults, Error, MagicSignature, Pattern, Search, parse};
use pathspec_parts::attributes::Assignment;
use pathspec_test_searches::answers::{Settled, scratch_of, settled, settled_in, visited};
use pathspec_test_searches::{
    are_same, is_cloned, pattern_of, patterns_of, search_of, search_of_list,
};
use pathspec_test_support::growths::{
    ALL, Call, Calls, Changes, Changing, NONE, assert_calls, refuse,
};
use pathspec_test_support::look_ups::{Marks, text_of};
use std::alloc::{AllocError, Global};
use std::test::Fail;

/// A spec with all that takes memory.
const TEXT: &str = ":(top,icase,attr:a=x\\,y)p/";

/// Specs, the second of which leaves the directory `a/b` in which all are given. A walk asks the third by itself which
/// directories it takes.
const TEXTS: &[&str] = &[TEXT, "../c", ":(exclude,glob)d/**", "*.c"];

/// Specs that have a set, since the globs of four begin right behind the directory that they are given in.
const SET: &[&str] = &["*.c", "*.h", "*.md", ":!*~"];

/// The answer of a call, or that memory ran out. Any other fault counts as a wrong answer.
fn or_memory(answer: Result<bool, Error>) -> Result<bool, AllocError> {
    match answer {
        Ok(is_right) => Ok(is_right),
        Err(Error::Memory) => Err(AllocError),
        Err(_) => Ok(false),
    }
}

/// A call that makes a pattern of [`TEXT`], or writes or copies the one that is given.
#[derive(Clone, Copy)]
enum PatternCall {
    Parse,
    FromBytes,
    FromLiteral,
    TryClone,
    LongText,
}

/// Whether a call makes what it has to.
fn is_made(alloc: Global, call: PatternCall, given: &Pattern) -> Result<bool, Error> {
    let text = TEXT.as_bytes();
    Ok(match call {
        PatternCall::Parse => parse::parse(alloc, text, Defaults::default())? == *given,
        PatternCall::FromBytes => Pattern::from_bytes(alloc, text, Defaults::default())? == *given,
        PatternCall::FromLiteral => {
            let literal = Pattern::from_literal(alloc, text, MagicSignature::ICASE)?;
            literal.path().as_bytes() == text
        }
        PatternCall::TryClone => given.try_clone()? == *given,
        PatternCall::LongText => given.to_bstring()?.as_bytes() == text,
    })
}

impl Call for PatternCall {
    type Given = Pattern;

    fn given(&self, alloc: Global) -> Result<Pattern, Fail> {
        Ok(pattern_of(alloc, TEXT)?)
    }

    fn make(&self, alloc: Global, given: &mut Pattern) -> Result<bool, AllocError> {
        or_memory(is_made(alloc, *self, given))
    }
}

#[test]
#[rattlefmt::skip]
fn a_pattern_is_made_or_memory_ran_out(rt: HostRuntime) -> Result<(), Fail> {
    use PatternCall::{FromBytes, FromLiteral, Parse, TryClone};
    assert_calls(rt.alloc(), &[Calls(Parse), Calls(FromBytes), Calls(FromLiteral), Calls(TryClone)])
}

#[test]
fn a_long_text_is_written_or_memory_ran_out(rt: HostRuntime) -> Result<(), Fail> {
    assert_calls(rt.alloc(), &[Calls(PatternCall::LongText)])
}

/// A call that tells a fault with bytes.
enum FaultCall {
    /// A fault of a text.
    Text(&'static str),
    /// A fault of a variable's word.
    Environment,
    /// A fault of a path in the directory `a`.
    Normalize(&'static str),
}

/// The fault of a call, if it has one.
fn fault_of(alloc: Global, call: &FaultCall) -> Option<Error> {
    match call {
        FaultCall::Text(text) => pattern_of(alloc, text).err(),
        FaultCall::Environment => {
            let mut var = |name: &str| -> Option<&str> {
                text_of(&[("GIT_GLOB_PATHSPECS", "maybe")], name)
            };
            Defaults::from_environment(alloc, &mut var).err()
        }
        FaultCall::Normalize(text) => match pattern_of(alloc, text) {
            Ok(mut given) => given.resolve(BStr::new(b"a"), BStr::new(b"/r")).err(),
            Err(error) => Some(error),
        },
    }
}

impl Call for FaultCall {
    type Given = Option<Error>;

    fn given(&self, alloc: Global) -> Result<Option<Error>, Fail> {
        Ok(fault_of(alloc, self))
    }

    fn make(&self, alloc: Global, given: &mut Option<Error>) -> Result<bool, AllocError> {
        match fault_of(alloc, self) {
            Some(Error::Memory) => Err(AllocError),
            fault => Ok(fault.is_some() && fault == *given),
        }
    }
}

#[test]
#[rattlefmt::skip]
fn a_fault_is_told_or_memory_ran_out(rt: HostRuntime) -> Result<(), Fail> {
    use FaultCall::{Environment, Normalize, Text};
    const CALLS: &[Calls<FaultCall>] = &[
        Calls(Text(":(foo)x")), Calls(Text(":(top")), Calls(Text(":(attr:a=x\\)p")), Calls(Text(":(attr:a b/c)p")),
        Calls(Text(":(attr:a,attr:b)p")), Calls(Text(":(prefix:9)a/b")), Calls(Environment), Calls(Normalize("../../x")),
        Calls(Normalize("/q/x")),
    ];
    assert_calls(rt.alloc(), CALLS)
}

/// The call that reads a list of attributes.
struct Attributes;

const LIST: &[u8] = b"a=x\\,y -b !c d";

impl Call for Attributes {
    type Given = Vec<Assignment>;

    fn given(&self, alloc: Global) -> Result<Vec<Assignment>, Fail> {
        Ok(parse::attributes(alloc, LIST)?)
    }

    fn make(&self, alloc: Global, given: &mut Vec<Assignment>) -> Result<bool, AllocError> {
        match parse::attributes(alloc, LIST) {
            Ok(listed) => Ok(listed.as_slice() == given.as_slice()),
            Err(error) => or_memory(Err(error)),
        }
    }
}

#[test]
fn a_list_of_attributes_is_read_or_memory_ran_out(rt: HostRuntime) -> Result<(), Fail> {
    assert_calls(rt.alloc(), &[Calls(Attributes)])
}

/// The call that normalises the pattern of a text, given in the directory `a/b` of a repository at `/r`.
struct Normalize(&'static str);

impl Changing for Normalize {
    type Value = Pattern;

    fn before(&self, alloc: Global) -> Result<Pattern, Fail> {
        Ok(pattern_of(alloc, self.0)?)
    }

    fn change(&self, _: Global, value: &mut Pattern) -> Result<bool, AllocError> {
        match value.normalize(BStr::new(b"a/b"), BStr::new(b"/r")) {
            Ok(_) => Ok(true),
            Err(error) => or_memory(Err(error)),
        }
    }

    fn is_same(&self, _: Global, value: &mut Pattern, other: &Pattern) -> Result<bool, Fail> {
        Ok(*value == *other)
    }
}

#[test]
fn a_pattern_is_normalised_or_as_before(rt: HostRuntime) -> Result<(), Fail> {
    const CALLS: &[Changes<Normalize>] = &[
        Changes(Normalize(TEXT)),
        Changes(Normalize("../c")),
        Changes(Normalize(":(attr:gen -b !c d=v)../c")),
        Changes(Normalize(":(icase,exclude,attr:gen)../..")),
        Changes(Normalize(":(glob,attr:gen)/r/a/*/")),
    ];
    assert_calls(rt.alloc(), CALLS)
}

/// Whether the pattern of a text is its own normal form on the top of a repository, which is found with all growths refused.
fn is_resolved(alloc: Global, text: &str) -> Result<bool, Error> {
    let mut pattern = pattern_of(alloc, text)?;
    let before = pattern_of(alloc, text)?;
    refuse(alloc, ALL);
    let answer = pattern.resolve(BStr::new(b""), BStr::new(b"/r"));
    refuse(alloc, NONE);
    Ok(answer.is_ok() && pattern == before)
}

#[test]
#[rattlefmt::skip]
fn a_clean_path_on_the_top_takes_no_memory(rt: HostRuntime) -> Result<(), Fail> {
    for text in ["a", "a/b.c/d", ":(top,icase,attr:g)p/", ":(prefix:1)a/*", "::", ":"] {
        assert!(rt; is_resolved(rt.alloc(), text)?, "{text}");
    }
    Ok(())
}

/// A call that makes a search of these texts or of their lines, in the directory `a/b` of a repository at `/r`.
#[derive(Clone, Copy)]
enum SearchCall {
    FromSpecs(&'static [&'static str]),
    FromLines,
}

/// The search that a call makes.
fn built(alloc: Global, call: SearchCall) -> Result<Box<Search>, BuildError> {
    const LINES: &[u8] = b":(top,icase,attr:a=x\\,y)p/\n../c\n";
    let (prefix, root) = (Some(BStr::new(b"a/b")), BStr::new(b"/r"));
    let search = match call {
        SearchCall::FromLines => {
            let (source, defaults) = (BStr::new(b"specs"), Defaults::default());
            Search::from_lines(alloc, LINES, source, defaults, prefix, root)?
        }
        SearchCall::FromSpecs(texts) => match patterns_of(alloc, texts) {
            Ok(patterns) => Search::from_specs(alloc, patterns, prefix, root)?,
            Err(_) => return Err(BuildError::Memory),
        },
    };
    Ok(Box::new(alloc, search)?)
}

impl Call for SearchCall {
    type Given = Box<Search>;

    fn given(&self, alloc: Global) -> Result<Box<Search>, Fail> {
        Ok(built(alloc, *self)?)
    }

    fn make(&self, alloc: Global, given: &mut Box<Search>) -> Result<bool, AllocError> {
        match built(alloc, *self) {
            Ok(search) => Ok(are_same(&search, given)),
            Err(BuildError::Memory) => Err(AllocError),
            Err(_) => Ok(false),
        }
    }
}

#[test]
#[rattlefmt::skip]
fn a_search_is_built_or_memory_ran_out(rt: HostRuntime) -> Result<(), Fail> {
    use SearchCall::{FromLines, FromSpecs};
    assert_calls(rt.alloc(), &[Calls(FromSpecs(TEXTS)), Calls(FromSpecs(SET)), Calls(FromSpecs(&[])), Calls(FromLines)])
}

/// The call that copies a search.
struct CloneSearch;

impl Call for CloneSearch {
    type Given = Box<Search>;

    fn given(&self, alloc: Global) -> Result<Box<Search>, Fail> {
        search_of_list(alloc, TEXTS, "a/b")
    }

    fn make(&self, alloc: Global, given: &mut Box<Search>) -> Result<bool, AllocError> {
        or_memory(is_cloned(alloc, given))
    }
}

#[test]
fn a_search_is_copied_or_memory_ran_out(rt: HostRuntime) -> Result<(), Fail> {
    assert_calls(rt.alloc(), &[Calls(CloneSearch)])
}

/// The call that makes a scratch of a search of these texts, which are given in the directory `a`.
struct NewScratch(&'static [&'static str]);

impl Call for NewScratch {
    type Given = Box<Search>;

    fn given(&self, alloc: Global) -> Result<Box<Search>, Fail> {
        search_of(alloc, self.0, "a")
    }

    fn make(&self, alloc: Global, given: &mut Box<Search>) -> Result<bool, AllocError> {
        Ok(given.fits(&given.new_scratch(alloc)?))
    }
}

#[test]
#[rattlefmt::skip]
fn a_scratch_is_made_or_memory_ran_out(rt: HostRuntime) -> Result<(), Fail> {
    const CALLS: &[Calls<NewScratch>] = &[
        Calls(NewScratch(&[])),
        Calls(NewScratch(&["*[!b-d]?x*", ":!**/x"])),
        // The table of the set has a list for each of its rows.
        Calls(NewScratch(SET)),
        Calls(NewScratch(&[":(attr:a -b !c d=e)*.c", ":(exclude,attr:a)x", ":(glob)**/y"])),
    ];
    assert_calls(rt.alloc(), CALLS)
}

/// The answers of a search that need no memory: what settles a path, in the search's scratch and in another; what a walk does;
/// two answers about directories; and lengths.
type Told = (Settled, Option<Settled>, Visit, (bool, bool), [usize; 5]);

/// How many bytes the paths of a search's specs have.
fn bytes_of(search: &Search) -> usize {
    let mut bytes = 0usize;
    for pattern in search.patterns() {
        bytes = bytes.saturating_add(pattern.path().as_bytes().len());
    }
    bytes
}

/// How many specs a search has and how many bytes their paths have, and how many bytes its directories have.
fn lengths_of(search: &Search) -> [usize; 5] {
    let longest = search.longest_common_directory();
    [
        search.patterns().len(),
        bytes_of(search),
        search.common_prefix().as_bytes().len(),
        search.prefix_directory().as_bytes().len(),
        longest.map_or(usize::MAX, |directory| directory.as_bytes().len()),
    ]
}

/// Asks a search all that takes no memory.
fn answers_of(search: &mut Search, scratch: &mut Scratch, path: &[u8]) -> Result<Told, Fail> {
    let found = settled(search, path, Some(true))?;
    let found_in_scratch = settled_in(search, path, Some(true), scratch, &mut Marks::new())?;
    let visit = visited(search, path, true, scratch)?;
    let path = BStr::new(path);
    let can_match = search.can_match_relative_path(path, Some(true));
    let directories = (can_match, search.directory_matches_prefix(path, true));
    Ok((
        found,
        found_in_scratch,
        visit,
        directories,
        lengths_of(search),
    ))
}

/// Whether a search of these texts, given in `a/b`, answers of a path with all growths refused what it answers with memory.
fn asks_alike(alloc: Global, texts: &[&str], path: &str) -> Result<bool, Fail> {
    let mut search = search_of(alloc, texts, "a/b")?;
    let mut scratch = scratch_of(alloc, &search)?;
    let want = answers_of(&mut search, &mut scratch, path.as_bytes())?;
    refuse(alloc, ALL);
    let answer = answers_of(&mut search, &mut scratch, path.as_bytes());
    refuse(alloc, NONE);
    Ok(answer? == want && Some(want.0) == want.1)
}

#[test]
fn a_search_that_is_built_takes_no_memory(rt: HostRuntime) -> Result<(), Fail> {
    const GLOBS: &[&str] = &["*[!b-d]?x*", ":!**/x", ":(glob)**/*[a-z]/q"];
    for path in ["p/x", "a/c", "a", "a/b/d", "a/b/x.c"] {
        assert!(rt; asks_alike(rt.alloc(), TEXTS, path)?, "{path}");
    }
    assert!(rt; asks_alike(rt.alloc(), GLOBS, "a/b/cxd")? && asks_alike(rt.alloc(), &[], "a/b/c")?);
    Ok(())
}
