//! Each growth refused in turn, of walks, listings, rows, jobs and runs of the program.
use crate::asked::{UNSET, Variables, environment_of, job_of, words_of};
use crate::environments::{has_words, read};
use gix_pathspec::Search;
use pathspec_parts::attributes::{Outcome, StateRef};
use pathspec_parts::tree::{Cursor, Tree};
use pathspec_select::listing::{self, ListingError};
use pathspec_select::{Environment, Job, Refusal, Rows, SelectError, run, run_with, select};
use pathspec_test_searches::search_of_line;
use pathspec_test_support::growths::{Call, Calls, Changes, Changing, Makes, Making, assert_calls};
use pathspec_test_support::look_ups::{Marks, ask, has_states, listed};
use pathspec_test_support::trees::tree_of;
use std::alloc::{AllocError, Global};
use std::test::Fail;

/// The call that walks over a tree, with the texts of its search in a line and the numbers of the entries that it gives.
struct Select(&'static str, &'static [usize]);

impl Call for Select {
    type Given = (Tree, Box<Search>);

    fn given(&self, alloc: Global) -> Result<(Tree, Box<Search>), Fail> {
        let tree = tree_of(alloc, &["a/", "b", "x", "..", "c/", "d", "..", "x"])?;
        Ok((tree, search_of_line(alloc, self.0, "")?))
    }

    fn make(&self, alloc: Global, given: &mut (Tree, Box<Search>)) -> Result<bool, AllocError> {
        let mut cursor = Cursor::new(alloc, &given.0)?;
        match select(alloc, &mut cursor, &given.1, &mut Marks::new()) {
            Ok(numbers) => Ok(numbers.as_slice() == self.1),
            // The look-up of the tests takes memory, too.
            Err(SelectError::Memory | SelectError::LookUp(AllocError)) => Err(AllocError),
        }
    }
}

#[test]
fn a_walk_ends_or_memory_ran_out(rt: HostRuntime) -> Result<(), Fail> {
    const CALLS: &[Calls<Select>] = &[
        Calls(Select("a/b", &[1])),
        Calls(Select(".", &[0, 1, 2, 3, 4, 5])),
        Calls(Select(":(attr:gen).", &[5])),
    ];
    assert_calls(rt.alloc(), CALLS)
}

/// The calls that read a listing, make a walk over it and copy it as a tree, which has so many entries.
struct ReadListing(&'static [u8], usize);

impl Making for ReadListing {
    fn make(&self, alloc: Global) -> Result<bool, AllocError> {
        match listing::read(alloc, self.0, b'\n') {
            Ok(listing) => {
                let _cursor = listing.cursor(alloc)?;
                Ok(listing.tree(alloc)?.len() == self.1)
            }
            Err(ListingError::Memory) => Err(AllocError),
            Err(_) => Ok(false),
        }
    }
}

#[test]
fn a_listing_is_read_or_memory_ran_out(rt: HostRuntime) -> Result<(), Fail> {
    const CALLS: &[Makes<ReadListing>] = &[
        Makes(ReadListing(b"", 0)),
        Makes(ReadListing(b"a/b/c\na/d\ne/\n", 5)),
        Makes(ReadListing(b"a/\na/b\nc/\nc/d\n", 4)),
        Makes(ReadListing(b"a\nb\nc\nd\ne\nf\ng\nh\ni\n", 9)),
    ];
    assert_calls(rt.alloc(), CALLS)
}

/// Whether rows give the attribute `a` of a path this state.
fn gives(alloc: Global, rows: &mut Rows, path: &str, state: StateRef<'_>) -> Result<bool, Fail> {
    let mut outcome = Outcome::for_assignments(alloc, &listed(alloc, &[("a", StateRef::Set)])?)?;
    ask(rows, path, &mut outcome)?;
    Ok(has_states(&outcome, &[state]))
}

/// The call that adds a row of `x` behind so many of `y`.
struct PushRow(usize);

impl Changing for PushRow {
    type Value = (Rows, bool);

    fn before(&self, alloc: Global) -> Result<(Rows, bool), Fail> {
        let mut rows = Rows::new(alloc);
        for _ in 0..self.0 {
            rows.push(b"y", listed(alloc, &[("a", StateRef::Value(b"y"))])?)?;
        }
        Ok((rows, false))
    }

    fn change(&self, alloc: Global, value: &mut (Rows, bool)) -> Result<bool, AllocError> {
        value
            .0
            .push(b"x", listed(alloc, &[("a", StateRef::Value(b"x"))])?)?;
        value.1 = true;
        Ok(true)
    }

    fn is_same(
        &self,
        alloc: Global,
        value: &mut (Rows, bool),
        other: &(Rows, bool),
    ) -> Result<bool, Fail> {
        let x = state_if(value.1, b"x");
        let y = state_if(self.0 > 0, b"y");
        let is_same = value.1 == other.1 && gives(alloc, &mut value.0, "x", x)?;
        Ok(is_same && gives(alloc, &mut value.0, "y", y)?)
    }
}

/// The state with this value, or that of a name of which nothing is said.
fn state_if(has_value: bool, value: &[u8]) -> StateRef<'_> {
    if has_value {
        StateRef::Value(value)
    } else {
        StateRef::Unspecified
    }
}

#[test]
fn a_row_is_added_or_the_rows_are_as_before(rt: HostRuntime) -> Result<(), Fail> {
    assert_calls(
        rt.alloc(),
        &[
            Changes(PushRow(0)),
            Changes(PushRow(3)),
            Changes(PushRow(4)),
        ],
    )
}

/// Words, variables, an input, and what is written for them.
#[derive(Clone, Copy)]
struct Run(&'static str, Variables<'static>, &'static str, &'static str);

/// Whether a run wrote what was wanted; or that memory ran out, where nothing is written.
fn end_of_run(answer: Result<(), Refusal>, written: &[u8], want: &str) -> Result<bool, AllocError> {
    match answer {
        Ok(()) => Ok(written == want.as_bytes()),
        Err(Refusal::Memory) if written.is_empty() => Err(AllocError),
        Err(_) => Ok(false),
    }
}

impl Call for Run {
    type Given = (Vec<String>, Environment);

    fn given(&self, alloc: Global) -> Result<(Vec<String>, Environment), Fail> {
        Ok((words_of(alloc, self.0)?, environment_of(alloc, self.1)?))
    }

    fn make(
        &self,
        alloc: Global,
        given: &mut (Vec<String>, Environment),
    ) -> Result<bool, AllocError> {
        let mut reader = self.2.as_bytes();
        let mut written = Vec::with_capacity(alloc, 64)?;
        let answer = run(alloc, &given.0, &given.1, &mut reader, &mut written);
        end_of_run(answer, &written, self.3)
    }
}

#[rattlefmt::skip]
const RUNS: &[Run] = &[
    Run("a/b", UNSET, "a/\na/b\nc/\nc/d\n", "a/b\n"),
    Run(".", UNSET, "a/\na/b\nc/\nc/d\n", "a/\na/b\nc/\nc/d\n"),
    Run("a/ a*/", UNSET, "a/b\nabc/x\nab/\n", "a/b\nab/\n"),
    Run("--attr x gen :(exclude,attr:gen).", UNSET, "x\ny\n", "y\n"),
    Run("--prefix a ../b", UNSET, "a/x\nb\n", "b\n"),
    Run("-z y", UNSET, "x\0y\0", "y\0"),
    Run("A*", &[("icase", "1")], "a\nb\n", "a\n"),
    Run("--attr a/y g --prefix a :/b :!x :(attr:g)*", UNSET, "a/x\na/y\nb/\nb\n", "a/y\nb/\nb\n"),
    Run("--specs-first f", UNSET, "a\n:!a/x\n--\na/x\na/y\nb\n", "a/y\n"),
    Run("--specs-first f --attr b g", UNSET, ":(attr:g=x)*\n*b\n--\na/b\nb\n", "a/b\nb\n"),
];

#[test]
fn a_run_ends_or_memory_ran_out_and_nothing_is_written(rt: HostRuntime) -> Result<(), Fail> {
    for run in RUNS {
        assert_calls(rt.alloc(), &[Calls(*run)])?;
    }
    Ok(())
}

/// A run by a job that is made once and run again.
#[derive(Clone, Copy)]
struct RunJob(Run);

impl Call for RunJob {
    type Given = (Box<Job>, Rows);

    fn given(&self, alloc: Global) -> Result<(Box<Job>, Rows), Fail> {
        Ok(job_of(alloc, self.0.0, self.0.1)??)
    }

    fn make(&self, alloc: Global, given: &mut (Box<Job>, Rows)) -> Result<bool, AllocError> {
        let mut reader = self.0.2.as_bytes();
        let mut written = Vec::with_capacity(alloc, 64)?;
        let answer = run_with(alloc, &given.0, &mut reader, &mut written, &mut given.1);
        end_of_run(answer, &written, self.0.3)
    }
}

#[test]
fn a_job_is_done_or_memory_ran_out_and_it_goes_again(rt: HostRuntime) -> Result<(), Fail> {
    for run in RUNS {
        assert_calls(rt.alloc(), &[Calls(RunJob(*run))])?;
    }
    Ok(())
}

/// The call that makes a job of the words of a line.
struct FromWords(&'static str, Variables<'static>);

impl Call for FromWords {
    type Given = (Vec<String>, Environment);

    fn given(&self, alloc: Global) -> Result<(Vec<String>, Environment), Fail> {
        Ok((words_of(alloc, self.0)?, environment_of(alloc, self.1)?))
    }

    fn make(
        &self,
        alloc: Global,
        given: &mut (Vec<String>, Environment),
    ) -> Result<bool, AllocError> {
        match Job::from_words(alloc, &given.0, &given.1) {
            Ok(_) => Ok(true),
            Err(Refusal::Memory) => Err(AllocError),
            Err(_) => Ok(false),
        }
    }
}

#[test]
fn a_job_is_made_or_memory_ran_out(rt: HostRuntime) -> Result<(), Fail> {
    const CALLS: &[Calls<FromWords>] = &[
        Calls(FromWords("-z --attr x a=x\\,y --prefix d b :!c", UNSET)),
        Calls(FromWords("--prefix a/b :(top,icase,attr:a=x\\,y)p/ ../c", UNSET)),
        Calls(FromWords("--specs-first f --prefix a/b --root /r", &[("glob", "1")])),
    ];
    assert_calls(rt.alloc(), CALLS)
}

/// The call that reads the environment, by a closure that takes memory.
struct ReadEnvironment;

impl Making for ReadEnvironment {
    fn make(&self, alloc: Global) -> Result<bool, AllocError> {
        const SET: Variables<'static> = &[
            ("GIT_LITERAL_PATHSPECS", "0"),
            ("GIT_GLOB_PATHSPECS", "on"),
        ];
        match read(alloc, SET).0 {
            Ok(found) => Ok(has_words(&found, &[("literal", "0"), ("glob", "on")])),
            Err(Refusal::Memory) => Err(AllocError),
            Err(_) => Ok(false),
        }
    }
}

#[test]
fn the_environment_is_read_or_memory_ran_out(rt: HostRuntime) -> Result<(), Fail> {
    assert_calls(rt.alloc(), &[Makes(ReadEnvironment)])
}
