//! Each growth refused in turn, of walks over directories.
use crate::memory_directories::{DIRECTORIES, Fault, MemoryDirectories, Notes};
use gix_pathspec::Search;
use gix_pathspec::attributes::NoAttributes;
use pathspec_list::{ListError, walk_selected};
use pathspec_test_searches::search_of_line;
use pathspec_test_support::growths::{Call, Calls, assert_calls};
use std::alloc::{AllocError, Global};
use std::test::Fail;

/// The call that lists what the search of a line selects.
struct Lists(&'static str, &'static str);

impl Call for Lists {
    type Given = Box<Search>;

    fn given(&self, alloc: Global) -> Result<Box<Search>, Fail> {
        search_of_line(alloc, self.0, "")
    }

    fn make(&self, alloc: Global, given: &mut Box<Search>) -> Result<bool, AllocError> {
        let mut directories = MemoryDirectories::new(alloc, DIRECTORIES, "");
        let mut notes = Notes::new(alloc, false);
        match walk_selected(
            alloc,
            &mut directories,
            given,
            true,
            &mut NoAttributes,
            &mut notes,
        ) {
            Ok(()) => Ok(notes.are(self.1)),
            // The directories and the visitor of the tests take memory, too.
            Err(ListError::Memory | ListError::Stopped(Fault::Memory)) => Err(AllocError),
            Err(_) => Ok(false),
        }
    }
}

#[test]
fn a_walk_ends_or_memory_ran_out(rt: HostRuntime) -> Result<(), Fail> {
    const CALLS: &[Calls<Lists>] = &[
        Calls(Lists("docs", "docs/ docs/README.md ")),
        Calls(Lists("a :!a/c", "a/ a/b a/x.c ")),
    ];
    assert_calls(rt.alloc(), CALLS)
}
