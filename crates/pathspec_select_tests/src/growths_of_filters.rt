//! Each growth refused in turn, of filters.
use gix_pathspec::Search;
use pathspec_filter::{FilterError, LeadingDot, Selection, filter};
use pathspec_test_searches::search_of_line;
use pathspec_test_support::growths::{Call, Calls, assert_calls};
use pathspec_test_support::look_ups::Marks;
use std::alloc::{AllocError, Global};
use std::test::Fail;

/// The bytes of a record for which the room for a read grows again and again.
const LONG: usize = 20_000_000;

/// The call that filters a listing with a long record in a directory, of which the search of a line selects what it should.
struct Filters(&'static str, u64);

impl Call for Filters {
    type Given = (Vec<u8>, Box<Search>);

    fn given(&self, alloc: Global) -> Result<(Vec<u8>, Box<Search>), Fail> {
        let mut listing = Vec::from_slice(alloc, b"a/b\nx\na/c/d\n")?;
        listing.resize(LONG, b'a')?;
        Ok((listing, search_of_line(alloc, self.0, "")?))
    }

    fn make(&self, alloc: Global, given: &mut (Vec<u8>, Box<Search>)) -> Result<bool, AllocError> {
        let mut reader = given.0.as_slice();
        let mut written = Vec::new(alloc);
        let mut marks = Marks::new();
        match filter(
            alloc,
            &given.1,
            b'\n',
            Selection {
                leading_dot: LeadingDot::Kept,
                is_inverted: false,
            },
            &mut reader,
            &mut written,
            &mut marks,
        ) {
            Ok(counts) => Ok(counts.selected == self.1),
            // The writer and the look-up of the tests take memory, too.
            Err(FilterError::Memory | FilterError::Write | FilterError::LookUp(AllocError)) => Err(
                AllocError,
            ),
            Err(_) => Ok(false),
        }
    }
}

#[test]
fn a_filter_ends_or_memory_ran_out(rt: HostRuntime) -> Result<(), Fail> {
    const CALLS: &[Calls<Filters>] = &[
        Calls(Filters("", 4)),
        Calls(Filters(":!a", 2)),
        Calls(Filters(":(attr:gen).", 1)),
    ];
    assert_calls(rt.alloc(), CALLS)
}
