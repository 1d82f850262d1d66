//! Each growth refused in turn, of a set and of its scratch.
use crate::sets::{is_right, listed, made};
use pathspec_glob::Case::Fold;
use pathspec_glob::Mode::Shell;
use pathspec_test_support::growths::{Makes, Making, assert_calls};
use std::alloc::{AllocError, Global};
use std::test::Fail;

/// The set of these patterns, with its scratch, and a text.
struct Made(&'static [&'static [u8]], &'static [u8]);

impl Making for Made {
    fn make(&self, alloc: Global) -> Result<bool, AllocError> {
        let written = listed(alloc, self.0, Shell, Fold)?;
        let mut searched = made(alloc, &written)?;
        is_right(alloc, &written, &mut searched, self.1)
    }
}

#[test]
#[rattlefmt::skip]
fn a_set_is_made_or_memory_ran_out(rt: HostRuntime) -> Result<(), Fail> {
    const CALLS: &[Makes<Made>] = &[
        Makes(Made(&[], b"a")),
        Makes(Made(&[b"*.rs", b"a?[b-d]*", b"["], b"aXc.rs")),
    ];
    assert_calls(rt.alloc(), CALLS)
}
