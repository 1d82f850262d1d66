//! Each growth refused in turn, of commands.
use crate::running::run_over;
use pathspec_test_support::growths::{Makes, Making, assert_calls};
use std::alloc::{AllocError, Global};
use std::test::Fail;

/// The run of a command over an input, with what it writes.
#[derive(Clone, Copy)]
struct Runs<'a> {
    rt: &'a HostRuntime,
    words: &'a [&'a str],
    input: &'a str,
    written: &'a str,
}

impl Making for Runs<'_> {
    fn make(&self, _alloc: Global) -> Result<bool, AllocError> {
        let ran = run_over(self.rt, self.words, self.input.as_bytes())?;
        Ok(ran.written.as_slice() == self.written.as_bytes())
    }
}

#[test]
#[rattlefmt::skip]
fn a_command_ends_or_memory_ran_out(rt: HostRuntime) -> Result<(), Fail> {
    const ROWS: &[(&[&str], &str, &str)] = &[
        (&["filter", "a", ":!a/b", "*.c"], "a/x\na/b\nb/y.c\nz", "a/x\nb/y.c\n"),
        (&["filter", "--error-unmatch", "a", ":(attr:x)b", "--attr", "b", "x=1 y"], "a\nb\n", "a\n"),
        (&["filter", "a", ":(tpo)x"], "a\n", ""),
        (&["explain", "--all", "a", "*.c", "--path", "a/x", "--path", "b/"], "",
            "a/x  selected by 1 'a': it lies below\n     1 'a': it lies below\n     2 '*.c': its glob doesn't match\nb/   not selected: no include matches\n     1 'a': the path is neither 'a' nor below it\n     2 '*.c': its glob doesn't match\n"),
        (&["explain", "--json", ":!a"], "b\n", "{\"may_skip\":false,\"path\":\"b\",\"verdict\":\"no_exclude_matches\"}\n"),
        (&["list", "is/not/there", "--error-unmatch", "--", "a"], "", ""),
        (&["show", ":(icase)a"], "", "1 ':(icase)a'\n  path        'a'\n  magic       icase\n  mode        glob; wildcards take slashes\n  long form   ':(icase)a'\n  walk        may enter any directory\n"),
    ];
    let mut calls = Vec::new(rt.alloc());
    for (words, input, written) in ROWS {
        let run = Runs { rt: &rt, words, input, written };
        calls.push(Makes(run))?;
    }
    assert_calls(rt.alloc(), &calls)
}
