//! Each growth refused in turn, of calls on attribute files.
use crate::manual::{OF_ABC, has_state, manual, outcome};
use bstr::BStr;
use pathspec_attributes::{AttributeFiles, Place, RuleAt};
use pathspec_parts::attributes::{Outcome, StateRef};
use pathspec_test_support::growths::{Call, Calls, Makes, Making, assert_calls};
use pathspec_test_support::look_ups::{ask, has_states};
use std::alloc::{AllocError, Global};
use std::test::Fail;

/// Calls that make files.
#[derive(Clone, Copy)]
enum Made {
    Empty,
    Manual,
}

impl Making for Made {
    fn make(&self, alloc: Global) -> Result<bool, AllocError> {
        let mut files = match *self {
            Made::Empty => AttributeFiles::new(alloc)?,
            Made::Manual => manual(alloc)?,
        };
        let mut found = outcome(alloc)?;
        ask(&mut files, "t/abc", &mut found)?;
        Ok(match *self {
            Made::Empty => has_state(&found, 0, StateRef::Unspecified),
            Made::Manual => has_states(&found, OF_ABC),
        })
    }
}

#[test]
fn files_are_made_or_memory_ran_out(rt: HostRuntime) -> Result<(), Fail> {
    assert_calls(rt.alloc(), &[Makes(Made::Empty), Makes(Made::Manual)])
}

/// Calls on the files of the manual's example.
#[derive(Clone, Copy)]
enum FileCall {
    Ask,
    /// Adds a file of a directory that has none.
    Add,
    /// Adds a file in place of another.
    Replace,
    Decide,
}

impl Call for FileCall {
    type Given = (AttributeFiles, Outcome);

    fn given(&self, alloc: Global) -> Result<(AttributeFiles, Outcome), Fail> {
        Ok((manual(alloc)?, outcome(alloc)?))
    }

    fn make(
        &self,
        _alloc: Global,
        given: &mut (AttributeFiles, Outcome),
    ) -> Result<bool, AllocError> {
        let (files, found) = given;
        match *self {
            FileCall::Ask => {
                ask(files, "t/abc", found)?;
                Ok(has_states(found, OF_ABC))
            }
            FileCall::Add => {
                let told = files.add(
                    Place::Directory(b"t/s"),
                    b"* bar=1\n!a x\n[attr]m x\n\"q\\t\" x",
                )?;
                ask(files, "t/s/x", found)?;
                Ok(told.len() == 2 && has_state(found, 1, StateRef::Value(b"1")))
            }
            FileCall::Replace => {
                files.add(Place::Info, b"[attr]m bar\nt/abc m\n")?;
                ask(files, "t/abc", found)?;
                Ok(has_state(found, 1, StateRef::Set))
            }
            FileCall::Decide => {
                let found = files.decider(BStr::new(b"t/abc"), false, b"merge")?;
                Ok(
                    found
                        == Some(RuleAt {
                            place: Place::Directory(b"t"),
                            line: 1,
                        }),
                )
            }
        }
    }
}

#[test]
fn files_answer_or_memory_ran_out(rt: HostRuntime) -> Result<(), Fail> {
    assert_calls(
        rt.alloc(),
        &[
            Calls(FileCall::Ask),
            Calls(FileCall::Add),
            Calls(FileCall::Replace),
            Calls(FileCall::Decide),
        ],
    )
}
