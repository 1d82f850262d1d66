//! Each growth refused in turn, of calls on globs, heads, attributes, stacks and trees.
use crate::heads::{answers, next_of, stem_table};
use crate::rooms::boxed_room;
use bstr::BStr;
use pathspec_heads::places::PlacesByHead;
use pathspec_parts::attributes::{Assignment, Case, Name, Outcome, StateRef};
use pathspec_parts::glob::{DirectoryGlob, Glob, Mode};
use pathspec_parts::path::Stack;
use pathspec_parts::tree::{Cursor, Tree, TreeError, Walk as _};
use pathspec_test_support::growths::{Call, Calls, Changes, Changing, Makes, Making, assert_calls};
use pathspec_test_support::look_ups::listed;
use pathspec_test_support::trees::{add, tree_of};
use std::alloc::{AllocError, Global};
use std::test::Fail;

/// Calls that make a value.
enum Made {
    /// A glob and the room for its matches, and a text that it matches.
    Glob(&'static str, &'static str),
    /// A glob for directories and the room, and a directory that it matches.
    Directories(&'static str, Mode, &'static str),
    /// Heads that are sorted, the first of which that begins `a/b/c` is at a place.
    Heads(&'static [&'static [u8]], usize),
    Stems,
    Outcome,
}

/// Whether a glob matches a text once it is compiled.
fn matches(alloc: Global, pattern: &str, text: &str) -> Result<bool, AllocError> {
    let glob = Glob::compile(alloc, pattern.as_bytes(), Mode::Shell)?;
    let mut scratch = boxed_room(alloc, glob.tokens())?;
    let text = text.as_bytes();
    Ok(glob.fits(&scratch) && glob.matches(text, Case::Sensitive, &mut scratch))
}

/// Whether a glob matches a directory once it is compiled.
fn matches_directory(
    alloc: Global,
    pattern: &str,
    mode: Mode,
    directory: &str,
) -> Result<bool, AllocError> {
    let glob = DirectoryGlob::compile(alloc, pattern.as_bytes(), mode)?;
    let mut scratch = boxed_room(alloc, glob.tokens())?;
    let directory = directory.as_bytes();
    Ok(glob.fits(&scratch) && glob.matches(directory, Case::Sensitive, &mut scratch))
}

impl Making for Made {
    fn make(&self, alloc: Global) -> Result<bool, AllocError> {
        match *self {
            Made::Glob(pattern, text) => matches(alloc, pattern, text),
            Made::Directories(pattern, mode, directory) => {
                matches_directory(alloc, pattern, mode, directory)
            }
            Made::Heads(heads, place) => {
                let places = PlacesByHead::new(alloc, heads)?;
                Ok(next_of(&places, b"a/b/c", 0) == Some(place))
            }
            Made::Stems => Ok(answers(&stem_table(alloc)?)),
            Made::Outcome => {
                let found = outcome(alloc)?;
                Ok(found.len() == 4 && found.state(1) == StateRef::Value(b"old"))
            }
        }
    }
}

#[test]
#[rattlefmt::skip]
fn a_glob_is_compiled_or_memory_ran_out(rt: HostRuntime) -> Result<(), Fail> {
    const CALLS: &[Makes<Made>] = &[
        Makes(Made::Glob("", "")),
        Makes(Made::Glob("a", "a")),
        Makes(Made::Glob("*.rs", "x.rs")),
        Makes(Made::Glob("a*[b-d]*e", "abe")),
        Makes(Made::Glob("a*[!b-d]?[x]*e", "abeexe")),
        Makes(Made::Glob("*[[:alpha:]]*\\*", "a*")),
        Makes(Made::Glob("*aaaaaaaaaaaaaaaaaaaaaaaaaaaaaaaaaaaaaaaaaaaaaaaaaaaaaaaaaaaaaaa*b",
            "aaaaaaaaaaaaaaaaaaaaaaaaaaaaaaaaaaaaaaaaaaaaaaaaaaaaaaaaaaaaaaaab")),
    ];
    assert_calls(rt.alloc(), CALLS)
}

#[test]
#[rattlefmt::skip]
fn a_glob_for_directories_is_compiled_or_memory_ran_out(rt: HostRuntime) -> Result<(), Fail> {
    const CALLS: &[Makes<Made>] = &[
        Makes(Made::Directories("/", Mode::Shell, "")),
        Makes(Made::Directories("a*", Mode::Shell, "ab")),
        Makes(Made::Directories("**/b/**", Mode::PathAware, "a/b/c")),
        Makes(Made::Directories("a*[!b-d]?[x]*", Mode::Shell, "abeexe")),
        Makes(Made::Directories("*aaaaaaaaaaaaaaaaaaaaaaaaaaaaaaaaaaaaaaaaaaaaaaaaaaaaaaaaaaaaaaa/**", Mode::PathAware,
            "aaaaaaaaaaaaaaaaaaaaaaaaaaaaaaaaaaaaaaaaaaaaaaaaaaaaaaaaaaaaaaaa")),
    ];
    assert_calls(rt.alloc(), CALLS)
}

#[test]
#[rattlefmt::skip]
fn heads_and_stems_are_sorted_or_memory_ran_out(rt: HostRuntime) -> Result<(), Fail> {
    const HEADS: &[&[u8]] = &[b"x", b"a", b"a/b", b"a", b"", b"a/"];
    assert_calls(rt.alloc(), &[Makes(Made::Heads(HEADS, 1)), Makes(Made::Heads(&[b""], 0)), Makes(Made::Stems)])
}

/// A call that copies an assignment or a part of it.
#[derive(Clone, Copy)]
enum CopyCall {
    Name,
    CloneName,
    CloneState,
    ToState,
    CloneAssignment,
}

impl Call for CopyCall {
    type Given = Vec<Assignment>;

    fn given(&self, alloc: Global) -> Result<Vec<Assignment>, Fail> {
        Ok(listed(alloc, &[("name", StateRef::Value(b"value"))])?)
    }

    fn make(&self, alloc: Global, given: &mut Vec<Assignment>) -> Result<bool, AllocError> {
        match given.first() {
            Some(assignment) => is_copied(alloc, *self, assignment),
            None => Ok(false),
        }
    }
}

/// Whether a copy is the same.
fn is_copied(alloc: Global, call: CopyCall, given: &Assignment) -> Result<bool, AllocError> {
    Ok(match call {
        CopyCall::Name => Name::from_bytes(alloc, b"name")?.is_some_and(|name| name == given.name),
        CopyCall::CloneName => given.name.try_clone()? == given.name,
        CopyCall::CloneState => given.state.try_clone()? == given.state,
        CopyCall::ToState => given.state.as_ref().to_state(alloc)? == given.state,
        CopyCall::CloneAssignment => given.try_clone()? == *given,
    })
}

#[test]
#[rattlefmt::skip]
fn an_assignment_is_copied_or_memory_ran_out(rt: HostRuntime) -> Result<(), Fail> {
    use CopyCall::{CloneAssignment, CloneName, CloneState, ToState};
    assert_calls(rt.alloc(), &[Calls(CopyCall::Name), Calls(CloneName), Calls(CloneState), Calls(ToState), Calls(CloneAssignment)])
}

/// An outcome for a list of attributes, in which `b` has a value.
fn outcome(alloc: Global) -> Result<Outcome, AllocError> {
    const SET: StateRef<'static> = StateRef::Set;
    let listed = listed(alloc, &[("a", SET), ("b", SET), ("a", SET), ("c", SET)])?;
    let mut outcome = Outcome::for_assignments(alloc, &listed)?;
    outcome.set(b"b", StateRef::Value(b"old"))?;
    Ok(outcome)
}

/// The call that gives a name a state.
struct Set(&'static str, StateRef<'static>);

impl Changing for Set {
    type Value = Outcome;

    fn before(&self, alloc: Global) -> Result<Outcome, Fail> {
        Ok(outcome(alloc)?)
    }

    fn change(&self, _: Global, value: &mut Outcome) -> Result<bool, AllocError> {
        value.set(self.0.as_bytes(), self.1)?;
        Ok(true)
    }

    fn is_same(&self, _: Global, value: &mut Outcome, other: &Outcome) -> Result<bool, Fail> {
        if value.len() != other.len() {
            return Ok(false);
        }
        for place in 0..value.len() {
            let is_same_name = value.name(place) == other.name(place);
            if !is_same_name || value.state(place) != other.state(place) {
                return Ok(false);
            }
        }
        Ok(true)
    }
}

#[test]
fn an_outcome_is_set_or_as_before(rt: HostRuntime) -> Result<(), Fail> {
    const CALLS: &[Changes<Set>] = &[
        Changes(Set("a", StateRef::Value(b"new"))),
        Changes(Set("b", StateRef::Value(b"new"))),
        Changes(Set("b", StateRef::Unset)),
        Changes(Set("x", StateRef::Value(b"new"))),
    ];
    assert_calls(rt.alloc(), CALLS)?;
    assert_calls(rt.alloc(), &[Makes(Made::Outcome)])
}

/// The call that puts a component on a stack of so many.
struct Push(usize);

impl Changing for Push {
    type Value = Stack<'static>;

    fn before(&self, alloc: Global) -> Result<Stack<'static>, Fail> {
        let mut stack = Stack::new(alloc);
        for _ in 0..self.0 {
            stack.push(BStr::new(b"a"))?;
        }
        Ok(stack)
    }

    fn change(&self, _: Global, value: &mut Stack<'static>) -> Result<bool, AllocError> {
        value.push(BStr::new(b"b"))?;
        Ok(true)
    }

    fn is_same(
        &self,
        _: Global,
        value: &mut Stack<'static>,
        other: &Stack<'static>,
    ) -> Result<bool, Fail> {
        for index in 0..value.len().max(other.len()) {
            if value.get(index) != other.get(index) {
                return Ok(false);
            }
        }
        Ok(value.least() == other.least())
    }
}

#[test]
#[rattlefmt::skip]
fn a_stack_is_pushed_on_or_as_before(rt: HostRuntime) -> Result<(), Fail> {
    assert_calls(rt.alloc(), &[Changes(Push(0)), Changes(Push(1)), Changes(Push(4)), Changes(Push(8)), Changes(Push(1000))])
}

/// Whether two cursors come to the same entry, and enter it or not.
fn are_at_same(cursor: &mut Cursor<'_>, other: &mut Cursor<'_>) -> bool {
    let is_there = cursor.next().is_some() && other.next().is_some();
    is_there && cursor.path() == other.path() && cursor.enter() == other.enter()
}

/// Whether a walk that enters all comes to the same entries of two trees.
fn has_same_entries(alloc: Global, tree: &Tree, other: &Tree) -> Result<bool, AllocError> {
    let mut cursor = Cursor::new(alloc, tree)?;
    let mut beside = Cursor::new(alloc, other)?;
    for _ in 0..tree.len() {
        if !are_at_same(&mut cursor, &mut beside) {
            return Ok(false);
        }
    }
    Ok(cursor.next().is_none() && beside.next().is_none())
}

/// The call that adds the entry of a word to the tree of these.
struct Add(&'static [&'static str], &'static str);

impl Changing for Add {
    type Value = Tree;

    fn before(&self, alloc: Global) -> Result<Tree, Fail> {
        Ok(tree_of(alloc, self.0)?)
    }

    fn change(&self, _: Global, value: &mut Tree) -> Result<bool, AllocError> {
        match add(value, self.1) {
            Ok(()) => Ok(true),
            Err(TreeError::Memory) => Err(AllocError),
            Err(_) => Ok(false),
        }
    }

    fn is_same(&self, alloc: Global, value: &mut Tree, other: &Tree) -> Result<bool, Fail> {
        Ok(has_same_entries(alloc, value, other)?)
    }
}

#[test]
#[rattlefmt::skip]
fn an_entry_is_added_or_the_tree_is_as_before(rt: HostRuntime) -> Result<(), Fail> {
    const DIRECTORY: &str = "a long name of a directory/";
    const FILE: &str = "a long name of a file";
    const CALLS: &[Changes<Add>] = &[
        Changes(Add(&[], DIRECTORY)),
        Changes(Add(&["directory/", "file", "file"], DIRECTORY)),
        Changes(Add(&["directory/", "file", "file", "file", "file"], DIRECTORY)),
        Changes(Add(&[], FILE)),
        Changes(Add(&["directory/", "file"], FILE)),
        Changes(Add(&["directory/", "file", "file", "file", "file", "file", "file", "file"], FILE)),
    ];
    assert_calls(rt.alloc(), CALLS)
}

/// The call that makes a cursor.
struct NewCursor;

impl Call for NewCursor {
    type Given = Tree;

    fn given(&self, alloc: Global) -> Result<Tree, Fail> {
        Ok(tree_of(alloc, &["directory/", "file", "file", "file"])?)
    }

    fn make(&self, alloc: Global, given: &mut Tree) -> Result<bool, AllocError> {
        has_same_entries(alloc, given, given)
    }
}

#[test]
fn a_cursor_is_made_or_memory_ran_out(rt: HostRuntime) -> Result<(), Fail> {
    assert_calls(rt.alloc(), &[Calls(NewCursor)])
}
