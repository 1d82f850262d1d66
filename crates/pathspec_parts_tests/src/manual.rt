//! The example of git's manual page, gitattributes.
use pathspec_attributes::{AttributeFiles, Place};
use pathspec_parts::attributes::{Outcome, StateRef};
use pathspec_test_support::look_ups::listed;
use std::alloc::{AllocError, Global};

/// The files of the example of git's manual page.
pub fn manual(alloc: Global) -> Result<AttributeFiles, AllocError> {
    let mut files = AttributeFiles::new(alloc)?;
    files.add(Place::Info, b"a*\tfoo !bar -baz\n")?;
    files.add(Place::Directory(b""), b"abc\tfoo bar baz\n")?;
    files.add(
        Place::Directory(b"t"),
        b"a*\tmerge=filfre\nabc\t-foo -bar\n*.c\tfrotz\n",
    )?;
    Ok(files)
}

/// An outcome for the attributes of that example.
pub fn outcome(alloc: Global) -> Result<Outcome, AllocError> {
    const SET: StateRef<'static> = StateRef::Set;
    const NAMES: &[(&str, StateRef<'static>)] = &[
        ("foo", SET),
        ("bar", SET),
        ("baz", SET),
        ("merge", SET),
        ("frotz", SET),
    ];
    Outcome::for_assignments(alloc, &listed(alloc, NAMES)?)
}

/// Whether the state at a place is this one.
pub fn has_state(found: &Outcome, place: usize, state: StateRef<'_>) -> bool {
    place < found.len() && found.state(place) == state
}

/// What the manual page says of `t/abc`.
pub const OF_ABC: &[StateRef<'static>] = &[
    StateRef::Set,
    StateRef::Unspecified,
    StateRef::Unset,
    StateRef::Value(b"filfre"),
    StateRef::Unspecified,
];
