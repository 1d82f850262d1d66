//! The assignments of a line: names, each with a state (gitattributes).
ghost use Rattle.std.specs.Prelude.{◌≡◌, map, IfOk};
ghost use Rattle.std.specs.Option.{option_map};
ghost use Rattle.pathspec_parts.specs.AttributeNames.{name_bytes};
ghost use Rattle.pathspec_parts.specs.AttributeStates.{assignment_view, state_view};
ghost use Rattle.pathspec_attributes.specs.Readings.{assignment_of, assignments_of, before_equals, git_name_of, named, plain_assignment};

use crate::lines::at_first_blank;
use pathspec_parts::attributes::{Assignment, Name, State};
use pathspec_parts::split;
use std::alloc::{AllocError, Global};

/// Reads the words of a text as assignments. None where a word has a bad name.
///
/// # Errors
/// Memory runs out.
pub(crate) fn assignments(alloc: Global, text: &[u8]) -> Result<Option<Vec<Assignment>>, AllocError>
    ensures { IfOk result (λ read.
        option_map (λ all. map assignment_view all.items) read ≡ assignments_of text.now) }
{
    let mut assignments = Vec::new(alloc);
    let mut rest = text;
    while !rest.is_empty() {
        let (word, others) = at_first_blank(rest);
        if !word.is_empty() {
            let Some(next) = assignment(alloc, word)? else {
                return Ok(None);
            };
            assignments.push(next)?;
        }
        rest = others;
    }
    Ok(Some(assignments))
}

/// Reads a word as an assignment: `-name`, `!name`, `name=value` or `name`. None where the name is bad.
fn assignment(alloc: Global, word: &[u8]) -> Result<Option<Assignment>, AllocError>
    ensures { IfOk result (λ read. option_map assignment_view read ≡ assignment_of word.now) }
{
    match word {
        [b'-', name @ ..] => named(alloc, before_equals(name), State::Unset),
        [b'!', name @ ..] => named(alloc, before_equals(name), State::Unspecified),
        _ => plain_assignment(alloc, word),
    }
}

/// Reads a word without a mark in front.
fn plain_assignment(alloc: Global, word: &[u8]) -> Result<Option<Assignment>, AllocError>
    ensures { IfOk result (λ read. option_map assignment_view read ≡ plain_assignment word.now) }
{
    if !word.contains(&b'=') {
        return named(alloc, word, State::Set);
    }
    let (name, value) = split::at_first(word, b'=');
    named(alloc, name, State::Value(Vec::from_slice(alloc, value)?))
}

/// The name with a state, or None where it is a bad name.
fn named(alloc: Global, name: &[u8], state: State) -> Result<Option<Assignment>, AllocError>
    ensures { IfOk result (λ read.
        option_map assignment_view read ≡ named name.now (state_view state)) }
{
    match git_name(alloc, name)? {
        Some(name) => Ok(Some(Assignment { name, state })),
        None => Ok(None),
    }
}

/// The name that bytes are for git. The empty one is none.
///
/// # Errors
/// Memory runs out.
pub(crate) fn git_name(alloc: Global, bytes: &[u8]) -> Result<Option<Name>, AllocError>
    ensures { IfOk result (λ name. option_map name_bytes name ≡ git_name_of bytes.now) }
{
    if bytes.is_empty() {
        return Ok(None);
    }
    Name::from_bytes(alloc, bytes)
}

/// What stands before the first `=`.
fn before_equals(word: &[u8]) -> &[u8]
    ensures { result.now ≡ before_equals word.now }
{
    split::at_first(word, b'=').0
}
