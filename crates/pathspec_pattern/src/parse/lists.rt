//! Lists of attributes, as `attr:` takes them (gitglossary, "pathspec").
ghost use Rattle.std.specs.Prelude.{◌≡◌, map, vec_items, Some, IsTrue, IsFalse, IfOk, IfErr, OnErr};
ghost use Rattle.pathspec_parts.specs.AttributeNames.{name_bytes};
ghost use Rattle.pathspec_parts.specs.AttributeStates.{state_view, assignment_view};
ghost use Rattle.pathspec_pattern.specs.Faults.Fault.{InvalidValueByte};
ghost use Rattle.pathspec_pattern.specs.Errors.{fault_of, Computes};
ghost use Rattle.pathspec_pattern.specs.AttributeLists.{name_of, is_value_byte, value_of, assignment_with_state, assignment_with_value, assignment_of, assignments_of};

use super::pieces::is_escape;
use crate::{Error, error};
use pathspec_parts::attributes::{Assignment, Name, State};
use pathspec_parts::split;
use std::alloc::Global;

/// Reads a list of attributes, as `attr:` takes it (gitglossary, "pathspec"): parts between spaces, of which empty ones don't
/// count. `name` sets an attribute, `-name` unsets it and `!name` leaves it unspecified. `name=value` is cut at its first `=`.
/// A value has ASCII letters, digits, `,`, `-` and `_`; a backslash stands for the byte after it.
///
/// The call looks at each byte a fixed number of times. It takes memory for the assignments with their names and values, or
/// for the bytes that an error carries.
///
/// # Errors
/// [`Error::EmptyAttributes`] for the empty list. For the first part at fault [`Error::InvalidValueByte`] or
/// [`Error::TrailingEscape`], which tell of its value, and only then [`Error::InvalidName`]. [`Error::Memory`].
pub fn attributes(alloc: Global, list: &[u8]) -> Result<Vec<Assignment>, Error>
    ensures { Computes (λ vec. map assignment_view vec.items) (assignments_of list.now) result }
{
    if list.is_empty() {
        return Err(Error::EmptyAttributes);
    }
    let mut assignments = Vec::new(alloc);
    let mut rest = list;
    while !rest.is_empty() {
        let (part, others) = split::at_first(rest, b' ');
        if !part.is_empty() {
            assignments.push(assignment(alloc, part)?)?;
        }
        rest = others;
    }
    Ok(assignments)
}

/// Reads the assignment that a part of a list is.
fn assignment(alloc: Global, part: &[u8]) -> Result<Assignment, Error>
    ensures { Computes assignment_view (assignment_of part.now) result }
{
    if let Some(name) = part.strip_prefix(b"!") {
        return assignment_of_state(alloc, State::Unspecified, name);
    }
    if let Some(name) = part.strip_prefix(b"-") {
        return assignment_of_state(alloc, State::Unset, name);
    }
    if !part.contains(&b'=') {
        return assignment_of_state(alloc, State::Set, part);
    }
    let (name, written) = split::at_first(part, b'=');
    assignment_of_value(alloc, name, written)
}

/// The assignment of a value to a name. The value is read before the name.
fn assignment_of_value(alloc: Global, name: &[u8], written: &[u8]) -> Result<Assignment, Error>
    ensures { Computes assignment_view (assignment_with_value name.now written.now) result }
{
    let value = value(alloc, written)?;
    assignment_of_state(alloc, State::Value(value), name)
}

/// The assignment of a state to a name.
fn assignment_of_state(alloc: Global, state: State, bytes: &[u8]) -> Result<Assignment, Error>
    ensures { Computes assignment_view (assignment_with_state (state_view state) bytes.now) result }
{
    Ok(Assignment {
        name: name(alloc, bytes)?,
        state,
    })
}

/// Reads the name that bytes write.
fn name(alloc: Global, bytes: &[u8]) -> Result<Name, Error>
    ensures { Computes name_bytes (name_of bytes.now) result }
{
    match Name::from_bytes(alloc, bytes)? {
        Some(name) => Ok(name),
        None => Err(Error::InvalidName(error::to_vec(alloc, bytes)?)),
    }
}

/// Reads the value that bytes write.
fn value(alloc: Global, written: &[u8]) -> Result<Vec<u8>, Error>
    ensures { Computes vec_items (value_of written.now) result }
{
    let mut value = Vec::new(alloc);
    let mut escaped = false;
    for byte in written {
        escaped = is_escape(*byte, escaped);
        if !escaped {
            value.push(value_byte(*byte)?)?;
        }
    }
    if escaped {
        return Err(Error::TrailingEscape(error::to_vec(alloc, written)?));
    }
    Ok(value)
}

/// The byte, if a value may hold it.
fn value_byte(byte: u8) -> Result<u8, Error>
    ensures ok { IfOk result (λ b. (b ≡ byte) × IsTrue (is_value_byte byte)) }
    ensures err { IfErr result (λ e. fault_of e ≡ Some (InvalidValueByte byte)) }
    ensures refused { OnErr result (IsFalse (is_value_byte byte)) }
{
    if is_value_byte(byte) {
        Ok(byte)
    } else {
        Err(Error::InvalidValueByte(byte))
    }
}

/// Whether a value may hold the byte.
fn is_value_byte(byte: u8) -> bool
    ensures { result ≡ is_value_byte byte }
{
    byte.is_ascii_alphanumeric() || matches!(byte, b',' | b'-' | b'_')
}
