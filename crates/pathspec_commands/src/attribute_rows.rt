//! The attributes of paths, from the command line and from files.
use crate::Failure;
use crate::spec_texts::read_file;
use gix_pathspec::attributes::{Assignment, Name, State};
use gix_pathspec::{Error, parse};
use pathspec_faults::report;
use pathspec_options::SpecOptions;
use pathspec_parts::attributes::Rows;
use std::alloc::{AllocError, Global};
use std::fs::Files;

/// The rows of all attributes that options give paths: those of the command line, and then those of the files.
///
/// # Errors
/// A list that can't be read, and a file that can't be read or doesn't hold triples.
pub(crate) fn attribute_rows<R: Files + AllocGlobal>(
    rt: &R,
    options: &SpecOptions<'_>,
) -> Result<Rows, Failure> {
    let mut rows = Rows::new(rt.alloc());
    add_rows(rt, &mut rows, options)?;
    Ok(rows)
}

/// Adds the rows of all attributes that options give paths.
fn add_rows<R: Files + AllocGlobal>(
    rt: &R,
    rows: &mut Rows,
    options: &SpecOptions<'_>,
) -> Result<(), Failure> {
    for (path, list) in &options.attributes {
        let assignments = assignments_of(rt.alloc(), path, list)?;
        rows.push(path.as_bytes(), assignments)?;
    }
    for file in &options.attribute_files {
        let bytes = read_file(rt, file)?;
        add_triples(rt.alloc(), rows, file, &bytes)?;
    }
    Ok(())
}

/// The attributes of a list.
fn assignments_of(alloc: Global, path: &str, list: &str) -> Result<Vec<Assignment>, Failure> {
    match parse::attributes(alloc, list.as_bytes()) {
        Ok(assignments) => Ok(assignments),
        Err(Error::Memory) => Err(Failure::Memory),
        Err(error) => Err(list_fault(alloc, path, list, &error)?),
    }
}

/// The fault of a list. The list is shown as a spec would have it, so that the place can be marked.
fn list_fault(alloc: Global, path: &str, list: &str, error: &Error) -> Result<Failure, AllocError> {
    let subject = format!(in alloc; "--attr {path}")?;
    let spec = format!(in alloc; ":(attr:{list})")?;
    let lines = report(alloc, subject.as_str(), spec.as_bytes(), error)?;
    Ok(Failure::Told(lines))
}

/// Adds the rows of a file that has what `git check-attr -z` prints: a path, a name and a state, each ended by the byte 0.
fn add_triples(alloc: Global, rows: &mut Rows, file: &str, bytes: &[u8]) -> Result<(), Failure> {
    let mut rest = bytes;
    for number in 1..usize::MAX {
        if rest.is_empty() {
            break;
        }
        match add_triple(alloc, rows, rest)? {
            Some(behind) => rest = behind,
            None => return Err(triple_fault(alloc, file, number)?),
        }
    }
    Ok(())
}

/// Adds the row of the triple in front, and gives what stands behind it. None where there is no triple.
fn add_triple<'r>(
    alloc: Global,
    rows: &mut Rows,
    rest: &'r [u8],
) -> Result<Option<&'r [u8]>, AllocError> {
    let Some((path, name, state, behind)) = triple(rest) else {
        return Ok(None);
    };
    let Some(assignment) = assignment_of(alloc, name, state)? else {
        return Ok(None);
    };
    rows.push(path, vec![in alloc; assignment]?)?;
    Ok(Some(behind))
}

/// The three texts in front, and what stands behind them.
fn triple(rest: &[u8]) -> Option<(&[u8], &[u8], &[u8], &[u8])> {
    let (path, rest) = text(rest)?;
    let (name, rest) = text(rest)?;
    let (state, rest) = text(rest)?;
    Some((path, name, state, rest))
}

/// The text before the first byte 0, and what stands behind it.
fn text(rest: &[u8]) -> Option<(&[u8], &[u8])> {
    let length = rest.iter().position(|byte| *byte == 0)?;
    Some((&rest[..length], &rest[length + 1..]))
}

/// An attribute with the state that git prints for it.
fn assignment_of(
    alloc: Global,
    name: &[u8],
    state: &[u8],
) -> Result<Option<Assignment>, AllocError> {
    let Some(name) = Name::from_bytes(alloc, name)? else {
        return Ok(None);
    };
    let state = match state {
        b"set" => State::Set,
        b"unset" => State::Unset,
        b"unspecified" => State::Unspecified,
        value => State::Value(Vec::from_slice(alloc, value)?),
    };
    Ok(Some(Assignment { name, state }))
}

/// The fault of a triple.
fn triple_fault(alloc: Global, file: &str, number: usize) -> Result<Failure, AllocError> {
    Ok(Failure::Told(format!(in alloc;
        "error: {file}: triple {number}: no path, attribute and state, as `git check-attr -z` prints them\n"
    )?))
}
