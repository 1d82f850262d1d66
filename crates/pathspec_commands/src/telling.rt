//! Lines for people.
use crate::Failure;
use crate::text::Text;
use std::alloc::{AllocError, Global};
use std::io::{self, ErrorKind, Write};

/// Writes to where people are told. Whether they read it changes nothing.
pub(crate) fn tell<T: Write>(told: &mut T, text: &str) {
    let _ = told.write_all(text.as_bytes());
}

/// A text in quotes, with control characters and bytes that are no UTF-8 by their numbers.
pub(crate) fn quoted(alloc: Global, text: &[u8]) -> Result<String, AllocError> {
    let mut shown = Text::new(alloc);
    shown.push_quoted(text);
    shown.end()
}

/// The word for so many of something.
pub(crate) fn noun(count: u64, one: &'static str, many: &'static str) -> &'static str {
    if count == 1 { one } else { many }
}

/// The fault of a read of what has a name.
pub(crate) fn read_fault(
    alloc: Global,
    name: &str,
    error: &io::Error,
) -> Result<Failure, AllocError> {
    match error.kind() {
        ErrorKind::OutOfMemory => Ok(Failure::Memory),
        _ => Ok(Failure::Told(format!(in alloc; "error: {name}: {error}\n")?)),
    }
}

/// The fault of a path that is no record's.
pub(crate) fn bad_path(alloc: Global, number: usize) -> Result<Failure, AllocError> {
    Ok(Failure::Told(format!(in alloc;
        "error: path {number} is empty, begins with a slash or holds two in a row\n"
    )?))
}
