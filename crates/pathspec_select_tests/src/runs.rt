//! Runs of the program, and what their refusals are told as.
use crate::asked::{Variables, environment_of};
use pathspec_select::{Refusal, run};
use std::alloc::{AllocError, Global};
use std::io::Read;

/// Adds what a refusal is told as to a text: its status and its line, as `status 4: line 2`.
pub fn add_refusal(alloc: Global, text: &mut Vec<u8>, refusal: &Refusal) -> Result<(), AllocError> {
    let line = refusal.to_string(alloc)?;
    let told = format!(in alloc; "status {}: {line}", refusal.status())?;
    text.extend_from_slice(told.as_bytes())
}

/// Adds what the refusal of a run is told as to a text, if the run is refused.
pub fn add_end(
    alloc: Global,
    text: &mut Vec<u8>,
    ended: Result<(), Refusal>,
) -> Result<(), AllocError> {
    match ended {
        Ok(()) => Ok(()),
        Err(refusal) => add_refusal(alloc, text, &refusal),
    }
}

/// Whether a run writes just this, or is told just this where it is refused and writes nothing.
pub fn writes_for<R: Read>(
    alloc: Global,
    words: &[String],
    variables: Variables<'_>,
    reader: &mut R,
    want: &[u8],
) -> Result<bool, AllocError> {
    let environment = environment_of(alloc, variables)?;
    let mut written = Vec::new(alloc);
    let ended = run(alloc, words, &environment, reader, &mut written);
    add_end(alloc, &mut written, ended)?;
    Ok(written.as_slice() == want)
}
