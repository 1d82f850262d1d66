//! Running a command.
use crate::{Failure, explaining, filtering, listing, showing};
use pathspec_options::{Options, Task};
use std::fs::Files;
use std::io::{Read, Write};
use std::rt::Env;

/// Runs a command: it reads paths from `reader`, writes its answers to `writer`, and tells people of mistakes in lines to
/// `told`. It gives the exit status.
///
/// # Errors
/// The first fault of what it was given, memory, and a write that failed.
pub fn run<R: Files + Env + AllocGlobal, I: Read, W: Write, T: Write>(
    rt: &R,
    options: &Options<'_>,
    (reader, writer, told): (&mut I, &mut W, &mut T),
) -> Result<u8, Failure> {
    match &options.task {
        Task::Filter(asked) => filtering::run(rt, &options.specs, *asked, (reader, writer, told)),
        Task::Explain(asked) => { explaining::run(rt, &options.specs, asked, reader, writer, told) }
        Task::List(asked) => listing::run(rt, &options.specs, asked, writer, told),
        Task::Show => showing::run(rt, &options.specs, writer),
    }
}
