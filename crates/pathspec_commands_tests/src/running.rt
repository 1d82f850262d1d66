//! Running a command over memory.
use pathspec_commands::{Failure, run};
use pathspec_options::Options;
use std::alloc::AllocError;
use std::fs::Files;
use std::io::{Read, Write};
use std::rt::Env;

/// What a command wrote, what it told, and its exit status.
#[derive(Debug, Drop, PartialEq, Eq)]
pub struct Ran {
    pub written: Vec<u8>,
    pub told: Vec<u8>,
    pub status: u8,
}

/// The exit status of the program for a failure.
const FAULT: u8 = 2;

/// Runs the command that words ask for, with the program's name in front.
pub fn run_words<R: Files + Env + AllocGlobal, I: Read, W: Write>(
    rt: &R,
    words: &[&str],
    reader: &mut I,
    writer: &mut W,
    told: &mut Vec<u8>,
) -> Result<u8, Failure> {
    let mut line = vec![in rt.alloc(); "pathspec"]?;
    line.extend_from_slice(words)?;
    match Options::from_words(rt.alloc(), &line, "") {
        Ok(options) => run(rt, &options, (reader, writer, told)),
        Err(_) => Err(Failure::Memory),
    }
}

/// What a command does with an input. A failure that is told has its text behind what was told before.
pub fn run_over<R: Files + Env + AllocGlobal>(
    rt: &R,
    words: &[&str],
    input: &[u8],
) -> Result<Ran, AllocError> {
    let mut reader = input;
    let mut written = Vec::new(rt.alloc());
    let mut told = Vec::new(rt.alloc());
    let status = match run_words(rt, words, &mut reader, &mut written, &mut told) {
        Ok(status) => status,
        Err(Failure::Told(lines)) => {
            told.extend_from_slice(lines.as_bytes())?;
            FAULT
        }
        Err(Failure::Memory | Failure::Output) => return Err(AllocError),
    };
    Ok(Ran {
        written,
        told,
        status,
    })
}
