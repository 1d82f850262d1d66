//! Readers and writers for tests, which answer each call by a script.
#![tactic(auto)]

use std::alloc::Global;
use std::io::{self, ErrorKind, Read, Write};

/// How many bytes a call moves at most, or how it fails.
pub type Answer = Result<usize, ErrorKind>;

/// A call that moves all that it can.
pub const ALL: Answer = Ok(usize::MAX);

/// The answers to the first calls, one after another, and the one to all later calls. It counts the calls.
#[derive(Drop)]
pub struct Script<'a> {
    answers: &'a [Answer],
    last: Answer,
    pub calls: usize,
}

impl<'a> Script<'a> {
    pub fn new(answers: &'a [Answer], last: Answer) -> Script<'a> {
        Script {
            answers,
            last,
            calls: 0,
        }
    }

    /// The answer to the next call.
    fn next(&mut self) -> Answer {
        let answer = match self.answers.get(self.calls) {
            Some(answer) => *answer,
            None => self.last,
        };
        self.calls = self.calls.saturating_add(1);
        answer
    }
}

/// A reader that gives its bytes by a script, and none at their end.
#[derive(Drop)]
pub struct ScriptedReader<'a> {
    bytes: &'a [u8],
    pub script: Script<'a>,
}

impl<'a> ScriptedReader<'a> {
    pub fn new(bytes: &'a [u8], script: Script<'a>) -> ScriptedReader<'a> {
        ScriptedReader { bytes, script }
    }
}

impl Read for ScriptedReader<'_> {
    fn read(&mut self, buf: &mut [u8]) -> io::Result<usize> {
        let most = match self.script.next() {
            Ok(most) => most,
            Err(fault) => return Err(io::Error::from(fault)),
        };
        let given = self.bytes.len().min(buf.len()).min(most);
        buf[..given].copy_from_slice(&self.bytes[..given]);
        self.bytes = &self.bytes[given..];
        Ok(given)
    }
}

/// A writer that takes bytes by a script. It counts how often it is flushed.
#[derive(Drop)]
pub struct ScriptedWriter<'a> {
    pub taken: Vec<u8>,
    pub flushes: usize,
    pub script: Script<'a>,
}

impl<'a> ScriptedWriter<'a> {
    pub fn new(alloc: Global, script: Script<'a>) -> ScriptedWriter<'a> {
        ScriptedWriter {
            taken: Vec::new(alloc),
            flushes: 0,
            script,
        }
    }
}

impl Write for ScriptedWriter<'_> {
    fn write(&mut self, buf: &[u8]) -> io::Result<usize> {
        let most = match self.script.next() {
            Ok(most) => buf.len().min(most),
            Err(fault) => return Err(io::Error::from(fault)),
        };
        self.taken.extend_from_slice(&buf[..most])?;
        Ok(most)
    }

    fn flush(&mut self) -> io::Result<()> {
        self.flushes = self.flushes.saturating_add(1);
        Ok(())
    }
}
