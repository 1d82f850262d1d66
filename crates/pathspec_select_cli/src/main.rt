//! The program `pathspec-select`: words, environment and standard streams in, a line and a status out.
#![tactic(auto)]

use pathspec_process::{Output, WordsError, words};
use pathspec_select::{Environment, Refusal, exit_status, run};
use std::env::{self, VarError};
use std::io::{self, Write};
use std::process::ExitCode;

/// Runs the program over standard input and a writer.
fn go<W: Write>(rt: &HostRuntime, words: &[String], writer: &mut W) -> Result<(), Refusal> {
    let mut var = |name: &str| -> Result<String, VarError> { env::var(rt, name) };
    let environment = Environment::read(&mut var)?;
    run(rt.alloc(), words, &environment, &mut rt.reader(), writer)
}

fn main(rt: HostRuntime) -> ExitCode {
    let mut output = Output::new(io::writer(&rt));
    let ended = match words(&rt) {
        Ok(words) => go(&rt, words.as_slice(), &mut output),
        Err(WordsError::Memory) => Err(Refusal::Memory),
        Err(WordsError::NotUtf8(number)) => {
            let _ = eprintln!(rt; "word {number}: not UTF-8; use --specs-first");
            return ExitCode::from(Refusal::Usage.status());
        }
    };
    if let Err(refusal) = &ended {
        if !output.is_closed() {
            let _ = eprintln!(rt; "{refusal}");
        }
    }
    ExitCode::from(exit_status(&ended))
}
