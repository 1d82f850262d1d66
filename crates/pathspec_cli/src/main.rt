//! The program `pathspec`: words, environment and standard streams in, a status out.
#![tactic(auto)]

use pathspec_commands::{Failure, run};
use pathspec_options::{Options, Task};
use pathspec_process::{Output, WordsError, words};
use std::io::{self, ErrorKind, IsTerminal};
use std::process::ExitCode;

/// The versions of the port and of the toolchain.
const VERSION: &str = "0.21.0 (rattle-kit-13f)";

/// The exit status of whoever is at fault.
const FAULT: u8 = 2;

/// The exit status of a program that a closed pipe ended, as shells show it.
const CLOSED: u8 = 141;

/// Runs the command that words ask for, and gives the exit status.
fn run_words(rt: &HostRuntime, words: &[String]) -> Result<u8, Failure> {
    let mut texts = vec![in rt.alloc(); "pathspec"]?;
    for word in words {
        texts.push(word.as_str())?;
    }
    let options = match Options::from_words(rt.alloc(), &texts, VERSION) {
        Ok(options) => options,
        Err(error) => return print_answer(rt, &error),
    };
    if reads_paths(&options.task) && rt.stdin().is_terminal() {
        let _ = eprintln!(rt; "pathspec: reading paths from the terminal, one a line");
    }
    let mut output = Output::new(io::writer(rt));
    let ended = run(
        rt,
        &options,
        (&mut rt.reader(), &mut output, &mut rt.stderr()),
    );
    match ended {
        Err(Failure::Output) if output.is_closed() => Ok(CLOSED),
        ended => ended,
    }
}

/// Prints what is wrong with the words, or the help or version that they ask for, and gives the exit status.
fn print_answer(rt: &HostRuntime, error: &clap::Error) -> Result<u8, Failure> {
    let printed = error.print(rt);
    if error.use_stderr() {
        return Ok(FAULT);
    }
    match printed {
        Ok(()) => Ok(0),
        Err(fault) if fault.kind() == ErrorKind::BrokenPipe => Ok(CLOSED),
        Err(_) => Err(Failure::Output),
    }
}

/// Whether a command reads paths from standard input.
fn reads_paths(task: &Task<'_>) -> bool {
    match task {
        Task::Filter(_) => true,
        Task::Explain(asked) => asked.paths.is_empty(),
        Task::List(_) | Task::Show => false,
    }
}

fn main(rt: HostRuntime) -> ExitCode {
    let ended = match words(&rt) {
        Ok(words) => run_words(&rt, words.as_slice()),
        Err(WordsError::Memory) => Err(Failure::Memory),
        Err(WordsError::NotUtf8(number)) => {
            let _ = eprintln!(rt;
                "error: word {number} isn't UTF-8; `--specs-from FILE` takes such specs"
            );
            return ExitCode::from(FAULT);
        }
    };
    match ended {
        Ok(status) => return ExitCode::from(status),
        Err(Failure::Told(lines)) => {
            let _ = eprint!(rt; "{lines}");
        }
        Err(Failure::Memory) => {
            let _ = eprintln!(rt; "error: out of memory");
        }
        Err(Failure::Output) => {
            let _ = eprintln!(rt; "error: can't write");
        }
    }
    ExitCode::from(FAULT)
}
