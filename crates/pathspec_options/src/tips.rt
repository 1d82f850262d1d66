//! Tips on words that other programs take.
use crate::commands::command;
use clap::Error;
use clap::error::ErrorKind;
use std::alloc::{AllocError, Global};

/// The error of a command line, with a tip where the word that isn't expected has one.
///
/// # Errors
/// Memory ran out.
pub(crate) fn with_tip(alloc: Global, error: Error, version: &str) -> Result<Error, AllocError> {
    let text = format!(in alloc; "{error}")?;
    let Some(tip) = tip(text.as_str()) else {
        return Ok(error);
    };
    let message = format!(in alloc; "{}\n\n  tip: {tip}", message(text.as_str()))?;
    command(alloc, version)?.error(ErrorKind::UnknownArgument, message.as_str())
}

/// The tip for an error with a text. Only `list` has a word too many, since all other commands take any number of specs.
fn tip(text: &str) -> Option<&'static str> {
    let word = text.strip_prefix("error: unexpected argument '")?;
    if word.starts_with("--exclude' ") {
        Some("':!PATTERN' is an exclude")
    } else if word.starts_with('-') {
        None
    } else {
        Some("specs stand behind `--`")
    }
}

/// What an error with a text says first, behind `error: `.
fn message(text: &str) -> &str {
    let message = text.strip_prefix("error: ").unwrap_or(text);
    match message.split_once("\n\n") {
        Some((first, _)) => first,
        None => message,
    }
}
