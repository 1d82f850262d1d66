//! What the words of a line and variables ask for, which several tables of tests run.
use pathspec_select::{Environment, Job, Refusal, Rows};
use pathspec_test_support::look_ups::text_of;
use std::alloc::{AllocError, Global};

/// The words of a line, between spaces.
pub fn words_of(alloc: Global, line: &str) -> Result<Vec<String>, AllocError> {
    let mut words = Vec::new(alloc);
    for word in line.split(' ') {
        if !word.is_empty() {
            words.push(String::from_str(alloc, word)?)?;
        }
    }
    Ok(words)
}

/// Variables by their names, with their texts.
pub type Variables<'v> = &'v [(&'v str, &'v str)];

/// No variables.
pub const UNSET: Variables<'static> = &[];

/// A text of its own for the variable with this name, if it is set.
fn owned_text_of(
    alloc: Global,
    variables: Variables<'_>,
    name: &str,
) -> Result<Option<String>, AllocError> {
    match text_of(variables, name) {
        Some(text) => Ok(Some(String::from_str(alloc, text)?)),
        None => Ok(None),
    }
}

/// The environment in which these variables are set, which have the names of its fields.
pub fn environment_of(alloc: Global, variables: Variables<'_>) -> Result<Environment, AllocError> {
    Ok(Environment {
        literal: owned_text_of(alloc, variables, "literal")?,
        icase: owned_text_of(alloc, variables, "icase")?,
        glob: owned_text_of(alloc, variables, "glob")?,
        noglob: owned_text_of(alloc, variables, "noglob")?,
    })
}

/// The job that the words of a line and variables ask for. It is boxed, as searches are.
pub fn job_of(
    alloc: Global,
    line: &str,
    variables: Variables<'_>,
) -> Result<Result<(Box<Job>, Rows), Refusal>, AllocError> {
    let words = words_of(alloc, line)?;
    let environment = environment_of(alloc, variables)?;
    match Job::from_words(alloc, words.as_slice(), &environment) {
        Ok((job, rows)) => Ok(Ok((Box::new(alloc, job)?, rows))),
        Err(refusal) => Ok(Err(refusal)),
    }
}
