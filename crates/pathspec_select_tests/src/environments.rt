//! Environments that are read of variables.
use crate::asked::Variables;
use pathspec_select::{Environment, Refusal};
use pathspec_test_support::look_ups::text_of;
use std::alloc::Global;
use std::env::VarError;

/// In a table of variables, a word that isn't UTF-8.
pub const NOT_UTF8: &str = "not UTF-8";

/// Variables that are told by their names, and how often one was asked for.
#[derive(Drop)]
struct SetVariables<'v> {
    alloc: Global,
    variables: Variables<'v>,
    asked: usize,
}

impl SetVariables<'_> {
    /// The answer of [`std::env::var`] where these variables are set.
    fn var(&mut self, name: &str) -> Result<String, VarError> {
        self.asked = self.asked.saturating_add(1);
        match text_of(self.variables, name) {
            Some(text) => {
                if text == NOT_UTF8 {
                    return Err(VarError::NotUnicode);
                }
                String::from_str(self.alloc, text).map_err(|_| VarError::OutOfMemory)
            }
            None => Err(VarError::NotPresent),
        }
    }

    /// The environment that is read of them.
    fn read(&mut self) -> Result<Environment, Refusal> {
        let mut var = |name: &str| -> Result<String, VarError> { self.var(name) };
        Environment::read(&mut var)
    }
}

/// The environment that is read where these variables are set, and how many of them were asked for.
pub fn read(alloc: Global, variables: Variables<'_>) -> (Result<Environment, Refusal>, usize) {
    let mut set = SetVariables {
        alloc,
        variables,
        asked: 0,
    };
    let found = set.read();
    (found, set.asked)
}

/// Whether these are the words of an environment, by the names of their fields.
pub fn has_words(environment: &Environment, words: Variables<'_>) -> bool {
    environment.literal.as_deref() == text_of(words, "literal")
        && environment.icase.as_deref() == text_of(words, "icase")
        && environment.glob.as_deref() == text_of(words, "glob")
        && environment.noglob.as_deref() == text_of(words, "noglob")
}
