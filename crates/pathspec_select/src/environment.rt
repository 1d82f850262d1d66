//! The variables of the environment for pathspecs.
ghost use Rattle.std.specs.Prelude.{◌≡◌, IfOk, IfErr, MatchOption, Ok, string_bytes};
ghost use Rattle.std.specs.Option.{option_copied, option_map};
ghost use Rattle.pathspec_pattern.specs.Environment.{defaults_of, flag_of, asked_variables};
ghost use Rattle.pathspec_select.specs.Requests.{environment_result};
ghost use Rattle.pathspec_select.specs.Refusals.{ComputesRequest};
ghost use Rattle.pathspec_select.specs.Variables.{IsNoTruth, word_told, word_read, HasTold, HasToldAll, HasRefusedOne};

use crate::Refusal;
use gix_pathspec::{Defaults, Error};
use pathspec_parts::truth::parse_truth;
use std::alloc::Global;
use std::env::VarError;

/// The words of git's four variables for pathspecs, where they are set (git, "Environment variables").
#[derive(Debug, Drop)]
pub struct Environment {
    /// `GIT_LITERAL_PATHSPECS`: specs are taken as paths.
    pub literal: Option<String>,
    /// `GIT_ICASE_PATHSPECS`: ASCII case doesn't count.
    pub icase: Option<String>,
    /// `GIT_GLOB_PATHSPECS`: specs are globs as with `:(glob)`.
    pub glob: Option<String>,
    /// `GIT_NOGLOB_PATHSPECS`: specs are literal as with `:(literal)`.
    pub noglob: Option<String>,
}

impl Environment {
    ghost use Rattle.pathspec_select.specs.Environment.{words_of, word_of};

    /// Reads the words of git's variables that count (git, "Environment variables"). They are `GIT_LITERAL_PATHSPECS`,
    /// `GIT_ICASE_PATHSPECS`, and unless the first is true `GIT_GLOB_PATHSPECS` and `GIT_NOGLOB_PATHSPECS`. `var` answers as
    /// [`std::env::var`] does. After a word that is none of truth the call asks for no more. A variable that wasn't asked for
    /// is left out.
    ///
    /// The call looks at each byte of a word a fixed number of times, and takes no memory beside what `var` takes.
    ///
    /// # Errors
    /// The first answer that is at fault: [`Refusal::Usage`] for a word that isn't UTF-8, [`Refusal::Memory`].
    pub fn read<F: FnMut(&str) -> Result<String, VarError>>(
        var: &mut F,
    ) -> Result<Environment, Refusal>
        requires { F.IsAlwaysCallable var.old }
        ensures callable { F.IsAlwaysCallable var.new }
        // Just the variables that count are asked for, each once and in order, and have their words.
        ensures asked { IfOk result (λ environment.
            HasToldAll F.FnMut var.old (asked_variables (words_of environment)) var.new) }
        ensures refused { IfErr result (λ refused.
            HasRefusedOne F.FnMut var.old var.new refused) }
    {
        let literal = ask(var, "GIT_LITERAL_PATHSPECS")?;
        let Some(is_literal) = truth_of(&literal) else {
            return Ok(Environment {
                literal,
                icase: None,
                glob: None,
                noglob: None,
            });
        };
        let icase = ask(var, "GIT_ICASE_PATHSPECS")?;
        if is_literal || truth_of(&icase).is_none() {
            return Ok(Environment {
                literal,
                icase,
                glob: None,
                noglob: None,
            });
        }
        let glob = ask(var, "GIT_GLOB_PATHSPECS")?;
        if truth_of(&glob).is_none() {
            return Ok(Environment {
                literal,
                icase,
                glob,
                noglob: None,
            });
        }
        let noglob = ask(var, "GIT_NOGLOB_PATHSPECS")?;
        Ok(Environment {
            literal,
            icase,
            glob,
            noglob,
        })
    }

    /// The defaults that the variables set.
    ///
    /// # Errors
    /// [`Refusal::Environment`] with the first fault, [`Refusal::Memory`].
    pub(crate) fn defaults(&self, alloc: Global) -> Result<Defaults, Refusal>
        ensures { ComputesRequest (λ defaults. defaults)
            (environment_result (defaults_of (words_of self.now))) result }
    {
        let mut var = |name: &str| -> Option<&str> { self.word(name) };
        match Defaults::from_environment(alloc, &mut var) {
            Ok(defaults) => Ok(defaults),
            Err(error) => Err(Refusal::of_environment(error)),
        }
    }

    /// The text of the variable with the given name, if it is one of the four and set.
    fn word(&self, name: &str) -> Option<&str>
        ensures { option_copied result ≡ word_of (words_of self.now) name.now }
    {
        if name == "GIT_LITERAL_PATHSPECS" {
            self.literal.as_deref()
        } else if name == "GIT_ICASE_PATHSPECS" {
            self.icase.as_deref()
        } else if name == "GIT_GLOB_PATHSPECS" {
            self.glob.as_deref()
        } else if name == "GIT_NOGLOB_PATHSPECS" {
            self.noglob.as_deref()
        } else {
            None
        }
    }
}

/// The word of the variable with the given name, if it is set.
///
/// # Errors
/// [`Refusal::Usage`] where it isn't UTF-8, [`Refusal::Memory`].
fn ask<F: FnMut(&str) -> Result<String, VarError>>(
    var: &mut F,
    name: &str,
) -> Result<Option<String>, Refusal>
    requires { F.IsAlwaysCallable var.old }
    ensures callable { F.IsAlwaysCallable var.new }
    ensures told { HasTold F.FnMut var.old name.now (word_read result) var.new }
{
    word_told(var(name))
}

/// The word that an answer tells.
///
/// # Errors
/// [`Refusal::Usage`] where it isn't UTF-8, [`Refusal::Memory`].
fn word_told(answer: Result<String, VarError>) -> Result<Option<String>, Refusal>
    ensures { word_read result ≡ word_told answer }
{
    match answer {
        Ok(word) => Ok(Some(word)),
        Err(VarError::NotPresent) => Ok(None),
        Err(VarError::NotUnicode) => Err(Refusal::Usage),
        Err(VarError::OutOfMemory) => Err(Refusal::Memory),
    }
}

/// Whether a word says true, or None where it is no word of truth. A variable that isn't set is false.
fn truth_of(word: &Option<String>) -> Option<bool>
    ensures { let said = flag_of (option_map string_bytes word.now) in
        MatchOption result (IsNoTruth said) (λ flag. said ≡ Ok flag) }
{
    match word {
        Some(word) => parse_truth(word.as_bytes()),
        None => Some(false),
    }
}
