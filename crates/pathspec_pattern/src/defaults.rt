//! The defaults of pathspecs, which the variables of git's environment set.
ghost use Rattle.std.specs.Prelude.{◌≡◌, ℕ, List, [], ◌∷◌, Option, Some};
ghost use Rattle.pathspec_pattern.specs.Errors.{IsAnswerOrFault};
ghost use Rattle.pathspec_pattern.specs.Environment.{flag_of, mode_of, mode_of_words, case_signature, defaults_of, asked_globs, asked_variables, HasAsked, AnswersBy, words_of, UnaskedDoNotCount};

use crate::{Error, MagicSignature, SearchMode, error};
use bitflags::Flags;
use pathspec_parts::truth::parse_truth;
use std::alloc::Global;

/// The defaults for all that a pathspec's text doesn't say. git sets them by `GIT_LITERAL_PATHSPECS` and the variables after
/// it (git, "Environment variables").
///
/// Defaults compare by their signature, search mode and whether they are literal, in this order.
#[derive(Clone, Copy, Debug, Default, PartialEq, Eq, PartialOrd, Ord)]
pub struct Defaults {
    /// Bits that each signature has beside those of its text.
    pub signature: MagicSignature,
    /// The mode of each pathspec that picks none.
    pub search_mode: SearchMode,
    /// Whether texts aren't read: each is then its own path, in mode [`SearchMode::Literal`].
    pub literal: bool,
}

impl Defaults {
    /// Reads the defaults from the variables of git's environment (git, "GIT_LITERAL_PATHSPECS" and those after it). The call
    /// asks `var` for the texts of `GIT_LITERAL_PATHSPECS` and `GIT_ICASE_PATHSPECS`. Unless the first is true, it asks for
    /// those of `GIT_GLOB_PATHSPECS` and `GIT_NOGLOB_PATHSPECS`, too. A variable that isn't set is false; the others are words
    /// of truth, as [`parse_truth`] reads them. After a fault the call asks for no more.
    ///
    /// The call looks at each byte of the texts a fixed number of times. Only the bytes that an error carries take memory.
    ///
    /// # Errors
    /// [`Error::NotTruth`] with the first text that is no word of truth, or [`Error::Memory`] in its place.
    /// [`Error::GlobAndNoGlob`] where both variables for globs are true.
    pub fn from_environment<'e, F: FnMut(&str) -> Option<&'e str>>(
        alloc: Global,
        var: &mut F,
    ) -> Result<Defaults, Error>
        requires { F.IsAlwaysCallable var.old }
        ensures callable { F.IsAlwaysCallable var.new }
        ensures asked { HasAsked F.FnMut asked_variables defaults_of var.old result var.new }
        // A closure that answers by a table gets the defaults of the table's words.
        ensures table { (table : List ℕ → Option (List ℕ)) → AnswersBy F.FnMut table
            → IsAnswerOrFault (defaults_of (words_of table)) result }
        // A word that wasn't asked for doesn't count.
        ensures unasked { UnaskedDoNotCount }
    {
        let literal = ask_flag(alloc, var, "GIT_LITERAL_PATHSPECS")?;
        let ignore_case = ask_flag(alloc, var, "GIT_ICASE_PATHSPECS")?;
        let signature = case_signature(ignore_case);
        if literal {
            return Ok(Defaults {
                signature,
                search_mode: SearchMode::Literal,
                literal: true,
            });
        }
        let search_mode = ask_mode(alloc, var)?;
        Ok(Defaults {
            signature,
            search_mode,
            literal: false,
        })
    }
}

/// The signature that ignores case, or doesn't.
fn case_signature(ignore_case: bool) -> MagicSignature
    ensures { result ≡ case_signature ignore_case }
{
    if ignore_case {
        MagicSignature::ICASE
    } else {
        MagicSignature::empty()
    }
}

/// The mode that the variables for globs ask for.
///
/// # Errors
/// [`Error::NotTruth`], [`Error::GlobAndNoGlob`] and [`Error::Memory`].
fn ask_mode<'e, F: FnMut(&str) -> Option<&'e str>>(
    alloc: Global,
    var: &mut F,
) -> Result<SearchMode, Error>
    requires { F.IsAlwaysCallable var.old }
    ensures callable { F.IsAlwaysCallable var.new }
    ensures asked { HasAsked F.FnMut asked_globs mode_of_words var.old result var.new }
{
    let glob = ask_flag(alloc, var, "GIT_GLOB_PATHSPECS")?;
    let noglob = ask_flag(alloc, var, "GIT_NOGLOB_PATHSPECS")?;
    mode_of(glob, noglob)
}

/// The mode that two flags ask for.
///
/// # Errors
/// [`Error::GlobAndNoGlob`] where both are set.
fn mode_of(glob: bool, noglob: bool) -> Result<SearchMode, Error>
    ensures { IsAnswerOrFault (mode_of glob noglob) result }
{
    match (glob, noglob) {
        (true, true) => Err(Error::GlobAndNoGlob),
        (true, false) => Ok(SearchMode::PathAwareGlob),
        (false, true) => Ok(SearchMode::Literal),
        (false, false) => Ok(SearchMode::ShellGlob),
    }
}

/// Whether the variable with the given name is true.
///
/// # Errors
/// [`Error::NotTruth`] and [`Error::Memory`].
fn ask_flag<'e, F: FnMut(&str) -> Option<&'e str>>(
    alloc: Global,
    var: &mut F,
    name: &str,
) -> Result<bool, Error>
    requires { F.IsAlwaysCallable var.old }
    ensures callable { F.IsAlwaysCallable var.new }
    ensures asked { HasAsked F.FnMut (λ word. (name.now, word) ∷ [])
        flag_of var.old result var.new }
{
    match var(name) {
        Some(word) => flag_of(alloc, word.as_bytes()),
        None => Ok(false),
    }
}

/// The value of a word of truth.
///
/// # Errors
/// [`Error::NotTruth`] for any other word, and [`Error::Memory`].
fn flag_of(alloc: Global, word: &[u8]) -> Result<bool, Error>
    ensures { IsAnswerOrFault (flag_of (Some word.now)) result }
{
    match parse_truth(word) {
        Some(value) => Ok(value),
        None => Err(Error::NotTruth(error::to_vec(alloc, word)?)),
    }
}
