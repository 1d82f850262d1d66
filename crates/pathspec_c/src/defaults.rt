//! The defaults of specs, as bits: 1 literal, 2 without case, 4 globs aware of paths, 8 no globs.
ghost use Rattle.std.specs.Prelude.{◌≡◌, ◌≢◌, ◌⊎◌, [], None, Some, Ok, MatchResult, if◌then◌else◌};
ghost use Rattle.pathspec_pattern.specs.Environment.{case_signature, defaults_of, flag_of};
ghost use Rattle.pathspec_c.specs.Calls.{HasKind, defaults_by, defaults_from, mode_from, words_from};

use crate::reports::PsFault;
use bitflags::Flags;
use gix_pathspec::{Defaults, MagicSignature, SearchMode};
use pathspec_parts::truth::parse_truth;

/// Reads the bits that the words of git's variables for pathspecs ask for. An empty word stands for a variable that isn't set.
/// The status is 0, or 5 where a word is none of truth, or globs are both asked for and not; then `defaults` stays. Only with
/// 5 is the fault written, with the number 0.
#[unsafe(no_mangle)]
pub extern "C" fn ps_defaults_from_words(
    literal: &[u8],
    icase: &[u8],
    glob: &[u8],
    noglob: &[u8],
    defaults: &mut u32,
    fault: &mut PsFault,
) -> u32
    ensures read { result ≡ 0 → defaults_of (words_from literal.now icase.now glob.now noglob.now)
        ≡ Ok (defaults_from defaults.new) }
    ensures fault { result ≡ 5 → HasKind fault.new.kind
        (defaults_of (words_from literal.now icase.now glob.now noglob.now)) }
    ensures unset { flag_of (Some []) ≡ flag_of None }
    ensures number { result ≡ 5 → fault.new.number ≡ 0 }
    ensures closed { (result ≡ 0) ⊎ (result ≡ 5) }
    ensures untold { result ≢ 5 → fault.new ≡ fault.old }
    ensures kept { result ≢ 0 → defaults.new ≡ defaults.old }
{
    match bits_of_words(literal, icase, glob, noglob) {
        Ok(bits) => {
            *defaults = bits;
            0
        }
        Err(kind) => {
            fault.number = 0;
            fault.kind = kind;
            5
        }
    }
}

/// The bits that words ask for.
///
/// # Errors
/// The number of the first fault.
fn bits_of_words(literal: &[u8], icase: &[u8], glob: &[u8], noglob: &[u8]) -> Result<u32, u32>
    ensures { let said = defaults_of (words_from literal.now icase.now glob.now noglob.now) in
        MatchResult result (λ bits. said ≡ Ok (defaults_from bits)) (λ kind. HasKind kind said) }
{
    let literal = flag_of(literal)?;
    let ignore_case = flag_of(icase)?;
    if literal {
        return Ok(bits_of(true, ignore_case, false, false));
    }
    let glob = flag_of(glob)?;
    let noglob = flag_of(noglob)?;
    if glob && noglob {
        return Err(15);
    }
    Ok(bits_of(false, ignore_case, glob, noglob))
}

/// The value of a word of truth.
///
/// # Errors
/// The number of the fault of any other word.
fn flag_of(word: &[u8]) -> Result<bool, u32>
    ensures { MatchResult result (λ flag. flag_of (Some word.now) ≡ Ok flag)
        (λ kind. HasKind kind (flag_of (Some word.now))) }
{
    match parse_truth(word) {
        Some(flag) => Ok(flag),
        None => Err(14),
    }
}

/// The bits of four settings.
fn bits_of(literal: bool, ignore_case: bool, glob: bool, noglob: bool) -> u32
    ensures { defaults_from result ≡ defaults_by literal ignore_case glob noglob }
{
    bit(literal, 1) | bit(ignore_case, 2) | bit(glob, 4) | bit(noglob, 8)
}

/// The value of a bit if it is set, else 0.
fn bit(is_set: bool, value: u32) -> u32
    ensures { result ≡ (if is_set then value else 0) }
{
    if is_set { value } else { 0 }
}

/// The defaults that bits ask for.
pub(crate) fn defaults_from(bits: u32) -> Defaults
    ensures { result ≡ defaults_from bits }
{
    let literal = bits & 1 != 0;
    Defaults {
        signature: case_signature(bits & 2 != 0),
        search_mode: mode_from(literal, bits & 4 != 0, bits & 8 != 0),
        literal,
    }
}

/// The signature that ignores case, or doesn't.
fn case_signature(ignore_case: bool) -> MagicSignature
    ensures { result ≡ case_signature ignore_case }
{
    if ignore_case {
        MagicSignature::ICASE
    } else {
        MagicSignature::empty()
    }
}

/// The mode that three bits ask for.
fn mode_from(literal: bool, glob: bool, noglob: bool) -> SearchMode
    ensures { result ≡ mode_from literal glob noglob }
{
    if literal {
        SearchMode::Literal
    } else if glob {
        SearchMode::PathAwareGlob
    } else if noglob {
        SearchMode::Literal
    } else {
        SearchMode::ShellGlob
    }
}
