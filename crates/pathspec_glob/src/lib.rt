//! Globs (git's wildmatch).
#![tactic(auto)]

ghost use Rattle.std.specs.Prelude.{◌≡◌, is_some};
ghost use Rattle.std.specs.List.{list_any, position};
ghost use Rattle.pathspec_glob.specs.Bytes.{is_wildcard};
ghost use Rattle.pathspec_glob.specs.Globs.{MatchBeginsStem};
ghost use Rattle.pathspec_glob.specs.LastBytes.{is_own_end, own_end, MatchHasOwnEnd};

mod bit_vec;
mod brackets;
mod counted;
mod directory_glob;
mod ends;
mod matcher;
mod middle;
mod reading;
mod scratch;
mod sets;
mod source;
mod state_set;
mod tokens;
mod wildcards;

pub use bit_vec::BitVec;
pub use directory_glob::DirectoryGlob;
pub use matcher::Glob;
pub use scratch::Scratch;
pub use tokens::{Tokens, is_same_byte};
pub use wildcards::is_wildcard;

/// The rule for what the wildcards of a glob may take.
#[derive(Clone, Copy, Debug, PartialEq, Eq)]
pub enum Mode {
    /// `*`, `?` and brackets take `/` too, as in a pathspec without `:(glob)`.
    Shell,
    /// `*`, `?` and brackets don't take `/`, and `**` takes directories, as in a pathspec with `:(glob)`.
    PathAware,
}

/// Whether ASCII case counts in a comparison.
#[derive(Clone, Copy, Debug, PartialEq, Eq)]
pub enum Case {
    /// `a` and `A` differ.
    Sensitive,
    /// `a` and `A` are equal.
    Fold,
}

/// The place of the first `*`, `?`, `[` or `\`. The bytes before it begin each text that the pattern matches as a glob.
///
/// The call looks at each byte up to that one, and at most at fifteen behind it.
pub fn first_wildcard(text: &[u8]) -> Option<usize>
    ensures place { result ≡ position is_wildcard text.now }
    ensures found { is_some result ≡ list_any is_wildcard text.now }
    ensures stem { MatchBeginsStem }
{
    wildcards::place_of_wildcard(text)
}

/// The last byte of every text that the pattern matches as a glob, up to case where it doesn't count: `s` for `src/*.rs`.
///
/// None where the pattern ends with `/`, `]` or a wildcard byte, and for the empty pattern. The call looks at one byte.
pub fn last_byte(pattern: &[u8]) -> Option<u8>
    ensures byte { result ≡ own_end pattern.now }
    ensures ends { MatchHasOwnEnd }
{
    match pattern.last() {
        Some(byte) if is_own_end(*byte) => Some(*byte),
        _ => None,
    }
}

/// Whether a byte stands for itself at the end of a pattern.
fn is_own_end(byte: u8) -> bool
    ensures { result ≡ is_own_end byte }
{
    !is_wildcard(byte) && byte != b']' && byte != b'/'
}
