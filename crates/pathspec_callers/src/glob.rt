//! Callers of `pathspec_glob`.
ghost use Rattle.std.specs.Prelude.{◌≡◌, ◌↔◌, IfOk, IsTrue};
ghost use Rattle.pathspec_glob.specs.GlobRelation.{Matches};
ghost use Rattle.pathspec_glob.specs.Tokens.{tokens};

use pathspec_glob::{Case, Glob, Mode, Scratch};
use std::alloc::{AllocError, Global};

/// Whether a glob matches a whole path, in a scratch of its own.
///
/// # Errors
/// Memory runs out.
pub fn is_match(
    alloc: Global,
    pattern: &[u8],
    mode: Mode,
    path: &[u8],
    case: Case,
) -> Result<bool, AllocError>
    ensures { IfOk result (λ found.
        IsTrue found ↔ Matches mode case (tokens mode pattern.now) path.now) }
{
    let glob = Glob::compile(alloc, pattern, mode)?;
    is_taken(alloc, &glob, path, case)
}

/// Whether a glob matches a path, in a scratch of its own.
fn is_taken(alloc: Global, glob: &Glob, path: &[u8], case: Case) -> Result<bool, AllocError>
    ensures { IfOk result (λ found. IsTrue found
        ↔ Matches glob.now.mode case (tokens glob.now.mode glob.now.pattern) path.now) }
{
    let mut scratch = Scratch::for_tokens(alloc, glob.tokens())?;
    Ok(glob.matches(path, case, &mut scratch))
}

/// Whether a glob matches a path, where the scratch has room for it.
pub fn is_match_in(glob: &Glob, path: &[u8], scratch: &mut Scratch) -> Option<bool>
    ensures { scratch.new.tokens ≡ scratch.old.tokens }
{
    if glob.fits(scratch) {
        Some(glob.matches(path, Case::Sensitive, scratch))
    } else {
        None
    }
}
