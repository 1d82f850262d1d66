//! The borders of bytes: where some token takes a byte and not the one before, or the other way about.
ghost use Rattle.std.specs.Prelude.{◌≡◌, ◌+◌, ◌<◌, ℕ, suc, false, length, get_or};
ghost use Rattle.pathspec_glob.specs.GlobSteps.{token_takes};
ghost use Rattle.pathspec_glob_set.specs.Questions.{AreTakenAlike, IsTakenAlike, LeavesUnmarked};
ghost use Rattle.pathspec_glob_set.specs.Sets.{size_of};

use crate::member::Member;

/// Marks each byte that some token takes and not the byte before, or the other way about. It asks each token of each byte.
pub fn borders_of(globs: &[Member]) -> [bool; 256]
    ensures marked { (b : ℕ) → suc b < 256 → get_or result (suc b) false ≡ false
        → AreTakenAlike globs.now (suc b) b }
    ensures only { (b : ℕ) → AreTakenAlike globs.now (suc b) b
        → get_or result (suc b) false ≡ false }
{
    let mut borders = [false; 256];
    for glob in globs {
        mark(&mut borders, glob);
    }
    borders
}

/// Marks the borders of a glob.
fn mark(borders: &mut [bool; 256], glob: &Member)
    ensures marked { (b : ℕ) → suc b < 256 → get_or borders.new (suc b) false ≡ false
        → IsTakenAlike glob.now (suc b) b }
    ensures only { (b : ℕ) → IsTakenAlike glob.now (suc b) b
        → get_or borders.old (suc b) false ≡ false → get_or borders.new (suc b) false ≡ false }
    ensures kept { (b : ℕ) → get_or borders.new b false ≡ false
        → get_or borders.old b false ≡ false }
{
    for place in 0..glob.tokens.len() {
        mark_token(borders, glob, place);
    }
}

/// Marks the borders of a token.
fn mark_token(borders: &mut [bool; 256], glob: &Member, place: usize)
    requires { place < size_of glob.now }
    ensures marked { (b : ℕ) → suc b < 256 → get_or borders.new (suc b) false ≡ false
        → token_takes glob.now.tokens glob.now.case place (suc b)
        ≡ token_takes glob.now.tokens glob.now.case place b }
    ensures only { LeavesUnmarked (token_takes glob.now.tokens glob.now.case place)
        borders.old borders.new }
    ensures kept { (b : ℕ) → get_or borders.new b false ≡ false
        → get_or borders.old b false ≡ false }
{
    let mut before = glob.tokens.takes(place, 0, glob.case);
    for byte in 1..256usize {
        let takes = glob.tokens.takes(place, byte as u8, glob.case);
        if takes != before {
            borders[byte] = true;
        }
        before = takes;
    }
}
