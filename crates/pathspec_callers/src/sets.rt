//! A set of globs that is asked.
ghost use Rattle.std.specs.Prelude.{◌≡◌, ℕ, List, IsFalse};
ghost use Rattle.pathspec_glob_set.specs.declared.member.Member.{Member};
ghost use Rattle.pathspec_glob_set.specs.Answers.{IsSetOf, MemberMatches};
ghost use Rattle.pathspec_glob_set.specs.Moves.{AreAlike};
ghost use Rattle.pathspec_glob_set.specs.Sets.{IsAt};

use pathspec_glob_set::{GlobSet, Member, SetScratch};

/// Whether some glob of a set may match a text. Where the answer is no, none does.
pub fn may_match(set: &GlobSet, text: &[u8], scratch: &mut SetScratch) -> bool
    requires { AreAlike scratch.old.table.moves set.now.moves }
    ensures none { IsFalse result → (globs : List Member) → IsSetOf globs set.now
        → (g : ℕ) (glob : Member) → IsAt globs g glob → MemberMatches glob text.now → ⊥ }
    ensures room { scratch.new.table.moves ≡ scratch.old.table.moves }
{
    set.next(text, 0, scratch).is_some()
}
