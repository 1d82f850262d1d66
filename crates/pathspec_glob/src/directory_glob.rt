//! Globs that are matched with a directory's path and a slash.
ghost use Rattle.std.specs.Prelude.{◌≡◌, ◌≤◌, ◌↔◌, [], ◌∷◌, ◌++◌, length, IfOk, IsTrue};
ghost use Rattle.pathspec_glob.specs.Bytes.{slash};
ghost use Rattle.pathspec_glob.specs.Globs.{glob_tokens, AnswersGlob, GlobIsRelation};
ghost use Rattle.pathspec_glob.specs.Counts.{Counts};
ghost use Rattle.pathspec_glob.specs.OpenEnds.{is_open};

use crate::middle::Middle;
use crate::scratch::Scratch;
use crate::source::Source;
use crate::tokens::Tokens;
use crate::{Case, Mode};
use std::alloc::{AllocError, Global};
use std::fmt;
use std::marker::Model;

/// A compiled glob (git's wildmatch) that is matched with a directory's path and a slash: `a/**` matches the directory `a`.
/// The path is given without that slash, so no copy of it is made.
#[derive(Drop)]
pub struct DirectoryGlob {
    source: Source,
    /// All the tokens, as the middle of a glob without head and tail.
    tokens: Middle,
    /// Whether the last token takes any bytes.
    open_end: bool,
}

impl Model for DirectoryGlob {
    ghost use Rattle.pathspec_glob.specs.Globs.{GlobSource};
    ghost use Rattle.pathspec_glob.specs.DirectoryGlobs.{IsReadFrom};

    ghost Value = { GlobSource };

    ghost view = { λ g. record { mode = g.tokens.mode; pattern = g.source.pattern } };

    ghost invariant = { λ g. IsReadFrom g.source.pattern g.tokens g.open_end };
}

impl fmt::Debug for DirectoryGlob {
    fn fmt<W: fmt::Write>(&self, f: &mut fmt::Formatter<W>) -> fmt::Result {
        f.debug_struct("DirectoryGlob")
            .field("tokens", &self.tokens())
            .finish()
    }
}

impl DirectoryGlob {
    /// Compiles a pattern, which any byte string is. The cost and the memory are linear in it. If it begins with a star and
    /// its end is open, up to 63 tokens may be tested on every byte, for a table of 4 kB.
    ///
    /// # Errors
    /// Memory runs out.
    pub fn compile(alloc: Global, pattern: &[u8], mode: Mode) -> Result<DirectoryGlob, AllocError>
        ensures { IfOk result (λ glob. glob ≡ record { mode = mode; pattern = pattern.now }) }
    {
        let tokens = Tokens::of_pattern(alloc, pattern, mode)?;
        let open_end = tokens.has_open_end();
        // A pattern that begins with bytes mostly fails at the first, and one without an open end is rarely asked.
        let tokens = if open_end && tokens.head_size() == 0 {
            Middle::of_tokens(alloc, tokens)?
        } else {
            Middle::by_sets(alloc, tokens)?
        };
        Ok(DirectoryGlob {
            source: Source::of(pattern),
            tokens,
            open_end,
        })
    }

    /// The count of tokens: at most one for each byte of the pattern.
    pub fn tokens(&self) -> usize
        ensures tokens { result ≡ length (glob_tokens self.now) }
        ensures few { result ≤ length self.now.pattern }
    {
        self.tokens.len()
    }

    /// Whether the last token takes any bytes, as `**` behind a slash, and in [`Mode::Shell`] any `*`. Takes constant time.
    pub fn has_open_end(&self) -> bool
        ensures { result ≡ is_open (glob_tokens self.now) }
    {
        self.open_end
    }

    /// Whether the scratch was made for at least as many tokens as the glob has.
    pub fn fits(&self, scratch: &Scratch) -> bool
        ensures { IsTrue result ↔ (length (glob_tokens self.now) ≤ scratch.now.tokens) }
    {
        self.tokens() <= scratch.states.room()
    }

    /// Whether the glob matches the directory's path and a slash. The path is given without that slash.
    ///
    /// The call takes no memory. It keeps the set of places in the tokens that the front of the path leads to, and stops where
    /// none is left. So it takes at most (pattern bytes + 1) × (path bytes + 2) steps. A true answer counts at least one for
    /// each byte of the path and for the slash. With `*rest`, without a wildcard in `rest`, it counts at least one for each
    /// byte of `rest`.
    pub fn matches(&self, directory: &[u8], case: Case, scratch: &mut Scratch) -> bool
        requires { length (glob_tokens self.now) ≤ scratch.old.tokens }
        ensures answer { AnswersGlob self.now.mode case self.now.pattern
            (directory.now ++ slash ∷ []) result scratch.new.steps }
        // The function that other definitions stand on gives just what the relation says.
        ensures function { GlobIsRelation }
        ensures counted { Counts scratch.old.total_steps scratch.new.steps scratch.new.total_steps }
        ensures room { scratch.new.tokens ≡ scratch.old.tokens }
    {
        let states = &mut scratch.states;
        let steps = &mut scratch.steps;
        steps.begin();
        self.tokens
            .matches_directory(directory, case, states, steps)
    }
}
