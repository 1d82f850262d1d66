//! The match of a glob with a text: by its tail and its head first, and then by the tokens between them.
ghost use Rattle.std.specs.Prelude.{◌≡◌, ◌==◌, ◌≤◌, ◌++◌, ◌↔◌, length, IfOk, IfSome, IsFalse, IsTrue};
ghost use Rattle.std.specs.List.{list_any};
ghost use Rattle.pathspec_glob.specs.Bytes.{first_is, is_wildcard, star};
ghost use Rattle.pathspec_glob.specs.ByteSets.{listed_tokens};
ghost use Rattle.pathspec_glob.specs.GlobParts.{behind_head, head_of};
ghost use Rattle.pathspec_glob.specs.Globs.{glob_tokens, is_tail_pattern, AnswersGlob, AnswersTail, GlobIsRelation};
ghost use Rattle.pathspec_glob.specs.Counts.{Counts};

use crate::ends::End;
use crate::middle::Middle;
use crate::scratch::Scratch;
use crate::source::Source;
use crate::tokens::Tokens;
use crate::{Case, Mode, first_wildcard};
use std::alloc::{AllocError, Global};
use std::fmt;
use std::marker::Model;

/// A compiled glob (git's wildmatch).
#[derive(Drop)]
pub struct Glob {
    /// The pattern and its tokens, in a box, so that a glob is moved and dropped as one.
    parts: Box<Parts>,
}

/// A pattern, which only clauses see, and its tokens in three parts.
#[derive(Drop)]
struct Parts {
    source: Source,
    /// Tokens before the first star, each of which takes one byte.
    head: End,
    /// Tokens from the first star to the last. A `/` after a final `**` belongs here, since `**/` may match nothing.
    middle: Middle,
    /// Tokens behind the last star.
    tail: End,
}

impl Model for Glob {
    ghost use Rattle.std.specs.Box.{box_value};
    ghost use Rattle.pathspec_glob.specs.Globs.{GlobSource};
    ghost use Rattle.pathspec_glob.specs.GlobParts.{IsParted};

    ghost Value = { GlobSource };

    ghost view = { λ g. record {
      mode = (box_value g.parts).head.mode;
      pattern = (box_value g.parts).source.pattern;
    } };

    ghost invariant = { λ g. IsParted (box_value g.parts).head.mode
        (box_value g.parts).source.pattern (box_value g.parts).head
        (box_value g.parts).middle (box_value g.parts).tail };
}

impl fmt::Debug for Glob {
    fn fmt<W: fmt::Write>(&self, f: &mut fmt::Formatter<W>) -> fmt::Result {
        f.debug_struct("Glob")
            .field("tokens", &self.tokens())
            .finish()
    }
}

impl Glob {
    /// Compiles a pattern, which any byte string is. The cost and the memory are linear in it. Up to 63 tokens for one byte
    /// between head and tail may be tested on every byte here, for a table of 4 kB.
    ///
    /// # Errors
    /// Memory runs out.
    pub fn compile(alloc: Global, pattern: &[u8], mode: Mode) -> Result<Glob, AllocError>
        ensures { IfOk result (λ glob. glob ≡ record { mode = mode; pattern = pattern.now }) }
    {
        Ok(Glob {
            parts: Box::new(alloc, Parts::of_pattern(alloc, pattern, mode)?)?,
        })
    }

    /// The count of tokens: at most one for each byte of the pattern.
    pub fn tokens(&self) -> usize
        ensures tokens { result ≡ length (glob_tokens self.now) }
        ensures few { result ≤ length self.now.pattern }
    {
        let parts = &*self.parts;
        parts.head.len() + parts.middle.len() + parts.tail.len()
    }

    /// Whether the scratch was made for at least as many tokens as the glob has.
    pub fn fits(&self, scratch: &Scratch) -> bool
        ensures { IsTrue result ↔ (length (glob_tokens self.now) ≤ scratch.now.tokens) }
    {
        self.tokens() <= scratch.states.room()
    }

    /// Whether the glob matches the whole text.
    ///
    /// The call takes no memory. It tests the tokens behind the last star on the text's end, one a byte, and those before the
    /// first on its front. Then it keeps the set of places in the other tokens that the front of the rest leads to. So it
    /// takes at most (pattern bytes + 1) × (text bytes + 1) steps. A true answer counts at least as many steps as the text has
    /// bytes.
    ///
    /// For `*rest`, without a wildcard in `rest`, a true answer counts at least a step for each byte of `rest`. Any answer
    /// counts at most one for each byte of the text. It is whether the text ends with `rest`, in [`Mode::Shell`] or where the
    /// text has no `/`.
    pub fn matches(&self, text: &[u8], case: Case, scratch: &mut Scratch) -> bool
        requires { length (glob_tokens self.now) ≤ scratch.old.tokens }
        ensures answer { AnswersGlob self.now.mode case self.now.pattern text.now
            result scratch.new.steps }
        ensures tail { AnswersTail self.now.mode case self.now.pattern text.now result }
        ensures few { IsTrue (is_tail_pattern self.now.pattern)
            → scratch.new.steps ≤ length text.now }
        // The function that other definitions stand on gives just what the relation says.
        ensures function { GlobIsRelation }
        ensures counted { Counts scratch.old.total_steps scratch.new.steps scratch.new.total_steps }
        ensures room { scratch.new.tokens ≡ scratch.old.tokens }
    {
        let parts = &*self.parts;
        let states = &mut scratch.states;
        let steps = &mut scratch.steps;
        steps.begin();
        let Some(before) = parts.tail.before_end(text, case, steps) else {
            return false;
        };
        let Some(between) = parts.head.behind_front(before, case, steps) else {
            return false;
        };
        parts.middle.matches(between, case, states, steps)
    }
}

impl Parts {
    ghost use Rattle.pathspec_glob.specs.GlobParts.{IsParted};

    /// Reads a pattern into tokens, and cuts them into its parts.
    ///
    /// # Errors
    /// Memory runs out.
    fn of_pattern(alloc: Global, pattern: &[u8], mode: Mode) -> Result<Parts, AllocError>
        ensures mode { IfOk result (λ parts. parts.head.mode ≡ mode) }
        ensures pattern { IfOk result (λ parts. parts.source.pattern ≡ pattern.now) }
        ensures parted { IfOk result (λ parts.
            IsParted mode pattern.now parts.head parts.middle parts.tail) }
    {
        let (head, mut behind) = split_head(alloc, pattern, mode)?;
        let middle_size = behind.wide_size();
        let tail = End::split_off(alloc, &mut behind, middle_size)?;
        Ok(Parts {
            source: Source::of(pattern),
            head,
            middle: Middle::of_tokens(alloc, behind)?,
            tail,
        })
    }
}

/// Splits a pattern into its head and the tokens behind it. Where the first wildcard byte is a star, the bytes before it are
/// kept as they stand, and aren't read as tokens.
///
/// # Errors
/// Memory runs out.
fn split_head(alloc: Global, pattern: &[u8], mode: Mode) -> Result<(End, Tokens), AllocError>
    ensures head { IfOk result (λ parts. parts.0
        ≡ record { mode = mode; tokens = head_of (listed_tokens mode pattern.now) }) }
    ensures behind { IfOk result (λ parts. parts.1
        ≡ record { mode = mode; tokens = behind_head (listed_tokens mode pattern.now) }) }
{
    match split_at_star(pattern) {
        Some((head, rest)) => {
            let behind = Tokens::behind_head(alloc, head, rest, mode)?;
            Ok((End::of_bytes(alloc, head, mode)?, behind))
        }
        None => split_tokens(alloc, Tokens::of_pattern(alloc, pattern, mode)?),
    }
}

/// The pattern before its first wildcard byte, and the rest, if that byte is a star.
fn split_at_star(pattern: &[u8]) -> Option<(&[u8], &[u8])>
    ensures plain { IfSome result (λ parts. IsFalse (list_any is_wildcard parts.0.now)) }
    ensures wide { IfSome result (λ parts. IsTrue (first_is (λ b. b == star) parts.1.now)) }
    ensures whole { IfSome result (λ parts. parts.0.now ++ parts.1.now ≡ pattern.now) }
{
    let (front, rest) = pattern.split_at(first_wildcard(pattern)?);
    match rest {
        [b'*', ..] => Some((front, rest)),
        _ => None,
    }
}

/// Splits tokens into their head and those behind it.
///
/// # Errors
/// Memory runs out.
fn split_tokens(alloc: Global, mut tokens: Tokens) -> Result<(End, Tokens), AllocError>
    ensures head { IfOk result (λ parts. parts.0
        ≡ record { mode = tokens.mode; tokens = head_of tokens.tokens }) }
    ensures behind { IfOk result (λ parts. parts.1
        ≡ record { mode = tokens.mode; tokens = behind_head tokens.tokens }) }
{
    let head_size = tokens.head_size();
    let behind = tokens.split_off(head_size)?;
    Ok((End::of_tokens(alloc, tokens)?, behind))
}
