//! The ends of a glob, its head and its tail: each of their tokens takes one byte.
ghost use Rattle.std.specs.Prelude.{◌≡◌, ◌≤◌, ◌<◌, ◌+◌, ◌^◌, drop, length, take, is_some, IfOk, IfSome, IsTrue};
ghost use Rattle.pathspec_glob.specs.Counts.{KeepsCount};
ghost use Rattle.pathspec_glob.specs.declared.Mode.{Mode};
ghost use Rattle.pathspec_glob.specs.GlobParts.{before_end, behind_front, plain_tokens, takes_each, takes_end, takes_front, tests_each};

use crate::counted::{CountedBytes, CountedTokens, Tests};
use crate::scratch::Steps;
use crate::tokens::Tokens;
use crate::{Case, Mode};
use std::alloc::{AllocError, Global};
use std::marker::Model;

/// The tokens of a head or of a tail.
#[derive(Drop)]
pub struct End {
    tokens: EndTokens,
}

/// The tokens of an end, in the form that takes least room.
#[derive(Drop)]
enum EndTokens {
    /// The bytes that the tokens want, where each wants a byte of the pattern.
    Bytes(CountedBytes, Mode),
    /// Any tokens, which are tested one by one.
    Any(CountedTokens),
}

impl Model for End {
    ghost use Rattle.pathspec_glob.specs.GlobEnds.{end_view};
    ghost use Rattle.pathspec_glob.specs.GlobSteps.{TokenList};

    ghost Value = { TokenList };

    ghost view = { λ e. end_view e.tokens };
}

impl End {
    /// Makes an end of tokens. The cost and the memory are linear in them: a byte each, where all want bytes of the pattern.
    ///
    /// # Errors
    /// Memory runs out.
    pub fn of_tokens(alloc: Global, tokens: Tokens) -> Result<End, AllocError>
        ensures { IfOk result (λ end. end ≡ tokens) }
    {
        Ok(End {
            tokens: match tokens.bytes_from(alloc, 0)? {
                Some(bytes) => EndTokens::Bytes(bytes, tokens.mode()),
                None => EndTokens::Any(tokens.counted()),
            },
        })
    }

    /// Splits off the tokens from a place on, as an end. The cost and the memory are linear in them.
    ///
    /// # Errors
    /// Memory runs out.
    pub fn split_off(alloc: Global, tokens: &mut Tokens, place: usize) -> Result<End, AllocError>
        requires { place ≤ length tokens.old.tokens }
        ensures front { IfOk result (λ _. tokens.new
            ≡ record { mode = tokens.old.mode; tokens = take place tokens.old.tokens }) }
        ensures behind { IfOk result (λ end. end
            ≡ record { mode = tokens.old.mode; tokens = drop place tokens.old.tokens }) }
    {
        let end = match tokens.bytes_from(alloc, place)? {
            Some(bytes) => {
                tokens.truncate(place);
                EndTokens::Bytes(bytes, tokens.mode())
            }
            None => EndTokens::Any(tokens.split_off(place)?.counted()),
        };
        Ok(End { tokens: end })
    }

    /// Makes an end whose tokens want the given bytes, one each. The cost and the memory are linear in them.
    ///
    /// # Errors
    /// Memory runs out.
    pub fn of_bytes(alloc: Global, bytes: &[u8], mode: Mode) -> Result<End, AllocError>
        ensures { IfOk result (λ end.
            end ≡ record { mode = mode; tokens = plain_tokens bytes.now }) }
    {
        let bytes = CountedBytes::new(Vec::from_slice(alloc, bytes)?);
        Ok(End {
            tokens: EndTokens::Bytes(bytes, mode),
        })
    }

    /// The count of tokens.
    pub fn len(&self) -> usize
        ensures { result ≡ length self.now.tokens }
    {
        match &self.tokens {
            EndTokens::Bytes(bytes, _) => bytes.len(),
            EndTokens::Any(tokens) => tokens.len(),
        }
    }

    /// The text behind the front that the tokens take, one byte each; None where they don't take it. The call tests each token
    /// at most once, and none where the text has fewer bytes than there are tokens.
    pub fn behind_front<'t>(
        &self,
        text: &'t [u8],
        case: Case,
        steps: &mut Steps,
    ) -> Option<&'t [u8]>
        requires { steps.old.last + length text.now < 2 ^ 128 }
        ensures taken { is_some result ≡ takes_front self.now case text.now }
        ensures behind { IfSome result (λ behind. behind.now ≡ behind_front self.now text.now) }
        ensures most { steps.new.last ≤ steps.old.last + length text.now }
        ensures few { steps.new.last ≤ steps.old.last + length self.now.tokens }
        ensures short { length text.now < length self.now.tokens
            → steps.new.last ≡ steps.old.last }
        ensures least { IfSome result (λ behind.
            steps.new.last + length behind.now ≡ steps.old.last + length text.now) }
        ensures counted { KeepsCount steps.old steps.new }
    {
        if self.len() == 0 {
            return Some(text);
        }
        if text.len() < self.len() {
            return None;
        }
        let (front, behind) = text.split_at(self.len());
        if self.test_each(front, case, steps) {
            Some(behind)
        } else {
            None
        }
    }

    /// The text before the end that the tokens take, one byte each; None where they don't take it. The call tests each token
    /// at most once, and none where the text has fewer bytes than there are tokens.
    pub fn before_end<'t>(&self, text: &'t [u8], case: Case, steps: &mut Steps) -> Option<&'t [u8]>
        requires { steps.old.last + length text.now < 2 ^ 128 }
        ensures taken { is_some result ≡ takes_end self.now case text.now }
        ensures before { IfSome result (λ before. before.now ≡ before_end self.now text.now) }
        ensures most { steps.new.last ≤ steps.old.last + length text.now }
        ensures few { steps.new.last ≤ steps.old.last + length self.now.tokens }
        ensures short { length text.now < length self.now.tokens
            → steps.new.last ≡ steps.old.last }
        ensures least { IfSome result (λ before.
            steps.new.last + length before.now ≡ steps.old.last + length text.now) }
        ensures counted { KeepsCount steps.old steps.new }
    {
        if self.len() == 0 {
            return Some(text);
        }
        if text.len() < self.len() {
            return None;
        }
        let (before, end) = text.split_at(text.len() - self.len());
        if self.test_each(end, case, steps) {
            Some(before)
        } else {
            None
        }
    }

    /// Whether the tokens take the bytes of a text, one each. Each tested token is one step: bytes are tested all at once,
    /// other tokens one by one, up to one that doesn't take its byte.
    #[inline(always)]
    fn test_each(&self, text: &[u8], case: Case, steps: &mut Steps) -> bool
        requires len { length text.now ≡ length self.now.tokens }
        requires room { steps.old.last + length text.now < 2 ^ 128 }
        ensures answer { result ≡ takes_each self.now.mode case self.now.tokens text.now }
        ensures most { steps.new.last ≤ steps.old.last + length text.now }
        ensures least { IsTrue result → steps.new.last ≡ steps.old.last + length text.now }
        ensures counted { KeepsCount steps.old steps.new }
    {
        match &self.tokens {
            EndTokens::Bytes(bytes, _) => test_bytes(bytes, text, case, steps),
            EndTokens::Any(tokens) => test_tokens(tokens, text, case, steps),
        }
    }
}

/// Whether a text is the given bytes. They are tested all at once, and each counts as one step.
#[inline(always)]
#[tactic(auto, using(crate::proofs::EndProofs::takes_plain))]
fn test_bytes(bytes: &CountedBytes, text: &[u8], case: Case, steps: &mut Steps) -> bool
    requires len { length text.now ≡ length bytes.now.all.items }
    requires room { steps.old.last + length text.now < 2 ^ 128 }
    ensures answer { (mode : Mode)
        → result ≡ takes_each mode case (plain_tokens bytes.now.all.items) text.now }
    ensures tests { steps.new.last ≡ steps.old.last + length text.now }
    ensures counted { KeepsCount steps.old steps.new }
{
    let mut tests = Tests::none(1);
    let is_same = bytes.test(text, case, &mut tests);
    steps.add(tests);
    is_same
}

// Out of line, since heads and tails are mostly bytes alone.
/// Whether the tokens take the bytes of a text, one each. They are tested one by one, up to a byte that its token doesn't
/// take, and each test is one step.
#[inline(never)]
fn test_tokens(tokens: &CountedTokens, text: &[u8], case: Case, steps: &mut Steps) -> bool
    requires len { length text.now ≡ length tokens.now.tokens }
    requires room { steps.old.last + length text.now < 2 ^ 128 }
    ensures answer { result ≡ takes_each tokens.now.mode case tokens.now.tokens text.now }
    ensures tests { steps.new.last
        ≡ steps.old.last + tests_each tokens.now.mode case tokens.now.tokens text.now }
    ensures most { steps.new.last ≤ steps.old.last + length text.now }
    ensures least { IsTrue result → steps.new.last ≡ steps.old.last + length text.now }
    ensures counted { KeepsCount steps.old steps.new }
{
    let mut tests = Tests::none(1);
    for place in 0..text.len() {
        if !tokens.test(place, text[place], case, &mut tests) {
            steps.add(tests);
            return false;
        }
    }
    steps.add(tests);
    true
}
