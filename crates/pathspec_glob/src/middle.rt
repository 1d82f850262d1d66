//! The tokens between the head and the tail of a glob, matched by a lone star, in one word, or in bit vectors.
ghost use Rattle.std.specs.Prelude.{◌≡◌, ◌≤◌, ◌<◌, ◌+◌, ◌*◌, ◌^◌, [], ◌∷◌, ◌++◌, false, length, true, IfOk, IsTrue};
ghost use Rattle.pathspec_glob.specs.Bytes.{slash};
ghost use Rattle.pathspec_glob.specs.Counts.{KeepsCount};
ghost use Rattle.pathspec_glob.specs.GlobRelation.{matches};
ghost use Rattle.pathspec_glob.specs.GlobCells.{alternates_behind};
ghost use Rattle.pathspec_glob.specs.GlobParts.{first_token_takes, first_token_tests};
ghost use Rattle.pathspec_glob.specs.StateSets.{HasRoom, KeepsRoom};
ghost use Rattle.pathspec_glob.specs.GlobSteps.{is_wide_at};
ghost use Rattle.pathspec_glob.specs.Matchers.{IsLoneStar};

use crate::Case;
use crate::counted::{CountedStar, CountedTokens, Tests};
use crate::scratch::Steps;
use crate::state_set::StateSet;
use crate::state_set::moves::EmptyMoves;
use crate::tokens::Tokens;
use crate::tokens::word::{Answer, WordAutomaton};
use std::alloc::{AllocError, Global};
use std::marker::Model;

/// The tokens between the head and the tail of a glob.
#[derive(Drop)]
pub struct Middle {
    matcher: Matcher,
}

/// A form of the tokens that matches them.
#[derive(Drop)]
enum Matcher {
    /// A star alone.
    LoneStar(CountedStar),
    /// An automaton whose sets of states are one word. Few globs have one, and it is large, so it lies in a box.
    Word(Box<ByWord>),
    /// Sets of states in bit vectors, in a box too.
    Sets(Box<BySets>),
}

/// Tokens and their automaton in one word.
#[derive(Drop)]
struct ByWord {
    tokens: CountedTokens,
    word: WordAutomaton,
}

/// Tokens and the moves between their states.
#[derive(Drop)]
struct BySets {
    tokens: CountedTokens,
    moves: EmptyMoves,
}

impl Model for Middle {
    ghost use Rattle.pathspec_glob.specs.GlobSteps.{TokenList};
    ghost use Rattle.pathspec_glob.specs.Matchers.{IsMatcherOf, matcher_view};

    ghost Value = { TokenList };

    ghost view = { λ m. matcher_view m.matcher };

    ghost invariant = { λ m. IsMatcherOf (matcher_view m.matcher) m.matcher };
}

impl Middle {
    /// Compiles tokens. The cost and the memory are linear in them.
    ///
    /// # Errors
    /// Memory runs out.
    pub fn of_tokens(alloc: Global, tokens: Tokens) -> Result<Middle, AllocError>
        requires { alternates_behind false tokens.tokens ≡ true }
        ensures { IfOk result (λ middle. middle ≡ tokens) }
    {
        Ok(Middle {
            matcher: match tokens.as_lone_star() {
                Some(first) => Matcher::LoneStar(first),
                None => Matcher::of_tokens(alloc, tokens)?,
            },
        })
    }

    /// Compiles any tokens for bit vectors, and tests none of them.
    ///
    /// # Errors
    /// Memory runs out.
    pub fn by_sets(alloc: Global, tokens: Tokens) -> Result<Middle, AllocError>
        ensures { IfOk result (λ middle. middle ≡ tokens) }
    {
        Ok(Middle {
            matcher: Matcher::by_sets(alloc, tokens)?,
        })
    }

    /// The count of tokens.
    pub fn len(&self) -> usize
        ensures { result ≡ length self.now.tokens }
    {
        match &self.matcher {
            Matcher::LoneStar(tokens) => tokens.len(),
            Matcher::Word(own) => own.tokens.len(),
            Matcher::Sets(own) => own.tokens.len(),
        }
    }

    /// Whether the tokens match the whole text. The answer and the bounds are those of any matcher. Takes no memory.
    #[inline(always)]
    pub fn matches(&self, text: &[u8], case: Case, states: &mut StateSet, steps: &mut Steps) -> bool
        requires room { HasRoom (length self.now.tokens) states.old }
        requires steps { steps.old.last + length self.now.tokens * length text.now < 2 ^ 128 }
        ensures answer { result ≡ matches self.now.mode case self.now.tokens text.now }
        ensures most { steps.new.last ≤ steps.old.last + length self.now.tokens * length text.now }
        ensures least { IsTrue result → steps.old.last + length text.now ≤ steps.new.last }
        ensures counted { KeepsCount steps.old steps.new }
        ensures room { KeepsRoom states.old states.new }
    {
        match &self.matcher {
            Matcher::LoneStar(tokens) => test_star(tokens, text, steps),
            Matcher::Word(own) => {
                let Answer { accepted, tests } = own.word.run(text, case);
                steps.add(tests);
                accepted
            }
            Matcher::Sets(own) => states.run(&own.tokens, &own.moves, text, case, steps),
        }
    }

    /// Whether the tokens match a directory's path and a slash. Takes no memory.
    pub fn matches_directory(
        &self,
        directory: &[u8],
        case: Case,
        states: &mut StateSet,
        steps: &mut Steps,
    ) -> bool
        requires room { HasRoom (length self.now.tokens) states.old }
        requires steps { steps.old.last + length self.now.tokens * (length directory.now + 1)
            < 2 ^ 128 }
        ensures answer { result
            ≡ matches self.now.mode case self.now.tokens (directory.now ++ slash ∷ []) }
        ensures most { steps.new.last
            ≤ steps.old.last + length self.now.tokens * (length directory.now + 1) }
        ensures least { IsTrue result
            → steps.old.last + (length directory.now + 1) ≤ steps.new.last }
        ensures counted { KeepsCount steps.old steps.new }
        ensures room { KeepsRoom states.old states.new }
    {
        match &self.matcher {
            Matcher::LoneStar(tokens) => {
                test_star(tokens, directory, steps) && test_star(tokens, b"/", steps)
            }
            Matcher::Word(own) => {
                let Answer { accepted, tests } = own.word.run_directory(directory, case);
                steps.add(tests);
                accepted
            }
            Matcher::Sets(own) => {
                states.run_directory(&own.tokens, &own.moves, directory, case, steps)
            }
        }
    }
}

impl Matcher {
    ghost use Rattle.pathspec_glob.specs.Matchers.{IsMatcherOf, matcher_view};

    /// Compiles tokens for one word, or for bit vectors where they don't fit it. No clause says which: both answer alike.
    ///
    /// # Errors
    /// Memory runs out.
    fn of_tokens(alloc: Global, mut tokens: Tokens) -> Result<Matcher, AllocError>
        requires { alternates_behind false tokens.tokens ≡ true }
        ensures view { IfOk result (λ matcher. matcher_view matcher ≡ tokens) }
        ensures matcher { IfOk result (λ matcher. IsMatcherOf tokens matcher) }
    {
        // The list has room for a token a byte of the pattern; `split_off` makes one that is just as long as it has to be.
        let own = tokens.split_off(0)?;
        match WordAutomaton::of_tokens(alloc, &own)? {
            Some(word) => {
                let tokens = own.counted();
                Ok(Matcher::Word(Box::new(alloc, ByWord { tokens, word })?))
            }
            None => Matcher::by_sets(alloc, own),
        }
    }

    /// Compiles tokens for bit vectors.
    ///
    /// # Errors
    /// Memory runs out.
    fn by_sets(alloc: Global, tokens: Tokens) -> Result<Matcher, AllocError>
        ensures view { IfOk result (λ matcher. matcher_view matcher ≡ tokens) }
        ensures matcher { IfOk result (λ matcher. IsMatcherOf tokens matcher) }
    {
        let moves = EmptyMoves::of_tokens(alloc, &tokens)?;
        let tokens = tokens.counted();
        Ok(Matcher::Sets(Box::new(alloc, BySets { tokens, moves })?))
    }
}

/// Whether a lone star takes all bytes of a text. Each is tested, as one step, up to one that the star doesn't take.
fn test_star(tokens: &CountedStar, text: &[u8], steps: &mut Steps) -> bool
    requires wide { IsTrue (is_wide_at tokens.now.tokens) }
    requires room { steps.old.last + length text.now < 2 ^ 128 }
    ensures answer { result ≡ first_token_takes tokens.now.tokens text.now }
    ensures tests { steps.new.last
        ≡ steps.old.last + first_token_tests tokens.now.tokens text.now }
    ensures most { steps.new.last ≤ steps.old.last + length text.now }
    ensures least { IsTrue result → steps.new.last ≡ steps.old.last + length text.now }
    ensures counted { KeepsCount steps.old steps.new }
{
    let mut tests = Tests::none(1);
    for place in 0..text.len() {
        if !tokens.test(text[place], &mut tests) {
            steps.add(tests);
            return false;
        }
    }
    steps.add(tests);
    true
}
