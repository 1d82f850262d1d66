//! Sets of states in bit vectors: the states of a glob that the front of a text leads to. A state is a place before a token,
//! or after all of them.
ghost use Rattle.std.specs.Prelude.{[], ◌≡◌, ◌≤◌, ◌<◌, ◌+◌, ◌*◌, ◌^◌, ◌∷◌, ◌++◌, ◌&&◌, ◌||◌, false, true, ℕ, suc, Bool, length, IfOk, IsTrue};
ghost use Rattle.pathspec_glob.specs.Bytes.{slash};
ghost use Rattle.pathspec_glob.specs.Counts.{KeepsCount};
ghost use Rattle.pathspec_glob.specs.GlobCells.{further, has};
ghost use Rattle.pathspec_glob.specs.GlobRelation.{matches};
ghost use Rattle.pathspec_glob.specs.GlobSteps.{TokenList};
ghost use Rattle.pathspec_glob.specs.StateSets.{states_accept, AcceptsAfterText, AcceptsFromStart, ClosesWord, HasRoom, IsBounded, IsClosedWord, IsClosureOf, IsMadeFor, IsMovesOf, IsSameBut, KeepsRoom};
ghost use Rattle.pathspec_glob.specs.declared.Case.{Case};

pub mod moves;
mod step;

use crate::Case;
use crate::bit_vec::BitVec;
use crate::counted::CountedTokens;
use crate::scratch::Steps;
use moves::EmptyMoves;
use std::alloc::{AllocError, Global};

/// A set of states of a glob. State `i` is the place before token `i`; the last is behind all tokens. A state is active where
/// it was entered, or where its token took bytes and may take more.
#[derive(Drop)]
pub struct StateSet {
    /// Bit `i`: state `i` has just been entered. There is one more than tokens.
    entered: BitVec,
    /// Bit `i`: token `i` takes any number of bytes, has taken some, and may take more.
    staying: BitVec,
    /// No state before this word is active.
    first: usize,
    /// No state from this word on is active.
    end: usize,
}

impl StateSet {
    /// Makes the empty set, with room for `tokens` tokens.
    ///
    /// # Errors
    /// Memory runs out.
    pub fn for_tokens(alloc: Global, tokens: usize) -> Result<StateSet, AllocError>
        ensures { IfOk result (λ states. IsMadeFor tokens states) }
    {
        let staying = BitVec::of_len(alloc, tokens)?;
        let entered = BitVec::of_len(alloc, tokens + 1)?;
        Ok(StateSet {
            entered,
            staying,
            first: 0,
            end: 0,
        })
    }

    /// The count of tokens that the set has room for.
    pub fn room(&self) -> usize
        ensures { result ≡ length self.now.staying }
    {
        self.staying.len()
    }

    /// Whether the tokens match the whole text, by the states that each front of it leads to. The call tests each token at
    /// most once on a byte, and takes no memory.
    #[inline(never)]
    pub fn run(
        &mut self,
        tokens: &CountedTokens,
        moves: &EmptyMoves,
        text: &[u8],
        case: Case,
        steps: &mut Steps,
    ) -> bool
        requires moves { IsMovesOf tokens.now moves.now }
        requires room { HasRoom (length tokens.now.tokens) self.old }
        requires steps { steps.old.last + length tokens.now.tokens * length text.now < 2 ^ 128 }
        ensures answer { result ≡ matches tokens.now.mode case tokens.now.tokens text.now }
        ensures most { steps.new.last
            ≤ steps.old.last + length tokens.now.tokens * length text.now }
        ensures least { IsTrue result → steps.old.last + length text.now ≤ steps.new.last }
        ensures counted { KeepsCount steps.old steps.new }
        ensures room { KeepsRoom self.old self.new }
    {
        self.begin(tokens);
        self.take_text(tokens, moves, text, case, steps) && self.reach_end(tokens, moves)
    }

    /// Whether the tokens match a directory's path and a slash, by the states that each front of it leads to. The call tests
    /// each token at most once on a byte, and takes no memory.
    pub fn run_directory(
        &mut self,
        tokens: &CountedTokens,
        moves: &EmptyMoves,
        directory: &[u8],
        case: Case,
        steps: &mut Steps,
    ) -> bool
        requires moves { IsMovesOf tokens.now moves.now }
        requires room { HasRoom (length tokens.now.tokens) self.old }
        requires steps { steps.old.last + length tokens.now.tokens * (length directory.now + 1)
            < 2 ^ 128 }
        ensures answer { result
            ≡ matches tokens.now.mode case tokens.now.tokens (directory.now ++ slash ∷ []) }
        ensures most { steps.new.last
            ≤ steps.old.last + length tokens.now.tokens * (length directory.now + 1) }
        ensures least { IsTrue result
            → steps.old.last + (length directory.now + 1) ≤ steps.new.last }
        ensures counted { KeepsCount steps.old steps.new }
        ensures room { KeepsRoom self.old self.new }
    {
        self.begin(tokens);
        self.take_text(tokens, moves, directory, case, steps)
            && self.advance(tokens, moves, b'/', case, steps)
            && self.reach_end(tokens, moves)
    }

    // In line, so that the loop of a run is its own.
    /// Takes the bytes of a text, and says whether a token was tested on each. It stops where none was, since no state is
    /// active.
    #[inline(always)]
    fn take_text(
        &mut self,
        tokens: &CountedTokens,
        moves: &EmptyMoves,
        text: &[u8],
        case: Case,
        steps: &mut Steps,
    ) -> bool
        requires moves { IsMovesOf tokens.now moves.now }
        requires room { HasRoom (length tokens.now.tokens) self.old }
        requires bounds { IsBounded (length tokens.now.tokens) self.old }
        requires steps { steps.old.last + length tokens.now.tokens * length text.now < 2 ^ 128 }
        ensures accepts { AcceptsAfterText tokens.now case self.old self.new text.now result }
        ensures bounds { IsBounded (length tokens.now.tokens) self.new }
        ensures most { steps.new.last
            ≤ steps.old.last + length tokens.now.tokens * length text.now }
        ensures least { IsTrue result → steps.old.last + length text.now ≤ steps.new.last }
        ensures counted { KeepsCount steps.old steps.new }
        ensures room { KeepsRoom self.old self.new }
    {
        for position in 0..text.len() {
            if !self.advance(tokens, moves, text[position], case, steps) {
                return false;
            }
        }
        true
    }

    /// Begins a match: enters the first state alone.
    fn begin(&mut self, tokens: &CountedTokens)
        requires { HasRoom (length tokens.now.tokens) self.old }
        ensures accepts { AcceptsFromStart tokens.now self.new }
        ensures bounds { IsBounded (length tokens.now.tokens) self.new }
        ensures room { KeepsRoom self.old self.new }
    {
        self.entered.leave(tokens.len() + 1);
        self.staying.leave(tokens.len());
        self.entered.set(0, true);
        self.first = 0;
        self.end = 1;
    }

    /// Enters each state that active ones lead to without a byte: word by word, since no move leads back.
    fn close(&mut self, moves: &EmptyMoves)
        requires room { HasRoom (length moves.now.wide) self.old }
        requires bounds { IsBounded (length moves.now.wide) self.old }
        ensures closure { (parts : TokenList) → IsMovesOf parts moves.now
            → IsClosureOf parts self.old self.new }
        ensures bounds { IsBounded (length moves.now.wide) self.new }
        ensures room { KeepsRoom self.old self.new }
    {
        let last = moves.wide.len() / 64;
        let mut index = self.first;
        let mut carry = 0;
        while index <= last && (index < self.end || carry != 0) {
            carry = self.close_word(index, carry, moves);
            index += 1;
        }
        self.end = index;
    }

    /// Enters the states of one word that active ones lead to without a byte. `carry` has those that the words before lead to,
    /// and the result those of the next word.
    fn close_word(&mut self, index: usize, carry: u64, moves: &EmptyMoves) -> u64
        requires index { index * 64 ≤ length moves.now.wide }
        requires room { HasRoom (length moves.now.wide) self.old }
        ensures closes { (parts : TokenList) → IsMovesOf parts moves.now
            → ClosesWord parts index carry result self.old self.new }
        ensures same { IsSameBut index self.old self.new }
    {
        let come = self.entered.word(index) | carry;
        let staying = self.staying.word(index);
        let wide = moves.wide.word(index);
        let skippable = moves.skippable.word(index);
        let states = closure(come, staying, wide, skippable);
        self.entered.set_word(index, states);
        (((states | staying) & wide) >> 63) | ((states & skippable) >> 62)
    }

    /// Whether the states lead behind all tokens without a further byte.
    fn reach_end(&mut self, tokens: &CountedTokens, moves: &EmptyMoves) -> bool
        requires moves { IsMovesOf tokens.now moves.now }
        requires room { HasRoom (length tokens.now.tokens) self.old }
        requires bounds { IsBounded (length tokens.now.tokens) self.old }
        ensures accepts { (case : Case) → result ≡ states_accept tokens.now case self.old [] }
        ensures room { KeepsRoom self.old self.new }
    {
        self.close(moves);
        self.entered.holds(tokens.len())
    }
}

/// The states `come` of a word, and each state of the word that they lead to without a byte.
///
/// Each round but the last finds at least one more state, so there are at most 65.
fn closure(come: u64, staying: u64, wide: u64, skippable: u64) -> u64
    ensures includes { (i : ℕ) → i < 64 → has come i ≡ true → has result i ≡ true }
    ensures closed { IsClosedWord staying wide skippable (has result) }
    ensures least { (all : ℕ → Bool) → ((i : ℕ) → i < 64 → has come i ≡ true → all i ≡ true)
        → IsClosedWord staying wide skippable all
        → (i : ℕ) → i < 64 → has result i ≡ true → all i ≡ true }
{
    let mut states = come;
    let mut more = follow(states, staying, wide, skippable);
    while more != states {
        states = more;
        more = follow(states, staying, wide, skippable);
    }
    states
}

/// The states of a word, and those of the word that one move without a byte leads to.
fn follow(states: u64, staying: u64, wide: u64, skippable: u64) -> u64
    ensures follow { (i : ℕ) → i < 64 → has result i ≡ (has states i
        || (further false (λ j. (has states j || has staying j) && has wide j) i
        || further false (further false (λ j. has states j && has skippable j)) i)) }
    ensures more { states ≤ result }
{
    states | (((states | staying) & wide) << 1) | (((states & skippable) << 1) << 1)
}
