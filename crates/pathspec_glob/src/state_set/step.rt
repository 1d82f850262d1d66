//! The step of a set of states by one byte.
ghost use Rattle.std.specs.Prelude.{IsTrue, IsFalse, ◌≡◌, ◌≤◌, ◌<◌, ◌+◌, ◌*◌, ◌^◌, ◌&&◌, ◌||◌, ℕ, false, not, length};
ghost use Rattle.pathspec_glob.specs.Counts.{KeepsCount};
ghost use Rattle.pathspec_glob.specs.GlobCells.{has};
ghost use Rattle.pathspec_glob.specs.BitVecs.{holds};
ghost use Rattle.pathspec_glob.specs.StateSets.{AcceptsAfterByte, AcceptsNothing, HasRoom, HoldsNone, IsBounded, IsMovesOf, KeepsRoom, PutsTaken, TakesByte, is_active};
ghost use Rattle.pathspec_glob.specs.GlobSteps.{token_takes};

use super::StateSet;
use super::moves::EmptyMoves;
use crate::Case;
use crate::counted::{CountedTokens, Tests};
use crate::scratch::Steps;

impl StateSet {
    /// Takes a byte, and says whether a token was tested on it. Where none was, no state is active.
    ///
    /// The call tests each token at most once. It looks at no word before the first with an active state, nor behind the last
    /// that ever had one in this match.
    pub(super) fn advance(
        &mut self,
        tokens: &CountedTokens,
        moves: &EmptyMoves,
        byte: u8,
        case: Case,
        steps: &mut Steps,
    ) -> bool
        requires moves { IsMovesOf tokens.now moves.now }
        requires room { HasRoom (length tokens.now.tokens) self.old }
        requires bounds { IsBounded (length tokens.now.tokens) self.old }
        requires steps { steps.old.last + length tokens.now.tokens < 2 ^ 128 }
        ensures accepts { AcceptsAfterByte tokens.now case self.old self.new byte }
        ensures tested { IsTrue result → steps.old.last < steps.new.last }
        ensures none { IsFalse result → AcceptsNothing tokens.now case self.new }
        ensures bounds { IsBounded (length tokens.now.tokens) self.new }
        ensures steps { steps.new.last ≤ steps.old.last + length tokens.now.tokens }
        ensures counted { KeepsCount steps.old steps.new }
        ensures room { KeepsRoom self.old self.new }
    {
        self.close(moves);
        let tests = self.take(tokens, moves, byte, case);
        self.skip_words(tokens.len());
        steps.add(tests)
    }

    /// Takes a byte at each active state, and gives the count of the tests.
    fn take(&mut self, tokens: &CountedTokens, moves: &EmptyMoves, byte: u8, case: Case) -> Tests
        requires moves { IsMovesOf tokens.now moves.now }
        requires room { HasRoom (length tokens.now.tokens) self.old }
        requires bounds { IsBounded (length tokens.now.tokens) self.old }
        ensures takes { TakesByte tokens.now case self.old self.new byte }
        ensures none { result.count ≡ 0 → HoldsNone (length tokens.now.tokens) self.old }
        ensures most { result.count ≤ length tokens.now.tokens }
        ensures alone { result.tokens ≡ 1 }
        ensures bounds { IsBounded (length tokens.now.tokens) self.new }
        ensures room { KeepsRoom self.old self.new }
    {
        let mut tests = Tests::none(1);
        let mut index = self.first;
        let mut carry = 0;
        while index < self.end {
            let active = self.active_states(index);
            let taken = taken(tokens, index * 64, active, byte, case, &mut tests);
            carry = self.put_taken(index, taken, moves.wide.word(index), carry);
            index += 1;
        }
        if carry != 0 {
            self.entered.set(index * 64, true);
            self.end = index + 1;
        }
        tests
    }

    /// The active states of a word.
    fn active_states(&self, index: usize) -> u64
        requires entered { index * 64 ≤ length self.now.entered }
        requires staying { index * 64 ≤ length self.now.staying }
        ensures active { (i : ℕ) → i < 64 → index * 64 + i < length self.now.entered
            → index * 64 + i < length self.now.staying → has result i
            ≡ (holds self.now.entered (index * 64 + i) || holds self.now.staying (index * 64 + i)) }
        ensures none { result ≡ 0 → (i : ℕ) → i < 64
            → is_active self.now (index * 64 + i) ≡ false }
    {
        self.entered.word(index) | self.staying.word(index)
    }

    /// Sets the states of a word whose tokens in `taken` took a byte. A token for any number of bytes stays, and each other
    /// leads to the next state. `carry` is 1 where the word before leads to the first state here; so is the result for the
    /// next word.
    fn put_taken(&mut self, index: usize, taken: u64, wide: u64, carry: u64) -> u64
        requires entered { index * 64 ≤ length self.old.entered }
        requires staying { index * 64 ≤ length self.old.staying }
        requires carry { carry < 2 }
        ensures puts { PutsTaken index taken wide carry self.old self.new }
        ensures next { has result 0 ≡ (has taken 63 && not (has wide 63)) }
        ensures carry { result < 2 }
    {
        let moved = taken & !wide;
        self.staying.set_word(index, taken & wide);
        self.entered.set_word(index, (moved << 1) | carry);
        moved >> 63
    }

    /// Skips the first words, as far as no state of them is active.
    fn skip_words(&mut self, tokens: usize)
        requires room { HasRoom tokens self.old }
        requires bounds { IsBounded tokens self.old }
        ensures bounds { IsBounded tokens self.new }
        ensures entered { self.new.entered ≡ self.old.entered }
        ensures staying { self.new.staying ≡ self.old.staying }
    {
        while self.first < self.end && self.active_states(self.first) == 0 {
            self.first += 1;
        }
    }
}

/// The active states of a word whose tokens take the byte. The word begins at state `from`, and each token is tested once.
fn taken(
    tokens: &CountedTokens,
    from: usize,
    active: u64,
    byte: u8,
    case: Case,
    tests: &mut Tests,
) -> u64
    requires from { from ≤ length tokens.now.tokens }
    requires small { from < 2 ^ 63 }
    requires tests { tests.old.count ≤ from }
    requires alone { tests.old.tokens ≡ 1 }
    ensures taken { (i : ℕ) → i < 64
        → has result i ≡ (has active i && token_takes tokens.now case (from + i) byte) }
    ensures none { tests.new.count ≡ tests.old.count → (i : ℕ) → i < 64
        → from + i < length tokens.now.tokens → has active i ≡ false }
    ensures rises { tests.old.count ≤ tests.new.count }
    ensures most { tests.new.count ≤ from + 64 }
    ensures within { tests.new.count ≤ length tokens.now.tokens }
    ensures alone { tests.new.tokens ≡ 1 }
{
    let mut taken = 0;
    let mut open = active;
    while open != 0 {
        let bit = open.trailing_zeros() as usize;
        if from + bit >= tokens.len() {
            return taken;
        }
        if tokens.test(from + bit, byte, case, tests) {
            taken |= 1 << bit;
        }
        open &= open - 1;
    }
    taken
}
