//! Automata whose sets of states are one word: a bit for each token that takes one byte, and one for the end.
ghost use Rattle.std.specs.Prelude.{◌≡◌, ◌<◌, ◌≤◌, ◌+◌, ◌&&◌, [], ◌∷◌, ◌++◌, ℕ, suc, not, false, drop, length, true, vec_len, IfOk, IfSome, IsTrue};
ghost use Rattle.pathspec_glob.specs.Bytes.{slash};
ghost use Rattle.pathspec_glob.specs.GlobCells.{alternates_behind, answers, cell_count, further, has, set_of, with_first, IsTable};
ghost use Rattle.pathspec_glob.specs.GlobRelation.{matches};
ghost use Rattle.pathspec_glob.specs.GlobSteps.{TokenList};

mod step;

use super::Tokens;
use crate::Case;
use crate::counted::{Table, Tests};
use std::alloc::{AllocError, Global};
pub use step::Answer;
use step::LoopKind;

/// An automaton whose sets of states are words. It has a state before each token that takes one byte, and one at the end. A
/// token that takes any number of bytes is a loop at the state behind it.
#[derive(Drop)]
pub struct WordAutomaton {
    /// The states whose tokens don't take a byte, for each byte.
    exact: Table,
    /// The states whose tokens don't take a byte, for each byte, where case doesn't count.
    folded: Table,
    /// The states that loop at a byte other than a slash.
    self_loops: u64,
    /// The states that loop at a slash.
    slash_loops: u64,
    /// The states before a `/` of `**/`, which may be skipped.
    skippable: u64,
    /// The last state.
    last: usize,
    loop_kind: LoopKind,
    ghost one_size: { folded.tokens ≡ exact.tokens },
    ghost last_within: { last < 64 },
}

/// A question about each token.
#[derive(Clone, Copy)]
enum Question {
    /// Whether the token takes one byte, and the given one.
    Takes(u8, Case),
    /// Whether the token takes any number of bytes, and the given one.
    Loops(u8),
    /// Whether the token may match nothing together with the next, as `**/`.
    Skips,
}

impl WordAutomaton {
    ghost use Rattle.pathspec_glob.specs.WordAutomata.{IsAutomatonOf};

    /// Makes the automaton of tokens, if 1 to 63 of them take one byte and no two skippable states stand side by side. No
    /// clause says that the result isn't None then.
    ///
    /// The cost is linear in the tokens: each is tested on each of the 256 bytes, with case and without.
    ///
    /// # Errors
    /// Memory runs out.
    pub fn of_tokens(alloc: Global, tokens: &Tokens) -> Result<Option<WordAutomaton>, AllocError>
        requires { alternates_behind false tokens.now.tokens ≡ true }
        ensures { IfOk result (λ found. IfSome found (λ word. IsAutomatonOf tokens.now word)) }
    {
        let last = cells(tokens);
        let skippable = states_of(tokens, Question::Skips);
        if last == 0 || last > 63 || !are_apart(skippable) {
            return Ok(None);
        }
        let self_loops = states_of(tokens, Question::Loops(0));
        let slash_loops = states_of(tokens, Question::Loops(b'/'));
        Ok(Some(WordAutomaton {
            exact: table_of(alloc, tokens, Case::Sensitive)?,
            folded: table_of(alloc, tokens, Case::Fold)?,
            self_loops,
            slash_loops,
            skippable,
            last,
            loop_kind: LoopKind::of_word(self_loops, slash_loops, skippable, last),
        }))
    }

    // In line: a call takes more than what the loops of words lose in registers.
    /// Whether the tokens match the whole text, and the tests for that: a question about all tokens for each byte that is
    /// read.
    #[inline(always)]
    pub fn run(&self, text: &[u8], case: Case) -> Answer
        ensures answer { (parts : TokenList) → IsAutomatonOf parts self.now
            → result.accepted ≡ matches parts.mode case parts.tokens text.now }
        ensures tokens { result.tests.tokens ≡ self.now.exact.tokens }
        ensures most { result.tests.count ≤ length text.now }
        ensures least { IsTrue result.accepted → result.tests.count ≡ length text.now }
    {
        step::run(
            self.table(case),
            self.loop_kind,
            self.self_loops,
            self.slash_loops,
            self.skippable,
            self.last,
            text,
        )
    }

    /// Whether the tokens match a directory's path and a slash, and the tests for that: a question for each byte that is read.
    pub fn run_directory(&self, directory: &[u8], case: Case) -> Answer
        ensures answer { (parts : TokenList) → IsAutomatonOf parts self.now → result.accepted
            ≡ matches parts.mode case parts.tokens (directory.now ++ slash ∷ []) }
        ensures tokens { result.tests.tokens ≡ self.now.exact.tokens }
        ensures most { result.tests.count ≤ length directory.now + 1 }
        ensures least { IsTrue result.accepted → result.tests.count ≡ length directory.now + 1 }
    {
        step::run_directory(
            self.table(case),
            self.self_loops,
            self.slash_loops,
            self.skippable,
            self.last,
            directory,
        )
    }

    /// The states whose tokens don't take a byte, for each byte.
    fn table(&self, case: Case) -> &Table
        ensures table { (parts : TokenList) → IsAutomatonOf parts self.now
            → IsTable parts case result.now.rows.items }
        ensures tokens { result.now.tokens ≡ self.now.exact.tokens }
    {
        match case {
            Case::Sensitive => &self.exact,
            Case::Fold => &self.folded,
        }
    }
}

/// Makes the table of tokens. The cost is linear in them: each is tested on each of the 256 bytes.
///
/// # Errors
/// Memory runs out.
fn table_of(alloc: Global, tokens: &Tokens, case: Case) -> Result<Table, AllocError>
    ensures table { IfOk result (λ table. IsTable tokens.now case table.rows.items) }
    ensures tokens { IfOk result (λ table. table.tokens ≡ length tokens.now.tokens) }
{
    Ok(Table::new(rows(alloc, tokens, case)?, tokens.len()))
}

/// A word for each byte: the states whose tokens don't take it.
fn rows(alloc: Global, tokens: &Tokens, case: Case) -> Result<Vec<u64>, AllocError>
    ensures len { IfOk result (λ rows. vec_len rows ≡ 256) }
    ensures table { IfOk result (λ rows. IsTable tokens.now case rows.items) }
{
    let mut rows = Vec::with_capacity(alloc, 256)?;
    for byte in 0..=255u8 {
        rows.push(refused(tokens, byte, case))?;
    }
    Ok(rows)
}

/// The states whose tokens don't take the byte.
fn refused(tokens: &Tokens, byte: u8, case: Case) -> u64
    ensures { (i : ℕ) → i < 64 → has result i
        ≡ not (set_of tokens.now.mode (Question.Takes byte case) tokens.now.tokens i) }
{
    !states_of(tokens, Question::Takes(byte, case))
}

/// The states at whose tokens the answer is yes. A token that takes any number of bytes shares its state with the next.
fn states_of(tokens: &Tokens, question: Question) -> u64
    ensures { (i : ℕ) → i < 64
        → has result i ≡ set_of tokens.now.mode question tokens.now.tokens i }
{
    let mut word = 0;
    let mut place = tokens.len();
    while place > 0 {
        place -= 1;
        let yes = question.holds(tokens, place);
        word = if tokens.is_wide(place) {
            with_first(word, yes)
        } else {
            further(word, yes)
        };
    }
    word
}

impl Question {
    /// The answer for the token at a place.
    fn holds(self, tokens: &Tokens, place: usize) -> bool
        requires { place < length tokens.now.tokens }
        ensures { result ≡ answers tokens.now.mode self (drop place tokens.now.tokens) }
    {
        match self {
            Question::Takes(byte, case) => {
                !tokens.is_wide(place) && tokens.takes(place, byte, case)
            }
            Question::Loops(byte) => {
                tokens.is_wide(place) && tokens.takes(place, byte, Case::Sensitive)
            }
            Question::Skips => tokens.may_pass_over(place),
        }
    }
}

/// The word with each state moved one further, and the first active or not.
fn further(word: u64, first: bool) -> u64
    ensures { (i : ℕ) → i < 64 → has result i ≡ further first (has word) i }
{
    if first { (word << 1) | 1 } else { word << 1 }
}

/// The word with its first state added, or as it is.
fn with_first(word: u64, more: bool) -> u64
    ensures { (i : ℕ) → has result i ≡ with_first more (has word) i }
{
    if more { word | 1 } else { word }
}

/// Whether no two states of a word stand side by side.
fn are_apart(word: u64) -> bool
    ensures { IsTrue result → (i : ℕ) → (has word i && has word (suc i)) ≡ false }
{
    word & (word >> 1) == 0
}

/// The count of tokens that take one byte.
fn cells(tokens: &Tokens) -> usize
    ensures count { result ≡ cell_count tokens.now.tokens }
    ensures within { result ≤ length tokens.now.tokens }
{
    let mut count = 0;
    for place in 0..tokens.len() {
        if !tokens.is_wide(place) {
            count += 1;
        }
    }
    count
}
