//! The loops of word automata over a text, and their step by one byte.
ghost use Rattle.std.specs.Prelude.{◌≡◌, ℕ, suc, List, [], ◌∷◌, ◌++◌, ◌+◌, ◌<◌, ◌≤◌, ◌*◌, ◌/◌, ◌%◌, ◌^◌, ◌==◌, ◌&&◌, true, false, length, drop, IsTrue, if◌then◌else◌};
ghost use Rattle.std.specs.Int.Bits.{bit_and};
ghost use Rattle.std.specs.Int.RustNames.{bit_or};
ghost use Rattle.pathspec_glob.specs.Bytes.{slash};
ghost use Rattle.pathspec_glob.specs.declared.Mode.{Mode};
ghost use Rattle.pathspec_glob.specs.declared.Case.{Case};
ghost use Rattle.pathspec_glob.specs.GlobCells.{cells_match, has, set_leads, Cell, IsLoopKind, LeadsToLast, SelfLoop, Masked, Rules};

use crate::counted::{Table, Tests};

/// The loop by which an automaton goes over a text, settled when the automaton is made.
#[derive(Clone, Copy)]
pub enum LoopKind {
    /// The first state loops at every byte, no state between it and the last loops at any, and only the first may be skipped.
    Ends {
        /// Whether the last state loops at a byte other than a slash.
        last_loops: bool,
        /// Whether the last state loops at a slash.
        last_loops_at_slash: bool,
    },
    /// The first state loops at every byte, and only the first may be skipped.
    Plain,
    /// Any other automaton.
    Any,
}

/// The answer to a text that was run through.
pub struct Answer {
    /// Whether the end of the text leads to the last state.
    pub accepted: bool,
    /// A question for each byte that was read.
    pub tests: Tests,
}

/// The states that a text, as far as it was read, leads to.
struct Progress {
    states: u64,
    /// A question for each byte that was read.
    tests: Tests,
}

impl LoopKind {
    /// A loop that suffices for an automaton.
    pub fn of_word(self_loops: u64, slash_loops: u64, skippable: u64, last: usize) -> LoopKind
        requires { last < 64 }
        ensures { IsLoopKind self_loops slash_loops skippable last result }
    {
        if !is_plain(self_loops, slash_loops, skippable) {
            LoopKind::Any
        } else if none_between(self_loops | slash_loops, last) {
            LoopKind::Ends {
                last_loops: holds(self_loops, last),
                last_loops_at_slash: holds(slash_loops, last),
            }
        } else {
            LoopKind::Plain
        }
    }
}

/// Runs through a text, up to a byte before which no state is active.
pub fn run(
    table: &Table,
    loop_kind: LoopKind,
    self_loops: u64,
    slash_loops: u64,
    skippable: u64,
    last: usize,
    text: &[u8],
) -> Answer
    requires { last < 64 }
    ensures answer { (mode : Mode) (case : Case) (cells : List Cell) (end : SelfLoop)
        → IsLoopKind self_loops slash_loops skippable last loop_kind
        → Masked mode case cells end table.now.rows.items self_loops slash_loops skippable
        → length cells ≡ last
        → result.accepted ≡ cells_match mode case cells end text.now }
    ensures tokens { result.tests.tokens ≡ table.now.tokens }
    ensures most { result.tests.count ≤ length text.now }
    ensures least { IsTrue result.accepted → result.tests.count ≡ length text.now }
{
    let from = enter(1, skippable);
    let Progress { states, tests } = match loop_kind {
        LoopKind::Ends {
            last_loops,
            last_loops_at_slash,
        } => {
            return accepts(from, table, last_loops, last_loops_at_slash, last, text);
        }
        LoopKind::Plain if self_loops == slash_loops => reach(
            from, table, self_loops, self_loops, 0, false, text,
        ),
        LoopKind::Plain => reach(from, table, self_loops, slash_loops, 0, false, text),
        LoopKind::Any => reach(from, table, self_loops, slash_loops, skippable, true, text),
    };
    Answer {
        accepted: holds(states, last),
        tests,
    }
}

/// Runs through a directory's path and a slash behind it, up to a byte before which no state is active.
pub fn run_directory(
    table: &Table,
    self_loops: u64,
    slash_loops: u64,
    skippable: u64,
    last: usize,
    directory: &[u8],
) -> Answer
    requires { last < 64 }
    ensures answer { (mode : Mode) (case : Case) (cells : List Cell) (end : SelfLoop)
        → Masked mode case cells end table.now.rows.items self_loops slash_loops skippable
        → length cells ≡ last
        → result.accepted ≡ cells_match mode case cells end (directory.now ++ slash ∷ []) }
    ensures tokens { result.tests.tokens ≡ table.now.tokens }
    ensures most { result.tests.count ≤ length directory.now + 1 }
    ensures least { IsTrue result.accepted → result.tests.count ≡ length directory.now + 1 }
{
    let from = enter(1, skippable);
    let reached = reach(
        from,
        table,
        self_loops,
        slash_loops,
        skippable,
        true,
        directory,
    );
    let Progress { states, mut tests } = reached;
    if states == 0 {
        return Answer {
            accepted: false,
            tests,
        };
    }
    let taken = !table.refused(b'/', &mut tests);
    let states = advance(states, taken, slash_loops, skippable);
    Answer {
        accepted: holds(states, last),
        tests,
    }
}

/// Whether a word holds the state.
fn holds(word: u64, place: usize) -> bool
    requires { place < 64 }
    ensures { result ≡ has word place }
{
    (word >> place) & 1 == 1
}

/// Whether the first state loops at every byte, so that some state is always active, and no other may be skipped.
fn is_plain(self_loops: u64, slash_loops: u64, skippable: u64) -> bool
    ensures passed { IsTrue result → skippable / 2 ≡ 0 }
    ensures first { IsTrue result → has self_loops 0 ≡ true }
    ensures first_at_slash { IsTrue result → has slash_loops 0 ≡ true }
{
    skippable <= 1 && holds(self_loops & slash_loops, 0)
}

/// Whether a word holds no state between the first and the last.
fn none_between(word: u64, last: usize) -> bool
    requires { last < 64 }
    ensures { IsTrue result → (i : ℕ) → 0 < i → i < last → has word i ≡ false }
{
    word & !1 & !(1 << last) == 0
}

/// Whether a text leads from states to the last. The first loops at every byte, the last as the arguments say, and none
/// between.
fn accepts(
    states: u64,
    table: &Table,
    last_loops: bool,
    last_loops_at_slash: bool,
    last: usize,
    text: &[u8],
) -> Answer
    requires { last < 64 }
    ensures leads { LeadsToLast table.now.rows.items last_loops last_loops_at_slash last states
        text.now result.accepted }
    ensures tokens { result.tests.tokens ≡ table.now.tokens }
    ensures bytes { result.tests.count ≡ length text.now }
{
    if last_loops && last_loops_at_slash {
        leads_to_last(states, table, true, true, last, text)
    } else if last_loops {
        leads_to_last(states, table, true, false, last, text)
    } else {
        leads_to_last(states, table, false, last_loops_at_slash, last, text)
    }
}

// In line, so that each call has a loop of its own. A state is free where its bit is 1, so that the shift leaves the first
// one active, and the chain of a byte is two instructions.
/// Whether a text leads from states to the last, as `accepts` says, byte by byte.
#[inline(always)]
fn leads_to_last(
    states: u64,
    table: &Table,
    last_loops: bool,
    last_loops_at_slash: bool,
    last: usize,
    text: &[u8],
) -> Answer
    requires { last < 64 }
    ensures leads { LeadsToLast table.now.rows.items last_loops last_loops_at_slash last states
        text.now result.accepted }
    ensures tokens { result.tests.tokens ≡ table.now.tokens }
    ensures bytes { result.tests.count ≡ length text.now }
{
    let mut tests = table.no_tests();
    let mut free = !states;
    let mut end = free;
    for position in 0..text.len() {
        let byte = text[position];
        free = (free | table.refused(byte, &mut tests)) << 1;
        end = if choose_by_slash(byte, last_loops, last_loops_at_slash) {
            end & free
        } else {
            free
        };
    }
    Answer {
        accepted: !holds(end, last),
        tests,
    }
}

// In line, so that each call has a loop of its own, which tests only what that call leaves open.
/// The states that a text leads to from `from`, or none where `halts` ends it at a byte before which none is active. Whether
/// the first state may be skipped makes no difference, since no byte leads to it.
#[inline(always)]
fn reach(
    from: u64,
    table: &Table,
    self_loops: u64,
    slash_loops: u64,
    skippable: u64,
    halts: bool,
    text: &[u8],
) -> Progress
    ensures leads { (mode : Mode) (case : Case) (cells : List Cell) (end : SelfLoop) (all : ℕ)
        (rest : List ℕ) → Masked mode case cells end table.now.rows.items self_loops slash_loops all
        → skippable / 2 ≡ all / 2 → set_leads mode case cells end (has result.states)
        (drop result.tests.count text.now ++ rest)
        ≡ set_leads mode case cells end (has from) (text.now ++ rest) }
    ensures tokens { result.tests.tokens ≡ table.now.tokens }
    ensures most { result.tests.count ≤ length text.now }
    ensures halted { result.tests.count < length text.now → result.states ≡ 0 }
{
    let mut tests = table.no_tests();
    let mut states = from;
    for position in 0..text.len() {
        if halts && states == 0 {
            return Progress { states, tests };
        }
        let byte = text[position];
        states = advance(
            states,
            !table.refused(byte, &mut tests),
            choose_by_slash(byte, self_loops, slash_loops),
            skippable,
        );
    }
    Progress { states, tests }
}

/// The states that a byte leads to: those behind tokens that take it, those behind them by skipping, and those that loop.
#[inline(always)]
fn advance(states: u64, taken: u64, self_loops: u64, skippable: u64) -> u64
    ensures { (mode : Mode) (case : Case) (cells : List Cell) (last : SelfLoop) (all b : ℕ)
        (bs : List ℕ)
        → length cells < 64 → Rules mode case cells last (has taken) (has self_loops) (has all) b
        → ((i : ℕ) → i < length cells → (has all i && has all (suc i)) ≡ false)
        → skippable / 2 ≡ all / 2
        → set_leads mode case cells last (has result) bs
        ≡ set_leads mode case cells last (has states) (b ∷ bs) }
{
    enter((states & taken) << 1, skippable) | (states & self_loops)
}

/// `at_slash` for a slash, `other` for any other byte.
#[inline(always)]
fn choose_by_slash<T: Copy>(byte: u8, other: T, at_slash: T) -> T
    ensures { result ≡ (if byte == slash then at_slash else other) }
{
    if byte == b'/' { at_slash } else { other }
}

/// The entered states, and those that skipping leads to from them.
#[inline(always)]
fn enter(come: u64, skippable: u64) -> u64
    ensures { result ≡ bit_or come (bit_and come skippable * 2 ^ 1 % 2 ^ 64) }
{
    let over = come & skippable;
    if over == 0 {
        come
    } else {
        pass_over(come, over)
    }
}

// Out of line, since this is rare: in line it makes the chain of each byte longer.
/// The entered states, and those behind the skipped ones.
#[cold]
#[inline(never)]
fn pass_over(come: u64, over: u64) -> u64
    ensures { result ≡ bit_or come (over * 2 ^ 1 % 2 ^ 64) }
{
    come | (over << 1)
}
