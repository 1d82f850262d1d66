//! Tests of tokens on bytes, all counted. Nothing else in this crate compares a byte of a text with what a glob wants.
ghost use Rattle.std.specs.Prelude.{◌≡◌, ◌+◌, ◌*◌, ◌<◌, ◌^◌, bytes_eq, length, get_or, vec_len};
ghost use Rattle.pathspec_glob.specs.Bytes.{fold_case};
ghost use Rattle.pathspec_glob.specs.GlobForms.{star_view, tokens_view};
ghost use Rattle.pathspec_glob.specs.declared.Case.{Case};
ghost use Rattle.pathspec_glob.specs.Globs.{folds};
ghost use Rattle.pathspec_glob.specs.GlobSteps.{token_takes};

use crate::scratch::Key;
use crate::tokens::{LoneStar, Token};
use crate::{Case, Mode};
use std::marker::Model;

/// A count of questions, each of which tests `tokens` tokens on a byte. Only questions raise it. It can't be copied, and only
/// a scratch takes it, which counts a step for each test.
pub struct Tests {
    count: usize,
    tokens: usize,
}

/// Tokens, each of which is tested alone.
#[derive(Drop)]
pub struct CountedTokens {
    all: Vec<Token>,
    mode: Mode,
}

/// The star of a glob without other tokens between head and tail. A question tests it on one byte.
#[derive(Drop)]
pub struct CountedStar {
    form: LoneStar,
    mode: Mode,
}

/// Bytes that stand for themselves. A question tests each of them on a byte of its own.
#[derive(Drop)]
pub struct CountedBytes {
    all: Vec<u8>,
}

/// The states of tokens that don't take a byte, for each byte. A question tests all the tokens.
#[derive(Drop)]
pub struct Table {
    rows: Vec<u64>,
    tokens: usize,
    ghost rows_all: { vec_len rows ≡ 256 },
}

impl Tests {
    /// Makes a count of no questions, each of which is to test `tokens` tokens.
    pub fn none(tokens: usize) -> Tests
        ensures count { result.count ≡ 0 }
        ensures tokens { result.tokens ≡ tokens }
    {
        Tests { count: 0, tokens }
    }

    /// The count of tests. Only a scratch has the key.
    pub fn spend(self, _key: &Key) -> u128
        requires { self.tokens * self.count < 2 ^ 128 }
        ensures { result ≡ self.tokens * self.count }
    {
        let Tests { count, tokens } = self;
        tokens as u128 * count as u128
    }
}

impl Model for CountedTokens {
    ghost use Rattle.pathspec_glob.specs.GlobForms.{tokens_view};
    ghost use Rattle.pathspec_glob.specs.GlobSteps.{TokenList};

    ghost Value = { TokenList };

    ghost view = { λ t. record { mode = t.mode; tokens = tokens_view t.all.items } };
}

impl CountedTokens {
    pub fn new(mode: Mode, all: Vec<Token>) -> CountedTokens
        ensures { result ≡ record { mode = mode; tokens = tokens_view all.items } }
    {
        CountedTokens { all, mode }
    }

    pub fn len(&self) -> usize
        ensures { result ≡ length self.now.tokens }
    {
        self.all.len()
    }

    /// Whether the token at a place takes a byte, alone or with others.
    #[inline(always)]
    pub fn test(&self, place: usize, byte: u8, case: Case, tests: &mut Tests) -> bool
        requires place { place < length self.now.tokens }
        requires alone { tests.old.tokens ≡ 1 }
        requires room { tests.old.count + 1 < 2 ^ 64 }
        ensures answer { result ≡ token_takes self.now case place byte }
        ensures count { tests.new.count ≡ tests.old.count + 1 }
        ensures tokens { tests.new.tokens ≡ 1 }
    {
        tests.count += 1;
        self.all[place].takes(self.mode, case, byte)
    }
}

impl Model for CountedStar {
    ghost use Rattle.pathspec_glob.specs.GlobForms.{star_view};
    ghost use Rattle.pathspec_glob.specs.GlobSteps.{TokenList};

    ghost Value = { TokenList };

    ghost view = { λ t. record { mode = t.mode; tokens = star_view t.form } };
}

impl CountedStar {
    pub fn new(mode: Mode, form: LoneStar) -> CountedStar
        ensures { result ≡ record { mode = mode; tokens = star_view form } }
    {
        CountedStar { form, mode }
    }

    pub fn len(&self) -> usize
        ensures { result ≡ length self.now.tokens }
    {
        match self.form {
            LoneStar::Star | LoneStar::Deep => 1,
            LoneStar::DeepSlashStar => 3,
        }
    }

    /// Whether the star takes a byte, alone or with others.
    #[inline(always)]
    pub fn test(&self, byte: u8, tests: &mut Tests) -> bool
        requires alone { tests.old.tokens ≡ 1 }
        requires room { tests.old.count + 1 < 2 ^ 64 }
        ensures answer { (case : Case) → result ≡ token_takes self.now case 0 byte }
        ensures count { tests.new.count ≡ tests.old.count + 1 }
        ensures tokens { tests.new.tokens ≡ 1 }
    {
        tests.count += 1;
        match self.form {
            LoneStar::Star => byte != b'/',
            LoneStar::Deep | LoneStar::DeepSlashStar => true,
        }
    }
}

impl CountedBytes {
    pub fn new(all: Vec<u8>) -> CountedBytes
        ensures { result.all ≡ all }
    {
        CountedBytes { all }
    }

    pub fn len(&self) -> usize
        ensures { result ≡ length self.now.all.items }
    {
        self.all.len()
    }

    /// Whether a text equals the bytes, up to case where it doesn't count.
    #[inline(always)]
    pub fn test(&self, text: &[u8], case: Case, tests: &mut Tests) -> bool
        requires len { length text.now ≡ length self.now.all.items }
        requires alone { tests.old.tokens ≡ 1 }
        requires room { tests.old.count + length text.now < 2 ^ 64 }
        ensures answer { result ≡ bytes_eq (fold_case (folds case) self.now.all.items)
            (fold_case (folds case) text.now) }
        ensures count { tests.new.count ≡ tests.old.count + length text.now }
        ensures tokens { tests.new.tokens ≡ 1 }
    {
        tests.count += text.len();
        match case {
            Case::Sensitive => is_same_text(&self.all, text),
            Case::Fold => self.all.eq_ignore_ascii_case(text),
        }
    }
}

/// Whether two texts are equal. The last byte is compared first, in which most paths differ from an end.
#[inline(always)]
fn is_same_text(left: &[u8], right: &[u8]) -> bool
    ensures { result ≡ bytes_eq left.now right.now }
{
    left.last() == right.last() && left == right
}

impl Table {
    pub fn new(rows: Vec<u64>, tokens: usize) -> Table
        requires { vec_len rows ≡ 256 }
        ensures rows { result.rows ≡ rows }
        ensures tokens { result.tokens ≡ tokens }
    {
        Table { rows, tokens }
    }

    /// Makes a count of no questions to the table.
    pub fn no_tests(&self) -> Tests
        ensures count { result.count ≡ 0 }
        ensures tokens { result.tokens ≡ self.now.tokens }
    {
        Tests::none(self.tokens)
    }

    /// The states whose tokens don't take the byte.
    #[inline(always)]
    pub fn refused(&self, byte: u8, tests: &mut Tests) -> u64
        requires tokens { tests.old.tokens ≡ self.now.tokens }
        requires room { tests.old.count + 1 < 2 ^ 64 }
        ensures answer { result ≡ get_or self.now.rows.items byte 0 }
        ensures count { tests.new.count ≡ tests.old.count + 1 }
        ensures tokens { tests.new.tokens ≡ tests.old.tokens }
    {
        tests.count += 1;
        self.rows[byte as usize]
    }
}
