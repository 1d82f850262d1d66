//! Vectors of truth values, one bit each.
ghost use Rattle.std.specs.Prelude.{◌≡◌, ℕ, suc, ◌<◌, ◌+◌, ◌*◌, ◌≤◌, ◌==◌, if◌then◌else◌, ◌^◌, IfOk, IsTrue, EachIndex, slice_index, OnOk, length, take, set, replicate, drop, false, ◌++◌};
ghost use Rattle.pathspec_glob.specs.GlobCells.{has};
ghost use Rattle.pathspec_glob.specs.BitVecs.{holds};

use std::alloc::{AllocError, Global};
use std::marker::Model;

/// A vector of truth values, one bit each, in words.
#[derive(Drop)]
pub struct BitVec {
    words: Vec<u64>,
    /// The count of values.
    len: usize,
}

impl Model for BitVec {
    ghost use Rattle.std.specs.Prelude.{◌≡◌, ◌+◌, ◌/◌, List, Bool, vec_len};
    ghost use Rattle.pathspec_glob.specs.BitVecs.{bits_of};

    ghost Value = { List Bool };

    ghost view = { λ r. bits_of r.words.items r.len };

    ghost invariant = { λ r. vec_len r.words ≡ r.len / 64 + 1 };
}

impl BitVec {
    /// Makes a vector of `len` values, all false.
    ///
    /// # Errors
    /// Memory runs out, or `len` is 2^62 or more.
    pub fn of_len(alloc: Global, len: usize) -> Result<BitVec, AllocError>
        ensures bits { IfOk result (λ bits. bits ≡ replicate len false) }
        ensures small { OnOk result (len < 2 ^ 62) }
    {
        if len >= 1 << 62 {
            return Err(AllocError);
        }
        Ok(BitVec {
            words: vec![in alloc; 0u64; len / 64 + 1]?,
            len,
        })
    }

    /// The count of values.
    pub fn len(&self) -> usize
        ensures { result ≡ length self.now }
    {
        self.len
    }

    /// The value at a place.
    pub fn holds(&self, place: usize) -> bool
        requires { place < length self.now }
        ensures { result ≡ holds self.now place }
    {
        (self.words[place / 64] >> (place % 64)) & 1 == 1
    }

    /// The 64 values of the word at an index, as bits.
    pub fn word(&self, index: usize) -> u64
        requires { index * 64 ≤ length self.now }
        ensures { (i : ℕ) → i < 64 → index * 64 + i < length self.now
            → has result i ≡ holds self.now (index * 64 + i) }
    {
        self.words[index]
    }

    /// Sets the 64 values of the word at an index.
    pub fn set_word(&mut self, index: usize, word: u64)
        requires { index * 64 ≤ length self.old }
        ensures there { (i : ℕ) → i < 64 → index * 64 + i < length self.old
            → holds self.new (index * 64 + i) ≡ has word i }
        ensures before { (i : ℕ) → i < index * 64 → holds self.new i ≡ holds self.old i }
        ensures behind { (i : ℕ) → suc index * 64 ≤ i → holds self.new i ≡ holds self.old i }
        ensures len { length self.new ≡ length self.old }
    {
        self.words[index] = word;
    }

    /// Sets the value at a place.
    pub fn set(&mut self, place: usize, value: bool)
        requires { place < length self.old }
        ensures { self.new ≡ set self.old place value }
    {
        let word = with_bit(self.words[place / 64], place % 64, value);
        self.words[place / 64] = word;
    }

    /// Whether another vector has the same values. One that has may be said not to have, where its words differ behind them.
    pub fn is_same(&self, other: &BitVec) -> bool
        ensures { IsTrue result → self.now ≡ other.now }
    {
        self.len == other.len && self.words == other.words
    }

    /// Whether all values are false. Where words hold more behind them, the answer may be no.
    pub fn holds_none(&self) -> bool
        ensures { IsTrue result → (i : ℕ) → holds self.now i ≡ false }
    {
        is_zero(&self.words)
    }

    /// A number that vectors with the same words share.
    pub fn digest(&self) -> u64 {
        let mut digest = 0u64;
        for word in &self.words {
            digest = (digest ^ *word)
                .wrapping_mul(0x9E37_79B9_7F4A_7C15)
                .rotate_left(29);
        }
        digest ^ (digest >> 32)
    }

    /// Makes the values those of another vector.
    pub fn copy_from(&mut self, other: &BitVec)
        requires { length other.now ≡ length self.old }
        ensures { self.new ≡ other.now }
    {
        self.words.copy_from_slice(&other.words);
    }

    /// Copies the vector.
    ///
    /// # Errors
    /// Memory runs out.
    pub fn copy(&self, alloc: Global) -> Result<BitVec, AllocError>
        ensures { IfOk result (λ copy. copy ≡ self.now) }
    {
        Ok(BitVec {
            words: Vec::from_slice(alloc, &self.words)?,
            len: self.len,
        })
    }

    /// Sets the first `count` values to false, and perhaps others behind them.
    pub fn leave(&mut self, count: usize)
        requires { count ≤ length self.old }
        ensures left { take count self.new ≡ replicate count false }
        ensures len { length self.new ≡ length self.old }
    {
        clear(&mut self.words, count / 64 + 1);
    }
}

/// Whether all words are 0.
fn is_zero(words: &[u64]) -> bool
    ensures { IsTrue result → EachIndex words.now (λ k. slice_index words.now k ≡ 0) }
{
    words.iter().all(|word| *word == 0)
}

/// The word with the bit at a place set or not, as `value` says.
pub fn with_bit(word: u64, place: usize, value: bool) -> u64
    requires { place < 64 }
    ensures { (i : ℕ) → i < 64 → has result i ≡ (if i == place then value else has word i) }
{
    if value {
        word | (1 << place)
    } else {
        word & !(1 << place)
    }
}

/// Sets the first `count` words to 0.
fn clear(words: &mut [u64], count: usize)
    requires { count ≤ length words.old }
    ensures { words.new ≡ replicate count 0 ++ drop count words.old }
{
    words[..count].fill(0);
}
