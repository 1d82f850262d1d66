//! The places of globs, and what is asked of each, when a set is made.
ghost use Rattle.std.specs.Prelude.{◌≡◌, ◌+◌, ◌<◌, ◌≤◌, ◌^◌, ℕ, suc, length, get_or, IfOk, OnOk};
ghost use Rattle.pathspec_glob_set.specs.Meanings.{is_over_before, is_wide_before, may_cut, takes_before};
ghost use Rattle.pathspec_glob.specs.BitVecs.{holds};
ghost use Rattle.pathspec_glob_set.specs.Questions.{answer_of};
ghost use Rattle.pathspec_glob_set.specs.Sets.{size_of, AreEnds, IsColumn};

use crate::member::Member;
use pathspec_glob::BitVec;
use std::alloc::{AllocError, Global};

/// What is asked of a place.
#[derive(Clone, Copy)]
pub enum Question {
    /// Whether the token before it takes any number of bytes.
    Wide,
    /// Whether the two tokens before it may stand for nothing.
    Over,
    /// Whether the token before it takes a byte.
    Takes(u8),
    /// Whether it stands behind all tokens.
    Behind,
    /// Whether it stands behind the first token, which takes any bytes, of a glob that cuts.
    Cuts,
}

/// The last place of each glob, where they stand one behind the other. A glob has a place for each token and one more.
///
/// # Errors
/// Memory runs out, or there are 2^62 places.
pub fn ends_of(alloc: Global, globs: &[Member]) -> Result<Vec<usize>, AllocError>
    ensures ends { IfOk result (λ ends. AreEnds globs.now ends.items) }
    ensures small { IfOk result (λ ends. (g : ℕ) → g < length ends.items
        → get_or ends.items g 0 < 2 ^ 62) }
{
    let mut ends = Vec::with_capacity(alloc, globs.len())?;
    let mut places = 0;
    for glob in globs {
        let size = glob.tokens.len();
        if size >= 1 << 61 || places >= 1 << 61 {
            return Err(AllocError);
        }
        ends.push(places + size)?;
        places += size + 1;
    }
    Ok(ends)
}

/// The places for which the answer is yes.
///
/// # Errors
/// Memory runs out.
pub fn column(
    alloc: Global,
    globs: &[Member],
    ends: &[usize],
    places: usize,
    question: Question,
) -> Result<BitVec, AllocError>
    requires ends { AreEnds globs.now ends.now }
    requires places { (g : ℕ) → g < length ends.now → get_or ends.now g 0 < places }
    ensures column { IfOk result (IsColumn globs.now ends.now (answer_of question)) }
    ensures len { IfOk result (λ column. length column ≡ places) }
    ensures small { OnOk result (places < 2 ^ 62) }
{
    let mut column = BitVec::of_len(alloc, places)?;
    for number in 0..globs.len() {
        add(&mut column, &globs[number], ends[number], question);
    }
    Ok(column)
}

/// Writes the answers for the places of a glob, the last of which is `end`.
fn add(column: &mut BitVec, glob: &Member, end: usize, question: Question)
    requires begin { size_of glob.now ≤ end }
    requires end { end < length column.old }
    ensures there { (i k : ℕ) → i ≤ size_of glob.now → k + i ≡ end
        → holds column.new k ≡ answer_of question glob.now i }
    ensures others { (k : ℕ) → k + size_of glob.now < end
        → holds column.new k ≡ holds column.old k }
    ensures len { length column.new ≡ length column.old }
{
    let size = glob.tokens.len();
    for place in 0..size {
        column.set(end - place, ask(glob, place, question));
    }
    column.set(end - size, ask(glob, size, question));
}

/// Asks of the place behind the first `place` tokens of a glob.
fn ask(glob: &Member, place: usize, question: Question) -> bool
    requires { place ≤ size_of glob.now }
    ensures { result ≡ answer_of question glob.now place }
{
    match question {
        Question::Wide => is_wide(glob, place),
        Question::Over => may_pass_over(glob, place),
        Question::Takes(byte) => takes(glob, place, byte),
        Question::Behind => place == glob.tokens.len(),
        Question::Cuts => may_cut(glob, place),
    }
}

/// Whether the token before a place takes any number of bytes.
fn is_wide(glob: &Member, place: usize) -> bool
    requires { place ≤ size_of glob.now }
    ensures { result ≡ is_wide_before glob.now.tokens place }
{
    if place == 0 {
        return false;
    }
    glob.tokens.is_wide(place - 1)
}

/// Whether the two tokens before a place may stand for nothing.
fn may_pass_over(glob: &Member, place: usize) -> bool
    requires { place ≤ size_of glob.now }
    ensures { result ≡ is_over_before glob.now.tokens place }
{
    if place < 2 {
        return false;
    }
    glob.tokens.may_pass_over(place - 2)
}

/// Whether a place stands behind the first token of a glob that cuts, and that token takes any bytes.
fn may_cut(glob: &Member, place: usize) -> bool
    requires { place ≤ size_of glob.now }
    ensures { result ≡ may_cut glob.now place }
{
    // A token that takes any number of bytes, and a slash, takes any bytes.
    place == 1 && glob.cuts && is_wide(glob, place) && takes(glob, place, b'/')
}

/// Whether the token before a place takes a byte.
fn takes(glob: &Member, place: usize, byte: u8) -> bool
    requires { place ≤ size_of glob.now }
    ensures { result ≡ takes_before glob.now.tokens glob.now.case place byte }
{
    if place == 0 {
        return false;
    }
    glob.tokens.takes(place - 1, byte, glob.case)
}

/// The count of places, of which the last one ends the last glob.
pub fn places_of(ends: &[usize]) -> usize
    requires { (g : ℕ) → g < length ends.now → get_or ends.now g 0 < 2 ^ 62 }
    ensures none { length ends.now ≡ 0 → result ≡ 0 }
    ensures last { (g : ℕ) → suc g ≡ length ends.now → result ≡ suc (get_or ends.now g 0) }
{
    match ends.last() {
        Some(end) => *end + 1,
        None => 0,
    }
}

/// The first of some columns that is another, or their count.
pub fn place_of(columns: &[BitVec], column: &BitVec) -> usize
    ensures within { result ≤ length columns.now }
    ensures found { result < length columns.now
        → get_or columns.now result column.now ≡ column.now }
{
    for place in 0..columns.len() {
        if columns[place].is_same(column) {
            return place;
        }
    }
    columns.len()
}
