//! How bytes lead from one row of places to another.
ghost use Rattle.std.specs.Prelude.{◌≡◌, ◌+◌, ◌<◌, ◌≤◌, ◌^◌, length, IfOk, IsTrue};
ghost use Rattle.pathspec_glob_set.specs.Sizes.{row_at, HaveSizes};

use crate::table::row;
use pathspec_glob::BitVec;
use std::alloc::{AllocError, Global};

/// How bytes lead from one row of places to another. A place stands behind some tokens of a glob, and the token before it is the
/// next to take a byte, since texts are read from their end.
#[derive(Drop)]
pub struct Moves {
    /// The places whose next token takes any number of bytes.
    pub(super) wide: BitVec,
    /// The places whose next two tokens may stand for nothing.
    pub(super) over: BitVec,
    /// The places at which a glob that cuts matches whatever stands before.
    pub(super) cuts: BitVec,
    /// The row of the empty text.
    pub(super) start: BitVec,
    /// The class of each byte. Bytes of a class are taken by the same tokens.
    pub(super) classes: [u8; 256],
    /// For each class, the places whose next token takes its bytes.
    pub(super) takes: Vec<BitVec>,
    /// The last place of each glob.
    pub(super) ends: Vec<usize>,
    ghost sizes: { HaveSizes over cuts start wide classes takes.items ends.items },
}

impl Moves {
    ghost use Rattle.pathspec_glob_set.specs.Moves.{class_of, AreAlike, IsSink, IsStep};

    /// The count of places.
    pub(super) fn places(&self) -> usize
        ensures { result ≡ length self.now.wide }
    {
        self.wide.len()
    }

    /// The count of globs.
    pub fn globs(&self) -> usize
        ensures { result ≡ length self.now.ends.items }
    {
        self.ends.len()
    }

    /// The count of classes of bytes.
    #[inline(always)]
    pub(super) fn width(&self) -> usize
        ensures { result ≡ length self.now.takes.items }
    {
        self.takes.len()
    }

    /// The class of a byte.
    #[inline(always)]
    pub(super) fn class(&self, byte: u8) -> usize
        ensures class { result ≡ class_of self.now byte }
        ensures within { result < length self.now.takes.items }
    {
        self.classes[byte as usize] as usize
    }

    /// Makes the row that the bytes of a class lead to from another. The call counts all places and one more. A table alone can call it.
    pub(super) fn step(&self, class: usize, old: &BitVec, row: &mut BitVec, steps: &mut u128)
        requires class { class < length self.now.takes.items }
        requires old { length old.now ≡ length self.now.wide }
        requires row { length row.old ≡ length self.now.wide }
        requires steps { steps.old ≤ 2 ^ 127 }
        ensures row { IsStep self.now (row_at self.now.takes.items class) old.now row.new }
        ensures steps { steps.new ≡ steps.old + length self.now.wide + 1 }
    {
        *steps += self.places() as u128 + 1;
        row::enter(row, &self.wide, &self.takes[class], old);
        row::close(row, &self.wide, &self.over);
        row::cut(row, &self.cuts, &self.ends);
    }

    /// Whether all bytes lead from a row to itself, as those of a class do.
    pub(super) fn is_sink(&self, class: usize, row: &BitVec) -> bool
        requires class { class < length self.now.takes.items }
        requires row { length row.now ≡ length self.now.wide }
        requires stays { IsStep self.now (row_at self.now.takes.items class) row.now row.now }
        ensures { IsTrue result → IsSink self.now row.now }
    {
        for other in 0..self.takes.len() {
            if !row::are_alike(row, &self.takes[class], &self.takes[other]) {
                return false;
            }
        }
        true
    }

    /// Whether others are the same. Copies are, and others may be said not to be.
    pub fn is_same(&self, others: &Moves) -> bool
        ensures { IsTrue result → AreAlike self.now others.now }
    {
        if !self.wide.is_same(&others.wide) || !self.over.is_same(&others.over) {
            return false;
        }
        if !self.start.is_same(&others.start) || !self.cuts.is_same(&others.cuts) {
            return false;
        }
        if self.classes != others.classes {
            return false;
        }
        self.ends == others.ends && are_same(&self.takes, &others.takes)
    }

    /// Copies the moves.
    ///
    /// # Errors
    /// Memory runs out.
    pub fn copy(&self, alloc: Global) -> Result<Moves, AllocError>
        ensures { IfOk result (λ copy. AreAlike copy self.now) }
    {
        let mut takes = Vec::with_capacity(alloc, self.takes.len())?;
        for column in &self.takes {
            takes.push(column.copy(alloc)?)?;
        }
        let wide = self.wide.copy(alloc)?;
        let over = self.over.copy(alloc)?;
        let cuts = self.cuts.copy(alloc)?;
        let start = self.start.copy(alloc)?;
        let ends = Vec::from_slice(alloc, &self.ends)?;
        Ok(Moves {
            wide,
            over,
            cuts,
            start,
            classes: self.classes,
            takes,
            ends,
        })
    }
}

/// Whether columns are the same, each at its place.
fn are_same(some: &[BitVec], others: &[BitVec]) -> bool
    ensures { IsTrue result → some.now ≡ others.now }
{
    if some.len() != others.len() {
        return false;
    }
    for place in 0..some.len() {
        if !some[place].is_same(&others[place]) {
            return false;
        }
    }
    true
}
