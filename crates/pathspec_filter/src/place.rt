//! The directory that the last record lies in, and whether it is skipped.
ghost use Rattle.std.specs.Prelude.{◌≡◌, ◌≢◌, ◌≤◌, [], length, IsTrue, IfOk, IfErr, OnOk, OnErr};
ghost use Rattle.pathspec_filter.specs.FilterAnswers.{IsEarly, CountsFault};
ghost use Rattle.pathspec_filter.specs.Places.{IsSkippedAt, SharesFront, LiesIn, is_taken};

use crate::FilterError;
use crate::questions::Questions;
use bstr::ByteSlice;
use pathspec_parts::attributes::LookUp;
use pathspec_parts::records::shared_names;
use std::alloc::{AllocError, Global};

/// A directory, and whether it lies in one that holds no selected path.
#[derive(Drop)]
pub(crate) struct Place {
    /// Its path with a slash at its end; empty at the top.
    pub(crate) directory: Vec<u8>,
    /// How many first bytes of it are the path, with its slash, of a directory that may be skipped; 0 where none is.
    pub(crate) skipped: usize,
}

impl Place {
    /// The top, which isn't skipped.
    pub(crate) fn top(alloc: Global) -> Place
        ensures directory { result.directory.items ≡ [] }
        ensures skipped { result.skipped ≡ 0 }
    {
        Place {
            directory: Vec::new(alloc),
            skipped: 0,
        }
    }

    /// Goes to another directory. It asks about each directory that the last one doesn't lie in, the outermost first, up to the
    /// first that may be skipped. Below one that is skipped it asks nothing.
    ///
    /// # Errors
    /// Memory runs out. The place is then the top.
    #[inline(never)]
    pub(crate) fn go_to(
        &mut self,
        questions: &mut Questions<'_>,
        wanted: &[u8],
    ) -> Result<(), AllocError>
        requires { IsSkippedAt questions.old
            self.old.directory.items self.old.skipped }
        ensures there { OnOk result (self.new.directory.items ≡ wanted.now) }
        ensures top { OnErr result (self.new.directory.items ≡ []) }
        ensures skipped { IsSkippedAt questions.old
            self.new.directory.items self.new.skipped }
        ensures kept { questions.new ≡ questions.old }
    {
        if self.directory.as_slice() == wanted {
            return Ok(());
        }
        let skipped = self.skipped_in(questions, wanted);
        self.skipped = 0;
        self.directory.clear();
        self.directory.extend_from_slice(wanted)?;
        self.skipped = skipped;
        Ok(())
    }

    /// Whether a record with a path in the directory is taken.
    ///
    /// # Errors
    /// [`FilterError::LookUp`], where the look-up failed in this call.
    #[inline(always)]
    pub(crate) fn takes<L: LookUp>(
        &self,
        questions: &mut Questions<'_>,
        path: &[u8],
        is_dir: bool,
        look_up: &mut L,
    ) -> Result<bool, FilterError<L::Fault>>
        requires some { path.now ≢ [] }
        requires inside { LiesIn self.now.directory.items path.now }
        requires skipped { IsSkippedAt questions.old
            self.now.directory.items self.now.skipped }
        ensures kept { questions.new ≡ questions.old }
        ensures taken { IfOk result (λ answer. answer
            ≡ is_taken (L.table look_up.old) questions.old path.now is_dir) }
        ensures early { IfErr result IsEarly }
        ensures table_stays { L.table look_up.new ≡ L.table look_up.old }
        ensures counts { CountsFault (L.failures look_up.old) (L.failures look_up.new) result }
    {
        if self.skipped != 0 {
            return Ok(questions.takes_if(false));
        }
        match questions.takes(path, is_dir, look_up) {
            Ok(is_taken) => Ok(is_taken),
            Err(fault) => Err(FilterError::LookUp(fault)),
        }
    }

    /// How many first bytes of another directory's path are one that may be skipped, with its slash.
    fn skipped_in(&self, questions: &mut Questions<'_>, wanted: &[u8]) -> usize
        requires { IsSkippedAt questions.old
            self.now.directory.items self.now.skipped }
        ensures skipped { IsSkippedAt questions.old wanted.now result }
        ensures kept { questions.new ≡ questions.old }
    {
        if self.skips(wanted) {
            return self.skipped;
        }
        let known = shared_names(&self.directory, wanted);
        first_skipped(questions, wanted, known)
    }

    /// Whether another directory lies in the one that is skipped.
    fn skips(&self, wanted: &[u8]) -> bool
        requires { self.now.skipped ≤ length self.now.directory.items }
        ensures { IsTrue result
            → SharesFront self.now.directory.items wanted.now self.now.skipped }
    {
        if self.skipped == 0 {
            return false;
        }
        wanted.starts_with(&self.directory[..self.skipped])
    }
}

/// How many first bytes of a directory's path are the first directory, with its slash, that ends behind an offset and may be
/// skipped; 0 where there is none.
#[tactic(auto, using(crate::proofs::PlaceProofs::slash_within))]
fn first_skipped(questions: &mut Questions<'_>, directory: &[u8], from: usize) -> usize
    requires { from ≤ length directory.now }
    ensures skipped { IsSkippedAt questions.old directory.now result }
    ensures kept { questions.new ≡ questions.old }
{
    let mut known = from;
    while let Some(length) = (&directory[known..]).find_byte(b'/') {
        let end = known + length;
        if questions.may_skip(&directory[..end]) {
            return end + 1;
        }
        known = end + 1;
    }
    0
}
