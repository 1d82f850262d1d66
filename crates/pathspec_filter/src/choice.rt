//! Records, decided one by one.
ghost use Rattle.std.specs.Prelude.{◌≡◌, false, IfOk, IfErr};
ghost use Rattle.pathspec_parts.specs.Records.{record_path, record_is_dir, is_bad};
ghost use Rattle.pathspec_parts.specs.RecordParts.{IsFreeOf};
ghost use Rattle.pathspec_filter.specs.Places.{chooses};
ghost use Rattle.pathspec_filter.specs.FilterAnswers.{IsEarly, CountsFault};

use crate::place::Place;
use crate::questions::Questions;
use crate::{FilterError, Selection};
use gix_pathspec::Search;
use memchr::memchr;
use pathspec_parts::attributes::LookUp;
use pathspec_parts::path::strip_last_slash;
use pathspec_parts::records::{self, direct_file_len, split_name};
use std::alloc::{AllocError, Global};
use std::marker::Model;

/// A good record that stands first and has its separator.
#[derive(Clone, Copy)]
pub(crate) struct Record {
    /// How many bytes it has without the separator.
    pub(crate) length: usize,
    pub(crate) is_taken: bool,
}

/// What stands first among bytes.
#[derive(Clone, Copy)]
pub(crate) enum Found {
    /// A good record with its separator.
    Record(Record),
    /// A bad record with its separator.
    Bad,
    /// No whole record: the bytes have no separator.
    Partial,
}

/// Decides records, one after another. It remembers the directory of the last one, so that a file right in it is found by one
/// search, and a directory that may be skipped is asked about once for all records below it that follow one another.
///
/// A contract sees what is asked, and the separator.
#[derive(Drop)]
pub(crate) struct Chooser<'s> {
    questions: Questions<'s>,
    place: Place,
    separator: u8,
}

impl<'s> Model for Chooser<'s> {
    ghost use Rattle.pathspec_filter.specs.Places.{Choice, IsPlace};

    ghost Value = { Choice };

    ghost view = { λ c. record { asked = c.questions; separator = c.separator } };

    ghost invariant = { λ c. IsPlace c.questions c.separator c.place.directory.items c.place.skipped };
}

impl<'s> Chooser<'s> {
    ghost use Rattle.pathspec_filter.specs.FoundRecords.{IsFound};

    /// One that has decided no record.
    ///
    /// # Errors
    /// Memory runs out.
    pub(crate) fn new(
        alloc: Global,
        search: &'s Search,
        separator: u8,
        selection: Selection,
    ) -> Result<Chooser<'s>, AllocError>
        ensures asked { IfOk result (λ chooser. chooser.asked
            ≡ record { specs = search.now.specs; selection = selection }) }
        ensures separator { IfOk result (λ chooser. chooser.separator ≡ separator) }
    {
        let questions = Questions::new(alloc, search, selection)?;
        Ok(Chooser {
            questions,
            place: Place::top(alloc),
            separator,
        })
    }

    /// The count of directories that were passed over.
    pub(crate) fn skipped(&self) -> u64 {
        self.questions.skipped()
    }

    /// Whether there is a separator among bytes.
    pub(crate) fn holds_separator(&self, bytes: &[u8]) -> bool
        ensures { result ≡ false → IsFreeOf self.now.separator bytes.now }
    {
        memchr(self.separator, bytes).is_some()
    }

    /// Decides the first record of bytes, if its separator is among them.
    ///
    /// # Errors
    /// [`FilterError::LookUp`], where the look-up failed in this call, and [`FilterError::Memory`].
    #[inline(always)]
    pub(crate) fn first_of<L: LookUp>(
        &mut self,
        rest: &[u8],
        look_up: &mut L,
    ) -> Result<Found, FilterError<L::Fault>>
        ensures kept { self.new ≡ self.old }
        ensures found { IfOk result (IsFound (chooses (L.table look_up.old) self.old)
            self.old.separator rest.now) }
        ensures early { IfErr result IsEarly }
        ensures table_stays { L.table look_up.new ≡ L.table look_up.old }
        ensures counts { CountsFault (L.failures look_up.old) (L.failures look_up.new) result }
    {
        let Some(length) = direct_file_len(&self.place.directory, rest, self.separator) else {
            return self.other_first(rest, look_up);
        };
        let path = &rest[..length];
        let is_taken = self.place.takes(&mut self.questions, path, false, look_up)?;
        Ok(Found::Record(Record { length, is_taken }))
    }

    /// Decides the first record of bytes, whatever it is.
    #[inline(never)]
    fn other_first<L: LookUp>(
        &mut self,
        rest: &[u8],
        look_up: &mut L,
    ) -> Result<Found, FilterError<L::Fault>>
        ensures kept { self.new ≡ self.old }
        ensures found { IfOk result (IsFound (chooses (L.table look_up.old) self.old)
            self.old.separator rest.now) }
        ensures early { IfErr result IsEarly }
        ensures table_stays { L.table look_up.new ≡ L.table look_up.old }
        ensures counts { CountsFault (L.failures look_up.old) (L.failures look_up.new) result }
    {
        let Some(length) = memchr(self.separator, rest) else {
            return Ok(Found::Partial);
        };
        let text = &rest[..length];
        if records::is_bad(text) {
            return Ok(Found::Bad);
        }
        let is_taken = self.decide(text, look_up)?;
        Ok(Found::Record(Record { length, is_taken }))
    }

    /// Whether a good record is taken.
    ///
    /// # Errors
    /// [`FilterError::LookUp`], where the look-up failed in this call, and [`FilterError::Memory`].
    fn decide<L: LookUp>(
        &mut self,
        text: &[u8],
        look_up: &mut L,
    ) -> Result<bool, FilterError<L::Fault>>
        requires good { is_bad text.now ≡ false }
        requires free { IsFreeOf self.old.separator text.now }
        ensures kept { self.new ≡ self.old }
        ensures taken { IfOk result (λ is_taken. is_taken ≡ chooses
            (L.table look_up.old) self.old (record_path text.now) (record_is_dir text.now)) }
        ensures early { IfErr result IsEarly }
        ensures table_stays { L.table look_up.new ≡ L.table look_up.old }
        ensures counts { CountsFault (L.failures look_up.old) (L.failures look_up.new) result }
    {
        let (parents, _) = split_name(text);
        self.place.go_to(&mut self.questions, parents)?;
        let (path, is_dir) = strip_last_slash(text);
        self.place.takes(&mut self.questions, path, is_dir, look_up)
    }
}
