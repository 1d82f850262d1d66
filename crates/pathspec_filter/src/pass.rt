//! Passes over bytes that were read.
ghost use Rattle.std.specs.Prelude.{◌≡◌, ◌+◌, ◌-◌, ◌^◌, ◌<◌, ◌≤◌, [], ◌++◌, if◌then◌else◌, length, take, IfOk, IfErr, OnOk, OnErr};
ghost use Rattle.pathspec_parts.specs.RecordParts.{IsFreeOf};
ghost use Rattle.pathspec_parts.specs.Writing.{AppendsFront, AppendsUpTo};
ghost use Rattle.pathspec_filter.specs.Places.{chooses};
ghost use Rattle.pathspec_filter.specs.Passes.{HasStopped, HasPassed, EndsTaking, with_end};
ghost use Rattle.pathspec_filter.specs.FilterAnswers.{IsEarly, CountsFault};

use crate::choice::{Chooser, Found};
use crate::chunk::Chunk;
use crate::{Counts, FilterError, Selection};
use gix_pathspec::Search;
use pathspec_parts::attributes::LookUp;
use pathspec_parts::writing::{WriteError, write_buffered, write_whole};
use std::alloc::{AllocError, Global};
use std::io::Write;

/// How many bytes are held back, so that few writes are made.
const ROOM: usize = 65536;

/// What a pass over bytes came to.
#[derive(Clone, Copy)]
struct Passed {
    /// How many bytes the records have that it took, with their separators.
    length: usize,
    /// The record behind them is bad.
    is_bad: bool,
}

/// What takes records and writes those that are selected.
#[derive(Drop)]
pub(crate) struct Taker<'s> {
    pub(crate) chooser: Chooser<'s>,
    /// Output that is held back; none between two passes.
    pub(crate) held: Vec<u8>,
    pub(crate) counts: Counts,
}

impl<'s> Taker<'s> {
    /// One that has taken no record.
    ///
    /// # Errors
    /// Memory runs out.
    pub(crate) fn new(
        alloc: Global,
        search: &'s Search,
        separator: u8,
        selection: Selection,
    ) -> Result<Taker<'s>, AllocError>
        ensures asked { IfOk result (λ taker. taker.chooser.asked
            ≡ record { specs = search.now.specs; selection = selection }) }
        ensures separator { IfOk result (λ taker. taker.chooser.separator ≡ separator) }
        ensures held { IfOk result (λ taker. taker.held.items ≡ []) }
        ensures records { IfOk result (λ taker. taker.counts.records ≡ 0) }
        ensures selected { IfOk result (λ taker. taker.counts.selected ≡ 0) }
    {
        Ok(Taker {
            chooser: Chooser::new(alloc, search, separator, selection)?,
            held: Vec::with_capacity(alloc, ROOM)?,
            counts: Counts {
                records: 0,
                selected: 0,
                skipped: 0,
            },
        })
    }

    /// What was read, selected and passed over.
    pub(crate) fn summary(&self) -> Counts
        ensures records { result.records ≡ self.now.counts.records }
        ensures selected { result.selected ≡ self.now.counts.selected }
    {
        Counts {
            records: self.counts.records,
            selected: self.counts.selected,
            skipped: self.chooser.skipped(),
        }
    }

    /// Takes the whole records of a chunk whose last bytes, so many, are new: it decides them, and writes those that are
    /// selected. What is left is a record without its separator, or nothing.
    ///
    /// # Errors
    /// [`FilterError`], but for a read's. [`FilterError::Line`]: all that is selected before the bad record is written.
    pub(crate) fn take_new<W: Write, L: LookUp>(
        &mut self,
        chunk: &mut Chunk,
        count: usize,
        writer: &mut W,
        look_up: &mut L,
    ) -> Result<(), FilterError<L::Fault>>
        requires held { self.old.held.items ≡ [] }
        requires room { self.old.counts.records + length chunk.old < 2 ^ 64 }
        requires few { self.old.counts.selected ≤ self.old.counts.records }
        requires count { count ≤ length chunk.old }
        requires free { IsFreeOf self.old.chooser.separator
            (take (length chunk.old - count) chunk.old) }
        ensures ends { EndsTaking (chooses (L.table look_up.old) self.old.chooser)
            self.old.chooser.separator chunk.old chunk.new
            (W.contents writer.old) (W.contents writer.new) self.old.counts self.new.counts result }
        ensures held { OnOk result (self.new.held.items ≡ []) }
        ensures kept { self.new.chooser ≡ self.old.chooser }
        ensures table_stays { L.table look_up.new ≡ L.table look_up.old }
        ensures counts { CountsFault (L.failures look_up.old) (L.failures look_up.new) result }
    {
        // A record without its separator isn't looked at again and again.
        if !self.chooser.holds_separator(chunk.last(count)) {
            return Ok(());
        }
        self.take_whole(chunk, writer, look_up)
    }

    /// Takes the last record, which has no separator, if there is one.
    ///
    /// # Errors
    /// As for [`Taker::take_new`].
    pub(crate) fn take_last<W: Write, L: LookUp>(
        &mut self,
        chunk: &mut Chunk,
        separator: u8,
        writer: &mut W,
        look_up: &mut L,
    ) -> Result<(), FilterError<L::Fault>>
        requires held { self.old.held.items ≡ [] }
        requires room { self.old.counts.records + length (with_end separator chunk.old) < 2 ^ 64 }
        requires few { self.old.counts.selected ≤ self.old.counts.records }
        requires separator { separator ≡ self.old.chooser.separator }
        ensures ends { EndsTaking (chooses (L.table look_up.old) self.old.chooser)
            separator (with_end separator chunk.old) chunk.new
            (W.contents writer.old) (W.contents writer.new) self.old.counts self.new.counts result }
        ensures held { OnOk result (self.new.held.items ≡ []) }
        ensures kept { self.new.chooser ≡ self.old.chooser }
        ensures table_stays { L.table look_up.new ≡ L.table look_up.old }
        ensures counts { CountsFault (L.failures look_up.old) (L.failures look_up.new) result }
    {
        if chunk.bytes().is_empty() {
            return Ok(());
        }
        chunk.push(separator)?;
        self.take_whole(chunk, writer, look_up)
    }

    /// Takes the whole records of a chunk.
    ///
    /// # Errors
    /// As for [`Taker::take_new`].
    fn take_whole<W: Write, L: LookUp>(
        &mut self,
        chunk: &mut Chunk,
        writer: &mut W,
        look_up: &mut L,
    ) -> Result<(), FilterError<L::Fault>>
        requires held { self.old.held.items ≡ [] }
        requires room { self.old.counts.records + length chunk.old < 2 ^ 64 }
        requires few { self.old.counts.selected ≤ self.old.counts.records }
        ensures ends { EndsTaking (chooses (L.table look_up.old) self.old.chooser)
            self.old.chooser.separator chunk.old chunk.new
            (W.contents writer.old) (W.contents writer.new) self.old.counts self.new.counts result }
        ensures held { OnOk result (self.new.held.items ≡ []) }
        ensures kept { self.new.chooser ≡ self.old.chooser }
        ensures table_stays { L.table look_up.new ≡ L.table look_up.old }
        ensures counts { CountsFault (L.failures look_up.old) (L.failures look_up.new) result }
    {
        let passed = self.pass(chunk.bytes(), writer, look_up)?;
        if passed.is_bad {
            return Err(FilterError::Line(self.counts.records + 1));
        }
        chunk.drop_front(passed.length);
        Ok(())
    }

    /// Decides the whole records at the front of bytes up to the first bad one, and writes those that are selected.
    ///
    /// Selected records that follow one another are one run of bytes, which is held back, or written, as a whole.
    ///
    /// # Errors
    /// [`FilterError::LookUp`], [`FilterError::Memory`] and [`FilterError::Write`].
    fn pass<W: Write, L: LookUp>(
        &mut self,
        bytes: &[u8],
        writer: &mut W,
        look_up: &mut L,
    ) -> Result<Passed, FilterError<L::Fault>>
        requires held { self.old.held.items ≡ [] }
        requires room { self.old.counts.records + length bytes.now < 2 ^ 64 }
        requires few { self.old.counts.selected ≤ self.old.counts.records }
        ensures passed { IfOk result (λ passed.
            HasPassed (chooses (L.table look_up.old) self.old.chooser) self.old.chooser.separator
            bytes.now passed.length passed.is_bad
            (W.contents writer.old) (W.contents writer.new) self.old.counts self.new.counts) }
        ensures stopped { OnErr result (HasStopped (chooses (L.table look_up.old) self.old.chooser)
            self.old.chooser.separator bytes.now (W.contents writer.old) (W.contents writer.new)) }
        ensures early { IfErr result IsEarly }
        ensures held { OnOk result (self.new.held.items ≡ []) }
        ensures kept { self.new.chooser ≡ self.old.chooser }
        ensures table_stays { L.table look_up.new ≡ L.table look_up.old }
        ensures counts { CountsFault (L.failures look_up.old) (L.failures look_up.new) result }
    {
        // The run, and all bytes behind it.
        let mut rest = bytes;
        let mut run = 0;
        loop {
            match self.chooser.first_of(&rest[run..], look_up)? {
                Found::Record(record) => {
                    self.counts = counts_with(self.counts, record.is_taken);
                    let end = run + record.length + 1;
                    if record.is_taken {
                        run = end;
                    } else {
                        self.hold(&rest[..run], writer)?;
                        rest = &rest[end..];
                        run = 0;
                    }
                }
                Found::Bad => {
                    self.write_held(&rest[..run], writer)?;
                    let length = bytes.len() - (rest.len() - run);
                    return Ok(Passed {
                        length,
                        is_bad: true,
                    });
                }
                Found::Partial => {
                    self.write_held(&rest[..run], writer)?;
                    let length = bytes.len() - (rest.len() - run);
                    return Ok(Passed {
                        length,
                        is_bad: false,
                    });
                }
            }
        }
    }

    /// Puts bytes after those that are held back, or writes both.
    ///
    /// # Errors
    /// [`WriteError`]: a beginning of all these bytes is written.
    #[inline(always)]
    fn hold<W: Write>(&mut self, run: &[u8], writer: &mut W) -> Result<(), WriteError>
        ensures written { OnOk result (AppendsUpTo (W.contents writer.old) (W.contents writer.new)
            (self.old.held.items ++ run.now) self.new.held.items) }
        ensures front { OnErr result (AppendsFront (W.contents writer.old) (W.contents writer.new)
            (self.old.held.items ++ run.now)) }
        ensures chooser { self.new.chooser ≡ self.old.chooser }
        ensures counts { self.new.counts ≡ self.old.counts }
    {
        if run.is_empty() {
            return Ok(());
        }
        write_buffered(writer, &mut self.held, run)
    }

    /// Writes the bytes that are held back, and then more.
    ///
    /// # Errors
    /// [`WriteError`]: a beginning of all these bytes is written.
    fn write_held<W: Write>(&mut self, run: &[u8], writer: &mut W) -> Result<(), WriteError>
        ensures written { OnOk result (AppendsUpTo (W.contents writer.old) (W.contents writer.new)
            (self.old.held.items ++ run.now) []) }
        ensures front { OnErr result (AppendsFront (W.contents writer.old) (W.contents writer.new)
            (self.old.held.items ++ run.now)) }
        ensures held { OnOk result (self.new.held.items ≡ []) }
        ensures chooser { self.new.chooser ≡ self.old.chooser }
        ensures counts { self.new.counts ≡ self.old.counts }
    {
        self.hold(run, writer)?;
        write_whole(writer, &self.held)?;
        self.held.clear();
        Ok(())
    }
}

/// The counts with one record more.
fn counts_with(counts: Counts, is_taken: bool) -> Counts
    requires room { counts.records + 1 < 2 ^ 64 }
    requires few { counts.selected ≤ counts.records }
    ensures records { result.records ≡ counts.records + 1 }
    ensures selected { result.selected
        ≡ (if is_taken then counts.selected + 1 else counts.selected) }
{
    let selected = if is_taken {
        counts.selected + 1
    } else {
        counts.selected
    };
    Counts {
        records: counts.records + 1,
        selected,
        skipped: counts.skipped,
    }
}
