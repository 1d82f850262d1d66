//! A tree that lies over the bytes of a listing: no name is copied.
ghost use Rattle.std.specs.Prelude.{◌≡◌, ◌≤◌, ◌+◌, ◌==◌, length, Some, None, IfSome, IfOk, OnOk, OnErr};
ghost use Rattle.std.specs.List.{before_first};
ghost use Rattle.std.specs.Option.{option_map};
ghost use Rattle.bstr.specs.BStr.{bstr_bytes};
ghost use Rattle.pathspec_select.specs.Listing.{mark_at};
ghost use Rattle.pathspec_select.specs.Outlines.{part, empty_outline, outline_after, outline_closed, is_dir_span, mark_of_span, LiesInRecord, LiesOpen, IsPiece, IsRecordPiece, bytes_of};

use crate::listing::copy;
use crate::listing::spans::{Span, Spans};
use bstr::BStr;
use pathspec_parts::tree::nested::{self, NestedEntries};
use pathspec_parts::tree::{Entries, EntryPaths, Tree};
use std::alloc::{AllocError, Global};
use std::marker::Model;

/// A piece of a listing, from one place to another.
#[derive(Clone, Copy)]
pub(crate) struct Piece {
    pub(crate) start: usize,
    pub(crate) end: usize,
}

/// The entries of a [`super::Listing`], over which a walk goes. Their paths are parts of the listing. A file mostly takes four
/// bytes, and a directory 28.
#[derive(Drop)]
pub struct Outline<'a> {
    bytes: &'a [u8],
    separator: u8,
    spans: Spans,
    /// The open directories, and the count of all directories.
    nested: NestedEntries,
}

impl<'a> Model for Outline<'a> {
    ghost use Rattle.pathspec_select.specs.Outlines.{OutlineContents, outline_of_spans, IsOutline};

    ghost Value = { OutlineContents };

    ghost view = { λ o. outline_of_spans o.bytes.now o.separator o.spans };

    ghost invariant = { λ o. IsOutline o.bytes.now o.separator o.spans o.nested };
}

impl<'a> Outline<'a> {
    /// Makes an outline without entries, over a listing whose records end with the separator. It takes no memory.
    pub(super) fn new(alloc: Global, bytes: &'a [u8], separator: u8) -> Outline<'a>
        ensures { result ≡ empty_outline bytes.now separator }
    {
        Outline {
            bytes,
            separator,
            spans: Spans::new(alloc),
            nested: NestedEntries::new(alloc),
        }
    }

    /// Adds an entry in the open directory, with `count` bytes of the listing from `start` on as its path. A directory is then
    /// open.
    ///
    /// # Errors
    /// Memory runs out. The outline is then as it was.
    #[inline(always)]
    pub(super) fn add(&mut self, start: usize, count: usize, is_dir: bool) -> Result<(), AllocError>
        requires record { LiesInRecord self.old.separator self.old.bytes start count is_dir }
        requires lies { LiesOpen self.old.tree (part self.old.bytes start count) }
        ensures ok { OnOk result (self.new ≡ outline_after self.old start count is_dir) }
        ensures err { OnErr result (self.new ≡ self.old) }
    {
        let span = Span {
            start,
            length: count,
            end: nested::first_end(is_dir),
        };
        let number = self.spans.len();
        self.nested.reserve(is_dir)?;
        self.spans.push(span)?;
        self.nested.add(number, is_dir);
        Ok(())
    }

    /// Closes the directory that was opened last; nothing changes where none is open.
    pub(super) fn close(&mut self)
        ensures { self.new ≡ outline_closed self.old }
    {
        let Some(number) = self.nested.close() else {
            return;
        };
        let end = self.spans.len();
        self.spans.set_end(number, end);
    }

    /// The record of an entry, if it has one. A directory has none where the record goes on behind its path and a slash.
    pub(crate) fn record(&self, number: usize) -> Option<BStr<'_>>
        ensures { option_map bstr_bytes result ≡ mark_at self.now.marks number }
    {
        let span = self.spans.get(number)?;
        let record = record_of(self.bytes, self.separator, span)?;
        Some(BStr::new(record))
    }

    /// The piece of the listing that an entry's record and the separator behind it are. None where the entry has no record, or
    /// the separator doesn't stand there.
    pub(crate) fn record_piece(&self, number: usize, separator: u8) -> Option<Piece>
        ensures { IfSome result (IsRecordPiece self.now separator number) }
    {
        if separator != self.separator {
            return None;
        }
        let span = self.spans.get(number)?;
        let end = span.start + record_of(self.bytes, self.separator, span)?.len();
        if end < self.bytes.len() {
            Some(Piece {
                start: span.start,
                end: end + 1,
            })
        } else {
            None
        }
    }

    /// Copies the entries, with their names, into a tree.
    ///
    /// # Errors
    /// Memory runs out.
    pub(super) fn tree(&self, alloc: Global) -> Result<Tree, AllocError>
        ensures { IfOk result (λ tree. tree.entries ≡ self.now.tree.entries) }
    {
        // The proof reads here that calls of a tree make the entries.
        let _ = self.spans.len();
        copy::tree_of(alloc, self)
    }

    /// The bytes of a piece.
    pub(crate) fn bytes_of(&self, piece: Piece) -> &[u8]
        requires { IsPiece self.now.bytes piece }
        ensures { result.now ≡ bytes_of self.now.bytes piece }
    {
        part(self.bytes, piece.start, piece.end - piece.start)
    }
}

impl<'a> Entries for Outline<'a> {
    ghost list = { λ o. o.tree.entries };

    fn len(&self) -> usize {
        self.spans.len()
    }

    fn directories(&self) -> usize {
        self.nested.directories()
    }

    fn is_dir(&self, number: usize) -> bool {
        self.spans.at(number).end != 0
    }

    fn end_of(&self, number: usize) -> usize {
        nested::end_from(number, self.spans.at(number).end)
    }
}

impl<'a> EntryPaths for Outline<'a> {
    fn path(&self, number: usize) -> &[u8] {
        let span = self.spans.at(number);
        part(self.bytes, span.start, span.length)
    }
}

/// The `count` bytes from `start` on.
fn part(bytes: &[u8], start: usize, count: usize) -> &[u8]
    requires { start + count ≤ length bytes.now }
    ensures { result.now ≡ part bytes.now start count }
{
    let rest = &bytes[start..];
    &rest[..count]
}

/// The record of an entry, if it has one. A file's record is its path, of which no byte is looked at.
fn record_of(bytes: &[u8], separator: u8, span: Span) -> Option<&[u8]>
    requires fits { span.start + span.length ≤ length bytes.now }
    requires record { LiesInRecord separator bytes.now span.start span.length (is_dir_span span) }
    ensures { option_map (λ r. r.now) result ≡ mark_of_span separator bytes.now span }
{
    let rest = &bytes[span.start..];
    if span.end == 0 {
        Some(&rest[..span.length])
    } else if ends_after(rest, separator, span.length + 1) {
        Some(&rest[..span.length + 1])
    } else {
        None
    }
}

/// Whether the first record ends after `count` bytes.
fn ends_after(bytes: &[u8], separator: u8, count: usize) -> bool
    requires { count ≤ length (before_first (λ b. b == separator) bytes.now) }
    ensures { result ≡ (length (before_first (λ b. b == separator) bytes.now) == count) }
{
    match bytes.get(count) {
        Some(byte) => *byte == separator,
        None => true,
    }
}
