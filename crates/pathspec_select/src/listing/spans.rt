//! The entries of a listing in numbers: a file mostly takes four bytes.
ghost use Rattle.std.specs.Prelude.{◌≡◌, ◌≢◌, ◌+◌, ◌<◌, ◌≤◌, ◌∷◌, ◌++◌, [], length, set, slice_get, get_or, None, IfSome, OnOk, OnErr};
ghost use Rattle.pathspec_parts.specs.Nesting.{open_end};
ghost use Rattle.pathspec_select.specs.PackedSpans.{no_span, IsFile, IsSmallFile, anchors_with};

use std::alloc::{AllocError, Global};
use std::marker::Model;

/// The count of entries that one anchor serves. Where their paths are shorter than 2^8 bytes and their records follow one
/// another, each begins less than 2^16 bytes behind the first.
const BLOCK: usize = 256;

/// An entry in numbers.
#[derive(Clone, Copy)]
pub(super) struct Span {
    /// The start of the entry's path in the listing.
    pub(super) start: usize,
    /// The length of the path, in bytes.
    pub(super) length: usize,
    /// The number of the first later entry that doesn't lie in a directory, or `usize::MAX` while it is open; 0 for a file.
    pub(super) end: usize,
}

/// The anchor of a block of entries, from which their numbers are counted.
#[derive(Clone, Copy)]
struct Anchor {
    /// The start of the path of the block's first entry.
    start: usize,
    /// The count of entries before the block that have a span elsewhere.
    others: usize,
}

/// An entry in four bytes.
#[derive(Clone, Copy)]
enum Packed {
    /// A file with a short path, which begins `start` bytes behind its anchor's.
    File { length: u8, start: u16 },
    /// Any other entry, by the number of its span, counted from the first of its block.
    Other { number: u8 },
}

const _: () = prove!(size_of::<Packed>() == 4);

/// Entries in numbers: a file mostly takes four bytes, and a directory 28.
#[derive(Drop)]
pub(super) struct Spans {
    packed: Vec<Packed>,
    anchors: Vec<Anchor>,
    others: Vec<Span>,
    /// The start of the path of the last block's first entry, at hand for each file that is added.
    block_start: usize,
}

impl Model for Spans {
    ghost use Rattle.std.specs.Prelude.{List};
    ghost use Rattle.pathspec_select.specs.declared.listing.spans.Span.{Span};
    ghost use Rattle.pathspec_select.specs.PackedSpans.{unpacked, ArePacked, BeginsBlock};

    ghost Value = { List Span };

    ghost view = { λ s. unpacked s.packed.items s.anchors.items s.others.items };

    ghost invariant = { λ s. ArePacked s.packed.items s.anchors.items s.others.items
        × BeginsBlock s.packed.items s.anchors.items s.block_start };
}

impl Spans {
    /// Makes a list of no entries. It takes no memory.
    pub(super) fn new(alloc: Global) -> Spans
        ensures { result ≡ [] }
    {
        Spans {
            packed: Vec::new(alloc),
            anchors: Vec::new(alloc),
            others: Vec::new(alloc),
            block_start: 0,
        }
    }

    /// The count of entries.
    pub(super) fn len(&self) -> usize
        ensures { result ≡ length self.now }
    {
        self.packed.len()
    }

    /// The span of the entry with a number, if there is one.
    pub(super) fn get(&self, number: usize) -> Option<Span>
        ensures { result ≡ slice_get self.now number }
    {
        if number < self.len() {
            Some(self.at(number))
        } else {
            None
        }
    }

    /// The span of the entry with a number.
    pub(super) fn at(&self, number: usize) -> Span
        requires { number < length self.now }
        ensures { result ≡ get_or self.now number no_span }
    {
        let anchor = self.anchors[number / BLOCK];
        match self.packed[number] {
            Packed::File { length, start } => Span {
                start: anchor.start + usize::from(start),
                length: usize::from(length),
                end: 0,
            },
            Packed::Other { number } => self.others[anchor.others + usize::from(number)],
        }
    }

    /// Adds a span after the others.
    ///
    /// # Errors
    /// Memory runs out. All is then as it was.
    #[inline(always)]
    pub(super) fn push(&mut self, span: Span) -> Result<(), AllocError>
        ensures ok { OnOk result (self.new ≡ self.old ++ span ∷ []) }
        ensures room { OnOk result (length self.new + 1 < open_end) }
        ensures err { OnErr result (self.new ≡ self.old) }
    {
        match pack_file(self.packed.len(), self.block_start, span) {
            Some(packed) => {
                self.packed.push(packed)?;
                Ok(())
            }
            None => self.push_other(span),
        }
    }

    // In line, though few entries come here: as a call it takes each record of a listing seven instructions more.
    /// Adds a span that four bytes can't hold, such as that of a directory or of the first entry of a block.
    ///
    /// # Errors
    /// Memory runs out. All is then as it was.
    #[inline(always)]
    fn push_other(&mut self, span: Span) -> Result<(), AllocError>
        ensures ok { OnOk result (self.new ≡ self.old ++ span ∷ []) }
        ensures room { OnOk result (length self.new + 1 < open_end) }
        ensures err { OnErr result (self.new ≡ self.old) }
    {
        self.packed.reserve(1)?;
        self.others.reserve(1)?;
        let block = self.packed.len() / BLOCK;
        let first = Anchor {
            start: span.start,
            others: self.others.len(),
        };
        add_anchor(&mut self.anchors, block, first)?;
        let anchor = self.anchors[block];
        self.block_start = anchor.start;
        let number = self.others.len() - anchor.others;
        self.others.push(span)?;
        self.packed.push(Packed::Other {
            number: number as u8,
        })?;
        Ok(())
    }

    /// Changes the end of a directory.
    pub(super) fn set_end(&mut self, number: usize, end: usize)
        requires inside { number < length self.old }
        requires is_dir { (get_or self.old number no_span).end ≢ 0 }
        ensures { self.new ≡ set self.old number
            (record (get_or self.old number no_span) { end = end }) }
    {
        let before = self.anchors[number / BLOCK].others;
        match self.packed[number] {
            Packed::File { .. } => {}
            Packed::Other { number } => self.others[before + usize::from(number)].end = end,
        }
    }
}

/// The four bytes of a file behind `count` entries, if it isn't the first of its block and its numbers are small.
fn pack_file(count: usize, block_start: usize, span: Span) -> Option<Packed>
    ensures file { IfSome result (IsFile count block_start span) }
    ensures small { IsSmallFile count block_start span → result ≢ None }
{
    if count % BLOCK == 0 || span.end != 0 {
        return None;
    }
    let length = u8::try_from(span.length).ok()?;
    let start = u16::try_from(span.start.checked_sub(block_start)?).ok()?;
    Some(Packed::File { length, start })
}

/// Adds an anchor for a block, if it has none.
///
/// # Errors
/// Memory runs out. The anchors are then as they were.
fn add_anchor(anchors: &mut Vec<Anchor>, block: usize, first: Anchor) -> Result<(), AllocError>
    ensures ok { OnOk result (anchors.new.items ≡ anchors_with anchors.old.items block first) }
    ensures err { OnErr result (anchors.new.items ≡ anchors.old.items) }
{
    if block >= anchors.len() {
        anchors.push(first)?;
    }
    Ok(())
}
