//! A listing as a tree.
ghost use Rattle.std.specs.Prelude.{◌≡◌, ◌↔◌, ℕ, [], length, IsTrue, IfOk};
ghost use Rattle.std.specs.Option.{option_map};
ghost use Rattle.bstr.specs.BStr.{bstr_bytes};
ghost use Rattle.pathspec_parts.specs.Cursors.{new_cursor};
ghost use Rattle.pathspec_parts.specs.Records.{records};
ghost use Rattle.pathspec_select.specs.Listing.{listing_of, mark_at, RecordsAreEntries};
ghost use Rattle.pathspec_select.specs.ListingAnswers.{AnswersRecords, refusal_of};
ghost use Rattle.pathspec_select.specs.Outlines.{listing_of_outline};

use crate::listing::entries::{RecordError, add_first};
use crate::listing::outline::Outline;
use bstr::BStr;
use pathspec_parts::tree::{Entries as _, Steps, Tree};
use std::alloc::{AllocError, Global};
use std::fmt;
use std::marker::Model;
use thiserror::Error;

/// The reason why a listing can't be read.
#[derive(Clone, Copy, Debug, PartialEq, Eq, Error)]
pub enum ListingError {
    /// The record with this number, from 1, is the first that is empty, begins with `/` or holds `//`.
    #[error("record {0} is empty, begins with a slash or holds two in a row")]
    BadLine(usize),
    /// Memory ran out.
    #[error("out of memory")]
    Memory,
}

/// A listing that was read: an entry for each record, in their order, and one for each directory that is only implied.
///
/// A walk reads the listing where it lies: no name is copied. Of a block of 256 entries the first takes 44 bytes. A further
/// file takes four if its path is shorter than 2^8 bytes and begins less than 2^16 bytes behind the first one's. Any other
/// entry takes 28.
#[derive(Drop)]
pub struct Listing<'a> {
    outline: Outline<'a>,
}

impl fmt::Debug for Listing<'_> {
    fn fmt<W: fmt::Write>(&self, f: &mut fmt::Formatter<W>) -> fmt::Result {
        f.debug_struct("Listing").field("len", &self.len()).finish()
    }
}

impl<'a> Model for Listing<'a> {
    ghost use Rattle.pathspec_select.specs.Listing.{ListingContents};
    ghost use Rattle.pathspec_select.specs.Outlines.{listing_of_outline};

    ghost Value = { ListingContents };

    ghost view = { λ l. listing_of_outline l.outline };
}

impl<'a> Listing<'a> {
    /// The count of entries.
    pub fn len(&self) -> usize
        ensures { result ≡ length self.now.entries }
    {
        self.outline.len()
    }

    /// Whether there are no entries.
    pub fn is_empty(&self) -> bool
        ensures { IsTrue result ↔ (self.now.entries ≡ []) }
    {
        self.outline.len() == 0
    }

    /// Makes a walk over the entries ([`pathspec_parts::tree::Walk`]), before the first, whose places are their numbers. It
    /// reserves a number for each directory: no later call of the walk takes memory.
    ///
    /// # Errors
    /// Memory runs out.
    pub fn cursor(&self, alloc: Global) -> Result<Steps<'_, Outline<'_>>, AllocError>
        ensures { IfOk result (λ cursor. cursor ≡ new_cursor self.now.entries) }
    {
        Steps::new(alloc, &self.outline)
    }

    /// Copies the entries into a tree, with their names, kinds and order. The tree doesn't borrow the listing. The directories
    /// that the last entry lies in, or is, are open in it. A walk over the listing, [`Listing::cursor`], needs no copy.
    ///
    /// # Errors
    /// Memory runs out.
    pub fn tree(&self, alloc: Global) -> Result<Tree, AllocError>
        ensures { IfOk result (λ tree. tree.entries ≡ self.now.entries) }
    {
        self.outline.tree(alloc)
    }

    /// The record that an entry is made from, without its separator. A directory that is only implied has none, nor has a
    /// number past the last entry. A file's record is its path. For a directory the call looks at the byte behind its path and
    /// a slash.
    pub fn record(&self, entry: usize) -> Option<BStr<'_>>
        ensures { option_map bstr_bytes result ≡ mark_at self.now.marks entry }
    {
        self.outline.record(entry)
    }

    /// The entries, whose paths and records are parts of the listing.
    pub(crate) fn outline(&self) -> &Outline<'a>
        ensures { listing_of_outline result.now ≡ self.now }
    {
        &self.outline
    }
}

/// Reads a listing, whose records end with the separator; the last one may lack it. A record that ends with `/` is a
/// directory, any other a file.
///
/// A record closes the directories that it doesn't lie in, and opens missing ones, which have no record: `a/b` opens `a`. A
/// directory that comes again is a further entry. The call looks at each byte of the listing a fixed number of times.
///
/// # Errors
/// [`ListingError`].
pub fn read(alloc: Global, bytes: &[u8], separator: u8) -> Result<Listing<'_>, ListingError>
    ensures contents { IfOk result (λ l. l ≡ listing_of (records separator bytes.now)) }
    ensures answers { AnswersRecords (records separator bytes.now) result }
    // The tree has an entry for each record, and else only directories that are implied.
    ensures entries { RecordsAreEntries (records separator bytes.now) }
{
    let mut outline = Outline::new(alloc, bytes, separator);
    let mut directory: &[u8] = &[];
    let mut rest = bytes;
    let mut number = 0;
    while !rest.is_empty() {
        number += 1;
        let start = bytes.len() - rest.len();
        match add_first(&mut outline, directory, rest, separator, start) {
            Ok((open, after)) => {
                directory = open;
                rest = after;
            }
            Err(error) => return Err(refusal(error, number)),
        }
    }
    Ok(Listing { outline })
}

/// The error for a record that is refused.
fn refusal(error: RecordError, number: usize) -> ListingError
    ensures { result ≡ refusal_of error number }
{
    match error {
        RecordError::EmptyName => ListingError::BadLine(number),
        RecordError::Memory => ListingError::Memory,
    }
}
