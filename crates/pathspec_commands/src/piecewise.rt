//! A filter of a listing in pieces, each once the attribute files of its directories are read.
use crate::Failure;
use crate::attribute_directory::AttributeDirectory;
use crate::filtering::failure_of;
use crate::pieces::Pieces;
use gix_pathspec::Search;
use pathspec_attributes::AttributeFiles;
use pathspec_filter::{Counts, FilterError, Selection, filter};
use std::alloc::{AllocError, Global};
use std::fs::Files;
use std::io::{Read, Write};

/// Writes the records of a reader that are selected, and says what it did.
///
/// What is filtered in pieces of whole records is what would be filtered as a whole. And the files of a directory speak of no path
/// outside of it. So an answer stays true when further files are read.
///
/// # Errors
/// The first fault of the input, of an attribute file or of the output.
pub(crate) fn filter_pieces<D: Files + AllocGlobal, R: Read, W: Write, T: Write>(
    rt: &D,
    (search, separator, selection): (&Search, u8, Selection),
    directory: &mut AttributeDirectory<'_>,
    reader: &mut R,
    writer: &mut W,
    told: &mut T,
) -> Result<Counts, Failure> {
    let alloc = rt.alloc();
    let asked = (search, separator, selection);
    let mut counts = Counts::default();
    let mut pieces = Pieces::new(alloc, reader, separator);
    for _ in 0..u64::MAX {
        match pieces.fill() {
            Ok(true) => {}
            Ok(false) => break,
            Err(error) => return Err(failure_of(alloc, error)),
        }
        let piece = pieces.whole();
        directory.reach_all(rt, piece, (separator, selection), told)?;
        let files = &mut directory.files;
        counts = match filter_piece(alloc, asked, piece, counts, writer, files) {
            Ok(counts) => counts,
            Err(error) => return Err(failure_of(alloc, error)),
        };
    }
    Ok(counts)
}

/// Filters a piece, and adds its counts to those of the pieces before.
///
/// # Errors
/// That of the filter. A bad record has its number in the whole listing.
fn filter_piece<W: Write>(
    alloc: Global,
    (search, separator, selection): (&Search, u8, Selection),
    mut piece: &[u8],
    counts: Counts,
    writer: &mut W,
    files: &mut AttributeFiles,
) -> Result<Counts, FilterError<AllocError>> {
    match filter(
        alloc, search, separator, selection, &mut piece, writer, files,
    ) {
        Ok(more) => Ok(sum(counts, more)),
        Err(error) => Err(behind(counts, error)),
    }
}

/// The counts of two pieces.
fn sum(counts: Counts, more: Counts) -> Counts {
    Counts {
        records: counts.records.saturating_add(more.records),
        selected: counts.selected.saturating_add(more.selected),
        skipped: counts.skipped.saturating_add(more.skipped),
    }
}

/// An error of a piece that so many records stand before.
fn behind<F>(counts: Counts, error: FilterError<F>) -> FilterError<F> {
    match error {
        FilterError::Line(number) => FilterError::Line(counts.records.saturating_add(number)),
        error => error,
    }
}
