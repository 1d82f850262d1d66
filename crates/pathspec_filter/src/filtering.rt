//! The filter, over any reader and writer.
ghost use Rattle.std.specs.Prelude.{◌≡◌, ℕ, Bool, List};
ghost use Rattle.pathspec_parts.specs.Outputs.{RecordsInParts, OutputInParts};
ghost use Rattle.gix_pathspec.specs.Search.{specs_of};
ghost use Rattle.gix_pathspec.specs.Matching.{is_chosen};
ghost use Rattle.pathspec_filter.specs.Selections.{takes_in};
ghost use Rattle.pathspec_filter.specs.FilterAnswers.{EndsFilter, CountsFault};

use crate::chunk::Chunk;
use crate::pass::Taker;
use crate::{Counts, FilterError, Selection};
use gix_pathspec::Search;
use pathspec_parts::attributes::LookUp;
use std::alloc::Global;
use std::io::{Read, Write};

/// How many bytes are read at most: one less than a record's number can count, since the last record may lack its separator.
const MOST: u64 = u64::MAX - 1;

/// Reads records to the end, and writes those that a search selects, in their order, each with the separator after it; with an
/// inverted selection it writes the others. It says how many it read and wrote.
///
/// Records end with the separator; the last one may lack it. A record that ends with `/` is a directory, any other a file. Whether
/// a `./` in front of a record is part of its path is the caller's choice.
///
/// What is selected of the bytes of a read is written before the next read. It takes memory for two buffers of 320 KiB together,
/// for the path of a directory, and for a scratch of the search ([`Search::new_scratch`]). The larger buffer holds the bytes of a
/// read and the longest record, and doubles for a longer one. It looks at each byte a fixed number of times.
///
/// A directory that holds no selected path ([`Search::may_skip`]) is asked about once for all records below it that follow
/// one another, and those are asked about no more. It only reads the search, so that filters can share one.
///
/// It makes no read and no write again that was interrupted, and none after one that failed. It doesn't flush the writer.
///
/// # Errors
/// [`FilterError`]. At [`FilterError::Line`] all that is selected of the records before the bad one is written, and at any
/// other error a beginning of that.
pub fn filter<R: Read, W: Write, L: LookUp>(
    alloc: Global,
    search: &Search,
    separator: u8,
    selection: Selection,
    reader: &mut R,
    writer: &mut W,
    look_up: &mut L,
) -> Result<Counts, FilterError<L::Fault>>
    ensures ends { EndsFilter
        (takes_in selection (is_chosen (L.table look_up.old) (specs_of search.now.specs))) separator
        (R.remaining reader.old) (W.contents writer.old) (W.contents writer.new) result }
    // So a listing that is cut behind a separator can be filtered in parts, also by several machines.
    ensures record_parts { RecordsInParts separator }
    ensures output_parts { OutputInParts
        (takes_in selection (is_chosen (L.table look_up.old) (specs_of search.now.specs))) separator }
    ensures table_stays { L.table look_up.new ≡ L.table look_up.old }
    ensures counts { CountsFault (L.failures look_up.old) (L.failures look_up.new) result }
{
    // The proof reads here that a listing can be cut.
    parts_stand_alone(separator);
    let mut chunk = Chunk::new(alloc)?;
    let mut taker = Taker::new(alloc, search, separator, selection)?;
    let mut left = MOST;
    loop {
        let Some(count) = chunk.fill(reader)? else {
            return Err(FilterError::Read);
        };
        if count == 0 {
            taker.take_last(&mut chunk, separator, writer, look_up)?;
            return Ok(taker.summary());
        }
        left = match left.checked_sub(count as u64) {
            Some(left) => left,
            None => return Err(FilterError::Read),
        };
        taker.take_new(&mut chunk, count, writer, look_up)?;
    }
}

/// The law on listings that are cut behind a separator: records and output are those of both parts.
fn parts_stand_alone(separator: u8)
    ensures records { RecordsInParts separator }
    ensures output { (takes : List ℕ → Bool → Bool) → OutputInParts takes separator }
{}
