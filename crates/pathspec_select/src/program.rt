//! The program, over any reader and writer.
ghost use Rattle.std.specs.Prelude.{◌≡◌, Some, map, string_bytes, OnOk};
ghost use Rattle.gix_pathspec.specs.SelectionLaws.{ChosenIsTest};
ghost use Rattle.pathspec_select.specs.Environment.{words_of};
ghost use Rattle.pathspec_select.specs.Program.{Ends, EndsJob, CountsRefusal};
ghost use Rattle.pathspec_select.specs.Choice.{WritesRecords, WritesChosen};
ghost use Rattle.pathspec_select.specs.Input.{InputIsInParts};
ghost use Rattle.pathspec_select.specs.Requests.{numbered_specs};
ghost use Rattle.pathspec_select.specs.Requests.JobSpecs.{FromWords};
ghost use Rattle.pathspec_select.specs.Refusals.{refused_listing, refused_walk};

use crate::input::Parts;
use crate::job::specs::JobSpecs;
use crate::listing::{self, ListingError};
use crate::{Environment, Job, Refusal, devices, input, output};
use gix_pathspec::{Search, laws};
use pathspec_parts::attributes::LookUp;
use pathspec_walk::{SelectError, select};
use std::alloc::{AllocError, Global};
use std::io::{Read, Write};

/// Runs `pathspec-select` over a reader and a writer. It reads a listing of paths, and writes the records that the words'
/// specs choose, in their order, each with the separator after it. With `--specs-first` the specs stand before the listing. A
/// [`Refusal`] has the exit status and the line for standard error.
///
/// [`Job::from_words`] reads the words and the environment, and [`run_with`] does the rest, with the attributes that `--attr`
/// gives.
///
/// The call doesn't flush the writer. A caller who hands in a `BufWriter` calls its `flush` afterwards and looks at the
/// answer. When it is dropped it writes what it holds, too, but then tells of no fault.
///
/// # Errors
/// The first fault, in this order: [`Refusal::Usage`]; [`Refusal::Environment`]; [`Refusal::Spec`] of a word;
/// [`Refusal::Read`]; [`Refusal::Specs`], and [`Refusal::Spec`] of a line of the input; [`Refusal::Line`]; [`Refusal::Write`].
/// [`Refusal::Memory`] may come for any of them, but not for wrong options. Nothing is written before a fault, but for a
/// write's.
pub fn run<R: Read, W: Write>(
    alloc: Global,
    words: &[String],
    environment: &Environment,
    reader: &mut R,
    writer: &mut W,
) -> Result<(), Refusal>
    ensures ends { Ends (map string_bytes words.now) (words_of environment.now)
        (R.remaining reader.old) (W.contents writer.old) (W.contents writer.new) result }
    ensures chosen { OnOk result (WritesChosen (map string_bytes words.now)
        (words_of environment.now) (R.remaining reader.old)
        (W.contents writer.old) (W.contents writer.new)) }
    // The test by which records are written is the statement of what is chosen.
    ensures test { ChosenIsTest }
{
    // The proof reads here that the test is the statement.
    laws::chosen_is_test();
    let (job, mut rows) = Job::from_words(alloc, words, environment)?;
    run_with(alloc, &job, reader, writer, &mut rows)
}

/// Does a job over a reader and a writer, with any look-up of attributes. It reads an input, walks over the tree of its
/// listing by [`select`], and writes the records of the chosen entries, in their order. Each has the separator after it.
///
/// The input is the listing. For a job with `--specs-first` it is lines of specs, the line `--` and then the listing. The
/// specs' lines end with a line feed, or with a carriage return and one, whatever the separator. They become a search as
/// [`Search::from_lines`] makes one, anew in each call. So the input `a\n--\na/x\nb` has the spec `a` and the records `a/x`
/// and `b`. Neither part is copied.
///
/// The call looks at each byte of the listing a fixed number of times, and asks the search about each entry at most twice. A
/// file mostly takes 4 bytes and a directory 28, and 8 more where it is chosen. A directory that comes again is a further
/// entry, so that a listing which isn't in byte order takes more. The writer isn't flushed, as by [`run`].
///
/// # Errors
/// The first fault, in this order: [`Refusal::Read`]; [`Refusal::Specs`] and [`Refusal::Spec`], where the specs stand in the
/// input; [`Refusal::Line`], whose number counts the records of the listing alone; [`Refusal::Write`]. [`Refusal::Memory`] may
/// come for any of them, and where the look-up fails. Nothing is written before a fault, but for a write's.
pub fn run_with<R: Read, W: Write, L: LookUp<Fault = AllocError>>(
    alloc: Global,
    job: &Job,
    reader: &mut R,
    writer: &mut W,
    look_up: &mut L,
) -> Result<(), Refusal>
    ensures ends { EndsJob (L.table look_up.old) (numbered_specs job.now.specs) job.now.separator
        (R.remaining reader.old) (W.contents writer.old) (W.contents writer.new) result }
    ensures chosen { OnOk result (WritesRecords (L.table look_up.old)
        (numbered_specs job.now.specs) job.now.separator (R.remaining reader.old)
        (W.contents writer.old) (W.contents writer.new)) }
    // An input with a line `--` is the lines of the specs, that line and the listing.
    ensures parts { OnOk result InputIsInParts }
    ensures table_stays { L.table look_up.new ≡ L.table look_up.old }
    ensures counts { CountsRefusal (L.failures look_up.old) (L.failures look_up.new) result }
{
    let bytes = devices::read_to_end(alloc, reader)?;
    let separator = job.separator;
    match &job.specs {
        JobSpecs::FromWords(search) => {
            write_chosen(alloc, search, bytes.as_slice(), separator, writer, look_up)
        }
        JobSpecs::FromInput(builder) => {
            let Parts { specs, listing } = input::divide(bytes.as_slice())?;
            let search = builder.build(alloc, specs)?;
            write_chosen(alloc, &search, listing, separator, writer, look_up)
        }
    }
}

/// Writes the records of a listing that a search chooses, in their order, each with the separator after it.
///
/// # Errors
/// The first fault, in this order: [`Refusal::Line`]; [`Refusal::Write`]. [`Refusal::Memory`] may come for either.
fn write_chosen<W: Write, L: LookUp<Fault = AllocError>>(
    alloc: Global,
    search: &Search,
    listing: &[u8],
    separator: u8,
    writer: &mut W,
    look_up: &mut L,
) -> Result<(), Refusal>
    ensures ends { EndsJob (L.table look_up.old) (FromWords search.now.specs) separator
        (Some listing.now) (W.contents writer.old) (W.contents writer.new) result }
    ensures table_stays { L.table look_up.new ≡ L.table look_up.old }
    ensures counts { CountsRefusal (L.failures look_up.old) (L.failures look_up.new) result }
{
    let listing = match listing::read(alloc, listing, separator) {
        Ok(listing) => listing,
        Err(error) => return Err(refused_listing(error)),
    };
    let mut cursor = listing.cursor(alloc)?;
    let given = select(alloc, &mut cursor, search, look_up).map_err(refused_walk)?;
    output::write_records(alloc, writer, &listing, given.as_slice(), separator)
}

/// The refusal for a listing that can't be read.
fn refused_listing(error: ListingError) -> Refusal
    ensures { result ≡ refused_listing error }
{
    match error {
        ListingError::BadLine(number) => Refusal::Line(number),
        ListingError::Memory => Refusal::Memory,
    }
}

/// The refusal for a walk that ended early: a look-up of the program fails only for want of memory.
fn refused_walk(error: SelectError<AllocError>) -> Refusal
    ensures { result ≡ refused_walk error }
{
    match error {
        SelectError::LookUp(_) | SelectError::Memory => Refusal::Memory,
    }
}
