//! `pathspec filter`.
ghost use Rattle.std.specs.Prelude.{◌≡◌, IfOk};
ghost use Rattle.pathspec_commands.specs.Filters.{separator_of, selection_of, takes_of, WithTable, EndsWriting, TellsFirst};

use crate::Failure;
use crate::advice::{Situation, advice, spec_advice};
use crate::asked::{Asked, read_specs};
use crate::attributes::{Attributes, attributes_of};
use crate::devices::{FirstByte, FrontReader};
use crate::piecewise::filter_pieces;
use crate::telling::{noun, tell};
use crate::unmatched::{AskingReader, Includes, Records};
use gix_pathspec::Search;
use pathspec_filter::{Counts, FilterError, LeadingDot, Selection, filter};
use pathspec_options::{FilterOptions, SpecOptions};
use std::alloc::{AllocError, Global};
use std::fs::Files;
use std::io::{self, Read, Write};
use std::rt::Env;

/// The exit status of a filter that did all that it should.
const DONE: u8 = 0;

/// The exit status where nothing was selected, with `--quiet`, or an include matched nothing, with `--error-unmatch`.
const NONE_SELECTED: u8 = 1;

/// A filter of a reader's records.
struct Filter<'d, 's, 'r, 'a, D, R> {
    rt: &'d D,
    search: &'s Search,
    options: FilterOptions,
    reader: FrontReader<'r, R>,
    attributes: Attributes<'a>,
}

// Written out, so that whoever drops a filter needn't prove anew what becomes of its parts.
impl<D, R> Drop for Filter<'_, '_, '_, '_, D, R> {
    fn drop(self) {
        let Filter {
            rt: _rt,
            search: _search,
            options: _options,
            reader: _reader,
            attributes: _attributes,
        } = self;
    }
}

/// How a filter ended without a fault: with its counts, unless it ended at the first selected record.
#[derive(Clone, Copy)]
struct Ended {
    counts: Option<Counts>,
    status: u8,
}

impl<D: Files + AllocGlobal, R: Read> Filter<'_, '_, '_, '_, D, R> {
    /// Writes the selected records.
    ///
    /// # Errors
    /// The first fault. All that is selected before a bad record is written, and at any other fault a beginning of that.
    fn write<W: Write, T: Write>(&mut self, writer: &mut W, told: &mut T) -> Result<Ended, Failure>
        ensures ends { WithTable self.old.attributes (λ table. EndsWriting
            (takes_of self.old.options self.old.search.now.specs table)
            (separator_of self.old.options) (R.remaining self.old.reader.reader.now)
            (W.contents writer.old) (W.contents writer.new) result) }
        ensures status { IfOk result (λ ended. ended.status ≡ DONE) }
    {
        let (separator, selection) = (separator(&self.options), selection(&self.options));
        match &mut self.attributes {
            Attributes::Rows(rows) => {
                let ended = filter(
                    self.rt.alloc(),
                    self.search,
                    separator,
                    selection,
                    &mut self.reader,
                    writer,
                    rows,
                );
                match ended {
                    Ok(counts) => Ok(Ended {
                        counts: Some(counts),
                        status: DONE,
                    }),
                    Err(error) => Err(failure_of(self.rt.alloc(), error)),
                }
            }
            Attributes::Directory(directory) => {
                let asked = (self.search, separator, selection);
                let counts = filter_pieces(
                    self.rt,
                    asked,
                    directory,
                    &mut self.reader,
                    writer,
                    told,
                )?;
                Ok(Ended {
                    counts: Some(counts),
                    status: DONE,
                })
            }
        }
    }

    /// Ends at the first selected record. The status says whether there is one.
    ///
    /// # Errors
    /// The first fault before it.
    fn find_first<T: Write>(&mut self, told: &mut T) -> Result<Ended, Failure>
        ensures { WithTable self.old.attributes (λ table. TellsFirst
            (takes_of self.old.options self.old.search.now.specs table)
            (separator_of self.old.options) (R.remaining self.old.reader.reader.now) result) }
    {
        let mut first = FirstByte { byte: None };
        let ended = self.write(&mut first, told);
        if first.byte.is_some() {
            return Ok(Ended {
                counts: None,
                status: DONE,
            });
        }
        let ended = ended?;
        Ok(Ended {
            counts: ended.counts,
            status: NONE_SELECTED,
        })
    }
}

/// The byte that ends a record.
fn separator(options: &FilterOptions) -> u8
    ensures { result ≡ separator_of options.now }
{
    if options.null { 0 } else { b'\n' }
}

/// Which records options select.
fn selection(options: &FilterOptions) -> Selection
    ensures { result ≡ selection_of options.now }
{
    let leading_dot = if options.verbatim {
        LeadingDot::Kept
    } else {
        LeadingDot::Dropped
    };
    Selection {
        leading_dot,
        is_inverted: options.invert,
    }
}

/// Writes the records of `reader` that specs select to `writer`, and lines for people to `told`. It gives the exit status.
///
/// # Errors
/// The first fault.
pub(crate) fn run<R: Files + Env + AllocGlobal, I: Read, W: Write, T: Write>(
    rt: &R,
    specs: &SpecOptions<'_>,
    options: FilterOptions,
    (reader, writer, told): (&mut I, &mut W, &mut T),
) -> Result<u8, Failure> {
    let asked = read_specs(rt, specs)?;
    if options.error_unmatch {
        run_asking(rt, &asked, specs, options, reader, writer, told)
    } else {
        run_filter(rt, &asked, specs, options, reader, writer, told)
    }
}

/// Filters the records of `reader` as [`run_filter`] does, and tells which includes match none of them.
///
/// # Errors
/// The first fault of a question to the includes, and else that of the filter.
fn run_asking<R: Files + Env + AllocGlobal, I: Read, W: Write, T: Write>(
    rt: &R,
    asked: &Asked<'_>,
    specs: &SpecOptions<'_>,
    options: FilterOptions,
    reader: &mut I,
    writer: &mut W,
    told: &mut T,
) -> Result<u8, Failure> {
    let includes = Includes::new(rt, &asked.search, specs)?;
    let form = (separator(&options), selection(&options).leading_dot);
    let mut records = Records::new(includes, form);
    let mut asking = AskingReader::new(reader, &mut records);
    let ended = run_filter(rt, asked, specs, options, &mut asking, writer, told);
    let status = first_fault(records.failure.take(), ended)?;
    // A quiet filter ends at the first selected record, maybe before each include has matched.
    records.read_rest(reader)?;
    let count = records.includes.tell_unmatched(asked, "record", told)?;
    Ok(if count > 0 { NONE_SELECTED } else { status })
}

/// How a filter ended, where a question about what it read may have failed before.
fn first_fault(failure: Option<Failure>, ended: Result<u8, Failure>) -> Result<u8, Failure> {
    match failure {
        Some(failure) => Err(failure),
        None => ended,
    }
}

/// Writes the records of `reader` that a search selects to `writer`, and lines for people to `told`. It gives the exit status.
///
/// # Errors
/// The first fault.
fn run_filter<R: Files + Env + AllocGlobal, I: Read, W: Write, T: Write>(
    rt: &R,
    asked: &Asked<'_>,
    specs: &SpecOptions<'_>,
    options: FilterOptions,
    reader: &mut I,
    writer: &mut W,
    told: &mut T,
) -> Result<u8, Failure> {
    let mut filter = Filter {
        rt,
        search: &asked.search,
        options,
        reader: FrontReader::new(reader, separator(&options)),
        attributes: attributes_of(rt, specs, told)?,
    };
    let ended = end_of(&mut filter, writer, told);
    advise(&filter, &ended, asked, specs, told);
    let ended = ended?;
    write_counts(rt.alloc(), &options, ended.counts, writer, told)?;
    Ok(ended.status)
}

/// Runs a filter as its options ask.
///
/// # Errors
/// The first fault.
fn end_of<R: Files + AllocGlobal, I: Read, W: Write, T: Write>(
    filter: &mut Filter<'_, '_, '_, '_, R, I>,
    writer: &mut W,
    told: &mut T,
) -> Result<Ended, Failure> {
    if filter.options.quiet {
        filter.find_first(told)
    } else if filter.options.count {
        filter.write(&mut io::sink(), told)
    } else {
        filter.write(writer, told)
    }
}

/// Tells what was probably meant otherwise, after a filter ended.
fn advise<R: Files + AllocGlobal, I: Read, T: Write>(
    filter: &Filter<'_, '_, '_, '_, R, I>,
    ended: &Result<Ended, Failure>,
    asked: &Asked<'_>,
    specs: &SpecOptions<'_>,
    told: &mut T,
) {
    let situation = Situation {
        front: filter.reader.front(),
        has_quoted_record: filter.reader.has_quoted_record(),
        separator: separator(&filter.options),
        counts: match ended {
            Ok(ended) => ended.counts,
            Err(_) => None,
        },
        lacks_attributes: asked.lists_attributes && !specs.has_attributes(),
    };
    for line in advice(&situation) {
        tell(told, line);
    }
    if situation.selects_nothing() && !filter.options.invert {
        tell(told, spec_advice(asked, "", !specs.prefix.is_empty()));
    }
}

/// Writes the counts that options ask for. A filter that ended early has none.
///
/// # Errors
/// Memory ran out, or a write failed.
fn write_counts<W: Write, T: Write>(
    alloc: Global,
    options: &FilterOptions,
    counts: Option<Counts>,
    writer: &mut W,
    told: &mut T,
) -> Result<(), Failure> {
    let Some(counts) = counts else {
        return Ok(());
    };
    if options.count && !options.quiet {
        write_selected(alloc, counts.selected, writer)?;
    }
    if options.stats {
        tell(told, stats_line(alloc, counts)?.as_str());
    }
    Ok(())
}

/// Writes how many records were selected.
fn write_selected<W: Write>(alloc: Global, selected: u64, writer: &mut W) -> Result<(), Failure> {
    let line = format!(in alloc; "{selected}\n")?;
    writer
        .write_all(line.as_bytes())
        .map_err(|_| Failure::Output)
}

/// The line that tells of counts.
fn stats_line(alloc: Global, counts: Counts) -> Result<String, AllocError> {
    let Counts {
        records,
        selected,
        skipped,
    } = counts;
    let read = noun(records, "record", "records");
    let directories = noun(skipped, "directory", "directories");
    format!(in alloc;
        "{records} {read}, {selected} selected, {skipped} {directories} passed over\n"
    )
}

/// What a filter's error says.
pub(crate) fn failure_of(alloc: Global, error: FilterError<AllocError>) -> Failure {
    match error {
        FilterError::Line(_) | FilterError::Read => {
            match format!(in alloc; "error: {error}\n") {
                Ok(line) => Failure::Told(line),
                Err(_) => Failure::Memory,
            }
        }
        FilterError::LookUp(_) | FilterError::Memory => Failure::Memory,
        FilterError::Write => Failure::Output,
    }
}
