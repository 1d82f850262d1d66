//! The includes that have matched nothing yet.
use crate::Failure;
use crate::asked::Asked;
use crate::attributes::{Attributes, attributes_of};
use crate::filtering::failure_of;
use crate::telling::{quoted, tell};
use bstr::BStr;
use gix_pathspec::{Pattern, Search};
use pathspec_explain::{AskedSpec, Reason, asked_specs};
use pathspec_filter::{FilterError, LeadingDot, path_in};
use pathspec_options::SpecOptions;
use pathspec_parts::path::strip_last_slash;
use pathspec_parts::records::is_bad;
use std::alloc::{AllocError, Global};
use std::fs::Files;
use std::io::{self, Error, ErrorKind, Read, Write};
use std::rt::Env;

/// How many bytes a read takes at most.
const CHUNK: usize = 65536;

/// The includes of a search, which are asked about paths until each has matched one.
pub(crate) struct Includes<'r, 's, 'd, D> {
    rt: &'r D,
    /// The specs in search order; None for an exclude, and for an include that has matched.
    specs: Vec<Option<AskedSpec<'s>>>,
    left: usize,
    has_excludes: bool,
    /// Nothing is told of their files: whoever reads these files to select paths tells of the lines that are left out.
    attributes: Attributes<'d>,
}

// Written out, so that whoever drops includes needn't prove anew what becomes of their parts.
impl<D> Drop for Includes<'_, '_, '_, D> {
    fn drop(self) {
        let Includes {
            rt: _rt,
            specs: _specs,
            left: _left,
            has_excludes: _has_excludes,
            attributes: _attributes,
        } = self;
    }
}

impl<'r, 's, 'd, D: Files + Env + AllocGlobal> Includes<'r, 's, 'd, D> {
    /// The includes of a search, of which none has matched. They have attributes of their own, as the options give them.
    ///
    /// # Errors
    /// Memory ran out, or the attributes can't be read.
    pub(crate) fn new(
        rt: &'r D,
        search: &'s Search,
        options: &SpecOptions<'d>,
    ) -> Result<Includes<'r, 's, 'd, D>, Failure> {
        let attributes = attributes_of(rt, options, &mut io::sink())?;
        let specs = includes_of(rt.alloc(), search)?;
        let left = specs.iter().filter(|spec| spec.is_some()).count();
        let has_excludes = left < specs.len();
        Ok(Includes {
            rt,
            specs,
            left,
            has_excludes,
            attributes,
        })
    }
}

impl<D: Files + AllocGlobal> Includes<'_, '_, '_, D> {
    /// Whether each include has matched.
    pub(crate) fn is_done(&self) -> bool {
        self.left == 0
    }

    /// Asks the includes that have matched nothing about a path.
    ///
    /// # Errors
    /// Memory ran out, or an attribute file can't be read.
    pub(crate) fn ask(&mut self, path: &[u8], is_dir: bool) -> Result<(), Failure> {
        if self.is_done() {
            return Ok(());
        }
        self.attributes.reach(self.rt, path, &mut io::sink())?;
        for spec in self.specs.iter_mut() {
            let Some(asked) = spec else {
                continue;
            };
            let reason = asked.reason(BStr::new(path), is_dir, &mut self.attributes)?;
            if let Reason::Matches(_) = reason {
                *spec = None;
                self.left = self.left.saturating_sub(1);
            }
        }
        Ok(())
    }

    /// Asks about a record, unless it is a bad one.
    fn ask_record(&mut self, record: &[u8], leading_dot: LeadingDot) -> Result<(), Failure> {
        if is_bad(record) {
            return Ok(());
        }
        let (path, is_dir) = strip_last_slash(record);
        self.ask(path_in(leading_dot, path), is_dir)
    }

    /// A search of the includes that have matched nothing, as if they listed no attributes, for paths that excludes took. None where
    /// all have matched, or nothing excludes.
    ///
    /// # Errors
    /// Memory ran out.
    pub(crate) fn left_search(&self) -> Result<Option<Search>, Failure> {
        if self.is_done() || !self.has_excludes {
            return Ok(None);
        }
        match Search::from_specs(self.rt.alloc(), self.left_patterns()?, None, BStr::new(b"")) {
            Ok(search) => Ok(Some(search)),
            // The patterns are those of a search, so nothing but memory can be at fault.
            Err(_) => Err(Failure::Memory),
        }
    }

    /// The patterns of the includes that have matched nothing, as if they listed no attributes.
    fn left_patterns(&self) -> Result<Vec<Pattern>, Failure> {
        let mut patterns = Vec::new(self.rt.alloc());
        for spec in self.specs.iter() {
            if let Some(asked) = spec {
                patterns.push(without_attributes(asked.pattern())?)?;
            }
        }
        Ok(patterns)
    }

    /// Whether the spec at a place in search order is an include that has matched nothing.
    fn is_left(&self, place: usize) -> bool {
        matches!(self.specs.get(place), Some(Some(_)))
    }

    /// Tells, in the order in which they were given, which includes matched nothing, and counts them. `noun` names what they
    /// were asked about.
    ///
    /// # Errors
    /// Memory ran out.
    pub(crate) fn tell_unmatched<T: Write>(
        &self,
        asked: &Asked<'_>,
        noun: &str,
        told: &mut T,
    ) -> Result<usize, AllocError> {
        let mut count = 0usize;
        for (number, text) in asked.texts.iter().enumerate() {
            if self.is_left(asked.place_of(number)) {
                let line = unmatched_line(self.rt.alloc(), &text.text, noun)?;
                tell(told, line.as_str());
                count = count.saturating_add(1);
            }
        }
        Ok(count)
    }
}

/// The specs of a search, in search order: an include, or None for an exclude.
fn includes_of(alloc: Global, search: &Search) -> Result<Vec<Option<AskedSpec<'_>>>, Failure> {
    let mut includes = Vec::new(alloc);
    for spec in asked_specs(alloc, search)?.into_iter() {
        includes.push(include_of(spec))?;
    }
    Ok(includes)
}

/// A spec that is an include. None where it is an exclude.
fn include_of(spec: AskedSpec<'_>) -> Option<AskedSpec<'_>> {
    if spec.pattern().is_excluded() {
        None
    } else {
        Some(spec)
    }
}

/// The line that tells of an include which matched nothing.
fn unmatched_line(alloc: Global, text: &[u8], noun: &str) -> Result<String, AllocError> {
    let spec = quoted(alloc, text)?;
    format!(in alloc; "error: pathspec {spec} did not match any {noun}\n")
}

/// The pattern of an include as if it listed no attributes: it matches where the include does, and maybe elsewhere.
fn without_attributes(pattern: &Pattern) -> Result<Pattern, Failure> {
    let mut pattern = pattern.try_clone()?;
    pattern.attributes.clear();
    Ok(pattern)
}

/// The records of a listing, about which includes are asked.
pub(crate) struct Records<'r, 's, 'd, D> {
    pub(crate) includes: Includes<'r, 's, 'd, D>,
    separator: u8,
    leading_dot: LeadingDot,
    /// The front of a record whose end wasn't read yet.
    partial: Vec<u8>,
    is_at_end: bool,
    /// Why a record couldn't be asked about.
    pub(crate) failure: Option<Failure>,
}

// Written out, so that whoever drops records needn't prove anew what becomes of their includes.
impl<D> Drop for Records<'_, '_, '_, D> {
    fn drop(self) {
        let Records {
            includes: _includes,
            separator: _separator,
            leading_dot: _leading_dot,
            partial: _partial,
            is_at_end: _is_at_end,
            failure: _failure,
        } = self;
    }
}

impl<'r, 's, 'd, D: Files + AllocGlobal> Records<'r, 's, 'd, D> {
    /// The records of a listing of which nothing was read.
    pub(crate) fn new(
        includes: Includes<'r, 's, 'd, D>,
        (separator, leading_dot): (u8, LeadingDot),
    ) -> Records<'r, 's, 'd, D> {
        let partial = Vec::new(includes.rt.alloc());
        Records {
            includes,
            separator,
            leading_dot,
            partial,
            is_at_end: false,
            failure: None,
        }
    }
}

impl<D: Files + AllocGlobal> Records<'_, '_, '_, D> {
    /// Whether no more records need to be read.
    fn are_done(&self) -> bool {
        self.is_at_end || self.includes.is_done()
    }

    /// Asks about bytes that were read, or where there are none, about the last record, which may lack its separator.
    fn take(&mut self, bytes: &[u8]) -> Result<(), Failure> {
        self.is_at_end = bytes.is_empty();
        if self.is_at_end {
            self.end_record()
        } else {
            self.take_records(bytes)
        }
    }

    /// Asks about the records whose separators are among bytes, and keeps what stands behind the last.
    fn take_records(&mut self, bytes: &[u8]) -> Result<(), Failure> {
        let separator = self.separator;
        let mut is_first = true;
        for part in bytes.split(|byte| *byte == separator) {
            if !is_first {
                self.end_record()?;
            }
            self.partial.extend_from_slice(part)?;
            is_first = false;
        }
        Ok(())
    }

    /// Asks about the record whose end was read.
    fn end_record(&mut self) -> Result<(), Failure> {
        self.includes.ask_record(&self.partial, self.leading_dot)?;
        self.partial.clear();
        Ok(())
    }

    /// Reads on, until each include has matched or the listing ends.
    ///
    /// # Errors
    /// A read failed, or a record can't be asked about.
    pub(crate) fn read_rest<R: Read>(&mut self, reader: &mut R) -> Result<(), Failure> {
        let mut chunk = [0u8; CHUNK];
        for _ in 0..u64::MAX {
            if self.are_done() {
                break;
            }
            match reader.read(&mut chunk) {
                Ok(count) => self.take(&chunk[..count])?,
                Err(_) => return Err(failure_of(self.includes.rt.alloc(), FilterError::Read)),
            }
        }
        Ok(())
    }
}

/// A reader that asks includes about each record which it reads.
#[derive(Drop)]
pub(crate) struct AskingReader<'i, 'k, 'r, 's, 'd, D, R> {
    reader: &'i mut R,
    records: &'k mut Records<'r, 's, 'd, D>,
}

impl<'i, 'k, 'r, 's, 'd, D: Files + AllocGlobal, R: Read> AskingReader<'i, 'k, 'r, 's, 'd, D, R> {
    /// A reader of which nothing was read.
    pub(crate) fn new(
        reader: &'i mut R,
        records: &'k mut Records<'r, 's, 'd, D>,
    ) -> AskingReader<'i, 'k, 'r, 's, 'd, D, R> {
        AskingReader { reader, records }
    }
}

impl<D: Files + AllocGlobal, R: Read> Read for AskingReader<'_, '_, '_, '_, '_, D, R> {
    ghost remaining = { λ a. R.remaining a.reader.now };

    // The bytes are handed on also where a question about them failed. The next read fails then.
    fn read(&mut self, buf: &mut [u8]) -> io::Result<usize> {
        if self.records.failure.is_some() {
            return Err(Error::from(ErrorKind::Other));
        }
        let count = self.reader.read(buf)?;
        if !self.records.are_done() && !buf.is_empty() {
            self.records.failure = self.records.take(&buf[..count]).err();
        }
        Ok(count)
    }
}
