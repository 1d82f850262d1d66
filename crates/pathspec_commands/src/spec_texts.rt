//! The texts of specs, from the words of a command line and from files.
use crate::Failure;
use crate::telling::read_fault;
use bstr::ByteSlice;
use pathspec_attributes::unquote;
use pathspec_options::SpecOptions;
use std::alloc::{AllocError, Global};
use std::fs::{self, Files};

/// Where a spec was given.
#[derive(Clone, Copy, Debug)]
pub(crate) enum Origin<'a> {
    /// As the spec with this number, from 1, of the command line.
    Word(usize),
    /// On the line with this number, from 1, of a file.
    Line(&'a str, usize),
}

/// The text of a spec, and where it was given.
#[derive(Drop)]
pub(crate) struct SpecText<'a> {
    pub(crate) text: Vec<u8>,
    pub(crate) origin: Origin<'a>,
}

impl Origin<'_> {
    /// The place as lines for people name it: `spec 2`, `specs.txt:3`.
    pub(crate) fn name(self, alloc: Global) -> Result<String, AllocError> {
        match self {
            Origin::Word(number) => format!(in alloc; "spec {number}"),
            Origin::Line(file, number) => format!(in alloc; "{file}:{number}"),
        }
    }
}

/// The texts of all specs: those among the words, and then those of the files, a line each.
///
/// # Errors
/// A file that can't be read, or a line in quotes that don't end it.
pub(crate) fn spec_texts<'a, R: Files + AllocGlobal>(
    rt: &R,
    options: &SpecOptions<'a>,
) -> Result<Vec<SpecText<'a>>, Failure> {
    let mut texts = Vec::new(rt.alloc());
    add_texts(rt, &mut texts, options)?;
    Ok(texts)
}

/// Adds the texts of all specs.
fn add_texts<'a, R: Files + AllocGlobal>(
    rt: &R,
    texts: &mut Vec<SpecText<'a>>,
    options: &SpecOptions<'a>,
) -> Result<(), Failure> {
    for (place, word) in options.words.iter().enumerate() {
        let text = Vec::from_slice(rt.alloc(), word.as_bytes())?;
        let origin = Origin::Word(place.saturating_add(1));
        texts.push(SpecText { text, origin })?;
    }
    for file in &options.files {
        let bytes = read_file(rt, file)?;
        add_lines(rt.alloc(), texts, file, &bytes)?;
    }
    Ok(())
}

/// The bytes of a file.
///
/// # Errors
/// It can't be read: the fault has its name.
pub(crate) fn read_file<R: Files + AllocGlobal>(rt: &R, file: &str) -> Result<Vec<u8>, Failure> {
    match fs::read(rt, file) {
        Ok(bytes) => Ok(bytes),
        Err(error) => Err(read_fault(rt.alloc(), file, &error)?),
    }
}

/// Adds the specs on the lines of a file. A carriage return before a line feed isn't part of the line.
fn add_lines<'a>(
    alloc: Global,
    texts: &mut Vec<SpecText<'a>>,
    file: &'a str,
    bytes: &[u8],
) -> Result<(), Failure> {
    let mut number = 1usize;
    let mut lines = bytes.lines();
    while let Some(line) = lines.next() {
        let text = spec_of_line(alloc, line, Origin::Line(file, number))?;
        texts.push(text)?;
        number = number.saturating_add(1);
    }
    Ok(())
}

/// The spec of a line. As in git's files of pathspecs, one in quotes is unquoted (git, "core.quotePath").
fn spec_of_line<'a>(
    alloc: Global,
    line: &[u8],
    origin: Origin<'a>,
) -> Result<SpecText<'a>, Failure> {
    if line.contains(&0) {
        return Err(line_fault(alloc, origin, "the line holds the byte 0")?);
    }
    let Some(quoted) = line.strip_prefix(b"\"") else {
        let text = Vec::from_slice(alloc, line)?;
        return Ok(SpecText { text, origin });
    };
    match unquote(alloc, quoted)? {
        Some((text, [])) => Ok(SpecText { text, origin }),
        _ => Err(line_fault(alloc, origin, "the quotes aren't whole")?),
    }
}

/// The fault of a line.
fn line_fault(alloc: Global, origin: Origin<'_>, what: &str) -> Result<Failure, AllocError> {
    let place = origin.name(alloc)?;
    Ok(Failure::Told(format!(in alloc; "error: {place}: {what}\n")?))
}
