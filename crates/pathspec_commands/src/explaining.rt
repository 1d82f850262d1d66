//! `pathspec explain`.
use crate::Failure;
use crate::asked::{Asked, read_specs};
use crate::attributes::{Attributes, attributes_of};
use crate::decided::{Decided, decided_attributes};
use crate::json::push_object;
use crate::reason_texts::reason_text;
use crate::telling::{bad_path, read_fault};
use crate::text::Text;
use crate::verdicts::Verdicts;
use bstr::BStr;
use memchr::memchr;
use pathspec_explain::{AskedSpec, Explanation, Reason, Verdict, asked_specs};
use pathspec_faults::push_shown;
use pathspec_options::{ExplainOptions, SpecOptions};
use pathspec_parts::path::strip_last_slash;
use pathspec_parts::records::is_bad;
use std::alloc::{AllocError, Global};
use std::fs::Files;
use std::io::{BufRead, BufReader, BufWriter, Read, Write};
use std::rt::Env;

/// What is asked of each path, with the room for the answers.
#[derive(Drop)]
pub(crate) struct Explainer<'a, 'd> {
    alloc: Global,
    pub(crate) asked: &'a Asked<'d>,
    /// The specs in search order.
    specs: Vec<AskedSpec<'a>>,
    verdicts: Verdicts<'a>,
    attributes: Attributes<'d>,
    /// Whether each spec is asked why it matches a path or doesn't, and not only the one that settles the path.
    pub(crate) all: bool,
    json: bool,
    /// The column in which explanations stand; 0 where it isn't known.
    column: usize,
}

/// Why a spec matches a path or doesn't.
#[derive(Drop)]
pub(crate) struct SpecReason {
    pub(crate) reason: Reason,
    /// The attributes of which the reason speaks, as attribute files decide them.
    pub(crate) decided: Vec<Decided>,
    /// The reason in words.
    pub(crate) words: String,
}

/// A path as it stands, and as specs are asked about it.
#[derive(Clone, Copy)]
pub(crate) struct Path<'p> {
    pub(crate) record: &'p [u8],
    pub(crate) path: BStr<'p>,
    pub(crate) is_dir: bool,
}

impl<'p> Path<'p> {
    /// The path of a record that isn't bad. A leading `./` is no part of it.
    fn of_record(record: &'p [u8]) -> Path<'p> {
        let (path, is_dir) = strip_last_slash(record);
        let path = match path.strip_prefix(b"./") {
            Some(behind) if !behind.is_empty() => behind,
            _ => path,
        };
        Path {
            record,
            path: BStr::new(path),
            is_dir,
        }
    }
}

impl<'a, 'd> Explainer<'a, 'd> {
    /// What options ask of each path.
    ///
    /// # Errors
    /// Memory ran out, or attributes can't be read.
    fn new<R: Files + Env + AllocGlobal, T: Write>(
        rt: &R,
        asked: &'a Asked<'d>,
        specs: &SpecOptions<'d>,
        options: &ExplainOptions<'_>,
        told: &mut T,
    ) -> Result<Explainer<'a, 'd>, Failure> {
        let alloc = rt.alloc();
        let column = column_of(alloc, &options.paths)?;
        let verdicts = Verdicts::new(alloc, &asked.search)?;
        let asked_specs = asked_specs(alloc, &asked.search)?;
        Ok(Explainer {
            alloc,
            asked,
            specs: asked_specs,
            verdicts,
            attributes: attributes_of(rt, specs, told)?,
            all: options.all,
            json: options.json,
            column,
        })
    }

    /// Why the spec with a number, in the order in which specs were given, matches a path or doesn't. None where there is no such
    /// spec.
    ///
    /// # Errors
    /// Memory ran out.
    pub(crate) fn reason(
        &mut self,
        number: usize,
        path: Path<'_>,
    ) -> Result<Option<SpecReason>, AllocError> {
        let alloc = self.alloc;
        let Some(spec) = self.specs.get_mut(self.asked.place_of(number)) else {
            return Ok(None);
        };
        let attributes = &mut self.attributes;
        let reason = spec.reason(path.path, path.is_dir, attributes)?;
        let pattern = spec.pattern();
        let decided = decided_attributes(alloc, attributes, pattern, reason, path)?;
        Ok(Some(SpecReason {
            reason,
            words: reason_text(alloc, reason, pattern, &decided)?,
            decided,
        }))
    }

    /// Adds a spec as lines for people name it, as `2 ':!src/gen'`.
    fn push_name(&self, text: &mut Text, number: usize) {
        text.push_number(number.saturating_add(1));
        text.push(" ");
        match self.asked.texts.get(number) {
            Some(spec) => text.push_quoted(&spec.text),
            // No specs stand for the prefix.
            None => self.push_common_prefix(text),
        }
    }

    /// Adds what all includes begin with, in quotes.
    fn push_common_prefix(&self, text: &mut Text) {
        text.push_quoted(self.asked.search.common_prefix().as_bytes());
    }

    /// Adds a spec with the reason why it matches or doesn't, as `2 ':!src/gen': it lies below`.
    fn push_spec(
        &mut self,
        text: &mut Text,
        number: usize,
        path: Path<'_>,
    ) -> Result<(), AllocError> {
        self.push_name(text, number);
        if let Some(found) = self.reason(number, path)? {
            text.push(": ");
            text.push(found.words.as_str());
        }
        Ok(())
    }

    /// Adds what settles a path, in words.
    fn push_verdict(
        &mut self,
        text: &mut Text,
        told: Explanation,
        path: Path<'_>,
    ) -> Result<(), AllocError> {
        match told.verdict {
            Verdict::Selected(number) => {
                text.push("selected by ");
                return self.push_spec(text, number, path);
            }
            Verdict::Excluded(number) => {
                text.push("excluded by ");
                self.push_spec(text, number, path)?;
                push_skip(text, told.may_skip);
            }
            Verdict::NoExcludeMatches => text.push("selected: no exclude matches"),
            Verdict::NoIncludeMatches => {
                text.push("not selected: no include matches");
                push_skip(text, told.may_skip);
            }
            Verdict::LacksCommonPrefix(_) => {
                text.push("not selected: all includes begin with ");
                self.push_common_prefix(text);
                text.push(", and the path doesn't");
                push_skip(text, told.may_skip);
            }
        }
        Ok(())
    }

    /// Explains the path with a number, from 1.
    fn explain<D: Files + AllocGlobal, W: Write, T: Write>(
        &mut self,
        rt: &D,
        record: &[u8],
        number: usize,
        writer: &mut W,
        told: &mut T,
    ) -> Result<(), Failure> {
        let path = Path::of_record(record);
        if is_bad(record) || path.path.as_bytes().is_empty() {
            return Err(bad_path(self.alloc, number)?);
        }
        self.attributes.reach(rt, path.path.as_bytes(), told)?;
        let told = self.verdicts.verdict(path, &mut self.attributes)?;
        let lines = self.explanation(told, path)?;
        writer
            .write_all(lines.as_bytes())
            .map_err(|_| Failure::Output)
    }

    /// The lines that explain a path.
    fn explanation(&mut self, told: Explanation, path: Path<'_>) -> Result<String, AllocError> {
        let mut lines = Text::new(self.alloc);
        if self.json {
            push_object(&mut lines, self, told, path)?;
        } else {
            self.push_lines(&mut lines, told, path)?;
        }
        lines.end()
    }

    /// Adds the lines that explain a path to people.
    fn push_lines(
        &mut self,
        lines: &mut Text,
        told: Explanation,
        path: Path<'_>,
    ) -> Result<(), AllocError> {
        let width = lines.push_shown(path.record);
        lines.push_spaces(self.column.saturating_sub(width).max(2));
        self.push_verdict(lines, told, path)?;
        lines.push("\n");
        if self.all {
            self.push_specs(lines, path)?;
        }
        Ok(())
    }

    /// Adds a line for each spec.
    fn push_specs(&mut self, lines: &mut Text, path: Path<'_>) -> Result<(), AllocError> {
        for number in 0..self.asked.texts.len() {
            lines.push_spaces(self.column.max(4));
            self.push_spec(lines, number, path)?;
            lines.push("\n");
        }
        Ok(())
    }

    /// Explains the paths of the options, and else those that `reader` has.
    fn explain_all<D: Files + AllocGlobal, I: Read, W: Write, T: Write>(
        &mut self,
        rt: &D,
        options: &ExplainOptions<'_>,
        reader: &mut I,
        writer: &mut W,
        told: &mut T,
    ) -> Result<(), Failure> {
        if options.paths.is_empty() {
            let separator = if options.null { 0 } else { b'\n' };
            let mut reader = BufReader::new(self.alloc, reader).map_err(|_| Failure::Memory)?;
            return self.explain_records(rt, separator, &mut reader, writer, told);
        }
        for (place, path) in options.paths.iter().enumerate() {
            self.explain(rt, path.as_bytes(), place.saturating_add(1), writer, told)?;
        }
        Ok(())
    }

    /// Explains the records that a reader has. Answers are written before more is read, since whoever sends the next record may
    /// wait for them.
    fn explain_records<D: Files + AllocGlobal, I: Read, W: Write, T: Write>(
        &mut self,
        rt: &D,
        separator: u8,
        reader: &mut BufReader<I>,
        writer: &mut W,
        told: &mut T,
    ) -> Result<(), Failure> {
        let mut record = Vec::new(self.alloc);
        for number in 1..usize::MAX {
            if !read_record(self.alloc, separator, reader, &mut record)? {
                break;
            }
            self.explain(rt, &record, number, writer, told)?;
            if !has_record(reader, separator) {
                flush(writer)?;
            }
        }
        Ok(())
    }
}

/// Adds that a walk may skip a path, if it may.
fn push_skip(text: &mut Text, may_skip: bool) {
    if may_skip {
        text.push("; a walk may skip it");
    }
}

/// Explains paths to `writer`: those of the options, and else those that `reader` has. It gives the exit status.
///
/// # Errors
/// The first fault.
pub(crate) fn run<R: Files + Env + AllocGlobal, I: Read, W: Write, T: Write>(
    rt: &R,
    specs: &SpecOptions<'_>,
    options: &ExplainOptions<'_>,
    reader: &mut I,
    writer: &mut W,
    told: &mut T,
) -> Result<u8, Failure> {
    let asked = read_specs(rt, specs)?;
    let mut explainer = Explainer::new(rt, &asked, specs, options, told)?;
    write_explanations(rt, &mut explainer, options, reader, writer, told)
}

/// Explains paths to a writer that gets many lines at a time.
fn write_explanations<D: Files + AllocGlobal, I: Read, W: Write, T: Write>(
    rt: &D,
    explainer: &mut Explainer<'_, '_>,
    options: &ExplainOptions<'_>,
    reader: &mut I,
    writer: &mut W,
    told: &mut T,
) -> Result<u8, Failure> {
    let mut writer = BufWriter::new(rt.alloc(), writer).map_err(|_| Failure::Memory)?;
    explainer.explain_all(rt, options, reader, &mut writer, told)?;
    flush(&mut writer)?;
    Ok(0)
}

/// Writes what a writer holds back.
fn flush<W: Write>(writer: &mut W) -> Result<(), Failure> {
    writer.flush().map_err(|_| Failure::Output)
}

/// Whether the next record can be read from memory.
fn has_record<I: Read>(reader: &BufReader<I>, separator: u8) -> bool {
    memchr(separator, reader.buffer()).is_some()
}

/// Reads the next record into `record`, without its separator. It says whether there was one.
///
/// # Errors
/// The read failed.
fn read_record<I: BufRead>(
    alloc: Global,
    separator: u8,
    reader: &mut I,
    record: &mut Vec<u8>,
) -> Result<bool, Failure> {
    record.clear();
    match reader.read_until(separator, record) {
        Ok(0) => return Ok(false),
        Ok(_) => {}
        Err(error) => return Err(read_fault(alloc, "standard input", &error)?),
    }
    if record.last() == Some(&separator) {
        record.pop();
    }
    Ok(true)
}

/// The column behind the longest of paths; 0 without paths.
fn column_of(alloc: Global, paths: &[&str]) -> Result<usize, AllocError> {
    let mut column = 0usize;
    for path in paths {
        let width = push_shown(&mut String::new(alloc), path.as_bytes())?;
        column = column.max(width.saturating_add(2));
    }
    Ok(column)
}
