//! Faults as lines for people.
use crate::messages::{advice, push_message};
use crate::places::place;
use crate::proposals::close_keyword;
use crate::shown::{push_shown, push_times};
use pathspec_pattern::Error;
use std::alloc::{AllocError, Global};
use std::ops::Range;

/// The lines that tell people of a fault: what is wrong with `subject`, as `spec 2`, the text with the place marked below it,
/// and what to write instead. Each line has its line feed.
///
/// ```text
/// error: spec 2: unknown keyword `foo`
///   :(top,foo)src
///         ^^^
///   keywords: top, icase, exclude, literal, glob, attr:.., prefix:N
/// ```
///
/// Control characters and bytes that are no UTF-8 are shown by their numbers, as `\x1b`.
pub fn report(
    alloc: Global,
    subject: &str,
    text: &[u8],
    error: &Error,
) -> Result<String, AllocError> {
    let mut report = format!(in alloc; "error: {subject}: ")?;
    push_message(&mut report, error)?;
    report.push_str("\n")?;
    if !text.is_empty() {
        push_marked(alloc, &mut report, text, place(text, error))?;
    }
    push_proposal(alloc, &mut report, text, error)?;
    push_line(&mut report, advice(error))?;
    Ok(report)
}

/// Adds a line with two spaces in front, if it says anything.
fn push_line(report: &mut String, line: &str) -> Result<(), AllocError> {
    if line.is_empty() {
        return Ok(());
    }
    report.push_str("  ")?;
    report.push_str(line)?;
    report.push_str("\n")?;
    Ok(())
}

/// Adds the text, and below it a mark under each character of the place.
fn push_marked(
    alloc: Global,
    report: &mut String,
    text: &[u8],
    place: Range<usize>,
) -> Result<(), AllocError> {
    let (before, rest) = text.split_at(place.start.min(text.len()));
    let (marked, after) = rest.split_at((place.end.saturating_sub(place.start)).min(rest.len()));
    let mut shown = String::new(alloc);
    let indent = push_shown(&mut shown, before)?;
    let width = push_shown(&mut shown, marked)?;
    push_shown(&mut shown, after)?;
    push_line(report, shown.as_str())?;
    let mut marks = String::new(alloc);
    push_times(&mut marks, ' ', indent)?;
    push_times(&mut marks, '^', width.max(1))?;
    push_line(report, marks.as_str())
}

/// Adds what was probably meant.
fn push_proposal(
    alloc: Global,
    report: &mut String,
    text: &[u8],
    error: &Error,
) -> Result<(), AllocError> {
    match error {
        Error::InvalidKeyword(piece) => match close_keyword(alloc, piece)? {
            Some(keyword) => push_line(
                report,
                format!(in alloc; "did you mean `{keyword}`?")?.as_str(),
            ),
            None => Ok(()),
        },
        Error::UnimplementedShort(_) => {
            let (magic, path) = text.split_at(place(text, error).start.min(text.len()));
            let line = other_forms(alloc, magic, path)?;
            push_line(report, line.as_str())
        }
        _ => Ok(()),
    }
}

/// The two ways to write a path that begins with a byte that git keeps free: behind an end mark, and behind long magic.
fn other_forms(alloc: Global, magic: &[u8], path: &[u8]) -> Result<String, AllocError> {
    let mut line = String::from_str(alloc, "write `")?;
    push_shown(&mut line, magic)?;
    line.push_str(":")?;
    push_shown(&mut line, path)?;
    line.push_str("` or `:(")?;
    line.push_str(long_form(magic))?;
    line.push_str(")")?;
    push_shown(&mut line, path)?;
    line.push_str("`")?;
    Ok(line)
}

/// Short magic in words.
fn long_form(magic: &[u8]) -> &'static str {
    let excludes = magic.contains(&b'!') || magic.contains(&b'^');
    match (magic.contains(&b'/'), excludes) {
        (true, true) => "top,exclude",
        (true, false) => "top",
        (false, true) => "exclude",
        (false, false) => "",
    }
}
