//! What a line of an attribute file says (gitattributes).
ghost use Rattle.std.specs.Prelude.{◌≡◌, IfOk};
ghost use Rattle.pathspec_attributes.specs.Readings.{front_reading, is_comment, is_macro, item_reading, macro_name, macro_reading, plain_reading, reading, rule_item};
ghost use Rattle.pathspec_attributes.specs.Views.{reading_view};

use crate::assignments::{assignments, git_name};
use crate::lines::{at_first_blank, before_nul, behind_blanks};
use crate::quoting::unquote;
use crate::reasons::Reason;
use crate::rule::Rule;
use pathspec_parts::attributes::{Assignment, Name};
use std::alloc::{AllocError, Global};

/// A line of this many bytes is left out.
const LONGEST: usize = 2048;

/// What a line says.
#[derive(Debug, Drop)]
pub(crate) enum Reading {
    /// The line is empty, or a comment.
    Nothing,
    /// A rule.
    Ruling(Rule),
    /// What a macro stands for.
    Defining(Macro),
    /// The line is left out.
    Refused(Reason),
}

/// A macro, and what it stands for where it is set.
#[derive(Debug, Drop)]
pub(crate) struct Macro {
    pub name: Name,
    pub body: Vec<Assignment>,
}

/// Reads a line without its line feed, of a file that may define macros or not.
///
/// The call looks at each byte a fixed number of times.
///
/// # Errors
/// Memory runs out.
pub(crate) fn read_line(alloc: Global, may_define: bool, line: &[u8]) -> Result<Reading, AllocError>
    ensures { IfOk result (λ read. reading_view read ≡ reading may_define line.now) }
{
    let body = behind_blanks(line);
    if is_comment(body) {
        return Ok(Reading::Nothing);
    }
    if line.len() >= LONGEST {
        return Ok(Reading::Refused(Reason::TooLong));
    }
    read_front(alloc, may_define, body)
}

/// Whether a line without blanks in front says nothing: it is empty, or begins with `#`.
fn is_comment(line: &[u8]) -> bool
    ensures { result ≡ is_comment line.now }
{
    matches!(line, [] | [b'#', ..])
}

/// Reads a line that begins with its pattern, which may be quoted.
fn read_front(alloc: Global, may_define: bool, line: &[u8]) -> Result<Reading, AllocError>
    ensures { IfOk result (λ read. reading_view read ≡ front_reading may_define line.now) }
{
    let [b'"', behind @ ..] = line else {
        return read_plain(alloc, may_define, line);
    };
    match unquote(alloc, behind)? {
        Some((pattern, states)) => read_item(alloc, may_define, pattern.as_slice(), states),
        None => read_plain(alloc, may_define, line),
    }
}

/// Reads a line that begins with its pattern, which isn't quoted.
fn read_plain(alloc: Global, may_define: bool, line: &[u8]) -> Result<Reading, AllocError>
    ensures { IfOk result (λ read. reading_view read ≡ plain_reading may_define line.now) }
{
    let (pattern, states) = at_first_blank(line);
    read_item(alloc, may_define, pattern, states)
}

/// Reads a pattern and what stands behind it.
fn read_item(
    alloc: Global,
    may_define: bool,
    pattern: &[u8],
    states: &[u8],
) -> Result<Reading, AllocError>
    ensures { IfOk result (λ read.
        reading_view read ≡ item_reading may_define pattern.now states.now) }
{
    if !is_macro(pattern) {
        return read_rule(alloc, pattern, states);
    }
    if !may_define {
        return Ok(Reading::Refused(Reason::MacroHere));
    }
    read_macro(alloc, &pattern[6..], states)
}

/// Whether a pattern is a macro's.
fn is_macro(pattern: &[u8]) -> bool
    ensures { result ≡ is_macro pattern.now }
{
    pattern.starts_with(b"[attr]") && pattern.len() > 6
}

/// Reads a macro, by what stands behind `[attr]`.
fn read_macro(alloc: Global, text: &[u8], states: &[u8]) -> Result<Reading, AllocError>
    ensures { IfOk result (λ read. reading_view read ≡ macro_reading text.now states.now) }
{
    let Some(name) = git_name(alloc, macro_name(text))? else {
        return Ok(Reading::Refused(Reason::InvalidName));
    };
    match assignments(alloc, states)? {
        Some(body) => Ok(Reading::Defining(Macro { name, body })),
        None => Ok(Reading::Refused(Reason::InvalidName)),
    }
}

/// The name of a macro, which ends at a blank or at a byte 0.
fn macro_name(text: &[u8]) -> &[u8]
    ensures { result.now ≡ macro_name text.now }
{
    at_first_blank(before_nul(behind_blanks(text))).0
}

/// Reads a rule.
fn read_rule(alloc: Global, pattern: &[u8], states: &[u8]) -> Result<Reading, AllocError>
    ensures { IfOk result (λ read. reading_view read ≡ rule_item pattern.now states.now) }
{
    let Some(assignments) = assignments(alloc, states)? else {
        return Ok(Reading::Refused(Reason::InvalidName));
    };
    if pattern.starts_with(b"!") {
        return Ok(Reading::Refused(Reason::Negative));
    }
    Ok(Reading::Ruling(Rule::new(alloc, before_nul(pattern), assignments)?))
}
