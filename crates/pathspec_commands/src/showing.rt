//! `pathspec show`.
use crate::Failure;
use crate::asked::{Asked, read_specs};
use crate::text::Text;
use bitflags::Flags;
use bstr::BStr;
use gix_pathspec::attributes::{Assignment, State};
use gix_pathspec::{MagicSignature, Pattern, Search, SearchMode};
use pathspec_glob::first_wildcard;
use pathspec_options::SpecOptions;
use std::alloc::Global;
use std::fs::Files;
use std::io::Write;
use std::rt::Env;

/// The flags of a spec, each with its name.
const FLAGS: [(MagicSignature, &str); 4] = [
    (MagicSignature::TOP, "top"),
    (MagicSignature::ICASE, "icase"),
    (MagicSignature::EXCLUDE, "exclude"),
    (MagicSignature::MUST_BE_DIR, "directory"),
];

/// Writes what each spec means to `writer`. It gives the exit status.
///
/// # Errors
/// The first fault.
pub(crate) fn run<R: Files + Env + AllocGlobal, W: Write>(
    rt: &R,
    specs: &SpecOptions<'_>,
    writer: &mut W,
) -> Result<u8, Failure> {
    let asked = read_specs(rt, specs)?;
    write_specs(rt.alloc(), &asked, writer)
}

/// Writes what each spec means.
fn write_specs<W: Write>(alloc: Global, asked: &Asked<'_>, writer: &mut W) -> Result<u8, Failure> {
    for number in 0..asked.texts.len() {
        let lines = spec_lines(alloc, asked, number)?;
        if writer.write_all(lines.as_bytes()).is_err() {
            return Err(Failure::Output);
        }
    }
    Ok(0)
}

/// The lines on the spec with a number.
fn spec_lines(alloc: Global, asked: &Asked<'_>, number: usize) -> Result<String, Failure> {
    let mut lines = Text::new(alloc);
    if let (Some(spec), Some(pattern)) = (asked.texts.get(number), pattern_at(asked, number)) {
        lines.push_number(number.saturating_add(1));
        lines.push(" ");
        lines.push_quoted(&spec.text);
        lines.push("\n");
        push_meaning(alloc, &mut lines, pattern)?;
    }
    Ok(lines.end()?)
}

/// Adds the lines on what a spec means.
fn push_meaning(alloc: Global, lines: &mut Text, pattern: &Pattern) -> Result<(), Failure> {
    push_field(lines, "path", pattern.path().as_bytes());
    push_magic(lines, pattern.signature);
    push_name(lines, "mode");
    lines.push(mode_text(pattern.search_mode));
    lines.push("\n");
    push_attributes(lines, &pattern.attributes);
    push_field(lines, "prefix", pattern.prefix_directory().as_bytes());
    push_long_form(lines, pattern)?;
    push_name(lines, "walk");
    push_walk(alloc, lines, pattern)?;
    lines.push("\n");
    Ok(())
}

/// The normal form of the spec with a number.
fn pattern_at<'a>(asked: &'a Asked<'_>, number: usize) -> Option<&'a Pattern> {
    let place = asked.place_of(number);
    asked.search.patterns().nth(place)
}

/// Begins the line of a field.
fn push_name(lines: &mut Text, name: &str) {
    lines.push("  ");
    lines.push(name);
    lines.push_spaces(12usize.saturating_sub(name.len()));
}

/// Adds the line of a text in quotes; none where it is empty.
fn push_field(lines: &mut Text, name: &str, value: &[u8]) {
    if !value.is_empty() {
        push_name(lines, name);
        lines.push_quoted(value);
        lines.push("\n");
    }
}

/// Adds the line of the flags that a spec asks for; none where it asks for none.
fn push_magic(lines: &mut Text, signature: MagicSignature) {
    let mut is_first = true;
    for (flag, name) in FLAGS {
        if signature.contains(flag) {
            if is_first {
                push_name(lines, "magic");
            } else {
                lines.push(", ");
            }
            lines.push(name);
            is_first = false;
        }
    }
    if !is_first {
        lines.push("\n");
    }
}

/// Adds the line of a spec's long form.
fn push_long_form(lines: &mut Text, pattern: &Pattern) -> Result<(), Failure> {
    let long = pattern.to_bstring()?;
    push_field(lines, "long form", long.as_bytes());
    Ok(())
}

/// How a spec's path is compared.
fn mode_text(mode: SearchMode) -> &'static str {
    match mode {
        SearchMode::ShellGlob => "glob; wildcards take slashes",
        SearchMode::PathAwareGlob => "glob; only `**` takes slashes",
        SearchMode::Literal => "literal",
    }
}

/// Adds the line of a list of attributes, as `attr:` takes it; none where the list is empty.
fn push_attributes(lines: &mut Text, attributes: &[Assignment]) {
    if attributes.is_empty() {
        return;
    }
    push_name(lines, "attributes");
    for (at, assignment) in attributes.iter().enumerate() {
        if at > 0 {
            lines.push(" ");
        }
        push_assignment(lines, assignment);
    }
    lines.push("\n");
}

/// Adds an attribute, as `attr:` takes it.
fn push_assignment(lines: &mut Text, assignment: &Assignment) {
    match &assignment.state {
        State::Unset => lines.push("-"),
        State::Unspecified => lines.push("!"),
        State::Set | State::Value(_) => {}
    }
    lines.push_shown(assignment.name.as_bytes().as_bytes());
    if let State::Value(value) = &assignment.state {
        lines.push("=");
        lines.push_shown(value);
    }
}

/// Adds which directories a walk for the spec alone enters at most.
fn push_walk(alloc: Global, text: &mut Text, pattern: &Pattern) -> Result<(), Failure> {
    if pattern.is_excluded() {
        text.push("enters what it doesn't exclude");
        return Ok(());
    }
    let only = only_path(pattern).or(kept_directory(pattern));
    if only.is_some() {
        push_entered(text, only);
        return Ok(());
    }
    let search = search_alone(alloc, pattern)?;
    push_entered(text, search.longest_common_directory());
    Ok(())
}

/// Adds that a walk enters only a directory, if there is one.
fn push_entered(text: &mut Text, directory: Option<BStr<'_>>) {
    match directory {
        Some(directory) => {
            text.push("enters only ");
            text.push_quoted(directory.as_bytes());
            text.push(" and below");
        }
        None => text.push("may enter any directory"),
    }
}

/// The search of a spec alone.
fn search_alone(alloc: Global, pattern: &Pattern) -> Result<Search, Failure> {
    let alone = vec![in alloc; pattern.try_clone()?]?;
    Search::from_specs(alloc, alone, None, BStr::new(b"")).map_err(|_| Failure::Memory)
}

/// The path of a spec that matches only that and what lies below. None where a wildcard or another case could match.
fn only_path(pattern: &Pattern) -> Option<BStr<'_>> {
    let counts_case = !pattern.signature.contains(MagicSignature::ICASE);
    if counts_case && !pattern.is_glob() && !pattern.is_nil() {
        Some(pattern.path())
    } else {
        None
    }
}

/// The prefix directory of a spec without case, where each path that it matches lies below. None where a wildcard in the
/// directory could match another.
fn kept_directory(pattern: &Pattern) -> Option<BStr<'_>> {
    let directory = pattern.prefix_directory();
    let length = directory.as_bytes().len();
    let path = pattern.path();
    let path = path.as_bytes();
    let stem = first_wildcard(path).unwrap_or(path.len());
    let lies_below = path.get(length) == Some(&b'/') && length < stem;
    if length > 0 && lies_below && pattern.signature.contains(MagicSignature::ICASE) {
        Some(directory)
    } else {
        None
    }
}
