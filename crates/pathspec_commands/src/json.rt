//! Explanations as objects (JSON, RFC 8259). The members of an object stand in the order of their names.
use crate::decided::{Decided, RulePlace};
use crate::explaining::{Explainer, Path};
use crate::text::Text;
use gix_pathspec::search::MatchKind;
use pathspec_explain::{Explanation, Reason, Verdict};
use std::alloc::AllocError;
use std::str;

/// Adds the line with the object that explains a path.
///
/// # Errors
/// Memory ran out.
pub(crate) fn push_object(
    text: &mut Text,
    explainer: &mut Explainer<'_, '_>,
    told: Explanation,
    path: Path<'_>,
) -> Result<(), AllocError> {
    text.push("{");
    push_cause(text, explainer, told.verdict, path)?;
    push_name(text, "may_skip");
    text.push(if told.may_skip { "true" } else { "false" });
    push_name(text, "path");
    push_bytes(text, path.record);
    if explainer.all {
        push_name(text, "specs");
        push_specs(text, explainer, path)?;
    }
    push_word(text, "verdict", verdict_name(told.verdict));
    text.push("}\n");
    Ok(())
}

/// Adds the spec that settles a path, or the byte that does, if there is one.
fn push_cause(
    text: &mut Text,
    explainer: &mut Explainer<'_, '_>,
    verdict: Verdict,
    path: Path<'_>,
) -> Result<(), AllocError> {
    match verdict {
        Verdict::Selected(number) | Verdict::Excluded(number) => {
            push_name(text, "by");
            push_spec(text, explainer, number, path)
        }
        Verdict::LacksCommonPrefix(at) => {
            push_number(text, "byte", at);
            Ok(())
        }
        Verdict::NoExcludeMatches | Verdict::NoIncludeMatches => Ok(()),
    }
}

/// Adds the array of all specs.
fn push_specs(
    text: &mut Text,
    explainer: &mut Explainer<'_, '_>,
    path: Path<'_>,
) -> Result<(), AllocError> {
    text.push("[");
    for number in 0..explainer.asked.texts.len() {
        push_comma(text);
        push_spec(text, explainer, number, path)?;
    }
    text.push("]");
    Ok(())
}

/// Adds the object of a spec and why it matches a path or doesn't.
fn push_spec(
    text: &mut Text,
    explainer: &mut Explainer<'_, '_>,
    number: usize,
    path: Path<'_>,
) -> Result<(), AllocError> {
    text.push("{");
    match explainer.reason(number, path)? {
        Some(found) => {
            push_place(text, found.reason);
            push_number(text, "number", number.saturating_add(1));
            push_word(text, "reason", reason_name(found.reason));
            push_rules(text, &found.decided);
            push_source(text, explainer, number);
            push_word(text, "text", found.words.as_str());
        }
        None => {
            push_number(text, "number", number.saturating_add(1));
            push_source(text, explainer, number);
        }
    }
    text.push("}");
    Ok(())
}

/// Adds where a reason lies, and the kind of its match, if it has them.
fn push_place(text: &mut Text, reason: Reason) {
    match reason {
        Reason::Matches(kind) | Reason::OnlyDirectory(kind) | Reason::WithoutCase(kind) => {
            push_word(text, "kind", kind_name(kind));
        }
        Reason::OtherState(at) | Reason::OutsidePrefix(at) | Reason::Parts(at) => {
            push_number(text, "at", at);
        }
        Reason::NoStates | Reason::GlobFails => {}
    }
}

/// Adds the array of the rules that decide attributes, unless there are none.
fn push_rules(text: &mut Text, decided: &[Decided]) {
    if decided.is_empty() {
        return;
    }
    push_name(text, "rules");
    text.push("[");
    for own in decided {
        push_comma(text);
        push_rule(text, own);
    }
    text.push("]");
}

/// Adds the rule that decides an attribute, with the name of the attribute. An attribute of which no rule speaks has no file.
fn push_rule(text: &mut Text, decided: &Decided) {
    text.push("{");
    push_name(text, "attribute");
    push_bytes(text, &decided.name);
    if let Some(RulePlace { file, line }) = &decided.rule {
        push_word(text, "file", file.as_str());
        push_number(text, "line", *line);
    }
    text.push("}");
}

/// Adds a spec as it was given. The prefix, where it stands for no specs, wasn't given.
fn push_source(text: &mut Text, explainer: &Explainer<'_, '_>, number: usize) {
    if let Some(spec) = explainer.asked.texts.get(number) {
        push_name(text, "spec");
        push_bytes(text, &spec.text);
    }
}

/// What settles a path, in a word.
fn verdict_name(verdict: Verdict) -> &'static str {
    match verdict {
        Verdict::Selected(_) => "selected",
        Verdict::Excluded(_) => "excluded",
        Verdict::NoExcludeMatches => "no_exclude_matches",
        Verdict::NoIncludeMatches => "no_include_matches",
        Verdict::LacksCommonPrefix(_) => "lacks_common_prefix",
    }
}

/// A reason in a word.
fn reason_name(reason: Reason) -> &'static str {
    match reason {
        Reason::Matches(_) => "matches",
        Reason::OtherState(_) => "other_state",
        Reason::NoStates => "no_states",
        Reason::OnlyDirectory(_) => "only_directory",
        Reason::OutsidePrefix(_) => "outside_prefix",
        Reason::WithoutCase(_) => "without_case",
        Reason::Parts(_) => "parts",
        Reason::GlobFails => "glob_fails",
    }
}

/// A kind of match in a word.
fn kind_name(kind: MatchKind) -> &'static str {
    match kind {
        MatchKind::Always => "always",
        MatchKind::Prefix => "below",
        MatchKind::WildcardMatch => "glob",
        MatchKind::Verbatim => "same",
    }
}

/// Adds a member whose value is a string.
fn push_word(text: &mut Text, name: &str, value: &str) {
    push_name(text, name);
    push_string(text, value);
}

/// Adds a member whose value is a number.
fn push_number(text: &mut Text, name: &str, value: usize) {
    push_name(text, name);
    text.push_number(value);
}

/// Adds the name of a member of an object. The member's value comes next.
fn push_name(text: &mut Text, name: &str) {
    push_comma(text);
    push_string(text, name);
    text.push(":");
}

/// Adds the comma before a member or an element, unless it is the first: no value ends with an opening bracket.
fn push_comma(text: &mut Text) {
    if !matches!(text.last(), Some(b'{' | b'[')) {
        text.push(",");
    }
}

/// Adds a text as a string, or as the array of its bytes where they aren't UTF-8.
fn push_bytes(text: &mut Text, bytes: &[u8]) {
    match str::from_utf8(bytes) {
        Ok(value) => push_string(text, value),
        Err(_) => push_numbers(text, bytes),
    }
}

/// Adds the array of bytes.
fn push_numbers(text: &mut Text, bytes: &[u8]) {
    text.push("[");
    for byte in bytes {
        push_comma(text);
        text.push_number(usize::from(*byte));
    }
    text.push("]");
}

/// Adds a string (RFC 8259, section 7).
fn push_string(text: &mut Text, value: &str) {
    text.push("\"");
    for character in value.chars() {
        push_escaped(text, character);
    }
    text.push("\"");
}

/// Adds a character of a string.
fn push_escaped(text: &mut Text, character: char) {
    match character {
        '"' => text.push("\\\""),
        '\\' => text.push("\\\\"),
        '\u{8}' => text.push("\\b"),
        '\u{c}' => text.push("\\f"),
        '\n' => text.push("\\n"),
        '\r' => text.push("\\r"),
        '\t' => text.push("\\t"),
        '\0'..='\u{f}' => push_control(text, "\\u000", character),
        '\u{10}'..='\u{1f}' => push_control(text, "\\u001", character),
        _ => text.push_char(character),
    }
}

/// Adds a control character by its number, of which `front` has all but the last digit.
fn push_control(text: &mut Text, front: &str, character: char) {
    text.push(front);
    text.push_char(char::from_digit(u32::from(character) % 16, 16).unwrap_or('0'));
}
