//! Reasons in words.
use crate::decided::{Decided, push_decided};
use crate::text::Text;
use gix_pathspec::Pattern;
use gix_pathspec::search::MatchKind;
use pathspec_explain::Reason;
use pathspec_glob::first_wildcard;
use std::alloc::{AllocError, Global};

/// Why a spec matches a path or doesn't, as `its glob matches`. Attributes of which the reason speaks may be decided by rules.
///
/// # Errors
/// Memory ran out.
pub(crate) fn reason_text(
    alloc: Global,
    reason: Reason,
    pattern: &Pattern,
    decided: &[Decided],
) -> Result<String, AllocError> {
    let mut text = Text::new(alloc);
    match reason {
        Reason::Matches(kind) => push_match(&mut text, kind, decided),
        Reason::NoStates => text.push("no attributes are known of the path"),
        Reason::OnlyDirectory(_) => text.push("its path fits only a directory"),
        Reason::WithoutCase(_) => text.push("its path fits only without case"),
        Reason::GlobFails => text.push("its glob doesn't match"),
        Reason::OtherState(place) => match decided.first() {
            Some(own) => push_decided(&mut text, own),
            None => push_state(&mut text, pattern, place),
        },
        Reason::OutsidePrefix(_) => push_prefix(&mut text, pattern),
        Reason::Parts(_) => push_front(&mut text, pattern),
    }
    text.end()
}

/// Adds how a spec matches, and by which rules a path has the attributes that it lists.
fn push_match(text: &mut Text, kind: MatchKind, decided: &[Decided]) {
    text.push(match kind {
        MatchKind::Always => "it matches every path",
        MatchKind::Prefix => "it lies below",
        MatchKind::WildcardMatch => "its glob matches",
        MatchKind::Verbatim => "it is the path",
    });
    for own in decided {
        text.push("; ");
        push_decided(text, own);
    }
}

/// Adds the attribute at a place of a spec's list, of which the path has another state.
fn push_state(text: &mut Text, pattern: &Pattern, place: usize) {
    match pattern.attributes.get(place) {
        Some(assignment) => {
            text.push("the attribute ");
            text.push_quoted(assignment.name.as_bytes().as_bytes());
        }
        None => text.push("an attribute"),
    }
    text.push(" has another state");
}

/// Adds the prefix directory of a spec, in which alone it matches.
fn push_prefix(text: &mut Text, pattern: &Pattern) {
    text.push("it begins with ");
    text.push_quoted(pattern.prefix_directory().as_bytes());
    text.push(", compared with case, and the path doesn't");
}

/// Adds what each path that a spec matches begins with.
fn push_front(text: &mut Text, pattern: &Pattern) {
    let path = pattern.path();
    let path = path.as_bytes();
    if pattern.is_glob() {
        let stem = first_wildcard(path).unwrap_or(path.len()).min(path.len());
        text.push("it begins with ");
        text.push_quoted(&path[..stem]);
        text.push(", and the path doesn't");
    } else {
        text.push("the path is neither ");
        text.push_quoted(path);
        text.push(" nor below it");
    }
}
