//! Attributes of paths as attribute files decide them, each with the file and line of the rule.
use crate::attributes::Attributes;
use crate::explaining::Path;
use crate::text::Text;
use gix_pathspec::Pattern;
use pathspec_explain::Reason;
use pathspec_parts::attributes::StateRef;
use std::alloc::{AllocError, Global};

/// An attribute of a path, as attribute files decide it.
#[derive(Drop)]
pub(crate) struct Decided {
    pub(crate) name: Vec<u8>,
    /// The state in words, as `is set`.
    pub(crate) state: String,
    /// The file and the line of the rule that decides it. None where no rule speaks of it.
    pub(crate) rule: Option<RulePlace>,
}

/// The file and the line of a rule.
#[derive(Drop)]
pub(crate) struct RulePlace {
    pub(crate) file: String,
    /// The number of the line, from 1.
    pub(crate) line: usize,
}

/// The attributes that a reason of a spec speaks of, as attribute files decide them. None where rows do.
///
/// # Errors
/// Memory ran out.
pub(crate) fn decided_attributes(
    alloc: Global,
    attributes: &mut Attributes<'_>,
    pattern: &Pattern,
    reason: Reason,
    path: Path<'_>,
) -> Result<Vec<Decided>, AllocError> {
    let mut decided = Vec::new(alloc);
    if let Attributes::Directory(directory) = attributes {
        for (at, listed) in pattern.attributes.iter().enumerate() {
            if speaks_of(reason, at) {
                decided.push(directory.decided(alloc, path, listed)?)?;
            }
        }
    }
    Ok(decided)
}

/// Whether a reason speaks of the attribute at a place of its spec's list.
fn speaks_of(reason: Reason, at: usize) -> bool {
    match reason {
        Reason::Matches(_) => true,
        Reason::OtherState(other) => at == other,
        _ => false,
    }
}

/// Adds an attribute in words, as `the attribute 'x' is set (a/.gitattributes:3)`.
pub(crate) fn push_decided(text: &mut Text, decided: &Decided) {
    let Some(RulePlace { file, line }) = &decided.rule else {
        text.push("no rule speaks of the attribute ");
        text.push_quoted(&decided.name);
        return;
    };
    text.push("the attribute ");
    text.push_quoted(&decided.name);
    text.push(" ");
    text.push(decided.state.as_str());
    text.push(" (");
    text.push(file.as_str());
    text.push(":");
    text.push_number(*line);
    text.push(")");
}

/// A state in words.
///
/// # Errors
/// Memory ran out.
pub(crate) fn state_words(alloc: Global, state: StateRef<'_>) -> Result<String, AllocError> {
    let mut words = Text::new(alloc);
    match state {
        StateRef::Set => words.push("is set"),
        StateRef::Unset => words.push("is unset"),
        StateRef::Unspecified => words.push("is unspecified"),
        StateRef::Value(value) => {
            words.push("is ");
            words.push_quoted(value);
        }
    }
    words.end()
}
