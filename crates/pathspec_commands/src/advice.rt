//! Lines of advice on mistakes that are no faults.
use crate::asked::Asked;
use crate::spec_texts::{Origin, SpecText};
use pathspec_filter::Counts;

/// What a filter was given and did.
#[derive(Clone, Copy)]
pub(crate) struct Situation<'a> {
    /// The first bytes of the input.
    pub(crate) front: &'a [u8],
    /// A record stands in git's quotes.
    pub(crate) has_quoted_record: bool,
    pub(crate) separator: u8,
    /// None where it ended early.
    pub(crate) counts: Option<Counts>,
    /// Specs list attributes, and no path has any.
    pub(crate) lacks_attributes: bool,
}

impl Situation<'_> {
    /// Whether there are records, and none of them was selected.
    pub(crate) fn selects_nothing(&self) -> bool {
        self.counts
            .is_some_and(|counts| counts.records > 0 && counts.selected == 0)
    }
}

/// What was probably meant otherwise, a line each with its line feed. Empty where nothing tells.
pub(crate) fn advice(situation: &Situation<'_>) -> [&'static str; 3] {
    [
        separator_advice(situation),
        record_advice(situation),
        attribute_advice(situation.lacks_attributes),
    ]
}

/// On a listing whose records end with another byte.
fn separator_advice(situation: &Situation<'_>) -> &'static str {
    if situation.separator == 0 {
        let is_one = situation.counts.is_some_and(|counts| counts.records == 1);
        if is_one && situation.front.contains(&b'\n') {
            return "advice: the input has line feeds and no byte 0: leave out `-z`?\n";
        }
        return "";
    }
    if situation.front.contains(&0) {
        return "advice: the input has bytes 0: `-z`?\n";
    }
    ""
}

/// On records in git's quotes, and where nothing was selected, on those that end with a carriage return.
fn record_advice(situation: &Situation<'_>) -> &'static str {
    if situation.has_quoted_record {
        return "advice: records stand in quotes: use `git ls-files -z` and `pathspec filter -z`\n";
    }
    let is_none = situation.separator != 0 && situation.selects_nothing();
    if is_none && has_carriage_return(situation.front) {
        return "advice: records end with a carriage return, which is part of their paths\n";
    }
    ""
}

/// On specs with attributes, where no path has any.
pub(crate) fn attribute_advice(lacks_attributes: bool) -> &'static str {
    if lacks_attributes {
        "advice: a spec lists attributes, and no path has any: `--attributes .`?\n"
    } else {
        ""
    }
}

/// On specs that may say something else than what was meant, where they select nothing. `directory` is the one that `list` was
/// given, or empty; `may_lie_below` says whether the paths may be taken from below the top of the repository.
pub(crate) fn spec_advice(asked: &Asked<'_>, directory: &str, may_lie_below: bool) -> &'static str {
    if asked.texts.iter().any(begins_with_mark) {
        return "advice: a file of specs begins with a byte order mark, which is part of its first spec\n";
    }
    if asked.texts.iter().any(ends_with_blank) {
        return "advice: a line of a file of specs ends with a blank, which is part of its spec\n";
    }
    if repeats_directory(&asked.texts, directory) {
        return "advice: specs are taken from DIR: leave its name out of them?\n";
    }
    if may_lie_below && asked.counts_from_top {
        return "advice: a spec counts from the top of the repository: do the paths?\n";
    }
    ""
}

/// Whether a spec begins a file and has a byte order mark before it.
fn begins_with_mark(spec: &SpecText<'_>) -> bool {
    matches!(spec.origin, Origin::Line(_, 1)) && spec.text.starts_with(b"\xef\xbb\xbf")
}

/// Whether a spec of a file has a blank at its end.
fn ends_with_blank(spec: &SpecText<'_>) -> bool {
    matches!(spec.origin, Origin::Line(..)) && matches!(spec.text.last(), Some(b' ' | b'\t'))
}

/// Whether a spec names a directory from which specs are taken, or what lies in it.
fn repeats_directory(specs: &[SpecText<'_>], directory: &str) -> bool {
    let name = directory.as_bytes();
    let name = name.strip_suffix(b"/").unwrap_or(name);
    specs.iter().any(|spec| match spec.text.strip_prefix(name) {
        Some(behind) => !name.is_empty() && matches!(behind, [] | [b'/', ..]),
        None => false,
    })
}

/// Whether a line ends with a carriage return.
fn has_carriage_return(front: &[u8]) -> bool {
    front.windows(2).any(|pair| pair == b"\r\n".as_slice())
}
