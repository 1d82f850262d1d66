//! What was probably meant.
use pathspec_parts::split;
use std::alloc::{AllocError, Global};
use strsim::generic_damerau_levenshtein;

/// A keyword of long magic.
struct Keyword {
    name: &'static str,
    /// How a spec writes it.
    form: &'static str,
    takes_value: bool,
}

const KEYWORDS: &[Keyword] = &[
    Keyword {
        name: "top",
        form: "top",
        takes_value: false,
    },
    Keyword {
        name: "icase",
        form: "icase",
        takes_value: false,
    },
    Keyword {
        name: "exclude",
        form: "exclude",
        takes_value: false,
    },
    Keyword {
        name: "literal",
        form: "literal",
        takes_value: false,
    },
    Keyword {
        name: "glob",
        form: "glob",
        takes_value: false,
    },
    Keyword {
        name: "attr",
        form: "attr:..",
        takes_value: true,
    },
    Keyword {
        name: "prefix",
        form: "prefix:N",
        takes_value: true,
    },
];

/// The longest text that is close to a keyword, in bytes.
const LONGEST: usize = 16;

/// The keyword that a piece is close to: a third of its letters at most are wrong, missing, too many or swapped.
pub(crate) fn close_keyword(
    alloc: Global,
    piece: &[u8],
) -> Result<Option<&'static str>, AllocError> {
    let (written, _) = split::at_first(piece, b':');
    if written.len() > LONGEST {
        return Ok(None);
    }
    let has_value = written.len() < piece.len();
    let name: Vec<u8> = written
        .trim_ascii()
        .iter()
        .map(|byte| byte.to_ascii_lowercase())
        .collect(alloc)?;
    let mut closest = None;
    let mut least = usize::MAX;
    for keyword in KEYWORDS {
        let edits = generic_damerau_levenshtein(alloc, name.as_slice(), keyword.name.as_bytes())?;
        let is_close = edits <= keyword.name.len() / 3 && (keyword.takes_value || !has_value);
        if is_close && edits < least {
            closest = Some(keyword.form);
            least = edits;
        }
    }
    Ok(closest)
}
