//! What a fault says, and what to write instead.
use crate::shown::push_shown;
use pathspec_pattern::Error;
use std::alloc::AllocError;

/// Adds what is wrong to a line, as in ``unknown keyword `foo` ``.
pub(crate) fn push_message(line: &mut String, error: &Error) -> Result<(), AllocError> {
    let (before, after) = words_around(error);
    line.push_str(before)?;
    push_quoted(line, error)?;
    line.push_str(after)?;
    Ok(())
}

/// The words before and after what the message quotes, if it quotes anything.
fn words_around(error: &Error) -> (&'static str, &'static str) {
    match error {
        Error::Empty => ("the spec is empty", ""),
        Error::UnimplementedShort(_) => ("git keeps `", "` free for magic of its own"),
        Error::MissingParen(_) => ("`(` without `)`", ""),
        Error::InvalidKeyword(_) => ("unknown keyword `", "`"),
        Error::LiteralWithGlob(_) => ("`", "` beside the other search mode"),
        Error::SecondAttributes(_) => ("a second list of attributes", ""),
        Error::InvalidPrefix(_) => ("no length of a prefix directory", ""),
        Error::EmptyAttributes => ("`attr:` without an attribute", ""),
        Error::InvalidName(_) => ("`", "` is no name of an attribute"),
        Error::InvalidValueByte(_) => ("no value of an attribute holds `", "`"),
        Error::TrailingEscape(_) => ("a value ends with a lone backslash", ""),
        Error::OutsideRoot(_) => ("the path lies outside of the repository", ""),
        Error::LeavesRepository(_) => ("the path climbs out of the repository", ""),
        Error::NotTruth(_) => ("`", "` is neither true nor false"),
        Error::GlobAndNoGlob => ("globs are both asked for and ruled out", ""),
        Error::Memory => ("out of memory", ""),
    }
}

/// Adds what the message quotes.
fn push_quoted(line: &mut String, error: &Error) -> Result<(), AllocError> {
    match error {
        Error::UnimplementedShort(byte) | Error::InvalidValueByte(byte) => {
            push_shown(line, [*byte].as_slice())?;
        }
        Error::InvalidKeyword(bytes)
        | Error::LiteralWithGlob(bytes)
        | Error::InvalidName(bytes)
        | Error::NotTruth(bytes) => {
            push_shown(line, bytes)?;
        }
        _ => {}
    }
    Ok(())
}

/// What to write instead, for each spec with such a fault; empty where that depends on the spec.
pub(crate) fn advice(error: &Error) -> &'static str {
    match error {
        Error::Empty => "`.` is the directory and all below it",
        Error::UnimplementedShort(_) | Error::Memory => "",
        Error::MissingParen(_) =>
            "`)` ends the keywords: `:(top,icase)src`; the path `:(x` is `./:(x`",
        Error::InvalidKeyword(_) =>
            "keywords: top, icase, exclude, literal, glob, attr:.., prefix:N",
        Error::LiteralWithGlob(_) => "`literal` reads no wildcards, and `glob` does: keep one",
        Error::SecondAttributes(_) =>
            "one list takes them all, with spaces between them: `attr:a -b`",
        Error::InvalidPrefix(_) =>
            "`prefix:3` of `src/a`: 0, the path's length or where a slash stands",
        Error::EmptyAttributes =>
            "`attr:text` set, `attr:-text` unset, `attr:!text` neither, `attr:eol=lf`",
        Error::InvalidName(_) => "names: letters, digits, `.`, `-` and `_`, with no `-` in front",
        Error::InvalidValueByte(_) => "values: letters, digits, `-`, `_`, and a comma as `\\,`",
        Error::TrailingEscape(_) => "a backslash stands before the byte that it escapes: `a\\,b`",
        Error::OutsideRoot(_) => "`:/src` counts from the top of the repository",
        Error::LeavesRepository(_) => "it has more `..` than names before them",
        Error::NotTruth(_) => "true, yes, on, 1; false, no, off, 0",
        Error::GlobAndNoGlob => "set one of GIT_GLOB_PATHSPECS and GIT_NOGLOB_PATHSPECS",
    }
}
