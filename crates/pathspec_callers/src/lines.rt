//! A caller of `gix_pathspec` that reads a search from the lines of a file, and reports the line at fault.
ghost use Rattle.std.specs.Prelude.{◌≡◌, Ok, IfOk, IfErr, IsTrue};
ghost use Rattle.bstr.specs.BStr.{bstr_bytes};
ghost use Rattle.bstr.specs.Owned.{bstring_bytes};
ghost use Rattle.pathspec_parts.specs.Paths.{is_clean_prefix};
ghost use Rattle.gix_pathspec.specs.Reading.{no_defaults};
ghost use Rattle.gix_pathspec.specs.Lines.{search_of_lines};
ghost use Rattle.pathspec_callers.specs.Reports.{report_of, ReportsFault};

use bstr::{BStr, BString};
use gix_pathspec::{BuildError, Defaults, Error, Search};
use std::alloc::{AllocError, Global};

/// The reason why the lines of a file make no search.
#[derive(Debug, Drop)]
pub enum LinesError {
    /// The report for the first line at fault, as an editor or a CI run prints it, with lines counted from 1:
    /// `specs:3: InvalidKeyword`.
    Report(BString),
    /// Memory ran out.
    Memory,
}

impl From<AllocError> for LinesError {
    ghost use Rattle.pathspec_callers.specs.declared.lines.LinesError.TheVariants.{Memory};

    ghost from_gives = { λ _ e. e ≡ Memory };

    fn from(_: AllocError) -> LinesError {
        LinesError::Memory
    }
}

/// Makes the search of the specs on the lines of a file, which are given in the directory `prefix` of a repository. Its
/// `source` is the file's name.
///
/// # Errors
/// [`LinesError`].
pub fn search_of_file(
    alloc: Global,
    name: BStr<'_>,
    text: &[u8],
    prefix: BStr<'_>,
    root: BStr<'_>,
) -> Result<Search, LinesError>
    requires { IsTrue (is_clean_prefix (bstr_bytes prefix)) }
    ensures search { IfOk result (λ search. search_of_lines no_defaults (bstr_bytes prefix.entry)
        (bstr_bytes root.entry) text.now ≡ Ok search.specs) }
    ensures report { IfErr result (ReportsFault (bstr_bytes name.entry) (search_of_lines
        no_defaults (bstr_bytes prefix.entry) (bstr_bytes root.entry) text.now)) }
{
    match Search::from_lines(alloc, text, name, Defaults::default(), Some(prefix), root) {
        Ok(search) => Ok(search),
        Err(BuildError::Spec(number, error)) => {
            Err(LinesError::Report(report(alloc, name, number, &error)?))
        }
        Err(BuildError::Memory) => Err(LinesError::Memory),
    }
}

/// The report for the line of a file with a number, from 0.
fn report(
    alloc: Global,
    name: BStr<'_>,
    number: usize,
    error: &Error,
) -> Result<BString, AllocError>
    ensures { IfOk result (λ text.
        bstring_bytes text ≡ report_of (bstr_bytes name.entry) number error.now) }
{
    let line = number as u128 + 1;
    let place = format!(in alloc; ":{line}: {}", error.kind())?;
    let mut report = Vec::from_slice(alloc, name.as_bytes())?;
    report.extend_from_slice(place.as_bytes())?;
    Ok(BString::new(report))
}
