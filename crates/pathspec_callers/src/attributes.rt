//! Callers of `pathspec_parts`.
ghost use Rattle.std.specs.Prelude.{◌≡◌, false, is_some, IfOk};
ghost use Rattle.bstr.specs.BStr.{bstr_bytes};
ghost use Rattle.pathspec_parts.specs.Outcomes.{names_of, question_of, reply_of};
ghost use Rattle.pathspec_parts.specs.Paths.{strip_root};

use bstr::BStr;
use pathspec_parts::attributes::{Case, LookUp, Outcome};
use pathspec_parts::path;

/// Asks for the attributes of a file. The outcome may be one of an earlier question.
///
/// # Errors
/// The fault of the look-up.
pub fn ask_of_file<L: LookUp>(
    look_up: &mut L,
    file: BStr<'_>,
    out: &mut Outcome,
) -> Result<bool, L::Fault>
    ensures answer { let path = bstr_bytes file.entry in
        let question = question_of path Case.Sensitive false out.old in
        IfOk result (λ found. reply_of found out.new ≡ L.table look_up.old question) }
    ensures names_stay { names_of out.new ≡ names_of out.old }
{
    out.reset();
    look_up.look_up(file, Case::Sensitive, false, out)
}

/// Whether a path lies in the directory of a root, or is that directory.
pub fn is_inside(file: BStr<'_>, root: BStr<'_>) -> bool
    ensures { result ≡ is_some (strip_root (bstr_bytes root.entry) (bstr_bytes file.entry)) }
{
    path::strip_root(file, root).is_some()
}
