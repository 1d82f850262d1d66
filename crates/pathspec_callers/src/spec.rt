//! A caller of `gix_pathspec`.
ghost use Rattle.std.specs.Prelude.{IsTrue};
ghost use Rattle.bstr.specs.BStr.{bstr_bytes};
ghost use Rattle.pathspec_parts.specs.Paths.{is_clean_prefix};
ghost use Rattle.gix_pathspec.specs.Errors.{Computes};
ghost use Rattle.gix_pathspec.specs.Patterns.{pattern_spec};
ghost use Rattle.pathspec_callers.specs.NormalForms.{normal_form_of};

use bstr::BStr;
use gix_pathspec::{Defaults, Error, Pattern};
use std::alloc::Global;

/// The pattern of a text that is given in the directory `prefix` of the repository at `root`.
///
/// # Errors
/// The errors of [`Pattern::from_bytes`] and of [`Pattern::normalize`].
pub fn pattern_in(
    alloc: Global,
    text: &[u8],
    defaults: Defaults,
    prefix: BStr<'_>,
    root: BStr<'_>,
) -> Result<Pattern, Error>
    requires { IsTrue (is_clean_prefix (bstr_bytes prefix)) }
    ensures { Computes pattern_spec
        (normal_form_of defaults (bstr_bytes prefix.entry) (bstr_bytes root.entry) text.now)
        result }
{
    let mut pattern = Pattern::from_bytes(alloc, text, defaults)?;
    pattern.resolve(prefix, root)?;
    Ok(pattern)
}
