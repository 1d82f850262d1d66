//! The names in a directory.
ghost use Rattle.std.specs.Prelude.{◌≡◌, true, false, IfOk};
ghost use Rattle.std.specs.Ordering.{nat_cmp};
ghost use Rattle.std.specs.Cmp.Lexicographic.{slice_cmp};
ghost use Rattle.std.specs.List.Sorted.{IsSorted, IsPermutation};
ghost use Rattle.pathspec_list.specs.Names.{has_git, kept_names, texts_of};

use std::alloc::{AllocError, Global};

/// Whether `.git` is one of these names, each with the byte 0 at its end.
pub(crate) fn has_git(names: &[u8]) -> bool
    ensures { result ≡ has_git names.now }
{
    names
        .split(|byte| *byte == 0)
        .any(|name| name == b".git".as_slice())
}

/// The names without `.`, `..` and `.git`, in byte order unless they are wanted as they stand. Each stands with the byte 0 at its end.
///
/// # Errors
/// Memory ran out.
pub(crate) fn names_of(
    alloc: Global,
    bytes: &[u8],
    unsorted: bool,
) -> Result<Vec<Vec<u8>>, AllocError>
    ensures kept { IfOk result (λ names.
        IsPermutation (kept_names bytes.now) (texts_of names.items)) }
    ensures as_they_stand { IfOk result (λ names. unsorted ≡ true →
        texts_of names.items ≡ kept_names bytes.now) }
    ensures sorted { IfOk result (λ names. unsorted ≡ false →
        IsSorted (λ x y. slice_cmp nat_cmp x.items y.items) names.items) }
{
    let mut names = kept_names(alloc, bytes)?;
    if unsorted {
        return Ok(names);
    }
    names.sort_unstable();
    Ok(names)
}

/// The names without `.`, `..` and `.git`.
fn kept_names(alloc: Global, bytes: &[u8]) -> Result<Vec<Vec<u8>>, AllocError>
    ensures { IfOk result (λ names. texts_of names.items ≡ kept_names bytes.now) }
{
    let mut names = Vec::new(alloc);
    for name in bytes.split(|byte| *byte == 0) {
        if !matches!(name, b"" | b"." | b".." | b".git") {
            names.push(Vec::from_slice(alloc, name)?)?;
        }
    }
    Ok(names)
}
