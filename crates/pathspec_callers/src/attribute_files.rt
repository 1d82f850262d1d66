//! Callers of `pathspec_attributes`.
ghost use Rattle.std.specs.Prelude.{◌≡◌, [], true, IfOk};
ghost use Rattle.pathspec_attributes.specs.Files.{file_at, file_of};

use pathspec_attributes::{AttributeFiles, Place};
use std::alloc::{AllocError, Global};

/// The files of a repository that has one at its top alone, and whether git leaves out a line of it.
///
/// # Errors
/// Memory runs out.
pub fn with_top(alloc: Global, text: &[u8]) -> Result<(AttributeFiles, bool), AllocError>
    ensures { IfOk result (λ made.
        file_at made.0.files.directories [] ≡ file_of true text.now) }
{
    let mut files = AttributeFiles::new(alloc)?;
    let left_out = files.add(Place::Directory(b""), text)?;
    Ok((files, !left_out.is_empty()))
}
