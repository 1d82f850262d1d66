//! A caller of the stem tables of `pathspec_heads`.
ghost use Rattle.std.specs.Prelude.{◌≡◌, Some, true, IfOk};
ghost use Rattle.std.specs.List.{list_any};
ghost use Rattle.pathspec_heads.specs.Tables.{stem_reaches};

use pathspec_heads::tables::{SpecStem, StemTable};
use std::alloc::{AllocError, Global};

/// Whether one of the stems reaches a directory.
pub fn reaches_directory(
    alloc: Global,
    stems: &[SpecStem<'_>],
    path: &[u8],
) -> Result<bool, AllocError>
    ensures { IfOk result (λ reached. reached
        ≡ list_any (λ stem. stem_reaches stem path.now (Some true)) stems.now) }
{
    let table = StemTable::new(alloc, stems)?;
    Ok(table.reaches(path, Some(true)))
}
