//! Callers of `pathspec_filter`.
ghost use Rattle.std.specs.Prelude.{◌≡◌, IfOk};
ghost use Rattle.gix_pathspec.specs.Search.{specs_of};
ghost use Rattle.gix_pathspec.specs.Matching.{is_chosen};
ghost use Rattle.pathspec_parts.specs.Records.{records};
ghost use Rattle.pathspec_parts.specs.Outputs.{output_where};

use gix_pathspec::Search;
use gix_pathspec::attributes::LookUp;
use pathspec_filter::{FilterError, LeadingDot, Selection, filter};
use std::alloc::Global;

/// The lines of a listing that a search selects.
///
/// # Errors
/// [`FilterError`], as [`filter`] tells it.
pub fn selected_lines<L: LookUp>(
    alloc: Global,
    search: &Search,
    listing: &[u8],
    look_up: &mut L,
) -> Result<Vec<u8>, FilterError<L::Fault>>
    ensures { IfOk result (λ lines. lines.items ≡ output_where
        (is_chosen (L.table look_up.old) (specs_of search.now.specs)) 10 (records 10 listing.now)) }
{
    let mut reader = listing;
    let mut lines = Vec::new(alloc);
    filter(
        alloc,
        search,
        b'\n',
        Selection {
            leading_dot: LeadingDot::Kept,
            is_inverted: false,
        },
        &mut reader,
        &mut lines,
        look_up,
    )?;
    Ok(lines)
}
