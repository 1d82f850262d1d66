//! Callers of `pathspec_walk` and `pathspec_select`.
ghost use Rattle.std.specs.Prelude.{◌≡◌, [], Some, map, string_bytes, IfOk};
ghost use Rattle.gix_pathspec.specs.Search.{specs_of};
ghost use Rattle.pathspec_select.specs.Environment.{words_of};
ghost use Rattle.pathspec_select.specs.Choice.{WritesChosen};
ghost use Rattle.pathspec_walk.specs.Walks.{chosen_entries};

use gix_pathspec::Search;
use gix_pathspec::attributes::LookUp;
use pathspec_parts::tree::{Cursor, Tree};
use pathspec_select::{Environment, Refusal, run};
use pathspec_walk::{SelectError, select};
use std::alloc::Global;

/// The lines of a listing that the words' specs choose.
///
/// # Errors
/// [`Refusal`], as [`run`] tells it.
pub fn chosen_lines(
    alloc: Global,
    words: &[String],
    environment: &Environment,
    listing: &[u8],
) -> Result<Vec<u8>, Refusal>
    ensures { IfOk result (λ lines. WritesChosen (map string_bytes words.now)
        (words_of environment.now) (Some listing.now) (Some []) (Some lines.items)) }
{
    let mut reader = listing;
    let mut lines = Vec::new(alloc);
    run(alloc, words, environment, &mut reader, &mut lines)?;
    Ok(lines)
}

/// The numbers of the entries of a tree that a search chooses.
///
/// # Errors
/// [`SelectError`], as [`select`] tells it.
pub fn chosen_entries<L: LookUp>(
    alloc: Global,
    tree: &Tree,
    search: &Search,
    look_up: &mut L,
) -> Result<Vec<usize>, SelectError<L::Fault>>
    ensures { IfOk result (λ given. given.items ≡ chosen_entries
        (L.table look_up.old) (specs_of search.now.specs) tree.now.entries) }
{
    let Ok(mut cursor) = Cursor::new(alloc, tree) else {
        return Err(SelectError::Memory);
    };
    select(alloc, &mut cursor, search, look_up)
}
