//! What searches answer: what settles a path, and what a walk does there.
ghost use Rattle.std.specs.Prelude.{IfOk};
ghost use Rattle.std.specs.Box.{box_value};
ghost use Rattle.gix_pathspec.specs.Room.{Fits};

use bstr::BStr;
use gix_pathspec::Search;
use gix_pathspec::attributes::LookUp;
use gix_pathspec::search::{MatchKind, Scratch, Visit};
use pathspec_test_support::look_ups::Marks;
use std::alloc::{AllocError, Global};
use std::test::Fail;

/// The number and the kind of a match, if there is one.
pub type Settled = Option<(usize, MatchKind)>;

/// The number and the kind of the match that settles a path.
pub fn settled(search: &mut Search, path: &[u8], is_dir: Option<bool>) -> Result<Settled, Fail> {
    let path = BStr::new(path);
    match search.pattern_matching_relative_path(path, is_dir, &mut Marks::new())? {
        Some(found) => Ok(Some((found.sequence_number, found.kind))),
        None => Ok(None),
    }
}

/// The number and the kind of the match that settles a path, in a scratch; None where the look-up fails.
pub fn settled_in<L: LookUp>(
    search: &Search,
    path: &[u8],
    is_dir: Option<bool>,
    scratch: &mut Scratch,
    look_up: &mut L,
) -> Result<Option<Settled>, Fail> {
    if !search.fits(scratch) {
        return Err("the scratch doesn't fit the search".into());
    }
    Ok(
        match search.settle(BStr::new(path), is_dir, scratch, look_up) {
            Ok(Some(found)) => Some(Some((found.sequence_number, found.kind))),
            Ok(None) => Some(None),
            Err(_) => None,
        },
    )
}

/// A scratch of a search, boxed as the searches of the tests are.
pub fn scratch_of(alloc: Global, search: &Search) -> Result<Box<Scratch>, AllocError>
    ensures { IfOk result (λ scratch. Fits search.now.specs (box_value scratch)) }
{
    Ok(Box::new(alloc, search.new_scratch(alloc)?)?)
}

/// A walk's decision on a path, in a scratch of the search's, by marks that no path has.
pub fn visited(
    search: &Search,
    path: &[u8],
    is_dir: bool,
    scratch: &mut Scratch,
) -> Result<Visit, Fail> {
    if !search.fits(scratch) {
        return Err("the scratch doesn't fit the search".into());
    }
    Ok(search.visit(BStr::new(path), is_dir, scratch, &mut Marks::new())?)
}
