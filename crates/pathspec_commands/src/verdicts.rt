//! What settles the paths that a command explains.
ghost use Rattle.std.specs.Prelude.{◌≢◌, []};
ghost use Rattle.std.specs.Box.{box_value};
ghost use Rattle.bstr.specs.BStr.{bstr_bytes};
ghost use Rattle.gix_pathspec.specs.Room.{Fits};

use crate::attributes::Attributes;
use crate::explaining::Path;
use gix_pathspec::Search;
use gix_pathspec::search::Scratch;
use pathspec_explain::{Explanation, explain};
use std::alloc::{AllocError, Global};

/// A search with the room for its questions, which all paths share: a set of globs gains by each path that it read.
#[derive(Drop)]
pub(crate) struct Verdicts<'s> {
    search: &'s Search,
    scratch: Box<Scratch>,
    ghost fits: { Fits search.now.specs (box_value scratch) },
}

impl<'s> Verdicts<'s> {
    /// A search before its first question.
    ///
    /// # Errors
    /// Memory runs out.
    pub(crate) fn new(alloc: Global, search: &'s Search) -> Result<Verdicts<'s>, AllocError> {
        let scratch = search.boxed_scratch(alloc)?;
        Ok(Verdicts { search, scratch })
    }

    /// What settles a path.
    ///
    /// # Errors
    /// Memory runs out where the attributes are looked up.
    pub(crate) fn verdict(
        &mut self,
        path: Path<'_>,
        attributes: &mut Attributes<'_>,
    ) -> Result<Explanation, AllocError>
        requires { bstr_bytes path.path ≢ [] }
    {
        explain(
            self.search,
            path.path,
            path.is_dir,
            &mut self.scratch,
            attributes,
        )
    }
}
