//! A cursor over a tree, the only way to its entries.
ghost use Rattle.std.specs.Prelude.{◌≡◌, IfOk};
ghost use Rattle.pathspec_parts.specs.Cursors.{new_cursor};

use super::{Steps, Tree, Walk};
use bstr::BStr;
use std::alloc::{AllocError, Global};
use std::fmt;
use std::marker::Model;

/// A walk over the entries of a tree, which its caller steers: it goes into the directories that the caller enters.
///
/// A cursor is the only way to the entries. So its trail, [`Walk::entered`], tells which directories were looked into. It
/// can't be copied. Its debug form has its place and its trail.
#[derive(Drop)]
pub struct Cursor<'a> {
    steps: Steps<'a, Tree>,
    /// The path of the entry at which the cursor stands.
    path: Vec<u8>,
}

impl fmt::Debug for Cursor<'_> {
    fn fmt<W: fmt::Write>(&self, f: &mut fmt::Formatter<W>) -> fmt::Result {
        f.debug_struct("Cursor")
            .field("at", &self.steps.at())
            .field("path", &BStr::new(&self.path))
            .field("entered", &self.steps.entered())
            .field("is_new", &self.steps.is_new())
            .finish()
    }
}

impl<'a> Model for Cursor<'a> {
    ghost use Rattle.std.specs.Prelude.{vec_capacity};
    ghost use Rattle.pathspec_parts.specs.Cursors.{CursorContents, KeepsPath};

    ghost Value = { CursorContents };

    ghost view = { λ c. c.steps };

    ghost invariant = { λ c. KeepsPath c.steps c.path.items (vec_capacity c.path) };
}

impl<'a> Cursor<'a> {
    /// Makes a cursor before the first entry. It reserves the bytes of the longest path and a number for each directory: no
    /// later call takes memory.
    ///
    /// # Errors
    /// Memory runs out.
    pub fn new(alloc: Global, tree: &'a Tree) -> Result<Cursor<'a>, AllocError>
        ensures { IfOk result (λ cursor. cursor ≡ new_cursor tree.now.entries) }
    {
        let path = Vec::with_capacity(alloc, tree.longest())?;
        let steps = Steps::new(alloc, tree)?;
        Ok(Cursor { steps, path })
    }
}

impl<'a> Walk for Cursor<'a> {
    type Place = usize;

    ghost number = { λ es n. n };

    ghost contents = { λ it. it };

    /// Goes to the next entry, and looks at the bytes of its name. An entry that is passed over costs no look.
    fn next(&mut self) -> Option<usize> {
        let tree = self.steps.entries();
        let Some(number) = self.steps.next() else {
            self.path.clear();
            return None;
        };
        tree.write_path(number, &mut self.path);
        Some(number)
    }

    fn path(&self) -> BStr<'_> {
        BStr::new(&self.path)
    }

    fn is_dir(&self) -> bool {
        self.steps.is_dir()
    }

    fn enter(&mut self) -> bool {
        self.steps.enter()
    }

    fn entered(&self) -> &[usize] {
        self.steps.entered()
    }

    fn is_new(&self) -> bool {
        self.steps.is_new()
    }
}
