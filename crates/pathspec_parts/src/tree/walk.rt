//! Walks over the entries of a tree, however they are kept.
ghost use Rattle.std.specs.Prelude.{◌≡◌, ◌↔◌, ℕ, List, map, IsTrue};
ghost use Rattle.std.specs.Option.{option_map};
ghost use Rattle.bstr.specs.BStr.{bstr_bytes};
ghost use Rattle.pathspec_parts.specs.Entries.{Entry};
ghost use Rattle.pathspec_parts.specs.Trees.{IsNested, HasBytePaths};
ghost use Rattle.pathspec_parts.specs.Cursors.{CursorContents, next_seen, IsNew, next_number, cursor_at, path_at, is_dir_at, after_enter};

use bstr::BStr;

/// A walk over the entries of a tree, which its caller steers: it goes into the directories that the caller enters.
///
/// Each step names an entry by a place, as an index into what is walked over. Whoever is handed a walk gets to the entries by
/// it alone. So its trail, [`Walk::entered`], tells which directories were looked into. The places of a [`super::Cursor`],
/// which walks over a [`super::Tree`], are the numbers of entries.
pub trait Walk {
    /// A name of an entry, as its number.
    type Place: Copy;

    /// The number that a place has among these entries.
    ghost number: { List Entry → Self.Place → ℕ };

    /// The entries, the one at which the walk stands, and the trail.
    ghost contents: { Self → CursorContents };

    /// Goes to the next entry whose directories were all entered, and gives its place; None at the end, where no entry stands.
    fn next(&mut self) -> Option<Self::Place>
        ensures next { let c = contents self.old in
            option_map (number c.entries) result ≡ next_seen c.entered (next_number c) c.entries }
        ensures place { let c = contents self.old in
            contents self.new ≡ cursor_at c (option_map (number c.entries) result) }
        ensures nested { IsNested (contents self.old).entries }
        ensures bytes { HasBytePaths (contents self.old).entries };

    /// The path of the entry, its names joined by slashes; empty where no entry stands.
    fn path(&self) -> BStr<'_>
        ensures { bstr_bytes result ≡ path_at (contents self.now) };

    /// Whether the entry is a directory; false where no entry stands.
    fn is_dir(&self) -> bool
        ensures { result ≡ is_dir_at (contents self.now) };

    /// Enters the directory, so that the entries in it come next, and writes its place on the trail, once. The answer is
    /// whether there is a directory. Nothing changes at a file, and where no entry stands.
    fn enter(&mut self) -> bool
        ensures entered { contents self.new ≡ after_enter (contents self.old) }
        ensures is_dir { result ≡ is_dir_at (contents self.old) };

    /// The trail: the places of the directories that were entered, in the order of their numbers.
    fn entered(&self) -> &[Self::Place]
        ensures { let c = contents self.now in map (number c.entries) result.now ≡ c.entered };

    /// Whether [`Walk::next`] was never called.
    fn is_new(&self) -> bool
        ensures { IsTrue result ↔ IsNew (contents self.now) };
}
