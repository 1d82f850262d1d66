//! Directories that a walk opens by their paths.
ghost use Rattle.std.specs.Prelude.{◌≡◌, ℕ, List, [], ◌∷◌, Option, map, IfOk};
ghost use Rattle.std.specs.Option.{option_map};
ghost use Rattle.pathspec_parts.specs.Entries.{Entry};
ghost use Rattle.pathspec_list.specs.Directories.{EachAt, IsFoundAt, OfTree, IsTree, append_known, opened_after};

use std::fmt::Debug;

/// Directories below a top, which a walk opens by their paths. The path of the top is empty, and names are joined by slashes.
///
/// They may claim to be those of a tree that stays as it is, and may claim nothing, as those of a disk.
pub trait Directories {
    /// The reason why a path can't be looked at.
    type Fault: Debug + Drop;

    /// The entries below the top, in their order, if they are known and stay.
    ghost tree: { Self → Option (List Entry) };

    /// The paths of the directories that were opened, the first one first, if they are known.
    ghost opened: { Self → Option (List (List ℕ)) };

    /// The paths that were looked at, the first one first, if they are known: one more for each call.
    ghost asked: { Self → Option (List (List ℕ)) };

    /// Opens the directory at a path, and gives the names in it, in the order in which a walk is to come to them. None is given
    /// where something else stands, as a file, or a link to a directory.
    ///
    /// # Errors
    /// Why nothing can be said of what stands at the path.
    fn open(&mut self, path: &[u8]) -> Result<Option<Vec<Vec<u8>>>, Self::Fault>
        ensures found { OfTree (tree self.old) (λ es. IfOk result (λ found.
            IsFoundAt es path.now (option_map (λ v. map (λ name. name.items) v.items) found))) }
        ensures opened { opened self.new ≡ opened_after (opened self.old) path.now result }
        ensures asked { asked self.new ≡ append_known (asked self.old) (path.now ∷ []) }
        ensures tree { OfTree (tree self.old) IsTree }
        ensures tree_stays { tree self.new ≡ tree self.old };

    /// Whether a directory stands at a path. It isn't opened.
    ///
    /// # Errors
    /// As for [`Directories::open`].
    fn is_dir(&mut self, path: &[u8]) -> Result<bool, Self::Fault>
        ensures found { OfTree (tree self.old) (λ es. IfOk result (λ is_dir.
            EachAt es path.now (λ n e. e.is_dir ≡ is_dir))) }
        ensures opened { opened self.new ≡ opened self.old }
        ensures asked { asked self.new ≡ append_known (asked self.old) (path.now ∷ []) }
        ensures tree_stays { tree self.new ≡ tree self.old };
}
