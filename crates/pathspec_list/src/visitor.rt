//! Whoever takes what a walk gives.
ghost use Rattle.std.specs.Prelude.{◌≡◌, ℕ, List, [], ◌∷◌, Option};
ghost use Rattle.pathspec_list.specs.Directories.{append_known};
ghost use Rattle.pathspec_list.specs.Listings.{Given};
ghost use Rattle.pathspec_list.specs.ListAnswers.{stops_after_call};

use std::fmt::Debug;

/// Takes what a walk gives and tells, as it comes.
pub trait Visitor<F> {
    /// The reason why a visitor ends the walk.
    type Stop: Debug + Drop;

    /// What it was given, the first one first, if it is known: each path, and whether it is a directory's.
    ghost given: { Self → Option (List Given) };

    /// The paths that couldn't be looked at, as it was told, if they are known.
    ghost told: { Self → Option (List (List ℕ)) };

    /// How often it ended its walk, up to `u64::MAX`, if that is known.
    ghost stops: { Self → Option ℕ };

    /// Takes a path that the walk lists.
    ///
    /// # Errors
    /// The walk is to end.
    fn give(&mut self, path: &[u8], is_dir: bool) -> Result<(), Self::Stop>
        ensures given { given self.new ≡ append_known (given self.old) ((path.now, is_dir) ∷ []) }
        ensures told { told self.new ≡ told self.old }
        ensures stops { stops self.new ≡ stops_after_call (stops self.old) result };

    /// Takes a path that can't be looked at, and why.
    ///
    /// # Errors
    /// The walk is to end.
    fn tell(&mut self, path: &[u8], fault: F) -> Result<(), Self::Stop>
        ensures given { given self.new ≡ given self.old }
        ensures told { told self.new ≡ append_known (told self.old) (path.now ∷ []) }
        ensures stops { stops self.new ≡ stops_after_call (stops self.old) result };
}
