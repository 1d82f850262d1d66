//! The set of the subtree excludes that begin with a wildcard: one pass over a directory's path tells whether one of them covers it.
//!
//! Such excludes have an empty head, so that a skip question would ask all of them. Their globs are compared with the path and a
//! slash, and each exclude covers the directory just where its glob matches. No set is asked of a directory that begins with a
//! wildcard byte, since that may be an exclude's text.
ghost use Rattle.std.specs.Prelude.{◌≡◌, ◌+◌, ◌*◌, ◌<◌, ◌≤◌, ◌&&◌, false, not, true, List, None, length, is_some, IfOk, IfSome};
ghost use Rattle.std.specs.Box.{box_value};
ghost use Rattle.pathspec_glob_set.specs.Moves.{AreAlike};
ghost use Rattle.pathspec_glob_set.specs.Sizes.{most_places};
ghost use Rattle.std.specs.List.{list_any};
ghost use Rattle.gix_pathspec.specs.EndBytes.{has_wildcard_at};
ghost use Rattle.gix_pathspec.specs.ExcludeMembers.{AreExcludeMembersOf};
ghost use Rattle.gix_pathspec.specs.ExcludeSets.{member_covers, AreExcludePlacesBeside};
ghost use Rattle.gix_pathspec.specs.Members.{IsScratchOf};
ghost use Rattle.gix_pathspec.specs.Paths.{IsBytes};
ghost use Rattle.gix_pathspec.specs.Reach.{subtree_excludes_of};
ghost use Rattle.gix_pathspec.specs.Room.{exclude_sources, has_exclude_set};
ghost use Rattle.gix_pathspec.specs.Search.{specs_of};
ghost use Rattle.gix_pathspec.specs.SetCounts.{GrowsBy};
ghost use Rattle.gix_pathspec.specs.Sets.{places_of};
ghost use Rattle.gix_pathspec.specs.Specs.{Spec};

use crate::search::counted::CountedHeads;
use crate::search::members::{make_members, room_for, sources};
use crate::search::spec::CompiledSpec;
use crate::search::spec_matching::has_wildcard_at;
use pathspec_glob_set::{GlobSet, SetScratch};
use std::alloc::{AllocError, Global};

/// The set, with the places of all subtree excludes by the heads that are looked for beside the set.
#[derive(Drop)]
pub(crate) struct ExcludeMembers {
    set: GlobSet,
    others: Box<CountedHeads>,
}

impl ExcludeMembers {
    /// Makes a set of the subtree excludes that begin with a wildcard; none where they are more than a set takes.
    /// `others` has the places of all subtree excludes by the heads that are looked for beside the set.
    ///
    /// # Errors
    /// Memory runs out.
    pub(super) fn of_specs(
        alloc: Global,
        specs: &[CompiledSpec],
        others: Box<CountedHeads>,
    ) -> Result<Option<Box<ExcludeMembers>>, AllocError>
        requires enough { has_exclude_set (subtree_excludes_of (specs_of specs.now)) ≡ true }
        requires beside { AreExcludePlacesBeside true
            (subtree_excludes_of (specs_of specs.now)) (box_value others) }
        ensures members { IfOk result (λ made. IfSome made (λ members.
            AreExcludeMembersOf (subtree_excludes_of (specs_of specs.now)) (box_value members))) }
        ensures none { IfOk result (λ made. made ≡ None → most_places
            < places_of (exclude_sources (subtree_excludes_of (specs_of specs.now)))) }
    {
        let globs = make_members(alloc, &sources(alloc, specs)?)?;
        let Some(set) = GlobSet::new(alloc, &globs)? else {
            return Ok(None);
        };
        Ok(Some(Box::new(alloc, ExcludeMembers { set, others })?))
    }

    /// Makes room for the set to read directories in.
    ///
    /// # Errors
    /// Memory runs out.
    pub(super) fn new_scratch(&self, alloc: Global) -> Result<SetScratch, AllocError>
        ensures alike { IfOk result (λ scratch. AreAlike scratch.table.moves self.now.set.moves) }
        ensures unasked { IfOk result (λ scratch. scratch.total ≡ 0) }
    {
        let count = self.set.len();
        self.set.new_scratch(alloc, room_for(count, count))
    }

    /// The heads that are looked for beside the set.
    pub(crate) fn others(&self) -> &CountedHeads
        ensures { result.now ≡ box_value self.now.others }
    {
        &self.others
    }
}

/// Reads a directory by a set of excludes, and tells whether one of them covers it; None where a wildcard byte begins the path, and
/// where the set gives up, which `gave_up` tells.
pub(crate) fn covers_by_set(
    directory: &[u8],
    scratch: &mut SetScratch,
    gave_up: &mut bool,
) -> Option<bool>
    requires going { gave_up.old ≡ false }
    ensures told { is_some result
        ≡ (not (has_wildcard_at directory.now 0) && not gave_up.new) }
    ensures answer { (excludes : List Spec) → IsScratchOf (exclude_sources excludes) scratch.old
        → IsBytes directory.now
        → IfSome result (λ is_covered. is_covered
        ≡ list_any (member_covers directory.now) excludes) }
    ensures gave_up { gave_up.new ≡ true → scratch.new.gave_up ≡ true }
    ensures room { scratch.new.table.moves ≡ scratch.old.table.moves }
    ensures few { GrowsBy ((length directory.now + 1)
        * (length scratch.old.table.moves.wide + 2) + length scratch.old.table.moves.ends.items)
        scratch.old.total scratch.new.total }
{
    if has_wildcard_at(directory, 0) {
        return None;
    }
    scratch.read_directory(directory);
    *gave_up = scratch.gave_up();
    if *gave_up {
        return None;
    }
    Some(scratch.next_of(0).is_some())
}
