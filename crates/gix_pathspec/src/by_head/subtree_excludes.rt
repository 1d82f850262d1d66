//! Subtree excludes by their heads: the excludes that a skip question asks one by one, since no table answers for them.
ghost use Rattle.std.specs.Prelude.{◌≡◌, ◌+◌, ◌*◌, ◌≤◌, Bool, true, false, List, All, length, is_some, IfSome};
ghost use Rattle.std.specs.Option.{ForSome};
ghost use Rattle.std.specs.List.{list_any};
ghost use Rattle.std.specs.Box.{box_value};
ghost use Rattle.bstr.specs.BStr.{bstr_bytes};
ghost use Rattle.pathspec_glob.specs.Counts.{Counts};
ghost use Rattle.gix_pathspec.specs.Specs.{Spec};
ghost use Rattle.gix_pathspec.specs.Candidates.{HasSameMoves};
ghost use Rattle.gix_pathspec.specs.EndBytes.{has_wildcard_at};
ghost use Rattle.gix_pathspec.specs.ExcludeMembers.{AreExcludeMembersOf};
ghost use Rattle.gix_pathspec.specs.ExcludeSets.{covers_beside, exclude_count_beside, member_covers, AreExcludePlacesBeside, AreExcludesBeside, AreHeadsBeside};
ghost use Rattle.gix_pathspec.specs.Members.{HasGivenUp, IsScratchOf};
ghost use Rattle.gix_pathspec.specs.Paths.{IsBytes};
ghost use Rattle.gix_pathspec.specs.Room.{exclude_set_sources, exclude_sources, tokens_of, MemberSource};
ghost use Rattle.gix_pathspec.specs.SetCounts.{set_total, GrowsBy};
ghost use Rattle.gix_pathspec.specs.SkipCounts.{CountsSteps, IsExcludeCounted, IsExcludeSetCounted, KeepsAsked, KeepsSetCounts};
ghost use Rattle.gix_pathspec.specs.Sets.{places_of, IsSetMade};
ghost use Rattle.gix_pathspec.specs.SubtreeExcludes.{AreExcludePlaces, covers, subtree_exclude_count};

use crate::by_head::{Scratch, growth, set_total};
use crate::search::counted::{CountedExcludes, CountedHeads, SpecScratch};
use crate::search::exclude_members::{ExcludeMembers, covers_by_set};
use bstr::BStr;
use pathspec_glob_set::SetScratch;
use std::marker::Model;

/// Subtree excludes with their places by their heads. No question writes to them.
#[derive(Drop)]
pub(crate) struct ExcludesByHead {
    excludes: CountedExcludes,
    heads: Box<CountedHeads>,
    /// The set of those that begin with a wildcard, where they are four or more.
    members: Option<Box<ExcludeMembers>>,
}

impl Model for ExcludesByHead {
    ghost use Rattle.std.specs.Prelude.{List};
    ghost use Rattle.std.specs.Box.{box_value};
    ghost use Rattle.gix_pathspec.specs.Specs.{Spec};
    ghost use Rattle.std.specs.Option.{option_map};
    ghost use Rattle.gix_pathspec.specs.ExcludeMembers.{AreExcludesByHead};

    ghost Value = { List Spec };

    ghost view = { λ t. t.excludes };

    ghost invariant = { λ t. AreExcludesByHead t.excludes (box_value t.heads)
        (option_map box_value t.members) };
}

impl ExcludesByHead {
    /// Puts excludes together with their places and their set.
    pub(crate) fn new(
        excludes: CountedExcludes,
        heads: Box<CountedHeads>,
        members: Option<Box<ExcludeMembers>>,
    ) -> ExcludesByHead
        requires places { AreExcludePlaces excludes (box_value heads) }
        requires members { ForSome members (λ set. AreExcludeMembersOf excludes (box_value set)) }
        requires made { IsSetMade (exclude_set_sources excludes) → is_some members ≡ true }
        ensures { result ≡ excludes }
    {
        ExcludesByHead {
            excludes,
            heads,
            members,
        }
    }

    /// The set of those that begin with a wildcard, if there is one.
    pub(crate) fn members(&self) -> Option<&ExcludeMembers>
        ensures members { ForSome result (λ set. AreExcludeMembersOf self.now set.now) }
        ensures made { IsSetMade (exclude_set_sources self.now) → is_some result ≡ true }
    {
        match &self.members {
            Some(members) => Some(&**members),
            None => None,
        }
    }

    /// Whether one of the excludes covers the directory. Their set reads it first, if there is one. The call asks only those beside
    /// the set whose head begins the directory, up to the first that covers it, and counts all that it asks, compares and steps.
    pub(crate) fn covers(&self, directory: BStr<'_>, scratch: &mut Scratch) -> bool
        requires room { All (λ s. tokens_of s ≤ scratch.old.room.tokens) self.now }
        requires set { scratch.old.room.excludes ≡ exclude_set_sources self.now }
        requires tested { scratch.old.counts.last_tested ≡ 0 }
        requires compared { scratch.old.counts.last_compared ≡ 0 }
        ensures answer { result
            ≡ list_any (λ s. covers s (bstr_bytes directory.entry)) self.now }
        ensures room { scratch.new.room ≡ scratch.old.room }
        ensures counted { IsExcludeCounted self.now (bstr_bytes directory.entry)
            scratch.old.counts scratch.new.counts }
        ensures by_set { IsExcludeSetCounted true self.now (bstr_bytes directory.entry)
            scratch.old.counts scratch.new.counts }
    {
        let path = directory.as_bytes();
        let members = self.members();
        let heads: &CountedHeads = &self.heads;
        let Some(is_covered) = ask_set(members, path, scratch) else {
            return self.covers_by_heads(heads, directory, scratch);
        };
        is_covered || self.covers_by_heads(heads_beside(heads, members), directory, scratch)
    }

    /// Whether an exclude covers the directory, of those that are looked for by these heads. The call asks only those whose head
    /// begins the directory, up to the first that covers it, and counts all that it asks and compares.
    fn covers_by_heads(
        &self,
        heads: &CountedHeads,
        directory: BStr<'_>,
        scratch: &mut Scratch,
    ) -> bool
        requires beside { (is_set_asked : Bool)
            × AreHeadsBeside is_set_asked self.now (bstr_bytes directory) heads.now }
        requires room { All (λ s. tokens_of s ≤ scratch.old.room.tokens) self.now }
        requires none { scratch.old.counts.last_tested ≡ 0 }
        ensures answer { (is_set_asked : Bool)
            → AreHeadsBeside is_set_asked self.now (bstr_bytes directory.entry) heads.now
            → result ≡ list_any (covers_beside is_set_asked (bstr_bytes directory.entry)) self.now }
        ensures room { scratch.new.room ≡ scratch.old.room }
        ensures counted { IsExcludeCounted self.now (bstr_bytes directory.entry)
            scratch.old.counts scratch.new.counts }
        ensures few_beside { (is_set_asked : Bool)
            → AreHeadsBeside is_set_asked self.now (bstr_bytes directory.entry) heads.now
            → scratch.new.counts.last_tested
            ≤ exclude_count_beside is_set_asked self.now (bstr_bytes directory.entry) }
        ensures kept { KeepsSetCounts scratch.old.counts scratch.new.counts }
    {
        let longest = heads.longest_head_of(directory.as_bytes(), &mut scratch.heads);
        scratch.effort.compared = longest.compared;
        match longest.head {
            Some(head) => {
                candidate_covers(
                    &self.excludes,
                    heads,
                    head,
                    &mut scratch.specs,
                    &mut scratch.effort.tested,
                    directory,
                )
            }
            None => false,
        }
    }
}

/// The heads by which excludes are looked for, where a set is asked or isn't.
fn heads_beside<'a>(
    heads: &'a CountedHeads,
    members: Option<&'a ExcludeMembers>,
) -> &'a CountedHeads
    ensures { (excludes : List Spec) → AreExcludePlaces excludes heads.now
        → ForSome members.entry (λ set. AreExcludeMembersOf excludes set.now)
        → AreExcludePlacesBeside (is_some members.entry) excludes result.now }
{
    match members {
        Some(members) => members.others(),
        None => heads,
    }
}

/// Whether an exclude of the set covers the directory, where there is a set and it tells; else None. The scratch counts the steps and
/// looks of the set.
fn ask_set(
    members: Option<&ExcludeMembers>,
    directory: &[u8],
    scratch: &mut Scratch,
) -> Option<bool>
    ensures answer { (excludes : List Spec)
        → scratch.old.room.excludes ≡ exclude_sources excludes → IsBytes directory.now
        → IfSome result (λ is_covered. is_covered
        ≡ list_any (member_covers directory.now) excludes) }
    ensures plain { is_some result ≡ true → has_wildcard_at directory.now 0 ≡ false }
    ensures asked { is_some result ≡ true → is_some members.entry ≡ true }
    ensures room { scratch.new.room ≡ scratch.old.room }
    ensures kept { KeepsAsked scratch.old.counts scratch.new.counts }
    ensures by_set { scratch.new.counts.last_by_set ≡ is_some result }
    ensures counted { CountsSteps directory.now scratch.old.room.excludes
        scratch.old.counts scratch.new.counts }
    ensures told { is_some members.entry ≡ true → IsSetMade scratch.old.room.excludes
        → has_wildcard_at directory.now 0 ≡ false → scratch.new.counts.last_gave_up ≡ false
        → is_some result ≡ true }
{
    let before = set_total(&scratch.exclude_set);
    let mut gave_up = false;
    let told = told_by_set(members, directory, &mut scratch.exclude_set, &mut gave_up);
    scratch.effort.stepped = growth(before, set_total(&scratch.exclude_set));
    scratch.effort.by_set = told.is_some();
    scratch.effort.excludes_gave_up = gave_up;
    told
}

/// Whether an exclude of the set covers the directory, where there is a set and it tells; else None. `gave_up` tells whether the set
/// was to read the directory, and gave up.
fn told_by_set(
    members: Option<&ExcludeMembers>,
    directory: &[u8],
    set: &mut Option<SetScratch>,
    gave_up: &mut bool,
) -> Option<bool>
    requires going { gave_up.old ≡ false }
    ensures told { is_some members.entry ≡ true → is_some set.old ≡ true
        → has_wildcard_at directory.now 0 ≡ false → gave_up.new ≡ false
        → is_some result ≡ true }
    ensures answer { (excludes : List Spec)
        → ForSome set.old (IsScratchOf (exclude_sources excludes)) → IsBytes directory.now
        → IfSome result (λ is_covered. is_covered
        ≡ list_any (member_covers directory.now) excludes) }
    ensures plain { is_some result ≡ true → has_wildcard_at directory.now 0 ≡ false }
    ensures asked { is_some result ≡ true → is_some members.entry ≡ true }
    ensures gave_up { gave_up.new ≡ true → HasGivenUp set.new }
    ensures kept { HasSameMoves set.old set.new }
    ensures few { (sources : List MemberSource) → ForSome set.old (IsScratchOf sources)
        → GrowsBy ((length directory.now + 1) * (places_of sources + 2) + length sources)
        (set_total set.old) (set_total set.new) }
{
    let Some(_members) = members else {
        return None;
    };
    let Some(set) = set else {
        return None;
    };
    covers_by_set(directory, set, gave_up)
}

/// Whether an exclude covers the directory, of those whose head begins the head with this number. Where a set was asked, the answer
/// is of the excludes beside it. `tested` counts those asked.
fn candidate_covers(
    excludes: &CountedExcludes,
    heads: &CountedHeads,
    head: usize,
    scratch: &mut SpecScratch,
    tested: &mut usize,
    directory: BStr<'_>,
) -> bool
    requires beside { (is_set_asked : Bool)
        × AreExcludesBeside is_set_asked excludes.now (bstr_bytes directory) heads.now head }
    requires room { All (λ s. tokens_of s ≤ scratch.old.room.tokens) excludes.now }
    requires none { tested.old ≡ 0 }
    ensures answer { (is_set_asked : Bool)
        → AreExcludesBeside is_set_asked excludes.now (bstr_bytes directory.entry) heads.now head
        → result ≡ list_any (covers_beside is_set_asked (bstr_bytes directory.entry))
        excludes.now }
    ensures room { scratch.new.room ≡ scratch.old.room }
    ensures counted { Counts scratch.old.tested tested.new scratch.new.tested }
    ensures few { tested.new ≤ subtree_exclude_count excludes.now (bstr_bytes directory.entry) }
    ensures few_beside { (is_set_asked : Bool)
        → AreExcludesBeside is_set_asked excludes.now (bstr_bytes directory.entry) heads.now head
        → tested.new ≤ exclude_count_beside is_set_asked excludes.now (bstr_bytes directory.entry) }
{
    let count = excludes.len();
    let mut from = 0;
    while from < count {
        let place = match heads.next_place(head, from) {
            Some(place) => place,
            None => return false,
        };
        *tested += 1;
        if excludes.covers(place, directory, scratch) {
            return true;
        }
        from = place + 1;
    }
    false
}
