//! Matching: the spec that settles a path, and the room that a match works in.
ghost use Rattle.std.specs.Prelude.{◌≡◌, ◌≢◌, ◌↔◌, ◌<◌, ◌≤◌, true, All, [], length, is_some, IsTrue, IfOk, OnOk, OnErr};
ghost use Rattle.std.specs.Option.{option_map, ForSome};
ghost use Rattle.bstr.specs.BStr.{bstr_bytes};
ghost use Rattle.pathspec_parts.specs.Attributes.{AsksLookUp};
ghost use Rattle.gix_pathspec.specs.Specs.{is_exclude};
ghost use Rattle.gix_pathspec.specs.Patterns.{pattern_spec};
ghost use Rattle.gix_pathspec.specs.Matching.{is_chosen, IsChosen};
ghost use Rattle.gix_pathspec.specs.Found.{is_directory, answer_found, match_view};
ghost use Rattle.gix_pathspec.specs.Search.{specs_of, answer, selects, IsFresh};
ghost use Rattle.gix_pathspec.specs.Reach.{subtree_excludes_of};
ghost use Rattle.gix_pathspec.specs.Room.{exclude_set_sources, Fits};
ghost use Rattle.gix_pathspec.specs.HeadSets.{AreHeadSetsOf, IsUnread};
ghost use Rattle.gix_pathspec.specs.SetSources.{all_sources};
ghost use Rattle.gix_pathspec.specs.Members.{IsScratchOf};
ghost use Rattle.gix_pathspec.specs.SetCounts.{set_total};
ghost use Rattle.gix_pathspec.specs.Sets.{IsSetMade};
ghost use Rattle.gix_pathspec.specs.Effort.{IsCounted, IsLittleCompared, IsSetCounted, IsBySpec, is_settled_early};
ghost use Rattle.gix_pathspec.specs.SkipLaws.{FoundIsSkipped};
ghost use Rattle.std.specs.Box.{box_value};

use crate::Pattern;
use crate::by_head::SpecsByHead;
use crate::by_head::head_set::HeadSet;
use crate::by_head::subtree_excludes::ExcludesByHead;
use crate::search::counted::SpecScratch;
use crate::search::set_building::{sets_by_head, sets_of_heads};
use crate::search::{MatchKind, Scratch, Search};
use bstr::BStr;
use pathspec_glob_set::SetScratch;
use pathspec_parts::attributes::LookUp;
use std::alloc::{AllocError, Global};

/// The spec that settles a path, and the way in which it matches. Matches compare by their fields in order, patterns by value.
#[derive(Clone, Debug, Drop, PartialEq, Eq, PartialOrd, Ord, Hash)]
pub struct Match<'a> {
    /// The spec that matched, or the nil pattern `:` where no spec settles the path.
    pub pattern: &'a Pattern,
    /// The place of the spec in the list that the search was made from, counted from 0. For the nil pattern it is 0 where the
    /// path is empty, and else the count of specs.
    pub sequence_number: usize,
    /// The way in which the spec matches.
    pub kind: MatchKind,
}

impl<'a> Match<'a> {
    ghost use Rattle.gix_pathspec.specs.Skipping.{found_takes_whole};

    /// Whether the spec is an exclude, so that it takes the path away.
    pub fn is_excluded(&self) -> bool
        ensures { result ≡ is_exclude (pattern_spec self.now.pattern.now) }
    {
        self.pattern.is_excluded()
    }

    /// Whether an exclude takes the matched directory whole, as `:!node_modules` does: it lists no attributes, and didn't
    /// match by its glob. A walk may skip such a directory.
    pub fn takes_whole(&self) -> bool
        ensures { result ≡ found_takes_whole (match_view self.now) }
    {
        let is_by_glob = match self.kind {
            MatchKind::WildcardMatch => true,
            MatchKind::Always | MatchKind::Prefix | MatchKind::Verbatim => false,
        };
        self.is_excluded() && self.pattern.attributes.is_empty() && !is_by_glob
    }
}

impl Search {
    ghost use Rattle.gix_pathspec.specs.Reading.{nil_spec};
    ghost use Rattle.gix_pathspec.specs.SelectionLaws.{SelectsChosen, SelectsCommon, OrderIsFree, ChosenIsTest, FittedBeginsHead, FittedBeginsStem, FittedMatches};

    /// Makes room for matches of the search, with all counts at 0. Each walker that shares a search has a scratch of its own.
    /// The cost is linear in the tokens of the largest glob and in the names of attributes that the specs list.
    ///
    /// The scratch makes a set for each head right behind which four globs or more begin. The tables of all sets take at most some
    /// 9 MiB, and that of a set at most 64 KiB for each of its globs. A set takes time in the order of its places: each token is
    /// asked of each byte. One of more than 131,072 places isn't made, and its specs are asked one by one. Four of the excludes
    /// that [`Search::may_skip`] asks have a set as well.
    ///
    /// # Errors
    /// Memory runs out.
    pub fn new_scratch(&self, alloc: Global) -> Result<Scratch, AllocError>
        ensures fits { IfOk result (Fits self.now.specs) }
        ensures fresh { IfOk result (λ scratch. IsFresh scratch.counts) }
    {
        let sets = sets_of_heads(alloc, self.specs.as_slice(), self.specs.heads())?;
        scratch_for(alloc, &self.specs, sets, &self.excludes)
    }

    /// Makes room for matches as [`Search::new_scratch`] does, in a box: who drops a box needn't prove anew what becomes of its lists.
    ///
    /// # Errors
    /// Memory runs out.
    pub fn boxed_scratch(&self, alloc: Global) -> Result<Box<Scratch>, AllocError>
        ensures fits { IfOk result (λ scratch. Fits self.now.specs (box_value scratch)) }
        ensures fresh { IfOk result (λ scratch. IsFresh (box_value scratch).counts) }
    {
        Ok(Box::new(alloc, self.new_scratch(alloc)?)?)
    }

    /// Whether a scratch has room for matches of the search. One that [`Search::new_scratch`] made for it has. So has one of a
    /// search whose specs list the same attributes and have globs that are no shorter; if some head of either has a set, the globs that
    /// begin right behind their spec's head are the same, and the same of them are excludes that [`Search::may_skip`] asks. The
    /// cost is linear in the names of attributes that the specs list, and in the bytes of those specs.
    pub fn fits(&self, scratch: &Scratch) -> bool
        ensures { IsTrue result ↔ Fits self.now.specs scratch.now }
    {
        let has_sets = self.specs.members().is_some();
        scratch.specs().fits(self.specs.counted(), has_sets)
    }

    /// The spec that settles a path: the first in search order that matches it. A path is selected if that is no exclude
    /// (gitglossary, "pathspec"). Where no spec matches, the nil pattern `:` settles the path if there is no include, and else
    /// nothing does. It also settles the empty path.
    ///
    /// A path is a directory where `is_dir` is `Some(true)`. A directory's path has no slash at its end: `:(glob)s*` matches
    /// the directory `src`, but not `src/`. A match only reads the search, so walkers can share it, each with its own scratch.
    ///
    /// A match takes no memory. It looks at each byte of the common prefix once. It compares a path that begins with it with
    /// at most as many heads as the count of specs has binary digits, and two ([`Scratch::last_compared`]). Then it asks specs
    /// in search order, up to the first that matches, and no more than have a head that begins the path
    /// ([`Scratch::last_tested`]). A spec looks at the path's first and last byte. Then it looks at each byte of its own path
    /// a fixed number of times, and takes its glob's steps. Where it lists attributes and fits, it resets an outcome and asks
    /// the look-up.
    ///
    /// If four globs or more begin right behind the same head, they have a set, as [`Search::new_scratch`] says. One search finds
    /// the sets whose heads begin the path. Each reads what stands behind its head once, from the path's end, before any spec is
    /// asked ([`Scratch::last_stepped`]). It tells which of its specs have a glob that matches, and the others aren't asked. Of the
    /// specs in all sets that list no attributes, aren't for directories alone and keep no prefix directory, at most one is
    /// asked. The sets tell nothing where a wildcard byte stands in the path right behind such a head, nor where one of them
    /// gave up ([`Scratch::last_by_set`], [`Scratch::last_gave_up`]): then heads alone tell.
    ///
    /// # Errors
    /// The look-up's fault, and only where the look-up failed in this call.
    pub fn settle<L: LookUp>(
        &self,
        path: BStr<'_>,
        is_dir: Option<bool>,
        scratch: &mut Scratch,
        look_up: &mut L,
    ) -> Result<Option<Match<'_>>, L::Fault>
        requires { Fits self.now.specs scratch.old }
        ensures answer { IfOk result (λ found. option_map match_view found
            ≡ answer (L.table look_up.old) self.now.specs
            (bstr_bytes path.entry) (is_directory is_dir)) }
        ensures selected { IfOk result (λ found.
            SelectsChosen (L.table look_up.old) self.now.specs
            (bstr_bytes path.entry) (is_directory is_dir) (option_map match_view found)) }
        ensures begins { IfOk result (λ found.
            SelectsCommon self.now.specs (bstr_bytes path.entry) (option_map match_view found)) }
        // The order in which the specs were given doesn't change what is selected.
        ensures order { OrderIsFree }
        // A caller can write the list of chosen paths as a filter by the test `is_chosen`.
        ensures test { ChosenIsTest }
        // A path that a spec fits begins with its head and its stem; a spec without attributes matches what it fits.
        ensures fitted { FittedBeginsHead × FittedBeginsStem × FittedMatches }
        // A walk may skip a directory whose match takes it whole.
        ensures whole { FoundIsSkipped }
        ensures look_up { AsksLookUp (L.table look_up.old) (L.failures look_up.old)
            (L.table look_up.new) (L.failures look_up.new) result }
        ensures room { scratch.new.room ≡ scratch.old.room }

        // Counts each question and each comparison, also where the look-up fails.
        ensures counted { IsCounted self.now.specs (bstr_bytes path.entry)
            scratch.old.counts scratch.new.counts }
        ensures little_compared { IsLittleCompared self.now.specs (bstr_bytes path.entry)
            scratch.new.counts.last_compared }
        ensures looked { IfOk result (λ found.
            IsBySpec self.now.specs (bstr_bytes path.entry) (option_map match_view found)
            → (1 ≤ scratch.new.counts.last_tested) × (1 ≤ scratch.new.counts.last_compared)) }
        ensures unasked { IsTrue (is_settled_early self.now.specs (bstr_bytes path.entry))
            → (scratch.new.counts.last_tested ≡ 0) × (scratch.new.counts.last_compared ≡ 0) }

        // Counts the steps and looks of the sets. They tell which of their specs to ask unless one gives up, and then few are asked.
        ensures by_set { IsSetCounted self.now.specs (bstr_bytes path.entry)
            scratch.old.counts scratch.new.counts }
    {
        let found = self.specs.find_match(path, is_dir, scratch, look_up)?;
        Ok(self.match_found(path, found))
    }

    /// Whether the search selects a path: no exclude matches it and some include does, or there is no include. Every search
    /// selects the empty path. The cost and the paths are those of [`Search::settle`].
    ///
    /// # Errors
    /// The look-up's fault, and only where the look-up failed in this call.
    pub fn is_selected<L: LookUp>(
        &self,
        path: BStr<'_>,
        is_dir: Option<bool>,
        scratch: &mut Scratch,
        look_up: &mut L,
    ) -> Result<bool, L::Fault>
        requires { Fits self.now.specs scratch.old }
        ensures answer { IfOk result (λ selected. selected
            ≡ selects (answer (L.table look_up.old) self.now.specs
            (bstr_bytes path.entry) (is_directory is_dir))) }
        ensures selected { IfOk result (λ selected. bstr_bytes path.entry ≢ []
            → IsTrue selected ↔ IsChosen (L.table look_up.old) (specs_of self.now.specs)
            (bstr_bytes path.entry) (is_directory is_dir)) }
        ensures chosen { IfOk result (λ selected. bstr_bytes path.entry ≢ []
            → selected ≡ is_chosen (L.table look_up.old) (specs_of self.now.specs)
            (bstr_bytes path.entry) (is_directory is_dir)) }
        ensures room { scratch.new.room ≡ scratch.old.room }
        ensures counted { IsCounted self.now.specs (bstr_bytes path.entry)
            scratch.old.counts scratch.new.counts }
        ensures little_compared { IsLittleCompared self.now.specs (bstr_bytes path.entry)
            scratch.new.counts.last_compared }
        ensures by_set { IsSetCounted self.now.specs (bstr_bytes path.entry)
            scratch.old.counts scratch.new.counts }
        ensures look_up { AsksLookUp (L.table look_up.old) (L.failures look_up.old)
            (L.table look_up.new) (L.failures look_up.new) result }
    {
        Ok(selects(&self.settle(path, is_dir, scratch, look_up)?))
    }

    /// The count of specs that the last [`Search::pattern_matching_relative_path`] asked, as [`Scratch::last_tested`] says.
    pub fn last_tested(&self) -> usize
        ensures { result ≡ self.now.counts.last_tested }
    {
        self.scratch.last_tested()
    }

    /// The count of heads that the last [`Search::pattern_matching_relative_path`] compared with the path.
    pub fn last_compared(&self) -> u128
        ensures { result ≡ self.now.counts.last_compared }
    {
        self.scratch.last_compared()
    }

    /// The count of specs that all calls of [`Search::pattern_matching_relative_path`] asked, modulo 2^128.
    pub fn total_tested(&self) -> u128
        ensures { result ≡ self.now.counts.tested }
    {
        self.scratch.total_tested()
    }

    /// The count of heads that all calls of [`Search::pattern_matching_relative_path`] compared, modulo 2^128.
    pub fn total_compared(&self) -> u128
        ensures { result ≡ self.now.counts.compared }
    {
        self.scratch.total_compared()
    }

    /// The match by the spec at the place found, or by the nil pattern, for the empty path or without includes.
    fn match_found(&self, path: BStr<'_>, found: Option<(usize, MatchKind)>) -> Option<Match<'_>>
        requires { ForSome found (λ at. at.0 < length self.now.specs) }
        ensures { option_map match_view result
            ≡ answer_found self.now.specs (bstr_bytes path.entry) found }
    {
        match found {
            Some((place, kind)) => Some(Match {
                pattern: self.specs.as_slice()[place].pattern(),
                sequence_number: self.specs.as_slice()[place].number(),
                kind,
            }),
            None if path.as_bytes().is_empty() => Some(self.nil_match(0)),
            None if self.has_include() => None,
            None => Some(self.nil_match(self.specs.len())),
        }
    }

    /// The match by the nil pattern, which always matches, under a number.
    fn nil_match(&self, number: usize) -> Match<'_>
        ensures { match_view result
            ≡ record { pattern = nil_spec; number = number; kind = MatchKind.Always } }
    {
        Match {
            pattern: &self.nil,
            sequence_number: number,
            kind: MatchKind::Always,
        }
    }

    /// The spec that settles a path, as [`Search::settle`] finds it, by a scratch that the search holds (gix-pathspec's call
    /// of this name). The specs stay, but no clause says so: a proof that goes on with the search takes [`Search::settle`].
    ///
    /// # Errors
    /// The look-up's fault, and only where the look-up failed in this call.
    pub fn pattern_matching_relative_path<L: LookUp>(
        &mut self,
        path: BStr<'_>,
        is_dir: Option<bool>,
        look_up: &mut L,
    ) -> Result<Option<Match<'_>>, L::Fault>
        ensures answer { IfOk result (λ found. option_map match_view found
            ≡ answer (L.table look_up.old) self.old.specs
            (bstr_bytes path.entry) (is_directory is_dir)) }
        ensures selected { IfOk result (λ found.
            SelectsChosen (L.table look_up.old) self.old.specs
            (bstr_bytes path.entry) (is_directory is_dir) (option_map match_view found)) }
        ensures begins { IfOk result (λ found.
            SelectsCommon self.old.specs (bstr_bytes path.entry) (option_map match_view found)) }
        ensures look_up { AsksLookUp (L.table look_up.old) (L.failures look_up.old)
            (L.table look_up.new) (L.failures look_up.new) result }
    {
        let found = self
            .specs
            .find_match(path, is_dir, &mut self.scratch, look_up)?;
        Ok(self.match_found(path, found))
    }
}

/// Whether a search selects a path for which it found this match, or none.
pub(super) fn selects(found: &Option<Match<'_>>) -> bool
    ensures { result ≡ selects (option_map match_view found.now) }
{
    match found {
        Some(found) => !found.is_excluded(),
        None => false,
    }
}

/// Makes room for matches of the specs and for questions to their subtree excludes, with all counts at 0.
fn scratch_for(
    alloc: Global,
    specs: &SpecsByHead,
    sets: Vec<HeadSet>,
    excludes: &ExcludesByHead,
) -> Result<Scratch, AllocError>
    requires sets { AreHeadSetsOf (all_sources specs.now) sets.items }
    requires unread { All IsUnread sets.items }
    requires excludes { excludes.now ≡ subtree_excludes_of (specs_of specs.now) }
    ensures fits { IfOk result (Fits specs.now) }
    ensures fresh { IfOk result (λ scratch. IsFresh scratch.counts) }
{
    let has_sets = specs.members().is_some();
    let room = SpecScratch::for_specs(alloc, specs.counted(), has_sets)?;
    let set_heads = sets_by_head(alloc, &sets)?;
    let exclude_set = exclude_scratch(alloc, excludes)?;
    let set_compares = set_heads.new_scratch();
    let compares = specs.heads().new_scratch();
    Ok(Scratch::new(room, sets, set_heads, set_compares, exclude_set, compares))
}

/// Makes room for the set of the excludes to read directories in, if there is a set.
fn exclude_scratch(
    alloc: Global,
    excludes: &ExcludesByHead,
) -> Result<Option<SetScratch>, AllocError>
    ensures own { IfOk result (λ set.
        ForSome set (IsScratchOf (exclude_set_sources excludes.now))) }
    ensures unasked { IfOk result (λ set. set_total set ≡ 0) }
    ensures made { IfOk result (λ set. IsSetMade (exclude_set_sources excludes.now)
        → is_some set ≡ true) }
{
    match excludes.members() {
        Some(members) => Ok(Some(members.new_scratch(alloc)?)),
        None => Ok(None),
    }
}

/// Makes room for matches of the specs, in a box: whoever drops a search needn't prove anew what becomes of a scratch's lists.
pub(super) fn boxed_scratch(
    alloc: Global,
    specs: &SpecsByHead,
    sets: Vec<HeadSet>,
    excludes: &ExcludesByHead,
) -> Result<Box<Scratch>, AllocError>
    requires sets { AreHeadSetsOf (all_sources specs.now) sets.items }
    requires unread { All IsUnread sets.items }
    requires excludes { excludes.now ≡ subtree_excludes_of (specs_of specs.now) }
    ensures fits { IfOk result (λ scratch. Fits specs.now (box_value scratch)) }
    ensures fresh { IfOk result (λ scratch. IsFresh (box_value scratch).counts) }
{
    Ok(Box::new(alloc, scratch_for(alloc, specs, sets, excludes)?)?)
}
