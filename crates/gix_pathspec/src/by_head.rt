//! The specs of a search by their heads: finds the first spec that matches a path.
//!
//! A match stands outside of the module `search`, which alone reads specs and makes scratches. It asks which heads begin a
//! path and how the spec at a place matches it, and the scratch that it borrows counts both. It asks nothing of an empty path,
//! nor of one that lacks the common prefix.
ghost use Rattle.std.specs.Prelude.{◌≡◌, ◌+◌, ◌<◌, ◌≤◌, ◌&&◌, ℕ, Bool, true, false, All, List, Some, length, is_some, IfSome, IsSome, IsTrue, IfOk, OnOk, OnErr};
ghost use Rattle.std.specs.Option.{ForSome};
ghost use Rattle.gix_pathspec.specs.Beside.{ArePlacesBeside};
ghost use Rattle.gix_pathspec.specs.HeadSets.{set_heads, AreHeadSetsOf, IsIdleBeside, IsUnread};
ghost use Rattle.gix_pathspec.specs.SetSources.{all_sources, has_any_set};
ghost use Rattle.std.specs.Box.{box_value};
ghost use Rattle.bstr.specs.BStr.{bstr_bytes};
ghost use Rattle.pathspec_parts.specs.Attributes.{AsksLookUp};
ghost use Rattle.pathspec_glob.specs.Counts.{Counts};
ghost use Rattle.pathspec_heads.specs.Groups.{IsGrouped};
ghost use Rattle.gix_pathspec.specs.Found.{IsFirstFound};
ghost use Rattle.gix_pathspec.specs.Prefixes.{common_prefix};
ghost use Rattle.gix_pathspec.specs.Search.{specs_of, BeginsCounts, IsFresh};
ghost use Rattle.gix_pathspec.specs.Room.{HasRoom, Fits};
ghost use Rattle.gix_pathspec.specs.Paths.{IsBytes};
ghost use Rattle.gix_pathspec.specs.Attributes.{Table};
ghost use Rattle.gix_pathspec.specs.Search.{Numbered};
ghost use Rattle.gix_pathspec.specs.Members.{AreMembersOf};
ghost use Rattle.gix_pathspec.specs.Candidates.{AreCandidates, AreNext, KeepsSets};
ghost use Rattle.gix_pathspec.specs.SetCounts.{set_total, GrowsBy};
ghost use Rattle.gix_pathspec.specs.Effort.{ArePlacesOf, candidate_count, unsettled_count, IsCounted, IsLittleCompared, IsSetCounted, is_settled_early};

pub(crate) mod head_set;
mod head_sets;
pub(crate) mod subtree_excludes;

use crate::by_head::head_set::HeadSet;
use crate::by_head::head_sets::{ask_sets, earlier, next_of_sets, rest_sets};
use crate::search::MatchKind;
use crate::search::counted::{CountedHeads, CountedSpecs, SpecScratch};
use crate::search::members::Members;
use crate::search::spec_matching::begins_with;
use bstr::BStr;
use pathspec_glob_set::SetScratch;
use pathspec_heads::places::{CompareScratch, LongestHead};
use pathspec_heads::tables::StemScratch;
use pathspec_parts::attributes::LookUp;
use std::fmt;
use std::marker::Model;

/// The effort of one match or skip question: specs asked, heads compared with the path, and steps and looks of sets.
#[derive(Clone, Copy)]
struct Effort {
    tested: usize,
    compared: usize,
    stepped: u128,
    /// Whether the sets of heads told which of their specs to ask.
    by_set: bool,
    /// Whether the set of a head was to read the path, and gave up.
    gave_up: bool,
    /// Whether the set of the subtree excludes was to read the directory, and gave up.
    excludes_gave_up: bool,
}

/// The effort before a question: no spec asked, no head compared, and no step taken.
const NO_EFFORT: Effort = Effort {
    tested: 0,
    compared: 0,
    stepped: 0,
    by_set: false,
    gave_up: false,
    excludes_gave_up: false,
};

/// The room that a walker's matches and skip questions (`may_skip`) work in, with the counts of what they asked and compared.
///
/// [`Search::new_scratch`](crate::search::Search::new_scratch) makes one. Walkers that share a search have one each. The
/// totals are never set back.
pub struct Scratch {
    specs: SpecScratch,
    /// The sets of heads, which read paths.
    sets: Vec<HeadSet>,
    /// Their numbers, by their heads.
    set_heads: CountedHeads,
    set_compares: CompareScratch,
    /// The steps and looks of the sets and the comparisons of their heads in all matches, modulo 2^128.
    stepped: u128,
    /// Where the set of the subtree excludes reads directories, if there is one.
    exclude_set: Option<SetScratch>,
    heads: CompareScratch,
    // Written by questions whether a directory may be skipped. No call tells its comparisons.
    pub(crate) stems: StemScratch,
    effort: Effort,
}

// Written out, so that whoever drops a scratch needn't prove anew what becomes of its lists.
impl Drop for Scratch {
    fn drop(self) {
        let Scratch {
            specs: _specs,
            sets: _sets,
            set_heads: _set_heads,
            set_compares: _set_compares,
            stepped: _stepped,
            exclude_set: _exclude_set,
            heads: _heads,
            stems: _stems,
            effort: _effort,
        } = self;
    }
}

impl fmt::Debug for Scratch {
    fn fmt<W: fmt::Write>(&self, f: &mut fmt::Formatter<W>) -> fmt::Result {
        f.debug_struct("Scratch")
            .field("last_tested", &self.last_tested())
            .field("last_compared", &self.last_compared())
            .finish()
    }
}

impl Model for Scratch {
    ghost use Rattle.gix_pathspec.specs.Room.{ScratchContents};
    ghost use Rattle.std.specs.Prelude.{◌||◌};
    ghost use Rattle.gix_pathspec.specs.Members.{AreSetsIn};
    ghost use Rattle.gix_pathspec.specs.SetCounts.{sets_total};

    ghost Value = { ScratchContents };

    ghost view = { λ s. record { room = s.specs.room; counts = record { last_tested = s.effort.tested; last_compared = s.effort.compared; last_stepped = s.effort.stepped; last_by_set = s.effort.by_set; last_gave_up = s.effort.excludes_gave_up || s.effort.gave_up; tested = s.specs.tested; compared = s.heads; stepped = sets_total s.stepped s.exclude_set } } };

    ghost invariant = { λ s. AreSetsIn s.specs.room s.sets.items s.set_heads s.set_compares s.stepped s.exclude_set s.effort.excludes_gave_up };
}

impl Scratch {
    ghost use Rattle.gix_pathspec.specs.Members.{IsSetIn};

    /// Makes a scratch of the given room, with all counts at 0.
    pub(crate) fn new(
        specs: SpecScratch,
        sets: Vec<HeadSet>,
        by_head: CountedHeads,
        set_compares: CompareScratch,
        exclude_set: Option<SetScratch>,
        heads: CompareScratch,
    ) -> Scratch
        requires sets { AreHeadSetsOf specs.room.members sets.items }
        requires grouped { IsGrouped (set_heads sets.items)
            by_head.heads by_head.starts by_head.order }
        requires sets_unread { All IsUnread sets.items }
        requires exclude_set { IsSetIn specs.room.excludes exclude_set false }
        requires specs_unasked { specs.tested ≡ 0 }
        requires heads_unasked { (heads ≡ 0) × (set_compares ≡ 0) }
        requires set_unasked { set_total exclude_set ≡ 0 }
        ensures room { result.room ≡ specs.room }
        ensures fresh { IsFresh result.counts }
    {
        Scratch {
            specs,
            sets,
            set_heads: by_head,
            set_compares,
            stepped: 0,
            exclude_set,
            heads,
            stems: StemScratch::new(),
            effort: NO_EFFORT,
        }
    }

    /// The part of the scratch that questions to specs write.
    pub(crate) fn specs(&self) -> &SpecScratch
        ensures { result.now.room ≡ self.now.room }
    {
        &self.specs
    }

    /// Sets the counts of the last call to 0. The totals stay.
    pub(crate) fn begin(&mut self)
        ensures room { self.new.room ≡ self.old.room }
        ensures begun { BeginsCounts self.old.counts self.new.counts }
    {
        self.effort = NO_EFFORT;
    }

    /// The count of specs that the last match asked. A spec whose look-up failed counts, and so does one that the path's first
    /// or last byte rules out. The count is 0 before the first match, and where the path was empty or lacked the common
    /// prefix. After [`Search::may_skip`](crate::search::Search::may_skip) it is the count of excludes asked one by one; those
    /// of a set that told aren't asked.
    pub fn last_tested(&self) -> usize
        ensures { result ≡ self.now.counts.last_tested }
    {
        self.effort.tested
    }

    /// The count of heads of specs that the last match or skip question compared with the path. It is 0 before the first
    /// match, and after a match where the path was empty or lacked the common prefix.
    pub fn last_compared(&self) -> u128
        ensures { result ≡ self.now.counts.last_compared }
    {
        self.effort.compared as u128
    }

    /// The count of steps and looks of sets in the last match or skip question: those of the specs, or that of the excludes. A
    /// set takes a step for each byte that it reads: of what stands in the path behind its head, or of the directory and a
    /// slash. For each cell of its table that it fills it takes one for each of its places, and one more. It looks at each of
    /// its specs once at most, to find those that match. Each head of a set that is compared with the path is counted as well. The count is
    /// 0 where the path was empty or lacked the common prefix, or where the search has no such set.
    pub fn last_stepped(&self) -> u128
        ensures { result ≡ self.now.counts.last_stepped }
    {
        self.effort.stepped
    }

    /// Whether the sets told which of their specs the last match had to ask, or whether one of the excludes in their set covers
    /// the directory of the last skip question. They tell nothing where the path was empty or lacked the common prefix, where
    /// the search has no set, where a wildcard byte stands in the path right behind a set's head that begins it, nor where a set
    /// gave up ([`Scratch::last_gave_up`]); else they tell.
    pub fn last_by_set(&self) -> bool
        ensures { result ≡ self.now.counts.last_by_set }
    {
        self.effort.by_set
    }

    /// Whether a set was asked in the last match or skip question, and gave up: the path filled more than eight cells of its
    /// table, or too many paths before did. Then specs were asked by their heads alone.
    pub fn last_gave_up(&self) -> bool
        ensures { result ≡ self.now.counts.last_gave_up }
    {
        self.effort.excludes_gave_up || self.effort.gave_up
    }

    /// The count of specs that all matches and skip questions in this scratch asked, modulo 2^128.
    pub fn total_tested(&self) -> u128
        ensures { result ≡ self.now.counts.tested }
    {
        self.specs.tested()
    }

    /// The count of heads that all matches and skip questions in this scratch compared, modulo 2^128.
    pub fn total_compared(&self) -> u128
        ensures { result ≡ self.now.counts.compared }
    {
        self.heads.compared()
    }

    /// The count of steps and looks of sets in all matches and skip questions in this scratch, modulo 2^128.
    pub fn total_stepped(&self) -> u128
        ensures { result ≡ self.now.counts.stepped }
    {
        self.stepped.wrapping_add(set_total(&self.exclude_set))
    }
}

/// The specs of a search, with their places in search order by their heads. No match writes to them.
#[derive(Drop)]
pub(crate) struct SpecsByHead {
    specs: CountedSpecs,
    /// The places of the specs in search order, by their heads.
    heads: Box<CountedHeads>,
    /// The members of the sets of heads, if some head has one.
    members: Option<Box<Members>>,
    common_prefix: Vec<u8>,
}

impl Model for SpecsByHead {
    ghost use Rattle.std.specs.Prelude.{List};
    ghost use Rattle.std.specs.Box.{box_value};
    ghost use Rattle.std.specs.Option.{option_map};
    ghost use Rattle.gix_pathspec.specs.Search.{Numbered};
    ghost use Rattle.gix_pathspec.specs.Effort.{IsByHead};

    ghost Value = { List Numbered };

    ghost view = { λ s. s.specs };

    ghost invariant = { λ s. IsByHead s.specs (box_value s.heads) (option_map box_value s.members) s.common_prefix.items };
}

impl SpecsByHead {
    ghost use Rattle.gix_pathspec.specs.Found.{is_directory, answer_found};
    ghost use Rattle.gix_pathspec.specs.Search.{answer};

    /// Puts specs together with their places and their common prefix.
    pub(crate) fn new(
        specs: CountedSpecs,
        heads: Box<CountedHeads>,
        members: Option<Box<Members>>,
        common: Vec<u8>,
    ) -> SpecsByHead
        requires places { ArePlacesOf specs (box_value heads) }
        requires members { ForSome members (λ set. AreMembersOf specs (box_value set)) }
        requires made { is_some members ≡ has_any_set (all_sources specs) }
        requires common { common.items ≡ common_prefix (specs_of specs) }
        ensures { result ≡ specs }
    {
        SpecsByHead {
            specs,
            heads,
            members,
            common_prefix: common,
        }
    }

    /// The count of specs.
    pub(crate) fn len(&self) -> usize
        ensures { result ≡ length self.now }
    {
        self.specs.len()
    }

    /// The longest text that begins the head of each include; empty without an include.
    pub(crate) fn common_prefix(&self) -> &[u8]
        ensures { result.now ≡ common_prefix (specs_of self.now) }
    {
        &self.common_prefix
    }

    /// The specs. A scratch counts each question to one of them.
    pub(crate) fn counted(&self) -> &CountedSpecs
        ensures { result.now ≡ self.now }
    {
        &self.specs
    }

    /// The heads of the specs. A scratch counts each comparison of one with a path.
    pub(crate) fn heads(&self) -> &CountedHeads
        ensures { ArePlacesOf self.now result.now }
    {
        &self.heads
    }

    /// The members of the sets of heads, if some head has one.
    pub(crate) fn members(&self) -> Option<&Members>
        ensures members { ForSome result (λ set. AreMembersOf self.now set.now) }
        ensures made { is_some result ≡ has_any_set (all_sources self.now) }
    {
        match &self.members {
            Some(members) => Some(&**members),
            None => None,
        }
    }

    /// The specs by value.
    pub(crate) fn into_counted(self) -> CountedSpecs
        ensures { result ≡ self }
    {
        self.specs
    }

    /// Finds the place of the first spec that matches a path, and the way in which it matches, as
    /// [`Search::settle`](crate::search::Search::settle) says. The empty path and one that lacks the common prefix have none.
    ///
    /// # Errors
    /// The look-up's fault.
    pub(crate) fn find_match<L: LookUp>(
        &self,
        path: BStr<'_>,
        is_dir: Option<bool>,
        scratch: &mut Scratch,
        look_up: &mut L,
    ) -> Result<Option<(usize, MatchKind)>, L::Fault>
        requires { Fits self.now scratch.old }
        ensures room { scratch.new.room ≡ scratch.old.room }
        ensures answer { IfOk result (λ found. answer_found self.now (bstr_bytes path.entry) found
            ≡ answer (L.table look_up.old) self.now
            (bstr_bytes path.entry) (is_directory is_dir)) }
        ensures within { IfOk result (λ found. ForSome found (λ at. at.0 < length self.now)) }
        ensures look_up { AsksLookUp (L.table look_up.old) (L.failures look_up.old)
            (L.table look_up.new) (L.failures look_up.new) result }

        // Counts each question and each comparison, also where the look-up fails.
        ensures counted { IsCounted self.now (bstr_bytes path.entry)
            scratch.old.counts scratch.new.counts }
        ensures little_compared { IsLittleCompared self.now (bstr_bytes path.entry)
            scratch.new.counts.last_compared }
        ensures looked { IfOk result (λ found. IsSome found
            → (1 ≤ scratch.new.counts.last_tested) × (1 ≤ scratch.new.counts.last_compared)) }
        ensures unasked { IsTrue (is_settled_early self.now (bstr_bytes path.entry))
            → (scratch.new.counts.last_tested ≡ 0) × (scratch.new.counts.last_compared ≡ 0) }

        // Counts the steps and looks of the sets. They tell which of their specs to ask unless one gives up, and then few are asked.
        ensures by_set { IsSetCounted self.now (bstr_bytes path.entry)
            scratch.old.counts scratch.new.counts }
    {
        if self.is_settled_early(path.as_bytes()) {
            scratch.effort = NO_EFFORT;
            return Ok(None);
        }
        let is_dir = is_dir.unwrap_or(false);
        first_match(
            &self.specs,
            &self.heads,
            self.members(),
            scratch,
            path,
            is_dir,
            look_up,
        )
    }

    /// Whether a path is empty or lacks the common prefix, so that its answer needs no look at the specs.
    fn is_settled_early(&self, path: &[u8]) -> bool
        ensures { result ≡ is_settled_early self.now path.now }
    {
        let common = self.common_prefix.as_slice();
        // An empty common prefix costs no call.
        path.is_empty() || !common.is_empty() && !begins_with(path, common, false)
    }
}

/// The specs that may match a path: those whose head begins it, and where sets told, of their members those whose glob matches.
#[derive(Clone, Copy)]
struct Candidates<'a> {
    heads: &'a CountedHeads,
    /// The number of the longest head that begins the path, if one does.
    head: Option<usize>,
    /// The members of the sets, where these told.
    members: Option<&'a Members>,
    set_heads: &'a CountedHeads,
    /// The number of the longest head of a set that begins the path, if one does.
    set_head: Option<usize>,
}

impl Candidates<'_> {
    ghost use Rattle.std.specs.Prelude.{true};
    ghost use Rattle.gix_pathspec.specs.Beside.{is_beside, IsHit};
    ghost use Rattle.gix_pathspec.specs.Candidates.{AreBeside};
    ghost use Rattle.gix_pathspec.specs.Sets.{any_spec, IsKindAt, IsNext, NoneBefore};

    /// The next place from one on of a spec that may match.
    fn next(&self, from: usize, sets: &mut [HeadSet]) -> Option<usize>
        requires head { IfSome self.now.head (λ head. head < length self.now.heads.now.heads) }
        requires set_head { IfSome self.now.set_head
            (λ head. head < length self.now.set_heads.now.heads) }
        requires grouped { IsTrue (is_some self.now.members) → IsGrouped (set_heads sets.old)
            self.now.set_heads.now.heads self.now.set_heads.now.starts self.now.set_heads.now.order }
        ensures next { (specs : List Numbered) (path : List ℕ) (table : Table) (is_dir : Bool)
            → IsBytes path → AreCandidates specs path self.now sets.old
            → NoneBefore table specs path is_dir from → AreNext specs path self.now sets.old from
            → IsNext any_spec specs path from result × AreNext specs path self.now sets.new from }
        ensures hit { (specs : List Numbered) (path : List ℕ) (table : Table) (is_dir : Bool)
            → IsBytes path → AreCandidates specs path self.now sets.old
            → NoneBefore table specs path is_dir from → AreNext specs path self.now sets.old from
            → is_some self.now.members ≡ true → IfSome result (IsHit specs path) }
        ensures idle { (specs : List Numbered) (path : List ℕ)
            → AreCandidates specs path self.now sets.old → All (IsIdleBeside path) sets.old
            → All (IsIdleBeside path) sets.new }
        ensures kept { KeepsSets sets.old sets.new }
    {
        let other = self.next_beside(from);
        let Some(members) = self.members else {
            return other;
        };
        let (heads, head) = (self.set_heads, self.set_head);
        earlier(
            other,
            next_of_sets(sets, heads, head, members.places(), from),
        )
    }

    /// The next place from one on of a spec that is looked for by its head, and whose head begins the path.
    fn next_beside(&self, from: usize) -> Option<usize>
        requires { IfSome self.now.head (λ head. head < length self.now.heads.now.heads) }
        ensures next { (specs : List Numbered) (path : List ℕ) (is_set_asked : Bool)
            → AreBeside specs path self.now.heads.now self.now.head is_set_asked
            → IsNext (is_beside is_set_asked (all_sources specs)) specs path from result }
        ensures beside { (specs : List Numbered) (path : List ℕ) (is_set_asked : Bool)
            → AreBeside specs path self.now.heads.now self.now.head is_set_asked
            → IfSome result (IsKindAt (is_beside is_set_asked (all_sources specs)) specs) }
    {
        match self.head {
            Some(head) => self.heads.next_place(head, from),
            None => None,
        }
    }
}

/// The heads by which specs are looked for, where sets are asked or aren't.
fn heads_beside<'a>(heads: &'a CountedHeads, members: Option<&'a Members>) -> &'a CountedHeads
    ensures { (specs : List Numbered) → ArePlacesOf specs heads.now
        → ForSome members.entry (λ set. AreMembersOf specs set.now)
        → ArePlacesBeside (is_some members.entry) specs result.now }
{
    match members {
        Some(members) => members.others(),
        None => heads,
    }
}

/// The members of the sets, where these told which of them may match.
fn told_members(members: Option<&Members>, tells: bool) -> Option<&Members>
    ensures same { ForSome result (λ asked. members.entry ≡ Some asked) }
    ensures told { is_some result ≡ (tells && is_some members.entry) }
{
    if tells { members } else { None }
}

/// Finds the place of the first spec that matches a path, and the way in which it matches. It asks no more specs than have a
/// head that begins the path.
fn first_match<L: LookUp>(
    specs: &CountedSpecs,
    heads: &CountedHeads,
    members: Option<&Members>,
    scratch: &mut Scratch,
    path: BStr<'_>,
    is_dir: bool,
    look_up: &mut L,
) -> Result<Option<(usize, MatchKind)>, L::Fault>
    requires grouped { ArePlacesOf specs.now heads.now }
    requires members { ForSome members (λ set. AreMembersOf specs.now set.now) }
    requires made { is_some members ≡ has_any_set (all_sources specs.now) }
    requires late { is_settled_early specs.now (bstr_bytes path) ≡ false }
    requires fits { Fits specs.now scratch.old }
    ensures room { scratch.new.room ≡ scratch.old.room }
    ensures first { IfOk result (λ found.
        IsFirstFound (L.table look_up.old) specs.now (bstr_bytes path.entry) is_dir found) }
    ensures look_up { AsksLookUp (L.table look_up.old) (L.failures look_up.old)
        (L.table look_up.new) (L.failures look_up.new) result }
    ensures counted { IsCounted specs.now (bstr_bytes path.entry)
        scratch.old.counts scratch.new.counts }
    ensures looked { IfOk result (λ found. IsSome found
        → (1 ≤ scratch.new.counts.last_tested) × (1 ≤ scratch.new.counts.last_compared)) }
    ensures by_set { IsSetCounted specs.now (bstr_bytes path.entry)
        scratch.old.counts scratch.new.counts }
{
    let bytes = path.as_bytes();
    let mut gave_up = false;
    let set_heads = &scratch.set_heads;
    let begun = set_heads.longest_head_of(bytes, &mut scratch.set_compares);
    let sets = scratch.sets.as_mut_slice();
    let tells = ask_sets(sets, set_heads, begun.head, bytes, &mut gave_up);
    let members = told_members(members, tells);
    let heads = heads_beside(heads, members);
    let LongestHead { head, compared } = heads.longest_head_of(bytes, &mut scratch.heads);
    let mut tested = 0;
    let candidates = Candidates {
        heads,
        head,
        members,
        set_heads,
        set_head: begun.head,
    };
    let found = first_candidate(
        specs,
        &candidates,
        sets,
        &mut scratch.specs,
        &mut tested,
        path,
        is_dir,
        look_up,
    );
    let steps = rest_sets(sets, set_heads, begun.head, bytes);
    let stepped = steps.wrapping_add(begun.compared as u128);
    scratch.stepped = scratch.stepped.wrapping_add(stepped);
    scratch.effort = Effort {
        tested,
        compared,
        stepped,
        by_set: members.is_some(),
        gave_up,
        excludes_gave_up: false,
    };
    found
}

/// The steps and looks of a set in all, modulo 2^128; 0 without a set.
fn set_total(set: &Option<SetScratch>) -> u128
    ensures { result ≡ set_total set.now }
{
    match set {
        Some(set) => set.total_steps(),
        None => 0,
    }
}

/// How much a total grew, modulo 2^128.
fn growth(before: u128, now: u128) -> u128
    ensures counted { Counts before result now }
    ensures few { (most : ℕ) → GrowsBy most before now → result ≤ most }
{
    now.wrapping_sub(before)
}

/// Finds the first spec that matches a path, of those that may. `tested` counts those asked.
fn first_candidate<L: LookUp>(
    specs: &CountedSpecs,
    candidates: &Candidates<'_>,
    sets: &mut [HeadSet],
    scratch: &mut SpecScratch,
    tested: &mut usize,
    path: BStr<'_>,
    is_dir: bool,
    look_up: &mut L,
) -> Result<Option<(usize, MatchKind)>, L::Fault>
    requires candidates { AreCandidates specs.now (bstr_bytes path) candidates.now sets.old }
    requires set_head { IfSome candidates.now.set_head
        (λ head. head < length candidates.now.set_heads.now.heads) }
    requires next { AreNext specs.now (bstr_bytes path) candidates.now sets.old 0 }
    requires bytes { IsBytes (bstr_bytes path) }
    requires room { HasRoom specs.now scratch.old.room }
    requires none { tested.old ≡ 0 }
    ensures room { scratch.new.room ≡ scratch.old.room }
    ensures kept { KeepsSets sets.old sets.new }
    ensures idle { All (IsIdleBeside (bstr_bytes path.entry)) sets.old
        → All (IsIdleBeside (bstr_bytes path.entry)) sets.new }
    ensures first { IfOk result (λ found.
        IsFirstFound (L.table look_up.old) specs.now (bstr_bytes path.entry) is_dir found) }
    ensures look_up { AsksLookUp (L.table look_up.old) (L.failures look_up.old)
        (L.table look_up.new) (L.failures look_up.new) result }
    ensures counted { Counts scratch.old.tested tested.new scratch.new.tested }
    ensures few { tested.new ≤ candidate_count specs.now (bstr_bytes path.entry) }
    ensures asked { IfOk result (λ found. IsSome found → 1 ≤ tested.new) }
    ensures once { IsTrue (is_some candidates.now.members)
        → tested.new ≤ unsettled_count specs.now (bstr_bytes path.entry) + 1 }
{
    let count = specs.len();
    let mut from = 0;
    while from < count {
        let place = match candidates.next(from, sets) {
            Some(place) => place,
            None => return Ok(None),
        };
        *tested += 1;
        if let Some(kind) = specs.matches(place, path, is_dir, scratch, look_up)? {
            return Ok(Some((place, kind)));
        }
        from = place + 1;
    }
    Ok(None)
}
