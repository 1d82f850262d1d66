//! Specs, excludes and heads that a match can only ask, so that a scratch counts each question.
//!
//! A match stands outside of the module `search`, and sees specs and heads by these types alone. It can't make a scratch, so the
//! one that it borrows counts all that it asks and compares.
ghost use Rattle.std.specs.Prelude.{◌≡◌, ◌↔◌, ◌+◌, ◌<◌, ◌≤◌, true, false, length, map, All, IsTrue, IfOk, OnOk, OnErr};
ghost use Rattle.bstr.specs.BStr.{bstr_bytes};
ghost use Rattle.pathspec_parts.specs.Attributes.{AsksLookUp};
ghost use Rattle.pathspec_glob.specs.Counts.{Counts};
ghost use Rattle.gix_pathspec.specs.Effort.{kind_at};
ghost use Rattle.pathspec_parts.specs.Outcomes.{names_of};
ghost use Rattle.gix_pathspec.specs.SetSources.{all_sources, has_any_set, head_set_sources};
ghost use Rattle.gix_pathspec.specs.Room.{HasGlobRoom, HasRoom, tokens_of, names_in_order, made_sources, member_sources};

use crate::search::MatchKind;
use crate::search::members::{SetMember, has_set, set_sources};
use crate::search::set_sources::{HeadedMember, headed_members};
use crate::search::spec::CompiledSpec;
use crate::search::subtree_excludes::SubtreeExclude;
use bstr::BStr;
use pathspec_heads::places::{CompareScratch, LongestHead, PlacesByHead};
use pathspec_parts::attributes::{LookUp, Outcome};
use pathspec_parts::glob;
use std::alloc::{AllocError, Global};
use std::marker::Model;

/// Specs in search order. A match can only ask whether the one at a place matches a path, and a scratch counts that.
#[derive(Drop)]
pub(crate) struct CountedSpecs {
    all: Vec<CompiledSpec>,
}

impl Model for CountedSpecs {
    ghost use Rattle.std.specs.Prelude.{List};
    ghost use Rattle.gix_pathspec.specs.Search.{Numbered};

    ghost Value = { List Numbered };

    ghost view = { λ s. s.all.items };
}

/// Subtree excludes. A question to them is whether the one at a place covers a directory, and a scratch counts it.
#[derive(Drop)]
pub(crate) struct CountedExcludes {
    all: Vec<SubtreeExclude>,
}

impl Model for CountedExcludes {
    ghost use Rattle.std.specs.Prelude.{List};
    ghost use Rattle.gix_pathspec.specs.Specs.{Spec};

    ghost Value = { List Spec };

    ghost view = { λ t. t.all.items };
}

/// Heads, and the places that have them. A match can only search the heads, and a scratch counts each comparison of one.
#[derive(Drop)]
pub(crate) struct CountedHeads {
    all: PlacesByHead,
}

impl Model for CountedHeads {
    ghost use Rattle.pathspec_heads.specs.Groups.{GroupedPlaces};

    ghost Value = { GroupedPlaces };

    ghost view = { λ h. h.all };
}

/// The head of a set. A match can take its length alone, so it compares none beside the search for heads.
#[derive(Drop)]
pub(crate) struct SetHead {
    bytes: Vec<u8>,
}

impl Model for SetHead {
    ghost use Rattle.std.specs.Prelude.{List, ℕ};

    ghost Value = { List ℕ };

    ghost view = { λ h. h.bytes.items };
}

/// The room that questions to specs write: that of their globs, an outcome for each spec, and a count that is never set back.
#[derive(Drop)]
pub(crate) struct SpecScratch {
    globs: glob::Scratch,
    /// An outcome for each spec in search order, with a place for each attribute that the spec lists.
    outcomes: Vec<Outcome>,
    /// What the sets of heads are made of.
    members: Vec<HeadedMember>,
    /// What the set of the subtree excludes is made of.
    excludes: Vec<SetMember>,
    tested: u128,
}

impl Model for SpecScratch {
    ghost use Rattle.std.specs.Prelude.{map};
    ghost use Rattle.pathspec_parts.specs.Outcomes.{names_of};
    ghost use Rattle.gix_pathspec.specs.Room.{SpecRoom};

    ghost Value = { SpecRoom };

    ghost view = { λ s. record { room = record { tokens = s.globs.tokens; names = map names_of s.outcomes.items; members = s.members.items; excludes = s.excludes.items }; tested = s.tested } };
}

impl CountedSpecs {
    /// Wraps specs, so that a scratch counts each question to them.
    pub(super) fn new(all: Vec<CompiledSpec>) -> CountedSpecs
        ensures { result ≡ all.items }
    {
        CountedSpecs { all }
    }

    /// The count of specs.
    pub(crate) fn len(&self) -> usize
        ensures { result ≡ length self.now }
    {
        self.all.len()
    }

    /// The specs, to read.
    pub(super) fn as_slice(&self) -> &[CompiledSpec]
        ensures { result.now ≡ self.now }
    {
        &self.all
    }

    /// The specs by value.
    pub(super) fn into_specs(self) -> Vec<CompiledSpec>
        ensures { result.items ≡ self }
    {
        self.all
    }

    // In line, with all that it calls: a match asks each spec whose head begins the path.
    /// The way in which the spec at a place matches a path that isn't empty, as [`CompiledSpec::matches`] says. The call asks
    /// the spec only where the path's first and last byte leave the answer open.
    ///
    /// # Errors
    /// The look-up's fault.
    #[inline(always)]
    pub(crate) fn matches<L: LookUp>(
        &self,
        place: usize,
        path: BStr<'_>,
        is_dir: bool,
        scratch: &mut SpecScratch,
        look_up: &mut L,
    ) -> Result<Option<MatchKind>, L::Fault>
        requires place { place < length self.now }
        requires room { HasRoom self.now scratch.old.room }
        ensures answer { IfOk result (λ kind. kind
            ≡ kind_at (L.table look_up.old) self.now (bstr_bytes path.entry) is_dir place) }
        ensures room { scratch.new.room ≡ scratch.old.room }
        ensures counted { Counts scratch.old.tested 1 scratch.new.tested }
        ensures look_up { AsksLookUp (L.table look_up.old) (L.failures look_up.old)
            (L.table look_up.new) (L.failures look_up.new) result }
    {
        scratch.tested = scratch.tested.wrapping_add(1);
        let spec = &self.all[place];
        if spec.is_ruled_out(path.as_bytes()) {
            return Ok(None);
        }
        let outcome = &mut scratch.outcomes[place];
        spec.matches(path, is_dir, &mut scratch.globs, outcome, look_up)
    }
}

impl CountedExcludes {
    ghost use Rattle.std.specs.Prelude.{Some, slice_get};
    ghost use Rattle.gix_pathspec.specs.Specs.{Spec};
    ghost use Rattle.gix_pathspec.specs.SubtreeExcludes.{covers};

    /// Wraps subtree excludes, so that a scratch counts each question to them.
    pub(super) fn new(all: Vec<SubtreeExclude>) -> CountedExcludes
        ensures { result ≡ all.items }
    {
        CountedExcludes { all }
    }

    /// The count of excludes.
    pub(crate) fn len(&self) -> usize
        ensures { result ≡ length self.now }
    {
        self.all.len()
    }

    /// Whether the exclude at a place covers the directory, as [`SubtreeExclude::covers`] says.
    pub(crate) fn covers(
        &self,
        place: usize,
        directory: BStr<'_>,
        scratch: &mut SpecScratch,
    ) -> bool
        requires place { place < length self.now }
        requires room { All (λ s. tokens_of s ≤ scratch.old.room.tokens) self.now }
        ensures answer { (s : Spec) → slice_get self.now place ≡ Some s
            → result ≡ covers s (bstr_bytes directory.entry) }
        ensures room { scratch.new.room ≡ scratch.old.room }
        ensures counted { Counts scratch.old.tested 1 scratch.new.tested }
    {
        scratch.tested = scratch.tested.wrapping_add(1);
        self.all[place].covers(directory, &mut scratch.globs)
    }
}

impl CountedHeads {
    ghost use Rattle.std.specs.Prelude.{ℕ, ◌^◌, IfSome};
    ghost use Rattle.pathspec_heads.specs.Heads.{IsLastFront, IsChainOf};
    ghost use Rattle.pathspec_heads.specs.Groups.{IsInChain, IsLargestGroup, IsLeastFrom, IsOrder};

    /// Wraps heads and places, so that a scratch counts each comparison.
    pub(super) fn new(all: PlacesByHead) -> CountedHeads
        ensures { result ≡ all }
    {
        CountedHeads { all }
    }

    /// The most specs that share a head, as [`PlacesByHead::largest_group`] says. A match can't call this.
    pub(super) fn largest_group(&self) -> usize
        ensures largest { IsLargestGroup self.now result }
        ensures order { IsOrder self.now.heads self.now.starts self.now.order }
    {
        self.all.largest_group()
    }

    /// Makes a scratch for searches for the heads, as [`PlacesByHead::new_scratch`] does. A match can't call this.
    pub(super) fn new_scratch(&self) -> CompareScratch
        ensures { result ≡ 0 }
    {
        self.all.new_scratch()
    }

    /// The longest head that begins the text, as [`PlacesByHead::longest_head_of`] says.
    #[inline(always)]
    pub(crate) fn longest_head_of(&self, text: &[u8], scratch: &mut CompareScratch) -> LongestHead
        ensures found { IsLastFront self.now.heads (length self.now.heads) text.now result.head }
        ensures chain { IfSome result.head (λ j. IsChainOf self.now.heads text.now j) }
        ensures counted { Counts scratch.old result.compared scratch.new }
        ensures cost { (b : ℕ) → length self.now.heads < 2 ^ b → result.compared ≤ b + 2 }
        ensures asked { 0 < length self.now.heads → 1 ≤ result.compared }
        ensures none { length self.now.heads ≡ 0 → result.compared ≡ 0 }
    {
        self.all.longest_head_of(text, scratch)
    }

    /// The least place from `from` on whose head is the given one or begins it.
    #[inline(always)]
    pub(crate) fn next_place(&self, head: usize, from: usize) -> Option<usize>
        requires { head < length self.now.heads }
        ensures { IsLeastFrom (IsInChain self.now.heads self.now.starts self.now.order head)
            from result }
    {
        self.all.next_place(head, from)
    }
}

impl SetHead {
    /// Wraps the head of a set.
    pub(super) fn new(bytes: Vec<u8>) -> SetHead
        ensures { result ≡ bytes.items }
    {
        SetHead { bytes }
    }

    /// The length of the head, in bytes.
    pub(crate) fn len(&self) -> usize
        ensures { result ≡ length self.now }
    {
        self.bytes.len()
    }

    /// The head, to read. A match can't call this.
    pub(super) fn as_slice(&self) -> &[u8]
        ensures { result.now ≡ self.now }
    {
        &self.bytes
    }
}

impl SpecScratch {
    /// Makes room for questions to the specs, with the count at 0. The cost is linear in the tokens of the largest glob, in the
    /// names of attributes that the specs list, and in the bytes of the globs that sets are made of.
    ///
    /// # Errors
    /// Memory runs out.
    pub(super) fn for_specs(
        alloc: Global,
        specs: &CountedSpecs,
        has_sets: bool,
    ) -> Result<SpecScratch, AllocError>
        requires { has_sets ≡ has_any_set (all_sources specs.now) }
        ensures room { IfOk result (λ scratch. HasRoom specs.now scratch.room) }
        ensures unasked { IfOk result (λ scratch. scratch.tested ≡ 0) }
    {
        Ok(SpecScratch {
            globs: glob::Scratch::for_tokens(alloc, most_tokens(&specs.all))?,
            outcomes: outcomes(alloc, &specs.all)?,
            members: head_set_sources(alloc, &specs.all, has_sets)?,
            excludes: set_sources(alloc, &specs.all)?,
            tested: 0,
        })
    }

    /// Whether there is room for questions to the specs. The cost is linear in the names of their attributes and in the specs.
    pub(super) fn fits(&self, specs: &CountedSpecs, has_sets: bool) -> bool
        requires { has_sets ≡ has_any_set (all_sources specs.now) }
        ensures { IsTrue result ↔ HasRoom specs.now self.now.room }
    {
        self.outcomes.len() == specs.all.len()
            && have_room(&specs.all, &self.globs, &self.outcomes)
            && self.has_sources(&specs.all, has_sets)
    }

    /// Whether the sets are made of the same sources as those of the specs.
    fn has_sources(&self, specs: &[CompiledSpec], has_sets: bool) -> bool
        requires { has_sets ≡ has_any_set (all_sources specs.now) }
        ensures { IsTrue result ↔ (self.now.room.members ≡ head_set_sources specs.now)
            × (self.now.room.excludes ≡ made_sources specs.now) }
    {
        are_head_set_sources(specs, &self.members, has_sets)
            && are_set_sources(specs, &self.excludes)
    }

    /// The count of questions to specs, modulo 2^128.
    pub(crate) fn tested(&self) -> u128
        ensures { result ≡ self.now.tested }
    {
        self.tested
    }
}

/// A count of tokens that no glob of the specs exceeds.
fn most_tokens(specs: &[CompiledSpec]) -> usize
    ensures { All (λ n. tokens_of n.spec ≤ result) specs.now }
{
    let mut most = 0;
    for spec in specs {
        most = most.max(spec.tokens());
    }
    most
}

/// Makes an outcome for each spec, in order.
fn outcomes(alloc: Global, specs: &[CompiledSpec]) -> Result<Vec<Outcome>, AllocError>
    ensures { IfOk result (λ outcomes. map names_of outcomes.items ≡ names_in_order specs.now) }
{
    let mut outcomes = Vec::with_capacity(alloc, specs.len())?;
    for spec in specs {
        outcomes.push(spec.new_outcome(alloc)?)?;
    }
    Ok(outcomes)
}

/// Whether each spec has room in the scratch of globs, and in the outcome at its place.
fn have_room(specs: &[CompiledSpec], globs: &glob::Scratch, outcomes: &[Outcome]) -> bool
    requires { length outcomes.now ≡ length specs.now }
    ensures { IsTrue result ↔ HasGlobRoom specs.now globs.now.tokens (map names_of outcomes.now) }
{
    for (place, spec) in specs.iter().enumerate() {
        if !spec.fits(globs, &outcomes[place]) {
            return false;
        }
    }
    true
}

/// Whether these are the sources of the members of the set of the subtree excludes, in order; none without a set.
fn are_set_sources(specs: &[CompiledSpec], sources: &[SetMember]) -> bool
    ensures { IsTrue result ↔ (sources.now ≡ made_sources specs.now) }
{
    if has_set(specs) {
        are_sources(specs, sources)
    } else {
        sources.is_empty()
    }
}

/// Whether these are the sources of the excludes that may be members of the set, in order.
fn are_sources(specs: &[CompiledSpec], sources: &[SetMember]) -> bool
    ensures { IsTrue result ↔ (sources.now ≡ member_sources specs.now) }
{
    let mut rank = 0;
    for spec in specs {
        if spec.is_member() {
            match sources.get(rank) {
                Some(source) if spec.has_source(source) => rank += 1,
                _ => return false,
            }
        }
    }
    rank == sources.len()
}

/// What the sets of heads are made of, in search order; nothing without a set.
///
/// # Errors
/// Memory runs out.
fn head_set_sources(
    alloc: Global,
    specs: &[CompiledSpec],
    has_sets: bool,
) -> Result<Vec<HeadedMember>, AllocError>
    requires { has_sets ≡ has_any_set (all_sources specs.now) }
    ensures { IfOk result (λ sources. sources.items ≡ head_set_sources specs.now) }
{
    if has_sets {
        headed_members(alloc, specs)
    } else {
        Ok(Vec::new(alloc))
    }
}

/// Whether these are the sources of the sets of heads, in order; none without a set.
fn are_head_set_sources(specs: &[CompiledSpec], sources: &[HeadedMember], has_sets: bool) -> bool
    requires { has_sets ≡ has_any_set (all_sources specs.now) }
    ensures { IsTrue result ↔ (sources.now ≡ head_set_sources specs.now) }
{
    if has_sets {
        are_headed_members(specs, sources)
    } else {
        sources.is_empty()
    }
}

/// Whether these are the sources of the specs that have one, in order.
fn are_headed_members(specs: &[CompiledSpec], sources: &[HeadedMember]) -> bool
    ensures { IsTrue result ↔ (sources.now ≡ all_sources specs.now) }
{
    let mut rank = 0;
    for spec in specs {
        if spec.has_headed_member() {
            match sources.get(rank) {
                Some(source) if spec.has_this_source(source) => rank += 1,
                _ => return false,
            }
        }
    }
    rank == sources.len()
}
