//! Makes searches: puts normalised specs in search order, and groups them by their heads.
ghost use Rattle.std.specs.Prelude.{◌≡◌, List, Ok, Err, None, is_some, true, map, IfOk, IfErr, IfSome, IsTrue, Some, OnOk};
ghost use Rattle.std.specs.Iterator.{Drains, IsFinite};
ghost use Rattle.std.specs.Option.{option_map};
ghost use Rattle.std.specs.Box.{box_value};
ghost use Rattle.bstr.specs.BStr.{bstr_bytes};
ghost use Rattle.bstr.specs.Owned.{bstring_bytes};
ghost use Rattle.pathspec_parts.specs.Paths.{is_clean_prefix};
ghost use Rattle.pathspec_heads.specs.Groups.{IsGrouped};
ghost use Rattle.gix_pathspec.specs.Errors.{IsMemory};
ghost use Rattle.gix_pathspec.specs.Patterns.{pattern_spec};
ghost use Rattle.gix_pathspec.specs.NormalForm.{NormalFormIsNormal};
ghost use Rattle.gix_pathspec.specs.Prefixes.{common_front, common_prefix};
ghost use Rattle.gix_pathspec.specs.Search.{KeepsSpecs, IsFresh, specs_of, numbered_from, in_search_order, search_of, HoldsNormalForms, at_number};
ghost use Rattle.gix_pathspec.specs.Effort.{ArePlacesOf, heads_in_order};
ghost use Rattle.gix_pathspec.specs.ExcludeMembers.{AreExcludeMembersOf};
ghost use Rattle.gix_pathspec.specs.Building.{prefix_bytes, TellsFault, Builds, IsErrorAt, AreNumbered, AddsNext, with_next, default_numbered_to_prefix, search_of_numbered};
ghost use Rattle.gix_pathspec.specs.Reach.{subtree_excludes_of, IsReachOf};
ghost use Rattle.gix_pathspec.specs.Room.{exclude_set_sources, Fits};
ghost use Rattle.gix_pathspec.specs.Members.{AreMembersOf};
ghost use Rattle.gix_pathspec.specs.Beside.{head_beside};
ghost use Rattle.gix_pathspec.specs.HeadSets.{AreHeadSetsOf};
ghost use Rattle.gix_pathspec.specs.SetSources.{all_sources, has_any_set, stands_in_set, SetSource};
ghost use Rattle.gix_pathspec.specs.Sets.{IsSetMade};
ghost use Rattle.gix_pathspec.specs.SelectionLaws.{NoNilPrefix, SpecPathsAreBytes};
ghost use Rattle.gix_pathspec.specs.Reading.{reading};
ghost use Rattle.gix_pathspec.specs.Lines.{numbered_of_lines, search_of_lines};

use crate::by_head::SpecsByHead;
use crate::by_head::head_set::HeadSet;
use crate::by_head::subtree_excludes::ExcludesByHead;
use crate::search::compiling::{compile, compile_all, compile_lines};
use crate::search::counted::{CountedExcludes, CountedHeads, CountedSpecs};
use crate::search::exclude_members::ExcludeMembers;
use crate::search::matching::boxed_scratch;
use crate::search::members::{Members, has_set};
use crate::search::reach::Reach;
use crate::search::set_building::{has_head, sets_of_heads, slices};
use crate::search::set_sources::source_places;
use crate::search::spec::CompiledSpec;
use crate::search::subtree_excludes::excludes_with_heads;
use crate::search::{Scratch, Search};
use crate::{Defaults, Error, MagicSignature, Pattern};
use bstr::{BStr, BString};
use pathspec_heads::agreement::agreement;
use pathspec_heads::places::PlacesByHead;
use std::alloc::{AllocError, AllocFailed, Global};
use std::iter::IntoIterator;

/// The reason why specs make no search.
#[derive(Debug, Drop, PartialEq, Eq, thiserror::Error)]
pub enum BuildError {
    /// The number, from 0, of the first spec that has no normal form, or of the first line that says no spec; and its error.
    #[error("spec {0}: {1}")]
    Spec(usize, Error),
    /// Memory ran out.
    #[error("out of memory")]
    Memory,
}

impl From<AllocError> for BuildError {
    ghost use Rattle.gix_pathspec.specs.declared.search.init.BuildError.TheVariants.{Memory};

    ghost from_gives = { λ _ e. e ≡ Memory };

    fn from(_: AllocError) -> BuildError {
        BuildError::Memory
    }
}

impl<T: Drop> From<AllocFailed<T>> for BuildError {
    ghost use Rattle.gix_pathspec.specs.declared.search.init.BuildError.TheVariants.{Memory};

    ghost from_gives = { λ _ e. e ≡ Memory };

    fn from(_: AllocFailed<T>) -> BuildError {
        BuildError::Memory
    }
}

impl Search {
    /// Makes a search of specs that were given in the directory `prefix` of the repository at `root`. The call takes every
    /// spec, normalises each as [`Pattern::normalize`] does, and puts excludes before includes. A list without specs stands
    /// for the prefix, if that isn't empty.
    ///
    /// The prefix must be clean, as [`Pattern::normalize`] asks. None is the empty prefix.
    ///
    /// The cost is linear in the bytes of all specs, and for each spec in the prefix and the root. A sort of their heads comes
    /// on top. The search has room for its own matches; nothing grows afterwards.
    ///
    /// # Errors
    /// [`BuildError::Spec`] for the first spec that has no normal form, and [`BuildError::Memory`].
    pub fn from_specs<I: IntoIterator<Item = Pattern>>(
        alloc: Global,
        specs: I,
        prefix: Option<BStr<'_>>,
        root: BStr<'_>,
    ) -> Result<Search, BuildError>
    where
        I::IntoIter: Drop,
        requires clean { IsTrue (is_clean_prefix (prefix_bytes prefix)) }
        requires ends { (it : I.IntoIter) → I.into_iter_gives specs it
            → I.IntoIter.can_next it × IsFinite (I.IntoIter.remaining it) }
        ensures ok { IfOk result (λ search. (it : I.IntoIter) × (xs : List Pattern)
            × I.into_iter_gives specs it × Drains I.IntoIter.next_gives it xs
            × (search_of (prefix_bytes prefix.entry) (bstr_bytes root.entry) (map pattern_spec xs)
            ≡ Ok search.specs)) }
        ensures source { IfOk result (λ search. search.source ≡ None) }
        ensures effort { IfOk result (λ search. IsFresh search.counts) }
        ensures err { IfErr result (λ e. TellsFault e (λ fault. (it : I.IntoIter)
            × (xs : List Pattern) × I.into_iter_gives specs it × Drains I.IntoIter.next_gives it xs
            × (search_of (prefix_bytes prefix.entry) (bstr_bytes root.entry) (map pattern_spec xs)
            ≡ Err fault))) }
        // A search has just the normal forms of its specs, or else of the prefix, and each is its own normal form.
        ensures forms { HoldsNormalForms × NormalFormIsNormal }
    {
        let prefix = prefix.unwrap_or(BStr::new(b""));
        let compiled = compile_all(alloc, specs, prefix, root)?;
        of_compiled(alloc, compiled, None, prefix, root)
    }

    /// Makes a search of the specs on a text's lines, and keeps `source`, as a file's name. gix-pathspec has no such call.
    ///
    /// A line feed ends each line, and the last may lack it. One carriage return directly before a line feed isn't part of the
    /// line. [`parse::parse`] reads each line as a spec of any bytes: nothing is trimmed or unquoted, and an empty line is at
    /// fault. git reads a file of `--pathspec-from-file` so, but takes quotes off. The text `a\n:!a/x\n` has the specs `a`,
    /// with the number 0, and `:!a/x`, with the number 1.
    ///
    /// The call normalises each spec as it reads its line, and keeps no list of the written specs. They become a search as
    /// [`Search::from_specs`] makes one, under the same condition on the prefix. The call looks at each byte of the text a
    /// fixed number of times; the rest is the cost of [`Search::from_specs`].
    ///
    /// # Errors
    /// [`BuildError::Spec`] with the number, from 0, of the first line that says no spec. If each says one, it is the number
    /// of the first whose spec has no normal form. [`BuildError::Memory`].
    pub fn from_lines(
        alloc: Global,
        text: &[u8],
        source: BStr<'_>,
        defaults: Defaults,
        prefix: Option<BStr<'_>>,
        root: BStr<'_>,
    ) -> Result<Search, BuildError>
        requires clean { IsTrue (is_clean_prefix (prefix_bytes prefix)) }
        ensures search { Builds (λ search. search.specs) (search_of_lines defaults
            (prefix_bytes prefix.entry) (bstr_bytes root.entry) text.now) result }
        ensures source { IfOk result (λ search. search.source ≡ Some (bstr_bytes source.entry)) }
        ensures effort { IfOk result (λ search. IsFresh search.counts) }
        // A search has just the normal forms of its specs, and each is its own normal form.
        ensures forms { OnOk result (HoldsNormalForms × NormalFormIsNormal) }
    {
        let prefix = prefix.unwrap_or(BStr::new(b""));
        let specs = compile_lines(alloc, text, defaults, prefix, root)?;
        let source = BString::from_slice(alloc, source.as_bytes())?;
        of_compiled(alloc, specs, Some(source), prefix, root)
    }

    /// Makes a search with equal specs and source, its own room and all counts at 0. The cost is that of
    /// [`Search::from_specs`].
    ///
    /// # Errors
    /// [`Error::Memory`] alone.
    pub fn try_clone(&self) -> Result<Search, Error>
        ensures ok { IfOk result (KeepsSpecs self.now) }
        ensures effort { IfOk result (λ search. IsFresh search.counts) }
        ensures err { IfErr result IsMemory }
    {
        let alloc = *self.nil.attributes.allocator();
        let specs = clone_all(alloc, self.specs.as_slice())?;
        let source = clone_source(&self.source)?;
        Ok(of_ordered(alloc, specs, source)?)
    }
}

/// Makes a search of specs that are ready for matching. A list without specs stands for the prefix, if that isn't empty.
fn of_compiled(
    alloc: Global,
    specs: Vec<CompiledSpec>,
    source: Option<BString>,
    prefix: BStr<'_>,
    root: BStr<'_>,
) -> Result<Search, BuildError>
    requires clean { IsTrue (is_clean_prefix (bstr_bytes prefix)) }
    requires numbered { AreNumbered (bstr_bytes prefix) (bstr_bytes root) specs.items }
    requires bytes { SpecPathsAreBytes (specs_of specs.items) }
    ensures search { Builds (λ search. search.specs) (search_of_numbered (bstr_bytes prefix.entry)
        (bstr_bytes root.entry) specs.items) result }
    ensures source { IfOk result (λ search. search.source ≡ option_map bstring_bytes source) }
    ensures effort { IfOk result (λ search. IsFresh search.counts) }
{
    let given = default_to_prefix(alloc, specs, prefix, root)?;
    let ordered = in_search_order(alloc, given)?;
    Ok(of_ordered(alloc, ordered, source)?)
}

/// Makes a search of specs that stand in search order.
///
/// # Errors
/// Memory runs out.
fn of_ordered(
    alloc: Global,
    specs: Vec<CompiledSpec>,
    source: Option<BString>,
) -> Result<Search, AllocError>
    requires ordered { in_search_order specs.items ≡ specs.items }
    requires prefixes { NoNilPrefix (specs_of specs.items) }
    requires bytes { SpecPathsAreBytes (specs_of specs.items) }
    ensures specs { IfOk result (λ search. search.specs ≡ specs.items) }
    ensures source { IfOk result (λ search. search.source ≡ option_map bstring_bytes source) }
    ensures effort { IfOk result (λ search. IsFresh search.counts) }
{
    let (reach, excludes) = pruning(alloc, &specs)?;
    let (specs, scratch) = with_room(alloc, specs, &excludes)?;
    Ok(Search {
        specs,
        scratch,
        reach,
        excludes,
        nil: Pattern::nil(alloc),
        source,
    })
}

/// Makes the tables that pruning reads, and the subtree excludes, for which no table answers.
///
/// # Errors
/// Memory runs out.
fn pruning(alloc: Global, specs: &[CompiledSpec]) -> Result<(Reach, ExcludesByHead), AllocError>
    ensures reach { IfOk result (λ pair. IsReachOf (specs_of specs.now) pair.0) }
    ensures excludes { IfOk result (λ pair. pair.1 ≡ subtree_excludes_of (specs_of specs.now)) }
{
    let reach = Reach::of_specs(alloc, specs)?;
    Ok((reach, excludes_by_head(alloc, specs)?))
}

/// Groups specs by their heads, and makes room for their matches.
///
/// # Errors
/// Memory runs out.
fn with_room(
    alloc: Global,
    specs: Vec<CompiledSpec>,
    excludes: &ExcludesByHead,
) -> Result<(SpecsByHead, Box<Scratch>), AllocError>
    requires { excludes.now ≡ subtree_excludes_of (specs_of specs.items) }
    ensures specs { IfOk result (λ pair. pair.0 ≡ specs.items) }
    ensures fits { IfOk result (λ pair. Fits pair.0 (box_value pair.1)) }
    ensures fresh { IfOk result (λ pair. IsFresh (box_value pair.1).counts) }
{
    let heads = places_by_head(alloc, specs.as_slice())?;
    let sets = sets_of_heads(alloc, specs.as_slice(), &heads)?;
    let specs = by_head(alloc, specs, heads, &sets)?;
    let scratch = boxed_scratch(alloc, &specs, sets, excludes)?;
    Ok((specs, scratch))
}

/// The specs, or without any the spec of the prefix, if that isn't empty.
fn default_to_prefix(
    alloc: Global,
    mut specs: Vec<CompiledSpec>,
    prefix: BStr<'_>,
    root: BStr<'_>,
) -> Result<Vec<CompiledSpec>, BuildError>
    requires clean { IsTrue (is_clean_prefix (bstr_bytes prefix)) }
    requires bytes { SpecPathsAreBytes (specs_of specs.items) }
    ensures specs { Builds (λ given. given.items) (default_numbered_to_prefix
        (bstr_bytes prefix.entry) (bstr_bytes root.entry) specs.items) result }
    ensures bytes { IfOk result (λ given. SpecPathsAreBytes (specs_of given.items)) }
{
    if !specs.is_empty() || prefix.as_bytes().is_empty() {
        return Ok(specs);
    }
    let directory = Pattern::from_literal(alloc, b"", MagicSignature::MUST_BE_DIR).map_err(
        |_| BuildError::Memory,
    )?;
    compile(alloc, &mut specs, directory, prefix, root)?;
    Ok(specs)
}

/// Puts excludes before includes, each group in its order.
fn in_search_order(alloc: Global, specs: Vec<CompiledSpec>) -> Result<Vec<CompiledSpec>, AllocError>
    ensures { IfOk result (λ ordered. ordered.items ≡ in_search_order specs.items) }
{
    // Most lists have no exclude, and stand in order as they are.
    if !specs.iter().any(|spec| spec.pattern.is_excluded()) {
        return Ok(specs);
    }
    let mut ordered = Vec::with_capacity(alloc, specs.len())?;
    let mut includes = Vec::new(alloc);
    for spec in specs {
        if spec.pattern.is_excluded() {
            ordered.push(spec)?;
        } else {
            includes.push(spec)?;
        }
    }
    ordered.append(&mut includes)?;
    Ok(ordered)
}

/// Puts specs together with their places by heads, and with the members of their sets.
fn by_head(
    alloc: Global,
    specs: Vec<CompiledSpec>,
    heads: Box<CountedHeads>,
    sets: &[HeadSet],
) -> Result<SpecsByHead, AllocError>
    requires heads { ArePlacesOf specs.items (box_value heads) }
    requires sets { AreHeadSetsOf (all_sources specs.items) sets.now }
    ensures { IfOk result (λ held. held ≡ specs.items) }
{
    let common = common_prefix(alloc, specs.as_slice())?;
    let members = members_of(alloc, specs.as_slice(), sets)?;
    Ok(SpecsByHead::new(CountedSpecs::new(specs), heads, members, common))
}

/// The subtree excludes among the specs, by their heads, and with their set.
fn excludes_by_head(alloc: Global, specs: &[CompiledSpec]) -> Result<ExcludesByHead, AllocError>
    ensures { IfOk result (λ excludes. excludes ≡ subtree_excludes_of (specs_of specs.now)) }
{
    let (excludes, heads) = excludes_with_heads(alloc, specs, false)?;
    let heads = boxed_heads(alloc, &heads)?;
    let members = exclude_set_of(alloc, specs)?;
    Ok(ExcludesByHead::new(CountedExcludes::new(excludes), heads, members))
}

/// The set of the subtree excludes that begin with a wildcard, if there is one.
fn exclude_set_of(
    alloc: Global,
    specs: &[CompiledSpec],
) -> Result<Option<Box<ExcludeMembers>>, AllocError>
    ensures members { IfOk result (λ made. IfSome made (λ members.
        AreExcludeMembersOf (subtree_excludes_of (specs_of specs.now)) (box_value members))) }
    ensures made { IfOk result (λ made.
        IsSetMade (exclude_set_sources (subtree_excludes_of (specs_of specs.now)))
        → is_some made ≡ true) }
{
    // Most searches have no set, and then need no second list of heads.
    if !has_set(specs) {
        return Ok(None);
    }
    let (_excludes, heads) = excludes_with_heads(alloc, specs, true)?;
    let others = boxed_heads(alloc, &heads)?;
    ExcludeMembers::of_specs(alloc, specs, others)
}

/// The places of specs by their heads.
fn places_by_head(alloc: Global, specs: &[CompiledSpec]) -> Result<Box<CountedHeads>, AllocError>
    ensures { IfOk result (λ places. ArePlacesOf specs.now (box_value places)) }
{
    let heads = heads_in_order(alloc, specs)?;
    boxed_heads(alloc, &heads)
}

/// The members of the sets of heads, if some head has one.
///
/// # Errors
/// Memory runs out.
fn members_of(
    alloc: Global,
    specs: &[CompiledSpec],
    sets: &[HeadSet],
) -> Result<Option<Box<Members>>, AllocError>
    requires { AreHeadSetsOf (all_sources specs.now) sets.now }
    ensures members { IfOk result (λ made. IfSome made (λ members.
        AreMembersOf specs.now (box_value members))) }
    ensures made { IfOk result (λ made. is_some made ≡ has_any_set (all_sources specs.now)) }
{
    // Most searches have no set, and then need no second list of heads.
    if sets.is_empty() {
        return Ok(None);
    }
    let owned = heads_beside(alloc, specs, sets)?;
    let others = boxed_heads(alloc, &slices(alloc, &owned)?)?;
    let members = Members::new(source_places(alloc, specs)?, others);
    Ok(Some(Box::new(alloc, members)?))
}

/// The heads by which specs are looked for beside the sets, in their order.
///
/// # Errors
/// Memory runs out.
fn heads_beside(
    alloc: Global,
    specs: &[CompiledSpec],
    sets: &[HeadSet],
) -> Result<Vec<Vec<u8>>, AllocError>
    ensures { (sources : List SetSource) → AreHeadSetsOf sources sets.now
        → IfOk result (λ heads. map (λ head. head.items) heads.items
        ≡ map (λ n. head_beside true sources n.spec) specs.now) }
{
    let mut heads = Vec::with_capacity(alloc, specs.len())?;
    for spec in specs {
        heads.push(head_beside(alloc, spec, sets)?)?;
    }
    Ok(heads)
}

/// The head by which a spec is looked for beside the sets: that of a member has a star behind it.
///
/// # Errors
/// Memory runs out.
fn head_beside(alloc: Global, spec: &CompiledSpec, sets: &[HeadSet]) -> Result<Vec<u8>, AllocError>
    ensures { (sources : List SetSource) → AreHeadSetsOf sources sets.now
        → IfOk result (λ head. head.items ≡ head_beside true sources spec.now.spec) }
{
    let mut head = Vec::from_slice(alloc, spec.head())?;
    if stands_in_set(spec, sets) {
        head.push(b'*')?;
    }
    Ok(head)
}

/// Whether a spec stands in one of the sets.
fn stands_in_set(spec: &CompiledSpec, sets: &[HeadSet]) -> bool
    ensures { (sources : List SetSource) → AreHeadSetsOf sources sets.now
        → result ≡ stands_in_set sources spec.now.spec }
{
    spec.has_headed_member() && has_head(sets, spec.head())
}

/// Heads with their places, in a box.
fn boxed_heads(alloc: Global, heads: &[&[u8]]) -> Result<Box<CountedHeads>, AllocError>
    ensures { IfOk result (λ places. IsGrouped (map (λ head. head.now) heads.now)
        (box_value places).heads (box_value places).starts (box_value places).order) }
{
    let places = CountedHeads::new(PlacesByHead::new(alloc, heads)?);
    Ok(Box::new(alloc, places)?)
}

/// The heads of specs in their order.
fn heads_in_order(alloc: Global, specs: &[CompiledSpec]) -> Result<Vec<&[u8]>, AllocError>
    ensures { IfOk result (λ heads.
        map (λ head. head.now) heads.items ≡ heads_in_order specs.now) }
{
    let mut heads = Vec::with_capacity(alloc, specs.len())?;
    for spec in specs {
        heads.push(spec.head())?;
    }
    Ok(heads)
}

/// The longest text that begins every include's head; empty where there is no include.
fn common_prefix(alloc: Global, specs: &[CompiledSpec]) -> Result<Vec<u8>, AllocError>
    ensures { IfOk result (λ common. common.items ≡ common_prefix (specs_of specs.now)) }
{
    let mut common: Option<&[u8]> = None;
    for spec in specs {
        if spec.is_include() {
            let head = spec.head();
            common = match common {
                Some(front) => Some(common_front(front, head)),
                None => Some(head),
            };
        }
    }
    Vec::from_slice(alloc, common.unwrap_or(b""))
}

/// The longest front that two texts share.
fn common_front<'a>(left: &'a [u8], right: &[u8]) -> &'a [u8]
    ensures { result.now ≡ common_front left.now right.now }
{
    &left[..agreement(left, right)]
}

/// Clones each spec.
fn clone_all(alloc: Global, specs: &[CompiledSpec]) -> Result<Vec<CompiledSpec>, Error>
    ensures ok { IfOk result (λ copies. copies.items ≡ specs.now) }
    ensures err { IfErr result IsMemory }
{
    let mut copies = Vec::with_capacity(alloc, specs.len())?;
    for spec in specs {
        copies.push(spec.try_clone()?)?;
    }
    Ok(copies)
}

/// A copy of the source, if there is one.
fn clone_source(source: &Option<BString>) -> Result<Option<BString>, AllocError>
    ensures { IfOk result (λ copy.
        option_map bstring_bytes copy ≡ option_map bstring_bytes source.now) }
{
    match source {
        Some(text) => Ok(Some(text.clone()?)),
        None => Ok(None),
    }
}
