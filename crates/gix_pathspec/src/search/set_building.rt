//! Makes the sets of heads from the sources of specs.
//!
//! Sources are put in groups by their heads. Each group is looked at once, at its first source.
ghost use Rattle.std.specs.Prelude.{◌≡◌, ◌<◌, ◌≤◌, ◌*◌, ◌&&◌, ◌||◌, ℕ, true, false, not, All, List, Some, None, is_some, length, ltb, map, slice_get, IfOk, IfSome};
ghost use Rattle.pathspec_heads.specs.Groups.{IsGrouped};
ghost use Rattle.pathspec_heads.specs.Heads.{IsChainOf};
ghost use Rattle.gix_pathspec.specs.Bytes.{begins_with, is_empty};
ghost use Rattle.gix_pathspec.specs.Effort.{ArePlacesOf};
ghost use Rattle.gix_pathspec.specs.HeadSets.{set_heads, AreHeadSetsOf, IsHeadSetOf, IsUnread};
ghost use Rattle.gix_pathspec.specs.SetSources.{all_sources, ArePlain, ended_heads, has_set_behind, IsFirstOf, IsGroupOf, members_behind, numbers_behind, positions_from, SetSource};

use crate::by_head::head_set::HeadSet;
use crate::search::counted::{CountedHeads, SetHead};
use crate::search::members::room_for;
use crate::search::set_sources::{HeadedMember, ended_heads, headed_members};
use crate::search::spec::CompiledSpec;
use pathspec_glob_set::{GlobSet, Member};
use pathspec_heads::places::{CompareScratch, PlacesByHead};
use std::alloc::{AllocError, Global};

/// How many members a set has at least.
const FEWEST: usize = 4;

/// Makes the sets of all heads of some specs that have one. `heads` has the places of the specs by their heads.
///
/// # Errors
/// Memory runs out.
pub(super) fn sets_of_heads(
    alloc: Global,
    specs: &[CompiledSpec],
    heads: &CountedHeads,
) -> Result<Vec<HeadSet>, AllocError>
    requires { ArePlacesOf specs.now heads.now }
    ensures own { IfOk result (λ sets. AreHeadSetsOf (all_sources specs.now) sets.items) }
    ensures unread { IfOk result (λ sets. All IsUnread sets.items) }
{
    // In most searches no head has so many specs, and then no globs are copied.
    if heads.largest_group() < FEWEST {
        return Ok(Vec::new(alloc));
    }
    let sources = headed_members(alloc, specs)?;
    head_sets(alloc, &sources)
}

/// The numbers of sets, by their heads.
///
/// # Errors
/// Memory runs out.
pub(super) fn sets_by_head(alloc: Global, sets: &[HeadSet]) -> Result<CountedHeads, AllocError>
    ensures { IfOk result (λ places. IsGrouped (set_heads sets.now)
        places.heads places.starts places.order) }
{
    let mut heads = Vec::with_capacity(alloc, sets.len())?;
    for set in sets {
        heads.push(set.head().as_slice())?;
    }
    Ok(CountedHeads::new(PlacesByHead::new(alloc, &heads)?))
}

/// Makes the sets of all heads that have one.
///
/// The cost is that of a sort of the heads, and linear in the bytes of the globs; each token of a set is asked of each byte.
///
/// # Errors
/// Memory runs out.
fn head_sets(alloc: Global, sources: &[HeadedMember]) -> Result<Vec<HeadSet>, AllocError>
    requires plain { ArePlain sources.now }
    ensures own { IfOk result (λ sets. AreHeadSetsOf sources.now sets.items) }
    ensures unread { IfOk result (λ sets. All IsUnread sets.items) }
{
    let owned = ended_heads(alloc, sources)?;
    let texts = slices(alloc, &owned)?;
    let groups = PlacesByHead::new(alloc, &texts)?;
    let mut scratch = groups.new_scratch();
    let mut sets = Vec::new(alloc);
    for number in 0..sources.len() {
        let text = texts[number];
        let group = group_from(alloc, &groups, &texts, text, number, &mut scratch)?;
        let set = set_of_group(alloc, sources, sources[number].head(), group)?;
        if let Some(set) = set {
            sets.push(set)?;
        }
    }
    Ok(sets)
}

/// Texts as slices.
///
/// # Errors
/// Memory runs out.
pub(super) fn slices(alloc: Global, texts: &[Vec<u8>]) -> Result<Vec<&[u8]>, AllocError>
    ensures { IfOk result (λ slices. map (λ text. text.now) slices.items
        ≡ map (λ text. text.items) texts.now) }
{
    let mut slices = Vec::with_capacity(alloc, texts.len())?;
    for text in texts {
        slices.push(text.as_slice())?;
    }
    Ok(slices)
}

/// The places of the texts that the one at a place begins with, if it is the first of them; else None.
///
/// # Errors
/// Memory runs out.
fn group_from(
    alloc: Global,
    groups: &PlacesByHead,
    texts: &[&[u8]],
    text: &[u8],
    number: usize,
    scratch: &mut CompareScratch,
) -> Result<Option<Vec<usize>>, AllocError>
    requires text { slice_get (map (λ text. text.now) texts.now) number ≡ Some text.now }
    requires grouped { IsGrouped (map (λ text. text.now) texts.now)
        groups.now.heads groups.now.starts groups.now.order }
    ensures found { IfOk result (λ found. IfSome found (λ numbers.
        IsGroupOf (map (λ text. text.now) texts.now) number numbers.items)) }
    ensures none { IfOk result (λ found. found ≡ None
        → IsFirstOf (map (λ text. text.now) texts.now) number → ⊥) }
{
    let Some(group) = groups.longest_head_of(text, scratch).head else {
        return Ok(None);
    };
    if groups.next_place(group, 0) != Some(number) {
        return Ok(None);
    }
    Ok(Some(numbers_of(alloc, groups, texts, text, group)?))
}

/// The places of the texts that a text begins with, where `group` is the group of the longest.
///
/// # Errors
/// Memory runs out.
fn numbers_of(
    alloc: Global,
    groups: &PlacesByHead,
    texts: &[&[u8]],
    text: &[u8],
    group: usize,
) -> Result<Vec<usize>, AllocError>
    requires grouped { IsGrouped (map (λ text. text.now) texts.now)
        groups.now.heads groups.now.starts groups.now.order }
    requires within { group < length groups.now.heads }
    requires chain { IsChainOf groups.now.heads text.now group }
    ensures { IfOk result (λ numbers. numbers.items
        ≡ positions_from (begins_with text.now) 0 (map (λ text. text.now) texts.now)) }
{
    let _ = text;
    let count = texts.len();
    let mut numbers = Vec::new(alloc);
    let mut from = 0;
    while from < count {
        let Some(number) = groups.next_place(group, from) else {
            return Ok(numbers);
        };
        numbers.push(number)?;
        from = number + 1;
    }
    Ok(numbers)
}

/// Makes the set of a group of sources, if there is a group, and it has a set.
///
/// # Errors
/// Memory runs out.
fn set_of_group(
    alloc: Global,
    sources: &[HeadedMember],
    head: &[u8],
    group: Option<Vec<usize>>,
) -> Result<Option<HeadSet>, AllocError>
    requires { IfSome group (λ numbers. numbers.items ≡ numbers_behind head.now sources.now) }
    ensures made { IfOk result (λ made. IfSome made (λ set. (is_some group ≡ true)
        × IsHeadSetOf sources.now set × (set.head ≡ head.now))) }
    ensures none { IfOk result (λ made. made ≡ None → is_some group ≡ true
        → has_set_behind sources.now head.now ≡ false) }
    ensures unread { IfOk result (λ made. IfSome made IsUnread) }
{
    match group {
        Some(numbers) => set_of(alloc, sources, head, numbers),
        None => Ok(None),
    }
}

/// Makes the set of a head, of the sources with these numbers; None where they are too few, or their globs have too many places.
///
/// # Errors
/// Memory runs out.
fn set_of(
    alloc: Global,
    sources: &[HeadedMember],
    head: &[u8],
    numbers: Vec<usize>,
) -> Result<Option<HeadSet>, AllocError>
    requires { numbers.items ≡ numbers_behind head.now sources.now }
    ensures made { IfOk result (λ made. IfSome made (λ set.
        IsHeadSetOf sources.now set × (set.head ≡ head.now))) }
    ensures none { IfOk result (λ made. made ≡ None
        → has_set_behind sources.now head.now ≡ false) }
    ensures unread { IfOk result (λ made. IfSome made IsUnread) }
{
    if numbers.len() < FEWEST {
        return Ok(None);
    }
    let globs = globs_of(alloc, sources, head, &numbers)?;
    let Some(set) = GlobSet::new(alloc, &globs)? else {
        return Ok(None);
    };
    let head = SetHead::new(Vec::from_slice(alloc, head)?);
    let scratch = set.new_scratch(alloc, room_for(numbers.len(), sources.len()))?;
    Ok(Some(HeadSet::new(head, numbers, scratch)))
}

/// The globs of the sources with some numbers, behind their head.
///
/// # Errors
/// Memory runs out.
fn globs_of(
    alloc: Global,
    sources: &[HeadedMember],
    head: &[u8],
    numbers: &[usize],
) -> Result<Vec<Member>, AllocError>
    requires { numbers.now ≡ numbers_behind head.now sources.now }
    ensures { IfOk result (λ globs. globs.items ≡ members_behind head.now sources.now) }
{
    let _ = head;
    let mut globs = Vec::with_capacity(alloc, numbers.len())?;
    for number in numbers {
        globs.push(sources[*number].behind_head(alloc)?)?;
    }
    Ok(globs)
}

/// Whether one of the sets has this head.
pub(super) fn has_head(sets: &[HeadSet], head: &[u8]) -> bool
    ensures { (sources : List SetSource) → AreHeadSetsOf sources sets.now
        → result ≡ has_set_behind sources head.now }
{
    for set in sets {
        if set.head().as_slice() == head {
            return true;
        }
    }
    false
}
