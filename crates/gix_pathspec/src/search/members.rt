//! What sets are made of, and the places of the members of the sets of heads.
ghost use Rattle.std.specs.Prelude.{◌≡◌, map, IfOk};
ghost use Rattle.std.specs.Box.{box_value};
ghost use Rattle.gix_pathspec.specs.Room.{has_members, made_sources, member_sources};
ghost use Rattle.gix_pathspec.specs.Sets.{member_from};

use crate::search::counted::CountedHeads;
use crate::search::spec::CompiledSpec;
use pathspec_glob_set::Member;
use pathspec_parts::glob::{Case, Mode, Tokens};
use std::alloc::{AllocError, Global};
use std::marker::Model;

/// How many specs a set has at least.
pub(super) const FEWEST: usize = 4;

/// How many bytes the rows of all sets of heads take at most.
const ROOM: usize = 9 << 20;

/// How many bytes the rows of a set take at most for each of its globs.
const ROOM_PER_GLOB: usize = 64 << 10;

/// How many bytes the rows of a set may take, which has so many of all globs in sets.
pub(super) fn room_for(count: usize, all: usize) -> usize {
    let each = ROOM.checked_div(all).unwrap_or(ROOM).min(ROOM_PER_GLOB);
    each.saturating_mul(count)
}

/// What a member of a set is made of: the glob of a spec, whether case counts, and whether the spec matches where its glob does.
#[derive(Drop)]
pub(crate) struct SetMember {
    pub(super) pattern: Vec<u8>,
    pub(super) mode: Mode,
    pub(super) case: Case,
    pub(super) cuts: bool,
}

impl Model for SetMember {
    ghost use Rattle.gix_pathspec.specs.Room.{MemberSource};

    ghost Value = { MemberSource };

    ghost view = { λ s. record { glob = record { mode = s.mode; pattern = s.pattern.items }; case = s.case; cuts = s.cuts } };
}

impl SetMember {
    /// Makes the member.
    ///
    /// # Errors
    /// Memory runs out.
    fn member(&self, alloc: Global) -> Result<Member, AllocError>
        ensures { IfOk result (λ member. member ≡ member_from self.now) }
    {
        Ok(Member {
            tokens: Tokens::of_pattern(alloc, &self.pattern, self.mode)?,
            case: self.case,
            cuts: self.cuts,
        })
    }
}

/// The places of the members of all sets of heads, and all places by the heads that are looked for beside the sets.
#[derive(Drop)]
pub(crate) struct Members {
    places: Vec<usize>,
    others: Box<CountedHeads>,
}

impl Members {
    /// Puts the places of the specs whose glob begins right behind their head together with those by heads.
    pub(super) fn new(places: Vec<usize>, others: Box<CountedHeads>) -> Members
        ensures places { result.places ≡ places }
        ensures others { result.others ≡ others }
    {
        Members { places, others }
    }

    /// The heads that are looked for beside the sets.
    pub(crate) fn others(&self) -> &CountedHeads
        ensures { result.now ≡ box_value self.now.others }
    {
        &self.others
    }

    /// The places in search order of the specs whose glob begins right behind their head.
    pub(crate) fn places(&self) -> &[usize]
        ensures { result.now ≡ self.now.places.items }
    {
        &self.places
    }
}

/// What the set of the subtree excludes is made of, in search order.
///
/// # Errors
/// Memory runs out.
pub(super) fn sources(alloc: Global, specs: &[CompiledSpec]) -> Result<Vec<SetMember>, AllocError>
    ensures { IfOk result (λ sources. sources.items ≡ member_sources specs.now) }
{
    let mut sources = Vec::new(alloc);
    for spec in specs {
        if let Some(source) = spec.source(alloc)? {
            sources.push(source)?;
        }
    }
    Ok(sources)
}

/// Makes the members of a set.
///
/// # Errors
/// Memory runs out.
pub(super) fn make_members(alloc: Global, sources: &[SetMember]) -> Result<Vec<Member>, AllocError>
    ensures { IfOk result (λ members. members.items ≡ map member_from sources.now) }
{
    let mut members = Vec::with_capacity(alloc, sources.len())?;
    for source in sources {
        members.push(source.member(alloc)?)?;
    }
    Ok(members)
}

/// Whether enough subtree excludes may be members for a set.
pub(super) fn has_set(specs: &[CompiledSpec]) -> bool
    ensures { result ≡ has_members specs.now }
{
    let mut count: usize = 0;
    for spec in specs {
        if spec.is_member() {
            count += 1;
        }
    }
    count >= FEWEST
}

/// What the set of the subtree excludes is made of, in search order; nothing without a set.
///
/// # Errors
/// Memory runs out.
pub(super) fn set_sources(
    alloc: Global,
    specs: &[CompiledSpec],
) -> Result<Vec<SetMember>, AllocError>
    ensures { IfOk result (λ sources. sources.items ≡ made_sources specs.now) }
{
    if has_set(specs) {
        sources(alloc, specs)
    } else {
        Ok(Vec::new(alloc))
    }
}
