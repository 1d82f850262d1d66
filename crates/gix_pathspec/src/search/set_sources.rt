//! What the sets of heads are made of: the globs that begin right behind the head of their spec.
ghost use Rattle.std.specs.Prelude.{◌≡◌, ◌↔◌, Some, map, IfOk, IsTrue};
ghost use Rattle.std.specs.Option.{option_map};
ghost use Rattle.gix_pathspec.specs.Prefixes.{head};
ghost use Rattle.gix_pathspec.specs.Room.{source_with};
ghost use Rattle.gix_pathspec.specs.SetSources.{all_sources, ended_heads, has_source, member_behind, set_source_of, source_places};

use crate::search::members::SetMember;
use crate::search::spec::{CompiledSpec, glob_mode};
use crate::search::spec_matching;
use pathspec_glob_set::Member;
use pathspec_parts::glob::{Mode, Tokens};
use std::alloc::{AllocError, Global};
use std::marker::Model;

/// What a member of a set is made of: a glob, and the head right behind which it begins.
#[derive(Drop)]
pub(crate) struct HeadedMember {
    pub(super) head: Vec<u8>,
    pub(super) member: SetMember,
}

impl Model for HeadedMember {
    ghost use Rattle.gix_pathspec.specs.SetSources.{SetSource};

    ghost Value = { SetSource };

    ghost view = { λ s. record { head = s.head.items; member = s.member } };
}

impl HeadedMember {
    /// The head.
    pub(super) fn head(&self) -> &[u8]
        ensures { result.now ≡ self.now.head }
    {
        &self.head
    }

    /// Makes the member: the tokens of the glob behind the head.
    ///
    /// # Errors
    /// Memory runs out.
    pub(super) fn behind_head(&self, alloc: Global) -> Result<Member, AllocError>
        ensures { IfOk result (λ member. member ≡ member_behind self.now) }
    {
        let mut tokens = Tokens::of_pattern(alloc, &self.member.pattern, self.member.mode)?;
        let place = self.head.len().min(tokens.len());
        Ok(Member {
            tokens: tokens.split_off(place)?,
            case: self.member.case,
            cuts: self.member.cuts,
        })
    }
}

impl CompiledSpec {
    /// The spec's glob with its head, as the source of a member of a set. None where the spec has no glob, or it doesn't begin right
    /// behind the head.
    ///
    /// # Errors
    /// Memory runs out.
    pub(super) fn headed_member(&self, alloc: Global) -> Result<Option<HeadedMember>, AllocError>
        ensures { IfOk result (λ source. source ≡ set_source_of self.now.spec) }
    {
        let Some(mode) = self.mode_behind_head() else {
            return Ok(None);
        };
        let member = SetMember {
            pattern: Vec::from_slice(alloc, self.path())?,
            mode,
            case: spec_matching::case_of(&self.pattern),
            cuts: self.asks_no_more(),
        };
        let head = Vec::from_slice(alloc, self.head())?;
        Ok(Some(HeadedMember { head, member }))
    }

    /// The mode of the spec's glob, where that begins right behind the head.
    fn mode_behind_head(&self) -> Option<Mode>
        ensures { option_map (λ mode. record {
          head = head self.now.spec;
          member = source_with self.now.spec
              (record { mode = mode; pattern = self.now.spec.path });
        }) result
            ≡ set_source_of self.now.spec }
    {
        if self.stem() != self.head() {
            return None;
        }
        glob_mode(&self.pattern, self.has_wildcard())
    }

    /// Whether the spec has a glob that begins right behind its head.
    pub(super) fn has_headed_member(&self) -> bool
        ensures { result ≡ has_source self.now.spec }
    {
        self.mode_behind_head().is_some()
    }

    /// Whether a source is that of the spec.
    pub(super) fn has_this_source(&self, source: &HeadedMember) -> bool
        ensures { IsTrue result ↔ (set_source_of self.now.spec ≡ Some source.now) }
    {
        let is_of = self.mode_behind_head() == Some(source.member.mode);
        is_of
            && source.head.as_slice() == self.head()
            && source.member.pattern.as_slice() == self.path()
            && source.member.case == spec_matching::case_of(&self.pattern)
            && source.member.cuts == self.asks_no_more()
    }
}

/// The sources of the specs that have one, in search order.
///
/// # Errors
/// Memory runs out.
pub(super) fn headed_members(
    alloc: Global,
    specs: &[CompiledSpec],
) -> Result<Vec<HeadedMember>, AllocError>
    ensures { IfOk result (λ sources. sources.items ≡ all_sources specs.now) }
{
    let mut sources = Vec::new(alloc);
    for spec in specs {
        if let Some(source) = spec.headed_member(alloc)? {
            sources.push(source)?;
        }
    }
    Ok(sources)
}

/// The places of the specs that have a source, in search order.
///
/// # Errors
/// Memory runs out.
pub(super) fn source_places(alloc: Global, specs: &[CompiledSpec]) -> Result<Vec<usize>, AllocError>
    ensures { IfOk result (λ places. places.items ≡ source_places specs.now) }
{
    let mut places = Vec::new(alloc);
    for (place, spec) in specs.iter().enumerate() {
        if spec.has_headed_member() {
            places.push(place)?;
        }
    }
    Ok(places)
}

/// The texts by which sources are put in groups: each head, with a star behind it.
///
/// # Errors
/// Memory runs out.
pub(super) fn ended_heads(
    alloc: Global,
    sources: &[HeadedMember],
) -> Result<Vec<Vec<u8>>, AllocError>
    ensures { IfOk result (λ texts. map (λ text. text.items) texts.items ≡ ended_heads sources.now) }
{
    let mut texts = Vec::with_capacity(alloc, sources.len())?;
    for source in sources {
        let mut text = Vec::from_slice(alloc, &source.head)?;
        text.push(b'*')?;
        texts.push(text)?;
    }
    Ok(texts)
}
