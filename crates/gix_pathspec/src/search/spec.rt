//! Specs ready for matching.
ghost use Rattle.std.specs.Prelude.{◌≡◌, ◌↔◌, ◌≤◌, ◌&&◌, length, true, is_some, Some, IsTrue, IfOk, IfErr};
ghost use Rattle.std.specs.Option.{option_map};
ghost use Rattle.gix_pathspec.specs.Errors.{IsMemory};
ghost use Rattle.gix_pathspec.specs.Paths.{IsBytes};
ghost use Rattle.gix_pathspec.specs.Patterns.{pattern_spec};
ghost use Rattle.gix_pathspec.specs.Room.{glob_of};
ghost use Rattle.gix_pathspec.specs.Reach.{can_take_rest};
ghost use Rattle.gix_pathspec.specs.Specs.{has_wildcard, is_exclude};

use crate::search::members::SetMember;
use crate::search::spec_matching::{self, first_byte, last_byte};
use crate::{Error, MagicSignature, Pattern, SearchMode};
use bitflags::Flags;
use pathspec_heads::tables::{SpecStem, StemTable};
use pathspec_parts::attributes::Outcome;
use pathspec_parts::glob::{DirectoryGlob, Glob, Mode, Scratch, first_wildcard};
use std::alloc::{AllocError, Global};
use std::fmt;
use std::marker::Model;

/// A spec with its number, ready for matching. It prints as the spec.
#[derive(Drop)]
pub(crate) struct CompiledSpec {
    pub(super) pattern: Pattern,
    pub(super) number: usize,
    /// The length of the path's stem, in bytes.
    pub(super) stem: usize,
    /// The glob; None for a spec that compares its path literally.
    pub(super) glob: Option<Glob>,
    /// The first byte of each path that the spec matches, where the head doesn't tell it.
    pub(super) first: Option<u8>,
    /// The last byte of each path that the glob matches, where the pattern tells one.
    pub(super) last: Option<u8>,
    /// Whether the spec is an exclude whose glob can take all below a directory, as `:(exclude,glob)a/**`.
    pub(super) takes_rest: bool,
}

impl fmt::Debug for CompiledSpec {
    fn fmt<W: fmt::Write>(&self, f: &mut fmt::Formatter<W>) -> fmt::Result {
        self.pattern.fmt(f)
    }
}

impl Model for CompiledSpec {
    ghost use Rattle.gix_pathspec.specs.Patterns.{pattern_spec};
    ghost use Rattle.gix_pathspec.specs.Search.{Numbered};
    ghost use Rattle.gix_pathspec.specs.Compiled.{IsCompiled, numbered_pattern};

    ghost Value = { Numbered };

    ghost view = { λ c. numbered_pattern c.number c.pattern };

    ghost invariant = { λ c. IsCompiled (pattern_spec c.pattern) c.stem c.glob c.first c.last c.takes_rest };
}

impl CompiledSpec {
    ghost use Rattle.std.specs.Prelude.{List, IfSome};
    ghost use Rattle.gix_pathspec.specs.Patterns.{pattern_spec};
    ghost use Rattle.gix_pathspec.specs.Specs.{Spec, is_include, ignores_case, wants_directory, always_matches};
    ghost use Rattle.gix_pathspec.specs.Prefixes.{stem, head};
    ghost use Rattle.gix_pathspec.specs.Tables.{IsTableOf};
    ghost use Rattle.gix_pathspec.specs.Plain.{has_one_case};
    ghost use Rattle.gix_pathspec.specs.Pruning.{stem_of, is_total_exclude};
    ghost use Rattle.gix_pathspec.specs.Reach.{takes_by_path, is_tabled, path_of, taken_paths, is_shadowed, has_stem};
    ghost use Rattle.gix_pathspec.specs.Compiled.{numbered_pattern};
    ghost use Rattle.pathspec_parts.specs.Outcomes.{names_of};
    ghost use Rattle.gix_pathspec.specs.Room.{tokens_of, asks_no_more, attribute_names, exclude_source_of, source_with};

    /// Makes a pattern ready for matching, under its number. The cost is linear in its path.
    ///
    /// # Errors
    /// Memory runs out.
    pub(super) fn new(
        alloc: Global,
        pattern: Pattern,
        number: usize,
    ) -> Result<CompiledSpec, AllocError>
        ensures spec { IfOk result (λ spec. spec ≡ numbered_pattern number pattern) }
        ensures bytes { IfOk result (λ spec. IsBytes spec.spec.path) }
    {
        let stem = CompiledSpec::stem_length(&pattern);
        // The proof reads here, too, that the path is bytes.
        let is_wild = stem < pattern.path().as_bytes().len();
        let glob = compile_glob(alloc, &pattern, is_wild)?;
        let first = first_byte(&pattern, stem);
        let last = last_byte(&pattern, is_wild);
        let takes_rest = takes_rest(alloc, &pattern, is_wild)?;
        Ok(CompiledSpec {
            pattern,
            number,
            stem,
            glob,
            first,
            last,
            takes_rest,
        })
    }

    /// The length of a pattern's stem: the bytes of its path before the first wildcard, or all of them for the nil pattern.
    fn stem_length(pattern: &Pattern) -> usize
        ensures { result ≡ length (stem (pattern_spec pattern.now)) }
    {
        let path = pattern.path().as_bytes();
        if pattern.is_nil() {
            path.len()
        } else {
            first_wildcard(path).unwrap_or(path.len())
        }
    }

    /// Clones the spec, at the cost of [`CompiledSpec::new`].
    ///
    /// # Errors
    /// [`Error::Memory`] alone.
    pub(super) fn try_clone(&self) -> Result<CompiledSpec, Error>
        ensures ok { IfOk result (λ spec. spec ≡ self.now) }
        ensures err { IfErr result IsMemory }
    {
        let alloc = *self.pattern.attributes.allocator();
        Ok(CompiledSpec::new(alloc, self.pattern.try_clone()?, self.number)?)
    }

    /// The bytes of the spec's path.
    pub(super) fn path(&self) -> &[u8]
        ensures { result.now ≡ self.now.spec.path }
    {
        self.pattern.path().as_bytes()
    }

    /// The stem: the path before its first wildcard byte, or all of a nil spec's path.
    pub(super) fn stem(&self) -> &[u8]
        ensures { result.now ≡ stem self.now.spec }
    {
        &self.path()[..self.stem]
    }

    /// Whether the spec has a wildcard. Looks at no byte of the path.
    pub(super) fn has_wildcard(&self) -> bool
        ensures { result ≡ has_wildcard self.now.spec }
    {
        self.stem < self.path().len()
    }

    /// Whether the spec ignores ASCII case.
    pub(super) fn ignores_case(&self) -> bool
        ensures { result ≡ ignores_case self.now.spec }
    {
        spec_matching::ignores_case(&self.pattern)
    }

    /// Whether the spec takes only directories and what lies below them.
    pub(super) fn wants_directory(&self) -> bool
        ensures { result ≡ wants_directory self.now.spec }
    {
        self.pattern.signature.contains(MagicSignature::MUST_BE_DIR)
    }

    /// Whether the spec is an exclude that takes every path, whatever a look-up says.
    pub(super) fn is_total_exclude(&self) -> bool
        ensures { result ≡ is_total_exclude self.now.spec }
    {
        !self.is_include() && self.always_matches() && self.pattern.attributes.is_empty()
    }

    /// Whether the spec is an include that always matches.
    pub(super) fn is_total_include(&self) -> bool
        ensures { result ≡ (is_include self.now.spec && always_matches self.now.spec) }
    {
        self.is_include() && self.always_matches()
    }

    /// Whether the spec is an exclude that lists no attributes and doesn't always match.
    pub(super) fn takes_by_path(&self) -> bool
        ensures { result ≡ takes_by_path self.now.spec }
    {
        !self.is_include() && self.pattern.attributes.is_empty() && !self.always_matches()
    }

    /// Whether case counts in all of the path or nowhere: no prefix directory stands before a path without case.
    pub(super) fn has_one_case(&self) -> bool
        ensures { result ≡ has_one_case self.now.spec }
    {
        !(self.ignores_case() && !self.pattern.prefix_directory().as_bytes().is_empty())
    }

    /// Whether the spec is an exclude whose path stands in the table of taken paths.
    pub(super) fn is_tabled(&self) -> bool
        ensures { result ≡ is_tabled self.now.spec }
    {
        self.takes_by_path() && self.has_one_case()
    }

    /// The spec's path as a stem, for the table of taken paths.
    pub(super) fn as_path(&self) -> SpecStem<'_>
        ensures { result ≡ path_of self.now.spec }
    {
        SpecStem {
            text: self.path(),
            ignores_case: self.ignores_case(),
            has_wildcard: false,
            wants_directory: self.wants_directory(),
        }
    }

    /// Whether an exclude takes the path of an include without a wildcard, and so all that the include takes, as `:!a` does
    /// for `a/b`. The cost is that of [`StemTable::takes`].
    fn is_shadowed(&self, taken: &StemTable) -> bool
        ensures { (specs : List Spec) → IsTableOf (taken_paths specs) taken.now
            → result ≡ is_shadowed specs self.now.spec }
    {
        if self.always_matches() || self.has_wildcard() {
            return false;
        }
        if self.ignores_case() {
            taken.takes_folded(self.path(), self.wants_directory())
        } else {
            taken.takes(self.path(), self.wants_directory())
        }
    }

    /// Whether the spec is an include that doesn't always match, and whether an exclude shadows it is as `shadowed` says.
    pub(super) fn has_stem(&self, taken: &StemTable, shadowed: bool) -> bool
        ensures { (specs : List Spec) → IsTableOf (taken_paths specs) taken.now
            → result ≡ has_stem shadowed specs self.now.spec }
    {
        if !self.is_include() || self.always_matches() {
            return false;
        }
        let is_shadowed = self.is_shadowed(taken);
        if shadowed { is_shadowed } else { !is_shadowed }
    }

    /// The spec's stem, with the properties that a table of stems asks.
    pub(super) fn as_stem(&self) -> SpecStem<'_>
        ensures { result ≡ stem_of self.now.spec }
    {
        SpecStem {
            text: self.stem(),
            ignores_case: self.ignores_case(),
            has_wildcard: self.has_wildcard(),
            wants_directory: self.wants_directory(),
        }
    }

    /// The head of the spec: every path that it matches begins with the head, compared with case. It is the stem, without case
    /// the prefix directory, and empty for a nil spec.
    pub(super) fn head(&self) -> &[u8]
        ensures { result.now ≡ head self.now.spec }
    {
        if self.pattern.is_nil() {
            &[]
        } else if self.ignores_case() {
            self.pattern.prefix_directory().as_bytes()
        } else {
            self.stem()
        }
    }

    /// The spec's glob, as the source of a member of the set of the subtree excludes. None where the spec is no exclude whose glob can
    /// take all below a directory, or where it doesn't begin with a wildcard.
    ///
    /// # Errors
    /// Memory runs out.
    pub(super) fn source(&self, alloc: Global) -> Result<Option<SetMember>, AllocError>
        ensures { IfOk result (λ source. source ≡ exclude_source_of self.now.spec) }
    {
        let Some(mode) = self.member_mode() else {
            return Ok(None);
        };
        Ok(Some(SetMember {
            pattern: Vec::from_slice(alloc, self.path())?,
            mode,
            case: spec_matching::case_of(&self.pattern),
            cuts: self.asks_no_more(),
        }))
    }

    /// The mode of the spec's glob, where the spec is a member of the set.
    fn member_mode(&self) -> Option<Mode>
        ensures { option_map (λ mode. source_with self.now.spec
            (record { mode = mode; pattern = self.now.spec.path })) result
            ≡ exclude_source_of self.now.spec }
    {
        if !(self.takes_by_path() && self.takes_rest) {
            return None;
        }
        if self.stem != 0 || !self.head().is_empty() {
            return None;
        }
        glob_mode(&self.pattern, self.has_wildcard())
    }

    /// Whether the spec may be a member of the set.
    pub(super) fn is_member(&self) -> bool
        ensures { result ≡ is_some (exclude_source_of self.now.spec) }
    {
        self.member_mode().is_some()
    }

    /// Whether the spec matches where its glob does: it lists no attribute, wants no directory, and keeps no prefix directory.
    pub(super) fn asks_no_more(&self) -> bool
        ensures { result ≡ asks_no_more self.now.spec }
    {
        self.pattern.attributes.is_empty() && !self.wants_directory() && self.has_one_case()
    }

    /// Whether a source is that of the spec, as a member of the set.
    pub(super) fn has_source(&self, source: &SetMember) -> bool
        ensures { IsTrue result ↔ (exclude_source_of self.now.spec ≡ Some source.now) }
    {
        let is_of = self.member_mode() == Some(source.mode);
        is_of
            && source.pattern.as_slice() == self.path()
            && source.case == spec_matching::case_of(&self.pattern)
            && source.cuts == self.asks_no_more()
    }

    /// Whether the spec is an exclude whose glob can take all below a directory.
    pub(super) fn takes_rest(&self) -> bool
        ensures { result ≡ (is_exclude self.now.spec && can_take_rest self.now.spec) }
    {
        self.takes_rest
    }

    /// The spec as a pattern.
    pub(crate) fn pattern(&self) -> &Pattern
        ensures { pattern_spec result.now ≡ self.now.spec }
    {
        &self.pattern
    }

    /// The spec as a pattern, by value.
    pub(super) fn into_pattern(self) -> Pattern
        ensures { pattern_spec result ≡ self.spec }
    {
        self.pattern
    }

    /// Whether the spec is an include.
    pub(super) fn is_include(&self) -> bool
        ensures { result ≡ is_include self.now.spec }
    {
        !self.pattern.is_excluded()
    }

    /// Whether the spec matches every path, whatever its attributes say.
    pub(super) fn always_matches(&self) -> bool
        ensures { result ≡ always_matches self.now.spec }
    {
        self.pattern.always_matches()
    }

    /// The count of tokens of the spec's glob; 0 without a glob.
    pub(super) fn tokens(&self) -> usize
        ensures { result ≡ tokens_of self.now.spec }
    {
        match &self.glob {
            Some(glob) => glob.tokens(),
            None => 0,
        }
    }

    /// Makes an outcome with a place for the state of each attribute that the spec lists.
    ///
    /// # Errors
    /// Memory runs out.
    pub(super) fn new_outcome(&self, alloc: Global) -> Result<Outcome, AllocError>
        ensures { IfOk result (λ outcome. names_of outcome ≡ attribute_names self.now.spec) }
    {
        Outcome::for_assignments(alloc, &self.pattern.attributes)
    }

    /// Whether the scratch has room for the spec's glob, and the outcome for the states of its attributes.
    pub(super) fn fits(&self, globs: &Scratch, outcome: &Outcome) -> bool
        ensures { IsTrue result ↔ (tokens_of self.now.spec ≤ globs.now.tokens)
            × (names_of outcome.now ≡ attribute_names self.now.spec) }
    {
        let has_room = match &self.glob {
            Some(glob) => glob.fits(globs),
            None => true,
        };
        has_room && outcome.is_for(&self.pattern.attributes)
    }

    /// The place of the spec in the list that the search was made from, counted from 0.
    pub(crate) fn number(&self) -> usize
        ensures { result ≡ self.now.number }
    {
        self.number
    }
}

/// The mode of a pattern's glob; None where the pattern compares its path literally. `is_wild` says whether it has a wildcard.
pub(super) fn glob_mode(pattern: &Pattern, is_wild: bool) -> Option<Mode>
    requires { is_wild ≡ has_wildcard (pattern_spec pattern.now) }
    ensures { let spec = pattern_spec pattern.now in
        option_map (λ mode. record { mode = mode; pattern = spec.path }) result ≡ glob_of spec }
{
    if !is_wild {
        return None;
    }
    match pattern.search_mode {
        SearchMode::ShellGlob => Some(Mode::Shell),
        SearchMode::Literal => None,
        SearchMode::PathAwareGlob => Some(Mode::PathAware),
    }
}

/// Whether a pattern is an exclude whose glob can take all below a directory. `is_wild` says whether it has a wildcard. The cost is
/// linear in the path.
///
/// # Errors
/// Memory runs out.
fn takes_rest(alloc: Global, pattern: &Pattern, is_wild: bool) -> Result<bool, AllocError>
    requires { is_wild ≡ has_wildcard (pattern_spec pattern.now) }
    ensures { IfOk result (λ takes_rest. takes_rest ≡ (is_exclude (pattern_spec pattern.now)
        && can_take_rest (pattern_spec pattern.now))) }
{
    if !pattern.is_excluded() || !pattern.attributes.is_empty() {
        return Ok(false);
    }
    if pattern.signature.contains(MagicSignature::MUST_BE_DIR) {
        return Ok(false);
    }
    match glob_mode(pattern, is_wild) {
        Some(mode) => {
            let glob = DirectoryGlob::compile(alloc, pattern.path().as_bytes(), mode)?;
            Ok(glob.has_open_end())
        }
        None => Ok(false),
    }
}

/// Compiles a pattern's glob; None for a pattern that compares its path literally. `is_wild` says whether the pattern has a
/// wildcard. The cost is linear in the path.
///
/// # Errors
/// Memory runs out.
pub fn compile_glob(
    alloc: Global,
    pattern: &Pattern,
    is_wild: bool,
) -> Result<Option<Glob>, AllocError>
    requires { is_wild ≡ has_wildcard (pattern_spec pattern.now) }
    ensures { IfOk result (λ glob. glob ≡ glob_of (pattern_spec pattern.now)) }
{
    match glob_mode(pattern, is_wild) {
        Some(mode) => Ok(Some(Glob::compile(alloc, pattern.path().as_bytes(), mode)?)),
        None => Ok(None),
    }
}
