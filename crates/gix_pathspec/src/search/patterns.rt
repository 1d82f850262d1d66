//! Answers of a search about its specs, and the iterators over them.
ghost use Rattle.std.specs.Prelude.{◌≡◌, find, length, IfSome, Some, ⊤, ◌≤◌, MatchOption, IsTrue, IsFalse};
ghost use Rattle.std.specs.Option.{option_map};
ghost use Rattle.std.specs.Iterator.{YieldsFirstBy, UpTo, item_count};
ghost use Rattle.std.specs.Iterator.SizeHint.{IsWithinCount};
ghost use Rattle.bstr.specs.BStr.{bstr_bytes};
ghost use Rattle.gix_pathspec.specs.Specs.{is_include, wants_directory};
ghost use Rattle.gix_pathspec.specs.Patterns.{pattern_spec};
ghost use Rattle.gix_pathspec.specs.SelectionLaws.{ChosenBeginsCommon};
ghost use Rattle.std.specs.List.{list_any, before_last};
ghost use Rattle.gix_pathspec.specs.Attributes.{Table};
ghost use Rattle.gix_pathspec.specs.Paths.{is_slash};
ghost use Rattle.gix_pathspec.specs.Directories.{parent_or_self, parent, non_empty, front, leading_front, front_for, agrees_in_front, settles, settling_answer, allows_directory, directory_matches, ends_at_boundary, common_directory};
ghost use Rattle.gix_pathspec.specs.DirectoryLaws.{OutsideFitsNone, OutsideIsSafe, LeadingIsWider, CommonDirectoryHoldsAll};

use crate::Pattern;
use crate::by_head::SpecsByHead;
use crate::search::Search;
use crate::search::directories::{non_empty, parent};
use crate::search::spec::CompiledSpec;
use bstr::BStr;
use std::alloc::AllocError;
use std::marker::Model;
use std::vec;

impl Search {
    ghost use Rattle.std.specs.Prelude.{◌&&◌, filter, if◌then◌else◌};
    ghost use Rattle.std.specs.List.{list_all};
    ghost use Rattle.gix_pathspec.specs.Prefixes.{common_prefix, IsCommonPrefix, first_prefix_directory};
    ghost use Rattle.gix_pathspec.specs.Search.{specs_of};

    /// The longest text that begins each include's head, and so each path that an include matches; empty without an include.
    ///
    /// The head of a spec is its path before the first wildcard byte, as `src/` for `src/*.rs`. A spec without case has its
    /// prefix directory as head, and a nil spec an empty one. The call takes constant time.
    pub fn common_prefix(&self) -> BStr<'_>
        ensures value { bstr_bytes result ≡ common_prefix (specs_of self.now.specs) }
        ensures longest { IsCommonPrefix (specs_of self.now.specs) (bstr_bytes result) }
        // Each path that specs choose begins with their common prefix.
        ensures chosen { ChosenBeginsCommon }
    {
        BStr::new(self.specs.common_prefix())
    }

    /// The prefix directory of the first include, or the empty text without an include. The call looks at each exclude once,
    /// and at no byte of a path.
    pub fn prefix_directory(&self) -> BStr<'_>
        ensures { bstr_bytes result ≡ first_prefix_directory (specs_of self.now.specs) }
    {
        match self.first_include() {
            Some(first) => first.pattern().prefix_directory(),
            None => BStr::new(b""),
        }
    }

    /// The longest directory, as the includes tell it, that every selected path is or lies in (gix-pathspec's call of this
    /// name). None where there is no include, or where the directory is the whole tree.
    ///
    /// The directory is the common prefix if the first include wants a directory and each include's path ends there or goes on
    /// with a slash. Otherwise it is the common prefix before its last slash: `src` for `src/*.rs`, and None for `src`.
    ///
    /// The call looks at each byte of the common prefix at most once, and at one byte of each spec.
    pub fn longest_common_directory(&self) -> Option<BStr<'_>>
        ensures answer { option_map bstr_bytes result ≡ common_directory (specs_of self.now.specs) }
        // Every chosen path lies at or below the directory.
        ensures holds_all { (table : Table)
            → CommonDirectoryHoldsAll table (specs_of self.now.specs) }
    {
        match self.first_include() {
            Some(first) => non_empty(self.common_directory_from(first)),
            None => None,
        }
    }

    /// The longest common directory of the includes, of which `first` is the first, as [`Search::longest_common_directory`]
    /// says. It is empty for the whole tree.
    fn common_directory_from(&self, first: &CompiledSpec) -> &[u8]
        ensures { let specs = specs_of self.now.specs in let common = common_prefix specs in
            result.now ≡ (if wants_directory first.now.spec
            && list_all (ends_at_boundary common) (filter is_include specs)
            then common else parent common) }
    {
        let common = self.common_prefix().as_bytes();
        if first.wants_directory() && self.ends_at_boundary(common) {
            common
        } else {
            parent(common)
        }
    }

    /// Whether each include's path ends after as many bytes as `common` has, or has a slash there.
    fn ends_at_boundary(&self, common: &[u8]) -> bool
        ensures { result ≡ list_all (ends_at_boundary common.now)
            (filter is_include (specs_of self.now.specs)) }
    {
        self.specs
            .as_slice()
            .iter()
            .all(|spec| !spec.is_include() || spec.ends_at_boundary(common))
    }

    /// The first include in search order.
    pub(super) fn first_include(&self) -> Option<&CompiledSpec>
        ensures { option_map (λ c. c.now.spec) result
            ≡ find is_include (specs_of self.now.specs) }
    {
        self.specs.as_slice().iter().find(|spec| spec.is_include())
    }

    /// The specs in search order: excludes first, each group in the order in which the specs were given. Takes constant time.
    pub fn patterns(&self) -> Patterns<'_>
        ensures { result ≡ specs_of self.now.specs }
    {
        Patterns {
            rest: self.specs.as_slice(),
        }
    }

    /// The specs by value, in search order.
    pub fn into_patterns(self) -> IntoPatterns
        ensures { result ≡ specs_of self.specs }
    {
        let Search {
            specs,
            scratch: _scratch,
            reach: _reach,
            excludes: _excludes,
            nil: _nil,
            source: _source,
        } = self;
        IntoPatterns {
            rest: specs.into_counted().into_specs().into_iter(),
        }
    }
}

impl SpecsByHead {
    /// The specs, to read. A match stands outside of the module `search`, so it can't call this.
    pub(super) fn as_slice(&self) -> &[CompiledSpec]
        ensures { result.now ≡ self.now }
    {
        self.counted().as_slice()
    }
}

/// An iterator over a search's specs in search order, made by [`Search::patterns`]. It knows how many are left.
#[derive(Debug, Drop)]
pub struct Patterns<'a> {
    rest: &'a [CompiledSpec],
}

impl<'a> Model for Patterns<'a> {
    ghost use Rattle.std.specs.Prelude.{List};
    ghost use Rattle.gix_pathspec.specs.Specs.{Spec};
    ghost use Rattle.gix_pathspec.specs.Search.{specs_of};

    ghost Value = { List Spec };

    ghost view = { λ it. specs_of it.rest.now };
}

impl<'a> Iterator for Patterns<'a> {
    type Item = &'a Pattern;

    ghost next_gives = { YieldsFirstBy (λ p. pattern_spec p.now) (λ rest. rest) };

    ghost remaining = { item_count (λ rest. rest) };

    fn next(&mut self) -> Option<&'a Pattern> {
        let (first, rest) = self.rest.split_first()?;
        self.rest = rest;
        Some(first.pattern())
    }

    fn size_hint(&self) -> (usize, Option<usize>)
        ensures lower { IsWithinCount result.0 (item_count (λ rest. rest) self.now) }
        ensures upper { IfSome result.1 (UpTo (item_count (λ rest. rest) self.now)) }
        ensures exact { result ≡ (length self.now, Some (length self.now)) }
    {
        let length = self.len();
        (length, Some(length))
    }
}

impl ExactSizeIterator for Patterns<'_> {
    fn len(&self) -> usize {
        self.rest.len()
    }
}

impl Clone for Patterns<'_> {
    ghost is_clone = { λ s t. t ≡ s };

    ghost is_infallible = { λ _. ⊤ };

    fn clone(&self) -> Result<Self, AllocError> {
        Ok(Patterns { rest: self.rest })
    }
}

/// An iterator over a search's specs by value, in search order, made by [`Search::into_patterns`]. It knows how many are left.
#[derive(Debug, Drop)]
pub struct IntoPatterns {
    rest: vec::IntoIter<CompiledSpec>,
}

impl Model for IntoPatterns {
    ghost use Rattle.std.specs.Prelude.{List};
    ghost use Rattle.std.specs.Vec.Iter.{into_iter_items};
    ghost use Rattle.gix_pathspec.specs.Specs.{Spec};
    ghost use Rattle.gix_pathspec.specs.Search.{specs_of};

    ghost Value = { List Spec };

    ghost view = { λ it. specs_of (into_iter_items it.rest) };
}

impl Iterator for IntoPatterns {
    type Item = Pattern;

    ghost next_gives = { YieldsFirstBy pattern_spec (λ rest. rest) };

    ghost remaining = { item_count (λ rest. rest) };

    fn next(&mut self) -> Option<Pattern> {
        match self.rest.next() {
            Some(spec) => Some(spec.into_pattern()),
            None => None,
        }
    }

    fn size_hint(&self) -> (usize, Option<usize>)
        ensures lower { IsWithinCount result.0 (item_count (λ rest. rest) self.now) }
        ensures upper { IfSome result.1 (UpTo (item_count (λ rest. rest) self.now)) }
        ensures exact { result ≡ (length self.now, Some (length self.now)) }
    {
        let length = self.len();
        (length, Some(length))
    }
}

impl ExactSizeIterator for IntoPatterns {
    fn len(&self) -> usize {
        self.rest.len()
    }
}
