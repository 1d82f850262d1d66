//! The specs of a job: a search of words, or a builder of searches of lines.
ghost use Rattle.std.specs.Prelude.{◌≡◌, Some, None, map, IfOk, IsTrue};
ghost use Rattle.bstr.specs.BStr.{bstr_bytes};
ghost use Rattle.pathspec_parts.specs.Paths.{is_clean_prefix};
ghost use Rattle.gix_pathspec.specs.Patterns.{pattern_spec};
ghost use Rattle.gix_pathspec.specs.Search.{IsFresh, search_of};
ghost use Rattle.pathspec_select.specs.Refusals.{ComputesRequest};
ghost use Rattle.pathspec_select.specs.Requests.{spec_result, built_specs};

use crate::Refusal;
use bstr::{BStr, BString};
use gix_pathspec::{Defaults, Pattern, Search};
use std::alloc::{AllocError, Global};
use std::marker::Model;

/// The specs of a job, by where they stand.
#[derive(Drop)]
pub(crate) enum JobSpecs {
    /// The search of specs that stand in the words.
    FromWords(Search),
    /// The builder of a search of specs that stand first in the input.
    FromInput(SearchBuilder),
}

/// A builder of searches of the lines at the front of an input.
#[derive(Drop)]
pub(crate) struct SearchBuilder {
    source: BString,
    defaults: Defaults,
    prefix: Vec<u8>,
    root: Vec<u8>,
}

impl Model for SearchBuilder {
    ghost use Rattle.std.specs.Prelude.{IsTrue};
    ghost use Rattle.bstr.specs.Owned.{bstring_bytes};
    ghost use Rattle.pathspec_parts.specs.Paths.{is_clean_prefix};
    ghost use Rattle.pathspec_select.specs.Requests.{BuilderContents};

    ghost Value = { BuilderContents };

    ghost view = { λ b. record { source = bstring_bytes b.source; defaults = b.defaults; prefix = b.prefix.items; root = b.root.items } };

    ghost invariant = { λ b. IsTrue (is_clean_prefix b.prefix.items) };
}

impl SearchBuilder {
    /// Makes a builder for specs from `source` that are given, under `defaults`, in the directory `prefix` of the repository
    /// at `root`. It copies the three texts.
    pub(crate) fn new(
        alloc: Global,
        source: &[u8],
        defaults: Defaults,
        prefix: &[u8],
        root: &[u8],
    ) -> Result<SearchBuilder, AllocError>
        requires { IsTrue (is_clean_prefix prefix.now) }
        ensures { IfOk result (λ builder. builder ≡ record {
          source = source.now;
          defaults = defaults;
          prefix = prefix.now;
          root = root.now;
        }) }
    {
        Ok(SearchBuilder {
            source: BString::from_slice(alloc, source)?,
            defaults,
            prefix: Vec::from_slice(alloc, prefix)?,
            root: Vec::from_slice(alloc, root)?,
        })
    }

    /// The name of the source.
    pub(crate) fn source(&self) -> BStr<'_>
        ensures { bstr_bytes result ≡ self.now.source }
    {
        self.source.as_bstr()
    }

    /// Builds the search of the specs on the lines of a text.
    ///
    /// # Errors
    /// [`Refusal::Spec`] as [`Search::from_lines`] says; [`Refusal::Memory`].
    pub(crate) fn build(&self, alloc: Global, lines: &[u8]) -> Result<Search, Refusal>
        ensures specs { ComputesRequest (λ search. search.specs)
            (built_specs self.now lines.now) result }
        ensures source { IfOk result (λ search. search.source ≡ Some self.now.source) }
    {
        let prefix = Some(BStr::new(self.prefix.as_slice()));
        let root = BStr::new(self.root.as_slice());
        match Search::from_lines(alloc, lines, self.source(), self.defaults, prefix, root) {
            Ok(search) => Ok(search),
            Err(error) => Err(Refusal::of_build(error)),
        }
    }
}

/// Makes the search of specs that are given in the directory `prefix` of the repository at `root`.
pub(crate) fn search(
    alloc: Global,
    patterns: Vec<Pattern>,
    prefix: &[u8],
    root: &[u8],
) -> Result<Search, Refusal>
    requires { IsTrue (is_clean_prefix prefix.now) }
    ensures specs { ComputesRequest (λ search. search.specs)
        (spec_result (search_of prefix.now root.now (map pattern_spec patterns.items))) result }
    ensures source { IfOk result (λ search. search.source ≡ None) }
    ensures effort { IfOk result (λ search. IsFresh search.counts) }
{
    match Search::from_specs(alloc, patterns, Some(BStr::new(prefix)), BStr::new(root)) {
        Ok(search) => Ok(search),
        Err(error) => Err(Refusal::of_build(error)),
    }
}
