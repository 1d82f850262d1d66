//! Subtree excludes, which a search asks one by one whether a walk may skip a directory.
ghost use Rattle.std.specs.Prelude.{◌≡◌, ◌≤◌, ◌&&◌, true, [], ◌∷◌, ◌++◌, List, map, IfOk};
ghost use Rattle.bstr.specs.BStr.{bstr_bytes};
ghost use Rattle.gix_pathspec.specs.Bytes.{slash};
ghost use Rattle.gix_pathspec.specs.Paths.{without_last_slash};
ghost use Rattle.gix_pathspec.specs.Specs.{Spec};
ghost use Rattle.gix_pathspec.specs.Patterns.{pattern_spec};
ghost use Rattle.gix_pathspec.specs.Matching.{glob_matches};
ghost use Rattle.gix_pathspec.specs.Reach.{can_take_rest, subtree_excludes_of, takes_by_path};
ghost use Rattle.gix_pathspec.specs.Room.{tokens_of};
ghost use Rattle.gix_pathspec.specs.Search.{specs_of};
ghost use Rattle.gix_pathspec.specs.ExcludeSets.{exclude_head_beside};
ghost use Rattle.gix_pathspec.specs.SubtreeExcludes.{as_subtree_exclude, rest_glob, covers, exclude_head};

use crate::Pattern;
use crate::search::spec::{CompiledSpec, glob_mode};
use crate::search::spec_matching;
use bstr::BStr;
use pathspec_parts::glob::{DirectoryGlob, Scratch};
use pathspec_parts::path::strip_last_slash;
use std::alloc::{AllocError, Global};
use std::marker::Model;

/// An exclude that no table of paths answers for. Its glob can take all below a directory, as `:(exclude,glob)a/**`, or it has
/// a prefix directory before a path without case.
#[derive(Drop)]
pub(super) struct SubtreeExclude {
    pattern: Pattern,
    /// The glob; None for an exclude whose glob can't take all below a directory.
    glob: Option<DirectoryGlob>,
}

impl Model for SubtreeExclude {
    ghost use Rattle.gix_pathspec.specs.Specs.{Spec};
    ghost use Rattle.gix_pathspec.specs.Patterns.{pattern_spec};
    ghost use Rattle.gix_pathspec.specs.SubtreeExcludes.{IsSubtreeExclude};

    ghost Value = { Spec };

    ghost view = { λ t. pattern_spec t.pattern };

    ghost invariant = { λ t. IsSubtreeExclude (pattern_spec t.pattern) t.glob };
}

impl SubtreeExclude {
    /// The spec as a subtree exclude, if it is one. The cost is linear in the spec's text.
    ///
    /// # Errors
    /// Memory runs out.
    pub(super) fn of_spec(
        alloc: Global,
        spec: &CompiledSpec,
    ) -> Result<Option<SubtreeExclude>, AllocError>
        ensures { IfOk result (λ exclude. exclude ≡ as_subtree_exclude spec.now.spec) }
    {
        if !spec.takes_by_path() {
            return Ok(None);
        }
        let glob = rest_glob(alloc, spec)?;
        if glob.is_none() && spec.has_one_case() {
            return Ok(None);
        }
        match spec.pattern().try_clone() {
            Ok(pattern) => Ok(Some(SubtreeExclude { pattern, glob })),
            Err(_) => Err(AllocError),
        }
    }

    /// Whether the exclude takes all that lies below the directory, and perhaps the directory too, whatever a look-up says.
    /// Beside the steps of its glob, the call looks at each byte of its path a fixed number of times.
    pub(super) fn covers(&self, directory: BStr<'_>, globs: &mut Scratch) -> bool
        requires { tokens_of self.now ≤ globs.old.tokens }
        ensures answer { result ≡ covers self.now (bstr_bytes directory.entry) }
        ensures room { globs.new.tokens ≡ globs.old.tokens }
    {
        if !spec_matching::is_in_prefix_directory(&self.pattern, directory, true) {
            return false;
        }
        if spec_matching::is_verbatim_match(&self.pattern, directory, true)
            || spec_matching::is_prefix_match(&self.pattern, directory)
        {
            return true;
        }
        self.covers_rest(directory, globs)
    }

    /// Whether the exclude's glob has an open end, as `a/**`, and matches the directory and a slash, so all below it.
    fn covers_rest(&self, directory: BStr<'_>, globs: &mut Scratch) -> bool
        requires { tokens_of self.now ≤ globs.old.tokens }
        ensures answer { result ≡ (can_take_rest self.now
            && glob_matches self.now.mode self.now (bstr_bytes directory.entry ++ slash ∷ [])) }
        ensures room { globs.new.tokens ≡ globs.old.tokens }
    {
        match &self.glob {
            Some(glob) => {
                glob.matches(
                    directory.as_bytes(),
                    spec_matching::case_of(&self.pattern),
                    globs,
                )
            }
            None => false,
        }
    }
}

impl CompiledSpec {
    /// The text that begins, compared with case, every directory that the spec covers as a subtree exclude.
    fn exclude_head(&self) -> &[u8]
        ensures { result.now ≡ exclude_head self.now.spec }
    {
        if self.ignores_case() {
            self.pattern().prefix_directory().as_bytes()
        } else {
            strip_last_slash(self.stem()).0
        }
    }
}

/// Makes the subtree excludes of the specs, in their order, and the head by which each is looked for, where a set is asked or isn't.
///
/// # Errors
/// Memory runs out.
pub(super) fn excludes_with_heads(
    alloc: Global,
    specs: &[CompiledSpec],
    is_set_asked: bool,
) -> Result<(Vec<SubtreeExclude>, Vec<&[u8]>), AllocError>
    ensures excludes { IfOk result (λ pair. pair.0.items ≡ subtree_excludes_of (specs_of specs.now)) }
    ensures heads { IfOk result (λ pair. map (λ head. head.now) pair.1.items
        ≡ map (exclude_head_beside is_set_asked) pair.0.items) }
{
    let mut excludes = Vec::new(alloc);
    let mut heads = Vec::new(alloc);
    for spec in specs {
        if let Some(exclude) = SubtreeExclude::of_spec(alloc, spec)? {
            excludes.push(exclude)?;
            heads.push(head_beside(spec, is_set_asked))?;
        }
    }
    Ok((excludes, heads))
}

/// The head by which a subtree exclude is looked for: that of one in a set that is asked is a wildcard byte.
fn head_beside(spec: &CompiledSpec, is_set_asked: bool) -> &[u8]
    ensures { result.now ≡ exclude_head_beside is_set_asked spec.now.spec }
{
    if is_set_asked && spec.is_member() {
        b"*"
    } else {
        spec.exclude_head()
    }
}

/// Compiles the glob that an exclude compares with a directory and a slash; None where it can't take all below a directory.
///
/// # Errors
/// Memory runs out.
fn rest_glob(alloc: Global, spec: &CompiledSpec) -> Result<Option<DirectoryGlob>, AllocError>
    requires { takes_by_path spec.now.spec ≡ true }
    ensures { IfOk result (λ glob. glob ≡ rest_glob spec.now.spec) }
{
    if !spec.takes_rest() {
        return Ok(None);
    }
    match glob_mode(spec.pattern(), spec.has_wildcard()) {
        Some(mode) => Ok(Some(DirectoryGlob::compile(alloc, spec.path(), mode)?)),
        None => Ok(None),
    }
}
