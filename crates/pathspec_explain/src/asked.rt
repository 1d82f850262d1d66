//! Specs that are asked why they match paths.
ghost use Rattle.std.specs.Prelude.{◌≡◌, IfOk, IfErr};
ghost use Rattle.bstr.specs.BStr.{bstr_bytes};
ghost use Rattle.pathspec_parts.specs.Attributes.{AsksLookUp};
ghost use Rattle.gix_pathspec.specs.Patterns.{pattern_spec};
ghost use Rattle.gix_pathspec.specs.Matching.{spec_matches};
ghost use Rattle.gix_pathspec.specs.Room.{glob_size};
ghost use Rattle.gix_pathspec.specs.Errors.{IsMemory};
ghost use Rattle.gix_pathspec.specs.Search.{specs_of};
ghost use Rattle.pathspec_explain.specs.Reasons.{IsReason, is_match, without_case};

use crate::Reason;
use crate::states::reason_where_it_fits;
use crate::why::why_not;
use bitflags::Flags;
use bstr::BStr;
use gix_pathspec::attributes::{LookUp, Outcome};
use gix_pathspec::search::spec_matching::{compile_glob, match_kind};
use gix_pathspec::{Error, MagicSignature, Pattern, Search};
use pathspec_glob::{Glob, Scratch};
use std::alloc::Global;
use std::marker::Model;

/// A normalised pattern that is asked why it matches paths, with the room for that. A contract sees its spec.
#[derive(Drop)]
pub struct AskedSpec<'p> {
    pattern: &'p Pattern,
    /// The pattern without case.
    folded: Pattern,
    /// The glob of both.
    glob: Option<Glob>,
    globs: Scratch,
    outcome: Outcome,
}

impl<'p> Model for AskedSpec<'p> {
    ghost use Rattle.gix_pathspec.specs.Specs.{Spec};
    ghost use Rattle.gix_pathspec.specs.Patterns.{pattern_spec};
    ghost use Rattle.pathspec_explain.specs.AskedSpecs.{IsAsked};

    ghost Value = { Spec };

    ghost view = { λ a. pattern_spec a.pattern.now };

    ghost invariant = { λ a. IsAsked (pattern_spec a.pattern.now) (pattern_spec a.folded) a.glob a.globs.tokens a.outcome };
}

impl<'p> AskedSpec<'p> {
    /// Makes a pattern ready to be asked. The cost is linear in its path and its attributes.
    ///
    /// # Errors
    /// [`Error::Memory`] alone.
    pub fn new(alloc: Global, pattern: &'p Pattern) -> Result<AskedSpec<'p>, Error>
        ensures ok { IfOk result (λ asked. asked ≡ pattern_spec pattern.now) }
        ensures err { IfErr result IsMemory }
    {
        let folded = without_case(pattern)?;
        let glob = compile_glob(alloc, pattern, pattern.has_wildcard())?;
        let globs = Scratch::for_tokens(alloc, tokens(&glob))?;
        let outcome = Outcome::for_assignments(alloc, &pattern.attributes)?;
        Ok(AskedSpec {
            pattern,
            folded,
            glob,
            globs,
            outcome,
        })
    }

    /// The pattern.
    pub fn pattern(&self) -> &Pattern
        ensures { pattern_spec result.now ≡ self.now }
    {
        self.pattern
    }

    /// Why the spec matches a path that isn't empty, or why it doesn't. A directory's path has no slash at its end. The call
    /// compares the path with the spec at most three times. It asks the look-up once, and only where the spec fits and lists
    /// attributes. It takes no memory.
    ///
    /// # Errors
    /// The look-up's fault, and only where the look-up failed in this call.
    pub fn reason<L: LookUp>(
        &mut self,
        path: BStr<'_>,
        is_dir: bool,
        look_up: &mut L,
    ) -> Result<Reason, L::Fault>
        ensures kept { self.new ≡ self.old }
        ensures reason { IfOk result (IsReason (L.table look_up.old) self.old
            (bstr_bytes path.entry) is_dir) }
        ensures matches { IfOk result (λ reason. is_match reason
            ≡ spec_matches (L.table look_up.old) self.old (bstr_bytes path.entry) is_dir) }
        ensures look_up { AsksLookUp (L.table look_up.old) (L.failures look_up.old)
            (L.table look_up.new) (L.failures look_up.new) result }
    {
        let globs = &mut self.globs;
        match match_kind(self.pattern, &self.glob, globs, path, is_dir) {
            Some(kind) => {
                let outcome = &mut self.outcome;
                reason_where_it_fits(self.pattern, kind, outcome, path, is_dir, look_up)
            }
            None => Ok(why_not(self.pattern, &self.folded, &self.glob, globs, path, is_dir)),
        }
    }
}

/// Makes each spec of a search ready to be asked, in search order: excludes first, each group in the order in which the specs were
/// given. The cost is linear in the bytes of all specs.
///
/// # Errors
/// [`Error::Memory`] alone.
pub fn asked_specs(alloc: Global, search: &Search) -> Result<Vec<AskedSpec<'_>>, Error>
    ensures ok { IfOk result (λ asked. asked.items ≡ specs_of search.now.specs) }
    ensures err { IfErr result IsMemory }
{
    let mut asked = Vec::new(alloc);
    let mut patterns = search.patterns();
    while let Some(pattern) = patterns.next() {
        asked.push(AskedSpec::new(alloc, pattern)?)?;
    }
    Ok(asked)
}

/// A copy of a pattern for which case doesn't count.
fn without_case(pattern: &Pattern) -> Result<Pattern, Error>
    ensures ok { IfOk result (λ folded. pattern_spec folded ≡ without_case (pattern_spec pattern.now)) }
    ensures err { IfErr result IsMemory }
{
    let mut folded = pattern.try_clone()?;
    folded.signature.insert(MagicSignature::ICASE);
    Ok(folded)
}

/// The count of tokens of a glob; 0 without one.
fn tokens(glob: &Option<Glob>) -> usize
    ensures { result ≡ glob_size glob.now }
{
    match glob {
        Some(glob) => glob.tokens(),
        None => 0,
    }
}
