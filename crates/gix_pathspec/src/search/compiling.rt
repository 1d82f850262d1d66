//! Makes specs ready for matching: reads the lines of a text, normalises each spec and gives it its number.
ghost use Rattle.std.specs.Prelude.{◌≡◌, List, Ok, Err, None, map, IfOk, IfErr, IsTrue, Some, OnOk};
ghost use Rattle.std.specs.Iterator.{Drains, IsFinite};
ghost use Rattle.std.specs.Option.{option_map};
ghost use Rattle.std.specs.Box.{box_value};
ghost use Rattle.bstr.specs.BStr.{bstr_bytes};
ghost use Rattle.bstr.specs.Owned.{bstring_bytes};
ghost use Rattle.pathspec_parts.specs.Paths.{is_clean_prefix};
ghost use Rattle.gix_pathspec.specs.Errors.{IsMemory};
ghost use Rattle.gix_pathspec.specs.Patterns.{pattern_spec};
ghost use Rattle.gix_pathspec.specs.NormalForm.{NormalFormIsNormal};
ghost use Rattle.gix_pathspec.specs.Prefixes.{common_front, common_prefix};
ghost use Rattle.gix_pathspec.specs.Search.{KeepsSpecs, IsFresh, specs_of, numbered_from, in_search_order, search_of, HoldsNormalForms, at_number};
ghost use Rattle.gix_pathspec.specs.Effort.{ArePlacesOf, heads_in_order};
ghost use Rattle.gix_pathspec.specs.Building.{prefix_bytes, TellsFault, Builds, IsErrorAt, AreNumbered, AddsNext, with_next, search_of_numbered};
ghost use Rattle.gix_pathspec.specs.Reach.{subtree_excludes_of, IsReachOf};
ghost use Rattle.gix_pathspec.specs.Room.{Fits};
ghost use Rattle.gix_pathspec.specs.SelectionLaws.{NoNilPrefix, SpecPathsAreBytes};
ghost use Rattle.gix_pathspec.specs.Reading.{reading};
ghost use Rattle.gix_pathspec.specs.Lines.{numbered_of_lines, search_of_lines};

use crate::search::init::BuildError;
use crate::search::spec::CompiledSpec;
use crate::{Defaults, Error, Pattern, parse};
use bstr::{BStr, ByteSlice};
use std::alloc::{AllocError, Global};
use std::iter::IntoIterator;

/// Normalises every pattern as it comes and makes it ready for matching, numbered from 0. The call takes the patterns behind
/// one that has no normal form, too.
pub(super) fn compile_all<I: IntoIterator<Item = Pattern>>(
    alloc: Global,
    patterns: I,
    prefix: BStr<'_>,
    root: BStr<'_>,
) -> Result<Vec<CompiledSpec>, BuildError>
where
    I::IntoIter: Drop,
    requires clean { IsTrue (is_clean_prefix (bstr_bytes prefix)) }
    requires ends { (it : I.IntoIter) → I.into_iter_gives patterns it
        → I.IntoIter.can_next it × IsFinite (I.IntoIter.remaining it) }
    ensures ok { IfOk result (λ specs. (it : I.IntoIter) × (xs : List Pattern)
        × I.into_iter_gives patterns it × Drains I.IntoIter.next_gives it xs
        × (numbered_from 0 (bstr_bytes prefix.entry) (bstr_bytes root.entry) (map pattern_spec xs)
        ≡ Ok specs.items)) }
    ensures bytes { IfOk result (λ specs. SpecPathsAreBytes (specs_of specs.items)) }
    ensures err { IfErr result (λ e. TellsFault e (λ fault. (it : I.IntoIter)
        × (xs : List Pattern) × I.into_iter_gives patterns it × Drains I.IntoIter.next_gives it xs
        × (numbered_from 0 (bstr_bytes prefix.entry) (bstr_bytes root.entry) (map pattern_spec xs)
        ≡ Err fault))) }
{
    let mut specs = Vec::new(alloc);
    let mut fault = None;
    for pattern in patterns {
        fault = compile_next(alloc, &mut specs, fault, pattern, prefix, root)?;
    }
    match fault {
        None => Ok(specs),
        Some(error) => Err(error),
    }
}

// In line, since it moves a large pattern for each spec.
/// Makes one more spec ready for matching, unless `fault` says that an earlier one is at fault. Gives the first fault.
///
/// # Errors
/// Memory runs out.
#[inline(always)]
fn compile_next(
    alloc: Global,
    specs: &mut Vec<CompiledSpec>,
    fault: Option<BuildError>,
    pattern: Pattern,
    prefix: BStr<'_>,
    root: BStr<'_>,
) -> Result<Option<BuildError>, AllocError>
    requires clean { IsTrue (is_clean_prefix (bstr_bytes prefix)) }
    requires bytes { SpecPathsAreBytes (specs_of specs.old.items) }
    ensures specs { IfOk result (AddsNext (bstr_bytes prefix.entry) (bstr_bytes root.entry)
        (pattern_spec pattern) specs.old.items fault specs.new.items) }
    ensures bytes { SpecPathsAreBytes (specs_of specs.new.items) }
{
    if fault.is_some() {
        return Ok(fault);
    }
    match compile(alloc, specs, pattern, prefix, root) {
        Ok(()) => Ok(None),
        Err(BuildError::Memory) => Err(AllocError),
        Err(error) => Ok(Some(error)),
    }
}

/// Normalises a pattern, makes it ready for matching and adds it to the specs, under the next number.
pub(super) fn compile(
    alloc: Global,
    specs: &mut Vec<CompiledSpec>,
    mut pattern: Pattern,
    prefix: BStr<'_>,
    root: BStr<'_>,
) -> Result<(), BuildError>
    requires clean { IsTrue (is_clean_prefix (bstr_bytes prefix)) }
    requires bytes { SpecPathsAreBytes (specs_of specs.old.items) }
    ensures specs { Builds (λ done. specs.new.items) (with_next (bstr_bytes prefix.entry)
        (bstr_bytes root.entry) (pattern_spec pattern) specs.old.items) result }
    ensures bytes { SpecPathsAreBytes (specs_of specs.new.items) }
{
    let number = specs.len();
    if let Err(error) = pattern.resolve(prefix, root) {
        return Err(error_at(number, error));
    }
    specs.push(CompiledSpec::new(alloc, pattern, number)?)?;
    Ok(())
}

/// The build error for the error of the spec with this number.
fn error_at(number: usize, error: Error) -> BuildError
    ensures { IsErrorAt number error result }
{
    match error {
        Error::Memory => BuildError::Memory,
        error => BuildError::Spec(number, error),
    }
}

/// Reads each line, and makes its spec ready for matching under the line's number.
///
/// A spec without a normal form doesn't end the reading: a later line may say no spec, and that fault comes first.
pub(super) fn compile_lines(
    alloc: Global,
    text: &[u8],
    defaults: Defaults,
    prefix: BStr<'_>,
    root: BStr<'_>,
) -> Result<Vec<CompiledSpec>, BuildError>
    requires { IsTrue (is_clean_prefix (bstr_bytes prefix)) }
    ensures specs { Builds (λ specs. specs.items) (numbered_of_lines defaults
        (bstr_bytes prefix.entry) (bstr_bytes root.entry) text.now) result }
    ensures bytes { IfOk result (λ specs. SpecPathsAreBytes (specs_of specs.items)) }
{
    let mut specs = Vec::new(alloc);
    let mut fault = None;
    for (number, line) in text.lines().enumerate() {
        let pattern = parse_line(alloc, number, line, defaults)?;
        fault = compile_next(alloc, &mut specs, fault, pattern, prefix, root)?;
    }
    match fault {
        None => Ok(specs),
        Some(error) => Err(error),
    }
}

/// Reads the pattern of a line. The error has the line's number.
fn parse_line(
    alloc: Global,
    number: usize,
    line: &[u8],
    defaults: Defaults,
) -> Result<Pattern, BuildError>
    ensures { Builds pattern_spec (at_number number (reading defaults line.now)) result }
{
    match parse::parse(alloc, line, defaults) {
        Ok(pattern) => Ok(pattern),
        Err(error) => Err(error_at(number, error)),
    }
}
