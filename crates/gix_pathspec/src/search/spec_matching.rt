//! Whether a spec matches a path, and how (gitglossary, "pathspec").
ghost use Rattle.std.specs.Prelude.{◌≡◌, ◌≤◌, length, map, Some, IfSome, IsTrue, bytes_eq};
ghost use Rattle.bstr.specs.BStr.{bstr_bytes};
ghost use Rattle.pathspec_parts.specs.AttributeStates.{state_ref_view, assignment_view};
ghost use Rattle.pathspec_parts.specs.Outcomes.{names_of, states_of};
ghost use Rattle.gix_pathspec.specs.Specs.{ignores_case, has_wildcard};
ghost use Rattle.gix_pathspec.specs.Matching.{fit, is_in_prefix_directory, is_glob_match, is_verbatim_match, is_prefix_match, text_way, takes_kind, case_of, same_state, have_states};
ghost use Rattle.gix_pathspec.specs.Patterns.{pattern_spec};
ghost use Rattle.gix_pathspec.specs.Room.{glob_of, tokens_of};
ghost use Rattle.pathspec_glob.specs.LastBytes.{last_byte};
ghost use Rattle.gix_pathspec.specs.EndBytes.{first_byte, has_wildcard_at, is_other, BeginsPaths, EndsPaths};
ghost use Rattle.gix_pathspec.specs.Prefixes.{stem};
ghost use Rattle.gix_pathspec.specs.Bytes.{fold_case, begins_with};
ghost use Rattle.gix_pathspec.specs.Paths.{is_below};

use crate::search::MatchKind;
use crate::search::spec::CompiledSpec;
pub use crate::search::spec::compile_glob;
use crate::{MagicSignature, Pattern};
use bitflags::Flags;
use bstr::BStr;
use pathspec_parts::attributes::{Assignment, Case, LookUp, Outcome, StateRef};
use pathspec_parts::glob::{self, Glob, Scratch, is_same_byte, is_wildcard};

/// The first way in which a pattern matches a path that isn't empty: always, by its glob, as that path, or as one above it. A
/// pattern without case matches only at or below its prefix directory, if it has one, compared with case.
///
/// `glob` is the pattern's, or None for a pattern without one. Beside the steps of the glob, the call looks at each byte of
/// the pattern's path a fixed number of times. It takes no memory.
#[inline(always)]
pub fn match_kind(
    pattern: &Pattern,
    glob: &Option<Glob>,
    globs: &mut Scratch,
    path: BStr<'_>,
    is_dir: bool,
) -> Option<MatchKind>
    requires glob { glob.now ≡ glob_of (pattern_spec pattern.now) }
    requires room { tokens_of (pattern_spec pattern.now) ≤ globs.old.tokens }
    ensures kind { result ≡ fit (pattern_spec pattern.now) (bstr_bytes path.entry) is_dir }
    ensures room { globs.new.tokens ≡ globs.old.tokens }
{
    if !is_in_prefix_directory(pattern, path, is_dir) {
        return None;
    }
    // A pattern with a glob has a wildcard, so it doesn't match always.
    match glob {
        Some(glob) if is_glob_match(pattern, glob, globs, path, is_dir) => {
            Some(MatchKind::WildcardMatch)
        }
        None if pattern.always_matches() => Some(MatchKind::Always),
        _ => text_kind(pattern, path, is_dir),
    }
}

// In line, as the next ones, since a match asks this of each spec whose head begins the path.
/// The way in which the path matches as a text: as the pattern's path, which is equally long, or below it.
#[inline(always)]
fn text_kind(pattern: &Pattern, path: BStr<'_>, is_dir: bool) -> Option<MatchKind>
    ensures { result ≡ text_way (pattern_spec pattern.now) (bstr_bytes path.entry) is_dir }
{
    if path.as_bytes().len() == pattern.path().as_bytes().len() {
        is_verbatim_match(pattern, path, is_dir).then_some(MatchKind::Verbatim)
    } else {
        is_prefix_match(pattern, path).then_some(MatchKind::Prefix)
    }
}

/// Whether a path may match a spec that ignores case: it is the spec's prefix directory or lies below it, compared with case.
/// `:(icase)B`, given in `a`, may match `a/b`, but not `A/b`. It also may where case counts or there is no prefix directory.
#[inline(always)]
pub fn is_in_prefix_directory(pattern: &Pattern, path: BStr<'_>, is_dir: bool) -> bool
    ensures { result ≡ is_in_prefix_directory (pattern_spec pattern.now)
        (bstr_bytes path.entry) is_dir }
{
    if !ignores_case(pattern) {
        return true;
    }
    let path = path.as_bytes();
    let prefix = pattern.prefix_directory().as_bytes();
    prefix.is_empty()
        || is_below(path, prefix, false)
        || is_same_text(path, prefix, false) && is_dir
}

/// Whether the pattern's glob matches the path, which is a directory where the pattern wants one.
fn is_glob_match(
    pattern: &Pattern,
    glob: &Glob,
    globs: &mut Scratch,
    path: BStr<'_>,
    is_dir: bool,
) -> bool
    requires glob { glob_of (pattern_spec pattern.now) ≡ Some glob.now }
    requires room { tokens_of (pattern_spec pattern.now) ≤ globs.old.tokens }
    ensures answer { result ≡ is_glob_match (pattern_spec pattern.now)
        (bstr_bytes path.entry) is_dir }
    ensures room { globs.new.tokens ≡ globs.old.tokens }
{
    takes_kind(pattern, is_dir) && glob.matches(path.as_bytes(), case_of(pattern), globs)
}

/// Whether the path is the pattern's, and a directory where the pattern wants one.
#[inline(always)]
pub(super) fn is_verbatim_match(pattern: &Pattern, path: BStr<'_>, is_dir: bool) -> bool
    ensures { result ≡ is_verbatim_match (pattern_spec pattern.now) (bstr_bytes path.entry) is_dir }
{
    takes_kind(pattern, is_dir)
        && is_same_text(
            path.as_bytes(),
            pattern.path().as_bytes(),
            ignores_case(pattern),
        )
}

/// Whether the path lies below the pattern's.
#[inline(always)]
pub(super) fn is_prefix_match(pattern: &Pattern, path: BStr<'_>) -> bool
    ensures { result ≡ is_prefix_match (pattern_spec pattern.now) (bstr_bytes path.entry) }
{
    is_below(
        path.as_bytes(),
        pattern.path().as_bytes(),
        ignores_case(pattern),
    )
}

/// Whether the pattern takes an entry of this kind: a directory always, and a file unless it wants a directory.
fn takes_kind(pattern: &Pattern, is_dir: bool) -> bool
    ensures { result ≡ takes_kind (pattern_spec pattern.now) is_dir }
{
    is_dir || !pattern.signature.contains(MagicSignature::MUST_BE_DIR)
}

/// The case rule of the pattern.
pub(super) fn case_of(pattern: &Pattern) -> Case
    ensures { result ≡ case_of (pattern_spec pattern.now) }
{
    if ignores_case(pattern) {
        Case::Fold
    } else {
        Case::Sensitive
    }
}

/// Whether ASCII case doesn't count for the pattern.
pub fn ignores_case(pattern: &Pattern) -> bool
    ensures { result ≡ ignores_case (pattern_spec pattern.now) }
{
    pattern.signature.contains(MagicSignature::ICASE)
}

impl CompiledSpec {
    ghost use Rattle.std.specs.Prelude.{IfOk, OnOk, OnErr, false};
    ghost use Rattle.gix_pathspec.specs.Bytes.{is_empty};
    ghost use Rattle.pathspec_parts.specs.Attributes.{AsksLookUp};
    ghost use Rattle.gix_pathspec.specs.Matching.{has_attributes};
    ghost use Rattle.gix_pathspec.specs.Found.{matched_kind};
    ghost use Rattle.gix_pathspec.specs.Room.{attribute_names};

    // Out of line, since few specs list attributes.
    /// Whether the path has each attribute that the spec lists: under `:(attr:a -b)x`, whether `a` is set and `b` is unset.
    /// The spec has to list some. The call resets the outcome, and then asks the look-up once.
    ///
    /// # Errors
    /// The look-up's fault.
    #[inline(never)]
    fn has_attributes<L: LookUp>(
        &self,
        path: BStr<'_>,
        is_dir: bool,
        outcome: &mut Outcome,
        look_up: &mut L,
    ) -> Result<bool, L::Fault>
        requires listed { is_empty self.now.spec.attributes ≡ false }
        requires names { names_of outcome.old ≡ attribute_names self.now.spec }
        ensures answer { IfOk result (λ has. has
            ≡ has_attributes (L.table look_up.old) self.now.spec (bstr_bytes path.entry) is_dir) }
        ensures names { names_of outcome.new ≡ names_of outcome.old }
        ensures look_up { AsksLookUp (L.table look_up.old) (L.failures look_up.old)
            (L.table look_up.new) (L.failures look_up.new) result }
    {
        outcome.reset();
        let found = look_up.look_up(path, Case::Sensitive, is_dir, outcome)?;
        Ok(found && have_states(outcome, &self.pattern.attributes))
    }

    /// The way in which the spec matches a path that isn't empty. None where it doesn't fit, or the path lacks an attribute of
    /// the spec. The call asks the look-up at most once, and only where the spec lists attributes and fits.
    ///
    /// # Errors
    /// The look-up's fault.
    #[inline(always)]
    pub(super) fn matches<L: LookUp>(
        &self,
        path: BStr<'_>,
        is_dir: bool,
        globs: &mut Scratch,
        outcome: &mut Outcome,
        look_up: &mut L,
    ) -> Result<Option<MatchKind>, L::Fault>
        requires room { tokens_of self.now.spec ≤ globs.old.tokens }
        requires names { names_of outcome.old ≡ attribute_names self.now.spec }
        ensures answer { IfOk result (λ kind. kind
            ≡ matched_kind (L.table look_up.old) self.now.spec (bstr_bytes path.entry) is_dir) }
        ensures room { globs.new.tokens ≡ globs.old.tokens }
        ensures names { names_of outcome.new ≡ names_of outcome.old }
        ensures look_up { AsksLookUp (L.table look_up.old) (L.failures look_up.old)
            (L.table look_up.new) (L.failures look_up.new) result }
    {
        let Some(kind) = match_kind(&self.pattern, &self.glob, globs, path, is_dir) else {
            return Ok(None);
        };
        if self.pattern.attributes.is_empty() {
            return Ok(Some(kind));
        }
        Ok(
            self.has_attributes(path, is_dir, outcome, look_up)?
                .then_some(kind),
        )
    }
}

/// Whether an outcome has each assignment's state at the assignment's place.
fn have_states(outcome: &Outcome, assignments: &[Assignment]) -> bool
    requires { length outcome.now ≡ length assignments.now }
    ensures { result
        ≡ have_states (states_of outcome.now) (map assignment_view assignments.now) }
{
    for (place, assignment) in assignments.iter().enumerate() {
        if !is_same_state(outcome.state(place), assignment.state.as_ref()) {
            return false;
        }
    }
    true
}

/// Whether two states are equal.
fn is_same_state(left: StateRef<'_>, right: StateRef<'_>) -> bool
    ensures { result ≡ same_state (state_ref_view left.entry) (state_ref_view right.entry) }
{
    left == right
}

/// The first byte, up to case, of each path that a pattern matches: `d` for `:(icase)docs`.
///
/// None where case counts, since the head then tells as much, and where no byte stands before the first wildcard.
/// `stem_length` is the count of bytes before it.
pub(super) fn first_byte(pattern: &Pattern, stem_length: usize) -> Option<u8>
    requires { stem_length ≡ length (stem (pattern_spec pattern.now)) }
    ensures { IfSome result (BeginsPaths (pattern_spec pattern.now)) }
{
    if pattern.is_nil() || !ignores_case(pattern) {
        return None;
    }
    pattern.path().as_bytes()[..stem_length].first().copied()
}

/// The last byte, up to case where it doesn't count, of each path that a pattern's glob matches: `s` for `src/*.rs`.
///
/// None without a wildcard, and where the pattern ends with a wildcard byte, `]` or `/`. `is_wild` says whether there is one.
pub(super) fn last_byte(pattern: &Pattern, is_wild: bool) -> Option<u8>
    requires { is_wild ≡ has_wildcard (pattern_spec pattern.now) }
    ensures { IfSome result (EndsPaths (pattern_spec pattern.now)) }
{
    if !is_wild {
        return None;
    }
    glob::last_byte(pattern.path().as_bytes())
}

impl CompiledSpec {
    ghost use Rattle.gix_pathspec.specs.EndBytes.{NeverMatches};

    /// Whether a path's first or last byte rules out that the spec matches it. The last byte of `a.c` does so for `*.rs`, and
    /// the first of `src` for `:(icase)docs`. A path with a wildcard byte behind the spec's stem, as `*.rs/a.c`, may lie below
    /// the spec's own path, so its last byte tells nothing.
    #[inline(always)]
    pub(super) fn is_ruled_out(&self, path: &[u8]) -> bool
        ensures { IsTrue result → NeverMatches self.now.spec path.now }
    {
        let case = case_of(&self.pattern);
        is_other(case, self.first, first_of(path))
            || is_other(case, self.last, last_of(path)) && !has_wildcard_at(path, self.stem)
    }
}

/// Whether a byte is wanted, and `byte` is another.
#[inline(always)]
fn is_other(case: Case, wanted: Option<u8>, byte: u8) -> bool
    ensures { result ≡ is_other case wanted byte }
{
    match wanted {
        Some(wanted) => !is_same_byte(case, wanted, byte),
        None => false,
    }
}

/// The first byte of a path; 0 for the empty path.
#[inline(always)]
fn first_of(path: &[u8]) -> u8
    ensures { result ≡ first_byte path.now }
{
    match path.first() {
        Some(byte) => *byte,
        None => 0,
    }
}

/// The last byte of a path; 0 for the empty path.
#[inline(always)]
fn last_of(path: &[u8]) -> u8
    ensures { result ≡ last_byte path.now }
{
    match path.last() {
        Some(byte) => *byte,
        None => 0,
    }
}

/// Whether a wildcard byte stands in a path at a place.
#[inline(always)]
pub(crate) fn has_wildcard_at(path: &[u8], at: usize) -> bool
    ensures { result ≡ has_wildcard_at path.now at }
{
    match path.get(at) {
        Some(byte) => is_wildcard(*byte),
        None => false,
    }
}

// In line, since the last byte mostly tells.
/// Whether two texts are equal, up to ASCII case with `ignore_case`. With case, the last byte comes first, where most paths
/// differ.
#[inline(always)]
pub(crate) fn is_same_text(left: &[u8], right: &[u8], ignore_case: bool) -> bool
    ensures { result ≡ bytes_eq (fold_case ignore_case left.now) (fold_case ignore_case right.now) }
{
    if ignore_case {
        left.eq_ignore_ascii_case(right)
    } else {
        left.last() == right.last() && left == right
    }
}

// In line, since of most paths the length tells, or the byte that has to be the slash.
/// Whether a path begins with a directory's path and a slash, up to ASCII case with `ignore_case`.
#[inline(always)]
pub fn is_below(path: &[u8], directory: &[u8], ignore_case: bool) -> bool
    ensures { result ≡ is_below (fold_case ignore_case path.now)
        (fold_case ignore_case directory.now) }
{
    let n = directory.len();
    if n < path.len() && path[n] == b'/' {
        is_same_text(directory, &path[..n], ignore_case)
    } else {
        false
    }
}

/// Whether a text begins with a front, up to ASCII case with `ignore_case`.
pub(crate) fn begins_with(text: &[u8], front: &[u8], ignore_case: bool) -> bool
    ensures { result ≡ begins_with (fold_case ignore_case text.now)
        (fold_case ignore_case front.now) }
{
    let n = front.len();
    n <= text.len() && is_same_text(front, &text[..n], ignore_case)
}
