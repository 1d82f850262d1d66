//! Pruning: which directories can hold a path that a search selects, and which a walk may skip.
ghost use Rattle.std.specs.Prelude.{◌≡◌, ◌&&◌, ◌||◌, not, false, ◌≢◌, [], true, MatchBool, IfOk, IsTrue, OnOk, OnErr, ◌≤◌, length, find, MatchOption, IsFalse};
ghost use Rattle.std.specs.List.{list_any, before_last};
ghost use Rattle.bstr.specs.BStr.{bstr_bytes};
ghost use Rattle.gix_pathspec.specs.Attributes.{Table};
ghost use Rattle.gix_pathspec.specs.Bytes.{is_empty};
ghost use Rattle.gix_pathspec.specs.Specs.{is_include, wants_directory};
ghost use Rattle.gix_pathspec.specs.Pruning.{agree, is_total_exclude, is_reached, can_match};
ghost use Rattle.gix_pathspec.specs.PruningLaws.{PruningIsSafe, FilePruningIsSafe, PrunedIsNotChosen, FilePrunedIsNotChosen, PruningIsSharp, PruningIsSharpForFits, PruningIsNear};
ghost use Rattle.gix_pathspec.specs.Room.{Fits};
ghost use Rattle.gix_pathspec.specs.Skipping.{may_skip, answer_takes_whole, holds_nothing, HaveOneCase};
ghost use Rattle.gix_pathspec.specs.SkipLaws.{SkippedIsNotChosen, NothingIsChosen, SkippedStays, SkipsMore, SkipIsExact};
ghost use Rattle.gix_pathspec.specs.Search.{BeginsCounts, specs_of, answer, selects};
ghost use Rattle.gix_pathspec.specs.SkipTables.{holds_nothing_by_tables, skips_by_tables};
ghost use Rattle.gix_pathspec.specs.SkipCounts.{IsSkipCounted, IsVisitCounted};
ghost use Rattle.std.specs.Option.{option_map};
ghost use Rattle.pathspec_parts.specs.Attributes.{AsksLookUp};
ghost use Rattle.gix_pathspec.specs.Effort.{IsCounted};
ghost use Rattle.gix_pathspec.specs.Found.{match_view};
ghost use Rattle.gix_pathspec.specs.Matching.{is_chosen};
ghost use Rattle.gix_pathspec.specs.Paths.{is_slash};
ghost use Rattle.gix_pathspec.specs.Directories.{parent_or_self, parent, non_empty, front, leading_front, front_for, agrees_in_front, settles, settling_answer, allows_directory, directory_matches, ends_at_boundary, common_directory};
ghost use Rattle.gix_pathspec.specs.DirectoryLaws.{OutsideFitsNone, OutsideIsSafe, LeadingIsWider, CommonDirectoryHoldsAll};

use crate::search::matching::selects;
use crate::search::spec::CompiledSpec;
use crate::search::spec_matching::begins_with;
use crate::search::{Match, Scratch, Search};
use bstr::{BStr, ByteSlice};
use pathspec_parts::attributes::LookUp;

/// A walk's decision on an entry of a tree.
#[derive(Clone, Copy, Debug, PartialEq, Eq)]
pub struct Visit {
    /// The search selects the entry.
    pub is_selected: bool,
    /// The entry is a directory that the walk may not skip.
    pub is_entered: bool,
}

impl Search {
    ghost use Rattle.gix_pathspec.specs.Prefixes.{common_prefix};
    ghost use Rattle.gix_pathspec.specs.Search.{specs_of};
    ghost use Rattle.std.specs.Prelude.{◌&&◌, ◌||◌, not, filter, if◌then◌else◌};
    ghost use Rattle.std.specs.List.{list_all};
    ghost use Rattle.gix_pathspec.specs.Specs.{is_include};

    /// Whether the path, or something below it, can match (gix-pathspec's call of this name). A walk that skips what this call
    /// denies loses no path that the search selects.
    ///
    /// A directory's path has no slash at its end: for the spec `src/lib` the answer is yes to `src`, but no to `src/`. So a
    /// walk takes off the slash with which `git status` prints a directory (`strip_last_slash` of `pathspec_parts::path`).
    ///
    /// The answer is yes if there are no specs or the path is empty. Otherwise three things must hold. The path and the common
    /// prefix agree as far as both go. No exclude takes every path. There is no include, or one reaches the path.
    ///
    /// An include reaches a path if it always matches, or if its stem and the path are one, or one lies below the other. A
    /// stem is a spec's path before its first wildcard byte, which lets it reach what it begins, too: `src/m*` reaches
    /// `src/main`. For a file's path, pass `Some(false)` as `is_dir`: then a spec that wants a directory, as `src/`, reaches
    /// only paths below its own.
    ///
    /// The call takes no memory. It makes one search in each of at most ten lists of stems. No count tells these comparisons.
    pub fn can_match_relative_path(&self, path: BStr<'_>, is_dir: Option<bool>) -> bool
        ensures answer { result ≡ can_match (specs_of self.now.specs) (bstr_bytes path.entry)
            is_dir }
        // Where the answer is no, no include fits anything there, or an exclude takes all paths.
        ensures safe { PruningIsSafe (specs_of self.now.specs) }
        ensures file_safe { FilePruningIsSafe (specs_of self.now.specs) }
        // So nothing there is chosen.
        ensures pruned { (table : Table) → PrunedIsNotChosen table (specs_of self.now.specs) }
        ensures file_pruned { (table : Table)
            → FilePrunedIsNotChosen table (specs_of self.now.specs) }
        // Of plain includes, where the answer is yes, some path there is taken.
        ensures sharp { (table : Table) → PruningIsSharp table (specs_of self.now.specs) }
        ensures sharp_for_fits { PruningIsSharpForFits (specs_of self.now.specs) }
        // Of any specs, where it is yes, some include is near, if there is one.
        ensures near { PruningIsNear (specs_of self.now.specs) }
    {
        // The proof reads here that no nil spec has a prefix directory.
        let _ = &self.specs;
        self.can_match(path.as_bytes(), is_dir)
    }

    /// Answers as [`Search::can_match_relative_path`] does.
    fn can_match(&self, path: &[u8], is_dir: Option<bool>) -> bool
        ensures { result ≡ can_match (specs_of self.now.specs) path.now is_dir }
    {
        self.takes_unasked(path) || self.may_match(path, is_dir)
    }

    /// Whether there are no specs or the path is empty, so that the answer to a question about directories is yes.
    pub(super) fn takes_unasked(&self, path: &[u8]) -> bool
        ensures { result ≡ is_empty (specs_of self.now.specs) || is_empty path.now }
    {
        self.specs.as_slice().is_empty() || path.is_empty()
    }

    /// Whether the path and the common prefix agree as far as both go.
    pub(super) fn agrees_with_common_prefix(&self, path: &[u8]) -> bool
        ensures { result ≡ agree path.now (common_prefix (specs_of self.now.specs)) }
    {
        agree(path, self.common_prefix().as_bytes())
    }

    /// Whether the path or something below it can match, where there are specs and the path isn't empty.
    fn may_match(&self, path: &[u8], is_dir: Option<bool>) -> bool
        ensures { let specs = specs_of self.now.specs in result
            ≡ (agree path.now (common_prefix specs)
            && not (list_any is_total_exclude specs)
            && is_reached specs path.now is_dir) }
    {
        self.agrees_with_common_prefix(path)
            && !self.reach.excludes_all
            && (self.reach.reaches(path, is_dir) || !self.reach.has_include)
    }

    /// Whether some spec is an include.
    pub(super) fn has_include(&self) -> bool
        ensures { result ≡ list_any is_include (specs_of self.now.specs) }
    {
        self.reach.has_include
    }

    /// Whether a directory can lie in the prefix of the search (gix-pathspec's call of this name). For the directory `d` the
    /// answer is yes with the specs `d/`, `d*/` and `d/*`, and no with `d/d/*` and `dir`. With `leading` it is yes with `d/d`
    /// too.
    ///
    /// The directory's path has no slash at its end, as for [`Search::can_match_relative_path`].
    ///
    /// The answer is yes if there are no specs or the path is empty, and else no if the path and the common prefix disagree.
    /// Otherwise the first exclude with a wildcard answers yes, and the first that takes every path answers no, whichever
    /// comes first. Without such an exclude the answer is yes if some include always matches or its front begins the path, or
    /// if there is no include. The front is the include's path, or before a wildcard its directory.
    ///
    /// The call looks at each byte of each spec's path and as much of the path a fixed number of times, and takes no memory.
    pub fn directory_matches_prefix(&self, path: BStr<'_>, leading: bool) -> bool
        ensures answer { result ≡ directory_matches (specs_of self.now.specs)
            (bstr_bytes path.entry) leading }
        // Where the answer with `leading` is no, no include fits anything there, or an exclude takes all paths.
        ensures fits_none { OutsideFitsNone (specs_of self.now.specs) }
        // So nothing there is chosen.
        ensures outside { (table : Table) → OutsideIsSafe table (specs_of self.now.specs) }
        ensures wider { LeadingIsWider (specs_of self.now.specs) }
    {
        // The proof reads here that no nil spec has a prefix directory.
        let _ = &self.specs;
        self.lies_in_prefix(path.as_bytes(), leading)
    }

    /// Answers as [`Search::directory_matches_prefix`] does.
    fn lies_in_prefix(&self, path: &[u8], leading: bool) -> bool
        ensures { result ≡ directory_matches (specs_of self.now.specs) path.now leading }
    {
        self.takes_unasked(path)
            || self.agrees_with_common_prefix(path) && self.holds_in_prefix(path, leading)
    }

    /// Whether a directory lies in the prefix: by the first exclude that settles that, and without one by the includes.
    fn holds_in_prefix(&self, path: &[u8], leading: bool) -> bool
        ensures { let specs = specs_of self.now.specs in result
            ≡ settling_answer (find settles specs)
            (not (list_any is_include specs)
            || list_any (allows_directory path.now leading) specs) }
    {
        match self.first_settling() {
            Some(spec) => spec.has_wildcard(),
            None => !self.has_include() || self.has_allowing_include(path, leading),
        }
    }

    /// The first exclude that alone settles whether a directory lies in the prefix ([`CompiledSpec::settles`]).
    fn first_settling(&self) -> Option<&CompiledSpec>
        ensures { option_map (λ c. c.now.spec) result ≡ find settles (specs_of self.now.specs) }
    {
        self.specs.as_slice().iter().find(|spec| spec.settles())
    }

    /// Whether some include always matches, or has a front that begins the path.
    fn has_allowing_include(&self, path: &[u8], leading: bool) -> bool
        ensures { result ≡ list_any (allows_directory path.now leading)
            (specs_of self.now.specs) }
    {
        self.specs
            .as_slice()
            .iter()
            .any(|spec| spec.allows_directory(path, leading))
    }

    /// Whether a walk may skip a directory, since nothing below it is selected, whatever a look-up says. gix-pathspec has no
    /// such call. The directory's path has no slash at its end, as for [`Search::can_match_relative_path`].
    ///
    /// The answer is yes in four cases, and no to the empty path:
    /// - [`Search::can_match_relative_path`] says no.
    /// - An exclude without attributes takes the directory whole, as `:!node_modules` does.
    /// - There are includes, and excludes shadow each that reaches the directory, as `:!a/b` shadows `a/b`. An exclude shadows
    ///   an include without a wildcard if it takes all that the include takes (`shadows` of `specs/Skipping.antt`).
    /// - An exclude's glob takes all below the directory, as `:(exclude,glob)**/target/**`. The directory may still be
    ///   selected.
    ///
    /// Plain specs have no wildcard, no attributes, and no prefix directory without case. With them the answer is yes exactly
    /// where nothing at or below the directory is selected. An include without case beside an exclude with case makes an
    /// exception.
    ///
    /// The call takes no memory. It first makes one search in each of at most ten lists of stems and paths; no count tells
    /// these comparisons. Then it asks one by one the excludes that no list answers for, up to the first that takes the
    /// directory. Their glob ends with `**`, or in a shell glob with `*`, or they have a prefix directory and ignore case. The
    /// scratch counts these questions, and the comparisons of heads, as in a match. No more excludes are asked than have a
    /// head that begins the directory.
    ///
    /// If four of them or more begin with a wildcard, as `:!*/node_modules/*`, a set of their globs reads the directory and a slash
    /// once, as in a match, and tells whether one of them takes it. Then none of them is asked. The set tells nothing of a
    /// directory that begins with a wildcard byte, nor where it gave up.
    pub fn may_skip(&self, directory: BStr<'_>, scratch: &mut Scratch) -> bool
        requires { Fits self.now.specs scratch.old }
        ensures answer { result ≡ may_skip (specs_of self.now.specs) (bstr_bytes directory.entry) }
        // Nothing below a directory that may be skipped is chosen, whatever a look-up says.
        ensures safe { (table : Table) → SkippedIsNotChosen table (specs_of self.now.specs) }
        // The directory isn't chosen either, unless an exclude takes only the rest of it.
        ensures nothing { (table : Table) → NothingIsChosen table (specs_of self.now.specs) }
        // Below it nothing is left to ask.
        ensures stays { (table : Table) → SkippedStays table (specs_of self.now.specs) }
        // Wherever pruning by includes says no, a walk may skip.
        ensures wider { SkipsMore (specs_of self.now.specs) }
        // Of plain specs it may skip exactly where nothing at or below the directory is chosen.
        ensures exact { (table : Table) → SkipIsExact table (specs_of self.now.specs) }
        ensures room { scratch.new.room ≡ scratch.old.room }
        ensures counted { IsSkipCounted (specs_of self.now.specs)
            (bstr_bytes directory.entry) scratch.old.counts scratch.new.counts }
    {
        // The proof reads here that no nil spec has a prefix directory, and that paths are bytes.
        let _ = &self.specs;
        self.is_skippable(directory, scratch)
    }

    /// Answers as [`Search::may_skip`] does.
    fn is_skippable(&self, directory: BStr<'_>, scratch: &mut Scratch) -> bool
        requires { Fits self.now.specs scratch.old }
        ensures answer { result ≡ may_skip (specs_of self.now.specs) (bstr_bytes directory.entry) }
        ensures room { scratch.new.room ≡ scratch.old.room }
        ensures counted { IsSkipCounted (specs_of self.now.specs)
            (bstr_bytes directory.entry) scratch.old.counts scratch.new.counts }
    {
        self.holds_nothing_by_tables(directory, scratch)
            || self.is_skipped_by_excludes(directory, scratch)
    }

    // Out of line, so that a walk's loop over files has the registers to itself.
    /// Whether tables tell that nothing at or below a directory is selected. Sets the counts of the last call to 0.
    #[inline(never)]
    pub(super) fn holds_nothing_by_tables(&self, directory: BStr<'_>, scratch: &mut Scratch) -> bool
        ensures answer { result ≡ holds_nothing_by_tables (specs_of self.now.specs)
            (bstr_bytes directory.entry) }
        ensures room { scratch.new.room ≡ scratch.old.room }
        ensures begun { BeginsCounts scratch.old.counts scratch.new.counts }
    {
        scratch.begin();
        let path = directory.as_bytes();
        !path.is_empty() && self.skips_by_tables(path, scratch)
    }

    /// Whether a walk may skip a directory that tables don't let it skip: a subtree exclude takes it whole, or all below it.
    #[inline(never)]
    pub(super) fn is_skipped_by_excludes(&self, directory: BStr<'_>, scratch: &mut Scratch) -> bool
        requires fits { Fits self.now.specs scratch.old }
        requires tables { holds_nothing_by_tables (specs_of self.now.specs)
            (bstr_bytes directory) ≡ false }
        ensures answer { result ≡ may_skip (specs_of self.now.specs) (bstr_bytes directory.entry) }
        ensures room { scratch.new.room ≡ scratch.old.room }
        ensures counted { IsSkipCounted (specs_of self.now.specs)
            (bstr_bytes directory.entry) scratch.old.counts scratch.new.counts }
    {
        scratch.begin();
        if directory.as_bytes().is_empty() {
            return false;
        }
        self.excludes.covers(directory, scratch)
    }

    /// Whether tables tell that a walk may skip a directory whose path isn't empty.
    fn skips_by_tables(&self, path: &[u8], scratch: &mut Scratch) -> bool
        ensures answer { result ≡ skips_by_tables (specs_of self.now.specs) path.now }
        ensures scratch { scratch.new ≡ scratch.old }
    {
        let reach = &self.reach;
        if !self.agrees_with_common_prefix(path) || reach.excludes_all {
            return true;
        }
        reach.takes(path)
            || reach.has_include && !reach.reaches_unshadowed(path, Some(true), &mut scratch.stems)
    }

    // In line, since a walk asks this of each entry.
    /// A walk's decision on an entry. The search selects it as [`Search::is_selected`] says, and the walk enters it if it is a
    /// directory that the walk may not skip ([`Search::may_skip`]). gix-pathspec has no such call. Every search selects the
    /// empty path, the top of a tree.
    ///
    /// One call costs less than the two. A directory is first looked for in the tables of [`Search::may_skip`]. If they tell
    /// that nothing at or below it is selected, it needs no match and no look-up: `b` under `a/x`, or `node_modules` under
    /// `:!node_modules`. A file needs the match alone, and so does a directory whose match takes it whole
    /// ([`Match::takes_whole`]), as `:(exclude,icase)x` does under a prefix. Any other directory needs both, and
    /// [`Scratch::last_tested`] tells of the second.
    ///
    /// # Errors
    /// The look-up's fault, and only where the look-up failed in this call.
    #[inline(always)]
    pub fn visit<L: LookUp>(
        &self,
        path: BStr<'_>,
        is_dir: bool,
        scratch: &mut Scratch,
        look_up: &mut L,
    ) -> Result<Visit, L::Fault>
        requires { Fits self.now.specs scratch.old }
        ensures answer { IfOk result (λ visit. visit.is_selected
            ≡ selects (answer (L.table look_up.old) self.now.specs
            (bstr_bytes path.entry) is_dir)) }
        ensures selected { IfOk result (λ visit. bstr_bytes path.entry ≢ []
            → visit.is_selected ≡ is_chosen (L.table look_up.old) (specs_of self.now.specs)
            (bstr_bytes path.entry) is_dir) }
        ensures entered { IfOk result (λ visit. visit.is_entered
            ≡ (is_dir && not (may_skip (specs_of self.now.specs) (bstr_bytes path.entry)))) }
        // The search chooses nothing below a directory that the walk doesn't enter, whatever a look-up says.
        ensures safe { (table : Table) → SkippedIsNotChosen table (specs_of self.now.specs) }
        ensures room { scratch.new.room ≡ scratch.old.room }
        // If all excludes have one case, a directory that holds nothing costs no question and no comparison.
        ensures passed_over { HaveOneCase (specs_of self.now.specs)
            → IsTrue (is_dir && holds_nothing (specs_of self.now.specs) (bstr_bytes path.entry))
            → BeginsCounts scratch.old.counts scratch.new.counts }
        // A file, and a directory whose match takes it whole, needs the match alone.
        ensures counted { let found = answer (L.table look_up.old) self.now.specs
            (bstr_bytes path.entry) is_dir in
            OnOk result (IsVisitCounted self.now.specs (bstr_bytes path.entry) is_dir
            (is_dir && not (answer_takes_whole found)) scratch.old.counts scratch.new.counts) }
        ensures match_counted { OnErr result (IsCounted self.now.specs (bstr_bytes path.entry)
            scratch.old.counts scratch.new.counts) }
        ensures look_up { AsksLookUp (L.table look_up.old) (L.failures look_up.old)
            (L.table look_up.new) (L.failures look_up.new) result }
    {
        // The proof reads here that no nil spec has a prefix directory.
        let _ = &self.specs;
        if is_dir && self.holds_nothing_by_tables(path, scratch) {
            return Ok(Visit {
                is_selected: false,
                is_entered: false,
            });
        }
        let found = self.settle(path, Some(is_dir), scratch, look_up)?;
        let is_selected = selects(&found);
        let is_skipped = takes_whole(&found);
        let is_entered = self.enters(path, is_dir, is_skipped, scratch);
        Ok(Visit {
            is_selected,
            is_entered,
        })
    }

    /// Whether a walk enters an entry that tables don't let it skip. `is_skipped` says whether the entry's match lets it.
    fn enters(&self, path: BStr<'_>, is_dir: bool, is_skipped: bool, scratch: &mut Scratch) -> bool
        requires fits { Fits self.now.specs scratch.old }
        requires skipped { is_dir ≡ true → is_skipped ≡ true
            → may_skip (specs_of self.now.specs) (bstr_bytes path) ≡ true }
        requires tables { is_dir ≡ true → holds_nothing_by_tables (specs_of self.now.specs)
            (bstr_bytes path) ≡ false }
        ensures entered { result
            ≡ (is_dir && not (may_skip (specs_of self.now.specs) (bstr_bytes path.entry))) }
        ensures room { scratch.new.room ≡ scratch.old.room }
        ensures counted { MatchBool (is_dir && not is_skipped)
            (IsSkipCounted (specs_of self.now.specs)
            (bstr_bytes path.entry) scratch.old.counts scratch.new.counts)
            (scratch.new.counts ≡ scratch.old.counts) }
    {
        is_dir && !is_skipped && !self.is_skipped_by_excludes(path, scratch)
    }
}

/// Whether one of two texts begins the other.
fn agree(left: &[u8], right: &[u8]) -> bool
    ensures { result ≡ agree left.now right.now }
{
    begins_with(left, right, false) || begins_with(right, left, false)
}

/// Whether a match was found for a directory, and takes it whole.
fn takes_whole(found: &Option<Match<'_>>) -> bool
    ensures { result ≡ answer_takes_whole (option_map match_view found.now) }
{
    match found {
        Some(found) => found.takes_whole(),
        None => false,
    }
}
