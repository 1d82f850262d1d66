//! The sets of heads, one for each head that enough specs have.
//!
//! A match finds the sets whose heads begin the path by one search. It asks each once, and then only the specs whose glob matches, and
//! those in no set. It can't read the head of a set, so it compares none beside that search.
ghost use Rattle.std.specs.Prelude.{◌≡◌, ◌<◌, ◌≤◌, ℕ, Bool, true, false, All, List, length, IfSome, IsTrue};
ghost use Rattle.std.specs.List.{sum_by};
ghost use Rattle.pathspec_glob.specs.Counts.{Counts};
ghost use Rattle.pathspec_heads.specs.Groups.{earlier, IsGrouped, IsLeastFrom};
ghost use Rattle.gix_pathspec.specs.Attributes.{Table};
ghost use Rattle.gix_pathspec.specs.HeadSets.{IsAtRest, IsBegunAt, IsGlobHit, IsIdleBeside, IsLongestOf, IsHeadSetOf, IsLittleStepped, IsNextOf, NoneBarred, SomeGaveUp, begins_of, effort_of, most_effort, set_heads, total_of};
ghost use Rattle.gix_pathspec.specs.Paths.{IsBytes};
ghost use Rattle.gix_pathspec.specs.Search.{Numbered};
ghost use Rattle.gix_pathspec.specs.SetSources.{all_sources, is_of_heads, source_places, SetSource};
ghost use Rattle.gix_pathspec.specs.Sets.{IsNext, NoneBefore};

use crate::by_head::head_set::HeadSet;
use crate::search::counted::CountedHeads;

/// The next set from a number on whose head begins a path. `head` is the number of the longest head that does.
#[inline(always)]
fn next_set(heads: &CountedHeads, head: Option<usize>, from: usize) -> Option<usize>
    requires { IfSome head (λ j. j < length heads.now.heads) }
    ensures next { (texts : List (List ℕ)) (path : List ℕ)
        → IsLongestOf texts path heads.now head → IsLeastFrom (IsBegunAt texts path) from result }
    ensures within { (texts : List (List ℕ)) → IsGrouped texts
        heads.now.heads heads.now.starts heads.now.order
        → IfSome result (λ number. (from ≤ number) × (number < length texts)) }
{
    match head {
        Some(head) => heads.next_place(head, from),
        None => None,
    }
}

/// Asks each set whose head begins a path. Tells whether all told which of their members may match: a set doesn't where a wildcard
/// byte stands in the path right behind its head, nor where it gives up, which `gave_up` says then.
pub(super) fn ask_sets(
    sets: &mut [HeadSet],
    heads: &CountedHeads,
    head: Option<usize>,
    path: &[u8],
    gave_up: &mut bool,
) -> bool
    requires going { gave_up.old ≡ false }
    requires longest { IsLongestOf (set_heads sets.old) path.now heads.now head }
    requires at_rest { All IsAtRest sets.old }
    ensures told { NoneBarred path.now (set_heads sets.old) → gave_up.new ≡ false
        → result ≡ true }
    ensures unbarred { IsTrue result → NoneBarred path.now (set_heads sets.old) }
    ensures next { (specs : List Numbered) → All (IsHeadSetOf (all_sources specs)) sets.old
        → IsBytes path.now → IsTrue result → All (IsNextOf specs path.now 0) sets.new }
    ensures gave_up { gave_up.new ≡ true → (result ≡ false) × SomeGaveUp path.now sets.new }
    ensures own { (sources : List SetSource) → All (IsHeadSetOf sources) sets.old
        → All (IsHeadSetOf sources) sets.new }
    ensures heads { set_heads sets.new ≡ set_heads sets.old }
    ensures few { All (IsLittleStepped path.now) sets.new }
    ensures idle { All (IsIdleBeside path.now) sets.new }
    ensures begun { Counts 0 (sum_by total_of sets.old) (sum_by (λ set. set.begun) sets.new) }
{
    let mut tells = true;
    let mut from = 0;
    while let Some(number) = next_set(heads, head, from) {
        if !sets[number].ask(path, gave_up) {
            tells = false;
        }
        from = number + 1;
    }
    tells
}

/// The place, from one on, of the next spec that may match the path, of the members of the sets. `places` has the places of all
/// members in search order, and `head` is the number of the longest head of a set that begins the path.
pub(super) fn next_of_sets(
    sets: &mut [HeadSet],
    heads: &CountedHeads,
    head: Option<usize>,
    places: &[usize],
    from: usize,
) -> Option<usize>
    requires head { IfSome head (λ j. j < length heads.now.heads) }
    requires grouped { IsGrouped (set_heads sets.old)
        heads.now.heads heads.now.starts heads.now.order }
    ensures next { (specs : List Numbered) (path : List ℕ) (table : Table) (is_dir : Bool)
        → IsLongestOf (set_heads sets.old) path heads.now head
        → IsBytes path → places.now ≡ source_places specs
        → NoneBefore table specs path is_dir from → All (IsNextOf specs path from) sets.old
        → IsNext (is_of_heads (set_heads sets.old)) specs path from result
        × All (IsNextOf specs path from) sets.new × IfSome result (IsGlobHit specs path) }
    ensures heads { set_heads sets.new ≡ set_heads sets.old }
    ensures own { (sources : List SetSource) → All (IsHeadSetOf sources) sets.old
        → All (IsHeadSetOf sources) sets.new }
    ensures few { (path : List ℕ) → All (IsLittleStepped path) sets.old
        → All (IsLittleStepped path) sets.new }
    ensures idle { (path : List ℕ) → IsLongestOf (set_heads sets.old) path heads.now head
        → All (IsIdleBeside path) sets.old → All (IsIdleBeside path) sets.new }
    ensures begun { begins_of sets.new ≡ begins_of sets.old }
{
    let mut next = None;
    let mut asked = 0;
    while let Some(number) = next_set(heads, head, asked) {
        next = earlier(next, sets[number].next_place(places, from));
        asked = number + 1;
    }
    next
}

/// The lesser of two places, of those that are there.
pub(super) fn earlier(left: Option<usize>, right: Option<usize>) -> Option<usize>
    ensures { result ≡ earlier left right }
{
    match (left, right) {
        (Some(left), Some(right)) => Some(left.min(right)),
        (Some(place), None) | (None, Some(place)) => Some(place),
        (None, None) => None,
    }
}

/// Ends the questions about a path: all sets rest. Gives the steps and looks that they took, modulo 2^128.
pub(super) fn rest_sets(
    sets: &mut [HeadSet],
    heads: &CountedHeads,
    head: Option<usize>,
    path: &[u8],
) -> u128
    requires longest { IsLongestOf (set_heads sets.old) path.now heads.now head }
    requires idle { All (IsIdleBeside path.now) sets.old }
    ensures counted { Counts 0 (sum_by effort_of sets.old) result }
    ensures few { All (IsLittleStepped path.now) sets.old
        → result ≤ sum_by (most_effort path.now) sets.old }
    ensures at_rest { All IsAtRest sets.new }
    ensures total { sum_by total_of sets.new ≡ sum_by total_of sets.old }
    ensures heads { set_heads sets.new ≡ set_heads sets.old }
    ensures own { (sources : List SetSource) → All (IsHeadSetOf sources) sets.old
        → All (IsHeadSetOf sources) sets.new }
{
    let _ = path;
    let mut effort: u128 = 0;
    let mut from = 0;
    while let Some(number) = next_set(heads, head, from) {
        effort = effort.wrapping_add(sets[number].rest());
        from = number + 1;
    }
    effort
}
