//! The set of a head: a pass over what stands in a path behind the head tells which globs right behind that head match.
//!
//! The globs of these specs begin right behind the head. A path with a wildcard byte right behind it may be a spec's text, and the
//! set doesn't tell of it.
ghost use Rattle.std.specs.Prelude.{◌≡◌, ◌+◌, ◌*◌, ◌<◌, ◌≤◌, ◌⊎◌, ℕ, Bool, true, false, List, length, get_or, slice_get, IfSome, IsTrue, IsFalse};
ghost use Rattle.std.specs.Option.{option_and_then};
ghost use Rattle.pathspec_glob.specs.Counts.{Counts};
ghost use Rattle.pathspec_glob_set.specs.Sizes.{AreLooks};
ghost use Rattle.gix_pathspec.specs.Attributes.{Table};
ghost use Rattle.gix_pathspec.specs.Bytes.{begins_with};
ghost use Rattle.gix_pathspec.specs.EndBytes.{has_wildcard_at};
ghost use Rattle.gix_pathspec.specs.Paths.{IsBytes};
ghost use Rattle.gix_pathspec.specs.Search.{Numbered};
ghost use Rattle.gix_pathspec.specs.SetSources.{all_sources, is_of_head, places_behind, source_places};
ghost use Rattle.gix_pathspec.specs.Sets.{IsNext, NoneBefore};

use crate::search::counted::SetHead;
use crate::search::spec_matching::has_wildcard_at;
use pathspec_glob_set::SetScratch;

/// The set of a head, and the room in which it reads paths.
#[derive(Drop)]
pub(crate) struct HeadSet {
    head: SetHead,
    /// The numbers of its members among all specs whose glob begins right behind their head.
    numbers: Vec<usize>,
    set: SetScratch,
    /// The number of the member that is next among its own, or their count.
    next: usize,
    /// The steps and looks for all paths before the last one, modulo 2^128.
    begun: u128,
    /// The steps that the last path took.
    steps: u128,
    /// The members that were looked at since.
    looks: usize,
    ghost alike: { length set.table.moves.ends.items ≡ length numbers.items },
    ghost within: { next ≤ length numbers.items },
    ghost few: { AreLooks (length numbers.items) 0 next looks },
    ghost counted: { Counts begun (steps + looks) set.total },
}

impl HeadSet {
    ghost use Rattle.gix_pathspec.specs.HeadSets.{effort_of, total_of, IsAtRest, IsGivenUp, IsGlobHit, IsHeadSetOf, IsLittleStepped, IsNextOf, IsReadBehind, StaysAsked, StaysSame, most_effort};

    /// Puts a set together with its head and the numbers of its members. It is at rest.
    pub(crate) fn new(head: SetHead, numbers: Vec<usize>, set: SetScratch) -> HeadSet
        requires { length set.table.moves.ends.items ≡ length numbers.items }
        ensures head { result.head ≡ head }
        ensures numbers { result.numbers ≡ numbers }
        ensures set { result.set ≡ set }
        ensures total { total_of result ≡ set.total }
        ensures at_rest { IsAtRest result }
    {
        let begun = set.total_steps();
        let next = numbers.len();
        HeadSet {
            head,
            numbers,
            set,
            next,
            begun,
            steps: 0,
            looks: 0,
        }
    }

    /// The head, which a match can't read.
    pub(crate) fn head(&self) -> &SetHead
        ensures { result.now ≡ self.now.head }
    {
        &self.head
    }

    /// Reads what stands in a path behind the head, which begins it, and finds the first member that may match. Tells whether
    /// the set told: it doesn't where a wildcard byte stands right behind the head, nor where it gives up, which `gave_up`
    /// says then.
    pub(crate) fn ask(&mut self, path: &[u8], gave_up: &mut bool) -> bool
        requires begins { begins_with path.now self.old.head ≡ true }
        requires at_rest { IsAtRest self.old }
        ensures told { has_wildcard_at path.now (length self.old.head) ≡ false
            → gave_up.new ≡ false → result ≡ true }
        ensures unbarred { IsTrue result
            → has_wildcard_at path.now (length self.old.head) ≡ false }
        ensures next { (specs : List Numbered) → IsHeadSetOf (all_sources specs) self.old
            → IsBytes path.now → IsTrue result → IsNextOf specs path.now 0 self.new }
        ensures gave_up { gave_up.new ≡ true
            → (gave_up.old ≡ true) ⊎ ((result ≡ false) × IsGivenUp path.now self.new) }
        ensures goes_on { gave_up.old ≡ true → gave_up.new ≡ true }
        ensures same { StaysSame self.old self.new }
        ensures few { IsLittleStepped path.now self.new }
        ensures begun { Counts 0 (total_of self.old) self.new.begun }
    {
        if has_wildcard_at(path, self.head.len()) {
            return false;
        }
        self.set.read(&path[self.head.len()..]);
        self.steps = self.set.last_steps();
        if self.set.gave_up() {
            *gave_up = true;
            return false;
        }
        self.find_first();
        true
    }

    /// Finds the first member that may match the path that was read.
    fn find_first(&mut self)
        requires { self.old.looks ≡ 0 }
        ensures stays { StaysAsked self.old self.new }
        ensures next { (specs : List Numbered) (path : List ℕ)
            → IsHeadSetOf (all_sources specs) self.old → IsBytes path
            → IsReadBehind path self.old → IsNextOf specs path 0 self.new }
    {
        let found = self.set.next_of(0);
        self.looks = self.set.last_looks();
        self.next = found.unwrap_or(self.numbers.len());
    }

    /// The place of the next member, if there is one. `places` has the places of all members in search order.
    fn place(&self, places: &[usize]) -> Option<usize>
        ensures { result ≡ option_and_then (slice_get places.now)
            (slice_get self.now.numbers.items self.now.next) }
    {
        match self.numbers.get(self.next) {
            Some(number) => places.get(*number).copied(),
            None => None,
        }
    }

    /// Whether the next member stands before a place.
    fn is_passed(&self, places: &[usize], from: usize) -> bool
        ensures some { IsTrue result → self.now.next < length self.now.numbers.items }
        ensures passed { (specs : List Numbered) → IsTrue result
            → IsHeadSetOf (all_sources specs) self.now → places.now ≡ source_places specs
            → get_or (places_behind self.now.head specs) self.now.next 0 < from }
        ensures behind { (specs : List Numbered) → IsFalse result
            → IsHeadSetOf (all_sources specs) self.now → places.now ≡ source_places specs
            → self.now.next < length self.now.numbers.items
            → from ≤ get_or (places_behind self.now.head specs) self.now.next 0 }
    {
        match self.place(places) {
            Some(place) => place < from,
            None => false,
        }
    }

    /// Goes on from the next member to the one after it that may match, or to the count of members.
    fn pass(&mut self)
        requires { self.old.next < length self.old.numbers.items }
        ensures stays { StaysAsked self.old self.new }
        ensures further { self.old.next < self.new.next }
        ensures next { (specs : List Numbered) (path : List ℕ) (table : Table) (is_dir : Bool)
            (from : ℕ) → IsBytes path → NoneBefore table specs path is_dir from
            → get_or (places_behind self.old.head specs) self.old.next 0 < from
            → IsNextOf specs path from self.old → IsNextOf specs path from self.new }
    {
        let found = self.set.next_of(self.next + 1);
        self.looks += self.set.last_looks();
        self.next = found.unwrap_or(self.numbers.len());
    }

    /// The place, from one on, of the next member that may match the path, if there is one. `places` has the places of all
    /// members in search order.
    pub(crate) fn next_place(&mut self, places: &[usize], from: usize) -> Option<usize>
        ensures stays { StaysAsked self.old self.new }
        ensures next { (specs : List Numbered) (path : List ℕ) (table : Table) (is_dir : Bool)
            → IsBytes path → places.now ≡ source_places specs
            → NoneBefore table specs path is_dir from → IsNextOf specs path from self.old
            → IsNext (is_of_head self.old.head) specs path from result
            × IsNextOf specs path from self.new × IfSome result (IsGlobHit specs path) }
    {
        while self.is_passed(places, from) {
            self.pass();
        }
        self.place(places)
    }

    /// Ends the questions about a path: no member is next. Gives the steps and looks that they took, modulo 2^128.
    pub(crate) fn rest(&mut self) -> u128
        ensures counted { Counts 0 (effort_of self.old) result }
        ensures few { (path : List ℕ) → IsLittleStepped path self.old
            → result ≤ most_effort path self.old }
        ensures at_rest { IsAtRest self.new }
        ensures same { StaysSame self.old self.new }
        ensures total { total_of self.new ≡ total_of self.old }
    {
        let effort = self.steps.wrapping_add(self.looks as u128);
        self.next = self.numbers.len();
        self.begun = self.set.total_steps();
        self.steps = 0;
        self.looks = 0;
        effort
    }
}
