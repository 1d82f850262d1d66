//! Places of specs, found by their heads: the texts that begin each path that a spec fits.
ghost use Rattle.std.specs.Prelude.{◌≡◌, ℕ, ◌+◌, ◌^◌, ◌<◌, ◌≤◌, true, length, map, IfOk, IfSome, Contains};
ghost use Rattle.std.specs.List.Sorted.{IsNonDecreasing};
ghost use Rattle.pathspec_glob.specs.Counts.{Counts};
ghost use Rattle.pathspec_glob.specs.GlobCells.{has};
ghost use Rattle.pathspec_heads.specs.Heads.{IsLastFront, IsChainOf};
ghost use Rattle.pathspec_heads.specs.Groups.{IsGrouped, IsInGroup, IsInChain, IsLargestGroup, IsLeastFrom, IsOrder, AreWords, HasBitsOf, earlier, end_of};

use crate::groups::{Groups, grouped};
use crate::probe::Text;
pub use crate::sorted_texts::CompareScratch;
use crate::sorted_texts::SortedTexts;
use std::alloc::{AllocError, Global};
use std::fmt;
use std::marker::Model;

/// Places of specs, in groups of one head each. Where there are few, the next place is found as a bit of a word.
#[derive(Drop)]
pub struct PlacesByHead {
    heads: SortedTexts,
    // For each head, where its group begins in `order`.
    starts: Vec<usize>,
    // The places, group by group, ascending in each.
    order: Vec<usize>,
    // For the first heads, the places whose heads begin each, as bits: up to the first head with such a place above 63.
    words: Vec<u64>,
}

/// The answer to a search for the longest head that begins a text.
#[derive(Clone, Copy)]
pub struct LongestHead {
    /// The number of the head, if one begins the text.
    pub head: Option<usize>,
    /// The count of heads that were compared with the text.
    pub compared: usize,
}

// No text is printed: a comparison of it would not be counted.
impl fmt::Debug for PlacesByHead {
    fn fmt<W: fmt::Write>(&self, f: &mut fmt::Formatter<W>) -> fmt::Result {
        f.debug_struct("PlacesByHead")
            .field("heads", &self.heads.len())
            .finish()
    }
}

impl Model for PlacesByHead {
    ghost use Rattle.pathspec_heads.specs.Groups.{GroupedPlaces, ArePlaces};

    ghost Value = { GroupedPlaces };

    ghost view = { λ p. record { heads = p.heads; starts = p.starts.items; order = p.order.items } };

    ghost invariant = { λ p. ArePlaces p.heads p.starts.items p.order.items p.words.items };
}

// In line, since most lists have one number.
/// The least number from `from` on in an ascending list.
#[inline(always)]
fn next_in(places: &[usize], from: usize) -> Option<usize>
    requires { IsNonDecreasing places.now }
    ensures { IsLeastFrom (Contains places.now) from result }
{
    if places.len() == 1 {
        return next_of_one(places[0], from);
    }
    next_of_any(places, from)
}

/// The number, unless it is below `from`.
#[inline(always)]
fn next_of_one(place: usize, from: usize) -> Option<usize>
    ensures { IsLeastFrom (λ p. p ≡ place) from result }
{
    if place >= from { Some(place) } else { None }
}

/// The least number from `from` on in an ascending list of any length.
#[inline(never)]
fn next_of_any(places: &[usize], from: usize) -> Option<usize>
    requires { IsNonDecreasing places.now }
    ensures { IsLeastFrom (Contains places.now) from result }
{
    let at = places.partition_point(|place| *place < from);
    if at < places.len() {
        Some(places[at])
    } else {
        None
    }
}

/// The lesser of two numbers, or the only one that is there.
fn earlier(left: Option<usize>, right: Option<usize>) -> Option<usize>
    ensures { result ≡ earlier left right }
{
    match (left, right) {
        (Some(one), Some(other)) => Some(one.min(other)),
        (None, other) => other,
        (one, None) => one,
    }
}

/// The least bit of a word from `from` on.
#[inline(always)]
fn next_bit(word: u64, from: usize) -> Option<usize>
    ensures { IsLeastFrom (λ p. has word p ≡ true) from result }
{
    if from >= 64 {
        return None;
    }
    let rest = word >> from;
    if rest == 0 {
        return None;
    }
    Some(from + rest.trailing_zeros() as usize)
}

impl PlacesByHead {
    /// Groups the places of heads by head, where the place of a head is its index in the list. Each head is copied once.
    ///
    /// The cost is that of a sort of the heads, and besides linear in their bytes.
    ///
    /// # Errors
    /// Memory runs out.
    pub fn new(alloc: Global, heads: &[&[u8]]) -> Result<PlacesByHead, AllocError>
        ensures grouped { IfOk result (λ places. IsGrouped (map (λ head. head.now) heads.now)
            places.heads places.starts places.order) }
    {
        let Groups {
            heads,
            starts,
            order,
        } = grouped(alloc, heads)?;
        let mut places = PlacesByHead {
            heads,
            starts,
            order,
            words: Vec::new(alloc),
        };
        places.words = places.all_words(alloc)?;
        Ok(places)
    }

    /// Makes a scratch for searches for the heads. Walkers that share the places have one each: where one calls
    /// `places.longest_head_of(path, &mut mine)`, another calls `places.longest_head_of(path, &mut other)`.
    pub fn new_scratch(&self) -> CompareScratch
        ensures { result ≡ 0 }
    {
        CompareScratch::for_places(self)
    }

    /// How many places the largest group has: the most that share a head. The cost is linear in the heads.
    pub fn largest_group(&self) -> usize
        ensures largest { IsLargestGroup self.now result }
        // In each group places ascend.
        ensures order { IsOrder self.now.heads self.now.starts self.now.order }
    {
        let mut largest = 0;
        for head in 0..self.heads.len() {
            let size = self.end_of(head) - self.starts[head];
            largest = size.max(largest);
        }
        largest
    }

    // In line, and so the next place, since a match asks for them at each path.
    /// The longest head that begins the text, if one does, and how many heads were compared. The heads that begin the text are
    /// just those that begin this one, which is the last of them in byte order.
    ///
    /// The call compares at most as many heads as their count has binary digits, and two. Where the texts of one scratch come
    /// in byte order, it often compares one or two, and of a single head that one. It takes no memory.
    #[inline(always)]
    pub fn longest_head_of(&self, text: &[u8], scratch: &mut CompareScratch) -> LongestHead
        ensures found { IsLastFront self.now.heads (length self.now.heads) text.now result.head }
        ensures chain { IfSome result.head (λ j. IsChainOf self.now.heads text.now j) }
        ensures counted { Counts scratch.old result.compared scratch.new }
        ensures cost { (b : ℕ) → length self.now.heads < 2 ^ b → result.compared ≤ b + 2 }
        ensures asked { 0 < length self.now.heads → 1 ≤ result.compared }
        ensures none { length self.now.heads ≡ 0 → result.compared ≡ 0 }
    {
        match self.heads.len() {
            0 => LongestHead {
                head: None,
                compared: 0,
            },
            1 => self.only_head_of(text, scratch),
            _ => {
                let found = self.heads.longest_head_of(&Text(text), scratch);
                LongestHead {
                    head: found.head,
                    compared: found.compared,
                }
            }
        }
    }

    // In line, so that a match of one head makes no call.
    /// Whether the only head begins the text, found as in a search of all heads.
    #[inline(always)]
    fn only_head_of(&self, text: &[u8], scratch: &mut CompareScratch) -> LongestHead
        requires { length self.now.heads ≡ 1 }
        ensures found { IsLastFront self.now.heads (length self.now.heads) text.now result.head }
        ensures counted { Counts scratch.old result.compared scratch.new }
        ensures compared { result.compared ≡ 1 }
    {
        let comparison = self.heads.compare(0, &Text(text), scratch);
        let head = if comparison.agreed < self.heads.text_len(0) {
            None
        } else {
            Some(0)
        };
        LongestHead { head, compared: 1 }
    }

    /// The least place from `from` on whose head is the given one or begins it.
    ///
    /// The call takes no memory. Its cost isn't proved: where all such places are below 64 a look at a word, and else a search
    /// by halves for each such head.
    #[inline(always)]
    pub fn next_place(&self, head: usize, from: usize) -> Option<usize>
        requires { head < length self.now.heads }
        ensures { IsLeastFrom (IsInChain self.now.heads self.now.starts self.now.order head)
            from result }
    {
        match self.words.get(head) {
            Some(word) => next_bit(*word, from),
            None => self.next_by_links(head, from),
        }
    }

    /// The end of a head's group in the order of the places.
    fn end_of(&self, head: usize) -> usize
        requires { head < length self.now.heads }
        ensures { result ≡ end_of self.now.starts self.now.order head }
    {
        let last = self.starts.len() - 1;
        if head < last {
            self.starts[head + 1]
        } else {
            self.order.len()
        }
    }

    /// The least place from `from` on in a head's group.
    #[inline(always)]
    fn next_in_group(&self, head: usize, from: usize) -> Option<usize>
        requires { head < length self.now.heads }
        ensures { IsLeastFrom (IsInGroup self.now.starts self.now.order head) from result }
    {
        let end = self.end_of(head);
        next_in(&self.order[self.starts[head]..end], from)
    }

    // In line, since no other head begins most heads.
    /// The least place from `from` on whose head is the given one or begins it, found by links.
    #[inline(always)]
    fn next_by_links(&self, head: usize, from: usize) -> Option<usize>
        requires { head < length self.now.heads }
        ensures { IsLeastFrom (IsInChain self.now.heads self.now.starts self.now.order head)
            from result }
    {
        match self.heads.link(head) {
            None => self.next_in_group(head, from),
            Some(_) => self.next_in_chain(head, from),
        }
    }

    /// The least place from `from` on whose head is the given one or begins it, where another head does.
    #[inline(never)]
    fn next_in_chain(&self, head: usize, from: usize) -> Option<usize>
        requires { head < length self.now.heads }
        ensures { IsLeastFrom (IsInChain self.now.heads self.now.starts self.now.order head)
            from result }
    {
        let mut next = self.next_in_group(head, from);
        let mut at = head;
        while let Some(link) = self.heads.link(at) {
            next = earlier(next, self.next_in_group(link, from));
            at = link;
        }
        next
    }

    /// The places whose heads are the given one or begin it, as bits; None where one of them isn't below 64.
    fn word_of(&self, head: usize) -> Option<u64>
        requires { head < length self.now.heads }
        ensures { IfSome result (λ word. HasBitsOf word
            (IsInChain self.now.heads self.now.starts self.now.order head)) }
    {
        let mut word = 0;
        let mut from = 0;
        while let Some(place) = self.next_by_links(head, from) {
            if place >= 64 {
                return None;
            }
            word |= 1 << place;
            from = place + 1;
        }
        Some(word)
    }

    /// The words of the first heads, up to a head without one. At most 64 heads have one.
    ///
    /// # Errors
    /// Memory runs out.
    fn all_words(&self, alloc: Global) -> Result<Vec<u64>, AllocError>
        ensures { IfOk result (λ words. AreWords self.now words.items) }
    {
        let mut words = Vec::new(alloc);
        for head in 0..self.heads.len() {
            match self.word_of(head) {
                Some(word) => words.push(word)?,
                None => return Ok(words),
            }
        }
        Ok(words)
    }
}
