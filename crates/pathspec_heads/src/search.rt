//! A search for the sorted texts that begin a probe. By halves it finds the last text that isn't behind the probe, and then by
//! links, without a comparison, the last one that begins it.
ghost use Rattle.std.specs.Prelude.{◌≡◌, ◌⊎◌, ℕ, ◌+◌, ◌-◌, ◌/◌, ◌^◌, ◌<◌, ◌≤◌, true, List, length, take};
ghost use Rattle.std.specs.List.{list_any};
ghost use Rattle.pathspec_glob.specs.Bytes.{begins_with};
ghost use Rattle.pathspec_glob.specs.Counts.{Counts};
ghost use Rattle.pathspec_heads.specs.Agreement.{IsComparison};
ghost use Rattle.pathspec_heads.specs.Heads.{head_at, IsLastFront, Brackets, IsSearched};

use crate::probe::Probe;
use crate::sorted_texts::{CompareScratch, Comparison, SortedTexts};

/// A search's state. The texts below `low` aren't behind the probe, and those from `high` on are. The last text below `low`
/// agrees with the probe in `agreed` bytes.
#[derive(Clone, Copy)]
struct SearchRange {
    low: usize,
    high: usize,
    agreed: usize,
}

/// The answer of a search.
#[derive(Clone, Copy)]
pub(crate) struct Found {
    /// The last text that begins the probe, if one does.
    pub(crate) head: Option<usize>,
    /// Whether a text begins with the probe.
    pub(crate) is_front: bool,
    /// The count of texts that were compared with the probe.
    pub(crate) compared: usize,
}

/// The index at which a search looks between two others: first at or next to the hint, then beside it, then in the middle.
#[inline(always)]
fn next_look(low: usize, high: usize, hint: usize, looks: usize) -> usize
    requires { low < high }
    ensures within { (low ≤ result) × (result < high) }
    ensures middle { 2 ≤ looks → result ≡ low + (high - low) / 2 }
{
    if looks < 2 {
        hint.clamp(low, high - 1)
    } else {
        low + (high - low) / 2
    }
}

impl SortedTexts {
    // In line, so that a match makes no call where the first look ends the search.
    /// The last text that begins the probe, and whether some text begins with the probe. The texts that begin the probe are
    /// just those that begin the one found.
    ///
    /// The search compares at most as many texts as their count has binary digits, and two; often one or two, where the probes
    /// of a scratch come in byte order. It begins at the text compared last, and ends at one that begins with the probe.
    #[inline(always)]
    pub(crate) fn longest_head_of<P: Probe>(&self, probe: &P, scratch: &mut CompareScratch) -> Found
        requires { 0 < length self.now }
        ensures found { IsLastFront self.now (length self.now) (P.text probe.now) result.head }
        ensures front { result.is_front
            ≡ list_any (λ t. begins_with t (P.text probe.now)) self.now }
        ensures counted { Counts scratch.old result.compared scratch.new }
        ensures cost { (b : ℕ) → length self.now < 2 ^ b → result.compared ≤ b + 2 }
        ensures asked { 1 ≤ result.compared }
    {
        let all = SearchRange {
            low: 0,
            high: self.len(),
            agreed: 0,
        };
        let index = next_look(0, all.high, scratch.last(), 0);
        let left = self.probe(probe, all, index, scratch);
        if left.low < left.high {
            return self.search_on(probe, left, scratch);
        }
        self.found_at(probe, left, 1)
    }

    /// Continues a search after its first comparison, which counts too: beside the text compared last, and then by halves.
    #[inline(never)]
    fn search_on<P: Probe>(
        &self,
        probe: &P,
        left: SearchRange,
        scratch: &mut CompareScratch,
    ) -> Found
        requires some { 0 < length self.now }
        requires so_far { IsSearched self.now (P.text probe.now) left.low left.high left.agreed }
        ensures found { IsLastFront self.now (length self.now) (P.text probe.now) result.head }
        ensures front { result.is_front
            ≡ list_any (λ t. begins_with t (P.text probe.now)) self.now }
        ensures counted { (before : ℕ) → Counts before 1 scratch.old
            → Counts before result.compared scratch.new }
        ensures cost { (b : ℕ) → length self.now < 2 ^ b → result.compared ≤ b + 2 }
        ensures asked { 1 ≤ result.compared }
    {
        let hint = scratch.last();
        let mut range = left;
        let mut compared = 1;
        while range.low < range.high {
            let index = next_look(range.low, range.high, hint, compared);
            range = self.probe(probe, range, index, scratch);
            compared += 1;
        }
        self.found_at(probe, range, compared)
    }

    /// Compares the text at the index with the probe, and gives the range left to search: none if it begins with the probe.
    #[inline(always)]
    fn probe<P: Probe>(
        &self,
        probe: &P,
        range: SearchRange,
        index: usize,
        scratch: &mut CompareScratch,
    ) -> SearchRange
        requires index { (range.low ≤ index) × (index < range.high) }
        requires so_far { IsSearched self.now (P.text probe.now) range.low range.high range.agreed }
        ensures so_far { IsSearched self.now (P.text probe.now)
            result.low result.high result.agreed }
        ensures counted { Counts scratch.old 1 scratch.new }
        ensures smaller { (result.high - result.low ≤ index - range.low)
            ⊎ (result.high - result.low ≤ range.high - (index + 1)) }
    {
        let comparison = self.compare(index, probe, scratch);
        if comparison.agreed >= probe.len() {
            return SearchRange {
                low: index + 1,
                high: index + 1,
                agreed: comparison.agreed,
            };
        }
        self.narrow(range, index, comparison)
    }

    /// The range that is left after the text at the index was compared with a probe that it doesn't begin with. If they agree
    /// in more bytes than the text and its neighbour do, the neighbour stands on the other side of the probe.
    #[inline(always)]
    fn narrow(&self, range: SearchRange, index: usize, comparison: Comparison) -> SearchRange
        requires index { (range.low ≤ index) × (index < range.high) }
        requires within { range.high ≤ length self.now }
        ensures so_far { (text : List ℕ)
            → Brackets self.now text range.low range.high range.agreed
            → IsComparison (head_at self.now index) text comparison.agreed comparison.is_behind
            → comparison.agreed < length text
            → Brackets self.now text result.low result.high result.agreed }
        ensures smaller { (result.high - result.low ≤ index - range.low)
            ⊎ (result.high - result.low ≤ range.high - (index + 1)) }
    {
        let SearchRange { low, high, agreed } = range;
        if comparison.is_behind {
            if low < index && self.shared_len(index - 1) < comparison.agreed {
                return SearchRange {
                    low: index,
                    high: index,
                    agreed: self.shared_len(index - 1),
                };
            }
            return SearchRange {
                low,
                high: index,
                agreed,
            };
        }
        let next = index + 1;
        let agreed = comparison.agreed;
        if next < high && self.shared_len(index) < agreed {
            return SearchRange {
                low: next,
                high: next,
                agreed,
            };
        }
        SearchRange {
            low: next,
            high,
            agreed,
        }
    }

    /// The answer of a search that ended with this range after so many comparisons.
    #[inline(always)]
    fn found_at<P: Probe>(&self, probe: &P, range: SearchRange, compared: usize) -> Found
        requires some { 0 < length self.now }
        requires ended { range.high ≤ range.low }
        requires so_far { IsSearched self.now (P.text probe.now) range.low range.high range.agreed }
        ensures found { IsLastFront self.now (length self.now) (P.text probe.now) result.head }
        ensures front { result.is_front
            ≡ list_any (λ t. begins_with t (P.text probe.now)) self.now }
        ensures compared { result.compared ≡ compared }
    {
        let head = if range.low == 0 {
            None
        } else {
            self.front_of(range.low - 1, range.agreed)
        };
        Found {
            head,
            is_front: range.agreed >= probe.len(),
            compared,
        }
    }

    /// The last text at or before the index that begins the first `agreed` bytes of the text there. It takes a link for each
    /// text that it passes, at most as many as the text at the index has bytes.
    pub(crate) fn front_of(&self, index: usize, agreed: usize) -> Option<usize>
        requires { index < length self.now }
        ensures { IsLastFront self.now (index + 1) (take agreed (head_at self.now index)) result }
    {
        let mut at = index;
        while self.text_len(at) > agreed {
            match self.link(at) {
                Some(link) => at = link,
                None => return None,
            }
        }
        Some(at)
    }
}
