//! Different texts in byte order. A comparison of one with a probe is counted in a scratch.
ghost use Rattle.std.specs.Prelude.{◌≡◌, ℕ, ◌+◌, ◌++◌, ◌∷◌, [], ◌<◌, ◌≤◌, false, not, if◌then◌else◌, length, IfOk};
ghost use Rattle.pathspec_glob.specs.Bytes.{is_empty};
ghost use Rattle.pathspec_glob.specs.Counts.{Counts};
ghost use Rattle.pathspec_heads.specs.Agreement.{agreement, IsComparison};
ghost use Rattle.pathspec_heads.specs.Heads.{head_at, ends_with_head, IsLastFront, IsRising};

use crate::agreement::agreement;
use crate::places::PlacesByHead;
use crate::probe::{Probe, ROOM};
use crate::tables::TableKey;
use std::alloc::{AllocError, Global};
use std::marker::Model;

/// The result of a comparison of a text with a probe.
#[derive(Clone, Copy)]
pub(crate) struct Comparison {
    /// The count of bytes that agree before the first that doesn't.
    pub(crate) agreed: usize,
    /// Whether the text stands behind the probe in byte order.
    pub(crate) is_behind: bool,
}

/// The scratch of searches: how many texts they compared, and which one last.
#[derive(Debug, Drop)]
pub struct CompareScratch {
    // Raised by `SortedTexts::compare` alone, and never set back.
    compared: u128,
    // The text compared last, at which the next search looks first. It may be any number.
    last: usize,
}

impl Model for CompareScratch {
    ghost use Rattle.std.specs.Prelude.{ℕ};

    ghost Value = { ℕ };

    ghost view = { λ s. s.compared };
}

/// The scratch before the first comparison.
const UNUSED: CompareScratch = CompareScratch {
    compared: 0,
    last: 0,
};

// Places and tables alone make a scratch: a search has none but the one that it is lent.
impl CompareScratch {
    /// Makes a scratch for the heads of places, before the first comparison.
    pub(crate) fn for_places(_places: &PlacesByHead) -> CompareScratch
        ensures { result ≡ 0 }
    {
        UNUSED
    }

    /// Makes a scratch for a list of stems, before the first comparison.
    pub(crate) fn for_stems(_key: &TableKey) -> CompareScratch
        ensures { result ≡ 0 }
    {
        UNUSED
    }

    /// The count of comparisons of texts, modulo 2^128.
    pub fn compared(&self) -> u128
        ensures { result ≡ self.now }
    {
        self.compared
    }

    /// The index of the text that was compared last. It may be any number.
    #[inline(always)]
    pub(crate) fn last(&self) -> usize {
        self.last
    }
}

/// The place of a text in the bytes, and how it stands to the texts before it.
#[derive(Clone, Copy)]
struct Span {
    start: usize,
    len: usize,
    // The length of the front that the text shares with the one before; 0 for the first.
    shared: usize,
    // The last text before this one that begins it.
    link: Option<usize>,
}

/// Different texts in byte order, each with a link to the last text before it that begins it.
///
/// A text, the one that its link leads to, and so on are its chain: the texts that begin it. Other modules can ask only for
/// lengths, and how a text compares with a probe. A scratch counts each such comparison, and never sets the count back.
#[derive(Drop)]
pub(crate) struct SortedTexts {
    // The texts, one behind the other, with zeros behind one that is shorter than `ROOM`.
    bytes: Vec<u8>,
    spans: Vec<Span>,
}

impl Model for SortedTexts {
    ghost use Rattle.std.specs.Prelude.{List, ℕ};
    ghost use Rattle.pathspec_heads.specs.Heads.{span_texts, AreSpans};

    ghost Value = { List (List ℕ) };

    ghost view = { λ t. span_texts t.bytes.items t.spans.items };

    ghost invariant = { λ t. AreSpans t.bytes.items t.spans.items };
}

impl SortedTexts {
    /// Makes an empty list.
    pub(crate) fn new(alloc: Global) -> SortedTexts
        ensures { result ≡ [] }
    {
        SortedTexts {
            bytes: Vec::new(alloc),
            spans: Vec::new(alloc),
        }
    }

    /// Adds a copy of a text that stands behind all others, unless it is the last of them. Tells whether it was added. The
    /// cost is linear in its bytes, on average.
    ///
    /// # Errors
    /// Memory runs out.
    pub(crate) fn push_new(&mut self, text: &[u8]) -> Result<bool, AllocError>
        requires { ends_with_head self.old text.now ≡ false → IsRising (self.old ++ text.now ∷ []) }
        ensures added { IfOk result (λ added. added ≡ not (ends_with_head self.old text.now)) }
        ensures texts { IfOk result (λ added.
            self.new ≡ (if added then self.old ++ text.now ∷ [] else self.old)) }
    {
        if self.ends_with(text) {
            return Ok(false);
        }
        self.push(text)?;
        Ok(true)
    }

    /// Adds a copy of a text that stands behind all others.
    ///
    /// # Errors
    /// Memory runs out.
    fn push(&mut self, text: &[u8]) -> Result<(), AllocError>
        requires { IsRising (self.old ++ text.now ∷ []) }
        ensures { IfOk result (λ _. self.new ≡ self.old ++ text.now ∷ []) }
    {
        let (shared, link) = self.front_shared_with(text);
        let start = self.bytes.len();
        self.bytes.extend_from_slice(text)?;
        self.bytes
            .extend_from_slice(&[0; ROOM][text.len().min(ROOM)..])?;
        self.spans.push(Span {
            start,
            len: text.len(),
            shared,
            link,
        })?;
        Ok(())
    }

    /// The length of the front that the last text shares with one behind it, and the last text that begins that one.
    fn front_shared_with(&self, text: &[u8]) -> (usize, Option<usize>)
        requires { IsRising (self.now ++ text.now ∷ []) }
        ensures shared { (k : ℕ) → k + 1 ≡ length self.now
            → result.0 ≡ agreement (head_at self.now k) text.now }
        ensures linked { IsLastFront self.now (length self.now) text.now result.1 }
    {
        let count = self.len();
        if count == 0 {
            return (0, None);
        }
        let last = count - 1;
        let shared = agreement(self.text(last), text);
        (shared, self.front_of(last, shared))
    }

    /// Whether the last of the texts is the given one. No search can ask this, since no scratch counts it.
    fn ends_with(&self, text: &[u8]) -> bool
        ensures { result ≡ ends_with_head self.now text.now }
    {
        let count = self.len();
        count > 0 && self.text(count - 1) == text
    }

    /// Whether there are no texts.
    #[inline(always)]
    pub(crate) fn is_empty(&self) -> bool
        ensures { result ≡ is_empty self.now }
    {
        self.spans.is_empty()
    }

    /// The count of texts.
    #[inline(always)]
    pub(crate) fn len(&self) -> usize
        ensures count { result ≡ length self.now }
        ensures rising { IsRising self.now }
    {
        self.spans.len()
    }

    /// The text at an index, which only this module reads.
    fn text(&self, index: usize) -> &[u8]
        requires { index < length self.now }
        ensures { result.now ≡ head_at self.now index }
    {
        let span = self.spans[index];
        &self.bytes[span.start..span.start + span.len]
    }

    /// The length of the text at an index.
    #[inline(always)]
    pub(crate) fn text_len(&self, index: usize) -> usize
        requires { index < length self.now }
        ensures { result ≡ length (head_at self.now index) }
    {
        self.spans[index].len
    }

    /// The length of the front that the text at an index shares with the next.
    #[inline(always)]
    pub(crate) fn shared_len(&self, index: usize) -> usize
        requires { index + 1 < length self.now }
        ensures { result
            ≡ agreement (head_at self.now index) (head_at self.now (index + 1)) }
    {
        self.spans[index + 1].shared
    }

    /// The last text before the one at the index that begins it.
    #[inline(always)]
    pub(crate) fn link(&self, index: usize) -> Option<usize>
        requires { index < length self.now }
        ensures last { IsLastFront self.now index (head_at self.now index) result }
        ensures rising { IsRising self.now }
    {
        self.spans[index].link
    }

    /// Compares the text at an index with a probe. It looks at each byte of the shorter at most twice, or at sixteen at once.
    #[inline(always)]
    pub(crate) fn compare<P: Probe>(
        &self,
        index: usize,
        probe: &P,
        scratch: &mut CompareScratch,
    ) -> Comparison
        requires { index < length self.now }
        ensures compared { IsComparison (head_at self.now index) (P.text probe.now)
            result.agreed result.is_behind }
        ensures counted { Counts scratch.old 1 scratch.new }
    {
        scratch.compared = scratch.compared.wrapping_add(1);
        scratch.last = index;
        let Span {
            start,
            len,
            shared: _,
            link: _,
        } = self.spans[index];
        if len == 0 {
            return Comparison {
                agreed: 0,
                is_behind: false,
            };
        }
        let agreed = probe.agreement(&self.bytes[start..], len);
        Comparison {
            agreed,
            is_behind: agreed < len
                && (agreed == probe.len() || self.text(index)[agreed] > probe.byte_at(agreed)),
        }
    }
}
