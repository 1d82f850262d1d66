//! Sorted texts as the stems of specs: whether one of them is related to a path.
ghost use Rattle.std.specs.Prelude.{◌≡◌, ◌+◌, ◌<◌, ◌≤◌, length, map, IfOk};
ghost use Rattle.std.specs.List.{list_any};
ghost use Rattle.pathspec_glob.specs.Bytes.{fold_case};
ghost use Rattle.pathspec_heads.specs.Heads.{IsLastFront};
ghost use Rattle.pathspec_heads.specs.Stems.{with_slash, HasSameTexts, is_boundary};
ghost use Rattle.pathspec_heads.specs.Relations.{relates, is_related};

use crate::groups::grouped;
use crate::probe::{PathAndSlash, Probe};
use crate::sorted_texts::{CompareScratch, SortedTexts};
use std::alloc::{AllocError, Global};

/// The relation of a path to a stem.
#[derive(Clone, Copy)]
pub(crate) enum Relation {
    /// The path lies below the stem.
    Below,
    /// The path is the stem or lies below it.
    AtOrBelow,
    /// One of the two is the other or lies below it.
    LeadsTo,
    /// One of the two is the other or lies below it, or the path begins with the stem.
    LeadsToWild,
}

impl SortedTexts {
    /// Makes copies of the stems, each once. The cost is that of a sort.
    ///
    /// # Errors
    /// Memory runs out.
    pub(crate) fn of_stems(alloc: Global, stems: &[&[u8]]) -> Result<SortedTexts, AllocError>
        ensures { IfOk result (HasSameTexts (map (λ stem. stem.now) stems.now)) }
    {
        Ok(grouped(alloc, stems)?.heads)
    }

    // In line, since most lists of a table are empty.
    /// Whether the path has the relation to one of the stems, in lower case where case doesn't count. Without a relation it
    /// has not.
    ///
    /// The call takes no memory. It compares as few stems as [`SortedTexts::longest_head_of`] does, and then takes a link for
    /// each stem that begins the path. No clause bounds these links.
    #[inline(always)]
    pub(crate) fn has_related(
        &self,
        relation: Option<Relation>,
        path: &[u8],
        ignore_case: bool,
        scratch: &mut CompareScratch,
    ) -> bool
        ensures { result ≡ list_any (λ stem.
            is_related relation stem (fold_case ignore_case path.now)) self.now }
    {
        if self.is_empty() {
            return false;
        }
        match relation {
            Some(relation) => {
                self.some_related(relation, &PathAndSlash { path, ignore_case }, scratch)
            }
            None => false,
        }
    }

    /// Whether the path has the relation to one of the stems, of which there are some.
    #[inline(never)]
    fn some_related(
        &self,
        relation: Relation,
        probe: &PathAndSlash<'_>,
        scratch: &mut CompareScratch,
    ) -> bool
        requires { 0 < length self.now }
        ensures { result ≡ list_any (λ stem.
            relates relation stem (fold_case probe.now.ignore_case probe.now.path.now)) self.now }
    {
        let found = self.longest_head_of(probe, scratch);
        match relation {
            Relation::Below => self.has_boundary(found.head, probe, probe.path.len()),
            Relation::AtOrBelow => self.has_boundary(found.head, probe, probe.len()),
            Relation::LeadsTo => {
                found.is_front || self.has_boundary(found.head, probe, probe.len())
            }
            Relation::LeadsToWild => found.is_front || found.head.is_some(),
        }
    }

    /// Whether one of the stems that begin the path and a slash is shorter than `limit` and ends before a slash of it. `first`
    /// is the last of these stems in byte order.
    fn has_boundary(&self, first: Option<usize>, probe: &PathAndSlash<'_>, limit: usize) -> bool
        requires first { IsLastFront self.now (length self.now)
            (with_slash probe.now.ignore_case probe.now.path.now) first }
        requires limit { limit ≤ length probe.now.path.now + 1 }
        ensures { result ≡ list_any
            (is_boundary (with_slash probe.now.ignore_case probe.now.path.now) limit) self.now }
    {
        let mut next = first;
        while let Some(stem) = next {
            let len = self.text_len(stem);
            if len < limit && probe.byte_at(len) == b'/' {
                return true;
            }
            next = self.link(stem);
        }
        false
    }
}
