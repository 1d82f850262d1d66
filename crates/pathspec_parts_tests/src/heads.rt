//! Heads and stems that are asked.
use pathspec_heads::places::PlacesByHead;
use pathspec_heads::tables::{SpecStem, StemTable};
use std::alloc::{AllocError, Global};

/// The least place from one on whose head begins a text.
pub fn next_of(places: &PlacesByHead, text: &[u8], from: usize) -> Option<usize> {
    let mut scratch = places.new_scratch();
    match places.longest_head_of(text, &mut scratch).head {
        Some(head) => places.next_place(head, from),
        None => None,
    }
}

/// The table of the stems `Src`, and without case `Doc`, which a wildcard follows, and `Lib`, which wants a directory.
#[rattlefmt::skip]
pub fn stem_table(alloc: Global) -> Result<StemTable, AllocError> {
    let stem = SpecStem { text: b"Src", ignores_case: false, has_wildcard: false, wants_directory: false };
    let wild = SpecStem { text: b"Doc", ignores_case: true, has_wildcard: true, wants_directory: false };
    let directory = SpecStem { text: b"Lib", ignores_case: true, has_wildcard: false, wants_directory: true };
    StemTable::new(alloc, &[stem, wild, directory])
}

/// Whether that table reaches what it has to, and takes what its stems without a wildcard take.
pub fn answers(table: &StemTable) -> bool {
    let reaches = table.reaches(b"Src/a", None) && table.reaches(b"dOCs", Some(true));
    let takes = table.takes(b"Src/a", false) && table.takes_folded(b"lIB", true);
    let refuses = table.reaches(b"src", None)
        || table.takes(b"dOCs", true)
        || table.takes(b"lIB", false);
    reaches && takes && !refuses && !table.takes_folded(b"Src", true)
}
