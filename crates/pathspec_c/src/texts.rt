//! Texts, which are copied to room of the caller's.
//!
//! A call copies as many bytes as there is room for, and `length` is how many the text has. The status is 1 where there is
//! such a text, 0 where there is none, and 2 where the handle is empty.
ghost use Rattle.std.specs.Prelude.{◌≡◌, Some, length};
ghost use Rattle.std.specs.Option.{option_map};
ghost use Rattle.bstr.specs.BStr.{bstr_bytes};
ghost use Rattle.gix_pathspec.specs.Directories.{common_directory};
ghost use Rattle.gix_pathspec.specs.Prefixes.{common_prefix, first_prefix_directory};
ghost use Rattle.pathspec_c.specs.Names.{fault_name, NamesKinds};
ghost use Rattle.pathspec_c.specs.Texts.{copied, text_in, handle_status, text_status, text_copied, text_length};

use crate::handle::PsSearch;
use bstr::BStr;
use std::alloc::Global;

/// The common prefix, with which all selected paths begin. It is the empty text where they share nothing.
#[unsafe(no_mangle)]
pub extern "C" fn ps_search_common_prefix(
    alloc: Global,
    search: &mut PsSearch,
    room: &mut [u8],
    length: &mut usize,
) -> u32
    ensures stays { search.new.searcher ≡ search.old.searcher }
    ensures status { result
        ≡ handle_status (λ specs. Some (common_prefix specs)) search.old.searcher }
    ensures copied { room.new
        ≡ text_copied (text_in (λ specs. Some (common_prefix specs)) search.old.searcher) room.old }
    ensures length { length.new
        ≡ text_length (text_in (λ specs. Some (common_prefix specs)) search.old.searcher) }
{
    let Some(searcher) = search.take(alloc) else {
        return tell_nothing(length);
    };
    let status = tell(Some(searcher.search().common_prefix()), room, length);
    search.put(searcher);
    status
}

/// The longest common directory of the includes, at or below which all selected paths lie, if they share one.
#[unsafe(no_mangle)]
pub extern "C" fn ps_search_longest_common_directory(
    alloc: Global,
    search: &mut PsSearch,
    room: &mut [u8],
    length: &mut usize,
) -> u32
    ensures stays { search.new.searcher ≡ search.old.searcher }
    ensures status { result ≡ handle_status common_directory search.old.searcher }
    ensures copied { room.new
        ≡ text_copied (text_in common_directory search.old.searcher) room.old }
    ensures length { length.new ≡ text_length (text_in common_directory search.old.searcher) }
{
    let Some(searcher) = search.take(alloc) else {
        return tell_nothing(length);
    };
    let status = tell(searcher.search().longest_common_directory(), room, length);
    search.put(searcher);
    status
}

/// The directory that the first include has kept of the prefix. It is empty where none was kept, and without an include.
#[unsafe(no_mangle)]
pub extern "C" fn ps_search_prefix_directory(
    alloc: Global,
    search: &mut PsSearch,
    room: &mut [u8],
    length: &mut usize,
) -> u32
    ensures stays { search.new.searcher ≡ search.old.searcher }
    ensures status { result
        ≡ handle_status (λ specs. Some (first_prefix_directory specs)) search.old.searcher }
    ensures copied { room.new ≡ text_copied
        (text_in (λ specs. Some (first_prefix_directory specs)) search.old.searcher) room.old }
    ensures length { length.new ≡ text_length
        (text_in (λ specs. Some (first_prefix_directory specs)) search.old.searcher) }
{
    let Some(searcher) = search.take(alloc) else {
        return tell_nothing(length);
    };
    let status = tell(Some(searcher.search().prefix_directory()), room, length);
    search.put(searcher);
    status
}

/// The name of the fault with a number: `MissingParen` for 3.
#[unsafe(no_mangle)]
pub extern "C" fn ps_fault_name(kind: u32, room: &mut [u8], length: &mut usize) -> u32
    ensures status { result ≡ text_status (fault_name kind) }
    ensures copied { room.new ≡ text_copied (fault_name kind) room.old }
    ensures length { length.new ≡ text_length (fault_name kind) }
    // The library gives the faults these names.
    ensures names { NamesKinds }
{
    tell(name_of(kind), room, length)
}

/// The number of the declarations in `pathspec.h`. It grows where a declaration changes.
#[unsafe(no_mangle)]
pub extern "C" fn ps_version() -> u32
    ensures { result ≡ 2 }
{
    2
}

/// The name of the fault with a number.
fn name_of(kind: u32) -> Option<BStr<'static>>
    ensures { option_map bstr_bytes result ≡ fault_name kind }
{
    let name = match kind {
        1 => "Empty",
        2 => "UnimplementedShort",
        3 => "MissingParen",
        4 => "InvalidKeyword",
        5 => "LiteralWithGlob",
        6 => "SecondAttributes",
        7 => "InvalidPrefix",
        8 => "EmptyAttributes",
        9 => "InvalidName",
        10 => "InvalidValueByte",
        11 => "TrailingEscape",
        12 => "OutsideRoot",
        13 => "LeavesRepository",
        14 => "NotTruth",
        15 => "GlobAndNoGlob",
        _ => return None,
    };
    Some(BStr::new(name.as_bytes()))
}

/// Copies a text, if there is one.
pub(crate) fn tell(text: Option<BStr<'_>>, room: &mut [u8], length: &mut usize) -> u32
    ensures status { result ≡ text_status (option_map bstr_bytes text.entry) }
    ensures copied { room.new ≡ text_copied (option_map bstr_bytes text.entry) room.old }
    ensures length { length.new ≡ text_length (option_map bstr_bytes text.entry) }
{
    match text {
        Some(text) => {
            *length = copy(text.as_bytes(), room);
            1
        }
        None => {
            *length = 0;
            0
        }
    }
}

/// Tells of an empty handle.
fn tell_nothing(length: &mut usize) -> u32
    ensures status { result ≡ 2 }
    ensures length { length.new ≡ 0 }
{
    *length = 0;
    2
}

/// Copies bytes to the front of the caller's room, as far as it goes, and gives their count.
fn copy(bytes: &[u8], room: &mut [u8]) -> usize
    ensures length { result ≡ length bytes.now }
    ensures copied { room.new ≡ copied bytes.now room.old }
{
    let count = bytes.len().min(room.len());
    room[..count].copy_from_slice(&bytes[..count]);
    bytes.len()
}
