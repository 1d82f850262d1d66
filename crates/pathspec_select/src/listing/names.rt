//! The directories that two paths share.
ghost use Rattle.std.specs.Prelude.{◌≡◌, drop, IsTrue};
ghost use Rattle.pathspec_parts.specs.Records.{shared_depth, implied_names, directory_names};
ghost use Rattle.pathspec_parts.specs.RecordParts.{IsClosed};
ghost use Rattle.pathspec_select.specs.ListingAnswers.{HasCommonFront, SharesNames, IsRestOf};

use bstr::ByteSlice;
use pathspec_parts::split;

/// The paths of two directories behind the names that both begin with: `b/` and `c/` for `a/b/` and `a/c/`. The call looks at
/// each byte of those names, and of one more.
pub(super) fn after_shared<'a>(directory: &'a [u8], wanted: &'a [u8]) -> (&'a [u8], &'a [u8])
    requires { IsClosed wanted.now }
    ensures left { let names = directory_names directory.now in directory_names result.0.now
        ≡ drop (shared_depth names (directory_names wanted.now)) names }
    ensures missing { directory_names result.1.now
        ≡ implied_names (directory_names directory.now) (directory_names wanted.now) }
    ensures rest { IsRestOf wanted.now result.1.now }
{
    let shared = shared_front(directory, wanted);
    let mut left = &directory[shared..];
    let mut missing = &wanted[shared..];
    while !left.is_empty() && !missing.is_empty() {
        let (name, left_after) = split::at_first(left, b'/');
        let (wanted_name, missing_after) = split::at_first(missing, b'/');
        if name != wanted_name {
            break;
        }
        left = left_after;
        missing = missing_after;
    }
    (left, missing)
}

/// The length of some whole names with which the paths of both directories begin.
fn shared_front(directory: &[u8], wanted: &[u8]) -> usize
    ensures { SharesNames directory.now wanted.now result }
{
    let common = &directory[..common_front(directory, wanted)];
    match common.rfind_byte(b'/') {
        Some(end) => end + 1,
        None => 0,
    }
}

/// The count of first bytes that two texts share, in whole eights.
fn common_front(left: &[u8], right: &[u8]) -> usize
    ensures { HasCommonFront left.now right.now result }
{
    let mut length = 0;
    while begin_alike(&left[length..], &right[length..]) {
        length += 8;
    }
    length
}

/// Whether the first eight bytes of two texts are the same.
fn begin_alike(left: &[u8], right: &[u8]) -> bool
    ensures { IsTrue result → HasCommonFront left.now right.now 8 }
{
    let Some(first) = left.first_chunk::<8>() else {
        return false;
    };
    let Some(second) = right.first_chunk::<8>() else {
        return false;
    };
    first == second
}
