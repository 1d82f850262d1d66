//! The first record of bytes, and the names in it.
ghost use Rattle.std.specs.Prelude.{◌≡◌, ◌≢◌, ◌≤◌, [], ◌∷◌, ◌++◌, length, IfSome};
ghost use Rattle.pathspec_parts.specs.Paths.{ends_with_slash, without_last_slash};
ghost use Rattle.pathspec_parts.specs.Records.{is_bad, record_is_dir, holds_two_slashes, parent_names, own_names, directory_names};
ghost use Rattle.pathspec_parts.specs.RecordParts.{IsFreeOf, IsClosed, BeginsWithFile};

use bstr::ByteSlice;
use memchr::memchr2_iter;

/// Whether a record is bad: it is empty, begins with `/` or holds `//`.
pub fn is_bad(text: &[u8]) -> bool
    ensures { result ≡ is_bad text.now }
{
    text.is_empty() || text.starts_with(b"/") || holds_two_slashes(text)
}

/// Whether a slash stands right after a slash.
pub fn holds_two_slashes(path: &[u8]) -> bool
    ensures { result ≡ holds_two_slashes path.now }
{
    let mut after_slash = false;
    for byte in path {
        let is_slash = *byte == b'/';
        if is_slash && after_slash {
            return true;
        }
        after_slash = is_slash;
    }
    false
}

/// Cuts a record after the last slash that isn't at its end: `a/` and `b/` for `a/b/`. Gives the path of its directory, and
/// its own name, with a slash if it is a directory's. The call looks at each byte of the name.
pub fn split_name(text: &[u8]) -> (&[u8], &[u8])
    requires { text.now ≢ [] }
    ensures parents { directory_names result.0.now ≡ parent_names text.now }
    ensures name { own_names text.now ≡ without_last_slash result.1.now ∷ [] }
    ensures kind { ends_with_slash result.1.now ≡ record_is_dir text.now }
    ensures whole { text.now ≡ result.0.now ++ result.1.now }
    ensures some { result.1.now ≢ [] }
    ensures closed { IsClosed result.0.now }
{
    let before_last = &text[..text.len() - 1];
    let length = match before_last.rfind_byte(b'/') {
        Some(slash) => slash + 1,
        None => 0,
    };
    text.split_at(length)
}

/// The length of a text's first record, if it is a name right in the directory and has its separator. The call searches once.
#[inline(always)]
pub fn direct_file_len(directory: &[u8], rest: &[u8], separator: u8) -> Option<usize>
    requires { IsFreeOf separator directory.now }
    ensures { IfSome result (BeginsWithFile separator directory.now rest.now) }
{
    let behind = rest.strip_prefix(directory)?;
    let length = memchr2_iter(b'/', separator, behind).next()?;
    if length != 0 && behind[length] == separator {
        Some(directory.len() + length)
    } else {
        None
    }
}

/// The length of the whole names that the paths of two directories both begin with.
pub fn shared_names(left: &[u8], right: &[u8]) -> usize
    ensures { result ≤ length right.now }
{
    let mut length = 0;
    while length < left.len() && length < right.len() && left[length] == right[length] {
        length += 1;
    }
    match (&right[..length]).rfind_byte(b'/') {
        Some(slash) => slash + 1,
        None => 0,
    }
}
