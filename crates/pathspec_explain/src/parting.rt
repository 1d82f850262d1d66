//! Where a path parts from a text that it would have to begin with.
ghost use Rattle.std.specs.Prelude.{◌≡◌, ◌<◌, ◌+◌, ◌++◌, ◌∷◌, [], true, length, take, MatchOption, IsTrue};
ghost use Rattle.gix_pathspec.specs.Bytes.{begins_with, fold_case, slash};
ghost use Rattle.gix_pathspec.specs.Paths.{is_below};
ghost use Rattle.pathspec_explain.specs.Parting.{PartsAt, is_same};

use gix_pathspec::search::spec_matching::is_below;

/// The place where a path parts from a text: the count of bytes of the text that begin the path, up to ASCII case with
/// `ignore_case`. None where all of the text begins the path. The call looks at each byte of the text at most once.
pub(crate) fn parting(text: &[u8], path: &[u8], ignore_case: bool) -> Option<usize>
    ensures { MatchOption result
        (IsTrue (begins_with (fold_case ignore_case path.now) (fold_case ignore_case text.now)))
        (PartsAt (fold_case ignore_case text.now) (fold_case ignore_case path.now)) }
{
    for at in 0..text.len() {
        if !agrees_at(text, path, at, ignore_case) {
            return Some(at);
        }
    }
    None
}

/// Whether a path that begins with the bytes of a text before a place goes on with the byte there.
fn agrees_at(text: &[u8], path: &[u8], at: usize, ignore_case: bool) -> bool
    requires { at < length text.now }
    ensures { let text = fold_case ignore_case text.now in
        let path = fold_case ignore_case path.now in
        begins_with path (take at text) ≡ true
        → result ≡ begins_with path (take (at + 1) text) }
{
    at < path.len() && is_same(text[at], path[at], ignore_case)
}

/// Whether two bytes are equal, up to ASCII case with `ignore_case`.
fn is_same(own: u8, byte: u8, ignore_case: bool) -> bool
    ensures { result ≡ is_same ignore_case own byte }
{
    if ignore_case {
        own.eq_ignore_ascii_case(&byte)
    } else {
        own == byte
    }
}

/// The place where a path parts from a directory's path and a slash, up to ASCII case with `ignore_case`. None where it lies
/// below the directory.
pub(crate) fn parting_below(directory: &[u8], path: &[u8], ignore_case: bool) -> Option<usize>
    ensures { MatchOption result
        (IsTrue (is_below (fold_case ignore_case path.now) (fold_case ignore_case directory.now)))
        (PartsAt (fold_case ignore_case (directory.now ++ slash ∷ []))
        (fold_case ignore_case path.now)) }
{
    match parting(directory, path, ignore_case) {
        Some(at) => Some(at),
        None => parting_behind(directory, path, ignore_case),
    }
}

/// The place where a path that begins with a directory's path parts from that path and a slash. None where it lies below.
fn parting_behind(directory: &[u8], path: &[u8], ignore_case: bool) -> Option<usize>
    requires { begins_with (fold_case ignore_case path.now) (fold_case ignore_case directory.now)
        ≡ true }
    ensures { MatchOption result
        (IsTrue (is_below (fold_case ignore_case path.now) (fold_case ignore_case directory.now)))
        (PartsAt (fold_case ignore_case (directory.now ++ slash ∷ []))
        (fold_case ignore_case path.now)) }
{
    if is_below(path, directory, ignore_case) {
        None
    } else {
        Some(directory.len())
    }
}
