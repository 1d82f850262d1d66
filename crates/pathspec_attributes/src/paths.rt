//! What a rule's glob is compared with: the last name of a path, or the path from a directory.
ghost use Rattle.std.specs.Prelude.{◌≡◌, ◌-◌, not, length};
ghost use Rattle.std.specs.List.{suffix_len};
ghost use Rattle.pathspec_parts.specs.Paths.{is_slash};
ghost use Rattle.pathspec_attributes.specs.Rules.{compared, last_name, path_from, IsBaseOf};

use bstr::ByteSlice;
use pathspec_glob::Mode;

/// What a glob of this mode is compared with, for a path below the directory `base`.
pub(crate) fn compared<'a>(mode: Mode, base: &[u8], path: &'a [u8]) -> &'a [u8]
    requires { IsBaseOf base.now path.now }
    ensures { result.now ≡ compared mode base.now path.now }
{
    match mode {
        Mode::Shell => last_name(path),
        Mode::PathAware => path_from(base, path),
    }
}

/// The last name of a path.
fn last_name(path: &[u8]) -> &[u8]
    ensures { result.now ≡ last_name path.now }
{
    &path[name_start(path)..]
}

/// The place where the last name begins.
fn name_start(path: &[u8]) -> usize
    ensures { result ≡ length path.now - suffix_len (λ b. not (is_slash b)) path.now }
{
    match path.rfind_byte(b'/') {
        Some(at) => at + 1,
        None => 0,
    }
}

/// The path from a directory, in which it is.
fn path_from<'a>(base: &[u8], path: &'a [u8]) -> &'a [u8]
    requires { IsBaseOf base.now path.now }
    ensures { result.now ≡ path_from base.now path.now }
{
    if base.is_empty() {
        path
    } else {
        &path[base.len() + 1..]
    }
}
