//! Paths as byte strings, and their components, the parts between slashes (gitglossary, "pathspec"; `Path::components` of
//! Rust's standard library).
ghost use Rattle.std.specs.Prelude.{◌≡◌};
ghost use Rattle.std.specs.Option.{option_map};
ghost use Rattle.std.specs.List.{list_all};
ghost use Rattle.bstr.specs.BStr.{bstr_bytes};
ghost use Rattle.pathspec_parts.specs.Paths.{components, pieces, is_name, is_absolute, is_clean_prefix, strip_root, strip_names, without_last_slash, ends_with_slash};
ghost use Rattle.pathspec_parts.specs.Components.{remaining_components};

mod iter;
mod stack;

use bstr::BStr;
pub use iter::Components;
pub use stack::Stack;

/// Whether a path is absolute: it begins with `/`.
pub fn is_absolute(path: BStr<'_>) -> bool
    ensures { result ≡ is_absolute (bstr_bytes path.entry) }
{
    path.as_bytes().starts_with(b"/")
}

/// The components of a path in order: its pieces between slashes, without empty ones and `.`. `a//./../b` has `a`, `..` and
/// `b`.
///
/// Each item is a part of the path. All items together take one look at each byte of the path.
pub fn components(path: BStr<'_>) -> Components<'_>
    ensures { remaining_components result ≡ components (bstr_bytes path.entry) }
{
    Components::new(path)
}

/// Whether a prefix is clean: it is empty, or names joined by single slashes, none of them `.` or `..`. Looks at each byte
/// once.
pub fn is_clean_prefix(prefix: BStr<'_>) -> bool
    ensures { result ≡ is_clean_prefix (bstr_bytes prefix.entry) }
{
    let prefix = prefix.as_bytes();
    prefix.is_empty() || are_names(prefix)
}

/// Whether each piece between slashes is a name.
fn are_names(path: &[u8]) -> bool
    ensures { result ≡ list_all is_name (pieces path.now) }
{
    path.split(|byte| *byte == b'/').all(is_name)
}

/// Whether a piece between slashes is a name: it isn't empty, `.` or `..`.
fn is_name(piece: &[u8]) -> bool
    ensures { result ≡ is_name piece.now }
{
    !piece.is_empty() && piece != b".".as_slice() && piece != b"..".as_slice()
}

/// The components of an absolute path after those of an absolute root: `a` for `/r/a` in `/r`. None where one of the two isn't
/// absolute, or the path doesn't begin with the root's components. A `..` isn't resolved.
///
/// The call looks at each byte of the root, and of the path as far as they agree, once.
pub fn strip_root<'p>(path: BStr<'p>, root: BStr<'_>) -> Option<Components<'p>>
    ensures { option_map remaining_components result
        ≡ strip_root (bstr_bytes root.entry) (bstr_bytes path.entry) }
{
    if !is_absolute(root) || !is_absolute(path) {
        return None;
    }
    strip_names(components(path), components(root))
}

/// The components of a path after those of a front, if these begin it.
fn strip_names<'p>(path: Components<'p>, front: Components<'_>) -> Option<Components<'p>>
    ensures { option_map remaining_components result
        ≡ strip_names (remaining_components front.entry) (remaining_components path.entry) }
{
    let mut rest = path;
    for component in front {
        match rest.next() {
            Some(own) if own.as_bytes() == component.as_bytes() => {}
            _ => return None,
        }
    }
    Some(rest)
}

/// A path without its last slash, and whether it has one.
pub fn strip_last_slash(path: &[u8]) -> (&[u8], bool)
    ensures path { result.0.now ≡ without_last_slash path.now }
    ensures slash { result.1 ≡ ends_with_slash path.now }
{
    match path {
        [front @ .., b'/'] => (front, true),
        _ => (path, false),
    }
}
