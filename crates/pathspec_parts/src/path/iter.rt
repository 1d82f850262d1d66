//! The iterator over the components of a path.
ghost use Rattle.std.specs.Prelude.{◌≡◌};
ghost use Rattle.std.specs.Iterator.{YieldsFirstBy, item_count};
ghost use Rattle.bstr.specs.BStr.{bstr_bytes};
ghost use Rattle.pathspec_parts.specs.Paths.{components, is_component};
ghost use Rattle.pathspec_parts.specs.Components.{remaining_components};

use crate::split;
use bstr::BStr;

/// An iterator over the components of a path, made by [`components`](crate::path::components).
#[derive(Clone, Copy, Debug)]
pub struct Components<'a> {
    rest: &'a [u8],
}

impl<'a> Components<'a> {
    /// Makes an iterator over the components of a path.
    pub(crate) fn new(path: BStr<'a>) -> Components<'a>
        ensures { remaining_components result ≡ components (bstr_bytes path.entry) }
    {
        Components {
            rest: path.as_bytes(),
        }
    }
}

impl<'a> Iterator for Components<'a> {
    type Item = BStr<'a>;

    ghost next_gives = { YieldsFirstBy bstr_bytes remaining_components };

    ghost remaining = { item_count remaining_components };

    fn next(&mut self) -> Option<BStr<'a>> {
        while !self.rest.is_empty() {
            let (piece, rest) = split::at_first(self.rest, b'/');
            self.rest = rest;
            if is_component(piece) {
                return Some(BStr::new(piece));
            }
        }
        None
    }
}

/// Whether a piece between slashes is a component.
fn is_component(piece: &[u8]) -> bool
    ensures { result ≡ is_component piece.now }
{
    !piece.is_empty() && piece != b".".as_slice()
}
