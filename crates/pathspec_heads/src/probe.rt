//! Probes, with which a search compares sorted texts: a text, or a path and a slash.
ghost use Rattle.std.specs.Prelude.{◌≡◌, ◌+◌, ◌<◌, ◌≤◌, ℕ, List, length, take, slice_index};
ghost use Rattle.pathspec_heads.specs.Agreement.{agreement};
ghost use Rattle.pathspec_heads.specs.Stems.{with_slash};

use crate::agreement::{agreed_lanes, agreement};

/// The count of bytes that can be read from the start of each sorted text, also of a shorter one.
pub(crate) const ROOM: usize = 16;

/// A text that a search compares sorted texts with.
pub trait Probe {
    ghost text: { Self → List ℕ };

    /// The length of the probe, in bytes.
    fn len(&self) -> usize
        ensures { result ≡ length (text self.now) };

    /// The byte at a position.
    fn byte_at(&self, at: usize) -> u8
        requires { at < length (text self.now) }
        ensures { result ≡ slice_index (text self.now) at };

    /// The count of the first `len` bytes that agree with the probe.
    fn agreement(&self, bytes: &[u8], len: usize) -> usize
        requires within { len ≤ length bytes.now }
        requires room { ROOM ≤ length bytes.now }
        ensures { result ≡ agreement (take len bytes.now) (text self.now) };
}

/// A text as it stands.
#[derive(Clone, Copy)]
pub(crate) struct Text<'t>(pub(crate) &'t [u8]);

impl<'t> Probe for Text<'t> {
    ghost text = { λ t. t.0.now };

    #[inline(always)]
    fn len(&self) -> usize {
        self.0.len()
    }

    #[inline(always)]
    fn byte_at(&self, at: usize) -> u8 {
        self.0[at]
    }

    // It looks at a few bytes at once, as far as there is room, where the text is long enough.
    #[inline(always)]
    fn agreement(&self, bytes: &[u8], len: usize) -> usize {
        if len <= ROOM && self.0.len() >= ROOM {
            agreed_lanes::<ROOM>(bytes, self.0).min(len)
        } else {
            agreement(&bytes[..len], self.0)
        }
    }
}

/// A path and a slash, in lower case where case doesn't count.
#[derive(Clone, Copy)]
pub(crate) struct PathAndSlash<'p> {
    pub(crate) path: &'p [u8],
    pub(crate) ignore_case: bool,
}

impl<'p> Probe for PathAndSlash<'p> {
    ghost text = { λ p. with_slash p.ignore_case p.path.now };

    #[inline(always)]
    fn len(&self) -> usize {
        self.path.len() + 1
    }

    #[inline(always)]
    fn byte_at(&self, at: usize) -> u8 {
        if at == self.path.len() {
            b'/'
        } else if self.ignore_case {
            self.path[at].to_ascii_lowercase()
        } else {
            self.path[at]
        }
    }

    // Where case counts, the loop sees whether the text goes on with the slash, and no more.
    #[inline(always)]
    fn agreement(&self, bytes: &[u8], len: usize) -> usize {
        let from = if self.ignore_case {
            0
        } else {
            agreement(&bytes[..len], self.path)
        };
        let shorter = len.min(self.len());
        for at in from..shorter {
            if bytes[at] != self.byte_at(at) {
                return at;
            }
        }
        shorter
    }
}
