//! One pathspec of git (gitglossary, "pathspec"): reads its text, writes it, and normalises its path.
#![tactic(auto)]

ghost use Rattle.std.specs.Prelude.{⊤, codes, [], ◌∷◌};
ghost use Rattle.pathspec_pattern.specs.Signatures.{signature_bits};

pub mod defaults;
mod error;
pub mod parse;
mod pattern;

use bitflags::{Flag, Flags};
pub use defaults::Defaults;
pub use error::Error;
pub use pattern::Pattern;

/// The flags that the magic of a pathspec asks for, one bit each. Further bits are kept and mean nothing.
#[derive(Clone, Copy, Debug, Default, PartialEq, Eq, PartialOrd, Ord, Hash)]
pub struct MagicSignature(u32);

impl MagicSignature {
    /// The path counts from the top of the repository: `:/path`, `:(top)path`.
    pub const TOP: MagicSignature = MagicSignature(1);
    /// ASCII case doesn't count: `:(icase)path`.
    pub const ICASE: MagicSignature = MagicSignature(2);
    /// Paths that match are taken out: `:!path`, `:^path`, `:(exclude)path`.
    pub const EXCLUDE: MagicSignature = MagicSignature(4);
    /// Only a directory matches, and what lies below it: `path/`.
    pub const MUST_BE_DIR: MagicSignature = MagicSignature(8);

    const ALL: &'static [Flag<MagicSignature>] = &[
        Flag {
            name: "TOP",
            value: MagicSignature::TOP,
        },
        Flag {
            name: "ICASE",
            value: MagicSignature::ICASE,
        },
        Flag {
            name: "EXCLUDE",
            value: MagicSignature::EXCLUDE,
        },
        Flag {
            name: "MUST_BE_DIR",
            value: MagicSignature::MUST_BE_DIR,
        },
    ];
}

impl Flags for MagicSignature {
    type Bits = u32;

    ghost exact = { ⊤ };

    ghost table = { (codes "TOP", 1) ∷ (codes "ICASE", 2) ∷ (codes "EXCLUDE", 4) ∷ (codes "MUST_BE_DIR", 8) ∷ [] };

    ghost set_of = { signature_bits };

    fn flags<'a>() -> &'a [Flag<MagicSignature>] {
        MagicSignature::ALL
    }

    fn bits(&self) -> u32 {
        self.0
    }

    fn from_bits_retain(bits: u32) -> MagicSignature {
        MagicSignature(bits)
    }
}

/// The way in which the path of a pathspec is compared with paths.
#[derive(Clone, Copy, Debug, Default, PartialEq, Eq, PartialOrd, Ord, Hash)]
pub enum SearchMode {
    /// A glob whose wildcards take `/` too.
    #[default]
    ShellGlob,
    /// A text that is compared byte for byte: `:(literal)path`.
    Literal,
    /// A glob whose wildcards don't take `/`, but for `**`: `:(glob)path`.
    PathAwareGlob,
}
