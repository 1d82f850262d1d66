//! The error of a text that is no pathspec, or of a pathspec without a normal form.
ghost use Rattle.std.specs.Prelude.{◌≡◌, IfOk, IfErr};
ghost use Rattle.pathspec_pattern.specs.Errors.{kind_of, IsMemory};

use bstr::BStr;
use std::alloc::{AllocError, AllocFailed, Global};
use std::{error, fmt};

/// The reason why a text is no pathspec, a pathspec has no normal form, or the environment gives no defaults.
#[derive(Debug, Drop, PartialEq, Eq)]
pub enum Error {
    /// The text is empty.
    Empty,
    /// A byte of short magic that git keeps free for later: the byte.
    UnimplementedShort(u8),
    /// Long magic without its closing parenthesis: the whole text, from its `:` on.
    MissingParen(Vec<u8>),
    /// A piece of long magic that is no keyword: the whole piece, as it stands between the commas that cut.
    InvalidKeyword(Vec<u8>),
    /// `literal` after `glob`, or the other way round: the second of them.
    LiteralWithGlob(Vec<u8>),
    /// A second list of attributes: its whole piece, with its `attr:`.
    SecondAttributes(Vec<u8>),
    /// A prefix length that is no number, or no boundary of the path: its whole piece, with its `prefix:`.
    InvalidPrefix(Vec<u8>),
    /// `attr:` without a list: nothing follows its colon.
    EmptyAttributes,
    /// A name that no attribute has: the name without the mark `-` or `!` before it, and without `=` and a value.
    InvalidName(Vec<u8>),
    /// A byte that no value of an attribute holds: the byte, without a backslash before it.
    InvalidValueByte(u8),
    /// A value that ends with the backslash of an escape: the whole value as it is written, backslashes and all.
    TrailingEscape(Vec<u8>),
    /// An absolute path that doesn't lie in the root: the path as it was before the call.
    OutsideRoot(Vec<u8>),
    /// A path that climbs out of the repository: the path as it was before the call, without the prefix.
    LeavesRepository(Vec<u8>),
    /// A word that is no word of truth: the word.
    NotTruth(Vec<u8>),
    /// Glob and no-glob are both asked for.
    GlobAndNoGlob,
    /// Memory ran out.
    Memory,
}

impl error::Error for Error {}

impl fmt::Display for Error {
    fn fmt<W: fmt::Write>(&self, f: &mut fmt::Formatter<W>) -> fmt::Result {
        write!(f, "{}{}", self.message(), self.detail())
    }
}

/// The value that an error carries.
#[derive(Drop)]
enum Detail<'a> {
    Nothing,
    Byte(u8),
    Bytes(&'a [u8]),
}

impl fmt::Display for Detail<'_> {
    fn fmt<W: fmt::Write>(&self, f: &mut fmt::Formatter<W>) -> fmt::Result {
        match self {
            Detail::Nothing => Ok(()),
            Detail::Byte(byte) => write!(f, "{:?}", char::from(*byte)),
            Detail::Bytes(bytes) => write!(f, "{}", BStr::new(bytes)),
        }
    }
}

impl Error {
    /// The variant's name, as in `UnimplementedShort`.
    pub fn kind(&self) -> &'static str
        ensures { result.now ≡ kind_of self.now }
    {
        match self {
            Error::Empty => "Empty",
            Error::UnimplementedShort(_) => "UnimplementedShort",
            Error::MissingParen(_) => "MissingParen",
            Error::InvalidKeyword(_) => "InvalidKeyword",
            Error::LiteralWithGlob(_) => "LiteralWithGlob",
            Error::SecondAttributes(_) => "SecondAttributes",
            Error::InvalidPrefix(_) => "InvalidPrefix",
            Error::EmptyAttributes => "EmptyAttributes",
            Error::InvalidName(_) => "InvalidName",
            Error::InvalidValueByte(_) => "InvalidValueByte",
            Error::TrailingEscape(_) => "TrailingEscape",
            Error::OutsideRoot(_) => "OutsideRoot",
            Error::LeavesRepository(_) => "LeavesRepository",
            Error::NotTruth(_) => "NotTruth",
            Error::GlobAndNoGlob => "GlobAndNoGlob",
            Error::Memory => "Memory",
        }
    }

    /// The message, up to the value that the error carries.
    fn message(&self) -> &'static str {
        match self {
            Error::Empty => "an empty string is not a valid pathspec",
            Error::UnimplementedShort(_) => "unimplemented short keyword: ",
            Error::MissingParen(_) => "missing ')' at the end of pathspec magic in ",
            Error::InvalidKeyword(_) => "found an unknown keyword in long magic: ",
            Error::LiteralWithGlob(_) => "'literal' and 'glob' are incompatible: ",
            Error::SecondAttributes(_) => "only one attribute list is allowed: ",
            Error::InvalidPrefix(_) => "invalid prefix length: ",
            Error::EmptyAttributes => "attribute list is empty",
            Error::InvalidName(_) => "invalid attribute name: ",
            Error::InvalidValueByte(_) => "invalid byte in attribute value: ",
            Error::TrailingEscape(_) => "escape at the end of attribute value: ",
            Error::OutsideRoot(_) => "path is not inside of the repository: ",
            Error::LeavesRepository(_) => "path leaves the repository: ",
            Error::NotTruth(_) => "not a boolean: ",
            Error::GlobAndNoGlob => "glob and no-glob settings are incompatible",
            Error::Memory => "out of memory",
        }
    }

    /// The value that the error carries.
    fn detail(&self) -> Detail<'_> {
        match self {
            Error::UnimplementedShort(byte) | Error::InvalidValueByte(byte) => Detail::Byte(*byte),
            Error::MissingParen(bytes)
            | Error::InvalidKeyword(bytes)
            | Error::LiteralWithGlob(bytes)
            | Error::SecondAttributes(bytes)
            | Error::InvalidPrefix(bytes)
            | Error::InvalidName(bytes)
            | Error::TrailingEscape(bytes)
            | Error::OutsideRoot(bytes)
            | Error::LeavesRepository(bytes)
            | Error::NotTruth(bytes) => Detail::Bytes(bytes),
            _ => Detail::Nothing,
        }
    }
}

impl From<AllocError> for Error {
    ghost use Rattle.pathspec_pattern.specs.declared.error.Error.TheVariants.{Memory};

    ghost from_gives = { λ _ e. e ≡ Memory };

    fn from(_: AllocError) -> Error {
        Error::Memory
    }
}

impl<T: Drop> From<AllocFailed<T>> for Error {
    ghost use Rattle.pathspec_pattern.specs.declared.error.Error.TheVariants.{Memory};

    ghost from_gives = { λ _ e. e ≡ Memory };

    fn from(_: AllocFailed<T>) -> Error {
        Error::Memory
    }
}

/// Copies the bytes that an error is to carry.
///
/// # Errors
/// [`Error::Memory`], in place of that error.
pub(crate) fn to_vec(alloc: Global, bytes: &[u8]) -> Result<Vec<u8>, Error>
    ensures ok { IfOk result (λ copy. copy.items ≡ bytes.now) }
    ensures err { IfErr result IsMemory }
{
    Ok(Vec::from_slice(alloc, bytes)?)
}
