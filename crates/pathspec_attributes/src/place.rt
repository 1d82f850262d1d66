//! The places of attribute files.

/// The place of an attribute file.
#[derive(Clone, Copy, Debug, PartialEq, Eq)]
pub enum Place<'a> {
    /// The file for all repositories of a user, as `core.attributesFile` names it. Every other file counts over it.
    Global,
    /// The file `.gitattributes` of a directory, whose path is given from the top. It is empty for the top.
    Directory(&'a [u8]),
    /// The file `info/attributes` of a repository. It counts over every other file.
    Info,
}

/// Where a rule stands.
#[derive(Clone, Copy, Debug, PartialEq, Eq)]
pub struct RuleAt<'a> {
    /// The place of its file.
    pub place: Place<'a>,
    /// The number of its line, from 1.
    pub line: usize,
}
