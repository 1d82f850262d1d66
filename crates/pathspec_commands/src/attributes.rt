//! The attributes of paths, from rows or from attribute files.
use crate::Failure;
use crate::attribute_directory::AttributeDirectory;
use crate::attribute_rows::attribute_rows;
use bstr::BStr;
use pathspec_options::SpecOptions;
use pathspec_parts::attributes::{Case, LookUp, Outcome, Rows};
use std::alloc::AllocError;
use std::fs::Files;
use std::io::Write;
use std::rt::Env;

/// The attributes of paths, as a look-up. It answers from the attribute files that were read before the question.
pub(crate) enum Attributes<'a> {
    /// Rows that the options give.
    Rows(Rows),
    /// The attribute files of a directory.
    Directory(AttributeDirectory<'a>),
}

// Written out, so that whoever drops attributes needn't prove anew what becomes of their parts.
impl Drop for Attributes<'_> {
    fn drop(self) {
        match self {
            Attributes::Rows(_rows) => {}
            Attributes::Directory(_directory) => {}
        }
    }
}

impl Attributes<'_> {
    /// Reads the attribute files of the directories above a path that weren't read yet.
    ///
    /// # Errors
    /// A file can't be read.
    pub(crate) fn reach<D: Files + AllocGlobal, T: Write>(
        &mut self,
        rt: &D,
        path: &[u8],
        told: &mut T,
    ) -> Result<(), Failure> {
        match self {
            Attributes::Rows(_) => Ok(()),
            Attributes::Directory(directory) => directory.reach(rt, path, told),
        }
    }
}

impl LookUp for Attributes<'_> {
    ghost use Rattle.pathspec_commands.specs.AttributeTables.{table_in, failures_in};

    type Fault = AllocError;

    ghost table = { λ attributes. table_in attributes };

    ghost failures = { λ attributes. failures_in attributes };

    fn look_up(
        &mut self,
        path: BStr<'_>,
        case: Case,
        is_dir: bool,
        out: &mut Outcome,
    ) -> Result<bool, AllocError> {
        match self {
            Attributes::Rows(rows) => rows.look_up(path, case, is_dir, out),
            Attributes::Directory(directory) => directory.files.look_up(path, case, is_dir, out),
        }
    }
}

/// Reads the attributes that options give. Lines for people go to `told`.
///
/// # Errors
/// A file can't be read, or an option is at fault.
pub(crate) fn attributes_of<'a, D: Files + Env + AllocGlobal, T: Write>(
    rt: &D,
    specs: &SpecOptions<'a>,
    told: &mut T,
) -> Result<Attributes<'a>, Failure> {
    let Some(directory) = specs.attribute_directory else {
        return Ok(Attributes::Rows(attribute_rows(rt, specs)?));
    };
    let mut directory = AttributeDirectory::open(rt, directory, told)?;
    if specs.global_attributes {
        directory.read_global(rt, told)?;
    }
    Ok(Attributes::Directory(directory))
}
