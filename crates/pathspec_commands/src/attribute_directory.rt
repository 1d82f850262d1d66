//! The attribute files of a directory, each read when a path comes to its directory.
use crate::Failure;
use crate::decided::{Decided, RulePlace, state_words};
use crate::environment::variable;
use crate::explaining::Path;
use crate::spec_texts::read_file;
use crate::telling::{quoted, read_fault, tell};
use bstr::BStr;
use pathspec_attributes::{AttributeFiles, LeftOut, Place, Reason, RuleAt};
use pathspec_filter::{Selection, path_in};
use pathspec_parts::attributes::{Assignment, Case, LookUp as _, Outcome, StateRef};
use pathspec_parts::path::{is_clean_prefix, strip_last_slash};
use pathspec_parts::records::is_bad;
use std::alloc::{AllocError, Global};
use std::collections::BTreeSet;
use std::fs::{self, Files};
use std::io::{ErrorKind, Write};
use std::rt::Env;
use std::{slice, str};

/// Attribute files below a directory.
pub(crate) struct AttributeDirectory<'a> {
    directory: &'a str,
    pub(crate) files: AttributeFiles,
    /// The path of the user's own file, where it was asked for.
    global: Option<String>,
    /// The directories whose files were looked for, by their paths from the top.
    known: BTreeSet<Vec<u8>>,
}

// Written out, so that whoever drops a directory needn't prove anew what becomes of its files.
impl Drop for AttributeDirectory<'_> {
    fn drop(self) {
        let AttributeDirectory {
            directory: _directory,
            files: _files,
            global: _global,
            known: _known,
        } = self;
    }
}

impl<'a> AttributeDirectory<'a> {
    /// Reads the file of the top and the one of the repository that lies there (gitattributes, "DESCRIPTION").
    ///
    /// # Errors
    /// No directory stands there, or a file can't be read.
    pub(crate) fn open<R: Files + AllocGlobal, T: Write>(
        rt: &R,
        directory: &'a str,
        told: &mut T,
    ) -> Result<AttributeDirectory<'a>, Failure> {
        check_directory(rt, directory)?;
        let mut opened = AttributeDirectory {
            directory,
            files: AttributeFiles::new(rt.alloc())?,
            global: None,
            known: BTreeSet::new(rt.alloc()),
        };
        opened.read(rt, Place::Directory(b""), told)?;
        opened.read(rt, Place::Info, told)?;
        Ok(opened)
    }

    /// Reads the user's own file, where git looks for it by default (gitattributes, "DESCRIPTION").
    ///
    /// # Errors
    /// The file can't be read, or a variable isn't UTF-8.
    pub(crate) fn read_global<R: Files + Env + AllocGlobal, T: Write>(
        &mut self,
        rt: &R,
        told: &mut T,
    ) -> Result<(), Failure> {
        self.global = global_path(rt)?;
        if self.global.is_none() {
            return Ok(());
        }
        self.read(rt, Place::Global, told)
    }

    /// Reads the file at a place, if it is there.
    ///
    /// # Errors
    /// The file can't be read.
    fn read<R: Files + AllocGlobal, T: Write>(
        &mut self,
        rt: &R,
        place: Place<'_>,
        told: &mut T,
    ) -> Result<(), Failure> {
        let file = self.file_name(rt.alloc(), place)?;
        add_file(rt, &mut self.files, place, file.as_str(), told)
    }

    /// What the files that were read say of an attribute that a spec lists.
    ///
    /// # Errors
    /// Memory runs out.
    pub(crate) fn decided(
        &mut self,
        alloc: Global,
        path: Path<'_>,
        listed: &Assignment,
    ) -> Result<Decided, AllocError> {
        let state = self.state_of(alloc, path, listed)?;
        let name = listed.name.as_bytes().as_bytes();
        let rule = self.rule_of(alloc, path, name)?;
        Ok(Decided {
            name: Vec::from_slice(alloc, name)?,
            state,
            rule,
        })
    }

    /// The state, in words, that a path has of an attribute which a spec lists.
    ///
    /// # Errors
    /// Memory runs out.
    fn state_of(
        &mut self,
        alloc: Global,
        path: Path<'_>,
        listed: &Assignment,
    ) -> Result<String, AllocError> {
        let mut found = Outcome::for_assignments(alloc, slice::from_ref(listed))?;
        self.files
            .look_up(path.path, Case::Sensitive, path.is_dir, &mut found)?;
        let state = if found.is_empty() {
            StateRef::Unspecified
        } else {
            found.state(0)
        };
        state_words(alloc, state)
    }

    /// The place of the rule that decides an attribute of a path. None where no rule speaks of it.
    ///
    /// # Errors
    /// Memory runs out.
    fn rule_of(
        &self,
        alloc: Global,
        path: Path<'_>,
        name: &[u8],
    ) -> Result<Option<RulePlace>, AllocError> {
        let Some(RuleAt { place, line }) = self.files.decider(path.path, path.is_dir, name)? else {
            return Ok(None);
        };
        let file = self.file_name(alloc, place)?;
        Ok(Some(RulePlace { file, line }))
    }

    /// The path of the file at a place, as it is read.
    fn file_name(&self, alloc: Global, place: Place<'_>) -> Result<String, AllocError> {
        let directory = self.directory;
        match (place, &self.global) {
            (Place::Global, Some(file)) => String::from_str(alloc, file.as_str()),
            (Place::Global, None) => String::from_str(alloc, "attributes"),
            (Place::Info, _) => format!(in alloc; "{directory}/.git/info/attributes"),
            (Place::Directory(b""), _) => format!(in alloc; "{directory}/.gitattributes"),
            (Place::Directory(path), _) => {
                let path = String::from_utf8_lossy(alloc, path)?;
                format!(in alloc; "{directory}/{path}/.gitattributes")
            }
        }
    }

    /// Reads the files of the directories above a path that weren't read yet.
    ///
    /// # Errors
    /// A file can't be read, or the path of its directory isn't UTF-8.
    pub(crate) fn reach<R: Files + AllocGlobal, T: Write>(
        &mut self,
        rt: &R,
        path: &[u8],
        told: &mut T,
    ) -> Result<(), Failure> {
        let end = memchr::memrchr(b'/', path).unwrap_or(0).min(path.len());
        let parent = &path[..end];
        // A path with `..` could lead out of the directory, and git has none.
        if self.known.contains(parent) || !is_clean_prefix(BStr::new(parent)) {
            return Ok(());
        }
        for (at, byte) in path.iter().enumerate() {
            if *byte == b'/' && !self.known.contains(&path[..at]) {
                self.enter(rt, &path[..at], told)?;
            }
        }
        Ok(())
    }

    /// Reads the files of the directories above the paths of whole records.
    ///
    /// # Errors
    /// As for [`AttributeDirectory::reach`].
    pub(crate) fn reach_all<R: Files + AllocGlobal, T: Write>(
        &mut self,
        rt: &R,
        records: &[u8],
        (separator, selection): (u8, Selection),
        told: &mut T,
    ) -> Result<(), Failure> {
        for record in records.split(|byte| *byte == separator) {
            let (path, _) = strip_last_slash(record);
            if !is_bad(record) {
                self.reach(rt, path_in(selection.leading_dot, path), told)?;
            }
        }
        Ok(())
    }

    /// Reads the file of a directory.
    ///
    /// # Errors
    /// As for [`AttributeDirectory::reach`].
    pub(crate) fn enter<R: Files + AllocGlobal, T: Write>(
        &mut self,
        rt: &R,
        path: &[u8],
        told: &mut T,
    ) -> Result<(), Failure> {
        if str::from_utf8(path).is_err() {
            return Err(not_utf8(rt.alloc(), path)?);
        }
        self.read(rt, Place::Directory(path), told)?;
        let known = Vec::from_slice(rt.alloc(), path)?;
        self.known.insert(known)?;
        Ok(())
    }
}

/// Checks that a directory stands at a path.
///
/// # Errors
/// What else stands there, or why that can't be told.
fn check_directory<R: Files + AllocGlobal>(rt: &R, directory: &str) -> Result<(), Failure> {
    let name = quoted(rt.alloc(), directory.as_bytes())?;
    match fs::metadata(rt, directory) {
        Ok(metadata) if metadata.is_dir() => Ok(()),
        Ok(_) => Err(no_directory(rt.alloc(), name.as_str())?),
        Err(error) => Err(read_fault(rt.alloc(), name.as_str(), &error)?),
    }
}

/// The fault of a file where a directory is wanted.
fn no_directory(alloc: Global, name: &str) -> Result<Failure, AllocError> {
    Ok(Failure::Told(format!(in alloc; "error: {name}: Not a directory\n")?))
}

/// The path of the user's own attribute file. An empty `XDG_CONFIG_HOME` counts as none. None where `HOME` isn't set, either.
fn global_path<R: Env + AllocGlobal>(rt: &R) -> Result<Option<String>, Failure> {
    if let Some(directory) = variable(rt, "XDG_CONFIG_HOME")? {
        if !directory.is_empty() {
            return path_below(rt.alloc(), directory.as_str(), "git/attributes");
        }
    }
    match variable(rt, "HOME")? {
        Some(home) => path_below(rt.alloc(), home.as_str(), ".config/git/attributes"),
        None => Ok(None),
    }
}

/// A path below a directory.
fn path_below(alloc: Global, directory: &str, path: &str) -> Result<Option<String>, Failure> {
    Ok(Some(format!(in alloc; "{directory}/{path}")?))
}

/// The fault of a directory that has no name in UTF-8, by which its file could be opened.
fn not_utf8(alloc: Global, path: &[u8]) -> Result<Failure, AllocError> {
    let name = quoted(alloc, path)?;
    Ok(Failure::Told(format!(in alloc;
        "error: {name}: the path isn't UTF-8, so its attribute file can't be read\n"
    )?))
}

/// Adds an attribute file, if it is there, and tells of the lines that git leaves out.
fn add_file<R: Files + AllocGlobal, T: Write>(
    rt: &R,
    files: &mut AttributeFiles,
    place: Place<'_>,
    file: &str,
    told: &mut T,
) -> Result<(), Failure> {
    if !is_there(rt, place, file)? {
        return Ok(());
    }
    let text = read_file(rt, file)?;
    let left_out = files.add(place, &text)?;
    tell_left_out(rt.alloc(), file, &left_out, told)?;
    Ok(())
}

/// Tells of the lines of a file that git leaves out.
fn tell_left_out<T: Write>(
    alloc: Global,
    file: &str,
    left_out: &[LeftOut],
    told: &mut T,
) -> Result<(), AllocError> {
    for LeftOut { line, reason } in left_out {
        let reason = reason_text(*reason);
        let warning = format!(in alloc; "warning: {file}:{line}: {reason}\n")?;
        tell(told, warning.as_str());
    }
    Ok(())
}

/// Whether a path is an ordinary file. As in git, a link to one counts but for the file of a directory.
fn is_there<R: Files + AllocGlobal>(rt: &R, place: Place<'_>, file: &str) -> Result<bool, Failure> {
    let metadata = match place {
        Place::Directory(_) => fs::symlink_metadata(rt, file),
        Place::Global | Place::Info => fs::metadata(rt, file),
    };
    match metadata {
        Ok(metadata) => Ok(metadata.is_file()),
        Err(error) => match error.kind() {
            ErrorKind::NotFound | ErrorKind::NotADirectory => Ok(false),
            _ => Err(read_fault(rt.alloc(), file, &error)?),
        },
    }
}

/// Why a line is left out.
fn reason_text(reason: Reason) -> &'static str {
    match reason {
        Reason::TooLong => "the line has 2,048 bytes or more",
        Reason::InvalidName => "this is no name of an attribute",
        Reason::MacroHere => "macros stand in the file of the top alone",
        Reason::Negative => "a pattern can't begin with `!`",
    }
}
