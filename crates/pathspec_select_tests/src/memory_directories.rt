//! Directories in memory, and a visitor that writes down what it gets.
ghost use Rattle.std.specs.Prelude.{◌≡◌, None, Some};
ghost use Rattle.pathspec_parts.specs.Attributes.{next_count};

use pathspec_list::{Directories, Visitor};
use std::alloc::{AllocError, AllocFailed, Global};

/// The directories of the tests.
pub const DIRECTORIES: &[(&str, &str)] = &[
    ("", "Makefile a docs x.c"),
    ("a", "b c x.c"),
    ("a/c", "d x.c"),
    ("docs", "README.md"),
];

/// Why a path can't be looked at.
#[derive(Debug, Drop)]
pub enum Fault {
    Refused,
    Memory,
}

impl From<AllocError> for Fault {
    fn from(_: AllocError) -> Fault {
        Fault::Memory
    }
}

impl<T: Drop> From<AllocFailed<T>> for Fault {
    fn from(_: AllocFailed<T>) -> Fault {
        Fault::Memory
    }
}

/// Directories by their paths, each with its names between spaces. Other paths are those of files.
#[derive(Drop)]
pub struct MemoryDirectories<'a> {
    alloc: Global,
    directories: &'a [(&'a str, &'a str)],
    /// A path at which nothing can be seen, if it isn't empty.
    refused: &'a str,
    /// Each path that was opened or asked, with a space at its end.
    asked: Vec<u8>,
}

impl<'a> MemoryDirectories<'a> {
    pub fn new(
        alloc: Global,
        directories: &'a [(&'a str, &'a str)],
        refused: &'a str,
    ) -> MemoryDirectories<'a> {
        MemoryDirectories {
            alloc,
            directories,
            refused,
            asked: Vec::new(alloc),
        }
    }

    /// Whether just these paths were opened or asked, each with a space at its end.
    pub fn were_asked(&self, paths: &str) -> bool {
        self.asked.as_slice() == paths.as_bytes()
    }

    /// The names in a directory, between spaces.
    fn names(&self, path: &[u8]) -> Option<&'a str> {
        for (directory, names) in self.directories {
            if directory.as_bytes() == path {
                return Some(names);
            }
        }
        None
    }

    /// Writes down that a path was asked.
    fn ask(&mut self, path: &[u8]) -> Result<(), Fault> {
        self.asked.extend_from_slice(path)?;
        self.asked.push(b' ')?;
        if !path.is_empty() && path == self.refused.as_bytes() {
            return Err(Fault::Refused);
        }
        Ok(())
    }
}

impl<'a> Directories for MemoryDirectories<'a> {
    type Fault = Fault;

    ghost tree = { λ _. None };

    ghost opened = { λ _. None };

    ghost asked = { λ _. None };

    fn open(&mut self, path: &[u8]) -> Result<Option<Vec<Vec<u8>>>, Fault> {
        self.ask(path)?;
        let Some(line) = self.names(path) else {
            return Ok(None);
        };
        let mut names = Vec::new(self.alloc);
        for name in line.split(' ') {
            if !name.is_empty() {
                names.push(Vec::from_slice(self.alloc, name.as_bytes())?)?;
            }
        }
        Ok(Some(names))
    }

    fn is_dir(&mut self, path: &[u8]) -> Result<bool, Fault> {
        self.ask(path)?;
        Ok(self.names(path).is_some())
    }
}

/// Writes down what it gets, each with a space at its end: a path as it is, a directory's with a slash, and behind `!` one that can't be
/// looked at. It ends the walk at a fault if that is wanted, and where memory runs out.
#[derive(Drop)]
pub struct Notes {
    pub text: Vec<u8>,
    /// How often it ended the walk.
    pub stops: u64,
    ends_at_faults: bool,
}

impl Notes {
    pub fn new(alloc: Global, ends_at_faults: bool) -> Notes {
        Notes {
            text: Vec::new(alloc),
            stops: 0,
            ends_at_faults,
        }
    }

    /// Whether the notes are this text.
    pub fn are(&self, text: &str) -> bool {
        self.text.as_slice() == text.as_bytes()
    }

    fn write(&mut self, before: &[u8], path: &[u8], after: &[u8]) -> Result<(), AllocError>
        ensures { self.new.stops ≡ self.old.stops }
    {
        self.text.extend_from_slice(before)?;
        self.text.extend_from_slice(path)?;
        self.text.extend_from_slice(after)
    }

    fn stop(&mut self, fault: Fault) -> Fault
        ensures { self.new.stops ≡ next_count self.old.stops }
    {
        self.stops = self.stops.saturating_add(1);
        fault
    }
}

impl Visitor<Fault> for Notes {
    type Stop = Fault;

    ghost given = { λ _. None };

    ghost told = { λ _. None };

    ghost stops = { λ notes. Some notes.stops };

    fn give(&mut self, path: &[u8], is_dir: bool) -> Result<(), Fault> {
        match self.write(b"", path, if is_dir { b"/ " } else { b" " }) {
            Ok(()) => Ok(()),
            Err(AllocError) => Err(self.stop(Fault::Memory)),
        }
    }

    fn tell(&mut self, path: &[u8], fault: Fault) -> Result<(), Fault> {
        if let Fault::Memory = fault {
            return Err(self.stop(Fault::Memory));
        }
        match self.write(b"!", path, b" ") {
            Ok(()) => {}
            Err(AllocError) => return Err(self.stop(Fault::Memory)),
        }
        if self.ends_at_faults {
            return Err(self.stop(Fault::Refused));
        }
        Ok(())
    }
}
