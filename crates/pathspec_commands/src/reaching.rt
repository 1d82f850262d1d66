//! The attribute files of the directories that a walk enters.
ghost use Rattle.std.specs.Prelude.{None};

use crate::Failure;
use crate::attribute_directory::AttributeDirectory;
use gix_pathspec::Search;
use gix_pathspec::attributes::NoAttributes;
use pathspec_list::disk::{Disk, DiskOptions, Seen};
use pathspec_list::{Directories, ListError, Visitor, walk_selected};
use std::fs::Files;
use std::io::Write;

/// The directories of a disk, each with its attribute file, which is read as it is opened.
struct Reaching<'d, 'f, 'a, 't, R, T> {
    rt: &'d R,
    disk: Disk<'d, R>,
    files: &'f mut AttributeDirectory<'a>,
    told: &'t mut T,
}

// Written out, so that whoever drops such directories needn't prove anew what becomes of the disk.
impl<R, T> Drop for Reaching<'_, '_, '_, '_, R, T> {
    fn drop(self) {
        let Reaching {
            rt: _rt,
            disk: _disk,
            files: _files,
            told: _told,
        } = self;
    }
}

impl<R: Files + AllocGlobal, T: Write> Reaching<'_, '_, '_, '_, R, T> {
    /// Reads the attribute file of a directory. That of the top was read before.
    fn enter(&mut self, path: &[u8]) -> Result<(), ReachFault> {
        if path.is_empty() {
            return Ok(());
        }
        match self.files.enter(self.rt, path, self.told) {
            Ok(()) => Ok(()),
            Err(failure) => Err(ReachFault::File(failure)),
        }
    }
}

/// Why a path can't be looked at.
#[derive(Debug, Drop)]
enum ReachFault {
    Disk,
    File(Failure),
}

impl<R: Files + AllocGlobal, T: Write> Directories for Reaching<'_, '_, '_, '_, R, T> {
    type Fault = ReachFault;

    ghost tree = { λ _. None };

    ghost opened = { λ _. None };

    ghost asked = { λ _. None };

    fn open(&mut self, path: &[u8]) -> Result<Option<Vec<Vec<u8>>>, ReachFault> {
        match self.disk.open(path) {
            Ok(Some(names)) => match self.enter(path) {
                Ok(()) => Ok(Some(names)),
                Err(fault) => Err(fault),
            },
            Ok(None) => Ok(None),
            Err(_) => Err(ReachFault::Disk),
        }
    }

    fn is_dir(&mut self, path: &[u8]) -> Result<bool, ReachFault> {
        match self.disk.is_dir(path) {
            Ok(is_dir) => Ok(is_dir),
            Err(_) => Err(ReachFault::Disk),
        }
    }
}

/// Takes nothing, and ends the walk where an attribute file can't be read.
#[derive(Drop)]
struct Passing;

impl Visitor<ReachFault> for Passing {
    type Stop = Failure;

    ghost given = { λ _. None };

    ghost told = { λ _. None };

    ghost stops = { λ _. None };

    fn give(&mut self, _path: &[u8], _is_dir: bool) -> Result<(), Failure> {
        Ok(())
    }

    fn tell(&mut self, _path: &[u8], fault: ReachFault) -> Result<(), Failure> {
        match fault {
            // The walk that lists comes there too, and tells of it.
            ReachFault::Disk => Ok(()),
            ReachFault::File(failure) => Err(failure),
        }
    }
}

/// Reads the attribute files of the directories below a top that a walk for a search enters.
///
/// Which ones these are doesn't depend on attributes, so a walk before the one that lists comes to the same. It has to be another
/// walk, since a look-up stays as it is during a walk.
///
/// # Errors
/// A file can't be read.
pub(crate) fn read_entered<'d, R: Files + AllocGlobal, T: Write>(
    rt: &'d R,
    search: &Search,
    (top, options): (&'d str, DiskOptions),
    files: &mut AttributeDirectory<'_>,
    told: &mut T,
) -> Result<(), Failure> {
    let seen = Seen::new();
    let mut directories = Reaching {
        rt,
        disk: Disk::new(rt, top, options, &seen)?,
        files,
        told,
    };
    let ended = walk_selected(
        rt.alloc(),
        &mut directories,
        search,
        false,
        &mut NoAttributes,
        &mut Passing,
    );
    match ended {
        // The walk that lists tells of a top that is no directory.
        Ok(()) | Err(ListError::NoDirectory | ListError::LookUp(_)) => Ok(()),
        Err(ListError::Stopped(failure)) => Err(failure),
        Err(ListError::Memory) => Err(Failure::Memory),
    }
}
