//! What `pathspec list` does with what its walk gives and tells.
ghost use Rattle.std.specs.Prelude.{None};

use crate::Failure;
use crate::advice::spec_advice;
use crate::asked::Asked;
use crate::telling::{noun, quoted, tell};
use crate::unmatched::Includes;
use pathspec_list::Visitor;
use pathspec_list::disk::{DiskFault, Seen};
use pathspec_options::ListOptions;
use std::alloc::{AllocError, AllocFailed, Global};
use std::fs::Files;
use std::io::{ErrorKind, Write};

/// The exit status of a walk that did all that it should.
const DONE: u8 = 0;

/// The exit status where nothing was selected, with `--quiet`, or an include matched nothing, with `--error-unmatch`.
const NONE_SELECTED: u8 = 1;

/// The exit status of a walk that couldn't look at some path.
const NOT_ALL: u8 = 2;

/// Why a lister ends its walk.
#[derive(Debug, Drop)]
pub(crate) enum Stop {
    /// A path was selected, and no more is wanted.
    Found,
    /// A fault.
    Failed(Failure),
}

impl From<AllocError> for Stop {
    fn from(_: AllocError) -> Stop {
        Stop::Failed(Failure::Memory)
    }
}

impl<T: Drop> From<AllocFailed<T>> for Stop {
    fn from(_: AllocFailed<T>) -> Stop {
        Stop::Failed(Failure::Memory)
    }
}

/// Writes what a walk lists, and tells people of the paths that it can't look at.
pub(crate) struct Lister<'w, 't, 's, 'o, 'r, 'i, 'd, D, W, T> {
    alloc: Global,
    writer: &'w mut W,
    told: &'t mut T,
    top: &'s str,
    seen: &'s Seen,
    options: ListOptions<'o>,
    /// The includes that are asked about each selected path, if that is wanted.
    pub(crate) includes: Option<Includes<'r, 'i, 'd, D>>,
    /// Whether the top was given as a word beside no specs, so that it may be meant as one.
    may_be_spec: bool,
    selected: u64,
    /// How many paths couldn't be looked at.
    faults: u64,
}

// Written out, so that whoever drops a lister needn't prove anew what becomes of its includes.
impl<D, W, T> Drop for Lister<'_, '_, '_, '_, '_, '_, '_, D, W, T> {
    fn drop(self) {
        let Lister {
            alloc: _alloc,
            writer: _writer,
            told: _told,
            top: _top,
            seen: _seen,
            options: _options,
            includes: _includes,
            may_be_spec: _may_be_spec,
            selected: _selected,
            faults: _faults,
        } = self;
    }
}

impl<'w, 't, 's, 'o, 'r, 'i, 'd, D: Files + AllocGlobal, W: Write, T: Write> Lister<
    'w,
    't,
    's,
    'o,
    'r,
    'i,
    'd,
    D,
    W,
    T,
> {
    /// A lister that was given nothing, of a walk below a top.
    pub(crate) fn new(
        alloc: Global,
        writer: &'w mut W,
        told: &'t mut T,
        (top, seen, may_be_spec): (&'s str, &'s Seen, bool),
        options: ListOptions<'o>,
        includes: Option<Includes<'r, 'i, 'd, D>>,
    ) -> Lister<'w, 't, 's, 'o, 'r, 'i, 'd, D, W, T> {
        Lister {
            alloc,
            writer,
            told,
            top,
            seen,
            options,
            includes,
            may_be_spec,
            selected: 0,
            faults: 0,
        }
    }

    /// Ends a quiet walk that gave a path, once no include is left to be asked.
    fn end_if_found(&self) -> Result<(), Stop> {
        match &self.includes {
            Some(includes) if !includes.is_done() => Ok(()),
            _ => Err(Stop::Found),
        }
    }

    /// Writes a path, with a slash if it is a directory's.
    fn write(&mut self, path: &[u8], is_dir: bool) -> Result<(), Failure> {
        let separator = if self.options.null { b'\0' } else { b'\n' };
        let end = [b'/', separator];
        let end: &[u8] = if is_dir { &end } else { &end[1..] };
        if self.writer.write_all(path).is_err() || self.writer.write_all(end).is_err() {
            return Err(Failure::Output);
        }
        Ok(())
    }

    /// Writes and tells what is known at the end of the walk, and gives the exit status.
    ///
    /// # Errors
    /// Memory ran out, or a write failed.
    pub(crate) fn end(&mut self, asked: &Asked<'_>) -> Result<u8, Failure> {
        self.write_counts()?;
        let unmatched = match &self.includes {
            Some(includes) => includes.tell_unmatched(asked, "path", self.told)?,
            None => 0,
        };
        if self.selected == 0 && self.faults == 0 {
            tell(self.told, spec_advice(asked, self.options.directory, true));
        }
        if self.options.stats {
            self.tell_counts()?;
        }
        let is_lacking = unmatched > 0 || self.options.quiet && self.selected == 0;
        Ok(if self.faults > 0 && (is_lacking || !self.options.quiet) {
            NOT_ALL
        } else if is_lacking {
            NONE_SELECTED
        } else {
            DONE
        })
    }

    /// Writes how many paths were selected, if that is wanted. All is written then, so that it stands before what is told.
    fn write_counts(&mut self) -> Result<(), Failure> {
        if self.options.count && !self.options.quiet {
            let line = format!(in self.alloc; "{}\n", self.selected)?;
            if self.writer.write_all(line.as_bytes()).is_err() {
                return Err(Failure::Output);
            }
        }
        self.writer.flush().map_err(|_| Failure::Output)
    }

    /// Tells how much was opened, read and passed over.
    fn tell_counts(&mut self) -> Result<(), AllocError> {
        let counts = self.seen.counts();
        let directories = noun(counts.opened, "directory", "directories");
        let names = noun(counts.names, "name", "names");
        let line = format!(in self.alloc;
            "{} {directories} opened, {} {names}, {} passed over, {} selected\n",
            counts.opened, counts.names, counts.passed_over, self.selected
        )?;
        tell(self.told, line.as_str());
        Ok(())
    }
}

impl<D: Files + AllocGlobal, W: Write, T: Write> Visitor<DiskFault>
    for Lister<'_, '_, '_, '_, '_, '_, '_, D, W, T> {
    type Stop = Stop;

    ghost given = { λ _. None };

    ghost told = { λ _. None };

    ghost stops = { λ _. None };

    fn give(&mut self, path: &[u8], is_dir: bool) -> Result<(), Stop> {
        // The walk gives directories too, since a nested repository is listed as git lists it: as a directory, with a slash.
        if is_dir && !self.options.dirs && !self.seen.is_nested() {
            return Ok(());
        }
        self.selected = self.selected.saturating_add(1);
        if let Some(includes) = &mut self.includes {
            if let Err(failure) = includes.ask(path, is_dir) {
                return Err(Stop::Failed(failure));
            }
        }
        if self.options.quiet {
            return self.end_if_found();
        }
        if self.options.count {
            return Ok(());
        }
        match self.write(path, is_dir) {
            Ok(()) => Ok(()),
            Err(failure) => Err(Stop::Failed(failure)),
        }
    }

    fn tell(&mut self, path: &[u8], fault: DiskFault) -> Result<(), Stop> {
        let line = fault_line(self.alloc, self.top, path, &fault)?;
        tell(self.told, line.as_str());
        if self.may_be_spec && path.is_empty() && is_missing(&fault) {
            tell(self.told, "  specs stand behind `--`\n");
        }
        self.faults = self.faults.saturating_add(1);
        Ok(())
    }
}

/// Whether a path isn't there.
fn is_missing(fault: &DiskFault) -> bool {
    match fault {
        DiskFault::System(error) => error.kind() == ErrorKind::NotFound,
        DiskFault::NotUtf8 | DiskFault::Memory => false,
    }
}

/// The line that tells of a path below a top which can't be looked at.
///
/// # Errors
/// Memory ran out, now or at the path.
fn fault_line(
    alloc: Global,
    top: &str,
    path: &[u8],
    fault: &DiskFault,
) -> Result<String, AllocError> {
    let path = path_below(alloc, top, path)?;
    let name = quoted(alloc, &path)?;
    match fault {
        DiskFault::NotUtf8 => {
            format!(in alloc; "error: {name}: the path isn't UTF-8, so it can't be opened\n")
        }
        DiskFault::Memory => Err(AllocError),
        DiskFault::System(error) => format!(in alloc; "error: {name}: {error}\n"),
    }
}

/// A path as people name it: with the top before it, unless that is the current directory.
fn path_below(alloc: Global, top: &str, path: &[u8]) -> Result<Vec<u8>, AllocError> {
    let top = if top == "." && !path.is_empty() {
        ""
    } else {
        top
    };
    let has_end = top.is_empty() || top.ends_with('/') || path.is_empty();
    let slash = if has_end { "" } else { "/" };
    let mut name = Vec::new(alloc);
    for part in [top.as_bytes(), slash.as_bytes(), path] {
        name.extend_from_slice(part)?;
    }
    Ok(name)
}
