//! `pathspec list`.
ghost use Rattle.std.specs.Prelude.{None};

use crate::Failure;
use crate::advice::attribute_advice;
use crate::asked::{Asked, read_specs};
use crate::attributes::{Attributes, attributes_of};
use crate::lister::{Lister, Stop};
use crate::reaching::read_entered;
use crate::telling::{quoted, tell};
use crate::unmatched::Includes;
use gix_pathspec::Search;
use gix_pathspec::attributes::{LookUp, NoAttributes};
use pathspec_list::disk::{Disk, DiskFault, DiskOptions, Seen};
use pathspec_list::{ListError, Visitor, walk_selected};
use pathspec_options::{ListOptions, SpecOptions};
use std::alloc::{AllocError, Global};
use std::fs::Files;
use std::io::{BufWriter, Write};
use std::rt::Env;

/// Writes the paths below a directory that specs select to `writer`, as the walk comes to them, and lines for people to `told`. It
/// gives the exit status.
///
/// # Errors
/// The first fault, but for paths that can't be looked at.
pub(crate) fn run<R: Files + Env + AllocGlobal, W: Write, T: Write>(
    rt: &R,
    specs: &SpecOptions<'_>,
    options: &ListOptions<'_>,
    writer: &mut W,
    told: &mut T,
) -> Result<u8, Failure> {
    let top = top_of(rt.alloc(), options)?;
    let asked = read_specs(rt, specs)?;
    let walk = Walk {
        rt,
        asked: &asked,
        top: top.as_str(),
        options: *options,
    };
    walk.run(specs, writer, told)
}

/// A walk over the directories of a disk.
#[derive(Drop)]
struct Walk<'a, 's, 'o, R> {
    rt: &'a R,
    asked: &'a Asked<'s>,
    top: &'a str,
    options: ListOptions<'o>,
}

impl<'a, R: Files + Env + AllocGlobal> Walk<'a, '_, '_, R> {
    /// Writes the selected paths, and gives the exit status.
    ///
    /// # Errors
    /// The first fault, but for paths that can't be looked at.
    fn run<W: Write, T: Write>(
        &self,
        specs: &SpecOptions<'_>,
        writer: &mut W,
        told: &mut T,
    ) -> Result<u8, Failure> {
        let lacks_attributes = self.asked.lists_attributes && !specs.has_attributes();
        tell(told, attribute_advice(lacks_attributes));
        let mut attributes = self.attributes(specs, told)?;
        let includes = self.includes(specs)?;
        self.list(&mut attributes, includes, writer, told)
    }

    /// The attributes of the paths that the walk comes to.
    ///
    /// # Errors
    /// A file can't be read, or an option is at fault.
    fn attributes<'d, T: Write>(
        &self,
        specs: &SpecOptions<'d>,
        told: &mut T,
    ) -> Result<Attributes<'d>, Failure> {
        let mut attributes = attributes_of(self.rt, specs, told)?;
        if let Attributes::Directory(files) = &mut attributes {
            if self.asked.lists_attributes {
                let disk = (self.top, disk_options(&self.options));
                read_entered(self.rt, &self.asked.search, disk, files, told)?;
            }
        }
        Ok(attributes)
    }

    /// The includes that are asked about paths, if that is wanted.
    ///
    /// # Errors
    /// A file of attributes can't be read, or memory ran out.
    fn includes<'d>(
        &self,
        specs: &SpecOptions<'d>,
    ) -> Result<Option<Includes<'a, 'a, 'd, R>>, Failure> {
        if !self.options.error_unmatch {
            return Ok(None);
        }
        Ok(Some(Includes::new(self.rt, &self.asked.search, specs)?))
    }

    /// Lists what is selected, and gives the exit status.
    ///
    /// # Errors
    /// The first fault, but for paths that can't be looked at.
    fn list<W: Write, T: Write>(
        &self,
        attributes: &mut Attributes<'_>,
        includes: Option<Includes<'_, '_, '_, R>>,
        writer: &mut W,
        told: &mut T,
    ) -> Result<u8, Failure> {
        let alloc = self.rt.alloc();
        let mut writer = BufWriter::new(alloc, writer).map_err(|_| Failure::Memory)?;
        let seen = Seen::new();
        let may_be_spec = self.asked.texts.is_empty() && !self.options.directory.is_empty();
        let place = (self.top, &seen, may_be_spec);
        let mut lister = Lister::new(alloc, &mut writer, told, place, self.options, includes);
        match self.walk(&self.asked.search, attributes, &seen, &mut lister) {
            Ok(()) | Err(Stop::Found) => self.end(&mut lister),
            Err(Stop::Failed(failure)) => Err(failure),
        }
    }

    /// Ends a lister once all selected paths were given, and gives the exit status.
    ///
    /// # Errors
    /// Memory ran out, or a write failed.
    fn end<W: Write, T: Write>(
        &self,
        lister: &mut Lister<'_, '_, '_, '_, '_, '_, '_, R, W, T>,
    ) -> Result<u8, Failure> {
        if let Some(includes) = lister.includes.take() {
            lister.includes = Some(self.ask_excluded(includes)?);
        }
        lister.end(self.asked)
    }

    /// Asks the includes that matched no selected path about excluded ones, in a walk for these includes alone, since the walk for
    /// selected paths doesn't enter what excludes take whole. It tells nothing: what it can't look at was told, or lies in there.
    ///
    /// # Errors
    /// Memory ran out, or an attribute file can't be read.
    fn ask_excluded<'r, 's, 'd>(
        &self,
        includes: Includes<'r, 's, 'd, R>,
    ) -> Result<Includes<'r, 's, 'd, R>, Failure> {
        let Some(search) = includes.left_search()? else {
            return Ok(includes);
        };
        let seen = Seen::new();
        let mut asking = Asking {
            includes,
            seen: &seen,
            dirs: self.options.dirs,
        };
        match self.walk(&search, &mut NoAttributes, &seen, &mut asking) {
            Ok(()) | Err(Stop::Found) => Ok(asking.includes),
            Err(Stop::Failed(failure)) => Err(failure),
        }
    }

    /// Walks over the directories, and gives a visitor what a search selects.
    ///
    /// # Errors
    /// The visitor's reason to end the walk, or a fault.
    fn walk<L: LookUp, V: Visitor<DiskFault, Stop = Stop>>(
        &self,
        search: &Search,
        look_up: &mut L,
        seen: &Seen,
        visitor: &mut V,
    ) -> Result<(), Stop> {
        let alloc = self.rt.alloc();
        let mut disk = Disk::new(self.rt, self.top, disk_options(&self.options), seen)?;
        // With directories, since a lister has to see nested repositories.
        match walk_selected(alloc, &mut disk, search, true, look_up, visitor) {
            Ok(()) => Ok(()),
            Err(ListError::Stopped(stop)) => Err(stop),
            Err(ListError::NoDirectory) => Err(Stop::Failed(no_directory(alloc, self.top)?)),
            Err(ListError::LookUp(_) | ListError::Memory) => Err(Stop::Failed(Failure::Memory)),
        }
    }
}

/// Asks includes about each path that a walk gives, until all have matched.
#[derive(Drop)]
struct Asking<'a, 'r, 's, 'd, D> {
    includes: Includes<'r, 's, 'd, D>,
    seen: &'a Seen,
    dirs: bool,
}

impl<D: Files + AllocGlobal> Visitor<DiskFault> for Asking<'_, '_, '_, '_, D> {
    type Stop = Stop;

    ghost given = { λ _. None };

    ghost told = { λ _. None };

    ghost stops = { λ _. None };

    fn give(&mut self, path: &[u8], is_dir: bool) -> Result<(), Stop> {
        if is_dir && !self.dirs && !self.seen.is_nested() {
            return Ok(());
        }
        match self.includes.ask(path, is_dir) {
            Ok(()) if self.includes.is_done() => Err(Stop::Found),
            Ok(()) => Ok(()),
            Err(failure) => Err(Stop::Failed(failure)),
        }
    }

    fn tell(&mut self, _path: &[u8], _fault: DiskFault) -> Result<(), Stop> {
        Ok(())
    }
}

/// How a disk is opened.
fn disk_options(options: &ListOptions<'_>) -> DiskOptions {
    DiskOptions {
        nested: options.nested,
        unsorted: options.unsorted,
    }
}

/// The fault of a top that is something else.
fn no_directory(alloc: Global, top: &str) -> Result<Failure, AllocError> {
    let name = quoted(alloc, top.as_bytes())?;
    Ok(Failure::Told(format!(in alloc;
        "error: {name}: Not a directory\n  specs stand behind `--`\n"
    )?))
}

/// The directory that is walked over: `DIR`, taken from the path of `-C` unless it is absolute.
fn top_of(alloc: Global, options: &ListOptions<'_>) -> Result<String, AllocError> {
    let directory = options.directory;
    if options.change.is_empty() || directory.starts_with('/') {
        let top = if directory.is_empty() { "." } else { directory };
        return String::from_str(alloc, top);
    }
    if directory.is_empty() {
        return String::from_str(alloc, options.change);
    }
    format!(in alloc; "{}/{directory}", options.change)
}
