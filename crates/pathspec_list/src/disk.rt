//! The directories of a disk.
ghost use Rattle.std.specs.Prelude.{◌≡◌, ◌≢◌, [], ◌++◌, true, false, None, IfOk, OnOk, IfErr, IfSome, codes, string_bytes, if◌then◌else◌};
ghost use Rattle.std.specs.Ordering.{nat_cmp};
ghost use Rattle.std.specs.Cmp.Lexicographic.{slice_cmp};
ghost use Rattle.std.specs.List.Sorted.{IsSorted, IsPermutation};
ghost use Rattle.std.specs.Str.{is_utf8};
ghost use Rattle.pathspec_list.specs.Names.{AreAllOf, given_names, texts_of};
ghost use Rattle.pathspec_list.specs.declared.disk.fault.DiskFault.TheVariants.{NotUtf8, Memory};

mod fault;
mod names;
mod reading;
mod seen;

use crate::Directories;
pub use fault::DiskFault;
use names::{has_git, names_of};
use reading::{ROOM, read_opened};
pub use seen::{Counts, Seen};
use std::alloc::AllocError;
use std::fs::{self, Files};
use std::str;

/// How the directories of a disk are opened.
#[derive(Clone, Copy, Debug, Default, PartialEq, Eq)]
pub struct DiskOptions {
    /// Whether nested repositories are opened: directories below the top with a `.git` in them.
    pub nested: bool,
    /// Whether names come as the system gives them, and not in byte order.
    pub unsorted: bool,
}

/// The directories of a disk below a top, which may be a link itself. No link below it is followed.
#[derive(Drop)]
pub struct Disk<'a, R> {
    rt: &'a R,
    top: &'a str,
    options: DiskOptions,
    seen: &'a Seen,
    /// The room for one read of names.
    room: Box<[u8; ROOM]>,
    /// The names in the directory that was opened last, each with the byte 0 at its end. They are kept, as the room is, so that none
    /// of them costs memory anew.
    bytes: Vec<u8>,
    /// The name that the system has for the path that is looked at. It is kept, so that a path costs no memory of its own.
    name: String,
}

impl<'a, R: Files + AllocGlobal> Disk<'a, R> {
    /// The directories below a top. What they see is counted in `seen`.
    ///
    /// # Errors
    /// Memory ran out.
    pub fn new(
        rt: &'a R,
        top: &'a str,
        options: DiskOptions,
        seen: &'a Seen,
    ) -> Result<Disk<'a, R>, AllocError> {
        let room = Box::new(rt.alloc(), [0; ROOM])?;
        Ok(Disk {
            rt,
            top,
            options,
            seen,
            room,
            bytes: Vec::new(rt.alloc()),
            name: String::new(rt.alloc()),
        })
    }

    /// Turns to a path: takes the name that the system has for it.
    ///
    /// # Errors
    /// The path isn't UTF-8, or memory ran out.
    fn turn_to(&mut self, path: &[u8]) -> Result<(), DiskFault>
        // Nothing stands behind the path, so the system sees a link as a link. It would follow one before a slash.
        ensures name { OnOk result (path.now ≢ [] →
            string_bytes self.new.name ≡ self.old.top.now ++ codes "/" ++ path.now) }
        ensures utf8 { OnOk result (is_utf8 path.now ≡ true) }
        ensures reason { IfErr result (λ fault.
            fault ≡ (if is_utf8 path.now then Memory else NotUtf8)) }
    {
        let Ok(path) = str::from_utf8(path) else {
            return Err(DiskFault::NotUtf8);
        };
        // The dot behind it follows a top that is a link.
        let path = if path.is_empty() { "." } else { path };
        self.name.clear();
        self.name.push_str(self.top)?;
        self.name.push('/')?;
        self.name.push_str(path)?;
        Ok(())
    }

    /// Whether a `.git` lies in the directory. The disk turns to that.
    fn is_nested(&mut self) -> Result<bool, DiskFault> {
        self.name.push_str("/.git")?;
        Ok(fs::symlink_metadata(self.rt, self.name.as_str()).is_ok())
    }
}

impl<'a, R: Files + AllocGlobal> Directories for Disk<'a, R> {
    type Fault = DiskFault;

    ghost tree = { λ _. None };

    ghost opened = { λ _. None };

    ghost asked = { λ _. None };

    /// Opens a directory, reads the names in it and closes it. A nested repository that isn't to be opened has no names.
    fn open(&mut self, path: &[u8]) -> Result<Option<Vec<Vec<u8>>>, DiskFault>
        // The bytes are all those of a directory that was opened, and the names are those in them.
        ensures read { IfOk result (λ found. IfSome found (λ _.
            AreAllOf R.Dir.remaining self.new.bytes.items)) }
        ensures kept { IfOk result (λ found. IfSome found (λ names. IsPermutation
            (given_names path.now self.old.options.nested self.new.bytes.items)
            (texts_of names.items))) }
        ensures as_they_stand { IfOk result (λ found. IfSome found (λ names.
            self.old.options.unsorted ≡ true → texts_of names.items
            ≡ given_names path.now self.old.options.nested self.new.bytes.items)) }
        ensures sorted { IfOk result (λ found. IfSome found (λ names.
            self.old.options.unsorted ≡ false →
            IsSorted (λ x y. slice_cmp nat_cmp x.items y.items) names.items)) }
        ensures utf8 { IfErr result (λ fault. fault ≡ NotUtf8 → is_utf8 path.now ≡ false) }
    {
        let options = self.options;
        self.seen.ask();
        self.turn_to(path)?;
        let opened = self.rt.open_dir(self.name.as_str());
        if !read_opened(opened, &mut self.room, &mut self.bytes)?? {
            return Ok(None);
        }
        if !path.is_empty() && !options.nested && has_git(&self.bytes) {
            self.seen.open(0);
            self.seen.meet_nested();
            return Ok(Some(Vec::new(self.rt.alloc())));
        }
        let names = names_of(self.rt.alloc(), &self.bytes, options.unsorted)?;
        self.seen.open(names.len());
        Ok(Some(names))
    }

    fn is_dir(&mut self, path: &[u8]) -> Result<bool, DiskFault> {
        self.seen.ask();
        self.turn_to(path)?;
        let is_dir = fs::symlink_metadata(self.rt, self.name.as_str())?.is_dir();
        if is_dir && !self.options.nested && self.is_nested()? {
            self.seen.meet_nested();
        }
        Ok(is_dir)
    }
}
