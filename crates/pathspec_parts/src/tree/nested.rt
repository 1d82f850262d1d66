//! Entries that lie in one another, by numbers: which directories are open, and where the entries in a directory end.
ghost use Rattle.std.specs.Prelude.{◌≡◌, ◌+◌, ◌-◌, ◌<◌, ◌++◌, ◌∷◌, [], true, length, slice_get, if◌then◌else◌, MatchOption, OnOk};
ghost use Rattle.pathspec_parts.specs.Cursors.{append_if};
ghost use Rattle.pathspec_parts.specs.Nesting.{IsEmptyNesting, KeepsNesting, open_end, end_from};

use std::alloc::{AllocError, Global};
use std::marker::Model;

/// The open directories among entries that are added in the order of a walk, and the count of all directories.
///
/// The owner of the entries numbers them from 0, and keeps an end for each: the number of the first later entry outside of it.
/// A new entry has [`first_end`]. A directory gets its end when [`NestedEntries::close`] gives its number.
#[derive(Drop)]
pub struct NestedEntries {
    /// The numbers of the open directories, the outermost first.
    stack: Vec<usize>,
    /// The count of directories.
    directories: usize,
}

impl Model for NestedEntries {
    ghost use Rattle.std.specs.Prelude.{vec_capacity};
    ghost use Rattle.pathspec_parts.specs.Nesting.{Nesting};

    ghost Value = { Nesting };

    ghost view = { λ n. record {
      stack = n.stack.items;
      directories = n.directories;
      room = vec_capacity n.stack;
    } };
}

impl NestedEntries {
    /// Makes a nesting without entries. It takes no memory.
    pub fn new(alloc: Global) -> NestedEntries
        ensures { IsEmptyNesting result }
    {
        NestedEntries {
            stack: Vec::new(alloc),
            directories: 0,
        }
    }

    /// The count of directories.
    pub fn directories(&self) -> usize
        ensures { result ≡ self.now.directories }
    {
        self.directories
    }

    /// The number of the directory that was opened last, if one is open.
    pub fn innermost(&self) -> Option<usize>
        ensures { result ≡ slice_get self.now.stack (length self.now.stack - 1) }
    {
        self.stack.last().copied()
    }

    /// Makes room for one more entry; a file needs none.
    ///
    /// # Errors
    /// Memory runs out.
    #[inline(always)]
    pub fn reserve(&mut self, is_dir: bool) -> Result<(), AllocError>
        ensures room { OnOk result (is_dir ≡ true → length self.new.stack < self.new.room) }
        ensures same { KeepsNesting self.old self.new }
    {
        if is_dir {
            self.stack.reserve(1)?;
        }
        Ok(())
    }

    /// Adds the entry with a number, for which there is room. A directory is open then.
    #[inline(always)]
    pub fn add(&mut self, number: usize, is_dir: bool)
        requires room { is_dir ≡ true → length self.old.stack < self.old.room }
        requires few { self.old.directories < open_end }
        ensures stack { self.new.stack ≡ append_if is_dir number self.old.stack }
        ensures directories { self.new.directories
            ≡ self.old.directories + (if is_dir then 1 else 0) }
    {
        if is_dir {
            let _ = self.stack.push(number);
            self.directories += 1;
        }
    }

    /// Closes the directory that was opened last, and gives its number; nothing changes where none is open.
    pub fn close(&mut self) -> Option<usize>
        ensures stack { MatchOption result ((self.old.stack ≡ []) × (self.new.stack ≡ []))
            (λ number. self.old.stack ≡ self.new.stack ++ number ∷ []) }
        ensures directories { self.new.directories ≡ self.old.directories }
    {
        self.stack.pop()
    }
}

/// The end of a new entry: `usize::MAX` for a directory, which is open, and 0 for a file.
#[inline(always)]
pub fn first_end(is_dir: bool) -> usize
    ensures { result ≡ (if is_dir then open_end else 0) }
{
    if is_dir { usize::MAX } else { 0 }
}

/// The number of the first entry after the one with a number that doesn't lie in it, by the end that is kept for it.
#[inline(always)]
pub fn end_from(number: usize, end: usize) -> usize
    requires { number < open_end }
    ensures { result ≡ end_from number end }
{
    if end == 0 { number + 1 } else { end }
}
