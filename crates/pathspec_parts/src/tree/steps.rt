//! Steps through numbered entries, as every cursor takes them.
ghost use Rattle.std.specs.Prelude.{◌≡◌, ◌<◌, ◌≤◌, ◌+◌, ◌↔◌, ℕ, List, false, Some, length, slice_get, IfOk, IfSome, IsTrue, Contains, vec_capacity};
ghost use Rattle.std.specs.List.Sorted.{IsStrictlyIncreasing};
ghost use Rattle.pathspec_parts.specs.Bytes.{is_one_of};
ghost use Rattle.pathspec_parts.specs.Entries.{Entry};
ghost use Rattle.pathspec_parts.specs.Trees.{IsNested, HasBytePaths};
ghost use Rattle.pathspec_parts.specs.Cursors.{IsEndOf, IsPathOf, IsNearPath, IsNew, new_cursor, directory_count, next_seen, next_number, cursor_at, path_at, is_dir_at, after_enter, append_once};

use super::Walk;
use bstr::BStr;
use std::alloc::{AllocError, Global};
use std::marker::Model;

/// Entries by number, in the order of a tree, each with its end: the number of the first later entry that doesn't lie in it.
/// Whoever keeps entries so gets the [`Steps`] of a walk over them.
pub trait Entries {
    /// The entries.
    ghost list: { Self → List Entry };

    /// The count of entries.
    fn len(&self) -> usize
        ensures { result ≡ length (list self.now) };

    /// The count of directories.
    fn directories(&self) -> usize
        ensures count { result ≡ directory_count (list self.now) }
        ensures nested { IsNested (list self.now) }
        ensures bytes { HasBytePaths (list self.now) };

    /// Whether an entry is a directory.
    fn is_dir(&self, number: usize) -> bool
        requires { number < length (list self.now) }
        ensures { (e : Entry) → slice_get (list self.now) number ≡ Some e → result ≡ e.is_dir };

    /// The end of an entry: the number of the first later entry that doesn't lie in it.
    fn end_of(&self, number: usize) -> usize
        requires { number < length (list self.now) }
        ensures { IsEndOf (list self.now) number result };
}

/// Entries whose paths can be lent, so that [`Steps`] over them are a [`Walk`].
pub trait EntryPaths: Entries {
    /// The path of an entry.
    fn path(&self, number: usize) -> &[u8]
        requires { number < length (Self.list self.now) }
        ensures { IsPathOf (Self.list self.now) number result.now };
}

/// A walk over numbered entries without their paths: where it stands, which entry comes next, and its trail.
#[derive(Drop)]
pub struct Steps<'a, E: Entries> {
    entries: &'a E,
    /// The number of the entry at which the walk stands.
    at: Option<usize>,
    /// The number of the entry that comes next.
    next: usize,
    entered: Vec<usize>,
    is_new: bool,
}

impl<'a, E: Entries> Model for Steps<'a, E> {
    ghost use Rattle.std.specs.Prelude.{vec_capacity};
    ghost use Rattle.pathspec_parts.specs.Cursors.{CursorContents, IsCursor};

    ghost Value = { CursorContents };

    ghost view = { λ s. record {
      entries = E.list s.entries.now;
      at = s.at;
      entered = s.entered.items;
      is_new = s.is_new;
    } };

    ghost invariant = { λ s. IsCursor (E.list s.entries.now) s.at s.next s.entered.items s.is_new
        (vec_capacity s.entered) };
}

impl<'a, E: Entries> Steps<'a, E> {
    /// Makes steps before the first entry. They reserve a number for each directory, so no later call takes memory.
    ///
    /// # Errors
    /// Memory runs out.
    pub fn new(alloc: Global, entries: &'a E) -> Result<Steps<'a, E>, AllocError>
        ensures { IfOk result (λ steps. steps ≡ new_cursor (E.list entries.now)) }
    {
        let entered = Vec::with_capacity(alloc, entries.directories())?;
        Ok(Steps {
            entries,
            at: None,
            next: 0,
            entered,
            is_new: true,
        })
    }

    /// The entries of the walk, lent to a cursor alone: whoever holds a walk gets to them by the walk alone.
    pub(super) fn entries(&self) -> &'a E
        ensures { E.list result.now ≡ self.now.entries }
    {
        self.entries
    }

    /// The number of the entry at which the walk stands.
    pub fn at(&self) -> Option<usize>
        ensures at { result ≡ self.now.at }
        ensures within { IfSome result (λ n. n < length self.now.entries) }
    {
        self.at
    }

    /// Goes to the next entry whose directories were all entered, and gives its number; None at the end, where no entry
    /// stands. The call looks at no entry that it passes over.
    pub fn next(&mut self) -> Option<usize>
        ensures next { result ≡ next_seen self.old.entered (next_number self.old) self.old.entries }
        ensures place { self.new ≡ cursor_at self.old result }
        ensures within { IfSome result (λ n. n < length self.old.entries) }
        // The previous entry's path lies at or below each directory that the next entry lies in.
        ensures near { IfSome result (λ n. IsNearPath self.old.entries n (path_at self.old)) }
        ensures nested { IsNested self.old.entries }
        ensures bytes { HasBytePaths self.old.entries }
    {
        let number = self.next;
        let entries = self.entries;
        self.is_new = false;
        if number >= entries.len() {
            self.at = None;
            return None;
        }
        self.at = Some(number);
        self.next = entries.end_of(number);
        Some(number)
    }

    /// Whether the entry is a directory; false where no entry stands.
    pub fn is_dir(&self) -> bool
        ensures { result ≡ is_dir_at self.now }
    {
        match self.at {
            Some(number) => self.entries.is_dir(number),
            None => false,
        }
    }

    /// Enters the directory, so that the entries in it come next, and writes its number on the trail, once. The answer is
    /// whether there is a directory. Nothing changes at a file, and where no entry stands.
    pub fn enter(&mut self) -> bool
        ensures entered { self.new ≡ after_enter self.old }
        ensures is_dir { result ≡ is_dir_at self.old }
    {
        let Some(number) = self.at else {
            return false;
        };
        if !self.entries.is_dir(number) {
            return false;
        }
        push_once(&mut self.entered, number);
        self.next = number + 1;
        true
    }

    /// The trail: the numbers of the directories that were entered, rising.
    pub fn entered(&self) -> &[usize]
        ensures { result.now ≡ self.now.entered }
    {
        &self.entered
    }

    /// Whether [`Steps::next`] was never called.
    pub fn is_new(&self) -> bool
        ensures { IsTrue result ↔ IsNew self.now }
    {
        self.is_new
    }
}

impl<'a, E: EntryPaths> Walk for Steps<'a, E> {
    type Place = usize;

    ghost number = { λ es n. n };

    ghost contents = { λ it. it };

    fn next(&mut self) -> Option<usize> {
        Steps::next(self)
    }

    fn path(&self) -> BStr<'_> {
        match self.at {
            Some(number) => BStr::new(self.entries.path(number)),
            None => BStr::new(b""),
        }
    }

    fn is_dir(&self) -> bool {
        Steps::is_dir(self)
    }

    fn enter(&mut self) -> bool {
        Steps::enter(self)
    }

    fn entered(&self) -> &[usize] {
        Steps::entered(self)
    }

    fn is_new(&self) -> bool {
        Steps::is_new(self)
    }
}

/// Appends a number to rising ones, none of which is greater, if it isn't there. It takes no memory.
fn push_once(numbers: &mut Vec<usize>, number: usize)
    requires rising { IsStrictlyIncreasing numbers.old.items }
    requires below { (m : ℕ) → Contains numbers.old.items m → m < number + 1 }
    requires room { is_one_of numbers.old.items number ≡ false
        → length numbers.old.items < vec_capacity numbers.old }
    ensures items { numbers.new.items ≡ append_once numbers.old.items (Some number) }
    ensures room { vec_capacity numbers.old ≤ vec_capacity numbers.new }
{
    if has_last(numbers, number) {
        return;
    }
    let _ = numbers.push(number);
}

/// Whether a number is one of rising ones, none of which is greater: then it is the last.
fn has_last(numbers: &[usize], number: usize) -> bool
    requires rising { IsStrictlyIncreasing numbers.now }
    requires below { (m : ℕ) → Contains numbers.now m → m < number + 1 }
    ensures { result ≡ is_one_of numbers.now number }
{
    match numbers.last() {
        Some(last) => *last == number,
        None => false,
    }
}
