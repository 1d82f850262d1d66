//! What a walk over a disk has seen.
use std::cell::Cell;

/// What a walk over a disk has seen so far. It counts in cells, so that a visitor can read it while the walk goes on.
#[derive(Drop)]
pub struct Seen {
    opened: Cell<u64>,
    names: Cell<u64>,
    asked: Cell<u64>,
    is_nested: Cell<bool>,
}

/// How much a walk over a disk has seen.
#[derive(Clone, Copy, Debug, PartialEq, Eq)]
pub struct Counts {
    /// The directories that were opened, the top among them.
    pub opened: u64,
    /// The names that stood in them.
    pub names: u64,
    /// The names of which nothing was asked.
    pub passed_over: u64,
}

impl Seen {
    /// Nothing was seen yet.
    pub fn new() -> Seen {
        Seen {
            opened: Cell::new(0),
            names: Cell::new(0),
            asked: Cell::new(0),
            is_nested: Cell::new(false),
        }
    }

    /// Whether a nested repository, which wasn't opened, stands at the last path that was looked at.
    pub fn is_nested(&self) -> bool {
        self.is_nested.get()
    }

    /// What was seen, by numbers.
    pub fn counts(&self) -> Counts {
        // The top is no name, and was asked.
        let asked = self.asked.get().saturating_sub(1);
        Counts {
            opened: self.opened.get(),
            names: self.names.get(),
            passed_over: self.names.get().saturating_sub(asked),
        }
    }

    /// A path is looked at.
    pub(crate) fn ask(&self) {
        self.asked.set(self.asked.get().saturating_add(1));
        self.is_nested.set(false);
    }

    /// A nested repository stands at the path.
    pub(crate) fn meet_nested(&self) {
        self.is_nested.set(true);
    }

    /// A directory with so many names was opened.
    pub(crate) fn open(&self, names: usize) {
        self.opened.set(self.opened.get().saturating_add(1));
        self.names
            .set(self.names.get().saturating_add(names as u64));
    }
}
