//! The count of all that a scratch's searches asked.
ghost use Rattle.pathspec_glob.specs.Counts.{Counts};

use crate::table::Table;
use std::marker::Model;

/// The steps and looks of all searches with a table, modulo 2^128. It comes with a table alone, so a question can't count elsewhere.
#[derive(Drop)]
pub struct Total {
    count: u128,
}

impl Model for Total {
    ghost use Rattle.std.specs.Prelude.{ℕ};

    ghost Value = { ℕ };

    ghost view = { λ t. t.count };
}

impl Total {
    ghost use Rattle.std.specs.Prelude.{◌≡◌};

    /// A total before the first search.
    pub(super) fn zero() -> Total
        ensures { result ≡ 0 }
    {
        Total { count: 0 }
    }

    /// The count.
    pub fn count(&self) -> u128
        ensures { result ≡ self.now }
    {
        self.count
    }

    /// Adds the steps of a table's text.
    pub(super) fn add_steps(&mut self, table: &Table)
        ensures { Counts self.old table.now.steps self.new }
    {
        self.count = self.count.wrapping_add(table.steps());
    }

    /// Adds a look.
    pub(super) fn add_look(&mut self)
        ensures { Counts self.old 1 self.new }
    {
        self.count = self.count.wrapping_add(1);
    }
}
