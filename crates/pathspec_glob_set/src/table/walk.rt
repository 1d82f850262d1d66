//! The walk of a table over a text, from its end.
ghost use Rattle.std.specs.Prelude.{◌+◌, ◌<◌, ◌++◌, ℕ, List, length};
ghost use Rattle.pathspec_glob.specs.Counts.{Counts};
ghost use Rattle.pathspec_glob_set.specs.Moves.{LeadsTo};
ghost use Rattle.pathspec_glob_set.specs.Tables.{row_of, text_with, AreFewSteps, ClearsWhenFull, Finds, IsTable, KeepsRoom};

use crate::table::total::Total;
use crate::table::{Lead, Table};

impl Table {
    /// Finds the row that a text leads to, with one byte behind it if there is one, and adds the steps to a total. The text is read
    /// from its end, and only as far as bytes may still tell globs apart.
    ///
    /// The call counts a step for each byte that it reads, and all places and one more for each cell that it fills. It takes no
    /// memory.
    pub fn read(&mut self, text: &[u8], behind: Option<u8>, total: &mut Total) -> Lead
        requires table { IsTable self.old }
        ensures table { IsTable self.new }
        ensures found { Finds self.new (text_with text.now behind) result }
        ensures steps { AreFewSteps (length self.old.moves.wide)
            (length (text_with text.now behind)) self.new }
        ensures total { Counts total.old self.new.steps total.new }
        ensures room { KeepsRoom self.old self.new }
        ensures cleared { ClearsWhenFull self.new.misses self.old self.new }
    {
        let lead = self.walk(text, behind);
        total.add_steps(self);
        lead
    }

    /// Finds the row that a text leads to, with one byte behind it if there is one.
    fn walk(&mut self, text: &[u8], behind: Option<u8>) -> Lead
        requires table { IsTable self.old }
        ensures table { IsTable self.new }
        ensures found { Finds self.new (text_with text.now behind) result }
        ensures steps { AreFewSteps (length self.old.moves.wide)
            (length (text_with text.now behind)) self.new }
        ensures room { KeepsRoom self.old self.new }
        ensures cleared { ClearsWhenFull self.new.misses self.old self.new }
    {
        self.begin();
        let Some(byte) = behind else {
            return self.walk_on(0, text);
        };
        match self.lead(0, byte) {
            Lead::Row(row) => self.walk_on(row, text),
            Lead::Nowhere => Lead::Nowhere,
            Lead::Unknown => Lead::Unknown,
        }
    }

    /// Goes on with a text from the row that the bytes behind it led to: those are one at most.
    fn walk_on(&mut self, from: usize, text: &[u8]) -> Lead
        requires table { IsTable self.old }
        requires row { from < self.old.used }
        requires steps { AreFewSteps (length self.old.moves.wide) 1 self.old }
        ensures table { IsTable self.new }
        ensures found { (behind : List ℕ) → LeadsTo self.old.moves behind (row_of self.old from)
            → Finds self.new (text.now ++ behind) result }
        ensures steps { (before : ℕ) → AreFewSteps (length self.old.moves.wide) before self.old
            → AreFewSteps (length self.old.moves.wide) (before + length text.now) self.new }
        ensures room { KeepsRoom self.old self.new }
        ensures cleared { (before : Table) → KeepsRoom before self.old
            → ClearsWhenFull self.old.misses before self.old
            → ClearsWhenFull self.new.misses before self.new }
    {
        let mut row = from;
        for back in 0..text.len() {
            match self.lead(row, text[text.len() - 1 - back]) {
                Lead::Row(next) => {
                    if next == row && self.is_sink(next) {
                        return Lead::Row(next);
                    }
                    row = next;
                }
                Lead::Nowhere => return Lead::Nowhere,
                Lead::Unknown => return Lead::Unknown,
            }
        }
        Lead::Row(row)
    }
}
