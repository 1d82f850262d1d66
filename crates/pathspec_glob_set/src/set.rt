//! Many globs at once: which of them match a text, in one pass over the text from its end.
ghost use Rattle.std.specs.Prelude.{◌≡◌, ◌+◌, ◌%◌, ◌<◌, ◌≤◌, ◌^◌, ◌↔◌, ◌++◌, ℕ, List, [], ◌∷◌, length, None, IfOk, IfSome, IsSome, IsTrue};
ghost use Rattle.pathspec_glob.specs.Bytes.{slash};
ghost use Rattle.pathspec_glob.specs.Counts.{Counts};
ghost use Rattle.pathspec_glob_set.specs.Moves.{AreAlike};
ghost use Rattle.pathspec_glob_set.specs.Tables.{is_unknown, text_with, AreFewSteps, Finds, IsInUse, IsKnown, IsTable};
ghost use Rattle.pathspec_glob_set.specs.Sizes.{most_losses, most_places, AreLooks};
ghost use Rattle.pathspec_glob_set.specs.Sets.{count_places};

use crate::member::Member;
use crate::table::building::{are_few, moves_of, rows_for};
use crate::table::moves::Moves;
use crate::table::total::Total;
use crate::table::{Lead, Table};
use std::alloc::{AllocError, Global};

/// How many more searches of a table that was cleared give up than not, before a scratch is spent.
const MOST_LOSSES: usize = 256;

/// Many globs, each by its number in the list that the set was made of.
#[derive(Drop)]
pub struct GlobSet {
    moves: Moves,
}

/// The room that searches of a set work in, with the count of their steps.
#[derive(Drop)]
pub struct SetScratch {
    table: Table,
    /// Where the last text led.
    lead: Lead,
    /// Whether the last search gave up, and so left out no glob.
    gave_up: bool,
    /// How many more searches gave up than not, once the table was cleared; one that didn't, where there are none, counts for
    /// nothing. A table that wasn't is still filled, so that later texts gain by it.
    losses: usize,
    /// The globs that the last question looked at.
    looks: usize,
    /// The steps and looks of all searches, modulo 2^128.
    total: Total,
    ghost right: { IsTable table },
    ghost few: { losses ≤ most_losses },
    ghost in_use: { IsInUse table lead },
    ghost told: { gave_up ≡ is_unknown lead },
}

impl GlobSet {
    ghost use Rattle.pathspec_glob_set.specs.Answers.{losses_after, CountsLooks, GivesUp, IsFresh, IsMatch, IsNumber, IsSetOf, LeavesOutNone};

    /// Makes the set of some globs; none where they have more than 2^17 places, one for each token and one more for each glob.
    ///
    /// Each token is asked of each byte, and the memory is a bit for each place and class of bytes: at most 4 MiB.
    ///
    /// # Errors
    /// Memory runs out.
    pub fn new(alloc: Global, globs: &[Member]) -> Result<Option<GlobSet>, AllocError>
        ensures set { IfOk result (λ made. IfSome made (IsSetOf globs.now)) }
        ensures few { IfOk result (λ made. IsSome made → count_places globs.now ≤ most_places) }
        ensures none { IfOk result (λ made. made ≡ None → most_places < count_places globs.now) }
    {
        if !are_few(globs) {
            return Ok(None);
        }
        let moves = moves_of(alloc, globs)?;
        Ok(Some(GlobSet { moves }))
    }

    /// The count of globs.
    pub fn len(&self) -> usize
        ensures { result ≡ length self.now.moves.ends.items }
    {
        self.moves.globs()
    }

    /// Makes room to search the set in, of 1,024 rows, or 4,096 where it has 64 globs or more, but 60 for each star behind the front
    /// of a glob, up to 32,768. They are fewer where they would take more than `room` bytes, but two at least. 64 KiB a glob, up to
    /// 9 MiB, are enough for most.
    ///
    /// # Errors
    /// Memory runs out.
    pub fn new_scratch(&self, alloc: Global, room: usize) -> Result<SetScratch, AllocError>
        ensures alike { IfOk result (λ scratch. AreAlike scratch.table.moves self.now.moves) }
        ensures fresh { IfOk result IsFresh }
    {
        let moves = self.moves.copy(alloc)?;
        let rows = rows_for(&moves, room);
        let (table, total) = Table::new(alloc, moves, rows)?;
        Ok(SetScratch {
            table,
            lead: Lead::Row(0),
            gave_up: false,
            losses: 0,
            looks: 0,
            total,
        })
    }

    /// Whether a scratch is room for this set. One that the set made is; the call compares all moves.
    pub fn fits(&self, scratch: &SetScratch) -> bool
        ensures { IsTrue result → AreAlike scratch.now.table.moves self.now.moves }
    {
        scratch.table.is_of(&self.moves)
    }

    /// The first glob from a number on that matches a text, if no glob before it cuts and matches. A search that gives up leaves
    /// out none.
    ///
    /// The call is [`SetScratch::read`] and [`SetScratch::next_of`]. It takes no memory.
    pub fn next(&self, text: &[u8], from: usize, scratch: &mut SetScratch) -> Option<usize>
        requires fits { AreAlike scratch.old.table.moves self.now.moves }
        requires from { from ≤ length self.now.moves.ends.items }
        ensures no_other { LeavesOutNone self.now text.now from result }
        ensures matches { IfSome result (IsMatch self.now text.now from scratch.new.gave_up) }
        ensures number { IfSome result (IsNumber self.now from) }
        ensures gives_up { GivesUp scratch.old scratch.new }
        ensures losses { scratch.new.losses
            ≡ losses_after scratch.new.gave_up scratch.new.table.cleared scratch.old.losses }
        ensures steps { AreFewSteps (length self.now.moves.wide) (length text.now)
            scratch.new.table }
        ensures total { CountsLooks self.now from result scratch.new.table.steps
            scratch.old scratch.new }
        ensures room { scratch.new.table.moves ≡ scratch.old.table.moves }
    {
        scratch.read(text);
        scratch.next_of(from)
    }
}

impl SetScratch {
    ghost use Rattle.pathspec_glob_set.specs.Answers.{losses_after, set_in, CountsLooks, GivesUp, HasRead, IsFound, IsMatch, IsNumber, KeepsReading, LeavesOutNone};

    /// Whether the last search gave up: then what it found is only a glob that may match.
    pub fn gave_up(&self) -> bool
        ensures { result ≡ self.now.gave_up }
    {
        self.gave_up
    }

    /// Whether so many searches gave up that all that follow will, without a step.
    pub fn is_spent(&self) -> bool
        ensures { IsTrue result ↔ (self.now.losses ≡ most_losses) }
    {
        self.losses == MOST_LOSSES
    }

    /// The steps of the last text: one for each byte that was read, and all places and one more for each cell that was filled.
    pub fn last_steps(&self) -> u128
        ensures { result ≡ self.now.table.steps }
    {
        self.table.steps()
    }

    /// The globs that the last question looked at, in the row that the text led to.
    pub fn last_looks(&self) -> usize
        ensures { result ≡ self.now.looks }
    {
        self.looks
    }

    /// The steps and looks of all searches together, modulo 2^128.
    pub fn total_steps(&self) -> u128
        ensures { result ≡ self.now.total }
    {
        self.total.count()
    }

    /// Reads a text for questions by [`SetScratch::next_of`]: finds where it leads, unless the scratch is spent.
    ///
    /// The call counts a step for each byte that it reads, and all places of the globs and one more for each cell that it fills,
    /// which are at most eight. It takes no memory.
    pub fn read(&mut self, text: &[u8])
        ensures read { HasRead self.new text.now }
        ensures gives_up { GivesUp self.old self.new }
        ensures losses { self.new.losses
            ≡ losses_after self.new.gave_up self.new.table.cleared self.old.losses }
        ensures steps { AreFewSteps (length self.old.table.moves.wide) (length text.now)
            self.new.table }
        ensures total { Counts self.old.total self.new.table.steps self.new.total }
        ensures room { self.new.table.moves ≡ self.old.table.moves }
    {
        self.read_with(text, None);
    }

    /// Reads the path of a directory and a slash behind it, as [`SetScratch::read`] does a text.
    pub fn read_directory(&mut self, directory: &[u8])
        ensures read { HasRead self.new (directory.now ++ slash ∷ []) }
        ensures gives_up { GivesUp self.old self.new }
        ensures losses { self.new.losses
            ≡ losses_after self.new.gave_up self.new.table.cleared self.old.losses }
        ensures steps { AreFewSteps (length self.old.table.moves.wide)
            (length (directory.now ++ slash ∷ [])) self.new.table }
        ensures total { Counts self.old.total self.new.table.steps self.new.total }
        ensures room { self.new.table.moves ≡ self.old.table.moves }
    {
        self.read_with(directory, Some(b'/'));
    }

    /// Reads a text, with one byte behind it if there is one.
    fn read_with(&mut self, text: &[u8], behind: Option<u8>)
        ensures read { HasRead self.new (text_with text.now behind) }
        ensures gives_up { GivesUp self.old self.new }
        ensures losses { self.new.losses
            ≡ losses_after self.new.gave_up self.new.table.cleared self.old.losses }
        ensures steps { AreFewSteps (length self.old.table.moves.wide)
            (length (text_with text.now behind)) self.new.table }
        ensures total { Counts self.old.total self.new.table.steps self.new.total }
        ensures room { self.new.table.moves ≡ self.old.table.moves }
    {
        if self.losses == MOST_LOSSES {
            self.table.begin();
            self.gave_up = true;
            self.lead = Lead::Unknown;
            return;
        }
        let lead = self.table.read(text, behind, &mut self.total);
        self.gave_up = is_unknown(lead);
        self.lead = lead;
        if !self.gave_up {
            self.losses = self.losses.saturating_sub(1);
        } else if self.table.was_cleared() {
            self.losses += 1;
        }
    }

    /// The first glob from a number on that matches the text that was read last, if no glob before it cuts and matches, as
    /// [`GlobSet::next`] says. The call reads no byte.
    ///
    /// It counts a look at each glob from the number on, up to the one that it finds, and none where that is the first of all.
    pub fn next_of(&mut self, from: usize) -> Option<usize>
        requires { from ≤ length self.old.table.moves.ends.items }
        ensures no_other { (text : List ℕ) → HasRead self.old text
            → LeavesOutNone (set_in self.old) text from result }
        ensures matches { (text : List ℕ) → HasRead self.old text
            → IfSome result (IsMatch (set_in self.old) text from self.old.gave_up) }
        ensures number { IfSome result (IsNumber (set_in self.old) from) }
        ensures total { CountsLooks (set_in self.old) from result 0 self.old self.new }
        ensures kept { KeepsReading self.old self.new }
    {
        let found = self.first_from(from);
        if found < self.len() {
            Some(found)
        } else {
            None
        }
    }

    /// The count of globs of the set that the scratch is for.
    pub fn len(&self) -> usize
        ensures { result ≡ length self.now.table.moves.ends.items }
    {
        self.table.globs()
    }

    /// The first glob from a number on that matches the text that was read last, or the count of globs.
    fn first_from(&mut self, from: usize) -> usize
        requires from { from ≤ length self.old.table.moves.ends.items }
        ensures found { (text : List ℕ) → HasRead self.old text
            → IsFound (set_in self.old) text from self.old.lead result }
        ensures behind { from ≤ result }
        ensures looks { AreLooks (length self.old.table.moves.ends.items)
            from result self.new.looks }
        ensures total { Counts self.old.total self.new.looks self.new.total }
        ensures kept { KeepsReading self.old self.new }
    {
        self.looks = 0;
        match self.lead {
            Lead::Row(row) => self
                .table
                .first_of(row, from, &mut self.looks, &mut self.total),
            Lead::Nowhere => self.len(),
            Lead::Unknown => from,
        }
    }
}

/// Whether it isn't known where a text leads.
fn is_unknown(lead: Lead) -> bool
    ensures { result ≡ is_unknown lead }
{
    matches!(lead, Lead::Unknown)
}
