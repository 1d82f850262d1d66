//! Rows that texts led to, with a cell for each class of bytes: where it leads, once that was asked.
ghost use Rattle.std.specs.Prelude.{◌≡◌, ◌+◌, ◌*◌, ◌-◌, ◌<◌, ◌≤◌, ◌^◌, ℕ, false, length, get_or, set, replicate, IfOk, IfSome, IsTrue};
ghost use Rattle.pathspec_glob.specs.BitVecs.{holds};
ghost use Rattle.pathspec_glob.specs.Counts.{Counts};
ghost use Rattle.pathspec_glob_set.specs.Moves.{takes_of, AreAlike, IsSink, IsStep};
ghost use Rattle.pathspec_glob_set.specs.Sizes.{row_at, AreLooks, IsFirst};
ghost use Rattle.pathspec_glob_set.specs.Tables.{nowhere, unknown, AddsSpare, BeginsText, ClearsWhenFull, CountsSteps, IsKnown, IsNewTable, IsSameButSinks, IsSpare, IsTable, KeepsRoom, Leads};

pub mod building;
pub mod moves;
pub mod row;
pub mod total;
mod walk;

use crate::table::moves::Moves;
use crate::table::total::Total;
use pathspec_glob::BitVec;
use std::alloc::{AllocError, Global};

/// A cell that was not asked.
const UNKNOWN: u16 = u16::MAX;

/// A cell whose bytes lead to no place.
const NOWHERE: u16 = u16::MAX - 1;

/// How many cells are filled in one text, before its walk gives up.
const MOST_MISSES: usize = 8;

/// How many places of the index are looked at for a row.
const PROBES: usize = 8;

/// Where a byte leads from a row.
#[derive(Clone, Copy)]
pub enum Lead {
    /// To this row.
    Row(usize),
    /// To no place.
    Nowhere,
    /// It isn't known, and too many cells were filled in this text.
    Unknown,
}

/// Rows that texts led to, with a cell for each class of bytes. It says where a byte leads, and counts each such question. Whether a row
/// is a sink, and which glob it says first, it says without a step.
#[derive(Drop)]
pub struct Table {
    moves: Moves,
    rows: Vec<BitVec>,
    /// For each row the first glob that a text matches which leads there.
    firsts: Vec<usize>,
    cells: Vec<u16>,
    /// Whether a row is known for a sink: each byte leads from it to itself.
    sinks: Vec<bool>,
    /// The count of rows in use. The first is that of the empty text.
    used: usize,
    /// Rows by what their places hash to. A number that stands for no such row does no harm.
    index: Vec<u16>,
    /// Where a step is worked out.
    spare: BitVec,
    /// The cells that were filled in this text.
    misses: usize,
    /// Whether the table was full once, and so was cleared.
    cleared: bool,
    /// The steps of this text: one a question, and all places and one more where a cell was filled.
    steps: u128,
}

impl Table {
    /// Makes a table of `count` rows, of which one is in use, and a total of 0. Nothing else of it takes memory later.
    ///
    /// # Errors
    /// Memory runs out.
    pub fn new(alloc: Global, moves: Moves, count: usize) -> Result<(Table, Total), AllocError>
        requires many { 2 ≤ count }
        requires few { count ≤ nowhere }
        ensures table { IfOk result (λ made. IsTable made.0) }
        ensures new { IfOk result (λ made. IsNewTable count made.0) }
        ensures moves { IfOk result (λ made. made.0.moves ≡ moves) }
        ensures total { IfOk result (λ made. made.1 ≡ 0) }
    {
        let rows = copies_of(alloc, &moves.start, count)?;
        let spare = moves.start.copy(alloc)?;
        let first = first_from(&moves.ends, &moves.start, 0);
        let Some(size) = count.checked_mul(moves.width()) else {
            return Err(AllocError);
        };
        let firsts = vec![in alloc; first; count]?;
        let cells = vec![in alloc; UNKNOWN; size]?;
        let sinks = vec![in alloc; false; count]?;
        let index = vec![in alloc; UNKNOWN; 2 * count]?;
        let table = Table {
            moves,
            rows,
            firsts,
            cells,
            sinks,
            used: 1,
            index,
            spare,
            misses: 0,
            cleared: false,
            steps: 0,
        };
        Ok((table, Total::zero()))
    }

    /// The count of globs.
    pub fn globs(&self) -> usize
        ensures { result ≡ length self.now.moves.ends.items }
    {
        self.moves.globs()
    }

    /// Whether the table is one of these moves. One of a copy is, and another may be said not to be.
    pub fn is_of(&self, moves: &Moves) -> bool
        ensures { IsTrue result → AreAlike self.now.moves moves.now }
    {
        self.moves.is_same(moves)
    }

    /// The steps of this text.
    pub fn steps(&self) -> u128
        ensures { result ≡ self.now.steps }
    {
        self.steps
    }

    /// Whether the table was cleared once.
    pub fn was_cleared(&self) -> bool
        ensures { result ≡ self.now.cleared }
    {
        self.cleared
    }

    /// Begins a text: none of its steps are counted yet, and none of its cells filled.
    pub fn begin(&mut self)
        requires { IsTable self.old }
        ensures table { IsTable self.new }
        ensures begun { BeginsText self.new }
        ensures room { KeepsRoom self.old self.new }
        ensures cleared { ClearsWhenFull 0 self.old self.new }
    {
        self.steps = 0;
        self.misses = 0;
    }

    /// Asks where a byte leads from a row.
    #[inline(always)]
    fn lead(&mut self, row: usize, byte: u8) -> Lead
        requires table { IsTable self.old }
        requires row { row < self.old.used }
        requires steps { self.old.steps < 2 ^ 127 }
        ensures table { IsTable self.new }
        ensures leads { Leads (takes_of self.old.moves byte) (row_at self.old.rows.items row)
            self.new result }
        ensures counted { CountsSteps 1 self.old self.new }
        ensures room { KeepsRoom self.old self.new }
        ensures cleared { ClearsWhenFull (self.new.misses - self.old.misses) self.old self.new }
    {
        self.steps += 1;
        let class = self.moves.class(byte);
        let next = self.cells[self.place(row, class)];
        if next == UNKNOWN {
            self.miss(row, class)
        } else if next == NOWHERE {
            Lead::Nowhere
        } else {
            Lead::Row(next as usize)
        }
    }

    /// Whether each byte leads from a row to itself, as far as it is known.
    #[inline(always)]
    fn is_sink(&self, row: usize) -> bool
        requires table { IsTable self.now }
        requires row { row < self.now.used }
        ensures known { result ≡ get_or self.now.sinks.items row false }
        ensures sink { IsTrue result → IsSink self.now.moves (row_at self.now.rows.items row) }
    {
        self.sinks[row]
    }

    /// The place of the cell of a row and a class.
    #[inline(always)]
    fn place(&self, row: usize, class: usize) -> usize
        requires table { IsTable self.now }
        requires row { row < self.now.used }
        requires class { class < length self.now.moves.takes.items }
        ensures place { result ≡ row * length self.now.moves.takes.items + class }
        ensures within { result < length self.now.cells.items }
    {
        row * self.moves.width() + class
    }

    /// The first glob from one on that a text matches which leads to a row, or the count of globs. `looks` and `total` count the
    /// globs that are looked at; the first of all is written with the row.
    pub fn first_of(&self, row: usize, from: usize, looks: &mut usize, total: &mut Total) -> usize
        requires table { IsTable self.now }
        requires row { row < self.now.used }
        requires from { from ≤ length self.now.moves.ends.items }
        requires none { looks.old ≡ 0 }
        ensures first { IsFirst self.now.moves.ends.items (row_at self.now.rows.items row)
            from result }
        ensures looks { AreLooks (length self.now.moves.ends.items) from result looks.new }
        ensures total { Counts total.old looks.new total.new }
    {
        let first = self.firsts[row];
        if from <= first {
            return first;
        }
        for glob in from..self.moves.ends.len() {
            if self.is_at_end(row, glob, looks, total) {
                return glob;
            }
        }
        self.moves.ends.len()
    }

    /// Whether a text that leads to a row matches a glob. The call counts a look.
    fn is_at_end(&self, row: usize, glob: usize, looks: &mut usize, total: &mut Total) -> bool
        requires table { IsTable self.now }
        requires row { row < self.now.used }
        requires glob { glob < length self.now.moves.ends.items }
        requires looks { looks.old < 2 ^ 63 }
        ensures holds { result ≡ holds (row_at self.now.rows.items row)
            (get_or self.now.moves.ends.items glob 0) }
        ensures looks { looks.new ≡ looks.old + 1 }
        ensures total { Counts total.old 1 total.new }
    {
        *looks += 1;
        total.add_look();
        self.rows[row].holds(self.moves.ends[glob])
    }

    /// Fills the cell of a row and a class, unless too many were filled in this text.
    #[inline(never)]
    fn miss(&mut self, row: usize, class: usize) -> Lead
        requires table { IsTable self.old }
        requires row { row < self.old.used }
        requires class { class < length self.old.moves.takes.items }
        requires steps { self.old.steps ≤ 2 ^ 127 }
        ensures table { IsTable self.new }
        ensures leads { Leads (row_at self.old.moves.takes.items class)
            (row_at self.old.rows.items row) self.new result }
        ensures counted { CountsSteps 0 self.old self.new }
        ensures room { KeepsRoom self.old self.new }
        ensures cleared { ClearsWhenFull (self.new.misses - self.old.misses) self.old self.new }
    {
        if self.misses == MOST_MISSES {
            return Lead::Unknown;
        }
        self.misses += 1;
        self.fill(row, class)
    }

    /// Fills the cell of a row and a class. A table without room for one row more is cleared, and then the cell stays.
    fn fill(&mut self, row: usize, class: usize) -> Lead
        requires table { IsTable self.old }
        requires row { row < self.old.used }
        requires class { class < length self.old.moves.takes.items }
        requires steps { self.old.steps ≤ 2 ^ 127 }
        ensures table { IsTable self.new }
        ensures leads { Leads (row_at self.old.moves.takes.items class)
            (row_at self.old.rows.items row) self.new result }
        ensures known { IsKnown result }
        ensures steps { self.new.steps ≡ self.old.steps + length self.old.moves.wide + 1 }
        ensures misses { self.new.misses ≡ self.old.misses }
        ensures room { KeepsRoom self.old self.new }
        ensures cleared { ClearsWhenFull 1 self.old self.new }
    {
        let at = self.place(row, class);
        let steps = &mut self.steps;
        self.moves
            .step(class, &self.rows[row], &mut self.spare, steps);
        if self.spare.holds_none() {
            put(&mut self.cells, at, NOWHERE);
            return Lead::Nowhere;
        }
        if let Some(found) = self.find() {
            put(&mut self.cells, at, found as u16);
            self.note_sink(row, class, found);
            return Lead::Row(found);
        }
        if self.used == self.rows.len() {
            clear(&mut self.cells);
            self.cleared = true;
            self.used = 1;
            return Lead::Row(self.add());
        }
        let added = self.add();
        put(&mut self.cells, at, added as u16);
        Lead::Row(added)
    }

    /// Notes whether a row is a sink, where the bytes of a class lead from it to one that was found.
    fn note_sink(&mut self, row: usize, class: usize, found: usize)
        requires table { IsTable self.old }
        requires row { row < self.old.used }
        requires class { class < length self.old.moves.takes.items }
        requires leads { IsStep self.old.moves (row_at self.old.moves.takes.items class)
            (row_at self.old.rows.items row) (row_at self.old.rows.items found) }
        ensures table { IsTable self.new }
        ensures rows { IsSameButSinks self.old self.new }
    {
        if found == row && self.moves.is_sink(class, &self.rows[row]) {
            self.sinks[row] = true;
        }
    }

    /// A row in use with the places of the spare one.
    fn find(&self) -> Option<usize>
        requires rows { self.now.used ≤ length self.now.rows.items }
        requires index { 0 < length self.now.index.items }
        ensures { IfSome result (λ found. IsSpare self.now found) }
    {
        let digest = self.spare.digest();
        for probe in 0..PROBES {
            let found = self.index[slot(digest, probe, self.index.len())] as usize;
            if found < self.used && self.rows[found].is_same(&self.spare) {
                return Some(found);
            }
        }
        None
    }

    /// Adds the spare row to those in use.
    fn add(&mut self) -> usize
        requires table { IsTable self.old }
        requires room { self.old.used < length self.old.rows.items }
        ensures table { IsTable self.new }
        ensures added { AddsSpare self.old self.new result }
    {
        let added = self.used;
        self.rows[added].copy_from(&self.spare);
        let moves = &self.moves;
        let first = first_from(&moves.ends, &self.spare, 0);
        self.firsts[added] = first;
        self.sinks[added] = false;
        self.used += 1;
        remember(&mut self.index, self.spare.digest(), added);
        added
    }
}

/// Copies a row so many times.
fn copies_of(alloc: Global, row: &BitVec, count: usize) -> Result<Vec<BitVec>, AllocError>
    ensures len { IfOk result (λ rows. length rows.items ≡ count) }
    ensures rows { IfOk result (λ rows. (r : ℕ) → r < count → row_at rows.items r ≡ row.now) }
{
    let mut rows = Vec::with_capacity(alloc, count)?;
    for _index in 0..count {
        rows.push(row.copy(alloc)?)?;
    }
    Ok(rows)
}

/// Puts a row into the index, where a number that is no row's stands, and else in place of the first.
fn remember(index: &mut Vec<u16>, digest: u64, row: usize)
    requires index { 0 < length index.old.items }
    requires row { row < nowhere }
    ensures { length index.new.items ≡ length index.old.items }
{
    let len = index.len();
    let mut at = slot(digest, 0, len);
    for probe in 0..PROBES {
        let place = slot(digest, probe, len);
        if index[place] as usize >= row {
            at = place;
            break;
        }
    }
    index[at] = row as u16;
}

/// The place of the index at which a row is looked for.
fn slot(digest: u64, probe: usize, len: usize) -> usize
    requires { 0 < len }
    ensures { result < len }
{
    (digest as usize).wrapping_add(probe) % len
}

/// The least glob from one on whose last place stands in a row, or their count.
pub fn first_from(ends: &[usize], row: &BitVec, from: usize) -> usize
    requires from { from ≤ length ends.now }
    requires ends { (g : ℕ) → g < length ends.now → get_or ends.now g 0 < length row.now }
    ensures first { IsFirst ends.now row.now from result }
    ensures within { from ≤ result }
{
    for glob in from..ends.len() {
        if row.holds(ends[glob]) {
            return glob;
        }
    }
    ends.len()
}

/// Writes a cell.
fn put(cells: &mut Vec<u16>, at: usize, cell: u16)
    requires { at < length cells.old.items }
    ensures { cells.new.items ≡ set cells.old.items at cell }
{
    cells[at] = cell;
}

/// Forgets all cells.
fn clear(cells: &mut Vec<u16>)
    ensures { cells.new.items ≡ replicate (length cells.old.items) unknown }
{
    cells.fill(UNKNOWN);
}
