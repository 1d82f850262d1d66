//! Rows of places, one bit each, and how a byte leads from one row to the next.
ghost use Rattle.std.specs.Prelude.{◌≡◌, ◌<◌, ◌≤◌, ◌*◌, ◌&&◌, ◌||◌, ℕ, suc, false, true, length, get_or, IsTrue};
ghost use Rattle.pathspec_glob.specs.BitVecs.{holds};
ghost use Rattle.pathspec_glob.specs.GlobCells.{further, has};
ghost use Rattle.pathspec_glob_set.specs.Rows.{is_settled, leads_on, taken_of, IsCarriedWord, IsClosedRow, IsEntered, IsUncut};

use pathspec_glob::BitVec;

/// Adds to a row all places that its own lead to without a byte.
pub(super) fn close(row: &mut BitVec, wide: &BitVec, over: &BitVec)
    requires wide { length wide.now ≡ length row.old }
    requires over { length over.now ≡ length row.old }
    ensures closed { IsClosedRow wide.now over.now row.old row.new }
    ensures len { length row.new ≡ length row.old }
{
    let mut carry = 0;
    for index in 0..row.len() / 64 + 1 {
        let own = row.word(index);
        let widens = wide.word(index);
        let passes = over.word(index);
        let closed = closed_word(own | carry, widens, passes);
        row.set_word(index, closed);
        carry = carried(closed, widens, passes);
    }
}

/// Makes a row of the places that a byte leads to from another. `takes` holds those whose token takes the byte.
pub(super) fn enter(row: &mut BitVec, wide: &BitVec, takes: &BitVec, old: &BitVec)
    requires row { length row.old ≡ length old.now }
    requires wide { length wide.now ≡ length old.now }
    requires takes { length takes.now ≡ length old.now }
    ensures entered { IsEntered wide.now takes.now old.now row.new }
    ensures len { length row.new ≡ length row.old }
{
    let mut carry = 0;
    for index in 0..old.len() / 64 + 1 {
        let held = old.word(index);
        let takers = takes.word(index);
        let widens = wide.word(index);
        let entered = entered_word(held & takers, widens, carry);
        row.set_word(index, entered);
        carry = (held & takers) >> 63;
    }
}

/// Whether two columns have the same places of a row.
pub(super) fn are_alike(row: &BitVec, some: &BitVec, others: &BitVec) -> bool
    requires some { length some.now ≡ length row.now }
    requires others { length others.now ≡ length row.now }
    ensures { IsTrue result → (i : ℕ) → i < length row.now
        → taken_of some.now row.now i ≡ taken_of others.now row.now i }
{
    for index in 0..row.len() / 64 + 1 {
        let held = row.word(index);
        if held & some.word(index) != held & others.word(index) {
            return false;
        }
    }
    true
}

/// Leaves out all places behind the first glob that cuts and matches whatever stands before.
pub(super) fn cut(row: &mut BitVec, cuts: &BitVec, ends: &[usize])
    requires cuts { length cuts.now ≡ length row.old }
    requires ends { (g : ℕ) → g < length ends.now → get_or ends.now g 0 < length row.old }
    ensures kept { (i : ℕ) → IsUncut cuts.now ends.now row.new i
        → holds row.new i ≡ holds row.old i }
    ensures len { length row.new ≡ length row.old }
{
    let settled = first_settled(row, cuts, ends);
    if settled < ends.len() {
        forget_behind(row, ends[settled]);
    }
}

/// The first glob that cuts and matches whatever stands before, or their count. Its last place stands behind the first that a row and
/// `cuts` share.
fn first_settled(row: &BitVec, cuts: &BitVec, ends: &[usize]) -> usize
    requires cuts { length cuts.now ≡ length row.now }
    requires ends { (g : ℕ) → g < length ends.now → get_or ends.now g 0 < length row.now }
    ensures within { result ≤ length ends.now }
    ensures settled { result < length ends.now
        → is_settled cuts.now row.now (get_or ends.now result 0) ≡ true }
{
    match ends.binary_search(&first_shared(row, cuts)) {
        Ok(glob) if is_settled(row, cuts, ends[glob]) => glob,
        _ => ends.len(),
    }
}

/// Whether a glob with this last place cuts and matches whatever stands before.
fn is_settled(row: &BitVec, cuts: &BitVec, end: usize) -> bool
    requires cuts { length cuts.now ≡ length row.now }
    requires end { end < length row.now }
    ensures { result ≡ is_settled cuts.now row.now end }
{
    let place = end.saturating_sub(1);
    row.holds(place) && cuts.holds(place)
}

/// The place behind the first that a row and `cuts` share, or 0.
fn first_shared(row: &BitVec, cuts: &BitVec) -> usize
    requires { length cuts.now ≡ length row.now }
{
    for index in 0..row.len() / 64 + 1 {
        let shared = row.word(index) & cuts.word(index);
        if shared != 0 {
            let place = shared.trailing_zeros() as usize;
            return index.wrapping_mul(64).wrapping_add(place).wrapping_add(1);
        }
    }
    0
}

/// Leaves out all places behind one.
fn forget_behind(row: &mut BitVec, last: usize)
    requires { last < length row.old }
    ensures kept { (i : ℕ) → i ≤ last → holds row.new i ≡ holds row.old i }
    ensures len { length row.new ≡ length row.old }
{
    let next = last / 64 + 1;
    forget(row, last, next.saturating_mul(64));
    for index in next..row.len() / 64 + 1 {
        row.set_word(index, 0);
    }
}

/// Leaves out the places behind one, up to another.
fn forget(row: &mut BitVec, last: usize, until: usize)
    requires { last < length row.old }
    ensures kept { (i : ℕ) → i ≤ last → holds row.new i ≡ holds row.old i }
    ensures len { length row.new ≡ length row.old }
{
    let until = until.min(row.len());
    for place in last + 1..until {
        row.set(place, false);
    }
}

/// The places of a word that its taken ones lead to, and the first where the word before leads to it.
fn entered_word(taken: u64, wide: u64, carry: u64) -> u64
    ensures { (i : ℕ) → i < 64 → has result i
        ≡ ((further false (has taken) i || has carry i) || (has taken i && has wide i)) }
{
    (taken << 1) | carry | (taken & wide)
}

/// The places of a word, and all those of it that they lead to without a byte. Each round settles at least one place more.
fn closed_word(entered: u64, wide: u64, over: u64) -> u64
    ensures { (i : ℕ) → i < 64 → has result i
        ≡ (has entered i || leads_on (has wide) (has over) (has result) i) }
{
    let mut row = entered;
    for _round in 0..64usize {
        let next = follow(entered, row, wide, over);
        if next == row {
            return row;
        }
        row = next;
    }
    row
}

/// The places that were entered, and those that a row's lead to at once.
fn follow(entered: u64, row: u64, wide: u64, over: u64) -> u64
    ensures { (i : ℕ) → i < 64 → has result i
        ≡ (has entered i || leads_on (has wide) (has over) (has row) i) }
{
    entered | (((row & wide) << 1) | (((row & over) << 1) << 1))
}

/// The places of the next word that those of a word lead to.
fn carried(row: u64, wide: u64, over: u64) -> u64
    ensures { IsCarriedWord row wide over result }
{
    ((row & wide) >> 63) | ((row & over) >> 62)
}
