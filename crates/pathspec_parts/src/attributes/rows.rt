//! A look-up of rows: paths, each with the attributes that are assigned to it.
ghost use Rattle.std.specs.Prelude.{◌≡◌, [], ◌∷◌, ◌++◌, map, OnOk, OnErr};
ghost use Rattle.pathspec_parts.specs.AttributeStates.{assignment_view};
ghost use Rattle.pathspec_parts.specs.Outcomes.{names_of, apply_assignments};
ghost use Rattle.pathspec_parts.specs.AttributeRows.{apply_rows, rows_of, table_of, RowsContents};
ghost use Rattle.pathspec_parts.specs.RowNumbers.{numbers_at, AreRowNumbers, HaveRowNumbers, AddsNumber, KeepsNumbers};

use crate::attributes::{Assignment, Case, LookUp, Outcome};
use bstr::BStr;
use std::alloc::{AllocError, Global};
use std::collections::BTreeMap;
use std::marker::Model;

/// Rows of a path and the attributes that are assigned to it. As a look-up they answer every question: each row with the
/// question's path sets its assignments, in the order of the rows.
///
/// A [`BTreeMap`] finds the rows of a path. The number of paths that a question or a new row is compared with grows as the
/// logarithm of the number of rows. A path is kept with each of its rows, and once more.
#[derive(Debug, Drop)]
pub struct Rows {
    rows: Vec<(Vec<u8>, Vec<Assignment>)>,
    /// The numbers of the rows of each path, rising.
    numbers: BTreeMap<Vec<u8>, Vec<usize>>,
    failed: u64,
}

impl Model for Rows {
    ghost Value = { RowsContents };

    ghost view = { λ r. record { rows = rows_of r.rows.items; failures = r.failed } };

    ghost invariant = { λ r. HaveRowNumbers (rows_of r.rows.items) r.numbers };
}

impl Rows {
    /// Makes an empty list of rows. It takes no memory.
    pub fn new(alloc: Global) -> Rows
        ensures { result ≡ record { rows = []; failures = 0 } }
    {
        Rows {
            rows: Vec::new(alloc),
            numbers: BTreeMap::new(alloc),
            failed: 0,
        }
    }

    /// Adds a row after the others: a path, which is copied, and its assignments.
    ///
    /// # Errors
    /// [`AllocError`], and the rows are as before.
    pub fn push(&mut self, path: &[u8], assignments: Vec<Assignment>) -> Result<(), AllocError>
        ensures ok { OnOk result (self.new.rows ≡ self.old.rows
            ++ record { path = path.now; assignments = map assignment_view assignments.items } ∷ []) }
        ensures err { OnErr result (self.new ≡ self.old) }
        ensures failures { self.new.failures ≡ self.old.failures }
    {
        let alloc = *self.rows.allocator();
        let row = (Vec::from_slice(alloc, path)?, assignments);
        self.rows.reserve(1)?;
        add_number(alloc, &mut self.numbers, path, self.rows.len())?;
        self.rows.push(row)?;
        Ok(())
    }
}

impl LookUp for Rows {
    type Fault = AllocError;

    ghost table = { λ it. table_of it.rows };

    ghost failures = { λ it. it.failures };

    fn look_up(
        &mut self,
        path: BStr<'_>,
        _case: Case,
        _is_dir: bool,
        out: &mut Outcome,
    ) -> Result<bool, AllocError> {
        let numbers = numbers_of(&self.numbers, path.as_bytes());
        match apply_rows(&self.rows, numbers, path.as_bytes(), out) {
            Ok(()) => Ok(true),
            Err(refused) => {
                self.failed = self.failed.saturating_add(1);
                Err(refused)
            }
        }
    }
}

/// Puts a number after the others of a path.
///
/// # Errors
/// Memory runs out. Each path then has the numbers that it had.
fn add_number(
    alloc: Global,
    numbers: &mut BTreeMap<Vec<u8>, Vec<usize>>,
    path: &[u8],
    number: usize,
) -> Result<(), AllocError>
    ensures ok { OnOk result (AddsNumber numbers.old numbers.new path.now number) }
    ensures err { OnErr result (KeepsNumbers numbers.old numbers.new) }
{
    if let Some(own) = numbers.get_mut(path) {
        own.push(number)?;
        return Ok(());
    }
    let mut own = Vec::new(alloc);
    own.push(number)?;
    numbers.insert(Vec::from_slice(alloc, path)?, own)?;
    Ok(())
}

/// The numbers of a path's rows.
fn numbers_of<'a>(numbers: &'a BTreeMap<Vec<u8>, Vec<usize>>, path: &[u8]) -> &'a [usize]
    ensures { result.now ≡ numbers_at numbers.now path.now }
{
    match numbers.get(path) {
        Some(own) => own.as_slice(),
        None => &[],
    }
}

/// Applies the rows of a path, by their numbers.
fn apply_rows(
    rows: &[(Vec<u8>, Vec<Assignment>)],
    numbers: &[usize],
    path: &[u8],
    out: &mut Outcome,
) -> Result<(), AllocError>
    requires { AreRowNumbers (rows_of rows.now) path.now numbers.now }
    ensures ok { OnOk result (out.new ≡ apply_rows path.now out.old (rows_of rows.now)) }
    ensures names { names_of out.new ≡ names_of out.old }
{
    for number in numbers {
        apply(&rows[*number].1, out)?;
    }
    Ok(())
}

/// Gives each assignment's state to the places with its name.
fn apply(assignments: &[Assignment], out: &mut Outcome) -> Result<(), AllocError>
    ensures ok { OnOk result (out.new
        ≡ apply_assignments out.old (map assignment_view assignments.now)) }
    ensures names { names_of out.new ≡ names_of out.old }
{
    for assignment in assignments {
        out.set(
            assignment.name.as_bytes().as_bytes(),
            assignment.state.as_ref(),
        )?;
    }
    Ok(())
}
