//! The rows of attributes that the option `--attr` gives paths.
ghost use Rattle.std.specs.Prelude.{◌≡◌, Ok, map, IfOk, string_bytes};
ghost use Rattle.pathspec_parts.specs.AttributeStates.{assignment_view};
ghost use Rattle.pathspec_pattern.specs.AttributeLists.{assignments_of};
ghost use Rattle.pathspec_select.specs.Options.{Options as OptionsView, with_setting};
ghost use Rattle.pathspec_select.specs.Options.Setting.{HasList};
ghost use Rattle.pathspec_select.specs.OptionWords.{setting_view};
ghost use Rattle.pathspec_select.specs.Rows.{list_result, rows_of_options, rows_of_words, ComputesRows};

use crate::Refusal;
use crate::options::{self, Setting, Words};
use gix_pathspec::{Error, parse};
use pathspec_parts::attributes::{Assignment, Rows};
use std::alloc::Global;

/// Reads the rows of the lists of attributes among the options.
///
/// # Errors
/// [`Refusal::Usage`]: an option is unknown or lacks an argument, or a list can't be read; [`Refusal::Memory`].
pub(crate) fn rows_from_words(alloc: Global, words: &[String]) -> Result<Rows, Refusal>
    ensures rows { ComputesRows (λ rows. rows.rows)
        (rows_of_words (map string_bytes words.now)) result }
    ensures fresh { IfOk result (λ rows. rows.failures ≡ 0) }
{
    let mut rows = Rows::new(alloc);
    let mut left = words;
    loop {
        match options::first_option(left)? {
            Words::Specs(_) => return Ok(rows),
            Words::After(setting, others) => {
                add_setting(alloc, &mut rows, setting)?;
                left = others;
            }
        }
    }
}

/// Adds the row of an option, where it is a list of attributes.
fn add_setting(alloc: Global, rows: &mut Rows, setting: Setting<'_>) -> Result<(), Refusal>
    ensures row { (options : OptionsView) → rows_of_options options ≡ Ok rows.old.rows
        → ComputesRows (λ _. rows.new.rows)
        (rows_of_options (with_setting (setting_view setting.entry) options)) result }
    ensures failures { rows.new.failures ≡ rows.old.failures }
{
    match setting {
        Setting::EndsByNul | Setting::HasPrefix(_) | Setting::HasRoot(_) | Setting::HasSource(_) =>
            Ok(()),
        Setting::HasList(path, list) => add_row(alloc, rows, path, list),
    }
}

/// Adds the row of a path and a list of attributes.
fn add_row(alloc: Global, rows: &mut Rows, path: &[u8], list: &[u8]) -> Result<(), Refusal>
    ensures row { (options : OptionsView) → rows_of_options options ≡ Ok rows.old.rows
        → ComputesRows (λ _. rows.new.rows)
        (rows_of_options (with_setting (HasList path.now list.now) options)) result }
    ensures failures { rows.new.failures ≡ rows.old.failures }
{
    let assignments = assignments_of(alloc, list)?;
    rows.push(path, assignments)?;
    Ok(())
}

/// The assignments of a list of attributes.
fn assignments_of(alloc: Global, list: &[u8]) -> Result<Vec<Assignment>, Refusal>
    ensures { ComputesRows (λ all. map assignment_view all.items)
        (list_result (assignments_of list.now)) result }
{
    match parse::attributes(alloc, list) {
        Ok(assignments) => Ok(assignments),
        Err(Error::Memory) => Err(Refusal::Memory),
        Err(_) => Err(Refusal::Usage),
    }
}
