//! The entries that records add to an outline.
ghost use Rattle.std.specs.Prelude.{◌≡◌, ◌≢◌, ◌≤◌, ◌<◌, ◌++◌, ◌∷◌, [], false, length, take, drop, map, fold, replicate, None, OnOk, IfOk, if◌then◌else◌};
ghost use Rattle.pathspec_parts.specs.Entries.Call.{Open, Close};
ghost use Rattle.pathspec_parts.specs.Trees.{tree_after};
ghost use Rattle.pathspec_parts.specs.Paths.{ends_with_slash, without_last_slash};
ghost use Rattle.pathspec_parts.specs.Records.{record_names, parent_names, open_after, implied_names, directory_calls, record_calls, directory_names, has_empty_name};
ghost use Rattle.pathspec_select.specs.Listing.{marks_of_record};
ghost use Rattle.pathspec_parts.specs.RecordParts.{first_record, behind_record, IsFreeOf};
ghost use Rattle.pathspec_select.specs.ListingAnswers.{AnswersNames};
ghost use Rattle.pathspec_select.specs.Outlines.{record_from, HasOpen, KeepsListing, IsRecordAt, BeginsRecord};

use crate::listing::names::after_shared;
use crate::listing::outline::Outline;
use pathspec_parts::path::strip_last_slash;
use pathspec_parts::records::{direct_file_len, split_name};
use pathspec_parts::split;
use std::alloc::AllocError;

/// The reason why a record isn't added.
#[derive(Clone, Copy)]
pub(super) enum RecordError {
    /// A name in the record is empty.
    EmptyName,
    /// Memory ran out.
    Memory,
}

impl From<AllocError> for RecordError {
    ghost use Rattle.pathspec_select.specs.declared.listing.entries.RecordError.TheVariants.{Memory};

    ghost from_gives = { λ _ error. error ≡ Memory };

    fn from(_: AllocError) -> RecordError {
        RecordError::Memory
    }
}

/// Adds the entries of the first record in the rest of the listing. Gives the path of the directory that is open afterwards,
/// and the listing behind the record.
///
/// # Errors
/// [`RecordError::EmptyName`] where a name of the record is empty, and [`RecordError::Memory`].
pub(super) fn add_first<'a>(
    outline: &mut Outline<'_>,
    directory: &'a [u8],
    rest: &'a [u8],
    separator: u8,
    start: usize,
) -> Result<(&'a [u8], &'a [u8]), RecordError>
    requires record { IsRecordAt outline.old start (first_record separator rest.now) }
    requires named { has_empty_name (directory_names directory.now) ≡ false }
    requires here { HasOpen outline.old.tree directory.now }
    requires free { IsFreeOf separator directory.now }
    ensures tree { OnOk result (outline.new.tree ≡ fold tree_after outline.old.tree
        (record_calls (directory_names directory.now) (first_record separator rest.now))) }
    ensures marks { OnOk result (outline.new.marks ≡ outline.old.marks
        ++ marks_of_record (directory_names directory.now) (first_record separator rest.now)) }
    ensures kept { KeepsListing outline.old outline.new }
    ensures there { IfOk result (λ pair. HasOpen outline.new.tree pair.0.now) }
    ensures names { IfOk result (λ pair. directory_names pair.0.now
        ≡ open_after (first_record separator rest.now)) }
    ensures free { IfOk result (λ pair. IsFreeOf separator pair.0.now) }
    ensures after { IfOk result (λ pair. pair.1.now ≡ behind_record separator rest.now) }
    ensures answers { AnswersNames (record_names (first_record separator rest.now)) result }
{
    if let Some(length) = direct_file_len(directory, rest, separator) {
        outline.add(start, length, false)?;
        return Ok((directory, &rest[length + 1..]));
    }
    let (text, after) = split::at_first(rest, separator);
    let open = add_entries(outline, directory, text, start)?;
    Ok((open, after))
}

// Out of line: most records are files right in the open directory, and the loop over them has the registers to itself.
/// Adds the entries of the record that begins at an offset of the listing, where a directory is open. Gives the path of the
/// directory that is open afterwards.
///
/// # Errors
/// [`RecordError::EmptyName`] where a name of the record is empty, and [`RecordError::Memory`].
#[inline(never)]
fn add_entries<'a>(
    outline: &mut Outline<'_>,
    directory: &'a [u8],
    text: &'a [u8],
    start: usize,
) -> Result<&'a [u8], RecordError>
    requires record { IsRecordAt outline.old start text.now }
    requires named { has_empty_name (directory_names directory.now) ≡ false }
    requires here { HasOpen outline.old.tree directory.now }
    ensures tree { OnOk result (outline.new.tree
        ≡ fold tree_after outline.old.tree (record_calls (directory_names directory.now) text.now)) }
    ensures marks { OnOk result (outline.new.marks
        ≡ outline.old.marks ++ marks_of_record (directory_names directory.now) text.now) }
    ensures kept { KeepsListing outline.old outline.new }
    ensures there { IfOk result (λ path. HasOpen outline.new.tree path.now) }
    ensures names { IfOk result (λ path. directory_names path.now ≡ open_after text.now) }
    ensures front { IfOk result (λ path. path.now ≡ take (length path.now) text.now) }
    ensures answers { AnswersNames (record_names text.now) result }
{
    if text.is_empty() {
        return Err(RecordError::EmptyName);
    }
    let (parents, name) = split_name(text);
    go_to(outline, directory, parents, start)?;
    let (own, is_dir) = strip_last_slash(name);
    if own.is_empty() {
        return Err(RecordError::EmptyName);
    }
    outline.add(start, parents.len() + own.len(), is_dir)?;
    Ok(if is_dir { text } else { parents })
}

/// Closes and opens directories, so that another one is open, whose path begins the record at an offset of the listing.
///
/// # Errors
/// [`RecordError::EmptyName`] and [`RecordError::Memory`].
fn go_to(
    outline: &mut Outline<'_>,
    directory: &[u8],
    wanted: &[u8],
    start: usize,
) -> Result<(), RecordError>
    requires begins { BeginsRecord outline.old start wanted.now }
    requires named { has_empty_name (directory_names directory.now) ≡ false }
    requires here { HasOpen outline.old.tree directory.now }
    ensures tree { OnOk result (outline.new.tree ≡ fold tree_after outline.old.tree
        (directory_calls (directory_names directory.now) (directory_names wanted.now))) }
    ensures marks { OnOk result (outline.new.marks ≡ outline.old.marks
        ++ replicate (length (implied_names (directory_names directory.now)
        (directory_names wanted.now))) None) }
    ensures kept { KeepsListing outline.old outline.new }
    ensures there { OnOk result (HasOpen outline.new.tree wanted.now) }
    ensures answers { AnswersNames (directory_names wanted.now) result }
{
    if directory == wanted {
        return Ok(());
    }
    let (left, missing) = after_shared(directory, wanted);
    close_all(outline, left);
    open_all(outline, wanted, wanted.len() - missing.len(), start)
}

/// Closes as many directories as a path names.
fn close_all(outline: &mut Outline<'_>, path: &[u8])
    ensures tree { outline.new.tree ≡ fold tree_after outline.old.tree
        (replicate (length (directory_names path.now)) Close) }
    ensures marks { outline.new.marks ≡ outline.old.marks }
    ensures kept { KeepsListing outline.old outline.new }
{
    let mut rest = path;
    while !rest.is_empty() {
        outline.close();
        rest = split::at_first(rest, b'/').1;
    }
}

/// Opens the directories that a path names behind its first `opened` bytes, and that have no records. The path begins the
/// record at an offset of the listing.
///
/// # Errors
/// [`RecordError::EmptyName`] and [`RecordError::Memory`].
fn open_all(
    outline: &mut Outline<'_>,
    path: &[u8],
    opened: usize,
    start: usize,
) -> Result<(), RecordError>
    requires begins { BeginsRecord outline.old start path.now }
    requires within { opened ≤ length path.now }
    requires here { HasOpen outline.old.tree (take opened path.now) }
    ensures tree { OnOk result (outline.new.tree ≡ fold tree_after outline.old.tree
        (map Open (directory_names (drop opened path.now)))) }
    ensures marks { OnOk result (outline.new.marks ≡ outline.old.marks
        ++ replicate (length (directory_names (drop opened path.now))) None) }
    ensures kept { KeepsListing outline.old outline.new }
    ensures there { OnOk result (HasOpen outline.new.tree path.now) }
    ensures answers { AnswersNames (directory_names (drop opened path.now)) result }
{
    let mut end = opened;
    while end < path.len() {
        let (name, _) = split::at_first(&path[end..], b'/');
        if name.is_empty() {
            return Err(RecordError::EmptyName);
        }
        end += name.len();
        outline.add(start, end, true)?;
        end += 1;
    }
    Ok(())
}
