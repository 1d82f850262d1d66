//! What the files that are held say of a path: from the file that counts most to the one that counts least.
ghost use Rattle.std.specs.Prelude.{◌≡◌, [], OnOk};
ghost use Rattle.std.specs.List.{flat_map};
ghost use Rattle.pathspec_parts.specs.Outcomes.{names_of};
ghost use Rattle.pathspec_attributes.specs.Files.{directories_of, said_by_file};
ghost use Rattle.pathspec_attributes.specs.Rules.{IsBaseOf};
ghost use Rattle.pathspec_attributes.specs.Leading.{Leads};
ghost use Rattle.pathspec_attributes.specs.Views.{file_in, file_view, macros_view, marked};

use crate::deciding::{Macros, decide};
use crate::file::File;
use crate::room::Room;
use pathspec_glob::Case;
use pathspec_parts::attributes::Outcome;
use std::alloc::{AllocError, Global};
use std::collections::BTreeMap;

/// A question: a path without a slash at its end, and what counts for each file alike.
#[derive(Clone, Copy)]
pub(crate) struct Asked<'p> {
    pub alloc: Global,
    pub case: Case,
    pub path: &'p [u8],
    pub is_dir: bool,
}

/// Decides what a file in the directory `base` says.
///
/// # Errors
/// Memory runs out.
pub(crate) fn ask_file(
    asked: &Asked<'_>,
    macros: &Macros<'_>,
    base: &[u8],
    file: &File,
    room: &mut Room,
    out: &mut Outcome,
) -> Result<(), AllocError>
    requires { IsBaseOf base.now asked.now.path.now }
    ensures leads { OnOk result (Leads (macros_view macros.now)
        (said_by_file asked.now.case asked.now.path.now asked.now.is_dir base.now (file_view file.now))
        (marked room.old.marks) out.old [] (marked room.new.marks) out.new) }
    ensures names { names_of out.new ≡ names_of out.old }
{
    let mut left = file.rules.len();
    while left > 0 {
        left -= 1;
        let rule = &file.rules[left].rule;
        if rule.fits(
            asked.alloc,
            asked.case,
            base,
            asked.path,
            asked.is_dir,
            &mut room.scratch,
        )? {
            decide(asked.alloc, macros, rule.assignments(), room, out)?;
        }
    }
    Ok(())
}

/// Decides what the files of the path's directories say, from its own up to the top.
///
/// # Errors
/// Memory runs out.
pub(crate) fn ask_directories(
    asked: &Asked<'_>,
    macros: &Macros<'_>,
    directories: &BTreeMap<Vec<u8>, File>,
    room: &mut Room,
    out: &mut Outcome,
) -> Result<(), AllocError>
    ensures leads { OnOk result (Leads (macros_view macros.now)
        (flat_map (λ base. said_by_file asked.now.case asked.now.path.now asked.now.is_dir base
        (file_in directories.now base)) (directories_of asked.now.path.now))
        (marked room.old.marks) out.old [] (marked room.new.marks) out.new) }
    ensures names { names_of out.new ≡ names_of out.old }
{
    let mut end = asked.path.len();
    while end > 0 {
        end -= 1;
        if end > 0 && asked.path[end] == b'/' {
            ask_directory(asked, macros, &asked.path[..end], directories, room, out)?;
        }
    }
    ask_directory(asked, macros, &[], directories, room, out)
}

/// Decides what the file of a directory says, if one is held.
///
/// # Errors
/// Memory runs out.
fn ask_directory(
    asked: &Asked<'_>,
    macros: &Macros<'_>,
    base: &[u8],
    directories: &BTreeMap<Vec<u8>, File>,
    room: &mut Room,
    out: &mut Outcome,
) -> Result<(), AllocError>
    requires { IsBaseOf base.now asked.now.path.now }
    ensures leads { OnOk result (Leads (macros_view macros.now)
        (said_by_file asked.now.case asked.now.path.now asked.now.is_dir base.now
        (file_in directories.now base.now))
        (marked room.old.marks) out.old [] (marked room.new.marks) out.new) }
    ensures names { names_of out.new ≡ names_of out.old }
{
    match directories.get(base) {
        Some(file) => ask_file(asked, macros, base, file, room, out),
        None => Ok(()),
    }
}
