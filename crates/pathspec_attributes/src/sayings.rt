//! The rules that fit a path, in the order in which they count, and the one among them that decides an attribute.
ghost use Rattle.std.specs.Prelude.{◌≡◌, ◌++◌, map, IfOk, OnOk};
ghost use Rattle.std.specs.List.{flat_map};
ghost use Rattle.std.specs.Option.{option_map};
ghost use Rattle.pathspec_attributes.specs.Files.{directories_of};
ghost use Rattle.pathspec_attributes.specs.Rules.{IsBaseOf};
ghost use Rattle.pathspec_attributes.specs.Sayings.{base_of, place_view, rule_at_view, saying_view, sayings, sayings_of_file, FilePlace, IsDecider};
ghost use Rattle.pathspec_attributes.specs.Sayings.FilePlace.{DirectoryFile};
ghost use Rattle.pathspec_attributes.specs.Views.{asked_files, directories_view, file_in, file_view, macros_view};

use crate::asking::Asked;
use crate::deciding::{Macros, decide};
use crate::file::File;
use crate::place::{Place, RuleAt};
use crate::room::Room;
use pathspec_glob::Scratch;
use pathspec_parts::attributes::{Assignment, Outcome};
use std::alloc::{AllocError, Global};
use std::collections::BTreeMap;

/// A rule that fits a path: where it stands, and what it assigns.
#[derive(Clone, Copy, Debug)]
pub(crate) struct Saying<'p, 'f> {
    pub at: RuleAt<'p>,
    pub assignments: &'f [Assignment],
}

/// The rule that decides a name, if one does. The room's marks and what is pending there are lost.
///
/// # Errors
/// Memory runs out.
pub(crate) fn decider<'p>(
    alloc: Global,
    macros: &Macros<'_>,
    sayings: &[Saying<'p, '_>],
    name: &[u8],
    room: &mut Room,
) -> Result<Option<RuleAt<'p>>, AllocError>
    ensures { IfOk result (λ at. IsDecider (macros_view macros.now)
        (map saying_view sayings.now) name.now (option_map rule_at_view at)) }
{
    // No state is asked for, only which names are decided.
    let mut nothing = Outcome::for_assignments(alloc, &[])?;
    room.marks.forget(alloc);
    for saying in sayings {
        decide(alloc, macros, saying.assignments, room, &mut nothing)?;
        if room.marks.is_marked(name) {
            return Ok(Some(saying.at));
        }
    }
    Ok(None)
}

/// The rules of all files that fit a path, in the order in which they count.
///
/// # Errors
/// Memory runs out.
pub(crate) fn sayings<'p, 'f>(
    asked: &Asked<'p>,
    info: &'f File,
    directories: &'f BTreeMap<Vec<u8>, File>,
    global: &'f File,
    scratch: &mut Scratch,
) -> Result<Vec<Saying<'p, 'f>>, AllocError>
    ensures { IfOk result (λ found. map saying_view found.items ≡ sayings (asked_files asked.now
        (file_view info.now) (directories_view directories.now) (file_view global.now))
        asked.now.path.now asked.now.is_dir) }
{
    let mut found = Vec::new(asked.alloc);
    push_file(asked, Place::Info, info, scratch, &mut found)?;
    push_directories(asked, directories, scratch, &mut found)?;
    push_file(asked, Place::Global, global, scratch, &mut found)?;
    Ok(found)
}

/// Puts the rules of a file that fit behind `found`, the last first.
///
/// # Errors
/// Memory runs out.
fn push_file<'p, 'f>(
    asked: &Asked<'p>,
    place: Place<'p>,
    file: &'f File,
    scratch: &mut Scratch,
    found: &mut Vec<Saying<'p, 'f>>,
) -> Result<(), AllocError>
    requires { IsBaseOf (base_of (place_view place)) asked.now.path.now }
    ensures { OnOk result (map saying_view found.new.items ≡ map saying_view found.old.items
        ++ sayings_of_file asked.now.case asked.now.path.now asked.now.is_dir
        (place_view place.entry) (file_view file.now)) }
{
    let mut left = file.rules.len();
    while left > 0 {
        left -= 1;
        let own = &file.rules[left];
        if own.rule.fits(
            asked.alloc,
            asked.case,
            base_of(place),
            asked.path,
            asked.is_dir,
            scratch,
        )? {
            found.push(Saying {
                at: RuleAt {
                    place,
                    line: own.line,
                },
                assignments: own.rule.assignments(),
            })?;
        }
    }
    Ok(())
}

/// The directory from which the patterns of a file count.
fn base_of<'p>(place: Place<'p>) -> &'p [u8]
    ensures { result.now ≡ base_of (place_view place.entry) }
{
    match place {
        Place::Directory(path) => path,
        Place::Global | Place::Info => &[],
    }
}

/// Puts the rules that fit, of the files of the path's directories, behind `found`, from its own up to the top.
///
/// # Errors
/// Memory runs out.
fn push_directories<'p, 'f>(
    asked: &Asked<'p>,
    directories: &'f BTreeMap<Vec<u8>, File>,
    scratch: &mut Scratch,
    found: &mut Vec<Saying<'p, 'f>>,
) -> Result<(), AllocError>
    ensures { OnOk result (map saying_view found.new.items ≡ map saying_view found.old.items
        ++ flat_map (λ base. sayings_of_file asked.now.case asked.now.path.now asked.now.is_dir
        (DirectoryFile base) (file_in directories.now base)) (directories_of asked.now.path.now)) }
{
    let path: &'p [u8] = asked.path;
    let mut end = path.len();
    while end > 0 {
        end -= 1;
        if end > 0 && path[end] == b'/' {
            push_directory(asked, &path[..end], directories, scratch, found)?;
        }
    }
    push_directory(asked, &[], directories, scratch, found)
}

/// Puts the rules that fit, of the file of a directory, behind `found`, if one is held.
///
/// # Errors
/// Memory runs out.
fn push_directory<'p, 'f>(
    asked: &Asked<'p>,
    base: &'p [u8],
    directories: &'f BTreeMap<Vec<u8>, File>,
    scratch: &mut Scratch,
    found: &mut Vec<Saying<'p, 'f>>,
) -> Result<(), AllocError>
    requires { IsBaseOf base.now asked.now.path.now }
    ensures { OnOk result (map saying_view found.new.items ≡ map saying_view found.old.items
        ++ sayings_of_file asked.now.case asked.now.path.now asked.now.is_dir
        (DirectoryFile base.now) (file_in directories.now base.now)) }
{
    match directories.get(base) {
        Some(file) => push_file(asked, Place::Directory(base), file, scratch, found),
        None => Ok(()),
    }
}
