//! A look-up of attribute files.
ghost use Rattle.std.specs.Prelude.{◌≡◌, ◌||◌, [], map, true, IfOk, OnOk, OnErr};
ghost use Rattle.pathspec_glob.specs.declared.Case.TheVariants.{Sensitive};
ghost use Rattle.pathspec_parts.specs.Paths.{ends_with_slash, without_last_slash};
ghost use Rattle.pathspec_glob.specs.declared.Case.{Case};
ghost use Rattle.pathspec_parts.specs.Outcomes.{apply_assignments, names_of, question_of, reply_of, IsReset};
ghost use Rattle.bstr.specs.BStr.{bstr_bytes};
ghost use Rattle.pathspec_attributes.specs.Laws.{LawsOfFiles};
ghost use Rattle.pathspec_attributes.specs.Files.{built_in, decided, empty_file, file_of, left_out, macros_of, table_of};
ghost use Rattle.pathspec_attributes.specs.Places.{may_define, no_files, PutsFile, PutsIn};
ghost use Rattle.pathspec_attributes.specs.Sayings.{rule_at_view, sayings, IsDecider, LawsOfDeciders};
ghost use Rattle.std.specs.Option.{option_map};
ghost use Rattle.pathspec_attributes.specs.Views.{asked_files, directories_view, file_in, file_view, left_out_view, macro_view};

use crate::asking::{Asked, ask_directories, ask_file};
use crate::deciding::Macros;
use crate::file::{File, ReadFile, read_file};
use crate::place::{Place, RuleAt};
use crate::reading::Macro;
use crate::reasons::LeftOut;
use crate::room::{Room, make_room};
use crate::sayings::{decider, sayings};
use bstr::BStr;
use pathspec_glob::Case;
use pathspec_parts::attributes::{LookUp, Outcome};
use pathspec_parts::path::strip_last_slash;
use std::alloc::{AllocError, Global};
use std::collections::BTreeMap;
use std::marker::Model;

/// Attribute files, as a look-up. It reads no file itself, and answers every question by the files that it holds.
///
/// Of a path speak the file of `info`, then those of the directories that it lies in, its own first, and then the global one.
/// The file that speaks first of an attribute decides it. The answer doesn't depend on the files of other directories.
///
/// A question looks once at each rule of these files. Each name that a rule which fits assigns is looked up once, among all
/// names of the files that were held, and compared with those of the outcome; one that is set also with those of the macros.
/// A question takes no memory but for copies of states: `add` makes the room for the rest, which stays. It fails only where
/// memory runs out.
#[derive(Debug, Drop)]
pub struct AttributeFiles {
    alloc: Global,
    case: Case,
    info: File,
    /// The files of directories, by their paths from the top.
    directories: BTreeMap<Vec<u8>, File>,
    global: File,
    /// What git has without any file.
    git_file: File,
    /// It has room for the names and macros of all files that were held.
    room: Room,
    failed: u64,
}

impl Model for AttributeFiles {
    ghost use Rattle.std.specs.Prelude.{◌≡◌};
    ghost use Rattle.pathspec_attributes.specs.Files.{Held, built_in};
    ghost use Rattle.pathspec_attributes.specs.Views.{directories_view, file_view};

    ghost Value = { Held };

    ghost view = { λ f. record {
      files = record {
        case = f.case;
        info = file_view f.info;
        directories = directories_view f.directories;
        global = file_view f.global;
      };
      failures = f.failed;
    } };

    ghost invariant = { λ f. file_view f.git_file ≡ built_in };
}

impl AttributeFiles {
    /// Makes a look-up without files, for which case counts.
    ///
    /// # Errors
    /// Memory runs out.
    pub fn new(alloc: Global) -> Result<AttributeFiles, AllocError>
        ensures { IfOk result (λ made. made ≡ record { files = no_files Sensitive; failures = 0 }) }
    {
        let git_file = built_in(alloc)?;
        let mut room = Room::new(alloc)?;
        make_room(alloc, &git_file, &mut room)?;
        Ok(AttributeFiles {
            alloc,
            case: Case::Sensitive,
            info: File::new(alloc),
            directories: BTreeMap::new(alloc),
            global: File::new(alloc),
            git_file,
            room,
            failed: 0,
        })
    }

    /// Gives the look-up back with its files, but compares their patterns as `case` says, which `core.ignoreCase` sets.
    pub fn with_case(mut self, case: Case) -> AttributeFiles
        ensures { result ≡ record self { files = record self.files { case = case } } }
    {
        self.case = case;
        self
    }

    /// Adds a file, in place of the one that is held there. Gives the lines that git leaves out, in their order.
    ///
    /// # Errors
    /// Memory runs out, and the files are as before. A text is never at fault.
    #[tactic(auto, using(crate::proofs::LawProofs::laws_of_files))]
    pub fn add(&mut self, place: Place<'_>, text: &[u8]) -> Result<Vec<LeftOut>, AllocError>
        ensures ok { OnOk result (PutsFile place.entry (file_of (may_define place.entry) text.now)
            self.old.files self.new.files) }
        ensures left_out { IfOk result (λ told.
            map left_out_view told.items ≡ left_out (may_define place.entry) text.now) }
        ensures err { OnErr result (self.new ≡ self.old) }
        ensures failures { self.new.failures ≡ self.old.failures }
        // Only the files above a path speak of it, whether a rule fits is a relation, and what is said has one outcome.
        ensures laws { LawsOfFiles }
    {
        let ReadFile { file, left_out } = read_file(self.alloc, may_define(place), text)?;
        make_room(self.alloc, &file, &mut self.room)?;
        self.hold(place, file)?;
        Ok(left_out)
    }

    /// Holds a file in place of the one that is held there.
    ///
    /// # Errors
    /// Memory runs out, and the files are as before.
    fn hold(&mut self, place: Place<'_>, file: File) -> Result<(), AllocError>
        ensures ok { OnOk result
            (PutsFile place.entry (file_view file) self.old.files self.new.files) }
        ensures err { OnErr result (self.new ≡ self.old) }
        ensures failures { self.new.failures ≡ self.old.failures }
    {
        match place {
            Place::Global => {
                self.global = file;
                Ok(())
            }
            Place::Directory(path) => put_file(self.alloc, &mut self.directories, path, file),
            Place::Info => {
                self.info = file;
                Ok(())
            }
        }
    }

    /// Puts what the files say of a path into a reset outcome.
    ///
    /// # Errors
    /// Memory runs out.
    fn ask(
        &self,
        path: BStr<'_>,
        is_dir: bool,
        room: &mut Room,
        out: &mut Outcome,
    ) -> Result<(), AllocError>
        ensures ok { (case : Case) → IsReset out.old → OnOk result (reply_of true out.new
            ≡ table_of self.now.files (question_of (bstr_bytes path.entry) case is_dir out.old)) }
        ensures names { names_of out.new ≡ names_of out.old }
    {
        let asked = question(self.alloc, self.case, path.as_bytes(), is_dir);
        answer(
            &asked,
            &self.info,
            &self.directories,
            &self.global,
            &self.git_file,
            room,
            out,
        )
    }

    /// The rule that decides the attribute of a path: the first that sets the name's state, in the order in which rules count. It may
    /// do so by a macro that it sets. None where no rule speaks of the attribute.
    ///
    /// The call takes memory for a reference to each rule that fits, and for each name that is decided before.
    ///
    /// # Errors
    /// Memory runs out.
    #[tactic(auto, using(crate::proofs::SayingProofs::laws_of_deciders))]
    pub fn decider<'p>(
        &self,
        path: BStr<'p>,
        is_dir: bool,
        name: &[u8],
    ) -> Result<Option<RuleAt<'p>>, AllocError>
        ensures decider { let text = bstr_bytes path.entry in
            IfOk result (λ at. IsDecider (macros_of self.now.files)
            (sayings self.now.files (without_last_slash text) (is_dir || ends_with_slash text))
            name.now (option_map rule_at_view at)) }
        // What the rule says of the name is what a question answers.
        ensures laws { LawsOfDeciders }
    {
        let asked = question(self.alloc, self.case, path.as_bytes(), is_dir);
        decider_among(
            &asked,
            &self.info,
            &self.directories,
            &self.global,
            &self.git_file,
            name,
        )
    }

    /// Removes the file that is held at a place, if there is one. It takes no memory.
    pub fn remove(&mut self, place: Place<'_>)
        ensures files { PutsFile place.entry empty_file self.old.files self.new.files }
        ensures failures { self.new.failures ≡ self.old.failures }
    {
        match place {
            Place::Global => self.global = File::new(self.alloc),
            Place::Directory(path) => remove_file(&mut self.directories, path),
            Place::Info => self.info = File::new(self.alloc),
        }
    }
}

/// Attribute files that are borrowed, as a look-up. They stay as they are while it is asked, so that who adds a file after some
/// questions knows beside which files it stands.
#[derive(Debug, Drop)]
pub struct BorrowedFiles<'f, 'r> {
    files: &'f AttributeFiles,
    room: &'r mut Room,
    failed: u64,
}

impl<'f, 'r> BorrowedFiles<'f, 'r> {
    /// Makes a look-up of files. The room grows where a question finds that it isn't made for them.
    pub fn new(files: &'f AttributeFiles, room: &'r mut Room) -> BorrowedFiles<'f, 'r>
        ensures files { result.files.now ≡ files.now }
        ensures failures { result.failed ≡ 0 }
    {
        BorrowedFiles {
            files,
            room,
            failed: 0,
        }
    }
}

/// The file that git has built in.
///
/// # Errors
/// Memory runs out.
fn built_in(alloc: Global) -> Result<File, AllocError>
    ensures { IfOk result (λ file. file_view file ≡ built_in) }
{
    let ReadFile { file, left_out: _ } = read_file(
        alloc,
        true,
        b"[attr]binary -diff -merge -text",
    )?;
    Ok(file)
}

/// Whether a file may define macros.
fn may_define(place: Place<'_>) -> bool
    ensures { result ≡ may_define place.entry }
{
    match place {
        Place::Directory(path) => path.is_empty(),
        Place::Global | Place::Info => true,
    }
}

/// Puts a file in place of the one that a directory has.
///
/// # Errors
/// Memory runs out, and the files are as before.
fn put_file(
    alloc: Global,
    directories: &mut BTreeMap<Vec<u8>, File>,
    path: &[u8],
    file: File,
) -> Result<(), AllocError>
    ensures ok { OnOk result (PutsIn path.now (file_view file)
        (directories_view directories.old) (directories_view directories.new)) }
    ensures err { OnErr result (directories_view directories.new ≡ directories_view directories.old) }
{
    directories.insert(Vec::from_slice(alloc, path)?, file)?;
    Ok(())
}

/// Removes the file of a directory.
fn remove_file(directories: &mut BTreeMap<Vec<u8>, File>, path: &[u8])
    ensures { PutsIn path.now empty_file
        (directories_view directories.old) (directories_view directories.new) }
{
    directories.remove(path);
}

/// The macros of the top's file.
fn top_macros(directories: &BTreeMap<Vec<u8>, File>) -> &[Macro]
    ensures { map macro_view result.now ≡ (file_in directories.now []).macros }
{
    let top: &[u8] = &[];
    match directories.get(top) {
        Some(file) => file.macros.as_slice(),
        None => &[],
    }
}

/// A question for a path, which is a directory's if it has a slash at its end.
fn question(alloc: Global, case: Case, path: &[u8], is_dir: bool) -> Asked<'_>
    ensures case { result.case ≡ case }
    ensures path { result.path.now ≡ without_last_slash path.now }
    ensures is_dir { result.is_dir ≡ (is_dir || ends_with_slash path.now) }
{
    let (path, ends) = strip_last_slash(path);
    Asked {
        alloc,
        case,
        path,
        is_dir: is_dir || ends,
    }
}

/// Puts what the files say of a path into a reset outcome. Git's own file has its macros.
///
/// # Errors
/// Memory runs out.
fn answer(
    asked: &Asked<'_>,
    info: &File,
    directories: &BTreeMap<Vec<u8>, File>,
    global: &File,
    own: &File,
    room: &mut Room,
    out: &mut Outcome,
) -> Result<(), AllocError>
    requires { file_view own.now ≡ built_in }
    ensures ok { OnOk result (out.new ≡ apply_assignments out.old
        (decided (asked_files asked.now (file_view info.now) (directories_view directories.now)
        (file_view global.now)) asked.now.path.now asked.now.is_dir)) }
    ensures names { names_of out.new ≡ names_of out.old }
{
    let macros = Macros {
        info: info.macros.as_slice(),
        top: top_macros(directories),
        global: global.macros.as_slice(),
        built_in: own.macros.as_slice(),
    };
    room.marks.forget(asked.alloc);
    ask_file(asked, &macros, &[], info, room, out)?;
    ask_directories(asked, &macros, directories, room, out)?;
    ask_file(asked, &macros, &[], global, room, out)
}

/// The rule among those of files that decides an attribute of a path. Git's own file has its macros.
///
/// # Errors
/// Memory runs out.
fn decider_among<'p>(
    asked: &Asked<'p>,
    info: &File,
    directories: &BTreeMap<Vec<u8>, File>,
    global: &File,
    own: &File,
    name: &[u8],
) -> Result<Option<RuleAt<'p>>, AllocError>
    requires { file_view own.now ≡ built_in }
    ensures { let files = asked_files asked.now (file_view info.now)
        (directories_view directories.now) (file_view global.now) in
        IfOk result (λ at. IsDecider (macros_of files)
        (sayings files asked.now.path.now asked.now.is_dir) name.now (option_map rule_at_view at)) }
{
    let macros = Macros {
        info: info.macros.as_slice(),
        top: top_macros(directories),
        global: global.macros.as_slice(),
        built_in: own.macros.as_slice(),
    };
    let mut room = Room::new(asked.alloc)?;
    let found = sayings(asked, info, directories, global, &mut room.scratch)?;
    decider(asked.alloc, &macros, &found, name, &mut room)
}

impl LookUp for AttributeFiles {
    type Fault = AllocError;

    ghost table = { λ held. table_of held.files };

    ghost failures = { λ held. held.failures };

    fn look_up(
        &mut self,
        path: BStr<'_>,
        _case: Case,
        is_dir: bool,
        out: &mut Outcome,
    ) -> Result<bool, AllocError> {
        let asked = question(self.alloc, self.case, path.as_bytes(), is_dir);
        match answer(
            &asked,
            &self.info,
            &self.directories,
            &self.global,
            &self.git_file,
            &mut self.room,
            out,
        ) {
            Ok(()) => Ok(true),
            Err(refused) => {
                self.failed = self.failed.saturating_add(1);
                Err(refused)
            }
        }
    }
}

impl LookUp for BorrowedFiles<'_, '_> {
    type Fault = AllocError;

    ghost table = { λ it. table_of it.files.now.files };

    ghost failures = { λ it. it.failed };

    fn look_up(
        &mut self,
        path: BStr<'_>,
        _case: Case,
        is_dir: bool,
        out: &mut Outcome,
    ) -> Result<bool, AllocError> {
        match self.files.ask(path, is_dir, self.room, out) {
            Ok(()) => Ok(true),
            Err(refused) => {
                self.failed = self.failed.saturating_add(1);
                Err(refused)
            }
        }
    }
}
