//! The program's commands and their options.
use crate::pages;
use crate::rows::{Row, arguments_of, flag, list, option, word, words};
use clap::Command;
use std::alloc::{AllocError, Global};

/// The specs among the words of a command.
fn specs() -> Row {
    words("specs", &["SPEC"], "Pathspecs, as git takes them")
}

/// The options that specs are read with.
fn spec_options() -> [Row; 7] {
    [
        list(
            "specs-from",
            &["FILE"],
            "Takes a spec from each line of a file",
        ),
        option(
            "prefix",
            &["DIR"],
            "The directory in which the specs are given",
        ),
        option(
            "root",
            &["DIR"],
            "Where the repository lies, for absolute paths",
        ),
        flag("icase", "ASCII case doesn't count").short_alias('i'),
        flag("glob", "Wildcards don't take slashes").without(&["noglob"]),
        flag("noglob", "Specs have no wildcards"),
        flag("literal", "Specs are paths, magic and all"),
    ]
}

/// The flag for a byte 0 behind each path.
fn null() -> Row {
    // Other programs call it `-0`.
    flag("null", "A byte 0 ends each path, and not a line feed")
        .short('z')
        .short_alias('0')
}

/// The options that say what a command answers, and how.
fn answers() -> [Row; 5] {
    [
        null(),
        flag("count", "Writes how many are selected").short('c'),
        flag("quiet", "Writes nothing; status 1 if none is selected").short('q'),
        flag("error-unmatch", "Status 1 if an include matches nothing"),
        flag("stats", "Writes counts to standard error"),
    ]
}

/// The options that give paths their attributes.
fn attributes() -> [Row; 4] {
    [
        // A list may begin with `-`, as `-text` does.
        list(
            "attr",
            &["PATH", "LIST"],
            "The attributes of a path: a=1 -b !c",
        )
        .with_hyphens(),
        list(
            "attr-from",
            &["FILE"],
            "The attributes that `git check-attr -z` printed",
        ),
        option(
            "attributes",
            &["DIR"],
            "Reads the attribute files of this directory",
        )
        .without(&["attr", "attr-from"]),
        flag(
            "global",
            "Reads your own file too, but no core.attributesFile",
        )
        .beside(&["attributes"]),
    ]
}

/// A command with the options of tables. Of an option that stands twice the last counts, as in git.
///
/// # Errors
/// Memory ran out.
fn part<'a>(
    alloc: Global,
    name: &'a str,
    about: &'a str,
    page: &'a str,
    tables: &[&[Row]],
) -> Result<Command<'a>, AllocError> {
    let arguments = arguments_of(alloc, tables)?;
    Command::new(alloc, name)
        .args_override_self(true)
        .about(about)
        .before_help(page)
        .args(arguments)
}

/// `pathspec filter`.
fn filter<'a>(alloc: Global) -> Result<Command<'a>, AllocError> {
    let own = [
        flag("verbatim", "Takes a leading `./` as part of a path"),
        flag("invert", "Writes the paths that aren't selected").short('v'),
    ];
    part(
        alloc,
        "filter",
        "Writes the paths of standard input that pathspecs select",
        pages::FILTER,
        &[&[specs()], &spec_options(), &attributes(), &answers(), &own],
    )
}

/// `pathspec list`.
fn list_files<'a>(alloc: Global) -> Result<Command<'a>, AllocError> {
    let directory = word(
        "directory",
        &["DIR"],
        "The directory; the current one if left out",
    );
    let own = [
        word(
            "change",
            &["PATH"],
            "Takes DIR from this directory, as git does",
        )
        .short('C'),
        flag("dirs", "Lists directories too, with a slash"),
        flag("nested", "Enters directories with a `.git` in them"),
        flag("unsorted", "Takes names as the system gives them"),
    ];
    part(
        alloc,
        "list",
        "Writes the files below a directory that pathspecs select",
        pages::LIST,
        &[
            &[directory, specs().last()],
            &spec_options(),
            &attributes(),
            &answers(),
            &own,
        ],
    )
}

/// `pathspec explain`.
fn explain<'a>(alloc: Global) -> Result<Command<'a>, AllocError> {
    let own = [
        list("path", &["PATH"], "A path; a slash ends a directory"),
        null(),
        flag("all", "Says of each spec why it matches or not"),
        flag("json", "Writes an object a line"),
    ];
    part(
        alloc,
        "explain",
        "Says why paths are selected or not",
        pages::EXPLAIN,
        &[&[specs()], &spec_options(), &attributes(), &own],
    )
}

/// `pathspec show`.
fn show<'a>(alloc: Global) -> Result<Command<'a>, AllocError> {
    part(
        alloc,
        "show",
        "Shows what pathspecs mean",
        pages::SHOW,
        &[&[specs().unless(&["specs-from"])], &spec_options()],
    )
}

/// The program with one more command.
///
/// # Errors
/// Memory ran out, for the command or for its place in the program.
fn with_part<'a>(
    program: Command<'a>,
    part: Result<Command<'a>, AllocError>,
) -> Result<Command<'a>, AllocError> {
    program.subcommand(part?)
}

/// The program's command line. `version` is the text of `--version`, behind the program's name.
///
/// # Errors
/// Memory ran out.
pub fn command<'a>(alloc: Global, version: &'a str) -> Result<Command<'a>, AllocError> {
    let program = Command::new(alloc, "pathspec")
        .version(version)
        .about("git's pathspecs, over lists of paths and directories")
        .before_help(pages::PROGRAM)
        .subcommand_required(true)
        .disable_help_subcommand(true);
    let program = with_part(program, filter(alloc))?;
    let program = with_part(program, list_files(alloc))?;
    let program = with_part(program, explain(alloc))?;
    with_part(program, show(alloc))
}
