//! What the words of a command line ask for.
use crate::commands::command;
use crate::tips::with_tip;
use clap::{ArgMatches, Error};
use std::alloc::{AllocError, Global};

/// How specs are read where their texts don't say it.
#[derive(Clone, Copy, Debug, Default, PartialEq, Eq)]
pub struct Modes {
    pub icase: bool,
    pub glob: bool,
    pub noglob: bool,
    pub literal: bool,
}

/// The specs of a command, and what they are read with.
#[derive(Debug, Drop)]
pub struct SpecOptions<'a> {
    /// The specs among the words.
    pub words: Vec<&'a str>,
    /// The files of specs, in their order.
    pub files: Vec<&'a str>,
    pub prefix: &'a str,
    pub root: &'a str,
    pub modes: Modes,
    /// Paths, each with the list of its attributes.
    pub attributes: Vec<(&'a str, &'a str)>,
    pub attribute_files: Vec<&'a str>,
    /// The directory whose attribute files count.
    pub attribute_directory: Option<&'a str>,
    /// Whether the user's own attribute file counts, too.
    pub global_attributes: bool,
}

impl SpecOptions<'_> {
    /// Whether some path is given attributes.
    pub fn has_attributes(&self) -> bool {
        let has_rows = !self.attributes.is_empty() || !self.attribute_files.is_empty();
        has_rows || self.attribute_directory.is_some()
    }
}

/// What `pathspec filter` is asked for.
#[derive(Clone, Copy, Debug, Default, PartialEq, Eq)]
pub struct FilterOptions {
    pub null: bool,
    pub verbatim: bool,
    pub invert: bool,
    pub count: bool,
    pub quiet: bool,
    pub error_unmatch: bool,
    pub stats: bool,
}

/// What `pathspec explain` is asked for.
#[derive(Debug, Drop)]
pub struct ExplainOptions<'a> {
    pub paths: Vec<&'a str>,
    pub null: bool,
    pub all: bool,
    pub json: bool,
}

/// What `pathspec list` is asked for.
#[derive(Clone, Copy, Debug, Default, PartialEq, Eq)]
pub struct ListOptions<'a> {
    /// The directory from which the other one is taken. Empty, the current one.
    pub change: &'a str,
    /// The directory that is walked over. Empty, the one from which it would be taken.
    pub directory: &'a str,
    pub null: bool,
    /// Whether directories are listed too.
    pub dirs: bool,
    /// Whether nested repositories are entered.
    pub nested: bool,
    pub unsorted: bool,
    pub count: bool,
    pub quiet: bool,
    pub error_unmatch: bool,
    pub stats: bool,
}

/// A command.
#[derive(Debug, Drop)]
pub enum Task<'a> {
    Filter(FilterOptions),
    List(ListOptions<'a>),
    Explain(ExplainOptions<'a>),
    Show,
}

/// What a command line asks for.
#[derive(Debug, Drop)]
pub struct Options<'a> {
    pub specs: SpecOptions<'a>,
    pub task: Task<'a>,
}

impl<'a> Options<'a> {
    /// Reads a command line, of which the first word is the program's name.
    ///
    /// # Errors
    /// A mistake in the words, or a request for help or the version. It prints itself, and has its exit status.
    pub fn from_words(
        alloc: Global,
        words: &'a [&'a str],
        version: &'a str,
    ) -> Result<Options<'a>, Error> {
        match command(alloc, version)?.try_get_matches_from(words) {
            Ok(matches) => Ok(Options::of_matches(alloc, &matches)?),
            Err(error) => Err(with_tip(alloc, error, version)?),
        }
    }

    /// What the matches of a command line ask for.
    fn of_matches(alloc: Global, matches: &ArgMatches<'a>) -> Result<Options<'a>, AllocError> {
        match matches.subcommand() {
            Some((name, inner)) => Options::of_command(alloc, name, inner),
            None => Options::of_command(alloc, "", matches),
        }
    }

    /// What the matches of the command with a name ask for.
    fn of_command(
        alloc: Global,
        name: &str,
        inner: &ArgMatches<'a>,
    ) -> Result<Options<'a>, AllocError> {
        Ok(Options {
            specs: SpecOptions::of_matches(alloc, inner)?,
            task: Task::of_matches(alloc, name, inner)?,
        })
    }
}

impl<'a> Task<'a> {
    /// The command with a name.
    fn of_matches(
        alloc: Global,
        name: &str,
        inner: &ArgMatches<'a>,
    ) -> Result<Task<'a>, AllocError> {
        Ok(match name {
            "filter" => Task::Filter(FilterOptions::of_matches(inner)),
            "list" => Task::List(ListOptions::of_matches(inner)),
            "explain" => Task::Explain(ExplainOptions::of_matches(alloc, inner)?),
            _ => Task::Show,
        })
    }
}

impl FilterOptions {
    fn of_matches(inner: &ArgMatches<'_>) -> FilterOptions {
        FilterOptions {
            null: inner.get_flag("null"),
            verbatim: inner.get_flag("verbatim"),
            invert: inner.get_flag("invert"),
            count: inner.get_flag("count"),
            quiet: inner.get_flag("quiet"),
            error_unmatch: inner.get_flag("error-unmatch"),
            stats: inner.get_flag("stats"),
        }
    }
}

impl<'a> ListOptions<'a> {
    fn of_matches(inner: &ArgMatches<'a>) -> ListOptions<'a> {
        ListOptions {
            change: inner.get_str("change").unwrap_or(""),
            directory: inner.get_str("directory").unwrap_or(""),
            null: inner.get_flag("null"),
            dirs: inner.get_flag("dirs"),
            nested: inner.get_flag("nested"),
            unsorted: inner.get_flag("unsorted"),
            count: inner.get_flag("count"),
            quiet: inner.get_flag("quiet"),
            error_unmatch: inner.get_flag("error-unmatch"),
            stats: inner.get_flag("stats"),
        }
    }
}

impl<'a> ExplainOptions<'a> {
    fn of_matches(alloc: Global, inner: &ArgMatches<'a>) -> Result<ExplainOptions<'a>, AllocError> {
        Ok(ExplainOptions {
            paths: texts(alloc, inner, "path")?,
            null: inner.get_flag("null"),
            all: inner.get_flag("all"),
            json: inner.get_flag("json"),
        })
    }
}

impl<'a> SpecOptions<'a> {
    fn of_matches(alloc: Global, inner: &ArgMatches<'a>) -> Result<SpecOptions<'a>, AllocError> {
        Ok(SpecOptions {
            words: texts(alloc, inner, "specs")?,
            files: texts(alloc, inner, "specs-from")?,
            prefix: inner.get_str("prefix").unwrap_or(""),
            root: inner.get_str("root").unwrap_or(""),
            modes: Modes::of_matches(inner),
            attributes: pairs(alloc, inner, "attr")?,
            attribute_files: texts(alloc, inner, "attr-from")?,
            attribute_directory: inner.get_str("attributes"),
            global_attributes: inner.get_flag("global"),
        })
    }
}

impl Modes {
    fn of_matches(inner: &ArgMatches<'_>) -> Modes {
        Modes {
            icase: inner.get_flag("icase"),
            glob: inner.get_flag("glob"),
            noglob: inner.get_flag("noglob"),
            literal: inner.get_flag("literal"),
        }
    }
}

/// The values of an option, in their order.
fn texts<'a>(alloc: Global, inner: &ArgMatches<'a>, id: &str) -> Result<Vec<&'a str>, AllocError> {
    match inner.get_strs(id) {
        Some(values) => Vec::from_slice(alloc, values),
        None => Ok(Vec::new(alloc)),
    }
}

/// The values of an option that takes two at a time.
fn pairs<'a>(
    alloc: Global,
    inner: &ArgMatches<'a>,
    id: &str,
) -> Result<Vec<(&'a str, &'a str)>, AllocError> {
    let mut pairs = Vec::new(alloc);
    for values in inner.get_strs(id).unwrap_or(&[]).chunks(2) {
        if let [first, second] = values {
            pairs.push((*first, *second))?;
        }
    }
    Ok(pairs)
}
