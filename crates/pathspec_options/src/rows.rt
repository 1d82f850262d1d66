//! Options as rows of tables, and the arguments that are made of them.
use clap::{Arg, ArgAction};
use std::alloc::{AllocError, Global};

/// An option of a command, as plain data: to make clap's `Arg` of it takes memory, and may fail.
#[derive(Clone, Copy)]
pub(crate) struct Row {
    /// The long name, if it has one, and the name by which its values are read.
    name: &'static str,
    has_long_name: bool,
    short_name: Option<char>,
    /// Another short name, which help leaves out.
    short_alias: Option<char>,
    action: ArgAction,
    /// What help calls the values of one use.
    values: &'static [&'static str],
    help: &'static str,
    takes_hyphens: bool,
    takes_all_words: bool,
    is_last: bool,
    conflicts: &'static [&'static str],
    needs: &'static [&'static str],
    /// The options of which one has to stand where this one doesn't. Empty, it may be left out.
    substitutes: &'static [&'static str],
}

/// A flag.
pub(crate) fn flag(name: &'static str, help: &'static str) -> Row {
    Row {
        name,
        has_long_name: true,
        short_name: None,
        short_alias: None,
        action: ArgAction::SetTrue,
        values: &[],
        help,
        takes_hyphens: false,
        takes_all_words: false,
        is_last: false,
        conflicts: &[],
        needs: &[],
        substitutes: &[],
    }
}

/// An option with these values. A value that begins with `-` stands behind `=`.
pub(crate) fn option(
    name: &'static str,
    values: &'static [&'static str],
    help: &'static str,
) -> Row {
    Row {
        action: ArgAction::Set,
        values,
        ..flag(name, help)
    }
}

/// An option with these values that may be used more than once.
pub(crate) fn list(name: &'static str, values: &'static [&'static str], help: &'static str) -> Row {
    Row {
        action: ArgAction::Append,
        ..option(name, values, help)
    }
}

/// A value that has no long name before it.
pub(crate) fn word(name: &'static str, values: &'static [&'static str], help: &'static str) -> Row {
    Row {
        has_long_name: false,
        ..option(name, values, help)
    }
}

/// The words of a command that belong to no option, any number of them.
pub(crate) fn words(
    name: &'static str,
    values: &'static [&'static str],
    help: &'static str,
) -> Row {
    Row {
        action: ArgAction::Append,
        takes_all_words: true,
        ..word(name, values, help)
    }
}

impl Row {
    /// The option with a short name.
    pub(crate) fn short(self, name: char) -> Row {
        Row {
            short_name: Some(name),
            ..self
        }
    }

    /// The option with another short name, which help leaves out.
    pub(crate) fn short_alias(self, name: char) -> Row {
        Row {
            short_alias: Some(name),
            ..self
        }
    }

    /// The option with values that may begin with `-`.
    pub(crate) fn with_hyphens(self) -> Row {
        Row {
            takes_hyphens: true,
            ..self
        }
    }

    /// The words behind `--`.
    pub(crate) fn last(self) -> Row {
        Row {
            is_last: true,
            ..self
        }
    }

    /// The option that can't stand beside these.
    pub(crate) fn without(self, names: &'static [&'static str]) -> Row {
        Row {
            conflicts: names,
            ..self
        }
    }

    /// The option that can't stand without these.
    pub(crate) fn beside(self, names: &'static [&'static str]) -> Row {
        Row {
            needs: names,
            ..self
        }
    }

    /// The option that may be left out only where one of these stands.
    pub(crate) fn unless(self, names: &'static [&'static str]) -> Row {
        Row {
            substitutes: names,
            ..self
        }
    }

    /// The argument that the row describes.
    fn argument<'a>(self, alloc: Global) -> Result<Arg<'a>, AllocError> {
        let argument = Arg::new(alloc, self.name)
            .action(self.action)
            .value_names(self.values)
            .help(self.help)
            .allow_hyphen_values(self.takes_hyphens)
            .last(self.is_last);
        self.with_names(argument)?
            .conflicts_with_all(self.conflicts)?
            .required_unless_present_any(self.substitutes)?
            .requires_all(self.needs)
    }

    /// The argument with the names that stand before its values. Words have none, and may be many.
    fn with_names<'a>(self, argument: Arg<'a>) -> Result<Arg<'a>, AllocError> {
        if self.takes_all_words {
            return Ok(argument.num_args(0..));
        }
        let argument = match self.short_name {
            Some(name) => argument.short(name),
            None => argument,
        };
        let argument = if self.has_long_name {
            argument.long(self.name)
        } else {
            argument
        };
        match self.short_alias {
            Some(name) => argument.short_alias(name),
            None => Ok(argument),
        }
    }
}

/// The arguments of tables, in their order.
///
/// # Errors
/// Memory ran out.
pub(crate) fn arguments_of<'a>(
    alloc: Global,
    tables: &[&[Row]],
) -> Result<Vec<Arg<'a>>, AllocError> {
    let mut arguments = Vec::new(alloc);
    for table in tables {
        add_arguments(alloc, &mut arguments, table)?;
    }
    Ok(arguments)
}

/// Adds the arguments of a table.
///
/// # Errors
/// Memory ran out.
fn add_arguments<'a>(
    alloc: Global,
    arguments: &mut Vec<Arg<'a>>,
    table: &[Row],
) -> Result<(), AllocError> {
    for row in table {
        arguments.push(row.argument(alloc)?)?;
    }
    Ok(())
}
