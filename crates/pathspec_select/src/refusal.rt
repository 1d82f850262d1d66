//! The reasons why the program ends without having done all.
ghost use Rattle.std.specs.Prelude.{◌≡◌};
ghost use Rattle.pathspec_select.specs.Refusals.{exit_status};

use gix_pathspec::Error;
use gix_pathspec::search::BuildError;
use std::alloc::AllocError;

/// The reason why the program ends without having done all. Its text is the line for standard error.
#[derive(Debug, Drop, PartialEq, Eq, thiserror::Error)]
pub enum Refusal {
    /// An option is unknown or lacks an argument, the prefix isn't clean, or a list of attributes can't be read. Or specs
    /// stand in the words beside the option `--specs-first`.
    #[error("usage: pathspec-select [-z] [--prefix P] [--root R] [--attr PATH LIST]... [--specs-first NAME] [--] [SPEC...]")]
    Usage,
    /// The environment is at fault: a variable is no word of truth, or globs are both asked for and not.
    #[error("environment: {}", .0.kind())]
    Environment(Error),
    /// A spec is at fault; specs are numbered from 0, those of the input by their lines.
    #[error("spec {}: {}", .0, .1.kind())]
    Spec(usize, Error),
    /// A read failed.
    #[error("read")]
    Read,
    /// Specs are to stand first in the input, and no line `--` ends them.
    #[error("specs")]
    Specs,
    /// A record is empty, begins with `/` or holds `//`; records are numbered from 1.
    #[error("line {0}")]
    Line(usize),
    /// A write failed, or took no byte.
    #[error("write")]
    Write,
    /// Memory ran out.
    #[error("memory")]
    Memory,
}

impl Refusal {
    ghost use Rattle.pathspec_select.specs.Refusals.{status_of, RefusesEnvironment, RefusesError, RefusesBuild};

    /// The refusal for an error of the environment.
    pub(crate) fn of_environment(error: Error) -> Refusal
        ensures { RefusesEnvironment error result }
    {
        match error {
            Error::Memory => Refusal::Memory,
            error => Refusal::Environment(error),
        }
    }

    /// The refusal for an error of the spec with a number.
    pub(crate) fn of_spec(number: usize, error: Error) -> Refusal
        ensures { RefusesError number error result }
    {
        match error {
            Error::Memory => Refusal::Memory,
            error => Refusal::Spec(number, error),
        }
    }

    /// The refusal for an error of a search that is built.
    pub(crate) fn of_build(error: BuildError) -> Refusal
        ensures { RefusesBuild error result }
    {
        match error {
            BuildError::Spec(number, error) => Refusal::Spec(number, error),
            BuildError::Memory => Refusal::Memory,
        }
    }

    /// The exit status, from 2 to 6.
    pub fn status(&self) -> u8
        ensures { result ≡ status_of self.now }
    {
        match self {
            Refusal::Usage => 2,
            Refusal::Environment(_) | Refusal::Spec(..) => 3,
            Refusal::Specs | Refusal::Line(_) => 4,
            Refusal::Read | Refusal::Write => 5,
            Refusal::Memory => 6,
        }
    }
}

/// The exit status of a run: 0 where it did all, else its refusal's.
pub fn exit_status(ended: &Result<(), Refusal>) -> u8
    ensures { result ≡ exit_status ended.now }
{
    match ended {
        Ok(()) => 0,
        Err(refusal) => refusal.status(),
    }
}

impl From<AllocError> for Refusal {
    ghost use Rattle.pathspec_select.specs.declared.refusal.Refusal.TheVariants.{Memory};

    ghost from_gives = { λ _ refusal. refusal ≡ Memory };

    fn from(_: AllocError) -> Refusal {
        Refusal::Memory
    }
}
