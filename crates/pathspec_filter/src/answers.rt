//! What a filter answers.
use pathspec_parts::writing::WriteError;
use std::alloc::AllocError;
use std::fmt::Debug;

/// How many records a filter read, how many of them it took, and how many directories it passed over.
#[derive(Clone, Copy, Debug, Default, PartialEq, Eq)]
pub struct Counts {
    pub records: u64,
    /// The records that it took and wrote.
    pub selected: u64,
    /// The directories that hold no selected path and that it came to: those below one of them aren't counted.
    pub skipped: u64,
}

/// Why a filter ended before the end of its input.
#[derive(Debug, Drop, PartialEq, Eq, thiserror::Error)]
#[error_bound(F: Debug)]
pub enum FilterError<F> {
    /// A read failed, or the reader gave 2^64 - 1 bytes, which no count of records is sure to hold.
    #[error("read failed")]
    Read,
    /// The record with this number, from 1, is the first that is empty, begins with `/` or holds `//`.
    #[error("record {0} is empty, begins with a slash or holds two in a row")]
    Line(u64),
    /// The look-up failed: its fault.
    #[error("look-up failed: {0:?}")]
    LookUp(F),
    /// Memory ran out.
    #[error("out of memory")]
    Memory,
    /// A write failed, or took no byte.
    #[error("write failed")]
    Write,
}

impl<F> From<AllocError> for FilterError<F> {
    ghost use Rattle.std.specs.Prelude.{◌≡◌};
    ghost use Rattle.pathspec_filter.specs.declared.answers.FilterError.TheVariants.{Memory};

    ghost from_gives = { λ _ error. error ≡ Memory };

    fn from(_: AllocError) -> FilterError<F> {
        FilterError::Memory
    }
}

impl<F> From<WriteError> for FilterError<F> {
    ghost use Rattle.std.specs.Prelude.{◌≡◌};
    ghost use Rattle.pathspec_filter.specs.declared.answers.FilterError.TheVariants.{Write};

    ghost from_gives = { λ _ error. error ≡ Write };

    fn from(_: WriteError) -> FilterError<F> {
        FilterError::Write
    }
}
