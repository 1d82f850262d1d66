//! Why a command ends before its work is done.
use gix_pathspec::Error;
use std::alloc::{AllocError, AllocFailed};

/// Why a command ends before its work is done.
#[derive(Debug, Drop)]
pub enum Failure {
    /// A fault of what it was given, as lines for standard error, each with its line feed.
    Told(String),
    /// Memory ran out.
    Memory,
    /// A write failed.
    Output,
}

impl From<AllocError> for Failure {
    fn from(_: AllocError) -> Failure {
        Failure::Memory
    }
}

impl From<Error> for Failure {
    // Where specs that a search holds are read again, nothing but memory can be at fault.
    fn from(_: Error) -> Failure {
        Failure::Memory
    }
}

impl<T: Drop> From<AllocFailed<T>> for Failure {
    fn from(_: AllocFailed<T>) -> Failure {
        Failure::Memory
    }
}
