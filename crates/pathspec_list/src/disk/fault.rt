//! Why a path of a disk can't be looked at.
ghost use Rattle.std.specs.Prelude.{◌≡◌, ◌≢◌};

use std::alloc::{AllocError, AllocFailed};
use std::io::{self, ErrorKind};

/// The reason why a path of a disk can't be looked at.
#[derive(Debug, Drop)]
pub enum DiskFault {
    /// The path isn't UTF-8, and std opens no other.
    NotUtf8,
    /// Memory ran out.
    Memory,
    /// The system refuses.
    System(io::Error),
}

impl From<AllocError> for DiskFault {
    ghost use Rattle.pathspec_list.specs.declared.disk.fault.DiskFault.TheVariants.{Memory};

    ghost from_gives = { λ _ fault. fault ≡ Memory };

    fn from(_: AllocError) -> DiskFault {
        DiskFault::Memory
    }
}

impl<T: Drop> From<AllocFailed<T>> for DiskFault {
    ghost use Rattle.pathspec_list.specs.declared.disk.fault.DiskFault.TheVariants.{Memory};

    ghost from_gives = { λ _ fault. fault ≡ Memory };

    fn from(_: AllocFailed<T>) -> DiskFault {
        DiskFault::Memory
    }
}

impl From<io::Error> for DiskFault {
    ghost use Rattle.std.specs.IoError.{error_kind};
    ghost use Rattle.std.specs.declared.io.ErrorKind.TheVariants.{OutOfMemory};
    ghost use Rattle.pathspec_list.specs.declared.disk.fault.DiskFault.TheVariants.{Memory, System};

    ghost from_gives = { λ error fault. (error_kind error ≡ OutOfMemory → fault ≡ Memory)
        × (error_kind error ≢ OutOfMemory → fault ≡ System error) };

    fn from(error: io::Error) -> DiskFault {
        match error.kind() {
            ErrorKind::OutOfMemory => DiskFault::Memory,
            _ => DiskFault::System(error),
        }
    }
}
