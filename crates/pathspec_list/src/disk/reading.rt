//! How the names in a directory are read.
ghost use Rattle.std.specs.Prelude.{◌≡◌, ◌↔◌, ◌<◌, length, vec_capacity, is_ok, Ok, false, IfOk, IfErr, IsOkAnd, OnOk, OnErr, IfSome};
ghost use Rattle.std.specs.IoError.{error_kind};
ghost use Rattle.std.specs.declared.io.ErrorKind.TheVariants.{NotADirectory};

use std::alloc::AllocError;
use std::io::{self, ErrorKind, Read};

/// How many bytes a read of names takes at most. The system refuses one without the room for a name, so `read_to_end`, which reads
/// into what is left of a list, fails in a large directory.
pub(crate) const ROOM: usize = 32768;

/// Reads the names in a directory, if one was opened: each with the byte 0 at its end. Says whether something else stands there, or
/// what the system refuses.
///
/// # Errors
/// Memory ran out.
pub(crate) fn read_opened<D: Read + Drop>(
    opened: io::Result<D>,
    room: &mut [u8; ROOM],
    names: &mut Vec<u8>,
) -> Result<io::Result<bool>, AllocError>
    ensures names { IfOk result (λ read. OnOk read (IfOk opened (λ directory.
        IfSome (D.remaining directory) (λ left. names.new.items ≡ left)))) }
    ensures found { IfOk result (λ read. IfOk read (λ found. found ≡ is_ok opened)) }
    ensures other { IfErr opened (λ error.
        (result ≡ Ok (Ok false)) ↔ (error_kind error ≡ NotADirectory)) }
    ensures reason { IfErr opened (λ error. IfOk result (λ read. IfErr read (λ e. e ≡ error))) }
    ensures memory { OnErr result (IsOkAnd opened (λ directory.
        IfSome (D.remaining directory) (λ left. vec_capacity names.old < length left))) }
{
    match opened {
        Ok(mut directory) => {
            let read = read_names(&mut directory, room, names)?;
            Ok(read.map(|()| true))
        }
        Err(error) if error.kind() == ErrorKind::NotADirectory => Ok(Ok(false)),
        Err(error) => Ok(Err(error)),
    }
}

/// Reads the names in a directory, or says what the system refuses.
///
/// # Errors
/// Memory ran out.
fn read_names<D: Read>(
    directory: &mut D,
    room: &mut [u8; ROOM],
    names: &mut Vec<u8>,
) -> Result<io::Result<()>, AllocError>
    ensures names { IfOk result (λ read. OnOk read
        (IfSome (D.remaining directory.old) (λ left. names.new.items ≡ left))) }
    // Where the list has room for all names, memory can't run out.
    ensures memory { OnErr result
        (IfSome (D.remaining directory.old) (λ left. vec_capacity names.old < length left)) }
{
    names.clear();
    loop {
        let count = match directory.read(room.as_mut_slice()) {
            Ok(count) => count,
            Err(error) => return Ok(Err(error)),
        };
        if count == 0 {
            return Ok(Ok(()));
        }
        names.extend_from_slice(&room[..count])?;
    }
}
