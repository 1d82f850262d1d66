//! Writing to the end, through a buffer. A call that is interrupted has failed, and isn't made again.
ghost use Rattle.std.specs.Prelude.{◌++◌, OnOk, OnErr};
ghost use Rattle.std.specs.Io.KnownBytes.{Appends};
ghost use Rattle.pathspec_parts.specs.Writing.{AppendsFront, AppendsUpTo};

use std::io::Write;
use thiserror::Error;

/// The error of a write that failed, or took no byte.
#[derive(Clone, Copy, Debug, PartialEq, Eq, Error)]
#[error("write failed")]
pub struct WriteError;

/// Writes all bytes.
///
/// # Errors
/// [`WriteError`], and a beginning of the bytes is written.
pub fn write_whole<W: Write>(writer: &mut W, bytes: &[u8]) -> Result<(), WriteError>
    ensures whole { OnOk result
        (Appends (W.contents writer.old) (W.contents writer.new) bytes.now) }
    ensures front { OnErr result
        (AppendsFront (W.contents writer.old) (W.contents writer.new) bytes.now) }
{
    let mut rest = bytes;
    while !rest.is_empty() {
        match writer.write(rest) {
            Ok(0) => return Err(WriteError),
            Ok(n) => rest = &rest[n..],
            Err(_) => return Err(WriteError),
        }
    }
    Ok(())
}

/// Appends bytes to a buffer, or writes both where they leave no room.
///
/// # Errors
/// [`WriteError`]: a beginning of all these bytes is written.
pub fn write_buffered<W: Write>(
    writer: &mut W,
    buffer: &mut Vec<u8>,
    bytes: &[u8],
) -> Result<(), WriteError>
    ensures written { OnOk result (AppendsUpTo (W.contents writer.old) (W.contents writer.new)
        (buffer.old.items ++ bytes.now) buffer.new.items) }
    ensures front { OnErr result (AppendsFront (W.contents writer.old) (W.contents writer.new)
        (buffer.old.items ++ bytes.now)) }
{
    if bytes.len() <= buffer.capacity() - buffer.len() {
        let _ = buffer.extend_from_slice(bytes);
        return Ok(());
    }
    write_whole(writer, buffer.as_slice())?;
    buffer.clear();
    write_whole(writer, bytes)
}
