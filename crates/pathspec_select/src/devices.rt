//! Reading to the end. A call that is interrupted has failed, and isn't made again.
ghost use Rattle.std.specs.Prelude.{◌≡◌, IfOk, IfErr};
ghost use Rattle.pathspec_select.specs.Refusals.{IsReadOrMemory};
ghost use Rattle.pathspec_select.specs.Program.{IsAllOf};

use crate::Refusal;
use pathspec_parts::writing::WriteError;
use std::alloc::Global;
use std::io::Read;

const CHUNK: usize = 65536;

impl From<WriteError> for Refusal {
    ghost use Rattle.pathspec_select.specs.declared.refusal.Refusal.TheVariants.{Write};

    ghost from_gives = { λ _ refusal. refusal ≡ Write };

    fn from(_: WriteError) -> Refusal {
        Refusal::Write
    }
}

/// Reads all bytes that a reader has left. The call takes at most two and a half times as much memory as it reads.
///
/// # Errors
/// [`Refusal::Read`] where a read fails, [`Refusal::Memory`].
pub(crate) fn read_to_end<R: Read>(alloc: Global, reader: &mut R) -> Result<Vec<u8>, Refusal>
    ensures all { IfOk result (λ bytes. IsAllOf (R.remaining reader.old) bytes.items) }
    ensures cause { IfErr result IsReadOrMemory }
{
    let mut bytes = Vec::new(alloc);
    let mut chunk = [0u8; CHUNK];
    loop {
        let n = match reader.read(&mut chunk) {
            Ok(n) => n,
            Err(_) => return Err(Refusal::Read),
        };
        if n == 0 {
            return Ok(bytes);
        }
        bytes.extend_from_slice(&chunk[..n])?;
    }
}
