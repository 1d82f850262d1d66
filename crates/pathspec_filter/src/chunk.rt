//! Bytes that were read and not used yet.
ghost use Rattle.std.specs.Prelude.{◌≡◌, ◌+◌, ◌-◌, ◌<◌, ◌≤◌, [], ◌∷◌, ◌++◌, length, take, drop, vec_len, IfOk, IfSome, OnOk};
ghost use Rattle.pathspec_filter.specs.Chunks.{HasRead};

use std::alloc::{AllocError, Global};
use std::io::Read;
use std::marker::Model;

/// How many bytes there is room for, where no record is longer.
const ROOM: usize = 262144;

/// Bytes that were read and not used yet. The room for them is made once, and doubles only where one record fills it.
#[derive(Drop)]
pub(crate) struct Chunk {
    buffer: Vec<u8>,
    /// How many first bytes of the buffer they are.
    filled: usize,
}

impl Model for Chunk {
    ghost use Rattle.std.specs.Prelude.{List, ℕ, ◌<◌, ◌≤◌, take, vec_len};

    ghost Value = { List ℕ };

    ghost view = { λ c. take c.filled c.buffer.items };

    ghost invariant = { λ c. (c.filled ≤ vec_len c.buffer) × (0 < vec_len c.buffer) };
}

impl Chunk {
    /// None, and room for them.
    ///
    /// # Errors
    /// Memory runs out.
    pub(crate) fn new(alloc: Global) -> Result<Chunk, AllocError>
        ensures { IfOk result (λ chunk. chunk ≡ []) }
    {
        let mut buffer = Vec::new(alloc);
        buffer.resize(ROOM, 0)?;
        Ok(Chunk { buffer, filled: 0 })
    }

    /// The bytes.
    pub(crate) fn bytes(&self) -> &[u8]
        ensures { result.now ≡ self.now }
    {
        &self.buffer[..self.filled]
    }

    /// The last bytes, so many.
    pub(crate) fn last(&self, count: usize) -> &[u8]
        requires { count ≤ length self.now }
        ensures { result.now ≡ drop (length self.now - count) self.now }
    {
        let bytes = self.bytes();
        &bytes[bytes.len() - count..]
    }

    /// Reads once, and says how many bytes more there are, none only at the end; None where the read fails.
    ///
    /// # Errors
    /// Memory runs out, and nothing is read.
    pub(crate) fn fill<R: Read>(&mut self, reader: &mut R) -> Result<Option<usize>, AllocError>
        ensures { IfOk result (λ read. IfSome read
            (HasRead (R.remaining reader.old) (R.remaining reader.new) self.old self.new)) }
    {
        make_room(&mut self.buffer, self.filled)?;
        match read_behind(&mut self.buffer, self.filled, reader) {
            Some(count) => {
                self.filled += count;
                Ok(Some(count))
            }
            None => Ok(None),
        }
    }

    /// Adds a byte.
    ///
    /// # Errors
    /// Memory runs out.
    pub(crate) fn push(&mut self, byte: u8) -> Result<(), AllocError>
        ensures { OnOk result (self.new ≡ self.old ++ byte ∷ []) }
    {
        make_room(&mut self.buffer, self.filled)?;
        self.buffer[self.filled] = byte;
        self.filled += 1;
        Ok(())
    }

    /// Drops the first bytes, so many.
    pub(crate) fn drop_front(&mut self, count: usize)
        requires { count ≤ length self.old }
        ensures { self.new ≡ drop count self.old }
    {
        self.buffer.copy_within(count..self.filled, 0);
        self.filled -= count;
    }
}

/// Doubles a buffer that is full.
///
/// # Errors
/// Memory runs out. The buffer is then as it was.
fn make_room(buffer: &mut Vec<u8>, filled: usize) -> Result<(), AllocError>
    requires inside { filled ≤ vec_len buffer.old }
    requires some { 0 < vec_len buffer.old }
    ensures room { OnOk result (filled < vec_len buffer.new) }
    ensures inside { filled ≤ vec_len buffer.new }
    ensures some { 0 < vec_len buffer.new }
    ensures front { take filled buffer.new.items ≡ take filled buffer.old.items }
{
    if filled < buffer.len() {
        return Ok(());
    }
    let Some(wanted) = buffer.len().checked_mul(2) else {
        return Err(AllocError);
    };
    buffer.resize(wanted, 0)
}

/// Reads once into a buffer, behind so many first bytes; None where the read fails.
fn read_behind<R: Read>(buffer: &mut [u8], filled: usize, reader: &mut R) -> Option<usize>
    requires { filled < length buffer.old }
    ensures read { IfSome result (λ count. HasRead (R.remaining reader.old) (R.remaining reader.new)
        (take filled buffer.old) (take (filled + count) buffer.new) count) }
    ensures inside { IfSome result (λ count. filled + count ≤ length buffer.old) }
    ensures front { take filled buffer.new ≡ take filled buffer.old }
{
    match reader.read(&mut buffer[filled..]) {
        Ok(count) => Some(count),
        Err(_) => None,
    }
}
