//! A listing in pieces of whole records.
use pathspec_filter::FilterError;
use std::alloc::{AllocError, Global};
use std::io::Read;

/// How many bytes a read takes at most.
const CHUNK: usize = 65536;

/// The records of a reader, so many at a time as a read brings.
#[derive(Drop)]
pub(crate) struct Pieces<'r, R> {
    reader: &'r mut R,
    separator: u8,
    /// What was read: whole records, and the front of one.
    bytes: Vec<u8>,
    /// How many bytes the whole records have.
    whole: usize,
}

impl<'r, R: Read> Pieces<'r, R> {
    /// The pieces of a reader of which nothing was read.
    pub(crate) fn new(alloc: Global, reader: &'r mut R, separator: u8) -> Pieces<'r, R> {
        Pieces {
            reader,
            separator,
            bytes: Vec::new(alloc),
            whole: 0,
        }
    }

    /// Reads until there is a whole record, and says whether there is one. The last one may lack its separator.
    ///
    /// # Errors
    /// A read failed, or memory ran out.
    pub(crate) fn fill(&mut self) -> Result<bool, FilterError<AllocError>> {
        let front = self.whole.min(self.bytes.len());
        self.bytes.drain(..front);
        self.whole = 0;
        for _ in 0..u64::MAX {
            let is_end = self.read()? == 0;
            let whole = if is_end {
                self.bytes.len()
            } else {
                self.behind_last()
            };
            if is_end || whole > 0 {
                self.whole = whole;
                return Ok(whole > 0);
            }
        }
        Err(FilterError::Read)
    }

    /// Reads once, and gives the count of bytes that it read.
    ///
    /// # Errors
    /// The read failed, or memory ran out.
    fn read(&mut self) -> Result<usize, FilterError<AllocError>> {
        let mut chunk = [0u8; CHUNK];
        let Ok(count) = self.reader.read(&mut chunk) else {
            return Err(FilterError::Read);
        };
        self.bytes.extend_from_slice(&chunk[..count])?;
        Ok(count)
    }

    /// The whole records that the last call of [`Pieces::fill`] found.
    pub(crate) fn whole(&self) -> &[u8] {
        &self.bytes[..self.whole.min(self.bytes.len())]
    }

    /// The place behind the last separator; 0 without one.
    fn behind_last(&self) -> usize {
        match memchr::memrchr(self.separator, &self.bytes) {
            Some(at) => at.saturating_add(1),
            None => 0,
        }
    }
}
