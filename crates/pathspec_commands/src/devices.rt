//! Readers and writers around those of a filter.
ghost use Rattle.std.specs.Prelude.{Some};
ghost use Rattle.std.specs.Option.{option_to_list};

use crate::quoted_records::QuotedRecords;
use std::io::{self, Error, ErrorKind, Read, Write};

/// How many first bytes of its input a filter remembers.
const FRONT: usize = 4096;

/// A reader that remembers its first bytes, and whether git quoted a record.
#[derive(Drop)]
pub(crate) struct FrontReader<'r, R> {
    reader: &'r mut R,
    front: [u8; FRONT],
    len: usize,
    /// None where no line feed ends a record, since git quotes none then.
    quoted: Option<QuotedRecords>,
}

impl<'r, R: Read> FrontReader<'r, R> {
    /// A reader of which nothing was read. Its records end with the separator.
    pub(crate) fn new(reader: &'r mut R, separator: u8) -> FrontReader<'r, R> {
        FrontReader {
            reader,
            front: [0; FRONT],
            len: 0,
            quoted: if separator == b'\n' {
                Some(QuotedRecords::new())
            } else {
                None
            },
        }
    }

    /// The first bytes that were read.
    pub(crate) fn front(&self) -> &[u8] {
        &self.front[..self.len.min(FRONT)]
    }

    /// Whether a record that was read stands in git's quotes.
    pub(crate) fn has_quoted_record(&self) -> bool {
        match &self.quoted {
            Some(records) => records.is_found(),
            None => false,
        }
    }
}

impl<R: Read> Read for FrontReader<'_, R> {
    ghost remaining = { λ f. R.remaining f.reader.now };

    fn read(&mut self, buf: &mut [u8]) -> io::Result<usize> {
        let count = self.reader.read(buf)?;
        let from = self.len.min(FRONT);
        let kept = count.min(FRONT - from);
        self.front[from..from + kept].copy_from_slice(&buf[..kept]);
        self.len = from + kept;
        if let Some(records) = &mut self.quoted {
            records.take(&buf[..count]);
        }
        Ok(count)
    }
}

/// A writer that takes one byte and refuses the others.
#[derive(Drop)]
pub(crate) struct FirstByte {
    pub(crate) byte: Option<u8>,
}

impl Write for FirstByte {
    ghost contents = { λ f. Some (option_to_list f.byte) };

    fn write(&mut self, buf: &[u8]) -> io::Result<usize> {
        let [byte, ..] = buf else {
            return Ok(0);
        };
        if self.byte.is_some() {
            return Err(Error::from(ErrorKind::Other));
        }
        self.byte = Some(*byte);
        Ok(1)
    }

    fn flush(&mut self) -> io::Result<()> {
        Ok(())
    }
}
