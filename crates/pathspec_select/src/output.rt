//! The output for a listing, through a buffer.
ghost use Rattle.std.specs.Prelude.{◌++◌, OnOk, OnErr};
ghost use Rattle.std.specs.Option.{option_map};
ghost use Rattle.bstr.specs.BStr.{bstr_bytes};
ghost use Rattle.pathspec_select.specs.Listing.{mark_at, written_entries, written_of};
ghost use Rattle.pathspec_select.specs.Outlines.{IsPiece, with_piece};
ghost use Rattle.pathspec_parts.specs.Writing.{AppendsFront, AppendsUpTo};
ghost use Rattle.pathspec_select.specs.Program.{EndsOutput};

use crate::Refusal;
use crate::listing::{Listing, Outline, Piece};
use bstr::BStr;
use pathspec_parts::writing::{WriteError, write_buffered, write_whole};
use std::alloc::Global;
use std::io::Write;

/// The count of bytes that are kept back, so that few writes are made.
const ROOM: usize = 65536;

/// The empty piece of a listing.
const NO_PIECE: Piece = Piece { start: 0, end: 0 };

/// Writes the records of entries of a listing, each with the separator after it.
///
/// The call copies each byte of a record at most once, and none of records that follow one another and fill the buffer. It
/// takes a fixed amount of memory.
///
/// # Errors
/// [`Refusal::Memory`], and nothing is written; [`Refusal::Write`], where a beginning of the bytes is.
pub(crate) fn write_records<W: Write>(
    alloc: Global,
    writer: &mut W,
    listing: &Listing<'_>,
    entries: &[usize],
    separator: u8,
) -> Result<(), Refusal>
    ensures { EndsOutput (W.contents writer.old) (W.contents writer.new)
        (written_entries separator listing.now.marks entries.now) result }
{
    let outline = listing.outline();
    let mut buffer = Vec::with_capacity(alloc, ROOM)?;
    let mut piece = NO_PIECE;
    for index in 0..entries.len() {
        append_record(
            writer,
            &mut buffer,
            &mut piece,
            outline,
            entries[index],
            separator,
        )?;
    }
    write_buffered(writer, &mut buffer, outline.bytes_of(piece))?;
    write_whole(writer, buffer.as_slice())?;
    Ok(())
}

// In line, so that the piece stays in registers.
/// Appends the record of an entry, with the separator after it, to the output: the buffer, and the pending piece of the
/// listing behind it. A record that follows the piece in the listing extends it. Otherwise the piece goes to the buffer, and
/// the record starts a new one. With `*.md` and a listing of `a.md`, `b.md`, `c.c`, `d.md`, the first two records are one
/// piece, and `d.md` is the next.
///
/// # Errors
/// [`WriteError`]: a beginning of all these bytes is written.
#[inline(always)]
fn append_record<W: Write>(
    writer: &mut W,
    buffer: &mut Vec<u8>,
    piece: &mut Piece,
    outline: &Outline<'_>,
    entry: usize,
    separator: u8,
) -> Result<(), WriteError>
    requires piece { IsPiece outline.now.bytes piece.old }
    ensures piece { IsPiece outline.now.bytes piece.new }
    ensures written { OnOk result (AppendsUpTo (W.contents writer.old) (W.contents writer.new)
        (with_piece buffer.old.items outline.now.bytes piece.old
        ++ written_of separator (mark_at outline.now.marks entry))
        (with_piece buffer.new.items outline.now.bytes piece.new)) }
    ensures front { OnErr result (AppendsFront (W.contents writer.old) (W.contents writer.new)
        (with_piece buffer.old.items outline.now.bytes piece.old
        ++ written_of separator (mark_at outline.now.marks entry))) }
{
    let before = *piece;
    let Some(record) = outline.record_piece(entry, separator) else {
        *piece = NO_PIECE;
        write_buffered(writer, buffer, outline.bytes_of(before))?;
        return write_record(writer, buffer, outline.record(entry), separator);
    };
    if record.start == before.end {
        piece.end = record.end;
        return Ok(());
    }
    *piece = record;
    write_buffered(writer, buffer, outline.bytes_of(before))
}

/// Appends the text of a record, if there is one, and the separator after it to a buffer.
///
/// # Errors
/// [`WriteError`]: a beginning of all these bytes is written.
fn write_record<W: Write>(
    writer: &mut W,
    buffer: &mut Vec<u8>,
    text: Option<BStr<'_>>,
    separator: u8,
) -> Result<(), WriteError>
    ensures written { OnOk result (AppendsUpTo (W.contents writer.old) (W.contents writer.new)
        (buffer.old.items ++ written_of separator (option_map bstr_bytes text.entry))
        buffer.new.items) }
    ensures front { OnErr result (AppendsFront (W.contents writer.old) (W.contents writer.new)
        (buffer.old.items ++ written_of separator (option_map bstr_bytes text.entry))) }
{
    let Some(text) = text else {
        return Ok(());
    };
    write_buffered(writer, buffer, text.as_bytes())?;
    write_buffered(writer, buffer, &[separator])
}
