//! The long text of a pathspec, which reads back as the same pathspec.
ghost use Rattle.std.specs.Prelude.{◌≡◌, ◌∷◌, [], ◌==◌, length, map, nat_lt, if◌then◌else◌, IsFalse, IfOk, IfErr};
ghost use Rattle.std.specs.Str.{IsUtf8};
ghost use Rattle.bstr.specs.Owned.{bstring_bytes};
ghost use Rattle.pathspec_parts.specs.Bytes.{comma, space, is_empty};
ghost use Rattle.pathspec_parts.specs.AttributeStates.{assignment_view};
ghost use Rattle.pathspec_pattern.specs.Errors.{IsMemory};
ghost use Rattle.pathspec_pattern.specs.Signatures.{signature_bits};
ghost use Rattle.pathspec_pattern.specs.Reading.{Reads, no_defaults};
ghost use Rattle.pathspec_pattern.specs.LongText.{long_text, opening, bit_text, mode_text, prefix_text, number_text, attributes_text, list_text, assignment_text, with_escapes, printed_text, AddsPieces, AddsBytes};
ghost use Rattle.pathspec_pattern.specs.NormalForm.{NormalFormKeepsMagic};
ghost use Rattle.pathspec_pattern.specs.RoundTrips.{IsExpressiblePattern, RoundTripIsExact, LongTextIsInjective, ParsedIsExpressible, ParsedRoundTrips, NormalFormIsExpressible, NormalFormRoundTrips};

use crate::{Error, MagicSignature, Pattern, SearchMode};
use bitflags::Flags;
use bstr::{BStr, BString};
use pathspec_parts::attributes::{Assignment, State};
use std::alloc::AllocError;
use std::fmt;

impl Pattern {
    ghost use Rattle.pathspec_pattern.specs.Patterns.{pattern_spec};

    /// The pattern as a text of long magic: `:` if it is nil, and else `:(`, keywords, `)`, the path, and `/` if a directory
    /// is wanted. The keywords are `top`, `exclude`, `icase`, `literal` or `glob`, `prefix:` with the length of a prefix
    /// directory, and `attr:` with the attributes. Commas stand between them, and the attributes' own are escaped. The text of
    /// `:(icase)B`, normalised under `a`, is `:(icase,prefix:1)a/B`.
    ///
    /// Further bits of the signature aren't written. Neither are the bits and the attributes of a nil pattern. The text takes
    /// as much memory as it is long.
    ///
    /// # Errors
    /// [`Error::Memory`] alone.
    pub fn to_bstring(&self) -> Result<BString, Error>
        ensures text { IfOk result (λ text.
            bstring_bytes text ≡ long_text (pattern_spec self.now)) }
        ensures err { IfErr result IsMemory }
        ensures round_trip { IsExpressiblePattern (pattern_spec self.now)
            → IfOk result (λ text. Reads no_defaults (bstring_bytes text) (pattern_spec self.now)) }
        // Text that is UTF-8 is printed as it is.
        ensures printed { IfOk result (λ text. IsUtf8 (bstring_bytes text)
            → printed_text (pattern_spec self.now) ≡ bstring_bytes text) }
        // Only expressible specs are read back, and their texts tell them apart; each spec that a text says is expressible.
        ensures laws { RoundTripIsExact × LongTextIsInjective
            × ParsedIsExpressible × ParsedRoundTrips }
        // Normal forms of specs that texts say are expressible, too, under any prefix and root, unless they are nil.
        ensures normal { NormalFormKeepsMagic × NormalFormIsExpressible × NormalFormRoundTrips }
    {
        Ok(BString::new(self.long_text()?))
    }

    /// The bytes of the long text.
    #[tactic(auto, unfolding(crate::specs::LongText::long_text))]
    fn long_text(&self) -> Result<Vec<u8>, AllocError>
        ensures { IfOk result (λ text. text.items ≡ long_text (pattern_spec self.now)) }
    {
        if self.nil {
            return Vec::from_slice(*self.path.allocator(), b":");
        }
        let mut text = self.opening()?;
        text.push(b')')?;
        text.extend_from_slice(self.path.as_slice())?;
        if self.signature.contains(MagicSignature::MUST_BE_DIR) {
            text.push(b'/')?;
        }
        Ok(text)
    }

    /// `:(` and the keywords.
    fn opening(&self) -> Result<Vec<u8>, AllocError>
        ensures { IfOk result (λ text. text.items ≡ opening (pattern_spec self.now)) }
    {
        let mut text = Vec::from_slice(*self.path.allocator(), b":(")?;
        self.write_bit(&mut text, MagicSignature::TOP, b"top")?;
        self.write_bit(&mut text, MagicSignature::EXCLUDE, b"exclude")?;
        self.write_bit(&mut text, MagicSignature::ICASE, b"icase")?;
        write_mode(&mut text, self.search_mode)?;
        write_prefix(&mut text, self.prefix_length)?;
        write_attributes(&mut text, self.attributes.as_slice())?;
        Ok(text)
    }

    /// Writes the keyword of a bit, if the signature has it.
    fn write_bit(
        &self,
        text: &mut Vec<u8>,
        flag: MagicSignature,
        piece: &[u8],
    ) -> Result<(), AllocError>
        requires { IsFalse (is_empty piece.now) }
        ensures { AddsPieces text.old.items text.new.items
            (bit_text (signature_bits flag) (pattern_spec self.now).signature piece.now) result }
    {
        if !self.signature.contains(flag) {
            return Ok(());
        }
        write_piece(text, piece)
    }
}

/// Writes the keyword of a mode, if it has one.
fn write_mode(text: &mut Vec<u8>, mode: SearchMode) -> Result<(), AllocError>
    ensures { AddsPieces text.old.items text.new.items (mode_text mode) result }
{
    match mode {
        SearchMode::ShellGlob => Ok(()),
        SearchMode::Literal => write_piece(text, b"literal"),
        SearchMode::PathAwareGlob => write_piece(text, b"glob"),
    }
}

/// Writes `prefix:` and a length, unless it is 0.
fn write_prefix(text: &mut Vec<u8>, length: usize) -> Result<(), AllocError>
    ensures { AddsPieces text.old.items text.new.items (prefix_text length) result }
{
    if length == 0 {
        return Ok(());
    }
    write_comma(text)?;
    text.extend_from_slice(b"prefix:")?;
    write_number(text, length)
}

/// Writes a number by its decimal digits, and nothing for 0.
fn write_number(text: &mut Vec<u8>, number: usize) -> Result<(), AllocError>
    ensures { AddsBytes text.old.items text.new.items (number_text number) result }
{
    if number == 0 {
        return Ok(());
    }
    write_number(text, number / 10)?;
    text.push(b'0' + (number % 10) as u8)?;
    Ok(())
}

/// Writes a piece of long magic after those before it.
fn write_piece(text: &mut Vec<u8>, piece: &[u8]) -> Result<(), AllocError>
    requires { IsFalse (is_empty piece.now) }
    ensures { AddsPieces text.old.items text.new.items (piece.now ∷ []) result }
{
    write_comma(text)?;
    text.extend_from_slice(piece)?;
    Ok(())
}

/// Writes a comma, unless nothing stands after `:(` yet.
fn write_comma(text: &mut Vec<u8>) -> Result<(), AllocError>
    ensures { AddsBytes text.old.items text.new.items
        (if nat_lt 2 (length text.old.items) then comma ∷ [] else []) result }
{
    if text.len() > 2 {
        text.push(b',')?;
    }
    Ok(())
}

/// Writes `attr:` and the assignments, with a space between each two, if there are any.
fn write_attributes(text: &mut Vec<u8>, assignments: &[Assignment]) -> Result<(), AllocError>
    ensures { AddsPieces text.old.items text.new.items
        (attributes_text (map assignment_view assignments.now)) result }
{
    if assignments.is_empty() {
        return Ok(());
    }
    write_comma(text)?;
    text.extend_from_slice(b"attr:")?;
    write_assignments(text, assignments)
}

/// Writes assignments, with a space between each two.
fn write_assignments(text: &mut Vec<u8>, assignments: &[Assignment]) -> Result<(), AllocError>
    ensures { AddsBytes text.old.items text.new.items
        (list_text (map assignment_view assignments.now)) result }
{
    for (index, assignment) in assignments.iter().enumerate() {
        write_space(text, index)?;
        write_assignment(text, assignment)?;
    }
    Ok(())
}

/// Writes a space, unless the index is 0.
fn write_space(text: &mut Vec<u8>, index: usize) -> Result<(), AllocError>
    ensures { AddsBytes text.old.items text.new.items
        (if index == 0 then [] else space ∷ []) result }
{
    if index > 0 {
        text.push(b' ')?;
    }
    Ok(())
}

/// Writes `a`, `-a`, `!a` or `a=v`, with a backslash in front of each comma.
fn write_assignment(text: &mut Vec<u8>, assignment: &Assignment) -> Result<(), AllocError>
    ensures { AddsBytes text.old.items text.new.items
        (assignment_text (assignment_view assignment.now)) result }
{
    match &assignment.state {
        State::Set => write_escaped(text, assignment.name.as_bytes().as_bytes()),
        State::Unset => {
            text.push(b'-')?;
            write_escaped(text, assignment.name.as_bytes().as_bytes())
        }
        State::Unspecified => {
            text.push(b'!')?;
            write_escaped(text, assignment.name.as_bytes().as_bytes())
        }
        State::Value(value) => {
            write_escaped(text, assignment.name.as_bytes().as_bytes())?;
            text.push(b'=')?;
            write_escaped(text, value.as_slice())
        }
    }
}

/// Writes bytes, with a backslash in front of each comma.
fn write_escaped(text: &mut Vec<u8>, bytes: &[u8]) -> Result<(), AllocError>
    ensures { AddsBytes text.old.items text.new.items (with_escapes bytes.now) result }
{
    for byte in bytes {
        if *byte == b',' {
            text.push(b'\\')?;
        }
        text.push(*byte)?;
    }
    Ok(())
}

impl fmt::Display for Pattern {
    ghost use Rattle.std.specs.Prelude.{Some};
    ghost use Rattle.pathspec_pattern.specs.LongText.{printed_text};
    ghost use Rattle.pathspec_pattern.specs.Patterns.{pattern_spec};

    ghost output = { λ p. Some (printed_text (pattern_spec p)) };

    fn fmt<W: fmt::Write>(&self, f: &mut fmt::Formatter<W>) -> fmt::Result {
        match self.long_text() {
            Ok(text) => fmt::Display::fmt(&BStr::new(text.as_slice()), f),
            Err(_) => Err(fmt::Error),
        }
    }
}
