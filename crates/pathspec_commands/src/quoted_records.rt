//! Records in the quotes in which git writes paths without `-z` (git, "core.quotePath").
ghost use Rattle.std.specs.Prelude.{◌≤◌, length};

use memchr::memchr;

/// Where a listing stands in a record.
#[derive(Clone, Copy)]
enum Place {
    /// Before its first byte.
    Start,
    /// In a record that git didn't quote.
    Plain,
    /// Between the quotes.
    Quoted,
    /// Behind a backslash between the quotes.
    Escape,
    /// Before the second of three octal digits.
    SecondDigit,
    /// Before the last of three octal digits.
    LastDigit,
    /// Behind the closing quote.
    Closed,
}

impl Place {
    /// The place behind the next byte.
    fn behind(self, byte: u8) -> Place {
        if byte == b'\n' {
            return Place::Start;
        }
        match self {
            Place::Start if byte == b'"' => Place::Quoted,
            Place::Quoted => behind_quoted(byte),
            Place::Escape => behind_escape(byte),
            Place::SecondDigit if is_octal(byte) => Place::LastDigit,
            Place::LastDigit if is_octal(byte) => Place::Quoted,
            _ => Place::Plain,
        }
    }

    /// Whether the record isn't in quotes, as far as it was read.
    fn is_plain(self) -> bool {
        matches!(self, Place::Start | Place::Plain)
    }
}

/// The place behind a byte between the quotes.
fn behind_quoted(byte: u8) -> Place {
    match byte {
        b'"' => Place::Closed,
        b'\\' => Place::Escape,
        _ => Place::Quoted,
    }
}

/// The place behind the first byte of an escape.
fn behind_escape(byte: u8) -> Place {
    match byte {
        b'0' | b'1' | b'2' | b'3' => Place::SecondDigit,
        b'a' | b'b' | b'f' | b'n' | b'r' | b't' | b'v' | b'"' | b'\\' => Place::Quoted,
        _ => Place::Plain,
    }
}

/// Whether a byte is an octal digit.
fn is_octal(byte: u8) -> bool {
    b'0' <= byte && byte <= b'7'
}

/// Looks for records in git's quotes in a listing whose records end with a line feed, and keeps nothing of the listing.
#[derive(Clone, Copy)]
pub(crate) struct QuotedRecords {
    place: Place,
    has_one: bool,
}

impl QuotedRecords {
    /// A search in a listing of which nothing was read.
    pub(crate) fn new() -> QuotedRecords {
        QuotedRecords {
            place: Place::Start,
            has_one: false,
        }
    }

    /// Whether some record stands in quotes. The last may lack its line feed.
    pub(crate) fn is_found(&self) -> bool {
        self.has_one || matches!(self.place, Place::Closed)
    }

    /// Looks at the next bytes of the listing. Up to their first quote nothing is read byte by byte.
    pub(crate) fn take(&mut self, bytes: &[u8]) {
        if self.has_one {
            return;
        }
        let (front, rest) = bytes.split_at(self.plain_length(bytes));
        if let Some(last) = front.last() {
            self.place = Place::Plain.behind(*last);
        }
        for byte in rest {
            self.has_one |= *byte == b'\n' && matches!(self.place, Place::Closed);
            self.place = self.place.behind(*byte);
        }
    }

    /// How many bytes stand before the first that a quoted record may hold.
    fn plain_length(&self, bytes: &[u8]) -> usize
        ensures { result ≤ length bytes.now }
    {
        if !self.place.is_plain() {
            return 0;
        }
        match memchr(b'"', bytes) {
            Some(place) => place,
            None => bytes.len(),
        }
    }
}
