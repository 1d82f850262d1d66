//! Brackets of globs: the bytes that `[` .. `]` lists (git's wildmatch).
ghost use Rattle.std.specs.Prelude.{◌≡◌, ◌≤◌, ◌==◌, ℕ, None, IfOk, true, length, drop, bytes_eq};
ghost use Rattle.std.specs.Option.{option_map};
ghost use Rattle.std.specs.List.{position};
ghost use Rattle.pathspec_glob.specs.Bytes.{close_bracket, colon, first_is};
ghost use Rattle.pathspec_glob.specs.Tokens.{before_last_colon, class_item, class_of, escaped_item, front_of, items_from, known_class, makes_range, named_class, range_from, single_of};
ghost use Rattle.pathspec_glob.specs.Tokens.Front.{Listed};
ghost use Rattle.pathspec_glob.specs.GlobRelation.{passes};
ghost use Rattle.pathspec_glob.specs.GlobForms.{class_name, front_view, item_view, bracket_view};

use std::alloc::{AllocError, Global};

/// A class of ASCII bytes that a bracket names, as `[:digit:]`.
#[derive(Clone, Copy)]
pub enum Class {
    /// Letters and digits.
    Alnum,
    /// Letters.
    Alpha,
    /// Tab and space.
    Blank,
    /// 0 to 31, and 127.
    Cntrl,
    /// Digits.
    Digit,
    /// 33 to 126.
    Graph,
    /// `a` to `z`.
    Lower,
    /// 32 to 126.
    Print,
    /// Bytes of `Graph` that are no letters or digits.
    Punct,
    /// Tab, line feed, carriage return and space.
    Space,
    /// `A` to `Z`.
    Upper,
    /// Digits, `A` to `F` and `a` to `f`.
    Xdigit,
}

impl Class {
    /// The class with the given name, as `digit`.
    fn from_name(name: &[u8]) -> Option<Class>
        ensures { option_map class_name result ≡ known_class name.now }
    {
        if is_same(name, b"alnum") {
            Some(Class::Alnum)
        } else if is_same(name, b"alpha") {
            Some(Class::Alpha)
        } else if is_same(name, b"blank") {
            Some(Class::Blank)
        } else if is_same(name, b"cntrl") {
            Some(Class::Cntrl)
        } else if is_same(name, b"digit") {
            Some(Class::Digit)
        } else if is_same(name, b"graph") {
            Some(Class::Graph)
        } else if is_same(name, b"lower") {
            Some(Class::Lower)
        } else if is_same(name, b"print") {
            Some(Class::Print)
        } else if is_same(name, b"punct") {
            Some(Class::Punct)
        } else if is_same(name, b"space") {
            Some(Class::Space)
        } else if is_same(name, b"upper") {
            Some(Class::Upper)
        } else if is_same(name, b"xdigit") {
            Some(Class::Xdigit)
        } else {
            None
        }
    }

    /// Whether the class has the byte.
    pub fn holds(self, byte: u8) -> bool
        ensures { result ≡ passes (class_of (class_name self)) byte }
    {
        match self {
            Class::Alnum => byte.is_ascii_alphanumeric(),
            Class::Alpha => byte.is_ascii_alphabetic(),
            Class::Blank => matches!(byte, b'\t' | b' '),
            Class::Cntrl => byte.is_ascii_control(),
            Class::Digit => byte.is_ascii_digit(),
            Class::Graph => byte.is_ascii_graphic(),
            Class::Lower => byte.is_ascii_lowercase(),
            Class::Print => matches!(byte, 32..=126),
            Class::Punct => byte.is_ascii_punctuation(),
            Class::Space => matches!(byte, b'\t' | b'\n' | b'\r' | b' '),
            Class::Upper => byte.is_ascii_uppercase(),
            Class::Xdigit => byte.is_ascii_hexdigit(),
        }
    }
}

/// One item of a bracket.
#[derive(Clone, Copy)]
pub enum Item {
    /// One byte.
    Literal(u8),
    /// The bytes from the first to the last; none where the last is below the first.
    Range(u8, u8),
    /// The bytes of a class.
    Class(Class),
}

impl Item {
    /// The byte from which a following `-` may begin a range.
    fn single(self) -> Option<u8>
        ensures { (size : ℕ) → result ≡ single_of (Listed (item_view self) size) }
    {
        match self {
            Item::Literal(byte) => Some(byte),
            Item::Range(_, _) | Item::Class(_) => None,
        }
    }
}

/// The items of a bracket, and the pattern behind its `]`.
#[derive(Drop)]
pub struct Read<'p> {
    pub items: Vec<Item>,
    pub rest: &'p [u8],
}

/// The front of the unread part of a bracket.
enum Front {
    /// An item, and how many bytes it takes.
    Listed(Item, usize),
    /// The closing `]`.
    Closed,
    /// A front that can't be read.
    Broken,
}

/// Reads the items of a bracket up to its closing `]`; None where they can't be read. The `[` and the negation stand before
/// `bytes`. The cost is linear in the bytes up to that `]`, or in all of them where no `]` closes the bracket.
///
/// # Errors
/// Memory runs out.
pub fn read_items<'p>(alloc: Global, bytes: &'p [u8]) -> Result<Option<Read<'p>>, AllocError>
    ensures { IfOk result (λ found.
        option_map bracket_view found ≡ items_from 0 true None bytes.now) }
{
    let mut items = Vec::new(alloc);
    let mut last = None;
    let mut rest = bytes;
    let mut closing = first_closing(bytes);
    loop {
        match read_front(items.is_empty(), last, rest, closing) {
            Front::Listed(item, size) => {
                items.push(item)?;
                last = item.single();
                closing = closing_after(rest, size, closing);
                rest = rest.split_at(size).1;
            }
            Front::Closed => {
                return Ok(Some(Read {
                    items,
                    rest: rest.split_at(1).1,
                }));
            }
            Front::Broken => return Ok(None),
        }
    }
}

/// Reads the front of the unread part of a bracket. `first` says whether its first item stands here, `last` is a single byte
/// directly before, and `closing` is the place of the first `]`.
fn read_front(first: bool, last: Option<u8>, bytes: &[u8], closing: Option<usize>) -> Front
    requires { closing ≡ position (λ b. b == close_bracket) bytes.now }
    ensures { front_view result ≡ front_of first last bytes.now }
{
    let [byte, rest @ ..] = bytes else {
        return Front::Broken;
    };
    if *byte == b']' && !first {
        Front::Closed
    } else if *byte == b'\\' {
        escaped_front(rest)
    } else if *byte == b'-' && makes_range(last, rest) {
        range_front(last, rest)
    } else if *byte == b'[' && begins_with_colon(rest) {
        class_front(&rest[1..], closing_after(bytes, 2, closing))
    } else {
        Front::Listed(Item::Literal(*byte), 1)
    }
}

/// Reads the byte at the front, which stands after a backslash. Its size counts the backslash.
fn escaped_front(bytes: &[u8]) -> Front
    ensures { front_view result ≡ escaped_item bytes.now }
{
    match bytes {
        [byte, ..] => Front::Listed(Item::Literal(*byte), 2),
        [] => Front::Broken,
    }
}

/// Whether a `-` makes a range with the bytes after it: a single byte stands before it, and one other than `]` behind it.
fn makes_range(last: Option<u8>, bytes: &[u8]) -> bool
    ensures { result ≡ makes_range last bytes.now }
{
    last.is_some() && matches!(bytes, [byte, ..] if *byte != b']')
}

/// Reads the range from the last single byte to the byte at the front, which a backslash may quote. Its size counts the `-`.
fn range_front(last: Option<u8>, bytes: &[u8]) -> Front
    ensures { front_view result ≡ range_from last bytes.now }
{
    match (last, bytes) {
        (Some(low), [b'\\', high, ..]) => Front::Listed(Item::Range(low, *high), 3),
        (None, _) | (_, [] | [b'\\']) => Front::Broken,
        (Some(low), [high, ..]) => Front::Listed(Item::Range(low, *high), 2),
    }
}

/// Whether the first byte is `:`.
fn begins_with_colon(bytes: &[u8]) -> bool
    ensures { result ≡ first_is (λ b. b == colon) bytes.now }
{
    matches!(bytes, [b':', ..])
}

/// Reads the class whose `[:` stands before the bytes, or the `[` as a byte.
fn class_front(bytes: &[u8], closing: Option<usize>) -> Front
    requires { closing ≡ position (λ b. b == close_bracket) bytes.now }
    ensures { front_view result ≡ class_item bytes.now }
{
    let Some(end) = closing else {
        return Front::Broken;
    };
    match name_before_colon(&bytes[..end]) {
        Some(name) => named_front(name),
        None => Front::Listed(Item::Literal(b'['), 1),
    }
}

/// Whether two names are the same.
fn is_same(name: &[u8], other: &[u8]) -> bool
    ensures { result ≡ bytes_eq name.now other.now }
{
    name == other
}

/// The bytes before the last one, if that is `:`.
fn name_before_colon(bytes: &[u8]) -> Option<&[u8]>
    ensures { option_map (λ name. name.now) result ≡ before_last_colon bytes.now }
{
    match bytes {
        [name @ .., b':'] => Some(name),
        _ => None,
    }
}

/// The front that is a class with the given name, which stands between `[:` and `:]`.
fn named_front(name: &[u8]) -> Front
    ensures { front_view result ≡ named_class name.now }
{
    match Class::from_name(name) {
        Some(class) => Front::Listed(Item::Class(class), name.len() + 4),
        None => Front::Broken,
    }
}

/// The place of the first `]`.
fn first_closing(bytes: &[u8]) -> Option<usize>
    ensures { result ≡ position (λ b. b == close_bracket) bytes.now }
{
    bytes.iter().position(|byte| *byte == b']')
}

/// The place of the first `]` behind the first `size` bytes. `closing` is the place of the first of all.
fn closing_after(bytes: &[u8], size: usize, closing: Option<usize>) -> Option<usize>
    requires size { size ≤ length bytes.now }
    requires closing { closing ≡ position (λ b. b == close_bracket) bytes.now }
    ensures { result ≡ position (λ b. b == close_bracket) (drop size bytes.now) }
{
    let place = closing?;
    if place < size {
        // No byte is searched twice: this search begins after the `]` that ended the one before.
        first_closing(&bytes[size..])
    } else {
        Some(place - size)
    }
}
