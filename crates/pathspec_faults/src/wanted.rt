//! What is looked for in long magic.

/// What is looked for in long magic.
#[derive(Clone, Copy)]
pub(crate) enum Wanted<'e> {
    /// A whole piece.
    Piece(&'e [u8]),
    /// A name in a list of attributes.
    Name(&'e [u8]),
    /// A value in such a list, as it is written.
    Value(&'e [u8]),
    /// A byte of such a value, other than a backslash that escapes.
    ValueByte(u8),
}
