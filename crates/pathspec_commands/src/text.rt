//! Texts that are written in parts, where the end tells whether memory ran out.
use pathspec_faults::push_shown;
use std::alloc::{AllocError, Global};

/// A text that is being written. A part for which memory runs out is left out, and the end tells of that.
#[derive(Drop)]
pub(crate) struct Text {
    text: String,
    lacks_memory: bool,
}

impl Text {
    /// A text without parts.
    pub(crate) fn new(alloc: Global) -> Text {
        Text {
            text: String::new(alloc),
            lacks_memory: false,
        }
    }

    /// Adds a text.
    pub(crate) fn push(&mut self, text: &str) {
        self.lacks_memory |= self.text.push_str(text).is_err();
    }

    /// Adds a character.
    pub(crate) fn push_char(&mut self, character: char) {
        self.lacks_memory |= self.text.push(character).is_err();
    }

    /// Adds so many spaces.
    pub(crate) fn push_spaces(&mut self, count: usize) {
        for _ in 0..count {
            self.push_char(' ');
        }
    }

    /// Adds a number in decimal digits.
    pub(crate) fn push_number(&mut self, number: usize) {
        self.lacks_memory |= write!(self.text, "{number}").is_err();
    }

    /// Adds bytes, with control characters and bytes that are no UTF-8 by their numbers. It gives how many characters they take.
    pub(crate) fn push_shown(&mut self, bytes: &[u8]) -> usize {
        match push_shown(&mut self.text, bytes) {
            Ok(width) => width,
            Err(_) => {
                self.lacks_memory = true;
                0
            }
        }
    }

    /// Adds bytes in quotes, with control characters and bytes that are no UTF-8 by their numbers.
    pub(crate) fn push_quoted(&mut self, bytes: &[u8]) {
        self.push("'");
        self.push_shown(bytes);
        self.push("'");
    }

    /// The last byte. None where the text is empty.
    pub(crate) fn last(&self) -> Option<u8> {
        self.text.as_bytes().last().copied()
    }

    /// The whole text.
    ///
    /// # Errors
    /// Memory ran out at a part.
    pub(crate) fn end(self) -> Result<String, AllocError> {
        let Text { text, lacks_memory } = self;
        if lacks_memory {
            Err(AllocError)
        } else {
            Ok(text)
        }
    }
}
