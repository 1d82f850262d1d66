//! The words of the command line.
ghost use Rattle.std.specs.Prelude.{◌≤◌, IfOk, IfSome, vec_len};

use std::alloc::AllocError;
use std::env::FillError;
use std::rt::Env;
use std::str;

/// The room for a word at first, in bytes.
const ROOM: usize = 256;

/// Why the words after the program's name can't be taken.
#[derive(Debug, Drop)]
pub enum WordsError {
    /// The word with this number, from 1, isn't UTF-8.
    NotUtf8(usize),
    /// Memory ran out.
    Memory,
}

impl From<AllocError> for WordsError {
    fn from(_: AllocError) -> WordsError {
        WordsError::Memory
    }
}

/// The words after the program's name. (`env::args` doesn't tell which of them isn't UTF-8.)
///
/// # Errors
/// [`WordsError::NotUtf8`] for the first word that isn't UTF-8, and [`WordsError::Memory`].
pub fn words<R: Env + AllocGlobal>(rt: &R) -> Result<Vec<String>, WordsError> {
    let mut words = Vec::new(rt.alloc());
    let mut buffer = vec![in rt.alloc(); 0; ROOM]?;
    for number in 1..usize::MAX {
        let Some(length) = word_into(rt, number, &mut buffer)? else {
            break;
        };
        let Ok(word) = str::from_utf8(&buffer[..length]) else {
            return Err(WordsError::NotUtf8(number));
        };
        words
            .push(String::from_str(rt.alloc(), word)?)
            .map_err(AllocError::from)?;
    }
    Ok(words)
}

/// Reads the word with a number into a buffer, which grows until it fits, and gives its length; None where there is no such
/// word.
fn word_into<R: Env>(
    rt: &R,
    number: usize,
    buffer: &mut Vec<u8>,
) -> Result<Option<usize>, AllocError>
    ensures { IfOk result (λ found. IfSome found (λ length. length ≤ vec_len buffer.new)) }
{
    for _ in 0..usize::BITS {
        match rt.arg(number, buffer.as_mut_slice()) {
            Ok(length) => return Ok(Some(length)),
            Err(FillError::NotPresent) => return Ok(None),
            Err(FillError::TooLong) => buffer.resize(buffer.len().saturating_mul(2), 0)?,
        }
    }
    Err(AllocError)
}
