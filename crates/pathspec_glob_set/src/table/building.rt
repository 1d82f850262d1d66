//! A set of globs is made: its places, the classes of bytes, and the row of the empty text.
ghost use Rattle.std.specs.Prelude.{◌≡◌, ◌<◌, ◌≤◌, ℕ, length, get_or, IfOk, IsFalse, IsTrue};
ghost use Rattle.pathspec_glob_set.specs.Questions.{AddsClass, AreClasses};
ghost use Rattle.pathspec_glob_set.specs.Sets.{count_places, AreEnds, AreMovesOf};
ghost use Rattle.pathspec_glob_set.specs.Sizes.{most_places};
ghost use Rattle.pathspec_glob_set.specs.Tables.{nowhere};

use crate::borders::borders_of;
use crate::columns::{Question, column, ends_of, place_of, places_of};
use crate::member::Member;
use crate::table::moves::Moves;
use crate::table::row;
use pathspec_glob::BitVec;
use std::alloc::{AllocError, Global};

/// How many places the globs of a set have at most.
const MOST_PLACES: usize = 131_072;

/// Classes of bytes.
#[derive(Drop)]
pub struct Classes {
    /// The class of each byte.
    pub of_byte: [u8; 256],
    /// For each class, the places whose next token takes its bytes.
    pub takes: Vec<BitVec>,
}

/// Makes the moves of globs. Each token is asked of each byte.
///
/// # Errors
/// Memory runs out.
pub fn moves_of(alloc: Global, globs: &[Member]) -> Result<Moves, AllocError>
    ensures { IfOk result (λ moves. AreMovesOf globs.now moves) }
{
    let ends = ends_of(alloc, globs)?;
    let places = places_of(&ends);
    let wide = column(alloc, globs, &ends, places, Question::Wide)?;
    let over = column(alloc, globs, &ends, places, Question::Over)?;
    let cuts = column(alloc, globs, &ends, places, Question::Cuts)?;
    let mut start = column(alloc, globs, &ends, places, Question::Behind)?;
    row::close(&mut start, &wide, &over);
    let classes = classes_of(alloc, globs, &ends, places)?;
    let Classes { of_byte, takes } = classes;
    Ok(Moves {
        wide,
        over,
        cuts,
        start,
        classes: of_byte,
        takes,
        ends,
    })
}

/// Whether globs have few enough places for a set: one for each token, and one more for each glob.
pub fn are_few(globs: &[Member]) -> bool
    ensures few { IsTrue result → count_places globs.now ≤ most_places }
    ensures many { IsFalse result → most_places < count_places globs.now }
{
    let mut places = 0;
    for glob in globs {
        let size = glob.tokens.len();
        if size >= MOST_PLACES - places {
            return false;
        }
        places += size + 1;
    }
    true
}

/// How many rows a scratch has: 1,024, or 4,096 from 64 globs on, but 60 for each star behind the front, up to 32,768. They are fewer
/// where they would take more bytes than there is room for, but two at least. 676 globs such as `*aa*` led to 17,800 rows, one for
/// each glob and letter, of some 500 bytes each.
pub fn rows_for(moves: &Moves, room: usize) -> usize
    ensures many { 2 ≤ result }
    ensures few { result ≤ nowhere }
{
    let least = if moves.ends.len() < 64 { 1024 } else { 4096 };
    let most = inner_stars(moves).saturating_mul(60).max(least).min(32_768);
    // A bit for each place, two bytes for each class, and some sixty more.
    let bytes = (moves.places() / 8)
        .saturating_add(moves.width().saturating_mul(2))
        .saturating_add(64);
    room.checked_div(bytes).unwrap_or(2).max(2).min(most)
}

/// How many tokens take any number of bytes, but for those that begin a glob that cuts.
fn inner_stars(moves: &Moves) -> usize {
    let mut stars: usize = 0;
    for index in 0..moves.wide.len() / 64 + 1 {
        let inner = moves.wide.word(index) & !moves.cuts.word(index);
        stars = stars.saturating_add(inner.count_ones() as usize);
    }
    stars
}

/// Sorts bytes into classes: those of one class are taken by the same tokens. A byte is of the class of the byte before, unless some
/// token tells them apart, so each token makes few columns.
fn classes_of(
    alloc: Global,
    globs: &[Member],
    ends: &[usize],
    places: usize,
) -> Result<Classes, AllocError>
    requires ends { AreEnds globs.now ends.now }
    requires places { (g : ℕ) → g < length ends.now → get_or ends.now g 0 < places }
    ensures { IfOk result (λ classes. AreClasses globs.now ends.now places 256 classes) }
{
    let borders = borders_of(globs);
    let mut classes = Classes {
        of_byte: [0; 256],
        takes: Vec::new(alloc),
    };
    let mut class = 0;
    for byte in 0..256usize {
        if byte == 0 || borders[byte] {
            let takes = column(alloc, globs, ends, places, Question::Takes(byte as u8))?;
            let found = class_of(&mut classes.takes, takes)?;
            class = found as u8;
        }
        classes.of_byte[byte] = class;
    }
    Ok(classes)
}

/// The class of a column, which is added where no class has it.
fn class_of(classes: &mut Vec<BitVec>, column: BitVec) -> Result<usize, AllocError>
    ensures { IfOk result (AddsClass classes.old.items classes.new.items column) }
{
    let class = place_of(classes, &column);
    if class == classes.len() {
        classes.push(column)?;
    }
    Ok(class)
}
