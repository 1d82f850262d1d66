//! The room that questions need, made when files are added.
ghost use Rattle.std.specs.Prelude.{◌≡◌, false, List, ℕ, IfOk};
ghost use Rattle.pathspec_attributes.specs.Views.{marked};

use crate::deciding::Pending;
use crate::file::File;
use crate::marks::Marks;
use pathspec_glob::Scratch;
use pathspec_parts::attributes::Assignment;
use std::alloc::{AllocError, Global};

/// The room of a question, which is kept for the next.
#[derive(Debug, Drop)]
pub struct Room {
    pub(crate) scratch: Scratch,
    /// The names that are decided.
    pub(crate) marks: Marks,
    /// The macros that are being expanded. The last counts next.
    pub(crate) pending: Vec<Pending>,
}

impl Room {
    /// Makes room for no file. Questions let it grow.
    ///
    /// # Errors
    /// Memory runs out.
    pub fn new(alloc: Global) -> Result<Room, AllocError>
        ensures { IfOk result (λ room. (name : List ℕ) → marked room.marks name ≡ false) }
    {
        Ok(Room {
            scratch: Scratch::for_tokens(alloc, 0)?,
            marks: Marks::new(alloc),
            pending: Vec::new(alloc),
        })
    }
}

/// Makes room for questions of a file: for its names, its macros and its longest pattern.
///
/// # Errors
/// Memory runs out.
pub(crate) fn make_room(alloc: Global, file: &File, room: &mut Room) -> Result<(), AllocError> {
    for own in &file.rules {
        own.rule.make_room(alloc, &mut room.scratch)?;
        mark_room(alloc, own.rule.assignments(), room)?;
    }
    for own in &file.macros {
        mark_room(alloc, own.body.as_slice(), room)?;
    }
    room.pending.clear();
    // Each name is expanded at most once.
    room.pending.reserve(room.marks.len())?;
    Ok(())
}

/// Makes room for the names of assignments.
fn mark_room(alloc: Global, assignments: &[Assignment], room: &mut Room) -> Result<(), AllocError> {
    for assignment in assignments {
        room.marks
            .make_room(alloc, assignment.name.as_bytes().as_bytes())?;
    }
    Ok(())
}
