//! Attributes of paths (gitattributes), and the look-ups that are asked for them.
ghost use Rattle.std.specs.Prelude.{◌≡◌, ℕ, IfOk, OnOk, OnErr};
ghost use Rattle.bstr.specs.BStr.{bstr_bytes};
ghost use Rattle.pathspec_parts.specs.Attributes.{Table, AsksLookUp};
ghost use Rattle.pathspec_parts.specs.Outcomes.{IsReset, names_of, question_of, reply_of};

mod name;
mod no_attributes;
mod outcome;
mod rows;
mod state;

use bstr::BStr;
pub use name::Name;
pub use no_attributes::NoAttributes;
pub use outcome::Outcome;
pub use pathspec_glob::Case;
pub use rows::Rows;
pub use state::{Assignment, State, StateRef};
use std::fmt::Debug;

/// A look-up, which is asked for the attributes of paths. It answers by a table: a question has the same answer each time.
pub trait LookUp {
    /// The reason why a question failed.
    type Fault: Debug + Drop;

    /// The answer to each question.
    ghost table: { Self → Table };

    /// The count of failed questions, up to `u64::MAX`.
    ghost failures: { Self → ℕ };

    /// Says whether there is an answer for a path, and gives each place of a reset outcome the state of its attribute for that
    /// path. The names of the outcome stay.
    ///
    /// # Errors
    /// The look-up's fault. The outcome may then hold any states.
    fn look_up(
        &mut self,
        path: BStr<'_>,
        case: Case,
        is_dir: bool,
        out: &mut Outcome,
    ) -> Result<bool, Self::Fault>
        ensures answer { let question = question_of (bstr_bytes path.entry) case is_dir out.old in
            IsReset out.old →
            IfOk result (λ found. reply_of found out.new ≡ table self.old question) }
        ensures names_stay { names_of out.new ≡ names_of out.old }
        ensures look_up { AsksLookUp (table self.old) (failures self.old)
            (table self.new) (failures self.new) result };
}
