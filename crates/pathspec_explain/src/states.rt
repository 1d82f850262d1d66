//! Whether a path has the attributes that a spec lists.
ghost use Rattle.std.specs.Prelude.{◌≡◌, Some, length, map, MatchOption, IfOk, IsTrue, false};
ghost use Rattle.bstr.specs.BStr.{bstr_bytes};
ghost use Rattle.pathspec_parts.specs.AttributeStates.{state_ref_view, assignment_view};
ghost use Rattle.pathspec_parts.specs.Outcomes.{names_of, states_of};
ghost use Rattle.pathspec_parts.specs.Attributes.{AsksLookUp};
ghost use Rattle.gix_pathspec.specs.Patterns.{pattern_spec};
ghost use Rattle.gix_pathspec.specs.Room.{attribute_names};
ghost use Rattle.gix_pathspec.specs.Matching.{fit, same_state, have_states};
ghost use Rattle.pathspec_explain.specs.Reasons.{DifferAt, IsReason};

use crate::Reason;
use bstr::BStr;
use gix_pathspec::Pattern;
use gix_pathspec::attributes::{Assignment, Case, LookUp, Outcome, StateRef};
use gix_pathspec::search::MatchKind;

/// The reason for a pattern that fits a path in the way `kind`: it matches, or an attribute is another. It resets the outcome
/// and asks the look-up once where the pattern lists attributes.
///
/// # Errors
/// The look-up's fault.
pub(crate) fn reason_where_it_fits<L: LookUp>(
    pattern: &Pattern,
    kind: MatchKind,
    outcome: &mut Outcome,
    path: BStr<'_>,
    is_dir: bool,
    look_up: &mut L,
) -> Result<Reason, L::Fault>
    requires fits { fit (pattern_spec pattern.now) (bstr_bytes path) is_dir ≡ Some kind }
    requires names { names_of outcome.old ≡ attribute_names (pattern_spec pattern.now) }
    ensures reason { IfOk result (IsReason (L.table look_up.old) (pattern_spec pattern.now)
        (bstr_bytes path.entry) is_dir) }
    ensures names { names_of outcome.new ≡ names_of outcome.old }
    ensures look_up { AsksLookUp (L.table look_up.old) (L.failures look_up.old)
        (L.table look_up.new) (L.failures look_up.new) result }
{
    if pattern.attributes.is_empty() {
        return Ok(Reason::Matches(kind));
    }
    outcome.reset();
    let found = look_up.look_up(path, Case::Sensitive, is_dir, outcome)?;
    if !found {
        return Ok(Reason::NoStates);
    }
    match first_other(outcome, &pattern.attributes) {
        Some(place) => Ok(Reason::OtherState(place)),
        None => Ok(Reason::Matches(kind)),
    }
}

/// The first place where an outcome has another state than the assignments list. None where it has each of theirs.
fn first_other(outcome: &Outcome, assignments: &[Assignment]) -> Option<usize>
    requires { length outcome.now ≡ length assignments.now }
    ensures { MatchOption result
        (IsTrue (have_states (states_of outcome.now) (map assignment_view assignments.now)))
        (DifferAt (states_of outcome.now) (map assignment_view assignments.now)) }
{
    for (place, assignment) in assignments.iter().enumerate() {
        if !is_same_state(outcome.state(place), assignment.state.as_ref()) {
            return Some(place);
        }
    }
    None
}

/// Whether two states are equal.
fn is_same_state(left: StateRef<'_>, right: StateRef<'_>) -> bool
    ensures { result ≡ same_state (state_ref_view left.entry) (state_ref_view right.entry) }
{
    left == right
}
