//! Outcomes: the states of attributes that a look-up is asked for.
ghost use Rattle.std.specs.Prelude.{◌≡◌, ◌<◌, ◌↔◌, [], length, vec_len, map, slice_get, bytes_eq, Some, IsTrue, IfOk, OnOk, OnErr};
ghost use Rattle.bstr.specs.BStr.{bstr_bytes};
ghost use Rattle.pathspec_parts.specs.Attributes.{State as Attribute};
ghost use Rattle.pathspec_parts.specs.AttributeStates.{AreCopies, state_ref_view, assignment_view};
ghost use Rattle.pathspec_parts.specs.Outcomes.{names_of, states_of, reset_states, has_name, name_count, set_state};

use crate::attributes::{Assignment, State, StateRef};
use bstr::BStr;
use std::alloc::{AllocError, Global};
use std::marker::Model;

/// One state for each name of a list.
#[derive(Debug, Drop)]
pub struct Outcome {
    places: Vec<Assignment>,
}

impl Model for Outcome {
    ghost use Rattle.std.specs.Prelude.{List, map};
    ghost use Rattle.pathspec_parts.specs.Outcomes.{NamedState};
    ghost use Rattle.pathspec_parts.specs.AttributeStates.{assignment_view};

    ghost Value = { List NamedState };

    ghost view = { λ o. map assignment_view o.places.items };
}

impl Outcome {
    /// Makes an outcome with copies of the assignments' names, in their order, each with the state [`State::Unspecified`].
    ///
    /// # Errors
    /// Memory runs out.
    pub fn for_assignments(alloc: Global, assignments: &[Assignment]) -> Result<Outcome, AllocError>
        ensures { IfOk result (λ outcome.
            outcome ≡ reset_states (map assignment_view assignments.now)) }
    {
        let mut places = Vec::with_capacity(alloc, assignments.len())?;
        for assignment in assignments {
            places.push(Assignment {
                name: assignment.name.try_clone()?,
                state: State::Unspecified,
            })?;
        }
        Ok(Outcome { places })
    }

    /// The count of places.
    pub fn len(&self) -> usize
        ensures { result ≡ length self.now }
    {
        self.places.len()
    }

    /// Whether there are no places.
    pub fn is_empty(&self) -> bool
        ensures { IsTrue result ↔ (self.now ≡ []) }
    {
        self.places.is_empty()
    }

    /// Whether the outcome has a place for each assignment, in their order. The cost is linear in the bytes of their names.
    pub fn is_for(&self, assignments: &[Assignment]) -> bool
        ensures { IsTrue result
            ↔ (names_of self.now ≡ map (λ a. a.name) (map assignment_view assignments.now)) }
    {
        self.len() == assignments.len() && have_names(&self.places, assignments)
    }

    /// The attribute's name at a place.
    pub fn name(&self, place: usize) -> BStr<'_>
        requires { place < length self.now }
        ensures { Some (bstr_bytes result) ≡ slice_get (names_of self.now) place }
    {
        self.places[place].name.as_bytes()
    }

    /// The state at a place.
    pub fn state(&self, place: usize) -> StateRef<'_>
        requires { place < length self.now }
        ensures { Some (state_ref_view result) ≡ slice_get (states_of self.now) place }
    {
        self.places[place].state.as_ref()
    }

    /// Gives the state to each place with the name, and to no other place. The call compares the name with the name at each
    /// place, and copies the state once for each place that has it.
    ///
    /// # Errors
    /// Memory runs out. Every place is then as before. A name that no place has takes no memory.
    pub fn set(&mut self, name: &[u8], state: StateRef<'_>) -> Result<(), AllocError>
        ensures ok { OnOk result
            (self.new ≡ set_state self.old name.now (state_ref_view state.entry)) }
        ensures err { OnErr result (self.new ≡ self.old) }
        ensures refused { OnErr result (IsTrue (has_name self.old name.now)) }
        ensures names { names_of self.new ≡ names_of self.old }
    {
        let copies = copies_for(*self.places.allocator(), &self.places, name, state)?;
        put_copies(&mut self.places, name, copies);
        Ok(())
    }

    /// Makes each state [`State::Unspecified`]. It takes no memory.
    pub fn reset(&mut self)
        ensures reset_states { self.new ≡ reset_states self.old }
        ensures is_reset { self.new ≡ reset_states self.new }
        ensures names { names_of self.new ≡ names_of self.old }
    {
        clear(&mut self.places);
    }
}

/// Whether a place has the name.
fn is_named(place: &Assignment, name: &[u8]) -> bool
    ensures { result ≡ bytes_eq (assignment_view place.now).name name.now }
{
    place.name.as_bytes().as_bytes() == name
}

/// Copies the state once for each place with the name.
fn copies_for(
    alloc: Global,
    places: &[Assignment],
    name: &[u8],
    state: StateRef<'_>,
) -> Result<Vec<State>, AllocError>
    ensures count { IfOk result
        (λ copies. vec_len copies ≡ name_count (map assignment_view places.now) name.now) }
    ensures copies { IfOk result (λ copies. AreCopies (state_ref_view state.entry) copies.items) }
    ensures refused { OnErr result (IsTrue (has_name (map assignment_view places.now) name.now)) }
{
    let mut copies = Vec::new(alloc);
    for place in places {
        if is_named(place, name) {
            copies.push(state.to_state(alloc)?)?;
        }
    }
    Ok(copies)
}

/// Gives one of the copies to each place with the name.
fn put_copies(places: &mut [Assignment], name: &[u8], mut copies: Vec<State>)
    requires { vec_len copies ≡ name_count (map assignment_view places.old) name.now }
    ensures { (state : Attribute) → AreCopies state copies.items
        → map assignment_view places.new ≡ set_state (map assignment_view places.old) name.now state }
{
    for place in places.iter_mut() {
        if is_named(place, name) {
            if let Some(copy) = copies.pop() {
                place.state = copy;
            }
        }
    }
}

/// Makes each state [`State::Unspecified`].
fn clear(places: &mut [Assignment])
    ensures { map assignment_view places.new ≡ reset_states (map assignment_view places.old) }
{
    for place in places.iter_mut() {
        place.state = State::Unspecified;
    }
}

/// Whether two lists of one length have the same names, each at its place.
fn have_names(left: &[Assignment], right: &[Assignment]) -> bool
    requires { length left.now ≡ length right.now }
    ensures { IsTrue result ↔ (map (λ a. a.name) (map assignment_view left.now)
        ≡ map (λ a. a.name) (map assignment_view right.now)) }
{
    for (place, assignment) in left.iter().enumerate() {
        if assignment.name.as_bytes().as_bytes() != right[place].name.as_bytes().as_bytes() {
            return false;
        }
    }
    true
}
