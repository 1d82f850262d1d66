//! The states of attributes for paths.
ghost use Rattle.std.specs.Prelude.{◌≡◌, IfOk, OnErr, IsTrue};
ghost use Rattle.pathspec_parts.specs.Attributes.{is_value};
ghost use Rattle.pathspec_parts.specs.AttributeStates.{state_view, state_ref_view, assignment_view};

use crate::attributes::Name;
use std::alloc::{AllocError, Global};

/// The state of an attribute for a path (gitattributes).
#[derive(Debug, Drop, PartialEq, Eq, PartialOrd, Ord, Hash)]
pub enum State {
    /// The attribute is set, as by `name`.
    Set,
    /// The attribute is unset, as by `-name`.
    Unset,
    /// The attribute has a value, as by `name=value`.
    Value(Vec<u8>),
    /// The attribute is unspecified, as by `!name`.
    Unspecified,
}

/// A [`State`] whose value is lent.
#[derive(Clone, Copy, Debug, PartialEq, Eq, PartialOrd, Ord, Hash)]
pub enum StateRef<'a> {
    /// The attribute is set.
    Set,
    /// The attribute is unset.
    Unset,
    /// The attribute has a value.
    Value(&'a [u8]),
    /// The attribute is unspecified.
    Unspecified,
}

/// The name of an attribute, and the state that it is to have.
#[derive(Debug, Drop, PartialEq, Eq, PartialOrd, Ord, Hash)]
pub struct Assignment {
    /// The attribute's name.
    pub name: Name,
    /// The state that the attribute is to have.
    pub state: State,
}

impl State {
    /// Lends the state: a [`StateRef`] with the bytes of its value.
    pub fn as_ref(&self) -> StateRef<'_>
        ensures { state_ref_view result ≡ state_view self.now }
    {
        match self {
            State::Set => StateRef::Set,
            State::Unset => StateRef::Unset,
            State::Value(value) => StateRef::Value(value.as_slice()),
            State::Unspecified => StateRef::Unspecified,
        }
    }

    /// Clones the state.
    ///
    /// # Errors
    /// Memory runs out. Only a value takes memory.
    pub fn try_clone(&self) -> Result<State, AllocError>
        ensures ok { IfOk result (λ state. state_view state ≡ state_view self.now) }
        ensures refused { OnErr result (IsTrue (is_value (state_view self.now))) }
    {
        match self {
            State::Set => Ok(State::Set),
            State::Unset => Ok(State::Unset),
            State::Value(value) => Ok(State::Value(value.clone()?)),
            State::Unspecified => Ok(State::Unspecified),
        }
    }
}

impl<'a> StateRef<'a> {
    /// An owned [`State`], with a copy of the value.
    ///
    /// # Errors
    /// Memory runs out. Only a value takes memory.
    pub fn to_state(self, alloc: Global) -> Result<State, AllocError>
        ensures ok { IfOk result (λ state. state_view state ≡ state_ref_view self.entry) }
        ensures refused { OnErr result (IsTrue (is_value (state_ref_view self.entry))) }
    {
        match self {
            StateRef::Set => Ok(State::Set),
            StateRef::Unset => Ok(State::Unset),
            StateRef::Value(value) => Ok(State::Value(Vec::from_slice(alloc, value)?)),
            StateRef::Unspecified => Ok(State::Unspecified),
        }
    }
}

impl Assignment {
    /// Clones the assignment.
    ///
    /// # Errors
    /// Memory runs out.
    pub fn try_clone(&self) -> Result<Assignment, AllocError>
        ensures { IfOk result (λ copy. assignment_view copy ≡ assignment_view self.now) }
    {
        Ok(Assignment {
            name: self.name.try_clone()?,
            state: self.state.try_clone()?,
        })
    }
}
