//! Attributes of paths: the types of `pathspec_parts::attributes`.

pub use pathspec_parts::attributes::{
    Assignment, Case, LookUp, Name, NoAttributes, Outcome, State, StateRef,
};
