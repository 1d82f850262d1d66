//! Look-ups for tests, of attributes and of variables, and what they set.
ghost use Rattle.std.specs.Prelude.{◌≡◌, true, bytes_eq, codes, if◌then◌else◌, OnOk};
ghost use Rattle.pathspec_parts.specs.Attributes.{next_count};
ghost use Rattle.pathspec_parts.specs.Attributes.State.{Set};
ghost use Rattle.pathspec_parts.specs.Outcomes.{names_of, states_of, unspecified, set_state};

use bstr::BStr;
use pathspec_parts::attributes::{Assignment, Case, LookUp, Name, Outcome, StateRef};
use std::alloc::{AllocError, Global};

/// A look-up that sets the attribute `gen` of the path `x`, and counts what it is asked.
#[derive(Drop)]
pub struct Marks {
    /// How many questions it answers before one fails.
    left: u64,
    pub asked: u64,
    pub failed: u64,
}

impl Marks {
    /// One that never fails.
    pub fn new() -> Marks {
        Marks::failing_after(u64::MAX)
    }

    /// One that fails once this many questions are answered.
    pub fn failing_after(left: u64) -> Marks {
        Marks {
            left,
            asked: 0,
            failed: 0,
        }
    }

    fn fail(&mut self) -> AllocError
        ensures { self.new.failed ≡ next_count self.old.failed }
    {
        self.left = u64::MAX;
        self.failed = self.failed.saturating_add(1);
        AllocError
    }
}

impl LookUp for Marks {
    type Fault = AllocError;

    ghost table = { λ _ q. record {
      found = true;
      states = states_of
          (if bytes_eq q.path (codes "x") then set_state (unspecified q.names) (codes "gen") Set else unspecified q.names);
    } };

    ghost failures = { λ it. it.failed };

    fn look_up(
        &mut self,
        path: BStr<'_>,
        _case: Case,
        _is_dir: bool,
        out: &mut Outcome,
    ) -> Result<bool, AllocError> {
        self.asked = self.asked.saturating_add(1);
        if self.left == 0 {
            return Err(self.fail());
        }
        self.left -= 1;
        match mark(path.as_bytes(), out) {
            Ok(()) => Ok(true),
            Err(AllocError) => Err(self.fail()),
        }
    }
}

/// Sets the attribute `gen` of the path `x`.
fn mark(path: &[u8], out: &mut Outcome) -> Result<(), AllocError>
    ensures ok { OnOk result (out.new
        ≡ (if bytes_eq path.now (codes "x") then set_state out.old (codes "gen") Set else out.old)) }
    ensures names { names_of out.new ≡ names_of out.old }
{
    if path == b"x".as_slice() {
        out.set(b"gen", StateRef::Set)?;
    }
    Ok(())
}

/// The text of the variable with this name, if it is set.
pub fn text_of<'e>(variables: &'e [(&'e str, &'e str)], name: &str) -> Option<&'e str> {
    for (other, text) in variables {
        if *other == name {
            return Some(*text);
        }
    }
    None
}

/// The list of these states by their names.
pub fn listed(
    alloc: Global,
    states: &[(&str, StateRef<'_>)],
) -> Result<Vec<Assignment>, AllocError> {
    let mut listed = Vec::new(alloc);
    for (name, state) in states {
        if let Some(name) = Name::from_bytes(alloc, name.as_bytes())? {
            let state = state.to_state(alloc)?;
            listed.push(Assignment { name, state })?;
        }
    }
    Ok(listed)
}

/// Asks a look-up through its bound.
pub fn ask<L: LookUp>(look_up: &mut L, path: &str, out: &mut Outcome) -> Result<bool, L::Fault> {
    out.reset();
    look_up.look_up(BStr::new(path.as_bytes()), Case::Sensitive, false, out)
}

/// Whether an outcome has these states.
pub fn has_states(found: &Outcome, want: &[StateRef<'_>]) -> bool {
    for (place, state) in want.iter().enumerate() {
        if place >= found.len() || found.state(place) != *state {
            return false;
        }
    }
    found.len() == want.len()
}
