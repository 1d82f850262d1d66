//! The look-up of callers without attributes.
ghost use Rattle.std.specs.Prelude.{false};
ghost use Rattle.pathspec_parts.specs.Outcomes.{states_of, unspecified};

use crate::attributes::{Case, LookUp, Outcome};
use bstr::BStr;
use std::convert::Infallible;

/// A look-up that has no answer for any path: each attribute is unspecified. It never fails.
///
/// With it `:(attr:text)x` matches nothing, and neither does `:(attr:!text)x`, since a spec with attributes wants an answer.
#[derive(Clone, Copy, Debug, Default)]
pub struct NoAttributes;

impl LookUp for NoAttributes {
    type Fault = Infallible;

    ghost table = { λ _ q. record { found = false; states = states_of (unspecified q.names) } };

    ghost failures = { λ _. 0 };

    fn look_up(
        &mut self,
        _path: BStr<'_>,
        _case: Case,
        _is_dir: bool,
        _out: &mut Outcome,
    ) -> Result<bool, Infallible> {
        Ok(false)
    }
}
