//! The look-up where no attributes were given.
ghost use Rattle.std.specs.Prelude.{[]};
ghost use Rattle.pathspec_parts.specs.AttributeRows.{table_of};

use bstr::BStr;
use gix_pathspec::attributes::{Case, LookUp, Outcome};
use std::convert::Infallible;

/// A look-up by which all attributes of each path are unspecified, as by git where no file gives any. It never fails.
#[derive(Clone, Copy, Debug)]
pub(crate) struct EmptyRows;

impl LookUp for EmptyRows {
    type Fault = Infallible;

    ghost table = { λ _. table_of [] };

    ghost failures = { λ _. 0 };

    fn look_up(
        &mut self,
        _path: BStr<'_>,
        _case: Case,
        _is_dir: bool,
        _out: &mut Outcome,
    ) -> Result<bool, Infallible> {
        Ok(true)
    }
}
