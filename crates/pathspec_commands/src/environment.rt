//! Variables of the environment.
use crate::Failure;
use std::env::{self, VarError};
use std::rt::Env;

/// A variable of the environment, or None where it isn't set.
///
/// # Errors
/// Its value isn't UTF-8.
pub(crate) fn variable<R: Env + AllocGlobal>(
    rt: &R,
    name: &str,
) -> Result<Option<String>, Failure> {
    match env::var(rt, name) {
        Ok(value) => Ok(Some(value)),
        Err(VarError::NotPresent) => Ok(None),
        Err(VarError::NotUnicode) => Err(Failure::Told(format!(in rt.alloc();
            "error: environment: {name} isn't UTF-8\n"
        )?)),
        Err(VarError::OutOfMemory) => Err(Failure::Memory),
    }
}
