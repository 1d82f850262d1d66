//! Room for globs.
ghost use Rattle.std.specs.Prelude.{◌≡◌, IfOk};
ghost use Rattle.std.specs.Box.{box_value};
ghost use Rattle.pathspec_glob.specs.Globs.{room_for};

use pathspec_glob::Scratch;
use std::alloc::{AllocError, Global};

/// Room for a glob of so many tokens. It is boxed: then a test is proved without a look at what a scratch is made of.
pub fn boxed_room(alloc: Global, tokens: usize) -> Result<Box<Scratch>, AllocError>
    ensures { IfOk result (λ scratch. box_value scratch ≡ room_for tokens) }
{
    Ok(Box::new(alloc, Scratch::for_tokens(alloc, tokens)?)?)
}
