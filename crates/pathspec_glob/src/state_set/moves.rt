//! The moves between states that take no byte.
ghost use Rattle.std.specs.Prelude.{◌≡◌, length, IfOk};

use crate::bit_vec::BitVec;
use crate::tokens::Tokens;
use std::alloc::{AllocError, Global};

/// The moves that take no byte (the empty moves of an automaton).
#[derive(Drop)]
pub struct EmptyMoves {
    /// Bit `i`: token `i` takes any number of bytes, so an active state `i` leads to state `i + 1`.
    pub(super) wide: BitVec,
    /// Bit `i`: tokens `i` and `i + 1` are `**/`, which may match nothing, so an entered state `i` leads to state `i + 2`.
    pub(super) skippable: BitVec,
    ghost one_size: { length skippable ≡ length wide },
}

impl EmptyMoves {
    ghost use Rattle.pathspec_glob.specs.StateSets.{IsMovesOf};

    /// Makes the moves of tokens. The cost is linear in them, and the memory is two bits a token.
    ///
    /// # Errors
    /// Memory runs out.
    pub fn of_tokens(alloc: Global, tokens: &Tokens) -> Result<EmptyMoves, AllocError>
        ensures { IfOk result (λ moves. IsMovesOf tokens.now moves) }
    {
        let mut wide = BitVec::of_len(alloc, tokens.len())?;
        let mut skippable = BitVec::of_len(alloc, tokens.len())?;
        for place in 0..tokens.len() {
            wide.set(place, tokens.is_wide(place));
            skippable.set(place, tokens.may_pass_over(place));
        }
        Ok(EmptyMoves { wide, skippable })
    }
}
