//! The room that matches work in, with the count of their steps, which nothing else has.
ghost use Rattle.std.specs.Prelude.{◌≡◌, ◌+◌, ◌*◌, ◌<◌, ◌^◌, nat_lt, IfOk};
ghost use Rattle.pathspec_glob.specs.Counts.{BeginsAnew, HasNoSteps, KeepsCount};
ghost use Rattle.pathspec_glob.specs.Globs.{room_for};

use crate::counted::Tests;
use crate::state_set::StateSet;
use std::alloc::{AllocError, Global};
use std::fmt;
use std::marker::Model;

/// The key that counts of tests are spent with. Only the count of a scratch has one, so no test goes to another count.
#[derive(Drop)]
pub struct Key {
    own: (),
}

/// Counts of steps. A step is one token tested at one position of a text. Only tests raise a count, and only a scratch has
/// one.
#[derive(Drop)]
pub struct Steps {
    /// Steps of the last match.
    last: u128,
    /// Steps of all matches together, modulo 2^128.
    total: u128,
    key: Key,
}

impl Steps {
    /// Makes counts of no steps.
    fn none() -> Steps
        ensures { HasNoSteps result }
    {
        Steps {
            last: 0,
            total: 0,
            key: Key { own: () },
        }
    }

    /// Sets the count of the last match to 0. The total stays.
    pub fn begin(&mut self)
        ensures { BeginsAnew self.old self.new }
    {
        self.last = 0;
    }

    /// Counts a step for each test, and says whether there were any.
    #[inline(always)]
    pub fn add(&mut self, tests: Tests) -> bool
        requires { self.old.last + tests.tokens * tests.count < 2 ^ 128 }
        ensures any { result ≡ nat_lt 0 (tests.tokens * tests.count) }
        ensures steps { self.new.last ≡ self.old.last + tests.tokens * tests.count }
        ensures counted { KeepsCount self.old self.new }
    {
        let steps = tests.spend(&self.key);
        self.last += steps;
        self.total = self.total.wrapping_add(steps);
        steps > 0
    }
}

/// The room that a match works in, with the counts of its steps.
#[derive(Drop)]
pub struct Scratch {
    pub(crate) states: StateSet,
    pub(crate) steps: Steps,
}

impl Model for Scratch {
    ghost use Rattle.std.specs.Prelude.{◌≡◌};
    ghost use Rattle.pathspec_glob.specs.StateSets.{IsPaired};
    ghost use Rattle.pathspec_glob.specs.Globs.{Room, room_of};

    ghost Value = { Room };

    ghost view = { λ s. room_of s.states s.steps };

    ghost invariant = { λ s. IsPaired s.states };
}

impl fmt::Debug for Scratch {
    fn fmt<W: fmt::Write>(&self, f: &mut fmt::Formatter<W>) -> fmt::Result {
        f.debug_struct("Scratch")
            .field("tokens", &self.states.room())
            .field("last_steps", &self.steps.last)
            .finish()
    }
}

impl Scratch {
    /// Makes room for globs of at most `tokens` tokens.
    ///
    /// # Errors
    /// Memory runs out.
    pub fn for_tokens(alloc: Global, tokens: usize) -> Result<Scratch, AllocError>
        ensures { IfOk result (λ scratch. scratch ≡ room_for tokens) }
    {
        Ok(Scratch {
            states: StateSet::for_tokens(alloc, tokens)?,
            steps: Steps::none(),
        })
    }

    /// The count of steps of the last match; 0 before the first. A step is one token tested at one position of the text.
    pub fn last_steps(&self) -> u128
        ensures { result ≡ self.now.steps }
    {
        self.steps.last
    }

    /// The count of steps of all matches together, modulo 2^128.
    pub fn total_steps(&self) -> u128
        ensures { result ≡ self.now.total_steps }
    {
        self.steps.total
    }
}
