//! Each growth of a call refused in turn: what it answers, and what stands then.
//!
//! A test can't have `malloc` refuse a growth. `bench/growths` runs these tests with one that takes some sizes for commands.
//! Elsewhere it refuses none, and each call is made once.
use std::alloc::{AllocError, Global};
use std::test::Fail;

/// A size that no machine has, and with it a command to the `malloc` of `bench/growths`.
const COMMAND: usize = 1 << 60;

/// The number for no growth.
pub const NONE: usize = 0;

/// The number for all growths.
pub const ALL: usize = 1 << 32;

/// How many growths a call may have.
const MOST: usize = 10_000;

/// Refuses the growth with this number from now on, where the next one is 1.
pub fn refuse(alloc: Global, number: usize) {
    let _: Result<Vec<u8>, AllocError> = Vec::with_capacity(alloc, COMMAND | number);
}

/// A call that may be made while one of its growths is refused.
pub trait Refusable {
    /// Makes the call while the growth with a number is refused, and says whether it answers as with memory. None where it
    /// tells that memory ran out, leaves what it was given, and answers when it is made again.
    fn end(&self, alloc: Global, number: usize) -> Result<Option<bool>, Fail>;
}

/// Whether a call ends rightly with its first growth refused, its second, and so on until none is.
fn ends_rightly<C: Refusable>(alloc: Global, call: &C) -> Result<bool, Fail> {
    for number in 1..MOST {
        if let Some(is_right) = call.end(alloc, number)? {
            return Ok(is_right);
        }
    }
    Ok(false)
}

/// Asserts that each call ends rightly, whichever of its growths is refused.
pub fn assert_calls<C: Refusable>(alloc: Global, calls: &[C]) -> Result<(), Fail> {
    for (number, call) in calls.iter().enumerate() {
        if !ends_rightly(alloc, call)? {
            return Err(Fail::new(format_args!("call {number}")));
        }
    }
    Ok(())
}

/// A call on something that stays as it is, for the call that is made again after a refusal.
pub trait Call {
    type Given: Drop;

    /// The value that the call is made on.
    fn given(&self, alloc: Global) -> Result<Self::Given, Fail>;

    /// Whether the call answers what it has to; or memory ran out.
    fn make(&self, alloc: Global, given: &mut Self::Given) -> Result<bool, AllocError>;
}

/// A call on a value, to be made with each growth refused.
#[derive(Clone, Copy)]
pub struct Calls<C>(pub C);

impl<C: Call> Refusable for Calls<C> {
    fn end(&self, alloc: Global, number: usize) -> Result<Option<bool>, Fail> {
        end_of_call(alloc, number, &self.0)
    }
}

/// How a call ends, which is made again where memory ran out.
fn end_of_call<C: Call>(alloc: Global, number: usize, call: &C) -> Result<Option<bool>, Fail> {
    let mut given = call.given(alloc)?;
    refuse(alloc, number);
    let answer = call.make(alloc, &mut given);
    refuse(alloc, NONE);
    match answer {
        Ok(is_right) => Ok(Some(is_right)),
        Err(AllocError) => Ok(wrong_unless(call.make(alloc, &mut given) == Ok(true))),
    }
}

/// How a call ends that told that memory ran out, if all is right then.
fn wrong_unless(is_right: bool) -> Option<bool> {
    if is_right { None } else { Some(false) }
}

/// A call that makes a value.
pub trait Making {
    /// Whether the call makes what it has to; or memory ran out.
    fn make(&self, alloc: Global) -> Result<bool, AllocError>;
}

/// A call that makes a value, to be made with each growth refused.
#[derive(Clone, Copy)]
pub struct Makes<M>(pub M);

impl<M: Making> Refusable for Makes<M> {
    fn end(&self, alloc: Global, number: usize) -> Result<Option<bool>, Fail> {
        Ok(end_of_making(alloc, number, &self.0))
    }
}

/// How a call ends that makes a value, which is made again where memory ran out.
fn end_of_making<M: Making>(alloc: Global, number: usize, making: &M) -> Option<bool> {
    refuse(alloc, number);
    let answer = making.make(alloc);
    refuse(alloc, NONE);
    match answer {
        Ok(is_right) => Some(is_right),
        Err(AllocError) => wrong_unless(making.make(alloc) == Ok(true)),
    }
}

/// A call that changes a value.
pub trait Changing {
    type Value: Drop;

    /// The value before the call.
    fn before(&self, alloc: Global) -> Result<Self::Value, Fail>;

    /// Makes the call: whether it has no fault; or memory ran out.
    fn change(&self, alloc: Global, value: &mut Self::Value) -> Result<bool, AllocError>;

    /// Whether two values are the same. The first may be asked, and stays as it is.
    fn is_same(
        &self,
        alloc: Global,
        value: &mut Self::Value,
        other: &Self::Value,
    ) -> Result<bool, Fail>;
}

/// The call that changes this.
#[derive(Clone, Copy)]
pub struct Changes<C>(pub C);

impl<C: Changing> Refusable for Changes<C> {
    fn end(&self, alloc: Global, number: usize) -> Result<Option<bool>, Fail> {
        end_of_changing(alloc, number, &self.0)
    }
}

/// Whether a value is as it is before the call, or after it where that is asked.
fn stands<C: Changing>(
    alloc: Global,
    changing: &C,
    value: &mut C::Value,
    is_after: bool,
) -> Result<bool, Fail> {
    let mut other = changing.before(alloc)?;
    if is_after && changing.change(alloc, &mut other) != Ok(true) {
        return Err("a call is refused that has memory".into());
    }
    changing.is_same(alloc, value, &other)
}

/// How a call ends that changes a value.
fn end_of_changing<C: Changing>(
    alloc: Global,
    number: usize,
    changing: &C,
) -> Result<Option<bool>, Fail> {
    let mut value = changing.before(alloc)?;
    refuse(alloc, number);
    let answer = changing.change(alloc, &mut value);
    refuse(alloc, NONE);
    if let Ok(is_right) = answer {
        return Ok(Some(is_right && stands(alloc, changing, &mut value, true)?));
    }
    let stays = stands(alloc, changing, &mut value, false)?;
    let goes = changing.change(alloc, &mut value) == Ok(true);
    Ok(wrong_unless(stays && goes && stands(alloc, changing, &mut value, true)?))
}
