//! The length of the front that two texts share, found many bytes at a time.
ghost use Rattle.std.specs.Prelude.{◌≡◌, ◌<◌, ◌≤◌, length, min};
ghost use Rattle.pathspec_heads.specs.Agreement.{agreement};

use std::simd::prelude::*;

/// The count of their first `LANES` bytes that two texts share.
#[inline(always)]
pub(crate) fn agreed_lanes<const LANES: usize>(left: &[u8], right: &[u8]) -> usize
    requires few { LANES ≤ 64 }
    requires left { LANES ≤ length left.now }
    requires right { LANES ≤ length right.now }
    ensures { result ≡ min LANES (agreement left.now right.now) }
{
    let left: Simd<u8, LANES> = Simd::from_slice(left);
    let right: Simd<u8, LANES> = Simd::from_slice(right);
    let apart = left.simd_ne(right).to_bitmask();
    if apart == 0 {
        LANES
    } else {
        apart.trailing_zeros() as usize
    }
}

/// The length of the shared front of two texts, of which the shorter has `LANES` bytes or more. It looks at so many at a time,
/// and in the end at the last ones, some of which it may look at twice.
#[inline(always)]
fn agreed_by<const LANES: usize>(left: &[u8], right: &[u8], shorter: usize) -> usize
    requires some { 0 < LANES }
    requires few { LANES ≤ 64 }
    requires least { LANES ≤ shorter }
    requires shorter { shorter ≡ min (length left.now) (length right.now) }
    ensures { result ≡ agreement left.now right.now }
{
    let last = shorter - LANES;
    let mut at = 0;
    while at < last {
        let agreed = agreed_lanes::<LANES>(&left[at..], &right[at..]);
        if agreed < LANES {
            return at + agreed;
        }
        at += LANES;
    }
    last + agreed_lanes::<LANES>(&left[last..], &right[last..])
}

/// The length of the shared front of two texts, found byte by byte.
fn agreed_one_by_one(left: &[u8], right: &[u8], shorter: usize) -> usize
    requires { shorter ≡ min (length left.now) (length right.now) }
    ensures { result ≡ agreement left.now right.now }
{
    for at in 0..shorter {
        if left[at] != right[at] {
            return at;
        }
    }
    shorter
}

/// The length of the front that two texts share: 3 for `lib` and `library`.
///
/// The call looks at sixteen, eight or four bytes at a time, as the shorter text allows.
#[inline(always)]
pub fn agreement(left: &[u8], right: &[u8]) -> usize
    ensures { result ≡ agreement left.now right.now }
{
    let shorter = left.len().min(right.len());
    if shorter >= 16 {
        agreed_by::<16>(left, right, shorter)
    } else if shorter >= 8 {
        agreed_by::<8>(left, right, shorter)
    } else if shorter >= 4 {
        agreed_by::<4>(left, right, shorter)
    } else {
        agreed_one_by_one(left, right, shorter)
    }
}
