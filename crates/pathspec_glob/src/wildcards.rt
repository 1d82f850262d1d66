//! The first wildcard byte of a text, which is sought among sixteen bytes at once.
ghost use Rattle.std.specs.Prelude.{◌≡◌, ◌==◌, ◌+◌, ◌≤◌, drop, if◌then◌else◌, length, min};
ghost use Rattle.std.specs.Int.{trailing_zeros, w64};
ghost use Rattle.std.specs.List.{position, position_or_len};
ghost use Rattle.pathspec_glob.specs.Bytes.{is_wildcard};

use std::simd::prelude::*;

/// The count of bytes that are looked at together.
const LANES: usize = 16;

/// The wildcard bytes.
const WILDCARDS: [u8; 4] = *b"*?[\\";

/// The place of the first wildcard byte.
pub fn place_of_wildcard(text: &[u8]) -> Option<usize>
    ensures { result ≡ position is_wildcard text.now }
{
    let place = plain_bytes(text);
    if place < text.len() {
        Some(place)
    } else {
        None
    }
}

/// The count of bytes before the first wildcard byte, or of all where there is none. The last sixteen bytes of a text are
/// looked at together, so some may be looked at twice.
fn plain_bytes(text: &[u8]) -> usize
    ensures { result ≡ position_or_len is_wildcard text.now }
{
    if text.len() < LANES {
        return plain_bytes_one_by_one(text);
    }
    let last = text.len() - LANES;
    let mut at = 0;
    while at < last {
        let plain = plain_lanes(text, at);
        if plain < LANES {
            return at + plain;
        }
        at += LANES;
    }
    last + plain_lanes(text, last)
}

/// The count of bytes of a short text before its first wildcard byte, looked at one by one.
fn plain_bytes_one_by_one(text: &[u8]) -> usize
    ensures { result ≡ position_or_len is_wildcard text.now }
{
    text.iter().take_while(|byte| !is_wildcard(**byte)).count()
}

/// The count of bytes, among the sixteen from a place on, before the first wildcard byte; 16 without one.
#[inline(always)]
fn plain_lanes(text: &[u8], at: usize) -> usize
    requires { at + LANES ≤ length text.now }
    ensures { result ≡ min LANES (position_or_len is_wildcard (drop at text.now)) }
{
    let bytes = u8x16::from_slice(&text[at..]);
    let [star, question, bracket, backslash] = WILDCARDS;
    let runs = bytes.simd_eq(u8x16::splat(star)) | bytes.simd_eq(u8x16::splat(question));
    let quotes = bytes.simd_eq(u8x16::splat(bracket)) | bytes.simd_eq(u8x16::splat(backslash));
    first_set((runs | quotes).to_bitmask(), LANES)
}

/// The place of the lowest bit that is set, or `none` without one.
#[inline(always)]
fn first_set(mask: u64, none: usize) -> usize
    ensures { result ≡ (if mask == 0 then none else trailing_zeros w64 mask) }
{
    if mask == 0 {
        none
    } else {
        mask.trailing_zeros() as usize
    }
}

/// Whether the byte is one of `*`, `?`, `[` and `\`, with which a wildcard begins in a glob.
pub fn is_wildcard(byte: u8) -> bool
    ensures { result ≡ is_wildcard byte }
{
    let [star, question, bracket, backslash] = WILDCARDS;
    byte == star || byte == question || byte == bracket || byte == backslash
}
