//! Where a byte first stands, found in sixteen lanes of a vector at once.
ghost use Rattle.std.specs.Prelude.{◌≡◌, ◌≢◌, ◌≤◌, ◌==◌, length, All, MatchOption};
ghost use Rattle.std.specs.List.{position_or_len};
ghost use Rattle.odht_tool_core.specs.Cuts.{IsCutAt};

use std::simd::prelude::*;

/// The first place of the byte, or the length where it is nowhere.
pub(crate) fn place_of(bytes: &[u8], byte: u8) -> usize
    ensures place { result ≡ position_or_len (λ x. x == byte) bytes.now }
    ensures within { result ≤ length bytes.now }
{
    let mut at = 0;
    while bytes.len() - at >= 16 {
        let place = place_in_lanes(&bytes[at..at + 16], byte);
        if place < 16 {
            return at + place;
        }
        at += 16;
    }
    if at == bytes.len() {
        return at;
    }
    if at == 0 {
        return place_in_few(bytes, byte);
    }
    // The last sixteen, of which some were looked at before.
    let last = bytes.len() - 16;
    last + place_in_lanes(&bytes[last..], byte)
}

// The same of sixteen bytes.
#[inline(always)]
fn place_in_lanes(bytes: &[u8], byte: u8) -> usize
    requires { length bytes.now ≡ 16 }
    ensures { result ≡ position_or_len (λ x. x == byte) bytes.now }
{
    let bits = u8x16::from_slice(bytes)
        .simd_eq(u8x16::splat(byte))
        .to_bitmask();
    if bits == 0 {
        16
    } else {
        bits.trailing_zeros() as usize
    }
}

// The same of a few bytes, one after the other.
#[inline(always)]
fn place_in_few(bytes: &[u8], byte: u8) -> usize
    ensures place { result ≡ position_or_len (λ x. x == byte) bytes.now }
    ensures within { result ≤ length bytes.now }
{
    let mut at = 0;
    while at < bytes.len() && bytes[at] != byte {
        at += 1;
    }
    at
}

/// The bytes in front of the first place of the byte, and those behind it. None where it is
/// nowhere.
#[inline]
pub fn cut_at(bytes: &[u8], byte: u8) -> Option<(&[u8], &[u8])>
    ensures { MatchOption result (All (λ x. x ≢ byte) bytes.now)
        (λ parts. IsCutAt byte bytes.now parts.0.now parts.1.now) }
{
    let at = place_of(bytes, byte);
    if at == bytes.len() {
        return None;
    }
    Some((&bytes[..at], &bytes[at + 1..]))
}
