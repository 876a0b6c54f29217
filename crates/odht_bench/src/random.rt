//! Pseudo-random keys and values.

use crate::stopped::Stopped;
use odht::bytes::write_slice;
use std::alloc::Global;

/// A sequence of pseudo-random numbers of a seed: splitmix64, by Sebastiano Vigna.
#[derive(Drop)]
pub struct Random {
    state: u64,
}

impl Random {
    /// The sequence of a seed.
    pub fn new(seed: u64) -> Random {
        Random { state: seed }
    }

    /// The next number.
    #[inline(always)]
    pub fn next(&mut self) -> u64 {
        self.state = self.state.wrapping_add(0x9e37_79b9_7f4a_7c15);
        let mixed = (self.state ^ (self.state >> 30)).wrapping_mul(0xbf58_476d_1ce4_e5b9);
        let mixed = (mixed ^ (mixed >> 27)).wrapping_mul(0x94d0_49bb_1331_11eb);
        mixed ^ (mixed >> 31)
    }
}

/// A type of keys or values that can be drawn.
pub trait Sample: Copy {
    /// One that is drawn.
    fn sample(random: &mut Random) -> Self;
}

impl Sample for u32 {
    #[inline(always)]
    fn sample(random: &mut Random) -> u32 {
        (random.next() >> 32) as u32
    }
}

impl Sample for u64 {
    #[inline(always)]
    fn sample(random: &mut Random) -> u64 {
        random.next()
    }
}

impl Sample for () {
    #[inline(always)]
    fn sample(_random: &mut Random) {}
}

impl<const N: usize> Sample for [u8; N] {
    #[inline(always)]
    fn sample(random: &mut Random) -> [u8; N] {
        let mut bytes = [0; N];
        for word in 0..N / 8 {
            write_slice(&mut bytes, 8 * word, &random.next().to_le_bytes());
        }
        let last = random.next().to_le_bytes();
        for (byte, drawn) in bytes.iter_mut().skip(N / 8 * 8).zip(&last) {
            *byte = *drawn;
        }
        bytes
    }
}

/// A list of keys.
pub fn keys<K: Sample>(
    alloc: Global,
    count: usize,
    random: &mut Random,
) -> Result<Vec<K>, Stopped> {
    let mut list = Vec::with_capacity(alloc, count)?;
    for _ in 0..count {
        list.push(K::sample(random))?;
    }
    Ok(list)
}

/// A list of keys with their values.
pub fn items<K: Sample, V: Sample>(
    alloc: Global,
    count: usize,
    random: &mut Random,
) -> Result<Vec<(K, V)>, Stopped> {
    let mut list = Vec::with_capacity(alloc, count)?;
    for _ in 0..count {
        list.push((K::sample(random), V::sample(random)))?;
    }
    Ok(list)
}

/// The keys of a list in another order: from each the step leads far on.
pub fn keys_in_other_order<K: Copy, V>(alloc: Global, items: &[(K, V)]) -> Result<Vec<K>, Stopped> {
    let mut list = Vec::with_capacity(alloc, items.len())?;
    let mut at = 0;
    for _ in 0..items.len() {
        at = stepped(at, items.len());
        if let Some((key, _)) = items.get(at) {
            list.push(*key)?;
        }
    }
    Ok(list)
}

// The index that comes after another one. The step is a prime, so that all come where it does not
// divide the count.
fn stepped(at: usize, count: usize) -> usize {
    match at.wrapping_add(1_000_003).checked_rem(count) {
        Some(next) => next,
        None => 0,
    }
}
