//! The search of eight control bytes in one word of 64 bits.
ghost use Rattle.std.specs.Prelude.{◌≡◌, ◌<◌, ◌/◌, ⊤, length, map, slice_get, is_some};
ghost use Rattle.std.specs.Iterator.{YieldsFirst, MakesProgress, item_count};
ghost use Rattle.std.proofs.Common.{refl};
ghost use Rattle.odht_base.specs.Groups.{IsReport, IsWordReport, first_free};

use super::{Group, IndexSet};
use std::marker::Model;

/// How many control bytes are searched at once.
pub const GROUP_SIZE: usize = 8;

// One in each byte.
const LOW_BITS: u64 = 0x0101_0101_0101_0101;

// 128 in each byte.
const HIGH_BITS: u64 = 0x8080_8080_8080_8080;

/// A search of eight control bytes. It iterates over its matches.
///
/// Beside each byte that is the tag, a byte that differs from the tag in its lowest bit alone can
/// match, but only where the byte before it matches too: the subtraction of that byte borrows from
/// it.
#[derive(Drop)]
pub struct GroupQuery {
    matches: IndexSet,
    free: IndexSet,
}

impl Model for GroupQuery {
    ghost use Rattle.std.specs.Prelude.{◌/◌, map, slice_get};
    ghost use Rattle.odht_base.specs.Groups.{GroupMatches};

    ghost Value = { GroupMatches };

    ghost view = { λ q. record {
      matches = map (λ j. j / 8) q.matches;
      free = slice_get (map (λ j. j / 8) q.free) 0;
    } };
}

// The index of the byte with the least of these bits.
#[inline(always)]
fn first_byte(bits: &IndexSet) -> Option<usize>
    ensures { result ≡ slice_get (map (λ j. j / 8) bits.now) 0 }
{
    match bits.first() {
        Some(position) => Some(position / 8),
        None => None,
    }
}

impl GroupQuery {
    /// Searches a group for a tag, which is below 128.
    #[inline]
    pub fn from(group: &[u8; GROUP_SIZE], h2: u8) -> GroupQuery
        requires { h2 < 128 }
        ensures matches { IsWordReport group.now h2 result.matches }
        ensures free { result.free ≡ first_free group.now }
    {
        let group = u64::from_le_bytes(*group);
        let cmp = group ^ (h2 as u64 * LOW_BITS);
        GroupQuery {
            matches: IndexSet::of_bits(cmp.wrapping_sub(LOW_BITS) & (!cmp & HIGH_BITS)),
            free: IndexSet::of_bits(group & HIGH_BITS),
        }
    }

    /// Whether the group has a byte of 128 or more.
    #[inline]
    pub fn any_empty(&self) -> bool
        ensures { result ≡ is_some self.now.free }
    {
        Group::any_empty(self)
    }

    /// The least index of a byte of 128 or more, whether or not matches were dropped.
    #[inline]
    pub fn first_empty(&self) -> Option<usize>
        ensures { result ≡ self.now.free }
    {
        Group::first_empty(self)
    }
}

impl Group for GroupQuery {
    ghost SIZE = { 8 };

    ghost matches = { λ q. q.matches };

    ghost free = { λ q. q.free };

    const SIZE: usize = GROUP_SIZE;

    /// Searches a group for a tag, which is below 128.
    #[inline]
    fn of(bytes: &[u8], h2: u8) -> GroupQuery
        requires size { length bytes.now ≡ 8 }
        requires tag { h2 < 128 }
        ensures matches { IsReport bytes.now h2 result.matches }
        ensures word { IsWordReport bytes.now h2 result.matches }
        ensures free { result.free ≡ first_free bytes.now }
    {
        let Some(group) = bytes.first_chunk::<GROUP_SIZE>() else {
            unreachable!()
        };
        GroupQuery::from(group, h2)
    }

    #[inline]
    fn any_empty(&self) -> bool {
        !self.free.is_empty()
    }

    #[inline]
    fn first_empty(&self) -> Option<usize> {
        first_byte(&self.free)
    }

    #[inline]
    fn first_match(&self) -> Option<usize> {
        first_byte(&self.matches)
    }

    #[inline]
    fn drop_match(&mut self) {
        self.matches.drop_first();
    }

    ghost divides = { refl };
}

impl Iterator for GroupQuery {
    type Item = usize;

    ghost next_gives = { YieldsFirst (λ q. q.matches) };

    ghost remaining = { item_count (λ q. q.matches) };

    /// Takes the least match that is left.
    #[inline]
    fn next(&mut self) -> Option<usize>
        ensures steps { YieldsFirst (λ q. q.matches) self.old result self.new }
        ensures goes { MakesProgress (λ _. ⊤)
            (item_count (λ q. q.matches)) self.old result self.new }
        ensures free { self.new.free ≡ self.old.free }
    {
        let index = self.first_match()?;
        self.drop_match();
        Some(index)
    }
}
