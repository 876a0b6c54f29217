//! The search of sixteen control bytes at once, in the lanes of one vector.
ghost use Rattle.std.specs.Prelude.{◌≡◌, ◌<◌, ⊤, length, is_some};
ghost use Rattle.std.specs.Iterator.{YieldsFirst, MakesProgress, item_count};
ghost use Rattle.std.proofs.Common.{refl};
ghost use Rattle.odht_base.specs.Groups.{IsReport, equal, first_free};

use super::free::free_bits;
use super::lane_set::LaneSet;
use super::{Group, IndexSet};
use std::marker::Model;
use std::simd::prelude::*;

/// How many control bytes are searched at once.
pub const GROUP_SIZE: usize = 16;

/// A search of sixteen control bytes. It iterates over its matches: exactly the indices of the
/// tag.
#[derive(Drop)]
pub struct GroupQuery {
    matches: LaneSet,
    free: IndexSet,
}

impl Model for GroupQuery {
    ghost use Rattle.std.specs.Prelude.{slice_get};
    ghost use Rattle.odht_base.specs.Groups.{GroupMatches};

    ghost Value = { GroupMatches };

    ghost view = { λ q. record { matches = q.matches; free = slice_get q.free 0 } };
}

impl GroupQuery {
    /// Searches a group for a tag, which is below 128.
    #[inline]
    pub fn from(group: &[u8; GROUP_SIZE], h2: u8) -> GroupQuery
        requires { h2 < 128 }
        ensures matches { result.matches ≡ equal group.now h2 }
        ensures free { result.free ≡ first_free group.now }
    {
        Group::of(group, h2)
    }

    /// Whether the group has a byte of 128 or more.
    #[inline]
    pub fn any_empty(&self) -> bool
        ensures { result ≡ is_some self.now.free }
    {
        Group::any_empty(self)
    }

    /// The least index of a byte of 128 or more, whether or not matches were dropped.
    #[inline]
    pub fn first_empty(&self) -> Option<usize>
        ensures { result ≡ self.now.free }
    {
        Group::first_empty(self)
    }
}

impl Group for GroupQuery {
    ghost SIZE = { 16 };

    ghost matches = { λ q. q.matches };

    ghost free = { λ q. q.free };

    const SIZE: usize = GROUP_SIZE;

    /// Searches a group for a tag, which is below 128.
    #[inline]
    fn of(bytes: &[u8], h2: u8) -> GroupQuery
        requires size { length bytes.now ≡ 16 }
        requires tag { h2 < 128 }
        ensures matches { IsReport bytes.now h2 result.matches }
        ensures equal { result.matches ≡ equal bytes.now h2 }
        ensures free { result.free ≡ first_free bytes.now }
    {
        let lanes = u8x16::from_slice(bytes);
        GroupQuery {
            matches: LaneSet::of_bits(lanes.simd_eq(u8x16::splat(h2)).to_bitmask()),
            free: IndexSet::of_bits(free_bits(lanes)),
        }
    }

    #[inline]
    fn any_empty(&self) -> bool {
        !self.free.is_empty()
    }

    #[inline]
    fn first_empty(&self) -> Option<usize> {
        self.free.first()
    }

    #[inline]
    fn first_match(&self) -> Option<usize> {
        self.matches.first()
    }

    #[inline]
    fn drop_match(&mut self) {
        self.matches.drop_first();
    }

    ghost divides = { refl };
}

impl Iterator for GroupQuery {
    type Item = usize;

    ghost next_gives = { YieldsFirst (λ q. q.matches) };

    ghost remaining = { item_count (λ q. q.matches) };

    /// Takes the least match that is left.
    #[inline]
    fn next(&mut self) -> Option<usize>
        ensures steps { YieldsFirst (λ q. q.matches) self.old result self.new }
        ensures goes { MakesProgress (λ _. ⊤)
            (item_count (λ q. q.matches)) self.old result self.new }
        ensures free { self.new.free ≡ self.old.free }
    {
        self.matches.take()
    }
}
