//! The names of `swisstable_group_query` as the port promises them (`base` says how).
ghost use Rattle.std.specs.Prelude.{◌≡◌, ◌<◌, length};

use crate::checks::same;
use odht::swisstable_group_query::{
    GROUP_SIZE, Group, GroupQuery, REFERENCE_GROUP_SIZE, lanes, no_simd,
};

// Two bytes of which the first is the tag 3 and the second the tag 2, and free ones.
const WORD: [u8; 8] = [3, 2, 255, 255, 255, 255, 255, 255];

const LANES: [u8; 16] = [
    3, 2, 255, 255, 255, 255, 255, 255, 255, 255, 255, 255, 255, 255, 255, 255,
];

// The matches that a group search takes first, second and third, and its first free byte.
fn taken<Q: Group>(bytes: &[u8], h2: u8) -> ([Option<usize>; 3], Option<usize>)
    requires size { length bytes.now ≡ Q.SIZE }
    requires tag { h2 < 128 }
{
    let mut group: Q = Q::of(bytes, h2);
    let first: Option<usize> = group.next_match();
    let second: Option<usize> = group.next_match();
    let third: Option<usize> = group.next_match();
    let free: Option<usize> = group.first_empty();
    ([first, second, third], free)
}

// Whether a group has a free byte, and how many bytes its search takes.
fn is_free<Q: Group>(bytes: &[u8]) -> (bool, usize)
    requires { length bytes.now ≡ Q.SIZE }
{
    let group: Q = Q::of(bytes, 0);
    let is_free: bool = group.any_empty();
    let size: usize = Q::SIZE;
    (is_free, size)
}

// A word reports the neighbour of the tag too; lanes report only the tag.
#[test]
fn group_searches(rt: HostRuntime) {
    let reference: usize = REFERENCE_GROUP_SIZE;
    same(&rt, "REFERENCE_GROUP_SIZE", reference, 16);
    let (matches, free) = taken::<no_simd::GroupQuery>(&WORD, 3_u8);
    same(&rt, "a word", matches, [Some(0), Some(1), None]);
    same(&rt, "its first free byte", free, Some(2));
    let (matches, free) = taken::<lanes::GroupQuery>(&LANES, 3_u8);
    same(&rt, "lanes", matches, [Some(0), None, None]);
    same(&rt, "their first free byte", free, Some(2));
    same(
        &rt,
        "a word",
        is_free::<no_simd::GroupQuery>(&WORD),
        (true, 8),
    );
    same(
        &rt,
        "lanes",
        is_free::<lanes::GroupQuery>(&LANES),
        (true, 16),
    );
}

// The size of whichever of the two is compiled in.
#[test]
fn compiled_in_size(rt: HostRuntime) {
    let size: usize = <GroupQuery as Group>::SIZE;
    same(&rt, "the size", size, GROUP_SIZE);
}
