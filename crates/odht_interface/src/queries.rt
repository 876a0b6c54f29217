//! The names that both group searches have themselves, without the trait, as the port promises
//! them (`base` says how). `Group` is not brought in here, so that a name which only the trait has
//! does not compile.
use crate::checks::same;
use odht::swisstable_group_query::{GROUP_SIZE, GroupQuery, lanes, no_simd};

// Two bytes of which the first is the tag 3 and the second the tag 2, and free ones.
const WORD: [u8; 8] = [3, 2, 255, 255, 255, 255, 255, 255];

const LANES: [u8; 16] = [
    3, 2, 255, 255, 255, 255, 255, 255, 255, 255, 255, 255, 255, 255, 255, 255,
];

// Compiles only at iterators of indices.
fn is_walk<I: Iterator<Item = usize>>(_matches: &I) {}

#[test]
fn word_search(rt: HostRuntime) {
    let group: [u8; no_simd::GROUP_SIZE] = WORD;
    let mut query: no_simd::GroupQuery = no_simd::GroupQuery::from(&group, 3_u8);
    let is_free: bool = no_simd::GroupQuery::any_empty(&query);
    let free: Option<usize> = no_simd::GroupQuery::first_empty(&query);
    is_walk(&query);
    let first: Option<usize> = query.next();
    let second: Option<usize> = query.next();
    same(&rt, "matches", (first, second), (Some(0), Some(1)));
    same(&rt, "free", (is_free, free), (true, Some(2)));
}

#[test]
fn lane_search(rt: HostRuntime) {
    let group: [u8; lanes::GROUP_SIZE] = LANES;
    let mut query: lanes::GroupQuery = lanes::GroupQuery::from(&group, 3_u8);
    let is_free: bool = lanes::GroupQuery::any_empty(&query);
    let free: Option<usize> = lanes::GroupQuery::first_empty(&query);
    is_walk(&query);
    let first: Option<usize> = query.next();
    let second: Option<usize> = query.next();
    same(&rt, "matches", (first, second), (Some(0), None));
    same(&rt, "free", (is_free, free), (true, Some(2)));
}

// Whichever of the two is compiled in.
#[test]
fn compiled_in_search(rt: HostRuntime) {
    let group: [u8; GROUP_SIZE] = [255; GROUP_SIZE];
    let mut query: GroupQuery = GroupQuery::from(&group, 3_u8);
    let is_free: bool = query.any_empty();
    let free: Option<usize> = query.first_empty();
    is_walk(&query);
    let first: Option<usize> = query.next();
    same(&rt, "a match", first, None);
    same(&rt, "free", (is_free, free), (true, Some(0)));
}
