//! Walks as a caller counts and collects them.
ghost use Rattle.std.specs.Prelude.{◌≡◌, IfOk};
ghost use Rattle.odht_base.specs.Table.{walk, count};
ghost use Rattle.odht_raw.specs.Walks.{decoded_all};

use crate::tests::checks::{same_answer, same_len, same_pairs};
use odht::config::Coded;
use odht::configs::U32ToU32;
use odht::{Config, HashTableOwned};
use std::alloc::{AllocError, Global};

// How many pairs a walk of the table gives.
fn counted<C: Config>(table: &HashTableOwned<C>) -> usize
    ensures { result ≡ count table.now }
{
    table.iter().count()
}

// The pairs that a walk of the table gives.
fn collected<C: Config>(
    alloc: Global,
    table: &HashTableOwned<C>,
) -> Result<Vec<(C::Key, C::Value)>, AllocError>
    ensures { let c = ⟦<C as Coded>⟧.coding
        in IfOk result (λ pairs. pairs.items ≡ decoded_all c (walk table.now)) }
{
    table.iter().collect(alloc)
}

// The keys 1 and 3 have the slots 5 and 15.
#[test]
fn pairs_in_slot_order(rt: HostRuntime) {
    let made = HashTableOwned::<U32ToU32>::default(rt.alloc());
    let mut table = made.expect(&rt, "a table");
    same_len(&rt, "pairs that come", counted(&table), 0);
    same_answer(&rt, 3, table.insert(&3, &4), Ok(None));
    same_answer(&rt, 1, table.insert(&1, &2), Ok(None));
    same_len(&rt, "pairs that come", counted(&table), 2);
    let found = collected(rt.alloc(), &table).expect(&rt, "memory");
    same_pairs(&rt, found.as_slice(), &[(1, 2), (3, 4)]);
}
