//! A first table: two inserts of one key, and a view of its bytes.
use crate::tests::checks::same;
use odht::bytes::Borrowed;
use odht::configs::U64ToU32;
use odht::error::Error;
use odht::{HashTable, HashTableOwned};

#[test]
fn a_first_table(rt: HostRuntime) -> Result<(), Error> {
    let mut table: HashTableOwned<U64ToU32> = HashTableOwned::with_capacity(rt.alloc(), 3, 95)?;
    let before = table.insert(&1, &2)?;
    let former = table.insert(&1, &5)?;
    let bytes = table.raw_bytes();
    let view: HashTable<U64ToU32, Borrowed<'_>> = HashTable::from_raw_bytes(Borrowed::new(bytes))?;
    let value = view.get(&1);
    same(&rt, "before", before, None);
    same(&rt, "former", former, Some(2));
    same(&rt, "bytes", bytes.len(), 256);
    same(&rt, "value", value, Some(5));
    same(&rt, "absent", view.get(&2), None);
    Ok(())
}
