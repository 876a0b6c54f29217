//! Orders of inserts of tables of lists that look random: one is found, it lists the occupied
//! slots, and its inserts make the table again. Single tables, and tables that no inserts make,
//! are in crates/odht_vectors/data/insert_orders.txt.
use crate::tests::checks::{same, same_bytes};
use crate::tests::dynamic_orders::check_order;
use odht::bytes::ByteArray;
use odht::laws::rebuilt;
use odht::{Config, HashTableOwned};
use std::alloc::Global;
use std::process::Abort;

// A table's bytes, whatever length its keys and values have. They are read by docs/FORMAT.md,
// "Layout".
#[derive(Clone, Copy)]
struct Bytes<'a>(&'a [u8]);

impl<'a> Bytes<'a> {
    // The byte at an offset, and 0 past the end.
    fn byte(&self, at: usize) -> u8 {
        self.0.get(at).copied().unwrap_or(0)
    }

    // The slot count of the header, of tables with fewer than 2^16 slots.
    fn slots(&self) -> usize {
        u16::from_le_bytes([self.byte(16), self.byte(17)]) as usize
    }

    // Where the control bytes begin: with the sixteen of the mirror they are the last.
    fn controls(&self) -> usize {
        self.0.len().wrapping_sub(16).wrapping_sub(self.slots())
    }

    // The slots whose control byte is that of an occupied one, rising.
    fn occupied_slots(&self, rt: &impl Abort, alloc: Global) -> Vec<usize> {
        let mut occupied = Vec::new(alloc);
        for slot in 0..self.slots() {
            if self.byte(self.controls().wrapping_add(slot)) < 128 {
                occupied.push(slot).expect(rt, "memory");
            }
        }
        occupied
    }

    // The array that begins at an offset.
    fn array<A: ByteArray>(&self, rt: &impl Abort, at: usize) -> A {
        let bytes = self.0;
        assert!(rt; at <= bytes.len());
        let (_, rest) = bytes.split_at(at);
        assert!(rt; A::LEN <= rest.len());
        A::from_slice(&rest[..A::LEN])
    }

    // The key and the value in the entry of a slot.
    fn pair<C: Config>(&self, rt: &impl Abort, slot: usize) -> (C::Key, C::Value) {
        let width = C::EncodedKey::LEN.wrapping_add(C::EncodedValue::LEN);
        let at = slot.wrapping_mul(width).wrapping_add(32);
        let key = C::decode_key(&self.array(rt, at));
        let value = C::decode_value(&self.array(rt, at.wrapping_add(C::EncodedKey::LEN)));
        (key, value)
    }
}

// The keys and values of these slots, in this order.
fn items_of<C: Config>(
    rt: &impl Abort,
    alloc: Global,
    bytes: Bytes<'_>,
    order: &[usize],
) -> Vec<(C::Key, C::Value)> {
    let mut items = Vec::new(alloc);
    for slot in order {
        items.push(bytes.pair::<C>(rt, *slot)).expect(rt, "memory");
    }
    items
}

// Asserts that an order lists the occupied slots, each once.
fn check_slots(rt: &impl Abort, alloc: Global, bytes: Bytes<'_>, order: &[usize]) {
    let mut rising = order.to_vec(alloc).expect(rt, "memory");
    rising.as_mut_slice().sort_unstable();
    let occupied = bytes.occupied_slots(rt, alloc);
    same(
        rt,
        "slots of the order",
        rising.as_slice(),
        occupied.as_slice(),
    );
}

// Asserts that the search in linear time finds the order too.
fn check_linear_order<C: Config>(
    rt: &impl Abort,
    alloc: Global,
    table: &HashTableOwned<C>,
    order: &[usize],
) {
    let mut other = vec![in alloc; 0; table.len()].expect(rt, "memory");
    let mut scratch = vec![in alloc; 7; table.insert_order_scratch()].expect(rt, "memory");
    let is_found = table.insert_order_with(other.as_mut_slice(), scratch.as_mut_slice());
    same(rt, "an order in linear time", is_found, true);
    same(rt, "the same order", other.as_slice(), order);
}

/// Asserts that an order of inserts is found of a table that was made for that many items at 87
/// percent, the same where its lengths are numbers, that it lists each occupied slot once, and
/// that inserts in this order into a new table for as many leave its bytes.
pub fn check_insert_order<C: Config>(
    rt: &impl Abort,
    alloc: Global,
    table: &HashTableOwned<C>,
    max_item_count: usize,
) {
    let mut order = vec![in alloc; 0; table.len()].expect(rt, "memory");
    let is_found = table.insert_order(order.as_mut_slice());
    same(rt, "an order is found", is_found, true);
    check_linear_order(rt, alloc, table, order.as_slice());
    let bytes = Bytes(table.raw_bytes());
    check_order::<C::H>(rt, alloc, bytes.0, order.as_slice());
    check_slots(rt, alloc, bytes, order.as_slice());
    let items = items_of::<C>(rt, alloc, bytes, order.as_slice());
    let again: HashTableOwned<C> = rebuilt(alloc, items.as_slice(), max_item_count, 87).expect(
        rt, "a table",
    );
    same_bytes(rt, "made again", again.raw_bytes(), bytes.0);
}
