//! The search slot by slot along the probe order, and find and insert by it: the reference forms
//! of the searches by groups. They are the reference of the tests; no call of the library uses
//! them.
ghost use Rattle.std.specs.Prelude.{◌≡◌, ◌<◌, length};
ghost use Rattle.odht_raw.specs.Words.{format_of, IsPartsOf, IsSlotCount, Pair, Table};
ghost use Rattle.odht_raw.specs.SearchResults.{answer};
ghost use Rattle.odht_raw.specs.PartLengths.{AreSearchLengths, ArePartLengths};
ghost use Rattle.odht_raw.specs.PartsInserts.{IsPartsInsert, IsInsertChange};
ghost use Rattle.odht_raw.specs.SearchEnds.{IsPlainEnd};
ghost use Rattle.odht_raw.specs.Finds.{IsFind};

use super::parts::read_parts;
use super::probe_seq::probed_slot;
use super::writes::insert_at;
use super::{Entries, EntryMetadata, Search, is_empty_or_deleted, slot_count_of, tag_of};
use crate::bytes::ByteArray;
use crate::error::Error;
use crate::hash::HashFn;
use crate::layout::Fixed;

/// The value stored with the key, searched for slot by slot along the probe order.
///
/// On the parts of a placed table it is the map's result. On any parts it is a value that is
/// stored with an equal key.
pub fn plain_find<K: ByteArray, V: ByteArray, H: HashFn>(
    control: &[EntryMetadata],
    entries: &Entries<'_, K, V>,
    key: &K,
) -> Option<V>
    requires slots { IsSlotCount entries.now.slots }
    requires lengths { AreSearchLengths H.MIN_LEN K.LEN V.LEN entries.now.slots
        (length control.now) }
    ensures { IsFind (format_of K.LEN V.LEN H.hash) V.of_bytes
        (record { control = control.now; entries = entries.now }) (K.bytes key.now) result }
{
    let hash = H::hash(key.as_slice());
    match plain_search::<K, V, H>(control, entries, key, hash) {
        Search::Found(slot) => Some(entries.get(slot).value),
        Search::Free(_) => None,
        Search::Neither => None,
    }
}

/// Inserts a pair, and returns the former value of the key. It overwrites the value that is stored
/// with the key, or writes the pair into the first free slot of the key's probe order: entry, tag,
/// and for a slot below 16 the mirror. There is no maximum, since the parts have no item count.
///
/// On the parts of a placed table it leaves the parts of the table with the pair placed. It returns
/// `Full`, with nothing changed, exactly if each slot is occupied and none has the key.
///
/// On any parts it overwrites one value that is stored with an equal key, or writes one entry and
/// its tag into a slot that counted as free. No other byte changes. It returns `Full` only if each
/// slot counts as occupied and a search slot by slot can end without the key.
pub fn plain_insert<K: ByteArray, V: ByteArray, H: HashFn>(
    control: &mut [EntryMetadata],
    entries: &mut [u8],
    key: K,
    value: V,
) -> Result<Option<V>, Error>
    requires { ArePartLengths H.MIN_LEN K.LEN V.LEN (length entries.old) (length control.old) }
    // On the parts of a placed table.
    ensures placed { let F = format_of K.LEN V.LEN H.hash
        in let p : Pair = record { key = K.bytes key; value = V.bytes value }
        in (P : Table) → IsPartsOf F P entries.old control.old
        → IsPartsInsert F V.of_bytes P p result entries.new control.new }
    // On any parts.
    ensures any { let F = format_of K.LEN V.LEN H.hash
        in let p : Pair = record { key = K.bytes key; value = V.bytes value }
        in IsInsertChange F V.of_bytes entries.old control.old p result entries.new control.new }
{
    let slots = slot_count_of(control);
    let hash = H::hash(key.as_slice());
    let stored: Entries<'_, K, V> = Entries::new(entries, slots);
    let end = plain_search::<K, V, H>(control, &stored, &key, hash);
    let lengths: Fixed<K, V> = Fixed::new();
    let parts = read_parts::<Fixed<K, V>, H>(control, entries, slots, lengths);
    let former = parts.typed_value_at(end);
    let (key, value) = (key.as_slice(), value.as_slice());
    let end = (end, tag_of(hash));
    insert_at::<Fixed<K, V>, H, V>(control, entries, lengths, key, value, end, former)
}

// Searches for the key with this hash slot by slot along its probe order, and stops at the first
// slot that is free or holds it.
#[inline]
fn plain_search<K: ByteArray, V: ByteArray, H: HashFn>(
    control: &[EntryMetadata],
    entries: &Entries<'_, K, V>,
    key: &K,
    hash: u32,
) -> Search
    requires slots { IsSlotCount entries.now.slots }
    requires lengths { AreSearchLengths H.MIN_LEN K.LEN V.LEN entries.now.slots
        (length control.now) }
    requires hash { hash ≡ H.hash (K.bytes key.now) }
    ensures slot { IsPlainEnd (format_of K.LEN V.LEN H.hash) entries.now control.now
        (K.bytes key.now) result }
    ensures on_placed { (P : Table)
        → IsPartsOf (format_of K.LEN V.LEN H.hash) P entries.now.bytes control.now
        → result ≡ answer (format_of K.LEN V.LEN H.hash) P.cells (K.bytes key.now) }
{
    let slots = entries.len();
    let home = hash as usize & (slots - 1);
    for position in 0..slots {
        let slot = probed_slot(home, position, slots);
        if is_empty_or_deleted(control[slot]) {
            return Search::Free(slot);
        }
        if entries.is_at(slot, key) {
            return Search::Found(slot);
        }
    }
    Search::Neither
}
