//! The hash function of the files that are merged, where nothing is said of it.
use odht::memory_layout::{HEADER_SIZE, Header};
use odht_tool_core::arguments::MergeOptions;
use odht_tool_core::found::found_any;
use odht_tool_core::shapes::Hash;
use odht_tool_core::stored::StoredTable;

/// Takes the hash function of the first file that has items, if nothing is said of the hash function
/// or of the keys. An empty file before it shows none: each fits it.
pub(super) fn take_hash(first: &[u8], others: &[Vec<u8>], options: &mut MergeOptions) {
    if is_said(options) || has_items(first) {
        return;
    }
    options.kinds.hash = hash_of_first(first, others);
}

/// The index of the first of the other files whose keys are of another type than those of the first
/// file that has items, as their hash functions show: new tables of texts and of big-endian numbers
/// have `xxh64`, and those of other keys have not. With it comes how many bytes a key has. None if
/// something is said of the hash function or of the keys, and where a file before it does not open,
/// or has other sizes than the first.
pub(super) fn other_keys(
    first: &[u8],
    others: &[Vec<u8>],
    options: &MergeOptions,
) -> Option<(usize, u8)> {
    if is_said(options) {
        return None;
    }
    let hash = hash_of_first(first, others)?;
    let sizes = sizes_in(first)?;
    for at in 0..others.len() {
        let other = others[at].as_slice();
        if sizes_in(other)? != sizes {
            return None;
        }
        if is_unlike(other, hash) {
            let (key_size, _) = sizes;
            return Some((at, key_size));
        }
    }
    None
}

// Whether the hash function is named, or the type of the keys, which has a default.
fn is_said(options: &MergeOptions) -> bool {
    options.hash.is_some() || options.kinds.key.is_some()
}

// The hash function of the first file that has items.
fn hash_of_first(first: &[u8], others: &[Vec<u8>]) -> Option<Hash> {
    if has_items(first) {
        return hash_of(first);
    }
    for other in others {
        if has_items(other.as_slice()) {
            return hash_of(other.as_slice());
        }
    }
    None
}

// Whether the header states items.
fn has_items(bytes: &[u8]) -> bool {
    bytes.len() >= HEADER_SIZE && Header::of(bytes).item_count() > 0
}

// The hash function of a file, which commands read it by.
fn hash_of(bytes: &[u8]) -> Option<Hash> {
    match found_any(bytes, None) {
        Ok(shape) => Some(shape.hash()),
        Err(_) => None,
    }
}

// How many bytes keys and values have, where header and length fit.
fn sizes_in(bytes: &[u8]) -> Option<(u8, u8)> {
    let table = StoredTable::open(bytes).ok()?;
    let layout = table.layout();
    Some((layout.key_len, layout.value_len))
}

// Whether a file has items, and either this hash function or that of the file is `xxh64`.
fn is_unlike(bytes: &[u8], hash: Hash) -> bool {
    match (StoredTable::open(bytes), hash_of(bytes)) {
        (Ok(table), Some(other)) if has_items(bytes) && !table.agrees(hash) => {
            hash.is(Hash::Xxh64) != other.is(Hash::Xxh64)
        }
        _ => false,
    }
}
