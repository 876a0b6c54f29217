//! The shape of a file, where its hash function is found by its control bytes.
ghost use Rattle.std.specs.Prelude.{◌≡◌, ◌≤◌, ◌&&◌, length, slice_index, is_none, is_some, nat_le};
ghost use Rattle.std.specs.Prelude.{IfOk, IfSome, None, OnSome, Some};
ghost use Rattle.odht_base.specs.Format.{format_of};
ghost use Rattle.odht_header.specs.Refusals.{check_refusal_by, checked};
ghost use Rattle.odht_tool_core.specs.InfoNumbers.{info_refusal, file_parts};
ghost use Rattle.odht_tool_core.specs.FoundShapes.{fits, first_hash, fitting_shape, has_items};
ghost use Rattle.odht_tool_core.specs.FoundShapes.{agreed_hash, is_valid_by, settled_hash};
ghost use Rattle.odht_tool_core.specs.FoundShapes.{hinted_hash, is_other, other_hash, said_hash};
ghost use Rattle.odht_tool_core.specs.FoundShapes.{valid_hash};
ghost use Rattle.odht_tool_core.specs.AnyShapes.{HasLongKeys, checked_any, fitting_any, found_any};
ghost use Rattle.odht_tool_core.specs.AnyShapes.{read_hash};

use crate::any::{AnyShape, named_any};
use crate::failure::Failure;
use crate::shapes::{HASHES, Hash, Part, SHAPES, Shape};
use crate::stored::StoredTable;
use odht_base::hash::{FxHashFn, HashFn, UnHashFn, Xxh64HashFn};
use odht_header::error::Error;
use odht_header::header::Header;
use odht_header::layout::Layout;
use odht_raw::memory_layout::{DEFAULT_GROUPS, check_dynamic_within, check_opening};

// The first shape of these sizes with whose hash function all control bytes agree.
fn fitting_shape(key_size: u8, value_size: u8, table: &StoredTable<'_>) -> Option<Shape>
    ensures { result ≡ fitting_shape key_size value_size table.now }
{
    SHAPES
        .iter()
        .copied()
        .find(|shape| is_fitting(*shape, key_size, value_size, table))
}

// Whether a shape has these sizes, and all control bytes agree with its hash function.
fn is_fitting(shape: Shape, key_size: u8, value_size: u8, table: &StoredTable<'_>) -> bool
    ensures { result ≡ fits key_size value_size table.now shape }
{
    shape.is_of(key_size, value_size, None) && table.agrees(shape.hash())
}

/// The shape of these bytes: as `named_any` has it; but where header and length fit, the header
/// counts items and no hash function is given, that of a hash function that all control bytes
/// agree with: of the first ready shape of the header's sizes whose function is such a one, else of
/// the first such one; but where there are several, the first of them by which the bytes are
/// valid, if there is one. `NoHash` where control bytes agree with none.
pub fn found_any(bytes: &[u8], hash: Option<Hash>) -> Result<AnyShape, Failure>
    ensures shape { result ≡ found_any bytes.now hash }
    ensures long { IfOk result HasLongKeys }
{
    match (hash, open_with_items(bytes)) {
        (None, Some(table)) => fitting_any(bytes, &table),
        _ => named_any(bytes, hash),
    }
}

/// The hash function by which commands read the bytes of a table where none is given; of a table
/// without items the first one that fits. None where none fits.
pub(crate) fn read_hash(bytes: &[u8], table: &StoredTable<'_>) -> Option<Hash>
    requires opens { info_refusal bytes.now ≡ None }
    requires parts { table.now ≡ file_parts bytes.now }
    requires long { 32 ≤ length bytes.now }
    ensures { result ≡ read_hash bytes.now }
{
    if Header::of(bytes).item_count() == 0 {
        return table.hash();
    }
    match fitting_any(bytes, table) {
        Ok(shape) => Some(shape.hash()),
        Err(_) => None,
    }
}

// A shape of the header's sizes that fits the parts of the table.
fn fitting_any(bytes: &[u8], table: &StoredTable<'_>) -> Result<AnyShape, Failure>
    requires long { 32 ≤ length bytes.now }
    requires parts { table.now ≡ file_parts bytes.now }
    ensures shape { result ≡ fitting_any bytes.now }
    ensures long { IfOk result HasLongKeys }
{
    let header = Header::of(bytes);
    let (key_size, value_size) = (header.key_size(), header.value_size());
    match first_hash(key_size, value_size, table) {
        Some(first) => {
            let hash = settled_hash(bytes, table, first);
            AnyShape::of_sizes(Part::Bytes(key_size), Part::Bytes(value_size), Some(hash))
        }
        None => Err(Failure::NoHash {
            key_size,
            value_size,
        }),
    }
}

// Of the hash functions that all control bytes agree with, that of the first ready shape of these
// sizes, or else the first one.
fn first_hash(key_size: u8, value_size: u8, table: &StoredTable<'_>) -> Option<Hash>
    ensures { result ≡ first_hash key_size value_size table.now }
{
    match fitting_shape(key_size, value_size, table) {
        Some(shape) => Some(shape.hash()),
        None => table.hash(),
    }
}

// Of the hash functions that all control bytes agree with, of which `first` is one, the one that
// decides: `first` where there is no other, or where the bytes are valid by it, so that every key
// is reached; else the first one by which they are valid; and `first` again where there is none.
fn settled_hash(bytes: &[u8], table: &StoredTable<'_>, first: Hash) -> Hash
    requires parts { table.now ≡ file_parts bytes.now }
    ensures { result ≡ settled_hash bytes.now first }
{
    if other_hash(table, first).is_none() || is_valid_by(bytes, first) {
        return first;
    }
    valid_hash(bytes).unwrap_or(first)
}

// The first hash function by which the bytes are valid.
fn valid_hash(bytes: &[u8]) -> Option<Hash>
    ensures { result ≡ valid_hash bytes.now }
{
    HASHES
        .iter()
        .copied()
        .find(|hash| is_valid_by(bytes, *hash))
}

// Whether the bytes are valid by a hash function, with no search above the bound.
fn is_valid_by(bytes: &[u8], hash: Hash) -> bool
    ensures { result ≡ is_valid_by bytes.now hash }
{
    match hash {
        Hash::Fx => is_valid::<FxHashFn>(bytes),
        Hash::Unhash => is_valid::<UnHashFn>(bytes),
        Hash::Xxh64 => is_valid::<Xxh64HashFn>(bytes),
    }
}

// The same by the hash function `H`.
fn is_valid<H: HashFn>(bytes: &[u8]) -> bool
    ensures { let k = slice_index bytes.now 5
        in let F = format_of k (slice_index bytes.now 6) H.hash
        in result ≡ (is_none (info_refusal bytes.now) && nat_le H.MIN_LEN k
        && is_none (check_refusal_by F (Some 128) bytes.now)) }
{
    let Ok(table) = StoredTable::open(bytes) else {
        return false;
    };
    let layout = table.layout();
    if (layout.key_len as usize) < H::MIN_LEN {
        return false;
    }
    check_within::<H>(bytes, layout).is_ok()
}

// The first rule that the bytes break, as a table of these lengths and of a hash function, the
// bound of searches among them.
fn check_within<H: HashFn>(bytes: &[u8], layout: Layout) -> Result<(), Error>
    requires { H.MIN_LEN ≤ layout.key_len }
    ensures { let F = format_of layout.key_len layout.value_len H.hash
        in result ≡ checked (check_refusal_by F (Some 128) bytes.now) }
{
    check_opening::<H>(bytes, layout)?;
    check_dynamic_within::<H>(bytes, layout, DEFAULT_GROUPS)
}

// The parts of a table whose header and length fit, and whose header counts items.
fn open_with_items(bytes: &[u8]) -> Option<StoredTable<'_>>
    ensures some { is_some result ≡ has_items bytes.now }
    ensures parts { IfSome result (λ t. t ≡ file_parts bytes.now) }
    ensures long { OnSome result (32 ≤ length bytes.now) }
{
    let table = StoredTable::open(bytes).ok()?;
    if Header::of(bytes).item_count() == 0 {
        None
    } else {
        Some(table)
    }
}

/// The hash function by which a file is read: the one that is named, or else, where header and
/// length fit and all control bytes agree with the default of what its keys are said to be, that
/// default; but where they agree with others too, one by which every key is reached, as
/// `found_any` has it. So the default counts where a file does not show its hash function, as an
/// empty one.
pub fn said_hash(bytes: &[u8], named: Option<Hash>, default: Option<Hash>) -> Option<Hash>
    ensures { result ≡ said_hash bytes.now named default }
{
    match (named, default) {
        (None, Some(default)) => agreed_hash(bytes, default),
        _ => named,
    }
}

// The hash function that decides where header and length fit and all control bytes agree with this
// one.
fn agreed_hash(bytes: &[u8], default: Hash) -> Option<Hash>
    ensures { result ≡ agreed_hash bytes.now default }
{
    let table = StoredTable::open(bytes).ok()?;
    if table.agrees(default) {
        Some(settled_hash(bytes, &table, default))
    } else {
        None
    }
}

/// The shape of bytes that are checked: as `found_any` has it; but where no hash function fits, as
/// `named_any` has it, so that the check says which rule is broken.
pub fn checked_any(bytes: &[u8], hash: Option<Hash>) -> Result<AnyShape, Failure>
    ensures shape { result ≡ checked_any bytes.now hash }
    ensures long { IfOk result HasLongKeys }
{
    match found_any(bytes, hash) {
        Err(Failure::NoHash { .. }) => named_any(bytes, hash),
        found => found,
    }
}

/// The first hash function that is not this one, where header and length fit, the header counts
/// items and all control bytes agree with it: then the file may be read by it, though it is
/// rejected under this one.
pub fn hinted_hash(bytes: &[u8], hash: Hash) -> Option<Hash>
    ensures { result ≡ hinted_hash bytes.now hash }
{
    let table = open_with_items(bytes)?;
    other_hash(&table, hash)
}

/// The first hash function that is not this one and that all control bytes agree with.
pub(crate) fn other_hash(table: &StoredTable<'_>, hash: Hash) -> Option<Hash>
    ensures { result ≡ other_hash table.now hash }
{
    HASHES
        .iter()
        .copied()
        .find(|other| is_other(*other, hash, table))
}

// Whether a hash function is not this one, and all control bytes agree with it.
fn is_other(other: Hash, hash: Hash, table: &StoredTable<'_>) -> bool
    ensures { result ≡ is_other hash table.now other }
{
    !other.is(hash) && table.agrees(other)
}
