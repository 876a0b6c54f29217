//! The calls that read keys and pairs of a dynamic table, and the one that reads its lengths.
ghost use Rattle.std.specs.Prelude.{◌≡◌, ◌≤◌, length};
ghost use Rattle.odht_base.specs.Format.{format_of};
ghost use Rattle.odht_raw.specs.DynParts.{bytes_coding};
ghost use Rattle.odht_calls.specs.Layouts.{ContainsAnswers, DynAnswers, LayoutAnswers};
ghost use Rattle.odht_calls.specs.Pieces.{DynGetAllAnswers, DynWalkAnswers};
ghost use Rattle.odht_calls.specs.Reads.{GetAnswers};

use super::pieces::{are_pieces, put_piece};
use super::{AnyLayout, view};
use crate::read::header_of;
use crate::status::{BAD_LENGTHS, OK, TOO_SMALL, status_of};
use odht::hash::HashFn;
use odht::layout::Layout;
use odht::memory_layout::{check_by_header, parts_in, stated_layout};

/// Writes the value of a key to `value`. BAD_LENGTHS where the key or `value` has another length
/// than the layout says. ABSENT and errors leave `value` unchanged.
#[inline(always)]
pub fn get<H: HashFn>(layout: Layout, bytes: &[u8], key: &[u8], value: &mut [u8]) -> u32
    requires { H.MIN_LEN ≤ layout.key_len }
    ensures { let c = bytes_coding (format_of layout.key_len layout.value_len H.hash)
        in let Long = (length key.now ≡ layout.key_len) × (length value.old ≡ layout.value_len)
        in DynAnswers Long result (value.new ≡ value.old)
        (GetAnswers c bytes.now key.now value.old result value.new) }
{
    if key.len() != layout.key_len as usize || value.len() != layout.value_len as usize {
        return BAD_LENGTHS;
    }
    if let Err(refused) = header_of::<Layout, H>(layout, bytes) {
        return status_of(&refused);
    }
    view::get::<H>(layout, bytes, key, value)
}

/// OK where the key has a value, else ABSENT. BAD_LENGTHS where the key has another length than
/// the layout says.
#[inline(always)]
pub fn contains<H: HashFn>(layout: Layout, bytes: &[u8], key: &[u8]) -> u32
    requires { H.MIN_LEN ≤ layout.key_len }
    ensures { let c = bytes_coding (format_of layout.key_len layout.value_len H.hash)
        in DynAnswers (length key.now ≡ layout.key_len) result (Unit {0})
        (ContainsAnswers c bytes.now key.now result) }
{
    if key.len() != layout.key_len as usize {
        return BAD_LENGTHS;
    }
    if let Err(refused) = header_of::<Layout, H>(layout, bytes) {
        return status_of(&refused);
    }
    view::contains::<H>(layout, bytes, key)
}

/// Looks up `count` keys: at the index of a key that is found, its value is written to `values`
/// and 1 to `found`; at any other index 0 is written to `found`. BAD_LENGTHS where the arrays are
/// not for that many keys, values and flags. It and any other error leave both unchanged.
#[inline(always)]
pub fn get_all<H: HashFn>(
    layout: Layout,
    bytes: &[u8],
    count: usize,
    keys: &[u8],
    values: &mut [u8],
    found: &mut [u8],
) -> u32
    requires { H.MIN_LEN ≤ layout.key_len }
    ensures { DynGetAllAnswers (format_of layout.key_len layout.value_len H.hash) bytes.now
        count keys.now values.old found.old result values.new found.new }
{
    if !are_pieces(layout, count, keys, values) || found.len() != count {
        return BAD_LENGTHS;
    }
    if let Err(refused) = header_of::<Layout, H>(layout, bytes) {
        return status_of(&refused);
    }
    view::get_all::<H>(layout, bytes, count, keys, values, found)
}

/// Writes the keys and values in the slots from `cursor` on to the arrays, in slot order, as many
/// as fit, and to `item_count` how many. `cursor` is then the slot of the first pair that did not
/// fit (TOO_SMALL), or the slot count where none is left (OK). The arrays take `room` pairs;
/// BAD_LENGTHS where they have more or fewer bytes. An error leaves everything unchanged.
pub fn walk<H: HashFn>(
    layout: Layout,
    bytes: &[u8],
    cursor: &mut usize,
    room: usize,
    keys: &mut [u8],
    values: &mut [u8],
    item_count: &mut usize,
) -> u32
    requires { H.MIN_LEN ≤ layout.key_len }
    ensures { DynWalkAnswers (format_of layout.key_len layout.value_len H.hash) bytes.now
        cursor.old room keys.old values.old item_count.old result cursor.new keys.new values.new
        item_count.new }
{
    if !are_pieces(layout, room, keys, values) {
        return BAD_LENGTHS;
    }
    let header = match header_of::<Layout, H>(layout, bytes) {
        Ok(header) => header,
        Err(refused) => return status_of(&refused),
    };
    let mut written = 0;
    for (slot, (key, value)) in parts_in::<Layout, H>(bytes, layout).iter_from(*cursor) {
        if written >= room {
            *cursor = slot;
            *item_count = written;
            return TOO_SMALL;
        }
        put_piece(keys, layout.key_len, written, key);
        put_piece(values, layout.value_len, written, value);
        written += 1;
    }
    *cursor = header.slot_count();
    *item_count = written;
    OK
}

/// Writes to `layout` the lengths that the header states, where header and length of the bytes
/// fit; the number of the hash function, which no header states, stays. Else the number of the
/// first error, and `layout` is unchanged.
pub fn layout_of(bytes: &[u8], layout: &mut AnyLayout) -> u32
    ensures { LayoutAnswers bytes.now layout.old result layout.new }
{
    let stated = match stated_layout(bytes) {
        Ok(stated) => stated,
        Err(refused) => return status_of(&refused),
    };
    match check_by_header(bytes, stated) {
        Ok(()) => {
            layout.key_len = stated.key_len;
            layout.value_len = stated.value_len;
            OK
        }
        Err(refused) => status_of(&refused),
    }
}
