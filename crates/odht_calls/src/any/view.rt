//! Lookups in opened dynamic tables, which skip the header.
ghost use Rattle.std.specs.Prelude.{◌≡◌, ◌≤◌, length};
ghost use Rattle.odht_base.specs.Format.{format_of};
ghost use Rattle.odht_raw.specs.Frame.{IsAccepted};
ghost use Rattle.odht_raw.specs.DynParts.{bytes_coding};
ghost use Rattle.odht_calls.specs.Layouts.{DynAnswers, ViewContainsAnswers};
ghost use Rattle.odht_calls.specs.Pieces.{DynViewGetAllAnswers};
ghost use Rattle.odht_calls.specs.Views.{ViewGetAnswers};

use super::pieces::{are_pieces, piece, put_answer};
use crate::status::{ABSENT, BAD_LENGTHS, OK};
use crate::view::find;
use odht::hash::HashFn;
use odht::layout::Layout;

/// Writes the value of a key of an opened table to `value`. BAD_LENGTHS where the key or `value`
/// has another length than the layout says. It and ABSENT leave `value` unchanged.
#[inline(always)]
pub fn get<H: HashFn>(layout: Layout, bytes: &[u8], key: &[u8], value: &mut [u8]) -> u32
    requires hashes { H.MIN_LEN ≤ layout.key_len }
    requires accepted { IsAccepted (format_of layout.key_len layout.value_len H.hash) bytes.now }
    ensures { let c = bytes_coding (format_of layout.key_len layout.value_len H.hash)
        in let Long = (length key.now ≡ layout.key_len) × (length value.old ≡ layout.value_len)
        in DynAnswers Long result (value.new ≡ value.old)
        (ViewGetAnswers c bytes.now key.now value.old result value.new) }
{
    if key.len() != layout.key_len as usize || value.len() != layout.value_len as usize {
        return BAD_LENGTHS;
    }
    match find::<Layout, H>(layout, bytes, key) {
        Some(found) => {
            value.copy_from_slice(found);
            OK
        }
        None => ABSENT,
    }
}

/// OK where the key of an opened table has a value, else ABSENT. BAD_LENGTHS where the key has
/// another length than the layout says.
#[inline(always)]
pub fn contains<H: HashFn>(layout: Layout, bytes: &[u8], key: &[u8]) -> u32
    requires hashes { H.MIN_LEN ≤ layout.key_len }
    requires accepted { IsAccepted (format_of layout.key_len layout.value_len H.hash) bytes.now }
    ensures { let c = bytes_coding (format_of layout.key_len layout.value_len H.hash)
        in DynAnswers (length key.now ≡ layout.key_len) result (Unit {0})
        (ViewContainsAnswers c bytes.now key.now result) }
{
    if key.len() != layout.key_len as usize {
        return BAD_LENGTHS;
    }
    match find::<Layout, H>(layout, bytes, key) {
        Some(_) => OK,
        None => ABSENT,
    }
}

/// Looks up `count` keys in an opened table: at the index of a key that is found, its value is
/// written to `values` and 1 to `found`; at any other index 0 is written to `found`. BAD_LENGTHS
/// where the arrays are not for that many keys, values and flags; it leaves both unchanged.
// Not inlined, so that both exports share one loop.
#[inline(never)]
pub fn get_all<H: HashFn>(
    layout: Layout,
    bytes: &[u8],
    count: usize,
    keys: &[u8],
    values: &mut [u8],
    found: &mut [u8],
) -> u32
    requires hashes { H.MIN_LEN ≤ layout.key_len }
    requires accepted { IsAccepted (format_of layout.key_len layout.value_len H.hash) bytes.now }
    ensures { DynViewGetAllAnswers (format_of layout.key_len layout.value_len H.hash) bytes.now
        count keys.now values.old found.old result values.new found.new }
{
    if !are_pieces(layout, count, keys, values) || found.len() != count {
        return BAD_LENGTHS;
    }
    for index in 0..count {
        let answer = find::<Layout, H>(layout, bytes, piece(keys, layout.key_len, index));
        put_answer(values, found, layout.value_len, index, answer);
    }
    OK
}
