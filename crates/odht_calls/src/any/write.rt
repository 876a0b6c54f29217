//! The calls that write a dynamic table.
ghost use Rattle.std.specs.Prelude.{◌≡◌, ◌≤◌, length};
ghost use Rattle.odht_base.specs.Format.{format_of};
ghost use Rattle.odht_raw.specs.DynParts.{bytes_coding};
ghost use Rattle.odht_raw.specs.Frame.{IsAccepted};
ghost use Rattle.odht_calls.specs.Layouts.{DynAnswers};
ghost use Rattle.odht_calls.specs.Pieces.{DynInsertAllAnswers};
ghost use Rattle.odht_calls.specs.Writes.{InsertAnswers};

use super::pieces::{Pieces, are_pieces, deciding_pairs};
use crate::read::header_of;
use crate::status::{BAD_LENGTHS, OK, REPLACED, status_of};
use crate::write::insert_items;
use odht::hash::HashFn;
use odht::layout::Layout;
use odht::memory_layout::insert_dynamic_into;

/// Gives the key this value. A value that it had before is written to `former`. BAD_LENGTHS where
/// the key, the value or `former` has another length than the layout says. An error leaves the
/// bytes and `former` unchanged.
pub fn insert<H: HashFn>(
    layout: Layout,
    bytes: &mut [u8],
    key: &[u8],
    value: &[u8],
    former: &mut [u8],
) -> u32
    requires { H.MIN_LEN ≤ layout.key_len }
    ensures answers { let c = bytes_coding (format_of layout.key_len layout.value_len H.hash)
        in let Long = (length key.now ≡ layout.key_len) × (length value.now ≡ layout.value_len)
        × (length former.old ≡ layout.value_len)
        in DynAnswers Long result ((bytes.new ≡ bytes.old) × (former.new ≡ former.old))
        (InsertAnswers c bytes.old key.now value.now former.old result bytes.new former.new) }
    ensures accepted { let F = format_of layout.key_len layout.value_len H.hash
        in IsAccepted F bytes.old → IsAccepted F bytes.new }
{
    let value_len = layout.value_len as usize;
    if key.len() != layout.key_len as usize
        || value.len() != value_len
        || former.len() != value_len
    {
        return BAD_LENGTHS;
    }
    if let Err(refused) = header_of::<Layout, H>(layout, bytes) {
        return status_of(&refused);
    }
    match insert_dynamic_into::<H>(bytes, layout, key, value, former) {
        Ok(true) => REPLACED,
        Ok(false) => OK,
        Err(refused) => status_of(&refused),
    }
}

/// Inserts `count` pairs in order, up to the first whose insert fails with FULL, and writes to
/// `accepted` how many were inserted. BAD_LENGTHS where the arrays are not for that many keys and
/// values. It and an error of the header or length leave everything unchanged.
// Not inlined, so that the compiler inlines `insert` where it is exported.
#[inline(never)]
pub fn insert_all<H: HashFn>(
    layout: Layout,
    bytes: &mut [u8],
    count: usize,
    keys: &[u8],
    values: &[u8],
    accepted: &mut usize,
) -> u32
    requires { H.MIN_LEN ≤ layout.key_len }
    ensures answers { DynInsertAllAnswers (format_of layout.key_len layout.value_len H.hash)
        bytes.old count keys.now values.now accepted.old result bytes.new accepted.new }
    ensures accepted { let F = format_of layout.key_len layout.value_len H.hash
        in IsAccepted F bytes.old → IsAccepted F bytes.new }
{
    if !are_pieces(layout, count, keys, values) {
        return BAD_LENGTHS;
    }
    if let Err(refused) = header_of::<Layout, H>(layout, bytes) {
        return status_of(&refused);
    }
    let deciding = deciding_pairs(layout, count);
    let items = Pieces {
        layout,
        count: deciding,
        keys,
        values,
    };
    let mut inserted = 0;
    let status = insert_items::<Layout, H, Pieces<'_>>(layout, bytes, items, &mut inserted);
    *accepted = if inserted < deciding { inserted } else { count };
    status
}
