//! Opened tables as a caller in C keeps them, and for every configuration lookups that skip the
//! header.
ghost use Rattle.std.specs.Prelude.{◌≡◌, ◌≤◌, length, min, set, IfSome};
ghost use Rattle.std.specs.Option.{option_copied};
ghost use Rattle.odht_base.specs.Format.{format_of};
ghost use Rattle.odht_raw.specs.DynParts.{bytes_coding};
ghost use Rattle.odht_raw.specs.Frame.{IsAccepted};
ghost use Rattle.odht_raw.specs.PartLengths.{ArePairLengths};
ghost use Rattle.odht.specs.Gets.{IsGet};
ghost use Rattle.odht_calls.specs.Layouts.{AnyViewLenAnswers};
ghost use Rattle.odht_calls.specs.Lookups.{flag_of, with_found};
ghost use Rattle.odht_calls.specs.Views.{OpenViewAnswers, ViewGetAnswers, ViewGetAllAnswers};

use crate::status::{ABSENT, OK, status_of};
use odht::HashTable;
use odht::bytes::Borrowed;
use odht::config::{Coded, Config};
use odht::hash::HashFn;
use odht::layout::Lengths;
use odht::lookups::{self, Answers};
use odht::memory_layout::{Header, check_opening_in, parts_in};

/// The bytes of an opened table, as C keeps them: a pointer and a length. The calls that read a
/// view require that the header and the length of its bytes are accepted, and do not check it.
#[repr(C)]
#[derive(Clone, Copy)]
pub struct View<'a> {
    /// All bytes of the table.
    pub bytes: &'a [u8],
}

/// OK, and `view` is a view of the bytes; or the number of the first error, and `view` is
/// unchanged. Reads the header, the length and the first ten slots.
#[inline(always)]
pub fn open<'a, L: Lengths, H: HashFn>(lengths: L, bytes: &'a [u8], view: &mut View<'a>) -> u32
    requires { ArePairLengths H.MIN_LEN (L.key_len lengths) (L.value_len lengths) }
    ensures { let F = format_of (L.key_len lengths) (L.value_len lengths) H.hash
        in OpenViewAnswers F bytes.entry view.old.bytes result view.new.bytes }
{
    match check_opening_in::<L, H>(bytes, lengths) {
        Ok(()) => {
            *view = View { bytes };
            OK
        }
        Err(refused) => status_of(&refused),
    }
}

/// The item count in the header of an opened table, whatever its lengths.
#[inline]
pub fn len(view: &View<'_>) -> usize
    requires header { 32 ≤ length view.now.bytes.now }
    ensures { AnyViewLenAnswers view.now.bytes.now result }
{
    Header::of(view.bytes).item_count()
}

/// The table of a view. Reads none of its bytes.
#[inline(always)]
pub fn table<'a, C: Config>(view: &View<'a>) -> HashTable<C, Borrowed<'a>>
    requires { IsAccepted ⟦<C as Coded>⟧.coding.format view.now.bytes.now }
    ensures { result.0.now ≡ view.now.bytes.now }
{
    HashTable::from_raw_bytes_unchecked(Borrowed::new(view.bytes))
}

/// The value of a key in bytes whose header and length fit.
#[inline(always)]
pub(crate) fn find<'a, L: Lengths, H: HashFn>(
    lengths: L,
    bytes: &'a [u8],
    key: &[u8],
) -> Option<&'a [u8]>
    requires pair { ArePairLengths H.MIN_LEN (L.key_len lengths) (L.value_len lengths) }
    requires accepted { IsAccepted (format_of (L.key_len lengths) (L.value_len lengths) H.hash)
        bytes.now }
    requires key { length key.now ≡ L.key_len lengths }
    ensures found { let F = format_of (L.key_len lengths) (L.value_len lengths) H.hash
        in IsGet (bytes_coding F) bytes.now key.now (option_copied result) }
    ensures len { IfSome result (λ value. length value.now ≡ L.value_len lengths) }
{
    parts_in::<L, H>(bytes, lengths).find(key)
}

/// Writes the value of a key of an opened table to `value`. ABSENT leaves `value` unchanged.
#[inline(always)]
pub fn get<C: Config>(table: &HashTable<C, Borrowed<'_>>, key: &C::Key, value: &mut C::Value) -> u32
    ensures { ViewGetAnswers ⟦<C as Coded>⟧.coding table.now.0.now key.now value.old result
        value.new }
{
    match table.get(key) {
        Some(found) => {
            *value = found;
            OK
        }
        None => ABSENT,
    }
}

/// The arrays of a caller. At the index of a key that is found, its value is put in `values` and 1
/// in `found`; at any other index 0 is put in `found`.
#[derive(Drop)]
struct Arrays<'v, 'f, V> {
    values: &'v mut [V],
    found: &'f mut [u8],
}

impl<'v, 'f, V: Drop> Answers<Option<V>> for Arrays<'v, 'f, V> {
    ghost places = { λ s. min (length s.values.now) (length s.found.now) };

    ghost after_put = { λ s i o. record s {
      values = record s.values { now = with_found s.values.now i o };
      found = record s.found { now = set s.found.now i (flag_of o) };
    } };

    #[inline(always)]
    fn put(&mut self, index: usize, answer: Option<V>) {
        match answer {
            Some(value) => {
                self.values[index] = value;
                self.found[index] = 1;
            }
            None => self.found[index] = 0,
        }
    }
}

/// Looks up many keys in an opened table: at the index of a key that is found, its value is
/// written to `values` and 1 to `found`; at any other index 0 is written to `found`.
// Not inlined, so that what it calls has one caller for each configuration: only then does the
// compiler keep the first looks of eight keys in one function with their searches, which takes a
// quarter fewer instructions.
#[inline(never)]
pub fn get_all<C: Config>(
    table: &HashTable<C, Borrowed<'_>>,
    keys: &[C::Key],
    values: &mut [C::Value],
    found: &mut [u8],
) -> u32
    requires values { length values.old ≡ length keys.now }
    requires found { length found.old ≡ length keys.now }
    ensures { ViewGetAllAnswers ⟦<C as Coded>⟧.coding table.now.0.now keys.now
        values.old found.old result values.new found.new }
{
    let raw = table.as_raw();
    let mut arrays = Arrays { values, found };
    lookups::get_all::<C, Arrays<'_, '_, C::Value>>(&raw, keys, &mut arrays);
    OK
}
