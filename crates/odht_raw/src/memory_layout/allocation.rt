//! The bytes of a table in a store: opening and reading.
ghost use Rattle.std.specs.Prelude.{◌≡◌, ◌+◌, ◌<◌, ◌^◌, All, length, IfOk, IsOk};
ghost use Rattle.odht_raw.specs.Words.{controls_of, entries_of, format_of, header_slots, image_len};
ghost use Rattle.odht_raw.specs.Words.{IsImage, IsPartsOf, IsSlotCount, opening_refusal, Table};
ghost use Rattle.odht_raw.specs.Words.{view_refusal};
ghost use Rattle.std.specs.Result.{result_err};
ghost use Rattle.odht_raw.specs.Dumps.{parts_of};
ghost use Rattle.odht_raw.specs.Frame.{IsAccepted};

use super::opening::cut;
use super::{Entries, EntryMetadata, Header, check_by_header, check_opening_in};
use crate::bytes::{ByteArray, ByteStore};
use crate::config::{Coded, Config};
use crate::error::Error;
use crate::layout::{Fixed, Layout};
use crate::raw_table::RawTable;
use std::marker::{Model, PhantomData};

mod writing;

pub(super) use writing::write_count;

/// A store of the bytes of a table, whose header and length fit. In a contract it is the store.
#[derive(Drop)]
pub struct Allocation<C: Config, M: ByteStore> {
    store: M,
    config: PhantomData<C>,
}

impl<C: Config, M: ByteStore> Model for Allocation<C, M> {
    ghost use Rattle.std.specs.Prelude.{◌<◌, ◌^◌, length};
    ghost use Rattle.odht_base.specs.Format.{format_of};
    ghost use Rattle.odht_raw.specs.Frame.{IsAccepted};

    ghost Value = { M };

    ghost view = { λ a. a.store };

    ghost invariant = { λ a. IsAccepted (format_of C.EncodedKey.LEN C.EncodedValue.LEN C.H.hash)
        (M.bytes a.store) × (length (M.bytes a.store) < 2 ^ 64) };
}

impl<C: Config, M: ByteStore> Allocation<C, M> {
    /// Opens the bytes as those of a table. The result is the first error, if any: `TooShort`,
    /// then those of [`Header::sanity_check`], then those of [`RawTable::sanity_check_hashes`] on
    /// the first ten slots. On an error the data is dropped. Valid bytes are always opened; bytes
    /// that are opened need not be valid.
    #[inline(always)]
    pub fn from_raw_bytes(data: M) -> Result<Self, Error>
        ensures ok { IfOk result (λ a. a ≡ «data») }
        ensures err { result_err result
            ≡ view_refusal ⟦<C as Coded>⟧.coding.format (M.bytes «data») }
        ensures valid { (P : Table) → IsImage ⟦<C as Coded>⟧.coding.format P (M.bytes «data»)
            → IsOk result }
    {
        let lengths: Fixed<C::EncodedKey, C::EncodedValue> = Fixed::new();
        check_opening_in::<Fixed<C::EncodedKey, C::EncodedValue>, C::H>(data.bytes(), lengths)?;
        Ok(Allocation {
            store: data,
            config: PhantomData,
        })
    }

    /// Opens the bytes as those of a table only by their header and length. The result is the
    /// first error, if any: `TooShort`, then those of [`Header::sanity_check`]. No slot is read.
    /// On an error the data is dropped.
    #[inline(always)]
    pub fn from_raw_bytes_by_header(data: M) -> Result<Self, Error>
        ensures ok { IfOk result (λ a. a ≡ «data») }
        ensures err { result_err result
            ≡ opening_refusal ⟦<C as Coded>⟧.coding.format (M.bytes «data») }
    {
        check_by_header(data.bytes(), Layout::of::<C>())?;
        Ok(Allocation {
            store: data,
            config: PhantomData,
        })
    }

    /// Opens bytes that the caller knows to have a header and a length that fit. Nothing is
    /// checked.
    #[inline]
    pub fn from_raw_bytes_unchecked(data: M) -> Self
        requires { IsAccepted ⟦<C as Coded>⟧.coding.format (M.bytes «data») }
        ensures { result ≡ «data» }
    {
        // For the prover: the length of a slice, and so of the store's bytes, is below 2^64.
        let _ = data.bytes();
        Allocation {
            store: data,
            config: PhantomData,
        }
    }

    /// All bytes of the table.
    #[inline]
    pub fn raw_bytes(&self) -> &[u8]
        ensures bytes { result.now ≡ M.bytes self.now }
        ensures accepted { IsAccepted ⟦<C as Coded>⟧.coding.format (M.bytes self.now) }
    {
        self.store.bytes()
    }

    /// The store, with the bytes as they are now.
    #[inline]
    pub fn into_data(self) -> M
        ensures store { result ≡ self }
        ensures accepted { IsAccepted ⟦<C as Coded>⟧.coding.format (M.bytes result) }
    {
        let Allocation { store, config: _ } = self;
        store
    }

    /// A reader of the header.
    #[inline]
    pub fn header(&self) -> Header<'_>
        ensures bytes { result ≡ M.bytes self.now }
        ensures accepted { IsAccepted ⟦<C as Coded>⟧.coding.format (M.bytes self.now) }
        ensures len { let B = M.bytes self.now
            in length B ≡ image_len ⟦<C as Coded>⟧.coding.format (header_slots B) }
        ensures fits { length (M.bytes self.now) < 2 ^ 64 }
    {
        Header::of(self.store.bytes())
    }

    /// The control bytes with their mirror, and the entries. Of the bytes of a valid table they
    /// are its parts.
    #[inline]
    pub fn data_slices(
        &self,
    ) -> (
        &[EntryMetadata],
        Entries<'_, C::EncodedKey, C::EncodedValue>,
    )
        ensures control { result.0.now
            ≡ controls_of ⟦<C as Coded>⟧.coding.format (M.bytes self.now) }
        ensures entries { result.1.bytes
            ≡ entries_of ⟦<C as Coded>⟧.coding.format (M.bytes self.now) }
        ensures slots { result.1.slots ≡ header_slots (M.bytes self.now) }
        ensures count { IsSlotCount result.1.slots }
        ensures len { length result.0.now ≡ result.1.slots + 16 }
        ensures parts { (P : Table)
            → IsImage ⟦<C as Coded>⟧.coding.format P (M.bytes self.now)
            → IsPartsOf ⟦<C as Coded>⟧.coding.format P result.1.bytes result.0.now }
    {
        let lengths: Fixed<C::EncodedKey, C::EncodedValue> = Fixed::new();
        let bytes = self.store.bytes();
        // As in `parts_in`, but an owned store needs no check of its slot count (`tools/erase`).
        let slots = Header::of(bytes).slot_count();
        let parts = cut::<Fixed<C::EncodedKey, C::EncodedValue>, C::H>(bytes, slots, lengths);
        (parts.controls(), Entries::of(parts.stored()))
    }

    /// The parts of the table, to be read.
    #[inline(always)]
    pub fn as_raw(&self) -> RawTable<'_, C::EncodedKey, C::EncodedValue, C::H>
        ensures bytes { result ≡ parts_of ⟦<C as Coded>⟧.coding.format (M.bytes self.now) }
        ensures parts { (P : Table)
            → IsImage ⟦<C as Coded>⟧.coding.format P (M.bytes self.now)
            → IsPartsOf ⟦<C as Coded>⟧.coding.format P result.entries.bytes result.control }
    {
        let (control, entries) = self.data_slices();
        RawTable::new(control, entries)
    }
}

// Does nothing: its contract gives the proof that each item of a slice of bytes is below 256.
#[inline(always)]
pub(crate) fn prove_bytes(bytes: &[u8])
    ensures { All (λ byte. byte < 256) bytes.now }
{}
