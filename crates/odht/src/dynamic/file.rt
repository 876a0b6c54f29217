//! A table that is read by position where it lies, such as in a file: a lookup reads a few groups
//! of control bytes and a few entries, and nothing else.
ghost use Rattle.std.specs.Prelude.{◌≡◌, ◌≢◌, ◌+◌, ◌<◌, ◌≤◌, ◌^◌, ◌/◌, ℕ, List, length, Err, IfOk};
ghost use Rattle.odht_raw.specs.Words.{bytes_at, format_of};
ghost use Rattle.odht.specs.Dynamic.{dyn_refusal, stated_refusal};
ghost use Rattle.odht.specs.Files.{IsFileOf, IsFileAt, IsOver, IsStatedOver, IsFileResult};
ghost use Rattle.odht.specs.Files.{file_format, file_coding, file_bytes, key_refusal};
ghost use Rattle.odht.specs.Gets.{IsGet, IsCountedGet, IsKnown};
ghost use Rattle.odht.specs.Walks.{IsItemCount};

use super::DynError;
use crate::hash::HashFn;
use crate::layout::Layout;
use crate::raw_table::ShortBytes;
use crate::read_at::{ReadAt, ReadError};
use std::marker::{Model, PhantomData};

mod reads;

/// Why a table that is read by position was not opened, or a lookup in it has no result.
#[derive(Debug, PartialEq, Eq, Drop)]
pub enum FileError {
    /// The bytes were not read.
    Read(ReadError),
    /// The error of a table over the bytes that were read.
    Table(DynError),
}

/// A table that is read by position from a source of bytes: its header when it is opened, and for
/// each lookup the groups of control bytes up to the end of the search, the keys whose tag fits,
/// and the value. No memory is allocated.
///
/// Where each read of the source returns bytes of one list, a call returns what that of
/// [`DynTable`](super::DynTable) over this list returns, or the error of a read that failed; but a
/// key of another length is an error here. Where the bytes change between reads, a lookup may
/// return what no table had at one time, but it does no harm, and one that returns has read at
/// most one group for sixteen slots. That a file keeps its bytes is not proved: it is for the
/// caller to know.
///
/// A contract speaks of it as of the source, the offset, the lengths, and the counts of the
/// header.
#[derive(Drop)]
pub struct FileTable<H: HashFn, S: ReadAt + Drop> {
    source: S,
    at: u64,
    layout: Layout,
    slots: usize,
    items: usize,
    hash: PhantomData<H>,
}

impl<H: HashFn, S: ReadAt + Drop> Model for FileTable<H, S> {
    ghost use Rattle.odht.specs.Files.{FileStore, IsFileOpened};

    ghost Value = { FileStore S };

    ghost view = { λ t. record {
      source = t.source;
      at = t.at;
      key_len = t.layout.key_len;
      value_len = t.layout.value_len;
      slots = t.slots;
      items = t.items;
    } };

    ghost invariant = { λ t. IsFileOpened H.MIN_LEN
        (record {
          source = t.source;
          at = t.at;
          key_len = t.layout.key_len;
          value_len = t.layout.value_len;
          slots = t.slots;
          items = t.items;
        }) };
}

impl<H: HashFn, S: ReadAt + Drop> FileTable<H, S> {
    /// [`FileTable::open_at`] of all bytes of a source, of which there are `len`.
    pub fn open(layout: Layout, source: S, len: usize) -> Result<Self, FileError>
        ensures table { IfOk result (IsFileOf layout.key_len layout.value_len source 0 len) }
        ensures short { layout.key_len < H.MIN_LEN → result
            ≡ Err (FileError.Table (DynError.KeyTooShort layout.key_len H.MIN_LEN)) }
        ensures given { let F = format_of layout.key_len layout.value_len H.hash
            in (B : List ℕ) → S.gives source B → len ≤ length B
            → IsFileResult (S.fails source) (dyn_refusal H.MIN_LEN F (bytes_at B 0 len))
            (λ t. IsOver H.hash t B) result }
    {
        FileTable::open_at(layout, source, 0, len)
    }

    /// Opens the `len` bytes from an offset on as a table of these lengths. It reads the header,
    /// the first 32 control bytes, and the entries of sixteen slots: at most three reads, where
    /// each returns all that is asked. That there are `len` bytes is the caller's word: where the
    /// source ends before, a lookup may return `EarlyEnd`.
    ///
    /// The first error: `Table` with `KeyTooShort`; `Read` with `EarlyEnd` where the end reaches
    /// 2^64; then that of a read, or `Table` with what [`DynTable::open`](super::DynTable::open)
    /// returns of the bytes: of the header and the length, then of the first ten slots. On an
    /// error the source is dropped.
    pub fn open_at(layout: Layout, source: S, offset: u64, len: usize) -> Result<Self, FileError>
        ensures table { IfOk result (IsFileOf layout.key_len layout.value_len source offset len) }
        ensures short { layout.key_len < H.MIN_LEN → result
            ≡ Err (FileError.Table (DynError.KeyTooShort layout.key_len H.MIN_LEN)) }
        ensures far { H.MIN_LEN ≤ layout.key_len → 2 ^ 64 ≤ offset + len
            → result ≡ Err (FileError.Read ReadError.EarlyEnd) }
        ensures given { let F = format_of layout.key_len layout.value_len H.hash
            in (B : List ℕ) → S.gives source B → offset + len ≤ length B → offset + len < 2 ^ 64
            → IsFileResult (S.fails source) (dyn_refusal H.MIN_LEN F (bytes_at B offset len))
            (λ t. IsOver H.hash t B) result }
    {
        if (layout.key_len as usize) < H::MIN_LEN {
            return Err(FileError::Table(DynError::KeyTooShort {
                key_len: layout.key_len,
                least: H::MIN_LEN,
            }));
        }
        if offset.checked_add(len as u64).is_none() {
            return Err(FileError::Read(ReadError::EarlyEnd));
        }
        let (slots, items) = reads::open_header::<H, S>(&source, layout, offset, len)?;
        Ok(FileTable {
            source,
            at: offset,
            layout,
            slots,
            items,
            hash: PhantomData,
        })
    }

    /// [`FileTable::open_at_as_stated`] of all bytes of a source, of which there are `len`.
    pub fn open_as_stated(source: S, len: usize) -> Result<Self, FileError>
        ensures table { IfOk result (IsFileAt source 0 len) }
        ensures given { (B : List ℕ) → S.gives source B → len ≤ length B
            → IsFileResult (S.fails source) (stated_refusal H.MIN_LEN H.hash (bytes_at B 0 len))
            (λ t. IsStatedOver H.hash t B) result }
    {
        FileTable::open_at_as_stated(source, 0, len)
    }

    /// [`FileTable::open_at`] with the lengths that the header states; [`FileTable::layout`] tells
    /// them. The header is read first by itself, so that it is one read more.
    ///
    /// The first error: `Read` with `EarlyEnd` where the end reaches 2^64; then that of a read, or
    /// `Table` with what [`DynTable::open_as_stated`](super::DynTable::open_as_stated) returns of
    /// the bytes: of the header and the length, then `KeyTooShort`, then of the first ten slots.
    /// On an error the source is dropped.
    pub fn open_at_as_stated(source: S, offset: u64, len: usize) -> Result<Self, FileError>
        ensures table { IfOk result (IsFileAt source offset len) }
        ensures far { 2 ^ 64 ≤ offset + len → result ≡ Err (FileError.Read ReadError.EarlyEnd) }
        ensures given { (B : List ℕ) → S.gives source B → offset + len ≤ length B
            → offset + len < 2 ^ 64 → IsFileResult (S.fails source)
            (stated_refusal H.MIN_LEN H.hash (bytes_at B offset len))
            (λ t. IsStatedOver H.hash t B) result }
    {
        if offset.checked_add(len as u64).is_none() {
            return Err(FileError::Read(ReadError::EarlyEnd));
        }
        let layout = reads::stated_lengths(&source, offset, len)?;
        FileTable::open_at(layout, source, offset, len)
    }

    /// The lengths of keys and values.
    #[inline]
    pub fn layout(&self) -> Layout
        ensures key { result.key_len ≡ self.now.key_len }
        ensures value { result.value_len ≡ self.now.value_len }
        ensures hashes { H.MIN_LEN ≤ result.key_len }
    {
        self.layout
    }

    /// The item count of the header, as it was read when the table was opened. Nothing is read.
    #[inline]
    pub fn len(&self) -> usize
        ensures opened { result ≡ self.now.items }
        ensures given { (B : List ℕ) → IsOver H.hash self.now B
            → IsItemCount (file_format self.now H.hash) (file_bytes self.now B) result }
    {
        self.items
    }

    /// The value of a key, or None, as [`DynTable::get`](super::DynTable::get) of the table's
    /// bytes returns it. In a file that was made to have long searches it may take a read for each
    /// sixteen slots.
    ///
    /// The first error: `Table` with `WrongKeyLength` where the key has another length than the
    /// table's keys, and nothing is read; then `Read` with that of a read.
    pub fn get(&self, key: &[u8]) -> Result<Option<ShortBytes>, FileError>
        ensures given { (B : List ℕ) → S.gives self.now.source B → IsOver H.hash self.now B
            → IsFileResult (S.fails self.now.source) (key_refusal self.now key.now)
            (IsGet (file_coding self.now H.hash) (file_bytes self.now B) key.now) result }
        ensures other { length key.now ≢ self.now.key_len → result ≡ Err (FileError.Table
            (DynError.WrongKeyLength self.now.key_len (length key.now))) }
    {
        let (value, _) = self.get_counted(key)?;
        Ok(value)
    }

    /// `get`, and how many groups of control bytes it read: on valid bytes those up to the first
    /// slot of the key's probe order that is free or holds the key, and whatever the reads give at
    /// most one for sixteen slots. docs/FORMAT.md, "Search", counts them. Beside these it reads
    /// the key of each slot whose tag fits, and the value.
    ///
    /// The errors are those of [`FileTable::get`].
    pub fn get_counted(&self, key: &[u8]) -> Result<(Option<ShortBytes>, usize), FileError>
        ensures given { (B : List ℕ) → S.gives self.now.source B → IsOver H.hash self.now B
            → IsFileResult (S.fails self.now.source) (key_refusal self.now key.now)
            (IsCountedGet (file_coding self.now H.hash) (file_bytes self.now B) key.now) result }
        ensures few { IfOk result (λ r. r.1 ≤ self.now.slots / 16) }
        ensures other { length key.now ≢ self.now.key_len → result ≡ Err (FileError.Table
            (DynError.WrongKeyLength self.now.key_len (length key.now))) }
    {
        if key.len() != self.layout.key_len as usize {
            return Err(FileError::Table(DynError::WrongKeyLength {
                expected: self.layout.key_len,
                found: key.len(),
            }));
        }
        let place = reads::place_of(self.at, self.slots, self.layout);
        match reads::find_read::<H, S>(&self.source, &place, key) {
            Ok(found) => Ok(found),
            Err(error) => Err(FileError::Read(error)),
        }
    }

    /// Whether the key has a value. The errors are those of [`FileTable::get`], and so are the
    /// reads.
    pub fn contains_key(&self, key: &[u8]) -> Result<bool, FileError>
        ensures given { (B : List ℕ) → S.gives self.now.source B → IsOver H.hash self.now B
            → IsFileResult (S.fails self.now.source) (key_refusal self.now key.now)
            (IsKnown (file_coding self.now H.hash) (file_bytes self.now B) key.now) result }
        ensures other { length key.now ≢ self.now.key_len → result ≡ Err (FileError.Table
            (DynError.WrongKeyLength self.now.key_len (length key.now))) }
    {
        let value = self.get(key)?;
        Ok(value.is_some())
    }
}
