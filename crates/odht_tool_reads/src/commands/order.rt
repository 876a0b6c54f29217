//! `odht order`: the pairs of a table file, in an order of inserts that makes it.
ghost use Rattle.std.specs.Prelude.{◌≡◌, ◌≤◌, ◌<◌, All, IfOk, IfSome, None, Ok, OnOk, map};
ghost use Rattle.std.specs.Io.KnownBytes.{Appends};
ghost use Rattle.odht.specs.Tables.{OfTable};
ghost use Rattle.odht_base.specs.Decoded.{header_slots};
ghost use Rattle.odht_base.specs.Format.{format_of};
ghost use Rattle.odht_base.specs.Made.{IsInsertOrder, IsMade};
ghost use Rattle.odht_base.specs.Valid.{IsValidBytes};
ghost use Rattle.odht_tool_core.specs.ReadyShapes.{typed_len};
ghost use Rattle.odht_tool_core.specs.StoredTexts.{lines_of};
ghost use Rattle.odht_tool_reads.specs.Orders.{IsFileOrdered, IsOrdered, stored_at, unmade_text};

use odht::bytes::Borrowed;
use odht::dynamic::{DynTable, Layout};
use odht::hash::HashFn;
use odht::{FxHashFn, UnHashFn, Xxh64HashFn};
use odht_tool_core::failure::Failure;
use odht_tool_core::forms::Kinds;
use odht_tool_core::shapes::Hash;
use odht_tool_core::status::{Status, of_output};
use odht_tool_core::typed::Texts;
use odht_tool_tables::dynamic::lengths_of;
use odht_tool_tables::whole::read_whole;
use std::alloc::{AllocError, Global};
use std::io::{self, Write};

/// `odht order` of the bytes of a file: writes a line for each pair, in an order of inserts that
/// makes the table; or nothing where no inserts make it, with the status `NotDone`. They are
/// checked whole before, with the bound of searches where there is one.
pub fn order_file<O: Write>(
    alloc: Global,
    bytes: &[u8],
    hash: Option<Hash>,
    kinds: Kinds,
    bound: Option<usize>,
    output: &mut O,
) -> Result<Status, Failure>
    ensures { IsFileOrdered bytes.now hash kinds bound
        (O.contents output.old) (O.contents output.new) result }
{
    let found = read_whole(bytes, hash, kinds, bound)?;
    let (shape, forms) = found;
    let texts = Texts::of(shape, forms);
    match shape.hash() {
        Hash::Fx => order_pairs::<FxHashFn, O>(alloc, texts, bytes, output),
        Hash::Unhash => order_pairs::<UnHashFn, O>(alloc, texts, bytes, output),
        Hash::Xxh64 => order_pairs::<Xxh64HashFn, O>(alloc, texts, bytes, output),
    }
}

// The same of a valid table of a hash function.
fn order_pairs<H: HashFn, O: Write>(
    alloc: Global,
    texts: Texts,
    bytes: &[u8],
    output: &mut O,
) -> Result<Status, Failure>
    requires hashes { H.MIN_LEN ≤ typed_len texts.key }
    requires valid { IsValidBytes
        (format_of (typed_len texts.key) (typed_len texts.value) H.hash) bytes.now }
    ensures { let F = format_of (typed_len texts.key) (typed_len texts.value) H.hash
        in IsOrdered F texts bytes.now (O.contents output.old) (O.contents output.new) result }
{
    let layout = lengths_of(texts.key, texts.value);
    match order_of_slots::<H>(alloc, layout, bytes)? {
        Some(order) => {
            let order = order.as_slice();
            of_output(write_order::<H, O>(texts, layout, bytes, order, output))
        }
        None => Ok(Status::NotDone),
    }
}

// The slots of a valid table of these lengths in an insert order. None where no inserts make it.
fn order_of_slots<H: HashFn>(
    alloc: Global,
    layout: Layout,
    bytes: &[u8],
) -> Result<Option<Vec<usize>>, AllocError>
    requires hashes { H.MIN_LEN ≤ layout.key_len }
    requires valid { IsValidBytes (format_of layout.key_len layout.value_len H.hash) bytes.now }
    ensures order { let F = format_of layout.key_len layout.value_len H.hash
        in IfOk result (λ found. IfSome found
        (λ order. OfTable F bytes.now (λ P. IsInsertOrder F P order.items))) }
    ensures none { let F = format_of layout.key_len layout.value_len H.hash
        in result ≡ Ok None → OfTable F bytes.now (λ P. IsMade F P → ⊥) }
{
    let table = DynTable::<H, Borrowed<'_>>::open_unchecked(layout, Borrowed::new(bytes));
    let (count, scratch_len) = (table.len(), table.insert_order_scratch());
    let mut order = vec![in alloc; 0; count]?;
    let mut scratch = vec![in alloc; 0; scratch_len]?;
    if table.insert_order_with(order.as_mut_slice(), scratch.as_mut_slice()) {
        Ok(Some(order))
    } else {
        Ok(None)
    }
}

// Writes the pairs of these slots, each on a line.
fn write_order<H: HashFn, O: Write>(
    texts: Texts,
    layout: Layout,
    bytes: &[u8],
    order: &[usize],
    output: &mut O,
) -> io::Result<()>
    requires key { layout.key_len ≡ typed_len texts.key }
    requires value { layout.value_len ≡ typed_len texts.value }
    requires hashes { H.MIN_LEN ≤ layout.key_len }
    requires valid { IsValidBytes (format_of layout.key_len layout.value_len H.hash) bytes.now }
    requires slots { All (λ i. i < header_slots bytes.now) order.now }
    ensures { let F = format_of layout.key_len layout.value_len H.hash
        in OnOk result (Appends (O.contents output.old) (O.contents output.new)
        (lines_of texts (map (stored_at F bytes.now) order.now))) }
{
    let table = DynTable::<H, Borrowed<'_>>::open_unchecked(layout, Borrowed::new(bytes));
    let slots = table.as_dynamic();
    for slot in order {
        texts.write_pair(slots.key(*slot), slots.value(*slot), output)?;
    }
    Ok(())
}

/// Writes a line that says that no inserts make the table of the file.
pub fn write_unmade<E: Write>(file: &str, errors: &mut E) -> io::Result<()>
    ensures { OnOk result
        (Appends (E.contents errors.old) (E.contents errors.new) (unmade_text file.now)) }
{
    writeln!(errors, "odht: {file}: no inserts make this table")
}
