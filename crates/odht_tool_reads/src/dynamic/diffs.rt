//! How the pairs of two tables of the same lengths of keys and values differ.
ghost use Rattle.std.specs.Prelude.{◌≡◌, ◌≤◌, ◌==◌, All, IfOk, IfSome, OnOk, Ok, length};
ghost use Rattle.std.specs.Io.KnownBytes.{Appends};
ghost use Rattle.std.specs.Option.{option_copied};
ghost use Rattle.odht.specs.Dynamic.{dyn_format};
ghost use Rattle.odht_base.specs.Decoded.{decoded_pairs};
ghost use Rattle.odht_base.specs.Format.{format_of};
ghost use Rattle.odht_base.specs.Map.{value_in};
ghost use Rattle.odht_base.specs.Valid.{IsValidBytes};
ghost use Rattle.odht_raw.specs.DynParts.{HasLengthsOf};
ghost use Rattle.odht_tool_core.specs.Endings.{IsDone};
ghost use Rattle.odht_tool_core.specs.ReadyShapes.{typed_len};
ghost use Rattle.odht_tool_core.specs.StoredTexts.{key_text, value_text};
ghost use Rattle.odht_tool_reads.specs.Diffs.{change_line, diff_line, diff_text, pairs_diff};
ghost use Rattle.odht_tool_reads.specs.Diffs.{same_text, side_line, side_mark, side_text};
ghost use Rattle.odht_tool_tables.specs.Openings.{FitTexts};

use odht::bytes::Borrowed;
use odht::dynamic::DynTable;
use odht::hash::HashFn;
use odht::raw_table::DynIter;
use odht_tool_core::failure::Failure;
use odht_tool_core::status::Status;
use odht_tool_core::typed::Texts;
use odht_tool_tables::dynamic::open_valid;
use std::io::{self, Write};

/// Which of the two tables is walked.
#[derive(Clone, Copy)]
pub enum Side {
    /// The first one.
    First,
    /// The second one.
    Second,
}

/// Writes a line for each pair that differs, or, where none does, whether the bytes do. They are
/// valid tables.
pub fn diff_lengths<H1: HashFn, H2: HashFn, O: Write>(
    texts: Texts,
    first: &[u8],
    second: &[u8],
    output: &mut O,
) -> Result<Status, Failure>
    requires hashes { H1.MIN_LEN ≤ typed_len texts.key }
    requires hashes_second { H2.MIN_LEN ≤ typed_len texts.key }
    requires valid { IsValidBytes
        (format_of (typed_len texts.key) (typed_len texts.value) H1.hash) first.now }
    requires valid_second { IsValidBytes
        (format_of (typed_len texts.key) (typed_len texts.value) H2.hash) second.now }
    ensures { let F = format_of (typed_len texts.key) (typed_len texts.value)
        in let xs = decoded_pairs (F H1.hash) first.now
        in let ys = decoded_pairs (F H2.hash) second.now
        in IsDone (pairs_diff (key_text texts) (value_text texts) first.now second.now xs ys)
        (O.contents output.old) (O.contents output.new) result }
{
    let one = open_valid::<H1>(texts, first);
    let two = open_valid::<H2>(texts, second);
    match write_diff(texts, &one, &two, output) {
        Ok(status) => Ok(status),
        Err(error) => Err(Failure::Output(error)),
    }
}

// The same of two tables.
fn write_diff<H1: HashFn, H2: HashFn, O: Write>(
    texts: Texts,
    one: &DynTable<H1, Borrowed<'_>>,
    two: &DynTable<H2, Borrowed<'_>>,
    output: &mut O,
) -> io::Result<Status>
    requires one { FitTexts texts (dyn_format one.now H1.hash) one.now.store.0.now }
    requires two { FitTexts texts (dyn_format two.now H2.hash) two.now.store.0.now }
    ensures { let A = one.now.store.0.now
        in let B = two.now.store.0.now
        in let xs = decoded_pairs (dyn_format one.now H1.hash) A
        in let ys = decoded_pairs (dyn_format two.now H2.hash) B
        in IfOk result (λ status. IsDone (pairs_diff (key_text texts) (value_text texts) A B xs ys)
        (O.contents output.old) (O.contents output.new) (Ok status)) }
{
    let is_same = write_both(texts, one, two, output)?;
    if is_same {
        output.write_all(same_text(one.raw_bytes(), two.raw_bytes()).as_bytes())?;
        return Ok(Status::Done);
    }
    Ok(Status::NotDone)
}

// Writes the lines of both sides. Returns whether there are none.
fn write_both<H1: HashFn, H2: HashFn, O: Write>(
    texts: Texts,
    one: &DynTable<H1, Borrowed<'_>>,
    two: &DynTable<H2, Borrowed<'_>>,
    output: &mut O,
) -> io::Result<bool>
    requires one { FitTexts texts (dyn_format one.now H1.hash) one.now.store.0.now }
    requires two { FitTexts texts (dyn_format two.now H2.hash) two.now.store.0.now }
    ensures written { let xs = decoded_pairs (dyn_format one.now H1.hash) one.now.store.0.now
        in let ys = decoded_pairs (dyn_format two.now H2.hash) two.now.store.0.now
        in OnOk result (Appends (O.contents output.old) (O.contents output.new)
        (diff_text (key_text texts) (value_text texts) xs ys)) }
    ensures none { let xs = decoded_pairs (dyn_format one.now H1.hash) one.now.store.0.now
        in let ys = decoded_pairs (dyn_format two.now H2.hash) two.now.store.0.now
        in IfOk result (λ none. none
        ≡ (length (diff_text (key_text texts) (value_text texts) xs ys) == 0)) }
{
    let is_first_same = write_side(texts, Side::First, one.iter(), two, output)?;
    let is_second_same = write_side(texts, Side::Second, two.iter(), one, output)?;
    Ok(is_first_same & is_second_same)
}

// What is said of two tables with the same pairs.
fn same_text(first: &[u8], second: &[u8]) -> &'static str
    ensures { result.now ≡ same_text first.now second.now }
{
    if first == second {
        "same bytes\n"
    } else {
        "same pairs, other bytes\n"
    }
}

// Writes the lines of one side, of the pairs of its table, beside the other table. Returns whether
// there are none.
fn write_side<S: HashFn, H: HashFn, O: Write>(
    texts: Texts,
    side: Side,
    pairs: DynIter<'_, S>,
    other: &DynTable<H, Borrowed<'_>>,
    output: &mut O,
) -> io::Result<bool>
    requires other { FitTexts texts (dyn_format other.now H.hash) other.now.store.0.now }
    requires lengths { All (HasLengthsOf (typed_len texts.key) (typed_len texts.value)) pairs }
    ensures written { let ys = decoded_pairs (dyn_format other.now H.hash) other.now.store.0.now
        in OnOk result (Appends (O.contents output.old) (O.contents output.new)
        (side_text (key_text texts) (value_text texts) side ys pairs.entry)) }
    ensures none { let ys = decoded_pairs (dyn_format other.now H.hash) other.now.store.0.now
        in IfOk result (λ none. none
        ≡ (length (side_text (key_text texts) (value_text texts) side ys pairs.entry) == 0)) }
{
    let mut is_same = true;
    for (key, value) in pairs {
        is_same &= write_beside(texts, side, key, value, other, output)?;
    }
    Ok(is_same)
}

// Writes the line of a pair of one side, beside the other table, if there is one. Returns whether
// there is none.
fn write_beside<H: HashFn, O: Write>(
    texts: Texts,
    side: Side,
    key: &[u8],
    value: &[u8],
    other: &DynTable<H, Borrowed<'_>>,
    output: &mut O,
) -> io::Result<bool>
    requires other { FitTexts texts (dyn_format other.now H.hash) other.now.store.0.now }
    requires lengths { HasLengthsOf (typed_len texts.key) (typed_len texts.value)
        (record { key = key.now; value = value.now }) }
    ensures written { let ys = decoded_pairs (dyn_format other.now H.hash) other.now.store.0.now
        in OnOk result (Appends (O.contents output.old) (O.contents output.new)
        (side_line (key_text texts) (value_text texts) side ys
        (record { key = key.now; value = value.now }))) }
    ensures none { let ys = decoded_pairs (dyn_format other.now H.hash) other.now.store.0.now
        in IfOk result (λ none. none ≡ (length (side_line (key_text texts) (value_text texts) side ys
        (record { key = key.now; value = value.now })) == 0)) }
{
    write_line(texts, side, key, value, value_of(other, key), output)
}

// The same where the other table has this value for the key, or none.
fn write_line<O: Write>(
    texts: Texts,
    side: Side,
    key: &[u8],
    value: &[u8],
    found: Option<&[u8]>,
    output: &mut O,
) -> io::Result<bool>
    requires key { length key.now ≡ typed_len texts.key }
    requires value { length value.now ≡ typed_len texts.value }
    requires found { IfSome found (λ v. length v.now ≡ typed_len texts.value) }
    ensures written { OnOk result (Appends (O.contents output.old) (O.contents output.new)
        (diff_line (key_text texts) (value_text texts) side
        (record { key = key.now; value = value.now }) (option_copied found.entry))) }
    ensures none { IfOk result (λ none. none ≡ (length (diff_line (key_text texts)
        (value_text texts) side (record { key = key.now; value = value.now })
        (option_copied found.entry)) == 0)) }
{
    match (side, found) {
        (_, None) => {
            output.write_all(mark_of(side))?;
            texts.write_pair(key, value, output)?;
            Ok(false)
        }
        (Side::First, Some(found)) => write_change(texts, key, value, found, output),
        (Side::Second, Some(_)) => Ok(true),
    }
}

// The value of a key in a valid table.
fn value_of<'a, H: HashFn>(table: &'a DynTable<H, Borrowed<'_>>, key: &[u8]) -> Option<&'a [u8]>
    requires { IsValidBytes (dyn_format table.now H.hash) table.now.store.0.now }
    ensures value { let pairs = decoded_pairs (dyn_format table.now H.hash) table.now.store.0.now
        in option_copied result ≡ value_in pairs key.now }
    ensures fits { IfSome result (λ v. length v.now ≡ table.now.value_len) }
{
    // To look at the lengths is what tells that they are short, and keys long enough for the hash
    // function.
    let _ = table.layout();
    table.get(key)
}

// What is written before a pair of which the other table has not the key.
fn mark_of(side: Side) -> &'static [u8]
    ensures { result.now ≡ side_mark side }
{
    match side {
        Side::First => b"-\t",
        Side::Second => b"+\t",
    }
}

// Writes the line of a pair for whose key the other table has this value, if that is another one.
// Returns whether it is the same.
fn write_change<O: Write>(
    texts: Texts,
    key: &[u8],
    value: &[u8],
    found: &[u8],
    output: &mut O,
) -> io::Result<bool>
    requires key { length key.now ≡ typed_len texts.key }
    requires value { length value.now ≡ typed_len texts.value }
    requires found { length found.now ≡ typed_len texts.value }
    ensures written { OnOk result (Appends (O.contents output.old) (O.contents output.new)
        (change_line (key_text texts) (value_text texts)
        (record { key = key.now; value = value.now }) found.now)) }
    ensures none { IfOk result (λ none. none ≡ (length (change_line (key_text texts)
        (value_text texts) (record { key = key.now; value = value.now }) found.now) == 0)) }
{
    if value == found {
        return Ok(true);
    }
    output.write_all(b"~\t")?;
    texts.write_key(key, output)?;
    output.write_all(b"\t")?;
    texts.write_value(value, output)?;
    output.write_all(b"\t")?;
    texts.write_value(found, output)?;
    output.write_all(b"\n")?;
    Ok(false)
}
