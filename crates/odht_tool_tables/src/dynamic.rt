//! Tables of lengths that are numbers: keys and values are bytes, of lengths that the header
//! states.
ghost use Rattle.std.specs.Prelude.{◌≡◌, ◌≤◌, IfErr, IfOk, None, OnOk};
ghost use Rattle.odht.specs.Dynamic.{dyn_format};
ghost use Rattle.odht_base.specs.Decoded.{decoded_pairs};
ghost use Rattle.odht_base.specs.Format.{format_of};
ghost use Rattle.odht_base.specs.Valid.{IsValidBytes};
ghost use Rattle.odht_header.specs.Refusals.{checked, check_refusal_by, view_refusal};
ghost use Rattle.odht_tool_core.specs.ReadyShapes.{typed_len};
ghost use Rattle.odht_tool_tables.specs.Openings.{FitTexts, IsOpenFailure};

use odht::bytes::Borrowed;
use odht::dynamic::{DynTable, Layout};
use odht::error::Error;
use odht::hash::HashFn;
use odht::memory_layout::{check_dynamic, check_dynamic_within, check_opening};
use odht_tool_core::failure::Failure;
use odht_tool_core::shapes::Part;
use odht_tool_core::typed::Texts;

/// The lengths of keys and values of these types.
pub fn lengths_of(key: Part, value: Part) -> Layout
    ensures key { result.key_len ≡ typed_len key }
    ensures value { result.value_len ≡ typed_len value }
{
    Layout {
        key_len: key.size(),
        value_len: value.size(),
    }
}

/// The first rule that the bytes break, as a table of these lengths and of a hash function, the
/// bound of searches among them where there is one. Bytes without an error are valid.
pub fn check_lengths<H: HashFn>(
    layout: Layout,
    bytes: &[u8],
    bound: Option<usize>,
) -> Result<(), Error>
    requires { H.MIN_LEN ≤ layout.key_len }
    ensures first { let F = format_of layout.key_len layout.value_len H.hash
        in result ≡ checked (check_refusal_by F bound bytes.now) }
    ensures valid { let F = format_of layout.key_len layout.value_len H.hash
        in OnOk result (IsValidBytes F bytes.now) }
{
    check_opening::<H>(bytes, layout)?;
    match bound {
        Some(groups) => check_dynamic_within::<H>(bytes, layout, groups),
        None => check_dynamic::<H>(bytes, layout),
    }
}

/// Opens the bytes as a table of these lengths.
pub fn open_lengths<H: HashFn>(
    layout: Layout,
    bytes: &[u8],
) -> Result<DynTable<H, Borrowed<'_>>, Failure>
    requires { H.MIN_LEN ≤ layout.key_len }
    ensures key { IfOk result (λ t. t.key_len ≡ layout.key_len) }
    ensures value { IfOk result (λ t. t.value_len ≡ layout.value_len) }
    ensures bytes { IfOk result (λ t. t.store.0.now ≡ bytes.now) }
    ensures opened { let F = format_of layout.key_len layout.value_len H.hash
        in OnOk result (view_refusal F bytes.now ≡ None) }
    ensures err { let F = format_of layout.key_len layout.value_len H.hash
        in IfErr result (IsOpenFailure (view_refusal F bytes.now)) }
{
    check_opening::<H>(bytes, layout).map_err(Failure::Refused)?;
    Ok(DynTable::open_unchecked(layout, Borrowed::new(bytes)))
}

/// The table of valid bytes.
pub fn open_valid<H: HashFn>(texts: Texts, bytes: &[u8]) -> DynTable<H, Borrowed<'_>>
    requires hashes { H.MIN_LEN ≤ typed_len texts.key }
    requires valid { IsValidBytes
        (format_of (typed_len texts.key) (typed_len texts.value) H.hash) bytes.now }
    ensures fits { FitTexts texts (dyn_format result H.hash) result.store.0.now }
    ensures bytes { result.store.0.now ≡ bytes.now }
    ensures pairs { let F = format_of (typed_len texts.key) (typed_len texts.value) H.hash
        in decoded_pairs (dyn_format result H.hash) result.store.0.now ≡ decoded_pairs F bytes.now }
{
    let layout = lengths_of(texts.key, texts.value);
    DynTable::open_unchecked(layout, Borrowed::new(bytes))
}
