//! The exports that open a dynamic table, and that look up in an opened one.
//!
//! Lookups do not check the header: the caller ensures that the bytes of a view are accepted, as
//! they are after `open_view` with the same lengths. Calls that take a layout return `BAD_LAYOUT`
//! as the other exports do.
ghost use Rattle.std.specs.Prelude.{◌≡◌, ◌≤◌, length};
ghost use Rattle.odht_raw.specs.Frame.{IsAccepted};
ghost use Rattle.odht_calls.specs.Layouts.{AnyAnswers, DynAnswers, ViewContainsAnswers};
ghost use Rattle.odht_calls.specs.Layouts.{AnyViewLenAnswers, IsLayout, any_coding};
ghost use Rattle.odht_calls.specs.Pieces.{AnyViewGetAllAnswers};
ghost use Rattle.odht_calls.specs.Views.{OpenViewAnswers, ViewGetAnswers};

use odht::hash::HashFn;
use odht::layout::Layout;
use odht_calls::any::view::{contains, get, get_all};
use odht_calls::any::{AnyLayout, FX, UNHASH, XXH64, has_hash};
use odht_calls::status::BAD_LAYOUT;
use odht_calls::view::{View, len, open};

/// Opens the bytes as `open` does, makes `view` a view of them, and returns 0. Otherwise returns
/// an error of the header, the length or the first ten slots. Then `view` is unchanged.
#[unsafe(no_mangle)]
pub extern "C" fn odht_any_open_view<'a>(
    layout: &AnyLayout,
    bytes: &'a [u8],
    view: &mut View<'a>,
) -> u32
    ensures { AnyAnswers layout.now result (view.new.bytes ≡ view.old.bytes)
        (λ c. OpenViewAnswers c.format bytes.entry view.old.bytes result view.new.bytes) }
{
    with_hash!(*layout, open::<Layout>(bytes, view))
}

/// Writes the value of a key in an opened table to `value`, and returns 0. Returns `ABSENT` if the
/// key is absent, and `BAD_LENGTHS` if the key or `value` does not have the layout's length. Then
/// `value` is unchanged.
#[unsafe(no_mangle)]
pub extern "C" fn odht_any_view_get(
    layout: &AnyLayout,
    view: &View<'_>,
    key: &[u8],
    value: &mut [u8],
) -> u32
    requires accepted { IsLayout layout.now
        → IsAccepted (any_coding layout.now).format view.now.bytes.now }
    ensures { let Long = (length key.now ≡ layout.now.key_len)
        × (length value.old ≡ layout.now.value_len)
        in AnyAnswers layout.now result (value.new ≡ value.old)
        (λ c. DynAnswers Long result (value.new ≡ value.old)
        (ViewGetAnswers c view.now.bytes.now key.now value.old result value.new)) }
{
    with_hash!(*layout, get(view.bytes, key, value))
}

/// Returns 0 if the key is present in an opened table, and `ABSENT` if it is absent. Returns
/// `BAD_LENGTHS` if the key does not have the layout's length.
#[unsafe(no_mangle)]
pub extern "C" fn odht_any_view_contains(layout: &AnyLayout, view: &View<'_>, key: &[u8]) -> u32
    requires accepted { IsLayout layout.now
        → IsAccepted (any_coding layout.now).format view.now.bytes.now }
    ensures { AnyAnswers layout.now result (Unit {0})
        (λ c. DynAnswers (length key.now ≡ layout.now.key_len) result (Unit {0})
        (ViewContainsAnswers c view.now.bytes.now key.now result)) }
{
    with_hash!(*layout, contains(view.bytes, key))
}

/// Looks up `count` keys in an opened table, and returns 0. If the key at an index is present,
/// writes 1 to `found` and its value to `values` at that index. If it is absent, writes 0 to
/// `found` and leaves the value unchanged. Returns `BAD_LENGTHS` if the length of `keys`, `values`
/// or `found` is not that of `count` items. Then nothing is written.
#[unsafe(no_mangle)]
pub extern "C" fn odht_any_view_get_all(
    layout: &AnyLayout,
    view: &View<'_>,
    count: usize,
    keys: &[u8],
    values: &mut [u8],
    found: &mut [u8],
) -> u32
    requires accepted { IsLayout layout.now
        → IsAccepted (any_coding layout.now).format view.now.bytes.now }
    ensures { AnyViewGetAllAnswers layout.now view.now.bytes.now
        count keys.now values.old found.old result values.new found.new }
{
    with_hash!(*layout, get_all(view.bytes, count, keys, values, found))
}

/// Returns the item count in the header of an opened table. If the bytes are valid, this is the
/// number of items. Nothing is checked: the caller ensures that the view's bytes begin with a
/// header, as they do after `open_view`. The call takes no layout, because the count does not
/// depend on the lengths.
#[unsafe(no_mangle)]
pub extern "C" fn odht_any_view_len(view: &View<'_>) -> usize
    requires header { 32 ≤ length view.now.bytes.now }
    ensures { AnyViewLenAnswers view.now.bytes.now result }
{
    len(view)
}
