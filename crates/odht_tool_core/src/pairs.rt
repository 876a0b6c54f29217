//! The pairs of lines, which are parsed one after the other: of types, or bytes in one buffer.
ghost use Rattle.std.specs.Prelude.{◌≡◌, ◌<◌, ◌+◌, IfErr, OnOk, Some, [], length, slice_get};
ghost use Rattle.std.specs.Prelude.{drop, take};
ghost use Rattle.odht_tool_core.specs.DynTexts.{IsDynamicOf, IsDynamicWord};
ghost use Rattle.odht_tool_core.specs.Forms.{part_in};
ghost use Rattle.odht_tool_core.specs.Pairs.{IsAdded, IsSideFault};
ghost use Rattle.odht_tool_core.specs.ReadyShapes.{typed_len};

use crate::dynamic_bytes::read_bytes;
use crate::failure::LineFault;
use crate::forms::Forms;
use crate::text::Text;
use odht_header::layout::{Layout, Lengths};
use odht_raw::raw_table::ShortBytes;
use std::alloc::Global;
use std::marker::Model;

/// What became of a pair of texts.
#[derive(Clone, Copy)]
pub enum Added {
    /// It was added.
    Pair,
    /// It is none, for this reason.
    Fault(LineFault),
    /// There was no memory for it.
    NoMemory,
}

/// Pairs of keys and values, of which each is added by its texts.
pub trait Pairs: Sized + Drop {
    ghost use Rattle.std.specs.Prelude.{List};

    /// A key.
    type Key: Text;

    /// A value.
    type Value: Text;

    ghost items: { Self → List (Self.Key × Self.Value) };

    /// No pairs. The lengths are those of keys and values.
    fn none(alloc: Global, layout: Layout) -> Self
        ensures { items result ≡ [] };

    /// How many pairs there are.
    fn count(&self) -> usize
        ensures { result ≡ length (items self.now) };

    /// Removes all pairs.
    fn remove_all(&mut self)
        ensures { items self.new ≡ [] };

    /// Adds the pair whose key and value have these texts.
    fn add<F: Forms>(&mut self, key: &[u8], value: &[u8], forms: F) -> Added
        ensures { IsAdded (Self.Key.is_word (F.pair forms).0) (Self.Key.stands_for (F.pair forms).0)
            (Self.Value.is_word (F.pair forms).1) (Self.Value.stands_for (F.pair forms).1)
            key.now value.now (items self.old) (items self.new) result };
}

impl<K: Text, V: Text> Pairs for Vec<(K, V)> {
    type Key = K;

    type Value = V;

    ghost items = { λ pairs. pairs.items };

    fn none(alloc: Global, _layout: Layout) -> Vec<(K, V)> {
        Vec::new(alloc)
    }

    #[inline(always)]
    fn count(&self) -> usize {
        self.len()
    }

    #[inline(always)]
    fn remove_all(&mut self) {
        self.clear()
    }

    #[inline(always)]
    fn add<F: Forms>(&mut self, key: &[u8], value: &[u8], forms: F) -> Added {
        let Some(key) = K::parse(key, forms.key()) else {
            return Added::Fault(LineFault::Key);
        };
        let Some(value) = V::parse(value, forms.value()) else {
            return Added::Fault(LineFault::Value);
        };
        match self.push((key, value)) {
            Ok(()) => Added::Pair,
            Err(_) => Added::NoMemory,
        }
    }
}

/// Pairs of bytes of two lengths that are known only at run time, one after the other in one
/// buffer.
///
/// In a contract it is the list of these pairs.
#[derive(Drop)]
pub struct BytePairs {
    bytes: Vec<u8>,
    count: usize,
    layout: Layout,
}

impl Model for BytePairs {
    ghost use Rattle.std.specs.Prelude.{◌≡◌, ◌*◌, ◌+◌, ℕ, List, length};
    ghost use Rattle.odht_tool_core.specs.Pairs.{pairs_in};

    ghost Value = { List (List ℕ × List ℕ) };

    ghost view = { λ s. pairs_in s.layout.key_len s.layout.value_len s.count s.bytes.items };

    ghost invariant = { λ s. length s.bytes.items
        ≡ s.count * (s.layout.key_len + s.layout.value_len) };
}

impl BytePairs {
    /// The key and the value at an index.
    #[inline]
    pub fn at(&self, index: usize) -> (&[u8], &[u8])
        requires { index < length self.now }
        ensures { slice_get self.now index ≡ Some (result.0.now, result.1.now) }
    {
        let pair = self.layout.entry(self.bytes.as_slice(), index);
        pair.split_at(self.layout.key_len as usize)
    }
}

impl Pairs for BytePairs {
    type Key = ShortBytes;

    type Value = ShortBytes;

    ghost items = { λ pairs. pairs };

    fn none(alloc: Global, layout: Layout) -> BytePairs {
        BytePairs {
            bytes: Vec::new(alloc),
            count: 0,
            layout,
        }
    }

    fn count(&self) -> usize {
        self.count
    }

    fn remove_all(&mut self) {
        self.bytes.clear();
        self.count = 0;
    }

    fn add<F: Forms>(&mut self, key: &[u8], value: &[u8], forms: F) -> Added {
        let (key_form, value_form) = (forms.key(), forms.value());
        // Keys and values of the lines have the lengths of the table.
        if key_form.part().size() != self.layout.key_len
            || value_form.part().size() != self.layout.value_len
            || self.count == usize::MAX
        {
            return Added::NoMemory;
        }
        let (key_len, value_len) = (self.layout.key_len as usize, self.layout.value_len as usize);
        let mut pair = [0; 510];
        let pair = &mut pair[..key_len + value_len];
        if let Err(fault) = read_sides(key, value, forms, key_len, pair) {
            return Added::Fault(fault);
        }
        match self.bytes.extend_from_slice(pair) {
            Ok(()) => {
                self.count += 1;
                Added::Pair
            }
            Err(_) => Added::NoMemory,
        }
    }
}

// Reads the bytes of both words, those of the key into the first ones, or returns which one is no
// text in its form.
#[inline(always)]
fn read_sides<F: Forms>(
    key: &[u8],
    value: &[u8],
    forms: F,
    key_len: usize,
    bytes: &mut [u8],
) -> Result<(), LineFault>
    requires key { key_len ≡ typed_len (part_in (F.pair forms).0) }
    requires len { length bytes.old ≡ key_len + typed_len (part_in (F.pair forms).1) }
    ensures key { OnOk result (IsDynamicOf (F.pair forms).0 key.now (take key_len bytes.new)) }
    ensures value { OnOk result
        (IsDynamicOf (F.pair forms).1 value.now (drop key_len bytes.new)) }
    ensures fault { IfErr result (IsSideFault (IsDynamicWord (F.pair forms).0)
        (IsDynamicWord (F.pair forms).1) key.now value.now) }
    ensures len { length bytes.new ≡ length bytes.old }
{
    let (key_bytes, value_bytes) = bytes.split_at_mut(key_len);
    if !read_bytes(key, forms.key(), key_bytes) {
        return Err(LineFault::Key);
    }
    if !read_bytes(value, forms.value(), value_bytes) {
        return Err(LineFault::Value);
    }
    Ok(())
}
