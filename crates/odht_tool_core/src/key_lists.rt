//! The keys of words or lines, which are parsed one after the other: of a type, or bytes in one
//! buffer.
ghost use Rattle.std.specs.Prelude.{◌≡◌, ◌<◌, Some, length, slice_get};

use crate::dynamic_bytes::read_bytes;
use crate::forms::Form;
use crate::text::Text;
use odht_header::layout::{Layout, Lengths};
use odht_raw::raw_table::ShortBytes;
use std::alloc::Global;
use std::marker::Model;

/// What became of the text of a key.
#[derive(Clone, Copy)]
pub enum KeyAdded {
    /// Its key was added.
    Key,
    /// It is the text of no key.
    NoKey,
    /// There was no memory for its key.
    NoMemory,
}

/// Keys, of which each is added by its text.
pub trait Keys: Sized + Drop {
    ghost use Rattle.std.specs.Prelude.{◌≡◌, [], List, length};
    ghost use Rattle.odht_tool_core.specs.Keys.{IsKeyAdded};

    /// A key.
    type Key: Text;

    ghost items: { Self → List Self.Key };

    /// No keys. The length is that of each.
    fn none(alloc: Global, key_len: u8) -> Self
        ensures { items result ≡ [] };

    /// How many keys there are.
    fn count(&self) -> usize
        ensures { result ≡ length (items self.now) };

    /// Removes all keys.
    fn remove_all(&mut self)
        ensures { items self.new ≡ [] };

    /// Adds the key that the word is the text of.
    fn add(&mut self, word: &[u8], form: Form) -> KeyAdded
        ensures { IsKeyAdded (Self.Key.is_word form) (Self.Key.stands_for form) word.now
            (items self.old) (items self.new) result };
}

impl<K: Text> Keys for Vec<K> {
    type Key = K;

    ghost items = { λ keys. keys.items };

    fn none(alloc: Global, _key_len: u8) -> Vec<K> {
        Vec::new(alloc)
    }

    #[inline(always)]
    fn count(&self) -> usize {
        self.len()
    }

    #[inline(always)]
    fn remove_all(&mut self) {
        self.clear()
    }

    #[inline(always)]
    fn add(&mut self, word: &[u8], form: Form) -> KeyAdded {
        match K::parse(word, form) {
            Some(key) => match self.push(key) {
                Ok(()) => KeyAdded::Key,
                Err(_) => KeyAdded::NoMemory,
            },
            None => KeyAdded::NoKey,
        }
    }
}

/// Keys of bytes of a length that is known only at run time, one after the other in one buffer.
///
/// In a contract it is the list of these keys.
#[derive(Drop)]
pub struct ByteKeys {
    bytes: Vec<u8>,
    count: usize,
    key_len: u8,
}

impl Model for ByteKeys {
    ghost use Rattle.std.specs.Prelude.{◌≡◌, ◌*◌, ℕ, List, length};
    ghost use Rattle.odht_tool_core.specs.Pairs.{keys_in};

    ghost Value = { List (List ℕ) };

    ghost view = { λ s. keys_in s.key_len s.count s.bytes.items };

    ghost invariant = { λ s. length s.bytes.items ≡ s.count * s.key_len };
}

impl ByteKeys {
    /// The key at an index.
    #[inline]
    pub fn at(&self, index: usize) -> &[u8]
        requires { index < length self.now }
        ensures { slice_get self.now index ≡ Some result.now }
    {
        let layout = Layout {
            key_len: self.key_len,
            value_len: 0,
        };
        layout.entry(self.bytes.as_slice(), index)
    }
}

impl Keys for ByteKeys {
    type Key = ShortBytes;

    ghost items = { λ keys. keys };

    fn none(alloc: Global, key_len: u8) -> ByteKeys {
        ByteKeys {
            bytes: Vec::new(alloc),
            count: 0,
            key_len,
        }
    }

    fn count(&self) -> usize {
        self.count
    }

    fn remove_all(&mut self) {
        self.bytes.clear();
        self.count = 0;
    }

    fn add(&mut self, word: &[u8], form: Form) -> KeyAdded {
        // The words are texts of keys of the table.
        if form.part().size() != self.key_len || self.count == usize::MAX {
            return KeyAdded::NoMemory;
        }
        let mut key = [0; 255];
        let key = &mut key[..self.key_len as usize];
        if !read_bytes(word, form, key) {
            return KeyAdded::NoKey;
        }
        match self.bytes.extend_from_slice(key) {
            Ok(()) => {
                self.count += 1;
                KeyAdded::Key
            }
            Err(_) => KeyAdded::NoMemory,
        }
    }
}
