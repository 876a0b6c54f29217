//! Byte arrays of a fixed length, which keys and values are encoded to, and stores of bytes, which
//! hold tables.

mod arrays;
mod stores;

pub use arrays::{
    ByteArray, is_same_bytes, is_same_four, is_same_word, is_zeros, read_u32, read_u64,
};
pub use stores::{Borrowed, BorrowedMut, ByteStore, ByteStoreMut, OwnedBytes, write_slice};
