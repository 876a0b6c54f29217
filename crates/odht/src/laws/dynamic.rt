//! A typed table and one whose lengths are known only at run time, over the same bytes, agree.
ghost use Rattle.std.specs.Prelude.{◌≡◌, option_map};
ghost use Rattle.std.specs.Option.{option_copied};
ghost use Rattle.odht_raw.specs.Walks.{decoded_all};
ghost use Rattle.odht.specs.Tables.{OfTable};

use crate::bytes::{ByteArray, ByteStore};
use crate::config::{Coded, Config};
use crate::dynamic::DynTable;
use crate::hash_table::HashTable;
use crate::iter::Iter;
use crate::raw_table::DynIter;

/// What both tables have for a key: the first the value, the second its bytes. On valid bytes
/// these bytes decode to that value, or both have none.
///
/// It costs a `get` of each.
pub fn same_value<'a, C: Config, D: ByteStore, E: ByteStore>(
    typed: &HashTable<C, D>,
    dynamic: &'a DynTable<C::H, E>,
    key: &C::Key,
) -> (Option<C::Value>, Option<&'a [u8]>)
    requires bytes { E.bytes dynamic.now.store ≡ D.bytes typed.now }
    requires keys { dynamic.now.key_len ≡ C.EncodedKey.LEN }
    requires values { dynamic.now.value_len ≡ C.EncodedValue.LEN }
    ensures { let c = ⟦<C as Coded>⟧.coding in OfTable c.format (D.bytes typed.now)
        (λ _. result.0 ≡ option_map c.value_of (option_copied result.1)) }
{
    let bytes = C::encode_key(key);
    let found = dynamic.get(bytes.as_slice());
    (typed.get(key), found)
}

/// The item counts of both tables: they are the same, on any bytes.
pub fn same_len<C: Config, D: ByteStore, E: ByteStore>(
    typed: &HashTable<C, D>,
    dynamic: &DynTable<C::H, E>,
) -> (usize, usize)
    requires { E.bytes dynamic.now.store ≡ D.bytes typed.now }
    ensures { result.0 ≡ result.1 }
{
    (typed.len(), dynamic.len())
}

/// The walks over both tables: on any bytes the first gives what the pairs of the second decode
/// to, in the same order.
pub fn same_walk<'a, C: Config, D: ByteStore, E: ByteStore>(
    typed: &'a HashTable<C, D>,
    dynamic: &'a DynTable<C::H, E>,
) -> (Iter<'a, C>, DynIter<'a, C::H>)
    requires bytes { E.bytes dynamic.now.store ≡ D.bytes typed.now }
    requires keys { dynamic.now.key_len ≡ C.EncodedKey.LEN }
    requires values { dynamic.now.value_len ≡ C.EncodedValue.LEN }
    ensures { result.0 ≡ decoded_all ⟦<C as Coded>⟧.coding result.1 }
{
    (typed.iter(), dynamic.iter())
}
