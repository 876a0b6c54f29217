//! Configurations whose decodings undo their encodings: keys and values come back, and a table
//! returns the values themselves.
ghost use Rattle.std.specs.Prelude.{◌≡◌};

use crate::tests::checks::{same, same_at};
use odht::configs::{DirectU32ToU32, U32ToU32};
use odht::{Lossless, laws};

// What the bytes of a key and of a value decode to, only through the bound.
fn brought_back<C: Lossless>(key: &C::Key, value: &C::Value) -> (C::Key, C::Value)
    ensures key { result.0 ≡ key.now }
    ensures value { result.1 ≡ value.now }
{
    C::key_kept(key);
    C::value_kept(value);
    let key = C::decode_key(&C::encode_key(key));
    (key, C::decode_value(&C::encode_value(value)))
}

#[test]
fn keys_and_values_come_back(rt: HostRuntime) {
    for number in [0, 1, 255, 256, 0x01020304, 0x7fffffff, 0x80000000, u32::MAX] {
        let value = u32::MAX - number;
        let found = brought_back::<U32ToU32>(&number, &value);
        same(&rt, "U32ToU32", found, (number, value));
        let found = brought_back::<DirectU32ToU32>(&number, &value);
        same(&rt, "DirectU32ToU32", found, (number, value));
    }
}

#[test]
fn tables_of_a_key_twice(rt: HostRuntime) {
    let items = [(1, 10), (2, 20), (1, 30)];
    for (key, expected) in [(1, Some(30)), (2, Some(20)), (3, None)] {
        let value = laws::built_from_empty::<U32ToU32>(rt.alloc(), &items, 87, &key);
        same_at(&rt, "key", key, value, Ok(expected));
        let value = laws::built_from_empty::<DirectU32ToU32>(rt.alloc(), &items, 87, &key);
        same_at(&rt, "key hashed as itself", key, value, Ok(expected));
    }
}

#[test]
fn a_table_of_nothing(rt: HostRuntime) {
    let value = laws::built_from_empty::<U32ToU32>(rt.alloc(), &[], 100, &1);
    same(&rt, "key 1", value, Ok(None));
}
