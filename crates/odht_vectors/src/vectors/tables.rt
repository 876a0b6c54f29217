//! Calls of a configuration: what its tables are, and how they are read, walked and written.

mod raw;

use super::Fault;
use super::answer::Answer;
use super::words::{Case, Words, number, percent};
use odht::bytes::{ByteArray, OwnedBytes};
use odht::error::Error;
use odht::hash::HashFn;
use odht::load::Percent;
use odht::memory_layout::{self, check_all};
use odht::{Config, HashTable, HashTableOwned, bytes_needed};
use std::alloc::Global;

type View<C> = HashTable<C, OwnedBytes>;

/// Answers a call of the configuration with these lengths and this hash function.
pub fn answer<C: Config>(case: &Case<'_>, shape: &str, answer: &mut Answer) -> Result<(), Fault> {
    if !is_shape(shape, C::EncodedKey::LEN, C::EncodedValue::LEN, C::H::NAME) {
        return Err(Fault::Unread);
    }
    match case.call {
        "hash" => hash_of::<C::H>(case, answer),
        "bytes_needed" => needed::<C>(case, answer),
        "table_len" => table_len::<C>(case, answer),
        "new" => new_table::<C>(case, answer),
        "with_capacity" => with_capacity::<C>(case, answer),
        "from_iterator" => collected::<C>(case, answer),
        _ => table::<C>(case, answer),
    }
}

// Whether words say these lengths of a key and of a value, and the name of this hash function.
fn is_shape(shape: &str, key: usize, value: usize, hash: &str) -> bool {
    let mut words = shape.split(' ');
    let key_len = words.next().map(number);
    let value_len = words.next().map(number);
    key_len == Some(Ok(key)) && value_len == Some(Ok(value)) && words.next() == Some(hash)
}

// A call on the bytes of a table.
fn table<C: Config>(case: &Case<'_>, answer: &mut Answer) -> Result<(), Fault> {
    let [bytes, args @ ..] = case.args else {
        return Err(Fault::Unread);
    };
    let mut bytes = case.words.bytes(*bytes)?;
    let case = case.with(args);
    match case.call {
        "raw_insert" => raw::insert::<C>(&case, bytes.as_mut_slice(), answer),
        "check" if args.is_empty() => answer.refusal(check_all::<C>(bytes.as_slice())),
        "owned" | "insert_order" | "insert_slots" if args.is_empty() => {
            owned::<C>(&case, bytes.as_slice(), answer)
        }
        _ => opened::<C>(&case, bytes, answer),
    }
}

// A call on a table that owns a copy of the bytes.
fn owned<C: Config>(case: &Case<'_>, bytes: &[u8], answer: &mut Answer) -> Result<(), Fault> {
    match HashTableOwned::<C>::from_raw_bytes(case.words.alloc, bytes) {
        Ok(table) if case.call == "owned" => answer.table(table.raw_bytes()),
        Ok(table) => insert_order(case, &table, answer),
        Err(refused) => answer.word(&refused),
    }
}

// Whether inserts make a table, and then its occupied slots, in an order in which they do or
// rising.
fn insert_order<C: Config>(
    case: &Case<'_>,
    table: &HashTableOwned<C>,
    answer: &mut Answer,
) -> Result<(), Fault> {
    let mut order = vec![in case.words.alloc; 0; table.len()]?;
    let is_found = table.insert_order(order.as_mut_slice());
    if !is_same_in_linear_time(case, table, order.as_slice(), is_found)? {
        return answer.word(&"another order in linear time");
    }
    tell_order(case.call, is_found, order.as_mut_slice(), answer)
}

// Whether the search in linear time has the same answer, and the same order.
fn is_same_in_linear_time<C: Config>(
    case: &Case<'_>,
    table: &HashTableOwned<C>,
    order: &[usize],
    is_found: bool,
) -> Result<bool, Fault> {
    let mut other = vec![in case.words.alloc; 0; table.len()]?;
    let mut scratch = vec![in case.words.alloc; 0; table.insert_order_scratch()]?;
    let is_other = table.insert_order_with(other.as_mut_slice(), scratch.as_mut_slice());
    Ok(is_other == is_found && (!is_found || other.as_slice() == order))
}

fn tell_order(
    call: &str,
    is_found: bool,
    order: &mut [usize],
    answer: &mut Answer,
) -> Result<(), Fault> {
    if !is_found {
        return answer.word(&false);
    }
    if call == "insert_slots" {
        order.sort_unstable();
    }
    answer.word(&true)?;
    answer.numbers(order)
}

// A call on a view of the bytes.
fn opened<C: Config>(case: &Case<'_>, bytes: Vec<u8>, answer: &mut Answer) -> Result<(), Fault> {
    match HashTable::from_raw_bytes(OwnedBytes::new(bytes)) {
        Ok(mut view) => on_view::<C>(case, &mut view, answer),
        Err(refused) => answer.word(&refused),
    }
}

fn on_view<C: Config>(
    case: &Case<'_>,
    view: &mut View<C>,
    answer: &mut Answer,
) -> Result<(), Fault> {
    match case.call {
        "insert" => insert(case, view, answer),
        "insert_all" => insert_all(case, view, answer),
        _ => read(case, view, answer),
    }
}

// A call that reads a view.
fn read<C: Config>(case: &Case<'_>, view: &View<C>, answer: &mut Answer) -> Result<(), Fault> {
    match case.args {
        [] => read_whole(case.call, view, answer),
        [arg] if case.call == "get" => get(view, &case.words.array(*arg)?, answer),
        [arg] => read_slots(case, view, number(*arg)?, answer),
        _ => Err(Fault::Unread),
    }
}

fn read_whole<C: Config>(call: &str, view: &View<C>, answer: &mut Answer) -> Result<(), Fault> {
    match call {
        "open" => answer.word(&"ok"),
        "len" => answer.word(&view.len()),
        "verify" => answer.word(&view.verify()),
        "walk" => walk(view, answer),
        _ => Err(Fault::Unread),
    }
}

// Reads a line of the dump, or checks that many slots.
fn read_slots<C: Config>(
    case: &Case<'_>,
    view: &View<C>,
    number: usize,
    answer: &mut Answer,
) -> Result<(), Fault> {
    match case.call {
        "dump" => dump(case.words.alloc, view, number, answer),
        "check_slots" => answer.refusal(view.as_raw().sanity_check_hashes(number)),
        _ => Err(Fault::Unread),
    }
}

fn hash_of<H: HashFn>(case: &Case<'_>, answer: &mut Answer) -> Result<(), Fault> {
    let [bytes] = case.args else {
        return Err(Fault::Unread);
    };
    let bytes = case.words.bytes(*bytes)?;
    if bytes.len() < H::MIN_LEN {
        return Err(Fault::Unread);
    }
    answer.word(&H::hash(bytes.as_slice()))
}

// The percentage of a load factor with which a table can be made.
fn table_percent(word: &str) -> Result<Percent, Fault> {
    Percent::new(percent(word)?).ok_or(Fault::Unread)
}

// So many items, and such a percentage.
fn size(count: &str, of_percent: &str) -> Result<(usize, Percent), Fault> {
    Ok((number(count)?, table_percent(of_percent)?))
}

fn needed<C: Config>(case: &Case<'_>, answer: &mut Answer) -> Result<(), Fault> {
    let [count, of_percent] = case.args else {
        return Err(Fault::Unread);
    };
    let (items, percent) = size(*count, *of_percent)?;
    answer.number(bytes_needed::<C>(items, percent.value()))
}

// How many bytes a table of that many slots has.
fn table_len<C: Config>(case: &Case<'_>, answer: &mut Answer) -> Result<(), Fault> {
    let [slots] = case.args else {
        return Err(Fault::Unread);
    };
    answer.number(memory_layout::bytes_needed::<C>(number(*slots)?))
}

// A new table in that many bytes, which had other contents before.
fn new_table<C: Config>(case: &Case<'_>, answer: &mut Answer) -> Result<(), Fault> {
    let [count, of_percent, len] = case.args else {
        return Err(Fault::Unread);
    };
    let (items, percent) = size(*count, *of_percent)?;
    let bytes = OwnedBytes::new(vec![in case.words.alloc; 0xa7; number(*len)?]?);
    match View::<C>::init_in_place(bytes, items, percent.value()) {
        Ok(table) => answer.table(table.raw_bytes()),
        Err(refused) => answer.word(&refused),
    }
}

// A list inserted at once into a new table that grows.
fn with_capacity<C: Config>(case: &Case<'_>, answer: &mut Answer) -> Result<(), Fault> {
    let [count, of_percent, pairs @ ..] = case.args else {
        return Err(Fault::Unread);
    };
    let (items, percent) = size(*count, *of_percent)?;
    let list = list::<C>(&case.words, pairs)?;
    match HashTableOwned::<C>::with_capacity(case.words.alloc, items, percent.value()) {
        Ok(mut table) => {
            let outcome = table.insert_all(list.as_slice());
            answer.list(outcome, table.raw_bytes())
        }
        Err(refused) => answer.word(&refused),
    }
}

// A list collected into a table.
fn collected<C: Config>(case: &Case<'_>, answer: &mut Answer) -> Result<(), Fault> {
    let [of_percent, pairs @ ..] = case.args else {
        return Err(Fault::Unread);
    };
    let percent = table_percent(*of_percent)?;
    let list = list::<C>(&case.words, pairs)?;
    let table = HashTableOwned::from_iterator(case.words.alloc, list.into_iter(), percent.value());
    made::<C>(table, answer)
}

// The bytes of a table that was made, or the error.
fn made<C: Config>(
    made: Result<HashTableOwned<C>, Error>,
    answer: &mut Answer,
) -> Result<(), Fault> {
    match made {
        Ok(table) => answer.table(table.raw_bytes()),
        Err(refused) => answer.word(&refused),
    }
}

// The value of a key, and how many groups were read.
fn get<C: Config>(view: &View<C>, key: &C::EncodedKey, answer: &mut Answer) -> Result<(), Fault> {
    let (value, groups) = view.get_counted(&C::decode_key(key));
    answer.value(encoded::<C>(value))?;
    answer.word(&groups)
}

fn encoded<C: Config>(value: Option<C::Value>) -> Option<C::EncodedValue> {
    match value {
        Some(value) => Some(C::encode_value(&value)),
        None => None,
    }
}

// The pairs in slot order.
fn walk<C: Config>(view: &View<C>, answer: &mut Answer) -> Result<(), Fault> {
    for (key, value) in view.iter() {
        answer.pair(&C::encode_key(&key), &C::encode_value(&value))?;
    }
    answer.or_none()
}

// A line of the dump of the slots.
fn dump<C: Config>(
    alloc: Global,
    view: &View<C>,
    line: usize,
    answer: &mut Answer,
) -> Result<(), Fault> {
    let text = format!(in alloc; "{:?}", view.as_raw())?;
    match text.as_str().lines().nth(line) {
        Some(line) => answer.word(&line),
        None => Err(Fault::Unread),
    }
}

// What each pair's insert returns, and the bytes that they leave.
fn insert<C: Config>(
    case: &Case<'_>,
    view: &mut View<C>,
    answer: &mut Answer,
) -> Result<(), Fault> {
    for pair in case.args {
        let (key, value) = case.words.pair(*pair)?;
        answer.former(insert_one(view, &key, &value))?;
    }
    answer.table(view.raw_bytes())
}

fn insert_one<C: Config>(
    view: &mut View<C>,
    key: &C::EncodedKey,
    value: &C::EncodedValue,
) -> Result<Option<C::EncodedValue>, Error> {
    let former = view.insert(&C::decode_key(key), &C::decode_value(value))?;
    Ok(encoded::<C>(former))
}

fn insert_all<C: Config>(
    case: &Case<'_>,
    view: &mut View<C>,
    answer: &mut Answer,
) -> Result<(), Fault> {
    let list = list::<C>(&case.words, case.args)?;
    let outcome = view.insert_all(list.as_slice());
    answer.list(outcome, view.raw_bytes())
}

// The pairs that words write.
fn list<C: Config>(words: &Words<'_>, pairs: &[&str]) -> Result<Vec<(C::Key, C::Value)>, Fault> {
    let mut list = Vec::new(words.alloc);
    for pair in pairs {
        let (key, value) = words.pair(*pair)?;
        list.push((C::decode_key(&key), C::decode_value(&value)))?;
    }
    Ok(list)
}
