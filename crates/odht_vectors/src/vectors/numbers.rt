//! Calls without a configuration: load factors, slot counts, probe orders and group searches.
ghost use Rattle.std.specs.Prelude.{◌≡◌, ◌%◌, ◌<◌, IfOk};
ghost use Rattle.odht_base.specs.Load.{IsSlotCount};

use super::Fault;
use super::answer::Answer;
use super::group_starts::group_starts;
use super::words::{Case, number, percent};
use odht::load::{Factor, max_item_count_for, slots_needed};
use odht::raw_table::probe_order;
use odht::swisstable_group_query::{Group, lanes, no_simd};
use std::alloc::Global;

/// Answers a call.
pub fn answer(case: &Case<'_>, answer: &mut Answer) -> Result<(), Fault> {
    match case.call {
        "factor" | "to_percent" | "apply" | "apply_inverse" => load_factor(case, answer),
        "slots_needed" | "max_item_count" => slots(case, answer),
        "probe_order" => order(case, answer),
        "group_starts" => starts(case, answer),
        "words" | "lanes" => group(case, answer),
        _ => Err(Fault::Unread),
    }
}

// The load factor of a percentage, or a call on it.
fn load_factor(case: &Case<'_>, answer: &mut Answer) -> Result<(), Fault> {
    let [of_percent, rest @ ..] = case.args else {
        return Err(Fault::Unread);
    };
    let factor = Factor::from_percent(percent(*of_percent)?);
    match rest {
        [] if case.call == "factor" => answer.word(&factor.0),
        [] if case.call == "to_percent" => answer.word(&factor.to_percent()),
        [count] => applied(case.call, factor, number(*count)?, answer),
        _ => Err(Fault::Unread),
    }
}

// A call on a load factor and a count.
fn applied(call: &str, factor: Factor, count: usize, answer: &mut Answer) -> Result<(), Fault> {
    match call {
        "apply" => answer.word(&factor.apply(count)),
        "apply_inverse" if factor.0 >= 1 => answer.word(&factor.apply_inverse(count)),
        _ => Err(Fault::Unread),
    }
}

fn slots(case: &Case<'_>, answer: &mut Answer) -> Result<(), Fault> {
    let [count, of_percent] = case.args else {
        return Err(Fault::Unread);
    };
    let count = number(*count)?;
    let factor = Factor::from_percent(percent(*of_percent)?);
    match case.call {
        "slots_needed" if factor.0 >= 1 => answer.number(slots_needed(count, factor)),
        "max_item_count" => answer.word(&max_item_count_for(count, factor)),
        _ => Err(Fault::Unread),
    }
}

/// The number itself, where it is a slot count; any other is not understood.
pub fn slot_count(count: usize) -> Result<usize, Fault>
    ensures { IfOk result (λ slots. IsSlotCount slots) }
{
    let full = Factor::from_percent(100);
    match slots_needed(count.wrapping_sub(1), full) {
        Some(slots) if slots == count => Ok(slots),
        _ => Err(Fault::Unread),
    }
}

// The slots of a probe order, as ranges of rising slots.
fn order(case: &Case<'_>, answer: &mut Answer) -> Result<(), Fault> {
    let [start, slots] = case.args else {
        return Err(Fault::Unread);
    };
    let start = number(*start)?;
    let slots = slot_count(number(*slots)?)?;
    if start >= slots {
        return Err(Fault::Unread);
    }
    match probe_order(case.words.alloc, start, slots) {
        Ok(order) => ranges(order.as_slice(), answer),
        Err(_) => Err(Fault::Memory),
    }
}

// `FIRST-LAST` for each run of numbers that rise by one.
fn ranges(numbers: &[usize], answer: &mut Answer) -> Result<(), Fault> {
    let [first, rest @ ..] = numbers else {
        return Err(Fault::Unread);
    };
    let (mut first, mut last) = (*first, *first);
    for number in rest {
        if *number != last.wrapping_add(1) {
            answer.word(&format_args!("{first}-{last}"))?;
            first = *number;
        }
        last = *number;
    }
    answer.word(&format_args!("{first}-{last}"))
}

// The slots at which the groups of a probe sequence begin, for a group size.
fn starts(case: &Case<'_>, answer: &mut Answer) -> Result<(), Fault> {
    let [size, home, slots] = case.args else {
        return Err(Fault::Unread);
    };
    let home = number(*home)?;
    let slots = slot_count(number(*slots)?)?;
    match *size {
        "4" => starts_of::<4>(case.words.alloc, home, slots, answer),
        "8" => starts_of::<8>(case.words.alloc, home, slots, answer),
        "16" => starts_of::<16>(case.words.alloc, home, slots, answer),
        _ => Err(Fault::Unread),
    }
}

fn starts_of<const SIZE: usize>(
    alloc: Global,
    home: usize,
    slots: usize,
    answer: &mut Answer,
) -> Result<(), Fault>
    requires slots { IsSlotCount slots }
    requires divides { 16 % SIZE ≡ 0 }
{
    answer.numbers(group_starts::<SIZE>(alloc, home, slots)?.as_slice())
}

// The matches of a tag in a group, and its first free byte.
fn group(case: &Case<'_>, answer: &mut Answer) -> Result<(), Fault> {
    let [bytes, tag] = case.args else {
        return Err(Fault::Unread);
    };
    let bytes = case.words.bytes(*bytes)?;
    let tag = number(*tag)?;
    if tag >= 128 {
        return Err(Fault::Unread);
    }
    match case.call {
        "words" => group_of::<no_simd::GroupQuery>(bytes.as_slice(), tag as u8, answer),
        _ => group_of::<lanes::GroupQuery>(bytes.as_slice(), tag as u8, answer),
    }
}

fn group_of<Q: Group>(bytes: &[u8], tag: u8, answer: &mut Answer) -> Result<(), Fault>
    requires { tag < 128 }
{
    if bytes.len() != Q::SIZE {
        return Err(Fault::Unread);
    }
    let mut query = Q::of(bytes, tag);
    for _ in 0..bytes.len() {
        if let Some(index) = query.first_match() {
            answer.word(&index)?;
            query.drop_match();
        }
    }
    answer.word(&"free")?;
    answer.number(query.first_empty())
}
