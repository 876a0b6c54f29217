//! `odht info`: what a table file of any shape holds.
ghost use Rattle.std.specs.Prelude.{◌≡◌, codes, map, None};
ghost use Rattle.std.specs.Option.{option_map};
ghost use Rattle.odht_tool_core.specs.InfoReports.{IsInfoDone, info_as, info_report};
ghost use Rattle.odht_tool_core.specs.InfoReports.{file_words, hash_field, hash_said, help_said, hit_said};
ghost use Rattle.odht_tool_core.specs.InfoReports.{line, number_line, percent_line};
ghost use Rattle.odht_tool_core.specs.InfoTexts.{hash_name};
ghost use Rattle.odht_tool_core.specs.Reports.{field, said, said_number, told, wording};
ghost use Rattle.odht_tool_core.specs.Reports.Said.{groups, histogram, stretches, text};

use crate::advice::{Advice, needs_whole, rebuilt_name};
use crate::failure::Failure;
use crate::job::Job;
use crate::numbers::{Numbers, numbers_of};
use crate::report::{Field, Value, Words, write_report};
use crate::shapes::Hash;
use crate::status::Status;
use odht_header::header::HEADER_SIZE;
use std::io::Write;

/// `odht info` of the bytes of a file: writes where they begin in it, sizes, counts, load factors,
/// how full the table is along its slots, how many groups a search reads for the items and for
/// absent keys, up to the bound, and the advice, if any; after a line of the file's name where it
/// is not the only one; or an object of JSON of all that.
pub fn info_file<O: Write>(
    job: &Job<'_>,
    advice: Option<Advice>,
    output: &mut O,
) -> Result<Status, Failure>
    ensures { let j = job.now
        in IsInfoDone (info_as j.is_json j.is_one j.at j.file.now) j.bytes.now j.bound advice
        (O.contents output.old) (O.contents output.new) result }
{
    let numbers = numbers_of(job.alloc, job.bytes, job.bound, advice)?;
    let report = report_of(job.file, job.is_one, job.at, &numbers);
    match write_report(&report, job.is_json, output) {
        Ok(()) => Ok(Status::Done),
        Err(error) => Err(Failure::Output(error)),
    }
}

// What is told of a file with these numbers.
fn report_of<'a>(
    file: &'a str,
    is_one: bool,
    at: Option<usize>,
    numbers: &'a Numbers,
) -> [Field<'a>; 18]
    ensures { map told result ≡ info_report is_one at file.now numbers.now }
{
    [
        file_field(file, is_one),
        line("at", "at byte       ", Value::of_number(at), "\n"),
        number_line("key_bytes", "key bytes     ", numbers.key_size as u128),
        number_line("value_bytes", "value bytes   ", numbers.value_size as u128),
        number_line("header_bytes", "header bytes  ", HEADER_SIZE as u128),
        number_line("all_bytes", "all bytes     ", numbers.len as u128),
        number_line("items", "items         ", numbers.item_count as u128),
        number_line("slots", "slots         ", numbers.slot_count as u128),
        number_line("maximum", "maximum       ", numbers.max_item_count as u128),
        percent_line("load_percent", "load          ", numbers.load),
        percent_line(
            "maximum_load_percent",
            "maximum load  ",
            numbers.max_load as u128,
        ),
        line("along_slots", "along slots   ", stretches_of(numbers), "\n"),
        hash_field(numbers.hash),
        bound_field(numbers.bound),
        line("histogram", "", histogram_of(numbers), ""),
        line("longest_hit", "longest hit   ", longest_hit(numbers), "\n"),
        line(
            "longest_miss",
            "longest miss  ",
            longest_miss(numbers),
            "\n",
        ),
        line(
            "may_help",
            "may help      ",
            help_of(at, file, numbers),
            "\n",
        ),
    ]
}

// A field whose value stands on a line, behind this label.
fn line<'a>(
    name: &'static str,
    label: &'static str,
    value: Value<'a>,
    end: &'static str,
) -> Field<'a>
    ensures { told result ≡ line name.now label.now (said value.entry) end.now }
{
    Field {
        name,
        value,
        words: Words::between(label, end),
    }
}

// The same of a number.
fn number_line(name: &'static str, label: &'static str, number: u128) -> Field<'static>
    ensures { told result ≡ number_line name.now label.now number }
{
    line(name, label, Value::Number(number), "\n")
}

// The same of a number of percent.
fn percent_line(name: &'static str, label: &'static str, number: u128) -> Field<'static>
    ensures { told result ≡ percent_line name.now label.now number }
{
    line(name, label, Value::Number(number), " percent\n")
}

// The name of the file. It has a line where the file is not the only one.
fn file_field(file: &str, is_one: bool) -> Field<'_>
    ensures { told result ≡ field (codes "file") (text file.now) (file_words is_one) }
{
    Field {
        name: "file",
        value: Value::Text(file),
        words: file_words(is_one),
    }
}

fn file_words(is_one: bool) -> Option<Words<'static>>
    ensures { option_map wording result ≡ file_words is_one }
{
    if is_one {
        None
    } else {
        Words::between("file          ", "\n")
    }
}

// The hash function. The head of the histogram stands behind its line.
fn hash_field(hash: Option<Hash>) -> Field<'static>
    ensures { told result ≡ hash_field hash }
{
    Field {
        name: "hash",
        value: name_or_nothing(hash),
        words: Some(Words {
            before: "hash          ",
            after: "\n  groups         items\n",
            otherwise: "hash          none of fx, unhash and xxh64\n",
        }),
    }
}

fn name_or_nothing(hash: Option<Hash>) -> Value<'static>
    ensures { said result ≡ hash_said hash }
{
    match hash {
        Some(hash) => Value::Text(name_of(hash)),
        None => Value::Absent,
    }
}

// The bound, of which the lines of numbers of groups tell.
fn bound_field(bound: Option<usize>) -> Field<'static>
    ensures { told result ≡ field (codes "bound") (said_number bound) None }
{
    Field {
        name: "bound",
        value: Value::of_number(bound),
        words: None,
    }
}

fn stretches_of(numbers: &Numbers) -> Value<'_>
    ensures { let n = numbers.now
        in said result ≡ stretches n.slot_count n.stretches.items }
{
    Value::Stretches {
        slot_count: numbers.slot_count,
        counts: numbers.stretches.as_slice(),
    }
}

fn histogram_of(numbers: &Numbers) -> Value<'_>
    ensures { let h = numbers.now.histogram
        in said result ≡ histogram h.counts.items h.longest }
{
    Value::Histogram {
        counts: numbers.histogram.counts(),
        longest: numbers.histogram.longest,
    }
}

// The longest search for a present key, where there is a hash function.
fn longest_hit(numbers: &Numbers) -> Value<'static>
    ensures { let n = numbers.now
        in said result ≡ hit_said n.hash n.bound n.histogram.longest }
{
    match numbers.hash {
        Some(_) => Value::Groups {
            count: numbers.histogram.longest,
            bound: numbers.bound,
        },
        None => Value::Absent,
    }
}

fn longest_miss(numbers: &Numbers) -> Value<'static>
    ensures { let n = numbers.now
        in said result ≡ groups n.longest_miss n.bound }
{
    Value::Groups {
        count: numbers.longest_miss,
        bound: numbers.bound,
    }
}

// What helps the file, if anything.
fn help_of<'a>(at: Option<usize>, file: &'a str, numbers: &Numbers) -> Value<'a>
    ensures { said result ≡ help_said at file.now numbers.now }
{
    match numbers.advice {
        Some(advice) => Value::Help {
            advice,
            file: rebuilt_name(at, file),
            is_whole: needs_whole(numbers),
        },
        None => Value::Absent,
    }
}

/// The name of a hash function.
pub fn name_of(hash: Hash) -> &'static str
    ensures { result.now ≡ hash_name hash }
{
    match hash {
        Hash::Fx => "fx",
        Hash::Unhash => "unhash",
        Hash::Xxh64 => "xxh64",
    }
}
