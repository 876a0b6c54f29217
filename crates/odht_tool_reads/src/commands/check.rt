//! `odht check`: whether a file is a valid table.
ghost use Rattle.std.specs.Prelude.{◌≡◌, OnOk, map};
ghost use Rattle.std.specs.Io.KnownBytes.{Appends};
ghost use Rattle.std.specs.Option.{option_map};
ghost use Rattle.odht_tool_core.specs.Endings.{IsDone};
ghost use Rattle.odht_tool_core.specs.Reports.{said, told, wording};
ghost use Rattle.odht_tool_reads.specs.Outcomes.{bound_words, check_outcome, check_report};
ghost use Rattle.odht_tool_reads.specs.Outcomes.{hint_of, hint_text, rule_said};

use odht::error::Error;
use odht_tool_core::failure::Failure;
use odht_tool_core::found::{checked_any, hinted_hash};
use odht_tool_core::info::name_of;
use odht_tool_core::job::Job;
use odht_tool_core::report::{Field, Value, Words, write_report};
use odht_tool_core::shapes::Hash;
use odht_tool_core::status::Status;
use odht_tool_tables::checks::check_any;
use std::io::{self, Write};

/// `odht check` of the bytes of a file: writes its name, and that they are valid, and with a bound
/// that no search reads more groups; or the first rule that they break. With a bound it takes time
/// in proportion to the bytes and the bound.
pub fn check_file<O: Write>(
    job: &Job<'_>,
    hash: Option<Hash>,
    output: &mut O,
) -> Result<Status, Failure>
    ensures { let j = job.now
        in IsDone (check_outcome j.is_json j.file.now j.bytes.now hash j.bound)
        (O.contents output.old) (O.contents output.new) result }
{
    let shape = checked_any(job.bytes, hash)?;
    let checked = check_any(shape, job.bytes, job.bound);
    let report = report_of(job.file, job.bound, &checked);
    write_report(&report, job.is_json, output).map_err(Failure::Output)?;
    Ok(Status::of(checked.is_ok()))
}

// What the check of a file found.
fn report_of<'a>(file: &'a str, bound: Option<usize>, checked: &Result<(), Error>) -> [Field<'a>; 4]
    ensures { map told result ≡ check_report file.now bound checked.now }
{
    let is_valid = checked.is_ok();
    [
        Field {
            name: "file",
            value: Value::Text(file),
            words: Words::between("", ": "),
        },
        Field {
            name: "valid",
            value: Value::Truth(is_valid),
            words: Words::between("valid", ""),
        },
        Field {
            name: "bound",
            value: Value::of_number(bound),
            words: bound_words(is_valid),
        },
        Field {
            name: "rule",
            value: rule_of(checked),
            words: Some(Words {
                before: "",
                after: "\n",
                otherwise: "\n",
            }),
        },
    ]
}

// The words round the bound, where it is kept.
fn bound_words(is_valid: bool) -> Option<Words<'static>>
    ensures { option_map wording result ≡ bound_words is_valid }
{
    if is_valid {
        Words::between(", and no search reads more than ", " groups")
    } else {
        None
    }
}

// The rule that is broken, if one is.
fn rule_of(checked: &Result<(), Error>) -> Value<'static>
    ensures { said result ≡ rule_said checked.now }
{
    match checked {
        Ok(()) => Value::Absent,
        Err(error) => Value::Refused(*error),
    }
}

/// The hash function to name for bytes that were rejected where none was named: the first one that
/// is not that of their shape, where all control bytes agree with it.
pub fn hint_of(bytes: &[u8], hash: Option<Hash>) -> Option<Hash>
    ensures { result ≡ hint_of bytes.now hash }
{
    match (hash, checked_any(bytes, None)) {
        (None, Ok(shape)) => hinted_hash(bytes, shape.hash()),
        _ => None,
    }
}

/// Writes a line that tells of this hash function.
pub fn write_hint<E: Write>(file: &str, hash: Hash, errors: &mut E) -> io::Result<()>
    ensures { OnOk result
        (Appends (E.contents errors.old) (E.contents errors.new) (hint_text file.now hash)) }
{
    let name = name_of(hash);
    writeln!(
        errors,
        "odht: {file}: all control bytes fit {name}: try --hash {name}, or `odht info`"
    )
}
