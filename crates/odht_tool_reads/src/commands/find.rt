//! `odht find`: the tables inside a file.
ghost use Rattle.std.specs.Prelude.{◌≡◌, ◌<◌, true, drop, length, slice_index, None, IfErr, OnOk};
ghost use Rattle.std.specs.Prelude.{unwrap_or};
ghost use Rattle.std.specs.Io.KnownBytes.{Appends};
ghost use Rattle.odht_tool_core.specs.Endings.{IsOutputFailure};
ghost use Rattle.odht_tool_core.specs.Finds.{AreTables, is_table};
ghost use Rattle.odht_tool_core.specs.AnyShapes.{found_any};
ghost use Rattle.odht_tool_reads.specs.FindLines.{AreFound, begin_text, comma_of, found_text};
ghost use Rattle.odht_tool_reads.specs.FindLines.{none_text, table_item, table_text, tables_object, tables_text};
ghost use Rattle.odht_tool_reads.specs.Outcomes.{check_word};

use odht::error::Error;
use odht_tool_core::failure::Failure;
use odht_tool_core::find::{find_tables, write_row};
use odht_tool_core::found::found_any;
use odht_tool_core::front::table_at;
use odht_tool_core::job::Job;
use odht_tool_core::json::write_file_field;
use odht_tool_core::status::Status;
use odht_tool_tables::checks::check_any;
use std::io::{self, Write};

/// `odht find` of the bytes of a file: writes a line for each table inside them, or an object of
/// JSON. The offsets are those in the file, whose first bytes may be left out. The status is `NotDone` where there is none. `Forged` where there are headers that
/// overlap, as `find_tables` says.
pub fn find_file<O: Write>(job: &Job<'_>, output: &mut O) -> Result<Status, Failure>
    ensures { let j = job.now
        in AreFound j.bytes.now (found_text j.is_json j.file.now (unwrap_or j.at 0) j.bytes.now j.bound)
        (O.contents output.old) (O.contents output.new) result }
{
    let tables = find_tables(job.alloc, job.bytes)?;
    write_found(job, tables.as_slice(), output)?;
    Ok(Status::of(tables.len() > 0))
}

/// Writes a line that tells that no table is in a file.
pub fn write_none<E: Write>(file: &str, errors: &mut E) -> io::Result<()>
    ensures { OnOk result
        (Appends (E.contents errors.old) (E.contents errors.new) (none_text file.now)) }
{
    writeln!(errors, "odht: {file}: no table is in it")
}

// Writes the tables at these offsets, in lines or as an object.
fn write_found<O: Write>(job: &Job<'_>, tables: &[usize], output: &mut O) -> Result<(), Failure>
    requires { AreTables job.now.bytes.now 0 tables.now }
    ensures ok { let j = job.now
        in OnOk result (Appends (O.contents output.old) (O.contents output.new)
        (found_text j.is_json j.file.now (unwrap_or j.at 0) j.bytes.now j.bound tables.now)) }
    ensures err { IfErr result IsOutputFailure }
{
    if job.is_json {
        write_object(job, tables, output)
    } else {
        write_tables(job, tables, output)
    }
}

// Writes the object of the file, and of the tables at these offsets.
fn write_object<O: Write>(job: &Job<'_>, tables: &[usize], output: &mut O) -> Result<(), Failure>
    requires { AreTables job.now.bytes.now 0 tables.now }
    ensures ok { let j = job.now
        in OnOk result (Appends (O.contents output.old) (O.contents output.new)
        (tables_object j.file.now
        (tables_text j.is_json (unwrap_or j.at 0) j.bytes.now j.bound tables.now))) }
    ensures err { IfErr result IsOutputFailure }
{
    write_begin(job.file, output).map_err(Failure::Output)?;
    write_tables(job, tables, output)?;
    output.write_all(b"]}\n").map_err(Failure::Output)
}

// Writes what stands before the first table of an object.
fn write_begin<O: Write>(file: &str, output: &mut O) -> io::Result<()>
    ensures { OnOk result
        (Appends (O.contents output.old) (O.contents output.new) (begin_text file.now)) }
{
    write_file_field(file, output)?;
    output.write_all(b",\"tables\":[")
}

// Writes the tables at these offsets.
fn write_tables<O: Write>(job: &Job<'_>, tables: &[usize], output: &mut O) -> Result<(), Failure>
    requires { AreTables job.now.bytes.now 0 tables.now }
    ensures ok { let j = job.now
        in OnOk result (Appends (O.contents output.old) (O.contents output.new)
        (tables_text j.is_json (unwrap_or j.at 0) j.bytes.now j.bound tables.now)) }
    ensures err { IfErr result IsOutputFailure }
{
    for index in 0..tables.len() {
        write_item(job, tables, index, output)?;
    }
    Ok(())
}

// Writes a table of these, as an object with a comma before it but before the first.
fn write_item<O: Write>(
    job: &Job<'_>,
    tables: &[usize],
    index: usize,
    output: &mut O,
) -> Result<(), Failure>
    requires index { index < length tables.now }
    requires table { is_table (drop (slice_index tables.now index) job.now.bytes.now) ≡ true }
    ensures ok { let j = job.now
        in OnOk result (Appends (O.contents output.old) (O.contents output.new)
        (table_item j.is_json (unwrap_or j.at 0) j.bytes.now j.bound tables.now index)) }
    ensures err { IfErr result IsOutputFailure }
{
    let comma = comma_of(job.is_json, index);
    output.write_all(comma.as_bytes()).map_err(Failure::Output)?;
    write_table(job, tables[index], output)
}

// What stands before a table: a comma between objects.
fn comma_of(is_json: bool, index: usize) -> &'static str
    ensures { result.now ≡ comma_of is_json index }
{
    if is_json && index > 0 { "," } else { "" }
}

// Writes the line or the object of the table at this offset.
fn write_table<O: Write>(job: &Job<'_>, at: usize, output: &mut O) -> Result<(), Failure>
    requires { is_table (drop at job.now.bytes.now) ≡ true }
    ensures ok { let j = job.now
        in OnOk result (Appends (O.contents output.old) (O.contents output.new)
        (table_text j.is_json (unwrap_or j.at 0) j.bytes.now j.bound at)) }
    ensures err { IfErr result IsOutputFailure }
{
    let table = table_at(job.bytes, at)?;
    let checked = check_word(table, job.bound);
    let offset = job.at.unwrap_or(0) as u128 + at as u128;
    write_row(offset, table, checked, job.is_json, output)
}

// What the check says of a table; `-` where its control bytes fit no hash function.
fn check_word(table: &[u8], bound: Option<usize>) -> &'static str
    ensures { result.now ≡ check_word bound table.now (found_any table.now None) }
{
    let Ok(shape) = found_any(table, None) else {
        return "-";
    };
    match check_any(shape, table, bound) {
        Ok(()) => "valid",
        Err(Error::SearchTooLong { .. }) => "long",
        Err(_) => "rejected",
    }
}
