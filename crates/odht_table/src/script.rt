//! Runs a script: a list of lines, each of which makes, changes or prints a table, or checks
//! bytes.
ghost use Rattle.std.specs.Prelude.{◌≡◌, ◌≢◌, ◌↔◌, ◌⊎◌, ◌<◌, ◌≤◌, IfOk, OnOk, IfSome};
ghost use Rattle.std.specs.Prelude.{IsErrOf, Some, ℕ, List, ◌∷◌, ◌++◌, codes, length};
ghost use Rattle.std.specs.Io.KnownBytes.{IsAtEnd, Appends};
ghost use Rattle.std.specs.Fmt.{decimal};
ghost use Rattle.odht_base.specs.Load.{factor_of, max_items, slots_for};
ghost use Rattle.odht_base.specs.Table.{fresh};
ghost use Rattle.odht_header.specs.Refusals.{IsTooLarge};
ghost use Rattle.odht_table.specs.Answers.{line_of, pair_line, value_text, walk_text};
ghost use Rattle.odht_table.specs.Answers.{IsPutAnswered, IsAnswered, IsRenewed, MayChange};
ghost use Rattle.odht_table.specs.Scripts.{script_lines, IsLineAnswered, IsAnsweredBy};
ghost use Rattle.odht_tool_core.specs.Texts.{hex_text};

mod check;
mod command;

use check::answer_check;
use command::{Command, Request, parse};
use odht::config::Coded;
use odht::configs::U64ToU32;
use odht::error::Error;
use odht::load::{Factor, max_item_count_for, slots_needed};
use odht::{HashTableOwned, Iter};
use odht_tool_core::forms::Form;
use odht_tool_core::places::cut_at;
use odht_tool_core::text::write_bytes;
use odht_tool_core::written::Written;
use std::alloc::Global;
use std::fmt;
use std::io::{self, ErrorKind, Read, Write};

/// The table that a script works on.
type Table = HashTableOwned<U64ToU32>;

/// Why a run stopped before its script was answered.
#[derive(Clone, Copy, Debug, PartialEq, Eq)]
pub enum Fault {
    /// The script could not be read.
    Read,
    /// An answer could not be written.
    Write,
    /// There was not enough memory for the script.
    Memory,
}

impl fmt::Display for Fault {
    ghost use Rattle.std.specs.Prelude.{Some};
    ghost use Rattle.odht_table.specs.Messages.{fault_text};

    ghost output = { λ fault. Some (fault_text fault) };

    fn fmt<W: fmt::Write>(&self, f: &mut fmt::Formatter<W>) -> fmt::Result {
        match self {
            Fault::Read => write!(f, "read failed"),
            Fault::Write => write!(f, "write failed"),
            Fault::Memory => write!(f, "memory"),
        }
    }
}

impl std::error::Error for Fault {}

/// Reads a script to its end, and then answers each of its lines with a line.
///
/// | line | answer |
/// |---|---|
/// | `new N P` | `slots S max M` of a fresh table for N items at P percent, or `bad percent`, `capacity` or `memory` |
/// | `put K V` | `none`, or `was W` where W was the value of K; or `memory` |
/// | `get K` | the value of K, or `none` |
/// | `len` | how many items there are |
/// | `walk` | a line `K V` for each pair, in slot order, and then the line `end` |
/// | `hex` | the bytes of the table in hexadecimal digits |
/// | `dump` | the numbers of the header on a line, then each slot on a line |
/// | `check HEX` | `valid` where these hexadecimal digits are those of a valid table, or the error; or `memory` |
///
/// Any other line is answered with `malformed`. Before the first table a request, a line other
/// than `new` and `check`, is answered with `no table`. A `new` or a `put` that fails leaves the
/// table as it was, and so does each `check`, which may have no digits. docs/SCRIPT.md has the
/// whole language.
pub fn run<R: Read, W: Write>(alloc: Global, input: &mut R, output: &mut W) -> Result<(), Fault>
    ensures answers { OnOk result (IfSome (R.remaining input.old)
        (λ script. (text : List ℕ) × IsAnsweredBy ⟦<U64ToU32 as Coded>⟧.coding script text
        × Appends (W.contents output.old) (W.contents output.new) text)) }
    ensures end { OnOk result (IsAtEnd (R.remaining input.new)) }
    ensures write { IsErrOf result Fault.Write → IsAtEnd (R.remaining input.new) }
    ensures silent { IsErrOf result Fault.Read ⊎ IsErrOf result Fault.Memory
        → output.new ≡ output.old }
{
    let script = read_script(alloc, input)?;
    answer_lines(alloc, script.as_slice(), output).or(Err(Fault::Write))
}

fn read_script<R: Read>(alloc: Global, input: &mut R) -> Result<Vec<u8>, Fault>
    ensures bytes { IfOk result (λ script. IfSome (R.remaining input.old)
        (λ bytes. script.items ≡ bytes)) }
    ensures end { OnOk result (IsAtEnd (R.remaining input.new)) }
    ensures not_write { result ≢ Err Fault.Write }
{
    let mut script = Vec::new(alloc);
    match input.read_to_end(&mut script) {
        Ok(_) => Ok(script),
        Err(refused) if refused.kind() == ErrorKind::OutOfMemory => Err(Fault::Memory),
        Err(_) => Err(Fault::Read),
    }
}

fn answer_lines<W: Write>(alloc: Global, script: &[u8], output: &mut W) -> io::Result<()>
    ensures { OnOk result ((text : List ℕ)
        × IsAnsweredBy ⟦<U64ToU32 as Coded>⟧.coding script.now text
        × Appends (W.contents output.old) (W.contents output.new) text) }
{
    let mut table = None;
    let mut rest = script;
    while !rest.is_empty() {
        let (line, next) = cut_line(rest);
        answer(alloc, line, &mut table, output)?;
        rest = next;
    }
    output.flush()
}

// The first line, without its end, and what follows it. A last line without an end counts too.
fn cut_line(script: &[u8]) -> (&[u8], &[u8])
    requires { 0 < length script.now }
    ensures line { script_lines script.now ≡ result.0.now ∷ script_lines result.1.now }
    ensures shorter { length result.1.now < length script.now }
{
    match cut_at(script, b'\n') {
        Some(parts) => parts,
        None => (script, &[]),
    }
}

fn answer<W: Write>(
    alloc: Global,
    line: &[u8],
    table: &mut Option<Table>,
    output: &mut W,
) -> io::Result<()>
    ensures { (text : List ℕ)
        × IsLineAnswered ⟦<U64ToU32 as Coded>⟧.coding line.now table.old text table.new
        × OnOk result (Appends (W.contents output.old) (W.contents output.new) text) }
{
    let Some(command) = parse(line) else {
        return answer_check(alloc, line, output);
    };
    match command {
        Command::New {
            max_item_count,
            percent,
        } => renew(alloc, table, max_item_count, percent, output),
        Command::OnTable(request) => match table {
            None => writeln!(output, "no table"),
            Some(table) => serve(table, request, output),
        },
    }
}

fn serve<W: Write>(table: &mut Table, request: Request, output: &mut W) -> io::Result<()>
    ensures answered { (text : List ℕ)
        × IsAnswered ⟦<U64ToU32 as Coded>⟧.coding table.old request text table.new
        × OnOk result (Appends (W.contents output.old) (W.contents output.new) text) }
    ensures kept { ¬ (MayChange request) → table.new ≡ table.old }
{
    match request {
        Request::Put { key, value } => put(table, key, value, output),
        Request::Get { key } => write_value(table.get(&key), output),
        Request::Len => write_number_line(table.len() as u64, output),
        Request::Walk => write_walk(table.iter(), output),
        Request::Hex => write_hex(table.raw_bytes(), output),
        Request::Dump => write!(output, "{table:?}"),
    }
}

/// Why a `new` made no table.
#[derive(Clone, Copy, Debug, PartialEq, Eq)]
enum Refusal {
    BadPercent,
    Capacity,
    Memory,
}

impl fmt::Display for Refusal {
    ghost use Rattle.std.specs.Prelude.{Some};
    ghost use Rattle.odht_table.specs.Messages.{refusal_text};

    ghost output = { λ refusal. Some (refusal_text refusal) };

    fn fmt<W: fmt::Write>(&self, f: &mut fmt::Formatter<W>) -> fmt::Result {
        match self {
            Refusal::BadPercent => write!(f, "bad percent"),
            Refusal::Capacity => write!(f, "capacity"),
            Refusal::Memory => write!(f, "memory"),
        }
    }
}

/// A fresh table, its slot count and its maximum item count.
#[derive(Drop)]
struct Fresh {
    table: Table,
    slot_count: usize,
    max_item_count: usize,
}

// Replaces the table by a fresh one. On an error the former table stays.
fn renew<W: Write>(
    alloc: Global,
    table: &mut Option<Table>,
    max_item_count: usize,
    percent: u64,
    output: &mut W,
) -> io::Result<()>
    ensures { (text : List ℕ)
        × IsRenewed ⟦<U64ToU32 as Coded>⟧.coding.format max_item_count percent text table.old
        table.new
        × OnOk result (Appends (W.contents output.old) (W.contents output.new) (line_of text)) }
{
    match make_fresh(alloc, max_item_count, percent) {
        Ok(fresh) => {
            *table = Some(fresh.table);
            writeln!(
                output,
                "slots {} max {}",
                fresh.slot_count, fresh.max_item_count
            )
        }
        Err(refusal) => writeln!(output, "{refusal}"),
    }
}

fn make_fresh(alloc: Global, max_item_count: usize, percent: u64) -> Result<Fresh, Refusal>
    ensures bad_percent { IsErrOf result Refusal.BadPercent ↔ ((percent < 1) ⊎ (100 < percent)) }
    ensures capacity { 1 ≤ percent → percent ≤ 100
        → (IsErrOf result Refusal.Capacity ↔ IsTooLarge ⟦<U64ToU32 as Coded>⟧.coding.format
        max_item_count (factor_of percent)) }
    ensures table { IfOk result (λ made. fresh max_item_count percent ≡ Some made.table) }
    ensures slots { IfOk result (λ made. slots_for max_item_count (factor_of percent)
        ≡ Some made.slot_count) }
    ensures most { IfOk result (λ made. made.max_item_count
        ≡ max_items made.slot_count (factor_of percent)) }
{
    if percent < 1 || percent > 100 {
        return Err(Refusal::BadPercent);
    }
    let percent = percent as u8;
    let factor = Factor::from_percent(percent);
    let slot_count = slots_needed(max_item_count, factor).ok_or(Refusal::Capacity)?;
    let table = match HashTableOwned::with_capacity(alloc, max_item_count, percent) {
        Ok(table) => table,
        Err(Error::Capacity) => return Err(Refusal::Capacity),
        Err(_) => return Err(Refusal::Memory),
    };
    Ok(Fresh {
        table,
        slot_count,
        max_item_count: max_item_count_for(slot_count, factor),
    })
}

// Answers with the key's former value. When memory for a growth is exhausted the table stays as it
// was.
fn put<W: Write>(table: &mut Table, key: u64, value: u32, output: &mut W) -> io::Result<()>
    ensures { (text : List ℕ)
        × IsPutAnswered ⟦<U64ToU32 as Coded>⟧.coding table.old key value text table.new
        × OnOk result (Appends (W.contents output.old) (W.contents output.new) text) }
{
    match table.insert(&key, &value) {
        Ok(None) => output.write_all(b"none\n"),
        Ok(Some(former)) => write_former(former, output),
        Err(_) => output.write_all(b"memory\n"),
    }
}

fn write_former<W: Write>(former: u32, output: &mut W) -> io::Result<()>
    ensures { OnOk result (Appends (W.contents output.old) (W.contents output.new)
        (line_of (codes "was " ++ decimal former))) }
{
    output.write_all(b"was ")?;
    write_number_line(u64::from(former), output)
}

fn write_value<W: Write>(value: Option<u32>, output: &mut W) -> io::Result<()>
    ensures { OnOk result (Appends (W.contents output.old) (W.contents output.new)
        (line_of (value_text value))) }
{
    match value {
        None => output.write_all(b"none\n"),
        Some(value) => write_number_line(u64::from(value), output),
    }
}

fn write_number_line<W: Write>(number: u64, output: &mut W) -> io::Result<()>
    ensures { OnOk result (Appends (W.contents output.old) (W.contents output.new)
        (line_of (decimal number))) }
{
    number.write(Form::Own, output)?;
    output.write_all(b"\n")
}

// Each pair on a line, and then the line `end`.
fn write_walk<W: Write>(walk: Iter<'_, U64ToU32>, output: &mut W) -> io::Result<()>
    ensures { OnOk result (Appends (W.contents output.old) (W.contents output.new)
        (walk_text walk.entry)) }
{
    for (key, value) in walk {
        write_pair_line(key, value, output)?;
    }
    output.write_all(b"end\n")
}

fn write_pair_line<W: Write>(key: u64, value: u32, output: &mut W) -> io::Result<()>
    ensures { OnOk result (Appends (W.contents output.old) (W.contents output.new)
        (pair_line (key, value))) }
{
    key.write(Form::Own, output)?;
    output.write_all(b" ")?;
    write_number_line(u64::from(value), output)
}

// Two lower-case digits for each byte, on one line.
fn write_hex<W: Write>(bytes: &[u8], output: &mut W) -> io::Result<()>
    ensures { OnOk result (Appends (W.contents output.old) (W.contents output.new)
        (line_of (hex_text bytes.now))) }
{
    write_bytes(bytes, output)?;
    output.write_all(b"\n")
}
