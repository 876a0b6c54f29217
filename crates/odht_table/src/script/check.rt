//! The line of a script that checks bytes. It needs no table.
ghost use Rattle.std.specs.Prelude.{◌≡◌, ◌%◌, ◌<◌, ◌++◌, ◌↔◌, false, OnOk, IfOk, IfSome, IsSome};
ghost use Rattle.std.specs.Prelude.{List, ℕ, length, codes, IsTrue};
ghost use Rattle.std.specs.Char.{is_ascii_hexdigit, to_ascii_lowercase};
ghost use Rattle.std.specs.Fmt.{digit_glyph};
ghost use Rattle.std.specs.Io.KnownBytes.{Appends};
ghost use Rattle.std.specs.List.{AllPass};
ghost use Rattle.odht_table.specs.Answers.{line_of, check_text};
ghost use Rattle.odht_table.specs.Commands.{IsHexText, IsCheckText};
ghost use Rattle.odht_table.specs.Scripts.{IsOtherAnswered};

use odht::config::Coded;
use odht::configs::U64ToU32;
use odht::memory_layout::check_all;
use std::alloc::{AllocError, Global};
use std::io::{self, Write};

/// Answers a line that is no command: with the result of the whole check of the bytes that it
/// writes, or with `malformed`.
pub fn answer_check<W: Write>(alloc: Global, line: &[u8], output: &mut W) -> io::Result<()>
    ensures { (text : List ℕ) × IsOtherAnswered ⟦<U64ToU32 as Coded>⟧.coding.format line.now text
        × OnOk result (Appends (W.contents output.old) (W.contents output.new) (line_of text)) }
{
    let Some(digits) = digits_of(line) else {
        return writeln!(output, "malformed");
    };
    match bytes_of(alloc, digits) {
        Ok(bytes) => write_checked(bytes.as_slice(), output),
        Err(_) => writeln!(output, "memory"),
    }
}

// The digits of a line that checks bytes: an even number of digits, and nothing else. None for any
// other line.
fn digits_of(line: &[u8]) -> Option<&[u8]>
    ensures line { IfSome result (λ digits. line.now ≡ codes "check " ++ digits.now) }
    ensures even { IfSome result (λ digits. length digits.now % 2 ≡ 0) }
    ensures hex { IfSome result (λ digits. AllPass is_ascii_hexdigit digits.now) }
    ensures misses_none { (bytes : List ℕ) → IsCheckText line.now bytes → IsSome result }
{
    let digits = line.strip_prefix(b"check ")?;
    if digits.len() % 2 == 0 && are_digits(digits) {
        Some(digits)
    } else {
        None
    }
}

// Whether each byte is a hexadecimal digit, of either case.
fn are_digits(digits: &[u8]) -> bool
    ensures { IsTrue result ↔ AllPass is_ascii_hexdigit digits.now }
{
    digits.iter().all(|digit| digit.is_ascii_hexdigit())
}

// The bytes of which these are the digits.
fn bytes_of(alloc: Global, digits: &[u8]) -> Result<Vec<u8>, AllocError>
    requires even { length digits.now % 2 ≡ 0 }
    requires hex { AllPass is_ascii_hexdigit digits.now }
    ensures { IfOk result (λ bytes. IsHexText digits.now bytes.items) }
{
    let count = digits.len() / 2;
    let mut bytes = Vec::with_capacity(alloc, count)?;
    for at in 0..count {
        let high = digit_value(digits[2 * at]);
        let low = digit_value(digits[2 * at + 1]);
        bytes.push(16 * high + low)?;
    }
    Ok(bytes)
}

// The number that a digit of either case writes.
fn digit_value(digit: u8) -> u8
    requires { IsTrue (is_ascii_hexdigit digit) }
    ensures small { result < 16 }
    ensures digit { to_ascii_lowercase digit ≡ digit_glyph false result }
{
    match digit {
        b'a'..=b'f' => digit - b'a' + 10,
        b'A'..=b'F' => digit - b'A' + 10,
        _ => digit - b'0',
    }
}

fn write_checked<W: Write>(bytes: &[u8], output: &mut W) -> io::Result<()>
    ensures { OnOk result (Appends (W.contents output.old) (W.contents output.new)
        (line_of (check_text ⟦<U64ToU32 as Coded>⟧.coding.format bytes.now))) }
{
    match check_all::<U64ToU32>(bytes) {
        Ok(()) => writeln!(output, "valid"),
        Err(refused) => writeln!(output, "{refused}"),
    }
}
