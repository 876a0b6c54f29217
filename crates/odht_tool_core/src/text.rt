//! Keys and values as text: a number in decimal digits, with a sign or without, bytes in
//! hexadecimal digits or as plain text, and nothing at all.
ghost use Rattle.std.specs.Prelude.{◌≡◌, ◌↔◌, ◌<◌, ◌≤◌, ◌*◌, ◌%◌, ℕ};
ghost use Rattle.std.specs.Prelude.{List, [], length, take, max, slice_index, Some};
ghost use Rattle.std.specs.Prelude.{IfErr, IfSome, IsFalse, IsOk, IsSome, IsTrue, OnOk};
ghost use Rattle.std.specs.Prelude.{false};
ghost use Rattle.std.specs.Char.{is_ascii_hexdigit, to_ascii_lowercase};
ghost use Rattle.std.specs.Fmt.{digit_glyph};
ghost use Rattle.std.specs.List.{AllPass};
ghost use Rattle.std.specs.Io.KnownBytes.{Appends};
ghost use Rattle.odht_tool_core.specs.Digits.{IsValueOf};
ghost use Rattle.std.specs.Int.{w32, w64};
ghost use Rattle.odht_tool_core.specs.Forms.{IsNumberText, StandsForNumber};
ghost use Rattle.odht_tool_core.specs.Forms.{IsBytesText, StandsForBytes};
ghost use Rattle.odht_tool_core.specs.Misreads.{IsWanted, bytes_wanted, number_wanted};
ghost use Rattle.odht_tool_core.specs.declared.misread.Wanted.{Wanted};
ghost use Rattle.odht_tool_core.specs.declared.misread.Wanted.TheVariants.{Nothing, U32, U64, I32, I64};
ghost use Rattle.odht_tool_core.specs.Texts.{IsHexWord, WritesBytes, hex_text};

use crate::digits::parse_number;
use crate::forms::Form;
use crate::hexadecimal::read_many;
use crate::misread::Wanted;
use crate::plain::parse_plain;
use crate::signed::parse_signed;
use crate::written::Written;
use std::io::{self, Write};

/// A key or a value that has a text in each form, and is read from it.
pub trait Text: Written + Copy {
    ghost use Rattle.odht_tool_core.specs.declared.forms.Form.{Form};

    ghost is_word: { Form → List ℕ → Type 0 };

    ghost stands_for: { Form → List ℕ → Self → Type 0 };

    ghost wants: { Form → Wanted };

    /// What its texts are.
    fn wanted(form: Form) -> Wanted
        ensures is { result ≡ wants form }
        ensures word { (word : List ℕ) → is_word form word ↔ IsWanted result word };

    /// The value of which the word is the text. None where it is the text of no such value.
    fn parse(word: &[u8], form: Form) -> Option<Self>
        ensures value { IfSome result (stands_for form word.now) }
        ensures some { IsSome result ↔ is_word form word.now };
}

impl Text for u32 {
    ghost is_word = { IsNumberText w32 };

    ghost stands_for = { StandsForNumber w32 };

    ghost wants = { number_wanted U32 I32 };

    fn wanted(form: Form) -> Wanted {
        match form {
            Form::Signed => Wanted::I32,
            _ => Wanted::U32,
        }
    }

    fn parse(word: &[u8], form: Form) -> Option<u32> {
        match form {
            Form::Signed => u32::try_from(parse_signed(word, u64::from(u32::MAX))?).ok(),
            Form::BigEndian => {
                let number = u32::try_from(parse_number(word)?).ok()?;
                Some(number.swap_bytes())
            }
            _ => u32::try_from(parse_number(word)?).ok(),
        }
    }
}

impl Text for u64 {
    ghost is_word = { IsNumberText w64 };

    ghost stands_for = { StandsForNumber w64 };

    ghost wants = { number_wanted U64 I64 };

    fn wanted(form: Form) -> Wanted {
        match form {
            Form::Signed => Wanted::I64,
            _ => Wanted::U64,
        }
    }

    fn parse(word: &[u8], form: Form) -> Option<u64> {
        match form {
            Form::Signed => parse_signed(word, u64::MAX),
            Form::BigEndian => {
                let number = parse_number(word)?;
                Some(number.swap_bytes())
            }
            _ => parse_number(word),
        }
    }
}

impl Text for () {
    ghost is_word = { λ form word. word ≡ [] };

    ghost stands_for = { λ form word u. word ≡ [] };

    ghost wants = { λ form. Nothing };

    fn wanted(_form: Form) -> Wanted {
        Wanted::Nothing
    }

    fn parse(word: &[u8], _form: Form) -> Option<()> {
        if word.is_empty() { Some(()) } else { None }
    }
}

impl<const N: usize> Text for [u8; N] {
    ghost is_word = { IsBytesText N };

    ghost stands_for = { StandsForBytes };

    ghost wants = { bytes_wanted N };

    fn wanted(form: Form) -> Wanted {
        match form {
            Form::Plain => Wanted::Text(N),
            _ => Wanted::Bytes(N),
        }
    }

    fn parse(word: &[u8], form: Form) -> Option<[u8; N]> {
        match form {
            Form::Plain => parse_plain(word),
            _ => parse_bytes(word),
        }
    }
}

// The bytes with these hexadecimal digits, two for each byte, letters in either case.
fn parse_bytes<const N: usize>(word: &[u8]) -> Option<[u8; N]>
    ensures value { IfSome result (WritesBytes word.now) }
    ensures some { IsSome result ↔ IsHexWord N word.now }
{
    if word.len() % 2 != 0 || word.len() / 2 != N {
        return None;
    }
    if N <= 32 {
        parse_in_vectors(word)
    } else {
        parse_in_turn(word)
    }
}

/// The bytes, at most 32, with these hexadecimal digits: first the value of each digit, then the
/// byte of each two, so that the compiler makes vectors of both loops. All are read before a wrong
/// one is noticed, so that no step branches on a digit.
#[inline(always)]
pub(crate) fn parse_in_vectors<const N: usize>(word: &[u8]) -> Option<[u8; N]>
    requires few { N ≤ 32 }
    requires digits { length word.now ≡ 2 * N }
    ensures value { IfSome result (WritesBytes word.now) }
    ensures some { IsSome result ↔ IsHexWord N word.now }
{
    let mut values = [0; 64];
    if put_values(word, &mut values) >= 16 {
        return None;
    }
    let mut bytes = [0; N];
    for at in 0..N {
        let pair = u16::from_le_bytes([values[2 * at], values[2 * at + 1]]);
        bytes[at] = (16 * (pair % 16) + pair / 256) as u8;
    }
    Some(bytes)
}

// Puts the value of each digit at its place. Returns the largest, which is 16 where a byte is no
// digit.
#[inline(always)]
fn put_values(digits: &[u8], values: &mut [u8; 64]) -> u8
    requires { length digits.now ≤ 64 }
    ensures values { result < 16 → (k : ℕ) → k < length digits.now
        → IsValueOf (slice_index digits.now k) (slice_index values.new k) }
    ensures other { AllPass is_ascii_hexdigit digits.now → result < 16 }
{
    let mut largest = 0;
    for at in 0..digits.len() {
        let value = digit_value(digits[at]);
        values[at] = value;
        largest = max_of(largest, value);
    }
    largest
}

// The same of any number of bytes.
fn parse_in_turn<const N: usize>(word: &[u8]) -> Option<[u8; N]>
    requires { length word.now ≡ 2 * N }
    ensures value { IfSome result (WritesBytes word.now) }
    ensures some { IsSome result ↔ IsHexWord N word.now }
{
    let mut bytes = [0; N];
    if read_many(word, &mut bytes) {
        Some(bytes)
    } else {
        None
    }
}

fn max_of(a: u8, b: u8) -> u8
    ensures { result ≡ max a b }
{
    if a < b { b } else { a }
}

/// The number of a hexadecimal digit of either case, and 16 of any other byte.
#[inline(always)]
pub(crate) fn digit_value(byte: u8) -> u8
    ensures bound { result ≤ 16 }
    ensures digit { result < 16 → IsTrue (is_ascii_hexdigit byte) }
    ensures value { result < 16 → to_ascii_lowercase byte ≡ digit_glyph false result }
    ensures other { IsTrue (is_ascii_hexdigit byte) → result < 16 }
{
    match byte {
        b'0'..=b'9' => byte - b'0',
        b'a'..=b'f' => byte - b'a' + 10,
        b'A'..=b'F' => byte - b'A' + 10,
        _ => 16,
    }
}

/// Writes two lower-case digits for each byte, those of each byte by themselves. The error is that
/// of the writer, and nothing is written after it.
// They are put together for 32 bytes at once.
pub fn write_bytes<W: Write>(bytes: &[u8], output: &mut W) -> io::Result<()>
    ensures { OnOk result (Appends (W.contents output.old) (W.contents output.new)
        (hex_text bytes.now)) }
{
    let mut text = [0; 64];
    let mut rest = bytes;
    while !rest.is_empty() {
        let (piece, next) = rest.split_at(rest.len().min(32));
        put_bytes(piece, &mut text);
        write_in_pairs(&text[..2 * piece.len()], output)?;
        rest = next;
    }
    Ok(())
}

// Writes the digits of each byte by themselves. A buffer behind `output` that becomes full is then
// passed on with as many digits as fit, however long the text is.
#[inline(always)]
fn write_in_pairs<W: Write>(digits: &[u8], output: &mut W) -> io::Result<()>
    requires { length digits.now % 2 ≡ 0 }
    ensures { OnOk result (Appends (W.contents output.old) (W.contents output.new) digits.now) }
{
    let mut fault = None;
    let mut rest = digits;
    while let Some((pair, next)) = rest.split_first_chunk::<2>() {
        if !is_written(pair, output, &mut fault) {
            break;
        }
        rest = next;
    }
    match fault {
        None => Ok(()),
        Some(error) => Err(error),
    }
}

// Writes two digits. Where that fails, `fault` becomes the error.
#[inline(always)]
fn is_written<W: Write>(pair: &[u8; 2], output: &mut W, fault: &mut Option<io::Error>) -> bool
    ensures written { IsTrue result
        → Appends (W.contents output.old) (W.contents output.new) pair.now }
    ensures kept { IsTrue result → fault.new ≡ fault.old }
    ensures fault { IsFalse result → IsSome fault.new }
{
    went_well(output.write_all(pair), fault)
}

// Whether this went well. Where it did not, `fault` becomes its error.
//
// The error is put where it stays. As a part of the result it would be copied for each two digits,
// and zeros in its place where there is none.
#[inline(always)]
fn went_well(written: io::Result<()>, fault: &mut Option<io::Error>) -> bool
    ensures done { IsTrue result → IsOk written }
    ensures kept { IsOk written → IsTrue result × (fault.new ≡ fault.old) }
    ensures fault { IfErr written (λ e. fault.new ≡ Some e) }
{
    match written {
        Ok(()) => true,
        Err(error) => {
            *fault = Some(error);
            false
        }
    }
}

// Puts two lower-case digits for each byte at the front of `text`, which is long enough.
#[inline(always)]
fn put_bytes(bytes: &[u8], text: &mut [u8])
    requires { 2 * length bytes.now ≤ length text.old }
    ensures digits { take (2 * length bytes.now) text.new ≡ hex_text bytes.now }
    ensures len { length text.new ≡ length text.old }
{
    for at in 0..bytes.len() {
        let byte = bytes[at];
        text[2 * at] = hex_digit(byte / 16);
        text[2 * at + 1] = hex_digit(byte % 16);
    }
}

#[inline(always)]
fn hex_digit(value: u8) -> u8
    requires { value < 16 }
    ensures { result ≡ digit_glyph false value }
{
    if value < 10 {
        b'0' + value
    } else {
        b'a' + (value - 10)
    }
}
