//! Keys and values of a length that is known only at run time, as text: by the type that the form
//! says they are of.
ghost use Rattle.std.specs.Prelude.{◌≡◌, ◌↔◌, ℕ, List, IfSome, IsNone, IsTrue, OnOk, length};
ghost use Rattle.std.specs.Io.KnownBytes.{Appends};
ghost use Rattle.std.specs.List.{AllPass};
ghost use Rattle.std.specs.Int.{from_le_bytes, w32, w64};
ghost use Rattle.odht_tool_core.specs.Forms.{IsBytesText, StandsForBytes, part_in};
ghost use Rattle.odht_tool_core.specs.Json.{is_simple};
ghost use Rattle.odht_tool_core.specs.Misreads.{IsWanted, typed_wanted};
ghost use Rattle.odht_tool_core.specs.ReadyShapes.{IsTypedWord, StandsFor, typed_len, typed_of};
ghost use Rattle.odht_tool_core.specs.DynTexts.{IsDynamicWord, StandsForDynamic, dynamic_text};
ghost use Rattle.odht_tool_core.specs.DynTexts.{dynamic_wanted};

use crate::forms::Form;
use crate::hexadecimal::{no_plain_bytes, read_digits};
use crate::misread::Wanted;
use crate::plain::read_plain;
use crate::shapes::Part;
use crate::text::{Text, write_bytes};
use crate::typed::{plain_bytes, write_stored};
use crate::written::Written;
use odht_raw::raw_table::ShortBytes;
use std::io::{self, Write};
use std::marker::Model;

/// The form says their type. Bytes of another length than it has are written in hexadecimal
/// digits.
impl Text for ShortBytes {
    ghost is_word = { IsDynamicWord };

    ghost stands_for = { StandsForDynamic };

    ghost wants = { dynamic_wanted };

    fn wanted(form: Form) -> Wanted {
        let part = form.part();
        if part.size() == 0 {
            Wanted::Nothing
        } else {
            wanted_of(part, form.part_form())
        }
    }

    fn parse(word: &[u8], form: Form) -> Option<ShortBytes> {
        let mut bytes = [0; 255];
        let bytes = &mut bytes[..form.part().size() as usize];
        if read_bytes(word, form, bytes) {
            Some(ShortBytes::of(bytes))
        } else {
            None
        }
    }
}

impl Written for ShortBytes {
    ghost text = { dynamic_text };

    fn plain_bytes(&self, form: Form) -> Option<&[u8]> {
        plain_bytes_in(self.as_slice(), form)
    }

    fn write<W: Write>(&self, form: Form, output: &mut W) -> io::Result<()> {
        write_bytes_in(self.as_slice(), form, output)
    }
}

/// Bytes of a length that is known only at run time, where they lie.
///
/// In a contract it is the list of these bytes.
#[derive(Drop)]
pub struct DynBytes<'a> {
    bytes: &'a [u8],
}

impl<'a> Model for DynBytes<'a> {
    ghost use Rattle.std.specs.Prelude.{ℕ, List};

    ghost Value = { List ℕ };

    ghost view = { λ s. s.bytes.now };
}

impl<'a> DynBytes<'a> {
    /// These bytes.
    #[inline(always)]
    pub fn of(bytes: &'a [u8]) -> DynBytes<'a>
        ensures { result ≡ bytes.now }
    {
        DynBytes { bytes }
    }
}

impl<'a> Written for DynBytes<'a> {
    ghost text = { dynamic_text };

    fn plain_bytes(&self, form: Form) -> Option<&[u8]> {
        plain_bytes_in(self.bytes, form)
    }

    fn write<W: Write>(&self, form: Form, output: &mut W) -> io::Result<()> {
        write_bytes_in(self.bytes, form, output)
    }
}

// The text of the bytes, where it may have any bytes.
fn plain_bytes_in(bytes: &[u8], form: Form) -> Option<&[u8]>
    ensures some { IfSome result (λ t. t.now ≡ dynamic_text form bytes.now) }
    ensures none { IsNone result → AllPass is_simple (dynamic_text form bytes.now) }
{
    let part = form.part();
    if bytes.len() == part.size() as usize {
        plain_bytes(part, form.part_form(), bytes)
    } else {
        no_plain_bytes(bytes)
    }
}

// Writes the text of the bytes.
fn write_bytes_in<W: Write>(bytes: &[u8], form: Form, output: &mut W) -> io::Result<()>
    ensures { OnOk result (Appends (W.contents output.old) (W.contents output.new)
        (dynamic_text form bytes.now)) }
{
    let part = form.part();
    if bytes.len() == part.size() as usize {
        write_stored(part, form.part_form(), bytes, output)
    } else {
        write_bytes(bytes, output)
    }
}

// What the texts of this type are in this form.
fn wanted_of(part: Part, form: Form) -> Wanted
    ensures is { result ≡ typed_wanted form part }
    ensures word { (word : List ℕ) → IsTypedWord form part word ↔ IsWanted result word }
{
    match part {
        Part::Nothing => Wanted::Nothing,
        Part::U32 => <u32 as Text>::wanted(form),
        Part::U64 => <u64 as Text>::wanted(form),
        Part::Bytes(len) => match form {
            Form::Plain => Wanted::Text(len as usize),
            _ => Wanted::Bytes(len as usize),
        },
    }
}

/// Whether the word is a text in this form. The bytes, as many as the type of the form has, then
/// become those that it stands for.
pub(crate) fn read_bytes(word: &[u8], form: Form, bytes: &mut [u8]) -> bool
    requires { length bytes.old ≡ typed_len (part_in form) }
    ensures value { IsTrue result → StandsForDynamic form word.now bytes.new }
    ensures word { IsTrue result ↔ IsDynamicWord form word.now }
    ensures len { length bytes.new ≡ length bytes.old }
{
    read_stored(word, form.part(), form.part_form(), bytes)
}

// The same of a type, and the form of what is of it.
fn read_stored(word: &[u8], part: Part, form: Form, bytes: &mut [u8]) -> bool
    requires { length bytes.old ≡ typed_len part }
    ensures value { IsTrue result → StandsFor form part word.now (typed_of part bytes.new) }
    ensures word { IsTrue result ↔ IsTypedWord form part word.now }
    ensures len { length bytes.new ≡ length bytes.old }
{
    match part {
        Part::Nothing => word.is_empty(),
        Part::U32 => match <u32 as Text>::parse(word, form) {
            Some(number) => {
                put_u32(number, bytes);
                true
            }
            None => false,
        },
        Part::U64 => match <u64 as Text>::parse(word, form) {
            Some(number) => {
                put_u64(number, bytes);
                true
            }
            None => false,
        },
        Part::Bytes(_) => read_sized(word, form, bytes),
    }
}

// Whether the word is the text of that many bytes in this form. They then become these.
#[inline(always)]
fn read_sized(word: &[u8], form: Form, bytes: &mut [u8]) -> bool
    ensures value { IsTrue result → StandsForBytes form word.now bytes.new }
    ensures word { IsTrue result ↔ IsBytesText (length bytes.old) form word.now }
    ensures len { length bytes.new ≡ length bytes.old }
{
    match form {
        Form::Plain => {
            bytes.fill(0);
            read_plain(word, bytes)
        }
        _ => read_digits(word, bytes),
    }
}

// Puts the stored bytes of a number, the lowest first.
fn put_u32(number: u32, bytes: &mut [u8])
    requires { length bytes.old ≡ 4 }
    ensures len { length bytes.new ≡ 4 }
    ensures value { from_le_bytes w32 bytes.new ≡ number }
{
    bytes.copy_from_slice(&number.to_le_bytes());
}

// The same of a number of 64 bits.
fn put_u64(number: u64, bytes: &mut [u8])
    requires { length bytes.old ≡ 8 }
    ensures len { length bytes.new ≡ 8 }
    ensures value { from_le_bytes w64 bytes.new ≡ number }
{
    bytes.copy_from_slice(&number.to_le_bytes());
}
