//! The ways to write stored keys or values. What is generic in them is compiled for numbers by
//! itself, and asks for their type once for a table, and not for each.
ghost use Rattle.std.specs.Prelude.{◌≡◌, ℕ, List, length, decimal, OnOk};
ghost use Rattle.std.specs.Int.{w32, w64, from_le_bytes};
ghost use Rattle.std.specs.Io.KnownBytes.{Appends};
ghost use Rattle.odht_tool_core.specs.ReadyShapes.{typed_len};
ghost use Rattle.odht_tool_core.specs.StoredTexts.{stored_text};

use super::write_stored;
use crate::digits::write_number;
use crate::forms::Form;
use crate::shapes::Part;
use odht_base::bytes::ByteArray;
use std::io::{self, Write};

/// How keys or values are written, of their stored bytes.
pub trait TextWriter: Copy {
    ghost len: { Self → ℕ };

    ghost text: { Self → List ℕ → List ℕ };

    /// Writes the text of what is stored as these bytes.
    fn write_text<W: Write>(self, bytes: &[u8], output: &mut W) -> io::Result<()>
        requires { length bytes.now ≡ len self }
        ensures { OnOk result (Appends (W.contents output.old) (W.contents output.new)
            (text self bytes.now)) };
}

/// Numbers of four bytes, in decimal digits.
#[derive(Clone, Copy)]
pub struct Digits32;

impl TextWriter for Digits32 {
    ghost len = { λ way. 4 };

    ghost text = { λ way bytes. decimal (from_le_bytes w32 bytes) };

    #[inline(always)]
    fn write_text<W: Write>(self, bytes: &[u8], output: &mut W) -> io::Result<()> {
        let number = u32::from_le_bytes(<[u8; 4]>::from_slice(bytes));
        write_number(u64::from(number), output)
    }
}

/// Numbers of eight bytes, in decimal digits.
#[derive(Clone, Copy)]
pub struct Digits64;

impl TextWriter for Digits64 {
    ghost len = { λ way. 8 };

    ghost text = { λ way bytes. decimal (from_le_bytes w64 bytes) };

    #[inline(always)]
    fn write_text<W: Write>(self, bytes: &[u8], output: &mut W) -> io::Result<()> {
        write_number(u64::from_le_bytes(<[u8; 8]>::from_slice(bytes)), output)
    }
}

/// Keys or values of any type, in any form.
#[derive(Clone, Copy)]
pub struct Typed {
    /// Their type.
    pub part: Part,
    /// Their form.
    pub form: Form,
}

impl TextWriter for Typed {
    ghost len = { λ way. typed_len way.part };

    ghost text = { λ way. stored_text way.form way.part };

    fn write_text<W: Write>(self, bytes: &[u8], output: &mut W) -> io::Result<()> {
        write_stored(self.part, self.form, bytes, output)
    }
}
